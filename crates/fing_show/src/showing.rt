// From a source's bytes to its verdict and its page.
ghost use Rattle.std.specs.Prelude.{◌≡◌, ◌⊎◌, ◌≤◌, IfOk, None, length};
ghost use Rattle.fing_lexer.specs.declared.lexer.LexRefusal.TheVariants.{Mem as WantOfMemory};
ghost use Rattle.fing_lexer.specs.Tokens.{RefusalOf};
ghost use Rattle.fing_refusals.specs.Inner.Plain.{plain_reason};
ghost use Rattle.fing_show.specs.Inner.Heads.{Begins, Shows, ShowsProgram, ShowsTokens, lexical_title, refused_head, title_of_reason};
ghost use Rattle.fing_show.specs.Inner.Judged.{IsReported, Judges, JudgesProgram, JudgesTokens};
ghost use Rattle.fing_show.specs.Inner.Ran.{Runs, RunsProgram, RunsTokens, budget_of};
ghost use Rattle.fing_show.specs.declared.showing.Verdict.TheVariants.{NoTokens};

use crate::pages::{Given, Named, lexical_page, refused_page, syntax_page};
use crate::places::names_at;
use crate::running::accepted;
use crate::view::View;
use fing_elab::elab;
use fing_lexer::{LexRefusal, Token, tokens};
use fing_parser::{ParseRefusal, program};
use fing_refusals::{ElabWhy, Refusal};
use fing_syntax::Program;
use fing_text::{SOURCE_LIMIT, Span};
use omega_kinds::Mem;
use omega_machine::End;
use show_declared::declarations_of;
use std::alloc::Global;

/// What the rules say of a source.
#[derive(Clone, Copy, Debug, PartialEq, Eq)]
pub enum Verdict {
    /// It is a program that means something.
    Accepted,
    /// It has no tokens, for this reason.
    NoTokens(LexRefusal),
    /// Its tokens are no program: the longest prefix of them that begins some program has `at` tokens.
    NoProgram { at: u32 },
    /// It is a program that means nothing, because of the phrase at this place.
    NoMeaning { at: Span },
}

/// A verdict and the page that shows it, and what the run of an accepted program comes to where its steps are shown.
#[derive(Drop)]
pub struct Shown {
    pub verdict: Verdict,
    pub text: Vec<u8>,
    pub end: Option<End>,
}

/// What is shown of a source of at most 1,048,576 bytes, which a page calls by the name. The verdict is the one that
/// the rules give. For a refusal the page begins with `error: ` and its title, and then has the place, an excerpt, a sentence, a hint and
/// where docs/errors.md explains it. For a program it has what the view shows of it; a signature stands behind the effect.
/// Where the view shows steps, `end` is what the whole term comes to within the budget. `Err` is out of memory.
///
/// Rossberg, Russo and Dreyer, "F-ing modules", sections 4 to 7, Elaboration.
pub fn show(alloc: Global, name: &[u8], source: &[u8], view: View) -> Result<Shown, Mem>
    requires { length source.now ≤ SOURCE_LIMIT }
    ensures verdict { IfOk result (λ s. Judges source.now s.verdict) }
    ensures end { IfOk result (λ s. Runs source.now (budget_of view) s.verdict s.end) }
    ensures page { IfOk result (λ s. Shows source.now view s.verdict s.text.items) }
{
    match tokens(alloc, source) {
        Ok(tokens) => show_tokens(alloc, Named { name, source }, &tokens, view),
        Err(why) => show_lexical(alloc, name, source, why),
    }
}

// What is shown of bytes that have no tokens for this reason, which may be out of memory.
fn show_lexical(alloc: Global, name: &[u8], source: &[u8], why: LexRefusal) -> Result<Shown, Mem>
    requires { (why ≡ WantOfMemory) ⊎ RefusalOf source.now why }
    ensures verdict { IfOk result (λ s. Judges source.now s.verdict × (s.verdict ≡ NoTokens why) × (s.end ≡ None)) }
    ensures page { IfOk result (λ s. Begins (refused_head (lexical_title why)) s.text.items) }
{
    if let LexRefusal::Mem = why {
        return Err(Mem);
    }
    Ok(Shown {
        verdict: Verdict::NoTokens(why),
        text: lexical_page(alloc, name, source, why)?,
        end: None,
    })
}

// What is shown of the tokens of a source.
fn show_tokens(alloc: Global, named: Named<'_>, tokens: &[Token], view: View) -> Result<Shown, Mem>
    requires { length tokens.now ≤ SOURCE_LIMIT }
    ensures verdict { IfOk result (λ s. JudgesTokens tokens.now s.verdict) }
    ensures end { IfOk result (λ s. RunsTokens tokens.now (budget_of view) s.verdict s.end) }
    ensures page { IfOk result (λ s. ShowsTokens tokens.now view s.verdict s.text.items) }
{
    let given = Given {
        named,
        tokens,
        view,
    };
    match program(alloc, tokens) {
        Ok(program) => show_program(alloc, given, program),
        Err(ParseRefusal::Mem) => Err(Mem),
        Err(ParseRefusal::Syntax { at }) => Ok(Shown {
            verdict: Verdict::NoProgram { at },
            text: syntax_page(alloc, given, at)?,
            end: None,
        }),
    }
}

// What is shown of the program that a source is.
fn show_program(alloc: Global, given: Given<'_>, program: Program) -> Result<Shown, Mem>
    ensures verdict { IfOk result (λ s. JudgesProgram program s.verdict) }
    ensures end { IfOk result (λ s. RunsProgram program (budget_of given.entry.view) s.verdict s.end) }
    ensures page { IfOk result (λ s. ShowsProgram program given.entry.view s.verdict s.text.items) }
{
    match elab(alloc, &program) {
        Ok(found) => {
            let shown = accepted(alloc, given, &program, &found)?;
            Ok(Shown {
                verdict: Verdict::Accepted,
                text: shown.text,
                end: shown.end,
            })
        }
        Err(refusal) => show_refusal(alloc, given, program, &refusal),
    }
}

// What is shown of a refusal of a program, which may be out of memory.
fn show_refusal(
    alloc: Global,
    given: Given<'_>,
    program: Program,
    refusal: &Refusal,
) -> Result<Shown, Mem>
    ensures verdict { IfOk result (λ s. IsReported refusal.now s.verdict × (s.end ≡ None)) }
    ensures page { IfOk result (λ s. Begins (refused_head (title_of_reason (plain_reason refusal.now.why))) s.text.items) }
{
    if let ElabWhy::Mem = refusal.why {
        return Err(Mem);
    }
    let declared = declarations_of(alloc, &program, given.tokens, refusal)?;
    let names = names_at(alloc, program, refusal)?;
    Ok(Shown {
        verdict: Verdict::NoMeaning { at: refusal.at },
        text: refused_page(alloc, given, names, declared, refusal)?,
        end: None,
    })
}
