// From a source's bytes to what its program means, confirmed by the checker.
ghost use Rattle.std.specs.Prelude.{◌≡◌, ◌≤◌, [], length, true, IfOk, IfErr};
ghost use Rattle.omega_terms.specs.Typing.{HasType};
ghost use Rattle.sig_definitions.specs.Signatures.Encoding.{enc_abs};
ghost use Rattle.fing_top.specs.Answer.{limit};
ghost use Rattle.fing_top.specs.Inner.Compiled.{IsCompiled, IsConfirmed, IsRefused};
ghost use Rattle.fing_top.specs.Counts.{bind_count};
ghost use Rattle.fing_top.specs.Meaning.{one_program, Spells};

use crate::refusing::Refused;
use fing_elab::elab;
use fing_lexer::tokens;
use fing_parser::program;
use fing_syntax::Program;
use omega_checker::{Checked, check as typed};
use omega_kinds::{Effect, Mem};
use omega_simplify::simplify;
use omega_terms::Term;
use semantic_sigs::{Abs, encode};
use std::alloc::Global;

/// What a source is compiled into: how many bindings its program has, not counting those inside them, the program's
/// effect and signature, and its whole term, which the checker found to have the encoding of the signature as its type.
#[derive(Drop)]
pub struct Compiled {
    pub bindings: usize,
    pub effect: Effect,
    pub sig: Abs,
    pub checked: Checked,
}

// The program that a source's bytes are, or why they are none.
fn parsed(alloc: Global, bytes: &[u8]) -> Result<Program, Refused>
    requires { length bytes.now ≤ limit }
    ensures spelled { IfOk result (λ p. Spells one_program bytes.now p) }
    ensures refused { IfErr result (IsRefused one_program bytes.now) }
{
    let tokens = tokens(alloc, bytes)?;
    Ok(program(alloc, &tokens)?)
}

// What the checker makes of a term that has the encoding of a signature as its type. `Err` is want of memory.
pub(crate) fn confirm(alloc: Global, sig: &Abs, term: Term) -> Result<Checked, Mem>
    requires { HasType [] [] term (enc_abs sig.now) }
    ensures { IfOk result (λ c. (c.term ≡ term) × (c.ty ≡ enc_abs sig.now)) }
{
    let ty = encode(alloc, sig)?;
    match typed(alloc, term, ty)? {
        Some(checked) => Ok(checked),
        None => unreachable!(),
    }
}

// How many bindings a program has, not counting those inside them.
fn bind_total(program: &Program) -> usize
    ensures { result ≡ bind_count program.now }
{
    program.binds.len()
}

// What a source's bytes are compiled into, or why they are refused.
pub(crate) fn compile(alloc: Global, bytes: &[u8]) -> Result<Compiled, Refused>
    requires { length bytes.now ≤ limit }
    ensures compiled { IfOk result (λ c. IsCompiled bytes.now c) }
    ensures refused { IfErr result (IsRefused one_program bytes.now) }
{
    let program = parsed(alloc, bytes)?;
    let bindings = bind_total(&program);
    let found = elab(alloc, &program)?;
    // Its memory serves the checker.
    drop(program);
    let whole = found.whole;
    let checked = confirm(alloc, &found.sig, whole)?;
    Ok(Compiled {
        bindings,
        effect: found.effect,
        sig: found.sig,
        checked,
    })
}

// What the checker made of the simplified term of a program, or why the source is refused.
pub(crate) fn compile_simplified(alloc: Global, bytes: &[u8]) -> Result<Checked, Refused>
    requires { length bytes.now ≤ limit }
    ensures confirmed { IfOk result (λ j. IsConfirmed one_program true bytes.now j) }
    ensures refused { IfErr result (IsRefused one_program bytes.now) }
{
    let program = parsed(alloc, bytes)?;
    let meant = elab(alloc, &program)?;
    // Its memory serves the checker.
    drop(program);
    let term = simplify(alloc, &meant.whole)?;
    Ok(confirm(alloc, &meant.sig, term)?)
}
