// Programs and lists of separate units, out of tokens.
ghost use Rattle.std.specs.Prelude.{◌≤◌, length, IfOk, IfErr};
ghost use Rattle.parse_grammar.specs.Grammar as the;
ghost use Rattle.parse_grammar.specs.Inner.Refusal.{Refuses};
ghost use Rattle.parse_grammar.specs.Tree.{Phrase};

use crate::build::{build_binds, build_units};
use fing_lexer::Token;
use fing_syntax::{Program, Units};
use fing_text::SOURCE_LIMIT;
use parse_grammar::grammar::Class;
use parse_grammar::{ParseRefusal, recognise};
use parse_stack::BuildRefusal;
use std::alloc::Global;

/// The program that the tokens are, of which there are at most `SOURCE_LIMIT`: the one tree by the grammar, with the
/// derived forms replaced. `Syntax` comes exactly where they are no program, with the length of their longest front that
/// begins some program; `Mem` is want of memory.
pub fn program(alloc: Global, tokens: &[Token]) -> Result<Program, ParseRefusal>
    requires { length tokens.now ≤ SOURCE_LIMIT }
    ensures program { IfOk result (λ p. Phrase the.Binds tokens.now p) }
    ensures refused { IfErr result (λ e. Refuses the.Binds tokens.now e) }
{
    let steps = recognise(alloc, Class::Binds, tokens)?;
    match build_binds(alloc, steps) {
        Ok(binds) => Ok(Program { binds }),
        Err(BuildRefusal::Mem) => Err(ParseRefusal::Mem),
        Err(BuildRefusal::Misfit) => unreachable!(),
    }
}

/// The separate units that the tokens are, of which there are at most `SOURCE_LIMIT`: each is `module X : S = struct B end`,
/// and they stand one behind the other. They are the one list of trees by the grammar, with the derived forms in S and B
/// replaced; where there are no tokens there are no units. `Syntax` comes exactly where the tokens are no such list, with
/// the length of their longest front that begins some list of units; `Mem` is want of memory. Separate units are own.
pub fn units(alloc: Global, tokens: &[Token]) -> Result<Units, ParseRefusal>
    requires { length tokens.now ≤ SOURCE_LIMIT }
    ensures units { IfOk result (λ us. Phrase the.Units tokens.now us) }
    ensures refused { IfErr result (λ e. Refuses the.Units tokens.now e) }
{
    let steps = recognise(alloc, Class::Units, tokens)?;
    match build_units(alloc, steps) {
        Ok(units) => Ok(Units { units }),
        Err(BuildRefusal::Mem) => Err(ParseRefusal::Mem),
        Err(BuildRefusal::Misfit) => unreachable!(),
    }
}
