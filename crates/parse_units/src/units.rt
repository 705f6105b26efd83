// Separate units.
ghost use Rattle.std.specs.Prelude.{◌≡◌, Some, None, IfOk, IfErr};
ghost use Rattle.parse_grammar.specs.Grammar as the;
ghost use Rattle.parse_grammar.specs.Inner.View.{unit_rule_in};
ghost use Rattle.parse_stack.specs.Inner.Part.{held};
ghost use Rattle.parse_stack.specs.Inner.Play.{played, played_any};
ghost use Rattle.parse_stack.specs.declared.refusal.BuildRefusal.TheVariants.{Misfit};

use fing_syntax::{Mod, ModWhat, UnitTree};
use parse_forms::{Kept, bytes_in, up_to};
use parse_grammar::grammar::UnitRule;
use parse_stack::{BuildRefusal, Part, Stack};
use std::alloc::Global;

fn none(stack: &mut Stack<'_>, alloc: Global) -> Result<(), BuildRefusal>
    ensures made { IfOk result (λ _. played the.no_units (held stack.old) ≡ Some (held stack.new)) }
    ensures misfit { IfErr result (λ e. e ≡ Misfit → played the.no_units (held stack.old) ≡ None) }
{
    stack.push(Part::Units(Vec::new(alloc)))
}

#[tactic(auto, using(parse_forms::proofs::Chained::reverse_push))]
fn more(stack: &mut Stack<'_>) -> Result<(), BuildRefusal>
    ensures made { IfOk result (λ _. played the.more_units (held stack.old) ≡ Some (held stack.new)) }
    ensures misfit { IfErr result (λ e. e ≡ Misfit → played the.more_units (held stack.old) ≡ None) }
{
    let first = Kept::new(stack.one_unit()?);
    let mut rest = stack.units()?;
    rest.push(first.take())?;
    stack.push(Part::Units(rest))
}

fn module(stack: &mut Stack<'_>, alloc: Global) -> Result<(), BuildRefusal>
    ensures made { IfOk result (λ _. played the.unit_module (held stack.old) ≡ Some (held stack.new)) }
    ensures misfit { IfErr result (λ e. e ≡ Misfit → played the.unit_module (held stack.old) ≡ None) }
{
    let word = stack.token()?;
    let name = stack.token()?;
    stack.token()?;
    let sig = Kept::new(stack.sig()?);
    stack.token()?;
    let first = stack.token()?;
    let mut binds = stack.binds()?;
    let last = stack.token()?;
    binds.reverse();
    let body = Kept::new(Mod {
        span: up_to(first.span, last.span),
        what: ModWhat::Struct(binds),
    });
    let unit = UnitTree {
        span: up_to(word.span, last.span),
        name: bytes_in(alloc, &name.what)?,
        at: name.span,
        sig: sig.take(),
        body: body.take(),
    };
    stack.push(Part::OneUnit(Box::new(alloc, unit)?))
}

/// Plays a production of separate units.
pub fn unit(stack: &mut Stack<'_>, alloc: Global, rule: UnitRule) -> Result<(), BuildRefusal>
    ensures made { IfOk result (λ _. played_any (unit_rule_in rule) (held stack.old) ≡ Some (held stack.new)) }
    ensures misfit { IfErr result (λ e. e ≡ Misfit → played_any (unit_rule_in rule) (held stack.old) ≡ None) }
{
    match rule {
        UnitRule::NoUnits => none(stack, alloc),
        UnitRule::MoreUnits => more(stack),
        UnitRule::Module => module(stack, alloc),
    }
}
