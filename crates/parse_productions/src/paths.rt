// Paths.
ghost use Rattle.std.specs.Prelude.{◌≡◌, Some, None, IfOk, IfErr};
ghost use Rattle.parse_grammar.specs.Grammar as the;
ghost use Rattle.parse_grammar.specs.Inner.View.{path_rule_in};
ghost use Rattle.parse_stack.specs.Inner.Part.{held};
ghost use Rattle.parse_stack.specs.Inner.Play.{played, played_any};
ghost use Rattle.parse_stack.specs.declared.refusal.BuildRefusal.TheVariants.{Misfit};

use fing_syntax::{Mod, ModWhat};
use parse_forms::{Kept, named, project_all, projected, up_to};
use parse_grammar::grammar::PathRule;
use parse_stack::{BuildRefusal, Part, Stack};
use std::alloc::Global;

fn name(stack: &mut Stack<'_>, alloc: Global) -> Result<(), BuildRefusal>
    ensures made { IfOk result (λ _. played the.path_name (held stack.old) ≡ Some (held stack.new)) }
    ensures misfit { IfErr result (λ e. e ≡ Misfit → played the.path_name (held stack.old) ≡ None) }
{
    let first = stack.token()?;
    let names = stack.names()?;
    let whole = Mod {
        span: first.span,
        what: ModWhat::Name(named(alloc, first)?),
    };
    let path = project_all(alloc, whole, names)?;
    stack.push(Part::Mod(path))
}

fn from(stack: &mut Stack<'_>, alloc: Global) -> Result<(), BuildRefusal>
    ensures made { IfOk result (λ _. played the.path_from (held stack.old) ≡ Some (held stack.new)) }
    ensures misfit { IfErr result (λ e. e ≡ Misfit → played the.path_from (held stack.old) ≡ None) }
{
    let word = stack.token()?;
    stack.token()?;
    let module = Kept::new(stack.module()?);
    stack.token()?;
    stack.token()?;
    let name = stack.token()?;
    let names = stack.names()?;
    let span = up_to(word.span, name.span);
    let name = named(alloc, name)?;
    let whole = projected(alloc, span, module.take(), name)?;
    let path = project_all(alloc, whole, names)?;
    stack.push(Part::Mod(path))
}

// No names more.
pub(crate) fn no_names(stack: &mut Stack<'_>, alloc: Global) -> Result<(), BuildRefusal>
    ensures made { IfOk result (λ _. played the.no_dots (held stack.old) ≡ Some (held stack.new)) }
    ensures misfit { IfErr result (λ e. e ≡ Misfit → played the.no_dots (held stack.old) ≡ None) }
{
    stack.push(Part::Names(Vec::new(alloc)))
}

// A mark, a name, and the names after it.
#[tactic(auto, using(parse_forms::proofs::Chained::reverse_push))]
pub(crate) fn more_names(stack: &mut Stack<'_>, alloc: Global) -> Result<(), BuildRefusal>
    ensures made { IfOk result (λ _. played the.more_dots (held stack.old) ≡ Some (held stack.new)) }
    ensures misfit { IfErr result (λ e. e ≡ Misfit → played the.more_dots (held stack.old) ≡ None) }
{
    stack.token()?;
    let name = stack.token()?;
    let mut rest = stack.names()?;
    rest.push(named(alloc, name)?)?;
    stack.push(Part::Names(rest))
}

// Plays a production of paths.
pub(crate) fn path(stack: &mut Stack<'_>, alloc: Global, rule: PathRule) -> Result<(), BuildRefusal>
    ensures made { IfOk result (λ _. played_any (path_rule_in rule) (held stack.old) ≡ Some (held stack.new)) }
    ensures misfit { IfErr result (λ e. e ≡ Misfit → played_any (path_rule_in rule) (held stack.old) ≡ None) }
{
    match rule {
        PathRule::Name => name(stack, alloc),
        PathRule::From => from(stack, alloc),
        PathRule::NoDots => no_names(stack, alloc),
        PathRule::MoreDots => more_names(stack, alloc),
    }
}
