// Arguments and selections.
ghost use Rattle.std.specs.Prelude.{◌≡◌, Some, None, IfOk, IfErr};
ghost use Rattle.parse_grammar.specs.Grammar as the;
ghost use Rattle.parse_grammar.specs.Inner.View.{arg_rule_in};
ghost use Rattle.parse_stack.specs.Inner.Part.{held};
ghost use Rattle.parse_stack.specs.Inner.Play.{played, played_any};
ghost use Rattle.parse_stack.specs.declared.refusal.BuildRefusal.TheVariants.{Misfit};

use crate::paths::{more_names, no_names};
use fing_syntax::Arg;
use parse_forms::{Kept, args_chain, get_all, up_to};
use parse_grammar::grammar::ArgRule;
use parse_stack::{BuildRefusal, Part, Stack};
use std::alloc::Global;

fn args(stack: &mut Stack<'_>, alloc: Global) -> Result<(), BuildRefusal>
    ensures made { IfOk result (λ _. played the.exp_args (held stack.old) ≡ Some (held stack.new)) }
    ensures misfit { IfErr result (λ e. e ≡ Misfit → played the.exp_args (held stack.old) ≡ None) }
{
    let function = Kept::new(stack.exp()?);
    let args = stack.args()?;
    let exp = args_chain(alloc, function.take(), args)?;
    stack.push(Part::Exp(exp))
}

fn no_args(stack: &mut Stack<'_>, alloc: Global) -> Result<(), BuildRefusal>
    ensures made { IfOk result (λ _. played the.no_args (held stack.old) ≡ Some (held stack.new)) }
    ensures misfit { IfErr result (λ e. e ≡ Misfit → played the.no_args (held stack.old) ≡ None) }
{
    stack.push(Part::Args(Vec::new(alloc)))
}

#[tactic(auto, using(parse_forms::proofs::Chained::reverse_push))]
fn value(stack: &mut Stack<'_>) -> Result<(), BuildRefusal>
    ensures made { IfOk result (λ _. played the.exp_arg (held stack.old) ≡ Some (held stack.new)) }
    ensures misfit { IfErr result (λ e. e ≡ Misfit → played the.exp_arg (held stack.old) ≡ None) }
{
    let first = Kept::new(stack.exp()?);
    let mut rest = stack.args()?;
    rest.push(Arg::Exp(first.take()))?;
    stack.push(Part::Args(rest))
}

#[tactic(auto, using(parse_forms::proofs::Chained::reverse_push))]
fn ty(stack: &mut Stack<'_>) -> Result<(), BuildRefusal>
    ensures made { IfOk result (λ _. played the.ty_arg (held stack.old) ≡ Some (held stack.new)) }
    ensures misfit { IfErr result (λ e. e ≡ Misfit → played the.ty_arg (held stack.old) ≡ None) }
{
    let mark = stack.token()?;
    let ty = Kept::new(stack.ty()?);
    let last = stack.token()?;
    let mut rest = stack.args()?;
    rest.push(Arg::Ty(ty.take(), up_to(mark.span, last.span)))?;
    stack.push(Part::Args(rest))
}

fn gets(stack: &mut Stack<'_>, alloc: Global) -> Result<(), BuildRefusal>
    ensures made { IfOk result (λ _. played the.exp_gets (held stack.old) ≡ Some (held stack.new)) }
    ensures misfit { IfErr result (λ e. e ≡ Misfit → played the.exp_gets (held stack.old) ≡ None) }
{
    let first = Kept::new(stack.exp()?);
    let names = stack.names()?;
    let exp = get_all(alloc, first.take(), names)?;
    stack.push(Part::Exp(exp))
}

// Plays a production of arguments and selections.
pub(crate) fn argument(
    stack: &mut Stack<'_>,
    alloc: Global,
    rule: ArgRule,
) -> Result<(), BuildRefusal>
    ensures made { IfOk result (λ _. played_any (arg_rule_in rule) (held stack.old) ≡ Some (held stack.new)) }
    ensures misfit { IfErr result (λ e. e ≡ Misfit → played_any (arg_rule_in rule) (held stack.old) ≡ None) }
{
    match rule {
        ArgRule::Args => args(stack, alloc),
        ArgRule::NoArgs => no_args(stack, alloc),
        ArgRule::Value => value(stack),
        ArgRule::Type => ty(stack),
        ArgRule::Gets => gets(stack, alloc),
        ArgRule::NoGets => no_names(stack, alloc),
        ArgRule::MoreGets => more_names(stack, alloc),
    }
}
