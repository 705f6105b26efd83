// Expressions.
ghost use Rattle.std.specs.Prelude.{◌≡◌, Some, None, IfOk, IfErr};
ghost use Rattle.parse_grammar.specs.Grammar as the;
ghost use Rattle.parse_grammar.specs.Inner.View.{exp_rule_in};
ghost use Rattle.parse_stack.specs.Inner.Part.{held};
ghost use Rattle.parse_stack.specs.Inner.Play.{played, played_any};
ghost use Rattle.parse_stack.specs.declared.refusal.BuildRefusal.TheVariants.{Misfit};

use crate::operators::chain;
use fing_syntax::{Exp, ExpWhat};
use parse_forms::{Abstraction, Kept, abstracted, named, up_to};
use parse_grammar::grammar::ExpRule;
use parse_stack::{BuildRefusal, Part, Stack};
use parse_sums::{branch, case_of, if_else, next_branch, no_branches};
use std::alloc::Global;

fn fun(stack: &mut Stack<'_>, alloc: Global) -> Result<(), BuildRefusal>
    ensures made { IfOk result (λ _. played the.exp_fun (held stack.old) ≡ Some (held stack.new)) }
    ensures misfit { IfErr result (λ e. e ≡ Misfit → played the.exp_fun (held stack.old) ≡ None) }
{
    let word = stack.token()?;
    let abstraction = stack.abstraction()?;
    let exp = abstracted(alloc, word, abstraction)?;
    stack.push(Part::Exp(exp))
}

fn fix(stack: &mut Stack<'_>, alloc: Global) -> Result<(), BuildRefusal>
    ensures made { IfOk result (λ _. played the.exp_fix (held stack.old) ≡ Some (held stack.new)) }
    ensures misfit { IfErr result (λ e. e ≡ Misfit → played the.exp_fix (held stack.old) ≡ None) }
{
    let word = stack.token()?;
    let function = stack.token()?;
    stack.token()?;
    let name = stack.token()?;
    stack.token()?;
    let param = Kept::new(stack.ty()?);
    stack.token()?;
    stack.token()?;
    let result = Kept::new(stack.ty()?);
    stack.token()?;
    let body = stack.exp()?;
    let span = up_to(word.span, body.span);
    let body = Box::new(alloc, body)?;
    let function = named(alloc, function)?;
    let name = named(alloc, name)?;
    stack.push(Part::Exp(Exp {
        span,
        what: ExpWhat::Fix {
            function,
            name,
            param: param.take(),
            result: result.take(),
            body,
        },
    }))
}

fn lam_value(stack: &mut Stack<'_>, alloc: Global) -> Result<(), BuildRefusal>
    ensures made { IfOk result (λ _. played the.lam_value (held stack.old) ≡ Some (held stack.new)) }
    ensures misfit { IfErr result (λ e. e ≡ Misfit → played the.lam_value (held stack.old) ≡ None) }
{
    stack.token()?;
    let name = stack.token()?;
    stack.token()?;
    let ty = Kept::new(stack.ty()?);
    stack.token()?;
    stack.token()?;
    let body = Kept::new(stack.exp()?);
    let name = named(alloc, name)?;
    let abstraction = Abstraction::Value(name, ty.take(), body.take());
    stack.push(Part::Abstraction(abstraction))
}

fn lam_type(stack: &mut Stack<'_>, alloc: Global) -> Result<(), BuildRefusal>
    ensures made { IfOk result (λ _. played the.lam_type (held stack.old) ≡ Some (held stack.new)) }
    ensures misfit { IfErr result (λ e. e ≡ Misfit → played the.lam_type (held stack.old) ≡ None) }
{
    stack.token()?;
    let name = stack.token()?;
    stack.token()?;
    let kind = Kept::new(stack.kind()?.kind);
    stack.token()?;
    stack.token()?;
    let body = Kept::new(stack.exp()?);
    let name = named(alloc, name)?;
    let abstraction = Abstraction::Type(name, kind.take(), body.take());
    stack.push(Part::Abstraction(abstraction))
}

// Plays a production of expressions.
pub(crate) fn exp(stack: &mut Stack<'_>, alloc: Global, rule: ExpRule) -> Result<(), BuildRefusal>
    ensures made { IfOk result (λ _. played_any (exp_rule_in rule) (held stack.old) ≡ Some (held stack.new)) }
    ensures misfit { IfErr result (λ e. e ≡ Misfit → played_any (exp_rule_in rule) (held stack.old) ≡ None) }
{
    match rule {
        ExpRule::Fun => fun(stack, alloc),
        ExpRule::Fix => fix(stack, alloc),
        ExpRule::If => if_else(stack, alloc),
        ExpRule::Case => case_of(stack, alloc),
        ExpRule::Compare => chain(stack, alloc),
        ExpRule::LamValue => lam_value(stack, alloc),
        ExpRule::LamType => lam_type(stack, alloc),
        ExpRule::NoBranches => no_branches(stack, alloc),
        ExpRule::Branch => branch(stack, alloc),
        ExpRule::LastBranch => no_branches(stack, alloc),
        ExpRule::NextBranch => next_branch(stack, alloc),
    }
}
