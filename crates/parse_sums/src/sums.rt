// Sums and their values.
ghost use Rattle.std.specs.Prelude.{◌≡◌, Some, None, IfOk, IfErr};
ghost use Rattle.parse_grammar.specs.Grammar as the;
ghost use Rattle.parse_stack.specs.Inner.Part.{held};
ghost use Rattle.parse_stack.specs.Inner.Play.{played};
ghost use Rattle.parse_stack.specs.declared.refusal.BuildRefusal.TheVariants.{Misfit};

use fing_syntax::{Exp, ExpWhat, TyEx, TyWhat};
use parse_forms::{named, up_to};
use parse_stack::{BuildRefusal, Part, Stack};
use std::alloc::Global;

/// Plays the type `case {X : T ..}`.
pub fn sum_type(stack: &mut Stack<'_>) -> Result<(), BuildRefusal>
    ensures made { IfOk result (λ _. played the.ty_sum (held stack.old) ≡ Some (held stack.new)) }
    ensures misfit { IfErr result (λ e. e ≡ Misfit → played the.ty_sum (held stack.old) ≡ None) }
{
    let word = stack.token()?;
    stack.token()?;
    let mut parts = stack.field_tys()?;
    let last = stack.token()?;
    parts.reverse();
    let span = up_to(word.span, last.span);
    stack.push(Part::Ty(TyEx {
        span,
        what: TyWhat::Sum(parts),
    }))
}

/// Plays `inj X E : T`.
pub fn injection(stack: &mut Stack<'_>, alloc: Global) -> Result<(), BuildRefusal>
    ensures made { IfOk result (λ _. played the.exp_inj (held stack.old) ≡ Some (held stack.new)) }
    ensures misfit { IfErr result (λ e. e ≡ Misfit → played the.exp_inj (held stack.old) ≡ None) }
{
    let word = stack.token()?;
    let label = stack.token()?;
    let value = Box::new(alloc, stack.exp()?)?;
    stack.token()?;
    let ty = stack.ty()?;
    let span = up_to(word.span, ty.span);
    let ty = Box::new(alloc, ty)?;
    let label = named(alloc, label)?;
    stack.push(Part::Exp(Exp {
        span,
        what: ExpWhat::Inj(label, value, ty),
    }))
}
