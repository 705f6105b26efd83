// Recursive types and their values.
ghost use Rattle.std.specs.Prelude.{◌≡◌, Some, None, IfOk, IfErr};
ghost use Rattle.parse_grammar.specs.Grammar as the;
ghost use Rattle.parse_stack.specs.Inner.Part.{held};
ghost use Rattle.parse_stack.specs.Inner.Play.{played};
ghost use Rattle.parse_stack.specs.declared.refusal.BuildRefusal.TheVariants.{Misfit};

use fing_syntax::{Exp, ExpWhat};
use parse_forms::{data_bind, data_decl, up_to};
use parse_stack::{BuildRefusal, Part, Stack};
use std::alloc::Global;

/// Plays the binding `data X = T`.
pub fn data_binding(stack: &mut Stack<'_>, alloc: Global) -> Result<(), BuildRefusal>
    ensures made { IfOk result (λ _. played the.bind_data (held stack.old) ≡ Some (held stack.new)) }
    ensures misfit { IfErr result (λ e. e ≡ Misfit → played the.bind_data (held stack.old) ≡ None) }
{
    let word = stack.token()?;
    let name = stack.token()?;
    stack.token()?;
    let body = stack.ty()?;
    let span = up_to(word.span, body.span);
    let bind = data_bind(alloc, span, name, body)?;
    stack.push(Part::Bind(bind))
}

/// Plays the declaration `data X = T`.
pub fn data_declaration(stack: &mut Stack<'_>, alloc: Global) -> Result<(), BuildRefusal>
    ensures made { IfOk result (λ _. played the.decl_data (held stack.old) ≡ Some (held stack.new)) }
    ensures misfit { IfErr result (λ e. e ≡ Misfit → played the.decl_data (held stack.old) ≡ None) }
{
    let word = stack.token()?;
    let name = stack.token()?;
    stack.token()?;
    let body = stack.ty()?;
    let span = up_to(word.span, body.span);
    let decl = data_decl(alloc, span, name, body)?;
    stack.push(Part::Decl(decl))
}

/// Plays `roll E : T`.
pub fn roll(stack: &mut Stack<'_>, alloc: Global) -> Result<(), BuildRefusal>
    ensures made { IfOk result (λ _. played the.exp_roll (held stack.old) ≡ Some (held stack.new)) }
    ensures misfit { IfErr result (λ e. e ≡ Misfit → played the.exp_roll (held stack.old) ≡ None) }
{
    let word = stack.token()?;
    let value = Box::new(alloc, stack.exp()?)?;
    stack.token()?;
    let ty = stack.ty()?;
    let span = up_to(word.span, ty.span);
    let ty = Box::new(alloc, ty)?;
    stack.push(Part::Exp(Exp {
        span,
        what: ExpWhat::Roll(value, ty),
    }))
}

/// Plays `unroll E`.
pub fn unroll(stack: &mut Stack<'_>, alloc: Global) -> Result<(), BuildRefusal>
    ensures made { IfOk result (λ _. played the.exp_unroll (held stack.old) ≡ Some (held stack.new)) }
    ensures misfit { IfErr result (λ e. e ≡ Misfit → played the.exp_unroll (held stack.old) ≡ None) }
{
    let word = stack.token()?;
    let whole = stack.exp()?;
    let span = up_to(word.span, whole.span);
    let whole = Box::new(alloc, whole)?;
    stack.push(Part::Exp(Exp {
        span,
        what: ExpWhat::Unroll(whole),
    }))
}
