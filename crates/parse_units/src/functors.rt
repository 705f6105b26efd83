// Functors.
ghost use Rattle.std.specs.Prelude.{◌≡◌, Some, None, IfOk, IfErr};
ghost use Rattle.parse_grammar.specs.Grammar as the;
ghost use Rattle.parse_stack.specs.Inner.Part.{held};
ghost use Rattle.parse_stack.specs.Inner.Play.{played};
ghost use Rattle.parse_stack.specs.declared.refusal.BuildRefusal.TheVariants.{Misfit};

use fing_syntax::{Mod, ModWhat};
use parse_forms::{named, up_to};
use parse_stack::{BuildRefusal, Part, Stack};
use std::alloc::Global;

/// Plays `fun (X : S) => M`.
pub fn applicative_functor(stack: &mut Stack<'_>, alloc: Global) -> Result<(), BuildRefusal>
    ensures made { IfOk result (λ _. played the.mod_fun (held stack.old) ≡ Some (held stack.new)) }
    ensures misfit { IfErr result (λ e. e ≡ Misfit → played the.mod_fun (held stack.old) ≡ None) }
{
    let word = stack.token()?;
    stack.token()?;
    let name = stack.token()?;
    stack.token()?;
    let param = Box::new(alloc, stack.sig()?)?;
    stack.token()?;
    stack.token()?;
    let body = stack.module()?;
    let span = up_to(word.span, body.span);
    let body = Box::new(alloc, body)?;
    let name = named(alloc, name)?;
    stack.push(Part::Mod(Mod {
        span,
        what: ModWhat::Functor {
            generative: false,
            name,
            param,
            body,
        },
    }))
}

/// Plays `gen (X : S) => M`.
pub fn generative_functor(stack: &mut Stack<'_>, alloc: Global) -> Result<(), BuildRefusal>
    ensures made { IfOk result (λ _. played the.mod_gen (held stack.old) ≡ Some (held stack.new)) }
    ensures misfit { IfErr result (λ e. e ≡ Misfit → played the.mod_gen (held stack.old) ≡ None) }
{
    let word = stack.token()?;
    stack.token()?;
    let name = stack.token()?;
    stack.token()?;
    let param = Box::new(alloc, stack.sig()?)?;
    stack.token()?;
    stack.token()?;
    let body = stack.module()?;
    let span = up_to(word.span, body.span);
    let body = Box::new(alloc, body)?;
    let name = named(alloc, name)?;
    stack.push(Part::Mod(Mod {
        span,
        what: ModWhat::Functor {
            generative: true,
            name,
            param,
            body,
        },
    }))
}
