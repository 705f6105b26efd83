// Bindings.
ghost use Rattle.std.specs.Prelude.{◌≡◌, Some, None, IfOk, IfErr};
ghost use Rattle.parse_grammar.specs.Grammar as the;
ghost use Rattle.parse_grammar.specs.Inner.View.{bind_rule_in};
ghost use Rattle.parse_stack.specs.Inner.Part.{held};
ghost use Rattle.parse_stack.specs.Inner.Play.{played, played_any};
ghost use Rattle.parse_stack.specs.declared.refusal.BuildRefusal.TheVariants.{Misfit};

use fing_syntax::{Bind, BindWhat};
use parse_forms::{Kept, named, up_to};
use parse_grammar::grammar::BindRule;
use parse_stack::{BuildRefusal, Part, Stack};
use parse_sums::data_binding;
use std::alloc::Global;

fn none(stack: &mut Stack<'_>, alloc: Global) -> Result<(), BuildRefusal>
    ensures made { IfOk result (λ _. played the.no_binds (held stack.old) ≡ Some (held stack.new)) }
    ensures misfit { IfErr result (λ e. e ≡ Misfit → played the.no_binds (held stack.old) ≡ None) }
{
    stack.push(Part::Binds(Vec::new(alloc)))
}

#[tactic(auto, using(parse_forms::proofs::Chained::reverse_push))]
fn more(stack: &mut Stack<'_>) -> Result<(), BuildRefusal>
    ensures made { IfOk result (λ _. played the.more_binds (held stack.old) ≡ Some (held stack.new)) }
    ensures misfit { IfErr result (λ e. e ≡ Misfit → played the.more_binds (held stack.old) ≡ None) }
{
    let first = Kept::new(stack.bind()?);
    let mut rest = stack.binds()?;
    rest.push(first.take())?;
    stack.push(Part::Binds(rest))
}

fn val(stack: &mut Stack<'_>, alloc: Global) -> Result<(), BuildRefusal>
    ensures made { IfOk result (λ _. played the.bind_val (held stack.old) ≡ Some (held stack.new)) }
    ensures misfit { IfErr result (λ e. e ≡ Misfit → played the.bind_val (held stack.old) ≡ None) }
{
    let word = stack.token()?;
    let name = stack.token()?;
    stack.token()?;
    let value = Kept::new(stack.exp()?);
    let span = up_to(word.span, value.value.span);
    let name = named(alloc, name)?;
    stack.push(Part::Bind(Bind {
        span,
        what: BindWhat::Val(name, value.take()),
    }))
}

fn ty(stack: &mut Stack<'_>, alloc: Global) -> Result<(), BuildRefusal>
    ensures made { IfOk result (λ _. played the.bind_type (held stack.old) ≡ Some (held stack.new)) }
    ensures misfit { IfErr result (λ e. e ≡ Misfit → played the.bind_type (held stack.old) ≡ None) }
{
    let word = stack.token()?;
    let name = stack.token()?;
    stack.token()?;
    let ty = Kept::new(stack.ty()?);
    let span = up_to(word.span, ty.value.span);
    let name = named(alloc, name)?;
    stack.push(Part::Bind(Bind {
        span,
        what: BindWhat::Ty(name, ty.take()),
    }))
}

fn module(stack: &mut Stack<'_>, alloc: Global) -> Result<(), BuildRefusal>
    ensures made { IfOk result (λ _. played the.bind_module (held stack.old) ≡ Some (held stack.new)) }
    ensures misfit { IfErr result (λ e. e ≡ Misfit → played the.bind_module (held stack.old) ≡ None) }
{
    let word = stack.token()?;
    let name = stack.token()?;
    stack.token()?;
    let module = Kept::new(stack.module()?);
    let span = up_to(word.span, module.value.span);
    let name = named(alloc, name)?;
    stack.push(Part::Bind(Bind {
        span,
        what: BindWhat::Module(name, module.take()),
    }))
}

fn signature(stack: &mut Stack<'_>, alloc: Global) -> Result<(), BuildRefusal>
    ensures made { IfOk result (λ _. played the.bind_signature (held stack.old) ≡ Some (held stack.new)) }
    ensures misfit { IfErr result (λ e. e ≡ Misfit → played the.bind_signature (held stack.old) ≡ None) }
{
    let word = stack.token()?;
    let name = stack.token()?;
    stack.token()?;
    let sig = Kept::new(stack.sig()?);
    let span = up_to(word.span, sig.value.span);
    let name = named(alloc, name)?;
    stack.push(Part::Bind(Bind {
        span,
        what: BindWhat::Signature(name, sig.take()),
    }))
}

fn include(stack: &mut Stack<'_>) -> Result<(), BuildRefusal>
    ensures made { IfOk result (λ _. played the.bind_include (held stack.old) ≡ Some (held stack.new)) }
    ensures misfit { IfErr result (λ e. e ≡ Misfit → played the.bind_include (held stack.old) ≡ None) }
{
    let word = stack.token()?;
    let module = stack.module()?;
    let span = up_to(word.span, module.span);
    stack.push(Part::Bind(Bind {
        span,
        what: BindWhat::Include(module),
    }))
}

// Plays a production of bindings.
pub(crate) fn bind(stack: &mut Stack<'_>, alloc: Global, rule: BindRule) -> Result<(), BuildRefusal>
    ensures made { IfOk result (λ _. played_any (bind_rule_in rule) (held stack.old) ≡ Some (held stack.new)) }
    ensures misfit { IfErr result (λ e. e ≡ Misfit → played_any (bind_rule_in rule) (held stack.old) ≡ None) }
{
    match rule {
        BindRule::NoBinds => none(stack, alloc),
        BindRule::MoreBinds => more(stack),
        BindRule::Val => val(stack, alloc),
        BindRule::Type => ty(stack, alloc),
        BindRule::Data => data_binding(stack, alloc),
        BindRule::Module => module(stack, alloc),
        BindRule::Signature => signature(stack, alloc),
        BindRule::Include => include(stack),
    }
}
