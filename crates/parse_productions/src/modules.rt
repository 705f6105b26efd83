// Modules.
ghost use Rattle.std.specs.Prelude.{◌≡◌, Some, None, IfOk, IfErr};
ghost use Rattle.parse_grammar.specs.Grammar as the;
ghost use Rattle.parse_grammar.specs.Inner.View.{mod_rule_in};
ghost use Rattle.parse_stack.specs.Inner.Part.{held};
ghost use Rattle.parse_stack.specs.Inner.Play.{played, played_any};
ghost use Rattle.parse_stack.specs.declared.refusal.BuildRefusal.TheVariants.{Misfit};

use fing_syntax::{Mod, ModWhat};
use parse_forms::{Ascription, Kept, apply_all, ascribe_all, let_mod, up_to};
use parse_grammar::grammar::ModRule;
use parse_stack::{BuildRefusal, Part, Stack};
use parse_units::{applicative_functor, generative_functor};
use std::alloc::Global;

fn unpack(stack: &mut Stack<'_>, alloc: Global) -> Result<(), BuildRefusal>
    ensures made { IfOk result (λ _. played the.mod_unpack (held stack.old) ≡ Some (held stack.new)) }
    ensures misfit { IfErr result (λ e. e ≡ Misfit → played the.mod_unpack (held stack.old) ≡ None) }
{
    let word = stack.token()?;
    let value = Box::new(alloc, stack.exp()?)?;
    stack.token()?;
    let sig = stack.sig()?;
    let span = up_to(word.span, sig.span);
    let sig = Box::new(alloc, sig)?;
    stack.push(Part::Mod(Mod {
        span,
        what: ModWhat::Unpack(value, sig),
    }))
}

fn chain(stack: &mut Stack<'_>, alloc: Global) -> Result<(), BuildRefusal>
    ensures made { IfOk result (λ _. played the.mod_chain (held stack.old) ≡ Some (held stack.new)) }
    ensures misfit { IfErr result (λ e. e ≡ Misfit → played the.mod_chain (held stack.old) ≡ None) }
{
    let first = Kept::new(stack.module()?);
    let args = stack.mods()?;
    let seals = stack.ascriptions()?;
    let applied = apply_all(alloc, first.take(), args)?;
    let module = ascribe_all(alloc, applied, seals)?;
    stack.push(Part::Mod(module))
}

fn no_args(stack: &mut Stack<'_>, alloc: Global) -> Result<(), BuildRefusal>
    ensures made { IfOk result (λ _. played the.no_mod_args (held stack.old) ≡ Some (held stack.new)) }
    ensures misfit { IfErr result (λ e. e ≡ Misfit → played the.no_mod_args (held stack.old) ≡ None) }
{
    stack.push(Part::Mods(Vec::new(alloc)))
}

#[tactic(auto, using(parse_forms::proofs::Chained::reverse_push))]
fn more_args(stack: &mut Stack<'_>) -> Result<(), BuildRefusal>
    ensures made { IfOk result (λ _. played the.more_mod_args (held stack.old) ≡ Some (held stack.new)) }
    ensures misfit { IfErr result (λ e. e ≡ Misfit → played the.more_mod_args (held stack.old) ≡ None) }
{
    let first = Kept::new(stack.module()?);
    let mut rest = stack.mods()?;
    rest.push(first.take())?;
    stack.push(Part::Mods(rest))
}

fn no_seals(stack: &mut Stack<'_>, alloc: Global) -> Result<(), BuildRefusal>
    ensures made { IfOk result (λ _. played the.no_seals (held stack.old) ≡ Some (held stack.new)) }
    ensures misfit { IfErr result (λ e. e ≡ Misfit → played the.no_seals (held stack.old) ≡ None) }
{
    stack.push(Part::Ascriptions(Vec::new(alloc)))
}

#[tactic(auto, using(parse_forms::proofs::Chained::reverse_push))]
fn seal(stack: &mut Stack<'_>) -> Result<(), BuildRefusal>
    ensures made { IfOk result (λ _. played the.seal (held stack.old) ≡ Some (held stack.new)) }
    ensures misfit { IfErr result (λ e. e ≡ Misfit → played the.seal (held stack.old) ≡ None) }
{
    stack.token()?;
    let sig = Kept::new(stack.sig()?);
    let mut rest = stack.ascriptions()?;
    rest.push(Ascription::Sealed(sig.take()))?;
    stack.push(Part::Ascriptions(rest))
}

#[tactic(auto, using(parse_forms::proofs::Chained::reverse_push))]
fn ascribe(stack: &mut Stack<'_>) -> Result<(), BuildRefusal>
    ensures made { IfOk result (λ _. played the.ascribe (held stack.old) ≡ Some (held stack.new)) }
    ensures misfit { IfErr result (λ e. e ≡ Misfit → played the.ascribe (held stack.old) ≡ None) }
{
    stack.token()?;
    let sig = Kept::new(stack.sig()?);
    let mut rest = stack.ascriptions()?;
    rest.push(Ascription::Shown(sig.take()))?;
    stack.push(Part::Ascriptions(rest))
}

fn path(stack: &mut Stack<'_>) -> Result<(), BuildRefusal>
    ensures made { IfOk result (λ _. played the.mod_path (held stack.old) ≡ Some (held stack.new)) }
    ensures misfit { IfErr result (λ e. e ≡ Misfit → played the.mod_path (held stack.old) ≡ None) }
{
    let path = stack.module()?;
    stack.push(Part::Mod(path))
}

fn structure(stack: &mut Stack<'_>) -> Result<(), BuildRefusal>
    ensures made { IfOk result (λ _. played the.mod_struct (held stack.old) ≡ Some (held stack.new)) }
    ensures misfit { IfErr result (λ e. e ≡ Misfit → played the.mod_struct (held stack.old) ≡ None) }
{
    let word = stack.token()?;
    let mut binds = stack.binds()?;
    let last = stack.token()?;
    binds.reverse();
    let span = up_to(word.span, last.span);
    stack.push(Part::Mod(Mod {
        span,
        what: ModWhat::Struct(binds),
    }))
}

fn let_in(stack: &mut Stack<'_>, alloc: Global) -> Result<(), BuildRefusal>
    ensures made { IfOk result (λ _. played the.mod_let (held stack.old) ≡ Some (held stack.new)) }
    ensures misfit { IfErr result (λ e. e ≡ Misfit → played the.mod_let (held stack.old) ≡ None) }
{
    let word = stack.token()?;
    let mut binds = stack.binds()?;
    stack.token()?;
    let body = Kept::new(stack.module()?);
    let last = stack.token()?;
    binds.reverse();
    let span = up_to(word.span, last.span);
    let module = let_mod(alloc, span, binds, body.take())?;
    stack.push(Part::Mod(module))
}

fn paren(stack: &mut Stack<'_>) -> Result<(), BuildRefusal>
    ensures made { IfOk result (λ _. played the.mod_paren (held stack.old) ≡ Some (held stack.new)) }
    ensures misfit { IfErr result (λ e. e ≡ Misfit → played the.mod_paren (held stack.old) ≡ None) }
{
    let mark = stack.token()?;
    let module = Kept::new(stack.module()?);
    let last = stack.token()?;
    let span = up_to(mark.span, last.span);
    stack.push(Part::Mod(Mod {
        span,
        what: module.take().what,
    }))
}

// Plays a production of modules.
pub(crate) fn module(
    stack: &mut Stack<'_>,
    alloc: Global,
    rule: ModRule,
) -> Result<(), BuildRefusal>
    ensures made { IfOk result (λ _. played_any (mod_rule_in rule) (held stack.old) ≡ Some (held stack.new)) }
    ensures misfit { IfErr result (λ e. e ≡ Misfit → played_any (mod_rule_in rule) (held stack.old) ≡ None) }
{
    match rule {
        ModRule::Fun => applicative_functor(stack, alloc),
        ModRule::Gen => generative_functor(stack, alloc),
        ModRule::Unpack => unpack(stack, alloc),
        ModRule::Chain => chain(stack, alloc),
        ModRule::NoArgs => no_args(stack, alloc),
        ModRule::MoreArgs => more_args(stack),
        ModRule::NoSeals => no_seals(stack, alloc),
        ModRule::Seal => seal(stack),
        ModRule::Ascribe => ascribe(stack),
        ModRule::Path => path(stack),
        ModRule::Struct => structure(stack),
        ModRule::Let => let_in(stack, alloc),
        ModRule::Paren => paren(stack),
    }
}
