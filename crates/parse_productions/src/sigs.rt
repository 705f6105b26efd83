// Signatures.
ghost use Rattle.std.specs.Prelude.{◌≡◌, Some, None, IfOk, IfErr};
ghost use Rattle.parse_grammar.specs.Grammar as the;
ghost use Rattle.parse_grammar.specs.Inner.View.{sig_rule_in};
ghost use Rattle.parse_stack.specs.Inner.Part.{held};
ghost use Rattle.parse_stack.specs.Inner.Play.{played, played_any};
ghost use Rattle.parse_stack.specs.declared.refusal.BuildRefusal.TheVariants.{Misfit};

use fing_syntax::{SigEx, SigWhat};
use parse_forms::{Kept, Where, named, refine_all, up_to};
use parse_grammar::grammar::SigRule;
use parse_stack::{BuildRefusal, Part, Stack};
use std::alloc::Global;

fn fun(stack: &mut Stack<'_>, alloc: Global) -> Result<(), BuildRefusal>
    ensures made { IfOk result (λ _. played the.sig_fun (held stack.old) ≡ Some (held stack.new)) }
    ensures misfit { IfErr result (λ e. e ≡ Misfit → played the.sig_fun (held stack.old) ≡ None) }
{
    let word = stack.token()?;
    stack.token()?;
    let name = stack.token()?;
    stack.token()?;
    let param = Box::new(alloc, stack.sig()?)?;
    stack.token()?;
    let pure = stack.pure()?;
    let result = stack.sig()?;
    let span = up_to(word.span, result.span);
    let result = Box::new(alloc, result)?;
    let name = named(alloc, name)?;
    stack.push(Part::Sig(SigEx {
        span,
        what: SigWhat::Fun {
            pure,
            name,
            param,
            result,
        },
    }))
}

fn refined(stack: &mut Stack<'_>, alloc: Global) -> Result<(), BuildRefusal>
    ensures made { IfOk result (λ _. played the.sig_where (held stack.old) ≡ Some (held stack.new)) }
    ensures misfit { IfErr result (λ e. e ≡ Misfit → played the.sig_where (held stack.old) ≡ None) }
{
    let sig = Kept::new(stack.sig()?);
    let wheres = stack.wheres()?;
    let sig = refine_all(alloc, sig.take(), wheres)?;
    stack.push(Part::Sig(sig))
}

fn generative(stack: &mut Stack<'_>) -> Result<(), BuildRefusal>
    ensures made { IfOk result (λ _. played the.generative (held stack.old) ≡ Some (held stack.new)) }
    ensures misfit { IfErr result (λ e. e ≡ Misfit → played the.generative (held stack.old) ≡ None) }
{
    stack.token()?;
    stack.push(Part::Pure(false))
}

fn applicative(stack: &mut Stack<'_>) -> Result<(), BuildRefusal>
    ensures made { IfOk result (λ _. played the.applicative (held stack.old) ≡ Some (held stack.new)) }
    ensures misfit { IfErr result (λ e. e ≡ Misfit → played the.applicative (held stack.old) ≡ None) }
{
    stack.token()?;
    stack.push(Part::Pure(true))
}

fn no_wheres(stack: &mut Stack<'_>, alloc: Global) -> Result<(), BuildRefusal>
    ensures made { IfOk result (λ _. played the.no_wheres (held stack.old) ≡ Some (held stack.new)) }
    ensures misfit { IfErr result (λ e. e ≡ Misfit → played the.no_wheres (held stack.old) ≡ None) }
{
    stack.push(Part::Wheres(Vec::new(alloc)))
}

#[tactic(auto, using(parse_forms::proofs::Chained::reverse_push))]
fn more_wheres(stack: &mut Stack<'_>, alloc: Global) -> Result<(), BuildRefusal>
    ensures made { IfOk result (λ _. played the.more_wheres (held stack.old) ≡ Some (held stack.new)) }
    ensures misfit { IfErr result (λ e. e ≡ Misfit → played the.more_wheres (held stack.old) ≡ None) }
{
    stack.token()?;
    stack.token()?;
    let first = stack.token()?;
    let mut rest = stack.names()?;
    stack.token()?;
    let ty = Kept::new(stack.ty()?);
    let mut wheres = stack.wheres()?;
    rest.reverse();
    let first = named(alloc, first)?;
    let ty = ty.take();
    wheres.push(Where { first, rest, ty })?;
    stack.push(Part::Wheres(wheres))
}

fn path(stack: &mut Stack<'_>) -> Result<(), BuildRefusal>
    ensures made { IfOk result (λ _. played the.sig_path (held stack.old) ≡ Some (held stack.new)) }
    ensures misfit { IfErr result (λ e. e ≡ Misfit → played the.sig_path (held stack.old) ≡ None) }
{
    let path = stack.module()?;
    stack.push(Part::Sig(SigEx {
        span: path.span,
        what: SigWhat::Path(path),
    }))
}

fn decls(stack: &mut Stack<'_>) -> Result<(), BuildRefusal>
    ensures made { IfOk result (λ _. played the.sig_decls (held stack.old) ≡ Some (held stack.new)) }
    ensures misfit { IfErr result (λ e. e ≡ Misfit → played the.sig_decls (held stack.old) ≡ None) }
{
    let word = stack.token()?;
    let mut decls = stack.decls()?;
    let last = stack.token()?;
    decls.reverse();
    let span = up_to(word.span, last.span);
    stack.push(Part::Sig(SigEx {
        span,
        what: SigWhat::Sig(decls),
    }))
}

fn paren(stack: &mut Stack<'_>) -> Result<(), BuildRefusal>
    ensures made { IfOk result (λ _. played the.sig_paren (held stack.old) ≡ Some (held stack.new)) }
    ensures misfit { IfErr result (λ e. e ≡ Misfit → played the.sig_paren (held stack.old) ≡ None) }
{
    let mark = stack.token()?;
    let sig = Kept::new(stack.sig()?);
    let last = stack.token()?;
    let span = up_to(mark.span, last.span);
    stack.push(Part::Sig(SigEx {
        span,
        what: sig.take().what,
    }))
}

// Plays a production of signatures.
pub(crate) fn sig(stack: &mut Stack<'_>, alloc: Global, rule: SigRule) -> Result<(), BuildRefusal>
    ensures made { IfOk result (λ _. played_any (sig_rule_in rule) (held stack.old) ≡ Some (held stack.new)) }
    ensures misfit { IfErr result (λ e. e ≡ Misfit → played_any (sig_rule_in rule) (held stack.old) ≡ None) }
{
    match rule {
        SigRule::Fun => fun(stack, alloc),
        SigRule::Where => refined(stack, alloc),
        SigRule::Generative => generative(stack),
        SigRule::Applicative => applicative(stack),
        SigRule::NoWheres => no_wheres(stack, alloc),
        SigRule::MoreWheres => more_wheres(stack, alloc),
        SigRule::Path => path(stack),
        SigRule::Decls => decls(stack),
        SigRule::Paren => paren(stack),
    }
}
