// Types.
ghost use Rattle.std.specs.Prelude.{◌≡◌, Some, None, IfOk, IfErr};
ghost use Rattle.parse_grammar.specs.Grammar as the;
ghost use Rattle.parse_grammar.specs.Inner.View.{ty_rule_in};
ghost use Rattle.parse_stack.specs.Inner.Part.{held};
ghost use Rattle.parse_stack.specs.Inner.Play.{played, played_any};
ghost use Rattle.parse_stack.specs.declared.refusal.BuildRefusal.TheVariants.{Misfit};

use fing_syntax::{TyEx, TyWhat};
use parse_forms::{Kept, arrow_chain, named, ty_chain, up_to};
use parse_grammar::grammar::TyRule;
use parse_stack::{BuildRefusal, Part, Stack};
use parse_sums::sum_type;
use std::alloc::Global;

fn lam(stack: &mut Stack<'_>, alloc: Global) -> Result<(), BuildRefusal>
    ensures made { IfOk result (λ _. played the.ty_lam (held stack.old) ≡ Some (held stack.new)) }
    ensures misfit { IfErr result (λ e. e ≡ Misfit → played the.ty_lam (held stack.old) ≡ None) }
{
    let word = stack.token()?;
    stack.token()?;
    let name = stack.token()?;
    stack.token()?;
    let kind = Kept::new(stack.kind()?.kind);
    stack.token()?;
    stack.token()?;
    let body = stack.ty()?;
    let span = up_to(word.span, body.span);
    let body = Box::new(alloc, body)?;
    let name = named(alloc, name)?;
    stack.push(Part::Ty(TyEx {
        span,
        what: TyWhat::Lam(name, kind.take(), body),
    }))
}

fn all(stack: &mut Stack<'_>, alloc: Global) -> Result<(), BuildRefusal>
    ensures made { IfOk result (λ _. played the.ty_all (held stack.old) ≡ Some (held stack.new)) }
    ensures misfit { IfErr result (λ e. e ≡ Misfit → played the.ty_all (held stack.old) ≡ None) }
{
    let mark = stack.token()?;
    let name = stack.token()?;
    stack.token()?;
    let kind = Kept::new(stack.kind()?.kind);
    stack.token()?;
    stack.token()?;
    let body = stack.ty()?;
    let span = up_to(mark.span, body.span);
    let body = Box::new(alloc, body)?;
    let name = named(alloc, name)?;
    stack.push(Part::Ty(TyEx {
        span,
        what: TyWhat::All(name, kind.take(), body),
    }))
}

fn chain(stack: &mut Stack<'_>, alloc: Global) -> Result<(), BuildRefusal>
    ensures made { IfOk result (λ _. played the.ty_chain (held stack.old) ≡ Some (held stack.new)) }
    ensures misfit { IfErr result (λ e. e ≡ Misfit → played the.ty_chain (held stack.old) ≡ None) }
{
    let from = Kept::new(stack.ty()?);
    let to = stack.ty_arrow()?;
    let ty = arrow_chain(alloc, from.take(), to)?;
    stack.push(Part::Ty(ty))
}

fn no_arrow(stack: &mut Stack<'_>) -> Result<(), BuildRefusal>
    ensures made { IfOk result (λ _. played the.no_arrow (held stack.old) ≡ Some (held stack.new)) }
    ensures misfit { IfErr result (λ e. e ≡ Misfit → played the.no_arrow (held stack.old) ≡ None) }
{
    stack.push(Part::TyArrow(None))
}

fn arrow(stack: &mut Stack<'_>) -> Result<(), BuildRefusal>
    ensures made { IfOk result (λ _. played the.ty_arrow (held stack.old) ≡ Some (held stack.new)) }
    ensures misfit { IfErr result (λ e. e ≡ Misfit → played the.ty_arrow (held stack.old) ≡ None) }
{
    stack.token()?;
    let ty = stack.ty()?;
    stack.push(Part::TyArrow(Some(ty)))
}

fn args(stack: &mut Stack<'_>, alloc: Global) -> Result<(), BuildRefusal>
    ensures made { IfOk result (λ _. played the.ty_args (held stack.old) ≡ Some (held stack.new)) }
    ensures misfit { IfErr result (λ e. e ≡ Misfit → played the.ty_args (held stack.old) ≡ None) }
{
    let operator = Kept::new(stack.ty()?);
    let args = stack.tys()?;
    let ty = ty_chain(alloc, operator.take(), args)?;
    stack.push(Part::Ty(ty))
}

fn no_args(stack: &mut Stack<'_>, alloc: Global) -> Result<(), BuildRefusal>
    ensures made { IfOk result (λ _. played the.no_ty_args (held stack.old) ≡ Some (held stack.new)) }
    ensures misfit { IfErr result (λ e. e ≡ Misfit → played the.no_ty_args (held stack.old) ≡ None) }
{
    stack.push(Part::Tys(Vec::new(alloc)))
}

#[tactic(auto, using(parse_forms::proofs::Chained::reverse_push))]
fn more_args(stack: &mut Stack<'_>) -> Result<(), BuildRefusal>
    ensures made { IfOk result (λ _. played the.more_ty_args (held stack.old) ≡ Some (held stack.new)) }
    ensures misfit { IfErr result (λ e. e ≡ Misfit → played the.more_ty_args (held stack.old) ≡ None) }
{
    let first = Kept::new(stack.ty()?);
    let mut rest = stack.tys()?;
    rest.push(first.take())?;
    stack.push(Part::Tys(rest))
}

fn int(stack: &mut Stack<'_>) -> Result<(), BuildRefusal>
    ensures made { IfOk result (λ _. played the.ty_int (held stack.old) ≡ Some (held stack.new)) }
    ensures misfit { IfErr result (λ e. e ≡ Misfit → played the.ty_int (held stack.old) ≡ None) }
{
    let word = stack.token()?;
    stack.push(Part::Ty(TyEx {
        span: word.span,
        what: TyWhat::Int,
    }))
}

fn bool_ty(stack: &mut Stack<'_>) -> Result<(), BuildRefusal>
    ensures made { IfOk result (λ _. played the.ty_bool (held stack.old) ≡ Some (held stack.new)) }
    ensures misfit { IfErr result (λ e. e ≡ Misfit → played the.ty_bool (held stack.old) ≡ None) }
{
    let word = stack.token()?;
    stack.push(Part::Ty(TyEx {
        span: word.span,
        what: TyWhat::Bool,
    }))
}

fn text(stack: &mut Stack<'_>) -> Result<(), BuildRefusal>
    ensures made { IfOk result (λ _. played the.ty_text (held stack.old) ≡ Some (held stack.new)) }
    ensures misfit { IfErr result (λ e. e ≡ Misfit → played the.ty_text (held stack.old) ≡ None) }
{
    let word = stack.token()?;
    stack.push(Part::Ty(TyEx {
        span: word.span,
        what: TyWhat::Text,
    }))
}

fn path(stack: &mut Stack<'_>) -> Result<(), BuildRefusal>
    ensures made { IfOk result (λ _. played the.ty_path (held stack.old) ≡ Some (held stack.new)) }
    ensures misfit { IfErr result (λ e. e ≡ Misfit → played the.ty_path (held stack.old) ≡ None) }
{
    let path = stack.module()?;
    stack.push(Part::Ty(TyEx {
        span: path.span,
        what: TyWhat::Path(path),
    }))
}

fn fields(stack: &mut Stack<'_>) -> Result<(), BuildRefusal>
    ensures made { IfOk result (λ _. played the.ty_fields (held stack.old) ≡ Some (held stack.new)) }
    ensures misfit { IfErr result (λ e. e ≡ Misfit → played the.ty_fields (held stack.old) ≡ None) }
{
    let mark = stack.token()?;
    let mut fields = stack.field_tys()?;
    let last = stack.token()?;
    fields.reverse();
    let span = up_to(mark.span, last.span);
    stack.push(Part::Ty(TyEx {
        span,
        what: TyWhat::Fields(fields),
    }))
}

fn pack(stack: &mut Stack<'_>, alloc: Global) -> Result<(), BuildRefusal>
    ensures made { IfOk result (λ _. played the.ty_pack (held stack.old) ≡ Some (held stack.new)) }
    ensures misfit { IfErr result (λ e. e ≡ Misfit → played the.ty_pack (held stack.old) ≡ None) }
{
    let word = stack.token()?;
    let sig = stack.sig()?;
    let span = up_to(word.span, sig.span);
    let sig = Box::new(alloc, sig)?;
    stack.push(Part::Ty(TyEx {
        span,
        what: TyWhat::Pack(sig),
    }))
}

fn paren(stack: &mut Stack<'_>) -> Result<(), BuildRefusal>
    ensures made { IfOk result (λ _. played the.ty_paren (held stack.old) ≡ Some (held stack.new)) }
    ensures misfit { IfErr result (λ e. e ≡ Misfit → played the.ty_paren (held stack.old) ≡ None) }
{
    let mark = stack.token()?;
    let ty = Kept::new(stack.ty()?);
    let last = stack.token()?;
    let span = up_to(mark.span, last.span);
    stack.push(Part::Ty(TyEx {
        span,
        what: ty.take().what,
    }))
}

fn no_fields(stack: &mut Stack<'_>, alloc: Global) -> Result<(), BuildRefusal>
    ensures made { IfOk result (λ _. played the.no_ty_fields (held stack.old) ≡ Some (held stack.new)) }
    ensures misfit { IfErr result (λ e. e ≡ Misfit → played the.no_ty_fields (held stack.old) ≡ None) }
{
    stack.push(Part::FieldTys(Vec::new(alloc)))
}

#[tactic(auto, using(parse_forms::proofs::Chained::reverse_push))]
fn field(stack: &mut Stack<'_>, alloc: Global) -> Result<(), BuildRefusal>
    ensures made { IfOk result (λ _. played the.ty_field (held stack.old) ≡ Some (held stack.new)) }
    ensures misfit { IfErr result (λ e. e ≡ Misfit → played the.ty_field (held stack.old) ≡ None) }
{
    let name = stack.token()?;
    stack.token()?;
    let ty = Kept::new(stack.ty()?);
    let mut rest = stack.field_tys()?;
    let name = named(alloc, name)?;
    rest.push((name, ty.take()))?;
    stack.push(Part::FieldTys(rest))
}

#[tactic(auto, using(parse_forms::proofs::Chained::reverse_push))]
fn next_field(stack: &mut Stack<'_>, alloc: Global) -> Result<(), BuildRefusal>
    ensures made { IfOk result (λ _. played the.next_ty_field (held stack.old) ≡ Some (held stack.new)) }
    ensures misfit { IfErr result (λ e. e ≡ Misfit → played the.next_ty_field (held stack.old) ≡ None) }
{
    stack.token()?;
    let name = stack.token()?;
    stack.token()?;
    let ty = Kept::new(stack.ty()?);
    let mut rest = stack.field_tys()?;
    let name = named(alloc, name)?;
    rest.push((name, ty.take()))?;
    stack.push(Part::FieldTys(rest))
}

// Plays a production of types.
pub(crate) fn ty(stack: &mut Stack<'_>, alloc: Global, rule: TyRule) -> Result<(), BuildRefusal>
    ensures made { IfOk result (λ _. played_any (ty_rule_in rule) (held stack.old) ≡ Some (held stack.new)) }
    ensures misfit { IfErr result (λ e. e ≡ Misfit → played_any (ty_rule_in rule) (held stack.old) ≡ None) }
{
    match rule {
        TyRule::Lam => lam(stack, alloc),
        TyRule::All => all(stack, alloc),
        TyRule::Chain => chain(stack, alloc),
        TyRule::NoArrow => no_arrow(stack),
        TyRule::Arrow => arrow(stack),
        TyRule::Args => args(stack, alloc),
        TyRule::NoArgs => no_args(stack, alloc),
        TyRule::MoreArgs => more_args(stack),
        TyRule::Int => int(stack),
        TyRule::Bool => bool_ty(stack),
        TyRule::Text => text(stack),
        TyRule::Path => path(stack),
        TyRule::Fields => fields(stack),
        TyRule::Sum => sum_type(stack),
        TyRule::Pack => pack(stack, alloc),
        TyRule::Paren => paren(stack),
        TyRule::NoFields => no_fields(stack, alloc),
        TyRule::Field => field(stack, alloc),
        TyRule::LastField => no_fields(stack, alloc),
        TyRule::NextField => next_field(stack, alloc),
    }
}
