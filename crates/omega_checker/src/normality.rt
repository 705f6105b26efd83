// Types that are in normal form already, found without building anything.
ghost use Rattle.std.specs.Prelude.{◌≡◌, ◌↔◌, ◌∷◌, ◌&&◌, IfOk, IsTrue, OnOk, slice_get};
ghost use Rattle.std.specs.Option.{option_map};
ghost use Rattle.omega_kinds.specs.Kind.{Star};
ghost use Rattle.omega_kinds.specs.View.{kind_tree};
ghost use Rattle.omega_types.specs.Fields.{row};
ghost use Rattle.omega_types.specs.KindIn.{are_distinct};
ghost use Rattle.omega_types.specs.Normality.{Normal};
ghost use Rattle.omega_types.specs.Inner.Scope.{scope_of};
ghost use Rattle.omega_checker.specs.Inner.IsNormal.{are_normal as are_normal_of, is_normal as is_normal_of, neutral_kind as neutral_kind_of, scope_below, with_arg as with_arg_of};

use omega_kinds::{Kind, Mem, same_kind};
use omega_types::{Ty, TyFields, TyNode, is_star, variable_kind};
use std::alloc::Global;

/// Whether a type is normal at a kind, beta-normal and eta-long, in a context, which lists the kinds of the type
/// variables, the innermost last. `Err` is out of memory.
///
/// Harper and Pfenning, "On equivalence and canonical forms in the LF type theory" (2005), has such forms as canonical
/// and atomic ones.
pub(crate) fn is_normal(alloc: Global, ctx: &[Kind], ty: &Ty, kind: &Kind) -> Result<bool, Mem>
    ensures { IfOk result (λ b. IsTrue b ↔ Normal (scope_of ctx.now) ty.now (kind_tree kind.now)) }
{
    let mut inner = Vec::new(alloc);
    normal_at_kind(ctx, &mut inner, ty, kind)
}

// The kind of the variable at an index, below the binders that were passed.
fn kind_at(ctx: &[Kind], inner: &[Kind], index: u64) -> Result<Option<Kind>, Mem>
    ensures { IfOk result (λ o. option_map kind_tree o ≡ slice_get (scope_below ctx.now inner.now) index) }
{
    let passed = inner.len() as u64;
    if index < passed {
        variable_kind(inner, index)
    } else {
        variable_kind(ctx, index - passed)
    }
}

// Whether the type is normal at the kind.
#[cycle(normal)]
fn normal_at_kind(ctx: &[Kind], inner: &mut Vec<Kind>, ty: &Ty, kind: &Kind) -> Result<bool, Mem>
    ensures kept { OnOk result (scope_of inner.new.items ≡ scope_of inner.old.items) }
    ensures value { IfOk result (λ b. b ≡ is_normal_of (scope_below ctx.now inner.old.items) ty.now (kind_tree kind.now)) }
{
    match kind {
        Kind::Star => normal_type(ctx, inner, ty),
        Kind::Arrow(from, to, _) => match ty.node() {
            TyNode::Lam(k, b) => {
                if same_kind(k, from) {
                    normal_body(ctx, inner, b, k, to)
                } else {
                    Ok(false)
                }
            }
            _ => Ok(false),
        },
    }
}

// Whether the type is normal at kind `*`.
#[cycle(normal)]
fn normal_type(ctx: &[Kind], inner: &mut Vec<Kind>, ty: &Ty) -> Result<bool, Mem>
    ensures kept { OnOk result (scope_of inner.new.items ≡ scope_of inner.old.items) }
    ensures value { IfOk result (λ b. b ≡ is_normal_of (scope_below ctx.now inner.old.items) ty.now Star) }
{
    match ty.node() {
        TyNode::Var(index) => Ok(is_star(&kind_at(ctx, inner, *index)?)),
        TyNode::Int | TyNode::Bool | TyNode::Text => Ok(true),
        TyNode::Arrow(a, b) => {
            let from = normal_type(ctx, inner, a)?;
            if from && ty.both_sides().is_none() {
                return normal_type(ctx, inner, b);
            }
            Ok(from)
        }
        TyNode::Fields(fields) | TyNode::Sum(fields) => normal_fields(ctx, inner, fields),
        TyNode::All(k, b) => normal_body(ctx, inner, b, k, &Kind::Star),
        TyNode::Ex(k, b) => normal_body(ctx, inner, b, k, &Kind::Star),
        TyNode::Mu(b) => normal_body(ctx, inner, b, &Kind::Star, &Kind::Star),
        TyNode::Lam(_, _) => Ok(false),
        TyNode::Apply(f, a) => Ok(is_star(&applied_kind(ctx, inner, f, a)?)),
    }
}

// Whether the body of a binder is normal at the kind.
#[cycle(normal)]
fn normal_body(
    ctx: &[Kind],
    inner: &mut Vec<Kind>,
    body: &Ty,
    binder: &Kind,
    kind: &Kind,
) -> Result<bool, Mem>
    ensures kept { OnOk result (scope_of inner.new.items ≡ scope_of inner.old.items) }
    ensures value { IfOk result (λ b. b ≡ is_normal_of (kind_tree binder.now ∷ scope_below ctx.now inner.old.items) body.now (kind_tree kind.now)) }
{
    inner.push(binder.share()?)?;
    let normal = normal_at_kind(ctx, inner, body, kind)?;
    inner.pop();
    Ok(normal)
}

// Whether each field is normal at kind `*`. Fields rise, so their labels are distinct.
#[cycle(normal)]
fn normal_fields(ctx: &[Kind], inner: &mut Vec<Kind>, fields: &TyFields) -> Result<bool, Mem>
    ensures kept { OnOk result (scope_of inner.new.items ≡ scope_of inner.old.items) }
    ensures value { IfOk result (λ b. b ≡ (are_distinct (row fields.now) && are_normal_of (scope_below ctx.now inner.old.items) (row fields.now))) }
{
    for field in fields.items() {
        if !normal_type(ctx, inner, &field.1)? {
            return Ok(false);
        }
    }
    Ok(true)
}

// The kind of a variable applied to normal arguments, and none where the type is of no such form or has no kind.
#[cycle(normal)]
fn neutral_kind(ctx: &[Kind], inner: &mut Vec<Kind>, ty: &Ty) -> Result<Option<Kind>, Mem>
    ensures kept { OnOk result (scope_of inner.new.items ≡ scope_of inner.old.items) }
    ensures value { IfOk result (λ o. option_map kind_tree o ≡ neutral_kind_of (scope_below ctx.now inner.old.items) ty.now) }
{
    match ty.node() {
        TyNode::Var(index) => kind_at(ctx, inner, *index),
        TyNode::Apply(f, a) => applied_kind(ctx, inner, f, a),
        _ => Ok(None),
    }
}

// The kind of a neutral operator at a normal argument.
#[cycle(normal)]
fn applied_kind(
    ctx: &[Kind],
    inner: &mut Vec<Kind>,
    operator: &Ty,
    arg: &Ty,
) -> Result<Option<Kind>, Mem>
    ensures kept { OnOk result (scope_of inner.new.items ≡ scope_of inner.old.items) }
    ensures value { IfOk result (λ o. option_map kind_tree o ≡ with_arg_of (neutral_kind_of (scope_below ctx.now inner.old.items) operator.now) (is_normal_of (scope_below ctx.now inner.old.items) arg.now)) }
{
    let Some(Kind::Arrow(from, to, _)) = neutral_kind(ctx, inner, operator)? else {
        return Ok(None);
    };
    if normal_at_kind(ctx, inner, arg, &from)? {
        Ok(Some(to.share()?))
    } else {
        Ok(None)
    }
}
