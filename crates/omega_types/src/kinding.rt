// The kinds of types.
ghost use Rattle.std.specs.Prelude.{◌≡◌, ◌∷◌, ◌&&◌, IfOk, OnOk, MatchOption, slice_get};
ghost use Rattle.std.specs.Option.{option_map};
ghost use Rattle.omega_kinds.specs.Kind.{Kind as KindTree};
ghost use Rattle.omega_kinds.specs.View.{kind_tree};
ghost use Rattle.omega_types.specs.Fields.{row};
ghost use Rattle.omega_types.specs.KindIn.{kind_in, are_distinct, all_star as all_star_of, is_star as is_star_of, star_if as star_if_of, applied as applied_of};
ghost use Rattle.omega_types.specs.Kinding.{HasKind};
ghost use Rattle.omega_types.specs.Ty.{Ty as TyTree};
ghost use Rattle.omega_types.specs.Inner.Scope.{scope_of};

use crate::tree::{Ty, TyFields, TyNode};
use omega_kinds::{Kind, Mem, arrow, same_kind};
use std::alloc::Global;

/// The kind of a type in a context, which lists the kinds of the type variables, the innermost last;
/// `None` exactly where the type has none. `Err` is out of memory.
///
/// Pierce, "Types and Programming Languages", figure 30-1, Higher-order polymorphic lambda-calculus, kinding.
pub fn kind_of(alloc: Global, ctx: &[Kind], ty: &Ty) -> Result<Option<Kind>, Mem>
    ensures { IfOk result (λ o. MatchOption o
        ((k : KindTree) → HasKind (scope_of ctx.now) ty.now k → ⊥)
        (λ k. HasKind (scope_of ctx.now) ty.now (kind_tree k))) }
{
    let mut scope = share_context(alloc, ctx)?;
    find_kind(alloc, &mut scope, ty)
}

/// The kinds of a context in a list that can grow, with their parts shared. `Err` is out of memory.
pub fn share_context(alloc: Global, ctx: &[Kind]) -> Result<Vec<Kind>, Mem>
    ensures { IfOk result (λ scope. scope_of scope.items ≡ scope_of ctx.now) }
{
    let mut scope = Vec::new(alloc);
    for kind in ctx {
        scope.push(kind.share()?)?;
    }
    Ok(scope)
}

/// The kind of the variable at an index in a context, which lists the innermost last; `None` exactly where no variable
/// has that index. `Err` is out of memory.
pub fn variable_kind(ctx: &[Kind], index: u64) -> Result<Option<Kind>, Mem>
    ensures { IfOk result (λ o. option_map kind_tree o ≡ slice_get (scope_of ctx.now) index) }
{
    if index < ctx.len() as u64 {
        Ok(Some(ctx[ctx.len() - 1 - index as usize].share()?))
    } else {
        Ok(None)
    }
}

/// Whether there is a kind, and it is `*`.
pub fn is_star(kind: &Option<Kind>) -> bool
    ensures { result ≡ is_star_of (option_map kind_tree kind.now) }
{
    matches!(kind, Some(Kind::Star))
}

// Both, and neither is left out.
fn both(a: bool, b: bool) -> bool
    ensures { result ≡ (a && b) }
{
    a && b
}

// The kind `*` of a type whose parts are as they must be.
fn star_if(yes: bool) -> Option<Kind>
    ensures { option_map kind_tree result ≡ star_if_of yes }
{
    if yes { Some(Kind::Star) } else { None }
}

// The kind of an application, from the kinds of its parts.
fn applied(operator: Option<Kind>, arg: Option<Kind>) -> Result<Option<Kind>, Mem>
    ensures { IfOk result (λ o. option_map kind_tree o ≡ applied_of (option_map kind_tree operator) (option_map kind_tree arg)) }
{
    match (operator, arg) {
        (Some(Kind::Arrow(from, to, _)), Some(arg)) => {
            if same_kind(&from, &arg) {
                Ok(Some(to.share()?))
            } else {
                Ok(None)
            }
        }
        _ => Ok(None),
    }
}

// The kind of a type; the context stands as it was.
#[cycle(find)]
fn find_kind(alloc: Global, scope: &mut Vec<Kind>, ty: &Ty) -> Result<Option<Kind>, Mem>
    ensures kept { OnOk result (scope_of scope.new.items ≡ scope_of scope.old.items) }
    ensures kind { IfOk result (λ o. option_map kind_tree o ≡ kind_in (scope_of scope.old.items) ty.now) }
{
    match ty.node() {
        TyNode::Var(index) => variable_kind(scope, *index),
        TyNode::Int | TyNode::Bool | TyNode::Text => Ok(Some(Kind::Star)),
        TyNode::Arrow(from, to) => match ty.both_sides() {
            Some(part) => find_even(alloc, scope, part),
            None => find_arrow(alloc, scope, from, to),
        },
        TyNode::Fields(fields) | TyNode::Sum(fields) => find_fields(alloc, scope, fields),
        TyNode::All(k, b) | TyNode::Ex(k, b) => find_quantified(alloc, scope, b, k),
        TyNode::Mu(b) => find_quantified(alloc, scope, b, &Kind::Star),
        TyNode::Lam(k, b) => find_operator(alloc, scope, k, b),
        TyNode::Apply(f, a) => find_application(alloc, scope, f, a),
    }
}

// A function type.
#[cycle(find)]
#[inline(never)]
fn find_arrow(alloc: Global, scope: &mut Vec<Kind>, from: &Ty, to: &Ty) -> Result<Option<Kind>, Mem>
    ensures kept { OnOk result (scope_of scope.new.items ≡ scope_of scope.old.items) }
    ensures kind { IfOk result (λ o. option_map kind_tree o ≡ kind_in (scope_of scope.old.items) (TyTree.Arrow from.now to.now)) }
{
    let from = find_kind(alloc, scope, from)?;
    let to = find_kind(alloc, scope, to)?;
    Ok(star_if(is_star(&from) && is_star(&to)))
}

// A function type whose two parts are one tree.
#[cycle(find)]
#[inline(never)]
fn find_even(alloc: Global, scope: &mut Vec<Kind>, part: &Ty) -> Result<Option<Kind>, Mem>
    ensures kept { OnOk result (scope_of scope.new.items ≡ scope_of scope.old.items) }
    ensures kind { IfOk result (λ o. option_map kind_tree o ≡ kind_in (scope_of scope.old.items) (TyTree.Arrow part.now part.now)) }
{
    let part = find_kind(alloc, scope, part)?;
    Ok(star_if(is_star(&part)))
}

// A record type or a sum.
#[cycle(find)]
#[inline(never)]
fn find_fields(alloc: Global, scope: &mut Vec<Kind>, fields: &TyFields) -> Result<Option<Kind>, Mem>
    ensures kept { OnOk result (scope_of scope.new.items ≡ scope_of scope.old.items) }
    ensures kind { IfOk result (λ o. option_map kind_tree o ≡ kind_in (scope_of scope.old.items) (TyTree.Fields (row fields.now))) }
{
    let stars = all_star(alloc, scope, fields)?;
    Ok(star_if(stars))
}

// A type that binds a variable and has kind `*`, as its body must.
#[cycle(find)]
#[inline(never)]
fn find_quantified(
    alloc: Global,
    scope: &mut Vec<Kind>,
    body: &Ty,
    kind: &Kind,
) -> Result<Option<Kind>, Mem>
    ensures kept { OnOk result (scope_of scope.new.items ≡ scope_of scope.old.items) }
    ensures kind { IfOk result (λ o. option_map kind_tree o ≡ kind_in (scope_of scope.old.items) (TyTree.All (kind_tree kind.now) body.now)) }
{
    let found = find_under(alloc, scope, body, kind)?;
    Ok(star_if(is_star(&found)))
}

// An operator.
#[cycle(find)]
#[inline(never)]
fn find_operator(
    alloc: Global,
    scope: &mut Vec<Kind>,
    kind: &Kind,
    body: &Ty,
) -> Result<Option<Kind>, Mem>
    ensures kept { OnOk result (scope_of scope.new.items ≡ scope_of scope.old.items) }
    ensures kind { IfOk result (λ o. option_map kind_tree o ≡ kind_in (scope_of scope.old.items) (TyTree.Lam (kind_tree kind.now) body.now)) }
{
    match find_under(alloc, scope, body, kind)? {
        Some(found) => Ok(Some(arrow(alloc, kind.share()?, found)?)),
        None => Ok(None),
    }
}

// An application.
#[cycle(find)]
#[inline(never)]
fn find_application(
    alloc: Global,
    scope: &mut Vec<Kind>,
    operator: &Ty,
    arg: &Ty,
) -> Result<Option<Kind>, Mem>
    ensures kept { OnOk result (scope_of scope.new.items ≡ scope_of scope.old.items) }
    ensures kind { IfOk result (λ o. option_map kind_tree o ≡ kind_in (scope_of scope.old.items) (TyTree.Apply operator.now arg.now)) }
{
    let operator = find_kind(alloc, scope, operator)?;
    let arg = find_kind(alloc, scope, arg)?;
    applied(operator, arg)
}

// The kind of the body of a binder.
#[cycle(find)]
fn find_under(
    alloc: Global,
    scope: &mut Vec<Kind>,
    body: &Ty,
    kind: &Kind,
) -> Result<Option<Kind>, Mem>
    ensures kept { OnOk result (scope_of scope.new.items ≡ scope_of scope.old.items) }
    ensures kind { IfOk result (λ o. option_map kind_tree o ≡ kind_in (kind_tree kind.now ∷ scope_of scope.old.items) body.now) }
{
    scope.push(kind.share()?)?;
    let found = find_kind(alloc, scope, body)?;
    scope.pop();
    Ok(found)
}

// Whether each field has kind `*`. Fields rise, so their labels are distinct.
#[cycle(find)]
fn all_star(alloc: Global, scope: &mut Vec<Kind>, fields: &TyFields) -> Result<bool, Mem>
    ensures kept { OnOk result (scope_of scope.new.items ≡ scope_of scope.old.items) }
    ensures all { IfOk result (λ b. b ≡ (are_distinct (row fields.now) && all_star_of (scope_of scope.old.items) (row fields.now))) }
{
    let mut all = true;
    for field in fields.items() {
        let found = find_kind(alloc, scope, &field.1)?;
        all = both(all, is_star(&found));
    }
    Ok(all)
}
