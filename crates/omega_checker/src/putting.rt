// Whether a numbered type is another one with a type put in for a variable, found without making that type.
ghost use Rattle.std.specs.Prelude.{◌≡◌, ◌↔◌, ◌<◌, zero, suc, IfOk, IsTrue, length};
ghost use Rattle.omega_kinds.specs.View.{kind_tree};
ghost use Rattle.omega_types.specs.Fields.{row};
ghost use Rattle.omega_types.specs.Index.{shift};
ghost use Rattle.omega_types.specs.Normaliser.{args, hsubst, put_in, put_in_row, tree};
ghost use Rattle.omega_types.specs.Substitution.{rename};
ghost use Rattle.omega_node_laws.specs.SameTy.{same_ty};
ghost use Rattle.type_store.specs.Trees.{ArePartsBelow, at as numbered, row_at};

use omega_kinds::{Kind, Label, Mem, same_kind, same_label};
use omega_types::{Ty, TyFields, TyNode, next_level, shift};
use std::alloc::Global;
use type_normal::{NormalTy, as_normal, hsubst, plain};
use type_store::{Form, Types};

/// Whether a numbered type is the normal form of the body of a binder of a kind with a type put in for its variable.
/// `Err` is out of memory.
pub(crate) fn is_put(
    alloc: Global,
    types: &Types,
    kind: &Kind,
    body: &Ty,
    arg: &NormalTy,
    found: u64,
) -> Result<bool, Mem>
    requires { found < length types.now }
    ensures { IfOk result (λ b. b ≡ same_ty (hsubst (kind_tree kind.now) zero arg.now body.now) (numbered types.now found)) }
{
    puts(alloc, types, body, found, 0, 0, plain(arg), kind)
}

// The same below `depth` binders, where the variable is `at`.
#[cycle(puts)]
fn puts(
    alloc: Global,
    types: &Types,
    body: &Ty,
    found: u64,
    at: u64,
    depth: u64,
    arg: &Ty,
    kind: &Kind,
) -> Result<bool, Mem>
    requires { found < length types.now }
    ensures { IfOk result (λ b. IsTrue b ↔ tree (put_in (kind_tree kind.now) (args (kind_tree kind.now)) at (shift depth 0 arg.now) body.now) ≡ numbered types.now found) }
{
    match (body.node(), types.form(found), kind) {
        (TyNode::Arrow(a, b), Form::Arrow(c, d), _) => {
            let is_once = *c == *d && body.both_sides().is_some();
            Ok(
                puts(alloc, types, a, *c, at, depth, arg, kind)?
                    && (is_once || puts(alloc, types, b, *d, at, depth, arg, kind)?),
            )
        }
        (TyNode::Fields(a), Form::Fields(b), _) => {
            puts_fields(alloc, types, a, b.as_slice(), at, depth, arg, kind)
        }
        (TyNode::Sum(a), Form::Sum(b), _) => {
            puts_fields(alloc, types, a, b.as_slice(), at, depth, arg, kind)
        }
        (TyNode::All(j, a), Form::All(k, b), _) => {
            Ok(same_kind(j, k) && puts_under(alloc, types, a, *b, at, depth, arg, kind)?)
        }
        (TyNode::Ex(j, a), Form::Ex(k, b), _) => {
            Ok(same_kind(j, k) && puts_under(alloc, types, a, *b, at, depth, arg, kind)?)
        }
        (TyNode::Mu(a), Form::Mu(b), _) => puts_under(alloc, types, a, *b, at, depth, arg, kind),
        (TyNode::Apply(a, b), Form::Apply(c, d), Kind::Star) => {
            Ok(
                puts(alloc, types, a, *c, at, depth, arg, kind)?
                    && puts(alloc, types, b, *d, at, depth, arg, kind)?,
            )
        }
        _ => made(alloc, types, body, found, at, depth, arg, kind),
    }
}

// The same where the type is made.
fn made(
    alloc: Global,
    types: &Types,
    body: &Ty,
    found: u64,
    at: u64,
    depth: u64,
    arg: &Ty,
    kind: &Kind,
) -> Result<bool, Mem>
    requires { found < length types.now }
    ensures { IfOk result (λ b. IsTrue b ↔ tree (put_in (kind_tree kind.now) (args (kind_tree kind.now)) at (shift depth 0 arg.now) body.now) ≡ numbered types.now found) }
{
    if body.bound() <= at {
        return Ok(types.is_tree(found, body));
    }
    let arg = as_normal(shift(alloc, arg, depth, 0)?);
    let whole = hsubst(alloc, &as_normal(body.share()?), at, &arg, kind)?;
    Ok(types.is_tree(found, plain(&whole)))
}

// The same for the body of a binder.
#[cycle(puts)]
fn puts_under(
    alloc: Global,
    types: &Types,
    body: &Ty,
    found: u64,
    at: u64,
    depth: u64,
    arg: &Ty,
    kind: &Kind,
) -> Result<bool, Mem>
    requires { found < length types.now }
    ensures { IfOk result (λ b. IsTrue b ↔ tree (put_in (kind_tree kind.now) (args (kind_tree kind.now)) (suc at) (rename suc (shift depth 0 arg.now)) body.now) ≡ numbered types.now found) }
{
    let at = next_level(at)?;
    let depth = next_level(depth)?;
    puts(alloc, types, body, found, at, depth, arg, kind)
}

// The same for the fields of records or sums.
#[cycle(puts)]
fn puts_fields(
    alloc: Global,
    types: &Types,
    fields: &TyFields,
    found: &[(Label, u64)],
    at: u64,
    depth: u64,
    arg: &Ty,
    kind: &Kind,
) -> Result<bool, Mem>
    requires { ArePartsBelow (length types.now) found.now }
    ensures { IfOk result (λ b. IsTrue b ↔ put_in_row (kind_tree kind.now) (args (kind_tree kind.now)) at (shift depth 0 arg.now) (row fields.now) ≡ row_at types.now found.now) }
{
    let parts = fields.items();
    if parts.len() != found.len() {
        return Ok(false);
    }
    for i in 0..parts.len() {
        let a = &parts[i];
        let b = &found[i];
        if !same_label(&a.0, &b.0) || !puts(alloc, types, &a.1, b.1, at, depth, arg, kind)? {
            return Ok(false);
        }
    }
    Ok(true)
}
