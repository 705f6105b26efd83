// Types read from text.
ghost use Rattle.std.specs.Prelude.{◌≡◌, ◌+◌, ◌<◌, ◌≤◌, ◌^◌, None, length};
ghost use Rattle.omega_types.specs.Ty.{Arrow, Apply, Fields, Sum, All, Ex, Mu, Lam, End, More};
ghost use Rattle.omega_types.specs.Fields.{row};
ghost use Rattle.omega_spelling.specs.Reading.{number_at, var_at, leaf_at, one, two, kind_at, node_at, later_node_at, row_at, field_at, fields_at, ty_at};
ghost use Rattle.omega_read.specs.Inner.Gives.{Gives};

use crate::fields::type_may_follow;
use crate::kinds::kind_of;
use crate::labels::label_of;
use crate::left::{Left, Stop};
use crate::numbers::number_of;
use omega_kinds::Label;
use omega_terms::Version;
use omega_types::{Ty, TyFields, TyNode};
use std::alloc::Global;

// A variable, behind the letter that begins it.
#[tactic(auto, unfolding(omega_spelling::specs::Reading::var_at))]
fn var_of(alloc: Global, types: u64, left: &mut Left<'_>) -> Result<Ty, Stop>
    ensures { Gives (λ t. t) result left.new.rest.now (var_at types left.old.rest.now) }
{
    let level = number_of(left)?;
    if level >= types {
        return Err(Stop::NotOmega);
    }
    Ok(Ty::make(alloc, TyNode::Var(types - (level + 1)))?)
}

// A type with no parts.
#[tactic(auto, unfolding(omega_spelling::specs::Reading::leaf_at))]
fn leaf_of(alloc: Global, types: u64, left: &mut Left<'_>) -> Result<Ty, Stop>
    ensures { Gives (λ t. t) result left.new.rest.now (leaf_at types left.old.rest.now) }
{
    if left.eat(b"a") {
        return var_of(alloc, types, left);
    }
    if left.eat(b"int") {
        return Ok(Ty::make(alloc, TyNode::Int)?);
    }
    if left.eat(b"bool") {
        return Ok(Ty::make(alloc, TyNode::Bool)?);
    }
    if left.eat(b"text") {
        return Ok(Ty::make(alloc, TyNode::Text)?);
    }
    Err(Stop::NotOmega)
}

// A type of a version with so many type variables in scope, and at most so many parentheses open at once.
#[cycle(types)]
#[tactic(auto, using(crate::proofs::Unfold::ty_unfold))]
pub fn ty_of(
    alloc: Global,
    version: Version,
    depth: u32,
    types: u64,
    left: &mut Left<'_>,
) -> Result<Ty, Stop>
    requires { types + depth < 2 ^ 64 }
    ensures { Gives (λ t. t) result left.new.rest.now (ty_at version depth types left.old.rest.now) }
{
    if depth == 0 {
        return leaf_of(alloc, types, left);
    }
    if left.eat(b"(") {
        return node_of(alloc, version, depth - 1, types, left);
    }
    leaf_of(alloc, types, left)
}

// A type with parts, behind the parenthesis that opens it.
#[cycle(types)]
#[tactic(auto, unfolding(omega_spelling::specs::Reading::node_at))]
fn node_of(
    alloc: Global,
    version: Version,
    depth: u32,
    types: u64,
    left: &mut Left<'_>,
) -> Result<Ty, Stop>
    requires { types + depth + 1 < 2 ^ 64 }
    ensures { Gives (λ t. t) result left.new.rest.now (node_at version (kind_at depth) (ty_at version depth) types left.old.rest.now) }
{
    if left.eat(b"-> ") {
        return arrow_of(alloc, version, depth, types, left);
    }
    if left.eat(b"rec") {
        return record_of(alloc, version, depth, types, left);
    }
    if left.eat(b"all ") {
        return all_of(alloc, version, depth, types, left);
    }
    if left.eat(b"some ") {
        return some_of(alloc, version, depth, types, left);
    }
    if left.eat(b"lam ") {
        return lam_of(alloc, version, depth, types, left);
    }
    if left.eat(b"@ ") {
        return apply_of(alloc, version, depth, types, left);
    }
    later_node_of(alloc, version, depth, types, left)
}

// A type with parts that the first version does not have, behind the parenthesis that opens it.
#[cycle(types)]
#[inline(never)]
#[tactic(auto, unfolding(omega_spelling::specs::Reading::second_node_at))]
fn later_node_of(
    alloc: Global,
    version: Version,
    depth: u32,
    types: u64,
    left: &mut Left<'_>,
) -> Result<Ty, Stop>
    requires { types + depth + 1 < 2 ^ 64 }
    ensures { Gives (λ t. t) result left.new.rest.now (later_node_at version (ty_at version depth) types left.old.rest.now) }
{
    match version {
        Version::First => Err(Stop::NotOmega),
        Version::Second => {
            if left.eat(b"sum") {
                return sum_of(alloc, version, depth, types, left);
            }
            if left.eat(b"mu ") {
                return mu_of(alloc, version, depth, types, left);
            }
            Err(Stop::NotOmega)
        }
    }
}

#[cycle(types)]
#[tactic(auto, unfolding(omega_spelling::specs::Reading::two))]
fn arrow_of(
    alloc: Global,
    version: Version,
    depth: u32,
    types: u64,
    left: &mut Left<'_>,
) -> Result<Ty, Stop>
    requires { types + depth < 2 ^ 64 }
    ensures { Gives (λ t. t) result left.new.rest.now (two Arrow (ty_at version depth types) (ty_at version depth types) left.old.rest.now) }
{
    let first = ty_of(alloc, version, depth, types, left)?;
    left.expect_bytes(b" ")?;
    let second = ty_of(alloc, version, depth, types, left)?;
    left.expect_bytes(b")")?;
    Ok(Ty::make(alloc, TyNode::Arrow(first, second))?)
}

#[cycle(types)]
#[tactic(auto, unfolding(omega_spelling::specs::Reading::two))]
fn apply_of(
    alloc: Global,
    version: Version,
    depth: u32,
    types: u64,
    left: &mut Left<'_>,
) -> Result<Ty, Stop>
    requires { types + depth < 2 ^ 64 }
    ensures { Gives (λ t. t) result left.new.rest.now (two Apply (ty_at version depth types) (ty_at version depth types) left.old.rest.now) }
{
    let first = ty_of(alloc, version, depth, types, left)?;
    left.expect_bytes(b" ")?;
    let second = ty_of(alloc, version, depth, types, left)?;
    left.expect_bytes(b")")?;
    Ok(Ty::make(alloc, TyNode::Apply(first, second))?)
}

#[cycle(types)]
#[tactic(auto, unfolding(omega_spelling::specs::Reading::two))]
fn all_of(
    alloc: Global,
    version: Version,
    depth: u32,
    types: u64,
    left: &mut Left<'_>,
) -> Result<Ty, Stop>
    requires { types + depth + 1 < 2 ^ 64 }
    ensures { Gives (λ t. t) result left.new.rest.now (two All (kind_at depth) (ty_at version depth (types + 1)) left.old.rest.now) }
{
    let kind = kind_of(alloc, depth, left)?;
    left.expect_bytes(b" ")?;
    let body = ty_of(alloc, version, depth, types + 1, left)?;
    left.expect_bytes(b")")?;
    Ok(Ty::make(alloc, TyNode::All(kind, body))?)
}

#[cycle(types)]
#[tactic(auto, unfolding(omega_spelling::specs::Reading::two))]
fn some_of(
    alloc: Global,
    version: Version,
    depth: u32,
    types: u64,
    left: &mut Left<'_>,
) -> Result<Ty, Stop>
    requires { types + depth + 1 < 2 ^ 64 }
    ensures { Gives (λ t. t) result left.new.rest.now (two Ex (kind_at depth) (ty_at version depth (types + 1)) left.old.rest.now) }
{
    let kind = kind_of(alloc, depth, left)?;
    left.expect_bytes(b" ")?;
    let body = ty_of(alloc, version, depth, types + 1, left)?;
    left.expect_bytes(b")")?;
    Ok(Ty::make(alloc, TyNode::Ex(kind, body))?)
}

#[cycle(types)]
#[tactic(auto, unfolding(omega_spelling::specs::Reading::two))]
fn lam_of(
    alloc: Global,
    version: Version,
    depth: u32,
    types: u64,
    left: &mut Left<'_>,
) -> Result<Ty, Stop>
    requires { types + depth + 1 < 2 ^ 64 }
    ensures { Gives (λ t. t) result left.new.rest.now (two Lam (kind_at depth) (ty_at version depth (types + 1)) left.old.rest.now) }
{
    let kind = kind_of(alloc, depth, left)?;
    left.expect_bytes(b" ")?;
    let body = ty_of(alloc, version, depth, types + 1, left)?;
    left.expect_bytes(b")")?;
    Ok(Ty::make(alloc, TyNode::Lam(kind, body))?)
}

#[cycle(types)]
#[tactic(auto, unfolding(omega_spelling::specs::Reading::row_at))]
fn record_of(
    alloc: Global,
    version: Version,
    depth: u32,
    types: u64,
    left: &mut Left<'_>,
) -> Result<Ty, Stop>
    requires { types + depth < 2 ^ 64 }
    ensures { Gives (λ t. t) result left.new.rest.now (row_at Fields (ty_at version depth types) left.old.rest.now) }
{
    let fields = fields_of(alloc, version, depth, types, left)?;
    Ok(Ty::make(alloc, TyNode::Fields(fields))?)
}

#[cycle(types)]
#[tactic(auto, unfolding(omega_spelling::specs::Reading::row_at))]
fn sum_of(
    alloc: Global,
    version: Version,
    depth: u32,
    types: u64,
    left: &mut Left<'_>,
) -> Result<Ty, Stop>
    requires { types + depth < 2 ^ 64 }
    ensures { Gives (λ t. t) result left.new.rest.now (row_at Sum (ty_at version depth types) left.old.rest.now) }
{
    let fields = fields_of(alloc, version, depth, types, left)?;
    Ok(Ty::make(alloc, TyNode::Sum(fields))?)
}

#[cycle(types)]
#[tactic(auto, unfolding(omega_spelling::specs::Reading::one))]
fn mu_of(
    alloc: Global,
    version: Version,
    depth: u32,
    types: u64,
    left: &mut Left<'_>,
) -> Result<Ty, Stop>
    requires { types + depth + 1 < 2 ^ 64 }
    ensures { Gives (λ t. t) result left.new.rest.now (one Mu (ty_at version depth (types + 1)) left.old.rest.now) }
{
    let body = ty_of(alloc, version, depth, types + 1, left)?;
    left.expect_bytes(b")")?;
    Ok(Ty::make(alloc, TyNode::Mu(body))?)
}

// The fields up to the parenthesis that closes the form.
#[cycle(types)]
fn fields_of(
    alloc: Global,
    version: Version,
    depth: u32,
    types: u64,
    left: &mut Left<'_>,
) -> Result<TyFields, Stop>
    requires { types + depth < 2 ^ 64 }
    ensures { Gives (λ f. row f) result left.new.rest.now (fields_at End More (ty_at version depth types) (length left.old.rest.now) None left.old.rest.now) }
{
    let mut fields = TyFields::new(alloc);
    let turns = left.rest.len();
    for _ in 0..turns {
        if !left.eat(b" (") {
            left.expect_bytes(b")")?;
            return Ok(fields);
        }
        let field = field_of(alloc, version, depth, types, left)?;
        if !type_may_follow(&fields, &field.0) {
            return Err(Stop::NotOmega);
        }
        fields.push(field)?;
    }
    Err(Stop::NotOmega)
}

// A field, behind the parenthesis that opens it.
#[cycle(types)]
#[tactic(auto, unfolding(omega_spelling::specs::Reading::two, omega_spelling::specs::Reading::field_at))]
fn field_of(
    alloc: Global,
    version: Version,
    depth: u32,
    types: u64,
    left: &mut Left<'_>,
) -> Result<(Label, Ty), Stop>
    requires { types + depth < 2 ^ 64 }
    ensures { Gives (λ f. f) result left.new.rest.now (field_at (ty_at version depth types) left.old.rest.now) }
{
    let label = label_of(alloc, left)?;
    left.expect_bytes(b" ")?;
    let part = ty_of(alloc, version, depth, types, left)?;
    left.expect_bytes(b")")?;
    Ok((label, part))
}
