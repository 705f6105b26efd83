// The number of the normal type of a term.
ghost use Rattle.std.specs.Prelude.{◌≡◌, ◌∷◌, ◌<◌, Some, IfOk, length};
ghost use Rattle.omega_kinds.specs.View.{kind_tree};
ghost use Rattle.omega_types.specs.Fields.{Rises};
ghost use Rattle.omega_terms.specs.Fields.{term_row};
ghost use Rattle.omega_terms.specs.Term.{Term as TermTree};
ghost use Rattle.omega_terms.specs.Typing.{shift_all};
ghost use Rattle.omega_node_laws.specs.Scope.{FindsBranches, FindsCall, FindsFunction, FindsLet, Synthesises, types_of};
ghost use Rattle.omega_node_laws.specs.StepLaws.{Here};
ghost use Rattle.type_store.specs.Trees.{ArePartsBelow, at, row_at};

use crate::scope::Scope;
use omega_kinds::{Kind, Label, Mem, same_label};
use omega_terms::{Op, Term, TermFields, TermNode};
use omega_types::Ty;
use std::alloc::Global;
use type_store::Form;

/// The number of the type of a term, and none where it has no type. Then all types of the term's nodes have numbers.
/// The variables in scope are at the end as they were at the start. `Err` is out of memory.
#[cycle(synth)]
pub(crate) fn synth(alloc: Global, scope: &mut Scope, term: &Term) -> Result<Option<u64>, Mem>
    ensures { IfOk result (λ o. Here scope.old scope.new term.now o) }
{
    match term.node() {
        TermNode::Var(index) => scope.find(*index),
        TermNode::Int(_) => Ok(Some(scope.int()?)),
        TermNode::Bool(_) => Ok(Some(scope.bool()?)),
        TermNode::Text(_) => Ok(Some(scope.text()?)),
        TermNode::Lam(t, e) => synth_function(alloc, scope, t, e),
        TermNode::Call(f, a) => synth_call(alloc, scope, f, a),
        TermNode::TyLam(k, e) => synth_type_function(alloc, scope, k, e),
        TermNode::Inst(e, t) => synth_instance(alloc, scope, e, t),
        TermNode::Fields(fields) => synth_fields(alloc, scope, fields),
        TermNode::Get(e, l) => synth_field(alloc, scope, e, l),
        TermNode::Pack(t, e, u) => synth_package(alloc, scope, t, e, u),
        TermNode::Unpack(p, e) => synth_opened(alloc, scope, p, e),
        TermNode::If(a, b, c) => synth_choice(alloc, scope, a, b, c),
        TermNode::Arith(op, a, b) => synth_arith(alloc, scope, *op, a, b),
        TermNode::Fix(t, u, e) => synth_fix(alloc, scope, t, u, e),
        TermNode::Inj(l, e, t) => synth_injected(alloc, scope, l, e, t),
        TermNode::Case(e, t, branches) => synth_case(alloc, scope, e, t, branches),
        TermNode::Roll(e, t) => synth_rolled(alloc, scope, e, t),
        TermNode::Unroll(e) => synth_unrolled(alloc, scope, e),
    }
}

// The type of a call.
#[cycle(synth)]
#[inline(never)]
fn synth_call(
    alloc: Global,
    scope: &mut Scope,
    function: &Term,
    arg: &Term,
) -> Result<Option<u64>, Mem>
    ensures { IfOk result (λ o. Here scope.old scope.new (TermTree.Call function.now arg.now) o) }
{
    let Some(found) = synth(alloc, scope, arg)? else {
        return Ok(None);
    };
    match function.node() {
        TermNode::Lam(ty, body) => synth_let(alloc, scope, ty, body, found),
        _ => synth_applied(alloc, scope, function, found),
    }
}

// The type of a function that is called at once, at an argument of this type.
#[cycle(synth)]
fn synth_let(
    alloc: Global,
    scope: &mut Scope,
    ty: &Ty,
    body: &Term,
    arg: u64,
) -> Result<Option<u64>, Mem>
    requires { arg < length scope.old.types }
    ensures { IfOk result (λ o. FindsLet scope.old scope.new ty.now body.now arg o) }
{
    let Some(from) = scope.parameter(ty, arg)? else {
        return Ok(None);
    };
    let function = synth_body(alloc, scope, from, body)?;
    Ok(scope.called(function, arg))
}

// The type of any other function at an argument of this type.
#[cycle(synth)]
fn synth_applied(
    alloc: Global,
    scope: &mut Scope,
    function: &Term,
    arg: u64,
) -> Result<Option<u64>, Mem>
    requires { arg < length scope.old.types }
    ensures { IfOk result (λ o. FindsCall scope.old scope.new function.now arg o) }
{
    let function = synth(alloc, scope, function)?;
    Ok(scope.called(function, arg))
}

// The type of a function, from that of its argument.
#[cycle(synth)]
fn synth_body(alloc: Global, scope: &mut Scope, from: u64, body: &Term) -> Result<Option<u64>, Mem>
    requires { from < length scope.old.types }
    ensures { IfOk result (λ o. FindsFunction scope.old scope.new from body.now o) }
{
    let to = synth_bound(alloc, scope, from, body)?;
    scope.function(from, to)
}

// The type of a term under one more variable of this type.
#[cycle(synth)]
fn synth_bound(alloc: Global, scope: &mut Scope, ty: u64, body: &Term) -> Result<Option<u64>, Mem>
    requires { ty < length scope.old.types }
    ensures { IfOk result (λ o. Synthesises scope.old scope.new scope.old.kinds (at scope.old.types ty ∷ types_of scope.old) body.now o) }
{
    scope.push(ty)?;
    let found = synth(alloc, scope, body)?;
    scope.pop();
    Ok(found)
}

// The type of a function.
#[cycle(synth)]
#[inline(never)]
fn synth_function(
    alloc: Global,
    scope: &mut Scope,
    from: &Ty,
    body: &Term,
) -> Result<Option<u64>, Mem>
    ensures { IfOk result (λ o. Here scope.old scope.new (TermTree.Lam from.now body.now) o) }
{
    let Some(from) = scope.named(from, &Kind::Star)? else {
        return Ok(None);
    };
    synth_body(alloc, scope, from, body)
}

// The type of a function from types.
#[cycle(synth)]
#[inline(never)]
fn synth_type_function(
    alloc: Global,
    scope: &mut Scope,
    kind: &Kind,
    body: &Term,
) -> Result<Option<u64>, Mem>
    ensures { IfOk result (λ o. Here scope.old scope.new (TermTree.TyLam (kind_tree kind.now) body.now) o) }
{
    let found = synth_under(alloc, scope, kind, body)?;
    scope.type_function(kind, found)
}

// The type of a term under one more type variable of this kind.
#[cycle(synth)]
fn synth_under(
    alloc: Global,
    scope: &mut Scope,
    kind: &Kind,
    body: &Term,
) -> Result<Option<u64>, Mem>
    ensures { IfOk result (λ o. Synthesises scope.old scope.new (kind_tree kind.now ∷ scope.old.kinds) (shift_all (types_of scope.old)) body.now o) }
{
    scope.push_type(kind)?;
    let found = synth(alloc, scope, body)?;
    scope.pop_type();
    Ok(found)
}

// The type of an instance.
#[cycle(synth)]
#[inline(never)]
fn synth_instance(
    alloc: Global,
    scope: &mut Scope,
    body: &Term,
    ty: &Ty,
) -> Result<Option<u64>, Mem>
    ensures { IfOk result (λ o. Here scope.old scope.new (TermTree.Inst body.now ty.now) o) }
{
    let body = synth(alloc, scope, body)?;
    scope.instantiated(body, ty)
}

// The type of a record. Fields rise, so their labels differ.
#[cycle(synth)]
#[inline(never)]
fn synth_fields(alloc: Global, scope: &mut Scope, fields: &TermFields) -> Result<Option<u64>, Mem>
    ensures { IfOk result (λ o. Here scope.old scope.new (TermTree.Fields (term_row fields.now)) o) }
{
    let mut parts = Vec::with_capacity(alloc, fields.items().len())?;
    for field in fields.items() {
        let Some(number) = synth(alloc, scope, &field.1)? else {
            return Ok(None);
        };
        parts.push((field.0.share()?, number))?;
    }
    Ok(Some(scope.make(Form::Fields(parts))?))
}

// The type of a field.
#[cycle(synth)]
#[inline(never)]
fn synth_field(
    alloc: Global,
    scope: &mut Scope,
    whole: &Term,
    label: &Label,
) -> Result<Option<u64>, Mem>
    ensures { IfOk result (λ o. Here scope.old scope.new (TermTree.Get whole.now label.now) o) }
{
    let whole = synth(alloc, scope, whole)?;
    Ok(scope.field_type(whole, label))
}

// The type of a package.
#[cycle(synth)]
#[inline(never)]
fn synth_package(
    alloc: Global,
    scope: &mut Scope,
    hidden: &Ty,
    body: &Term,
    target: &Ty,
) -> Result<Option<u64>, Mem>
    ensures { IfOk result (λ o. Here scope.old scope.new (TermTree.Pack hidden.now body.now target.now) o) }
{
    let Some(body) = synth(alloc, scope, body)? else {
        return Ok(None);
    };
    scope.packed(hidden, target, body)
}

// The type of an opened package.
#[cycle(synth)]
#[inline(never)]
fn synth_opened(
    alloc: Global,
    scope: &mut Scope,
    whole: &Term,
    body: &Term,
) -> Result<Option<u64>, Mem>
    ensures { IfOk result (λ o. Here scope.old scope.new (TermTree.Unpack whole.now body.now) o) }
{
    let whole = synth(alloc, scope, whole)?;
    let Some((kind, inner)) = scope.package(whole)? else {
        return Ok(None);
    };
    let found = synth_inside(alloc, scope, &kind, inner, body)?;
    scope.lowered(found)
}

// The type of a term under one more type variable of this kind and a variable of this type.
#[cycle(synth)]
fn synth_inside(
    alloc: Global,
    scope: &mut Scope,
    kind: &Kind,
    ty: u64,
    body: &Term,
) -> Result<Option<u64>, Mem>
    requires { ty < length scope.old.types }
    ensures { IfOk result (λ o. Synthesises scope.old scope.new (kind_tree kind.now ∷ scope.old.kinds) (at scope.old.types ty ∷ shift_all (types_of scope.old)) body.now o) }
{
    scope.push_type(kind)?;
    let found = synth_bound(alloc, scope, ty, body)?;
    scope.pop_type();
    Ok(found)
}

// The type of a choice.
#[cycle(synth)]
#[inline(never)]
fn synth_choice(
    alloc: Global,
    scope: &mut Scope,
    test: &Term,
    yes: &Term,
    no: &Term,
) -> Result<Option<u64>, Mem>
    ensures { IfOk result (λ o. Here scope.old scope.new (TermTree.If test.now yes.now no.now) o) }
{
    let test = synth(alloc, scope, test)?;
    let yes = synth(alloc, scope, yes)?;
    let no = synth(alloc, scope, no)?;
    scope.chosen(test, yes, no)
}

// The type of a computation.
#[cycle(synth)]
#[inline(never)]
fn synth_arith(
    alloc: Global,
    scope: &mut Scope,
    op: Op,
    left: &Term,
    right: &Term,
) -> Result<Option<u64>, Mem>
    ensures { IfOk result (λ o. Here scope.old scope.new (TermTree.Arith op left.now right.now) o) }
{
    let left = synth(alloc, scope, left)?;
    let right = synth(alloc, scope, right)?;
    scope.computed(op, left, right)
}

// The type of a function that calls itself: in its body stand the function and its argument.
#[cycle(synth)]
#[inline(never)]
fn synth_fix(
    alloc: Global,
    scope: &mut Scope,
    from: &Ty,
    to: &Ty,
    body: &Term,
) -> Result<Option<u64>, Mem>
    ensures { IfOk result (λ o. Here scope.old scope.new (TermTree.Fix from.now to.now body.now) o) }
{
    let Some(from) = scope.named(from, &Kind::Star)? else {
        return Ok(None);
    };
    let Some(to) = scope.named(to, &Kind::Star)? else {
        return Ok(None);
    };
    let whole = scope.arrow(from, to)?;
    let found = synth_recursive(alloc, scope, whole, from, body)?;
    if scope.is_found(to, found) {
        Ok(Some(whole))
    } else {
        Ok(None)
    }
}

// The type of a term under two more variables of these types.
#[cycle(synth)]
fn synth_recursive(
    alloc: Global,
    scope: &mut Scope,
    outer: u64,
    inner: u64,
    body: &Term,
) -> Result<Option<u64>, Mem>
    requires outer { outer < length scope.old.types }
    requires inner { inner < length scope.old.types }
    ensures { IfOk result (λ o. Synthesises scope.old scope.new scope.old.kinds (at scope.old.types inner ∷ (at scope.old.types outer ∷ types_of scope.old)) body.now o) }
{
    scope.push(outer)?;
    let found = synth_bound(alloc, scope, inner, body)?;
    scope.pop();
    Ok(found)
}

// The type of an injection.
#[cycle(synth)]
#[inline(never)]
fn synth_injected(
    alloc: Global,
    scope: &mut Scope,
    label: &Label,
    body: &Term,
    target: &Ty,
) -> Result<Option<u64>, Mem>
    ensures { IfOk result (λ o. Here scope.old scope.new (TermTree.Inj label.now body.now target.now) o) }
{
    let target = scope.named(target, &Kind::Star)?;
    let body = synth(alloc, scope, body)?;
    Ok(scope.injected(label, target, body))
}

// The type of a rolled term.
#[cycle(synth)]
#[inline(never)]
fn synth_rolled(
    alloc: Global,
    scope: &mut Scope,
    body: &Term,
    target: &Ty,
) -> Result<Option<u64>, Mem>
    ensures { IfOk result (λ o. Here scope.old scope.new (TermTree.Roll body.now target.now) o) }
{
    let target = scope.named(target, &Kind::Star)?;
    let body = synth(alloc, scope, body)?;
    scope.rolled(target, body)
}

// The type of an unrolled term.
#[cycle(synth)]
#[inline(never)]
fn synth_unrolled(alloc: Global, scope: &mut Scope, whole: &Term) -> Result<Option<u64>, Mem>
    ensures { IfOk result (λ o. Here scope.old scope.new (TermTree.Unroll whole.now) o) }
{
    let whole = synth(alloc, scope, whole)?;
    scope.unrolled(whole)
}

// The type of a case.
#[cycle(synth)]
#[inline(never)]
fn synth_case(
    alloc: Global,
    scope: &mut Scope,
    whole: &Term,
    target: &Ty,
    branches: &TermFields,
) -> Result<Option<u64>, Mem>
    ensures { IfOk result (λ o. Here scope.old scope.new (TermTree.Case whole.now target.now (term_row branches.now)) o) }
{
    let Some(target) = scope.named(target, &Kind::Star)? else {
        return Ok(None);
    };
    let Some(whole) = synth(alloc, scope, whole)? else {
        return Ok(None);
    };
    let Some(parts) = scope.sum(alloc, whole)? else {
        return Ok(None);
    };
    if synth_branches(alloc, scope, branches, parts.as_slice(), target)? {
        Ok(Some(target))
    } else {
        Ok(None)
    }
}

// Whether the branches have the labels of a sum, one by one, and each has the target's type. Labels rise on both sides.
#[cycle(synth)]
fn synth_branches(
    alloc: Global,
    scope: &mut Scope,
    branches: &TermFields,
    parts: &[(Label, u64)],
    target: u64,
) -> Result<bool, Mem>
    requires parts { ArePartsBelow (length scope.old.types) parts.now }
    requires target { target < length scope.old.types }
    ensures { IfOk result (λ b. FindsBranches scope.old scope.new (term_row branches.now) (row_at scope.old.types parts.now) (at scope.old.types target) b) }
{
    let terms = branches.items();
    if terms.len() != parts.len() {
        return Ok(false);
    }
    for i in 0..parts.len() {
        let branch = &terms[i];
        let part = &parts[i];
        if !same_label(&branch.0, &part.0) {
            return Ok(false);
        }
        let found = synth_bound(alloc, scope, part.1, &branch.1)?;
        if !scope.is_found(target, found) {
            return Ok(false);
        }
    }
    Ok(true)
}
