// The coercions of value parts, type parts, signature parts, structures and functors.
ghost use Rattle.std.specs.Prelude.{◌≡◌, IfOk};
ghost use Rattle.omega_terms.specs.Coercions.{coerced as coerced_of, fields_part as fields_part_of, functor_part as functor_part_of, meta_part as meta_part_of, result_label as label_of, same_part as same_part_of};
ghost use Rattle.omega_terms.specs.Fields.{term_row};
ghost use Rattle.omega_terms.specs.Shorthands.{insts as insts_of};
ghost use Rattle.omega_terms.specs.Term.{Call, Get, Lam, Var};
ghost use Rattle.coercion_terms.specs.Inner.Rows.{HasFieldsType, HasFunctorType, HasMetaType, HasSameType};

use omega_kinds::{Effect, Kinds, Label, Mem};
use omega_shorthands::{insts, one_field, ty_lam_over, variable};
use omega_terms::{Term, TermFields, TermNode, result_label};
use omega_types::Ty;
use std::alloc::Global;
use type_normal::NormalTy;

/// The coercion of a value part or a type part, whose encoding is `from`: the identity. `Err` is out of memory.
///
/// Rossberg, Russo and Dreyer, "F-ing modules", section 4, Signature matching, as for all calls of this crate.
pub fn same_part(alloc: Global, from: &Ty) -> Result<Term, Mem>
    ensures value { IfOk result (λ e. e ≡ same_part_of from.now) }
    ensures typed { IfOk result (λ e. HasSameType from.now e) }
{
    let body = variable(alloc, 0)?;
    Term::make(alloc, TermNode::Lam(from.share()?, body))
}

/// The coercion of a signature part, whose encoding is `from`, to one that holds a signature with the encoding `to`.
/// `Err` is out of memory.
pub fn meta_part(alloc: Global, from: &Ty, to: &Ty) -> Result<Term, Mem>
    ensures value { IfOk result (λ e. e ≡ meta_part_of from.now to.now) }
    ensures typed { IfOk result (λ e. HasMetaType from.now to.now e) }
{
    let shown = same_part(alloc, to)?;
    let body = one_field(alloc, Label::Sig, shown)?;
    Term::make(alloc, TermNode::Lam(from.share()?, body))
}

/// The coercion of a structure, whose encoding is `from`, by the coercion of each right label. `Err` is out of memory.
pub fn fields_part(alloc: Global, from: &Ty, fields: TermFields) -> Result<Term, Mem>
    ensures value { IfOk result (λ e. e ≡ fields_part_of from.now (term_row fields)) }
    ensures typed { IfOk result (λ e. HasFieldsType from.now (term_row fields) e) }
{
    let body = Term::make(alloc, TermNode::Fields(coerced(alloc, &fields)?))?;
    Term::make(alloc, TermNode::Lam(from.share()?, body))
}

// Each field of the innermost variable, coerced.
fn coerced(alloc: Global, fields: &TermFields) -> Result<TermFields, Mem>
    ensures { IfOk result (λ f. term_row f ≡ coerced_of (term_row fields.now)) }
{
    let mut coerced = TermFields::with_capacity(alloc, fields.items().len())?;
    for field in fields.items() {
        let part = coerced_part(alloc, &field.0, &field.1)?;
        coerced.push((field.0.share()?, part))?;
    }
    Ok(coerced)
}

// A field of the innermost variable, coerced.
fn coerced_part(alloc: Global, label: &Label, coercion: &Term) -> Result<Term, Mem>
    ensures { IfOk result (λ e. e ≡ Call coercion.now (Get (Var 0) label.now)) }
{
    let part = Term::make(alloc, TermNode::Get(variable(alloc, 0)?, label.share()?))?;
    Term::make(alloc, TermNode::Call(coercion.share()?, part))
}

/// A left functor and the right one to which it is coerced.
#[derive(Clone, Copy)]
pub struct Functors<'a> {
    /// The encoding of the left functor.
    pub from: &'a Ty,
    /// The effect of the left functor.
    pub left: Effect,
    /// The effect of the right functor.
    pub right: Effect,
    /// The kinds of the right functor's variables.
    pub kinds: &'a Kinds,
    /// The encoding of the right functor's parameter, under these variables.
    pub param: &'a Ty,
}

/// The coercion of a functor to another. Under the right one's variables `types` are the types of the left functor's,
/// `inner` coerces the parameter and `outer` the result at `types`. `Err` is out of memory.
pub fn functor_part(
    alloc: Global,
    sides: &Functors<'_>,
    types: &[NormalTy],
    inner: &Term,
    outer: &Term,
) -> Result<Term, Mem>
    ensures value { IfOk result (λ e. e ≡ functor_part_of sides.now.from.now sides.now.left sides.now.right sides.now.kinds.now sides.now.param.now types.now inner.now outer.now) }
    ensures typed { IfOk result (λ e. HasFunctorType sides.now.from.now sides.now.left sides.now.right sides.now.kinds.now sides.now.param.now types.now inner.now outer.now e) }
{
    let found = applied(alloc, sides.left, types, inner)?;
    let coerced = Term::make(alloc, TermNode::Call(outer.share()?, found))?;
    let body = one_field(alloc, result_label(sides.right), coerced)?;
    let function = Term::make(alloc, TermNode::Lam(sides.param.share()?, body))?;
    let whole = ty_lam_over(alloc, sides.kinds, function)?;
    Term::make(alloc, TermNode::Lam(sides.from.share()?, whole))
}

// The result of the left functor, which is variable 1, at types and at the coerced argument, which is variable 0.
fn applied(alloc: Global, left: Effect, types: &[NormalTy], inner: &Term) -> Result<Term, Mem>
    ensures { IfOk result (λ e. e ≡ Get (Call (insts_of (Var 1) types.now) (Call inner.now (Var 0))) (label_of left)) }
{
    let arg = Term::make(alloc, TermNode::Call(inner.share()?, variable(alloc, 0)?))?;
    let functor = insts(alloc, variable(alloc, 1)?, types)?;
    let called = Term::make(alloc, TermNode::Call(functor, arg))?;
    Term::make(alloc, TermNode::Get(called, result_label(left)))
}
