// Signatures with their quantifiers in their order.
ghost use Rattle.std.specs.Prelude.{◌≡◌, List, IfOk};
ghost use Rattle.omega_kinds.specs.Kind.{Kind as KindTree};
ghost use Rattle.omega_kinds.specs.declared.effect.Effect.TheVariants as effect;
ghost use Rattle.sig_laws.specs.Good.{OkRight};
ghost use Rattle.sig_definitions.specs.QuantifierOrder.{Norm};
ghost use Rattle.sig_definitions.specs.Signatures.Sig.{Ex, Fun};
ghost use Rattle.semantic_sigs.specs.Inner.Fields.{sig_row};
ghost use Rattle.packages.specs.Inner.Normed.{functor_in_order, normed_sig, normed_abs, normed_row};

use crate::ordering::order_of;
use omega_kinds::{Effect, Kinds, Mem};
use semantic_sigs::{Abs, Sig, SigFields, SigNode, renumber_abs, renumber_sig};
use std::alloc::Global;

/// The signature with every quantifier inside in its order: variables are taken one after the other, at each turn the one
/// with the least path at which it is rooted and on which no functor parameter mentions a variable that is not taken yet.
/// The variables of a pure functor's parameter keep their order, since lifted types are applied to them in it. The signature
/// is ordered explicit, and so is what is given, which is its own norm. `Err` is out of memory, also where an index would
/// pass the last number.
///
/// Rossberg, Russo and Dreyer, "F-ing modules", section 6, Modules as first-class values; the order is this project's own.
pub fn norm(alloc: Global, abs: &Abs) -> Result<Abs, Mem>
    ensures value { IfOk result (λ y. (ctx : List KindTree) → OkRight ctx abs.now → Norm ctx abs.now y) }
    ensures good { IfOk result (λ y. (ctx : List KindTree) → OkRight ctx abs.now → OkRight ctx y) }
{
    norm_abs(alloc, abs)
}

#[cycle(norm)]
#[tactic(auto, using(crate::proofs::Steps::norm_steps))]
fn norm_abs(alloc: Global, abs: &Abs) -> Result<Abs, Mem>
    ensures { IfOk result (λ y. y ≡ normed_abs abs.now) }
{
    let inner = norm_sig(alloc, abs.body())?;
    let order = order_of(alloc, abs.kinds(), &inner)?;
    let places = order.places.as_slice();
    let moved = renumber_sig(alloc, &inner, places)?;
    Abs::make(alloc, order.kinds, moved)
}

// The same for the quantifiers inside of a signature.
#[cycle(norm)]
fn norm_sig(alloc: Global, sig: &Sig) -> Result<Sig, Mem>
    ensures { IfOk result (λ s. s ≡ normed_sig sig.now) }
{
    match sig.node() {
        SigNode::Val(_) => sig.share(),
        SigNode::Typ(_, _) => sig.share(),
        SigNode::Meta(abs) => {
            let abs = norm_abs(alloc, abs)?;
            Sig::make(alloc, SigNode::Meta(abs))
        }
        SigNode::Str(fields) => {
            let fields = norm_fields(alloc, fields)?;
            Sig::make(alloc, SigNode::Str(fields))
        }
        SigNode::Fun {
            effect,
            kinds,
            param,
            result,
        } => {
            let from = norm_sig(alloc, param)?;
            match effect {
                Effect::Pure => {
                    let inner = norm_sig(alloc, result.body())?;
                    pure_functor(alloc, kinds, from, result.kinds(), inner)
                }
                Effect::Impure => {
                    let to = norm_abs(alloc, result)?;
                    impure_functor(alloc, kinds, &from, &to)
                }
            }
        }
    }
}

// A pure functor, whose own variables keep their order.
fn pure_functor(
    alloc: Global,
    kinds: &Kinds,
    from: Sig,
    hidden: &Kinds,
    inner: Sig,
) -> Result<Sig, Mem>
    ensures { IfOk result (λ s. s ≡ Fun effect.Pure kinds.now from (Ex hidden.now inner)) }
{
    let to = Abs::make(alloc, hidden.share(alloc)?, inner)?;
    let functor = SigNode::Fun {
        effect: Effect::Pure,
        kinds: kinds.share(alloc)?,
        param: from,
        result: to,
    };
    Sig::make(alloc, functor)
}

// An impure functor, whose own variables get the order that its parameter gives them.
fn impure_functor(alloc: Global, kinds: &Kinds, from: &Sig, to: &Abs) -> Result<Sig, Mem>
    ensures { IfOk result (λ s. s ≡ functor_in_order kinds.now from.now to.now) }
{
    let order = order_of(alloc, kinds, from)?;
    let places = order.places.as_slice();
    let moved_from = renumber_sig(alloc, from, places)?;
    let moved_to = renumber_abs(alloc, to, places)?;
    let functor = SigNode::Fun {
        effect: Effect::Impure,
        kinds: order.kinds,
        param: moved_from,
        result: moved_to,
    };
    Sig::make(alloc, functor)
}

// The parts of a structure, each with its quantifiers in order.
#[cycle(norm)]
#[tactic(auto, using(crate::proofs::Steps::norm_steps))]
fn norm_fields(alloc: Global, fields: &SigFields) -> Result<SigFields, Mem>
    ensures { IfOk result (λ f. sig_row f ≡ normed_row (sig_row fields.now)) }
{
    let mut ordered = SigFields::with_capacity(alloc, fields.items().len())?;
    for field in fields.items() {
        let part = norm_sig(alloc, &field.1)?;
        ordered.push((field.0.share()?, part))?;
    }
    Ok(ordered)
}
