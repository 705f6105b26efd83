// Hidden types lifted over a functor's parameter.
ghost use Rattle.std.specs.Prelude.{◌≡◌, [], List, length, IfOk};
ghost use Rattle.omega_kinds.specs.Kind.{Kind as KindTree};
ghost use Rattle.omega_kinds.specs.declared.effect.Effect.TheVariants.{Pure};
ghost use Rattle.omega_types.specs.Binders.{extend, NormalForms};
ghost use Rattle.omega_types.specs.Index.{bump};
ghost use Rattle.sig_definitions.specs.Lifting.{Lift, lifted_kinds as lifted_kinds_of, lifted_types};
ghost use Rattle.sig_definitions.specs.Signatures.Alike.{NormalAbs, NormalSig};
ghost use Rattle.sig_definitions.specs.Signatures.Sig.{Ex, Fun};
ghost use Rattle.sig_definitions.specs.Signatures.SigSubst.{rename_abs, rename_sig};
ghost use Rattle.applicative_functors.specs.Inner.LiftedVars.{lifted_vars as lifted_vars_of, Put};

use crate::operators::{lam_over, lifted_kinds};
use crate::parameters::lifted_vars;
use omega_kinds::{Effect, Kinds, Mem};
use semantic_sigs::{Abs, Sig, SigNode, Witnesses, instantiate, raise_abs, raise_sig};
use std::alloc::Global;
use type_normal::{NormalTy, as_normal, plain};

/// The signature of a pure functor: it hides each type that the result hides, as an operator over the types that the
/// parameter hides, and in the result these operators, applied to the parameter's types in order, stand for the hidden
/// types. `kinds` are those of the parameter's hidden types, under which `param` and `body` stand; the signatures are
/// normal. `Err` is out of memory, also where an index would pass the last number.
///
/// Rossberg, Russo and Dreyer, "F-ing modules", section 7, Applicative functors.
pub fn lift(alloc: Global, kinds: &Kinds, param: &Sig, body: &Abs) -> Result<Abs, Mem>
    ensures { IfOk result (λ y. (ctx : List KindTree) → NormalSig (extend ctx kinds.now) param.now → NormalAbs (extend ctx kinds.now) body.now → Lift ctx kinds.now param.now body.now y) }
{
    let hidden = body.kinds();
    let target = lifted_result(alloc, kinds, body, hidden)?;
    let functor = functor_over(alloc, kinds, param, hidden, target)?;
    let lifted = lifted_kinds(alloc, kinds, hidden)?;
    Abs::make(alloc, lifted, functor)
}

// The result below the lifted types and then those of the parameter, where the lifted types stand for the hidden ones,
// whose kinds are given. `Err` is out of memory.
fn lifted_result(alloc: Global, kinds: &Kinds, body: &Abs, hidden: &Kinds) -> Result<Sig, Mem>
    ensures { IfOk result (λ s. Put (rename_abs (bump (length hidden.now) (length kinds.now)) body.now) (lifted_vars_of kinds.now hidden.now) s) }
{
    let outer = kinds.items().len() as u64;
    let count = hidden.items().len() as u64;
    let raised = raise_abs(alloc, body, count, outer)?;
    let types = lifted_vars(alloc, kinds, hidden)?;
    instantiate(alloc, &raised, types.items())
}

// The signature of the functor below the lifted types, whose number is that of the hidden ones. `Err` is out of memory.
fn functor_over(
    alloc: Global,
    kinds: &Kinds,
    param: &Sig,
    hidden: &Kinds,
    target: Sig,
) -> Result<Sig, Mem>
    ensures { IfOk result (λ s. s ≡ Fun Pure kinds.now (rename_sig (bump (length hidden.now) (length kinds.now)) param.now) (Ex [] target)) }
{
    let outer = kinds.items().len() as u64;
    let count = hidden.items().len() as u64;
    let from = raise_sig(alloc, param, count, outer)?;
    let to = Abs::make(alloc, Kinds::new(alloc), target)?;
    let functor = SigNode::Fun {
        effect: Effect::Pure,
        kinds: kinds.share(alloc)?,
        param: from,
        result: to,
    };
    Sig::make(alloc, functor)
}

/// Each type that a pure body keeps, as an operator over the parameter's hidden types, whose kinds are given. `Err` is out
/// of memory.
pub fn lift_witness(alloc: Global, kinds: &Kinds, types: &[NormalTy]) -> Result<Witnesses, Mem>
    ensures value { IfOk result (λ ts. ts ≡ lifted_types kinds.now types.now) }
    ensures normal { IfOk result (λ ts. (ctx hidden : List KindTree) → NormalForms (extend ctx kinds.now) types.now hidden types.now → NormalForms ctx ts (lifted_kinds_of kinds.now hidden) ts) }
{
    let mut lifted = Witnesses::new(alloc);
    for ty in types {
        lifted.push(as_normal(lam_over(alloc, kinds, plain(ty).share()?)?))?;
    }
    Ok(lifted)
}
