// Operations on the variables in signatures: raised, lowered, moved, and types put in for the hidden ones.
ghost use Rattle.std.specs.Prelude.{◌≡◌, ℕ, ◌+◌, ◌-◌, ◌<◌, ◌++◌, IfOk, List, length};
ghost use Rattle.omega_kinds.specs.Kind.{Kind as KindTree};
ghost use Rattle.omega_types.specs.Binders.{NormalForms, extend, puts, unders};
ghost use Rattle.omega_types.specs.Index.{bump};
ghost use Rattle.omega_types.specs.Normalises.{Maps, NormalForm};
ghost use Rattle.omega_types.specs.Normality.{Normal};
ghost use Rattle.omega_types.specs.Substitution.{substitute};
ghost use Rattle.omega_types.specs.Ty.{Var};
ghost use Rattle.sig_definitions.specs.Signatures.Alike.{IsAbsAt, IsSigAt, NormalSig, NormalAbs};
ghost use Rattle.sig_definitions.specs.Signatures.SigMentions.{MentionsSig};
ghost use Rattle.sig_definitions.specs.Signatures.SigSubst.{rename_sig, rename_abs};
ghost use Rattle.semantic_sigs.specs.Inner.Change.{change_of};
ghost use Rattle.semantic_sigs.specs.Inner.Changes.{sig_in, abs_in, sig_row_in, sunk, sinks, ty_in, putting};
ghost use Rattle.semantic_sigs.specs.Inner.Fields.{sig_row};
ghost use Rattle.type_normal.specs.Inner.Moved.{moved};
ghost use Rattle.semantic_sigs.specs.Inner.View.{kinds_of, body_of};

use crate::heads::{Change, change_ty, sum};
use crate::tree::{Abs, Sig, SigFields, SigNode};
use omega_kinds::{Kinds, Mem};
use std::alloc::Global;
use type_normal::NormalTy;

/// The body of an abstract signature with normal types put in for the innermost variables, one for each, the first for
/// the outermost, whatever types they are. Where they are one for each hidden type and of its kind, and stand as the
/// signature in the context `ctx`, in which it is normal, it is the normal form of the substitution.
/// `Err` is out of memory, also where an index would pass the last number.
///
/// Rossberg, Russo and Dreyer, "F-ing modules", section 4, Signature matching: a signature at types for its variables.
pub fn instantiate(alloc: Global, abs: &Abs, types: &[NormalTy]) -> Result<Sig, Mem>
    ensures value { IfOk result (λ s. s ≡ sig_in (putting types.now) (body_of abs.now)) }
    ensures normal { IfOk result (λ s. (ctx : List KindTree) → NormalAbs ctx abs.now → NormalForms ctx types.now (kinds_of abs.now) types.now → IsSigAt ctx (body_of abs.now) types.now s) }
{
    changed_sig(alloc, abs.body(), Change::Put(types), 0)
}

/// The same for an abstract signature below the variables.
pub fn instantiate_abs(alloc: Global, abs: &Abs, types: &[NormalTy]) -> Result<Abs, Mem>
    ensures value { IfOk result (λ x. x ≡ abs_in (putting types.now) abs.now) }
    ensures normal { IfOk result (λ x. (ctx ks : List KindTree) → NormalAbs (extend ctx ks) abs.now → NormalForms ctx types.now ks types.now → IsAbsAt ctx abs.now types.now x) }
{
    changed_abs(alloc, abs, Change::Put(types), 0)
}

/// The signature with `by` added to each free index that is at least `from`. Its types are normal in each context to
/// which the shift takes one where the argument's are. `Err` is out of memory, also where an index would pass the last
/// number.
pub fn raise_sig(alloc: Global, sig: &Sig, by: u64, from: u64) -> Result<Sig, Mem>
    ensures value { IfOk result (λ s. s ≡ rename_sig (bump by from) sig.now) }
    ensures normal { IfOk result (λ s. (ctx other : List KindTree) → Maps ctx other (bump by from) → NormalSig ctx sig.now → NormalSig other s) }
{
    changed_sig(alloc, sig, Change::Raise(by), from)
}

/// The same for an abstract signature.
pub fn raise_abs(alloc: Global, abs: &Abs, by: u64, from: u64) -> Result<Abs, Mem>
    ensures value { IfOk result (λ x. x ≡ rename_abs (bump by from) abs.now) }
    ensures normal { IfOk result (λ x. (ctx other : List KindTree) → Maps ctx other (bump by from) → NormalAbs ctx abs.now → NormalAbs other x) }
{
    changed_abs(alloc, abs, Change::Raise(by), from)
}

/// The signature with each free index less by `by`, an index below `by` becoming 0. Where it mentions no index below
/// `by`, it is a signature which, raised by `by` from 0, is the given one, and its types are normal in the context
/// without the `by` innermost variables. `Err` is out of memory.
pub fn lower_sig(alloc: Global, sig: &Sig, by: u64) -> Result<Sig, Mem>
    ensures value { IfOk result (λ s. s ≡ rename_sig (λ i. i - by) sig.now) }
    ensures raised { IfOk result (λ s. ((i : ℕ) → i < by → MentionsSig i sig.now → ⊥) → rename_sig (bump by 0) s ≡ sig.now) }
    ensures normal { IfOk result (λ s. (inner ctx : List KindTree) → length inner ≡ by → NormalSig (inner ++ ctx) sig.now → ((i : ℕ) → i < by → MentionsSig i sig.now → ⊥) → NormalSig ctx s) }
{
    changed_sig(alloc, sig, Change::Lower(by), 0)
}

/// The signature with a new index for each free variable that has one in `places`, a list that begins with the innermost
/// variable's; each other index stays. `Err` is out of memory, also where an index would pass the last number.
pub fn renumber_sig(alloc: Global, sig: &Sig, places: &[Option<u64>]) -> Result<Sig, Mem>
    ensures { IfOk result (λ s. s ≡ rename_sig (moved places.now) sig.now) }
{
    changed_sig(alloc, sig, Change::Move(places), 0)
}

/// The same for an abstract signature.
pub fn renumber_abs(alloc: Global, abs: &Abs, places: &[Option<u64>]) -> Result<Abs, Mem>
    ensures { IfOk result (λ x. x ≡ rename_abs (moved places.now) abs.now) }
{
    changed_abs(alloc, abs, Change::Move(places), 0)
}

// The signature, changed below `depth` binders; shared where nothing changes.
#[tactic(auto, using(crate::proofs::SigSteps::still_steps))]
fn changed_sig(alloc: Global, sig: &Sig, change: Change<'_>, depth: u64) -> Result<Sig, Mem>
    ensures { IfOk result (λ s. s ≡ sig_in (sunk depth (change_of change.entry)) sig.now) }
{
    if change.is_still() {
        return sig.share();
    }
    change_sig(alloc, sig, change, depth)
}

// The same for an abstract signature.
#[tactic(auto, using(crate::proofs::SigSteps::still_steps))]
fn changed_abs(alloc: Global, abs: &Abs, change: Change<'_>, depth: u64) -> Result<Abs, Mem>
    ensures { IfOk result (λ x. x ≡ abs_in (sunk depth (change_of change.entry)) abs.now) }
{
    if change.is_still() {
        return abs.share();
    }
    change_abs(alloc, abs, change, depth)
}

// The signature, changed below `depth` binders.
#[cycle(change)]
#[tactic(auto, using(crate::proofs::SigSteps::sig_steps))]
fn change_sig(alloc: Global, sig: &Sig, change: Change<'_>, depth: u64) -> Result<Sig, Mem>
    ensures { IfOk result (λ s. s ≡ sig_in (sunk depth (change_of change.entry)) sig.now) }
{
    if sig.bound() <= depth {
        return sig.share();
    }
    match sig.node() {
        SigNode::Val(ty) => {
            let ty = change_ty(alloc, ty, change, depth)?;
            Sig::make(alloc, SigNode::Val(ty))
        }
        SigNode::Typ(ty, kind) => {
            let ty = change_ty(alloc, ty, change, depth)?;
            Sig::make(alloc, SigNode::Typ(ty, kind.share()?))
        }
        SigNode::Meta(abs) => {
            let abs = change_abs(alloc, abs, change, depth)?;
            Sig::make(alloc, SigNode::Meta(abs))
        }
        SigNode::Str(fields) => {
            let fields = change_sig_fields(alloc, fields, change, depth)?;
            Sig::make(alloc, SigNode::Str(fields))
        }
        SigNode::Fun {
            effect,
            kinds,
            param,
            result,
        } => {
            let inner = below(depth, kinds)?;
            let param = change_sig(alloc, param, change, inner)?;
            let result = change_abs(alloc, result, change, inner)?;
            Sig::make(
                alloc,
                SigNode::Fun {
                    effect: *effect,
                    kinds: kinds.share(alloc)?,
                    param,
                    result,
                },
            )
        }
    }
}

// The abstract signature, changed below `depth` binders.
#[cycle(change)]
#[tactic(auto, using(crate::proofs::SigSteps::sig_steps))]
fn change_abs(alloc: Global, abs: &Abs, change: Change<'_>, depth: u64) -> Result<Abs, Mem>
    ensures { IfOk result (λ x. x ≡ abs_in (sunk depth (change_of change.entry)) abs.now) }
{
    if abs.bound() <= depth {
        return abs.share();
    }
    let body = change_sig(alloc, abs.body(), change, below(depth, abs.kinds())?)?;
    Abs::make(alloc, abs.kinds().share(alloc)?, body)
}

// The fields with each part changed.
#[cycle(change)]
#[tactic(auto, using(crate::proofs::SigSteps::sig_steps))]
fn change_sig_fields(
    alloc: Global,
    fields: &SigFields,
    change: Change<'_>,
    depth: u64,
) -> Result<SigFields, Mem>
    ensures { IfOk result (λ f. sig_row f ≡ sig_row_in (sunk depth (change_of change.entry)) (sig_row fields.now)) }
{
    let mut changed = SigFields::with_capacity(alloc, fields.items().len())?;
    for field in fields.items() {
        let part = change_sig(alloc, &field.1, change, depth)?;
        changed.push((field.0.share()?, part))?;
    }
    Ok(changed)
}

// How many binders stand round the inside of these binders.
fn below(depth: u64, kinds: &Kinds) -> Result<u64, Mem>
    ensures { IfOk result (λ inner. inner ≡ length kinds.now + depth) }
{
    sum(kinds.items().len() as u64, depth)
}
