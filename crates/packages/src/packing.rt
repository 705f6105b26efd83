// Package types, and modules packed and unpacked.
ghost use Rattle.std.specs.Prelude.{◌≡◌, List, IfErr, IfOk, IfSome};
ghost use Rattle.omega_kinds.specs.Kind.{Kind as KindTree};
ghost use Rattle.omega_kinds.specs.View.{kind_tree};
ghost use Rattle.omega_types.specs.Binders.{NormalForms};
ghost use Rattle.omega_types.specs.Normality.{Normal};
ghost use Rattle.sig_laws.specs.Good.{OkAbs, OkRight};
ghost use Rattle.package_judgments.specs.Package.{PackTypeGives, PackGives, UnpackGives, UnpackRefuses};
ghost use Rattle.package_laws.specs.SharedType.{IsSharedType};
ghost use Rattle.semantic_sigs.specs.Inner.Made.{module_of};
ghost use Rattle.semantic_sigs.specs.Inner.View.{kinds_of};
ghost use Rattle.packages.specs.Inner.Plain.{plain_why};

use crate::norms::norm;
use crate::refusal::UnpackRefusal;
use omega_kinds::{Effect, Kind, Mem};
use omega_shorthands::pack_up;
use omega_terms::{Term, TermNode};
use semantic_sigs::{Abs, Kinded, Module, Typed, Witnesses, encode};
use std::alloc::Global;
use type_normal::{NormalTy, as_normal, same};

/// `pack S` as a type: the encoding of S with its quantifiers in their order, which has kind `*`. S is ordered explicit.
/// It is the package type of each signature that matches S and that S matches, under two conditions. The hidden types of
/// both, and of all signatures inside, are rooted at the same paths; and the parameters of pure functors hide them in one
/// order. `Err` is out of memory, also where an index would pass the last number.
///
/// Rossberg, Russo and Dreyer, "F-ing modules", section 6, Modules as first-class values; the order of quantifiers is this
/// project's own.
#[tactic(auto, using(crate::proofs::PackSteps::type_steps))]
pub fn pack_type(alloc: Global, abs: &Abs) -> Result<Kinded, Mem>
    ensures kind { IfOk result (λ k. kind_tree k.kind ≡ KindTree.Star) }
    ensures normal { IfOk result (λ k. (ctx : List KindTree) → OkRight ctx abs.now → Normal ctx k.ty KindTree.Star) }
    ensures given { IfOk result (λ k. (ctx : List KindTree) → OkRight ctx abs.now → PackTypeGives ctx abs.now k.ty) }
    ensures shared { IfOk result (λ k. (ctx : List KindTree) → OkRight ctx abs.now → IsSharedType ctx abs.now k.ty) }
{
    let ordered = norm(alloc, abs)?;
    Ok(Kinded {
        ty: as_normal(encode(alloc, &ordered)?),
        kind: Kind::Star,
    })
}

/// `pack X : S`, where `found` is the term of X and `target` what `norm` gives for S, by a match of X against it: its types,
/// normal and of the kinds of `target`'s hidden types, and its coercion. The type is the encoding of `target`. `Err` is out
/// of memory, also where an index would pass the last number.
#[tactic(auto, using(crate::proofs::PackSteps::value_steps))]
pub fn pack_value(
    alloc: Global,
    found: Term,
    target: &Abs,
    types: &[NormalTy],
    coercion: Term,
) -> Result<Typed, Mem>
    ensures { IfOk result (λ v. (ctx : List KindTree) → OkAbs ctx target.now → NormalForms ctx types.now (kinds_of target.now) types.now → PackGives ctx found target.now types.now coercion v.ty v.term) }
{
    let to = encode(alloc, target)?;
    let term = Term::make(alloc, TermNode::Call(coercion, found))?;
    let term = pack_up(alloc, types, &term, &to)?;
    Ok(Typed {
        ty: as_normal(to),
        term,
    })
}

/// `unpack E : S`, where `target` is what `norm` gives for S: an impure module of this signature. `Differ` comes exactly
/// where the type of E is not the encoding of `target`: the type of E, and the encoding.
#[tactic(auto, using(crate::proofs::PackSteps::unpack_steps))]
pub fn unpack_module(alloc: Global, value: Typed, target: &Abs) -> Result<Module, UnpackRefusal>
    ensures given { IfOk result (λ m. UnpackGives value.ty value.term target.now (module_of m)) }
    ensures refused { IfErr result (λ e. IfSome (plain_why e) (λ why. UnpackRefuses value.ty target.now why)) }
{
    let needed = as_normal(encode(alloc, target)?);
    if !same(&value.ty, &needed) {
        return Err(UnpackRefusal::Differ(value.ty, needed));
    }
    Ok(Module {
        effect: Effect::Impure,
        sig: target.share()?,
        types: Witnesses::new(alloc),
        term: value.term,
    })
}
