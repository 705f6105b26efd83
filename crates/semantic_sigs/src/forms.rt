// The form of a signature, with its parts.
ghost use Rattle.std.specs.Prelude.{◌≡◌, MatchOption, List};
ghost use Rattle.omega_kinds.specs.Kind.{Kind as KindTree};
ghost use Rattle.omega_kinds.specs.View.{kind_tree};
ghost use Rattle.omega_kinds.specs.declared.effect.Effect.{Effect as EffectTree};
ghost use Rattle.omega_types.specs.Ty.{Ty as TyTree};
ghost use Rattle.sig_definitions.specs.Signatures.Sig.{Abs as AbsTree, Fun, Meta, Sig as SigTree, SigRow, Str, Typ, Val};
ghost use Rattle.semantic_sigs.specs.Inner.Fields.{sig_row};

use crate::tree::{Abs, Sig, SigFields, SigNode};
use omega_kinds::{Effect, Kind, Kinds};
use type_normal::NormalTy;

/// The parts of a functor: its type variables are bound in its parameter and in its result.
#[derive(Drop)]
pub struct Functor<'a> {
    pub effect: Effect,
    pub kinds: &'a Kinds,
    pub param: &'a Sig,
    pub target: &'a Abs,
}

impl Sig {
    /// The type of a value; `None` exactly where the signature has another form.
    pub fn as_value(&self) -> Option<&NormalTy>
        ensures { MatchOption result ((t : TyTree) → self.now ≡ Val t → ⊥) (λ t. self.now ≡ Val t.now) }
    {
        match self.node() {
            SigNode::Val(ty) => Some(ty),
            _ => None,
        }
    }

    /// The type and the kind of a type; `None` exactly where the signature has another form.
    pub fn as_type(&self) -> Option<(&NormalTy, &Kind)>
        ensures { MatchOption result ((t : TyTree) (k : KindTree) → self.now ≡ Typ t k → ⊥) (λ o. self.now ≡ Typ o.0.now (kind_tree o.1.now)) }
    {
        match self.node() {
            SigNode::Typ(ty, kind) => Some((ty, kind)),
            _ => None,
        }
    }

    /// The signature that is shown; `None` exactly where the signature has another form.
    pub fn as_signature(&self) -> Option<&Abs>
        ensures { MatchOption result ((x : AbsTree) → self.now ≡ Meta x → ⊥) (λ x. self.now ≡ Meta x.now) }
    {
        match self.node() {
            SigNode::Meta(abs) => Some(abs),
            _ => None,
        }
    }

    /// The fields of a structure; `None` exactly where the signature has another form.
    pub fn as_structure(&self) -> Option<&SigFields>
        ensures { MatchOption result ((fs : SigRow) → self.now ≡ Str fs → ⊥) (λ fs. self.now ≡ Str (sig_row fs.now)) }
    {
        match self.node() {
            SigNode::Str(fields) => Some(fields),
            _ => None,
        }
    }

    /// The parts of a functor; `None` exactly where the signature has another form.
    pub fn as_functor(&self) -> Option<Functor<'_>>
        ensures { MatchOption result ((e : EffectTree) (ks : List KindTree) (s : SigTree) (x : AbsTree) → self.now ≡ Fun e ks s x → ⊥) (λ f. self.now ≡ Fun f.effect f.kinds.now f.param.now f.target.now) }
    {
        match self.node() {
            SigNode::Fun {
                effect,
                kinds,
                param,
                result,
            } => Some(Functor {
                effect: *effect,
                kinds,
                param,
                target: result,
            }),
            _ => None,
        }
    }
}
