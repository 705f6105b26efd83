// Functors with a pure body.
ghost use Rattle.std.specs.Prelude.{◌≡◌, List, IfOk};
ghost use Rattle.omega_kinds.specs.Kind.{Kind as KindTree};
ghost use Rattle.omega_kinds.specs.declared.effect.Effect.TheVariants.{Pure};
ghost use Rattle.omega_types.specs.Binders.{extend};
ghost use Rattle.sig_definitions.specs.Signatures.Alike.{NormalAbs};
ghost use Rattle.functor_judgments.specs.PureFunctor.{PureFunctorGives};
ghost use Rattle.semantic_sigs.specs.Inner.Made.{module_of};
ghost use Rattle.semantic_sigs.specs.Inner.View.{kinds_of, body_of};

use crate::lifting::{lift, lift_witness};
use omega_kinds::{Effect, Label, Mem};
use omega_shorthands::{one_field, ty_lam_over};
use omega_terms::{Term, TermNode};
use semantic_sigs::{Abs, Module, encode_sig};
use std::alloc::Global;

/// `fun (X : S) => M`, where M is pure: the module of a pure functor, which hides what M hides, lifted over the types that
/// the parameter hides. M stands under these and under X. Both signatures have normal types. `Err` is out of memory.
///
/// Rossberg, Russo and Dreyer, "F-ing modules", section 7, Applicative functors.
pub fn pure_functor(alloc: Global, param: &Abs, body: Module) -> Result<Module, Mem>
    ensures { IfOk result (λ m. (ctx : List KindTree) → body.effect ≡ Pure → NormalAbs ctx param.now → NormalAbs (extend ctx (kinds_of param.now)) body.sig → PureFunctorGives ctx (kinds_of param.now) (body_of param.now) (module_of body) (module_of m)) }
{
    let kinds = param.kinds();
    let result = one_field(alloc, Label::App, body.term)?;
    let from = encode_sig(param.body())?;
    let function = Term::make(alloc, TermNode::Lam(from, result))?;
    Ok(Module {
        effect: Effect::Pure,
        sig: lift(alloc, kinds, param.body(), &body.sig)?,
        types: lift_witness(alloc, kinds, body.types.items())?,
        term: ty_lam_over(alloc, kinds, function)?,
    })
}
