// What the effects of two functors say of their match.
ghost use Rattle.std.specs.Prelude.{◌≡◌, ◌↔◌, IsTrue};
ghost use Rattle.omega_kinds.specs.declared.effect.Effect.TheVariants.{Pure, Impure};

use omega_kinds::Effect;

/// Whether both effects are pure.
pub(crate) fn both_pure(left: Effect, right: Effect) -> bool
    ensures { IsTrue result ↔ ((left ≡ Pure) × (right ≡ Pure)) }
{
    matches!((left, right), (Effect::Pure, Effect::Pure))
}

/// Whether an impure functor would stand for a pure one.
pub(crate) fn impure_for_pure(left: Effect, right: Effect) -> bool
    ensures { IsTrue result ↔ ((left ≡ Impure) × (right ≡ Pure)) }
{
    matches!((left, right), (Effect::Impure, Effect::Pure))
}
