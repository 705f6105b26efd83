// The label of a functor's result.
ghost use Rattle.std.specs.Prelude.{◌≡◌};
ghost use Rattle.omega_terms.specs.Coercions.{result_label as label_of};

use omega_kinds::{Effect, Label};

/// The label round the result of a functor of this effect: one for applicative functors, another for generative ones.
pub fn result_label(effect: Effect) -> Label
    ensures { result ≡ label_of effect }
{
    match effect {
        Effect::Pure => Label::App,
        Effect::Impure => Label::Gen,
    }
}
