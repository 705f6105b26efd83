// The effect of a module.

/// Whether evaluating a module can make new types: a pure module's hidden types are known beside its term,
/// an impure one's are known only when it is run.
///
/// Rossberg, Russo and Dreyer, "F-ing modules", section 7, Applicative functors.
#[derive(Clone, Copy, Debug, PartialEq, Eq)]
pub enum Effect {
    Pure,
    Impure,
}
