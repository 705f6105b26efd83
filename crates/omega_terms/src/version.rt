// The versions of Omega text.

/// A version of Omega text, whose number stands in the first line. Types that are sums or recursive have a text in the
/// second version only.
#[derive(Clone, Copy, Debug, PartialEq, Eq)]
pub enum Version {
    First,
    Second,
}
