// Tests of signatures in code through public calls, with ample memory: environments, root paths, matching, coercions,
// package types, sums and recursive types, scopes and texts. Stands on the crates of signatures in code, and on those of
// types and terms.
// Proved: that no test reads out of bounds, overflows or breaks what a call asks for. What they assert is tested alone.
#![tactic(auto)]

#[cfg(test)]
mod coercions;
#[cfg(test)]
mod instances;
#[cfg(test)]
mod literals;
#[cfg(test)]
mod matching;
#[cfg(test)]
mod packaged;
#[cfg(test)]
mod recursive_types;
#[cfg(test)]
mod refusal_texts;
#[cfg(test)]
mod roots;
#[cfg(test)]
mod scopes;
#[cfg(test)]
mod sig_texts;
#[cfg(test)]
mod signatures_made;
#[cfg(test)]
mod sums;
#[cfg(test)]
mod term_texts;
