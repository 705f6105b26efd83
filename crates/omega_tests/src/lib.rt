// Tests of the crates of System Fω through their public calls, with ample memory: normal types, their store, terms, texts,
// scopes, the checker with the types that it keeps, the machine and simplified terms. Stands on these crates and on fing_text.
// Proved: that no test reads out of bounds, overflows or breaks what a call asks for. What they assert is tested alone.
#![tactic(auto)]

#[cfg(test)]
mod checking;
#[cfg(test)]
mod machine;
#[cfg(test)]
mod node_types;
#[cfg(test)]
mod normal_types;
#[cfg(test)]
mod numbers;
#[cfg(test)]
mod reading;
#[cfg(test)]
mod scopes;
#[cfg(test)]
mod simplifying;
#[cfg(test)]
mod terms;
#[cfg(test)]
mod texts;
#[cfg(test)]
mod writing;
