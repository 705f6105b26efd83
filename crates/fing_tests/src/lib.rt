// Tests that cross crates: the whole program on known sources and sinks, and calls that can want memory with ample
// memory. Stands on fing_top and on the crates whose public calls it makes.
// Proved: that no test reads out of bounds or overflows. What they assert is tested alone.
#![tactic(auto)]

#[cfg(test)]
mod ample;
#[cfg(test)]
mod check;
#[cfg(test)]
mod cut;
#[cfg(test)]
mod emit;
#[cfg(test)]
mod faults;
#[cfg(test)]
mod generated;
#[cfg(test)]
mod heights;
#[cfg(test)]
mod link;
#[cfg(test)]
mod outcomes;
#[cfg(test)]
mod reasons;
#[cfg(test)]
mod runs;
#[cfg(test)]
mod sets;
#[cfg(test)]
mod simplify;
#[cfg(test)]
mod sizes;
#[cfg(test)]
mod spelling;
#[cfg(test)]
mod sums;
#[cfg(test)]
mod verify;
#[cfg(test)]
mod words;
