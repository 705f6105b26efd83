// Tests of elaboration through public calls: phrases by themselves, a program from its bytes to its run, and units that are
// elaborated apart and linked. Stands on fing_parser, fing_elab, fing_units, omega_checker and omega_machine.
// Proved: that no test breaks what a call asks for. So each unit that is linked is one that was elaborated. What the tests
// assert is tested alone.
#![tactic(auto)]

#[cfg(test)]
mod phrases;
#[cfg(test)]
mod programs;
#[cfg(test)]
mod units;
