// Runs: the steps of a checked term, counted.
ghost use Rattle.std.specs.Prelude.{◌≡◌, ◌↔◌, ◌+◌, ◌-◌, ◌^◌, ◌<◌, IfOk};
ghost use Rattle.omega_machine.specs.Inner.Moves.{IsTyped};
ghost use Rattle.omega_machine.specs.Inner.Outcomes.{Tells, StillGoes, NeverStuck, HasOneOutcome, ValuesFit};
ghost use Rattle.omega_terms.specs.ValueText.{value_text};

use crate::frames::Focus;
use crate::outcome::{Arith, End};
use crate::redexes::{Step, reduce};
use crate::refocus::{Found, refocus};
use crate::shown::show_program;
use omega_checker::Checked;
use omega_kinds::Mem;
use omega_terms::Term;
use std::alloc::Global;

/// Runs the term of a checked program for as many steps as the budget allows: the value that it comes to, shown as its
/// text, or the fault that it meets, with the exact number of steps, the step at which a fault is met being counted;
/// `Spent` exactly where the term that is reached in as many steps as the budget is no value. No term that is reached
/// is stuck, so one more step or a fault comes next. `Err` is out of memory.
///
/// Reduction is call by value, from left to right, by substitution. Pierce, "Types and Programming Languages", figures
/// 11-7 (records), 11-11 (variants), 11-12 (fixed points), 20-1 (iso-recursive types), 24-1 (existential types) and
/// 30-1; Wright and Felleisen, "A Syntactic Approach to Type Soundness" (1994).
pub fn run(alloc: Global, checked: &Checked, budget: u64) -> Result<End, Mem>
    ensures outcome { IfOk result (λ end. Tells checked.now.term budget end) }
    ensures spent { IfOk result (λ end. (end ≡ End.Spent) ↔ StillGoes checked.now.term budget) }
    ensures one { HasOneOutcome checked.now.term budget }
    ensures never_stuck { NeverStuck checked.now.term }
    ensures values { ValuesFit checked.now.term checked.now.ty }
{
    let term = checked.term();
    reduce_within(alloc, term, budget)
}

// The steps, one after the other, each going on from where the last one was made.
fn reduce_within(alloc: Global, term: &Term, budget: u64) -> Result<End, Mem>
    requires { IsTyped term.now }
    ensures { IfOk result (λ end. Tells term.now budget end) }
{
    let mut frames = Vec::new(alloc);
    let mut focus = Focus::Term(term.share()?);
    for steps in 0..budget {
        focus = match refocus(alloc, &mut frames, focus)? {
            Found::Value(value) => return value_end(alloc, &value, steps),
            Found::Redex(frame, value) => match reduce(alloc, frame, &value)? {
                Step::To(next) => next,
                Step::Fault(fault) => return Ok(fault_end(fault, steps)),
            },
        };
    }
    match refocus(alloc, &mut frames, focus)? {
        Found::Value(value) => value_end(alloc, &value, budget),
        Found::Redex(_, _) => Ok(End::Spent),
    }
}

// The end with a fault, whose step is counted, after so many steps.
fn fault_end(fault: Arith, before: u64) -> End
    requires { before < 2 ^ 64 - 1 }
    ensures { result ≡ End.Fault fault (before + 1) }
{
    End::Fault {
        fault,
        steps: before + 1,
    }
}

// The end with a value, after so many steps.
fn value_end(alloc: Global, value: &Term, steps: u64) -> Result<End, Mem>
    ensures { IfOk result (λ end. end ≡ End.Value (value_text value.now) steps) }
{
    Ok(End::Value {
        shown: show_program(alloc, value)?,
        steps,
    })
}
