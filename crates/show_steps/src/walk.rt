// Runs, shown step by step.
ghost use Rattle.std.specs.Prelude.{◌≡◌, ◌+◌, ◌-◌, ◌^◌, ◌<◌, IfOk};
ghost use Rattle.omega_machine.specs.Inner.Moves.{IsTyped};
ghost use Rattle.omega_machine.specs.Inner.Outcomes.{Tells};
ghost use Rattle.omega_machine.specs.declared.outcome.End.{End as EndOf};
ghost use Rattle.omega_terms.specs.ValueText.{value_text};

use crate::page::{put_fault, put_spent, put_step, put_value};
use omega_kinds::Mem;
use omega_machine::{Arith, End, Frame, Next, Redex, Run, show_program};
use omega_terms::Term;
use show_text::Page;
use std::alloc::Global;

/// What a run comes to, and the page of its steps and its end.
#[derive(Drop)]
pub struct Walk {
    pub end: End,
    pub text: Vec<u8>,
}

/// What a closed term that has a type comes to within a budget of steps, which is what `run` of omega_machine answers,
/// and a page: no more than `shown` of its first steps, each with its rule, its redex marked in its frames; how many more
/// there are; and the end, where a fault has its redex marked in its frames too. `Err` is out of memory, also where the
/// page would have more than 64 MiB.
pub fn show_steps(alloc: Global, term: &Term, shown: u64, budget: u64) -> Result<Walk, Mem>
    requires { IsTyped term.now }
    ensures { IfOk result (λ w. Tells term.now budget w.end) }
{
    let mut page = Page::new(alloc);
    let mut run = Run::start(alloc, term)?;
    for steps in 0..budget {
        run = match run.next(alloc)? {
            Next::Value(value) => return value_walk(alloc, page, &value, steps, shown),
            Next::Fault(fault, redex, frames) => {
                return fault_walk(alloc, page, (fault, steps), shown, &redex, &frames);
            }
            Next::Step(redex, next) => {
                if steps < shown {
                    put_step(alloc, &mut page, steps, &redex, next.frames())?;
                }
                next
            }
        };
    }
    match run.next(alloc)? {
        Next::Value(value) => value_walk(alloc, page, &value, budget, shown),
        _ => spent_walk(page, budget, shown),
    }
}

// The end with a value, after so many steps.
fn value_walk(alloc: Global, page: Page, value: &Term, steps: u64, shown: u64) -> Result<Walk, Mem>
    ensures { IfOk result (λ w. w.end ≡ EndOf.Value (value_text value.now) steps) }
{
    let text = show_program(alloc, value)?;
    let mut page = page;
    put_value(&mut page, text.bytes(), steps, shown)?;
    Ok(Walk {
        end: End::Value { shown: text, steps },
        text: page.into_bytes(),
    })
}

// The end with a fault that comes after so many steps; its step is counted.
fn fault_walk(
    alloc: Global,
    page: Page,
    met: (Arith, u64),
    shown: u64,
    redex: &Redex,
    frames: &[Frame],
) -> Result<Walk, Mem>
    requires { met.1 < 2 ^ 64 - 1 }
    ensures { IfOk result (λ w. w.end ≡ EndOf.Fault met.0 (met.1 + 1)) }
{
    let (fault, before) = met;
    let mut page = page;
    put_fault(alloc, &mut page, met, shown, redex, frames)?;
    Ok(Walk {
        end: End::Fault {
            fault,
            steps: before + 1,
        },
        text: page.into_bytes(),
    })
}

// The end with a spent budget.
fn spent_walk(page: Page, budget: u64, shown: u64) -> Result<Walk, Mem>
    ensures { IfOk result (λ w. w.end ≡ EndOf.Spent) }
{
    let mut page = page;
    put_spent(&mut page, budget, shown)?;
    Ok(Walk {
        end: End::Spent,
        text: page.into_bytes(),
    })
}
