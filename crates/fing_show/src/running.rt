// What is shown of a program that means something, with what its run comes to.
ghost use Rattle.std.specs.Prelude.{◌≡◌, [], IfOk, MatchOption, Some, None};
ghost use Rattle.fing_show.specs.Inner.Heads.{ShowsMeaning};
ghost use Rattle.fing_show.specs.Inner.Ran.{EndsAs, budget_of};
ghost use Rattle.omega_terms.specs.Typing.{HasType};
ghost use Rattle.sig_definitions.specs.Signatures.Encoding.{enc_abs};

use crate::pages::{Given, accepted_page};
use crate::view::View;
use fing_elab::Elaborated;
use fing_syntax::Program;
use omega_kinds::Mem;
use omega_machine::End;
use show_steps::show_steps;
use std::alloc::Global;

/// The page of a program that means something, and what its run comes to, if the view shows that.
#[derive(Drop)]
pub(crate) struct PageAndEnd {
    pub(crate) text: Vec<u8>,
    pub(crate) end: Option<End>,
}

/// What the view shows of a program that means something. `Err` is out of memory.
pub(crate) fn accepted(
    alloc: Global,
    given: Given<'_>,
    program: &Program,
    found: &Elaborated,
) -> Result<PageAndEnd, Mem>
    requires { HasType [] [] found.now.whole (enc_abs found.now.sig) }
    ensures end { IfOk result (λ a. EndsAs found.now.whole (budget_of given.entry.view) a.end) }
    ensures page { IfOk result (λ a. ShowsMeaning given.entry.view found.now a.text.items) }
{
    match steps_of(given.view) {
        Some((shown, budget)) => accepted_run(alloc, found, shown, budget),
        None => Ok(PageAndEnd {
            text: accepted_page(alloc, given, program, found)?,
            end: None,
        }),
    }
}

// How many steps the view shows, and the budget of the run.
fn steps_of(view: View) -> Option<(u64, u64)>
    ensures { MatchOption result (budget_of view ≡ None) (λ s. budget_of view ≡ Some s.1) }
{
    match view {
        View::Steps { shown, budget } => Some((shown, budget)),
        _ => None,
    }
}

// The run of the whole term within a budget: its first steps and its end.
fn accepted_run(
    alloc: Global,
    found: &Elaborated,
    shown: u64,
    budget: u64,
) -> Result<PageAndEnd, Mem>
    requires { HasType [] [] found.now.whole (enc_abs found.now.sig) }
    ensures { IfOk result (λ a. EndsAs found.now.whole (Some budget) a.end) }
{
    let walk = show_steps(alloc, &found.whole, shown, budget)?;
    Ok(PageAndEnd {
        text: walk.text,
        end: Some(walk.end),
    })
}
