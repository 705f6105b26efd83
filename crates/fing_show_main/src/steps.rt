// The option `--steps[=N]`: how many steps of a run are shown.
use clap::{Arg, ArgAction};
use fing_show::View;
use std::alloc::{AllocError, Global};

// The greatest number of steps, and the budget of a run of which fewer are shown than it has.
const MOST_STEPS: u64 = 10000000;

const BUDGET: u64 = 1000000;

/// The option `--steps`, with a number behind `=` or without one.
pub(crate) fn steps_option<'a>(alloc: Global) -> Result<Arg<'a>, AllocError> {
    Arg::new(alloc, "steps")
        .long("steps")
        .action(ArgAction::Set)
        .num_args(0..=1)
        .require_equals(true)
        .default_missing_value("20")
        .value_name("N")
        .help("Shows the first N steps of the run, 20 without N, and its end")
        .conflicts_with("paper")?
        .conflicts_with("latex")?
        .conflicts_with("term")?
        .conflicts_with("omega")?
        .conflicts_with("type-at")
}

/// The view of so many steps, which a text says: no more than 10,000,000. The run goes on to its end, within 1,000,000
/// steps or within this many, if it is more.
pub(crate) fn steps_in(text: &str) -> Option<View> {
    let shown = text
        .parse::<u64>()
        .ok()
        .filter(|shown| *shown <= MOST_STEPS)?;
    Some(View::Steps {
        shown,
        budget: shown.max(BUDGET),
    })
}
