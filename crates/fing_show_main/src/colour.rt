// Whether a page is written in colour.
use clap::{Arg, ArgAction, ArgMatches};
use std::alloc::Global;
use std::env;
use std::env::VarError;
use std::io::IsTerminal;

// The option's name, and the words that it takes.
const COLOR: &str = "color";

const WHEN: [&str; 3] = ["auto", "always", "never"];

/// When pages are in colour.
#[derive(Clone, Copy, Debug, PartialEq, Eq)]
pub(crate) enum Colour {
    /// Where a terminal shows them, unless the environment asks for none.
    Auto,
    Always,
    Never,
}

/// The option `--color`.
pub(crate) fn colour_option<'a>(alloc: Global) -> Arg<'a> {
    Arg::new(alloc, COLOR)
        .long(COLOR)
        .action(ArgAction::Set)
        .value_name("WHEN")
        .value_parser(WHEN.as_slice())
        .default_value("auto")
        .help("Shows a refusal in colour; auto: at a terminal, unless NO_COLOR is set")
}

/// When the words ask for pages in colour.
pub(crate) fn colour_in(matches: &ArgMatches<'_>) -> Colour {
    match matches.get_str(COLOR) {
        Some("always") => Colour::Always,
        Some("never") => Colour::Never,
        _ => Colour::Auto,
    }
}

/// Whether pages are in colour here.
pub(crate) fn is_coloured(rt: &HostRuntime, colour: Colour) -> bool {
    match colour {
        Colour::Auto => rt.stdout().is_terminal() && !asks_for_none(rt),
        Colour::Always => true,
        Colour::Never => false,
    }
}

// Whether the environment asks for no colour: a variable NO_COLOR that is not empty, or a terminal that is called dumb.
fn asks_for_none(rt: &HostRuntime) -> bool {
    let is_set = match env::var(rt, "NO_COLOR") {
        Ok(value) => !value.is_empty(),
        Err(VarError::NotPresent) => false,
        Err(_) => true,
    };
    is_set || matches!(env::var(rt, "TERM"), Ok(name) if name.as_str() == "dumb")
}
