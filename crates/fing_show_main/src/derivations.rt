// The options that ask for a derivation.
use clap::{Arg, ArgAction, ArgMatches};
use fing_show::{Form, View};
use std::alloc::{AllocError, Global};

// The names of the options.
const DERIVATION: &str = "derivation";

const HTML: &str = "html";

/// The option `--derivation`.
pub(crate) fn derivation_option<'a>(alloc: Global) -> Result<Arg<'a>, AllocError> {
    Arg::new(alloc, DERIVATION)
        .long(DERIVATION)
        .action(ArgAction::SetTrue)
        .help(
            "Shows the tree of the rules that derive the program; with --latex or --html, in this form",
        )
        .conflicts_with("paper")?
        .conflicts_with("term")?
        .conflicts_with("omega")?
        .conflicts_with("type-at")
}

/// The option `--html`, which only a derivation has.
pub(crate) fn html_option<'a>(alloc: Global) -> Result<Arg<'a>, AllocError> {
    Arg::new(alloc, HTML)
        .long(HTML)
        .action(ArgAction::SetTrue)
        .help("Shows a derivation as a page of HTML, in which its parts are folded")
        .requires_arg(DERIVATION)?
        .conflicts_with("latex")
}

/// The view of a derivation, if the words ask for it.
pub(crate) fn derivation_in(matches: &ArgMatches<'_>) -> Option<View> {
    if !matches.get_flag(DERIVATION) {
        return None;
    }
    if matches.get_flag(HTML) {
        return Some(View::Derivation(Form::Html));
    }
    if matches.get_flag("latex") {
        return Some(View::Derivation(Form::Latex));
    }
    Some(View::Derivation(Form::Text))
}
