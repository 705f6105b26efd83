// The program `fing-show [--color WHEN] [--paper | [--latex | --omega] [--term] | --derivation [--latex | --html] |
// --type-at LINE:COLUMN | --steps[=N]] [FILE]`: reads a source, writes its page, or with `--omega` compact Omega text, to
// standard output, and ends with the status of the verdict, or of the run whose steps are shown. Stands on clap (words),
// fing_text (bytes in and out), fing_show (pages), omega_machine (ends of runs), show_colour (pages in colour) and
// omega_compact (compact text).
// Proved: it is safe and ends. The verdict is in the contract of `show` of fing_show; no clause speaks of the page or
// of the exit status.
#![tactic(auto)]

mod colour;
mod derivations;
mod steps;

use crate::colour::{Colour, colour_in, colour_option, is_coloured};
use crate::derivations::{derivation_in, derivation_option, html_option};
use crate::steps::{steps_in, steps_option};
use clap::error::Error;
use clap::{Arg, ArgAction, Command};
use fing_show::{Shown, Verdict, View, show};
use fing_text::{ReadEnd, SOURCE_LIMIT, Source, StdSink, StdSource, put, read_all};
use omega_compact::compact;
use omega_machine::End;
use show_colour::coloured;
use std::alloc::{AllocError, Global};
use std::fs::File;
use std::process::ExitCode;
use std::{env, io};

// How the program ends; the exit status is the number.
#[derive(Clone, Copy, Debug, PartialEq, Eq)]
enum Status {
    Accepted = 0,
    Refused = 1,
    Words = 2,
    Faulted = 3,
    Spent = 4,
    ReadFault = 5,
    WriteFault = 6,
    NoMemory = 7,
    TooLong = 8,
}

// The words after the program's name.
fn words(rt: &HostRuntime) -> Result<Vec<String>, Status> {
    let given = env::args(rt).map_err(|error| match error.kind() {
        io::ErrorKind::InvalidData => Status::Words,
        _ => Status::NoMemory,
    })?;
    let mut words = Vec::new(rt.alloc());
    for word in given.skip(1) {
        words.push(word).map_err(|_| Status::NoMemory)?;
    }
    Ok(words)
}

// A flag.
fn flag<'a>(alloc: Global, name: &'a str, help: &'a str) -> Arg<'a> {
    Arg::new(alloc, name)
        .long(name)
        .action(ArgAction::SetTrue)
        .help(help)
}

// The command: `FILE`, the flags for the notation, and those for help and the version.
fn command<'a>(alloc: Global) -> Result<Command<'a>, AllocError> {
    let file = Arg::new(alloc, "FILE")
        .action(ArgAction::Set)
        .help("The source; standard input without it");
    let paper = flag(
        alloc,
        "paper",
        "Shows a signature in the notation of the literature",
    );
    let latex = flag(
        alloc,
        "latex",
        "Shows it in this notation, or a derivation, in LaTeX for math mode",
    );
    let term = flag(
        alloc,
        "term",
        "Shows the term in this notation; with --latex, in LaTeX",
    );
    let omega = flag(
        alloc,
        "omega",
        "Makes Omega text with line breaks and comments compact; with --term, shows the term as such text",
    );
    let place = Arg::new(alloc, "type-at")
        .long("type-at")
        .action(ArgAction::Set)
        .value_name("LINE:COLUMN")
        .help("Shows the type, kind or signature of the smallest phrase there");
    Command::new(alloc, "fing-show")
        .version("0.9.0")
        .about("Shows why a program is refused, or its signature, its term or its run")
        .no_binary_name(true)
        .arg(file)?
        .arg(paper.conflicts_with("latex")?.conflicts_with("term")?)?
        .arg(latex)?
        .arg(term)?
        .arg(omega.conflicts_with("paper")?.conflicts_with("latex")?)?
        .arg(
            place
                .conflicts_with("paper")?
                .conflicts_with("latex")?
                .conflicts_with("term")?
                .conflicts_with("omega")?,
        )?
        .arg(derivation_option(alloc)?)?
        .arg(html_option(alloc)?)?
        .arg(steps_option(alloc)?)?
        .arg(colour_option(alloc))
}

// What is done with what is read.
#[derive(Clone, Copy, Debug, PartialEq, Eq)]
enum Task<'a> {
    // It is shown as a program, or why it is none.
    Show(View),
    // The phrase at this place of it is shown.
    ShowAt(&'a str),
    // So many steps of its run are shown, and the end.
    ShowSteps(&'a str),
    // It is made compact Omega text.
    Compact,
}

// What the words ask for: a file, or standard input, what is done with it, and when a page is in colour.
#[derive(Clone, Copy, Debug, PartialEq, Eq)]
struct Wish<'a> {
    file: Option<&'a str>,
    task: Task<'a>,
    colour: Colour,
}

// What the words ask for; or what clap answers to them.
fn wish_in<'a>(alloc: Global, words: &'a [String]) -> Result<Wish<'a>, Error> {
    let matches = command(alloc)?.try_get_matches_from(words)?;
    let latex = matches.get_flag("latex");
    let view = match (matches.get_flag("term"), latex) {
        (true, true) => View::TermLatex,
        (true, false) => View::Term,
        (false, true) => View::Latex,
        (false, false) if matches.get_flag("paper") => View::Paper,
        (false, false) => View::Source,
    };
    let view = derivation_in(&matches).unwrap_or(view);
    let task = match (matches.get_flag("omega"), matches.get_flag("term")) {
        (true, true) => Task::Show(View::TermOmega),
        (true, false) => Task::Compact,
        (false, _) => match (matches.get_str("type-at"), matches.get_str("steps")) {
            (Some(place), _) => Task::ShowAt(place),
            (None, Some(count)) => Task::ShowSteps(count),
            (None, None) => Task::Show(view),
        },
    };
    Ok(Wish {
        file: matches.get_str("FILE"),
        task,
        colour: colour_in(&matches),
    })
}

// The line and the column that a text says.
fn place_in(text: &str) -> Option<View> {
    let (line, column) = text.split_once(':')?;
    let line = line.parse::<u64>().ok()?;
    let column = column.parse::<u64>().ok()?;
    Some(View::Phrase { line, column })
}

// The view of the phrase at a line and a column. Words that are no such place are told on standard error.
fn view_at(rt: &HostRuntime, place: &str) -> Result<View, Status> {
    match place_in(place) {
        Some(view) => Ok(view),
        None => {
            let _ = eprintln!(rt; "fing-show: --type-at takes LINE:COLUMN, as in 3:14");
            Err(Status::Words)
        }
    }
}

// The view of so many steps. Words that are no such number are told on standard error.
fn steps_of(rt: &HostRuntime, count: &str) -> Result<View, Status> {
    match steps_in(count) {
        Some(view) => Ok(view),
        None => {
            let _ = eprintln!(rt;
                "fing-show: --steps takes a number up to 10000000, as in --steps=100"
            );
            Err(Status::Words)
        }
    }
}

// Writes what clap answers to words, and gives the status.
fn answer_words(rt: &HostRuntime, error: &Error) -> ExitCode {
    let wrote = error.print(rt);
    match wrote {
        Ok(()) if error.exit_code() == 0 => ExitCode::from(Status::Accepted as u8),
        Ok(()) => ExitCode::from(Status::Words as u8),
        Err(_) => ExitCode::from(Status::WriteFault as u8),
    }
}

// The bytes of a source.
fn bytes_of<S: Source>(alloc: Global, source: &mut S) -> Result<Vec<u8>, Status> {
    read_all(alloc, source, SOURCE_LIMIT).map_err(|end| match end {
        ReadEnd::ReadFault => Status::ReadFault,
        ReadEnd::TooLong => Status::TooLong,
        ReadEnd::Mem => Status::NoMemory,
    })
}

// The bytes of a file. An error is also said on standard error, with the file's name.
fn bytes_in(rt: &HostRuntime, file: &str) -> Result<Vec<u8>, Status> {
    match File::open(rt, file) {
        Ok(opened) => bytes_of(rt.alloc(), &mut StdSource::new(opened)),
        Err(error) => {
            let _ = eprintln!(rt; "fing-show: {file}: {error}");
            Err(Status::ReadFault)
        }
    }
}

// The name by which a page calls a file, or standard input.
fn name_of(file: Option<&str>) -> &str {
    file.unwrap_or("<stdin>")
}

// The bytes of a file, or of standard input.
fn source_in(rt: &HostRuntime, file: Option<&str>) -> Result<Vec<u8>, Status> {
    match file {
        Some(file) => bytes_in(rt, file),
        None => bytes_of(rt.alloc(), &mut StdSource::new(rt.stdin())),
    }
}

// Shows a file, or standard input.
fn show_file(rt: &HostRuntime, file: Option<&str>, view: View) -> Result<Shown, Status> {
    let bytes = source_in(rt, file)?;
    if bytes.len() > SOURCE_LIMIT {
        return Err(Status::TooLong);
    }
    show(rt.alloc(), name_of(file).as_bytes(), &bytes, view).map_err(|_| Status::NoMemory)
}

// What is shown, in colour if it is a refusal and colour is wanted here.
fn in_colour(rt: &HostRuntime, colour: Colour, shown: Shown) -> Result<Shown, Status> {
    if shown.verdict == Verdict::Accepted || !is_coloured(rt, colour) {
        return Ok(shown);
    }
    let text = coloured(rt.alloc(), &shown.text).map_err(|_| Status::NoMemory)?;
    Ok(Shown { text, ..shown })
}

// Makes the Omega text in a file, or in standard input, compact.
fn compact_file(rt: &HostRuntime, file: Option<&str>) -> Result<Vec<u8>, Status> {
    let bytes = source_in(rt, file)?;
    compact(rt.alloc(), &bytes).map_err(|_| Status::NoMemory)
}

// Writes what is shown, and gives the status.
fn write_page(rt: &HostRuntime, text: &[u8], status: Status) -> Status {
    match put(&mut StdSink::new(rt.stdout()), text) {
        Ok(()) => status,
        Err(_) => Status::WriteFault,
    }
}

// The status of what is shown: that of the verdict, and where a run is shown that of its end.
fn status_of(shown: &Shown) -> Status {
    match (shown.verdict, &shown.end) {
        (Verdict::Accepted, Some(End::Fault { .. })) => Status::Faulted,
        (Verdict::Accepted, Some(End::Spent)) => Status::Spent,
        (Verdict::Accepted, _) => Status::Accepted,
        _ => Status::Refused,
    }
}

// Shows a file, or standard input, and gives the status.
fn show_wish(rt: &HostRuntime, wish: Wish<'_>, view: View) -> Result<Status, Status> {
    let shown = show_file(rt, wish.file, view)?;
    let shown = in_colour(rt, wish.colour, shown)?;
    Ok(write_page(rt, &shown.text, status_of(&shown)))
}

// Does what the words ask for, and gives the status.
fn fulfil(rt: &HostRuntime, wish: Wish<'_>) -> Result<Status, Status> {
    match wish.task {
        Task::Show(view) => show_wish(rt, wish, view),
        Task::ShowAt(place) => show_wish(rt, wish, view_at(rt, place)?),
        Task::ShowSteps(count) => show_wish(rt, wish, steps_of(rt, count)?),
        Task::Compact => {
            let text = compact_file(rt, wish.file)?;
            Ok(write_page(rt, &text, Status::Accepted))
        }
    }
}

fn main(rt: HostRuntime) -> ExitCode {
    let words = match words(&rt) {
        Ok(words) => words,
        Err(status) => return ExitCode::from(status as u8),
    };
    let wish = match wish_in(rt.alloc(), &words) {
        Ok(wish) => wish,
        Err(error) => return answer_words(&rt, &error),
    };
    let status = match fulfil(&rt, wish) {
        Ok(status) => status,
        Err(status) => status,
    };
    ExitCode::from(status as u8)
}
