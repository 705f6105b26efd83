// The program: hands its words, standard input and standard output to the top call, and ends with the status that it
// answers. Stands on fing_top and fing_text. What it is proved to do is in the contracts of `fing` and `exit_code` of
// fing_top.
#![tactic(auto)]

use fing_text::{StdSink, StdSource};
use fing_top::{Status, exit_code, fing};
use std::io::ErrorKind;
use std::process::ExitCode;
use std::{env, mem};

// The words after the program's name. A word that is no UTF-8 makes them no command line, and else there is no memory
// for them.
fn words(rt: &HostRuntime) -> Result<Vec<String>, Status> {
    let given = env::args(rt).map_err(|error| match error.kind() {
        ErrorKind::InvalidData => Status::Words,
        _ => Status::NoMemory,
    })?;
    let mut words = Vec::new(rt.alloc());
    for word in given.skip(1) {
        words.push(word).map_err(|_| Status::NoMemory)?;
    }
    Ok(words)
}

// What the program answers to its words.
fn answer(rt: &HostRuntime, words: &[String]) -> Status {
    let mut source = StdSource::new(rt.stdin());
    let mut sink = StdSink::new(rt.stdout());
    let mut confirmed = None;
    let status = fing(rt.alloc(), words, &mut source, &mut sink, &mut confirmed);
    // The program ends here, and its memory goes back as a whole.
    mem::forget(confirmed);
    status
}

fn main(rt: HostRuntime) -> ExitCode {
    let status = match words(&rt) {
        Ok(words) => answer(&rt, &words),
        Err(status) => status,
    };
    exit_code(status)
}
