// The answer to words and a source: a status, and the reply on a page.
ghost use Rattle.std.specs.Prelude.{◌≡◌, ◌≤◌, ℕ, List, map, IfOk, IsTrue, length, take, drop};
ghost use Rattle.std.specs.String.{string_bytes};
ghost use Rattle.std.specs.Str.Lines.{lines};
ghost use Rattle.fing_gen.specs.Source.{source_text};
ghost use Rattle.fing_words.specs.CommandLines.{IsCommandLine};
ghost use Rattle.fing_words.specs.declared.command_line.CommandLine.TheVariants as command;
ghost use Rattle.fing_top.specs.Answer.{limit};
ghost use Rattle.fing_top.specs.Exit.{exit_number};
ghost use Rattle.fing_top.specs.Words.{IsSized};
ghost use Rattle.fing_top.specs.declared.status.Status.TheVariants as answer;
ghost use Rattle.fing_c.specs.Inner.Returns.{Replied, Returns, ReturnsNumber};

use crate::draft::Draft;
use fing_gen::source_of;
use fing_text::SOURCE_LIMIT;
use fing_top::{Status, reply};
use fing_words::{CommandLine, read_words};
use std::alloc::{AllocError, Global};

// A status, and how many bytes were written to the beginning of the page.
#[derive(Clone, Copy)]
pub struct Answer {
    pub status: Status,
    pub written: usize,
}

// Whether an answer has its reply: memory ran out where a write failed and the draft is not full.
fn has_reply(status: Status, is_full: bool) -> bool
    ensures { IsTrue result → status ≡ answer.WriteFault → IsTrue is_full }
{
    match status {
        Status::WriteFault => is_full,
        _ => true,
    }
}

// Answers a command for all its bytes, with as much of the reply as the page holds.
fn answer_bytes(alloc: Global, command: CommandLine, bytes: &[u8], page: &mut [u8]) -> Answer
    requires { length bytes.now ≤ limit }
    ensures within { result.written ≤ length page.new }
    ensures rest { drop result.written page.new ≡ drop result.written page.old }
    ensures replied { Replied command bytes.now (length page.old) (take result.written page.new) result.status }
{
    let mut draft = Draft::new(alloc, page.len());
    let mut confirmed = None;
    let status = reply(alloc, command, bytes, &mut draft, &mut confirmed);
    if !has_reply(status, draft.is_full()) {
        return Answer {
            status: Status::NoMemory,
            written: 0,
        };
    }
    let written = draft.copy_to(page);
    Answer { status, written }
}

// Answers `gen` for the generated program of a size.
fn answer_generated(alloc: Global, size: u32, page: &mut [u8]) -> Answer
    requires { size ≤ 300 }
    ensures within { result.written ≤ length page.new }
    ensures rest { drop result.written page.new ≡ drop result.written page.old }
    ensures replied { Replied (command.Gen size) (source_text size) (length page.old) (take result.written page.new) result.status }
{
    match source_of(alloc, size) {
        Ok(bytes) => answer_bytes(alloc, CommandLine::Gen { size }, &bytes, page),
        Err(_) => Answer {
            status: Status::NoMemory,
            written: 0,
        },
    }
}

// Answers a command for a source.
#[tactic(auto, using(crate::proofs::Returning::too_long, crate::proofs::Returning::returned_source, crate::proofs::Returning::returned_generated))]
fn answer_command(alloc: Global, command: CommandLine, source: &[u8], page: &mut [u8]) -> Answer
    requires { IsSized command }
    ensures within { result.written ≤ length page.new }
    ensures rest { drop result.written page.new ≡ drop result.written page.old }
    ensures returns { (words : List (List ℕ)) → IsCommandLine words command
        → Returns words source.now (length page.old) (take result.written page.new) result.status }
{
    if let CommandLine::Gen { size } = command {
        return answer_generated(alloc, size, page);
    }
    if source.len() > SOURCE_LIMIT {
        return Answer {
            status: Status::TooLong,
            written: 0,
        };
    }
    answer_bytes(alloc, command, source, page)
}

// Answers words for a source.
fn answer_words(alloc: Global, words: &[String], source: &[u8], page: &mut [u8]) -> Answer
    ensures within { result.written ≤ length page.new }
    ensures rest { drop result.written page.new ≡ drop result.written page.old }
    ensures returns { Returns (map string_bytes words.now) source.now (length page.old) (take result.written page.new) result.status }
{
    match read_words(alloc, words) {
        Ok(Some(command)) => answer_command(alloc, command, source, page),
        Ok(None) => Answer {
            status: Status::Words,
            written: 0,
        },
        Err(_) => Answer {
            status: Status::NoMemory,
            written: 0,
        },
    }
}

// The lines of a string, each as a word.
fn words_of(alloc: Global, text: &str) -> Result<Vec<String>, AllocError>
    ensures { IfOk result (λ words. map string_bytes words.items ≡ lines text.now) }
{
    let mut words = Vec::new(alloc);
    for line in text.lines() {
        words.push(line.to_string(alloc)?)?;
    }
    Ok(words)
}

// Answers the lines of a string, which are the words, for a source. Bytes that are no UTF-8 are no command line.
pub fn answer_lines(alloc: Global, text: &[u8], source: &[u8], page: &mut [u8]) -> Answer
    ensures within { result.written ≤ length page.new }
    ensures rest { drop result.written page.new ≡ drop result.written page.old }
    ensures returns { ReturnsNumber text.now source.now (length page.old) (take result.written page.new) (exit_number result.status) }
{
    let Ok(text) = str::from_utf8(text) else {
        return Answer {
            status: Status::Words,
            written: 0,
        };
    };
    let Ok(words) = words_of(alloc, text) else {
        return Answer {
            status: Status::NoMemory,
            written: 0,
        };
    };
    answer_words(alloc, &words, source, page)
}

// The number of a status, which is the exit status of the program.
pub fn number_of(status: Status) -> u8
    ensures { result ≡ exit_number status }
{
    status as u8
}
