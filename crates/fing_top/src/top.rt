// The top call.
ghost use Rattle.std.specs.Prelude.{◌≡◌, ◌≤◌, ℕ, List, length, map, IfOk, MatchResult};
ghost use Rattle.std.specs.String.{string_bytes};
ghost use Rattle.fing_words.specs.CommandLines.{IsCommandLine};
ghost use Rattle.fing_top.specs.Meaning.{MeanOrRefused};
ghost use Rattle.fing_top.specs.Emission.{EmittedIsVerified, HandsOut, IsLow};
ghost use Rattle.fing_top.specs.Reply.{OneReply, EachReplied};
ghost use Rattle.fing_top.specs.Answer.{limit, AnswersBytes, Answers, Completes, Takes, Lacks, change, output};
ghost use Rattle.fing_top.specs.Words.{IsSized};

use crate::checking::check;
use crate::counting::count;
use crate::emitting::{emit, emit_simplified};
use crate::linking::link;
use crate::running::run;
use crate::status::Status;
use crate::verifying::verify;
use fing_gen::source_of;
use fing_text::{ReadEnd, SOURCE_LIMIT, Sink, Source, read_all};
use fing_words::{CommandLine, read_words};
use omega_checker::Checked;
use omega_kinds::Mem;
use std::alloc::Global;

// The bytes that a command answers for: all those of the source; or, for `gen`, the generated program, and then the source
// is not read.
fn taken<S: Source>(alloc: Global, command: CommandLine, source: &mut S) -> Result<Vec<u8>, ReadEnd>
    requires { IsSized command }
    ensures taken { MatchResult result
        (λ bytes. Takes command (change (S.told source.old) (S.told source.new)) bytes.items)
        (Lacks command (change (S.told source.old) (S.told source.new))) }
    ensures within { IfOk result (λ bytes. length bytes.items ≤ limit) }
{
    if let CommandLine::Gen { size } = command {
        return source_of(alloc, size).map_err(|_| ReadEnd::Mem);
    }
    read_all(alloc, source, SOURCE_LIMIT)
}

/// Answers a command for all its bytes, of which there are at most 1,048,576, and reads no source. The bytes are those
/// that a source has, or for `gen` those of the generated program.
///
/// It writes the one reply to them, with the reply's own status: `Ok`, `Refused`, `Faulted` or `Spent`. `WriteFault`
/// comes in place of this status only where the sink's count of faults rose, and then a prefix of the reply was written,
/// and not all of it. `NoMemory` means out of memory, and then nothing was written. There is no other status. Where the
/// reply's own status is `Ok`, `Faulted` or `Spent`, `confirmed` becomes what the checker made of the term and the type
/// that were derived or read, also where a write failed; else it stays as it was.
pub fn reply<K: Sink>(
    alloc: Global,
    command: CommandLine,
    bytes: &[u8],
    sink: &mut K,
    confirmed: &mut Option<Checked>,
) -> Status
    requires { length bytes.now ≤ limit }
    ensures { AnswersBytes command bytes.now
        (output (change (K.told sink.old) (K.told sink.new)) (change confirmed.old confirmed.new)) result }
{
    match command {
        CommandLine::Check => check(alloc, bytes, sink, confirmed),
        CommandLine::Emit { simplify: false } => emit(alloc, bytes, sink, confirmed),
        CommandLine::Emit { simplify: true } => emit_simplified(alloc, bytes, sink, confirmed),
        CommandLine::Run { budget } => run(alloc, budget, bytes, sink, confirmed),
        CommandLine::Verify => verify(alloc, bytes, sink, confirmed),
        CommandLine::Gen { .. } => count(alloc, bytes, sink, confirmed),
        CommandLine::Link => link(alloc, bytes, sink, confirmed),
    }
}

// No type or term that was confirmed is higher than 8,192.
fn look_at_heights(confirmed: &Option<Checked>)
    ensures { IsLow confirmed.now }
{
    if let Some(checked) = confirmed {
        let _heights = (checked.ty().extent(), checked.term().extent());
    }
}

// Answers a command for a source, read to its end where the command reads it.
fn answered<S: Source, K: Sink>(
    alloc: Global,
    command: CommandLine,
    source: &mut S,
    sink: &mut K,
    confirmed: &mut Option<Checked>,
) -> Status
    requires { IsSized command }
    ensures answers { (words : List (List ℕ)) → IsCommandLine words command → Answers words (change (S.told source.old) (S.told source.new))
        (output (change (K.told sink.old) (K.told sink.new)) (change confirmed.old confirmed.new)) result }
    ensures completes { (words : List (List ℕ)) → IsCommandLine words command → Completes words (change (S.told source.old) (S.told source.new))
        (output (change (K.told sink.old) (K.told sink.new)) (change confirmed.old confirmed.new)) result }
    ensures reads_back { (words : List (List ℕ)) → IsCommandLine words command → HandsOut words
        (output (change (K.told sink.old) (K.told sink.new)) (change confirmed.old confirmed.new)) result }
{
    match taken(alloc, command, source) {
        Ok(bytes) => {
            let status = reply(alloc, command, &bytes, sink, confirmed);
            look_at_heights(confirmed);
            status
        }
        Err(ReadEnd::ReadFault) => Status::ReadFault,
        Err(ReadEnd::TooLong) => Status::TooLong,
        Err(ReadEnd::Mem) => Status::NoMemory,
    }
}

/// Does all that the program does: `words` are those after the program's name.
///
/// It reads the source to its end, but for `gen`, which leaves it as it was. For `check` it writes the effect and the
/// signature of the program, for `emit` the Omega text of its encoded signature and its whole term, or of the simplified
/// term where `--simplify` is given, and for `link`, whose source is separate units, the Omega text of the signature and
/// the whole term to which they link, each with status `Ok`; for `run` the value that the term comes to within the budget
/// with status `Ok`, its fault with `Faulted`, or the budget with `Spent`. `gen` compiles and runs the generated program of its size, within 10,000,000 steps, and
/// writes how many bindings the program has, how many nodes its whole term, and in how many steps the term comes to a
/// value, with status `Ok`; where it comes to none, it writes what `run` does. `check`, `emit`, `link` and `run` write the
/// line of the refusal with status `Refused` where the source has none of these. For `verify`, whose source is Omega text,
/// it writes `well typed` with status `Ok`, or the line of the first refusal with status `Refused`. Where the reply's
/// own status is `Ok`, `Faulted` or `Spent`, `confirmed` becomes what the checker made of the term and the type that
/// were derived or read, also where a write failed; else it stands as it was.
///
/// The other statuses come in this order: `Words` where the words are no command line, and then the source stands;
/// `ReadFault` where a read failed, after at most 1,048,576 bytes; `TooLong` where the source that is read has more
/// than 1,048,576 bytes, of which one more than these was taken; `WriteFault`, in place of the reply's own status,
/// where a write failed. `NoMemory` is want of memory, at any place: the source then lost at most 1,048,577 bytes, and
/// none where the words are no command line of a command that reads it. With `Words`, `ReadFault`, `TooLong` and
/// `NoMemory` nothing is written, and with `WriteFault` a prefix of the reply. `Words`, `ReadFault`, `TooLong` and
/// `WriteFault` come only so. That a read or a write failed is told by the count of faults of the source or the sink:
/// it rose, or stands at its last value, 2^64 - 1.
///
/// Where `emit`, with or without `--simplify`, or `link` answers `Ok`, what was written is Omega text of the term and the
/// type that `confirmed` tells of. If no more than 4,000 parentheses are open in it, `omega_read::read` answers these two
/// for it, or out of memory, and the reply of `verify` to it is `well typed`.
pub fn fing<S: Source, K: Sink>(
    alloc: Global,
    words: &[String],
    source: &mut S,
    sink: &mut K,
    confirmed: &mut Option<Checked>,
) -> Status
    ensures answers { Answers (map string_bytes words.now) (change (S.told source.old) (S.told source.new))
        (output (change (K.told sink.old) (K.told sink.new)) (change confirmed.old confirmed.new)) result }
    ensures completes { Completes (map string_bytes words.now) (change (S.told source.old) (S.told source.new))
        (output (change (K.told sink.old) (K.told sink.new)) (change confirmed.old confirmed.new)) result }
    ensures reads_back { HandsOut (map string_bytes words.now)
        (output (change (K.told sink.old) (K.told sink.new)) (change confirmed.old confirmed.new)) result }
{
    match read_words(alloc, words) {
        Ok(Some(command)) => answered(alloc, command, source, sink, confirmed),
        Ok(None) => Status::Words,
        Err(Mem) => Status::NoMemory,
    }
}

/// A command has exactly one reply to each string of bytes: one at most, and there is one.
pub fn one_reply()
    ensures one { OneReply }
    ensures each { EachReplied }
{}

/// Each string of bytes has exactly one meaning, by the rules, as a program and as separate units, or exactly one refusal,
/// and never both.
pub fn one_meaning()
    ensures { MeanOrRefused }
{}

/// Let `emit`, with or without `--simplify`, or `link` write a text for a source that means something. If no more than 4,000
/// parentheses are open in it, it is a text of the type and the term that were confirmed for it, `omega_read::read` answers
/// both for it, or out of memory, and the reply of `verify` to it is `well typed`. However many are open, it is such a text
/// if the type is of height 2^64 at most and the term of height 2^63, so that each level of a variable is a number of 64
/// bits; no tree of the program is higher than 8,192.
pub fn emitted_is_verified()
    ensures { EmittedIsVerified }
{}
