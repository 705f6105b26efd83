// `run`: the outcome of a program's whole term within a budget of steps.
ghost use Rattle.std.specs.Prelude.{◌≡◌, ◌≤◌, length, IfErr, IfOk};
ghost use Rattle.fing_text.specs.Writes.{Wrote};
ghost use Rattle.omega_machine.specs.Inner.Outcomes.{Tells};
ghost use Rattle.fing_top.specs.Answer.{limit, AnswersBytes, change, output};
ghost use Rattle.fing_top.specs.Inner.Compiled.{IsCompiled, IsRefused};
ghost use Rattle.fing_top.specs.Meaning.{one_program};
ghost use Rattle.fing_top.specs.Inner.Ending.{ending_status, ending_text};
ghost use Rattle.fing_words.specs.declared.command_line.CommandLine.TheVariants as command;

use crate::compiling::{Compiled, compile};
use crate::refusing::{Refused, has_short_line, write_line, write_numbered};
use crate::status::{Status, status_of};
use fing_text::{Sink, WriteFault, put};
use omega_checker::Checked;
use omega_machine::{Arith, End, run as evaluate};
use std::alloc::Global;

// What a source's bytes are compiled into, and what its term comes to; or why they are refused.
pub(crate) fn evaluated(
    alloc: Global,
    budget: u32,
    bytes: &[u8],
) -> Result<(Compiled, End), Refused>
    requires { length bytes.now ≤ limit }
    ensures compiled { IfOk result (λ o. IsCompiled bytes.now o.0) }
    ensures told { IfOk result (λ o. Tells o.0.checked.term budget o.1) }
    ensures refused { IfErr result (IsRefused one_program bytes.now) }
{
    let found = compile(alloc, bytes)?;
    let end = evaluate(alloc, &found.checked, budget as u64)?;
    Ok((found, end))
}

// The status of an outcome.
pub(crate) fn status_at(end: &End) -> Status
    ensures { result ≡ ending_status end.now }
{
    match end {
        End::Value { .. } => Status::Ok,
        End::Fault { .. } => Status::Faulted,
        End::Spent => Status::Spent,
    }
}

// Writes an outcome within a budget. Takes no memory.
pub(crate) fn write_end<K: Sink>(sink: &mut K, budget: u32, end: &End) -> Result<(), WriteFault>
    ensures { Wrote (K.told sink.old) (K.told sink.new) (ending_text budget end.now) result }
{
    match end {
        End::Value { shown, .. } => put(sink, shown.bytes()),
        End::Fault { fault, .. } => match fault {
            Arith::Overflow => put(sink, b"fault Overflow\n"),
            Arith::DivideByZero => put(sink, b"fault DivideByZero\n"),
        },
        End::Spent => write_numbered(sink, b"spent ", budget),
    }
}

/// Answers `run` with a budget in steps for all the bytes of a source, of which there are at most 1,048,576: writes the
/// value that the program's whole term comes to in at most so many steps, with status `Ok`, or the fault that it meets,
/// with `Faulted`, or that the budget is spent, with `Spent`; or the line of the refusal, with `Refused`. `WriteFault`
/// comes in place of any of these where a write failed, and then a prefix of that text was written; `NoMemory` is want
/// of memory, and then nothing was written. Where the text, whole or a prefix of it, is that of a program that means
/// something, `confirmed` becomes what the checker made of the program's whole term; on a refusal and with `NoMemory`
/// it stands as it was.
pub fn run<K: Sink>(
    alloc: Global,
    budget: u32,
    bytes: &[u8],
    sink: &mut K,
    confirmed: &mut Option<Checked>,
) -> Status
    requires { length bytes.now ≤ limit }
    ensures { AnswersBytes (command.Run budget) bytes.now
        (output (change (K.told sink.old) (K.told sink.new)) (change confirmed.old confirmed.new)) result }
{
    match evaluated(alloc, budget, bytes) {
        Ok((found, end)) => {
            let wrote = write_end(sink, budget, &end);
            *confirmed = Some(found.checked);
            status_of(wrote, status_at(&end))
        }
        Err(why) if has_short_line(&why) => status_of(write_line(sink, &why), Status::Refused),
        _ => Status::NoMemory,
    }
}
