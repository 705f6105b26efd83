// `emit`: the encoded signature and the whole term of a program as Omega text, or its simplified term.
ghost use Rattle.std.specs.Prelude.{◌≤◌, ℕ, List, length, true, false, IfErr, IfOk};
ghost use Rattle.fing_text.specs.Writes.{Wrote};
ghost use Rattle.omega_terms.specs.OmegaText.{omega_text};
ghost use Rattle.fing_words.specs.declared.command_line.CommandLine.{CommandLine};
ghost use Rattle.fing_words.specs.declared.command_line.CommandLine.TheVariants as command;
ghost use Rattle.fing_top.specs.Answer.{limit, AnswersBytes, change, output};
ghost use Rattle.fing_top.specs.Inner.Compiled.{IsConfirmed, IsEmission, IsRefused};
ghost use Rattle.fing_top.specs.Meaning.{one_program};

use crate::compiling::{compile, compile_simplified};
use crate::pages::put_omega;
use crate::refusing::{Refused, has_short_line, write_line};
use crate::status::{Status, status_of};
use fing_text::{Sink, WriteFault};
use omega_checker::Checked;
use std::alloc::Global;

/// Answers `emit` for all the bytes of a source, of which there are at most 1,048,576: writes the Omega text of the
/// encoded signature and the whole term, with status `Ok`, or the line of the refusal, with `Refused`. `WriteFault`
/// comes in place of either where a write failed, and then a prefix of that text was written; `NoMemory` is want of
/// memory, and then nothing was written. Where the text, whole or a prefix of it, is that of a program that means
/// something, `confirmed` becomes what the checker made of that type and term; on a refusal and with `NoMemory` it
/// stands as it was.
pub fn emit<K: Sink>(
    alloc: Global,
    bytes: &[u8],
    sink: &mut K,
    confirmed: &mut Option<Checked>,
) -> Status
    requires { length bytes.now ≤ limit }
    ensures { AnswersBytes (command.Emit false) bytes.now
        (output (change (K.told sink.old) (K.told sink.new)) (change confirmed.old confirmed.new)) result }
{
    put_emission(alloc, whole(alloc, bytes), sink, confirmed)
}

/// Answers `emit --simplify`: as `emit`, with the simplified term in place of the whole term. It is the simplified term
/// that the checker confirms, before anything is written, and of which `confirmed` tells.
pub fn emit_simplified<K: Sink>(
    alloc: Global,
    bytes: &[u8],
    sink: &mut K,
    confirmed: &mut Option<Checked>,
) -> Status
    requires { length bytes.now ≤ limit }
    ensures { AnswersBytes (command.Emit true) bytes.now
        (output (change (K.told sink.old) (K.told sink.new)) (change confirmed.old confirmed.new)) result }
{
    put_emission(alloc, compile_simplified(alloc, bytes), sink, confirmed)
}

// What the checker made of the whole term of a program, or why the source is refused.
fn whole(alloc: Global, bytes: &[u8]) -> Result<Checked, Refused>
    requires { length bytes.now ≤ limit }
    ensures confirmed { IfOk result (λ j. IsConfirmed one_program false bytes.now j) }
    ensures refused { IfErr result (IsRefused one_program bytes.now) }
{
    Ok(compile(alloc, bytes)?.checked)
}

// Writes a type and a term that were confirmed as Omega text, or the line of a refusal, as the reply to whatever bytes.
pub(crate) fn put_emission<K: Sink>(
    alloc: Global,
    made: Result<Checked, Refused>,
    sink: &mut K,
    confirmed: &mut Option<Checked>,
) -> Status
    ensures { (command : CommandLine) (bytes : List ℕ) → IsEmission command bytes made → AnswersBytes command bytes
        (output (change (K.told sink.old) (K.told sink.new)) (change confirmed.old confirmed.new)) result }
{
    match made {
        Ok(checked) if is_short(&checked) => {
            let wrote = put_checked(alloc, sink, &checked);
            *confirmed = Some(checked);
            status_of(wrote, Status::Ok)
        }
        Err(why) if has_short_line(&why) => status_of(write_line(sink, &why), Status::Refused),
        _ => Status::NoMemory,
    }
}

// Whether the text of a type and a term that were confirmed is short enough to be written: at most 268,435,456 forms.
fn is_short(checked: &Checked) -> bool {
    let ty = checked.ty().extent();
    let term = checked.term().extent();
    ty.beside(term).is_written()
}

// Writes a type and a term that were confirmed as Omega text. Both are closed, and no tree is higher than 8,192, so each
// variable in them is in scope, with a level below 2^64.
fn put_checked<K: Sink>(alloc: Global, sink: &mut K, checked: &Checked) -> Result<(), WriteFault>
    ensures { Wrote (K.told sink.old) (K.told sink.new) (omega_text checked.now.ty checked.now.term) result }
{
    let ty = checked.ty();
    let term = checked.term();
    let _heights = (ty.extent(), term.extent());
    put_omega(alloc, sink, ty, term)
}
