// `check`: the effect and the signature of a program.
ghost use Rattle.std.specs.Prelude.{◌≡◌, ◌≤◌, [], length};
ghost use Rattle.fing_text.specs.Writes.{Wrote};
ghost use Rattle.sig_definitions.specs.Signatures.Alike.{NormalAbs};
ghost use Rattle.sig_definitions.specs.Signatures.Encoding.{enc_abs};
ghost use Rattle.sig_text.specs.SigText.{elab_text};
ghost use Rattle.fing_top.specs.Answer.{limit, AnswersBytes, change, output};
ghost use Rattle.fing_words.specs.declared.command_line.CommandLine.TheVariants as command;

use crate::compiling::{Compiled, compile};
use crate::pages::put_elab;
use crate::refusing::{has_short_line, write_line};
use crate::status::{Status, status_of};
use fing_text::{Sink, WriteFault};
use omega_checker::Checked;
use std::alloc::Global;

// Writes the effect and the signature of a program. The signature is closed, and neither it nor its encoding is higher than
// 8,192, so each variable in it is in scope, with a level below 2^64.
fn put_signature<K: Sink>(alloc: Global, sink: &mut K, found: &Compiled) -> Result<(), WriteFault>
    requires normal { NormalAbs [] found.now.sig }
    requires encoded { found.now.checked.ty ≡ enc_abs found.now.sig }
    ensures { Wrote (K.told sink.old) (K.told sink.new) (elab_text found.now.effect found.now.sig) result }
{
    let _heights = (found.sig.extent(), found.checked.ty().extent());
    put_elab(alloc, sink, found.effect, &found.sig)
}

/// Answers `check` for all the bytes of a source, of which there are at most 1,048,576: writes the effect and the
/// signature of the program, with status `Ok`, or the line of the refusal, with `Refused`. `WriteFault` comes in place
/// of either where a write failed, and then a prefix of that text was written; `NoMemory` is want of memory, and then
/// nothing was written. Where the text, whole or a prefix of it, is that of a program that means something, `confirmed`
/// becomes what the checker made of the program's whole term; on a refusal and with `NoMemory` it stands as it was.
pub fn check<K: Sink>(
    alloc: Global,
    bytes: &[u8],
    sink: &mut K,
    confirmed: &mut Option<Checked>,
) -> Status
    requires { length bytes.now ≤ limit }
    ensures { AnswersBytes command.Check bytes.now
        (output (change (K.told sink.old) (K.told sink.new)) (change confirmed.old confirmed.new)) result }
{
    match compile(alloc, bytes) {
        Ok(found) if found.sig.extent().is_written() => {
            let wrote = put_signature(alloc, sink, &found);
            *confirmed = Some(found.checked);
            status_of(wrote, Status::Ok)
        }
        Err(why) if has_short_line(&why) => status_of(write_line(sink, &why), Status::Refused),
        _ => Status::NoMemory,
    }
}
