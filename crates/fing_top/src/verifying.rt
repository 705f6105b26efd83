// `verify`: whether the term of an Omega text has the type of that text.
ghost use Rattle.std.specs.Prelude.{codes, IfOk, IfErr};
ghost use Rattle.fing_text.specs.Writes.{Wrote};
ghost use Rattle.fing_top.specs.Reply.{accepted, refused, VerifyReplies};
ghost use Rattle.fing_top.specs.Answer.{AnswersBytes, change, output};
ghost use Rattle.fing_top.specs.Inner.Verdict.{HasLine, verdict_line};
ghost use Rattle.fing_words.specs.declared.command_line.CommandLine.TheVariants as command;

use crate::status::{Status, status_of};
use fing_text::{Sink, WriteFault, put};
use omega_checker::{Checked, check};
use omega_kinds::Mem;
use omega_read::{ReadRefusal, read};
use std::alloc::Global;

/// Why bytes are no well typed Omega text: the first that holds, in the order `Version`, `TooDeep`, `Wide`, `NotOmega`,
/// `IllTyped`.
#[derive(Clone, Copy, Debug, PartialEq, Eq)]
pub enum Unverified {
    /// The bytes are no Omega text, and no other refusal holds.
    NotOmega,
    /// The text has another version.
    Version,
    /// A number is outside signed 64 bits.
    Wide,
    /// More than 4,000 parentheses are open at once.
    TooDeep,
    /// The typing rules do not give the term the type.
    IllTyped,
    /// Want of memory.
    Mem,
}

impl From<ReadRefusal> for Unverified {
    ghost use Rattle.std.specs.Prelude.{◌≡◌};
    ghost use Rattle.fing_top.specs.Inner.Verdict.{unread};

    ghost from_gives = { λ refusal e. e ≡ unread refusal };

    fn from(refusal: ReadRefusal) -> Unverified {
        match refusal {
            ReadRefusal::NotOmega => Unverified::NotOmega,
            ReadRefusal::Version => Unverified::Version,
            ReadRefusal::Wide => Unverified::Wide,
            ReadRefusal::TooDeep => Unverified::TooDeep,
            ReadRefusal::Mem => Unverified::Mem,
        }
    }
}

impl From<Mem> for Unverified {
    ghost use Rattle.std.specs.Prelude.{◌≡◌};
    ghost use Rattle.fing_top.specs.declared.verifying.Unverified.TheVariants.{Mem as WantOfMemory};

    ghost from_gives = { λ _ e. e ≡ WantOfMemory };

    fn from(_refused: Mem) -> Unverified {
        Unverified::Mem
    }
}

// What the checker made of the text that the bytes are, or why they are refused.
fn verified(alloc: Global, bytes: &[u8]) -> Result<Checked, Unverified>
    ensures accepted { IfOk result (λ c. VerifyReplies bytes.now (accepted c.ty c.term (codes "well typed\n"))) }
    ensures refused { IfErr result (λ why. HasLine why → VerifyReplies bytes.now (refused (verdict_line why))) }
{
    let (ty, term) = read(alloc, bytes)?;
    match check(alloc, term, ty)? {
        Some(checked) => Ok(checked),
        None => Err(Unverified::IllTyped),
    }
}

// Writes the line of a refusal, which is not want of memory. Takes no memory.
fn write_verdict<K: Sink>(sink: &mut K, why: Unverified) -> Result<(), WriteFault>
    requires { HasLine why }
    ensures { Wrote (K.told sink.old) (K.told sink.new) (verdict_line why) result }
{
    match why {
        Unverified::NotOmega => put(sink, b"refused NotOmega\n"),
        Unverified::Version => put(sink, b"refused Version\n"),
        Unverified::Wide => put(sink, b"refused Wide\n"),
        Unverified::TooDeep => put(sink, b"refused TooDeep\n"),
        Unverified::IllTyped => put(sink, b"refused IllTyped\n"),
        Unverified::Mem => unreachable!(),
    }
}

/// Answers `verify` for all the bytes of a source, however many: writes `well typed`, with status `Ok`, or the line of
/// the first refusal, with `Refused`. `WriteFault` comes in place of either where a write failed, and then a prefix of
/// that text was written; `NoMemory` is want of memory, and then nothing was written. Where the text, whole or a prefix
/// of it, is `well typed`, `confirmed` becomes what the checker made of the type and the term that were read; on a
/// refusal and with `NoMemory` it stands as it was.
pub fn verify<K: Sink>(
    alloc: Global,
    bytes: &[u8],
    sink: &mut K,
    confirmed: &mut Option<Checked>,
) -> Status
    ensures { AnswersBytes command.Verify bytes.now
        (output (change (K.told sink.old) (K.told sink.new)) (change confirmed.old confirmed.new)) result }
{
    match verified(alloc, bytes) {
        Ok(checked) => {
            *confirmed = Some(checked);
            status_of(put(sink, b"well typed\n"), Status::Ok)
        }
        Err(Unverified::Mem) => Status::NoMemory,
        Err(why) => status_of(write_verdict(sink, why), Status::Refused),
    }
}
