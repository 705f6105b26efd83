// The statuses of the program.
ghost use Rattle.std.specs.Prelude.{◌≡◌, MatchResult};
ghost use Rattle.std.specs.Process.{exit_status};
ghost use Rattle.fing_top.specs.Exit.{exit_number};
ghost use Rattle.fing_top.specs.declared.status.Status.TheVariants as answer;

use fing_text::WriteFault;
use std::process::ExitCode;

/// How the program ends; the exit status is the number.
#[derive(Clone, Copy, Debug, PartialEq, Eq)]
pub enum Status {
    /// The reply of a source that is accepted was written.
    Ok = 0,
    /// The line of a refusal was written.
    Refused = 1,
    /// The words are no command line. So they are where one is no UTF-8.
    Words = 2,
    /// The run of the program met an arithmetic fault.
    Faulted = 3,
    /// The run of the program spent its budget.
    Spent = 4,
    /// A read of the source failed.
    ReadFault = 5,
    /// A write of the reply failed; a prefix of it was written.
    WriteFault = 6,
    /// Want of memory; nothing was written.
    NoMemory = 7,
    /// The source has more than 1,048,576 bytes.
    TooLong = 8,
}

/// The status of a reply that was written so.
pub fn status_of(wrote: Result<(), WriteFault>, status: Status) -> Status
    ensures { MatchResult wrote (λ _. result ≡ status) (λ _. result ≡ answer.WriteFault) }
{
    match wrote {
        Ok(()) => status,
        Err(WriteFault) => Status::WriteFault,
    }
}

/// The exit status of an answer: its number, from 0 for `Ok` to 8 for `TooLong`.
pub fn exit_code(status: Status) -> ExitCode
    ensures { exit_status result ≡ exit_number status }
{
    ExitCode::from(status as u8)
}
