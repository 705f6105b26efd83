// `gen`: how many bindings, nodes and steps a program has.
ghost use Rattle.std.specs.Prelude.{◌≡◌, ◌≤◌, ℕ, length};
ghost use Rattle.fing_text.specs.Writes.{Wrote};
ghost use Rattle.fing_words.specs.declared.command_line.CommandLine.TheVariants as command;
ghost use Rattle.fing_top.specs.Answer.{limit, AnswersBytes, change, output};
ghost use Rattle.fing_top.specs.Counts.{node_count, counts_line};
ghost use Rattle.fing_top.specs.Inner.Ending.{counted_text};

use crate::compiling::Compiled;
use crate::refusing::{has_short_line, write_line};
use crate::running::{evaluated, status_at, write_end};
use crate::status::{Status, status_of};
use fing_text::{Sink, WriteFault, put_all};
use itoa::Buffer;
use omega_checker::Checked;
use omega_machine::End;
use omega_terms::nodes;
use std::alloc::Global;

// The most steps that a program may take.
const MOST_STEPS: u32 = 10000000;

// The nodes of the whole term without its types, or the greatest `u64` where there are more.
fn node_total(found: &Compiled) -> u64
    ensures { result ≡ node_count found.now.checked.term }
{
    nodes(found.checked.term())
}

// Writes the line of so many bindings, nodes and steps.
fn write_totals<K: Sink>(
    sink: &mut K,
    bindings: usize,
    nodes: u64,
    steps: u64,
) -> Result<(), WriteFault>
    ensures { Wrote (K.told sink.old) (K.told sink.new) (counts_line bindings nodes steps) result }
{
    let mut of_bindings = Buffer::new();
    let mut of_nodes = Buffer::new();
    let mut of_steps = Buffer::new();
    let pieces = [
        b"bindings ".as_slice(),
        of_bindings.format(bindings).as_bytes(),
        b" nodes ",
        of_nodes.format(nodes).as_bytes(),
        b" steps ",
        of_steps.format(steps).as_bytes(),
        b"\n",
    ];
    put_all(sink, &pieces)
}

// Writes the counts of a program that comes to a value within a budget, or what `run` writes of one that does not. Takes
// no memory.
fn write_counts<K: Sink>(
    sink: &mut K,
    budget: u32,
    found: &Compiled,
    end: &End,
) -> Result<(), WriteFault>
    ensures { Wrote (K.told sink.old) (K.told sink.new)
        (counted_text budget found.now.bindings (node_count found.now.checked.term) end.now) result }
{
    match end {
        End::Value { steps, .. } => write_totals(sink, found.bindings, node_total(found), *steps),
        _ => write_end(sink, budget, end),
    }
}

/// Answers `gen` for the bytes of a generated program, of which there are at most 1,048,576: writes how many bindings
/// the program has, how many nodes its whole term has without its types, and in how many steps the term comes to a
/// value, with status `Ok`. Where it comes to none within 10,000,000 steps, or means nothing, it writes what `run`
/// writes with that budget, with the status of `run`: `Faulted`, `Spent` or `Refused`. `WriteFault` comes in place of
/// any of these where a write failed, and then a prefix of that text was written; `NoMemory` is want of memory, and then
/// nothing was written. Where the text, whole or a prefix of it, is that of a program that means something, `confirmed`
/// becomes what the checker made of the program's whole term; on a refusal and with `NoMemory` it stands as it was.
pub fn count<K: Sink>(
    alloc: Global,
    bytes: &[u8],
    sink: &mut K,
    confirmed: &mut Option<Checked>,
) -> Status
    requires { length bytes.now ≤ limit }
    ensures { (size : ℕ) → AnswersBytes (command.Gen size) bytes.now
        (output (change (K.told sink.old) (K.told sink.new)) (change confirmed.old confirmed.new)) result }
{
    match evaluated(alloc, MOST_STEPS, bytes) {
        Ok((found, end)) => {
            let wrote = write_counts(sink, MOST_STEPS, &found, &end);
            *confirmed = Some(found.checked);
            status_of(wrote, status_at(&end))
        }
        Err(why) if has_short_line(&why) => status_of(write_line(sink, &why), Status::Refused),
        _ => Status::NoMemory,
    }
}
