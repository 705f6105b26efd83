// The library for programs in other languages: one call, which takes the words and the source as bytes and gives the
// status and the reply. Stands on fing_words (words), fing_gen (the generated program) and fing_top (the reply).
// Proved: the status and the bytes that are written are those of the one reply to exactly these words and this source.
// The reply is cut exactly where it is longer than the page, which its prefix then fills. A status that has no reply
// writes nothing and has its cause, which for out of memory no clause names. A failed read is never answered.
#![tactic(auto)]

ghost use Rattle.std.specs.Prelude.{◌≡◌, ◌≤◌, length, take, drop};
ghost use Rattle.fing_c.specs.Inner.Returns.{ReturnsNumber};

mod answering;
mod draft;

use crate::answering::{answer_lines, number_of};
use std::alloc::Global;

/// Does what the program `fing` does, over memory.
///
/// `words` is a UTF-8 string with one word a line, as `run`, `--budget` and `100` on three lines, and `source` is what
/// the program reads. The reply is written to the beginning of `page`, whose rest stays as it was, and `written` becomes
/// the number of bytes that were written. The result is the exit status of the program: 0 where the source is accepted,
/// 1 where it is refused, 3 where a run met a fault and 4 where it spent its budget.
///
/// The other statuses have no whole reply. With 6 the reply is longer than the page, which its prefix then fills.
/// Nothing is written with 2, where the words are no command line; with 7, out of memory; and with 8, where the source
/// has more than 1,048,576 bytes and the command reads it. Nothing is kept once the call returns.
#[unsafe(no_mangle)]
pub extern "C" fn fing_reply(
    alloc: Global,
    words: &[u8],
    source: &[u8],
    page: &mut [u8],
    written: &mut usize,
) -> u8
    ensures within { written.new ≤ length page.new }
    ensures rest { drop written.new page.new ≡ drop written.new page.old }
    ensures returns { ReturnsNumber words.now source.now (length page.old) (take written.new page.new) result }
{
    let answer = answer_lines(alloc, words, source, page);
    *written = answer.written;
    number_of(answer.status)
}
