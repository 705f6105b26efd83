// What is shown to people, as a static library: one call, which takes a view, a name and a source as bytes and gives the
// status of the verdict and the page. Stands on fing_show (verdicts and pages) and fing_text (the longest source).
// Proved: the call says accepted or refused exactly as the rules do; a page that is cut fills its room; the causes of the
// other statuses, except out of memory, and that nothing is written with them. No clause speaks of what the page says.
#![tactic(auto)]

ghost use Rattle.std.specs.Prelude.{◌≡◌, ◌≤◌, length, take, drop};
ghost use Rattle.fing_show_c.specs.Inner.Returns.{ReturnsNumber};

mod answering;

use crate::answering::{answer_page, number_of};
use std::alloc::Global;

/// Does what the program `fing-show` does, over memory.
///
/// `view` is what is shown of an accepted program: 0 its signature in the syntax of a source, 1 its signature in the
/// notation of the literature, 2 the same in LaTeX, 3 its term in this notation, 4 the same in LaTeX, 5 the first 20 steps
/// of its run with the end that it has within 1,000,000 steps, 6 the tree of the rules that derive it, 7 the same in HTML.
/// `name` is what the page calls the source. The page of the source is written to the beginning of `page`, whose rest stays
/// as it was, and `written` becomes the number of bytes that were written. The result is 0 where the source is accepted,
/// and 1 where it is refused. With view 5 the program `fing-show --steps` also has an exit status for a run that meets a
/// fault and for one that spends its budget; here the source is accepted, and its page says so.
///
/// The other statuses have no whole page. With 6 the page is longer than the room for it, which its beginning then fills.
/// Nothing is written with 2, where no view has this number; with 7, out of memory, also where the page would have more
/// than 64 MiB; and with 8, where the source has more than 1,048,576 bytes. Nothing is kept once the call returns.
#[unsafe(no_mangle)]
pub extern "C" fn fing_show_page(
    alloc: Global,
    view: u8,
    name: &[u8],
    source: &[u8],
    page: &mut [u8],
    written: &mut usize,
) -> u8
    ensures within { written.new ≤ length page.new }
    ensures rest { drop written.new page.new ≡ drop written.new page.old }
    ensures returns { ReturnsNumber view source.now (length page.old) (take written.new page.new) result }
{
    let answer = answer_page(alloc, view, name, source, page);
    *written = answer.written;
    number_of(answer.status)
}
