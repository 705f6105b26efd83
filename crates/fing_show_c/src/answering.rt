// The answer to a view and a source: a status, and the page in its room.
ghost use Rattle.std.specs.Prelude.{◌≡◌, ◌≤◌, ◌<◌, MatchOption, ℕ, length, take, drop};
ghost use Rattle.fing_show_c.specs.Inner.Returns.{IsWritten, Returns, exit_number, page_status};

use fing_show::{Form, Shown, Verdict, View, show};
use fing_text::SOURCE_LIMIT;
use std::alloc::Global;

// How many steps of a run are shown, and the budget of the run: those of `fing-show --steps`.
const SHOWN_STEPS: u64 = 20;

const BUDGET: u64 = 1000000;

/// How a call ends; its number is the status that the call returns.
#[derive(Clone, Copy, Debug, PartialEq, Eq)]
pub enum Status {
    /// The page of a source that is accepted was written.
    Accepted = 0,
    /// The page of a refusal was written.
    Refused = 1,
    /// No view has this number.
    NoView = 2,
    /// The page is longer than the room for it, which its beginning fills.
    Cut = 6,
    /// Want of memory.
    NoMemory = 7,
    /// The source has more than 1,048,576 bytes.
    TooLong = 8,
}

/// A status, and how many bytes were written to the beginning of the page.
#[derive(Clone, Copy)]
pub struct Answer {
    pub status: Status,
    pub written: usize,
}

// An answer with nothing written.
fn without_page(status: Status) -> Answer
    ensures { result ≡ record { status = status; written = 0 } }
{
    Answer { status, written: 0 }
}

// The view with a number.
fn view_of(number: u8) -> Option<View>
    ensures { MatchOption result (8 ≤ number) (λ _. number < 8) }
{
    match number {
        0 => Some(View::Source),
        1 => Some(View::Paper),
        2 => Some(View::Latex),
        3 => Some(View::Term),
        4 => Some(View::TermLatex),
        5 => Some(View::Steps {
            shown: SHOWN_STEPS,
            budget: BUDGET,
        }),
        6 => Some(View::Derivation(Form::Text)),
        7 => Some(View::Derivation(Form::Html)),
        _ => None,
    }
}

// The status of a page that was written whole.
fn status_of(verdict: Verdict) -> Status
    ensures { result ≡ page_status verdict }
{
    match verdict {
        Verdict::Accepted => Status::Accepted,
        Verdict::NoTokens(_) | Verdict::NoProgram { .. } | Verdict::NoMeaning { .. } => {
            Status::Refused
        }
    }
}

// Copies as much of a text as there is room for to the beginning of a page, and gives how many bytes that is.
fn copy_beginning(text: &[u8], page: &mut [u8]) -> usize
    ensures within { result ≤ length page.new }
    ensures written { take result page.new ≡ take result text.now }
    ensures full { result < length text.now → result ≡ length page.old }
    ensures rest { drop result page.new ≡ drop result page.old }
{
    let count = text.len().min(page.len());
    page[..count].copy_from_slice(&text[..count]);
    count
}

// Answers with what is shown, of which as much is written as the page holds.
fn answer_shown(shown: &Shown, page: &mut [u8]) -> Answer
    ensures within { result.written ≤ length page.new }
    ensures rest { drop result.written page.new ≡ drop result.written page.old }
    ensures status { IsWritten shown.now.verdict shown.now.text.items (length page.old) (take result.written page.new) result.status }
{
    let written = copy_beginning(&shown.text, page);
    let status = if written < shown.text.len() {
        Status::Cut
    } else {
        status_of(shown.verdict)
    };
    Answer { status, written }
}

// Answers a view for a source of at most 1,048,576 bytes.
fn answer_view(alloc: Global, view: View, name: &[u8], source: &[u8], page: &mut [u8]) -> Answer
    requires { length source.now ≤ SOURCE_LIMIT }
    ensures within { result.written ≤ length page.new }
    ensures rest { drop result.written page.new ≡ drop result.written page.old }
    ensures returns { (number : ℕ) → number < 8 → Returns number source.now (length page.old) (take result.written page.new) result.status }
{
    match show(alloc, name, source, view) {
        Ok(shown) => answer_shown(&shown, page),
        Err(_) => without_page(Status::NoMemory),
    }
}

/// Answers the view with a number for a source that a page calls by the name.
pub fn answer_page(alloc: Global, view: u8, name: &[u8], source: &[u8], page: &mut [u8]) -> Answer
    ensures within { result.written ≤ length page.new }
    ensures rest { drop result.written page.new ≡ drop result.written page.old }
    ensures returns { Returns view source.now (length page.old) (take result.written page.new) result.status }
{
    let Some(view) = view_of(view) else {
        return without_page(Status::NoView);
    };
    if source.len() > SOURCE_LIMIT {
        return without_page(Status::TooLong);
    }
    answer_view(alloc, view, name, source, page)
}

/// The number of a status.
pub fn number_of(status: Status) -> u8
    ensures { result ≡ exit_number status }
{
    status as u8
}
