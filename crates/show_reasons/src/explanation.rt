// What is said of a sort of refusal.
use omega_kinds::Mem;
use show_text::Page;

/// The sentence of a sort of refusal, in which each `#` stands for something that the refusal tells, a hint that often
/// helps, and the anchor of its section in docs/errors.md.
#[derive(Clone, Copy, Debug, PartialEq, Eq)]
pub struct Explanation {
    pub sentence: &'static str,
    pub hint: &'static str,
    pub anchor: &'static str,
}

// A word that is missing between two lines: what comes next was read as an argument.
pub(crate) const NEXT_LINE: &str =
    "The end of a line ends nothing. Is `val`, `type` or `module` missing after this phrase?";

// A recursive type where a type that it unfolds to is needed, or the other way round.
pub(crate) const ROLLED: &str =
    "`roll` makes a value of a recursive type, and `unroll` gives back what was rolled: is one missing here?";

// What is said where memory ran out.
pub(crate) const NO_MEMORY: Explanation = Explanation {
    sentence: "Nothing is known of the source.",
    hint: "Types can be much larger than the source that makes them.",
    anchor: "input-output-and-memory",
};

// An explanation of these three.
pub(crate) fn explained(
    sentence: &'static str,
    hint: &'static str,
    anchor: &'static str,
) -> Explanation {
    Explanation {
        sentence,
        hint,
        anchor,
    }
}

/// Writes the hint, and which section of docs/errors.md explains the refusal. `Err` is out of memory.
pub fn put_end(page: &mut Page, explanation: Explanation) -> Result<(), Mem> {
    page.put_all(&[
        b"hint: ",
        explanation.hint.as_bytes(),
        b"\nsee docs/errors.md#",
        explanation.anchor.as_bytes(),
        b"\n",
    ])
}
