// What is said of sources without tokens, and of tokens that form no program.
use crate::explanation::{Explanation, NO_MEMORY, explained};
use fing_lexer::LexRefusal;

/// The byte offset of the place that has no token, or is too large or too deep; 0 for out of memory.
pub fn lexical_place(why: LexRefusal) -> u32 {
    match why {
        LexRefusal::BadByte { at }
        | LexRefusal::BadText { at }
        | LexRefusal::Wide { at }
        | LexRefusal::TooDeep { at } => at,
        LexRefusal::Mem => 0,
    }
}

// What is said of bytes with which no token begins.
const BYTES: &str =
    "There are no semicolons, no `>`, `&`, `|` and `!`, and only comments hold bytes outside ASCII.";

// A hint for a byte with which no token begins.
fn byte_hint(byte: u8) -> &'static str {
    match byte {
        b'>' =>
            "There is no `>`: write `y < x` for `x > y`, and `if x < y then false else true` for `x >= y`.",
        b';' =>
            "There are no semicolons: bindings follow one another, and a comma stands between two fields.",
        b'&' => "There is no `&`: write `if x then y else false` for both.",
        b'|' => {
            "There is no `|`: write `if x then true else y` for one of two, and a sum type as `case {a : Int, b : {}}`."
        }
        b'!' => "There is no `!`: write `if x == y then false else true` for `x != y`.",
        b'^' => "There is no `^`, and strings cannot be joined.",
        b'\'' =>
            "A type parameter is `fun [a : Type] => ..`, its type is `[a : Type] -> ..`, and there are no characters.",
        b'~' => "A `~` belongs to a number, and a digit follows it.",
        0xEF =>
            "Only comments hold bytes outside ASCII. At the start of a file it may be a byte order mark: save it without.",
        _ => BYTES,
    }
}

/// What is said of a place that has no token, but this byte.
pub fn lexical_explanation(why: LexRefusal, byte: u8) -> Explanation {
    match why {
        LexRefusal::BadByte { .. } => explained(
            "No token begins here.",
            byte_hint(byte),
            "badbyte-n",
        ),
        LexRefusal::BadText { .. } => explained(
            "This quote begins no string.",
            "Close the string on its line. A backslash is followed by `\"`, `\\` or `n`.",
            "badtext-n",
        ),
        LexRefusal::Wide { .. } => explained(
            "This number is greater than 9223372036854775807.",
            "The least number is written `~9223372036854775807 - 1`.",
            "wide-n",
        ),
        LexRefusal::TooDeep { .. } => explained(
            "This token is nested too deeply: 1,000 levels are allowed.",
            "Divide a long list of bindings into structures: `include struct .. end` keeps their names.",
            "toodeep-n",
        ),
        LexRefusal::Mem => NO_MEMORY,
    }
}

/// What is said of tokens that form no program; the sentence is that for a source which ends too soon. A hint for a slip
/// that is known stands in place of the general one.
pub fn syntax_explanation(slip: Option<&'static str>) -> Explanation {
    let general =
        "The mistake is often earlier: look for a missing `end`, `in` or bracket, or a keyword used as a name.";
    explained(
        "The source ends too soon.",
        slip.unwrap_or(general),
        "syntax-n",
    )
}
