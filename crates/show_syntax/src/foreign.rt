// Words of other languages, and what to write here.

const FOREIGN: [(&str, &str); 9] = [
    (
        "open",
        "Write `include M`, or name components with their paths, as `M.x`.",
    ),
    (
        "structure",
        "A structure is bound by `module M = struct .. end`.",
    ),
    (
        "functor",
        "A functor is bound by `module F = fun (X : S) => struct .. end`.",
    ),
    (
        "with",
        "A type of a signature is made equal to another by `S where type t = Int`.",
    ),
    (
        "datatype",
        "A recursive type is bound by `data t = case {a : Int, b : t}`.",
    ),
    ("fn", "A function is written `fun (x : Int) => x`."),
    (
        "and",
        "Each binding begins with its own `val`, `type` or `module`.",
    ),
    (
        "rec",
        "A recursive function is bound by `val f = fix f (x : Int) : Int => ..`.",
    ),
    (
        "sharing",
        "There is no `sharing`: `where type t = u` makes two types of a signature equal.",
    ),
];

/// What to write in place of a word of another language; `None` for any other word.
pub(crate) fn foreign(word: &[u8]) -> Option<&'static str> {
    for row in &FOREIGN {
        if row.0.as_bytes() == word {
            return Some(row.1);
        }
    }
    None
}
