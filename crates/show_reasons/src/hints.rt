// Hints that depend on what a refusal tells, and on what stands around its place.
use crate::explanation::ROLLED;
use fing_lexer::{Token, What, Word};
use fing_refusals::ElabWhy;
use omega_types::TyNode;
use semantic_sigs::{Item, Path};
use type_normal::{NormalTy, plain};

/// What stands around the place of a refusal: the token before it and the one behind it, and the word with which that is
/// bound to which the refused path leads, or which the module has where the signature asks for something else.
#[derive(Clone, Copy)]
pub struct Around<'a> {
    pub before: Option<&'a Token>,
    pub behind: Option<&'a Token>,
    pub bound: Option<Word>,
}

// Names of other languages for what is bound to no name here, and what to write.
const UNBOUND: [(&str, &str); 10] = [
    ("int", "The type of integers is `Int`."),
    ("bool", "The type of booleans is `Bool`."),
    ("string", "The type of strings is `Text`."),
    (
        "unit",
        "There is no unit type: the type of the empty record is `{}`.",
    ),
    (
        "list",
        "No type of lists is built in: `data` makes recursive types.",
    ),
    ("not", "Write `if x then false else true` for not `x`."),
    (
        "ref",
        "There is no state: a function returns the new value.",
    ),
    (
        "open",
        "Write `include M`, or name components with their paths, as `M.x`.",
    ),
    ("fn", "A function is written `fun (x : Int) => x`."),
    (
        "functor",
        "A functor is bound by `module F = fun (X : S) => struct .. end`.",
    ),
];

// Words of other languages that are read as an argument of what stands before them, and what to write.
const ARGUMENTS: [(&str, &str); 8] = [
    ("and", CONJUNCTION),
    ("andalso", CONJUNCTION),
    ("or", DISJUNCTION),
    ("orelse", DISJUNCTION),
    ("mod", "The remainder is written `%`."),
    ("div", "The quotient is written `/`."),
    (
        "open",
        "Write `include M`, or name components with their paths, as `M.x`.",
    ),
    (
        "sharing",
        "There is no `sharing`: `where type t = u` makes two types of a signature equal.",
    ),
];

const CONJUNCTION: &str =
    "Write `if x then y else false` for both, and begin each binding with its own `val` or `type`.";

const DISJUNCTION: &str = "Write `if x then true else y` for one of the two.";

const ANOTHER_WHERE: &str = "There is no `and` here: write `where type` once more.";

const BRANCHES: &str =
    "Both branches of an `if` have one type: this one has the first type, and the one behind `else` the second.";

const GENERATED: &str =
    "A hidden type is equal only to itself, and each `unpack` or use of a generative functor makes new ones. A `fun` that does either is generative.";

const IN_RESULT: &str =
    "The body must bind this type, and the functor be applicative: not `gen`, nor a `fun` that opens a package or applies a generative functor.";

const OTHER_KIND: &str =
    "The type that is there has another kind: only one of the two takes type arguments, or they take others.";

const OTHER_SORT: &str =
    "What is bound there last is no type. All sorts of names share one namespace, so it may hide the type.";

const MODULE_HERE: &str =
    "Name a component: `M.x`, or `from (F X).x` in a functor's result. Or does this module hide what you mean? There is one namespace.";

// A hint that is better than the general one; `None` where there is none.
pub(crate) fn hint_of(why: &ElabWhy, around: Around<'_>) -> Option<&'static str> {
    match why {
        ElabWhy::Unbound(name) => row_of(&UNBOUND, name.bytes()),
        ElabWhy::NotOperator => operator_hint(around),
        ElabWhy::NotArrow(_) | ElabWhy::NotFunctor | ElabWhy::NotAll(_) => argument_hint(around),
        ElabWhy::NoRoot { path, .. } => rootless_hint(path, around.bound),
        ElabWhy::WrongPath => path_hint(around.bound),
        ElabWhy::Differ(found, needed) => differ_hint(found, needed, around),
        _ => None,
    }
}

// What a table has for a word.
fn row_of(rows: &[(&str, &'static str)], word: &[u8]) -> Option<&'static str> {
    for row in rows {
        if row.0.as_bytes() == word {
            return Some(row.1);
        }
    }
    None
}

// The name that a token is.
fn name_of_token(token: Option<&Token>) -> Option<&[u8]> {
    match &token?.what {
        What::Ident(name) => Some(name.bytes()),
        _ => None,
    }
}

// Whether a token is a word.
fn is_word(token: Option<&Token>, wanted: Word) -> bool {
    match token {
        Some(token) => matches!(&token.what, What::Word(word) if *word == wanted),
        None => false,
    }
}

// A hint for a phrase that is followed by a word of another language.
fn argument_hint(around: Around<'_>) -> Option<&'static str> {
    row_of(&ARGUMENTS, name_of_token(around.behind)?)
}

// The same for a type.
fn operator_hint(around: Around<'_>) -> Option<&'static str> {
    if name_of_token(around.behind) == Some(b"and") {
        return Some(ANOTHER_WHERE);
    }
    argument_hint(around)
}

// A hint for a type that is missing, where something else may be bound with a word.
fn rootless_hint(path: &Path, bound: Option<Word>) -> Option<&'static str> {
    if path.items().iter().any(|item| matches!(item, Item::Res)) {
        return Some(IN_RESULT);
    }
    match bound? {
        Word::KwType | Word::KwData => Some(OTHER_KIND),
        _ => Some(OTHER_SORT),
    }
}

// A hint for a path to something that is bound with a word.
fn path_hint(bound: Option<Word>) -> Option<&'static str> {
    match bound? {
        Word::KwModule => Some(MODULE_HERE),
        _ => None,
    }
}

// Whether the type is a recursive one.
pub(crate) fn is_recursive(ty: &NormalTy) -> bool {
    matches!(plain(ty).node(), TyNode::Mu(_))
}

// Whether the type is a type variable.
fn is_variable(ty: &NormalTy) -> bool {
    matches!(plain(ty).node(), TyNode::Var(_))
}

// A hint for two types that differ: about recursive types, where one of the two is one; about the branches of an `if`; and
// about hidden types, where both are type variables.
fn differ_hint(found: &NormalTy, needed: &NormalTy, around: Around<'_>) -> Option<&'static str> {
    if is_recursive(found) != is_recursive(needed) {
        return Some(ROLLED);
    }
    if is_word(around.before, Word::KwThen) && is_word(around.behind, Word::KwElse) {
        return Some(BRANCHES);
    }
    if is_variable(found) && is_variable(needed) {
        return Some(GENERATED);
    }
    None
}
