// Slips of people who know another language, by the token at the place, those before it, and what could stand there.
use crate::foreign::foreign;
use fing_lexer::{Mark, Token, What, Word};
use parse_grammar::choices::terminal_of;
use parse_grammar::grammar::Terminal;

const COLON: Terminal = Terminal::Mark(Mark::Colon);

const EQUAL: Terminal = Terminal::Mark(Mark::Equal);

const DOUBLE_ARROW: Terminal = Terminal::Mark(Mark::DoubleArrow);

const FUNCTION: &str = "A function is bound by `val f = fun (x : Int) => x`.";

const FUNCTOR: &str = "A functor is bound by `module F = fun (X : S) => struct .. end`.";

/// A hint for tokens of which the first `at` begin some program, behind which only these terminals could stand; `None`
/// where nothing is known of the slip.
pub fn slip(tokens: &[Token], at: usize, expected: &[Terminal]) -> Option<&'static str> {
    let found = terminal_of(tokens.get(at)?);
    let before = terminal_back(tokens, at, 1);
    match found {
        Terminal::Mark(Mark::Equal) => equal_slip(tokens, at, expected),
        Terminal::Mark(Mark::LeftParen) if expected.contains(&EQUAL) => bound_slip(tokens, at),
        Terminal::Mark(mark) => mark_slip(mark, before, expected),
        Terminal::Word(word) => word_slip(word, before, expected),
        Terminal::Name => name_slip(tokens, at, expected),
        Terminal::Number | Terminal::Text => None,
    }
}

// The terminal so many tokens before a place.
fn terminal_back(tokens: &[Token], at: usize, back: usize) -> Option<Terminal> {
    let place = at.checked_sub(back)?;
    let token = tokens.get(place)?;
    Some(terminal_of(token))
}

// A slip at a mark.
fn mark_slip(mark: Mark, before: Option<Terminal>, expected: &[Terminal]) -> Option<&'static str> {
    let can = |terminal: Terminal| expected.contains(&terminal);
    match mark {
        Mark::Minus if can(Terminal::Number) => Some("A negative number is written `~1`."),
        Mark::RightParen if before == Some(Terminal::Mark(Mark::LeftParen)) => {
            Some("There is no unit value: the empty record is `{}`.")
        }
        Mark::Comma if can(Terminal::Mark(Mark::RightParen)) => {
            Some(
                "There are no tuples: write a record, `{a = 1, b = 2}`, and one argument after the other, `fun (x : Int) => fun (y : Int) => x`.",
            )
        }
        Mark::Dot => dot_slip(before),
        Mark::Arrow if can(DOUBLE_ARROW) => {
            Some("A function is written with `=>`, and so is a branch; `->` is for types.")
        }
        Mark::DoubleArrow => Some(
            "A function is written `fun (x : Int) => x`, and a functor `fun (X : S) => struct .. end`.",
        ),
        Mark::Colon => colon_slip(expected),
        Mark::LeftBracket if can(Terminal::Number) => {
            Some("No lists are built in: `data` makes recursive types, such as one of lists.")
        }
        _ => None,
    }
}

// A slip at a dot.
fn dot_slip(before: Option<Terminal>) -> Option<&'static str> {
    match before? {
        Terminal::Number => Some("There are no fractions."),
        Terminal::Mark(Mark::RightParen) => {
            Some("A component of a module that is no path is written `from (F X).x`.")
        }
        _ => None,
    }
}

// A slip at a colon.
fn colon_slip(expected: &[Terminal]) -> Option<&'static str> {
    if expected.contains(&EQUAL) {
        return Some(
            "A binding has no type of its own: give types to parameters, or seal the module by a signature.",
        );
    }
    if expected.contains(&DOUBLE_ARROW) {
        return Some(
            "The type of a result is not written; a functor can seal its body, as `fun (X : S) => M :> T`.",
        );
    }
    None
}

// A slip at an equals sign.
fn equal_slip(tokens: &[Token], at: usize, expected: &[Terminal]) -> Option<&'static str> {
    if expected.contains(&COLON) {
        return declared_slip(tokens, at);
    }
    if let Some(hint) = foreign_back(tokens, at, 2) {
        return Some(hint);
    }
    if terminal_back(tokens, at, 1) == Some(Terminal::Mark(Mark::Less)) {
        return Some("There is no `<=`: write `if y < x then false else true` for `x <= y`.");
    }
    if expected.contains(&Terminal::Mark(Mark::EqualEqual)) {
        return Some(
            "Equality is written `==`; is `val`, `type` or `module` missing before the name?",
        );
    }
    None
}

// A slip at an equals sign in a declaration, by the word before the name.
fn declared_slip(tokens: &[Token], at: usize) -> Option<&'static str> {
    match terminal_back(tokens, at, 2)? {
        Terminal::Word(Word::KwVal) => {
            Some(
                "A signature declares a value with its type, as `val x : Int`. Is an `end` missing before it?",
            )
        }
        Terminal::Word(Word::KwModule) => {
            Some(
                "A signature declares a module with its signature, as `module A : S`. Is an `end` missing before it?",
            )
        }
        _ => None,
    }
}

// A slip at a parameter of a binding, by the word before the name.
fn bound_slip(tokens: &[Token], at: usize) -> Option<&'static str> {
    match terminal_back(tokens, at, 2)? {
        Terminal::Word(Word::KwVal) => Some(FUNCTION),
        Terminal::Word(Word::KwModule) => Some(FUNCTOR),
        _ => None,
    }
}

// A slip at a word.
fn word_slip(word: Word, before: Option<Terminal>, expected: &[Terminal]) -> Option<&'static str> {
    let can = |terminal: Terminal| expected.contains(&terminal);
    match word {
        Word::KwOf if can(COLON) => Some(
            "A `case` says the type of its result, as `case x : Int of {some (n) => n}`.",
        ),
        Word::KwType if before == Some(Terminal::Word(Word::KwModule)) => {
            Some("A signature is bound by `signature S = sig .. end`.")
        }
        Word::KwEnd if can(Terminal::Word(Word::KwIn)) => Some(
            "Is `in` missing? Bindings before a phrase are written `let .. in .. end`.",
        ),
        _ if matches!(expected, [Terminal::Name]) => Some(
            "This is a keyword, so it cannot be a name.",
        ),
        _ if can(Terminal::Word(Word::KwVal)) => unbound_slip(word),
        _ => None,
    }
}

// A slip at a word where a binding could stand.
fn unbound_slip(word: Word) -> Option<&'static str> {
    match word {
        Word::KwFun => Some(FUNCTION),
        Word::KwLet => Some(
            "What is outside all phrases is bound with `val`, without `let`; `let .. in .. end` is an expression.",
        ),
        _ => None,
    }
}

// A slip at a name.
fn name_slip(tokens: &[Token], at: usize, expected: &[Terminal]) -> Option<&'static str> {
    let can = |mark: Mark| expected.contains(&Terminal::Mark(mark));
    if can(Mark::LeftParen) && can(Mark::LeftBracket) {
        return Some(
            "A parameter has its type, as in `fun (x : Int) => x`, or `fun [a : Type] => ..`.",
        );
    }
    if let Some(hint) = foreign_back(tokens, at, 0) {
        return Some(hint);
    }
    if expected.contains(&EQUAL) {
        return foreign_back(tokens, at, 1);
    }
    if terminal_back(tokens, at, 2) == Some(Terminal::Word(Word::KwPack)) {
        return Some("A module that is no path stands in parentheses, as in `pack (F X) : S`.");
    }
    None
}

// A hint for a word of another language so many tokens before a place.
fn foreign_back(tokens: &[Token], at: usize, back: usize) -> Option<&'static str> {
    let place = at.checked_sub(back)?;
    match &tokens.get(place)?.what {
        What::Ident(name) => foreign(name.bytes()),
        _ => None,
    }
}
