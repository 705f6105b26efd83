// How deep a token stands.
ghost use Rattle.std.specs.Prelude.{◌≡◌, ◌≤◌, OnOk, OnErr};
ghost use Rattle.fing_lexer.specs.Nest as plain;

use crate::token::{Mark, What, Word};
use omega_kinds::Mem;
use std::alloc::Global;
use std::marker::Model;

fn is_closer(what: &What) -> bool
    ensures { result ≡ plain.is_closer what.now }
{
    matches!(
        what,
        What::Word(Word::KwEnd)
            | What::Mark(Mark::RightParen | Mark::RightBrace | Mark::RightBracket)
    )
}

fn is_opener(what: &What) -> bool
    ensures { result ≡ plain.is_opener what.now }
{
    matches!(
        what,
        What::Word(Word::KwStruct | Word::KwSig | Word::KwLet)
            | What::Mark(Mark::LeftParen | Mark::LeftBrace | Mark::LeftBracket)
    )
}

fn is_binding_word(what: &What) -> bool
    ensures { result ≡ plain.is_binding_word what.now }
{
    matches!(
        what,
        What::Word(
            Word::KwVal
                | Word::KwType
                | Word::KwModule
                | Word::KwSignature
                | Word::KwInclude
                | Word::KwData
                | Word::KwIn
        )
    )
}

/// One pair of the stack: how many words that begin a binding stand in it, and how many other tokens since the last.
#[derive(Clone, Copy)]
pub struct Level {
    words: u32,
    since: u32,
}

/// The stack of pairs behind the tokens so far, and the sum of all its numbers.
#[derive(Drop)]
pub struct Nest {
    last: Level,
    outer: Vec<Level>,
    total: u32,
}

impl Model for Nest {
    ghost use Rattle.std.specs.Prelude.{◌≡◌, reverse};
    ghost use Rattle.fing_lexer.specs.Nest as plain;

    ghost Value = { plain.Nest };

    ghost view = { λ n. record { last = n.last; outer = reverse n.outer.items } };

    ghost invariant = { λ n. n.total ≡ plain.total (record { last = n.last; outer = reverse n.outer.items }) };
}

impl Nest {
    /// The stack of the whole file, before its first token.
    pub fn new(alloc: Global) -> Nest
        ensures { result ≡ plain.whole_file }
    {
        Nest {
            last: Level { words: 0, since: 0 },
            outer: Vec::new(alloc),
            total: 0,
        }
    }

    // Takes the last pair away, unless it is the only one.
    fn close(&mut self)
        requires { plain.total self.old ≤ 1000 }
        ensures closed { self.new ≡ plain.closed self.old }
        ensures less { plain.total self.new ≤ plain.total self.old }
    {
        if let Some(level) = self.outer.pop() {
            self.total -= self.last.words + self.last.since;
            self.last = level;
        }
    }

    /// Counts a token, and gives its nest: the sum of all numbers of the stack with the token counted. The sum before
    /// has to be at most 1,000. A token that closes a pair takes the last pair away first, unless it is the only one.
    pub fn count(&mut self, what: &What) -> u32
        requires { plain.total self.old ≤ 1000 }
        ensures counted { self.new ≡ plain.counted self.old what.now }
        ensures total { result ≡ plain.total self.new }
    {
        if is_closer(what) {
            self.close();
        }
        if is_binding_word(what) {
            self.total = self.total - self.last.since + 1;
            self.last.words += 1;
            self.last.since = 0;
        } else {
            self.total += 1;
            self.last.since += 1;
        }
        self.total
    }

    /// Goes in behind an opener; any other token changes nothing. `Err` is out of memory, and the stack stays as it was
    /// then.
    pub fn open(&mut self, what: &What) -> Result<(), Mem>
        ensures ok { OnOk result (self.new ≡ plain.opened self.old what.now) }
        ensures err { OnErr result (self.new ≡ self.old) }
    {
        if is_opener(what) {
            self.outer.push(self.last)?;
            self.last = Level { words: 0, since: 0 };
        }
        Ok(())
    }
}
