// Sorts of phrases, which stand for all the terminals with which they begin.
use fing_lexer::{Mark, Word};
use parse_grammar::grammar::Terminal;

/// A sort of phrases, or all operators.
#[derive(Clone, Copy)]
pub(crate) enum Sort {
    Expression,
    Type,
    Module,
    Signature,
    Kind,
    Operator,
}

/// All sorts.
pub(crate) const SORTS: [Sort; 6] = [
    Sort::Expression,
    Sort::Type,
    Sort::Module,
    Sort::Signature,
    Sort::Kind,
    Sort::Operator,
];

impl Sort {
    /// What a phrase of the sort is called.
    pub(crate) fn called(self) -> &'static str {
        match self {
            Sort::Expression => "an expression",
            Sort::Type => "a type",
            Sort::Module => "a module",
            Sort::Signature => "a signature",
            Sort::Kind => "a kind",
            Sort::Operator => "an operator",
        }
    }

    /// A terminal with which only phrases of the sort begin.
    pub(crate) fn sign(self) -> Terminal {
        match self {
            Sort::Expression => Terminal::Number,
            Sort::Type => Terminal::Word(Word::KwInt),
            Sort::Module => Terminal::Word(Word::KwStruct),
            Sort::Signature => Terminal::Word(Word::KwSig),
            Sort::Kind => Terminal::Word(Word::KwKind),
            Sort::Operator => Terminal::Mark(Mark::Plus),
        }
    }

    /// Whether a phrase of the sort can begin with a terminal.
    pub(crate) fn begins(self, terminal: Terminal) -> bool {
        match terminal {
            Terminal::Name => self.has_names(),
            Terminal::Number | Terminal::Text => matches!(self, Sort::Expression),
            Terminal::Mark(mark) => self.begins_mark(mark),
            Terminal::Word(word) => self.begins_word(word),
        }
    }

    // Whether a name is a phrase of the sort.
    fn has_names(self) -> bool {
        !matches!(self, Sort::Kind | Sort::Operator)
    }

    // The same for a mark.
    fn begins_mark(self, mark: Mark) -> bool {
        match mark {
            Mark::LeftParen => !matches!(self, Sort::Operator),
            Mark::LeftBrace => matches!(self, Sort::Expression | Sort::Type),
            Mark::LeftBracket => matches!(self, Sort::Type),
            Mark::Plus
            | Mark::Minus
            | Mark::Star
            | Mark::Slash
            | Mark::Percent
            | Mark::Less
            | Mark::EqualEqual => matches!(self, Sort::Operator),
            _ => false,
        }
    }

    // The same for a word.
    fn begins_word(self, word: Word) -> bool {
        match word {
            Word::KwFrom => self.has_names(),
            Word::KwFun => self.has_names(),
            Word::KwPack | Word::KwCase => matches!(self, Sort::Expression | Sort::Type),
            Word::KwLet => matches!(self, Sort::Expression | Sort::Module),
            Word::KwTrue
            | Word::KwFalse
            | Word::KwFix
            | Word::KwIf
            | Word::KwInj
            | Word::KwRoll
            | Word::KwUnroll => matches!(self, Sort::Expression),
            Word::KwInt | Word::KwBool | Word::KwText => matches!(self, Sort::Type),
            Word::KwStruct | Word::KwGen | Word::KwUnpack => matches!(self, Sort::Module),
            Word::KwSig => matches!(self, Sort::Signature),
            Word::KwKind => matches!(self, Sort::Kind),
            _ => false,
        }
    }
}
