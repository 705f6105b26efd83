// Bindings and declarations of names, and where they stand among the tokens.
ghost use Rattle.std.specs.Prelude.{◌≡◌, IsTrue, IfSome};
ghost use Rattle.fing_lexer.specs.declared.token.What.TheVariants as form;
ghost use Rattle.show_declared.specs.Inner.Declaring.{IsDeclared, IsDeclaring};

use fing_lexer::{Token, What, Word};
use fing_text::Span;
use omega_kinds::{Name, same_name};

/// The binding or the declaration of a name: its name, its place, and the word with which it begins. That the place ends with
/// it is only tested.
#[derive(Clone, Copy, Debug)]
pub struct Declaration<'a> {
    pub name: &'a Name,
    pub at: Span,
    pub word: Word,
}

// The word of a token, if the binding or the declaration of a name begins with it.
fn declaring(what: &What) -> Option<Word>
    ensures word { IfSome result (λ w. what.now ≡ form.Word w) }
    ensures declares { IfSome result (λ w. IsDeclaring w) }
{
    match what {
        What::Word(word) => match word {
            Word::KwVal => Some(Word::KwVal),
            Word::KwType => Some(Word::KwType),
            Word::KwData => Some(Word::KwData),
            Word::KwModule => Some(Word::KwModule),
            Word::KwSignature => Some(Word::KwSignature),
            _ => None,
        },
        _ => None,
    }
}

// Whether a token spells a name.
fn is_spelled(what: &What, name: &Name) -> bool
    ensures { IsTrue result → what.now ≡ form.Ident name.now }
{
    match what {
        What::Ident(spelled) => same_name(spelled, name),
        _ => false,
    }
}

/// The binding or the declaration of a name at a place; `None` where there is none.
pub(crate) fn declaration_at<'a>(
    tokens: &[Token],
    at: Span,
    name: &'a Name,
) -> Option<Declaration<'a>>
    ensures { IfSome result (λ d. IsDeclared tokens.now d.at d.name.now d.word) }
{
    let place = tokens.iter().position(|token| token.span.from == at.from)?;
    match tokens.get(place..)? {
        [first, spelled, ..] if first.span.from == at.from && is_spelled(&spelled.what, name) => {
            let word = declaring(&first.what)?;
            Some(Declaration { name, at, word })
        }
        _ => None,
    }
}
