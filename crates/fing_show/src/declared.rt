// What stands around the place of a refusal, and where the source declares what the refusal is about.
use crate::pages::{Given, Named};
use fing_lexer::{Token, Word};
use fing_refusals::{ElabWhy, Refusal};
use omega_kinds::Mem;
use semantic_sigs::Why;
use show_declared::{Declaration, Declarations};
use show_reasons::{Around, is_exchanged};
use show_text::{Page, put_excerpt};

/// What a refusal is about: the declaration that asks for something, and what is there instead of it, or where the refused
/// path leads.
#[derive(Clone, Copy)]
pub(crate) struct About<'a> {
    asked: Option<Declaration<'a>>,
    there: Option<Declaration<'a>>,
    named: Option<Declaration<'a>>,
}

/// What a reason is about, where the source has these declarations.
pub(crate) fn about_of<'a>(why: &ElabWhy, found: Declarations<'a>) -> About<'a> {
    let roles = if is_reversed(why) {
        (found.in_module, found.in_signature)
    } else {
        (found.in_signature, found.in_module)
    };
    let (asked, there) = match roles {
        // what is missing is only where it is asked for
        (None, declared) if is_missing(why) => (declared, None),
        roles => roles,
    };
    About {
        asked,
        there,
        named: found.named,
    }
}

// Whether the module asks for what the signature has: in a functor's parameter.
fn is_reversed(why: &ElabWhy) -> bool {
    match why {
        ElabWhy::Clash { path, .. } | ElabWhy::NoRoot { path, .. } => is_exchanged(path),
        _ => false,
    }
}

// Whether a component is missing.
fn is_missing(why: &ElabWhy) -> bool {
    match why {
        ElabWhy::Clash { why, .. } => matches!(why, Why::Missing),
        _ => false,
    }
}

/// What stands around the place of a refusal.
pub(crate) fn around<'a>(given: Given<'a>, refusal: &Refusal, about: About<'_>) -> Around<'a> {
    let tokens = given.tokens;
    Around {
        before: tokens
            .iter()
            .rfind(|token| token.span.to <= refusal.at.from),
        behind: tokens.iter().find(|token| refusal.at.to <= token.span.from),
        bound: word_of(about.named.or(about.there)),
    }
}

// The word with which a declaration begins.
fn word_of(declaration: Option<Declaration<'_>>) -> Option<Word> {
    let declaration = declaration?;
    Some(declaration.word)
}

/// Writes where the source declares what a refusal is about.
pub(crate) fn put_about(page: &mut Page, named: Named<'_>, about: About<'_>) -> Result<(), Mem> {
    if let Some(asked) = about.asked {
        put_note(page, asked, b"note: this declaration asks for `", b"`\n")?;
        put_excerpt(page, named.name, named.source, asked.at)?;
    }
    for declaration in [about.there, about.named] {
        put_there(page, named, declaration)?;
    }
    Ok(())
}

// Writes what is there, if the source declares it.
fn put_there(
    page: &mut Page,
    named: Named<'_>,
    declaration: Option<Declaration<'_>>,
) -> Result<(), Mem> {
    let Some(there) = declaration else {
        return Ok(());
    };
    put_note(page, there, b"note: `", sort_of(there.word))?;
    put_excerpt(page, named.name, named.source, there.at)
}

// Writes a line with the name of a declaration.
fn put_note(
    page: &mut Page,
    declaration: Declaration<'_>,
    before: &[u8],
    behind: &[u8],
) -> Result<(), Mem> {
    page.put_all(&[before, declaration.name.bytes(), behind])
}

// What is bound with a word, as the end of a line.
fn sort_of(word: Word) -> &'static [u8] {
    match word {
        Word::KwVal => b"` is a value there\n",
        Word::KwModule => b"` is a module there\n",
        Word::KwSignature => b"` is a signature there\n",
        _ => b"` is a type there\n",
    }
}
