// The tokens of a source.
ghost use Rattle.std.specs.Prelude.{◌≡◌, ◌⊎◌, ◌+◌, ◌≤◌, length, IfOk, IfErr};
ghost use Rattle.fing_lexer.specs.Tokens.{TokensOf, RefusalOf, token_at};
ghost use Rattle.fing_lexer.specs.declared.lexer.LexRefusal.TheVariants.{Mem as WantOfMemory};

use crate::nest::Nest;
use crate::scan::{Front, scan_front};
use crate::token::{Token, What};
use fing_text::{SOURCE_LIMIT, Span};
use omega_kinds::Mem;
use std::alloc::{AllocFailed, Global};
use thiserror::Error;

/// Why a source has no tokens: the byte offset of its first place that has none, and what is wrong there.
#[derive(Clone, Copy, Debug, PartialEq, Eq, Error)]
pub enum LexRefusal {
    /// A byte that begins no token.
    #[error("no token begins at byte {at}")]
    BadByte { at: u32 },
    /// A `"` that begins no text.
    #[error("no text begins at byte {at}")]
    BadText { at: u32 },
    /// A number whose digits say more than 9223372036854775807.
    #[error("the number at byte {at} is out of range")]
    Wide { at: u32 },
    /// A token whose nest is above 1,000.
    #[error("the token at byte {at} stands too deep")]
    TooDeep { at: u32 },
    /// Want of memory.
    #[error("out of memory")]
    Mem,
}

impl From<Mem> for LexRefusal {
    ghost use Rattle.fing_lexer.specs.declared.lexer.LexRefusal.TheVariants.{Mem as WantOfMemory};

    ghost from_gives = { λ _ e. e ≡ WantOfMemory };

    fn from(_refused: Mem) -> LexRefusal {
        LexRefusal::Mem
    }
}

impl<T: Drop> From<AllocFailed<T>> for LexRefusal {
    ghost use Rattle.fing_lexer.specs.declared.lexer.LexRefusal.TheVariants.{Mem as WantOfMemory};

    ghost from_gives = { λ _ e. e ≡ WantOfMemory };

    fn from(_refused: AllocFailed<T>) -> LexRefusal {
        LexRefusal::Mem
    }
}

// The token of a place.
fn token_from(at: usize, len: usize, what: What) -> Token
    requires { at + len ≤ SOURCE_LIMIT }
    ensures { result ≡ token_at at len what }
{
    Token {
        what,
        span: Span {
            from: at as u32,
            to: (at + len) as u32,
        },
    }
}

/// The tokens of the source's bytes, of which there are at most `SOURCE_LIMIT`, in their order.
///
/// Blanks and comments stand between tokens, and at each other place the longest token is taken.
/// An error says the first place that has no token, by its byte offset: `BadByte`, `BadText`, `Wide` where a number's
/// digits say more than 9223372036854775807, `TooDeep` where the token's nest is above 1,000; `Wide` goes before
/// `TooDeep` at one token. `Mem` is out of memory. Takes time and memory linear in the bytes.
pub fn tokens(alloc: Global, bytes: &[u8]) -> Result<Vec<Token>, LexRefusal>
    requires { length bytes.now ≤ SOURCE_LIMIT }
    ensures tokens { IfOk result (λ v. TokensOf bytes.now v.items) }
    ensures refused { IfErr result (λ e. (e ≡ WantOfMemory) ⊎ RefusalOf bytes.now e) }
{
    let mut found = Vec::new(alloc);
    let mut nest = Nest::new(alloc);
    let mut at: usize = 0;
    'scan: while at < bytes.len() {
        match scan_front(alloc, &bytes[at..])? {
            Front::Skip(len) => at += len,
            Front::Found(len, what) => {
                if nest.count(&what) > 1000 {
                    return Err(LexRefusal::TooDeep { at: at as u32 });
                }
                nest.open(&what)?;
                found.push(token_from(at, len, what))?;
                at += len;
            }
            Front::Wide => return Err(LexRefusal::Wide { at: at as u32 }),
            Front::NoText => return Err(LexRefusal::BadText { at: at as u32 }),
            Front::NoByte => return Err(LexRefusal::BadByte { at: at as u32 }),
        }
    }
    Ok(found)
}
