// The bytes of a text.
ghost use Rattle.std.specs.Prelude.{◌≡◌, ◌∷◌, List, ℕ, false};
ghost use Rattle.omega_spelling.specs.TermReading.{chars_at};
ghost use Rattle.omega_read.specs.Inner.Gives.{Gives};
ghost use Rattle.omega_read.specs.Inner.Chars.{after_char};

use crate::left::{Left, Stop};
use omega_kinds::{Name, name_of};
use std::alloc::Global;

// What a byte in a text says: the end of the text, the begin of an escape, a byte of the text, or nothing.
#[derive(Clone, Copy, Debug)]
pub enum Char {
    End,
    Escape,
    Byte(u8),
    Bad,
}

// What a byte says, behind a backslash that begins an escape or not.
#[tactic(auto, unfolding(omega_spelling::specs::TermReading::chars_at))]
fn char_of(escaped: bool, b: u8) -> Char
    ensures { (rest : List ℕ) → chars_at escaped (b ∷ rest) ≡ after_char result rest }
{
    match (escaped, b) {
        (false, b'"') => Char::End,
        (false, b'\\') => Char::Escape,
        (false, 32..=126) => Char::Byte(b),
        (true, b'"') | (true, b'\\') => Char::Byte(b),
        (true, b'n') => Char::Byte(b'\n'),
        _ => Char::Bad,
    }
}

// The bytes of a text, behind its first quote and up to the quote that ends it.
#[tactic(auto, using(crate::proofs::TextBytes::text_bytes))]
pub fn text_of(alloc: Global, left: &mut Left<'_>) -> Result<Name, Stop>
    ensures { Gives (λ s. s) result left.new.rest.now (chars_at false left.old.rest.now) }
{
    let whole = left.rest;
    let mut text = Vec::new(alloc);
    let mut escaped = false;
    for (i, b) in whole.iter().enumerate() {
        match char_of(escaped, *b) {
            Char::End => {
                left.rest = &whole[i + 1..];
                return Ok(name_of(alloc, &text)?);
            }
            Char::Escape => escaped = true,
            Char::Byte(c) => {
                text.push(c)?;
                escaped = false;
            }
            Char::Bad => return Err(Stop::NotOmega),
        }
    }
    Err(Stop::NotOmega)
}
