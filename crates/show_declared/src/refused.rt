// The declarations that a refusal is about.
ghost use Rattle.std.specs.Prelude.{IfOk, IfSome};
ghost use Rattle.show_declared.specs.Inner.Declaring.{AreDeclared, IsDeclared};

use crate::declaration::{Declaration, declaration_at};
use crate::found::{name_before, place_on};
use fing_lexer::Token;
use fing_refusals::{ElabWhy, Refusal};
use fing_syntax::Program;
use omega_kinds::Mem;
use semantic_sigs::Path;
use show_order::{Order, Sides, sides_of};
use std::alloc::Global;

/// The declarations that a refusal is about, as far as the source shows them: at the path of a refusal of a match, the one
/// in the signature and what the module has there; and for a path to something of another sort, what it leads to.
#[derive(Clone, Copy, Debug)]
pub struct Declarations<'a> {
    pub in_signature: Option<Declaration<'a>>,
    pub in_module: Option<Declaration<'a>>,
    pub named: Option<Declaration<'a>>,
}

// No declarations.
const NONE: Declarations<'static> = Declarations {
    in_signature: None,
    in_module: None,
    named: None,
};

/// The declarations that a refusal of a program is about, where the program has these tokens. Each begins with the word of a
/// binding or a declaration, and its name stands behind the word. `Err` is out of memory.
pub fn declarations_of<'a>(
    alloc: Global,
    program: &Program,
    tokens: &'a [Token],
    refusal: &'a Refusal,
) -> Result<Declarations<'a>, Mem>
    ensures { IfOk result (λ d. AreDeclared tokens.now d) }
{
    match &refusal.why {
        ElabWhy::Clash { path, .. } | ElabWhy::NoRoot { path, .. } => {
            let sides = sides_of(alloc, program, refusal.at)?;
            Ok(matched(tokens, &sides, path))
        }
        ElabWhy::WrongPath | ElabWhy::NotStructure | ElabWhy::NotFunctor => {
            let sides = sides_of(alloc, program, refusal.at)?;
            Ok(led_to(tokens, &sides, refusal))
        }
        _ => Ok(NONE),
    }
}

// The declarations at a path in the two sides of a match.
fn matched<'a>(tokens: &[Token], sides: &Sides, path: &'a Path) -> Declarations<'a>
    ensures { AreDeclared tokens.now result }
{
    Declarations {
        in_signature: declared_on(tokens, sides.asked(), path),
        in_module: declared_on(tokens, sides.given(), path),
        named: None,
    }
}

// The declaration at a path in a side.
fn declared_on<'a>(tokens: &[Token], side: Order<'_>, path: &'a Path) -> Option<Declaration<'a>>
    ensures { IfSome result (λ d. IsDeclared tokens.now d.at d.name.now d.word) }
{
    let (name, at) = place_on(side, path)?;
    declaration_at(tokens, at, name)
}

// The declaration of what the path at the place of a refusal leads to.
fn led_to<'a>(tokens: &'a [Token], sides: &Sides, refusal: &Refusal) -> Declarations<'a>
    ensures { AreDeclared tokens.now result }
{
    Declarations {
        named: declared_before(tokens, sides, refusal.at.to),
        ..NONE
    }
}

// The same where the path ends at a place.
fn declared_before<'a>(tokens: &'a [Token], sides: &Sides, end: u32) -> Option<Declaration<'a>>
    ensures { IfSome result (λ d. IsDeclared tokens.now d.at d.name.now d.word) }
{
    let name = name_before(tokens, end)?;
    let at = sides.named()?;
    declaration_at(tokens, at, name)
}
