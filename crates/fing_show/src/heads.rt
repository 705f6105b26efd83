// What pages begin with: the title of a refusal, or the effect of a program.
ghost use Rattle.std.specs.Prelude.{◌≡◌, IfOk};
ghost use Rattle.fing_refusals.specs.Inner.Plain.{plain_clash, plain_reason};
ghost use Rattle.fing_show.specs.Inner.Heads.{Begins, clash_title, latex_head, lexical_title, paper_head, refused_head, source_head, title_of_reason};

use fing_lexer::LexRefusal;
use fing_refusals::ElabWhy;
use omega_kinds::{Effect, Mem};
use semantic_sigs::Why;
use show_text::Page;
use std::alloc::Global;

// The most bytes that a page holds: 64 MiB.
const MOST: usize = 67108864;

/// A head, and behind it the page that was written apart. `Err` is out of memory, also where both would be longer than
/// 64 MiB.
pub(crate) fn headed(alloc: Global, head: &[u8], rest: &Page) -> Result<Vec<u8>, Mem>
    ensures { IfOk result (λ page. Begins head.now page.items) }
{
    let rest = rest.bytes();
    if rest.len() > MOST.saturating_sub(head.len()) {
        return Err(Mem);
    }
    let mut page = Vec::new(alloc);
    page.extend_from_slice(head)?;
    page.extend_from_slice(rest)?;
    Ok(page)
}

/// The title of a refusal on a line of its own, and behind it the page that was written apart. `Err` is as in `headed`.
pub(crate) fn titled(alloc: Global, title: &[u8], rest: &Page) -> Result<Vec<u8>, Mem>
    ensures { IfOk result (λ page. Begins (refused_head title.now) page.items) }
{
    let mut head = Vec::new(alloc);
    head.extend_from_slice(b"error: ")?;
    head.extend_from_slice(title)?;
    head.extend_from_slice(b"\n")?;
    headed(alloc, &head, rest)
}

/// The effect of a program on a line of its own.
pub(crate) fn source_effect(effect: Effect) -> &'static [u8]
    ensures { result.now ≡ source_head effect }
{
    match effect {
        Effect::Pure => b"pure\n",
        Effect::Impure => b"impure\n",
    }
}

/// The effect of a program in the notation of the literature, as text.
pub(crate) fn paper_effect(effect: Effect) -> &'static [u8]
    ensures { result.now ≡ paper_head effect }
{
    match effect {
        Effect::Pure => b"P ",
        Effect::Impure => b"I ",
    }
}

/// The effect of a program in the notation of the literature, in LaTeX, at the beginning of an array.
pub(crate) fn latex_effect(effect: Effect) -> &'static [u8]
    ensures { result.now ≡ latex_head effect }
{
    match effect {
        Effect::Pure => b"\\begin{array}{l}\n\\mathsf{P}\\ ",
        Effect::Impure => b"\\begin{array}{l}\n\\mathsf{I}\\ ",
    }
}

/// The title of a place that has no token.
pub(crate) fn lexical_title_of(why: LexRefusal) -> &'static [u8]
    ensures { result.now ≡ lexical_title why }
{
    match why {
        LexRefusal::BadByte { .. } => b"no token",
        LexRefusal::BadText { .. } => b"no string",
        LexRefusal::Wide { .. } => b"a number too large",
        LexRefusal::TooDeep { .. } => b"nested too deeply",
        LexRefusal::Mem => b"out of memory",
    }
}

/// The title of a reason why a program means nothing.
pub(crate) fn title_of(why: &ElabWhy) -> &'static [u8]
    ensures { result.now ≡ title_of_reason (plain_reason why.now) }
{
    match why {
        ElabWhy::Unbound(_) => b"unbound name",
        ElabWhy::NotStructure => b"not a structure",
        ElabWhy::NoPart(_) => b"no such component",
        ElabWhy::NotFunctor => b"not a functor",
        ElabWhy::WrongPath => b"wrong sort of name",
        ElabWhy::Escapes => b"a hidden type escapes",
        ElabWhy::NoRoot { .. } => b"a type is missing",
        ElabWhy::Clash { why, .. } => clash_title_of(why),
        ElabWhy::NotArrow(_) => b"not a function",
        ElabWhy::NotAll(_) => b"not polymorphic",
        ElabWhy::NotRecord(_) => b"not a record",
        ElabWhy::NotSum(_) => b"not a sum",
        ElabWhy::NotData(_) => b"not a recursive type",
        ElabWhy::NoField(_) => b"no such field or label",
        ElabWhy::NoBranch(_) => b"a label without a branch",
        ElabWhy::Differ(_, _) => b"types differ",
        ElabWhy::KindDiffer(_, _) => b"kinds differ",
        ElabWhy::NotOperator => b"not a type constructor",
        ElabWhy::DuplicateField(_) => b"a field or label twice",
        ElabWhy::Duplicate(_) => b"a name twice",
        ElabWhy::NotAbstract(_) => b"not an abstract type",
        ElabWhy::Mem => b"out of memory",
    }
}

// The title of parts of two signatures that do not agree.
fn clash_title_of(why: &Why) -> &'static [u8]
    ensures { result.now ≡ clash_title (plain_clash why.now) }
{
    match why {
        Why::Missing => b"a component is missing",
        Why::Types(_, _) => b"the types of a component differ",
        Why::Form => b"a component is of another sort",
        Why::Effect => b"a generative functor",
    }
}
