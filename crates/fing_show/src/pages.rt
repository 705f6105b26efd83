// The pages of refusals and of programs.
ghost use Rattle.std.specs.Prelude.{[], IfOk, codes};
ghost use Rattle.fing_refusals.specs.Inner.Plain.{plain_reason};
ghost use Rattle.fing_show.specs.Inner.Heads.{Begins, ShowsMeaning, latex_head, lexical_title, paper_head, refused_head, source_head, title_of_reason};
ghost use Rattle.omega_terms.specs.Typing.{HasType};
ghost use Rattle.sig_definitions.specs.Signatures.Encoding.{enc_abs};

use crate::declared::{about_of, around, put_about};
use crate::derivations::derivation_page;
use crate::heads::{
    headed, latex_effect, lexical_title_of, paper_effect, source_effect, title_of, titled,
};
use crate::omega::omega_page;
use crate::places::meaning_at;
use crate::view::View;
use fing_elab::Elaborated;
use fing_lexer::{LexRefusal, Token};
use fing_refusals::Refusal;
use fing_syntax::Program;
use fing_text::Span;
use omega_kinds::{Mem, Name};
use show_declared::Declarations;
use show_order::orders_of;
use show_paper::{LATEX, Symbols, UNICODE, put_behind_effect};
use show_places::{offset_at, phrase_at};
use show_reasons::{
    explanation_of, lexical_explanation, lexical_place, put_end, put_sentence, syntax_explanation,
};
use show_sigs::{put_phrase, put_program};
use show_syntax::{followers, put_expected, slip};
use show_terms::put_term;
use show_text::{Page, put_excerpt, put_shown};
use std::alloc::Global;

/// A source with the name by which a page calls it.
#[derive(Clone, Copy)]
pub(crate) struct Named<'a> {
    pub(crate) name: &'a [u8],
    pub(crate) source: &'a [u8],
}

/// A source, its tokens, and what is to be shown of its program.
#[derive(Clone, Copy)]
pub(crate) struct Given<'a> {
    pub(crate) named: Named<'a>,
    pub(crate) tokens: &'a [Token],
    pub(crate) view: View,
}

// Begins what stands below the title of a refusal: an excerpt of its place.
fn begin_page(alloc: Global, named: Named<'_>, at: Span) -> Result<Page, Mem> {
    let mut page = Page::new(alloc);
    put_excerpt(&mut page, named.name, named.source, at)?;
    Ok(page)
}

/// The page of a place that has no token.
pub(crate) fn lexical_page(
    alloc: Global,
    name: &[u8],
    source: &[u8],
    why: LexRefusal,
) -> Result<Vec<u8>, Mem>
    ensures { IfOk result (λ page. Begins (refused_head (lexical_title why)) page.items) }
{
    let from = lexical_place(why);
    let byte = source.get(from as usize).copied().unwrap_or(0);
    let explanation = lexical_explanation(why, byte);
    let at = Span {
        from,
        to: from.saturating_add(1),
    };
    let mut page = begin_page(alloc, Named { name, source }, at)?;
    page.put_all(&[explanation.sentence.as_bytes(), b"\n"])?;
    put_end(&mut page, explanation)?;
    titled(alloc, lexical_title_of(why), &page)
}

/// The page of tokens that form no program, of which the longest prefix that begins some program has `at` tokens.
pub(crate) fn syntax_page(alloc: Global, given: Given<'_>, at: u32) -> Result<Vec<u8>, Mem>
    ensures { IfOk result (λ page. Begins (refused_head (codes "syntax")) page.items) }
{
    let tokens = given.tokens;
    let at = at as usize;
    let expected = followers(alloc, tokens, at)?;
    let explanation = syntax_explanation(slip(tokens, at, &expected));
    let place = syntax_place(tokens, at);
    let mut page = begin_page(alloc, given.named, place)?;
    if place.from < place.to {
        put_token(&mut page, given.named.source, place)?;
    } else {
        page.put_all(&[explanation.sentence.as_bytes(), b"\n"])?;
    }
    put_expected(&mut page, &expected)?;
    put_end(&mut page, explanation)?;
    titled(alloc, b"syntax", &page)
}

// The place of a token, or the end of the last one where there is none.
fn syntax_place(tokens: &[Token], at: usize) -> Span {
    if let Some(token) = tokens.get(at) {
        return token.span;
    }
    let end = tokens.last().map_or(0, |token| token.span.to);
    Span { from: end, to: end }
}

// Writes which token no program can have at its place.
fn put_token(page: &mut Page, source: &[u8], at: Span) -> Result<(), Mem> {
    page.put(b"No program can go on with `")?;
    let text = source.get(at.from as usize..at.to as usize);
    put_shown(page, text.unwrap_or(b""), 0)?;
    page.put(b"` here.\n")
}

/// The page of a program that means nothing for this reason, where the outermost type variables in scope have these
/// names, and these are the declarations that the reason is about.
pub(crate) fn refused_page(
    alloc: Global,
    given: Given<'_>,
    names: Vec<Option<Name>>,
    declared: Declarations<'_>,
    refusal: &Refusal,
) -> Result<Vec<u8>, Mem>
    ensures { IfOk result (λ page. Begins (refused_head (title_of_reason (plain_reason refusal.now.why))) page.items) }
{
    let about = about_of(&refusal.why, declared);
    let explanation = explanation_of(&refusal.why, around(given, refusal, about));
    let mut page = begin_page(alloc, given.named, refusal.at)?;
    put_sentence(&mut page, names, refusal, explanation)?;
    put_about(&mut page, given.named, about)?;
    put_end(&mut page, explanation)?;
    titled(alloc, title_of(&refusal.why), &page)
}

/// The page of a program that means something: what the view shows of it, and for a view of its run the signature.
pub(crate) fn accepted_page(
    alloc: Global,
    given: Given<'_>,
    program: &Program,
    found: &Elaborated,
) -> Result<Vec<u8>, Mem>
    requires { HasType [] [] found.now.whole (enc_abs found.now.sig) }
    ensures { IfOk result (λ page. ShowsMeaning given.entry.view found.now page.items) }
{
    match given.view {
        View::Source | View::Steps { .. } => source_page(alloc, program, found),
        View::Paper => paper_page(alloc, program, found),
        View::Latex => latex_page(alloc, program, found),
        View::Term => term_page(alloc, &UNICODE, found),
        View::TermLatex => term_page(alloc, &LATEX, found),
        View::Phrase { line, column } => phrase_page(alloc, given, program, (line, column)),
        View::TermOmega => omega_page(alloc, found),
        View::Derivation(form) => derivation_page(alloc, form, given.named, program, found),
    }
}

// The page of the whole term of a program.
fn term_page(alloc: Global, symbols: &'static Symbols, found: &Elaborated) -> Result<Vec<u8>, Mem> {
    Ok(put_term(alloc, symbols, &found.whole)?.into_bytes())
}

// The page of the smallest phrase at a line and a column.
fn phrase_page(
    alloc: Global,
    given: Given<'_>,
    program: &Program,
    place: (u64, u64),
) -> Result<Vec<u8>, Mem> {
    let source = given.named.source;
    let at = offset_at(alloc, source, given.tokens, place.0, place.1)?;
    let mut page = Page::new(alloc);
    let Some(found) = at.and_then(|at| phrase_at(program, at)) else {
        page.put(b"No phrase stands at this place.\n")?;
        return Ok(page.into_bytes());
    };
    put_excerpt(&mut page, given.named.name, source, found.span)?;
    if let Some(meaning) = meaning_at(alloc, given.tokens, found)? {
        page = put_phrase(page, meaning.names, &meaning.abs, meaning.orders.whole())?;
    } else {
        page.put(b"Nothing is shown of this phrase.\n")?;
    }
    Ok(page.into_bytes())
}

// The page of a program in the syntax of a source: its effect and its signature, in the order of the source.
fn source_page(alloc: Global, program: &Program, found: &Elaborated) -> Result<Vec<u8>, Mem>
    ensures { IfOk result (λ page. Begins (source_head found.now.effect) page.items) }
{
    let orders = orders_of(alloc, program)?;
    let signature = put_program(Page::new(alloc), &found.sig, orders.whole())?;
    headed(alloc, source_effect(found.effect), &signature)
}

// The page of a program in the notation of the literature, in the order of the source.
fn paper_page(alloc: Global, program: &Program, found: &Elaborated) -> Result<Vec<u8>, Mem>
    ensures { IfOk result (λ page. Begins (paper_head found.now.effect) page.items) }
{
    let signature = noted_signature(alloc, &UNICODE, program, found)?;
    headed(alloc, paper_effect(found.effect), &signature)
}

// The same page in LaTeX.
fn latex_page(alloc: Global, program: &Program, found: &Elaborated) -> Result<Vec<u8>, Mem>
    ensures { IfOk result (λ page. Begins (latex_head found.now.effect) page.items) }
{
    let signature = noted_signature(alloc, &LATEX, program, found)?;
    headed(alloc, latex_effect(found.effect), &signature)
}

// The signature of a program in a notation of the literature, in the order of the source, to stand behind the effect.
fn noted_signature(
    alloc: Global,
    symbols: &'static Symbols,
    program: &Program,
    found: &Elaborated,
) -> Result<Page, Mem> {
    let orders = orders_of(alloc, program)?;
    put_behind_effect(alloc, symbols, &found.sig, orders.whole())
}
