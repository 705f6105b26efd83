// Declarations.
ghost use Rattle.std.specs.Prelude.{◌≡◌, Some, None, IfOk, IfErr};
ghost use Rattle.parse_grammar.specs.Grammar as the;
ghost use Rattle.parse_grammar.specs.Inner.View.{decl_rule_in};
ghost use Rattle.parse_stack.specs.Inner.Part.{held};
ghost use Rattle.parse_stack.specs.Inner.Play.{played, played_any};
ghost use Rattle.parse_stack.specs.declared.refusal.BuildRefusal.TheVariants.{Misfit};

use fing_syntax::{Decl, DeclWhat};
use parse_forms::{Kept, TypeTail, declared_type, named, up_to};
use parse_grammar::grammar::DeclRule;
use parse_stack::{BuildRefusal, Part, Stack};
use parse_sums::data_declaration;
use std::alloc::Global;

fn none(stack: &mut Stack<'_>, alloc: Global) -> Result<(), BuildRefusal>
    ensures made { IfOk result (λ _. played the.no_decls (held stack.old) ≡ Some (held stack.new)) }
    ensures misfit { IfErr result (λ e. e ≡ Misfit → played the.no_decls (held stack.old) ≡ None) }
{
    stack.push(Part::Decls(Vec::new(alloc)))
}

#[tactic(auto, using(parse_forms::proofs::Chained::reverse_push))]
fn more(stack: &mut Stack<'_>) -> Result<(), BuildRefusal>
    ensures made { IfOk result (λ _. played the.more_decls (held stack.old) ≡ Some (held stack.new)) }
    ensures misfit { IfErr result (λ e. e ≡ Misfit → played the.more_decls (held stack.old) ≡ None) }
{
    let first = Kept::new(stack.decl()?);
    let mut rest = stack.decls()?;
    rest.push(first.take())?;
    stack.push(Part::Decls(rest))
}

fn val(stack: &mut Stack<'_>, alloc: Global) -> Result<(), BuildRefusal>
    ensures made { IfOk result (λ _. played the.decl_val (held stack.old) ≡ Some (held stack.new)) }
    ensures misfit { IfErr result (λ e. e ≡ Misfit → played the.decl_val (held stack.old) ≡ None) }
{
    let word = stack.token()?;
    let name = stack.token()?;
    stack.token()?;
    let ty = Kept::new(stack.ty()?);
    let span = up_to(word.span, ty.value.span);
    let name = named(alloc, name)?;
    stack.push(Part::Decl(Decl {
        span,
        what: DeclWhat::Val(name, ty.take()),
    }))
}

fn ty(stack: &mut Stack<'_>, alloc: Global) -> Result<(), BuildRefusal>
    ensures made { IfOk result (λ _. played the.decl_type (held stack.old) ≡ Some (held stack.new)) }
    ensures misfit { IfErr result (λ e. e ≡ Misfit → played the.decl_type (held stack.old) ≡ None) }
{
    let word = stack.token()?;
    let name = stack.token()?;
    let tail = stack.tail()?;
    let decl = declared_type(alloc, word, name, tail)?;
    stack.push(Part::Decl(decl))
}

fn module(stack: &mut Stack<'_>, alloc: Global) -> Result<(), BuildRefusal>
    ensures made { IfOk result (λ _. played the.decl_module (held stack.old) ≡ Some (held stack.new)) }
    ensures misfit { IfErr result (λ e. e ≡ Misfit → played the.decl_module (held stack.old) ≡ None) }
{
    let word = stack.token()?;
    let name = stack.token()?;
    stack.token()?;
    let sig = Kept::new(stack.sig()?);
    let span = up_to(word.span, sig.value.span);
    let name = named(alloc, name)?;
    stack.push(Part::Decl(Decl {
        span,
        what: DeclWhat::Module(name, sig.take()),
    }))
}

fn signature(stack: &mut Stack<'_>, alloc: Global) -> Result<(), BuildRefusal>
    ensures made { IfOk result (λ _. played the.decl_signature (held stack.old) ≡ Some (held stack.new)) }
    ensures misfit { IfErr result (λ e. e ≡ Misfit → played the.decl_signature (held stack.old) ≡ None) }
{
    let word = stack.token()?;
    let name = stack.token()?;
    stack.token()?;
    let sig = Kept::new(stack.sig()?);
    let span = up_to(word.span, sig.value.span);
    let name = named(alloc, name)?;
    stack.push(Part::Decl(Decl {
        span,
        what: DeclWhat::Signature(name, sig.take()),
    }))
}

fn include(stack: &mut Stack<'_>) -> Result<(), BuildRefusal>
    ensures made { IfOk result (λ _. played the.decl_include (held stack.old) ≡ Some (held stack.new)) }
    ensures misfit { IfErr result (λ e. e ≡ Misfit → played the.decl_include (held stack.old) ≡ None) }
{
    let word = stack.token()?;
    let sig = stack.sig()?;
    let span = up_to(word.span, sig.span);
    stack.push(Part::Decl(Decl {
        span,
        what: DeclWhat::Include(sig),
    }))
}

fn open_type(stack: &mut Stack<'_>) -> Result<(), BuildRefusal>
    ensures made { IfOk result (λ _. played the.type_of_nothing (held stack.old) ≡ Some (held stack.new)) }
    ensures misfit { IfErr result (λ e. e ≡ Misfit → played the.type_of_nothing (held stack.old) ≡ None) }
{
    stack.push(Part::Tail(TypeTail::Open))
}

fn known_type(stack: &mut Stack<'_>) -> Result<(), BuildRefusal>
    ensures made { IfOk result (λ _. played the.type_is (held stack.old) ≡ Some (held stack.new)) }
    ensures misfit { IfErr result (λ e. e ≡ Misfit → played the.type_is (held stack.old) ≡ None) }
{
    stack.token()?;
    let ty = stack.ty()?;
    stack.push(Part::Tail(TypeTail::Is(ty)))
}

fn kinded_type(stack: &mut Stack<'_>) -> Result<(), BuildRefusal>
    ensures made { IfOk result (λ _. played the.type_has (held stack.old) ≡ Some (held stack.new)) }
    ensures misfit { IfErr result (λ e. e ≡ Misfit → played the.type_has (held stack.old) ≡ None) }
{
    stack.token()?;
    let kind = stack.kind()?;
    stack.push(Part::Tail(TypeTail::Has(kind)))
}

// Plays a production of declarations.
pub(crate) fn decl(stack: &mut Stack<'_>, alloc: Global, rule: DeclRule) -> Result<(), BuildRefusal>
    ensures made { IfOk result (λ _. played_any (decl_rule_in rule) (held stack.old) ≡ Some (held stack.new)) }
    ensures misfit { IfErr result (λ e. e ≡ Misfit → played_any (decl_rule_in rule) (held stack.old) ≡ None) }
{
    match rule {
        DeclRule::NoDecls => none(stack, alloc),
        DeclRule::MoreDecls => more(stack),
        DeclRule::Val => val(stack, alloc),
        DeclRule::Type => ty(stack, alloc),
        DeclRule::Data => data_declaration(stack, alloc),
        DeclRule::Module => module(stack, alloc),
        DeclRule::Signature => signature(stack, alloc),
        DeclRule::Include => include(stack),
        DeclRule::Open => open_type(stack),
        DeclRule::Is => known_type(stack),
        DeclRule::Has => kinded_type(stack),
    }
}
