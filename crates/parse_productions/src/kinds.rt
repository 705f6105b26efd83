// Kinds.
ghost use Rattle.std.specs.Prelude.{◌≡◌, Some, None, IfOk, IfErr};
ghost use Rattle.parse_grammar.specs.Grammar as the;
ghost use Rattle.parse_grammar.specs.Inner.View.{kind_rule_in};
ghost use Rattle.parse_stack.specs.Inner.Part.{held};
ghost use Rattle.parse_stack.specs.Inner.Play.{played, played_any};
ghost use Rattle.parse_stack.specs.declared.refusal.BuildRefusal.TheVariants.{Misfit};

use omega_kinds::Kind;
use parse_forms::{KindPart, kind_chain};
use parse_grammar::grammar::KindRule;
use parse_stack::{BuildRefusal, Part, Stack};
use std::alloc::Global;

fn chain(stack: &mut Stack<'_>, alloc: Global) -> Result<(), BuildRefusal>
    ensures made { IfOk result (λ _. played the.kind_chain (held stack.old) ≡ Some (held stack.new)) }
    ensures misfit { IfErr result (λ e. e ≡ Misfit → played the.kind_chain (held stack.old) ≡ None) }
{
    let from = stack.kind()?;
    let to = stack.kind_arrow()?;
    let kind = kind_chain(alloc, from, to)?;
    stack.push(Part::Kind(kind))
}

fn no_arrow(stack: &mut Stack<'_>) -> Result<(), BuildRefusal>
    ensures made { IfOk result (λ _. played the.no_kind_arrow (held stack.old) ≡ Some (held stack.new)) }
    ensures misfit { IfErr result (λ e. e ≡ Misfit → played the.no_kind_arrow (held stack.old) ≡ None) }
{
    stack.push(Part::KindArrow(None))
}

fn arrow(stack: &mut Stack<'_>) -> Result<(), BuildRefusal>
    ensures made { IfOk result (λ _. played the.kind_arrow (held stack.old) ≡ Some (held stack.new)) }
    ensures misfit { IfErr result (λ e. e ≡ Misfit → played the.kind_arrow (held stack.old) ≡ None) }
{
    stack.token()?;
    let kind = stack.kind()?;
    stack.push(Part::KindArrow(Some(kind)))
}

fn ty(stack: &mut Stack<'_>) -> Result<(), BuildRefusal>
    ensures made { IfOk result (λ _. played the.kind_type (held stack.old) ≡ Some (held stack.new)) }
    ensures misfit { IfErr result (λ e. e ≡ Misfit → played the.kind_type (held stack.old) ≡ None) }
{
    let word = stack.token()?;
    stack.push(Part::Kind(KindPart {
        kind: Kind::Star,
        last: word.span,
    }))
}

fn paren(stack: &mut Stack<'_>) -> Result<(), BuildRefusal>
    ensures made { IfOk result (λ _. played the.kind_paren (held stack.old) ≡ Some (held stack.new)) }
    ensures misfit { IfErr result (λ e. e ≡ Misfit → played the.kind_paren (held stack.old) ≡ None) }
{
    stack.token()?;
    let kind = stack.kind()?.kind;
    let last = stack.token()?.span;
    stack.push(Part::Kind(KindPart { kind, last }))
}

// Plays a production of kinds.
pub(crate) fn kind(stack: &mut Stack<'_>, alloc: Global, rule: KindRule) -> Result<(), BuildRefusal>
    ensures made { IfOk result (λ _. played_any (kind_rule_in rule) (held stack.old) ≡ Some (held stack.new)) }
    ensures misfit { IfErr result (λ e. e ≡ Misfit → played_any (kind_rule_in rule) (held stack.old) ≡ None) }
{
    match rule {
        KindRule::Chain => chain(stack, alloc),
        KindRule::NoArrow => no_arrow(stack),
        KindRule::Arrow => arrow(stack),
        KindRule::Type => ty(stack),
        KindRule::Paren => paren(stack),
    }
}
