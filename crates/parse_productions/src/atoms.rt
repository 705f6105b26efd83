// Expressions that need no parentheses.
ghost use Rattle.std.specs.Prelude.{◌≡◌, Some, None, IfOk, IfErr};
ghost use Rattle.parse_grammar.specs.Grammar as the;
ghost use Rattle.parse_grammar.specs.Inner.View.{atom_rule_in};
ghost use Rattle.parse_stack.specs.Inner.Part.{held};
ghost use Rattle.parse_stack.specs.Inner.Play.{played, played_any};
ghost use Rattle.parse_stack.specs.declared.refusal.BuildRefusal.TheVariants.{Misfit};

use fing_syntax::{Exp, ExpWhat};
use parse_forms::{Kept, bytes_in, let_exp, named, number_in, pack_exp, up_to};
use parse_grammar::grammar::AtomRule;
use parse_stack::{BuildRefusal, Part, Stack};
use parse_sums::{injection, roll, unroll};
use std::alloc::Global;

fn number(stack: &mut Stack<'_>) -> Result<(), BuildRefusal>
    ensures made { IfOk result (λ _. played the.exp_number (held stack.old) ≡ Some (held stack.new)) }
    ensures misfit { IfErr result (λ e. e ≡ Misfit → played the.exp_number (held stack.old) ≡ None) }
{
    let token = stack.token()?;
    let value = number_in(&token.what);
    stack.push(Part::Exp(Exp {
        span: token.span,
        what: ExpWhat::Int(value),
    }))
}

fn text(stack: &mut Stack<'_>, alloc: Global) -> Result<(), BuildRefusal>
    ensures made { IfOk result (λ _. played the.exp_text (held stack.old) ≡ Some (held stack.new)) }
    ensures misfit { IfErr result (λ e. e ≡ Misfit → played the.exp_text (held stack.old) ≡ None) }
{
    let token = stack.token()?;
    let bytes = bytes_in(alloc, &token.what)?;
    stack.push(Part::Exp(Exp {
        span: token.span,
        what: ExpWhat::Text(bytes),
    }))
}

fn true_exp(stack: &mut Stack<'_>) -> Result<(), BuildRefusal>
    ensures made { IfOk result (λ _. played the.exp_true (held stack.old) ≡ Some (held stack.new)) }
    ensures misfit { IfErr result (λ e. e ≡ Misfit → played the.exp_true (held stack.old) ≡ None) }
{
    let word = stack.token()?;
    stack.push(Part::Exp(Exp {
        span: word.span,
        what: ExpWhat::Bool(true),
    }))
}

fn false_exp(stack: &mut Stack<'_>) -> Result<(), BuildRefusal>
    ensures made { IfOk result (λ _. played the.exp_false (held stack.old) ≡ Some (held stack.new)) }
    ensures misfit { IfErr result (λ e. e ≡ Misfit → played the.exp_false (held stack.old) ≡ None) }
{
    let word = stack.token()?;
    stack.push(Part::Exp(Exp {
        span: word.span,
        what: ExpWhat::Bool(false),
    }))
}

fn path(stack: &mut Stack<'_>) -> Result<(), BuildRefusal>
    ensures made { IfOk result (λ _. played the.exp_path (held stack.old) ≡ Some (held stack.new)) }
    ensures misfit { IfErr result (λ e. e ≡ Misfit → played the.exp_path (held stack.old) ≡ None) }
{
    let path = stack.module()?;
    stack.push(Part::Exp(Exp {
        span: path.span,
        what: ExpWhat::Path(path),
    }))
}

fn fields(stack: &mut Stack<'_>) -> Result<(), BuildRefusal>
    ensures made { IfOk result (λ _. played the.exp_fields (held stack.old) ≡ Some (held stack.new)) }
    ensures misfit { IfErr result (λ e. e ≡ Misfit → played the.exp_fields (held stack.old) ≡ None) }
{
    let mark = stack.token()?;
    let mut fields = stack.field_exps()?;
    let last = stack.token()?;
    fields.reverse();
    let span = up_to(mark.span, last.span);
    stack.push(Part::Exp(Exp {
        span,
        what: ExpWhat::Fields(fields),
    }))
}

fn let_in(stack: &mut Stack<'_>, alloc: Global) -> Result<(), BuildRefusal>
    ensures made { IfOk result (λ _. played the.exp_let (held stack.old) ≡ Some (held stack.new)) }
    ensures misfit { IfErr result (λ e. e ≡ Misfit → played the.exp_let (held stack.old) ≡ None) }
{
    let word = stack.token()?;
    let mut binds = stack.binds()?;
    stack.token()?;
    let body = Kept::new(stack.exp()?);
    let last = stack.token()?;
    binds.reverse();
    let span = up_to(word.span, last.span);
    let exp = let_exp(alloc, span, binds, body.take())?;
    stack.push(Part::Exp(exp))
}

fn pack(stack: &mut Stack<'_>, alloc: Global) -> Result<(), BuildRefusal>
    ensures made { IfOk result (λ _. played the.exp_pack (held stack.old) ≡ Some (held stack.new)) }
    ensures misfit { IfErr result (λ e. e ≡ Misfit → played the.exp_pack (held stack.old) ≡ None) }
{
    let word = stack.token()?;
    let module = Kept::new(stack.module()?);
    stack.token()?;
    let sig = stack.sig()?;
    let span = up_to(word.span, sig.span);
    let exp = pack_exp(alloc, span, module.take(), sig)?;
    stack.push(Part::Exp(exp))
}

fn paren(stack: &mut Stack<'_>) -> Result<(), BuildRefusal>
    ensures made { IfOk result (λ _. played the.exp_paren (held stack.old) ≡ Some (held stack.new)) }
    ensures misfit { IfErr result (λ e. e ≡ Misfit → played the.exp_paren (held stack.old) ≡ None) }
{
    let mark = stack.token()?;
    let exp = Kept::new(stack.exp()?);
    let last = stack.token()?;
    let span = up_to(mark.span, last.span);
    stack.push(Part::Exp(Exp {
        span,
        what: exp.take().what,
    }))
}

fn no_fields(stack: &mut Stack<'_>, alloc: Global) -> Result<(), BuildRefusal>
    ensures made { IfOk result (λ _. played the.no_exp_fields (held stack.old) ≡ Some (held stack.new)) }
    ensures misfit { IfErr result (λ e. e ≡ Misfit → played the.no_exp_fields (held stack.old) ≡ None) }
{
    stack.push(Part::FieldExps(Vec::new(alloc)))
}

#[tactic(auto, using(parse_forms::proofs::Chained::reverse_push))]
fn field(stack: &mut Stack<'_>, alloc: Global) -> Result<(), BuildRefusal>
    ensures made { IfOk result (λ _. played the.exp_field (held stack.old) ≡ Some (held stack.new)) }
    ensures misfit { IfErr result (λ e. e ≡ Misfit → played the.exp_field (held stack.old) ≡ None) }
{
    let name = stack.token()?;
    stack.token()?;
    let value = Kept::new(stack.exp()?);
    let mut rest = stack.field_exps()?;
    let name = named(alloc, name)?;
    rest.push((name, value.take()))?;
    stack.push(Part::FieldExps(rest))
}

#[tactic(auto, using(parse_forms::proofs::Chained::reverse_push))]
fn next_field(stack: &mut Stack<'_>, alloc: Global) -> Result<(), BuildRefusal>
    ensures made { IfOk result (λ _. played the.next_exp_field (held stack.old) ≡ Some (held stack.new)) }
    ensures misfit { IfErr result (λ e. e ≡ Misfit → played the.next_exp_field (held stack.old) ≡ None) }
{
    stack.token()?;
    let name = stack.token()?;
    stack.token()?;
    let value = Kept::new(stack.exp()?);
    let mut rest = stack.field_exps()?;
    let name = named(alloc, name)?;
    rest.push((name, value.take()))?;
    stack.push(Part::FieldExps(rest))
}

// Plays a production of expressions that need no parentheses.
pub(crate) fn atom(stack: &mut Stack<'_>, alloc: Global, rule: AtomRule) -> Result<(), BuildRefusal>
    ensures made { IfOk result (λ _. played_any (atom_rule_in rule) (held stack.old) ≡ Some (held stack.new)) }
    ensures misfit { IfErr result (λ e. e ≡ Misfit → played_any (atom_rule_in rule) (held stack.old) ≡ None) }
{
    match rule {
        AtomRule::Number => number(stack),
        AtomRule::Text => text(stack, alloc),
        AtomRule::True => true_exp(stack),
        AtomRule::False => false_exp(stack),
        AtomRule::Path => path(stack),
        AtomRule::Fields => fields(stack),
        AtomRule::Inj => injection(stack, alloc),
        AtomRule::Roll => roll(stack, alloc),
        AtomRule::Unroll => unroll(stack, alloc),
        AtomRule::Let => let_in(stack, alloc),
        AtomRule::Pack => pack(stack, alloc),
        AtomRule::Paren => paren(stack),
        AtomRule::NoFields => no_fields(stack, alloc),
        AtomRule::Field => field(stack, alloc),
        AtomRule::LastField => no_fields(stack, alloc),
        AtomRule::NextField => next_field(stack, alloc),
    }
}
