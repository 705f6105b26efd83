// Operators.
ghost use Rattle.std.specs.Prelude.{◌≡◌, Some, None, IfOk, IfErr};
ghost use Rattle.parse_grammar.specs.Grammar as the;
ghost use Rattle.parse_grammar.specs.Inner.View.{op_rule_in};
ghost use Rattle.parse_stack.specs.Inner.Part.{held};
ghost use Rattle.parse_stack.specs.Inner.Play.{played, played_any};
ghost use Rattle.parse_stack.specs.declared.refusal.BuildRefusal.TheVariants.{Misfit};

use fing_syntax::Op;
use parse_forms::{Kept, ops_chain};
use parse_grammar::grammar::OpRule;
use parse_stack::{BuildRefusal, Part, Stack};
use std::alloc::Global;

fn no_ops(stack: &mut Stack<'_>, alloc: Global) -> Result<(), BuildRefusal>
    ensures made { IfOk result (λ _. played the.no_compare (held stack.old) ≡ Some (held stack.new)) }
    ensures misfit { IfErr result (λ e. e ≡ Misfit → played the.no_compare (held stack.old) ≡ None) }
{
    stack.push(Part::Ops(Vec::new(alloc)))
}

#[tactic(auto, using(parse_forms::proofs::Chained::reverse_push))]
fn less(stack: &mut Stack<'_>, alloc: Global) -> Result<(), BuildRefusal>
    ensures made { IfOk result (λ _. played the.less_than (held stack.old) ≡ Some (held stack.new)) }
    ensures misfit { IfErr result (λ e. e ≡ Misfit → played the.less_than (held stack.old) ≡ None) }
{
    stack.token()?;
    let right = stack.exp()?;
    let mut ops = Vec::new(alloc);
    ops.push((Op::Less, right))?;
    stack.push(Part::Ops(ops))
}

#[tactic(auto, using(parse_forms::proofs::Chained::reverse_push))]
fn equal(stack: &mut Stack<'_>, alloc: Global) -> Result<(), BuildRefusal>
    ensures made { IfOk result (λ _. played the.equal_to (held stack.old) ≡ Some (held stack.new)) }
    ensures misfit { IfErr result (λ e. e ≡ Misfit → played the.equal_to (held stack.old) ≡ None) }
{
    stack.token()?;
    let right = stack.exp()?;
    let mut ops = Vec::new(alloc);
    ops.push((Op::Equal, right))?;
    stack.push(Part::Ops(ops))
}

// Operands of one level with the operators between them.
pub(crate) fn chain(stack: &mut Stack<'_>, alloc: Global) -> Result<(), BuildRefusal>
    ensures made { IfOk result (λ _. played the.sums (held stack.old) ≡ Some (held stack.new)) }
    ensures misfit { IfErr result (λ e. e ≡ Misfit → played the.sums (held stack.old) ≡ None) }
{
    let first = Kept::new(stack.exp()?);
    let rest = stack.ops()?;
    let exp = ops_chain(alloc, first.take(), rest)?;
    stack.push(Part::Exp(exp))
}

#[tactic(auto, using(parse_forms::proofs::Chained::reverse_push))]
fn add(stack: &mut Stack<'_>) -> Result<(), BuildRefusal>
    ensures made { IfOk result (λ _. played the.add (held stack.old) ≡ Some (held stack.new)) }
    ensures misfit { IfErr result (λ e. e ≡ Misfit → played the.add (held stack.old) ≡ None) }
{
    stack.token()?;
    let right = Kept::new(stack.exp()?);
    let mut rest = stack.ops()?;
    rest.push((Op::Add, right.take()))?;
    stack.push(Part::Ops(rest))
}

#[tactic(auto, using(parse_forms::proofs::Chained::reverse_push))]
fn subtract(stack: &mut Stack<'_>) -> Result<(), BuildRefusal>
    ensures made { IfOk result (λ _. played the.subtract (held stack.old) ≡ Some (held stack.new)) }
    ensures misfit { IfErr result (λ e. e ≡ Misfit → played the.subtract (held stack.old) ≡ None) }
{
    stack.token()?;
    let right = Kept::new(stack.exp()?);
    let mut rest = stack.ops()?;
    rest.push((Op::Sub, right.take()))?;
    stack.push(Part::Ops(rest))
}

#[tactic(auto, using(parse_forms::proofs::Chained::reverse_push))]
fn multiply(stack: &mut Stack<'_>) -> Result<(), BuildRefusal>
    ensures made { IfOk result (λ _. played the.multiply (held stack.old) ≡ Some (held stack.new)) }
    ensures misfit { IfErr result (λ e. e ≡ Misfit → played the.multiply (held stack.old) ≡ None) }
{
    stack.token()?;
    let right = Kept::new(stack.exp()?);
    let mut rest = stack.ops()?;
    rest.push((Op::Mul, right.take()))?;
    stack.push(Part::Ops(rest))
}

#[tactic(auto, using(parse_forms::proofs::Chained::reverse_push))]
fn divide(stack: &mut Stack<'_>) -> Result<(), BuildRefusal>
    ensures made { IfOk result (λ _. played the.divide (held stack.old) ≡ Some (held stack.new)) }
    ensures misfit { IfErr result (λ e. e ≡ Misfit → played the.divide (held stack.old) ≡ None) }
{
    stack.token()?;
    let right = Kept::new(stack.exp()?);
    let mut rest = stack.ops()?;
    rest.push((Op::Div, right.take()))?;
    stack.push(Part::Ops(rest))
}

#[tactic(auto, using(parse_forms::proofs::Chained::reverse_push))]
fn remainder(stack: &mut Stack<'_>) -> Result<(), BuildRefusal>
    ensures made { IfOk result (λ _. played the.remainder (held stack.old) ≡ Some (held stack.new)) }
    ensures misfit { IfErr result (λ e. e ≡ Misfit → played the.remainder (held stack.old) ≡ None) }
{
    stack.token()?;
    let right = Kept::new(stack.exp()?);
    let mut rest = stack.ops()?;
    rest.push((Op::Rem, right.take()))?;
    stack.push(Part::Ops(rest))
}

// Plays a production of operators.
pub(crate) fn operator(
    stack: &mut Stack<'_>,
    alloc: Global,
    rule: OpRule,
) -> Result<(), BuildRefusal>
    ensures made { IfOk result (λ _. played_any (op_rule_in rule) (held stack.old) ≡ Some (held stack.new)) }
    ensures misfit { IfErr result (λ e. e ≡ Misfit → played_any (op_rule_in rule) (held stack.old) ≡ None) }
{
    match rule {
        OpRule::NoCompare => no_ops(stack, alloc),
        OpRule::LessThan => less(stack, alloc),
        OpRule::EqualTo => equal(stack, alloc),
        OpRule::Sums => chain(stack, alloc),
        OpRule::NoSums => no_ops(stack, alloc),
        OpRule::Add => add(stack),
        OpRule::Subtract => subtract(stack),
        OpRule::Products => chain(stack, alloc),
        OpRule::NoProducts => no_ops(stack, alloc),
        OpRule::Multiply => multiply(stack),
        OpRule::Divide => divide(stack),
        OpRule::Remainder => remainder(stack),
    }
}
