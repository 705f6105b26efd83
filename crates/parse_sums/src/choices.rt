// Choices: `if`, and `case` with its branches.
ghost use Rattle.std.specs.Prelude.{◌≡◌, Some, None, IfOk, IfErr};
ghost use Rattle.parse_grammar.specs.Grammar as the;
ghost use Rattle.parse_stack.specs.Inner.Part.{held};
ghost use Rattle.parse_stack.specs.Inner.Play.{played};
ghost use Rattle.parse_stack.specs.declared.refusal.BuildRefusal.TheVariants.{Misfit};

use fing_syntax::{Branch, Exp, ExpWhat};
use parse_forms::{Kept, named, up_to};
use parse_stack::{BuildRefusal, Part, Stack};
use std::alloc::Global;

/// Plays `if E then E else E`.
pub fn if_else(stack: &mut Stack<'_>, alloc: Global) -> Result<(), BuildRefusal>
    ensures made { IfOk result (λ _. played the.exp_if (held stack.old) ≡ Some (held stack.new)) }
    ensures misfit { IfErr result (λ e. e ≡ Misfit → played the.exp_if (held stack.old) ≡ None) }
{
    let word = stack.token()?;
    let test = Box::new(alloc, stack.exp()?)?;
    stack.token()?;
    let yes = Box::new(alloc, stack.exp()?)?;
    stack.token()?;
    let no = stack.exp()?;
    let span = up_to(word.span, no.span);
    let no = Box::new(alloc, no)?;
    stack.push(Part::Exp(Exp {
        span,
        what: ExpWhat::If(test, yes, no),
    }))
}

/// Plays `case E : T of {..}`.
pub fn case_of(stack: &mut Stack<'_>, alloc: Global) -> Result<(), BuildRefusal>
    ensures made { IfOk result (λ _. played the.exp_case (held stack.old) ≡ Some (held stack.new)) }
    ensures misfit { IfErr result (λ e. e ≡ Misfit → played the.exp_case (held stack.old) ≡ None) }
{
    let word = stack.token()?;
    let whole = Box::new(alloc, stack.exp()?)?;
    stack.token()?;
    let result = Kept::new(stack.ty()?);
    stack.token()?;
    stack.token()?;
    let mut branches = stack.branches()?;
    let last = stack.token()?;
    branches.reverse();
    let span = up_to(word.span, last.span);
    let result = result.take();
    stack.push(Part::Exp(Exp {
        span,
        what: ExpWhat::Case {
            whole,
            result,
            branches,
        },
    }))
}

/// Plays that there is no branch, or none after a branch.
pub fn no_branches(stack: &mut Stack<'_>, alloc: Global) -> Result<(), BuildRefusal>
    ensures made { IfOk result (λ _. played the.no_branches (held stack.old) ≡ Some (held stack.new)) }
    ensures misfit { IfErr result (λ e. e ≡ Misfit → played the.no_branches (held stack.old) ≡ None) }
{
    stack.push(Part::Branches(Vec::new(alloc)))
}

/// Plays a branch `X (X) => E` and the branches after it.
#[tactic(auto, using(parse_forms::proofs::Chained::reverse_push))]
pub fn branch(stack: &mut Stack<'_>, alloc: Global) -> Result<(), BuildRefusal>
    ensures made { IfOk result (λ _. played the.case_branch (held stack.old) ≡ Some (held stack.new)) }
    ensures misfit { IfErr result (λ e. e ≡ Misfit → played the.case_branch (held stack.old) ≡ None) }
{
    let label = stack.token()?;
    stack.token()?;
    let name = stack.token()?;
    stack.token()?;
    stack.token()?;
    let body = Kept::new(stack.exp()?);
    let mut rest = stack.branches()?;
    let label = named(alloc, label)?;
    let name = named(alloc, name)?;
    let body = body.take();
    rest.push(Branch { label, name, body })?;
    stack.push(Part::Branches(rest))
}

/// Plays a comma, the branch behind it and the branches after that.
pub fn next_branch(stack: &mut Stack<'_>, alloc: Global) -> Result<(), BuildRefusal>
    ensures made { IfOk result (λ _. played the.next_branch (held stack.old) ≡ Some (held stack.new)) }
    ensures misfit { IfErr result (λ e. e ≡ Misfit → played the.next_branch (held stack.old) ≡ None) }
{
    stack.token()?;
    branch(stack, alloc)
}
