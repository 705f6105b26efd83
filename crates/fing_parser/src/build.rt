// Trees out of the steps in which tokens are read. The steps are played from the last to the first.
ghost use Rattle.std.specs.Prelude.{◌≡◌, [], ◌∷◌, Some, None, IfOk, IfErr, OnOk};
ghost use Rattle.fing_syntax.specs.Inner.View.{binds as binds_of};
ghost use Rattle.parse_grammar.specs.Grammar as the;
ghost use Rattle.parse_grammar.specs.Inner.Steps.{move_in, moves};
ghost use Rattle.parse_stack.specs.Inner.Item.{TokenItem};
ghost use Rattle.parse_stack.specs.Inner.Part.{held};
ghost use Rattle.parse_stack.specs.Inner.Play.{play, play_all, told};
ghost use Rattle.parse_stack.specs.declared.refusal.BuildRefusal.TheVariants.{Mem as WantOfMemory, Misfit};

use fing_lexer::Token;
use fing_syntax::{Bind, UnitTree};
use parse_grammar::Step;
use parse_productions::play as play_rule;
use parse_stack::{BuildRefusal, Part, Stack};
use std::alloc::Global;

// Puts a token on the stack. It is not inlined, since only a token needs the room for a part that this takes.
#[inline(never)]
fn push_token<'a>(stack: &mut Stack<'a>, token: &'a Token) -> Result<(), BuildRefusal>
    ensures pushed { OnOk result (held stack.new ≡ TokenItem token.now ∷ held stack.old) }
    ensures memory { IfErr result (λ e. e ≡ WantOfMemory) }
{
    stack.push(Part::Token(token))
}

// Plays a step.
fn play_step<'a>(stack: &mut Stack<'a>, alloc: Global, step: Step<'a>) -> Result<(), BuildRefusal>
    ensures made { IfOk result (λ _. play (move_in step.entry) (held stack.old) ≡ Some (held stack.new)) }
    ensures misfit { IfErr result (λ e. e ≡ Misfit → play (move_in step.entry) (held stack.old) ≡ None) }
{
    match step {
        Step::Token(token) => push_token(stack, token),
        Step::Rule(rule) => play_rule(stack, alloc, rule),
    }
}

// The stack that the steps leave.
fn play_steps<'a>(alloc: Global, steps: Vec<Step<'a>>) -> Result<Stack<'a>, BuildRefusal>
    ensures made { IfOk result (λ s. play_all (moves steps.entry.items) [] ≡ Some (held s)) }
    ensures misfit { IfErr result (λ e. e ≡ Misfit → play_all (moves steps.entry.items) [] ≡ None) }
{
    let mut stack = Stack::new(alloc);
    let mut left = steps;
    'play: while let Some(step) = left.pop() {
        play_step(&mut stack, alloc, step)?;
    }
    Ok(stack)
}

// The bindings of the program that these steps read. `Misfit` comes exactly where they read none, and `Mem` is want
// of memory.
pub(crate) fn build_binds(alloc: Global, steps: Vec<Step<'_>>) -> Result<Vec<Bind>, BuildRefusal>
    ensures built { IfOk result (λ b. told the.Binds (moves steps.entry.items) ≡ Some (binds_of b.items)) }
    ensures misfit { IfErr result (λ e. e ≡ Misfit → told the.Binds (moves steps.entry.items) ≡ None) }
{
    let mut stack = play_steps(alloc, steps)?;
    let mut binds = stack.binds()?;
    binds.reverse();
    Ok(binds)
}

// The units of the text that these steps read. `Misfit` comes exactly where they read none, and `Mem` is want of memory.
pub(crate) fn build_units(
    alloc: Global,
    steps: Vec<Step<'_>>,
) -> Result<Vec<UnitTree>, BuildRefusal>
    ensures built { IfOk result (λ us. told the.Units (moves steps.entry.items) ≡ Some us.items) }
    ensures misfit { IfErr result (λ e. e ≡ Misfit → told the.Units (moves steps.entry.items) ≡ None) }
{
    let mut stack = play_steps(alloc, steps)?;
    let mut units = stack.units()?;
    units.reverse();
    Ok(units)
}
