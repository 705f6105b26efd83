// The steps in which a list of tokens is read, with one token of look-ahead and a stack of the symbols still wanted.
ghost use Rattle.std.specs.Prelude.{◌≡◌, eqb, ◌++◌, ◌≤◌, ◌-◌, [], ◌∷◌, List, length, map, option_map, IfOk, IfErr, OnOk};
ghost use Rattle.parse_grammar.specs.Grammar.{kind_of, phrase, token as wants};
ghost use Rattle.parse_grammar.specs.Program.{Start};
ghost use Rattle.parse_grammar.specs.Inner.Refusal.{Refuses};
ghost use Rattle.parse_grammar.specs.Tree.{Trees, spelling};
ghost use Rattle.parse_grammar.specs.Inner.View.{class_in, symbol_in, terminal_in};
ghost use Rattle.parse_grammar.specs.Inner.Moves.{advance, pushed, track};
ghost use Rattle.parse_grammar.specs.Inner.Steps.{move_in, moves, wanted};
ghost use Rattle.parse_grammar.specs.Tables.{number_of};

use crate::choices::{choose, next, terminal_of};
use crate::grammar::{Class, Rule, Symbol, Terminal};
use crate::refusal::ParseRefusal;
use crate::sides::right_side;
use fing_lexer::Token;
use fing_text::SOURCE_LIMIT;
use omega_kinds::Mem;
use std::alloc::Global;

/// A step of reading: a token is taken, or a production is chosen for the phrase that comes next.
#[derive(Clone, Copy)]
pub enum Step<'a> {
    Token(&'a Token),
    Rule(Rule),
}

// Whether the token is the one that is wanted.
fn is_wanted(token: &Token, terminal: Terminal) -> bool
    ensures { result ≡ eqb (number_of (kind_of token.now)) (number_of (terminal_in terminal)) }
{
    terminal_of(token) == terminal
}

// The step where a terminal is wanted, and the tokens left.
fn take<'a>(terminal: Terminal, rest: &'a [Token]) -> Option<(Step<'a>, &'a [Token])>
    ensures { option_map (λ p. (move_in p.0, p.1.now)) result ≡ advance (wants (terminal_in terminal)) rest.now }
{
    match rest.split_first() {
        Some((token, more)) if is_wanted(token, terminal) => Some((Step::Token(token), more)),
        _ => None,
    }
}

// The step where a phrase is wanted, and the tokens left.
fn expand<'a>(class: Class, rest: &'a [Token]) -> Option<(Step<'a>, &'a [Token])>
    ensures { option_map (λ p. (move_in p.0, p.1.now)) result ≡ advance (phrase (class_in class)) rest.now }
{
    match choose(class, next(rest)) {
        Some(rule) => Some((Step::Rule(rule), rest)),
        None => None,
    }
}

// The step where a symbol is wanted, and the tokens left.
fn advance<'a>(symbol: Symbol, rest: &'a [Token]) -> Option<(Step<'a>, &'a [Token])>
    ensures { option_map (λ p. (move_in p.0, p.1.now)) result ≡ advance (symbol_in symbol) rest.now }
{
    match symbol {
        Symbol::Token(terminal) => take(terminal, rest),
        Symbol::Phrase(class) => expand(class, rest),
    }
}

// Puts symbols on the stack, the first one on top.
#[tactic(auto, using(crate::proofs::Stacked::wanted_push, crate::proofs::Stacked::before_last))]
fn push_all(stack: &mut Vec<Symbol>, symbols: &[Symbol]) -> Result<(), Mem>
    ensures { OnOk result (wanted stack.new.items ≡ map symbol_in symbols.now ++ wanted stack.old.items) }
{
    let mut left = symbols;
    'push: while let Some((last, front)) = left.split_last() {
        stack.push(*last)?;
        left = front;
    }
    Ok(())
}

// Puts what a step makes wanted on the stack.
fn want(stack: &mut Vec<Symbol>, step: Step<'_>) -> Result<(), Mem>
    ensures { OnOk result (wanted stack.new.items ≡ pushed (move_in step.entry) ++ wanted stack.old.items) }
{
    match step {
        Step::Token(_) => Ok(()),
        Step::Rule(rule) => push_all(stack, right_side(rule)),
    }
}

/// The steps in which the tokens, of which there are at most `SOURCE_LIMIT`, are read as a phrase of the start class. They
/// come in the order of reading: a production stands before the steps of its parts. `Syntax` comes exactly where the tokens
/// are no such phrase. Its `at` is the number of tokens in their longest front that begins one. `Mem` is want of memory.
pub fn recognise<'a>(
    alloc: Global,
    start: Class,
    tokens: &'a [Token],
) -> Result<Vec<Step<'a>>, ParseRefusal>
    requires start { Start (class_in start) }
    requires size { length tokens.now ≤ SOURCE_LIMIT }
    ensures steps { IfOk result (λ v. (d : Trees (phrase (class_in start) ∷ [])) × (spelling d ≡ tokens.now) × (track d [] ≡ moves v.items)) }
    ensures refused { IfErr result (λ e. Refuses (class_in start) tokens.now e) }
{
    let mut stack = Vec::new(alloc);
    let mut steps = Vec::new(alloc);
    let mut rest = tokens;
    stack.push(Symbol::Phrase(start))?;
    'read: while let Some(symbol) = stack.pop() {
        let Some((step, more)) = advance(symbol, rest) else {
            return Err(ParseRefusal::Syntax {
                at: (tokens.len() - rest.len()) as u32,
            });
        };
        want(&mut stack, step)?;
        steps.push(step)?;
        rest = more;
    }
    if rest.is_empty() {
        Ok(steps)
    } else {
        Err(ParseRefusal::Syntax {
            at: (tokens.len() - rest.len()) as u32,
        })
    }
}
