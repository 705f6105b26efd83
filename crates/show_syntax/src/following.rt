// Which tokens could stand behind a front of the tokens of a program.
use crate::terminals::terminals;
use fing_lexer::Token;
use omega_kinds::Mem;
use parse_grammar::choices::{choose, next};
use parse_grammar::grammar::{Class, Symbol, Terminal};
use parse_grammar::sides::right_side;
use std::alloc::Global;

/// The terminals with which some program goes on behind the first `at` tokens, which begin some program; in a fixed
/// order. `Err` is out of memory.
pub fn followers(alloc: Global, tokens: &[Token], at: usize) -> Result<Vec<Terminal>, Mem> {
    let front = tokens.get(..at).unwrap_or(tokens);
    let stack = wanted_behind(alloc, front)?;
    let mut found = Vec::new(alloc);
    for (terminal, _) in terminals(alloc)? {
        if follows(alloc, &stack, terminal)? {
            found.push(terminal)?;
        }
    }
    Ok(found)
}

// The symbols that are wanted once the tokens are read, the last one first.
fn wanted_behind(alloc: Global, front: &[Token]) -> Result<Vec<Symbol>, Mem> {
    let mut stack = Vec::new(alloc);
    stack.push(Symbol::Phrase(Class::Binds))?;
    let mut rest = front;
    for _ in 0..u64::MAX {
        if rest.is_empty() {
            break;
        }
        match stack.pop() {
            Some(Symbol::Token(_)) => rest = rest.get(1..).unwrap_or(&[]),
            Some(Symbol::Phrase(class)) => match choose(class, next(rest)) {
                Some(rule) => push_all(&mut stack, right_side(rule))?,
                None => break,
            },
            None => break,
        }
    }
    Ok(stack)
}

// Puts symbols on a stack, the first one on top.
fn push_all(stack: &mut Vec<Symbol>, symbols: &[Symbol]) -> Result<(), Mem> {
    for symbol in symbols.iter().rev() {
        stack.push(*symbol)?;
    }
    Ok(())
}

// Whether a terminal can come next where these symbols are wanted.
fn follows(alloc: Global, wanted: &[Symbol], terminal: Terminal) -> Result<bool, Mem> {
    let mut rest = wanted;
    let mut top = Vec::new(alloc);
    for _ in 0..u64::MAX {
        let Some(symbol) = take(&mut top, &mut rest) else {
            return Ok(false);
        };
        match symbol {
            Symbol::Token(other) => return Ok(other == terminal),
            Symbol::Phrase(class) => match choose(class, Some(terminal)) {
                Some(rule) => push_all(&mut top, right_side(rule))?,
                None => return Ok(false),
            },
        }
    }
    Ok(false)
}

// Takes the symbol on top, of those of a production first.
fn take(top: &mut Vec<Symbol>, rest: &mut &[Symbol]) -> Option<Symbol> {
    if let Some(symbol) = top.pop() {
        return Some(symbol);
    }
    let (last, front) = rest.split_last()?;
    *rest = front;
    Some(*last)
}
