// The steps through a program.
use crate::rule::Rule;
use fing_syntax::{Bind, Decl, Exp, Mod, SigEx, TyEx};
use fing_text::Span;
use omega_kinds::Mem;
use std::alloc::Global;

/// How many phrases stand one in another, at most, among the steps: the phrases inside are left out.
pub const DEEPEST: u32 = 64;

/// How many phrases there are among the steps, at most: those behind are left out.
pub const MOST: usize = 10000;

/// A phrase of any sort.
#[derive(Clone, Copy)]
pub enum Phrase<'a> {
    Type(&'a TyEx),
    Value(&'a Exp),
    Module(&'a Mod),
    Signature(&'a SigEx),
    Binding(&'a Bind),
    Declaration(&'a Decl),
}

/// What is done with a phrase: it is seen, with its rule and its place, so deep in the tree; a part of the program begins that
/// has a scope of its own; what the phrase binds comes into scope, of a case that of the branch of a number; or the part ends.
#[derive(Clone, Copy, Debug, PartialEq, Eq)]
pub enum Move {
    See { depth: u32, rule: Rule, at: Span },
    Open,
    Enter { branch: usize },
    Close,
}

/// A step: a phrase, and what is done with it.
#[derive(Clone, Copy)]
pub struct Step<'a> {
    pub phrase: Phrase<'a>,
    pub done: Move,
}

/// Steps, in order.
#[derive(Drop)]
pub struct Steps<'a> {
    list: Vec<Step<'a>>,
    phrases: usize,
    is_cut: bool,
}

impl<'a> Steps<'a> {
    // No steps.
    pub(crate) fn new(alloc: Global) -> Steps<'a> {
        Steps {
            list: Vec::new(alloc),
            phrases: 0,
            is_cut: false,
        }
    }

    /// The steps.
    pub fn list(&self) -> &[Step<'a>] {
        self.list.as_slice()
    }

    /// Whether phrases are left out, since they stand too deep, or there are too many.
    pub fn is_cut(&self) -> bool {
        self.is_cut
    }

    // Adds a phrase, unless there are too many. Whether the phrases in it are to be added.
    pub(crate) fn see(
        &mut self,
        depth: u32,
        rule: Rule,
        at: Span,
        phrase: Phrase<'a>,
    ) -> Result<bool, Mem> {
        if self.phrases >= MOST {
            self.is_cut = true;
            return Ok(false);
        }
        self.phrases = self.phrases.saturating_add(1);
        let done = Move::See { depth, rule, at };
        self.list.push(Step { phrase, done })?;
        if depth >= DEEPEST {
            self.is_cut = true;
        }
        Ok(depth < DEEPEST)
    }

    // Does something else with a phrase, unless none can be seen behind it.
    pub(crate) fn add(&mut self, phrase: Phrase<'a>, done: Move) -> Result<(), Mem> {
        if self.phrases < MOST {
            self.list.push(Step { phrase, done })?;
        }
        Ok(())
    }

    // Begins a part in which what a phrase binds is in scope.
    pub(crate) fn open(&mut self, phrase: Phrase<'a>, branch: usize) -> Result<(), Mem> {
        self.add(phrase, Move::Open)?;
        self.add(phrase, Move::Enter { branch })
    }
}
