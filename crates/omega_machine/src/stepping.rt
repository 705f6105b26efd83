// Runs that are made one step at a time.
ghost use Rattle.std.specs.Prelude.{◌≡◌, IfOk};
ghost use Rattle.omega_terms.specs.Steps.{IsValue};
ghost use Rattle.omega_machine.specs.Inner.Contexts.{fill_ready, plug};
ghost use Rattle.omega_machine.specs.Inner.Moves.{IsTyped, AreSound, IsSoundReady};
ghost use Rattle.omega_machine.specs.Inner.Stepping.{whole, IsUnderWay, Follows, rule_of as rule_at, rule_of_call, rule_of_test};

use crate::frames::{Focus, Frame, Ready};
use crate::outcome::Arith;
use crate::redexes::{Step, reduce};
use crate::refocus::{Found, refocus};
use omega_kinds::Mem;
use omega_terms::{Term, TermNode};
use std::alloc::Global;

/// The rule by which a redex makes its step, or has its fault.
#[derive(Clone, Copy, Debug, PartialEq, Eq)]
pub enum Rule {
    /// The call of a function `fn`.
    CallLam,
    /// The call of a recursive function `fix`.
    CallFix,
    /// The instance of a function of types.
    InstTyLam,
    /// A field of a record.
    GetFields,
    /// The opening of a package.
    UnpackPack,
    /// A conditional on `true`.
    IfTrue,
    /// A conditional on `false`.
    IfFalse,
    /// An operator on two numbers.
    Arith,
    /// A case of an injected value.
    CaseInj,
    /// The unrolling of a rolled value.
    UnrollRoll,
}

/// A redex: a form with a value in its hole, and the rule for it.
#[derive(Drop)]
pub struct Redex {
    pub rule: Rule,
    pub form: Ready,
    pub value: Term,
}

/// What comes next in a run.
#[derive(Drop)]
pub enum Next {
    /// Nothing: the term is this value.
    Value(Term),
    /// A step of this redex, and the run after it, in whose frames the redex stood.
    Step(Redex, Run),
    /// The fault of this redex in these frames, the outermost first.
    Fault(Arith, Redex, Vec<Frame>),
}

/// A run of a closed term, between two steps: the part in which the next redex is looked for, in the frames round it.
#[derive(Drop)]
pub struct Run {
    frames: Vec<Frame>,
    focus: Focus,
}

impl Run {
    /// The run of a closed term that has a type, before the first step. `Err` is out of memory.
    pub fn start(alloc: Global, term: &Term) -> Result<Run, Mem>
        requires { IsTyped term.now }
        ensures { IfOk result (λ r. (whole r ≡ term.now) × IsUnderWay r) }
    {
        Ok(Run {
            frames: Vec::new(alloc),
            focus: Focus::Term(term.share()?),
        })
    }

    /// The frames, the outermost first. Takes no memory.
    pub fn frames(&self) -> &[Frame]
        ensures { result.now ≡ self.now.frames.items }
    {
        self.frames.as_slice()
    }

    /// What comes next, exactly: the term is a value; or it is a redex in frames, and the next step or the fault is that
    /// of this redex by its rule. `Err` is out of memory.
    pub fn next(self, alloc: Global) -> Result<Next, Mem>
        requires { IsUnderWay self }
        ensures { IfOk result (λ n. Follows (whole self) n) }
    {
        let Run { frames, focus } = self;
        let mut frames = frames;
        match refocus(alloc, &mut frames, focus)? {
            Found::Value(value) => Ok(Next::Value(value)),
            Found::Redex(form, value) => step(alloc, frames, form, value),
        }
    }
}

// What a form with a value in its hole does, in frames.
fn step(alloc: Global, frames: Vec<Frame>, form: Ready, value: Term) -> Result<Next, Mem>
    requires frames { AreSound frames.items }
    requires sound { IsSoundReady form }
    requires value { IsValue value }
    requires typed { IsTyped (plug frames.items (fill_ready form value)) }
    ensures { IfOk result (λ n. Follows (plug frames.items (fill_ready form value)) n) }
{
    let redex = Redex {
        rule: rule_of(&form, &value),
        form: form.share()?,
        value: value.share()?,
    };
    match reduce(alloc, form, &value)? {
        Step::To(focus) => Ok(Next::Step(redex, Run { frames, focus })),
        Step::Fault(fault) => Ok(Next::Fault(fault, redex, frames)),
    }
}

// The rule for a form with a value in its hole.
fn rule_of(form: &Ready, value: &Term) -> Rule
    ensures { result ≡ rule_at (fill_ready form.now value.now) }
{
    match form {
        Ready::Argument(function) => call_rule(function),
        Ready::Instance(_) => Rule::InstTyLam,
        Ready::Part(_) => Rule::GetFields,
        Ready::Opened(_) => Rule::UnpackPack,
        Ready::Test(_, _) => test_rule(value),
        Ready::Right(_, _) => Rule::Arith,
        Ready::Cased(_) => Rule::CaseInj,
        Ready::Unrolled => Rule::UnrollRoll,
    }
}

// The rule for a call of this function.
fn call_rule(function: &Term) -> Rule
    ensures { result ≡ rule_of_call function.now }
{
    match function.node() {
        TermNode::Fix(_, _, _) => Rule::CallFix,
        _ => Rule::CallLam,
    }
}

// The rule for a conditional on this test.
fn test_rule(test: &Term) -> Rule
    ensures { result ≡ rule_of_test test.now }
{
    match test.node() {
        TermNode::Bool(true) => Rule::IfTrue,
        _ => Rule::IfFalse,
    }
}
