// One step: a redex is reduced.
ghost use Rattle.std.specs.Prelude.{◌≡◌, IfOk};
ghost use Rattle.omega_terms.specs.Steps.{IsValue, Step as StepsTo};
ghost use Rattle.omega_terms.specs.Term.{Term as TermTree};
ghost use Rattle.omega_machine.specs.Inner.Contexts.{fill_ready, case_of};
ghost use Rattle.omega_machine.specs.Inner.Moves.{IsTyped, IsSoundReady};
ghost use Rattle.omega_machine.specs.Inner.Reducts.{Reduces};

use crate::arithmetic::compute;
use crate::frames::{Focus, Ready};
use crate::outcome::Arith;
use omega_kinds::{Label, Mem};
use omega_terms::{Op, Term, TermNode, put_term, put_type, shift_term};
use omega_types::Ty;
use std::alloc::Global;

/// What a step gives: what stands in the place of the redex, or a fault.
#[derive(Drop)]
pub(crate) enum Step {
    To(Focus),
    Fault(Arith),
}

/// Makes the step of a frame with a value in its hole. `Err` is out of memory.
pub(crate) fn reduce(alloc: Global, frame: Ready, value: &Term) -> Result<Step, Mem>
    requires sound { IsSoundReady frame }
    requires value { IsValue value.now }
    requires typed { IsTyped (fill_ready frame value.now) }
    ensures { IfOk result (λ s. Reduces (fill_ready frame value.now) s) }
{
    match frame {
        Ready::Argument(function) => Ok(Step::To(Focus::Term(call(alloc, &function, value)?))),
        Ready::Instance(ty) => Ok(Step::To(Focus::Term(inst(alloc, value, &ty)?))),
        Ready::Part(label) => Ok(Step::To(Focus::Value(get(value, &label)?))),
        Ready::Opened(body) => Ok(Step::To(Focus::Term(open(alloc, value, &body)?))),
        Ready::Test(yes, no) => Ok(Step::To(Focus::Term(branch(value, yes, no)))),
        Ready::Right(op, left) => operate(alloc, op, &left, value),
        Ready::Cased(whole) => Ok(Step::To(Focus::Term(choose(alloc, &whole, value)?))),
        Ready::Unrolled => Ok(Step::To(Focus::Value(unroll(value)?))),
    }
}

// The body of a function with the argument put in, and of a recursive one with the function itself too.
fn call(alloc: Global, function: &Term, arg: &Term) -> Result<Term, Mem>
    requires function { IsValue function.now }
    requires arg { IsValue arg.now }
    requires typed { IsTyped (TermTree.Call function.now arg.now) }
    ensures { IfOk result (λ e. StepsTo (TermTree.Call function.now arg.now) e) }
{
    match function.node() {
        TermNode::Lam(_, body) => put_term(alloc, body, 0, arg),
        TermNode::Fix(_, _, body) => {
            let arg = shift_term(alloc, arg, 0, 1)?;
            let body = put_term(alloc, body, 0, &arg)?;
            put_term(alloc, &body, 0, function)
        }
        _ => unreachable!(),
    }
}

// The body of a function of types with the type put in.
fn inst(alloc: Global, function: &Term, ty: &Ty) -> Result<Term, Mem>
    requires function { IsValue function.now }
    requires typed { IsTyped (TermTree.Inst function.now ty.now) }
    ensures { IfOk result (λ e. StepsTo (TermTree.Inst function.now ty.now) e) }
{
    let TermNode::TyLam(_, body) = function.node() else {
        unreachable!()
    };
    put_type(alloc, body, 0, ty)
}

// The part of a record at a label.
fn get(whole: &Term, label: &Label) -> Result<Term, Mem>
    requires whole { IsValue whole.now }
    requires typed { IsTyped (TermTree.Get whole.now label.now) }
    ensures { IfOk result (λ e. StepsTo (TermTree.Get whole.now label.now) e × IsValue e) }
{
    let TermNode::Fields(fields) = whole.node() else {
        unreachable!()
    };
    match fields.find(label) {
        Some(part) => part.share(),
        None => unreachable!(),
    }
}

// The body of an open with the hidden type and the packed value put in.
fn open(alloc: Global, packed: &Term, body: &Term) -> Result<Term, Mem>
    requires packed { IsValue packed.now }
    requires typed { IsTyped (TermTree.Unpack packed.now body.now) }
    ensures { IfOk result (λ e. StepsTo (TermTree.Unpack packed.now body.now) e) }
{
    let TermNode::Pack(hidden, value, _) = packed.node() else {
        unreachable!()
    };
    let body = put_type(alloc, body, 0, hidden)?;
    put_term(alloc, &body, 0, value)
}

// The branch that the test chooses.
fn branch(test: &Term, yes: Term, no: Term) -> Term
    requires test { IsValue test.now }
    requires typed { IsTyped (TermTree.If test.now yes no) }
    ensures { StepsTo (TermTree.If test.now yes no) result }
{
    let TermNode::Bool(chosen) = test.node() else {
        unreachable!()
    };
    if *chosen { yes } else { no }
}

// The branch of a case at the label of an injection, with the injected value put in.
fn choose(alloc: Global, whole: &Term, injection: &Term) -> Result<Term, Mem>
    requires injection { IsValue injection.now }
    requires typed { IsTyped (case_of whole.now injection.now) }
    ensures { IfOk result (λ e. StepsTo (case_of whole.now injection.now) e) }
{
    let TermNode::Inj(label, value, _) = injection.node() else {
        unreachable!()
    };
    let TermNode::Case(_, _, branches) = whole.node() else {
        unreachable!()
    };
    match branches.find(label) {
        Some(branch) => put_term(alloc, branch, 0, value),
        None => unreachable!(),
    }
}

// The value that is rolled.
fn unroll(rolled: &Term) -> Result<Term, Mem>
    requires rolled { IsValue rolled.now }
    requires typed { IsTyped (TermTree.Unroll rolled.now) }
    ensures { IfOk result (λ e. StepsTo (TermTree.Unroll rolled.now) e × IsValue e) }
{
    let TermNode::Roll(value, _) = rolled.node() else {
        unreachable!()
    };
    value.share()
}

// The result of an operator, or its fault.
fn operate(alloc: Global, op: Op, left: &Term, right: &Term) -> Result<Step, Mem>
    requires left { IsValue left.now }
    requires right { IsValue right.now }
    requires typed { IsTyped (TermTree.Arith op left.now right.now) }
    ensures { IfOk result (λ s. Reduces (TermTree.Arith op left.now right.now) s) }
{
    let TermNode::Int(m) = left.node() else {
        unreachable!()
    };
    let TermNode::Int(n) = right.node() else {
        unreachable!()
    };
    match compute(op, *m, *n) {
        Ok(node) => Ok(Step::To(Focus::Value(Term::make(alloc, node)?))),
        Err(fault) => Ok(Step::Fault(fault)),
    }
}
