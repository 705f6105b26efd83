// From what stands in the hole to the next redex, or to the value of the whole.
ghost use Rattle.std.specs.Prelude.{◌≡◌, ◌+◌, ◌*◌, ◌<◌, ◌≤◌, IfOk, length, slice_get};
ghost use Rattle.std.specs.Option.{option_map};
ghost use Rattle.omega_terms.specs.Inner.Size.{term_size, pairs_size};
ghost use Rattle.omega_terms.specs.Steps.{IsValue};
ghost use Rattle.omega_machine.specs.Inner.Contexts.{fields_of, left, rest, with_done, fill_waiting, plug, term_in};
ghost use Rattle.omega_machine.specs.Inner.Moves.{IsTyped, Begun, IsSoundWaiting, AreSound, IsSoundFocus, waiting_work, Moves, Finds};
ghost use Rattle.omega_machine.specs.declared.frames.Waiting.TheVariants as waiting;

use crate::frames::{Focus, Frame, Ready, Waiting};
use omega_kinds::Mem;
use omega_terms::{Term, TermFields, TermNode, is_value};
use std::alloc::Global;

/// What is met next: the whole is a value, or a value stands in a frame with which it makes a step or a fault.
#[derive(Drop)]
pub(crate) enum Found {
    Value(Term),
    Redex(Ready, Term),
}

/// Where the machine goes without a step: down to a part, with a new frame round it, or up with a value.
#[derive(Drop)]
pub(crate) enum Move {
    Down(Frame, Term),
    Up(Term),
}

/// Goes on to the next redex, or to the value of the whole. No step is made. `Err` is out of memory.
///
/// Danvy and Nielsen, "Refocusing in Reduction Semantics" (2004).
pub(crate) fn refocus(alloc: Global, frames: &mut Vec<Frame>, focus: Focus) -> Result<Found, Mem>
    requires frames { AreSound frames.old.items }
    requires focus { IsSoundFocus focus }
    requires typed { IsTyped (plug frames.old.items (term_in focus)) }
    ensures { IfOk result (λ found. Finds (plug frames.old.items (term_in focus)) frames.new.items found) }
{
    let mut focus = focus;
    loop {
        let next = match focus {
            Focus::Term(term) => enter(alloc, &term)?,
            Focus::Value(value) => match frames.pop() {
                Some(Frame::Waiting(frame)) => resume(alloc, frame, value)?,
                Some(Frame::Ready(frame)) => return Ok(Found::Redex(frame, value)),
                None => return Ok(Found::Value(value)),
            },
        };
        focus = match next {
            Move::Down(frame, part) => {
                frames.push(frame)?;
                Focus::Term(part)
            }
            Move::Up(value) => Focus::Value(value),
        };
    }
}

// Up with a value; else to the first part of a term that is to be reduced.
fn enter(alloc: Global, term: &Term) -> Result<Move, Mem>
    requires { IsTyped term.now }
    ensures { IfOk result (λ m. Moves term.now (3 * term_size term.now) m) }
{
    if is_value(term) {
        return Ok(Move::Up(term.share()?));
    }
    match term.node() {
        TermNode::Call(f, a) => down(Frame::Waiting(Waiting::Function(a.share()?)), f),
        TermNode::Inst(e, t) => down(Frame::Ready(Ready::Instance(t.share()?)), e),
        TermNode::Get(e, l) => down(Frame::Ready(Ready::Part(l.share()?)), e),
        TermNode::Pack(t, e, u) => down(Frame::Waiting(Waiting::Packed(t.share()?, u.share()?)), e),
        TermNode::Unpack(p, e) => down(Frame::Ready(Ready::Opened(e.share()?)), p),
        TermNode::If(a, b, c) => down(Frame::Ready(Ready::Test(b.share()?, c.share()?)), a),
        TermNode::Arith(op, a, b) => down(Frame::Waiting(Waiting::Left(*op, b.share()?)), a),
        TermNode::Inj(l, e, t) => down(
            Frame::Waiting(Waiting::Injected(l.share()?, t.share()?)),
            e,
        ),
        TermNode::Case(e, _, _) => down(Frame::Ready(Ready::Cased(term.share()?)), e),
        TermNode::Roll(e, t) => down(Frame::Waiting(Waiting::Rolled(t.share()?)), e),
        TermNode::Unroll(e) => down(Frame::Ready(Ready::Unrolled), e),
        TermNode::Fields(_) => next_field(alloc, term.share()?, TermFields::new(alloc)),
        TermNode::Int(_)
        | TermNode::Bool(_)
        | TermNode::Text(_)
        | TermNode::Lam(_, _)
        | TermNode::TyLam(_, _)
        | TermNode::Fix(_, _, _) => unreachable!(),
        TermNode::Var(_) => unreachable!(),
    }
}

// Down to the part.
fn down(frame: Frame, part: &Term) -> Result<Move, Mem>
    ensures { IfOk result (λ m. m ≡ Move.Down frame part.now) }
{
    Ok(Move::Down(frame, part.share()?))
}

// On from a frame with a value in its hole.
fn resume(alloc: Global, frame: Waiting, value: Term) -> Result<Move, Mem>
    requires sound { IsSoundWaiting frame }
    requires value { IsValue value }
    ensures { IfOk result (λ m. Moves (fill_waiting frame value) (waiting_work frame) m) }
{
    match frame {
        Waiting::Function(arg) => Ok(Move::Down(Frame::Ready(Ready::Argument(value)), arg)),
        Waiting::Left(op, right) => Ok(Move::Down(Frame::Ready(Ready::Right(op, value)), right)),
        Waiting::Packed(hidden, target) => Ok(Move::Up(Term::make(
            alloc,
            TermNode::Pack(hidden, value, target),
        )?)),
        Waiting::Injected(label, target) => Ok(Move::Up(Term::make(
            alloc,
            TermNode::Inj(label, value, target),
        )?)),
        Waiting::Rolled(target) => Ok(Move::Up(Term::make(alloc, TermNode::Roll(value, target))?)),
        Waiting::Field(whole, done) => {
            let done = one_more(&whole, done, value)?;
            next_field(alloc, whole, done)
        }
    }
}

// The values of a record's first fields, and of one more.
fn one_more(whole: &Term, done: TermFields, value: Term) -> Result<TermFields, Mem>
    requires begun { Begun whole.now done }
    requires more { length done < length (fields_of whole.now) }
    requires value { IsValue value }
    ensures { IfOk result (λ d. Begun whole.now d × (with_done whole.now d ≡ fill_waiting (waiting.Field whole.now done) value) × (left whole.now d ≡ rest whole.now done)) }
{
    let TermNode::Fields(fields) = whole.node() else {
        unreachable!()
    };
    let Some(field) = fields.items().get(done.items().len()) else {
        unreachable!()
    };
    let mut done = done;
    done.push((field.0.share()?, value))?;
    Ok(done)
}

// To the next field of a record, or up with the record of values.
fn next_field(alloc: Global, whole: Term, done: TermFields) -> Result<Move, Mem>
    requires { Begun whole done }
    ensures { IfOk result (λ m. Moves (with_done whole done) (3 * pairs_size (left whole done) + 1) m) }
{
    match part_at(&whole, done.items().len())? {
        Some(part) => Ok(Move::Down(Frame::Waiting(Waiting::Field(whole, done)), part)),
        None => Ok(Move::Up(Term::make(alloc, TermNode::Fields(done))?)),
    }
}

// The part of a record at a place, and none past its end.
fn part_at(whole: &Term, place: usize) -> Result<Option<Term>, Mem>
    ensures { IfOk result (λ o. o ≡ option_map (λ x. x.1) (slice_get (fields_of whole.now) place)) }
{
    if let TermNode::Fields(fields) = whole.node() {
        if let Some(field) = fields.get(place) {
            return Ok(Some(field.1.share()?));
        }
    }
    Ok(None)
}
