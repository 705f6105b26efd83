// Terms, whose parts are shared.
ghost use Rattle.std.specs.Prelude.{◌≡◌, ◌↔◌, ◌≤◌, ◌+◌, ◌++◌, ◌∷◌, [], IsTrue, IfOk, OnOk, OnErr, slice_get};
ghost use Rattle.std.specs.Option.{option_copied};
ghost use Rattle.omega_types.specs.Fields.{Rises, MayFollow, at_label};
ghost use Rattle.omega_terms.specs.Inner.Bound.{type_bound, term_bound, pairs_type_bound, pairs_term_bound};
ghost use Rattle.omega_terms.specs.Height.{term_height};
ghost use Rattle.omega_terms.specs.Steps.{IsValue};
ghost use Rattle.omega_terms.specs.Inner.ValueTest.{value_test};
ghost use Rattle.omega_terms.specs.Inner.View.{term_of};

use crate::op::Op;
use omega_kinds::{Extent, Kind, Label, Mem, NOTHING, Name};
use omega_types::{Ty, next_level, part_at};
use std::alloc::Global;
use std::marker::Model;
use std::rc::Rc;

/// A term of System Fω: a handle on a tree under binders, whose parts are shared.
/// Contracts see it as the plain tree with de Bruijn indexes, 0 being the innermost; type variables and term
/// variables are counted apart.
///
/// Pierce, "Types and Programming Languages", section 6.1, Terms and contexts, and figures 11-11, 20-1 and 30-1;
/// Rossberg, Russo and Dreyer, "F-ing modules", section 3, System Fω.
#[cycle(term)]
#[derive(Drop)]
pub struct Term {
    // the least numbers above all free type indexes and above all free term indexes
    type_bound: u64,
    term_bound: u64,
    made: Rc<Made>,
}

// A node with its extent, the forms of types counted too, and whether it makes a value.
#[cycle(term)]
#[derive(Drop)]
struct Made {
    extent: Extent,
    is_value: bool,
    node: TermNode,
}

/// The outermost form of a term, with its parts in the order in which they are written.
/// `Lam` binds a term variable in its last part, `TyLam` a type variable, `Unpack` a type variable and a term
/// variable, and `Fix` two term variables: the function itself and then its argument, which is index 0. Each branch of
/// `Case` binds a term variable, what was injected. `Inj` and `Roll` name their type; `Case` names that of its branches.
#[cycle(term)]
#[derive(Drop)]
pub enum TermNode {
    Var(u64),
    Int(i64),
    Bool(bool),
    Text(Name),
    Lam(Ty, Term),
    Call(Term, Term),
    TyLam(Kind, Term),
    Inst(Term, Ty),
    Fields(TermFields),
    Get(Term, Label),
    Pack(Ty, Term, Ty),
    Unpack(Term, Term),
    If(Term, Term, Term),
    Arith(Op, Term, Term),
    Fix(Ty, Ty, Term),
    Inj(Label, Term, Ty),
    Case(Term, Ty, TermFields),
    Roll(Term, Ty),
    Unroll(Term),
}

/// The fields of a record, or the branches of a case, in strictly rising label order. Contracts see them as the list of
/// labels with terms.
#[cycle(term)]
#[derive(Drop)]
pub struct TermFields {
    pairs: Vec<(Label, Term)>,
    // that of the parts beside each other
    extent: Extent,
    are_values: bool,
}

impl Model for Term {
    ghost use Rattle.std.specs.Prelude.{◌≡◌, ◌≤◌};
    ghost use Rattle.omega_terms.specs.Term.{Term as TermTree};
    ghost use Rattle.omega_terms.specs.Inner.Code.{term_code};

    ghost Value = { TermTree };

    ghost coded = { term_code };

    ghost use Rattle.omega_terms.specs.Inner.Size.{term_size};

    ghost size = { term_size };

    ghost use Rattle.omega_terms.specs.Inner.Bound.{type_bound as type_bound_of, term_bound as term_bound_of};
    ghost use Rattle.omega_terms.specs.Height.{term_height};
    ghost use Rattle.omega_terms.specs.Inner.ValueTest.{value_test};
    ghost use Rattle.omega_terms.specs.Inner.View.{term_of};

    ghost view = { λ e. term_of e.made.value.node };

    ghost invariant = { λ e. (e.type_bound ≡ type_bound_of (term_of e.made.value.node)) × (e.term_bound ≡ term_bound_of (term_of e.made.value.node)) × (term_height (term_of e.made.value.node) ≤ e.made.value.extent.height) × (e.made.value.extent.height ≤ 8192) × (e.made.value.is_value ≡ value_test (term_of e.made.value.node)) };

    ghost use Rattle.omega_terms.specs.Inner.Falls.{made_le-term_size};

    ghost size_decreases = { λ e _. made_le-term_size e.made.value };
}

impl Model for TermFields {
    ghost use Rattle.std.specs.Prelude.{◌≡◌, ◌≤◌};
    ghost use Rattle.omega_terms.specs.Fields.{TermPairs};
    ghost use Rattle.omega_terms.specs.Inner.Code.{term_pairs_code};

    ghost Value = { TermPairs };

    ghost coded = { term_pairs_code };

    ghost use Rattle.omega_terms.specs.Inner.Size.{pairs_size};

    ghost size = { pairs_size };

    ghost use Rattle.omega_types.specs.Fields.{Rises};
    ghost use Rattle.omega_terms.specs.Fields.{term_row};
    ghost use Rattle.omega_terms.specs.Height.{pairs_height};
    ghost use Rattle.omega_terms.specs.Inner.ValueTest.{values_test};

    ghost view = { λ f. f.pairs.items };

    ghost invariant = { λ f. Rises f.pairs.items × (pairs_height f.pairs.items ≤ f.extent.height) × (f.are_values ≡ values_test (term_row f.pairs.items)) };

    ghost use Rattle.omega_terms.specs.Inner.Falls.{deep_le-pairs_size};

    ghost size_decreases = { λ f _. deep_le-pairs_size f.pairs.items };
}

impl Term {
    /// The term that a node makes. `Err` is out of memory, also for a variable whose index is the last number, and for
    /// a term that is too high or too large (`Extent::over`).
    pub fn make(alloc: Global, node: TermNode) -> Result<Term, Mem>
        ensures { IfOk result (λ e. e ≡ term_of node) }
    {
        let type_bound = node.type_bound();
        let term_bound = node.term_bound()?;
        let extent = node.parts().over(1)?;
        let made = Made {
            extent,
            is_value: node.is_value(),
            node,
        };
        Ok(Term {
            type_bound,
            term_bound,
            made: Rc::new(alloc, made)?,
        })
    }

    /// The outermost form of a term.
    pub fn node(&self) -> &TermNode
        ensures { term_of result.now ≡ self.now }
    {
        &self.made.node
    }

    /// How high and how large the term is, the forms of its types and of kinds counted too. Takes one step.
    /// No term is higher than 8,192.
    pub fn extent(&self) -> Extent
        ensures height { term_height self.now ≤ result.height }
        ensures high { result.height ≤ 8192 }
    {
        self.made.extent
    }

    // Whether the term is a value, as it keeps.
    fn is_value(&self) -> bool
        ensures value { IsTrue result ↔ IsValue self.now }
        ensures test { result ≡ value_test self.now }
    {
        self.made.is_value
    }

    /// The same term, with its parts shared. `Err` is out of memory.
    pub fn share(&self) -> Result<Term, Mem>
        ensures { IfOk result (λ e. e ≡ self.now) }
    {
        Ok(Term {
            type_bound: self.type_bound,
            term_bound: self.term_bound,
            made: self.made.clone()?,
        })
    }

    /// The least number above all free type indexes: 0 where there are none. Takes one step.
    pub fn type_bound(&self) -> u64
        ensures { result ≡ type_bound self.now }
    {
        self.type_bound
    }

    /// The least number above all free term indexes: 0 where there are none. Takes one step.
    pub fn term_bound(&self) -> u64
        ensures { result ≡ term_bound self.now }
    {
        self.term_bound
    }
}

/// Whether the term is a value: a number, a truth value, a text, a function of any of the three forms, a record or a
/// package of values, or a value injected into a sum or rolled. Takes one step, since each term keeps the answer.
///
/// Pierce, "Types and Programming Languages", figures 11-7, 11-11, 20-1, 24-1 and 30-1, Values.
pub fn is_value(term: &Term) -> bool
    ensures value { IsTrue result ↔ IsValue term.now }
    ensures test { result ≡ value_test term.now }
{
    term.is_value()
}

impl TermNode {
    // The least number above all free type indexes of the term that the node makes.
    fn type_bound(&self) -> u64
        ensures { result ≡ type_bound (term_of self.now) }
    {
        match self {
            TermNode::Var(_) | TermNode::Int(_) | TermNode::Bool(_) | TermNode::Text(_) => 0,
            TermNode::Lam(t, e)
            | TermNode::Inst(e, t)
            | TermNode::Inj(_, e, t)
            | TermNode::Roll(e, t) => t.bound().max(e.type_bound()),
            TermNode::Call(a, b) | TermNode::Arith(_, a, b) => a.type_bound().max(b.type_bound()),
            TermNode::TyLam(_, e) => e.type_bound().saturating_sub(1),
            TermNode::Fields(fields) => fields.type_bound(),
            TermNode::Get(e, _) | TermNode::Unroll(e) => e.type_bound(),
            TermNode::Pack(t, e, u) | TermNode::Fix(t, u, e) => t
                .bound()
                .max(u.bound())
                .max(e.type_bound()),
            TermNode::Unpack(p, e) => p.type_bound().max(e.type_bound().saturating_sub(1)),
            TermNode::If(a, b, c) => a.type_bound().max(b.type_bound()).max(c.type_bound()),
            TermNode::Case(e, t, branches) => e
                .type_bound()
                .max(t.bound())
                .max(branches.type_bound()),
        }
    }

    // The least number above all free term indexes of the term that the node makes.
    fn term_bound(&self) -> Result<u64, Mem>
        ensures { IfOk result (λ least. least ≡ term_bound (term_of self.now)) }
    {
        match self {
            TermNode::Var(index) => next_level(*index),
            TermNode::Int(_) | TermNode::Bool(_) | TermNode::Text(_) => Ok(0),
            TermNode::Lam(_, e) => Ok(e.term_bound().saturating_sub(1)),
            TermNode::Call(a, b) | TermNode::Arith(_, a, b) => Ok(
                a.term_bound().max(b.term_bound()),
            ),
            TermNode::TyLam(_, e)
            | TermNode::Inst(e, _)
            | TermNode::Get(e, _)
            | TermNode::Pack(_, e, _)
            | TermNode::Inj(_, e, _)
            | TermNode::Roll(e, _)
            | TermNode::Unroll(e) => Ok(e.term_bound()),
            TermNode::Fields(fields) => Ok(fields.term_bound()),
            TermNode::Unpack(p, e) => Ok(p.term_bound().max(e.term_bound().saturating_sub(1))),
            TermNode::If(a, b, c) => Ok(a.term_bound().max(b.term_bound()).max(c.term_bound())),
            TermNode::Fix(_, _, e) => Ok(e.term_bound().saturating_sub(2)),
            TermNode::Case(e, _, branches) => Ok(
                e.term_bound().max(branches.term_bound().saturating_sub(1)),
            ),
        }
    }

    // Whether the node makes a value.
    fn is_value(&self) -> bool
        ensures { result ≡ value_test (term_of self.now) }
    {
        match self {
            TermNode::Int(_) | TermNode::Bool(_) | TermNode::Text(_) => true,
            TermNode::Lam(_, _) | TermNode::TyLam(_, _) | TermNode::Fix(_, _, _) => true,
            TermNode::Fields(fields) => fields.are_values,
            TermNode::Pack(_, e, _) | TermNode::Inj(_, e, _) | TermNode::Roll(e, _) => e.is_value(),
            TermNode::Var(_)
            | TermNode::Call(_, _)
            | TermNode::Inst(_, _)
            | TermNode::Get(_, _)
            | TermNode::Unpack(_, _)
            | TermNode::If(_, _, _)
            | TermNode::Arith(_, _, _)
            | TermNode::Case(_, _, _)
            | TermNode::Unroll(_) => false,
        }
    }

    // The extent of the parts beside each other.
    fn parts(&self) -> Extent
        ensures { term_height (term_of self.now) ≤ result.height + 1 }
    {
        match self {
            TermNode::Var(_) | TermNode::Int(_) | TermNode::Bool(_) | TermNode::Text(_) => NOTHING,
            TermNode::Lam(t, e)
            | TermNode::Inst(e, t)
            | TermNode::Inj(_, e, t)
            | TermNode::Roll(e, t) => t.extent().beside(e.extent()),
            TermNode::Call(a, b) | TermNode::Arith(_, a, b) | TermNode::Unpack(a, b) => {
                a.extent().beside(b.extent())
            }
            TermNode::TyLam(k, e) => k.extent().beside(e.extent()),
            TermNode::Fields(fields) => fields.extent,
            TermNode::Get(e, _) | TermNode::Unroll(e) => e.extent(),
            TermNode::Pack(t, e, u) | TermNode::Fix(t, u, e) => {
                t.extent().beside(u.extent()).beside(e.extent())
            }
            TermNode::If(a, b, c) => a.extent().beside(b.extent()).beside(c.extent()),
            TermNode::Case(e, t, branches) => {
                e.extent().beside(t.extent()).beside(branches.extent)
            }
        }
    }
}

impl TermFields {
    /// No fields.
    pub fn new(alloc: Global) -> TermFields
        ensures { result ≡ [] }
    {
        TermFields {
            pairs: Vec::new(alloc),
            extent: NOTHING,
            are_values: true,
        }
    }

    /// No fields, with room for so many. `Err` is out of memory.
    pub fn with_capacity(alloc: Global, count: usize) -> Result<TermFields, Mem>
        ensures { IfOk result (λ f. f ≡ []) }
    {
        Ok(TermFields {
            pairs: Vec::with_capacity(alloc, count)?,
            extent: NOTHING,
            are_values: true,
        })
    }

    /// One more field at the end, whose label is greater than the last one.
    /// `Err` is out of memory, and the list stays as it was.
    pub fn push(&mut self, item: (Label, Term)) -> Result<(), Mem>
        requires { MayFollow self.old item.0 }
        ensures ok { OnOk result (self.new ≡ self.old ++ item ∷ []) }
        ensures err { OnErr result (self.new ≡ self.old) }
    {
        let extent = self.extent.beside(item.1.extent());
        let are_values = self.are_values & item.1.is_value();
        self.pairs.push(item)?;
        self.extent = extent;
        self.are_values = are_values;
        Ok(())
    }

    /// The fields in their order.
    pub fn items(&self) -> &[(Label, Term)]
        ensures value { result.now ≡ self.now }
        ensures rising { Rises result.now }
    {
        self.pairs.as_slice()
    }

    /// The field at a place, counted from 0; `None` exactly past the end.
    pub fn get(&self, i: usize) -> Option<&(Label, Term)>
        ensures { option_copied result ≡ slice_get self.now i }
    {
        self.pairs.get(i)
    }

    /// The term at a label; `None` exactly where no field has it. Takes no memory, and so many comparisons as the
    /// number of fields has binary digits.
    pub fn find(&self, label: &Label) -> Option<&Term>
        ensures { option_copied result ≡ at_label self.now label.now }
    {
        part_at(self.items(), label)
    }

    // The least number above all free type indexes of the fields.
    fn type_bound(&self) -> u64
        ensures { result ≡ pairs_type_bound self.now }
    {
        let mut most = 0;
        for field in &self.pairs {
            most = field.1.type_bound().max(most);
        }
        most
    }

    // The least number above all free term indexes of the fields.
    fn term_bound(&self) -> u64
        ensures { result ≡ pairs_term_bound self.now }
    {
        let mut most = 0;
        for field in &self.pairs {
            most = field.1.term_bound().max(most);
        }
        most
    }
}
