// Types, whose parts are shared.
ghost use Rattle.std.specs.Prelude.{◌≡◌, ◌≤◌, ◌+◌, ◌++◌, ◌∷◌, [], IfOk, IfSome, OnOk, OnErr, slice_get};
ghost use Rattle.std.specs.Option.{option_copied};
ghost use Rattle.omega_types.specs.Inner.Bound.{bound_of, bound_pairs};
ghost use Rattle.omega_types.specs.Fields.{Rises, MayFollow, at_label};
ghost use Rattle.omega_types.specs.Height.{height};
ghost use Rattle.omega_types.specs.Ty.{Ty as TyTree};
ghost use Rattle.omega_types.specs.Inner.View.{ty_of};

use crate::finding::part_at;
use crate::levels::next_level;
use omega_kinds::{Extent, Kind, Label, Mem, NOTHING};
use std::alloc::Global;
use std::marker::Model;
use std::rc::Rc;

/// A type of System Fω: a handle on a tree under binders, whose parts are shared.
/// Contracts see it as the plain tree with de Bruijn indexes, 0 being the innermost.
///
/// Pierce, "Types and Programming Languages", section 6.1, Terms and contexts, and figure 30-1.
#[cycle(ty)]
#[derive(Drop)]
pub struct Ty {
    // the least number above all free indexes
    bound: u64,
    made: Rc<Made>,
}

// A node with its extent, the forms of kinds counted too. A node with the mark is an arrow whose two parts are one tree:
// what is done to one of them need not be done to the other. Without the mark they may be one tree all the same.
#[cycle(ty)]
#[derive(Drop)]
struct Made {
    extent: Extent,
    is_even: bool,
    node: TyNode,
}

/// The outermost form of a type, with its parts.
/// `All`, `Ex` and `Lam` bind one variable of the kind that stands there, and `Mu` one of kind `*`, which is index 0 in the
/// part. `Sum` is a labelled sum, and `Mu` an iso-recursive type.
#[cycle(ty)]
#[derive(Drop)]
pub enum TyNode {
    Var(u64),
    Int,
    Bool,
    Text,
    Arrow(Ty, Ty),
    Fields(TyFields),
    Sum(TyFields),
    All(Kind, Ty),
    Ex(Kind, Ty),
    Mu(Ty),
    Lam(Kind, Ty),
    Apply(Ty, Ty),
}

/// The fields of a record or a sum, in strictly rising label order. Contracts see them as the list of labels with types.
#[cycle(ty)]
#[derive(Drop)]
pub struct TyFields {
    pairs: Vec<(Label, Ty)>,
    // that of the parts beside each other
    extent: Extent,
}

impl Model for Ty {
    ghost use Rattle.std.specs.Prelude.{◌≡◌, ◌≤◌};
    ghost use Rattle.omega_types.specs.Ty.{Ty as TyTree};
    ghost use Rattle.omega_types.specs.Inner.Code.{ty_code};

    ghost Value = { TyTree };

    ghost coded = { ty_code };

    ghost use Rattle.omega_types.specs.Inner.Size.{nodes};

    ghost size = { nodes };

    ghost use Rattle.omega_types.specs.Inner.Bound.{bound_of};
    ghost use Rattle.omega_types.specs.Height.{height};
    ghost use Rattle.omega_types.specs.Inner.View.{ty_of, KnownEven};

    ghost view = { λ t. ty_of t.made.value.node };

    ghost invariant = { λ t. (t.bound ≡ bound_of (ty_of t.made.value.node)) × (height (ty_of t.made.value.node) ≤ t.made.value.extent.height) × (t.made.value.extent.height ≤ 8192) × KnownEven t.made.value.is_even (ty_of t.made.value.node) };

    ghost use Rattle.omega_types.specs.Inner.Falls.{made_le-nodes};

    ghost size_decreases = { λ t _. made_le-nodes t.made.value };
}

impl Model for TyFields {
    ghost use Rattle.std.specs.Prelude.{◌≤◌};
    ghost use Rattle.omega_types.specs.Fields.{Pairs};
    ghost use Rattle.omega_types.specs.Inner.Code.{pairs_code};

    ghost Value = { Pairs };

    ghost coded = { pairs_code };

    ghost use Rattle.omega_types.specs.Inner.Size.{nodes_pairs};

    ghost size = { nodes_pairs };

    ghost use Rattle.omega_types.specs.Fields.{Rises};
    ghost use Rattle.omega_types.specs.Height.{height_pairs};

    ghost view = { λ f. f.pairs.items };

    ghost invariant = { λ f. Rises f.pairs.items × (height_pairs f.pairs.items ≤ f.extent.height) };

    ghost use Rattle.omega_types.specs.Inner.Falls.{deep_le-nodes_pairs};

    ghost size_decreases = { λ f _. deep_le-nodes_pairs f.pairs.items };
}

impl Ty {
    /// The type that a node makes. `Err` is out of memory, also for a variable whose index is the last number, and for
    /// a type that is too high or too large (`Extent::over`).
    pub fn make(alloc: Global, node: TyNode) -> Result<Ty, Mem>
        ensures { IfOk result (λ t. t ≡ ty_of node) }
    {
        let bound = node.bound()?;
        let extent = node.parts().over(1)?;
        Ok(Ty {
            bound,
            made: Rc::new(
                alloc,
                Made {
                    extent,
                    is_even: false,
                    node,
                },
            )?,
        })
    }

    /// The type of functions from a type to that type itself, of which the two parts are known to be one tree.
    /// `Err` is out of memory, also for a type that is too high or too large (`Extent::over`).
    pub fn to_itself(alloc: Global, part: Ty) -> Result<Ty, Mem>
        ensures { IfOk result (λ t. t ≡ TyTree.Arrow part part) }
    {
        let bound = part.bound;
        let extent = part.extent().twice().over(1)?;
        let node = TyNode::Arrow(part.share()?, part);
        Ok(Ty {
            bound,
            made: Rc::new(
                alloc,
                Made {
                    extent,
                    is_even: true,
                    node,
                },
            )?,
        })
    }

    /// The type on both sides of an arrow whose two parts are known to be one tree, and `None` for each other type. Such an
    /// arrow is made by `to_itself`, and by each walk over one. Takes one step.
    pub fn both_sides(&self) -> Option<&Ty>
        ensures { IfSome result (λ part. self.now ≡ TyTree.Arrow part.now part.now) }
    {
        if self.made.is_even {
            if let TyNode::Arrow(part, _) = &self.made.node {
                return Some(part);
            }
        }
        None
    }

    /// The outermost form of a type.
    pub fn node(&self) -> &TyNode
        ensures { ty_of result.now ≡ self.now }
    {
        &self.made.node
    }

    /// The least number above all free indexes: 0 for a closed type. Takes one step.
    pub fn bound(&self) -> u64
        ensures { result ≡ bound_of self.now }
    {
        self.bound
    }

    /// How high and how large the type is, the forms of kinds counted too. Takes one step.
    /// No type is higher than 8,192.
    pub fn extent(&self) -> Extent
        ensures height { height self.now ≤ result.height }
        ensures high { result.height ≤ 8192 }
    {
        self.made.extent
    }

    /// The same type, with its parts shared. `Err` is out of memory.
    pub fn share(&self) -> Result<Ty, Mem>
        ensures { IfOk result (λ t. t ≡ self.now) }
    {
        Ok(Ty {
            bound: self.bound,
            made: self.made.clone()?,
        })
    }
}

impl TyNode {
    // The least number above all free indexes of the type that the node makes.
    fn bound(&self) -> Result<u64, Mem>
        ensures { IfOk result (λ least. least ≡ bound_of (ty_of self.now)) }
    {
        match self {
            TyNode::Var(index) => next_level(*index),
            TyNode::Int | TyNode::Bool | TyNode::Text => Ok(0),
            TyNode::Arrow(a, b) | TyNode::Apply(a, b) => Ok(a.bound().max(b.bound())),
            TyNode::Fields(fields) | TyNode::Sum(fields) => Ok(fields.bound()),
            TyNode::All(_, b) | TyNode::Ex(_, b) | TyNode::Lam(_, b) | TyNode::Mu(b) => {
                Ok(b.bound().saturating_sub(1))
            }
        }
    }

    // The extent of the parts beside each other.
    fn parts(&self) -> Extent
        ensures { height (ty_of self.now) ≤ result.height + 1 }
    {
        match self {
            TyNode::Var(_) | TyNode::Int | TyNode::Bool | TyNode::Text => NOTHING,
            TyNode::Arrow(a, b) | TyNode::Apply(a, b) => a.extent().beside(b.extent()),
            TyNode::Fields(fields) | TyNode::Sum(fields) => fields.extent,
            TyNode::Mu(b) => b.extent(),
            TyNode::All(k, b) | TyNode::Ex(k, b) | TyNode::Lam(k, b) => k
                .extent()
                .beside(b.extent()),
        }
    }
}

impl TyFields {
    /// No fields.
    pub fn new(alloc: Global) -> TyFields
        ensures { result ≡ [] }
    {
        TyFields {
            pairs: Vec::new(alloc),
            extent: NOTHING,
        }
    }

    /// No fields, with room for so many. `Err` is out of memory.
    pub fn with_capacity(alloc: Global, count: usize) -> Result<TyFields, Mem>
        ensures { IfOk result (λ f. f ≡ []) }
    {
        Ok(TyFields {
            pairs: Vec::with_capacity(alloc, count)?,
            extent: NOTHING,
        })
    }

    /// One more field at the end, whose label is greater than the last one.
    /// `Err` is out of memory, and the list stays as it was.
    pub fn push(&mut self, item: (Label, Ty)) -> Result<(), Mem>
        requires { MayFollow self.old item.0 }
        ensures ok { OnOk result (self.new ≡ self.old ++ item ∷ []) }
        ensures err { OnErr result (self.new ≡ self.old) }
    {
        let extent = self.extent.beside(item.1.extent());
        self.pairs.push(item)?;
        self.extent = extent;
        Ok(())
    }

    /// The fields in their order.
    pub fn items(&self) -> &[(Label, Ty)]
        ensures value { result.now ≡ self.now }
        ensures rising { Rises result.now }
    {
        self.pairs.as_slice()
    }

    /// The field at a place, counted from 0; `None` exactly past the end.
    pub fn get(&self, i: usize) -> Option<&(Label, Ty)>
        ensures { option_copied result ≡ slice_get self.now i }
    {
        self.pairs.get(i)
    }

    /// The type at a label; `None` exactly where no field has it. Takes no memory, and so many comparisons as the
    /// number of fields has binary digits.
    pub fn find(&self, label: &Label) -> Option<&Ty>
        ensures { option_copied result ≡ at_label self.now label.now }
    {
        part_at(self.items(), label)
    }

    // The least number above all free indexes of the fields.
    fn bound(&self) -> u64
        ensures { result ≡ bound_pairs self.now }
    {
        let mut most = 0;
        for field in &self.pairs {
            most = field.1.bound().max(most);
        }
        most
    }
}
