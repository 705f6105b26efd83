// Kinds, whose parts are shared.
ghost use Rattle.std.specs.Prelude.{◌≡◌, ◌↔◌, ◌+◌, ◌≤◌, IfOk, IsTrue, max, min};
ghost use Rattle.omega_kinds.specs.Kind.{Star, Arrow, kind_eq};
ghost use Rattle.omega_kinds.specs.View.{height_kept, kind_tree, size_kept};

use crate::extent::{Extent, NOTHING};
use crate::memory::Mem;
use std::alloc::Global;
use std::rc::Rc;

/// A kind of System Fω: that of types, `*`, or that of operators, `K > K`, which keeps its extent.
/// Contracts see it as its plain tree.
///
/// Pierce, "Types and Programming Languages", section 29.1, Type operators and kinding.
#[derive(Drop)]
pub enum Kind {
    Star,
    Arrow(Rc<Kind>, Rc<Kind>, Extent),
}

impl Kind {
    /// The same kind, with its parts shared. `Err` is out of memory.
    pub fn share(&self) -> Result<Kind, Mem>
        ensures { IfOk result (λ k. kind_tree k ≡ kind_tree self.now) }
    {
        match self {
            Kind::Star => Ok(Kind::Star),
            Kind::Arrow(from, to, extent) => {
                let from = from.clone()?;
                let to = to.clone()?;
                Ok(Kind::Arrow(from, to, *extent))
            }
        }
    }

    /// How high and how large the kind is. Takes one step.
    pub fn extent(&self) -> Extent
        ensures height { result.height ≡ height_kept self.now }
        ensures size { result.size ≡ size_kept self.now }
    {
        match self {
            Kind::Star => NOTHING,
            Kind::Arrow(_, _, extent) => *extent,
        }
    }
}

/// The kind of operators from one kind to another, which keeps its height and its size. `Err` is out of memory, also for a
/// kind that is higher than 8,192 or has more than 268,435,456 forms.
pub fn arrow(alloc: Global, from: Kind, to: Kind) -> Result<Kind, Mem>
    ensures tree { IfOk result (λ k. kind_tree k ≡ Arrow (kind_tree from) (kind_tree to)) }
    ensures height { IfOk result (λ k. height_kept k ≡ max (height_kept from) (height_kept to) + 1) }
    ensures size { IfOk result (λ k. size_kept k ≡ min (size_kept from + size_kept to) 4294967295 + 1) }
    ensures high { IfOk result (λ k. height_kept k ≤ 8192) }
    ensures large { IfOk result (λ k. size_kept k ≤ 268435456) }
{
    let extent = from.extent().beside(to.extent()).over(1)?;
    let from = Rc::new(alloc, from)?;
    let to = Rc::new(alloc, to)?;
    Ok(Kind::Arrow(from, to, extent))
}

/// Whether two kinds are the same tree. Takes no memory.
pub fn same_kind(left: &Kind, right: &Kind) -> bool
    ensures same { IsTrue result ↔ (kind_tree left.now ≡ kind_tree right.now) }
    ensures test { result ≡ kind_eq (kind_tree left.now) (kind_tree right.now) }
{
    match (left, right) {
        (Kind::Star, Kind::Star) => true,
        (Kind::Arrow(a, b, _), Kind::Arrow(c, d, _)) => same_kind(a, c) && same_kind(b, d),
        _ => false,
    }
}
