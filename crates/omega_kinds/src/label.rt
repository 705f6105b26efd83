// Labels of fields: the reserved ones, and names.
ghost use Rattle.std.specs.Prelude.{◌≡◌, ◌↔◌, IfOk, IsTrue};
ghost use Rattle.omega_kinds.specs.LabelOrder.{label_cmp, rank, IsStrictTotalOrder};

use crate::memory::Mem;
use crate::name::{Name, same_name};
use std::cmp::Ordering;

/// The label of a field. The reserved ones mark the parts of an encoded signature: a value, a type, a signature,
/// and the result of a pure and of an impure functor.
#[derive(Debug, Drop)]
pub enum Label {
    Val,
    Typ,
    Sig,
    App,
    Gen,
    Name(Name),
}

impl Label {
    // The place among the reserved labels, the names standing after all of them.
    fn rank(&self) -> u8
        ensures { result ≡ rank self.now }
    {
        match self {
            Label::Val => 0,
            Label::Typ => 1,
            Label::Sig => 2,
            Label::App => 3,
            Label::Gen => 4,
            Label::Name(_) => 5,
        }
    }

    /// The same label, with its bytes shared. `Err` is out of memory.
    pub fn share(&self) -> Result<Label, Mem>
        ensures { IfOk result (λ l. l ≡ self.now) }
    {
        match self {
            Label::Val => Ok(Label::Val),
            Label::Typ => Ok(Label::Typ),
            Label::Sig => Ok(Label::Sig),
            Label::App => Ok(Label::App),
            Label::Gen => Ok(Label::Gen),
            Label::Name(n) => Ok(Label::Name(n.share()?)),
        }
    }
}

/// The order of labels: the reserved ones first, as they are declared, then the names by their bytes.
/// It is strict and total. Takes no memory.
pub fn compare(left: &Label, right: &Label) -> Ordering
    ensures value { result ≡ label_cmp left.now right.now }
    ensures order { IsStrictTotalOrder }
{
    match (left, right) {
        (Label::Name(a), Label::Name(b)) => a.cmp(b),
        _ => left.rank().cmp(&right.rank()),
    }
}

/// Whether two labels are the same. Takes no memory.
pub fn same_label(left: &Label, right: &Label) -> bool
    ensures { IsTrue result ↔ left.now ≡ right.now }
{
    match (left, right) {
        (Label::Val, Label::Val) => true,
        (Label::Typ, Label::Typ) => true,
        (Label::Sig, Label::Sig) => true,
        (Label::App, Label::App) => true,
        (Label::Gen, Label::Gen) => true,
        (Label::Name(a), Label::Name(b)) => same_name(a, b),
        _ => false,
    }
}
