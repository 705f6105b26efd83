// Numbers that the free indexes of a type are not below.
ghost use Rattle.std.specs.Prelude.{◌≡◌, ◌<◌, fold, length};
ghost use Rattle.type_store.specs.Inner.Low.{both, highest, low_at, low_in, of_index, outside, with_part};
ghost use Rattle.type_store.specs.Inner.View.{shape_of};
ghost use Rattle.type_store.specs.Trees.{ArePartsBelow, IsBelow};

use crate::node::Form;
use omega_kinds::Label;

/// No free index of a type is less than `least`, and none but 0 is less than `next`.
#[derive(Clone, Copy)]
pub(crate) struct Low {
    pub(crate) least: u64,
    pub(crate) next: u64,
}

// No free index: the greatest numbers there are.
const HIGHEST: u64 = 0xffff_ffff_ffff_ffff;

impl Low {
    // Of a type with no free index.
    fn highest() -> Low
        ensures { result ≡ highest }
    {
        Low {
            least: HIGHEST,
            next: HIGHEST,
        }
    }

    // Of a variable.
    fn of_index(index: u64) -> Low
        ensures { result ≡ of_index index }
    {
        Low {
            least: index,
            next: if index == 0 { HIGHEST } else { index },
        }
    }

    // Of two types together.
    fn both(self, other: Low) -> Low
        ensures { result ≡ both self other }
    {
        Low {
            least: self.least.min(other.least),
            next: self.next.min(other.next),
        }
    }

    // Of a type below a binder, seen from outside of it.
    fn outside(self) -> Low
        ensures { result ≡ outside self }
    {
        let least = self.next.saturating_sub(1);
        Low {
            least,
            next: least.max(1),
        }
    }
}

// The numbers of the type that a form makes, from those of the types that it numbers.
pub(crate) fn low_of(lows: &[Low], form: &Form) -> Low
    requires { IsBelow (length lows.now) (shape_of form.now) }
    ensures { result ≡ low_at lows.now (shape_of form.now) }
{
    match form {
        Form::Var(index) => Low::of_index(*index),
        Form::Int | Form::Bool | Form::Text => Low::highest(),
        Form::Arrow(a, b) | Form::Apply(a, b) => low_in(lows, *a).both(low_in(lows, *b)),
        Form::Fields(parts) | Form::Sum(parts) => low_of_parts(lows, parts.as_slice()),
        Form::All(_, b) | Form::Ex(_, b) | Form::Mu(b) | Form::Lam(_, b) => {
            low_in(lows, *b).outside()
        }
    }
}

// The numbers of a type that has its own.
pub(crate) fn low_in(lows: &[Low], number: u64) -> Low
    requires { number < length lows.now }
    ensures { result ≡ low_in lows.now number }
{
    lows[number as usize]
}

// The numbers of the parts of a record or a sum.
fn low_of_parts(lows: &[Low], parts: &[(Label, u64)]) -> Low
    requires { ArePartsBelow (length lows.now) parts.now }
    ensures { result ≡ fold (with_part lows.now) highest parts.now }
{
    let mut low = Low::highest();
    for part in parts {
        low = low.both(low_in(lows, part.1));
    }
    low
}
