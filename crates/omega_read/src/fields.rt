// The order of fields.
ghost use Rattle.std.specs.Prelude.{◌≡◌};
ghost use Rattle.omega_spelling.specs.Reading.{follows};
ghost use Rattle.omega_read.specs.Inner.Onto.{last_of};

use omega_kinds::{Label, compare};
use omega_terms::TermFields;
use omega_types::TyFields;

// Whether a label comes after those of the fields.
pub fn type_may_follow(fields: &TyFields, label: &Label) -> bool
    ensures { result ≡ follows (last_of fields.now) label.now }
{
    match fields.items().last() {
        None => true,
        Some(last) => compare(&last.0, label).is_lt(),
    }
}

// Whether a label comes after those of the fields.
pub fn term_may_follow(fields: &TermFields, label: &Label) -> bool
    ensures { result ≡ follows (last_of fields.now) label.now }
{
    match fields.items().last() {
        None => true,
        Some(latest) => compare(&latest.0, label).is_lt(),
    }
}
