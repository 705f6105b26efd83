// The search for a label among fields.
ghost use Rattle.std.specs.Prelude.{◌≡◌};
ghost use Rattle.std.specs.Option.{option_copied};
ghost use Rattle.omega_types.specs.Fields.{Rises, at_label};

use omega_kinds::{Label, compare};

/// The part at a label among fields in strictly rising label order; `None` exactly where no field has the label.
/// Takes no memory, and so many comparisons as the number of fields has binary digits.
pub fn part_at<'a, T>(fields: &'a [(Label, T)], label: &Label) -> Option<&'a T>
    requires { Rises fields.now }
    ensures { option_copied result ≡ at_label fields.now label.now }
{
    match fields.binary_search_by(|field| compare(&field.0, label)) {
        Ok(at) => Some(&fields[at].1),
        Err(_) => None,
    }
}
