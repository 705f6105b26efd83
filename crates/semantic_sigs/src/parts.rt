// The part of a signature at a path of names.
ghost use Rattle.std.specs.Prelude.{◌≡◌, [], MatchOption, map};
ghost use Rattle.omega_kinds.specs.LabelOrder.{name_before};
ghost use Rattle.sig_definitions.specs.Explicit.SigPath.{Part, PartAt};
ghost use Rattle.sig_definitions.specs.Signatures.Sig.{HasField, NoField, Sig as SigTree, SigRow, Str};
ghost use Rattle.semantic_sigs.specs.Inner.Fields.{sig_row};

use crate::tree::{Sig, SigFields, SigNode};
use omega_kinds::{Name, same_name};

/// The part at a path that goes through structures from name to name; `None` exactly where the path leaves the
/// structures. Takes no memory.
pub fn part<'a>(sig: &'a Sig, path: &[Name]) -> Option<&'a Sig>
    ensures { MatchOption result ((q : SigTree) → PartAt sig.now (map Part path.now) [] q → ⊥) (λ q. PartAt sig.now (map Part path.now) [] q.now) }
{
    let mut here = sig;
    for name in path {
        match field(here, name) {
            Some(inner) => here = inner,
            None => return None,
        }
    }
    Some(here)
}

/// The part of a structure under a name; `None` exactly where the signature is no structure that has one. Takes no
/// memory.
pub fn field<'a>(sig: &'a Sig, name: &Name) -> Option<&'a Sig>
    ensures { MatchOption result ((fields : SigRow) → sig.now ≡ Str fields → NoField name.now fields) (λ s. (fields : SigRow) × (sig.now ≡ Str fields) × HasField fields name.now s.now) }
{
    match sig.node() {
        SigNode::Str(fields) => find_field(fields, name),
        _ => None,
    }
}

/// The part under a name, by halving; `None` exactly where there is none. Takes no memory.
pub fn find_field<'a>(fields: &'a SigFields, name: &Name) -> Option<&'a Sig>
    ensures { MatchOption result (NoField name.now (sig_row fields.now)) (λ s. HasField (sig_row fields.now) name.now s.now) }
{
    let items = fields.items();
    let mut low = 0;
    let mut high = items.len();
    while low < high {
        let middle = low + (high - low) / 2;
        let field = &items[middle];
        if same_name(name, &field.0) {
            return Some(&field.1);
        }
        if comes_before(name, &field.0) {
            high = middle;
        } else {
            low = middle + 1;
        }
    }
    None
}

// Whether a name is before another.
fn comes_before(left: &Name, right: &Name) -> bool
    ensures { result ≡ name_before left.now right.now }
{
    left.cmp(right).is_lt()
}
