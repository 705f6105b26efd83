// Digests: one number for a form, which is what a hasher gets.
ghost use Rattle.std.specs.Prelude.{◌≡◌, fold};
ghost use Rattle.omega_kinds.specs.View.{kind_tree};
ghost use Rattle.type_store.specs.Inner.Feed.{digest, kind_digest, label_digest, mixed, part_digest};
ghost use Rattle.type_store.specs.Inner.View.{shape_of};

use crate::node::Form;
use omega_kinds::{Kind, Label};

// The golden ratio's fraction, in 64 bits.
const MULTIPLIER: u64 = 0x9e37_79b9_7f4a_7c15;

// The digest of a form, kinds with all their parts: types that differ in a kind alone stand apart.
pub(crate) fn digest_of(form: &Form) -> u64
    ensures { result ≡ digest (shape_of form.now) }
{
    match form {
        Form::Var(index) => mixed(1, *index),
        Form::Int => 2,
        Form::Bool => 3,
        Form::Text => 4,
        Form::Arrow(a, b) => mixed(mixed(5, *a), *b),
        Form::Fields(parts) => digest_of_parts(6, parts.as_slice()),
        Form::Sum(parts) => digest_of_parts(7, parts.as_slice()),
        Form::All(k, b) => digest_of_kind(mixed(8, *b), k),
        Form::Ex(k, b) => digest_of_kind(mixed(9, *b), k),
        Form::Mu(b) => mixed(10, *b),
        Form::Lam(k, b) => digest_of_kind(mixed(11, *b), k),
        Form::Apply(f, a) => mixed(mixed(12, *f), *a),
    }
}

// A digest with one more number worked in.
#[tactic(auto, unfolding(crate::specs::Inner::Feed::mixed))]
fn mixed(digest: u64, more: u64) -> u64
    ensures { result ≡ mixed digest more }
{
    (digest ^ more).wrapping_mul(MULTIPLIER)
}

// A digest with the parts of a record worked in.
fn digest_of_parts(start: u64, parts: &[(Label, u64)]) -> u64
    ensures { result ≡ fold part_digest start parts.now }
{
    let mut digest = start;
    for part in parts {
        digest = mixed(digest_of_label(digest, &part.0), part.1);
    }
    digest
}

// A digest with a kind worked in.
fn digest_of_kind(digest: u64, kind: &Kind) -> u64
    ensures { result ≡ kind_digest digest (kind_tree kind.now) }
{
    match kind {
        Kind::Star => mixed(digest, 1),
        Kind::Arrow(from, to, _) => digest_of_kind(digest_of_kind(mixed(digest, 2), from), to),
    }
}

// A digest with a label worked in.
fn digest_of_label(digest: u64, label: &Label) -> u64
    ensures { result ≡ label_digest digest label.now }
{
    match label {
        Label::Val => mixed(digest, 1),
        Label::Typ => mixed(digest, 2),
        Label::Sig => mixed(digest, 3),
        Label::App => mixed(digest, 4),
        Label::Gen => mixed(digest, 5),
        Label::Name(name) => digest_of_bytes(digest, name.bytes()),
    }
}

// A digest with bytes worked in.
fn digest_of_bytes(start: u64, bytes: &[u8]) -> u64
    ensures { result ≡ fold mixed start bytes.now }
{
    let mut digest = start;
    for byte in bytes {
        digest = mixed(digest, *byte as u64);
    }
    digest
}
