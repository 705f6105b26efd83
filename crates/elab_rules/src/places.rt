// Where a fixed type is refused, an injection, a rolled value, the label of a declaration, and what a branch gives.
ghost use Rattle.std.specs.Prelude.{◌≡◌, ◌∷◌, IfSome, map};
ghost use Rattle.core_rules.specs.Inner.Plain.{plain_why as core_why};
ghost use Rattle.data_types.specs.Inner.Plain.{plain_why as data_why};
ghost use Rattle.sig_rules.specs.Inner.Plain.{plain_why};
ghost use Rattle.fing_syntax.specs.Inner.Leaves.{place, spelled};
ghost use Rattle.fing_syntax.specs.Place.{decl_span, exp_span, path_span};
ghost use Rattle.elab_rules.specs.Inner.Leaving.{LeftAt, StandsAt};
ghost use Rattle.elab_rules.specs.Inner.Places.{injection_at, roll_at};

use crate::naming::up_to;
use core_rules::CoreRefusal;
use data_types::DataRefusal;
use fing_syntax::{Branch, Decl, DeclWhat, SpanName};
use fing_text::Span;
use semantic_sigs::{Sig, field};
use sig_rules::SigRefusal;

/// The place of the reason: the name at which the path leaves the structures of the signature, the path, or the place of
/// the type.
pub(crate) fn where_place(
    sig: &Sig,
    first: &SpanName,
    rest: &[SpanName],
    by: Span,
    why: &SigRefusal,
) -> Span
    ensures { IfSome (plain_why why.now) (λ w. StandsAt sig.now (spelled first.now) (map spelled rest.now) (place by) w (place result)) }
{
    match why {
        SigRefusal::NoPart(_) => name_place(sig, first, rest),
        SigRefusal::NotAbstract(_) => path_place(first, rest),
        _ => by,
    }
}

// The place of the name at which the path leaves the structures of the signature.
fn name_place(sig: &Sig, first: &SpanName, rest: &[SpanName]) -> Span
    ensures { LeftAt sig.now (spelled first.now ∷ map spelled rest.now) (place result) }
{
    let Some(inner) = field(sig, &first.name) else {
        return first.span;
    };
    match rest {
        [] => first.span,
        [next, more @ ..] => name_place(inner, next, more),
    }
}

// From the first name of a path to its last.
fn path_place(first: &SpanName, rest: &[SpanName]) -> Span
    ensures { place result ≡ path_span (spelled first.now) (map spelled rest.now) }
{
    match rest {
        [] => first.span,
        [next, more @ ..] => up_to(first.span, path_place(next, more)),
    }
}

/// The place of the reason: that of the type, where it is no sum, the label, where the sum lacks it, or else the value.
pub(crate) fn injection_place(label: Span, value: Span, target: Span, why: &CoreRefusal) -> Span
    ensures { IfSome (core_why why.now) (λ w. place result ≡ injection_at (place label) (place value) (place target) w) }
{
    match why {
        CoreRefusal::NotSum(_) => target,
        CoreRefusal::NoField(_) => label,
        _ => value,
    }
}

/// The place of the reason: that of the type, where it is no recursive one, or else the value.
pub(crate) fn roll_place(value: Span, target: Span, why: &DataRefusal) -> Span
    ensures { IfSome (data_why why.now) (λ w. place result ≡ roll_at (place value) (place target) w) }
{
    match why {
        DataRefusal::NotData(_) => target,
        _ => value,
    }
}

/// The place at which a declaration's label is refused.
pub fn decl_place(phrase: &Decl) -> Span
    ensures { place result ≡ decl_span phrase.now }
{
    match &phrase.what {
        DeclWhat::Val(name, _) => name.span,
        DeclWhat::TyIs(name, _) => name.span,
        DeclWhat::TyOf(name, _) => name.span,
        DeclWhat::Module(name, _) => name.span,
        DeclWhat::Signature(name, _) => name.span,
        DeclWhat::Include(of) => of.span,
    }
}

/// The place of what a case gives by a branch.
pub fn branch_place(branch: &Branch) -> Span
    ensures { place result ≡ exp_span branch.now.body }
{
    branch.body.span
}
