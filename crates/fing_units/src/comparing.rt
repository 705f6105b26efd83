// Equality of signatures.
ghost use Rattle.std.specs.Prelude.{◌≡◌, ◌↔◌, IsTrue};
ghost use Rattle.omega_kinds.specs.declared.effect.Effect.{Effect as EffectTree};
ghost use Rattle.semantic_sigs.specs.Inner.Fields.{sig_row};

use omega_kinds::{Effect, Kinds, same_kind, same_name};
use semantic_sigs::{Abs, Sig, SigFields, SigNode};
use type_normal::same;

/// Whether two abstract signatures are the same tree. Takes no memory.
#[cycle(same)]
pub(crate) fn same_abs(left: &Abs, right: &Abs) -> bool
    ensures { IsTrue result ↔ left.now ≡ right.now }
{
    same_kinds(left.kinds(), right.kinds()) && same_sig(left.body(), right.body())
}

// The same for two signatures.
#[cycle(same)]
fn same_sig(left: &Sig, right: &Sig) -> bool
    ensures { IsTrue result ↔ left.now ≡ right.now }
{
    match (left.node(), right.node()) {
        (SigNode::Val(a), SigNode::Val(b)) => same(a, b),
        (SigNode::Typ(a, j), SigNode::Typ(b, k)) => same(a, b) && same_kind(j, k),
        (SigNode::Meta(a), SigNode::Meta(b)) => same_abs(a, b),
        (SigNode::Str(a), SigNode::Str(b)) => same_fields(a, b),
        (
            SigNode::Fun {
                effect: e,
                kinds: j,
                param: a,
                result: b,
            },
            SigNode::Fun {
                effect: f,
                kinds: k,
                param: c,
                result: d,
            },
        ) => same_effect(*e, *f) && same_kinds(j, k) && same_sig(a, c) && same_abs(b, d),
        _ => false,
    }
}

// Whether two structures have the same names and parts.
#[cycle(same)]
fn same_fields(left: &SigFields, right: &SigFields) -> bool
    ensures { IsTrue result ↔ sig_row left.now ≡ sig_row right.now }
{
    let left = left.items();
    let right = right.items();
    if left.len() != right.len() {
        return false;
    }
    for i in 0..left.len() {
        let a = &left[i];
        let b = &right[i];
        if !same_name(&a.0, &b.0) || !same_sig(&a.1, &b.1) {
            return false;
        }
    }
    true
}

// Whether two lists of kinds are the same.
fn same_kinds(left: &Kinds, right: &Kinds) -> bool
    ensures { IsTrue result ↔ left.now ≡ right.now }
{
    let left = left.items();
    let right = right.items();
    if left.len() != right.len() {
        return false;
    }
    for i in 0..left.len() {
        if !same_kind(&left[i], &right[i]) {
            return false;
        }
    }
    true
}

// Whether two effects are the same.
fn same_effect(left: Effect, right: Effect) -> bool
    ensures { IsTrue result ↔ ◌≡◌ {A = EffectTree} left right }
{
    match (left, right) {
        (Effect::Pure, Effect::Pure) => true,
        (Effect::Impure, Effect::Impure) => true,
        _ => false,
    }
}
