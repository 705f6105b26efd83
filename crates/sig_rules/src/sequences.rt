// The rules of several declarations.
ghost use Rattle.std.specs.Prelude.{◌≡◌, [], ◌∷◌, ◌++◌, List, IfErr, IfOk, IfSome, OnOk};
ghost use Rattle.omega_kinds.specs.Kind.{Kind as KindTree};
ghost use Rattle.sig_definitions.specs.Signatures.FieldOrder.{merge as merge_of};
ghost use Rattle.sig_definitions.specs.Signatures.RecordOrder.{AreNew};
ghost use Rattle.sig_definitions.specs.Signatures.Sig.{SigRow, Str, Ex};
ghost use Rattle.semantic_sigs.specs.Inner.Fields.{MayFollow, Rises, sig_row};
ghost use Rattle.sig_judgments.specs.SigRules.{DeclarationsGive, DistinctRefuses};
ghost use Rattle.sig_rules.specs.Inner.Plain.{AreApart, fields_in, plain_why};

use crate::hidden::joined;
use crate::name_set::NameSet;
use crate::refusal::SigRefusal;
use omega_kinds::{Mem, Name};
use semantic_sigs::{Abs, Sig, SigFields, SigNode, raise_sig};
use std::alloc::Global;
use std::cmp::Ordering;

/// Whether the fields of a declaration, in the order of names, are all new after those before. `Duplicate` comes exactly
/// where one is not, with the first such name.
pub fn distinct(before: &NameSet, next: &Abs) -> Result<(), SigRefusal>
    ensures given { OnOk result (AreNew (fields_in next.now) before.now) }
    ensures refused { IfErr result (λ e. IfSome (plain_why e) (λ why. DistinctRefuses before.now (fields_in next.now) why)) }
{
    let SigNode::Str(fields) = next.body().node() else {
        return Ok(());
    };
    for field in fields.items() {
        if before.contains(&field.0) {
            return Err(SigRefusal::Duplicate(field.0.share()?));
        }
    }
    Ok(())
}

/// Declarations and those after them, which stand under the hidden types of the first. Both are structures that share no
/// name, which holds of declarations whose names are distinct. `Err` is out of memory.
pub fn seq_decl(alloc: Global, first: &Abs, rest: &Abs) -> Result<Abs, Mem>
    ensures { IfOk result (λ x. (ks js : List KindTree) (fs gs : SigRow) → first.now ≡ Ex ks (Str fs) → rest.now ≡ Ex js (Str gs) → AreApart fs gs → DeclarationsGive first.now rest.now x) }
{
    let later = rest.kinds().items();
    let raised = raise_sig(alloc, first.body(), later.len() as u64, 0)?;
    let fields = both(alloc, &raised, rest.body())?;
    let kinds = joined(alloc, first.kinds().items(), later)?;
    let body = Sig::make(alloc, SigNode::Str(fields))?;
    Abs::make(alloc, kinds, body)
}

// The fields of two structures that share no name; none where either is no structure.
fn both(alloc: Global, left: &Sig, right: &Sig) -> Result<SigFields, Mem>
    ensures { IfOk result (λ f. (fs gs : SigRow) → left.now ≡ Str fs → right.now ≡ Str gs → AreApart fs gs → sig_row f ≡ merge_of fs gs) }
{
    match (left.node(), right.node()) {
        (SigNode::Str(left), SigNode::Str(right)) => merge(alloc, left.items(), right.items()),
        _ => Ok(SigFields::new(alloc)),
    }
}

// The fields of two rows that share no name, in the order of names.
fn merge(alloc: Global, left: &[(Name, Sig)], right: &[(Name, Sig)]) -> Result<SigFields, Mem>
    requires left_rises { Rises left.now }
    requires right_rises { Rises right.now }
    ensures { IfOk result (λ f. AreApart (sig_row left.now) (sig_row right.now) → sig_row f ≡ merge_of (sig_row left.now) (sig_row right.now)) }
{
    let mut fields = SigFields::new(alloc);
    let mut i = 0;
    let mut j = 0;
    while i < left.len() && j < right.len() {
        let next = &left[i];
        let other = &right[j];
        match next.0.cmp(&other.0) {
            Ordering::Less => {
                add(&mut fields, next)?;
                i += 1;
            }
            Ordering::Equal => i += 1,
            Ordering::Greater => {
                add(&mut fields, other)?;
                j += 1;
            }
        }
    }
    add_all(&mut fields, &left[i..])?;
    add_all(&mut fields, &right[j..])?;
    Ok(fields)
}

// One more field.
fn add(fields: &mut SigFields, field: &(Name, Sig)) -> Result<(), Mem>
    requires { MayFollow fields.old field.now.0 }
    ensures { OnOk result (fields.new ≡ fields.old ++ field.now ∷ []) }
{
    fields.push((field.0.share()?, field.1.share()?))
}

// More fields, which come after those before.
fn add_all(fields: &mut SigFields, more: &[(Name, Sig)]) -> Result<(), Mem>
    requires { Rises (fields.old ++ more.now) }
    ensures { OnOk result (fields.new ≡ fields.old ++ more.now) }
{
    for field in more {
        add(fields, field)?;
    }
    Ok(())
}
