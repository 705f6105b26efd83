// The rules of record types and of records. A sum type has its parts as a record type has them.
ghost use Rattle.std.specs.Prelude.{◌≡◌, [], true, false, IfErr, IfOk, IfSome, OnOk};
ghost use Rattle.std.specs.BTreeMap.{insert_entry};
ghost use Rattle.omega_kinds.specs.LabelOrder.{name_cmp};
ghost use Rattle.omega_kinds.specs.View.{kind_tree};
ghost use Rattle.omega_types.specs.Fields.{row};
ghost use Rattle.core_judgments.specs.CoreWhy.{CoreWhy as Why};
ghost use Rattle.core_judgments.specs.TypeRules.{RecordTypeGives, RecordTypeRefuses};
ghost use Rattle.core_judgments.specs.ExpRules.{RecordRefuses};
ghost use Rattle.core_rules.specs.Inner.Plain.{plain_why};
ghost use Rattle.core_rules.specs.Inner.Records.{RecordIs, RecordTypeIs, exp_fields, labelled, type_fields};

use crate::premises::{expect_star, made};
use crate::refusal::CoreRefusal;
use crate::types::of_values;
use omega_kinds::{Label, Mem, Name};
use omega_terms::{Term, TermFields, TermNode};
use omega_types::{TyFields, TyNode};
use semantic_sigs::{Kinded, Typed};
use std::alloc::Global;
use std::collections::BTreeMap;
use type_normal::{NormalTy, plain};

/// `{X : T, ..}`, whose fields come out in the order of labels. Field by field, `DuplicateField` comes exactly where an
/// earlier field has the name, which is kept, and `KindDiffer` where the type has another kind than `*`: the kind, and
/// `*`.
///
/// Pierce, "Types and Programming Languages", figure 11-7, Records.
pub fn fields_ty(alloc: Global, fields: Vec<(Name, Kinded)>) -> Result<Kinded, CoreRefusal>
    ensures given { IfOk result (λ o. RecordTypeIs (type_fields fields.items) o.ty (kind_tree o.kind)) }
    ensures refused { IfErr result (λ e. IfSome (plain_why e) (λ why. RecordTypeRefuses [] (type_fields fields.items) why)) }
{
    let node = TyNode::Fields(type_parts(alloc, fields)?);
    Ok(of_values(alloc, node)?)
}

// The parts of a record type or of a sum type, in the order of labels.
pub(crate) fn type_parts(
    alloc: Global,
    fields: Vec<(Name, Kinded)>,
) -> Result<TyFields, CoreRefusal>
    ensures given { IfOk result (λ parts. RecordTypeGives [] (type_fields fields.items) (row parts)) }
    ensures refused { IfErr result (λ e. IfSome (plain_why e) (λ why. RecordTypeRefuses [] (type_fields fields.items) why)) }
{
    let mut parts = BTreeMap::new(alloc);
    for field in &fields {
        expect_new(parts.contains_key(&field.0), &field.0)?;
        expect_star(&field.1.kind)?;
        add_type(&mut parts, &field.0, &field.1.ty)?;
    }
    Ok(type_row(alloc, &parts)?)
}

// The name is none of those before.
pub(crate) fn expect_new(known: bool, name: &Name) -> Result<(), CoreRefusal>
    ensures ok { OnOk result (known ≡ false) }
    ensures refused { IfErr result (λ e. IfSome (plain_why e) (λ why. (known ≡ true) × (why ≡ Why.DuplicateField name.now))) }
{
    if known {
        Err(CoreRefusal::DuplicateField(name.share()?))
    } else {
        Ok(())
    }
}

// One more part of a record type.
fn add_type(parts: &mut BTreeMap<Name, NormalTy>, name: &Name, ty: &NormalTy) -> Result<(), Mem>
    ensures { OnOk result (parts.new.entries ≡ insert_entry name_cmp parts.old.entries name.now ty.now) }
{
    parts.insert(name.share()?, ty.share()?)?;
    Ok(())
}

// The fields of a record type.
fn type_row(alloc: Global, parts: &BTreeMap<Name, NormalTy>) -> Result<TyFields, Mem>
    ensures { IfOk result (λ fields. fields ≡ labelled (λ t. t) parts.now.entries) }
{
    let mut fields = TyFields::new(alloc);
    for (name, ty) in parts {
        fields.push((Label::Name(name.share()?), plain(ty).share()?))?;
    }
    Ok(fields)
}

/// `{X = E, ..}`, whose fields come out in the order of labels. `DuplicateField` comes exactly where an earlier field has
/// the name, which is kept, at the first such field.
///
/// Pierce, "Types and Programming Languages", figure 11-7, Records.
pub fn fields_exp(alloc: Global, fields: Vec<(Name, Typed)>) -> Result<Typed, CoreRefusal>
    ensures given { IfOk result (λ o. RecordIs (exp_fields fields.items) o.ty o.term) }
    ensures refused { IfErr result (λ e. IfSome (plain_why e) (λ why. RecordRefuses [] (exp_fields fields.items) why)) }
{
    let mut parts = BTreeMap::new(alloc);
    for field in &fields {
        expect_new(parts.contains_key(&field.0), &field.0)?;
        add_exp(&mut parts, &field.0, &field.1)?;
    }
    let ty = made(alloc, TyNode::Fields(typed_row(alloc, &parts)?))?;
    let term = Term::make(alloc, TermNode::Fields(term_row(alloc, &parts)?))?;
    Ok(Typed { ty, term })
}

// One more part of a record, or one more branch of a case.
pub(crate) fn add_exp(
    parts: &mut BTreeMap<Name, Typed>,
    name: &Name,
    exp: &Typed,
) -> Result<(), Mem>
    ensures { OnOk result (parts.new.entries ≡ insert_entry name_cmp parts.old.entries name.now exp.now) }
{
    parts.insert(name.share()?, shared(exp)?)?;
    Ok(())
}

// The same type and term, with their parts shared.
fn shared(exp: &Typed) -> Result<Typed, Mem>
    ensures { IfOk result (λ e. e ≡ exp.now) }
{
    Ok(Typed {
        ty: exp.ty.share()?,
        term: exp.term.share()?,
    })
}

// The fields of a record's type.
fn typed_row(alloc: Global, parts: &BTreeMap<Name, Typed>) -> Result<TyFields, Mem>
    ensures { IfOk result (λ fields. fields ≡ labelled (λ e. e.ty) parts.now.entries) }
{
    let mut fields = TyFields::new(alloc);
    for (name, exp) in parts {
        fields.push((Label::Name(name.share()?), plain(&exp.ty).share()?))?;
    }
    Ok(fields)
}

// The fields of a record's term.
fn term_row(alloc: Global, parts: &BTreeMap<Name, Typed>) -> Result<TermFields, Mem>
    ensures { IfOk result (λ fields. fields ≡ labelled (λ e. e.term) parts.now.entries) }
{
    let mut fields = TermFields::new(alloc);
    for (name, exp) in parts {
        fields.push((Label::Name(name.share()?), exp.term.share()?))?;
    }
    Ok(fields)
}
