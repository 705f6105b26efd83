// The rules of sum types, of injections and of cases.
ghost use Rattle.std.specs.Prelude.{◌≡◌, ◌≢◌, [], IfErr, IfOk, IfSome, List, OnOk};
ghost use Rattle.std.specs.Option.{option_copied};
ghost use Rattle.omega_kinds.specs.LabelOrder.{spelling};
ghost use Rattle.omega_kinds.specs.View.{kind_tree};
ghost use Rattle.omega_kinds.specs.declared.label.Label.{Label as LabelTree};
ghost use Rattle.omega_types.specs.Fields.{row};
ghost use Rattle.omega_types.specs.Ty.{Ty as TyTree, Row};
ghost use Rattle.omega_terms.specs.Fields.{term_row};
ghost use Rattle.omega_terms.specs.Typing.{HasPart};
ghost use Rattle.core_judgments.specs.CoreWhy.{CoreWhy as Why};
ghost use Rattle.core_judgments.specs.TypeRules.{RecordTypeRefuses};
ghost use Rattle.core_judgments.specs.ExpRules.{SumGives, SumRefuses, LabelGives, LabelRefuses, InjectionGives, InjectionRefuses, FieldExp, BranchesGive, BranchesRefuse, InOrder, LeastWithout, CaseGives, CaseRefuses};
ghost use Rattle.core_rules.specs.Inner.Plain.{plain_why};
ghost use Rattle.core_rules.specs.Inner.Records.{HasBranches, SumTypeIs, at_key, exp_fields, type_fields};

use crate::expressions::field_type;
use crate::premises::{expect_same, expect_star};
use crate::records::{add_exp, expect_new, type_parts};
use crate::refusal::CoreRefusal;
use crate::types::of_values;
use omega_kinds::{Label, Mem, Name, name_of};
use omega_terms::{Term, TermFields, TermNode};
use omega_types::{TyFields, TyNode};
use semantic_sigs::{Kinded, Typed};
use std::alloc::Global;
use std::collections::BTreeMap;
use type_normal::{NormalTy, plain};

/// `case {X : T, ..}`, the sum type, whose labels come out in their order. Label by label, `DuplicateField` comes exactly
/// where an earlier label has the name, which is kept, and `KindDiffer` where the type has another kind than `*`: the
/// kind, and `*`.
///
/// Pierce, "Types and Programming Languages", section 11.10, Variants.
pub fn sum_ty(alloc: Global, fields: Vec<(Name, Kinded)>) -> Result<Kinded, CoreRefusal>
    ensures given { IfOk result (λ o. SumTypeIs (type_fields fields.items) o.ty (kind_tree o.kind)) }
    ensures refused { IfErr result (λ e. IfSome (plain_why e) (λ why. RecordTypeRefuses [] (type_fields fields.items) why)) }
{
    let node = TyNode::Sum(type_parts(alloc, fields)?);
    Ok(of_values(alloc, node)?)
}

/// E, the phrase after `case`, has a sum type. `NotSum` comes exactly where it has another one, which is kept.
pub fn is_sum(whole: &Typed) -> Result<(), CoreRefusal>
    ensures given { OnOk result ((r : Row) × SumGives whole.now.ty r) }
    ensures refused { IfErr result (λ e. IfSome (plain_why e) (λ why. SumRefuses whole.now.ty why)) }
{
    match plain(&whole.ty).node() {
        TyNode::Sum(_) => Ok(()),
        _ => Err(CoreRefusal::NotSum(whole.ty.share()?)),
    }
}

// The type of a label of a sum, which has it.
fn label_type(labels: &TyFields, name: &Name) -> Result<NormalTy, CoreRefusal>
    ensures given { IfOk result (λ t. HasPart (row labels.now) (LabelTree.Name name.now) t) }
    ensures refused { IfErr result (λ e. IfSome (plain_why e) (λ why. ((t : TyTree) → HasPart (row labels.now) (LabelTree.Name name.now) t → ⊥) × (why ≡ Why.NoField name.now))) }
{
    let label = Label::Name(name.share()?);
    match field_type(labels, &label)? {
        Some(ty) => Ok(ty),
        None => Err(CoreRefusal::NoField(name.share()?)),
    }
}

/// The type of the value that the branch for X takes, where E, the phrase after `case`, has a sum type. `NotSum` comes
/// exactly where E has a type, which is kept, that is no sum, and `NoField` where the sum has no label X.
pub fn case_part(whole: &Typed, name: &Name) -> Result<NormalTy, CoreRefusal>
    ensures given { IfOk result (λ t. LabelGives whole.now.ty name.now t) }
    ensures refused { IfErr result (λ e. IfSome (plain_why e) (λ why. LabelRefuses whole.now.ty name.now why)) }
{
    let TyNode::Sum(labels) = plain(&whole.ty).node() else {
        return Err(CoreRefusal::NotSum(whole.ty.share()?));
    };
    label_type(labels, name)
}

/// `inj X E : T`. `KindDiffer` comes exactly where T has another kind than `*`: the kind, and `*`. Where it has `*`,
/// `NotSum` comes exactly where T, which is kept, is no sum, then `NoField` where the sum has no label X, and last
/// `Differ` where E has another type than the label: the type of E, and that of the label.
///
/// Pierce, "Types and Programming Languages", section 11.10, figure 11-11, Variants.
pub fn inj_exp(
    alloc: Global,
    name: &Name,
    value: Typed,
    target: &Kinded,
) -> Result<Typed, CoreRefusal>
    ensures given { IfOk result (λ o. InjectionGives name.now value.ty value.term target.now.ty (kind_tree target.now.kind) o.ty o.term) }
    ensures refused { IfErr result (λ e. IfSome (plain_why e) (λ why. InjectionRefuses name.now value.ty target.now.ty (kind_tree target.now.kind) why)) }
{
    expect_star(&target.kind)?;
    let TyNode::Sum(labels) = plain(&target.ty).node() else {
        return Err(CoreRefusal::NotSum(target.ty.share()?));
    };
    expect_same(&value.ty, &label_type(labels, name)?)?;
    let label = Label::Name(name.share()?);
    let node = TermNode::Inj(label, value.term, plain(&target.ty).share()?);
    let ty = target.ty.share()?;
    Ok(Typed {
        ty,
        term: Term::make(alloc, node)?,
    })
}

/// `case E : T of {X (x) => E', ..}`, each E' under the value x, of the type of its label; the branches come out in the
/// order of the sum's labels. `NotSum` comes exactly where E has a type, which is kept, that is no sum, and then
/// `KindDiffer` where T has another kind than `*`: the kind, and `*`. Then, branch by branch, `DuplicateField` comes
/// where an earlier branch has the name, `NoField` where the sum has no such label, and `Differ` where E' has another
/// type than T: the type, and T. `NoBranch` comes last, where the sum has a label without a branch: the least one.
///
/// Pierce, "Types and Programming Languages", section 11.10, figure 11-11, Variants; here the case names its type.
pub fn case_exp(
    alloc: Global,
    whole: Typed,
    target: &Kinded,
    branches: Vec<(Name, Typed)>,
) -> Result<Typed, CoreRefusal>
    ensures given { IfOk result (λ o. CaseGives whole.ty whole.term target.now.ty (kind_tree target.now.kind) (exp_fields branches.items) o.ty o.term) }
    ensures refused { IfErr result (λ e. IfSome (plain_why e) (λ why. CaseRefuses whole.ty target.now.ty (kind_tree target.now.kind) (exp_fields branches.items) why)) }
{
    let TyNode::Sum(labels) = plain(&whole.ty).node() else {
        return Err(CoreRefusal::NotSum(whole.ty.share()?));
    };
    expect_star(&target.kind)?;
    let parts = by_name(alloc, labels, &target.ty, branches)?;
    let terms = in_order(alloc, labels, &parts)?;
    let node = TermNode::Case(whole.term, plain(&target.ty).share()?, terms);
    let ty = target.ty.share()?;
    Ok(Typed {
        ty,
        term: Term::make(alloc, node)?,
    })
}

// The branches by their names, each of a label of the sum and of the type.
fn by_name(
    alloc: Global,
    labels: &TyFields,
    target: &NormalTy,
    branches: Vec<(Name, Typed)>,
) -> Result<BTreeMap<Name, Typed>, CoreRefusal>
    ensures given { IfOk result (λ parts. BranchesGive (row labels.now) target.now [] (exp_fields branches.items)) }
    ensures branches { IfOk result (λ parts. HasBranches (exp_fields branches.items) parts.entries) }
    ensures refused { IfErr result (λ e. IfSome (plain_why e) (λ why. BranchesRefuse (row labels.now) target.now [] (exp_fields branches.items) why)) }
{
    let mut parts = BTreeMap::new(alloc);
    for branch in &branches {
        expect_new(parts.contains_key(&branch.0), &branch.0)?;
        label_type(labels, &branch.0)?;
        expect_same(&branch.1.ty, target)?;
        add_exp(&mut parts, &branch.0, &branch.1)?;
    }
    Ok(parts)
}

// The terms of the branches, in the order of the sum's labels.
fn in_order(
    alloc: Global,
    labels: &TyFields,
    parts: &BTreeMap<Name, Typed>,
) -> Result<TermFields, CoreRefusal>
    ensures given { IfOk result (λ terms. (bs : List FieldExp) → HasBranches bs parts.now.entries → InOrder bs (row labels.now) (term_row terms)) }
    ensures refused { IfErr result (λ e. IfSome (plain_why e) (λ why. (bs : List FieldExp) → HasBranches bs parts.now.entries
        → (l : LabelTree) × LeastWithout bs (row labels.now) l × (why ≡ Why.NoBranch (spelling l)))) }
{
    let mut terms = TermFields::new(alloc);
    for label in labels.items() {
        let Some(branch) = at_label(parts, &label.0) else {
            return Err(CoreRefusal::NoBranch(spelled(alloc, &label.0)?));
        };
        terms.push((label.0.share()?, branch.term.share()?))?;
    }
    Ok(terms)
}

// The branch for a label; a reserved one has none.
fn at_label<'a>(parts: &'a BTreeMap<Name, Typed>, label: &Label) -> Option<&'a Typed>
    ensures { option_copied result ≡ at_key label.now parts.now.entries }
{
    match label {
        Label::Name(name) => parts.get(name),
        _ => None,
    }
}

// The name of a label; that of a reserved one is empty.
fn spelled(alloc: Global, label: &Label) -> Result<Name, Mem>
    ensures { IfOk result (λ n. n ≡ spelling label.now) }
{
    match label {
        Label::Name(name) => name.share(),
        _ => name_of(alloc, b""),
    }
}
