// The rules of expressions.
ghost use Rattle.std.specs.Prelude.{◌≡◌, ◌↔◌, IfErr, IfOk, IfSome, List, MatchOption};
ghost use Rattle.omega_kinds.specs.Kind.{Kind as KindTree};
ghost use Rattle.omega_kinds.specs.View.{kind_tree};
ghost use Rattle.omega_types.specs.Fields.{row};
ghost use Rattle.omega_types.specs.Normality.{Normal};
ghost use Rattle.omega_types.specs.Ty.{Ty as TyTree};
ghost use Rattle.omega_types.specs.Inner.View.{ty_of};
ghost use Rattle.omega_terms.specs.Typing.{HasPart, result_type};
ghost use Rattle.omega_terms.specs.Inner.View.{term_of};
ghost use Rattle.core_judgments.specs.ExpRules.{LiteralGives, FunctionGives, FunctionRefuses, TypeFunctionGives, CallGives, CallRefuses, InstanceGives, InstanceRefuses, GetGives, GetRefuses, IfGives, IfRefuses, OperationGives, OperationRefuses, FixGives, FixRefuses};
ghost use Rattle.core_rules.specs.Inner.Plain.{plain_literal, plain_why};

use crate::premises::{expect_same, expect_star, made, part};
use crate::refusal::CoreRefusal;
use omega_kinds::{Kind, Label, Mem, Name, same_kind};
use omega_terms::{Op, Term, TermNode};
use omega_types::{Ty, TyFields, TyNode};
use semantic_sigs::{Kinded, Typed};
use std::alloc::Global;
use type_normal::{NormalTy, function_type, hsubst, plain};

/// A value that is written out: a number, a truth value, a text.
#[derive(Drop)]
pub enum Literal {
    Int(i64),
    Bool(bool),
    Text(Name),
}

// A type and a term by their outermost forms. `Err` is out of memory.
pub(crate) fn typed(alloc: Global, ty: TyNode, term: TermNode) -> Result<Typed, Mem>
    ensures ty { IfOk result (λ o. o.ty ≡ ty_of ty) }
    ensures term { IfOk result (λ o. o.term ≡ term_of term) }
{
    Ok(Typed {
        ty: made(alloc, ty)?,
        term: Term::make(alloc, term)?,
    })
}

/// A number, a truth value or a text. `Err` is out of memory.
pub fn literal_exp(alloc: Global, what: Literal) -> Result<Typed, Mem>
    ensures { IfOk result (λ o. LiteralGives (plain_literal what) o.ty o.term) }
{
    match what {
        Literal::Int(number) => typed(alloc, TyNode::Int, TermNode::Int(number)),
        Literal::Bool(truth) => typed(alloc, TyNode::Bool, TermNode::Bool(truth)),
        Literal::Text(text) => typed(alloc, TyNode::Text, TermNode::Text(text)),
    }
}

/// `fun (X : T) => E`, E under X. `KindDiffer` comes exactly where T has another kind than `*`: the kind, and `*`.
pub fn lam_exp(alloc: Global, param: &Kinded, body: Typed) -> Result<Typed, CoreRefusal>
    ensures given { IfOk result (λ o. FunctionGives param.now.ty (kind_tree param.now.kind) body.ty body.term o.ty o.term) }
    ensures refused { IfErr result (λ e. IfSome (plain_why e) (λ why. FunctionRefuses param.now.ty (kind_tree param.now.kind) why)) }
{
    expect_star(&param.kind)?;
    let ty = function_type(alloc, &param.ty, &body.ty)?;
    let term = Term::make(alloc, TermNode::Lam(plain(&param.ty).share()?, body.term))?;
    Ok(Typed { ty, term })
}

/// `fun [X : K] => E`, E under X. `Err` is out of memory.
pub fn ty_lam_exp(alloc: Global, kind: &Kind, body: Typed) -> Result<Typed, Mem>
    ensures { IfOk result (λ o. TypeFunctionGives (kind_tree kind.now) body.ty body.term o.ty o.term) }
{
    let ty = made(alloc, TyNode::All(kind.share()?, plain(&body.ty).share()?))?;
    let term = Term::make(alloc, TermNode::TyLam(kind.share()?, body.term))?;
    Ok(Typed { ty, term })
}

/// `E1 E2`. `NotArrow` comes exactly where E1 has a type, which is kept, that is no arrow, and `Differ` where E2 has
/// another type than E1 takes: the type of E2, and that of E1's argument.
pub fn apply_exp(alloc: Global, function: Typed, arg: Typed) -> Result<Typed, CoreRefusal>
    ensures given { IfOk result (λ o. CallGives function.ty function.term arg.ty arg.term o.ty o.term) }
    ensures refused { IfErr result (λ e. IfSome (plain_why e) (λ why. CallRefuses function.ty arg.ty why)) }
{
    let TyNode::Arrow(from, to) = plain(&function.ty).node() else {
        return Err(CoreRefusal::NotArrow(function.ty.share()?));
    };
    expect_same(&arg.ty, &part(from)?)?;
    let ty = part(to)?;
    let term = Term::make(alloc, TermNode::Call(function.term, arg.term))?;
    Ok(Typed { ty, term })
}

/// `E [T]`; the types of both are normal in one context. `NotAll` comes exactly where E has a type, which is kept, that
/// quantifies nothing, and `KindDiffer` where T has not the kind of the variable: the kind of T, and that of the variable.
pub fn inst_exp(alloc: Global, function: Typed, arg: &Kinded) -> Result<Typed, CoreRefusal>
    ensures given { IfOk result (λ o. (ctx : List KindTree) → Normal ctx function.ty KindTree.Star
        → Normal ctx arg.now.ty (kind_tree arg.now.kind)
        → InstanceGives ctx function.ty function.term arg.now.ty (kind_tree arg.now.kind) o.ty o.term) }
    ensures refused { IfErr result (λ e. IfSome (plain_why e) (λ why. InstanceRefuses function.ty arg.now.ty (kind_tree arg.now.kind) why)) }
{
    let TyNode::All(kind, body) = plain(&function.ty).node() else {
        return Err(CoreRefusal::NotAll(function.ty.share()?));
    };
    if !same_kind(&arg.kind, kind) {
        return Err(CoreRefusal::KindDiffer(arg.kind.share()?, kind.share()?));
    }
    let ty = hsubst(alloc, &part(body)?, 0, &arg.ty, kind)?;
    let term = Term::make(
        alloc,
        TermNode::Inst(function.term, plain(&arg.ty).share()?),
    )?;
    Ok(Typed { ty, term })
}

// The type of a field of a record or of a label of a sum; `None` exactly where it has none such.
pub(crate) fn field_type(fields: &TyFields, label: &Label) -> Result<Option<NormalTy>, Mem>
    ensures { IfOk result (λ o. MatchOption o ((t : TyTree) → HasPart (row fields.now) label.now t → ⊥) (λ t. HasPart (row fields.now) label.now t)) }
{
    match fields.find(label) {
        Some(ty) => Ok(Some(part(ty)?)),
        None => Ok(None),
    }
}

/// `E#X`. `NotRecord` comes exactly where E has a type, which is kept, that is no record, and `NoField` where the record
/// type has no field X.
pub fn get_exp(alloc: Global, whole: Typed, name: &Name) -> Result<Typed, CoreRefusal>
    ensures given { IfOk result (λ o. GetGives whole.ty whole.term name.now o.ty o.term) }
    ensures refused { IfErr result (λ e. IfSome (plain_why e) (λ why. GetRefuses whole.ty name.now why)) }
{
    let TyNode::Fields(fields) = plain(&whole.ty).node() else {
        return Err(CoreRefusal::NotRecord(whole.ty.share()?));
    };
    let label = Label::Name(name.share()?);
    let Some(ty) = field_type(fields, &label)? else {
        return Err(CoreRefusal::NoField(name.share()?));
    };
    let term = Term::make(alloc, TermNode::Get(whole.term, label))?;
    Ok(Typed { ty, term })
}

/// `if E1 then E2 else E3`. `Differ` comes exactly where E1 has another type than `Bool`, the type and `Bool`, or else
/// where E2 and E3 have different types, which it keeps in this order.
pub fn if_exp(alloc: Global, test: Typed, yes: Typed, no: Typed) -> Result<Typed, CoreRefusal>
    ensures given { IfOk result (λ o. IfGives test.ty test.term yes.ty yes.term no.ty no.term o.ty o.term) }
    ensures refused { IfErr result (λ e. IfSome (plain_why e) (λ why. IfRefuses test.ty yes.ty no.ty why)) }
{
    expect_same(&test.ty, &made(alloc, TyNode::Bool)?)?;
    expect_same(&yes.ty, &no.ty)?;
    let term = Term::make(alloc, TermNode::If(test.term, yes.term, no.term))?;
    Ok(Typed { ty: yes.ty, term })
}

// The type of an operator's result.
fn result_ty(alloc: Global, op: Op) -> Result<NormalTy, Mem>
    ensures { IfOk result (λ t. t ≡ result_type op) }
{
    match op {
        Op::Less | Op::Equal => made(alloc, TyNode::Bool),
        Op::Add | Op::Sub | Op::Mul | Op::Div | Op::Rem => made(alloc, TyNode::Int),
    }
}

/// An operator on two numbers. `Differ` comes exactly where the left operand, or else the right one, has another type
/// than `Int`: the type, and `Int`.
pub fn op_exp(alloc: Global, op: Op, left: Typed, right: Typed) -> Result<Typed, CoreRefusal>
    ensures given { IfOk result (λ o. OperationGives op left.ty left.term right.ty right.term o.ty o.term) }
    ensures refused { IfErr result (λ e. IfSome (plain_why e) (λ why. OperationRefuses left.ty right.ty why)) }
{
    let number = made(alloc, TyNode::Int)?;
    expect_same(&left.ty, &number)?;
    expect_same(&right.ty, &number)?;
    let ty = result_ty(alloc, op)?;
    let term = Term::make(alloc, TermNode::Arith(op, left.term, right.term))?;
    Ok(Typed { ty, term })
}

/// `fix F (X : T) : U => E`, E under F and then X. `KindDiffer` comes exactly where T, or else U, has another kind than
/// `*`: the kind, and `*`. `Differ` comes where these hold and E has another type than U: the type, and U.
///
/// Pierce, "Types and Programming Languages", figure 11-12, General recursion.
pub fn fix_exp(
    alloc: Global,
    param: &Kinded,
    target: &Kinded,
    body: Typed,
) -> Result<Typed, CoreRefusal>
    ensures given { IfOk result (λ o. FixGives param.now.ty (kind_tree param.now.kind) target.now.ty (kind_tree target.now.kind) body.ty body.term o.ty o.term) }
    ensures refused { IfErr result (λ e. IfSome (plain_why e) (λ why. FixRefuses param.now.ty (kind_tree param.now.kind) target.now.ty (kind_tree target.now.kind) body.ty why)) }
{
    expect_star(&param.kind)?;
    expect_star(&target.kind)?;
    expect_same(&body.ty, &target.ty)?;
    let from = plain(&param.ty);
    let to = plain(&target.ty);
    let ty = function_type(alloc, &param.ty, &target.ty)?;
    let term = Term::make(alloc, TermNode::Fix(from.share()?, to.share()?, body.term))?;
    Ok(Typed { ty, term })
}
