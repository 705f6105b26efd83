// The rules of expressions, refused at a place in an environment, but for those of sums and of recursive types.
ghost use Rattle.std.specs.Prelude.{◌≡◌, [], IfErr, IfOk, OnOk};
ghost use Rattle.omega_kinds.specs.Kind.{Kind as KindTree};
ghost use Rattle.omega_kinds.specs.View.{kind_tree};
ghost use Rattle.omega_types.specs.Normality.{Normal};
ghost use Rattle.omega_types.specs.Ty.{Row, Ty as TyTree};
ghost use Rattle.sig_definitions.specs.Env.{kinds as kinds_in};
ghost use Rattle.core_rules.specs.Inner.Plain.{plain_literal};
ghost use Rattle.core_rules.specs.Inner.Records.{RecordIs, exp_fields};
ghost use Rattle.core_judgments.specs.ExpRules.{LiteralGives, FunctionGives, FunctionRefuses, TypeFunctionGives, CallGives, CallRefuses, InstanceGives, InstanceRefuses, GetGives, GetRefuses, IfGives, IfRefuses, OperationGives, OperationRefuses, FixGives, FixRefuses, RecordRefuses};
ghost use Rattle.elab_judgments.specs.Operators.{omega_op as omega_op_of};
ghost use Rattle.elab_judgments.specs.Refusals.Refusal.{of_core};
ghost use Rattle.refusal_reasons.specs.Refusal.{Differ, NotArrow, NotAll, NotRecord};
ghost use Rattle.fing_syntax.specs.Inner.Leaves.{op_of, place};
ghost use Rattle.fing_refusals.specs.Inner.Plain.{want_of_memory};
ghost use Rattle.elab_rules.specs.Inner.Answered.{ByRule, ByTest};

use crate::refusing::{core_refusal, refuse};
use core_rules::{
    Literal, apply_exp, fields_exp, fix_exp, get_exp, if_exp, inst_exp, lam_exp, literal_exp,
    op_exp, ty_lam_exp,
};
use fing_refusals::{ElabWhy, Refusal};
use fing_syntax::Op;
use fing_text::Span;
use omega_kinds::{Kind, Mem, Name};
use omega_terms::Op as TermOp;
use omega_types::{Ty, TyNode};
use semantic_sigs::{Env, Kinded, Typed};
use std::alloc::Global;
use type_normal::{NormalTy, as_normal, function_type, plain, same};

/// The type is one of functions. `NotArrow` comes exactly where it is not: the type.
pub fn expect_arrow(env: &Env, at: Span, ty: &NormalTy) -> Result<(), Refusal>
    ensures given { OnOk result ((p : TyTree × TyTree) × (ty.now ≡ TyTree.Arrow p.0 p.1)) }
    ensures refused { IfErr result (λ e. ByTest env.now (place at) ((p : TyTree × TyTree) → ty.now ≡ TyTree.Arrow p.0 p.1 → ⊥) (NotArrow ty.now) e) }
{
    match plain(ty).node() {
        TyNode::Arrow(_, _) => Ok(()),
        _ => {
            let why = ElabWhy::NotArrow(ty.share()?);
            Err(refuse(env, at, why))
        }
    }
}

/// The type quantifies one. `NotAll` comes exactly where it does not: the type.
pub fn expect_all(env: &Env, at: Span, ty: &NormalTy) -> Result<(), Refusal>
    ensures given { OnOk result ((p : KindTree × TyTree) × (ty.now ≡ TyTree.All p.0 p.1)) }
    ensures refused { IfErr result (λ e. ByTest env.now (place at) ((p : KindTree × TyTree) → ty.now ≡ TyTree.All p.0 p.1 → ⊥) (NotAll ty.now) e) }
{
    match plain(ty).node() {
        TyNode::All(_, _) => Ok(()),
        _ => {
            let why = ElabWhy::NotAll(ty.share()?);
            Err(refuse(env, at, why))
        }
    }
}

/// The type is one of records. `NotRecord` comes exactly where it is not: the type.
pub fn expect_record(env: &Env, at: Span, ty: &NormalTy) -> Result<(), Refusal>
    ensures given { OnOk result ((row : Row) × (ty.now ≡ TyTree.Fields row)) }
    ensures refused { IfErr result (λ e. ByTest env.now (place at) ((row : Row) → ty.now ≡ TyTree.Fields row → ⊥) (NotRecord ty.now) e) }
{
    match plain(ty).node() {
        TyNode::Fields(_) => Ok(()),
        _ => {
            let why = ElabWhy::NotRecord(ty.share()?);
            Err(refuse(env, at, why))
        }
    }
}

/// The type that was found is the one that is needed. `Differ` comes exactly where it is another: both types.
pub fn expect_same(env: &Env, at: Span, found: &NormalTy, needed: &NormalTy) -> Result<(), Refusal>
    ensures given { OnOk result (found.now ≡ needed.now) }
    ensures refused { IfErr result (λ e. ByTest env.now (place at) (found.now ≡ needed.now → ⊥) (Differ found.now needed.now) e) }
{
    if same(found, needed) {
        return Ok(());
    }
    let why = ElabWhy::Differ(found.share()?, needed.share()?);
    Err(refuse(env, at, why))
}

/// The type is that of numbers. `Differ` comes exactly where it is another: the type, and that of numbers.
pub fn expect_int(alloc: Global, env: &Env, at: Span, ty: &NormalTy) -> Result<(), Refusal>
    ensures given { OnOk result (ty.now ≡ TyTree.Int) }
    ensures refused { IfErr result (λ e. ByTest env.now (place at) (ty.now ≡ TyTree.Int → ⊥) (Differ ty.now TyTree.Int) e) }
{
    let needed = as_normal(Ty::make(alloc, TyNode::Int)?);
    expect_same(env, at, ty, &needed)
}

/// The type is that of truth values. `Differ` comes exactly where it is another: the type, and that of truth values.
pub fn expect_bool(alloc: Global, env: &Env, at: Span, ty: &NormalTy) -> Result<(), Refusal>
    ensures given { OnOk result (ty.now ≡ TyTree.Bool) }
    ensures refused { IfErr result (λ e. ByTest env.now (place at) (ty.now ≡ TyTree.Bool → ⊥) (Differ ty.now TyTree.Bool) e) }
{
    let needed = as_normal(Ty::make(alloc, TyNode::Bool)?);
    expect_same(env, at, ty, &needed)
}

/// A number, a truth value, a text. The only refusal is want of memory, as wherever no place is handed in.
pub fn literal_rule(alloc: Global, what: Literal) -> Result<Typed, Refusal>
    ensures given { IfOk result (λ o. LiteralGives (plain_literal what) o.ty o.term) }
    ensures refused { IfErr result (λ e. e ≡ want_of_memory) }
{
    Ok(literal_exp(alloc, what)?)
}

/// `fun (X : T) => E`.
pub fn function_rule(
    alloc: Global,
    env: &Env,
    at: Span,
    param: &Kinded,
    body: Typed,
) -> Result<Typed, Refusal>
    ensures given { IfOk result (λ o. FunctionGives param.now.ty (kind_tree param.now.kind) body.ty body.term o.ty o.term) }
    ensures refused { IfErr result (λ e. ByRule of_core env.now (place at) (FunctionRefuses param.now.ty (kind_tree param.now.kind)) e) }
{
    lam_exp(alloc, param, body).map_err(|why| core_refusal(env, at, why))
}

/// `fun [X : K] => E`.
pub fn type_function_rule(alloc: Global, kind: &Kind, body: Typed) -> Result<Typed, Refusal>
    ensures given { IfOk result (λ o. TypeFunctionGives (kind_tree kind.now) body.ty body.term o.ty o.term) }
    ensures refused { IfErr result (λ e. e ≡ want_of_memory) }
{
    Ok(ty_lam_exp(alloc, kind, body)?)
}

/// `E1 E2`.
pub fn call_rule(
    alloc: Global,
    env: &Env,
    at: Span,
    function: Typed,
    arg: Typed,
) -> Result<Typed, Refusal>
    ensures given { IfOk result (λ o. CallGives function.ty function.term arg.ty arg.term o.ty o.term) }
    ensures refused { IfErr result (λ e. ByRule of_core env.now (place at) (CallRefuses function.ty arg.ty) e) }
{
    apply_exp(alloc, function, arg).map_err(|why| core_refusal(env, at, why))
}

/// `E [T]`; the types of both are normal in the environment.
pub fn instance_rule(
    alloc: Global,
    env: &Env,
    at: Span,
    function: Typed,
    arg: &Kinded,
) -> Result<Typed, Refusal>
    requires function { Normal (kinds_in env.now) function.ty KindTree.Star }
    requires arg { Normal (kinds_in env.now) arg.now.ty (kind_tree arg.now.kind) }
    ensures given { IfOk result (λ o. InstanceGives (kinds_in env.now) function.ty function.term arg.now.ty (kind_tree arg.now.kind) o.ty o.term) }
    ensures refused { IfErr result (λ e. ByRule of_core env.now (place at) (InstanceRefuses function.ty arg.now.ty (kind_tree arg.now.kind)) e) }
{
    inst_exp(alloc, function, arg).map_err(|why| core_refusal(env, at, why))
}

/// `E#X`.
pub fn get_rule(
    alloc: Global,
    env: &Env,
    at: Span,
    whole: Typed,
    name: &Name,
) -> Result<Typed, Refusal>
    ensures given { IfOk result (λ o. GetGives whole.ty whole.term name.now o.ty o.term) }
    ensures refused { IfErr result (λ e. ByRule of_core env.now (place at) (GetRefuses whole.ty name.now) e) }
{
    get_exp(alloc, whole, name).map_err(|why| core_refusal(env, at, why))
}

/// `if E1 then E2 else E3`.
pub fn if_rule(
    alloc: Global,
    env: &Env,
    at: Span,
    test: Typed,
    yes: Typed,
    no: Typed,
) -> Result<Typed, Refusal>
    ensures given { IfOk result (λ o. IfGives test.ty test.term yes.ty yes.term no.ty no.term o.ty o.term) }
    ensures refused { IfErr result (λ e. ByRule of_core env.now (place at) (IfRefuses test.ty yes.ty no.ty) e) }
{
    if_exp(alloc, test, yes, no).map_err(|why| core_refusal(env, at, why))
}

/// An operator on two operands.
pub fn operation_rule(
    alloc: Global,
    env: &Env,
    at: Span,
    op: TermOp,
    left: Typed,
    right: Typed,
) -> Result<Typed, Refusal>
    ensures given { IfOk result (λ o. OperationGives op left.ty left.term right.ty right.term o.ty o.term) }
    ensures refused { IfErr result (λ e. ByRule of_core env.now (place at) (OperationRefuses left.ty right.ty) e) }
{
    op_exp(alloc, op, left, right).map_err(|why| core_refusal(env, at, why))
}

/// `fix F (X : T) : U => E`.
pub fn fix_rule(
    alloc: Global,
    env: &Env,
    at: Span,
    param: &Kinded,
    target: &Kinded,
    body: Typed,
) -> Result<Typed, Refusal>
    ensures given { IfOk result (λ o. FixGives param.now.ty (kind_tree param.now.kind) target.now.ty (kind_tree target.now.kind) body.ty body.term o.ty o.term) }
    ensures refused { IfErr result (λ e. ByRule of_core env.now (place at) (FixRefuses param.now.ty (kind_tree param.now.kind) target.now.ty (kind_tree target.now.kind) body.ty) e) }
{
    fix_exp(alloc, param, target, body).map_err(|why| core_refusal(env, at, why))
}

/// `{X = E, ..}`.
pub fn record_rule(
    alloc: Global,
    env: &Env,
    at: Span,
    fields: Vec<(Name, Typed)>,
) -> Result<Typed, Refusal>
    ensures given { IfOk result (λ o. RecordIs (exp_fields fields.items) o.ty o.term) }
    ensures refused { IfErr result (λ e. ByRule of_core env.now (place at) (RecordRefuses [] (exp_fields fields.items)) e) }
{
    fields_exp(alloc, fields).map_err(|why| core_refusal(env, at, why))
}

/// The type of functions from one type to another. `Err` is want of memory.
pub fn arrow_of(alloc: Global, from: &Kinded, to: &Kinded) -> Result<NormalTy, Mem>
    ensures { IfOk result (λ t. t ≡ TyTree.Arrow from.now.ty to.now.ty) }
{
    function_type(alloc, &from.ty, &to.ty)
}

/// The operator of terms.
pub fn omega_op(op: Op) -> TermOp
    ensures { result ≡ omega_op_of (op_of op) }
{
    match op {
        Op::Add => TermOp::Add,
        Op::Sub => TermOp::Sub,
        Op::Mul => TermOp::Mul,
        Op::Div => TermOp::Div,
        Op::Rem => TermOp::Rem,
        Op::Less => TermOp::Less,
        Op::Equal => TermOp::Equal,
    }
}
