// Expressions: what each form means, a type and a term, in an environment. Those of sums and of recursive types have a file of
// their own.
ghost use Rattle.std.specs.Prelude.{◌≡◌, ◌++◌, ◌∷◌, [], List, IfErr, IfOk, OnOk};
ghost use Rattle.omega_kinds.specs.Kind.{Star};
ghost use Rattle.omega_kinds.specs.View.{kind_tree};
ghost use Rattle.omega_types.specs.Normality.{Normal};
ghost use Rattle.sig_definitions.specs.Env.{Value, kinds as kinds_in};
ghost use Rattle.sig_laws.specs.Good.{OkEnv};
ghost use Rattle.core_rules.specs.Inner.Records.{exp_fields as exp_parts};
ghost use Rattle.core_judgments.specs.ExpRules.{FieldExp};
ghost use Rattle.elab_judgments.specs.Judgments.Meaning.{ArgsMean, ExpMeans, FieldExpsMean, OpsMean};
ghost use Rattle.elab_judgments.specs.Refusals.Task.{an_exp, args as args_task, fields as fields_task, operands as operands_task};
ghost use Rattle.fing_syntax.specs.Inner.Leaves.{op_of, place, spelled};
ghost use Rattle.fing_syntax.specs.Phrase.{ArgExp, ArgTy, ExpApply, ExpAt, ExpFields, ExpFix, ExpGet, ExpIf, ExpLam, ExpOps, ExpTyLam, MoreArgs, MoreFieldExps, MoreOps, Span as Place};
ghost use Rattle.fing_syntax.specs.Inner.View.{args as args_of, field_exps, ops};
ghost use Rattle.elab_rules.specs.Inner.Answered.{RefusedAs};
ghost use Rattle.elab_rules.specs.Inner.Fields.{names_before};

use crate::sums::{exp_case, exp_inj, exp_roll, exp_unroll};
use crate::types::{ty, value_ty};
use crate::uses::{pack_value, path_value};
use core_rules::Literal;
use elab_rules::exp_rules::{
    arrow_of, call_rule, expect_all, expect_arrow, expect_bool, expect_int, expect_record,
    fix_rule, function_rule, get_rule, if_rule, instance_rule, literal_rule, omega_op,
    operation_rule, record_rule, type_function_rule,
};
use elab_rules::naming::{add, expect_new, up_to};
use elab_rules::scopes::{leave, push_type, push_value};
use fing_refusals::Refusal;
use fing_syntax::{Arg, Exp, ExpWhat, Op, SpanName, TyEx};
use fing_text::Span;
use omega_kinds::{Kind, Name};
use semantic_sigs::{Env, Typed};
use std::alloc::Global;
use type_normal::NormalTy;

/// What an expression means: its type and its term.
#[cycle(elab)]
pub(crate) fn exp(alloc: Global, env: &mut Env, phrase: &Exp) -> Result<Typed, Refusal>
    requires { OkEnv env.old }
    ensures given { IfOk result (λ o. ExpMeans env.old phrase.now o.ty o.term) }
    ensures refused { IfErr result (λ e. RefusedAs env.old (an_exp phrase.now) e) }
    ensures same { OnOk result (env.new ≡ env.old) }
{
    let at = phrase.span;
    match &phrase.what {
        ExpWhat::Path(path) => path_value(alloc, env, at, path),
        ExpWhat::Int(number) => literal_rule(alloc, Literal::Int(*number)),
        ExpWhat::Bool(truth) => literal_rule(alloc, Literal::Bool(*truth)),
        ExpWhat::Text(text) => literal_rule(alloc, Literal::Text(text.share()?)),
        ExpWhat::Lam(name, param, body) => exp_lam(alloc, env, name, param, body),
        ExpWhat::TyLam(name, kind, body) => exp_ty_lam(alloc, env, name, kind, body),
        ExpWhat::Fix {
            function,
            name,
            param,
            result: target,
            body,
        } => exp_fix(alloc, env, function, name, param, target, body),
        ExpWhat::If(test, yes, no) => exp_if(alloc, env, test, yes, no),
        ExpWhat::Ops(first, rest) => exp_ops(alloc, env, first, rest),
        ExpWhat::Apply(function, args) => exp_apply(alloc, env, function, args),
        ExpWhat::Fields(fields) => exp_record(alloc, env, at, fields),
        ExpWhat::Get(whole, name) => exp_get(alloc, env, whole, name),
        ExpWhat::Pack(name, sig) => pack_value(alloc, env, name, sig),
        ExpWhat::Inj(label, value, target) => exp_inj(alloc, env, label, value, target),
        ExpWhat::Case {
            whole,
            result: target,
            branches,
        } => exp_case(alloc, env, at, whole, target, branches),
        ExpWhat::Roll(value, target) => exp_roll(alloc, env, value, target),
        ExpWhat::Unroll(whole) => exp_unroll(alloc, env, whole),
    }
}

/// An expression under a value parameter of a type.
#[cycle(elab)]
pub(crate) fn exp_under(
    alloc: Global,
    env: &mut Env,
    name: &Name,
    param: &NormalTy,
    body: &Exp,
) -> Result<Typed, Refusal>
    requires { OkEnv (Value name.now param.now ∷ env.old) }
    ensures given { IfOk result (λ o. ExpMeans (Value name.now param.now ∷ env.old) body.now o.ty o.term) }
    ensures refused { IfErr result (λ e. RefusedAs (Value name.now param.now ∷ env.old) (an_exp body.now) e) }
    ensures same { OnOk result (env.new ≡ env.old) }
{
    push_value(env, name, param)?;
    let found = exp(alloc, env, body)?;
    leave(env, 1);
    Ok(found)
}

// `fun (X : T) => E`.
#[cycle(elab)]
#[inline(never)]
fn exp_lam(
    alloc: Global,
    env: &mut Env,
    name: &SpanName,
    param: &TyEx,
    body: &Exp,
) -> Result<Typed, Refusal>
    requires { OkEnv env.old }
    ensures given { IfOk result (λ o. (at : Place) → ExpMeans env.old (ExpAt at (ExpLam (spelled name.now) param.now body.now)) o.ty o.term) }
    ensures refused { IfErr result (λ e. (at : Place) → RefusedAs env.old (an_exp (ExpAt at (ExpLam (spelled name.now) param.now body.now))) e) }
    ensures same { OnOk result (env.new ≡ env.old) }
{
    let from = value_ty(alloc, env, param)?;
    let inner = exp_under(alloc, env, &name.name, &from.ty, body)?;
    function_rule(alloc, env, param.span, &from, inner)
}

// `fun [X : K] => E`.
#[cycle(elab)]
#[inline(never)]
fn exp_ty_lam(
    alloc: Global,
    env: &mut Env,
    name: &SpanName,
    kind: &Kind,
    body: &Exp,
) -> Result<Typed, Refusal>
    requires { OkEnv env.old }
    ensures given { IfOk result (λ o. (at : Place) → ExpMeans env.old (ExpAt at (ExpTyLam (spelled name.now) (kind_tree kind.now) body.now)) o.ty o.term) }
    ensures refused { IfErr result (λ e. (at : Place) → RefusedAs env.old (an_exp (ExpAt at (ExpTyLam (spelled name.now) (kind_tree kind.now) body.now))) e) }
    ensures same { OnOk result (env.new ≡ env.old) }
{
    push_type(env, &name.name, kind)?;
    let inner = exp(alloc, env, body)?;
    leave(env, 2);
    type_function_rule(alloc, kind, inner)
}

// `fix F (X : T) : U => E`.
#[cycle(elab)]
#[inline(never)]
fn exp_fix(
    alloc: Global,
    env: &mut Env,
    function: &SpanName,
    name: &SpanName,
    param: &TyEx,
    target: &TyEx,
    body: &Exp,
) -> Result<Typed, Refusal>
    requires { OkEnv env.old }
    ensures given { IfOk result (λ o. (at : Place) → ExpMeans env.old (ExpAt at (ExpFix (spelled function.now) (spelled name.now) param.now target.now body.now)) o.ty o.term) }
    ensures refused { IfErr result (λ e. (at : Place) → RefusedAs env.old (an_exp (ExpAt at (ExpFix (spelled function.now) (spelled name.now) param.now target.now body.now))) e) }
    ensures same { OnOk result (env.new ≡ env.old) }
{
    let from = value_ty(alloc, env, param)?;
    let to = value_ty(alloc, env, target)?;
    let own = arrow_of(alloc, &from, &to)?;
    push_value(env, &function.name, &own)?;
    let inner = exp_under(alloc, env, &name.name, &from.ty, body)?;
    leave(env, 1);
    fix_rule(alloc, env, body.span, &from, &to, inner)
}

// `if E1 then E2 else E3`.
#[cycle(elab)]
#[inline(never)]
fn exp_if(alloc: Global, env: &mut Env, test: &Exp, yes: &Exp, no: &Exp) -> Result<Typed, Refusal>
    requires { OkEnv env.old }
    ensures given { IfOk result (λ o. (at : Place) → ExpMeans env.old (ExpAt at (ExpIf test.now yes.now no.now)) o.ty o.term) }
    ensures refused { IfErr result (λ e. (at : Place) → RefusedAs env.old (an_exp (ExpAt at (ExpIf test.now yes.now no.now))) e) }
    ensures same { OnOk result (env.new ≡ env.old) }
{
    let first = exp(alloc, env, test)?;
    expect_bool(alloc, env, test.span, &first.ty)?;
    let second = exp(alloc, env, yes)?;
    let third = exp(alloc, env, no)?;
    if_rule(alloc, env, yes.span, first, second, third)
}

// Operators of one level, which group to the left.
#[cycle(elab)]
#[inline(never)]
fn exp_ops(alloc: Global, env: &mut Env, first: &Exp, rest: &[(Op, Exp)]) -> Result<Typed, Refusal>
    requires { OkEnv env.old }
    ensures given { IfOk result (λ o. (at : Place) → ExpMeans env.old (ExpAt at (ExpOps first.now (ops rest.now))) o.ty o.term) }
    ensures refused { IfErr result (λ e. (at : Place) → RefusedAs env.old (an_exp (ExpAt at (ExpOps first.now (ops rest.now)))) e) }
    ensures same { OnOk result (env.new ≡ env.old) }
{
    let left = exp(alloc, env, first)?;
    operands(alloc, env, first.span, left, rest)
}

// A left operand, which stands at a place, with the operands that are left.
#[cycle(elab)]
fn operands(
    alloc: Global,
    env: &mut Env,
    at: Span,
    left: Typed,
    rest: &[(Op, Exp)],
) -> Result<Typed, Refusal>
    requires { OkEnv env.old }
    ensures given { IfOk result (λ o. OpsMean env.old left.ty left.term (ops rest.now) o.ty o.term) }
    ensures refused { IfErr result (λ e. RefusedAs env.old (operands_task (place at) left.ty left.term (ops rest.now)) e) }
    ensures same { OnOk result (env.new ≡ env.old) }
{
    match rest {
        [] => Ok(left),
        [first, more @ ..] => operand(alloc, env, at, left, first, more),
    }
}

// A left operand, which stands at a place, with one more operand, and then those that are left.
#[cycle(elab)]
#[inline(never)]
fn operand(
    alloc: Global,
    env: &mut Env,
    at: Span,
    left: Typed,
    first: &(Op, Exp),
    rest: &[(Op, Exp)],
) -> Result<Typed, Refusal>
    requires { OkEnv env.old }
    ensures given { IfOk result (λ o. OpsMean env.old left.ty left.term (MoreOps (op_of first.now.0) first.now.1 (ops rest.now)) o.ty o.term) }
    ensures refused { IfErr result (λ e. RefusedAs env.old (operands_task (place at) left.ty left.term (MoreOps (op_of first.now.0) first.now.1 (ops rest.now))) e) }
    ensures same { OnOk result (env.new ≡ env.old) }
{
    expect_int(alloc, env, at, &left.ty)?;
    let right = exp(alloc, env, &first.1)?;
    let to = first.1.span;
    let op = omega_op(first.0);
    let whole = operation_rule(alloc, env, to, op, left, right)?;
    let both = up_to(at, to);
    operands(alloc, env, both, whole, rest)
}

// A function and its arguments.
#[cycle(elab)]
#[inline(never)]
fn exp_apply(alloc: Global, env: &mut Env, function: &Exp, args: &[Arg]) -> Result<Typed, Refusal>
    requires { OkEnv env.old }
    ensures given { IfOk result (λ o. (at : Place) → ExpMeans env.old (ExpAt at (ExpApply function.now (args_of args.now))) o.ty o.term) }
    ensures refused { IfErr result (λ e. (at : Place) → RefusedAs env.old (an_exp (ExpAt at (ExpApply function.now (args_of args.now)))) e) }
    ensures same { OnOk result (env.new ≡ env.old) }
{
    let found = exp(alloc, env, function)?;
    arguments(alloc, env, function.span, found, args)
}

// A function, which stands at a place, applied to the arguments that are left.
#[cycle(elab)]
fn arguments(
    alloc: Global,
    env: &mut Env,
    at: Span,
    function: Typed,
    args: &[Arg],
) -> Result<Typed, Refusal>
    requires env { OkEnv env.old }
    requires normal { Normal (kinds_in env.old) function.ty Star }
    ensures given { IfOk result (λ o. ArgsMean env.old function.ty function.term (args_of args.now) o.ty o.term) }
    ensures refused { IfErr result (λ e. RefusedAs env.old (args_task (place at) function.ty function.term (args_of args.now)) e) }
    ensures same { OnOk result (env.new ≡ env.old) }
{
    match args {
        [] => Ok(function),
        [first, rest @ ..] => match first {
            Arg::Exp(arg) => value_argument(alloc, env, at, function, arg, rest),
            Arg::Ty(arg, to) => type_argument(alloc, env, at, function, arg, *to, rest),
        },
    }
}

// A function, which stands at a place, applied to a value, and then to the arguments that are left.
#[cycle(elab)]
#[inline(never)]
fn value_argument(
    alloc: Global,
    env: &mut Env,
    at: Span,
    function: Typed,
    first: &Exp,
    rest: &[Arg],
) -> Result<Typed, Refusal>
    requires env { OkEnv env.old }
    requires normal { Normal (kinds_in env.old) function.ty Star }
    ensures given { IfOk result (λ o. ArgsMean env.old function.ty function.term (MoreArgs (ArgExp first.now) (args_of rest.now)) o.ty o.term) }
    ensures refused { IfErr result (λ e. RefusedAs env.old (args_task (place at) function.ty function.term (MoreArgs (ArgExp first.now) (args_of rest.now))) e) }
    ensures same { OnOk result (env.new ≡ env.old) }
{
    expect_arrow(env, at, &function.ty)?;
    let arg = exp(alloc, env, first)?;
    let whole = call_rule(alloc, env, first.span, function, arg)?;
    let both = up_to(at, first.span);
    arguments(alloc, env, both, whole, rest)
}

// A function, which stands at a place, applied to a type, up to a place, and then to the arguments that are left.
#[cycle(elab)]
#[inline(never)]
fn type_argument(
    alloc: Global,
    env: &mut Env,
    at: Span,
    function: Typed,
    first: &TyEx,
    to: Span,
    rest: &[Arg],
) -> Result<Typed, Refusal>
    requires env { OkEnv env.old }
    requires normal { Normal (kinds_in env.old) function.ty Star }
    ensures given { IfOk result (λ o. ArgsMean env.old function.ty function.term (MoreArgs (ArgTy first.now (place to)) (args_of rest.now)) o.ty o.term) }
    ensures refused { IfErr result (λ e. RefusedAs env.old (args_task (place at) function.ty function.term (MoreArgs (ArgTy first.now (place to)) (args_of rest.now))) e) }
    ensures same { OnOk result (env.new ≡ env.old) }
{
    expect_all(env, at, &function.ty)?;
    let arg = ty(alloc, env, first)?;
    let whole = instance_rule(alloc, env, first.span, function, &arg)?;
    let both = up_to(at, to);
    arguments(alloc, env, both, whole, rest)
}

// A record.
#[cycle(elab)]
#[inline(never)]
fn exp_record(
    alloc: Global,
    env: &mut Env,
    at: Span,
    fields: &[(SpanName, Exp)],
) -> Result<Typed, Refusal>
    requires { OkEnv env.old }
    ensures given { IfOk result (λ o. ExpMeans env.old (ExpAt (place at) (ExpFields (field_exps fields.now))) o.ty o.term) }
    ensures refused { IfErr result (λ e. RefusedAs env.old (an_exp (ExpAt (place at) (ExpFields (field_exps fields.now)))) e) }
    ensures same { OnOk result (env.new ≡ env.old) }
{
    let mut parts = Vec::new(alloc);
    exp_fields(alloc, env, &mut parts, fields)?;
    record_rule(alloc, env, at, parts)
}

// The fields that are left of a record, behind those that are done.
#[cycle(elab)]
fn exp_fields(
    alloc: Global,
    env: &mut Env,
    done: &mut Vec<(Name, Typed)>,
    fields: &[(SpanName, Exp)],
) -> Result<(), Refusal>
    requires { OkEnv env.old }
    ensures given { OnOk result ((parts : List FieldExp) × FieldExpsMean env.old (names_before done.old.items) (field_exps fields.now) parts × (exp_parts done.new.items ≡ exp_parts done.old.items ++ parts)) }
    ensures refused { IfErr result (λ e. RefusedAs env.old (fields_task (names_before done.old.items) (field_exps fields.now)) e) }
    ensures same { OnOk result (env.new ≡ env.old) }
{
    match fields {
        [] => Ok(()),
        [first, rest @ ..] => exp_field(alloc, env, done, first, rest),
    }
}

// One field of a record, behind those that are done, and then those that are left.
#[cycle(elab)]
fn exp_field(
    alloc: Global,
    env: &mut Env,
    done: &mut Vec<(Name, Typed)>,
    first: &(SpanName, Exp),
    rest: &[(SpanName, Exp)],
) -> Result<(), Refusal>
    requires { OkEnv env.old }
    ensures given { OnOk result ((parts : List FieldExp) × FieldExpsMean env.old (names_before done.old.items) (MoreFieldExps (spelled first.now.0) first.now.1 (field_exps rest.now)) parts × (exp_parts done.new.items ≡ exp_parts done.old.items ++ parts)) }
    ensures refused { IfErr result (λ e. RefusedAs env.old (fields_task (names_before done.old.items) (MoreFieldExps (spelled first.now.0) first.now.1 (field_exps rest.now))) e) }
    ensures same { OnOk result (env.new ≡ env.old) }
{
    expect_new(env, &first.0, done)?;
    let part = exp(alloc, env, &first.1)?;
    add(done, &first.0.name, part)?;
    exp_fields(alloc, env, done, rest)
}

// `E#X`.
#[cycle(elab)]
#[inline(never)]
fn exp_get(alloc: Global, env: &mut Env, whole: &Exp, name: &SpanName) -> Result<Typed, Refusal>
    requires { OkEnv env.old }
    ensures given { IfOk result (λ o. (at : Place) → ExpMeans env.old (ExpAt at (ExpGet whole.now (spelled name.now))) o.ty o.term) }
    ensures refused { IfErr result (λ e. (at : Place) → RefusedAs env.old (an_exp (ExpAt at (ExpGet whole.now (spelled name.now)))) e) }
    ensures same { OnOk result (env.new ≡ env.old) }
{
    let found = exp(alloc, env, whole)?;
    expect_record(env, whole.span, &found.ty)?;
    get_rule(alloc, env, name.span, found, &name.name)
}
