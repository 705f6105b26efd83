// Declarations: what each form means in an environment.
ghost use Rattle.std.specs.Prelude.{◌≡◌, IfErr, IfOk, OnOk};
ghost use Rattle.sig_definitions.specs.Env.{named_fields, type_vars};
ghost use Rattle.sig_definitions.specs.Signatures.FieldOrder.{with_names as with_names_after};
ghost use Rattle.sig_definitions.specs.Signatures.Sig.{Str};
ghost use Rattle.sig_laws.specs.Good.{OkEnv};
ghost use Rattle.semantic_sigs.specs.Inner.View.{body_of, kinds_of};
ghost use Rattle.elab_judgments.specs.Judgments.Meaning.{DeclMeans, DeclsMean};
ghost use Rattle.elab_judgments.specs.Refusals.Task.{a_decl, decls as decls_task};
ghost use Rattle.fing_syntax.specs.Inner.Leaves.{spelled};
ghost use Rattle.fing_syntax.specs.Phrase.{DeclAt, DeclInclude, DeclModule, DeclSignature, DeclTyIs, DeclTyOf, DeclVal, Span as Place};
ghost use Rattle.fing_syntax.specs.Inner.View.{decls as decls_of};
ghost use Rattle.elab_rules.specs.Inner.Answered.{RefusedAs};
ghost use Rattle.elab_rules.specs.Inner.Fields.{fields_in};

use crate::sigs::sig;
use crate::types::ty;
use elab_rules::places::decl_place;
use elab_rules::scopes::{fields_of, leave, push_fields, push_type_vars};
use elab_rules::sets::{NameSet, with_names};
use elab_rules::signature_rules::{
    abstract_rule, declarations_rule, distinct_rule, include_rule, module_rule, signature_rule,
    type_rule, value_rule,
};
use fing_refusals::Refusal;
use fing_syntax::{Decl, DeclWhat, SigEx, SpanName, TyEx};
use semantic_sigs::{Abs, Env};
use sig_rules::Declarations;
use std::alloc::Global;

// A declaration.
#[cycle(elab)]
#[inline(never)]
fn decl(alloc: Global, env: &mut Env, phrase: &Decl) -> Result<Abs, Refusal>
    requires { OkEnv env.old }
    ensures given { IfOk result (λ x. DeclMeans env.old phrase.now x) }
    ensures refused { IfErr result (λ e. RefusedAs env.old (a_decl phrase.now) e) }
    ensures same { OnOk result (env.new ≡ env.old) }
{
    match &phrase.what {
        DeclWhat::Val(name, of) => decl_val(alloc, env, name, of),
        DeclWhat::TyIs(name, of) => decl_is(alloc, env, name, of),
        DeclWhat::TyOf(name, kind) => abstract_rule(alloc, &name.name, kind),
        DeclWhat::Module(name, of) => decl_module(alloc, env, name, of),
        DeclWhat::Signature(name, of) => decl_signature(alloc, env, name, of),
        DeclWhat::Include(of) => decl_include(alloc, env, of),
    }
}

// `val X : T`.
#[cycle(elab)]
#[inline(never)]
fn decl_val(alloc: Global, env: &mut Env, name: &SpanName, of: &TyEx) -> Result<Abs, Refusal>
    requires { OkEnv env.old }
    ensures given { IfOk result (λ x. (at : Place) → DeclMeans env.old (DeclAt at (DeclVal (spelled name.now) of.now)) x) }
    ensures refused { IfErr result (λ e. (at : Place) → RefusedAs env.old (a_decl (DeclAt at (DeclVal (spelled name.now) of.now))) e) }
    ensures same { OnOk result (env.new ≡ env.old) }
{
    let found = ty(alloc, env, of)?;
    value_rule(alloc, env, of.span, &name.name, &found)
}

// `type X = T`.
#[cycle(elab)]
#[inline(never)]
fn decl_is(alloc: Global, env: &mut Env, name: &SpanName, of: &TyEx) -> Result<Abs, Refusal>
    requires { OkEnv env.old }
    ensures given { IfOk result (λ x. (at : Place) → DeclMeans env.old (DeclAt at (DeclTyIs (spelled name.now) of.now)) x) }
    ensures refused { IfErr result (λ e. (at : Place) → RefusedAs env.old (a_decl (DeclAt at (DeclTyIs (spelled name.now) of.now))) e) }
    ensures same { OnOk result (env.new ≡ env.old) }
{
    let found = ty(alloc, env, of)?;
    type_rule(alloc, &name.name, &found)
}

// `module X : S`.
#[cycle(elab)]
#[inline(never)]
fn decl_module(alloc: Global, env: &mut Env, name: &SpanName, of: &SigEx) -> Result<Abs, Refusal>
    requires { OkEnv env.old }
    ensures given { IfOk result (λ x. (at : Place) → DeclMeans env.old (DeclAt at (DeclModule (spelled name.now) of.now)) x) }
    ensures refused { IfErr result (λ e. (at : Place) → RefusedAs env.old (a_decl (DeclAt at (DeclModule (spelled name.now) of.now))) e) }
    ensures same { OnOk result (env.new ≡ env.old) }
{
    let found = sig(alloc, env, of)?;
    module_rule(alloc, &name.name, &found)
}

// `signature X = S`.
#[cycle(elab)]
#[inline(never)]
fn decl_signature(alloc: Global, env: &mut Env, name: &SpanName, of: &SigEx) -> Result<Abs, Refusal>
    requires { OkEnv env.old }
    ensures given { IfOk result (λ x. (at : Place) → DeclMeans env.old (DeclAt at (DeclSignature (spelled name.now) of.now)) x) }
    ensures refused { IfErr result (λ e. (at : Place) → RefusedAs env.old (a_decl (DeclAt at (DeclSignature (spelled name.now) of.now))) e) }
    ensures same { OnOk result (env.new ≡ env.old) }
{
    let found = sig(alloc, env, of)?;
    signature_rule(alloc, &name.name, &found)
}

// `include S`.
#[cycle(elab)]
#[inline(never)]
fn decl_include(alloc: Global, env: &mut Env, of: &SigEx) -> Result<Abs, Refusal>
    requires { OkEnv env.old }
    ensures given { IfOk result (λ x. (at : Place) → DeclMeans env.old (DeclAt at (DeclInclude of.now)) x) }
    ensures refused { IfErr result (λ e. (at : Place) → RefusedAs env.old (a_decl (DeclAt at (DeclInclude of.now))) e) }
    ensures same { OnOk result (env.new ≡ env.old) }
{
    let found = sig(alloc, env, of)?;
    include_rule(env, of.span, &found)
}

// The declarations that are left, after those of the labels before.
#[cycle(elab)]
pub(crate) fn decls(
    alloc: Global,
    env: &mut Env,
    before: NameSet,
    list: &[Decl],
) -> Result<Declarations, Refusal>
    requires { OkEnv env.old }
    ensures given { IfOk result (λ x. DeclsMean env.old before (decls_of list.now) x) }
    ensures refused { IfErr result (λ e. RefusedAs env.old (decls_task before (decls_of list.now)) e) }
    ensures same { OnOk result (env.new ≡ env.old) }
{
    match list {
        [] => Ok(Declarations::new(alloc)),
        [first, rest @ ..] => {
            let head = decl(alloc, env, first)?;
            distinct_rule(env, decl_place(first), &before, &head)?;
            let tail = decls_under(alloc, env, before, &head, rest)?;
            declarations_rule(alloc, &head, tail)
        }
    }
}

// The declarations that are left, under those of the one before them.
#[cycle(elab)]
fn decls_under(
    alloc: Global,
    env: &mut Env,
    before: NameSet,
    head: &Abs,
    rest: &[Decl],
) -> Result<Declarations, Refusal>
    requires env { OkEnv (named_fields (type_vars env.old (kinds_of head.now)) (fields_in head.now)) }
    requires structure { body_of head.now ≡ Str (fields_in head.now) }
    ensures given { IfOk result (λ x. DeclsMean (named_fields (type_vars env.old (kinds_of head.now)) (fields_in head.now)) (with_names_after (fields_in head.now) before) (decls_of rest.now) x) }
    ensures refused { IfErr result (λ e. RefusedAs (named_fields (type_vars env.old (kinds_of head.now)) (fields_in head.now)) (decls_task (with_names_after (fields_in head.now) before) (decls_of rest.now)) e) }
    ensures same { OnOk result (env.new ≡ env.old) }
{
    let fields = fields_of(head);
    push_type_vars(env, head.kinds())?;
    push_fields(env, fields)?;
    let names = with_names(before, fields)?;
    let found = decls(alloc, env, names, rest)?;
    leave(env, fields.items().len());
    leave(env, head.kinds().items().len());
    Ok(found)
}
