// Declarations: what each means, and what it brings into scope.
ghost use Rattle.std.specs.Prelude.{◌≡◌, IfOk, OnOk};
ghost use Rattle.omega_kinds.specs.View.{kind_tree};
ghost use Rattle.sig_definitions.specs.Env.{Env as EnvTree};
ghost use Rattle.fing_syntax.specs.Inner.Leaves.{spelled};
ghost use Rattle.fing_syntax.specs.Phrase.{DeclAt, DeclInclude, DeclModule, DeclSignature, DeclTyIs, DeclTyOf, DeclVal, Span as Place};
ghost use Rattle.elab_judgments.specs.Judgments.Meaning.{DeclMeans};

use crate::scope::Scope;
use elab_rules::signature_rules::{
    abstract_rule, include_rule, module_rule, signature_rule, type_rule, value_rule,
};
use fing_refusals::Refusal;
use fing_syntax::{Decl, DeclWhat, SigEx, SpanName, TyEx};
use omega_kinds::Kind;
use semantic_sigs::Abs;
use std::alloc::Global;

/// What a declaration means in a scope.
pub(crate) fn declaration(alloc: Global, scope: &mut Scope, phrase: &Decl) -> Result<Abs, Refusal>
    ensures given { IfOk result (λ x. DeclMeans scope.old phrase.now x) }
    ensures same { OnOk result (scope.new ≡ scope.old) }
{
    match &phrase.what {
        DeclWhat::Val(name, of) => decl_val(alloc, scope, name, of),
        DeclWhat::TyIs(name, of) => decl_is(alloc, scope, name, of),
        DeclWhat::TyOf(name, kind) => decl_of(alloc, name, kind),
        DeclWhat::Module(name, of) => decl_module(alloc, scope, name, of),
        DeclWhat::Signature(name, of) => decl_signature(alloc, scope, name, of),
        DeclWhat::Include(of) => decl_include(alloc, scope, of),
    }
}

// `val X : T`.
fn decl_val(alloc: Global, scope: &mut Scope, name: &SpanName, of: &TyEx) -> Result<Abs, Refusal>
    ensures given { IfOk result (λ x. (at : Place) → DeclMeans scope.old (DeclAt at (DeclVal (spelled name.now) of.now)) x) }
    ensures same { OnOk result (scope.new ≡ scope.old) }
{
    let found = scope.ty(alloc, of)?;
    value_rule(alloc, &scope.env, of.span, &name.name, &found)
}

// `type X = T`.
fn decl_is(alloc: Global, scope: &mut Scope, name: &SpanName, of: &TyEx) -> Result<Abs, Refusal>
    ensures given { IfOk result (λ x. (at : Place) → DeclMeans scope.old (DeclAt at (DeclTyIs (spelled name.now) of.now)) x) }
    ensures same { OnOk result (scope.new ≡ scope.old) }
{
    let found = scope.ty(alloc, of)?;
    type_rule(alloc, &name.name, &found)
}

// `type X : K`, in any scope.
fn decl_of(alloc: Global, name: &SpanName, kind: &Kind) -> Result<Abs, Refusal>
    ensures { IfOk result (λ x. (g : EnvTree) (at : Place) → DeclMeans g (DeclAt at (DeclTyOf (spelled name.now) (kind_tree kind.now))) x) }
{
    abstract_rule(alloc, &name.name, kind)
}

// `module X : S`.
fn decl_module(
    alloc: Global,
    scope: &mut Scope,
    name: &SpanName,
    of: &SigEx,
) -> Result<Abs, Refusal>
    ensures given { IfOk result (λ x. (at : Place) → DeclMeans scope.old (DeclAt at (DeclModule (spelled name.now) of.now)) x) }
    ensures same { OnOk result (scope.new ≡ scope.old) }
{
    let found = scope.signature(alloc, of)?;
    module_rule(alloc, &name.name, &found)
}

// `signature X = S`.
fn decl_signature(
    alloc: Global,
    scope: &mut Scope,
    name: &SpanName,
    of: &SigEx,
) -> Result<Abs, Refusal>
    ensures given { IfOk result (λ x. (at : Place) → DeclMeans scope.old (DeclAt at (DeclSignature (spelled name.now) of.now)) x) }
    ensures same { OnOk result (scope.new ≡ scope.old) }
{
    let found = scope.signature(alloc, of)?;
    signature_rule(alloc, &name.name, &found)
}

// `include S`.
fn decl_include(alloc: Global, scope: &mut Scope, of: &SigEx) -> Result<Abs, Refusal>
    ensures given { IfOk result (λ x. (at : Place) → DeclMeans scope.old (DeclAt at (DeclInclude of.now)) x) }
    ensures same { OnOk result (scope.new ≡ scope.old) }
{
    let found = scope.signature(alloc, of)?;
    include_rule(&scope.env, of.span, &found)
}
