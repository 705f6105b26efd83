// Scopes: environments of elaboration in which every entry is good.
ghost use Rattle.std.specs.Prelude.{◌≡◌, [], IfOk, OnOk};
ghost use Rattle.omega_kinds.specs.View.{kind_tree};
ghost use Rattle.sig_definitions.specs.Env.{Env as EnvTree};
ghost use Rattle.sig_laws.specs.Good.{OkEnv};
ghost use Rattle.semantic_sigs.specs.Inner.Made.{module_of};
ghost use Rattle.elab_judgments.specs.Judgments.Meaning.{BindMeans, ExpMeans, ModMeans, SigMeans, TyMeans};

use crate::declaring::declaration;
use elab_phrases::{expression_phrase, module_phrase, signature_phrase, type_phrase};
use elab_rules::exp_rules::arrow_of;
use elab_rules::refusing::refuse;
use elab_rules::scopes::{
    fields_of, push_fields, push_included, push_module, push_type, push_type_vars, push_value,
};
use elab_rules::sum_rules::label_rule;
use elab_rules::type_rules::expect_star;
use fing_refusals::{ElabWhy, Refusal};
use fing_syntax::{Bind, BindWhat, Decl, Exp, Mod, SigEx, SpanName, TyEx};
use fing_text::Span;
use module_rules::{bind_sig, bind_type, bind_val};
use omega_kinds::{Kind, Mem, Name};
use semantic_sigs::{Abs, Env, Kinded, Module, Typed};
use show_envs::copy_of;
use std::alloc::Global;
use std::marker::Model;

/// An environment in which every entry is good. Contracts see it as the environment.
#[derive(Drop)]
pub(crate) struct Scope {
    pub(crate) env: Env,
}

impl Model for Scope {
    ghost use Rattle.sig_definitions.specs.Env.{Env as EnvTree};
    ghost use Rattle.sig_laws.specs.Good.{OkEnv};
    ghost use Rattle.semantic_sigs.specs.Inner.EnvCode.{env_code};

    ghost Value = { EnvTree };

    ghost coded = { env_code };

    ghost view = { λ s. s.env };

    ghost invariant = { λ s. OkEnv s.env };
}

impl Scope {
    /// The scope in which nothing is.
    #[tactic(auto, using(crate::proofs::Entered::kept))]
    pub(crate) fn new(alloc: Global) -> Scope
        ensures { result ≡ [] }
    {
        Scope {
            env: Env::new(alloc),
        }
    }

    /// How many type variables are in scope.
    pub(crate) fn types(&self) -> u64
        ensures good { OkEnv self.now }
    {
        self.env.kinds().len() as u64
    }

    /// The same scope. `Err` is out of memory, as for all that follows.
    #[tactic(auto, using(crate::proofs::Entered::kept))]
    pub(crate) fn twin(&mut self, alloc: Global) -> Result<Scope, Mem>
        ensures twin { IfOk result (λ s. s ≡ self.old) }
        ensures same { OnOk result (self.new ≡ self.old) }
    {
        let env = copy_of(alloc, &mut self.env)?;
        Ok(Scope { env })
    }

    /// What a type means here.
    #[tactic(auto, using(crate::proofs::Entered::kept))]
    pub(crate) fn ty(&mut self, alloc: Global, phrase: &TyEx) -> Result<Kinded, Refusal>
        ensures given { IfOk result (λ o. TyMeans self.old phrase.now o.ty (kind_tree o.kind)) }
        ensures same { OnOk result (self.new ≡ self.old) }
    {
        let env = copy_of(alloc, &mut self.env)?;
        type_phrase(alloc, env, phrase)
    }

    /// What an expression means here.
    #[tactic(auto, using(crate::proofs::Entered::kept))]
    pub(crate) fn value(&mut self, alloc: Global, phrase: &Exp) -> Result<Typed, Refusal>
        ensures given { IfOk result (λ o. ExpMeans self.old phrase.now o.ty o.term) }
        ensures same { OnOk result (self.new ≡ self.old) }
    {
        let env = copy_of(alloc, &mut self.env)?;
        expression_phrase(alloc, env, phrase)
    }

    /// What a signature means here.
    #[tactic(auto, using(crate::proofs::Entered::kept))]
    pub(crate) fn signature(&mut self, alloc: Global, phrase: &SigEx) -> Result<Abs, Refusal>
        ensures given { IfOk result (λ x. SigMeans self.old phrase.now x) }
        ensures same { OnOk result (self.new ≡ self.old) }
    {
        let env = copy_of(alloc, &mut self.env)?;
        signature_phrase(alloc, env, phrase)
    }

    /// What a module means here.
    #[tactic(auto, using(crate::proofs::Entered::kept))]
    pub(crate) fn module(&mut self, alloc: Global, phrase: &Mod) -> Result<Module, Refusal>
        ensures given { IfOk result (λ m. ModMeans self.old phrase.now (module_of m)) }
        ensures same { OnOk result (self.new ≡ self.old) }
    {
        let env = copy_of(alloc, &mut self.env)?;
        module_phrase(alloc, env, phrase)
    }

    /// What a binding binds here, and its name. An `include` is refused: it has no name.
    pub(crate) fn binding(
        &mut self,
        alloc: Global,
        phrase: &Bind,
    ) -> Result<(Name, Module), Refusal>
        ensures given { IfOk result (λ o. BindMeans self.old phrase.now o.0 (module_of o.1)) }
        ensures same { OnOk result (self.new ≡ self.old) }
    {
        match &phrase.what {
            BindWhat::Val(name, value) => {
                let found = self.value(alloc, value)?;
                let made = bind_val(alloc, found)?;
                let own = name.name.share()?;
                Ok((own, made))
            }
            BindWhat::Ty(name, of) => {
                let found = self.ty(alloc, of)?;
                let made = bind_type(alloc, &found)?;
                let own = name.name.share()?;
                Ok((own, made))
            }
            BindWhat::Module(name, of) => {
                let made = self.module(alloc, of)?;
                let own = name.name.share()?;
                Ok((own, made))
            }
            BindWhat::Signature(name, of) => {
                let found = self.signature(alloc, of)?;
                let made = bind_sig(alloc, &found)?;
                let own = name.name.share()?;
                Ok((own, made))
            }
            BindWhat::Include(_) => Err(self.stray(phrase.span)),
        }
    }

    // The refusal of a phrase that does not bind what it is asked for.
    pub(crate) fn stray(&self, at: Span) -> Refusal {
        refuse(&self.env, at, ElabWhy::NotStructure)
    }

    /// The scope with what a binding binds.
    #[tactic(auto, using(crate::proofs::Entered::entered))]
    pub(crate) fn with_binding(self, alloc: Global, phrase: &Bind) -> Result<Scope, Refusal> {
        if let BindWhat::Include(whole) = &phrase.what {
            return self.with_included(alloc, whole);
        }
        let mut scope = self;
        let (name, made) = scope.binding(alloc, phrase)?;
        let mut env = scope.env;
        push_module(&mut env, &name, &made.sig)?;
        Ok(Scope { env })
    }

    // The scope with what a module includes.
    #[tactic(auto, using(crate::proofs::Entered::entered))]
    fn with_included(self, alloc: Global, whole: &Mod) -> Result<Scope, Refusal> {
        let mut scope = self;
        let head = scope.module(alloc, whole)?;
        let Some(fields) = head.sig.body().as_structure() else {
            return Err(scope.stray(whole.span));
        };
        let mut env = scope.env;
        push_included(alloc, &mut env, &head.sig, fields)?;
        Ok(Scope { env })
    }

    /// The scope with what a declaration declares.
    #[tactic(auto, using(crate::proofs::Entered::entered))]
    pub(crate) fn with_declaration(self, alloc: Global, phrase: &Decl) -> Result<Scope, Refusal> {
        let mut scope = self;
        let found = declaration(alloc, &mut scope, phrase)?;
        let fields = fields_of(&found);
        let mut env = scope.env;
        push_type_vars(&mut env, found.kinds())?;
        push_fields(&mut env, fields)?;
        Ok(Scope { env })
    }

    /// The scope with a module of a signature that is written.
    #[tactic(auto, using(crate::proofs::Entered::entered))]
    pub(crate) fn with_param(
        self,
        alloc: Global,
        name: &SpanName,
        phrase: &SigEx,
    ) -> Result<Scope, Refusal> {
        let mut scope = self;
        let found = scope.signature(alloc, phrase)?;
        let mut env = scope.env;
        push_module(&mut env, &name.name, &found)?;
        Ok(Scope { env })
    }

    /// The scope with a type parameter of a kind.
    #[tactic(auto, using(crate::proofs::Entered::entered))]
    pub(crate) fn with_type(self, name: &SpanName, kind: &Kind) -> Result<Scope, Refusal> {
        let mut env = self.env;
        push_type(&mut env, &name.name, kind)?;
        Ok(Scope { env })
    }

    /// The scope with a value of a type that is written.
    #[tactic(auto, using(crate::proofs::Entered::entered))]
    pub(crate) fn with_value(
        self,
        alloc: Global,
        name: &SpanName,
        phrase: &TyEx,
    ) -> Result<Scope, Refusal> {
        let mut scope = self;
        let found = scope.ty(alloc, phrase)?;
        expect_star(&scope.env, phrase.span, &found.kind)?;
        let mut env = scope.env;
        push_value(&mut env, &name.name, &found.ty)?;
        Ok(Scope { env })
    }

    /// The scope with a recursive function between two types that are written, and with its parameter.
    #[tactic(auto, using(crate::proofs::Entered::entered))]
    pub(crate) fn with_fix(
        self,
        alloc: Global,
        names: (&SpanName, &SpanName),
        from: &TyEx,
        to: &TyEx,
    ) -> Result<Scope, Refusal> {
        let mut scope = self;
        let domain = scope.ty(alloc, from)?;
        expect_star(&scope.env, from.span, &domain.kind)?;
        let range = scope.ty(alloc, to)?;
        expect_star(&scope.env, to.span, &range.kind)?;
        let own = arrow_of(alloc, &domain, &range)?;
        let mut env = scope.env;
        push_value(&mut env, &names.0.name, &own)?;
        push_value(&mut env, &names.1.name, &domain.ty)?;
        Ok(Scope { env })
    }

    /// The scope with the value of a case at a label.
    #[tactic(auto, using(crate::proofs::Entered::entered))]
    pub(crate) fn with_part(
        self,
        alloc: Global,
        whole: &Exp,
        label: &SpanName,
        name: &SpanName,
    ) -> Result<Scope, Refusal> {
        let mut scope = self;
        let found = scope.value(alloc, whole)?;
        let part = label_rule(&scope.env, &found, label)?;
        let mut env = scope.env;
        push_value(&mut env, &name.name, &part)?;
        Ok(Scope { env })
    }
}
