// One phrase in an environment, apart from a program: a type, an expression, a signature or a module.
ghost use Rattle.std.specs.Prelude.{◌≡◌, IfErr, IfOk, OnOk};
ghost use Rattle.omega_kinds.specs.View.{kind_tree};
ghost use Rattle.sig_laws.specs.Good.{OkEnv};
ghost use Rattle.semantic_sigs.specs.Inner.Made.{module_of};
ghost use Rattle.elab_judgments.specs.Judgments.Meaning.{ExpMeans, ModMeans, SigMeans, TyMeans};
ghost use Rattle.elab_judgments.specs.Refusals.Task.{a_mod, a_sig, a_type, an_exp};
ghost use Rattle.elab_rules.specs.Inner.Answered.{RefusedAs};

use crate::expressions::exp;
use crate::modules::module;
use crate::sigs::sig;
use crate::types::ty;
use fing_refusals::Refusal;
use fing_syntax::{Exp, Mod, SigEx, TyEx};
use semantic_sigs::{Abs, Env, Kinded, Module, Typed};
use std::alloc::Global;

/// What a type means in a good environment: its type and its kind, whose free variables are those of the environment.
/// `Err` is the refusal of the first condition that fails in the order of the text, or want of memory.
///
/// Rossberg, Russo and Dreyer, "F-ing modules", section 4, Elaboration, Types.
pub fn type_phrase(alloc: Global, env: Env, phrase: &TyEx) -> Result<Kinded, Refusal>
    requires { OkEnv env }
    ensures given { IfOk result (λ o. TyMeans env phrase.now o.ty (kind_tree o.kind)) }
    ensures refused { IfErr result (λ e. RefusedAs env (a_type phrase.now) e) }
{
    let mut own = env;
    ty(alloc, &mut own, phrase)
}

/// What an expression means in a good environment: its type and its term. Free variables and `Err` are as for types.
///
/// Rossberg, Russo and Dreyer, "F-ing modules", section 4, Elaboration, Expressions.
pub fn expression_phrase(alloc: Global, env: Env, phrase: &Exp) -> Result<Typed, Refusal>
    requires { OkEnv env }
    ensures given { IfOk result (λ o. ExpMeans env phrase.now o.ty o.term) }
    ensures refused { IfErr result (λ e. RefusedAs env (an_exp phrase.now) e) }
{
    let mut own = env;
    exp(alloc, &mut own, phrase)
}

/// What a written signature means in a good environment. Free variables and `Err` are as for types.
///
/// Rossberg, Russo and Dreyer, "F-ing modules", section 4, Elaboration, Signatures.
pub fn signature_phrase(alloc: Global, env: Env, phrase: &SigEx) -> Result<Abs, Refusal>
    requires { OkEnv env }
    ensures given { IfOk result (λ x. SigMeans env phrase.now x) }
    ensures refused { IfErr result (λ e. RefusedAs env (a_sig phrase.now) e) }
{
    let mut own = env;
    sig(alloc, &mut own, phrase)
}

/// What a module means in a good environment: its effect, its signature, the types that it keeps, and its term. Free
/// variables and `Err` are as for types.
///
/// Rossberg, Russo and Dreyer, "F-ing modules", sections 4 and 7, Elaboration, Modules.
pub fn module_phrase(alloc: Global, env: Env, phrase: &Mod) -> Result<Module, Refusal>
    requires { OkEnv env }
    ensures given { IfOk result (λ m. ModMeans env phrase.now (module_of m)) }
    ensures refused { IfErr result (λ e. RefusedAs env (a_mod phrase.now) e) }
{
    let mut own = env;
    module(alloc, &mut own, phrase)
}

/// The same in an environment that is borrowed. It is as it was where there is an answer; after a refusal it is as far as
/// elaboration went.
///
/// Rossberg, Russo and Dreyer, "F-ing modules", sections 4 and 7, Elaboration, Modules.
pub fn module_in(alloc: Global, env: &mut Env, phrase: &Mod) -> Result<Module, Refusal>
    requires { OkEnv env.old }
    ensures given { IfOk result (λ m. ModMeans env.old phrase.now (module_of m)) }
    ensures refused { IfErr result (λ e. RefusedAs env.old (a_mod phrase.now) e) }
    ensures same { OnOk result (env.new ≡ env.old) }
{
    module(alloc, env, phrase)
}
