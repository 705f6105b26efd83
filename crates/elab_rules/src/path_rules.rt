// The rules of paths as types and as values, refused at a place in an environment.
ghost use Rattle.std.specs.Prelude.{IfErr, IfOk};
ghost use Rattle.omega_kinds.specs.View.{kind_tree};
ghost use Rattle.sig_definitions.specs.Env.{kinds as kinds_in};
ghost use Rattle.sig_laws.specs.Good.{KindedModule};
ghost use Rattle.semantic_sigs.specs.Inner.Made.{module_of};
ghost use Rattle.module_judgments.specs.ModRules.{SigPathRefuses, TypePathRefuses, ValuePathRefuses};
ghost use Rattle.module_judgments.specs.PathUse.{SigOfPath, TypeOfPath, ValueOfPath};
ghost use Rattle.elab_judgments.specs.Refusals.Refusal.{of_mod};
ghost use Rattle.fing_syntax.specs.Inner.Leaves.{place};
ghost use Rattle.elab_rules.specs.Inner.Answered.{ByRule};

use crate::mod_refusing::mod_refusal;
use fing_refusals::Refusal;
use fing_text::Span;
use module_rules::{path_sig, path_type, path_value};
use semantic_sigs::{Abs, Env, Kinded, Module, Typed};
use std::alloc::Global;

/// A path as a type; the types of the module are normal and have their kinds in the environment.
pub fn type_path_rule(alloc: Global, env: &Env, at: Span, whole: Module) -> Result<Kinded, Refusal>
    requires { KindedModule (kinds_in env.now) (module_of whole) }
    ensures given { IfOk result (λ o. TypeOfPath (kinds_in env.now) (module_of whole) o.ty (kind_tree o.kind)) }
    ensures refused { IfErr result (λ e. ByRule of_mod env.now (place at) (TypePathRefuses (kinds_in env.now) (module_of whole)) e) }
{
    path_type(alloc, whole).map_err(|why| mod_refusal(env, at, why))
}

/// A path as a value; the types of the module are normal and have their kinds in the environment.
pub fn value_path_rule(alloc: Global, env: &Env, at: Span, whole: Module) -> Result<Typed, Refusal>
    requires { KindedModule (kinds_in env.now) (module_of whole) }
    ensures given { IfOk result (λ o. ValueOfPath (kinds_in env.now) (module_of whole) o.ty o.term) }
    ensures refused { IfErr result (λ e. ByRule of_mod env.now (place at) (ValuePathRefuses (kinds_in env.now) (module_of whole)) e) }
{
    path_value(alloc, whole).map_err(|why| mod_refusal(env, at, why))
}

/// A path as a signature; the types of the module are normal and have their kinds in the environment.
pub fn sig_path_rule(alloc: Global, env: &Env, at: Span, whole: Module) -> Result<Abs, Refusal>
    requires { KindedModule (kinds_in env.now) (module_of whole) }
    ensures given { IfOk result (λ x. SigOfPath (kinds_in env.now) (module_of whole) x) }
    ensures refused { IfErr result (λ e. ByRule of_mod env.now (place at) (SigPathRefuses (kinds_in env.now) (module_of whole)) e) }
{
    path_sig(alloc, whole).map_err(|why| mod_refusal(env, at, why))
}
