// The rule of modules unpacked, refused at a place in an environment.
ghost use Rattle.std.specs.Prelude.{IfErr, IfOk};
ghost use Rattle.semantic_sigs.specs.Inner.Made.{module_of};
ghost use Rattle.package_judgments.specs.Package.{UnpackGives, UnpackRefuses};
ghost use Rattle.elab_judgments.specs.Refusals.Refusal.{of_unpack};
ghost use Rattle.fing_syntax.specs.Inner.Leaves.{place};
ghost use Rattle.elab_rules.specs.Inner.Answered.{ByRule};

use crate::mod_refusing::unpack_refusal;
use fing_refusals::Refusal;
use fing_text::Span;
use packages::unpack_module;
use semantic_sigs::{Abs, Env, Module, Typed};
use std::alloc::Global;

/// `unpack E : S`, with the norm of S.
pub fn unpack_rule(
    alloc: Global,
    env: &Env,
    at: Span,
    value: Typed,
    target: &Abs,
) -> Result<Module, Refusal>
    ensures given { IfOk result (λ m. UnpackGives value.ty value.term target.now (module_of m)) }
    ensures refused { IfErr result (λ e. ByRule of_unpack env.now (place at) (UnpackRefuses value.ty target.now) e) }
{
    unpack_module(alloc, value, target).map_err(|why| unpack_refusal(env, at, why))
}
