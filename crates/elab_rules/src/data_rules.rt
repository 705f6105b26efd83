// The rules of recursive types, of rolled values and of unrolled ones, refused at a place in an environment.
ghost use Rattle.std.specs.Prelude.{◌≡◌, IfErr, IfOk};
ghost use Rattle.omega_kinds.specs.Kind.{Kind as KindTree};
ghost use Rattle.omega_kinds.specs.View.{kind_tree};
ghost use Rattle.omega_types.specs.Normality.{Normal};
ghost use Rattle.sig_definitions.specs.Env.{kinds as kinds_in};
ghost use Rattle.core_judgments.specs.DataRules.{MuGives, MuRefuses, RollGives, UnrollGives, UnrollRefuses};
ghost use Rattle.elab_judgments.specs.Refusals.Refusal.{of_data};
ghost use Rattle.fing_syntax.specs.Inner.Leaves.{place};
ghost use Rattle.elab_rules.specs.Inner.Answered.{ByRoll, ByRule};

use crate::places::roll_place;
use crate::refusing::data_refusal;
use data_types::{mu_ty, roll_exp, unroll_exp};
use fing_refusals::Refusal;
use fing_text::Span;
use semantic_sigs::{Env, Kinded, Typed};
use std::alloc::Global;

/// The recursive type of a body, which stands under its own type variable.
pub fn mu_rule(alloc: Global, env: &Env, at: Span, body: &Kinded) -> Result<Kinded, Refusal>
    ensures given { IfOk result (λ o. MuGives body.now.ty (kind_tree body.now.kind) o.ty (kind_tree o.kind)) }
    ensures refused { IfErr result (λ e. ByRule of_data env.now (place at) (MuRefuses body.now.ty (kind_tree body.now.kind)) e) }
{
    mu_ty(alloc, body).map_err(|why| data_refusal(env, at, why))
}

/// `roll E : T`, with the places of E and T; T is a type of values, and normal in the environment.
pub fn roll_rule(
    alloc: Global,
    env: &Env,
    from: Span,
    value: Typed,
    to: Span,
    target: &Kinded,
) -> Result<Typed, Refusal>
    requires star { kind_tree target.now.kind ≡ KindTree.Star }
    requires normal { Normal (kinds_in env.now) target.now.ty (kind_tree target.now.kind) }
    ensures given { IfOk result (λ o. RollGives (kinds_in env.now) value.ty value.term target.now.ty (kind_tree target.now.kind) o.ty o.term) }
    ensures refused { IfErr result (λ e. ByRoll env.now (place from) value.ty (place to) target.now.ty e) }
{
    match roll_exp(alloc, value, target) {
        Ok(made) => Ok(made),
        Err(why) => {
            let at = roll_place(from, to, &why);
            Err(data_refusal(env, at, why))
        }
    }
}

/// `unroll E`; the type of E is normal in the environment.
pub fn unroll_rule(alloc: Global, env: &Env, at: Span, whole: Typed) -> Result<Typed, Refusal>
    requires { Normal (kinds_in env.now) whole.ty KindTree.Star }
    ensures given { IfOk result (λ o. UnrollGives (kinds_in env.now) whole.ty whole.term o.ty o.term) }
    ensures refused { IfErr result (λ e. ByRule of_data env.now (place at) (UnrollRefuses whole.ty) e) }
{
    unroll_exp(alloc, whole).map_err(|why| data_refusal(env, at, why))
}
