// Refusals at a place, in an environment, for the reasons of the rules of types, expressions and recursive types.
ghost use Rattle.std.specs.Prelude.{◌≡◌};
ghost use Rattle.std.specs.Option.{option_map};
ghost use Rattle.core_rules.specs.Inner.Plain.{plain_why as core_why};
ghost use Rattle.data_types.specs.Inner.Plain.{plain_why as data_why};
ghost use Rattle.elab_judgments.specs.Refusals.Refusal.{of_core, of_data};
ghost use Rattle.fing_syntax.specs.Inner.Leaves.{place};
ghost use Rattle.fing_refusals.specs.Inner.Plain.{plain_reason};
ghost use Rattle.elab_rules.specs.Inner.Answered.{Placed};

use core_rules::CoreRefusal;
use data_types::DataRefusal;
use fing_refusals::{ElabWhy, Refusal};
use fing_text::Span;
use omega_kinds::Mem;
use semantic_sigs::Env;

/// A refusal for a reason at a place, with as many type variables as the environment has. Want of memory has no place.
#[tactic(auto, using(crate::proofs::Counting::refused_here))]
pub fn refuse(env: &Env, at: Span, why: ElabWhy) -> Refusal
    ensures { Placed env.now (place at) (plain_reason why) result }
{
    match why {
        ElabWhy::Mem => Refusal::from(Mem),
        why => Refusal {
            at,
            types: env.kinds().len() as u64,
            why,
        },
    }
}

// The reason of a rule of types or expressions.
fn core_reason(why: CoreRefusal) -> ElabWhy
    ensures { plain_reason result ≡ option_map of_core (core_why why) }
{
    match why {
        CoreRefusal::NotArrow(ty) => ElabWhy::NotArrow(ty),
        CoreRefusal::NotAll(ty) => ElabWhy::NotAll(ty),
        CoreRefusal::NotRecord(ty) => ElabWhy::NotRecord(ty),
        CoreRefusal::NotSum(ty) => ElabWhy::NotSum(ty),
        CoreRefusal::NoField(name) => ElabWhy::NoField(name),
        CoreRefusal::NoBranch(name) => ElabWhy::NoBranch(name),
        CoreRefusal::Differ(found, needed) => ElabWhy::Differ(found, needed),
        CoreRefusal::KindDiffer(found, needed) => ElabWhy::KindDiffer(found, needed),
        CoreRefusal::NotOperator => ElabWhy::NotOperator,
        CoreRefusal::DuplicateField(name) => ElabWhy::DuplicateField(name),
        CoreRefusal::Mem => ElabWhy::Mem,
    }
}

// How a rule of types or expressions is refused at a place.
pub(crate) fn core_refusal(env: &Env, at: Span, why: CoreRefusal) -> Refusal
    ensures { Placed env.now (place at) (option_map of_core (core_why why)) result }
{
    refuse(env, at, core_reason(why))
}

// The reason of a rule of recursive types.
fn data_reason(why: DataRefusal) -> ElabWhy
    ensures { plain_reason result ≡ option_map of_data (data_why why) }
{
    match why {
        DataRefusal::NotData(ty) => ElabWhy::NotData(ty),
        DataRefusal::Differ(found, needed) => ElabWhy::Differ(found, needed),
        DataRefusal::KindDiffer(found, needed) => ElabWhy::KindDiffer(found, needed),
        DataRefusal::Mem => ElabWhy::Mem,
    }
}

// How a rule of recursive types is refused at a place.
pub(crate) fn data_refusal(env: &Env, at: Span, why: DataRefusal) -> Refusal
    ensures { Placed env.now (place at) (option_map of_data (data_why why)) result }
{
    refuse(env, at, data_reason(why))
}
