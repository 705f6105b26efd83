// How the rules of modules and packages, and matching, are refused at a place, in an environment.
ghost use Rattle.std.specs.Prelude.{◌≡◌};
ghost use Rattle.std.specs.Option.{option_map};
ghost use Rattle.module_rules.specs.Inner.Plain.{plain_why as mod_why};
ghost use Rattle.packages.specs.Inner.Plain.{plain_why as unpack_why};
ghost use Rattle.sig_match.specs.Inner.Refusals.{plain_refusal as match_why};
ghost use Rattle.elab_judgments.specs.Refusals.Refusal.{of_mod, of_unpack};
ghost use Rattle.fing_syntax.specs.Inner.Leaves.{place};
ghost use Rattle.fing_refusals.specs.Inner.Plain.{plain_reason};
ghost use Rattle.elab_rules.specs.Inner.Answered.{Placed};
ghost use Rattle.elab_rules.specs.Inner.Modules.{MatchPlaced};

use crate::refusing::refuse;
use fing_refusals::{ElabWhy, Refusal};
use fing_text::Span;
use module_rules::ModRefusal;
use omega_kinds::Mem;
use packages::UnpackRefusal;
use semantic_sigs::Env;
use sig_match::MatchRefusal;

// The reason of a rule of modules.
fn mod_reason(why: ModRefusal) -> ElabWhy
    ensures { plain_reason result ≡ option_map of_mod (mod_why why) }
{
    match why {
        ModRefusal::Unbound(name) => ElabWhy::Unbound(name),
        ModRefusal::NoPart(name) => ElabWhy::NoPart(name),
        ModRefusal::NotStructure => ElabWhy::NotStructure,
        ModRefusal::NotFunctor => ElabWhy::NotFunctor,
        ModRefusal::WrongPath => ElabWhy::WrongPath,
        ModRefusal::Escapes => ElabWhy::Escapes,
        ModRefusal::Mem => ElabWhy::Mem,
    }
}

// How a rule of modules is refused at a place.
pub(crate) fn mod_refusal(env: &Env, at: Span, why: ModRefusal) -> Refusal
    ensures { Placed env.now (place at) (option_map of_mod (mod_why why)) result }
{
    refuse(env, at, mod_reason(why))
}

// The reason for which unpacking is refused.
fn unpack_reason(why: UnpackRefusal) -> ElabWhy
    ensures { plain_reason result ≡ option_map of_unpack (unpack_why why) }
{
    match why {
        UnpackRefusal::Differ(found, needed) => ElabWhy::Differ(found, needed),
        UnpackRefusal::Mem => ElabWhy::Mem,
    }
}

// How unpacking is refused at a place.
pub(crate) fn unpack_refusal(env: &Env, at: Span, why: UnpackRefusal) -> Refusal
    ensures { Placed env.now (place at) (option_map of_unpack (unpack_why why)) result }
{
    refuse(env, at, unpack_reason(why))
}

// How matching is refused at a place. A clash has its own number of type variables.
pub(crate) fn match_refusal(env: &Env, at: Span, why: MatchRefusal) -> Refusal
    ensures { MatchPlaced env.now (place at) (match_why why) result }
{
    match why {
        MatchRefusal::NoRoot { index, path } => refuse(env, at, ElabWhy::NoRoot { index, path }),
        MatchRefusal::Clash { types, path, why } => Refusal {
            at,
            types,
            why: ElabWhy::Clash { path, why },
        },
        MatchRefusal::Mem => Refusal::from(Mem),
    }
}
