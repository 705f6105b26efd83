// The public calls.
ghost use Rattle.std.specs.Prelude.{◌≡◌, length};
ghost use Rattle.sig_definitions.specs.Env.{kinds as kinds_in};
ghost use Rattle.sig_laws.specs.Good.{OkSig, OkAbs, OkRight};
ghost use Rattle.sig_match.specs.Inner.Exact.{OnlyMatch, OnlySubAbs};
ghost use Rattle.sig_match.specs.Inner.Outcomes.{MatchGives, SubAbsGives};

use crate::matching::{match_in, sub_abs_in};
use crate::refusal::{MatchRefusal, Matched};
use omega_terms::Term;
use semantic_sigs::{Abs, Env, Sig};
use std::alloc::Global;

/// The match of a left signature with a right one that hides types, both in the scope of an environment, whose type
/// variables their indexes count. The left side is well formed, the right one ordered explicit, and their types are
/// normal.
///
/// Ok gives types and the coercion at which the left side is a subtype of the right side's body, exactly where there are
/// such. Where a hidden type of the right side is not found on the left along its least root path, `NoRoot` tells the first
/// one. Where all are found and the sides do not agree at these types, the first place in the order of tests is told: by
/// `Clash`; or, where parts that are matched in their turn have no match, by the refusal of that match, the way to them
/// standing before its path. `Mem` is out of memory, also where an index would pass the last number.
///
/// Rossberg, Russo and Dreyer, "F-ing modules", sections 4, Signature matching, and 5, Decidability; here through results
/// of pure functors too.
pub fn match_sig(alloc: Global, env: &Env, left: &Sig, right: &Abs) -> Result<Matched, MatchRefusal>
    requires left { OkSig (kinds_in env.now) left.now }
    requires right { OkRight (kinds_in env.now) right.now }
    ensures gives { MatchGives (kinds_in env.now) left.now right.now result }
    ensures only { OnlyMatch (kinds_in env.now) left.now right.now result }
{
    let depth = depth(env);
    match_in(alloc, depth, left, right)
}

/// Subtyping of signatures that may hide types, both in the scope of an environment. The left side is well formed, the
/// right one ordered explicit, and their types are normal. Ok gives the coercion; refusals come as in `match_sig`.
///
/// Rossberg, Russo and Dreyer, "F-ing modules", section 4, Signature matching.
pub fn sub_abs(alloc: Global, env: &Env, left: &Abs, right: &Abs) -> Result<Term, MatchRefusal>
    requires left { OkAbs (kinds_in env.now) left.now }
    requires right { OkRight (kinds_in env.now) right.now }
    ensures gives { SubAbsGives (kinds_in env.now) left.now right.now result }
    ensures only { OnlySubAbs (kinds_in env.now) left.now right.now result }
{
    let depth = depth(env);
    sub_abs_in(alloc, depth, left, right)
}

// How many type variables are in scope.
fn depth(env: &Env) -> u64
    ensures { result ≡ length (kinds_in env.now) }
{
    env.kinds().len() as u64
}
