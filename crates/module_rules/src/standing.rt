// Modules at the places of their names: their parts there, and what they are at the end of the environment.
ghost use Rattle.std.specs.Prelude.{◌≡◌, List, IfErr, IfOk, IfSome};
ghost use Rattle.omega_kinds.specs.Kind.{Kind as KindTree};
ghost use Rattle.semantic_sigs.specs.Inner.Made.{module_of};
ghost use Rattle.semantic_sigs.specs.Inner.Standing.{standing_module};
ghost use Rattle.module_judgments.specs.ModRules.{ProjectRefuses};
ghost use Rattle.module_judgments.specs.Projection.{Projected};
ghost use Rattle.module_rules.specs.Inner.Plain.{plain_why};

use crate::naming::open_module;
use crate::projecting::named_part;
use crate::refusal::ModRefusal;
use omega_kinds::{Mem, Name};
use semantic_sigs::{Module, Standing, find_field, raise_sig};
use std::alloc::Global;

/// `M.X` at the place of M: the part there, so that nothing is shifted. `NotStructure` comes exactly where M is no
/// structure, and `NoPart` where the structure has no part X.
pub fn standing_part<'a>(
    alloc: Global,
    whole: &Standing<'a>,
    name: &Name,
) -> Result<Standing<'a>, ModRefusal>
    ensures given { IfOk result (λ m. (ctx : List KindTree) → Projected ctx (standing_module whole.now) name.now (standing_module m)) }
    ensures refused { IfErr result (λ e. IfSome (plain_why e) (λ why. ProjectRefuses (standing_module whole.now) name.now why)) }
{
    let Some(fields) = whole.sig.as_structure() else {
        return Err(ModRefusal::NotStructure);
    };
    let Some(sig) = find_field(fields, name) else {
        return Err(ModRefusal::NoPart(name.share()?));
    };
    let term = named_part(alloc, &whole.term, name)?;
    Ok(Standing {
        sig,
        types: whole.types,
        term,
    })
}

/// The module at the end of the environment: its signature is shifted past the type variables that come after its place.
/// `Err` is out of memory.
pub fn raised(alloc: Global, found: &Standing<'_>) -> Result<Module, Mem>
    ensures { IfOk result (λ m. module_of m ≡ standing_module found.now) }
{
    let sig = raise_sig(alloc, found.sig, found.types, 0)?;
    let term = found.term.share()?;
    open_module(alloc, sig, term)
}
