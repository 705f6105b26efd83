// Lifted types, applied to the types that a functor's parameter hides.
ghost use Rattle.std.specs.Prelude.{◌≡◌, ◌∷◌, [], length, IfOk, IfSome};
ghost use Rattle.omega_kinds.specs.View.{kind_tree};
ghost use Rattle.omega_types.specs.Binders.{applied, arrow_over as arrow_over_of, extend};
ghost use Rattle.omega_types.specs.Index.{shift};
ghost use Rattle.omega_types.specs.Inner.Scope.{scope_of};
ghost use Rattle.omega_types.specs.Ty.{Var};
ghost use Rattle.applicative_functors.specs.Inner.LiftedVars.{lifted_vars as lifted_vars_of, lifted_var as lifted_var_of};
ghost use Rattle.applicative_functors.specs.Inner.Lifted.{IsLifted};

use crate::operators::arrow_over;
use omega_kinds::{Kind, Kinds, Mem, same_kind};
use omega_types::{Ty, TyNode};
use semantic_sigs::Witnesses;
use std::alloc::Global;
use type_normal::{NormalTy, normal, raise};

// For each hidden type its lifted variable, applied to the variables of the parameter, in normal form: under the lifted
// variables and then those of the parameter, whose kinds are given. `Err` is out of memory, as for all calls here.
#[tactic(auto, using(crate::proofs::Loops::vars_steps))]
pub(crate) fn lifted_vars(alloc: Global, kinds: &Kinds, hidden: &Kinds) -> Result<Witnesses, Mem>
    ensures { IfOk result (λ ts. ts ≡ lifted_vars_of kinds.now hidden.now) }
{
    let outer = kinds.items().len() as u64;
    let mut types = Witnesses::new(alloc);
    let mut inner = hidden.items().len() as u64;
    let mut before = None;
    for kind in hidden.items() {
        inner -= 1;
        let own = variable_of(alloc, kinds, kind, before)?;
        types.push(raise(alloc, &own.ty, inner, outer)?)?;
        before = Some(own);
    }
    Ok(types)
}

// A lifted variable, applied to the variables of the parameter, in normal form: under itself alone. It is the same for
// all hidden types of its kind.
#[derive(Drop)]
struct Lifted {
    kind: Kind,
    ty: NormalTy,
}

// The lifted variable of a kind: the one before, where it has that kind.
fn variable_of(
    alloc: Global,
    kinds: &Kinds,
    kind: &Kind,
    before: Option<Lifted>,
) -> Result<Lifted, Mem>
    requires { IfSome before (λ own. IsLifted kinds.now own) }
    ensures kind { IfOk result (λ own. kind_tree own.kind ≡ kind_tree kind.now) }
    ensures lifted { IfOk result (IsLifted kinds.now) }
{
    match before {
        Some(own) if same_kind(&own.kind, kind) => Ok(own),
        _ => Ok(Lifted {
            kind: kind.share()?,
            ty: lifted_var(alloc, kinds, kind)?,
        }),
    }
}

// The lifted variable of a kind under itself alone.
fn lifted_var(alloc: Global, kinds: &Kinds, kind: &Kind) -> Result<NormalTy, Mem>
    ensures { IfOk result (λ t. t ≡ lifted_var_of kinds.now (kind_tree kind.now)) }
{
    let operator = arrow_over(alloc, kinds, kind.share()?)?;
    let scope = scope_under(alloc, operator, kinds)?;
    normal(alloc, scope.as_slice(), &all_applied(alloc, kinds)?, kind)
}

// The kinds of a variable and of those inside of it.
fn scope_under(alloc: Global, outermost: Kind, kinds: &Kinds) -> Result<Vec<Kind>, Mem>
    ensures { IfOk result (λ scope. scope_of scope.items ≡ extend (kind_tree outermost ∷ []) kinds.now) }
{
    let mut scope = Vec::new(alloc);
    scope.push(outermost)?;
    for kind in kinds.items() {
        scope.push(kind.share()?)?;
    }
    Ok(scope)
}

// The variable just outside of those of these kinds, applied to all of them in order.
#[tactic(auto, using(crate::proofs::Loops::spread_steps))]
fn all_applied(alloc: Global, kinds: &Kinds) -> Result<Ty, Mem>
    ensures { IfOk result (λ t. t ≡ applied kinds.now (Var 0)) }
{
    let mut left = kinds.items().len() as u64;
    let mut ty = Ty::make(alloc, TyNode::Var(left))?;
    while left > 0 {
        left -= 1;
        let arg = Ty::make(alloc, TyNode::Var(left))?;
        ty = Ty::make(alloc, TyNode::Apply(ty, arg))?;
    }
    Ok(ty)
}
