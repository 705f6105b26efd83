// Types that are a variable, applied to exactly the variables of some binders.
ghost use Rattle.std.specs.Prelude.{◌≡◌, ◌+◌, ◌<◌, ◌^◌, IfOk};
ghost use Rattle.sig_roots.specs.Inner.Rooted.{rooted as rooted_of, spine as spine_of};
ghost use Rattle.type_normal.specs.Inner.Least.{outside as outside_of};

use omega_kinds::Mem;
use omega_types::{Ty, TyNode, next_level};

/// The index of the variable that a normal type is, applied to exactly the `count` innermost variables in order; as it is
/// written outside these. `None` where the type is none. `Err` is out of memory.
#[cycle(rooted)]
pub fn rooted(ty: &Ty, count: u64) -> Result<Option<u64>, Mem>
    ensures { IfOk result (λ own. own ≡ rooted_of count ty.now) }
{
    match ty.node() {
        TyNode::Lam(_, body) => rooted(body, next_level(count)?),
        _ => spine(ty, 0, count),
    }
}

// The same for what is left of an application: the last of the `left` arguments that are still to come is the variable
// `next`.
#[cycle(rooted)]
fn spine(ty: &Ty, next: u64, left: u64) -> Result<Option<u64>, Mem>
    requires { next + left < 2 ^ 64 }
    ensures { IfOk result (λ own. own ≡ spine_of next left ty.now) }
{
    match ty.node() {
        TyNode::Var(index) if left == 0 => Ok(outside(next, *index)),
        TyNode::Apply(operator, arg) if left > 0 => match rooted(arg, 0)? {
            Some(index) if index == next => spine(operator, next + 1, left - 1),
            _ => Ok(None),
        },
        _ => Ok(None),
    }
}

// An index as it is written outside `count` binders.
fn outside(count: u64, index: u64) -> Option<u64>
    ensures { result ≡ outside_of count index }
{
    index.checked_sub(count)
}
