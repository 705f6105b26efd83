// The rest of a structure, with its pure bindings gathered.
ghost use Rattle.std.specs.Prelude.{◌≡◌, List, IfOk, IsTrue};
ghost use Rattle.omega_kinds.specs.Kind.{Kind as KindTree};
ghost use Rattle.omega_kinds.specs.declared.effect.Effect.TheVariants.{Pure};
ghost use Rattle.omega_types.specs.Binders.{extend};
ghost use Rattle.sig_definitions.specs.Signatures.Sig.{Module as ModuleTree};
ghost use Rattle.sig_laws.specs.Good.{OkModule};
ghost use Rattle.semantic_sigs.specs.Inner.Made.{module_of};
ghost use Rattle.semantic_sigs.specs.Inner.View.{kinds_of};
ghost use Rattle.module_judgments.specs.Sequence.{Seq};
ghost use Rattle.module_rests.specs.Inner.Rests.{Comes};

use crate::gathering::sequence;
use module_rules::seq_bind;
use omega_kinds::{Effect, Mem};
use semantic_sigs::Module;
use std::alloc::Global;

/// The rest of a structure: a module, and before it pure bindings whose hidden types are not put into what comes after them
/// yet, the last of them first. So each term is gone through once, when the rest is joined.
///
/// Rossberg, Russo and Dreyer, "F-ing modules", sections 4 and 7, Elaboration, Bindings; that bindings are gathered is this
/// project's own.
#[derive(Drop)]
pub struct Rest {
    steps: Vec<Module>,
    last: Module,
}

impl Rest {
    /// A rest that is a module already, to which it comes.
    pub fn of(alloc: Global, last: Module) -> Rest
        ensures { (ctx : List KindTree) → Comes ctx result (module_of last) }
    {
        Rest {
            steps: Vec::new(alloc),
            last,
        }
    }

    /// A binding and the rest, which stands under the hidden types of the binding and its name. Where the rest comes to a
    /// module, both come to what the rule of a sequence makes of the binding and that module. Each is well formed, of normal
    /// types of their kinds. `Err` is out of memory.
    pub fn bind(self, alloc: Global, first: Module) -> Result<Rest, Mem>
        ensures { IfOk result (λ r. (ctx : List KindTree) (rest : ModuleTree) → OkModule ctx (module_of first) → OkModule (extend ctx (kinds_of first.sig)) rest → Comes (extend ctx (kinds_of first.sig)) self rest → (whole : ModuleTree) × Seq ctx (module_of first) rest whole × Comes ctx r whole) }
    {
        if both_pure(first.effect, self.last.effect) {
            let mut steps = self.steps;
            steps.push(first)?;
            let last = self.last;
            return Ok(Rest { steps, last });
        }
        let whole = self.join(alloc)?;
        let made = seq_bind(alloc, first, whole)?;
        Ok(Rest::of(alloc, made))
    }

    /// The module that the rest comes to, which is well formed, of normal types of their kinds. `Err` is out of memory.
    pub fn join(self, alloc: Global) -> Result<Module, Mem>
        ensures { IfOk result (λ w. (ctx : List KindTree) (m : ModuleTree) → OkModule ctx m → Comes ctx self m → module_of w ≡ m) }
    {
        if self.steps.is_empty() {
            return Ok(self.last);
        }
        let mut steps = self.steps;
        steps.reverse();
        sequence(alloc, &steps, &self.last)
    }
}

// Whether two effects are pure.
fn both_pure(first: Effect, rest: Effect) -> bool
    ensures { IsTrue result → (first ≡ Pure) × (rest ≡ Pure) }
{
    match first {
        Effect::Pure => match rest {
            Effect::Pure => true,
            Effect::Impure => false,
        },
        Effect::Impure => false,
    }
}
