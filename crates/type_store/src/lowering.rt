// Numbered types outside of a binder.
ghost use Rattle.std.specs.Prelude.{◌<◌, IfOk, length};
ghost use Rattle.type_store.specs.Numbers.{NumberOf, outside};
ghost use Rattle.type_store.specs.Trees.{Begins, at};

use crate::types::Types;
use omega_kinds::Mem;

impl Types {
    /// The number of a type with each free index less by one, and none where it mentions index 0. `Err` is out of memory,
    /// also where an index would pass the last number.
    ///
    /// A type that comes in for index 0 changes nothing where that is not mentioned, so what is left is the lowered type.
    /// Raised again it has the number of the whole exactly there.
    #[tactic(auto, using(crate::proofs::LowerSteps::lower_steps))]
    pub fn lower(&mut self, number: u64) -> Result<Option<u64>, Mem>
        requires { number < length self.old }
        ensures grows { Begins self.old self.new }
        ensures number { IfOk result (λ o. NumberOf self.new o (outside (at self.old number))) }
    {
        let int = self.int()?;
        let lowered = self.put_in(number, 0, int)?;
        let raised = self.shift(lowered, 1, 0)?;
        if self.same(raised, number) {
            Ok(Some(lowered))
        } else {
            Ok(None)
        }
    }
}
