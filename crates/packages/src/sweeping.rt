// Variables taken in one walk through a signature.
ghost use Rattle.std.specs.Prelude.{◌≡◌, length, IfOk, IsTrue, OnOk};
ghost use Rattle.semantic_sigs.specs.Inner.Fields.{sig_row};
ghost use Rattle.packages.specs.Inner.First.{first as first_of, first_row, first_type as first_type_of};
ghost use Rattle.packages.specs.Inner.Swept.{Sweeps};

use crate::first::{first_type, inside, is_barred};
use crate::ordering::Order;
use omega_kinds::{Effect, Kinds, Mem};
use omega_types::Ty;
use semantic_sigs::{Sig, SigFields, SigNode};
use type_normal::plain;

// What is taken, and how many turns are left.
#[derive(Drop)]
pub(crate) struct Sweep {
    pub(crate) order: Order,
    pub(crate) left: u64,
}

impl Sweep {
    // Takes each variable that is rooted in the signature and not taken yet, in the order of paths. `false` where the
    // parameter of a functor on the way mentions one that is not taken yet: what was taken is then not told.
    #[cycle(sweep)]
    pub(crate) fn through(&mut self, kinds: &Kinds, sig: &Sig, depth: u64) -> Result<bool, Mem>
        requires { length self.old.order.places.items ≡ length kinds.now }
        ensures places { OnOk result (length self.new.order.places.items ≡ length kinds.now) }
        ensures swept { IfOk result (λ through. IsTrue through → Sweeps kinds.now (λ ps. first_of ps depth sig.now) self.old self.new) }
    {
        match sig.node() {
            SigNode::Typ(ty, _) => {
                self.take_rooted(kinds, plain(ty), depth)?;
                Ok(true)
            }
            SigNode::Str(fields) => self.through_fields(kinds, fields, depth),
            SigNode::Fun {
                effect,
                kinds: own,
                param,
                result,
            } => match effect {
                Effect::Pure => {
                    let inner = inside(depth, own)?;
                    if is_barred(param, inner, self.order.places.as_slice()) {
                        return Ok(false);
                    }
                    self.through(kinds, result.body(), inner)
                }
                Effect::Impure => Ok(true),
            },
            SigNode::Val(_) => Ok(true),
            SigNode::Meta(_) => Ok(true),
        }
    }

    // The same for the parts of a structure.
    #[cycle(sweep)]
    fn through_fields(&mut self, kinds: &Kinds, fields: &SigFields, depth: u64) -> Result<bool, Mem>
        requires { length self.old.order.places.items ≡ length kinds.now }
        ensures places { OnOk result (length self.new.order.places.items ≡ length kinds.now) }
        ensures swept { IfOk result (λ through. IsTrue through → Sweeps kinds.now (λ ps. first_row ps depth (sig_row fields.now)) self.old self.new) }
    {
        for field in fields.items() {
            if !self.through(kinds, &field.1, depth)? {
                return Ok(false);
            }
        }
        Ok(true)
    }

    // The same for a type.
    fn take_rooted(&mut self, kinds: &Kinds, ty: &Ty, depth: u64) -> Result<(), Mem>
        requires { length self.old.order.places.items ≡ length kinds.now }
        ensures places { OnOk result (length self.new.order.places.items ≡ length kinds.now) }
        ensures swept { OnOk result (Sweeps kinds.now (λ ps. first_type_of ps depth ty.now) self.old self.new) }
    {
        let Some(index) = first_type(ty, depth, self.order.places.as_slice())? else {
            return Ok(());
        };
        if self.left == 0 {
            return Ok(());
        }
        self.left -= 1;
        self.order.take(kinds, index, self.left)
    }
}
