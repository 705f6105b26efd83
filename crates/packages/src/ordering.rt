// The order in which the variables of a signature are taken.
ghost use Rattle.std.specs.Prelude.{◌≡◌, ◌<◌, ◌++◌, ◌∷◌, [], Some, length, set, IfOk, OnOk};
ghost use Rattle.omega_types.specs.Binders.{own as number_of};
ghost use Rattle.omega_types.specs.Normaliser.{kind_at};
ghost use Rattle.packages.specs.Inner.Turns.{turns, untaken};

use crate::first::first;
use crate::sweeping::Sweep;
use omega_kinds::{Kinds, Mem};
use semantic_sigs::Sig;
use std::alloc::Global;

// The kinds in the new order, and for each old index its new one.
#[derive(Drop)]
pub(crate) struct Order {
    pub(crate) kinds: Kinds,
    pub(crate) places: Vec<Option<u64>>,
}

impl Order {
    // Nothing is taken yet.
    fn new(alloc: Global, kinds: &Kinds) -> Result<Order, Mem>
        ensures kinds { IfOk result (λ o. o.kinds ≡ []) }
        ensures places { IfOk result (λ o. o.places.items ≡ untaken kinds.now) }
    {
        let mut places = Vec::new(alloc);
        for _kind in kinds.items() {
            places.push(None)?;
        }
        Ok(Order {
            kinds: Kinds::new(alloc),
            places,
        })
    }

    // The variable of an index is taken next, and gets a new index.
    pub(crate) fn take(&mut self, kinds: &Kinds, index: u64, place: u64) -> Result<(), Mem>
        requires counted { length self.old.places.items ≡ length kinds.now }
        requires within { index < length kinds.now }
        ensures kinds { OnOk result (self.new.kinds ≡ self.old.kinds ++ kind_at kinds.now (number_of kinds.now index) ∷ []) }
        ensures places { OnOk result (self.new.places.items ≡ set self.old.places.items index (Some place)) }
    {
        let kinds = kinds.items();
        let kind = kinds[kinds.len() - 1 - index as usize].share()?;
        self.kinds.push(kind)?;
        self.places[index as usize] = Some(place);
        Ok(())
    }
}

// The variables of these kinds, taken one after the other: at each turn the first one that is found. They are found in one
// walk where no functor bars the way.
pub(crate) fn order_of(alloc: Global, kinds: &Kinds, body: &Sig) -> Result<Order, Mem>
    ensures { IfOk result (λ o. (o.kinds, o.places.items) ≡ turns kinds.now body.now (length kinds.now) [] (untaken kinds.now)) }
{
    let mut sweep = Sweep {
        order: Order::new(alloc, kinds)?,
        left: kinds.items().len() as u64,
    };
    if sweep.through(kinds, body, 0)? {
        return Ok(sweep.order);
    }
    order_by_turns(alloc, kinds, body)
}

// The same, each variable being sought from the beginning.
#[tactic(auto, using(crate::proofs::Steps::turn_steps))]
fn order_by_turns(alloc: Global, kinds: &Kinds, body: &Sig) -> Result<Order, Mem>
    ensures { IfOk result (λ o. (o.kinds, o.places.items) ≡ turns kinds.now body.now (length kinds.now) [] (untaken kinds.now)) }
{
    let mut order = Order::new(alloc, kinds)?;
    let mut left = kinds.items().len() as u64;
    while left > 0 {
        left -= 1;
        let places = order.places.as_slice();
        match first(body, 0, places)? {
            Some(index) => order.take(kinds, index, left)?,
            None => return Ok(order),
        }
    }
    Ok(order)
}
