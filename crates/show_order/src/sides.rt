// What the phrases at the place of a refusal name.
use crate::order::{Id, Order, Orders};
use fing_text::Span;

/// The orders of a module and of the signature that it is matched against, and where what a path names is declared.
#[derive(Drop)]
pub struct Sides {
    orders: Orders,
    asked: Id,
    given: Id,
    named: Option<Span>,
}

impl Sides {
    // These orders of these two, and this place.
    pub(crate) fn new(orders: Orders, asked: Id, given: Id, named: Option<Span>) -> Sides {
        Sides {
            orders,
            asked,
            given,
            named,
        }
    }

    /// The order of the signature.
    pub fn asked(&self) -> Order<'_> {
        self.orders.order(self.asked)
    }

    /// The order of the module.
    pub fn given(&self) -> Order<'_> {
        self.orders.order(self.given)
    }

    /// Where what the path names is bound or declared. `None` where the source does not show it, or there is no path.
    pub fn named(&self) -> Option<Span> {
        self.named
    }
}
