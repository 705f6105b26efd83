// The orders of modules and signatures, which refer to one another.
ghost use Rattle.std.specs.Prelude.{◌≡◌, [], IfOk, MatchOption, map};
ghost use Rattle.std.specs.Option.{option_copied};
ghost use Rattle.show_order.specs.Inner.Arranged.{IsArranged};
ghost use Rattle.show_order.specs.Inner.Orders.{declared_by, form_at, names_at};

use crate::declared::{Component, Declared};
use fing_text::Span;
use omega_kinds::{Mem, Name};
use std::alloc::Global;

// Which form of an `Orders` the order of a module or a signature has; none where the source does not show it.
#[derive(Clone, Copy, Debug, PartialEq, Eq)]
pub(crate) struct Id {
    at: Option<usize>,
}

impl Id {
    // The source does not show the order.
    pub(crate) const NONE: Id = Id { at: None };
}

// The order of a structure, and those in the parameter and the result of a functor.
#[derive(Drop)]
enum Form {
    Structure(Declared),
    Functor { param: Id, body: Id },
}

/// The orders of the components in the modules and signatures of a program.
#[derive(Drop)]
pub struct Orders {
    forms: Vec<Form>,
    whole: Id,
}

/// The order in which a source declares the components of one of its modules or signatures, as far as it shows it.
#[derive(Clone, Copy)]
pub struct Order<'a> {
    orders: &'a Orders,
    id: Id,
}

impl Orders {
    /// No order: fields come as they stand. Takes no memory.
    pub fn new(alloc: Global) -> Orders {
        Orders {
            forms: Vec::new(alloc),
            whole: Id::NONE,
        }
    }

    // The order of one more structure. `Err` is out of memory.
    pub(crate) fn add_structure(&mut self, declared: Declared) -> Result<Id, Mem> {
        self.add(Form::Structure(declared))
    }

    // The order of one more functor. `Err` is out of memory.
    pub(crate) fn add_functor(&mut self, param: Id, body: Id) -> Result<Id, Mem> {
        self.add(Form::Functor { param, body })
    }

    // One more order. `Err` is out of memory.
    fn add(&mut self, form: Form) -> Result<Id, Mem> {
        let at = self.forms.len();
        self.forms.push(form)?;
        Ok(Id { at: Some(at) })
    }

    // These orders, with the one of the whole.
    pub(crate) fn with_whole(self, whole: Id) -> Orders {
        Orders {
            forms: self.forms,
            whole,
        }
    }

    // The form of an order.
    fn form(&self, id: Id) -> Option<&Form>
        ensures { option_copied result ≡ form_at self.now.forms.items id.at }
    {
        match id.at {
            Some(at) => self.forms.get(at),
            None => None,
        }
    }

    // The names that a structure declares; `None` for anything else.
    pub(crate) fn declared(&self, id: Id) -> Option<&Declared>
        ensures { MatchOption result (names_at self.now.forms.items id.at ≡ []) (λ d. d.now ≡ names_at self.now.forms.items id.at) }
    {
        match self.form(id) {
            Some(Form::Structure(declared)) => Some(declared),
            _ => None,
        }
    }

    // A component.
    pub(crate) fn component(&self, id: Id, name: &Name) -> Component {
        match self.declared(id) {
            Some(declared) => declared.component(name),
            None => Component::NONE,
        }
    }

    // The orders in the parameter and the result of a functor.
    pub(crate) fn functor(&self, id: Id) -> (Id, Id) {
        match self.form(id) {
            Some(Form::Functor { param, body }) => (*param, *body),
            _ => (Id::NONE, Id::NONE),
        }
    }

    // One of these orders.
    pub(crate) fn order(&self, id: Id) -> Order<'_> {
        Order { orders: self, id }
    }

    /// The order of the whole that was read.
    pub fn whole(&self) -> Order<'_> {
        self.order(self.whole)
    }
}

impl<'a> Order<'a> {
    /// The order in a component: none where the source does not show it.
    pub fn component(self, name: &Name) -> Order<'a> {
        let id = self.orders.component(self.id, name).inside;
        Order {
            orders: self.orders,
            id,
        }
    }

    /// Where a component is declared last: the place of its binding or its declaration. `None` where the source does not
    /// show it.
    pub fn place(self, name: &Name) -> Option<Span> {
        self.orders.component(self.id, name).at
    }

    /// The order in the parameter of a functor.
    pub fn parameter(self) -> Order<'a> {
        Order {
            orders: self.orders,
            id: self.orders.functor(self.id).0,
        }
    }

    /// The order in the result of a functor.
    pub fn result(self) -> Order<'a> {
        Order {
            orders: self.orders,
            id: self.orders.functor(self.id).1,
        }
    }

    /// The fields of a structure in this order: those that the source declares at the places of their last declarations,
    /// and then all others as they stood. `Err` is out of memory.
    pub fn arranged<'f, T>(
        self,
        alloc: Global,
        fields: &'f [(Name, T)],
    ) -> Result<Vec<&'f (Name, T)>, Mem>
        ensures { IfOk result (λ shown. IsArranged (declared_by self.entry) fields.now shown.items) }
    {
        let shown = listed(alloc, fields)?;
        match self.orders.declared(self.id) {
            Some(declared) => sorted(shown, declared),
            None => Ok(shown),
        }
    }
}

// Fields in the order of the names that are declared.
fn sorted<'f, T>(fields: Vec<&'f (Name, T)>, declared: &Declared) -> Result<Vec<&'f (Name, T)>, Mem>
    ensures { IfOk result (λ shown. IsArranged declared.now (map (λ f. f.now) fields.entry.items) shown.items) }
{
    let mut shown = fields;
    shown.sort_by_key(|field| declared.rank(&field.0))?;
    Ok(shown)
}

// The fields as they stand.
fn listed<T>(alloc: Global, fields: &[(Name, T)]) -> Result<Vec<&(Name, T)>, Mem>
    ensures { IfOk result (λ shown. map (λ f. f.now) shown.items ≡ fields.now) }
{
    let mut shown = Vec::with_capacity(alloc, fields.len())?;
    for field in fields {
        shown.push(field)?;
    }
    Ok(shown)
}
