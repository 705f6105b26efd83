// Numbered types with what is remembered of them.
ghost use Rattle.std.specs.Prelude.{◌≡◌, ◌↔◌, ◌<◌, [], IfOk, IfSome, IsTrue, length};
ghost use Rattle.omega_types.specs.Inner.Bound.{bound_of};
ghost use Rattle.omega_types.specs.Index.{shift};
ghost use Rattle.omega_types.specs.Ty.{Ty as TyTree};
ghost use Rattle.type_store.specs.Inner.Memo.{filled};
ghost use Rattle.type_store.specs.Trees.{Begins, Holds, IsBelow, Makes, at, tree_at};
ghost use Rattle.type_store.specs.Inner.View.{shape_of};

use crate::memo::Memo;
use crate::node::{Form, Node};
use crate::store::Store;
use omega_kinds::Mem;
use omega_types::Ty;
use std::alloc::Global;
use std::marker::Model;
use type_normal::NormalTy;

/// A store with the results of the operations that were done on its types. Contracts see the store alone: what is
/// remembered is right.
#[derive(Drop)]
pub struct Types {
    store: Store,
    // of a number, an index and a distance, the number of the type shifted by the distance from the index
    shifts: Memo,
    // of a number, an index and another number, the number of the type with the other one put in for the index
    fills: Memo,
    alloc: Global,
}

impl Model for Types {
    ghost use Rattle.std.specs.Prelude.{List};
    ghost use Rattle.std.specs.Coded.{coded_list};
    ghost use Rattle.omega_types.specs.Inner.Code.{ty_code};
    ghost use Rattle.omega_types.specs.Ty.{Ty as TyTree};

    ghost Value = { List TyTree };

    ghost coded = { coded_list ty_code };

    ghost use Rattle.type_store.specs.Inner.Memo.{AreFilled, AreShifts};

    ghost view = { λ t. t.store };

    ghost invariant = { λ t. AreShifts t.store t.shifts × AreFilled t.store t.fills };
}

impl Types {
    /// No types.
    pub fn new(alloc: Global) -> Types
        ensures { result ≡ [] }
    {
        Types {
            store: Store::new(alloc),
            shifts: Memo::new(alloc),
            fills: Memo::new(alloc),
            alloc,
        }
    }

    pub(crate) fn alloc(&self) -> Global {
        self.alloc
    }

    /// The types alone, each at its number. Takes no memory.
    pub fn into_store(self) -> Store
        ensures { result ≡ self }
    {
        self.store
    }

    /// The types alone, each at its number. Takes no memory.
    pub fn store(&self) -> &Store
        ensures { result.now ≡ self.now }
    {
        &self.store
    }

    /// The least number above all free indexes of a type: 0 for a closed one. Takes one step.
    pub fn bound(&self, number: u64) -> u64
        requires { number < length self.now }
        ensures { result ≡ bound_of (at self.now number) }
    {
        self.store.bound(number)
    }

    /// The outermost form of a type, whose parts have smaller numbers. Takes no memory.
    pub fn form(&self, number: u64) -> &Form
        requires { number < length self.now }
        ensures below { IsBelow number (shape_of result.now) }
        ensures value { tree_at self.now (shape_of result.now) ≡ at self.now number }
    {
        self.store.node(number).form()
    }

    /// Whether two numbers are those of one type. Takes one step.
    pub fn same(&self, left: u64, right: u64) -> bool
        requires left { left < length self.now }
        requires right { right < length self.now }
        ensures { IsTrue result ↔ at self.now left ≡ at self.now right }
    {
        // (brings in that the types are distinct)
        let _count = self.store.len();
        left == right
    }

    /// The number of the type that a form makes of the types that it numbers. `Err` is out of memory.
    pub fn make(&mut self, form: Form) -> Result<u64, Mem>
        requires { IsBelow (length self.old) (shape_of form) }
        ensures grows { Begins self.old self.new }
        ensures number { IfOk result (λ n. Holds self.new n (tree_at self.old (shape_of form))) }
    {
        self.store.put_node(Node::of(form))
    }

    /// The number of `int`. `Err` is out of memory.
    pub fn int(&mut self) -> Result<u64, Mem>
        ensures grows { Begins self.old self.new }
        ensures number { IfOk result (λ n. Holds self.new n TyTree.Int) }
    {
        self.make(Form::Int)
    }

    /// The number of a type, whose parts are put before it. `Err` is out of memory.
    pub fn put(&mut self, ty: &NormalTy) -> Result<u64, Mem>
        ensures grows { Begins self.old self.new }
        ensures number { IfOk result (λ n. Holds self.new n ty.now) }
    {
        self.store.put(ty)
    }

    // The form of a type, whose parts have their numbers. `Err` is out of memory.
    pub(crate) fn put_parts(&mut self, ty: &Ty) -> Result<Form, Mem>
        ensures grows { Begins self.old self.new }
        ensures form { IfOk result (λ f. Makes self.new (shape_of f) ty.now) }
    {
        self.store.put_parts(ty)
    }

    // The number of a shifted type, where it is remembered.
    pub(crate) fn known_shift(&self, number: u64, by: u64, from: u64) -> Option<u64>
        ensures { IfSome result (λ n. Holds self.now n (shift by from (at self.now number))) }
    {
        self.shifts.get(number, from, by)
    }

    // The number of a shifted type is remembered. `Err` is out of memory.
    pub(crate) fn note_shift(
        &mut self,
        number: u64,
        by: u64,
        from: u64,
        shifted: u64,
    ) -> Result<(), Mem>
        requires within { number < length self.old }
        requires right { Holds self.old shifted (shift by from (at self.old number)) }
        ensures { self.new ≡ self.old }
    {
        self.shifts.insert(number, from, by, shifted)
    }

    // The number of a type with another one put in, where it is remembered.
    pub(crate) fn known_filled(&self, body: u64, index: u64, arg: u64) -> Option<u64>
        ensures { IfSome result (λ n. Holds self.now n (filled index (at self.now arg) (at self.now body))) }
    {
        self.fills.get(body, index, arg)
    }

    // The number of a type with another one put in is remembered. `Err` is out of memory.
    pub(crate) fn note_filled(
        &mut self,
        body: u64,
        index: u64,
        arg: u64,
        whole: u64,
    ) -> Result<(), Mem>
        requires within { body < length self.old }
        requires arg { arg < length self.old }
        requires right { Holds self.old whole (filled index (at self.old arg) (at self.old body)) }
        ensures { self.new ≡ self.old }
    {
        self.fills.insert(body, index, arg, whole)
    }
}
