// The store.
ghost use Rattle.std.specs.Prelude.{◌≡◌, ◌↔◌, ◌<◌, ℕ, [], IfOk, IfSome, length};
ghost use Rattle.omega_kinds.specs.View.{kind_tree};
ghost use Rattle.omega_types.specs.Inner.Bound.{bound_of};
ghost use Rattle.omega_types.specs.Fields.{row};
ghost use Rattle.omega_types.specs.Ty.{Ty as TyTree};
ghost use Rattle.type_store.specs.Trees.{AreBounds, Extends, IsStore, trees, AreDistinct, ArePartsBelow, Begins, Holds, IsBelow, Makes, MakesParts, at, bound_at, bound_parts, tree_at};
ghost use Rattle.type_store.specs.Inner.Low.{AreLows, IsLow};
ghost use Rattle.type_store.specs.Inner.View.{shape_of};

use crate::low::{Low, low_in, low_of};
use crate::node::{Form, Node};
use indexmap::IndexSet;
use omega_kinds::{Kind, Label, Mem};
use omega_types::{Ty, TyFields, TyNode, next_level};
use std::alloc::Global;
use std::marker::Model;
use type_normal::{NormalTy, plain};

/// Types, each with a number, which is its place. Contracts see a store as the list of its types, which are distinct.
///
/// Filliâtre and Conchon, "Type-safe modular hash-consing", section 2.
#[derive(Drop)]
pub struct Store {
    nodes: IndexSet<Node>,
    // of each type the least number above all its free indexes
    bounds: Vec<u64>,
    // of each type the numbers that its free indexes are not below
    lows: Vec<Low>,
    alloc: Global,
}

impl Model for Store {
    ghost use Rattle.std.specs.Prelude.{List};
    ghost use Rattle.std.specs.Coded.{coded_list};
    ghost use Rattle.omega_types.specs.Inner.Code.{ty_code};
    ghost use Rattle.omega_types.specs.Ty.{Ty as TyTree};

    ghost Value = { List TyTree };

    ghost coded = { coded_list ty_code };

    ghost use Rattle.type_store.specs.Inner.Low.{AreLows};
    ghost use Rattle.type_store.specs.Trees.{AreBounds, IsStore, trees};

    ghost view = { λ s. trees s.nodes.keys };

    ghost invariant = { λ s. IsStore s.nodes.keys × AreBounds (trees s.nodes.keys) s.bounds.items × AreLows (trees s.nodes.keys) s.lows.items };
}

impl Store {
    /// No types.
    pub fn new(alloc: Global) -> Store
        ensures { result ≡ [] }
    {
        Store {
            nodes: IndexSet::new(alloc),
            bounds: Vec::new(alloc),
            lows: Vec::new(alloc),
            alloc,
        }
    }

    /// The number of the type that a node makes of the types that it numbers. The types that the store had keep their numbers.
    /// `Err` is out of memory.
    pub fn put_node(&mut self, node: Node) -> Result<u64, Mem>
        requires { IsBelow (length self.old) node }
        ensures grows { Begins self.old self.new }
        ensures number { IfOk result (λ n. Holds self.new n (tree_at self.old node)) }
    {
        match place_of(&self.nodes, &node) {
            Some(number) => Ok(number),
            None => self.add(node),
        }
    }

    // The number of the type that a node makes, where it may be a new one.
    fn add(&mut self, node: Node) -> Result<u64, Mem>
        requires { IsBelow (length self.old) node }
        ensures grows { Begins self.old self.new }
        ensures number { IfOk result (λ n. Holds self.new n (tree_at self.old node)) }
    {
        let bound = bound_of(self.bounds.as_slice(), node.form())?;
        let low = low_of(self.lows.as_slice(), node.form());
        insert(
            &mut self.nodes,
            &mut self.bounds,
            &mut self.lows,
            node,
            bound,
            low,
        )
    }

    /// The number of a type, whose parts are put before it. The types that the store had keep their numbers. `Err` is out of
    /// memory.
    pub fn put(&mut self, ty: &NormalTy) -> Result<u64, Mem>
        ensures grows { Begins self.old self.new }
        ensures number { IfOk result (λ n. Holds self.new n ty.now) }
        ensures same { IfOk result (λ n. (m : ℕ) (t : TyTree) → Holds self.new m t → (m ≡ n ↔ t ≡ ty.now)) }
    {
        let number = self.put_type(plain(ty))?;
        // (brings in that the types are distinct)
        let _nodes = &self.nodes;
        Ok(number)
    }

    /// How many types there are. Takes no memory.
    pub fn len(&self) -> usize
        ensures length { result ≡ length self.now }
        ensures distinct { AreDistinct self.now }
    {
        self.nodes.len()
    }

    /// The least number above all free indexes of a type: 0 for a closed one. Takes one step.
    pub fn bound(&self, number: u64) -> u64
        requires { number < length self.now }
        ensures { result ≡ bound_of (at self.now number) }
    {
        self.bounds[number as usize]
    }

    // The numbers that no free index of a type is below. Takes one step.
    pub(crate) fn low(&self, number: u64) -> Low
        requires { number < length self.now }
        ensures { IsLow result (at self.now number) }
    {
        low_in(self.lows.as_slice(), number)
    }

    /// The node of a type, whose parts have smaller numbers. Takes no memory.
    pub fn node(&self, number: u64) -> &Node
        requires { number < length self.now }
        ensures below { IsBelow number result.now }
        ensures value { tree_at self.now result.now ≡ at self.now number }
    {
        &self.nodes[number as usize]
    }

    // The number of a type.
    #[cycle(put)]
    #[tactic(auto, using(crate::proofs::StoreSteps::store_steps))]
    fn put_type(&mut self, ty: &Ty) -> Result<u64, Mem>
        ensures grows { Begins self.old self.new }
        ensures number { IfOk result (λ n. Holds self.new n ty.now) }
    {
        let form = self.put_parts(ty)?;
        self.put_node(Node::of(form))
    }

    // The form of a type, whose parts have their numbers.
    #[cycle(put)]
    #[tactic(auto, using(crate::proofs::StoreSteps::store_steps))]
    pub(crate) fn put_parts(&mut self, ty: &Ty) -> Result<Form, Mem>
        ensures grows { Begins self.old self.new }
        ensures form { IfOk result (λ f. Makes self.new (shape_of f) ty.now) }
    {
        match ty.node() {
            TyNode::Var(index) => Ok(Form::Var(*index)),
            TyNode::Int => Ok(Form::Int),
            TyNode::Bool => Ok(Form::Bool),
            TyNode::Text => Ok(Form::Text),
            TyNode::Arrow(from, to) => match ty.both_sides() {
                Some(part) => self.put_even(part),
                None => self.put_arrow(from, to),
            },
            TyNode::Fields(fields) => self.put_record(fields),
            TyNode::Sum(fields) => self.put_sum(fields),
            TyNode::All(kind, body) => self.put_all(kind, body),
            TyNode::Ex(kind, body) => self.put_ex(kind, body),
            TyNode::Mu(body) => self.put_mu(body),
            TyNode::Lam(kind, body) => self.put_lam(kind, body),
            TyNode::Apply(operator, arg) => self.put_apply(operator, arg),
        }
    }

    // `(-> T T)`.
    #[cycle(put)]
    #[inline(never)]
    #[tactic(auto, using(crate::proofs::StoreSteps::store_steps))]
    fn put_arrow(&mut self, from: &Ty, to: &Ty) -> Result<Form, Mem>
        ensures grows { Begins self.old self.new }
        ensures form { IfOk result (λ f. Makes self.new (shape_of f) (TyTree.Arrow from.now to.now)) }
    {
        let from = self.put_type(from)?;
        let to = self.put_type(to)?;
        Ok(Form::Arrow(from, to))
    }

    // `(-> T T)`, whose two parts are one tree: it is put once.
    #[cycle(put)]
    #[inline(never)]
    #[tactic(auto, using(crate::proofs::StoreSteps::store_steps))]
    fn put_even(&mut self, part: &Ty) -> Result<Form, Mem>
        ensures grows { Begins self.old self.new }
        ensures form { IfOk result (λ f. Makes self.new (shape_of f) (TyTree.Arrow part.now part.now)) }
    {
        let part = self.put_type(part)?;
        Ok(Form::Arrow(part, part))
    }

    // `(rec (l T) ..)`.
    #[cycle(put)]
    #[inline(never)]
    #[tactic(auto, using(crate::proofs::StoreSteps::store_steps))]
    fn put_record(&mut self, fields: &TyFields) -> Result<Form, Mem>
        ensures grows { Begins self.old self.new }
        ensures form { IfOk result (λ f. Makes self.new (shape_of f) (TyTree.Fields (row fields.now))) }
    {
        Ok(Form::Fields(self.put_fields(fields)?))
    }

    // `(sum (l T) ..)`.
    #[cycle(put)]
    #[inline(never)]
    #[tactic(auto, using(crate::proofs::StoreSteps::store_steps))]
    fn put_sum(&mut self, fields: &TyFields) -> Result<Form, Mem>
        ensures grows { Begins self.old self.new }
        ensures form { IfOk result (λ f. Makes self.new (shape_of f) (TyTree.Sum (row fields.now))) }
    {
        Ok(Form::Sum(self.put_fields(fields)?))
    }

    // `(all K T)`.
    #[cycle(put)]
    #[inline(never)]
    #[tactic(auto, using(crate::proofs::StoreSteps::store_steps))]
    fn put_all(&mut self, kind: &Kind, body: &Ty) -> Result<Form, Mem>
        ensures grows { Begins self.old self.new }
        ensures form { IfOk result (λ f. Makes self.new (shape_of f) (TyTree.All (kind_tree kind.now) body.now)) }
    {
        let body = self.put_type(body)?;
        Ok(Form::All(kind.share()?, body))
    }

    // `(some K T)`.
    #[cycle(put)]
    #[inline(never)]
    #[tactic(auto, using(crate::proofs::StoreSteps::store_steps))]
    fn put_ex(&mut self, kind: &Kind, body: &Ty) -> Result<Form, Mem>
        ensures grows { Begins self.old self.new }
        ensures form { IfOk result (λ f. Makes self.new (shape_of f) (TyTree.Ex (kind_tree kind.now) body.now)) }
    {
        let body = self.put_type(body)?;
        Ok(Form::Ex(kind.share()?, body))
    }

    // `(mu T)`.
    #[cycle(put)]
    #[inline(never)]
    #[tactic(auto, using(crate::proofs::StoreSteps::store_steps))]
    fn put_mu(&mut self, body: &Ty) -> Result<Form, Mem>
        ensures grows { Begins self.old self.new }
        ensures form { IfOk result (λ f. Makes self.new (shape_of f) (TyTree.Mu body.now)) }
    {
        Ok(Form::Mu(self.put_type(body)?))
    }

    // `(lam K T)`.
    #[cycle(put)]
    #[inline(never)]
    #[tactic(auto, using(crate::proofs::StoreSteps::store_steps))]
    fn put_lam(&mut self, kind: &Kind, body: &Ty) -> Result<Form, Mem>
        ensures grows { Begins self.old self.new }
        ensures form { IfOk result (λ f. Makes self.new (shape_of f) (TyTree.Lam (kind_tree kind.now) body.now)) }
    {
        let body = self.put_type(body)?;
        Ok(Form::Lam(kind.share()?, body))
    }

    // `(@ T T)`.
    #[cycle(put)]
    #[inline(never)]
    #[tactic(auto, using(crate::proofs::StoreSteps::store_steps))]
    fn put_apply(&mut self, operator: &Ty, arg: &Ty) -> Result<Form, Mem>
        ensures grows { Begins self.old self.new }
        ensures form { IfOk result (λ f. Makes self.new (shape_of f) (TyTree.Apply operator.now arg.now)) }
    {
        let operator = self.put_type(operator)?;
        let arg = self.put_type(arg)?;
        Ok(Form::Apply(operator, arg))
    }

    // The labels of a record or a sum with the numbers of its parts.
    #[cycle(put)]
    #[tactic(auto, using(crate::proofs::StoreSteps::store_steps))]
    fn put_fields(&mut self, fields: &TyFields) -> Result<Vec<(Label, u64)>, Mem>
        ensures grows { Begins self.old self.new }
        ensures parts { IfOk result (λ parts. MakesParts self.new parts.items (row fields.now)) }
    {
        let mut parts = Vec::with_capacity(self.alloc, fields.items().len())?;
        for field in fields.items() {
            let number = self.put_type(&field.1)?;
            parts.push((field.0.share()?, number))?;
        }
        Ok(parts)
    }
}

// The number of a node among these, where it is there.
fn place_of(nodes: &IndexSet<Node>, node: &Node) -> Option<u64>
    requires store { IsStore nodes.now.keys }
    requires below { IsBelow (length (trees nodes.now.keys)) node.now }
    ensures { IfSome result (λ n. Holds (trees nodes.now.keys) n (tree_at (trees nodes.now.keys) node.now)) }
{
    let number = nodes.get_index_of(node)?;
    Some(number as u64)
}

// The number of a node among these, with the numbers of its type's free indexes where it is a new one.
fn insert(
    nodes: &mut IndexSet<Node>,
    bounds: &mut Vec<u64>,
    lows: &mut Vec<Low>,
    node: Node,
    bound: u64,
    low: Low,
) -> Result<u64, Mem>
    requires store { IsStore nodes.old.keys }
    requires are_bounds { AreBounds (trees nodes.old.keys) bounds.old.items }
    requires are_lows { AreLows (trees nodes.old.keys) lows.old.items }
    requires below { IsBelow (length (trees nodes.old.keys)) node }
    requires bound { bound ≡ bound_of (tree_at (trees nodes.old.keys) node) }
    requires low { IsLow low (tree_at (trees nodes.old.keys) node) }
    ensures kept { Extends nodes.old.keys nodes.new.keys bounds.new.items }
    ensures lows { AreLows (trees nodes.new.keys) lows.new.items }
    ensures number { IfOk result (λ n. Holds (trees nodes.new.keys) n (tree_at (trees nodes.old.keys) node)) }
{
    bounds.reserve(1)?;
    lows.reserve(1)?;
    let added = nodes.insert_full(node)?;
    if added.1 {
        bounds.push(bound)?;
        lows.push(low)?;
    }
    Ok(added.0 as u64)
}

// The least number above all free indexes of the type that a form makes, from those of the types that it numbers.
// `Err` is out of memory, for the variable whose index is the last number.
fn bound_of(bounds: &[u64], form: &Form) -> Result<u64, Mem>
    requires { IsBelow (length bounds.now) (shape_of form.now) }
    ensures { IfOk result (λ b. b ≡ bound_at bounds.now (shape_of form.now)) }
{
    match form {
        Form::Var(index) => next_level(*index),
        Form::Int | Form::Bool | Form::Text => Ok(0),
        Form::Arrow(a, b) | Form::Apply(a, b) => {
            Ok(bounds[*a as usize].max(bounds[*b as usize]))
        }
        Form::Fields(parts) | Form::Sum(parts) => Ok(most_bound(bounds, parts.as_slice())),
        Form::All(_, b) | Form::Ex(_, b) | Form::Mu(b) | Form::Lam(_, b) => {
            Ok(bounds[*b as usize].saturating_sub(1))
        }
    }
}

// The greatest of the numbers that stand for the parts.
fn most_bound(bounds: &[u64], parts: &[(Label, u64)]) -> u64
    requires { ArePartsBelow (length bounds.now) parts.now }
    ensures { result ≡ bound_parts bounds.now parts.now }
{
    let mut most = 0;
    for part in parts {
        most = bounds[part.1 as usize].max(most);
    }
    most
}
