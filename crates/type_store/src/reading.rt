// The trees of numbered types.
ghost use Rattle.std.specs.Prelude.{◌≡◌, ◌<◌, IfOk, length};
ghost use Rattle.omega_kinds.specs.View.{kind_tree};
ghost use Rattle.omega_types.specs.Fields.{Rises, row};
ghost use Rattle.omega_types.specs.Inner.View.{ty_of};
ghost use Rattle.omega_types.specs.Ty.{Ty as TyTree};
ghost use Rattle.type_store.specs.Trees.{ArePartsBelow, at, row_at};

use crate::node::Form;
use crate::types::Types;
use omega_kinds::{Kind, Label, Mem};
use omega_types::{Ty, TyFields, TyNode};

impl Types {
    /// The tree of a type. A part that stands at several places is made at each of them, but for an arrow from a type to that
    /// type itself, which shares it. `Err` is out of memory.
    #[cycle(tree)]
    pub fn tree(&self, number: u64) -> Result<Ty, Mem>
        requires { number < length self.now }
        ensures { IfOk result (λ t. t ≡ at self.now number) }
    {
        match self.form(number) {
            Form::Var(index) => self.tree_leaf(TyNode::Var(*index)),
            Form::Int => self.tree_leaf(TyNode::Int),
            Form::Bool => self.tree_leaf(TyNode::Bool),
            Form::Text => self.tree_leaf(TyNode::Text),
            Form::Arrow(a, b) => {
                if *a == *b {
                    self.tree_even(*a, number)
                } else {
                    self.tree_arrow(*a, *b, number)
                }
            }
            Form::Fields(parts) => self.tree_record(parts.as_slice(), number),
            Form::Sum(parts) => self.tree_sum(parts.as_slice(), number),
            Form::All(k, b) => self.tree_all(k, *b, number),
            Form::Ex(k, b) => self.tree_ex(k, *b, number),
            Form::Mu(b) => self.tree_mu(*b, number),
            Form::Lam(k, b) => self.tree_lam(k, *b, number),
            Form::Apply(f, a) => self.tree_apply(*f, *a, number),
        }
    }

    // A form without parts.
    #[inline(never)]
    fn tree_leaf(&self, node: TyNode) -> Result<Ty, Mem>
        ensures { IfOk result (λ t. t ≡ ty_of node) }
    {
        Ty::make(self.alloc(), node)
    }

    // `(-> T T)`, whose number is `whole`, as below.
    #[cycle(tree)]
    #[inline(never)]
    fn tree_arrow(&self, a: u64, b: u64, whole: u64) -> Result<Ty, Mem>
        requires first { a < whole }
        requires second { b < whole }
        requires within { whole < length self.now }
        ensures { IfOk result (λ t. t ≡ TyTree.Arrow (at self.now a) (at self.now b)) }
    {
        let a = self.tree(a)?;
        let b = self.tree(b)?;
        Ty::make(self.alloc(), TyNode::Arrow(a, b))
    }

    // `(-> T T)` with one number for both parts: its tree is made once.
    #[cycle(tree)]
    #[inline(never)]
    fn tree_even(&self, part: u64, whole: u64) -> Result<Ty, Mem>
        requires below { part < whole }
        requires within { whole < length self.now }
        ensures { IfOk result (λ t. t ≡ TyTree.Arrow (at self.now part) (at self.now part)) }
    {
        Ty::to_itself(self.alloc(), self.tree(part)?)
    }

    // `(@ T T)`.
    #[cycle(tree)]
    #[inline(never)]
    fn tree_apply(&self, a: u64, b: u64, whole: u64) -> Result<Ty, Mem>
        requires first { a < whole }
        requires second { b < whole }
        requires within { whole < length self.now }
        ensures { IfOk result (λ t. t ≡ TyTree.Apply (at self.now a) (at self.now b)) }
    {
        let a = self.tree(a)?;
        let b = self.tree(b)?;
        Ty::make(self.alloc(), TyNode::Apply(a, b))
    }

    // `(all K T)`.
    #[cycle(tree)]
    #[inline(never)]
    fn tree_all(&self, kind: &Kind, b: u64, whole: u64) -> Result<Ty, Mem>
        requires below { b < whole }
        requires within { whole < length self.now }
        ensures { IfOk result (λ t. t ≡ TyTree.All (kind_tree kind.now) (at self.now b)) }
    {
        let b = self.tree(b)?;
        Ty::make(self.alloc(), TyNode::All(kind.share()?, b))
    }

    // `(some K T)`.
    #[cycle(tree)]
    #[inline(never)]
    fn tree_ex(&self, kind: &Kind, b: u64, whole: u64) -> Result<Ty, Mem>
        requires below { b < whole }
        requires within { whole < length self.now }
        ensures { IfOk result (λ t. t ≡ TyTree.Ex (kind_tree kind.now) (at self.now b)) }
    {
        let b = self.tree(b)?;
        Ty::make(self.alloc(), TyNode::Ex(kind.share()?, b))
    }

    // `(lam K T)`.
    #[cycle(tree)]
    #[inline(never)]
    fn tree_lam(&self, kind: &Kind, b: u64, whole: u64) -> Result<Ty, Mem>
        requires below { b < whole }
        requires within { whole < length self.now }
        ensures { IfOk result (λ t. t ≡ TyTree.Lam (kind_tree kind.now) (at self.now b)) }
    {
        let b = self.tree(b)?;
        Ty::make(self.alloc(), TyNode::Lam(kind.share()?, b))
    }

    // `(mu T)`.
    #[cycle(tree)]
    #[inline(never)]
    fn tree_mu(&self, b: u64, whole: u64) -> Result<Ty, Mem>
        requires below { b < whole }
        requires within { whole < length self.now }
        ensures { IfOk result (λ t. t ≡ TyTree.Mu (at self.now b)) }
    {
        let b = self.tree(b)?;
        Ty::make(self.alloc(), TyNode::Mu(b))
    }

    // `(rec (l T) ..)`.
    #[cycle(tree)]
    #[inline(never)]
    fn tree_record(&self, parts: &[(Label, u64)], whole: u64) -> Result<Ty, Mem>
        requires below { ArePartsBelow whole parts.now }
        requires rising { Rises parts.now }
        requires within { whole < length self.now }
        ensures { IfOk result (λ t. t ≡ TyTree.Fields (row_at self.now parts.now)) }
    {
        let fields = self.tree_fields(parts, whole)?;
        Ty::make(self.alloc(), TyNode::Fields(fields))
    }

    // `(sum (l T) ..)`.
    #[cycle(tree)]
    #[inline(never)]
    fn tree_sum(&self, parts: &[(Label, u64)], whole: u64) -> Result<Ty, Mem>
        requires below { ArePartsBelow whole parts.now }
        requires rising { Rises parts.now }
        requires within { whole < length self.now }
        ensures { IfOk result (λ t. t ≡ TyTree.Sum (row_at self.now parts.now)) }
    {
        let fields = self.tree_fields(parts, whole)?;
        Ty::make(self.alloc(), TyNode::Sum(fields))
    }

    // The fields of a record or a sum whose number is `whole`.
    #[cycle(tree)]
    #[tactic(auto, using(crate::proofs::PartSteps::part_steps))]
    fn tree_fields(&self, parts: &[(Label, u64)], whole: u64) -> Result<TyFields, Mem>
        requires below { ArePartsBelow whole parts.now }
        requires rising { Rises parts.now }
        requires within { whole < length self.now }
        ensures { IfOk result (λ f. row f ≡ row_at self.now parts.now) }
    {
        let mut fields = TyFields::with_capacity(self.alloc(), parts.len())?;
        for part in parts {
            let ty = self.tree(part.1)?;
            fields.push((part.0.share()?, ty))?;
        }
        Ok(fields)
    }
}
