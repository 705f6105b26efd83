// Hereditary substitution of numbered types.
ghost use Rattle.std.specs.Prelude.{◌≡◌, ◌<◌, ◌≤◌, zero, IfOk, length};
ghost use Rattle.omega_kinds.specs.View.{kind_tree};
ghost use Rattle.omega_types.specs.Inner.Bound.{bound_of};
ghost use Rattle.omega_types.specs.Fields.{Rises};
ghost use Rattle.omega_types.specs.Normaliser.{hsubst};
ghost use Rattle.omega_types.specs.Ty.{Ty as TyTree};
ghost use Rattle.type_store.specs.Inner.Memo.{filled, filled_row};
ghost use Rattle.type_store.specs.Trees.{ArePartsBelow, Begins, Holds, MakesParts, at, row_at};

use crate::finding::form_copied;
use crate::node::Form;
use crate::types::Types;
use omega_kinds::{Kind, Label, Mem};
use omega_types::next_level;
use type_normal::{as_normal, hsubst};

impl Types {
    /// The number of the normal form of a binder's body with a type of the binder's kind put in for its variable.
    /// `Err` is out of memory, also where an index would pass the last number.
    ///
    /// Keller and Altenkirch, "Hereditary substitutions for simple types, formalized" (2010).
    #[tactic(auto, using(crate::proofs::FillSteps::fill_steps))]
    pub fn fill(&mut self, body: u64, arg: u64, kind: &Kind) -> Result<u64, Mem>
        requires body { body < length self.old }
        requires arg { arg < length self.old }
        ensures grows { Begins self.old self.new }
        ensures number { IfOk result (λ n. Holds self.new n (hsubst (kind_tree kind.now) zero (at self.old arg) (at self.old body))) }
    {
        match kind {
            Kind::Star => self.put_in(body, 0, arg),
            Kind::Arrow(..) => self.fill_tree(body, arg, kind),
        }
    }

    // The same by the trees of both types: an operator that comes in meets its arguments there.
    fn fill_tree(&mut self, body: u64, arg: u64, kind: &Kind) -> Result<u64, Mem>
        requires body { body < length self.old }
        requires arg { arg < length self.old }
        ensures grows { Begins self.old self.new }
        ensures number { IfOk result (λ n. Holds self.new n (hsubst (kind_tree kind.now) zero (at self.old arg) (at self.old body))) }
    {
        let body = as_normal(self.tree(body)?);
        let arg = as_normal(self.tree(arg)?);
        let whole = hsubst(self.alloc(), &body, 0, &arg, kind)?;
        self.put(&whole)
    }

    // The number of a type with a type of kind * put in for a variable, below as many binders as the variable's index says.
    // Each result is remembered, so a part that stands at several places is filled once.
    #[cycle(put_in)]
    #[tactic(auto, using(crate::proofs::FillSteps::fill_steps))]
    pub(crate) fn put_in(&mut self, body: u64, index: u64, arg: u64) -> Result<u64, Mem>
        requires body { body < length self.old }
        requires arg { arg < length self.old }
        ensures grows { Begins self.old self.new }
        ensures number { IfOk result (λ n. Holds self.new n (filled index (at self.old arg) (at self.old body))) }
    {
        if self.bound(body) <= index {
            return Ok(body);
        }
        let place = self.fill_place(body, index);
        if let Some(found) = self.known_filled(body, place, arg) {
            return Ok(found);
        }
        let filled = self.put_in_parts(body, place, arg)?;
        self.note_filled(body, place, arg, filled)?;
        Ok(filled)
    }

    // An index for which a substitution in a type does the same: 0 where each free index is greater.
    #[tactic(auto, using(crate::proofs::LowSteps::low_steps))]
    fn fill_place(&self, body: u64, index: u64) -> u64
        requires { body < length self.now }
        ensures within { result ≤ index }
        ensures same { (arg : TyTree) → filled result arg (at self.now body) ≡ filled index arg (at self.now body) }
    {
        if self.store().low(body).least > index {
            0
        } else {
            index
        }
    }

    // The same where it is not remembered, and a variable that is changed is free.
    #[cycle(put_in)]
    #[inline(never)]
    #[tactic(auto, using(crate::proofs::FillSteps::fill_steps))]
    fn put_in_parts(&mut self, body: u64, index: u64, arg: u64) -> Result<u64, Mem>
        requires body { body < length self.old }
        requires arg { arg < length self.old }
        requires free { index < bound_of (at self.old body) }
        ensures grows { Begins self.old self.new }
        ensures number { IfOk result (λ n. Holds self.new n (filled index (at self.old arg) (at self.old body))) }
    {
        let form = form_copied(self.alloc(), self.form(body))?;
        match form {
            Form::Var(place) => self.put_var(place, index, arg),
            Form::Int | Form::Bool | Form::Text => Ok(body),
            Form::Arrow(a, b) => {
                if a == b {
                    self.put_in_even(a, index, arg, body)
                } else {
                    self.put_in_arrow(a, b, index, arg, body)
                }
            }
            Form::Apply(a, b) => self.put_in_apply(a, b, index, arg, body),
            Form::All(k, b) => self.put_in_all(k, b, index, arg, body),
            Form::Ex(k, b) => self.put_in_ex(k, b, index, arg, body),
            Form::Mu(b) => self.put_in_mu(b, index, arg, body),
            Form::Lam(k, b) => self.put_in_lam(k, b, index, arg, body),
            Form::Fields(parts) => self.put_in_record(parts, index, arg, body),
            Form::Sum(parts) => self.put_in_sum(parts, index, arg, body),
        }
    }

    // The argument for the variable, and a greater one lowered.
    #[inline(never)]
    #[tactic(auto, using(crate::proofs::FillSteps::var_steps))]
    fn put_var(&mut self, place: u64, index: u64, arg: u64) -> Result<u64, Mem>
        requires place { index ≤ place }
        requires arg { arg < length self.old }
        ensures grows { Begins self.old self.new }
        ensures number { IfOk result (λ n. Holds self.new n (filled index (at self.old arg) (TyTree.Var place))) }
    {
        if place == index {
            self.shift(arg, index, 0)
        } else {
            self.make(Form::Var(place - 1))
        }
    }

    // `(-> T T)`, whose number is `whole`, as below.
    #[cycle(put_in)]
    #[inline(never)]
    #[tactic(auto, using(crate::proofs::FillSteps::fill_steps))]
    fn put_in_arrow(&mut self, a: u64, b: u64, index: u64, arg: u64, whole: u64) -> Result<u64, Mem>
        requires first { a < whole }
        requires second { b < whole }
        requires within { whole < length self.old }
        requires arg { arg < length self.old }
        ensures grows { Begins self.old self.new }
        ensures number { IfOk result (λ n. Holds self.new n (filled index (at self.old arg) (TyTree.Arrow (at self.old a) (at self.old b)))) }
    {
        let a = self.put_in(a, index, arg)?;
        let b = self.put_in(b, index, arg)?;
        self.make(Form::Arrow(a, b))
    }

    // `(-> T T)` with one number for both parts: it is filled once.
    #[cycle(put_in)]
    #[inline(never)]
    #[tactic(auto, using(crate::proofs::FillSteps::fill_steps))]
    fn put_in_even(&mut self, part: u64, index: u64, arg: u64, whole: u64) -> Result<u64, Mem>
        requires below { part < whole }
        requires within { whole < length self.old }
        requires arg { arg < length self.old }
        ensures grows { Begins self.old self.new }
        ensures number { IfOk result (λ n. Holds self.new n (filled index (at self.old arg) (TyTree.Arrow (at self.old part) (at self.old part)))) }
    {
        let part = self.put_in(part, index, arg)?;
        self.make(Form::Arrow(part, part))
    }

    // `(@ T T)`.
    #[cycle(put_in)]
    #[inline(never)]
    #[tactic(auto, using(crate::proofs::FillSteps::fill_steps))]
    fn put_in_apply(&mut self, a: u64, b: u64, index: u64, arg: u64, whole: u64) -> Result<u64, Mem>
        requires first { a < whole }
        requires second { b < whole }
        requires within { whole < length self.old }
        requires arg { arg < length self.old }
        ensures grows { Begins self.old self.new }
        ensures number { IfOk result (λ n. Holds self.new n (filled index (at self.old arg) (TyTree.Apply (at self.old a) (at self.old b)))) }
    {
        let a = self.put_in(a, index, arg)?;
        let b = self.put_in(b, index, arg)?;
        self.make(Form::Apply(a, b))
    }

    // `(all K T)`.
    #[cycle(put_in)]
    #[inline(never)]
    #[tactic(auto, using(crate::proofs::FillSteps::fill_steps))]
    fn put_in_all(
        &mut self,
        kind: Kind,
        b: u64,
        index: u64,
        arg: u64,
        whole: u64,
    ) -> Result<u64, Mem>
        requires below { b < whole }
        requires within { whole < length self.old }
        requires arg { arg < length self.old }
        ensures grows { Begins self.old self.new }
        ensures number { IfOk result (λ n. Holds self.new n (filled index (at self.old arg) (TyTree.All (kind_tree kind) (at self.old b)))) }
    {
        let b = self.put_in(b, next_level(index)?, arg)?;
        self.make(Form::All(kind, b))
    }

    // `(some K T)`.
    #[cycle(put_in)]
    #[inline(never)]
    #[tactic(auto, using(crate::proofs::FillSteps::fill_steps))]
    fn put_in_ex(
        &mut self,
        kind: Kind,
        b: u64,
        index: u64,
        arg: u64,
        whole: u64,
    ) -> Result<u64, Mem>
        requires below { b < whole }
        requires within { whole < length self.old }
        requires arg { arg < length self.old }
        ensures grows { Begins self.old self.new }
        ensures number { IfOk result (λ n. Holds self.new n (filled index (at self.old arg) (TyTree.Ex (kind_tree kind) (at self.old b)))) }
    {
        let b = self.put_in(b, next_level(index)?, arg)?;
        self.make(Form::Ex(kind, b))
    }

    // `(lam K T)`.
    #[cycle(put_in)]
    #[inline(never)]
    #[tactic(auto, using(crate::proofs::FillSteps::fill_steps))]
    fn put_in_lam(
        &mut self,
        kind: Kind,
        b: u64,
        index: u64,
        arg: u64,
        whole: u64,
    ) -> Result<u64, Mem>
        requires below { b < whole }
        requires within { whole < length self.old }
        requires arg { arg < length self.old }
        ensures grows { Begins self.old self.new }
        ensures number { IfOk result (λ n. Holds self.new n (filled index (at self.old arg) (TyTree.Lam (kind_tree kind) (at self.old b)))) }
    {
        let b = self.put_in(b, next_level(index)?, arg)?;
        self.make(Form::Lam(kind, b))
    }

    // `(mu T)`.
    #[cycle(put_in)]
    #[inline(never)]
    #[tactic(auto, using(crate::proofs::FillSteps::fill_steps))]
    fn put_in_mu(&mut self, b: u64, index: u64, arg: u64, whole: u64) -> Result<u64, Mem>
        requires below { b < whole }
        requires within { whole < length self.old }
        requires arg { arg < length self.old }
        ensures grows { Begins self.old self.new }
        ensures number { IfOk result (λ n. Holds self.new n (filled index (at self.old arg) (TyTree.Mu (at self.old b)))) }
    {
        let b = self.put_in(b, next_level(index)?, arg)?;
        self.make(Form::Mu(b))
    }

    // `(rec (l T) ..)`.
    #[cycle(put_in)]
    #[inline(never)]
    #[tactic(auto, using(crate::proofs::FillSteps::fill_steps))]
    fn put_in_record(
        &mut self,
        parts: Vec<(Label, u64)>,
        index: u64,
        arg: u64,
        whole: u64,
    ) -> Result<u64, Mem>
        requires below { ArePartsBelow whole parts.items }
        requires rising { Rises parts.items }
        requires within { whole < length self.old }
        requires arg { arg < length self.old }
        ensures grows { Begins self.old self.new }
        ensures number { IfOk result (λ n. Holds self.new n (filled index (at self.old arg) (TyTree.Fields (row_at self.old parts.items)))) }
    {
        let parts = self.put_in_fields(parts.as_slice(), whole, index, arg)?;
        self.make(Form::Fields(parts))
    }

    // `(sum (l T) ..)`.
    #[cycle(put_in)]
    #[inline(never)]
    #[tactic(auto, using(crate::proofs::FillSteps::fill_steps))]
    fn put_in_sum(
        &mut self,
        parts: Vec<(Label, u64)>,
        index: u64,
        arg: u64,
        whole: u64,
    ) -> Result<u64, Mem>
        requires below { ArePartsBelow whole parts.items }
        requires rising { Rises parts.items }
        requires within { whole < length self.old }
        requires arg { arg < length self.old }
        ensures grows { Begins self.old self.new }
        ensures number { IfOk result (λ n. Holds self.new n (filled index (at self.old arg) (TyTree.Sum (row_at self.old parts.items)))) }
    {
        let parts = self.put_in_fields(parts.as_slice(), whole, index, arg)?;
        self.make(Form::Sum(parts))
    }

    // The parts of a record or a sum whose number is `whole`, each filled.
    #[cycle(put_in)]
    #[tactic(auto, using(crate::proofs::FillSteps::fill_steps))]
    fn put_in_fields(
        &mut self,
        parts: &[(Label, u64)],
        whole: u64,
        index: u64,
        arg: u64,
    ) -> Result<Vec<(Label, u64)>, Mem>
        requires below { ArePartsBelow whole parts.now }
        requires rising { Rises parts.now }
        requires within { whole < length self.old }
        requires arg { arg < length self.old }
        ensures grows { Begins self.old self.new }
        ensures parts { IfOk result (λ s. MakesParts self.new s.items (filled_row index (at self.old arg) (row_at self.old parts.now))) }
    {
        let mut filled = Vec::with_capacity(self.alloc(), parts.len())?;
        for part in parts {
            let number = self.put_in(part.1, index, arg)?;
            filled.push((part.0.share()?, number))?;
        }
        Ok(filled)
    }
}
