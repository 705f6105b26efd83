// Shifts of numbered types.
ghost use Rattle.std.specs.Prelude.{◌≡◌, ◌<◌, ℕ, IfOk, length};
ghost use Rattle.omega_kinds.specs.View.{kind_tree};
ghost use Rattle.omega_types.specs.Fields.{Rises};
ghost use Rattle.omega_types.specs.Index.{bump, shift};
ghost use Rattle.omega_types.specs.Substitution.{rename_row};
ghost use Rattle.omega_types.specs.Ty.{Ty as TyTree};
ghost use Rattle.type_store.specs.Trees.{ArePartsBelow, Begins, Holds, MakesParts, at, row_at};

use crate::finding::form_copied;
use crate::node::Form;
use crate::types::Types;
use omega_kinds::{Kind, Label, Mem};
use omega_types::next_level;

impl Types {
    /// The number of a type in which `by` is added to each free index that is at least `from`. Each result is remembered, so
    /// a part that stands at several places is shifted once. `Err` is out of memory, also where an index would pass the
    /// last number.
    #[cycle(shift)]
    #[tactic(auto, using(crate::proofs::ShiftSteps::shift_steps))]
    pub fn shift(&mut self, number: u64, by: u64, from: u64) -> Result<u64, Mem>
        requires { number < length self.old }
        ensures grows { Begins self.old self.new }
        ensures number { IfOk result (λ n. Holds self.new n (shift by from (at self.old number))) }
    {
        if by == 0 || self.bound(number) <= from {
            return Ok(number);
        }
        let place = self.shift_place(number, from);
        if let Some(found) = self.known_shift(number, by, place) {
            return Ok(found);
        }
        let shifted = self.shift_parts(number, by, place)?;
        self.note_shift(number, by, place, shifted)?;
        Ok(shifted)
    }

    // An index from which a shift of a type does the same: 0 where each free index is shifted.
    #[tactic(auto, using(crate::proofs::LowSteps::low_steps))]
    fn shift_place(&self, number: u64, from: u64) -> u64
        requires { number < length self.now }
        ensures { (by : ℕ) → shift by result (at self.now number) ≡ shift by from (at self.now number) }
    {
        if self.store().low(number).least >= from {
            0
        } else {
            from
        }
    }

    // The same where it is not remembered.
    #[cycle(shift)]
    #[inline(never)]
    #[tactic(auto, using(crate::proofs::ShiftSteps::shift_steps))]
    fn shift_parts(&mut self, number: u64, by: u64, from: u64) -> Result<u64, Mem>
        requires { number < length self.old }
        ensures grows { Begins self.old self.new }
        ensures number { IfOk result (λ n. Holds self.new n (shift by from (at self.old number))) }
    {
        let form = form_copied(self.alloc(), self.form(number))?;
        match form {
            Form::Var(place) => self.shift_var(place, by, from, number),
            Form::Int | Form::Bool | Form::Text => Ok(number),
            Form::Arrow(a, b) => {
                if a == b {
                    self.shift_even(a, by, from, number)
                } else {
                    self.shift_arrow(a, b, by, from, number)
                }
            }
            Form::Apply(a, b) => self.shift_apply(a, b, by, from, number),
            Form::All(k, b) => self.shift_all(k, b, by, from, number),
            Form::Ex(k, b) => self.shift_ex(k, b, by, from, number),
            Form::Mu(b) => self.shift_mu(b, by, from, number),
            Form::Lam(k, b) => self.shift_lam(k, b, by, from, number),
            Form::Fields(parts) => self.shift_record(parts, by, from, number),
            Form::Sum(parts) => self.shift_sum(parts, by, from, number),
        }
    }

    // A variable, whose number is `whole`.
    #[inline(never)]
    #[tactic(auto, using(crate::proofs::ShiftSteps::shift_steps))]
    fn shift_var(&mut self, index: u64, by: u64, from: u64, whole: u64) -> Result<u64, Mem>
        requires within { whole < length self.old }
        requires var { at self.old whole ≡ TyTree.Var index }
        ensures grows { Begins self.old self.new }
        ensures number { IfOk result (λ n. Holds self.new n (shift by from (TyTree.Var index))) }
    {
        if index < from {
            Ok(whole)
        } else {
            self.make(Form::Var(index.checked_add(by).ok_or(Mem)?))
        }
    }

    // `(-> T T)`, whose number is `whole`, as below.
    #[cycle(shift)]
    #[inline(never)]
    #[tactic(auto, using(crate::proofs::ShiftSteps::shift_steps))]
    fn shift_arrow(&mut self, a: u64, b: u64, by: u64, from: u64, whole: u64) -> Result<u64, Mem>
        requires first { a < whole }
        requires second { b < whole }
        requires within { whole < length self.old }
        ensures grows { Begins self.old self.new }
        ensures number { IfOk result (λ n. Holds self.new n (shift by from (TyTree.Arrow (at self.old a) (at self.old b)))) }
    {
        let a = self.shift(a, by, from)?;
        let b = self.shift(b, by, from)?;
        self.make(Form::Arrow(a, b))
    }

    // `(-> T T)` with one number for both parts: it is shifted once.
    #[cycle(shift)]
    #[inline(never)]
    #[tactic(auto, using(crate::proofs::ShiftSteps::shift_steps))]
    fn shift_even(&mut self, part: u64, by: u64, from: u64, whole: u64) -> Result<u64, Mem>
        requires below { part < whole }
        requires within { whole < length self.old }
        ensures grows { Begins self.old self.new }
        ensures number { IfOk result (λ n. Holds self.new n (shift by from (TyTree.Arrow (at self.old part) (at self.old part)))) }
    {
        let part = self.shift(part, by, from)?;
        self.make(Form::Arrow(part, part))
    }

    // `(@ T T)`.
    #[cycle(shift)]
    #[inline(never)]
    #[tactic(auto, using(crate::proofs::ShiftSteps::shift_steps))]
    fn shift_apply(&mut self, a: u64, b: u64, by: u64, from: u64, whole: u64) -> Result<u64, Mem>
        requires first { a < whole }
        requires second { b < whole }
        requires within { whole < length self.old }
        ensures grows { Begins self.old self.new }
        ensures number { IfOk result (λ n. Holds self.new n (shift by from (TyTree.Apply (at self.old a) (at self.old b)))) }
    {
        let a = self.shift(a, by, from)?;
        let b = self.shift(b, by, from)?;
        self.make(Form::Apply(a, b))
    }

    // `(all K T)`.
    #[cycle(shift)]
    #[inline(never)]
    #[tactic(auto, using(crate::proofs::ShiftSteps::shift_steps))]
    fn shift_all(&mut self, kind: Kind, b: u64, by: u64, from: u64, whole: u64) -> Result<u64, Mem>
        requires below { b < whole }
        requires within { whole < length self.old }
        ensures grows { Begins self.old self.new }
        ensures number { IfOk result (λ n. Holds self.new n (shift by from (TyTree.All (kind_tree kind) (at self.old b)))) }
    {
        let b = self.shift(b, by, next_level(from)?)?;
        self.make(Form::All(kind, b))
    }

    // `(some K T)`.
    #[cycle(shift)]
    #[inline(never)]
    #[tactic(auto, using(crate::proofs::ShiftSteps::shift_steps))]
    fn shift_ex(&mut self, kind: Kind, b: u64, by: u64, from: u64, whole: u64) -> Result<u64, Mem>
        requires below { b < whole }
        requires within { whole < length self.old }
        ensures grows { Begins self.old self.new }
        ensures number { IfOk result (λ n. Holds self.new n (shift by from (TyTree.Ex (kind_tree kind) (at self.old b)))) }
    {
        let b = self.shift(b, by, next_level(from)?)?;
        self.make(Form::Ex(kind, b))
    }

    // `(lam K T)`.
    #[cycle(shift)]
    #[inline(never)]
    #[tactic(auto, using(crate::proofs::ShiftSteps::shift_steps))]
    fn shift_lam(&mut self, kind: Kind, b: u64, by: u64, from: u64, whole: u64) -> Result<u64, Mem>
        requires below { b < whole }
        requires within { whole < length self.old }
        ensures grows { Begins self.old self.new }
        ensures number { IfOk result (λ n. Holds self.new n (shift by from (TyTree.Lam (kind_tree kind) (at self.old b)))) }
    {
        let b = self.shift(b, by, next_level(from)?)?;
        self.make(Form::Lam(kind, b))
    }

    // `(mu T)`.
    #[cycle(shift)]
    #[inline(never)]
    #[tactic(auto, using(crate::proofs::ShiftSteps::shift_steps))]
    fn shift_mu(&mut self, b: u64, by: u64, from: u64, whole: u64) -> Result<u64, Mem>
        requires below { b < whole }
        requires within { whole < length self.old }
        ensures grows { Begins self.old self.new }
        ensures number { IfOk result (λ n. Holds self.new n (shift by from (TyTree.Mu (at self.old b)))) }
    {
        let b = self.shift(b, by, next_level(from)?)?;
        self.make(Form::Mu(b))
    }

    // `(rec (l T) ..)`.
    #[cycle(shift)]
    #[inline(never)]
    #[tactic(auto, using(crate::proofs::ShiftSteps::shift_steps))]
    fn shift_record(
        &mut self,
        parts: Vec<(Label, u64)>,
        by: u64,
        from: u64,
        whole: u64,
    ) -> Result<u64, Mem>
        requires below { ArePartsBelow whole parts.items }
        requires rising { Rises parts.items }
        requires within { whole < length self.old }
        ensures grows { Begins self.old self.new }
        ensures number { IfOk result (λ n. Holds self.new n (shift by from (TyTree.Fields (row_at self.old parts.items)))) }
    {
        let parts = self.shift_fields(parts.as_slice(), whole, by, from)?;
        self.make(Form::Fields(parts))
    }

    // `(sum (l T) ..)`.
    #[cycle(shift)]
    #[inline(never)]
    #[tactic(auto, using(crate::proofs::ShiftSteps::shift_steps))]
    fn shift_sum(
        &mut self,
        parts: Vec<(Label, u64)>,
        by: u64,
        from: u64,
        whole: u64,
    ) -> Result<u64, Mem>
        requires below { ArePartsBelow whole parts.items }
        requires rising { Rises parts.items }
        requires within { whole < length self.old }
        ensures grows { Begins self.old self.new }
        ensures number { IfOk result (λ n. Holds self.new n (shift by from (TyTree.Sum (row_at self.old parts.items)))) }
    {
        let parts = self.shift_fields(parts.as_slice(), whole, by, from)?;
        self.make(Form::Sum(parts))
    }

    // The parts of a record or a sum whose number is `whole`, each shifted.
    #[cycle(shift)]
    #[tactic(auto, using(crate::proofs::ShiftSteps::shift_steps))]
    fn shift_fields(
        &mut self,
        parts: &[(Label, u64)],
        whole: u64,
        by: u64,
        from: u64,
    ) -> Result<Vec<(Label, u64)>, Mem>
        requires below { ArePartsBelow whole parts.now }
        requires rising { Rises parts.now }
        requires within { whole < length self.old }
        ensures grows { Begins self.old self.new }
        ensures parts { IfOk result (λ s. MakesParts self.new s.items (rename_row (bump by from) (row_at self.old parts.now))) }
    {
        let mut shifted = Vec::with_capacity(self.alloc(), parts.len())?;
        for part in parts {
            let number = self.shift(part.1, by, from)?;
            shifted.push((part.0.share()?, number))?;
        }
        Ok(shifted)
    }
}
