// Whether a numbered type is another one with a type put in, or shifted, found without making that type.
ghost use Rattle.std.specs.Prelude.{◌≡◌, ◌↔◌, ◌<◌, ◌≤◌, IsTrue, length};
ghost use Rattle.omega_types.specs.Index.{bump, shift};
ghost use Rattle.omega_types.specs.Substitution.{rename_row};
ghost use Rattle.omega_types.specs.Ty.{Ty as TyTree};
ghost use Rattle.type_store.specs.Inner.Memo.{filled, filled_row};
ghost use Rattle.type_store.specs.Inner.View.{shape_of};
ghost use Rattle.type_store.specs.Trees.{ArePartsBelow, at, row_at, tree_at};

use crate::node::Form;
use crate::types::Types;
use omega_kinds::{Label, same_kind, same_label};

impl Types {
    /// Whether the type at `whole` is the one at `body` with the type at `arg`, of kind `*`, put in for the variable of an
    /// index, below as many binders as the index says. Takes no memory.
    #[cycle(is_filled)]
    #[tactic(auto, using(crate::proofs::CheckSteps::filled_steps))]
    pub fn is_filled(&self, body: u64, index: u64, arg: u64, whole: u64) -> bool
        requires body { body < length self.now }
        requires arg { arg < length self.now }
        requires whole { whole < length self.now }
        ensures { IsTrue result ↔ filled index (at self.now arg) (at self.now body) ≡ at self.now whole }
    {
        if self.bound(body) <= index {
            return self.same(body, whole);
        }
        if index == 0 && self.is_raised(whole, body) {
            return true;
        }
        match (self.form(body), self.form(whole)) {
            (Form::Int, _) | (Form::Bool, _) | (Form::Text, _) => false,
            (Form::Var(place), form) => self.is_var_filled(*place, index, arg, whole, form),
            (Form::Arrow(a, b), Form::Arrow(c, d)) => {
                let is_once = *a == *b && *c == *d;
                self.is_filled(*a, index, arg, *c)
                    && (is_once || self.is_filled(*b, index, arg, *d))
            }
            (Form::Apply(a, b), Form::Apply(c, d)) => {
                self.is_filled(*a, index, arg, *c) && self.is_filled(*b, index, arg, *d)
            }
            (Form::Fields(p), Form::Fields(q)) => {
                self.are_filled(p.as_slice(), body, index, arg, q.as_slice())
            }
            (Form::Sum(p), Form::Sum(q)) => {
                self.are_filled(p.as_slice(), body, index, arg, q.as_slice())
            }
            (Form::All(j, a), Form::All(k, b)) => {
                same_kind(j, k) && self.is_filled(*a, index + 1, arg, *b)
            }
            (Form::Ex(j, a), Form::Ex(k, b)) => {
                same_kind(j, k) && self.is_filled(*a, index + 1, arg, *b)
            }
            (Form::Mu(a), Form::Mu(b)) => self.is_filled(*a, index + 1, arg, *b),
            (Form::Lam(j, a), Form::Lam(k, b)) => {
                same_kind(j, k) && self.is_filled(*a, index + 1, arg, *b)
            }
            _ => false,
        }
    }

    // Whether it is remembered that a type is another one with each free index raised by one. Takes one step.
    fn is_raised(&self, number: u64, raised: u64) -> bool
        requires { number < length self.now }
        ensures { IsTrue result → at self.now raised ≡ shift 1 0 (at self.now number) }
    {
        match self.known_shift(number, 1, 0) {
            Some(found) => found == raised,
            None => false,
        }
    }

    // The same where the body is a variable that is changed.
    #[tactic(auto, using(crate::proofs::CheckSteps::filled_steps))]
    fn is_var_filled(&self, place: u64, index: u64, arg: u64, whole: u64, form: &Form) -> bool
        requires place { index ≤ place }
        requires arg { arg < length self.now }
        requires whole { whole < length self.now }
        requires form { tree_at self.now (shape_of form.now) ≡ at self.now whole }
        ensures { IsTrue result ↔ filled index (at self.now arg) (TyTree.Var place) ≡ at self.now whole }
    {
        if place == index {
            return self.is_shifted(arg, index, 0, whole);
        }
        match form {
            Form::Var(other) => *other == place - 1,
            _ => false,
        }
    }

    // The same for the parts of a record or a sum whose number is `top`.
    #[cycle(is_filled)]
    #[tactic(auto, using(crate::proofs::CheckSteps::filled_steps))]
    fn are_filled(
        &self,
        parts: &[(Label, u64)],
        top: u64,
        index: u64,
        arg: u64,
        wholes: &[(Label, u64)],
    ) -> bool
        requires below { ArePartsBelow top parts.now }
        requires top { top < length self.now }
        requires arg { arg < length self.now }
        requires wholes { ArePartsBelow (length self.now) wholes.now }
        ensures { IsTrue result ↔ filled_row index (at self.now arg) (row_at self.now parts.now) ≡ row_at self.now wholes.now }
    {
        if parts.len() != wholes.len() {
            return false;
        }
        for i in 0..parts.len() {
            let part = &parts[i];
            let whole = &wholes[i];
            if !self.is_filled(part.1, index, arg, whole.1) {
                return false;
            }
            if !same_label(&part.0, &whole.0) {
                return false;
            }
        }
        true
    }

    /// Whether the type at `whole` is the one at a number with `by` added to each free index that is at least `from`. Takes
    /// no memory.
    #[cycle(is_shifted)]
    #[tactic(auto, using(crate::proofs::CheckSteps::shifted_steps))]
    pub fn is_shifted(&self, number: u64, by: u64, from: u64, whole: u64) -> bool
        requires number { number < length self.now }
        requires whole { whole < length self.now }
        ensures { IsTrue result ↔ shift by from (at self.now number) ≡ at self.now whole }
    {
        if by == 0 || self.bound(number) <= from {
            return self.same(number, whole);
        }
        match (self.form(number), self.form(whole)) {
            (Form::Var(i), Form::Var(j)) => is_var_shifted(*i, by, from, *j),
            (Form::Arrow(a, b), Form::Arrow(c, d)) => {
                let is_once = *a == *b && *c == *d;
                self.is_shifted(*a, by, from, *c) && (is_once || self.is_shifted(*b, by, from, *d))
            }
            (Form::Apply(a, b), Form::Apply(c, d)) => {
                self.is_shifted(*a, by, from, *c) && self.is_shifted(*b, by, from, *d)
            }
            (Form::Fields(p), Form::Fields(q)) => {
                self.are_shifted(p.as_slice(), number, by, from, q.as_slice())
            }
            (Form::Sum(p), Form::Sum(q)) => {
                self.are_shifted(p.as_slice(), number, by, from, q.as_slice())
            }
            (Form::All(j, a), Form::All(k, b)) => {
                same_kind(j, k) && self.is_shifted(*a, by, from + 1, *b)
            }
            (Form::Ex(j, a), Form::Ex(k, b)) => {
                same_kind(j, k) && self.is_shifted(*a, by, from + 1, *b)
            }
            (Form::Mu(a), Form::Mu(b)) => self.is_shifted(*a, by, from + 1, *b),
            (Form::Lam(j, a), Form::Lam(k, b)) => {
                same_kind(j, k) && self.is_shifted(*a, by, from + 1, *b)
            }
            _ => false,
        }
    }

    // The same for the parts of a record or a sum whose number is `top`.
    #[cycle(is_shifted)]
    #[tactic(auto, using(crate::proofs::CheckSteps::shifted_steps))]
    fn are_shifted(
        &self,
        parts: &[(Label, u64)],
        top: u64,
        by: u64,
        from: u64,
        wholes: &[(Label, u64)],
    ) -> bool
        requires below { ArePartsBelow top parts.now }
        requires top { top < length self.now }
        requires wholes { ArePartsBelow (length self.now) wholes.now }
        ensures { IsTrue result ↔ rename_row (bump by from) (row_at self.now parts.now) ≡ row_at self.now wholes.now }
    {
        if parts.len() != wholes.len() {
            return false;
        }
        for i in 0..parts.len() {
            let part = &parts[i];
            let whole = &wholes[i];
            if !self.is_shifted(part.1, by, from, whole.1) {
                return false;
            }
            if !same_label(&part.0, &whole.0) {
                return false;
            }
        }
        true
    }
}

// Whether an index is another one with `by` added where that is at least `from`.
#[tactic(auto, using(crate::proofs::CheckSteps::shifted_steps))]
fn is_var_shifted(index: u64, by: u64, from: u64, whole: u64) -> bool
    ensures { IsTrue result ↔ shift by from (TyTree.Var index) ≡ TyTree.Var whole }
{
    if index < from {
        index == whole
    } else {
        whole >= by && whole - by == index
    }
}
