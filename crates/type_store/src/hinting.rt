// Types put where one is expected.
ghost use Rattle.std.specs.Prelude.{◌≡◌, ◌<◌, IfOk, IfSome, IsTrue, Some, length};
ghost use Rattle.omega_kinds.specs.View.{kind_tree};
ghost use Rattle.omega_types.specs.Fields.{row};
ghost use Rattle.omega_types.specs.Ty.{Ty as TyTree};
ghost use Rattle.type_store.specs.Inner.Places.{HasPart, IsAlike, field_at, fields_of};
ghost use Rattle.type_store.specs.Trees.{ArePartsBelow, Begins, Holds, MakesParts, at, row_at};

use crate::node::Form;
use crate::types::Types;
use omega_kinds::{Kind, Label, Mem, same_kind, same_label};
use omega_types::{Ty, TyFields, TyNode};
use type_normal::{NormalTy, plain};

/// How many of the first fields are the parts of the expected type, and the number of the type of the next field, where
/// there is one.
#[derive(Clone, Copy)]
pub(crate) struct Alike {
    count: usize,
    next: u64,
}

impl Types {
    /// The number of a type that is likely to be the one at `hint`: no part that is as there is made or hashed. `Err` is out
    /// of memory.
    #[tactic(auto, using(crate::proofs::HintSteps::hint_steps))]
    pub fn put_like(&mut self, ty: &NormalTy, hint: u64) -> Result<u64, Mem>
        requires { hint < length self.old }
        ensures grows { Begins self.old self.new }
        ensures number { IfOk result (λ n. Holds self.new n ty.now) }
    {
        self.like(plain(ty), hint)
    }

    // The same, by one walk over the tree and the type at `hint` beside it: each part is put like the part that stands at its
    // place there. Where the type at `hint` has another outermost form, its parts say nothing.
    #[cycle(like)]
    #[tactic(auto, using(crate::proofs::HintSteps::hint_steps))]
    fn like(&mut self, ty: &Ty, hint: u64) -> Result<u64, Mem>
        requires { hint < length self.old }
        ensures grows { Begins self.old self.new }
        ensures number { IfOk result (λ n. Holds self.new n ty.now) }
    {
        let small = ty.extent().size / 4;
        match (self.form(hint), ty.node()) {
            (Form::Var(i), TyNode::Var(j)) => {
                let same = *i == *j;
                self.like_var(*j, same, hint)
            }
            (Form::Int, TyNode::Int) => Ok(hint),
            (Form::Bool, TyNode::Bool) => Ok(hint),
            (Form::Text, TyNode::Text) => Ok(hint),
            (Form::Arrow(a, b), TyNode::Arrow(from, to)) => {
                let a = *a;
                let b = *b;
                match ty.both_sides() {
                    Some(part) => self.like_even(part, a, b, hint),
                    None => self.like_arrow(from, to, a, b, hint),
                }
            }
            (Form::Fields(_), TyNode::Fields(fields)) => self.like_record(fields, small, hint),
            (Form::Sum(_), TyNode::Sum(fields)) => self.like_sum(fields, small, hint),
            (Form::All(k, b), TyNode::All(kind, body)) => {
                let same = same_kind(k, kind);
                let b = *b;
                self.like_all(kind, body, b, same, hint)
            }
            (Form::Ex(k, b), TyNode::Ex(kind, body)) => {
                let same = same_kind(k, kind);
                let b = *b;
                self.like_ex(kind, body, b, same, hint)
            }
            (Form::Mu(b), TyNode::Mu(body)) => {
                let b = *b;
                self.like_mu(body, b, hint)
            }
            (Form::Lam(k, b), TyNode::Lam(kind, body)) => {
                let same = same_kind(k, kind);
                let b = *b;
                self.like_lam(kind, body, b, same, hint)
            }
            (Form::Apply(a, b), TyNode::Apply(operator, arg)) => {
                let a = *a;
                let b = *b;
                self.like_apply(operator, arg, a, b, hint)
            }
            _ => self.unlike(ty),
        }
    }

    // The number of a type of which nothing is known.
    #[inline(never)]
    #[tactic(auto, using(crate::proofs::HintSteps::hint_steps))]
    fn unlike(&mut self, ty: &Ty) -> Result<u64, Mem>
        ensures grows { Begins self.old self.new }
        ensures number { IfOk result (λ n. Holds self.new n ty.now) }
    {
        let form = self.put_parts(ty)?;
        self.make(form)
    }

    // A variable: the one at `hint`, or another one.
    #[inline(never)]
    #[tactic(auto, using(crate::proofs::HintSteps::hint_steps))]
    fn like_var(&mut self, index: u64, same: bool, hint: u64) -> Result<u64, Mem>
        requires hint { hint < length self.old }
        requires same { IsTrue same → at self.old hint ≡ TyTree.Var index }
        ensures grows { Begins self.old self.new }
        ensures number { IfOk result (λ n. Holds self.new n (TyTree.Var index)) }
    {
        if same {
            Ok(hint)
        } else {
            self.make(Form::Var(index))
        }
    }

    // `(-> T T)`.
    #[cycle(like)]
    #[inline(never)]
    #[tactic(auto, using(crate::proofs::HintSteps::hint_steps))]
    fn like_arrow(&mut self, from: &Ty, to: &Ty, a: u64, b: u64, hint: u64) -> Result<u64, Mem>
        requires first { a < length self.old }
        requires second { b < length self.old }
        requires hint { hint < length self.old }
        requires whole { at self.old hint ≡ TyTree.Arrow (at self.old a) (at self.old b) }
        ensures grows { Begins self.old self.new }
        ensures number { IfOk result (λ n. Holds self.new n (TyTree.Arrow from.now to.now)) }
    {
        let from = self.like(from, a)?;
        let to = self.like(to, b)?;
        if from == a && to == b {
            return Ok(hint);
        }
        self.make(Form::Arrow(from, to))
    }

    // `(-> T T)`, whose two parts are one tree: it is put once.
    #[cycle(like)]
    #[inline(never)]
    #[tactic(auto, using(crate::proofs::HintSteps::hint_steps))]
    fn like_even(&mut self, part: &Ty, a: u64, b: u64, hint: u64) -> Result<u64, Mem>
        requires first { a < length self.old }
        requires second { b < length self.old }
        requires hint { hint < length self.old }
        requires whole { at self.old hint ≡ TyTree.Arrow (at self.old a) (at self.old b) }
        ensures grows { Begins self.old self.new }
        ensures number { IfOk result (λ n. Holds self.new n (TyTree.Arrow part.now part.now)) }
    {
        let part = self.like(part, a)?;
        if part == a && part == b {
            return Ok(hint);
        }
        self.make(Form::Arrow(part, part))
    }

    // `(@ T T)`.
    #[cycle(like)]
    #[inline(never)]
    #[tactic(auto, using(crate::proofs::HintSteps::hint_steps))]
    fn like_apply(&mut self, operator: &Ty, arg: &Ty, a: u64, b: u64, hint: u64) -> Result<u64, Mem>
        requires first { a < length self.old }
        requires second { b < length self.old }
        requires hint { hint < length self.old }
        requires whole { at self.old hint ≡ TyTree.Apply (at self.old a) (at self.old b) }
        ensures grows { Begins self.old self.new }
        ensures number { IfOk result (λ n. Holds self.new n (TyTree.Apply operator.now arg.now)) }
    {
        let operator = self.like(operator, a)?;
        let arg = self.like(arg, b)?;
        if operator == a && arg == b {
            return Ok(hint);
        }
        self.make(Form::Apply(operator, arg))
    }

    // `(all K T)`.
    #[cycle(like)]
    #[inline(never)]
    #[tactic(auto, using(crate::proofs::HintSteps::hint_steps))]
    fn like_all(
        &mut self,
        kind: &Kind,
        body: &Ty,
        b: u64,
        same: bool,
        hint: u64,
    ) -> Result<u64, Mem>
        requires body { b < length self.old }
        requires hint { hint < length self.old }
        requires same { IsTrue same → at self.old hint ≡ TyTree.All (kind_tree kind.now) (at self.old b) }
        ensures grows { Begins self.old self.new }
        ensures number { IfOk result (λ n. Holds self.new n (TyTree.All (kind_tree kind.now) body.now)) }
    {
        let body = self.like(body, b)?;
        if same && body == b {
            return Ok(hint);
        }
        self.make(Form::All(kind.share()?, body))
    }

    // `(some K T)`.
    #[cycle(like)]
    #[inline(never)]
    #[tactic(auto, using(crate::proofs::HintSteps::hint_steps))]
    fn like_ex(&mut self, kind: &Kind, body: &Ty, b: u64, same: bool, hint: u64) -> Result<u64, Mem>
        requires body { b < length self.old }
        requires hint { hint < length self.old }
        requires same { IsTrue same → at self.old hint ≡ TyTree.Ex (kind_tree kind.now) (at self.old b) }
        ensures grows { Begins self.old self.new }
        ensures number { IfOk result (λ n. Holds self.new n (TyTree.Ex (kind_tree kind.now) body.now)) }
    {
        let body = self.like(body, b)?;
        if same && body == b {
            return Ok(hint);
        }
        self.make(Form::Ex(kind.share()?, body))
    }

    // `(lam K T)`.
    #[cycle(like)]
    #[inline(never)]
    #[tactic(auto, using(crate::proofs::HintSteps::hint_steps))]
    fn like_lam(
        &mut self,
        kind: &Kind,
        body: &Ty,
        b: u64,
        same: bool,
        hint: u64,
    ) -> Result<u64, Mem>
        requires body { b < length self.old }
        requires hint { hint < length self.old }
        requires same { IsTrue same → at self.old hint ≡ TyTree.Lam (kind_tree kind.now) (at self.old b) }
        ensures grows { Begins self.old self.new }
        ensures number { IfOk result (λ n. Holds self.new n (TyTree.Lam (kind_tree kind.now) body.now)) }
    {
        let body = self.like(body, b)?;
        if same && body == b {
            return Ok(hint);
        }
        self.make(Form::Lam(kind.share()?, body))
    }

    // `(mu T)`.
    #[cycle(like)]
    #[inline(never)]
    #[tactic(auto, using(crate::proofs::HintSteps::hint_steps))]
    fn like_mu(&mut self, body: &Ty, b: u64, hint: u64) -> Result<u64, Mem>
        requires body { b < length self.old }
        requires hint { hint < length self.old }
        requires whole { at self.old hint ≡ TyTree.Mu (at self.old b) }
        ensures grows { Begins self.old self.new }
        ensures number { IfOk result (λ n. Holds self.new n (TyTree.Mu body.now)) }
    {
        let body = self.like(body, b)?;
        if body == b {
            return Ok(hint);
        }
        self.make(Form::Mu(body))
    }

    // `(rec (l T) ..)`.
    #[cycle(like)]
    #[inline(never)]
    #[tactic(auto, using(crate::proofs::HintSteps::hint_steps))]
    fn like_record(&mut self, fields: &TyFields, small: u32, hint: u64) -> Result<u64, Mem>
        requires hint { hint < length self.old }
        requires whole { at self.old hint ≡ TyTree.Fields (fields_of (at self.old hint)) }
        ensures grows { Begins self.old self.new }
        ensures number { IfOk result (λ n. Holds self.new n (TyTree.Fields (row fields.now))) }
    {
        let alike = self.alike(fields, small, hint)?;
        if self.is_whole(fields, hint, alike) {
            return Ok(hint);
        }
        let parts = self.like_rest(fields, small, hint, alike)?;
        self.make(Form::Fields(parts))
    }

    // `(sum (l T) ..)`.
    #[cycle(like)]
    #[inline(never)]
    #[tactic(auto, using(crate::proofs::HintSteps::hint_steps))]
    fn like_sum(&mut self, fields: &TyFields, small: u32, hint: u64) -> Result<u64, Mem>
        requires hint { hint < length self.old }
        requires whole { at self.old hint ≡ TyTree.Sum (fields_of (at self.old hint)) }
        ensures grows { Begins self.old self.new }
        ensures number { IfOk result (λ n. Holds self.new n (TyTree.Sum (row fields.now))) }
    {
        let alike = self.alike(fields, small, hint)?;
        if self.is_whole(fields, hint, alike) {
            return Ok(hint);
        }
        let parts = self.like_rest(fields, small, hint, alike)?;
        self.make(Form::Sum(parts))
    }

    // How many of the first fields are parts of the type at `hint`.
    #[cycle(like)]
    #[tactic(auto, using(crate::proofs::HintSteps::hint_steps))]
    fn alike(&mut self, fields: &TyFields, small: u32, hint: u64) -> Result<Alike, Mem>
        requires { hint < length self.old }
        ensures grows { Begins self.old self.new }
        ensures alike { IfOk result (λ a. IsAlike self.new hint fields.now a) }
    {
        let items = fields.items();
        for i in 0..items.len() {
            let field = &items[i];
            let Some(part) = self.part_named(hint, i, &field.0) else {
                let next = self.unlike(&field.1)?;
                return Ok(Alike { count: i, next });
            };
            let next = self.like_part(&field.1, small, part)?;
            if next != part {
                return Ok(Alike { count: i, next });
            }
        }
        Ok(Alike {
            count: items.len(),
            next: hint,
        })
    }

    // Whether the type at `hint` has these fields and no others. Takes no memory.
    #[tactic(auto, using(crate::proofs::HintSteps::hint_steps))]
    fn is_whole(&self, fields: &TyFields, hint: u64, alike: Alike) -> bool
        requires hint { hint < length self.now }
        requires alike { IsAlike self.now hint fields.now alike }
        ensures { IsTrue result → fields_of (at self.now hint) ≡ row fields.now }
    {
        let count = fields.items().len();
        alike.count == count && self.parts(hint).len() == count
    }

    // The labels of a record or a sum with the numbers of its parts, of which the first ones are known.
    #[cycle(like)]
    #[tactic(auto, using(crate::proofs::HintSteps::hint_steps))]
    fn like_rest(
        &mut self,
        fields: &TyFields,
        small: u32,
        hint: u64,
        alike: Alike,
    ) -> Result<Vec<(Label, u64)>, Mem>
        requires hint { hint < length self.old }
        requires alike { IsAlike self.old hint fields.now alike }
        ensures grows { Begins self.old self.new }
        ensures parts { IfOk result (λ parts. MakesParts self.new parts.items (row fields.now)) }
    {
        let items = fields.items();
        let mut parts = Vec::with_capacity(self.alloc(), items.len())?;
        for i in 0..items.len() {
            let field = &items[i];
            let number = self.like_next(&field.1, small, hint, i, alike)?;
            parts.push((field.0.share()?, number))?;
        }
        Ok(parts)
    }

    // The number of the type of the field at a place, which is known for the first ones and the next.
    #[cycle(like)]
    #[tactic(auto, using(crate::proofs::HintSteps::hint_steps))]
    fn like_next(
        &mut self,
        ty: &Ty,
        small: u32,
        whole: u64,
        place: usize,
        alike: Alike,
    ) -> Result<u64, Mem>
        requires whole { whole < length self.old }
        requires next { place ≡ alike.count → Holds self.old alike.next ty.now }
        requires known { place < alike.count → HasPart self.old whole place ty.now }
        ensures grows { Begins self.old self.new }
        ensures number { IfOk result (λ n. Holds self.new n ty.now) }
    {
        if place == alike.count {
            return Ok(alike.next);
        }
        match self.part(whole, place) {
            Some(part) => {
                if place < alike.count {
                    Ok(part)
                } else {
                    self.like_part(ty, small, part)
                }
            }
            None => self.unlike(ty),
        }
    }

    // The number of a type that is likely to be the part at `part`. A small one is compared first, which takes fewer steps
    // than putting it. It is at most a quarter as large as what it is a part of, so each form of a type of n forms is met at
    // most log n times.
    #[cycle(like)]
    #[tactic(auto, using(crate::proofs::HintSteps::hint_steps))]
    fn like_part(&mut self, ty: &Ty, small: u32, part: u64) -> Result<u64, Mem>
        requires { part < length self.old }
        ensures grows { Begins self.old self.new }
        ensures number { IfOk result (λ n. Holds self.new n ty.now) }
    {
        if ty.extent().size <= small && self.is_tree(part, ty) {
            Ok(part)
        } else {
            self.like(ty, part)
        }
    }

    // The number of the part at a place of the type at `whole`, where it has this label. Takes no memory.
    #[tactic(auto, using(crate::proofs::HintSteps::hint_steps))]
    fn part_named(&self, whole: u64, place: usize, label: &Label) -> Option<u64>
        requires { whole < length self.now }
        ensures below { IfSome result (λ n. n < whole) }
        ensures value { IfSome result (λ n. field_at (fields_of (at self.now whole)) place ≡ Some (label.now, at self.now n)) }
    {
        let parts = self.parts(whole);
        if place >= parts.len() {
            return None;
        }
        let part = &parts[place];
        if same_label(&part.0, label) {
            Some(part.1)
        } else {
            None
        }
    }

    // The number of the part at a place of a record or a sum. Takes no memory.
    #[tactic(auto, using(crate::proofs::HintSteps::hint_steps))]
    fn part(&self, whole: u64, place: usize) -> Option<u64>
        requires { whole < length self.now }
        ensures below { IfSome result (λ n. n < whole) }
        ensures value { (t : TyTree) → HasPart self.now whole place t → IfSome result (λ n. at self.now n ≡ t) }
    {
        let parts = self.parts(whole);
        if place >= parts.len() {
            return None;
        }
        let part = &parts[place];
        Some(part.1)
    }

    // The parts of a record or a sum; none of another type. Takes no memory.
    #[tactic(auto, using(crate::proofs::HintSteps::hint_steps))]
    fn parts(&self, whole: u64) -> &[(Label, u64)]
        requires { whole < length self.now }
        ensures below { ArePartsBelow whole result.now }
        ensures value { row_at self.now result.now ≡ fields_of (at self.now whole) }
    {
        match self.form(whole) {
            Form::Fields(parts) => parts.as_slice(),
            Form::Sum(parts) => parts.as_slice(),
            _ => &[],
        }
    }
}
