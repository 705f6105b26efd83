// The typing rule of each form, from the numbers of the types of its parts.
ghost use Rattle.std.specs.Prelude.{◌≡◌, ◌<◌, zero, IfOk, Some, length};
ghost use Rattle.std.specs.Option.{option_map};
ghost use Rattle.omega_kinds.specs.Kind.{Star};
ghost use Rattle.omega_kinds.specs.View.{kind_tree};
ghost use Rattle.omega_types.specs.Normaliser.{hsubst};
ghost use Rattle.omega_types.specs.Ty.{Ty as TyTree};
ghost use Rattle.omega_node_laws.specs.Found.{call_type, get_type, if_same, if_type, inj_type, inst_type, is_found as is_found_of, lowered as lowered_of, normal_at as normal_at_of, op_type, pack_type, roll_type, target_type, unroll_type};
ghost use Rattle.omega_node_laws.specs.Scope.{Finds, IsIn, IsPackage, IsSum, Makes, parameter_type, type_at};
ghost use Rattle.omega_terms.specs.Typing.{result_type};
ghost use Rattle.type_store.specs.Numbers.{NumberOf};
ghost use Rattle.type_store.specs.Trees.{at};

use crate::scope::Scope;
use omega_kinds::{Kind, Label, Mem};
use omega_terms::Op;
use omega_types::{Ty, TyNode};
use std::alloc::Global;
use type_normal::{NormalTy, as_normal, plain};
use type_store::{Form, copied};

impl Scope {
    /// The number of `int`. `Err` is out of memory.
    pub(crate) fn int(&mut self) -> Result<u64, Mem>
        ensures { IfOk result (λ n. Makes self.old self.new n TyTree.Int) }
    {
        self.make(Form::Int)
    }

    /// The number of `bool`. `Err` is out of memory.
    pub(crate) fn bool(&mut self) -> Result<u64, Mem>
        ensures { IfOk result (λ n. Makes self.old self.new n TyTree.Bool) }
    {
        self.make(Form::Bool)
    }

    /// The number of `text`. `Err` is out of memory.
    pub(crate) fn text(&mut self) -> Result<u64, Mem>
        ensures { IfOk result (λ n. Makes self.old self.new n TyTree.Text) }
    {
        self.make(Form::Text)
    }

    /// The number of `(-> T T)`. `Err` is out of memory.
    pub(crate) fn arrow(&mut self, from: u64, to: u64) -> Result<u64, Mem>
        requires from { from < length self.old.types }
        requires to { to < length self.old.types }
        ensures { IfOk result (λ n. Makes self.old self.new n (TyTree.Arrow (at self.old.types from) (at self.old.types to))) }
    {
        self.make(Form::Arrow(from, to))
    }

    /// The number of the normal form of a type, and none where it has not the kind. `Err` is out of memory.
    pub(crate) fn named(&mut self, ty: &Ty, kind: &Kind) -> Result<Option<u64>, Mem>
        ensures { IfOk result (λ o. Finds self.old self.new o (normal_at_of self.old.kinds ty.now (kind_tree kind.now))) }
    {
        match self.normal(ty, kind)? {
            Some(found) => Ok(Some(self.put(&found)?)),
            None => Ok(None),
        }
    }

    /// The number of a type that is likely to be the one at a number: where it is, the type is not tested. None where it has
    /// not kind `*`. `Err` is out of memory.
    pub(crate) fn parameter(&mut self, ty: &Ty, likely: u64) -> Result<Option<u64>, Mem>
        requires { likely < length self.old.types }
        ensures { IfOk result (λ o. Finds self.old self.new o (parameter_type self.old.kinds ty.now (at self.old.types likely))) }
    {
        if self.is_tree(likely, ty) {
            Ok(Some(likely))
        } else {
            self.named(ty, &Kind::Star)
        }
    }

    /// The type of a function.
    pub(crate) fn function(&mut self, from: u64, to: Option<u64>) -> Result<Option<u64>, Mem>
        requires from { from < length self.old.types }
        requires to { IsIn self.old.types to }
        ensures { IfOk result (λ o. Finds self.old self.new o (option_map (TyTree.Arrow (at self.old.types from)) (type_at self.old.types to))) }
    {
        match to {
            Some(to) => Ok(Some(self.arrow(from, to)?)),
            None => Ok(None),
        }
    }

    /// The type of a function from types.
    pub(crate) fn type_function(
        &mut self,
        kind: &Kind,
        body: Option<u64>,
    ) -> Result<Option<u64>, Mem>
        requires { IsIn self.old.types body }
        ensures { IfOk result (λ o. Finds self.old self.new o (option_map (TyTree.All (kind_tree kind.now)) (type_at self.old.types body))) }
    {
        match body {
            Some(body) => Ok(Some(self.make(Form::All(kind.share()?, body))?)),
            None => Ok(None),
        }
    }

    /// The type of a call.
    pub(crate) fn called(&self, function: Option<u64>, arg: u64) -> Option<u64>
        requires function { IsIn self.now.types function }
        requires arg { arg < length self.now.types }
        ensures { NumberOf self.now.types result (call_type (type_at self.now.types function) (Some (at self.now.types arg))) }
    {
        let Some(function) = function else {
            return None;
        };
        match self.form(function) {
            Form::Arrow(from, to) => {
                if self.same(*from, arg) {
                    Some(*to)
                } else {
                    None
                }
            }
            _ => None,
        }
    }

    /// The type of an instance of a term at a type.
    pub(crate) fn instantiated(&mut self, term: Option<u64>, ty: &Ty) -> Result<Option<u64>, Mem>
        requires { IsIn self.old.types term }
        ensures { IfOk result (λ o. Finds self.old self.new o (inst_type self.old.kinds (type_at self.old.types term) ty.now)) }
    {
        let Some(term) = term else {
            return Ok(None);
        };
        let Form::All(kind, body) = self.form(term) else {
            return Ok(None);
        };
        let kind = kind.share()?;
        let body = *body;
        match self.named(ty, &kind)? {
            Some(arg) => Ok(Some(self.fill(body, arg, &kind)?)),
            None => Ok(None),
        }
    }

    /// The type of a field.
    pub(crate) fn field_type(&self, whole: Option<u64>, label: &Label) -> Option<u64>
        requires { IsIn self.now.types whole }
        ensures { NumberOf self.now.types result (get_type (type_at self.now.types whole) label.now) }
    {
        match whole {
            Some(whole) => self.field(whole, label),
            None => None,
        }
    }

    /// The kind of what a package type hides, with the number of its body; none where the type is no package type.
    pub(crate) fn package(&self, ty: Option<u64>) -> Result<Option<(Kind, u64)>, Mem>
        requires { IsIn self.now.types ty }
        ensures { IfOk result (λ o. IsPackage self.now.types ty o) }
    {
        let Some(ty) = ty else {
            return Ok(None);
        };
        match self.form(ty) {
            Form::Ex(kind, body) => Ok(Some((kind.share()?, *body))),
            _ => Ok(None),
        }
    }

    /// The type of a package: the target, where the body has the type that it asks for. A target whose body, with the hidden
    /// type of kind `*` put in, is the type that was found is not tested: types that are found are normal, and so it is.
    pub(crate) fn packed(&mut self, hidden: &Ty, target: &Ty, body: u64) -> Result<Option<u64>, Mem>
        requires { body < length self.old.types }
        ensures { IfOk result (λ o. Finds self.old self.new o (pack_type self.old.kinds hidden.now (target_type self.old.kinds hidden.now target.now (Some (at self.old.types body))) (Some (at self.old.types body)))) }
    {
        match target.node() {
            TyNode::Ex(Kind::Star, inner) => self.packed_likely(hidden, target, inner, body),
            _ => self.packed_any(hidden, target, body),
        }
    }

    // The same where the target hides a type of kind `*` in this one.
    fn packed_likely(
        &mut self,
        hidden: &Ty,
        target: &Ty,
        inner: &Ty,
        body: u64,
    ) -> Result<Option<u64>, Mem>
        requires target { target.now ≡ TyTree.Ex Star inner.now }
        requires body { body < length self.old.types }
        ensures { IfOk result (λ o. Finds self.old self.new o (pack_type self.old.kinds hidden.now (target_type self.old.kinds hidden.now target.now (Some (at self.old.types body))) (Some (at self.old.types body)))) }
    {
        let Some(arg) = self.normal(hidden, &Kind::Star)? else {
            return self.packed_any(hidden, target, body);
        };
        match self.packed_type(&Kind::Star, inner, &arg, body)? {
            Some(found) => Ok(Some(found)),
            None => self.packed_any(hidden, target, body),
        }
    }

    // The same where the target is tested.
    fn packed_any(&mut self, hidden: &Ty, target: &Ty, body: u64) -> Result<Option<u64>, Mem>
        requires { body < length self.old.types }
        ensures { IfOk result (λ o. Finds self.old self.new o (pack_type self.old.kinds hidden.now (normal_at_of self.old.kinds target.now Star) (Some (at self.old.types body)))) }
    {
        let Some(target) = self.normal(target, &Kind::Star)? else {
            return Ok(None);
        };
        let TyNode::Ex(kind, inner) = plain(&target).node() else {
            return Ok(None);
        };
        let Some(hidden) = self.normal(hidden, kind)? else {
            return Ok(None);
        };
        match kind {
            Kind::Star => self.packed_type(kind, inner, &hidden, body),
            Kind::Arrow(..) => self.packed_operator(kind, inner, &hidden, body),
        }
    }

    // The same where a type of kind `*` is hidden.
    fn packed_type(
        &mut self,
        kind: &Kind,
        inner: &Ty,
        hidden: &NormalTy,
        body: u64,
    ) -> Result<Option<u64>, Mem>
        requires kind { kind_tree kind.now ≡ Star }
        requires body { body < length self.old.types }
        ensures { IfOk result (λ o. Finds self.old self.new o (if_same (TyTree.Ex (kind_tree kind.now) inner.now) (Some (hsubst (kind_tree kind.now) zero hidden.now inner.now)) (Some (at self.old.types body)))) }
    {
        let hidden = self.put(hidden)?;
        let inner = self.inner_type(inner, body)?;
        if self.is_filled(inner, hidden, body) {
            Ok(Some(self.make(Form::Ex(kind.share()?, inner))?))
        } else {
            Ok(None)
        }
    }

    // The same where a type operator is hidden.
    fn packed_operator(
        &mut self,
        kind: &Kind,
        inner: &Ty,
        hidden: &NormalTy,
        body: u64,
    ) -> Result<Option<u64>, Mem>
        requires { body < length self.old.types }
        ensures { IfOk result (λ o. Finds self.old self.new o (if_same (TyTree.Ex (kind_tree kind.now) inner.now) (Some (hsubst (kind_tree kind.now) zero hidden.now inner.now)) (Some (at self.old.types body)))) }
    {
        if self.is_put(kind, inner, hidden, body)? {
            let inner = self.inner_type(inner, body)?;
            Ok(Some(self.make(Form::Ex(kind.share()?, inner))?))
        } else {
            Ok(None)
        }
    }

    // The number of what stands below the binder of a package type: it is likely to be much like a type from outside of it.
    fn inner_type(&mut self, inner: &Ty, outside: u64) -> Result<u64, Mem>
        requires { outside < length self.old.types }
        ensures { IfOk result (λ n. Makes self.old self.new n inner.now) }
    {
        let like = self.raise(outside)?;
        let inner = as_normal(inner.share()?);
        self.put_like(&inner, like)
    }

    /// The type outside of a type variable, where it does not mention the variable.
    pub(crate) fn lowered(&mut self, ty: Option<u64>) -> Result<Option<u64>, Mem>
        requires { IsIn self.old.types ty }
        ensures { IfOk result (λ o. Finds self.old self.new o (lowered_of (type_at self.old.types ty))) }
    {
        match ty {
            Some(ty) => self.lower(ty),
            None => Ok(None),
        }
    }

    /// The type of a choice.
    pub(crate) fn chosen(
        &mut self,
        test: Option<u64>,
        yes: Option<u64>,
        no: Option<u64>,
    ) -> Result<Option<u64>, Mem>
        requires test { IsIn self.old.types test }
        requires yes { IsIn self.old.types yes }
        requires no { IsIn self.old.types no }
        ensures { IfOk result (λ o. Finds self.old self.new o (if_type (type_at self.old.types test) (type_at self.old.types yes) (type_at self.old.types no))) }
    {
        let (Some(test), Some(yes), Some(no)) = (test, yes, no) else {
            return Ok(None);
        };
        let truth = self.bool()?;
        if self.same(test, truth) && self.same(yes, no) {
            Ok(Some(yes))
        } else {
            Ok(None)
        }
    }

    /// The type of an operator on two numbers.
    pub(crate) fn computed(
        &mut self,
        op: Op,
        left: Option<u64>,
        right: Option<u64>,
    ) -> Result<Option<u64>, Mem>
        requires left { IsIn self.old.types left }
        requires right { IsIn self.old.types right }
        ensures { IfOk result (λ o. Finds self.old self.new o (op_type op (type_at self.old.types left) (type_at self.old.types right))) }
    {
        let (Some(left), Some(right)) = (left, right) else {
            return Ok(None);
        };
        let number = self.int()?;
        if self.same(left, number) && self.same(right, number) {
            Ok(Some(self.result_type(op)?))
        } else {
            Ok(None)
        }
    }

    // The type of an operator's result.
    fn result_type(&mut self, op: Op) -> Result<u64, Mem>
        ensures { IfOk result (λ n. Makes self.old self.new n (result_type op)) }
    {
        match op {
            Op::Less | Op::Equal => self.bool(),
            Op::Add | Op::Sub | Op::Mul | Op::Div | Op::Rem => self.int(),
        }
    }

    /// Whether a type was found, and is this one.
    pub(crate) fn is_found(&self, wanted: u64, found: Option<u64>) -> bool
        requires wanted { wanted < length self.now.types }
        requires found { IsIn self.now.types found }
        ensures { result ≡ is_found_of (at self.now.types wanted) (type_at self.now.types found) }
    {
        match found {
            Some(found) => self.same(wanted, found),
            None => false,
        }
    }

    /// The type of a term injected at a label: the target, where it is a sum that has the term's type there.
    pub(crate) fn injected(
        &self,
        label: &Label,
        target: Option<u64>,
        body: Option<u64>,
    ) -> Option<u64>
        requires target { IsIn self.now.types target }
        requires body { IsIn self.now.types body }
        ensures { NumberOf self.now.types result (inj_type label.now (type_at self.now.types target) (type_at self.now.types body)) }
    {
        let (Some(target), Some(body)) = (target, body) else {
            return None;
        };
        let Some(wanted) = self.variant(target, label) else {
            return None;
        };
        if self.same(wanted, body) {
            Some(target)
        } else {
            None
        }
    }

    /// The labels and numbers of a sum's parts; none where the type is no sum. `Err` is out of memory.
    pub(crate) fn sum(&self, alloc: Global, ty: u64) -> Result<Option<Vec<(Label, u64)>>, Mem>
        requires { ty < length self.now.types }
        ensures { IfOk result (λ o. IsSum self.now.types ty (option_map (λ v. v.items) o)) }
    {
        match self.form(ty) {
            Form::Sum(parts) => Ok(Some(copied(alloc, parts.as_slice())?)),
            _ => Ok(None),
        }
    }

    /// The type of a rolled term: the target, where it is recursive and the term has the type that it unfolds to.
    pub(crate) fn rolled(
        &mut self,
        target: Option<u64>,
        body: Option<u64>,
    ) -> Result<Option<u64>, Mem>
        requires target { IsIn self.old.types target }
        requires body { IsIn self.old.types body }
        ensures { IfOk result (λ o. Finds self.old self.new o (roll_type (type_at self.old.types target) (type_at self.old.types body))) }
    {
        let (Some(wanted), Some(body)) = (self.unrolled(target)?, body) else {
            return Ok(None);
        };
        if self.same(wanted, body) {
            Ok(target)
        } else {
            Ok(None)
        }
    }

    /// The type of an unrolled term: what the term's recursive type unfolds to.
    pub(crate) fn unrolled(&mut self, whole: Option<u64>) -> Result<Option<u64>, Mem>
        requires { IsIn self.old.types whole }
        ensures { IfOk result (λ o. Finds self.old self.new o (unroll_type (type_at self.old.types whole))) }
    {
        let Some(whole) = whole else {
            return Ok(None);
        };
        let Form::Mu(inner) = self.form(whole) else {
            return Ok(None);
        };
        let inner = *inner;
        Ok(Some(self.fill(inner, whole, &Kind::Star)?))
    }
}
