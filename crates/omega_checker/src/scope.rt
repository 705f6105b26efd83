// What the checker keeps at a place of a term: numbered types, and the variables in scope.
ghost use Rattle.std.specs.Prelude.{◌≡◌, ◌-◌, ◌<◌, zero, [], Some, IfOk, OnOk, get_or, length, slice_get};
ghost use Rattle.omega_kinds.specs.Kind.{Star};
ghost use Rattle.omega_kinds.specs.View.{kind_tree};
ghost use Rattle.omega_types.specs.Index.{shift};
ghost use Rattle.omega_types.specs.Normaliser.{hsubst};
ghost use Rattle.omega_node_laws.specs.Found.{lowered as lowered_of, normal_at as normal_at_of};
ghost use Rattle.omega_node_laws.specs.SameTy.{same_ty};
ghost use Rattle.omega_node_laws.specs.Scope.{Finds, IsLastType, IsWithVar, IsWithoutVar, IsWithType, IsWithoutType, Makes, types_of};
ghost use Rattle.type_store.specs.Inner.View.{shape_of};
ghost use Rattle.type_store.specs.Numbers.{NumberOf, field_type, variant_type};
ghost use Rattle.type_store.specs.Trees.{IsBelow, at, tree_at};

use crate::naming::normal_at;
use crate::putting::is_put;
use omega_kinds::{Kind, Label, Mem};
use omega_types::Ty;
use std::alloc::Global;
use std::marker::Model;
use type_normal::NormalTy;
use type_store::{Form, Store, Types};

/// The types that have numbers, and the variables in scope. With a term variable is kept how many type variables were in
/// scope where it was bound. So one more type variable takes no walk over the types: a type is shifted where its variable
/// is used, past all type variables that came after it.
#[derive(Drop)]
pub(crate) struct Scope {
    types: Types,
    // the kinds of the type variables, the innermost last
    kinds: Vec<Kind>,
    // of each term variable, the innermost last, the number of its type, and how many type variables there were
    vars: Vec<(u64, u64)>,
    alloc: Global,
}

impl Model for Scope {
    ghost use Rattle.std.specs.Prelude.{length};
    ghost use Rattle.omega_types.specs.Inner.Scope.{scope_of};
    ghost use Rattle.omega_node_laws.specs.Scope.{Scope as ScopeTree, scope_code, AreBound};

    ghost Value = { ScopeTree };

    ghost coded = { scope_code };

    ghost view = { λ s. record { types = s.types; kinds = scope_of s.kinds.items; depth = length s.kinds.items; vars = s.vars.items } };

    ghost invariant = { λ s. AreBound (length s.types) (length s.kinds.items) s.vars.items };
}

impl Scope {
    /// No types and no variables.
    pub(crate) fn new(alloc: Global) -> Scope
        ensures kinds { result.kinds ≡ [] }
        ensures vars { types_of result ≡ [] }
    {
        Scope {
            types: Types::new(alloc),
            kinds: Vec::new(alloc),
            vars: Vec::new(alloc),
            alloc,
        }
    }

    /// The types alone, each at its number. Takes no memory.
    pub(crate) fn into_store(self) -> Store
        ensures { result ≡ self.types }
    {
        self.types.into_store()
    }

    /// One more term variable, of the type at a number. `Err` is out of memory.
    pub(crate) fn push(&mut self, number: u64) -> Result<(), Mem>
        requires { number < length self.old.types }
        ensures { OnOk result (IsWithVar self.old self.new number) }
    {
        self.vars.push((number, self.kinds.len() as u64))?;
        Ok(())
    }

    /// Takes the innermost term variable away.
    pub(crate) fn pop(&mut self)
        ensures { IsWithoutVar self.old self.new }
    {
        let _var = self.vars.pop();
    }

    /// One more type variable. `Err` is out of memory.
    pub(crate) fn push_type(&mut self, kind: &Kind) -> Result<(), Mem>
        ensures { OnOk result (IsWithType self.old self.new (kind_tree kind.now)) }
    {
        self.kinds.push(kind.share()?)?;
        Ok(())
    }

    /// Takes the innermost type variable away, where no term variable was bound under it.
    pub(crate) fn pop_type(&mut self)
        requires { IsLastType self.old }
        ensures { IsWithoutType self.old self.new }
    {
        let _kind = self.kinds.pop();
    }

    /// The number of the type of the term variable at an index, under all type variables in scope, and none where no
    /// variable has that index. `Err` is out of memory, also where an index would pass the last number.
    pub(crate) fn find(&mut self, index: u64) -> Result<Option<u64>, Mem>
        ensures { IfOk result (λ o. Finds self.old self.new o (slice_get (types_of self.old) index)) }
    {
        let vars = self.vars.as_slice();
        if index < vars.len() as u64 {
            let var = variable(vars, index);
            let depth = self.kinds.as_slice().len() as u64;
            let number = self.types.shift(var.0, depth - var.1, 0)?;
            Ok(Some(number))
        } else {
            Ok(None)
        }
    }

    /// The normal form of a type, and none where it has not the kind. `Err` is out of memory.
    pub(crate) fn normal(&self, ty: &Ty, kind: &Kind) -> Result<Option<NormalTy>, Mem>
        ensures { IfOk result (λ o. o ≡ normal_at_of self.now.kinds ty.now (kind_tree kind.now)) }
    {
        normal_at(self.alloc, self.kinds.as_slice(), ty, kind)
    }

    /// The number of a normal type. `Err` is out of memory.
    pub(crate) fn put(&mut self, ty: &NormalTy) -> Result<u64, Mem>
        ensures { IfOk result (λ n. Makes self.old self.new n ty.now) }
    {
        self.types.put(ty)
    }

    /// The number of a normal type that is likely to be much like the one at a number. `Err` is out of memory.
    pub(crate) fn put_like(&mut self, ty: &NormalTy, like: u64) -> Result<u64, Mem>
        requires { like < length self.old.types }
        ensures { IfOk result (λ n. Makes self.old self.new n ty.now) }
    {
        self.types.put_like(ty, like)
    }

    /// Whether the type at a number is the normal form of the body of a binder of a kind with a type put in for its variable.
    /// `Err` is out of memory.
    pub(crate) fn is_put(
        &self,
        kind: &Kind,
        body: &Ty,
        arg: &NormalTy,
        number: u64,
    ) -> Result<bool, Mem>
        requires { number < length self.now.types }
        ensures { IfOk result (λ b. b ≡ same_ty (hsubst (kind_tree kind.now) zero arg.now body.now) (at self.now.types number)) }
    {
        is_put(self.alloc, &self.types, kind, body, arg, number)
    }

    /// Whether a type is what stands below a binder of kind `*`, with the type at another number put in for its variable.
    /// Takes no memory.
    pub(crate) fn is_filled(&self, inner: u64, hidden: u64, whole: u64) -> bool
        requires inner { inner < length self.now.types }
        requires hidden { hidden < length self.now.types }
        requires whole { whole < length self.now.types }
        ensures { result ≡ same_ty (hsubst Star zero (at self.now.types hidden) (at self.now.types inner)) (at self.now.types whole) }
    {
        self.types.is_filled(inner, 0, hidden, whole)
    }

    /// The number of a type, seen from below one more binder. `Err` is out of memory, also where an index would pass the last
    /// number.
    pub(crate) fn raise(&mut self, number: u64) -> Result<u64, Mem>
        requires { number < length self.old.types }
        ensures { IfOk result (λ n. Makes self.old self.new n (shift 1 zero (at self.old.types number))) }
    {
        self.types.shift(number, 1, 0)
    }

    /// Whether the type at a number is this tree. Takes no memory.
    pub(crate) fn is_tree(&self, number: u64, ty: &Ty) -> bool
        requires { number < length self.now.types }
        ensures { result ≡ same_ty ty.now (at self.now.types number) }
    {
        self.types.is_tree(number, ty)
    }

    /// Whether two numbers are those of one type. Takes one step.
    pub(crate) fn same(&self, left: u64, right: u64) -> bool
        requires left { left < length self.now.types }
        requires right { right < length self.now.types }
        ensures { result ≡ same_ty (at self.now.types left) (at self.now.types right) }
    {
        self.types.same(left, right)
    }

    /// The outermost form of a type. Takes no memory.
    pub(crate) fn form(&self, number: u64) -> &Form
        requires { number < length self.now.types }
        ensures below { IsBelow number (shape_of result.now) }
        ensures value { tree_at self.now.types (shape_of result.now) ≡ at self.now.types number }
    {
        self.types.form(number)
    }

    /// The number of the type at a label of a record; `None` where it is no record or has no such label.
    /// Takes no memory.
    pub(crate) fn field(&self, whole: u64, label: &Label) -> Option<u64>
        requires { whole < length self.now.types }
        ensures { NumberOf self.now.types result (field_type (at self.now.types whole) label.now) }
    {
        self.types.field(whole, label)
    }

    /// The number of the type at a label of a sum; `None` where it is no sum or has no such label. Takes no memory.
    pub(crate) fn variant(&self, whole: u64, label: &Label) -> Option<u64>
        requires { whole < length self.now.types }
        ensures { NumberOf self.now.types result (variant_type (at self.now.types whole) label.now) }
    {
        self.types.variant(whole, label)
    }

    /// The number of the type that a form makes of the types that it numbers. `Err` is out of memory.
    pub(crate) fn make(&mut self, form: Form) -> Result<u64, Mem>
        requires { IsBelow (length self.old.types) (shape_of form) }
        ensures { IfOk result (λ n. Makes self.old self.new n (tree_at self.old.types (shape_of form))) }
    {
        self.types.make(form)
    }

    /// The number of the normal form of a binder's body with a type of the binder's kind put in for its variable.
    /// `Err` is out of memory.
    pub(crate) fn fill(&mut self, body: u64, arg: u64, kind: &Kind) -> Result<u64, Mem>
        requires body { body < length self.old.types }
        requires arg { arg < length self.old.types }
        ensures { IfOk result (λ n. Makes self.old self.new n (hsubst (kind_tree kind.now) zero (at self.old.types arg) (at self.old.types body))) }
    {
        self.types.fill(body, arg, kind)
    }

    /// The number of the type outside of a type variable, and none where the type mentions the variable. `Err` is out of
    /// memory.
    pub(crate) fn lower(&mut self, number: u64) -> Result<Option<u64>, Mem>
        requires { number < length self.old.types }
        ensures { IfOk result (λ o. Finds self.old self.new o (lowered_of (Some (at self.old.types number)))) }
    {
        self.types.lower(number)
    }
}

// What is kept of the variable at an index.
fn variable(vars: &[(u64, u64)], index: u64) -> (u64, u64)
    requires { index < length vars.now }
    ensures { result ≡ get_or vars.now (length vars.now - 1 - index) result }
{
    vars[vars.len() - 1 - index as usize]
}
