// Terms that were checked.
ghost use Rattle.std.specs.Prelude.{◌≡◌, [], IfOk, MatchOption};
ghost use Rattle.omega_terms.specs.Typing.{HasType};
ghost use Rattle.omega_node_laws.specs.NodeTypes.{HoldsNodeTypes};
ghost use Rattle.omega_checker.specs.Judgment.{Derived};

use crate::scope::Scope;
use crate::synthesis::synth;
use omega_kinds::{Kind, Mem};
use omega_terms::Term;
use omega_types::Ty;
use std::alloc::Global;
use std::marker::Model;
use type_store::Store;

/// A closed term with a closed type that it has, and the types of its nodes. Only `check` makes one.
/// Contracts see it as its term and its type.
#[derive(Drop)]
pub struct Checked {
    term: Term,
    ty: Ty,
    store: Store,
}

impl Model for Checked {
    ghost use Rattle.std.specs.Prelude.{[]};
    ghost use Rattle.omega_node_laws.specs.NodeTypes.{HoldsNodeTypes};
    ghost use Rattle.omega_checker.specs.Judgment.{Judgment, judgment_code, Derived};

    ghost Value = { Judgment };

    ghost coded = { judgment_code };

    ghost view = { λ c. record { term = c.term; ty = c.ty } };

    ghost invariant = { λ c. Derived (record { term = c.term; ty = c.ty }) × HoldsNodeTypes c.store [] [] c.term };
}

impl Checked {
    /// The term. Takes no memory.
    pub fn term(&self) -> &Term
        ensures term { result.now ≡ self.now.term }
        ensures typed { Derived self.now }
    {
        &self.term
    }

    /// The type, as it was asked for. Takes no memory.
    pub fn ty(&self) -> &Ty
        ensures ty { result.now ≡ self.now.ty }
        ensures typed { Derived self.now }
    {
        &self.ty
    }

    /// The types of the term's nodes: the normal form of the type of the term and of each term in it, each in the context
    /// of the binders round it, and other types. Takes no memory.
    ///
    /// Filliâtre and Conchon, "Type-safe modular hash-consing", section 2.
    pub fn store(&self) -> &Store
        ensures nodes { HoldsNodeTypes result.now [] [] self.now.term }
    {
        &self.store
    }

    /// The same types alone, for a caller who goes on with them. Takes no memory.
    pub fn into_store(self) -> Store
        ensures nodes { HoldsNodeTypes result [] [] self.term }
    {
        self.store
    }
}

/// Whether a term has a type, in the empty context: exactly where the typing rules give it the type there is a `Checked`
/// of the two. A term or type with free variables has none. `Err` is out of memory.
///
/// Pierce, "Types and Programming Languages", figure 30-1, Higher-order polymorphic lambda-calculus, with records,
/// variants (figure 11-11), iso-recursive types (figure 20-1), existential types (figure 24-1) and fixed points
/// (figure 11-12).
pub fn check(alloc: Global, term: Term, ty: Ty) -> Result<Option<Checked>, Mem>
    ensures { IfOk result (λ o. MatchOption o
        (HasType [] [] term ty → ⊥)
        (λ c. (c.term ≡ term) × (c.ty ≡ ty) × HasType [] [] term ty)) }
{
    let mut scope = Scope::new(alloc);
    let Some(wanted) = scope.named(&ty, &Kind::Star)? else {
        return Ok(None);
    };
    let Some(found) = synth(alloc, &mut scope, &term)? else {
        return Ok(None);
    };
    if scope.same(found, wanted) {
        let store = scope.into_store();
        Ok(Some(Checked { term, ty, store }))
    } else {
        Ok(None)
    }
}
