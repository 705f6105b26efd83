// Environments of elaboration.
ghost use Rattle.std.specs.Prelude.{ℕ, ◌≡◌, ◌==◌, ◌+◌, ◌<◌, ◌∷◌, [], IfOk, IsSome, Some, OnOk, OnErr, MatchOption, length, take};
ghost use Rattle.std.specs.HashMap.{Updates, get};
ghost use Rattle.std.specs.Cmp.Lexicographic.{pointwise};
ghost use Rattle.omega_kinds.specs.View.{kind_tree};
ghost use Rattle.omega_types.specs.EtaLong.{eta as eta_of};
ghost use Rattle.omega_types.specs.Index.{bump, shift};
ghost use Rattle.omega_types.specs.Inner.Scope.{scope_of};
ghost use Rattle.omega_types.specs.Ty.{Var};
ghost use Rattle.omega_terms.specs.PartTerms.{type_term as type_term_of};
ghost use Rattle.omega_terms.specs.Term.{Var as VarTerm};
ghost use Rattle.sig_definitions.specs.Env.{Env as EnvTree, find as find_in, kinds as kinds_in, first_kind as first_kind_in};
ghost use Rattle.sig_definitions.specs.Signatures.Sig.{Sig as SigTree, Typ};
ghost use Rattle.sig_definitions.specs.Signatures.SigSubst.{rename_sig};
ghost use Rattle.semantic_sigs.specs.Inner.Entries.{here_first, entry_of, seen, term_vars};
ghost use Rattle.semantic_sigs.specs.Inner.Slots.{Keeps, hidden_by, with_slots};

use crate::changing::raise_sig;
use crate::heads::sum;
use crate::part_terms::{type_term, value_term};
use crate::standing::Standing;
use crate::tree::{Sig, SigNode};
use omega_kinds::{Kind, Mem, Name};
use omega_terms::{Term, TermNode};
use omega_types::{Ty, TyNode};
use std::alloc::Global;
use std::collections::HashMap;
use std::marker::Model;
use type_normal::{NormalTy, normal, plain, raise};

/// An entry of an environment: a type variable of a kind; a name for a module of a signature, whose term is a new term
/// variable; a name for a value of a type, which is a new term variable; or a name for the type variable of the entry
/// just before. Where no type variable stands just before, that last one stands for index 0, at kind `*`.
///
/// Rossberg, Russo and Dreyer, "F-ing modules", section 4, Elaboration: its environments map names to signatures.
#[derive(Drop)]
pub enum Entry {
    TypeVar(Kind),
    Named(Name, Sig),
    Value(Name, NormalTy),
    TypeParam(Name),
}

// A place of an environment: an entry, the place of the entry of its name that it hides, and how many type variables
// and term variables there are up to it, with its own.
#[derive(Drop)]
struct Slot {
    entry: Entry,
    hidden: Option<usize>,
    types: u64,
    terms: u64,
}

/// An environment: a list of entries, each in the scope of those before it. Contracts see it as the list of its
/// entries, the last one first, so that indexes count from it. Beside the entries it keeps the kinds of the type
/// variables, the number of term variables, and the place of the last entry of each name.
#[derive(Drop)]
pub struct Env {
    slots: Vec<Slot>,
    kinds: Vec<Kind>,
    places: HashMap<Name, usize>,
    terms: u64,
}

impl Model for Env {
    ghost use Rattle.std.specs.Prelude.{[]};
    ghost use Rattle.sig_definitions.specs.Env.{Env as EnvTree};
    ghost use Rattle.semantic_sigs.specs.Inner.EnvCode.{env_code};
    ghost use Rattle.semantic_sigs.specs.Inner.Slots.{IsKept, with_slots};

    ghost Value = { EnvTree };

    ghost coded = { env_code };

    ghost view = { λ g. with_slots [] g.slots.items };

    ghost invariant = { λ g. IsKept g.slots.items g.kinds.items g.places g.terms };
}

impl Env {
    /// No entries.
    pub fn new(alloc: Global) -> Env
        ensures { result ≡ [] }
    {
        Env {
            slots: Vec::new(alloc),
            kinds: Vec::new(alloc),
            places: HashMap::new(alloc),
            terms: 0,
        }
    }

    /// One more entry. `Err` is out of memory, and the environment stays as it was.
    pub fn push(&mut self, entry: Entry) -> Result<(), Mem>
        ensures ok { OnOk result (self.new ≡ entry_of entry ∷ self.old) }
        ensures err { OnErr result (self.new ≡ self.old) }
    {
        let terms = sum(self.terms, entry.term_vars())?;
        self.slots.reserve(1)?;
        let slots = self.slots.as_slice();
        let at = slots.len();
        let hidden = note_entry(&mut self.kinds, &mut self.places, &entry, at)?;
        let kinds = self.kinds.as_slice();
        let types = kinds.len() as u64;
        self.terms = terms;
        // There is room.
        self.slots.push(Slot {
            entry,
            hidden,
            types,
            terms,
        })?;
        Ok(())
    }

    /// Takes the last entry away; `None` exactly where there is none.
    pub fn pop(&mut self) -> Option<Entry>
        ensures { MatchOption result ((self.old ≡ []) × (self.new ≡ [])) (λ entry. self.old ≡ entry_of entry ∷ self.new) }
    {
        match self.slots.pop() {
            Some(slot) => {
                forget_entry(&mut self.kinds, &mut self.places, &slot.entry, slot.hidden);
                self.terms -= slot.entry.term_vars();
                Some(slot.entry)
            }
            None => None,
        }
    }

    /// The kinds of the type variables, that of the innermost last.
    pub fn kinds(&self) -> &[Kind]
        ensures { scope_of result.now ≡ kinds_in self.now }
    {
        self.kinds.as_slice()
    }

    /// The signature and the term of the last entry of the name, as they stand at the end of the environment; `None`
    /// exactly where no entry has the name. They are shifted once, past all variables that come after the entry.
    /// `Err` is out of memory, also where an index would pass the last number.
    ///
    /// Rossberg, Russo and Dreyer, "F-ing modules", section 4, Elaboration, rule of paths.
    pub fn find(&self, alloc: Global, name: &Name) -> Result<Option<(Sig, Term)>, Mem>
        ensures { IfOk result (λ found. found ≡ find_in self.now name.now) }
    {
        let Some(place) = self.places.get(name) else {
            return Ok(None);
        };
        let at = *place;
        let slots = self.slots.as_slice();
        let slot = &slots[at];
        let kinds = self.kinds.as_slice();
        let types = kinds.len() as u64 - slot.types;
        let terms = self.terms - slot.terms;
        found(alloc, slots, at, types, terms)
    }

    /// The module that the last entry of the name is, at the place of the entry, so that its signature is not shifted;
    /// `None` exactly where the last entry of the name is no module, or there is none. `Err` is out of memory.
    pub fn standing(&self, alloc: Global, name: &Name) -> Result<Option<Standing<'_>>, Mem>
        ensures { IfOk result (λ o. MatchOption o
            ((s : SigTree) (n : ℕ) → find_in self.now name.now ≡ Some (s, VarTerm n) → ⊥)
            (λ m. find_in self.now name.now ≡ Some (rename_sig (bump m.types 0) m.sig.now, m.term))) }
    {
        let Some(place) = self.places.get(name) else {
            return Ok(None);
        };
        let at = *place;
        let slots = self.slots.as_slice();
        let slot = &slots[at];
        let Entry::Named(_, sig) = &slot.entry else {
            return Ok(None);
        };
        let kinds = self.kinds.as_slice();
        let types = kinds.len() as u64 - slot.types;
        let terms = self.terms - slot.terms;
        let term = Term::make(alloc, TermNode::Var(terms))?;
        Ok(Some(Standing { sig, types, term }))
    }
}

// One more entry for the kinds and the places of an environment, at a place: what it hides. `Err` is out of memory,
// and both stay as they were.
fn note_entry(
    kinds: &mut Vec<Kind>,
    places: &mut HashMap<Name, usize>,
    entry: &Entry,
    at: usize,
) -> Result<Option<usize>, Mem>
    ensures ok { OnOk result ((g : EnvTree) → length g ≡ at → Keeps kinds.old.items places.old g → Keeps kinds.new.items places.new (entry_of entry.now ∷ g)) }
    ensures hidden { IfOk result (λ hidden. (g : EnvTree) → Keeps kinds.old.items places.old g → hidden ≡ hidden_by (entry_of entry.now) g) }
    ensures err { OnErr result ((kinds.new.items ≡ kinds.old.items) × (places.new.entries ≡ places.old.entries)) }
{
    match entry {
        Entry::TypeVar(kind) => {
            kinds.push(kind.share()?)?;
            Ok(None)
        }
        Entry::Named(name, _) => set_place(places, name, at),
        Entry::Value(name, _) => set_place(places, name, at),
        Entry::TypeParam(name) => set_place(places, name, at),
    }
}

// The place of the last entry of a name, in place of the one before, which it gives.
fn set_place(
    places: &mut HashMap<Name, usize>,
    name: &Name,
    at: usize,
) -> Result<Option<usize>, Mem>
    ensures hidden { IfOk result (λ hidden. hidden ≡ get (pointwise ◌==◌) places.old name.now) }
    ensures ok { OnOk result (Updates (pointwise ◌==◌) places.old places.new name.now (Some at)) }
    ensures err { OnErr result (places.new.entries ≡ places.old.entries) }
{
    Ok(places.insert(name.share()?, at)?)
}

// The last entry is taken from the kinds and the places of an environment, and what it hid is seen again.
fn forget_entry(
    kinds: &mut Vec<Kind>,
    places: &mut HashMap<Name, usize>,
    entry: &Entry,
    hidden: Option<usize>,
)
    ensures { (g : EnvTree) → hidden ≡ hidden_by (entry_of entry.now) g → Keeps kinds.old.items places.old (entry_of entry.now ∷ g) → Keeps kinds.new.items places.new g }
{
    match entry {
        Entry::TypeVar(_) => {
            let _kind = kinds.pop();
        }
        Entry::Named(name, _) => restore_place(places, name, hidden),
        Entry::Value(name, _) => restore_place(places, name, hidden),
        Entry::TypeParam(name) => restore_place(places, name, hidden),
    }
}

// The place of a name that the map has becomes another one, or goes.
fn restore_place(places: &mut HashMap<Name, usize>, name: &Name, hidden: Option<usize>)
    ensures { IsSome (get (pointwise ◌==◌) places.old name.now) → Updates (pointwise ◌==◌) places.old places.new name.now hidden }
{
    match hidden {
        Some(at) => {
            if let Some(place) = places.get_mut(name) {
                *place = at;
            }
        }
        None => {
            let _place = places.remove(name);
        }
    }
}

impl Entry {
    // How many term variables the entry brings.
    fn term_vars(&self) -> u64
        ensures { result ≡ term_vars (entry_of self.now) }
    {
        match self {
            Entry::Named(_, _) | Entry::Value(_, _) => 1,
            _ => 0,
        }
    }
}

// What the entry at a place stands for, past so many type variables and term variables.
fn found(
    alloc: Global,
    slots: &[Slot],
    at: usize,
    types: u64,
    terms: u64,
) -> Result<Option<(Sig, Term)>, Mem>
    requires { at < length slots.now }
    ensures { IfOk result (λ o. o ≡ seen types terms (here_first (with_slots [] (take (at + 1) slots.now)))) }
{
    match &slots[at].entry {
        Entry::TypeVar(_) => Ok(None),
        Entry::Named(_, sig) => {
            let sig = raise_sig(alloc, sig, types, 0)?;
            let term = Term::make(alloc, TermNode::Var(terms))?;
            Ok(Some((sig, term)))
        }
        Entry::Value(_, ty) => {
            let ty = raise(alloc, ty, types, 0)?;
            let sig = Sig::make(alloc, SigNode::Val(ty))?;
            let term = value_term(alloc, Term::make(alloc, TermNode::Var(terms))?)?;
            Ok(Some((sig, term)))
        }
        Entry::TypeParam(_) => {
            let kind = kind_before(slots, at)?;
            let (sig, term) = type_param(alloc, &kind, types)?;
            Ok(Some((sig, term)))
        }
    }
}

// The kind of the entry before a place, a type variable where it is asked for.
fn kind_before(slots: &[Slot], at: usize) -> Result<Kind, Mem>
    requires { at < length slots.now }
    ensures { IfOk result (λ k. kind_tree k ≡ first_kind_in (with_slots [] (take at slots.now))) }
{
    if at == 0 {
        return Ok(Kind::Star);
    }
    match &slots[at - 1].entry {
        Entry::TypeVar(kind) => kind.share(),
        _ => Ok(Kind::Star),
    }
}

// The signature and the term of a type parameter of a kind, past so many type variables.
fn type_param(alloc: Global, kind: &Kind, types: u64) -> Result<(Sig, Term), Mem>
    ensures sig { IfOk result (λ r. r.0 ≡ Typ (shift types 0 (eta_of (kind_tree kind.now) (Var 0))) (kind_tree kind.now)) }
    ensures term { IfOk result (λ r. r.1 ≡ type_term_of (shift types 0 (eta_of (kind_tree kind.now) (Var 0))) (kind_tree kind.now)) }
{
    let variable = Ty::make(alloc, TyNode::Var(0))?;
    let scope = [kind.share()?];
    let own = normal(alloc, &scope, &variable, kind)?;
    let ty = raise(alloc, &own, types, 0)?;
    let term = type_term(alloc, plain(&ty), kind)?;
    let sig = Sig::make(alloc, SigNode::Typ(ty, kind.share()?))?;
    Ok((sig, term))
}
