// A binding followed by the rest of a structure.
ghost use Rattle.std.specs.Prelude.{◌≡◌, ◌++◌, map, List, length, IfErr, IfOk, IfSome, IsFalse, IsTrue};
ghost use Rattle.omega_kinds.specs.Kind.{Kind as KindTree};
ghost use Rattle.omega_kinds.specs.declared.effect.Effect.TheVariants.{Pure, Impure};
ghost use Rattle.omega_types.specs.Binders.{extend, puts, NormalForms};
ghost use Rattle.omega_types.specs.Ty.{Var};
ghost use Rattle.omega_terms.specs.Instance.{Instance};
ghost use Rattle.omega_terms.specs.Shorthands.{let_in as let_in_of};
ghost use Rattle.omega_terms.specs.Term.{Term as TermTree};
ghost use Rattle.sig_definitions.specs.Packing.{Packed};
ghost use Rattle.sig_definitions.specs.Signatures.Alike.{IsSigAt, NormalAbs};
ghost use Rattle.sig_definitions.specs.Signatures.Encoding.{enc};
ghost use Rattle.sig_definitions.specs.Signatures.Sig.{Abs as AbsTree, Sig as SigTree};
ghost use Rattle.sig_laws.specs.Good.{NormalTerm, KindedModule};
ghost use Rattle.semantic_sigs.specs.Inner.Changes.{putting, ty_in};
ghost use Rattle.semantic_sigs.specs.Inner.Fields.{sig_row};
ghost use Rattle.semantic_sigs.specs.Inner.Made.{module_of};
ghost use Rattle.semantic_sigs.specs.Inner.View.{kinds_of, body_of};
ghost use Rattle.module_judgments.specs.ModRules.{IncludeGives, IncludeRefuses};
ghost use Rattle.module_judgments.specs.Sequence.{Seq, joined, field_lets as field_lets_of, past_opens as past_opens_of};
ghost use Rattle.module_rules.specs.Inner.Plain.{plain_why};
ghost use Rattle.module_rules.specs.Inner.Shown.{OpenedTerm};

use crate::hidden::count_of;
use crate::projecting::{opened, packed_again, packed_term};
use crate::refusal::ModRefusal;
use omega_kinds::{Effect, Kinds, Label, Mem};
use omega_shorthands::{let_in, variable};
use omega_terms::{Term, TermNode, put_term, shift_term};
use semantic_sigs::{Abs, Module, SigFields, Witnesses, encode_sig, instantiate, put_types};
use sig_instances::instance;
use std::alloc::Global;

/// A binding and the rest of a structure, which stands under the hidden types of the binding and its name. Where both are
/// pure, the types that the first one keeps are put into the rest; else both are packed, the first one is opened, and
/// what both hide is packed again. The types of both are normal and have their kinds. `Err` is out of memory.
///
/// Rossberg, Russo and Dreyer, "F-ing modules", sections 4 and 7.
pub fn seq_bind(alloc: Global, first: Module, rest: Module) -> Result<Module, Mem>
    ensures { IfOk result (λ m. (ctx : List KindTree) → KindedModule ctx (module_of first) → KindedModule (extend ctx (kinds_of first.sig)) (module_of rest) → Seq ctx (module_of first) (module_of rest) (module_of m)) }
{
    if both_pure(first.effect, rest.effect) {
        return pure_sequence(alloc, first, rest);
    }
    impure_sequence(alloc, first, rest)
}

// Whether two effects are pure.
fn both_pure(first: Effect, rest: Effect) -> bool
    ensures pure { IsTrue result → (first ≡ Pure) × (rest ≡ Pure) }
    ensures impure { IsFalse result → joined first rest ≡ Impure }
{
    match first {
        Effect::Pure => match rest {
            Effect::Pure => true,
            Effect::Impure => false,
        },
        Effect::Impure => false,
    }
}

/// `include M` and the rest, which stands under the hidden types of M, a name of its own and then the labels of M in their
/// order. The types of both are normal and have their kinds. `NotStructure` comes exactly where M is no structure.
pub fn include_bind(alloc: Global, first: Module, rest: Module) -> Result<Module, ModRefusal>
    ensures given { IfOk result (λ m. (ctx : List KindTree) → KindedModule ctx (module_of first) → KindedModule (extend ctx (kinds_of first.sig)) (module_of rest) → IncludeGives ctx (module_of first) (module_of rest) (module_of m)) }
    ensures refused { IfErr result (λ e. IfSome (plain_why e) (λ why. IncludeRefuses (module_of first) why)) }
{
    let Some(fields) = first.sig.body().as_structure() else {
        return Err(ModRefusal::NotStructure);
    };
    let term = field_lets(alloc, fields, rest.term)?;
    let last = Module {
        effect: rest.effect,
        sig: rest.sig,
        types: rest.types,
        term,
    };
    Ok(seq_bind(alloc, first, last)?)
}

// A let for each field of a structure, which is the innermost variable outside of them.
fn field_lets(alloc: Global, fields: &SigFields, body: Term) -> Result<Term, Mem>
    ensures { IfOk result (λ e. e ≡ field_lets_of 0 (sig_row fields.now) body) }
{
    let fields = fields.items();
    let mut term = body;
    let mut left = fields.len();
    while left > 0 {
        left -= 1;
        let field = &fields[left];
        let whole = variable(alloc, left as u64)?;
        let name = field.0.share()?;
        let part = Term::make(alloc, TermNode::Get(whole, Label::Name(name)))?;
        let from = encode_sig(&field.1)?;
        term = let_in(alloc, &from, part, term)?;
    }
    Ok(term)
}

// The kinds of two lists of binders, one after the other.
fn both(alloc: Global, first: &Kinds, rest: &Kinds) -> Result<Kinds, Mem>
    ensures { IfOk result (λ ks. ks ≡ first.now ++ rest.now) }
{
    let mut kinds = first.share(alloc)?;
    for kind in rest.items() {
        let shared = kind.share()?;
        kinds.push(shared)?;
    }
    Ok(kinds)
}

// The types that a module keeps, and then those of the rest at these.
fn both_types(alloc: Global, first: &Witnesses, rest: &Witnesses) -> Result<Witnesses, Mem>
    ensures { IfOk result (λ ts. ts ≡ first.now ++ map (ty_in (putting first.now)) rest.now) }
{
    let mut types = first.share(alloc)?;
    for ty in rest.items() {
        let put = put_types(alloc, ty, first.items(), 0)?;
        types.push(put)?;
    }
    Ok(types)
}

// The signature of both: what both hide, and the rest's body.
fn both_sigs(alloc: Global, first: &Abs, rest: &Abs) -> Result<Abs, Mem>
    ensures { IfOk result (λ x. x ≡ AbsTree.Ex (kinds_of first.now ++ kinds_of rest.now) (body_of rest.now)) }
{
    let kinds = both(alloc, first.kinds(), rest.kinds())?;
    let body = rest.body().share()?;
    Abs::make(alloc, kinds, body)
}

// Two pure ones.
fn pure_sequence(alloc: Global, first: Module, rest: Module) -> Result<Module, Mem>
    ensures { IfOk result (λ m. first.effect ≡ Pure → rest.effect ≡ Pure → (ctx : List KindTree) → KindedModule ctx (module_of first) → KindedModule (extend ctx (kinds_of first.sig)) (module_of rest) → Seq ctx (module_of first) (module_of rest) (module_of m)) }
{
    let sig = both_sigs(alloc, &first.sig, &rest.sig)?;
    let types = both_types(alloc, &first.types, &rest.types)?;
    let term = bound_term(alloc, &first, &rest.term)?;
    Ok(Module {
        effect: Effect::Pure,
        sig,
        types,
        term,
    })
}

// The term of a pure module bound in a term, which has the types that the module keeps put in.
fn bound_term(alloc: Global, first: &Module, rest: &Term) -> Result<Term, Mem>
    ensures { IfOk result (λ e. (n : SigTree) × (c : TermTree)
        × ((ctx : List KindTree) → NormalAbs ctx first.now.sig → NormalForms ctx first.now.types (kinds_of first.now.sig) first.now.types → IsSigAt ctx (body_of first.now.sig) first.now.types n)
        × ((ctx ks : List KindTree) → NormalTerm (extend ctx ks) rest.now → NormalForms ctx first.now.types ks first.now.types → Instance (extend ctx ks) ctx (puts first.now.types Var) rest.now c)
        × (e ≡ let_in_of (enc n) first.now.term c)) }
{
    let at = instantiate(alloc, &first.sig, first.types.items())?;
    let from = encode_sig(&at)?;
    let body = instance(alloc, rest, first.types.items())?;
    let term = first.term.share()?;
    let_in(alloc, &from, term, body)
}

// Two of which one is impure, or both are.
fn impure_sequence(alloc: Global, first: Module, rest: Module) -> Result<Module, Mem>
    ensures { IfOk result (λ m. joined first.effect rest.effect ≡ Impure → (ctx : List KindTree) → KindedModule ctx (module_of first) → KindedModule (extend ctx (kinds_of first.sig)) (module_of rest) → Seq ctx (module_of first) (module_of rest) (module_of m)) }
{
    let sig = both_sigs(alloc, &first.sig, &rest.sig)?;
    let term = opened_term(alloc, &first, &rest, &sig)?;
    let types = Witnesses::new(alloc);
    Ok(Module {
        effect: Effect::Impure,
        sig,
        types,
        term,
    })
}

// The term of both: the first one is packed and opened, and the rest is packed, with the first one's types.
fn opened_term(alloc: Global, first: &Module, rest: &Module, whole: &Abs) -> Result<Term, Mem>
    ensures { IfOk result (λ e. OpenedTerm first.now.sig (module_of first.now) (module_of rest.now) whole.now e) }
{
    let last = last_term(alloc, first.sig.kinds(), rest)?;
    let body = packed_again(alloc, first.sig.kinds(), &last, whole)?;
    let packed = packed_term(alloc, first)?;
    opened(alloc, packed, &first.sig, body)
}

// The rest, packed, below the opens of binders of these kinds.
fn last_term(alloc: Global, kinds: &Kinds, rest: &Module) -> Result<Term, Mem>
    ensures { IfOk result (λ e. (q : TermTree) × ((ctx : List KindTree) → KindedModule ctx (module_of rest.now) → Packed ctx (module_of rest.now) q) × (e ≡ past_opens_of kinds.now q)) }
{
    let packed = packed_term(alloc, rest)?;
    past_opens(alloc, packed, count_of(kinds))
}

// A term below one variable, as it stands below those of so many opens, the innermost of which is that one.
fn past_opens(alloc: Global, term: Term, count: u64) -> Result<Term, Mem>
    ensures { IfOk result (λ e. (ks : List KindTree) → length ks ≡ count → e ≡ past_opens_of ks term) }
{
    if count < 2 {
        return Ok(term);
    }
    let shifted = shift_term(alloc, &term, 0, count)?;
    let own = variable(alloc, 0)?;
    put_term(alloc, &shifted, count, &own)
}
