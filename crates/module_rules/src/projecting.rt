// Parts of modules, and modules packed.
ghost use Rattle.std.specs.Prelude.{◌≡◌, List, IfErr, IfOk, IfSome};
ghost use Rattle.omega_kinds.specs.Kind.{Kind as KindTree};
ghost use Rattle.omega_kinds.specs.declared.label.Label.TheVariants as label;
ghost use Rattle.omega_terms.specs.Shorthands.{opens as opens_of, Packs};
ghost use Rattle.omega_terms.specs.Term.{Get, Term as TermTree, Var};
ghost use Rattle.sig_definitions.specs.Signatures.Encoding.{enc_abs};
ghost use Rattle.sig_definitions.specs.Signatures.Sig.{Ex, HasField, Sig as SigTree, SigRow, Str};
ghost use Rattle.sig_definitions.specs.Packing.{Packed};
ghost use Rattle.sig_laws.specs.Good.{KindedModule};
ghost use Rattle.semantic_sigs.specs.Inner.Made.{module_of};
ghost use Rattle.semantic_sigs.specs.Inner.View.{kinds_of, body_of};
ghost use Rattle.module_judgments.specs.ModRules.{ProjectRefuses};
ghost use Rattle.module_judgments.specs.Projection.{Projected};
ghost use Rattle.module_rules.specs.Inner.Plain.{plain_why};
ghost use Rattle.module_rules.specs.Inner.Shown.{PackedAgain};
ghost use Rattle.omega_kinds.specs.declared.effect.Effect.TheVariants.{Pure, Impure};
ghost use Rattle.omega_shorthands.specs.Inner.Packed.{Fills};

use crate::hidden::{count_of, own_types};
use crate::refusal::ModRefusal;
use omega_kinds::{Effect, Kinds, Label, Mem, Name};
use omega_shorthands::{opens, pack_up, variable};
use omega_terms::{Term, TermNode};
use omega_types::shift;
use semantic_sigs::{Abs, Module, Sig, Witnesses, encode, find_field};
use std::alloc::Global;

/// `M.X`, where the types of M are normal and have their kinds. An impure module is opened, and what it hides is packed
/// again with the part. `NotStructure` comes exactly where M is no structure, and `NoPart` where the structure has no part
/// X.
pub fn project(alloc: Global, whole: Module, name: &Name) -> Result<Module, ModRefusal>
    ensures given { IfOk result (λ m. (ctx : List KindTree) → KindedModule ctx (module_of whole) → Projected ctx (module_of whole) name.now (module_of m)) }
    ensures refused { IfErr result (λ e. IfSome (plain_why e) (λ why. ProjectRefuses (module_of whole) name.now why)) }
{
    let Some(fields) = whole.sig.body().as_structure() else {
        return Err(ModRefusal::NotStructure);
    };
    let Some(part) = find_field(fields, name) else {
        return Err(ModRefusal::NoPart(name.share()?));
    };
    Ok(part_of(alloc, &whole, name, part)?)
}

// The module that a part of a structure is. `Err` is out of memory, as for all calls below.
fn part_of(alloc: Global, whole: &Module, name: &Name, part: &Sig) -> Result<Module, Mem>
    ensures { IfOk result (λ m. (fs : SigRow) → body_of whole.now.sig ≡ Str fs → HasField fs name.now part.now → (ctx : List KindTree) → KindedModule ctx (module_of whole.now) → Projected ctx (module_of whole.now) name.now (module_of m)) }
{
    let kinds = whole.sig.kinds().share(alloc)?;
    let body = part.share()?;
    let sig = Abs::make(alloc, kinds, body)?;
    match whole.effect {
        Effect::Pure => pure_part(alloc, whole, name, &sig),
        Effect::Impure => impure_part(alloc, whole, name, &sig),
    }
}

// The part of a pure module.
fn pure_part(alloc: Global, whole: &Module, name: &Name, sig: &Abs) -> Result<Module, Mem>
    ensures { IfOk result (λ m. (fs : SigRow) (s : SigTree) → whole.now.effect ≡ Pure → body_of whole.now.sig ≡ Str fs → HasField fs name.now s → sig.now ≡ Ex (kinds_of whole.now.sig) s → (ctx : List KindTree) → KindedModule ctx (module_of whole.now) → Projected ctx (module_of whole.now) name.now (module_of m)) }
{
    let types = whole.types.share(alloc)?;
    let term = named_part(alloc, &whole.term, name)?;
    let sig = sig.share()?;
    Ok(Module {
        effect: Effect::Pure,
        sig,
        types,
        term,
    })
}

// The part of an impure module.
fn impure_part(alloc: Global, whole: &Module, name: &Name, sig: &Abs) -> Result<Module, Mem>
    ensures { IfOk result (λ m. (fs : SigRow) (s : SigTree) → whole.now.effect ≡ Impure → body_of whole.now.sig ≡ Str fs → HasField fs name.now s → sig.now ≡ Ex (kinds_of whole.now.sig) s → (ctx : List KindTree) → KindedModule ctx (module_of whole.now) → Projected ctx (module_of whole.now) name.now (module_of m)) }
{
    let term = opened_part(alloc, whole, name, sig)?;
    let sig = sig.share()?;
    let types = Witnesses::new(alloc);
    Ok(Module {
        effect: Effect::Impure,
        sig,
        types,
        term,
    })
}

// The part of an opened module, packed as its signature says.
fn opened_part(alloc: Global, whole: &Module, name: &Name, sig: &Abs) -> Result<Term, Mem>
    ensures { IfOk result (λ e. (d : TermTree) × PackedAgain (kinds_of whole.now.sig) sig.now (Get (Var 0) (label.Name name.now)) d × (e ≡ opens_of (kinds_of whole.now.sig) whole.now.term (enc_abs whole.now.sig) d)) }
{
    let own = variable(alloc, 0)?;
    let part = named_part(alloc, &own, name)?;
    let body = packed_again(alloc, whole.sig.kinds(), &part, sig)?;
    let term = whole.term.share()?;
    opened(alloc, term, &whole.sig, body)
}

// The part of a term under a name.
pub(crate) fn named_part(alloc: Global, term: &Term, name: &Name) -> Result<Term, Mem>
    ensures { IfOk result (λ e. e ≡ Get term.now (label.Name name.now)) }
{
    let whole = term.share()?;
    let own = name.share()?;
    Term::make(alloc, TermNode::Get(whole, Label::Name(own)))
}

// A term below binders, with their variables packed into it; the signature stands outside of the binders, and hides
// types of their kinds first. Where there are no binders, nothing is encoded.
pub(crate) fn packed_again(
    alloc: Global,
    kinds: &Kinds,
    term: &Term,
    sig: &Abs,
) -> Result<Term, Mem>
    ensures { IfOk result (λ d. PackedAgain kinds.now sig.now term.now d) }
{
    if kinds.items().is_empty() {
        return term.share();
    }
    packed_below(alloc, kinds, term, sig)
}

// The same, whether there are binders or none.
fn packed_below(alloc: Global, kinds: &Kinds, term: &Term, sig: &Abs) -> Result<Term, Mem>
    ensures { IfOk result (λ d. PackedAgain kinds.now sig.now term.now d) }
{
    let from = encode(alloc, sig)?;
    let to = shift(alloc, &from, count_of(kinds), 0)?;
    let own = own_types(alloc, kinds)?;
    pack_up(alloc, own.items(), term, &to)
}

// The hidden types of a term of a signature, opened in a body.
pub(crate) fn opened(alloc: Global, term: Term, sig: &Abs, body: Term) -> Result<Term, Mem>
    ensures { IfOk result (λ e. e ≡ opens_of (kinds_of sig.now) term (enc_abs sig.now) body) }
{
    let from = encode(alloc, sig)?;
    opens(alloc, count_of(sig.kinds()), term, &from, body)
}

/// The term of a module, whose types are normal and have their kinds, with the types that its signature hides packed into
/// it; an impure one has them packed already. `Err` is out of memory.
pub fn packed(alloc: Global, whole: Module) -> Result<Term, Mem>
    ensures { IfOk result (λ e. (ctx : List KindTree) → KindedModule ctx (module_of whole) → Packed ctx (module_of whole) e) }
{
    packed_term(alloc, &whole)
}

// The same, the module being kept.
pub(crate) fn packed_term(alloc: Global, whole: &Module) -> Result<Term, Mem>
    ensures { IfOk result (λ e. (ctx : List KindTree) → KindedModule ctx (module_of whole.now) → Packed ctx (module_of whole.now) e) }
{
    match whole.effect {
        Effect::Pure => packed_pure(alloc, whole),
        Effect::Impure => whole.term.share(),
    }
}

// The types of a pure module packed into its term.
fn packed_pure(alloc: Global, whole: &Module) -> Result<Term, Mem>
    ensures { IfOk result (λ d. (ctx : List KindTree) → Fills ctx whole.now.types (enc_abs whole.now.sig) → Packs ctx whole.now.types whole.now.term (enc_abs whole.now.sig) d) }
{
    let types = whole.types.items();
    if types.is_empty() {
        return whole.term.share();
    }
    let to = encode(alloc, &whole.sig)?;
    pack_up(alloc, types, &whole.term, &to)
}
