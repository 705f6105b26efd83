// Bindings of values, types and signatures, and finished structures.
ghost use Rattle.std.specs.Prelude.{◌≡◌, ◌↔◌, [], ◌∷◌, List, IfOk, IsTrue};
ghost use Rattle.omega_kinds.specs.View.{kind_tree};
ghost use Rattle.omega_kinds.specs.declared.effect.Effect.TheVariants.{Pure};
ghost use Rattle.omega_terms.specs.Fields.{term_row};
ghost use Rattle.omega_terms.specs.PartTerms.{sig_term as sig_term_of};
ghost use Rattle.omega_terms.specs.Term.{Fields, TermRow};
ghost use Rattle.sig_definitions.specs.Signatures.Encoding.{enc_abs};
ghost use Rattle.sig_definitions.specs.Signatures.FieldOrder.{in_order};
ghost use Rattle.sig_definitions.specs.Signatures.RecordOrder.{NamesRise};
ghost use Rattle.sig_definitions.specs.Signatures.Sig.{Str, SigRow, Abs as AbsTree, made};
ghost use Rattle.sig_laws.specs.Good.{Bound};
ghost use Rattle.semantic_sigs.specs.Inner.Fields.{sig_row};
ghost use Rattle.semantic_sigs.specs.Inner.Made.{module_of};
ghost use Rattle.module_judgments.specs.ModRules.{ValueGives, TypeGives, SignatureGives};
ghost use Rattle.module_judgments.specs.Sequence.{Collected};

use crate::naming::open_module;
use omega_kinds::{Label, Mem, Name, Names};
use omega_shorthands::{one_field, variable};
use omega_terms::{Term, TermFields, TermNode};
use semantic_sigs::{
    Abs, Env, Kinded, Module, Sig, SigFields, SigNode, Typed, encode, type_term, value_term,
};
use sig_rules::NameSet;
use std::alloc::Global;
use type_normal::plain;

/// `val X = E`: a value part. `Err` is out of memory, as for all calls of this file.
pub fn bind_val(alloc: Global, value: Typed) -> Result<Module, Mem>
    ensures { IfOk result (λ m. ValueGives value.ty value.term (module_of m)) }
{
    let sig = Sig::make(alloc, SigNode::Val(value.ty))?;
    let term = value_term(alloc, value.term)?;
    open_module(alloc, sig, term)
}

/// `type X = T`: a type part.
pub fn bind_type(alloc: Global, ty: &Kinded) -> Result<Module, Mem>
    ensures { IfOk result (λ m. TypeGives ty.now.ty (kind_tree ty.now.kind) (module_of m)) }
{
    let shared = ty.ty.share()?;
    let kind = ty.kind.share()?;
    let sig = Sig::make(alloc, SigNode::Typ(shared, kind))?;
    let term = type_term(alloc, plain(&ty.ty), &ty.kind)?;
    open_module(alloc, sig, term)
}

/// `signature X = S`: a signature part.
pub fn bind_sig(alloc: Global, sig: &Abs) -> Result<Module, Mem>
    ensures { IfOk result (λ m. SignatureGives sig.now (module_of m)) }
{
    let term = sig_term(alloc, sig)?;
    let shared = sig.share()?;
    let part = Sig::make(alloc, SigNode::Meta(shared))?;
    open_module(alloc, part, term)
}

// The term of a signature part.
fn sig_term(alloc: Global, sig: &Abs) -> Result<Term, Mem>
    ensures { IfOk result (λ e. e ≡ sig_term_of (enc_abs sig.now)) }
{
    let encoded = encode(alloc, sig)?;
    let identity = Term::make(alloc, TermNode::Lam(encoded, variable(alloc, 0)?))?;
    one_field(alloc, Label::Sig, identity)
}

/// The end of a structure: a structure of what the environment has for each of these names, once each, in their order.
/// The names are all bound; they stand in any order, and a name may stand more than once.
///
/// Rossberg, Russo and Dreyer, "F-ing modules", section 4, Bindings; that labels are kept in an order is this project's own.
pub fn end_struct(alloc: Global, env: &Env, names: &Names) -> Result<Module, Mem>
    requires { Bound env.now names.now }
    ensures { IfOk result (λ m. (fs : SigRow) × (es : TermRow) × Collected env.now (in_order names.now) fs es × (module_of m ≡ made Pure (AbsTree.Ex [] (Str fs)) [] (Fields es))) }
{
    if rise(names.items()) {
        return collected(alloc, env, names.items());
    }
    let sorted = sorted(alloc, names.items())?;
    collected(alloc, env, sorted.items())
}

// Whether each name is before the next one.
fn rise(names: &[Name]) -> bool
    ensures { IsTrue result ↔ NamesRise names.now }
{
    match names {
        [] => true,
        [first, rest @ ..] => rise_from(first, rest),
    }
}

// The same of names that are not empty.
fn rise_from(first: &Name, rest: &[Name]) -> bool
    ensures { IsTrue result ↔ NamesRise (first.now ∷ rest.now) }
{
    let mut last = first;
    for name in rest {
        if !last.cmp(name).is_lt() {
            return false;
        }
        last = name;
    }
    true
}

// The names in their order, once each.
#[tactic(auto, using(crate::proofs::Rising::put_steps))]
fn sorted(alloc: Global, names: &[Name]) -> Result<Names, Mem>
    ensures { IfOk result (λ n. n ≡ in_order names.now) }
{
    let mut set = NameSet::new(alloc);
    for name in names.iter().rev() {
        set = set.with(name)?;
    }
    set.list(alloc)
}

// A structure of what the environment has for each of these names.
fn collected(alloc: Global, env: &Env, names: &[Name]) -> Result<Module, Mem>
    requires found { Bound env.now names.now }
    requires rising { NamesRise names.now }
    ensures { IfOk result (λ m. (fs : SigRow) × (es : TermRow) × Collected env.now names.now fs es × (module_of m ≡ made Pure (AbsTree.Ex [] (Str fs)) [] (Fields es))) }
{
    let mut parts = SigFields::with_capacity(alloc, names.len())?;
    let mut terms = TermFields::with_capacity(alloc, names.len())?;
    for name in names {
        let Some(found) = env.find(alloc, name)? else {
            unreachable!();
        };
        let part = name.share()?;
        let field = name.share()?;
        parts.push((part, found.0))?;
        terms.push((Label::Name(field), found.1))?;
    }
    finished(alloc, parts, terms)
}

// A structure of these parts, as a pure module.
fn finished(alloc: Global, parts: SigFields, terms: TermFields) -> Result<Module, Mem>
    ensures { IfOk result (λ m. module_of m ≡ made Pure (AbsTree.Ex [] (Str (sig_row parts))) [] (Fields (term_row terms))) }
{
    let sig = Sig::make(alloc, SigNode::Str(parts))?;
    let term = Term::make(alloc, TermNode::Fields(terms))?;
    open_module(alloc, sig, term)
}
