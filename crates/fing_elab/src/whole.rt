// Whole programs.
ghost use Rattle.std.specs.Prelude.{◌≡◌, [], IfErr, IfOk};
ghost use Rattle.omega_terms.specs.Typing.{HasType};
ghost use Rattle.omega_terms.specs.declared.version.Version.{Version};
ghost use Rattle.sig_definitions.specs.Packing.{Packed};
ghost use Rattle.sig_definitions.specs.Signatures.Encoding.{enc_abs};
ghost use Rattle.sig_laws.specs.Good.{KindedModule};
ghost use Rattle.semantic_sigs.specs.Inner.Made.{module_of};
ghost use Rattle.elab_spelling.specs.Legible.{TermLegible, TyLegible};
ghost use Rattle.elab_spelling.specs.Phrases.{BindsSpelled};
ghost use Rattle.fing_refusals.specs.Inner.Plain.{Says};
ghost use Rattle.fing_elab.specs.Inner.Exactly.{Means, IsRefused};

use elab_phrases::{NameSet, structure};
use fing_refusals::Refusal;
use fing_syntax::Program;
use module_rules::packed;
use omega_kinds::{Effect, Mem};
use omega_terms::Term;
use semantic_sigs::{Abs, Env, Module, Witnesses};
use std::alloc::Global;

/// What a program means: its effect, its signature, the types that the signature hides where the effect is pure, and its
/// term, which stands beside these types; `whole` is the term with the hidden types packed into it, as it is emitted.
#[derive(Drop)]
pub struct Elaborated {
    pub effect: Effect,
    pub sig: Abs,
    pub types: Witnesses,
    pub term: Term,
    pub whole: Term,
}

// The term of a module with its hidden types packed into it; the module is kept.
fn whole_of(alloc: Global, whole: &Module) -> Result<Term, Mem>
    requires { KindedModule [] (module_of whole.now) }
    ensures { IfOk result (λ e. Packed [] (module_of whole.now) e) }
{
    let sig = whole.sig.share()?;
    let types = whole.types.share(alloc)?;
    let term = whole.term.share()?;
    let kept = Module {
        effect: whole.effect,
        sig,
        types,
        term,
    };
    packed(alloc, kept)
}

/// What a program means, or why it means nothing: the refusal is that of the first rule, in the order of the text, of which
/// a condition fails. A refusal for want of memory has the place from 0 to 0 and tells of no type variables. The types of
/// each meaning are normal by the laws of elab_laws, and those of each refusal by elab_exact's, in a context of as many
/// type variables as it tells. Where the names, texts and numbers of the program have a spelling in a version of Omega text,
/// and it has the forms of the program, the labels, texts, numbers and fields of the whole term and of its type have one.
///
/// Rossberg, Russo and Dreyer, "F-ing modules", sections 4 to 7, Elaboration.
pub fn elab(alloc: Global, program: &Program) -> Result<Elaborated, Refusal>
    ensures means { IfOk result (λ o. Means program.now o) }
    ensures typed { IfOk result (λ o. HasType [] [] o.whole (enc_abs o.sig)) }
    ensures spelled { IfOk result (λ o. (v : Version) → BindsSpelled v program.now → TyLegible v (enc_abs o.sig) × TermLegible v o.whole) }
    ensures refused { IfErr result (λ e. Says e (IsRefused program.now)) }
{
    let env = Env::new(alloc);
    let found = structure(alloc, env, NameSet::new(alloc), &program.binds)?;
    let whole = whole_of(alloc, &found)?;
    Ok(Elaborated {
        effect: found.effect,
        sig: found.sig,
        types: found.types,
        term: found.term,
        whole,
    })
}
