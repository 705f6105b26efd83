// Paths as types, as values and as signatures.
ghost use Rattle.std.specs.Prelude.{◌≡◌, List, IfErr, IfOk, IfSome};
ghost use Rattle.omega_kinds.specs.Kind.{Kind as KindTree};
ghost use Rattle.omega_kinds.specs.View.{kind_tree};
ghost use Rattle.omega_kinds.specs.declared.effect.Effect.TheVariants.{Impure};
ghost use Rattle.sig_definitions.specs.Signatures.Encoding.{enc_abs};
ghost use Rattle.sig_laws.specs.Good.{KindedModule};
ghost use Rattle.semantic_sigs.specs.Inner.Made.{module_of};
ghost use Rattle.semantic_sigs.specs.Inner.View.{kinds_of};
ghost use Rattle.module_judgments.specs.ModRules.{TypePathRefuses, ValuePathRefuses, SigPathRefuses};
ghost use Rattle.module_judgments.specs.PathUse.{TypeOfPath, ValueOfPath, SigOfPath, value_of as value_of_path};
ghost use Rattle.module_rules.specs.Inner.Plain.{plain_why};

use crate::hidden::{count_of, outside, outside_sig};
use crate::projecting::opened;
use crate::refusal::ModRefusal;
use omega_kinds::{Effect, Label, Mem};
use omega_shorthands::variable;
use omega_terms::{Term, TermNode};
use semantic_sigs::{Abs, Kinded, Module, Typed};
use std::alloc::Global;

/// A path as a type, of a module whose types are normal and have their kinds. `WrongPath` comes exactly where the
/// module is no type part, and `Escapes` where the type mentions a hidden type, whatever it is converted to.
pub fn path_type(alloc: Global, whole: Module) -> Result<Kinded, ModRefusal>
    ensures given { IfOk result (λ o. (ctx : List KindTree) → KindedModule ctx (module_of whole) → TypeOfPath ctx (module_of whole) o.ty (kind_tree o.kind)) }
    ensures refused { IfErr result (λ e. IfSome (plain_why e) (λ why. (ctx : List KindTree) → KindedModule ctx (module_of whole) → TypePathRefuses ctx (module_of whole) why)) }
{
    let Some(shown) = whole.sig.body().as_type() else {
        return Err(ModRefusal::WrongPath);
    };
    let count = count_of(whole.sig.kinds());
    let Some(ty) = outside(alloc, shown.0, count)? else {
        return Err(ModRefusal::Escapes);
    };
    let kind = shown.1.share()?;
    Ok(Kinded { ty, kind })
}

/// A path as a value, of a module whose types are normal and have their kinds; the hidden types of an impure one are
/// opened. `WrongPath` comes exactly where the module is no value part, and `Escapes` where the type mentions a hidden
/// type, whatever it is converted to.
pub fn path_value(alloc: Global, whole: Module) -> Result<Typed, ModRefusal>
    ensures given { IfOk result (λ o. (ctx : List KindTree) → KindedModule ctx (module_of whole) → ValueOfPath ctx (module_of whole) o.ty o.term) }
    ensures refused { IfErr result (λ e. IfSome (plain_why e) (λ why. (ctx : List KindTree) → KindedModule ctx (module_of whole) → ValuePathRefuses ctx (module_of whole) why)) }
{
    let Some(shown) = whole.sig.body().as_value() else {
        return Err(ModRefusal::WrongPath);
    };
    let count = count_of(whole.sig.kinds());
    let Some(ty) = outside(alloc, shown, count)? else {
        return Err(ModRefusal::Escapes);
    };
    let term = value_of(alloc, &whole)?;
    Ok(Typed { ty, term })
}

/// A path as a signature, of a module whose types are normal and have their kinds. `WrongPath` comes exactly where the
/// module is no signature part, and `Escapes` where the signature mentions a hidden type, whatever it is converted to.
pub fn path_sig(alloc: Global, whole: Module) -> Result<Abs, ModRefusal>
    ensures given { IfOk result (λ x. (ctx : List KindTree) → KindedModule ctx (module_of whole) → SigOfPath ctx (module_of whole) x) }
    ensures refused { IfErr result (λ e. IfSome (plain_why e) (λ why. (ctx : List KindTree) → KindedModule ctx (module_of whole) → SigPathRefuses ctx (module_of whole) why)) }
{
    let Some(_hiding) = whole.sig.body().as_signature() else {
        return Err(ModRefusal::WrongPath);
    };
    let count = count_of(whole.sig.kinds());
    let Some(sig) = outside_sig(alloc, whole.sig.body(), count)? else {
        return Err(ModRefusal::Escapes);
    };
    let Some(shown) = sig.as_signature() else {
        unreachable!();
    };
    Ok(shown.share()?)
}

// The term of a value part.
fn value_of(alloc: Global, whole: &Module) -> Result<Term, Mem>
    ensures { IfOk result (λ e. e ≡ value_of_path whole.now.effect (kinds_of whole.now.sig) whole.now.term (enc_abs whole.now.sig)) }
{
    let term = whole.term.share()?;
    match whole.effect {
        Effect::Pure => Term::make(alloc, TermNode::Get(term, Label::Val)),
        Effect::Impure => opened_value(alloc, term, &whole.sig),
    }
}

// The value part of an opened term of a signature.
fn opened_value(alloc: Global, term: Term, sig: &Abs) -> Result<Term, Mem>
    ensures { IfOk result (λ e. e ≡ value_of_path Impure (kinds_of sig.now) term (enc_abs sig.now)) }
{
    let own = variable(alloc, 0)?;
    let body = Term::make(alloc, TermNode::Get(own, Label::Val))?;
    opened(alloc, term, sig, body)
}
