// Names of fields, each one new, and places.
ghost use Rattle.std.specs.Prelude.{◌≡◌, ◌↔◌, ◌++◌, ◌∷◌, [], IfErr, IsTrue, OnOk, map};
ghost use Rattle.sig_definitions.specs.Signatures.RecordOrder.{IsNew};
ghost use Rattle.refusal_reasons.specs.Refusal.{DuplicateField};
ghost use Rattle.fing_syntax.specs.Inner.Leaves.{place};
ghost use Rattle.elab_rules.specs.Inner.Answered.{ByTest};
ghost use Rattle.elab_rules.specs.Inner.Fields.{names_before};

use crate::refusing::refuse;
use fing_refusals::{ElabWhy, Refusal};
use fing_syntax::SpanName;
use fing_text::Span;
use omega_kinds::{Mem, Name, same_name};
use semantic_sigs::Env;

// Whether the name is none of those of the parts.
fn is_new<T>(name: &Name, done: &[(Name, T)]) -> bool
    ensures { IsTrue result ↔ IsNew name.now (map (λ x. x.0) done.now) }
{
    for part in done {
        if same_name(name, &part.0) {
            return false;
        }
    }
    true
}

/// The name is none of those of the parts that are done. `DuplicateField` comes exactly where it is one of them.
pub fn expect_new<T>(env: &Env, name: &SpanName, done: &[(Name, T)]) -> Result<(), Refusal>
    ensures given { OnOk result (IsNew name.now.name (names_before done.now)) }
    ensures refused { IfErr result (λ e. ByTest env.now (place name.now.span) (IsNew name.now.name (names_before done.now) → ⊥) (DuplicateField name.now.name) e) }
{
    if is_new(&name.name, done) {
        return Ok(());
    }
    let why = ElabWhy::DuplicateField(name.name.share()?);
    Err(refuse(env, name.span, why))
}

/// One more part under a name. `Err` is want of memory.
pub fn add<T: Drop>(done: &mut Vec<(Name, T)>, name: &Name, part: T) -> Result<(), Mem>
    ensures { OnOk result (done.new.items ≡ done.old.items ++ (name.now, part) ∷ []) }
{
    done.push((name.share()?, part))?;
    Ok(())
}

/// From the first byte of one place to the last of another.
pub fn up_to(from: Span, to: Span) -> Span
    ensures { result ≡ record from { to = to.to } }
{
    Span {
        from: from.from,
        to: to.to,
    }
}
