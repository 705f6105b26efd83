// Sets of names, with the names of fields.
ghost use Rattle.std.specs.Prelude.{◌≡◌, IfOk};
ghost use Rattle.sig_definitions.specs.Signatures.FieldOrder.{with_names as with_names_of};
ghost use Rattle.semantic_sigs.specs.Inner.Fields.{sig_row};

use omega_kinds::Mem;
use semantic_sigs::SigFields;
pub use sig_rules::NameSet;

/// The names of fields more. `Err` is want of memory.
pub fn with_names(before: NameSet, fields: &SigFields) -> Result<NameSet, Mem>
    ensures { IfOk result (λ n. n ≡ with_names_of (sig_row fields.now) before) }
{
    let mut names = before;
    for field in fields.items() {
        names = names.with(&field.0)?;
    }
    Ok(names)
}
