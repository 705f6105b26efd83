// Declarations in a row that are gathered, the last one first, so that their signature is made once.
ghost use Rattle.std.specs.Prelude.{◌≡◌, ◌++◌, ◌∷◌, [], List, IfOk, OnOk};
ghost use Rattle.std.specs.BTreeMap.{insert_entry};
ghost use Rattle.omega_kinds.specs.Kind.{Kind as KindTree};
ghost use Rattle.omega_kinds.specs.LabelOrder.{name_cmp};
ghost use Rattle.sig_definitions.specs.Signatures.FieldOrder.{merge as merge_of};
ghost use Rattle.sig_definitions.specs.Signatures.Sig.{SigRow, Str, Ex};
ghost use Rattle.semantic_sigs.specs.Inner.Fields.{Rises, sig_row};
ghost use Rattle.sig_judgments.specs.SigRules.{DeclarationsGive};
ghost use Rattle.sig_rules.specs.Inner.Plain.{AreApart};

use crate::hidden::joined;
use omega_kinds::{Kinds, Mem, Name};
use semantic_sigs::{Abs, Sig, SigFields, SigNode, raise_sig};
use std::alloc::Global;
use std::collections::BTreeMap;
use std::marker::Model;

/// Declarations in a row, gathered from the last one on. Contracts see them as the signature that they make.
pub struct Declarations {
    // of the hidden types, the outermost first
    kinds: Kinds,
    parts: BTreeMap<Name, Sig>,
}

impl Model for Declarations {
    ghost use Rattle.sig_definitions.specs.Signatures.Sig.{Abs as AbsTree, Ex, Str};
    ghost use Rattle.semantic_sigs.specs.Inner.Fields.{sig_row};

    ghost Value = { AbsTree };

    ghost use Rattle.semantic_sigs.specs.Inner.Code.{abs_code};

    ghost coded = { abs_code };

    ghost view = { λ d. Ex d.kinds (Str (sig_row d.parts.entries)) };
}

impl Drop for Declarations {
    fn drop(self) {
        let Declarations { kinds, parts } = self;
        drop(kinds);
        drop(parts);
    }
}

impl Declarations {
    /// No declarations.
    pub fn new(alloc: Global) -> Declarations
        ensures { result ≡ Ex [] (Str SigRow.End) }
    {
        Declarations {
            kinds: Kinds::new(alloc),
            parts: BTreeMap::new(alloc),
        }
    }

    /// A declaration and those gathered after it, which stand under its hidden types, as by `seq_decl`, in time that grows
    /// with the declaration and hardly with those after it. `Err` is out of memory, as for all calls below.
    pub fn after(self, alloc: Global, first: &Abs) -> Result<Declarations, Mem>
        ensures { IfOk result (λ x. (ks js : List KindTree) (fs gs : SigRow) → first.now ≡ Ex ks (Str fs) → self ≡ Ex js (Str gs) → AreApart fs gs → DeclarationsGive first.now self x) }
    {
        let Declarations { kinds, mut parts } = self;
        let raised = raise_sig(alloc, first.body(), kinds.items().len() as u64, 0)?;
        add_parts(&mut parts, &raised)?;
        let kinds = joined(alloc, first.kinds().items(), kinds.items())?;
        Ok(Declarations { kinds, parts })
    }

    /// The signature that they make.
    pub fn whole(&self, alloc: Global) -> Result<Abs, Mem>
        ensures { IfOk result (λ x. x ≡ self.now) }
    {
        let fields = row(alloc, &self.parts)?;
        let body = Sig::make(alloc, SigNode::Str(fields))?;
        Abs::make(alloc, self.kinds.share(alloc)?, body)
    }
}

// The fields of a structure beside parts of other names.
fn add_parts(parts: &mut BTreeMap<Name, Sig>, sig: &Sig) -> Result<(), Mem>
    ensures { OnOk result ((fs : SigRow) → sig.now ≡ Str fs → AreApart fs (sig_row parts.old.entries) → sig_row parts.new.entries ≡ merge_of fs (sig_row parts.old.entries)) }
{
    match sig.node() {
        SigNode::Str(fields) => add_fields(parts, fields.items()),
        _ => Ok(()),
    }
}

// Fields beside parts of other names.
fn add_fields(parts: &mut BTreeMap<Name, Sig>, fields: &[(Name, Sig)]) -> Result<(), Mem>
    requires { Rises fields.now }
    ensures { OnOk result (AreApart (sig_row fields.now) (sig_row parts.old.entries) → sig_row parts.new.entries ≡ merge_of (sig_row fields.now) (sig_row parts.old.entries)) }
{
    let mut left = fields.len();
    while left > 0 {
        left -= 1;
        add(parts, &fields[left])?;
    }
    Ok(())
}

// One more part.
fn add(parts: &mut BTreeMap<Name, Sig>, field: &(Name, Sig)) -> Result<(), Mem>
    ensures { OnOk result (parts.new.entries ≡ insert_entry name_cmp parts.old.entries field.now.0 field.now.1) }
{
    parts.insert(field.0.share()?, field.1.share()?)?;
    Ok(())
}

// The parts, in the order of names.
fn row(alloc: Global, parts: &BTreeMap<Name, Sig>) -> Result<SigFields, Mem>
    ensures { IfOk result (λ f. f ≡ parts.now.entries) }
{
    let mut fields = SigFields::with_capacity(alloc, parts.len())?;
    for (name, part) in parts {
        fields.push((name.share()?, part.share()?))?;
    }
    Ok(fields)
}
