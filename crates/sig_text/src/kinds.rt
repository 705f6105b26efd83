// Lists of kinds, written as text.
ghost use Rattle.std.specs.Prelude.{codes, map};
ghost use Rattle.fing_text.specs.Writes.{Wrote};
ghost use Rattle.omega_kinds.specs.Text.{◌then◌};
ghost use Rattle.omega_kinds.specs.View.{kind_tree};
ghost use Rattle.omega_terms.specs.KindText.{kind_text};
ghost use Rattle.sig_text.specs.SigText.{kind_list_text, kinds_text, more_kinds_text};

use fing_text::{Sink, WriteFault, put};
use omega_kinds::{Kind, Kinds};
use omega_write::write_kind;

// Writes kinds in parentheses, with spaces between them.
pub(crate) fn write_kinds<K: Sink>(sink: &mut K, kinds: &Kinds) -> Result<(), WriteFault>
    ensures { Wrote (K.told sink.old) (K.told sink.new) (kinds_text kinds.now) result }
{
    match kinds.items() {
        [] => put(sink, b"()"),
        [first, rest @ ..] => write_some_kinds(sink, first, rest),
    }
}

// Writes one kind at least in parentheses.
#[tactic(auto, using(fing_text::proofs::InARow::in_a_row))]
fn write_some_kinds<K: Sink>(sink: &mut K, first: &Kind, rest: &[Kind]) -> Result<(), WriteFault>
    ensures { Wrote (K.told sink.old) (K.told sink.new) (codes "(" then kind_list_text (kind_tree first.now) (map kind_tree rest.now) then codes ")") result }
{
    put(sink, b"(")?;
    write_kind_list(sink, first, rest)?;
    put(sink, b")")
}

// Writes one kind at least, with spaces between them.
#[tactic(auto, using(fing_text::proofs::InARow::in_a_row))]
fn write_kind_list<K: Sink>(sink: &mut K, first: &Kind, rest: &[Kind]) -> Result<(), WriteFault>
    ensures { Wrote (K.told sink.old) (K.told sink.new) (kind_list_text (kind_tree first.now) (map kind_tree rest.now)) result }
{
    write_kind(sink, first)?;
    write_more_kinds(sink, rest)
}

// Writes kinds, each with a space before it.
fn write_more_kinds<K: Sink>(sink: &mut K, kinds: &[Kind]) -> Result<(), WriteFault>
    ensures { Wrote (K.told sink.old) (K.told sink.new) (more_kinds_text (map kind_tree kinds.now)) result }
{
    for kind in kinds {
        write_spaced(sink, kind)?;
    }
    Ok(())
}

// Writes a kind with a space before it.
#[tactic(auto, using(fing_text::proofs::InARow::in_a_row))]
fn write_spaced<K: Sink>(sink: &mut K, kind: &Kind) -> Result<(), WriteFault>
    ensures { Wrote (K.told sink.old) (K.told sink.new) (codes " " then kind_text (kind_tree kind.now)) result }
{
    put(sink, b" ")?;
    write_kind(sink, kind)
}
