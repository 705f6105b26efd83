// Paths into signatures, written as text.
ghost use Rattle.std.specs.Prelude.{codes, map};
ghost use Rattle.fing_text.specs.Writes.{Wrote};
ghost use Rattle.omega_kinds.specs.Text.{◌then◌};
ghost use Rattle.semantic_sigs.specs.Inner.Items.{item_of};
ghost use Rattle.fing_refusals.specs.Line.{item_text, item_list_text, more_items_text, path_text};

use fing_text::{Sink, WriteFault, put};
use semantic_sigs::{Item, Path};

// Writes a path: its steps with dots between them, or a dot alone.
pub(crate) fn write_path<K: Sink>(sink: &mut K, path: &Path) -> Result<(), WriteFault>
    ensures { Wrote (K.told sink.old) (K.told sink.new) (path_text path.now) result }
{
    match path.items() {
        [] => put(sink, b"."),
        [first, rest @ ..] => write_item_list(sink, first, rest),
    }
}

// Writes one step at least, with dots between them.
#[tactic(auto, using(fing_text::proofs::InARow::in_a_row))]
fn write_item_list<K: Sink>(sink: &mut K, first: &Item, rest: &[Item]) -> Result<(), WriteFault>
    ensures { Wrote (K.told sink.old) (K.told sink.new) (item_list_text (item_of first.now) (map item_of rest.now)) result }
{
    write_item(sink, first)?;
    write_more_items(sink, rest)
}

// Writes steps, each with a dot before it.
fn write_more_items<K: Sink>(sink: &mut K, items: &[Item]) -> Result<(), WriteFault>
    ensures { Wrote (K.told sink.old) (K.told sink.new) (more_items_text (map item_of items.now)) result }
{
    for item in items {
        write_dotted(sink, item)?;
    }
    Ok(())
}

// Writes a step with a dot before it.
#[tactic(auto, using(fing_text::proofs::InARow::in_a_row))]
fn write_dotted<K: Sink>(sink: &mut K, item: &Item) -> Result<(), WriteFault>
    ensures { Wrote (K.told sink.old) (K.told sink.new) (codes "." then item_text (item_of item.now)) result }
{
    put(sink, b".")?;
    write_item(sink, item)
}

// Writes a step: a name by its bytes, any other by its word.
fn write_item<K: Sink>(sink: &mut K, item: &Item) -> Result<(), WriteFault>
    ensures { Wrote (K.told sink.old) (K.told sink.new) (item_text (item_of item.now)) result }
{
    match item {
        Item::Part(name) => put(sink, name.bytes()),
        Item::Arg => put(sink, b"(arg)"),
        Item::Res => put(sink, b"(res)"),
        Item::Meta => put(sink, b"(sig)"),
    }
}
