// The signature of a program, as it stands behind the effect.
use crate::sigs::{put_sig, put_variables};
use crate::symbols::Symbols;
use crate::writer::Writer;
use omega_kinds::Mem;
use semantic_sigs::Abs;
use show_order::Order;
use show_text::Page;
use std::alloc::Global;

// How many columns the effect of a program takes, with the blank behind it.
const EFFECT: usize = 2;

/// What stands behind the effect on the page of a program: its signature, whose components come in the order that is given,
/// each once, in lines of its own behind the binder of hidden types. The caller writes what opens the page, and the effect
/// as one letter and a blank. `Err` is out of memory.
///
/// Rossberg, Russo and Dreyer, "F-ing modules", sections 4 and 7.
pub fn put_behind_effect(
    alloc: Global,
    symbols: &'static Symbols,
    abs: &Abs,
    order: Order<'_>,
) -> Result<Page, Mem> {
    let mut writer = Writer::new(alloc, symbols);
    writer.put_sign("", EFFECT)?;
    if !abs.kinds().items().is_empty() {
        put_variables(&mut writer, symbols.exists, abs.kinds())?;
        writer.put_break()?;
    }
    put_sig(&mut writer, abs.body(), order)?;
    writer.rest()
}
