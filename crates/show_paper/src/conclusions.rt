// What the rules of elaboration say of a phrase, in the notation of the literature.
use crate::kinds::put_kind;
use crate::sigs::put_abs;
use crate::symbols::Symbols;
use crate::types::put_type;
use crate::writer::Writer;
use omega_kinds::{Effect, Kind, Mem, Name};
use semantic_sigs::Abs;
use show_order::Orders;
use show_text::Page;
use std::alloc::Global;
use type_normal::{NormalTy, plain};

/// What a phrase means: a value of a type, a type of a kind, a module with its effect and its signature, a signature, or the
/// name of a binding with the effect and the signature of what it binds.
#[derive(Drop)]
pub enum Conclusion {
    Value(NormalTy),
    Type(NormalTy, Kind),
    Module(Effect, Abs),
    Signature(Abs),
    Binding(Name, Effect, Abs),
}

/// The page of a conclusion in the scope of so many type variables: what stands behind the phrase in a figure of the
/// literature, as `: int → int`. `Err` is out of memory.
///
/// Rossberg, Russo and Dreyer, "F-ing modules", sections 4 and 7, Elaboration.
pub fn conclusion_page(
    alloc: Global,
    symbols: &'static Symbols,
    types: u64,
    conclusion: &Conclusion,
) -> Result<Page, Mem> {
    let mut writer = Writer::new(alloc, symbols);
    writer.bind(types);
    put_conclusion(&mut writer, conclusion)?;
    writer.page()
}

// Writes a conclusion.
fn put_conclusion(writer: &mut Writer, conclusion: &Conclusion) -> Result<(), Mem> {
    match conclusion {
        Conclusion::Value(ty) => {
            writer.put(": ")?;
            put_type(writer, plain(ty))
        }
        Conclusion::Type(ty, kind) => {
            put_means(writer)?;
            put_type(writer, plain(ty))?;
            writer.put(" : ")?;
            put_kind(writer, kind)
        }
        Conclusion::Module(effect, sig) => put_module(writer, *effect, sig),
        Conclusion::Signature(sig) => {
            put_means(writer)?;
            put_by_name(writer, sig)
        }
        Conclusion::Binding(name, effect, sig) => {
            writer.put_word("binds")?;
            writer.put_space()?;
            writer.put_name(name.bytes())?;
            writer.put_space()?;
            put_module(writer, *effect, sig)
        }
    }
}

// Writes the sign of what a phrase means.
fn put_means(writer: &mut Writer) -> Result<(), Mem> {
    writer.put_sign(writer.symbols().means, 1)?;
    writer.put_space()
}

// Writes the effect and the signature of a module.
fn put_module(writer: &mut Writer, effect: Effect, sig: &Abs) -> Result<(), Mem> {
    let symbols = writer.symbols();
    writer.put_sign(
        match effect {
            Effect::Pure => symbols.pure_has,
            Effect::Impure => symbols.impure_has,
        },
        2,
    )?;
    writer.put_space()?;
    put_by_name(writer, sig)
}

// Writes an abstract signature, whose components come by name.
fn put_by_name(writer: &mut Writer, sig: &Abs) -> Result<(), Mem> {
    let orders = Orders::new(writer.alloc());
    put_abs(writer, sig, orders.whole())
}
