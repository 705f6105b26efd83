// The lines of steps and of ends.
use crate::contexts::marked_page;
use omega_kinds::Mem;
use omega_machine::{Arith, Frame, Redex, Rule};
use show_text::Page;
use std::alloc::Global;

// What a rule reduces, and its name among the rules of steps.
fn rule_text(rule: Rule) -> &'static str {
    match rule {
        Rule::CallLam => "call of fn (Step.call_lam)",
        Rule::CallFix => "call of fix (Step.call_fix)",
        Rule::InstTyLam => "instance (Step.inst_ty_lam)",
        Rule::GetFields => "field (Step.get_fields)",
        Rule::UnpackPack => "opening of a package (Step.unpack_pack)",
        Rule::IfTrue => "conditional (Step.if_true)",
        Rule::IfFalse => "conditional (Step.if_false)",
        Rule::Arith => "operator (Step.arith)",
        Rule::CaseInj => "case (Step.case_inj)",
        Rule::UnrollRoll => "unrolling (Step.unroll_roll)",
    }
}

// The name of a fault.
fn fault_text(fault: Arith) -> &'static str {
    match fault {
        Arith::Overflow => "Overflow",
        Arith::DivideByZero => "DivideByZero",
    }
}

// Writes a number with a text before it and one behind it.
fn put_numbered(page: &mut Page, before: &str, number: u64, behind: &str) -> Result<(), Mem> {
    page.put(before.as_bytes())?;
    page.put_number(number)?;
    page.put(behind.as_bytes())
}

// Writes a redex in its frames, in lines of their own.
fn put_marked(alloc: Global, page: &mut Page, frames: &[Frame], redex: &Redex) -> Result<(), Mem> {
    let marked = marked_page(alloc, frames, redex)?.into_bytes();
    page.put(&marked)
}

/// Writes a step that follows so many others: its number, its rule, and its redex in its frames. `Err` is out of memory.
pub(crate) fn put_step(
    alloc: Global,
    page: &mut Page,
    before: u64,
    redex: &Redex,
    frames: &[Frame],
) -> Result<(), Mem> {
    put_numbered(page, "step ", before.saturating_add(1), ": ")?;
    page.put_all(&[rule_text(redex.rule).as_bytes(), b"\n"])?;
    put_marked(alloc, page, frames, redex)
}

// Writes how many of the steps are not shown after those that are, if there are any of both.
fn put_hidden(page: &mut Page, steps: u64, shown: u64) -> Result<(), Mem> {
    if shown == 0 {
        return Ok(());
    }
    match steps.saturating_sub(shown) {
        0 => Ok(()),
        1 => page.put("… 1 step is not shown\n".as_bytes()),
        hidden => put_numbered(page, "… ", hidden, " steps are not shown\n"),
    }
}

/// Writes the end in a value after so many steps, of which no more than so many are shown: the lines of its text.
pub(crate) fn put_value(page: &mut Page, text: &[u8], steps: u64, shown: u64) -> Result<(), Mem> {
    put_hidden(page, steps, shown)?;
    put_numbered(
        page,
        "value after ",
        steps,
        if steps == 1 { " step\n" } else { " steps\n" },
    )?;
    page.put(text)
}

/// Writes the end in a fault that comes after so many steps, and the redex that has it, in its frames.
pub(crate) fn put_fault(
    alloc: Global,
    page: &mut Page,
    met: (Arith, u64),
    shown: u64,
    redex: &Redex,
    frames: &[Frame],
) -> Result<(), Mem> {
    let (fault, before) = met;
    put_hidden(page, before, shown)?;
    page.put_all(&[b"fault ", fault_text(fault).as_bytes()])?;
    put_numbered(page, " at step ", before.saturating_add(1), "\n")?;
    put_marked(alloc, page, frames, redex)
}

/// Writes that the budget, of this many steps, is spent.
pub(crate) fn put_spent(page: &mut Page, budget: u64, shown: u64) -> Result<(), Mem> {
    put_hidden(page, budget, shown)?;
    put_numbered(
        page,
        "spent: no value and no fault in ",
        budget,
        if budget == 1 { " step\n" } else { " steps\n" },
    )
}
