// A list of what could stand at a place, in words.
use crate::sorts::SORTS;
use crate::terminals::terminals;
use omega_kinds::Mem;
use parse_grammar::grammar::Terminal;
use show_text::Page;
use std::alloc::Global;

/// Writes a line with what could stand at a place, where these terminals can: phrases of a sort together, and then each
/// other terminal. Nothing is written where there are none. `Err` is out of memory.
pub fn put_expected(page: &mut Page, expected: &[Terminal]) -> Result<(), Mem> {
    let called = names_of(page.alloc(), expected)?;
    if called.is_empty() {
        return Ok(());
    }
    let mut left = called.len();
    let mut before: &str = "expected: ";
    for name in &called {
        left = left.saturating_sub(1);
        page.put_all(&[before.as_bytes(), name.as_bytes()])?;
        before = if left == 1 { " or " } else { ", " };
    }
    page.put(b"\n")
}

// What could stand where these terminals can.
fn names_of(alloc: Global, expected: &[Terminal]) -> Result<Vec<&'static str>, Mem> {
    let mut called = Vec::new(alloc);
    for sort in &SORTS {
        if expected.contains(&sort.sign()) {
            called.push(sort.called())?;
        }
    }
    for (terminal, name) in terminals(alloc)? {
        if expected.contains(&terminal) && !is_in_sort(terminal, expected) {
            called.push(name)?;
        }
    }
    Ok(called)
}

// Whether a terminal begins a phrase of a sort that can stand where these terminals can.
fn is_in_sort(terminal: Terminal, expected: &[Terminal]) -> bool {
    for sort in &SORTS {
        if expected.contains(&sort.sign()) && sort.begins(terminal) {
            return true;
        }
    }
    false
}
