// The page of a program's derivation.
use crate::pages::Named;
use fing_elab::Elaborated;
use fing_syntax::Program;
use fing_text::Span;
use omega_kinds::Mem;
use show_derivation::{Line, derivation_of};
use show_figures::{Drawing, Form, Node};
use show_paper::Conclusion;
use show_rules::Rule;
use std::alloc::Global;

/// The page of the derivation of a program that means something, in a form: its effect and its signature, and what is derived
/// for each of its phrases. `Err` is out of memory.
pub(crate) fn derivation_page(
    alloc: Global,
    form: Form,
    named: Named<'_>,
    program: &Program,
    found: &Elaborated,
) -> Result<Vec<u8>, Mem> {
    let derived = derivation_of(alloc, program)?;
    let lines = derived.lines.as_slice();
    let mut drawing = Drawing::new(alloc, form, named.name, named.source)?;
    drawing.put(Node {
        depth: 0,
        rule: Rule::Program,
        at: Span { from: 0, to: 0 },
        types: 0,
        conclusion: &Conclusion::Module(found.effect, found.sig.share()?),
        has_parts: !lines.is_empty(),
    })?;
    put_lines(&mut drawing, lines)?;
    Ok(drawing.finish(derived.is_cut)?.into_bytes())
}

// Draws the lines of a derivation. A line has parts if the next one stands deeper.
fn put_lines(drawing: &mut Drawing<'_>, lines: &[Line]) -> Result<(), Mem> {
    for (number, line) in lines.iter().enumerate() {
        let next = lines.get(number.saturating_add(1));
        let judgment = &line.judgment;
        drawing.put(Node {
            depth: line.depth,
            rule: line.rule,
            at: judgment.at,
            types: judgment.types,
            conclusion: judgment.conclusion(),
            has_parts: next.is_some_and(|next| next.depth > line.depth),
        })?;
    }
    Ok(())
}
