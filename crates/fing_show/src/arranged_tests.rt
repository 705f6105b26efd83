// Orders of parts of programs, reasoned from the source.
use fing_lexer::tokens;
use fing_parser::program;
use fing_syntax::Program;
use fing_text::SOURCE_LIMIT;
use omega_kinds::{Mem, name_of};
use show_order::{Order, orders_of};
use std::alloc::Global;
use std::process::Abort;
use std::test::Fail;

// The program that a source is.
pub(crate) fn program_of(rt: &impl Abort, alloc: Global, source: &str) -> Result<Program, Fail> {
    let bytes = source.as_bytes();
    assert!(rt; bytes.len() <= SOURCE_LIMIT);
    let Ok(all) = tokens(alloc, bytes) else {
        return Err(Fail::new("no tokens"));
    };
    assert!(rt; all.len() <= SOURCE_LIMIT);
    program(alloc, &all).map_err(|_| Fail::new("no program"))
}

// A part of a program: the whole, a component, or the parameter or the result of the whole, which has none.
#[derive(Clone, Copy)]
enum Part {
    Whole,
    Component(&'static str),
    Parameter,
    Result,
}

// The order of a part.
fn order_in(alloc: Global, whole: Order<'_>, part: Part) -> Result<Order<'_>, Mem> {
    Ok(match part {
        Part::Whole => whole,
        Part::Component(name) => whole.component(&name_of(alloc, name.as_bytes())?),
        Part::Parameter => whole.parameter(),
        Part::Result => whole.result(),
    })
}

// The places of names among these names, in an order.
fn places(alloc: Global, order: Order<'_>, names: &[&str]) -> Result<Vec<usize>, Mem> {
    let mut fields = Vec::new(alloc);
    for (at, name) in names.iter().enumerate() {
        fields.push((name_of(alloc, name.as_bytes())?, at))?;
    }
    let mut found = Vec::new(alloc);
    for field in order.arranged(alloc, &fields)? {
        found.push(field.1)?;
    }
    Ok(found)
}

const INCLUDED: &str =
    "val z = 1 module M = struct val y = 1 val x = 1 val y = 1 end include M val a = 1";

const NAMED: &str = "module A = struct val z = 1 val y = 1 end module B = A
module A = struct val y = 1 val z = 1 end";

// Sources, a part of each, and names of fields with their places in the order of the part: what is not declared comes last.
const ARRANGED: [(&str, Part, &[&str], &[usize]); 10] = [
    (
        "val c = 1 val a = 1 val b = 1 val c = 1",
        Part::Whole,
        &["a", "b", "c"],
        &[0, 1, 2],
    ),
    (
        "val c = 1 val b = 1 val a = 1",
        Part::Whole,
        &["a", "b", "c"],
        &[2, 1, 0],
    ),
    (
        "val z = 1 val y = 1",
        Part::Whole,
        &["p", "q", "y", "z"],
        &[3, 2, 0, 1],
    ),
    (
        INCLUDED,
        Part::Whole,
        &["M", "a", "x", "y", "z"],
        &[4, 0, 2, 3, 1],
    ),
    (INCLUDED, Part::Component("M"), &["x", "y"], &[0, 1]),
    // a module under another name, which keeps its order where its own name is bound again
    (NAMED, Part::Component("B"), &["y", "z"], &[1, 0]),
    (NAMED, Part::Component("A"), &["y", "z"], &[0, 1]),
    // no module has this name, and a structure has no parameter and no result
    (NAMED, Part::Component("C"), &["y", "z"], &[0, 1]),
    ("val z = 1 val y = 1", Part::Parameter, &["y", "z"], &[0, 1]),
    ("val z = 1 val y = 1", Part::Result, &["y", "z"], &[0, 1]),
];

#[test]
fn fields_in_the_order_of_a_part(rt: HostRuntime) -> Result<(), Fail> {
    let alloc = rt.alloc();
    for (source, part, names, wanted) in &ARRANGED {
        let orders = orders_of(alloc, &program_of(&rt, alloc, source)?)?;
        let order = order_in(alloc, orders.whole(), *part)?;
        let found = places(alloc, order, names)?;
        assert_eq!(&rt; found.as_slice(), *wanted);
    }
    Ok(())
}
