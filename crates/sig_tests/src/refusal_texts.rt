// The lines of all refusals.
use crate::literals::ItemLit::{Arg, Meta, Part, Res};
use crate::literals::KindLit::{Op, Star};
use crate::literals::TyLit::{Closed, Lam, Var};
use crate::literals::{ClashLit, WhyLit, why};
use fing_refusals::{Refusal, write_line};
use fing_text::{MemSink, Span};
use sig_scopes::refusal_in_scope;
use std::alloc::Global;
use std::process::Abort;
use std::test::Fail;

// Reasons, each with so many type variables in scope, and the line of its refusal of the bytes from 8 to 57.
const LINES: [(u64, WhyLit<'static>, &str); 24] = [
    (0, WhyLit::NotStructure, "refused 8-57 NotStructure\n"),
    (0, WhyLit::NotFunctor, "refused 8-57 NotFunctor\n"),
    (0, WhyLit::WrongPath, "refused 8-57 WrongPath\n"),
    (0, WhyLit::Escapes, "refused 8-57 Escapes\n"),
    (0, WhyLit::NotOperator, "refused 8-57 NotOperator\n"),
    // names
    (0, WhyLit::Unbound("x"), "refused 8-57 Unbound x\n"),
    (0, WhyLit::NoPart("x"), "refused 8-57 NoPart x\n"),
    (0, WhyLit::NoField("x"), "refused 8-57 NoField x\n"),
    (0, WhyLit::NoBranch("x"), "refused 8-57 NoBranch x\n"),
    (
        0,
        WhyLit::DuplicateField("x"),
        "refused 8-57 DuplicateField x\n",
    ),
    (0, WhyLit::Duplicate("x"), "refused 8-57 Duplicate x\n"),
    // types and kinds
    (1, WhyLit::NotArrow(Var(0)), "refused 8-57 NotArrow a0\n"),
    (
        0,
        WhyLit::NotAll(Closed("int")),
        "refused 8-57 NotAll int\n",
    ),
    (5, WhyLit::NotRecord(Var(2)), "refused 8-57 NotRecord a2\n"),
    (3, WhyLit::NotSum(Var(2)), "refused 8-57 NotSum a0\n"),
    (
        0,
        WhyLit::NotData(Closed("int")),
        "refused 8-57 NotData int\n",
    ),
    (
        2,
        WhyLit::Differ(Var(0), Var(1)),
        "refused 8-57 Differ a1 a0\n",
    ),
    (
        0,
        WhyLit::KindDiffer(Op, Star),
        "refused 8-57 KindDiffer (> * *) *\n",
    ),
    // paths
    (
        0,
        WhyLit::NotAbstract(&[Part("x")]),
        "refused 8-57 NotAbstract x\n",
    ),
    (
        0,
        WhyLit::NoRoot(10, &[Part("F"), Arg, Res, Meta, Part("x")]),
        "refused 8-57 NoRoot 10 F.(arg).(res).(sig).x\n",
    ),
    // clashes
    (
        0,
        WhyLit::Clash(&[], ClashLit::Effect),
        "refused 8-57 Clash . Effect\n",
    ),
    (
        0,
        WhyLit::Clash(&[Arg], ClashLit::Form),
        "refused 8-57 Clash (arg) Form\n",
    ),
    (
        0,
        WhyLit::Clash(&[Res], ClashLit::Missing),
        "refused 8-57 Clash (res) Missing\n",
    ),
    (
        3,
        WhyLit::Clash(&[Meta], ClashLit::Types(Var(0), Lam(&Var(0)))),
        "refused 8-57 Clash (sig) Types a2 (lam * a3)\n",
    ),
];

fn refusal(alloc: Global, types: u64, literal: &WhyLit<'_>) -> Result<Refusal, Fail> {
    Ok(Refusal {
        at: Span { from: 8, to: 57 },
        types,
        why: why(alloc, literal)?,
    })
}

// Whether the whole line went into the sink.
fn is_written(rt: &impl Abort, sink: &mut MemSink, refusal: &Refusal) -> bool {
    assert!(rt; refusal_in_scope(refusal));
    write_line(sink, refusal).is_ok()
}

#[test]
fn lines(rt: HostRuntime) -> Result<(), Fail> {
    for (types, literal, line) in &LINES {
        let mut sink = MemSink::new(rt.alloc(), 100, 7, Vec::new(rt.alloc()))?;
        let refusal = refusal(rt.alloc(), *types, literal)?;
        assert!(rt; is_written(&rt, &mut sink, &refusal), "at {line}");
        assert!(rt; sink.bytes() == line.as_bytes(), "at {line}");
    }
    Ok(())
}

#[test]
fn a_full_sink_takes_a_front(rt: HostRuntime) -> Result<(), Fail> {
    let mut sink = MemSink::new(rt.alloc(), 15, 7, Vec::new(rt.alloc()))?;
    let refusal = refusal(rt.alloc(), 0, &WhyLit::Escapes)?;
    assert!(rt; !is_written(&rt, &mut sink, &refusal));
    assert!(rt; sink.bytes() == b"refused 8-57 Es".as_slice());
    Ok(())
}
