// Terms that are written.
use crate::texts::{nested, whole};
use fing_text::MemSink;
use omega_read::read;
use omega_write::write_omega;
use std::test::Fail;

// A conditional in a conditional, 4,000 deep.
#[test]
fn deep_terms_are_written(rt: HostRuntime) -> Result<(), Fail> {
    let deep = nested(rt.alloc(), 4000, "(if false -1 ", "true", ")")?;
    let text = whole(rt.alloc(), "bool", &deep)?;
    let (ty, term) = read(rt.alloc(), text.as_bytes())?;
    let mut sink = MemSink::new(rt.alloc(), 18 + 4000 * 14, 4096, Vec::new(rt.alloc()))?;
    assert!(rt; write_omega(&mut sink, &ty, &term).is_ok());
    assert!(rt; sink.bytes() == text.as_bytes());
    Ok(())
}

// The texts of types and terms of sums and recursive types, in which a variable in a branch has the level after those round
// the case.
const SUMS: [(&str, &str); 6] = [
    (
        "int",
        "(case (inj some 1 (sum (none (rec)) (some int))) int (none 0) (some x0))",
    ),
    (
        "(-> int int)",
        "(fn int (case (inj a x0 (sum (a int))) int (a (+ x0 x1))))",
    ),
    ("(-> (sum) bool)", "(fn (sum) (case x0 bool))"),
    (
        "(-> (sum (.val int) (b text)) bool)",
        "(fn (sum (.val int) (b text)) (case x0 bool (.val (== x1 0)) (b (case (inj c x1 (sum (c text))) bool (c true)))))",
    ),
    (
        "(mu (rec (a a0)))",
        "(roll (unroll (fix int int x1)) (mu (rec (a a0))))",
    ),
    (
        "(all * (-> (mu a0) a0))",
        "(tfn * (fn (mu a1) (unroll (unroll x0))))",
    ),
];

#[test]
fn sums_and_recursive_types_are_written(rt: HostRuntime) -> Result<(), Fail> {
    for (ty, term) in &SUMS {
        let text = whole(rt.alloc(), ty, term)?;
        let (ty, term) = read(rt.alloc(), text.as_bytes())?;
        let mut sink = MemSink::new(rt.alloc(), 256, 64, Vec::new(rt.alloc()))?;
        assert!(rt; write_omega(&mut sink, &ty, &term).is_ok(), "at {text}");
        assert!(rt; sink.bytes() == text.as_bytes(), "at {text}");
    }
    Ok(())
}
