// Generated programs. By the rules a program of size n has 5 + 3 n bindings, and its term 138 + 85 n nodes and 30 + 54 n
// steps. docs/language/programs.md derives the two by hand, line by line.
use crate::runs::{Answer, tried};
use fing_text::MemSink;
use fing_top::Status;
use std::alloc::Global;
use std::test::Fail;

const COUNTS: [(&str, &str); 5] = [
    ("1", "bindings 8 nodes 223 steps 84\n"),
    ("2", "bindings 11 nodes 308 steps 138\n"),
    ("30", "bindings 95 nodes 2688 steps 1650\n"),
    ("00000030", "bindings 95 nodes 2688 steps 1650\n"),
    ("300", "bindings 905 nodes 25638 steps 16230\n"),
];

// The answer of `gen`, with a source whose first read fails.
fn counted(alloc: Global, size: &str) -> Result<Answer, Fail> {
    let sink = MemSink::new(alloc, 4096, 7, Vec::new(alloc))?;
    tried(alloc, &["gen", size], b"val x = 1", &[0], sink)
}

#[test]
fn counts(rt: HostRuntime) -> Result<(), Fail> {
    for (size, text) in &COUNTS {
        let found = counted(rt.alloc(), size)?;
        assert!(rt; found.is(Status::Ok, text.as_bytes(), true), "at {size}");
    }
    Ok(())
}
