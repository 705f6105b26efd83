// Sources that are cut off, sources and sinks of which one call fails, and sinks with little room.
use crate::runs::{Answer, replies, tried};
use fing_text::MemSink;
use fing_top::Status;
use std::test::Fail;

// Each prefix of a source, with the reply of `check`, and two more sources that break off in the middle of a phrase.
const FRONTS: [(&str, Status, &str); 16] = [
    ("", Status::Ok, "pure (ex () (str))\n"),
    ("v", Status::Refused, "refused Syntax 0\n"),
    ("va", Status::Refused, "refused Syntax 0\n"),
    ("val", Status::Refused, "refused Syntax 1\n"),
    ("val ", Status::Refused, "refused Syntax 1\n"),
    ("val x", Status::Refused, "refused Syntax 2\n"),
    ("val x ", Status::Refused, "refused Syntax 2\n"),
    ("val x =", Status::Refused, "refused Syntax 3\n"),
    ("val x = ", Status::Refused, "refused Syntax 3\n"),
    (
        "val x = 1",
        Status::Ok,
        "pure (ex () (str (x (val int))))\n",
    ),
    (
        "val x = 1 ",
        Status::Ok,
        "pure (ex () (str (x (val int))))\n",
    ),
    ("val x = 1 +", Status::Refused, "refused Syntax 5\n"),
    ("val x = 1 + ", Status::Refused, "refused Syntax 5\n"),
    (
        "val x = 1 + 2",
        Status::Ok,
        "pure (ex () (str (x (val int))))\n",
    ),
    ("val x = )", Status::Refused, "refused Syntax 3\n"),
    ("val x = 1 < 2 < 3", Status::Refused, "refused Syntax 6\n"),
];

#[test]
fn cut_sources(rt: HostRuntime) -> Result<(), Fail> {
    for (source, status, reply) in &FRONTS {
        replies(&rt, rt.alloc(), &["check"], source, *status, reply)?;
    }
    Ok(())
}

const SUM: &[u8] = b"val x = 1 + 2";

const REPLY: &[u8] = b"pure (ex () (str (x (val int))))\n";

// Thirteen bytes in pieces of four are read in five calls, the last of which finds the end.
#[test]
fn each_read_fails(rt: HostRuntime) -> Result<(), Fail> {
    for call in 0..5 {
        let sink = MemSink::new(rt.alloc(), 4096, 4096, Vec::new(rt.alloc()))?;
        let found = tried(rt.alloc(), &["check"], SUM, &[call], sink)?;
        assert!(rt; found.is(Status::ReadFault, b"", false), "at {call}");
    }
    Ok(())
}

// Whether the answer to the sum has this status, and so many bytes of its reply were written.
fn is_front(found: &Answer, status: Status, length: usize) -> bool {
    found.status == status
        && found.written.len() == length
        && REPLY.starts_with(found.written.as_slice())
}

// A byte is written in each call; the one that fails leaves the bytes before it.
#[test]
fn each_write_fails(rt: HostRuntime) -> Result<(), Fail> {
    for call in 0..33 {
        let sink = MemSink::new(rt.alloc(), 33, 1, [call].to_vec(rt.alloc())?)?;
        let found = tried(rt.alloc(), &["check"], SUM, &[], sink)?;
        assert!(rt;
            is_front(&found, Status::WriteFault, call as usize),
            "at {call}"
        );
    }
    Ok(())
}

#[test]
fn room_for_the_reply(rt: HostRuntime) -> Result<(), Fail> {
    for (room, status) in &[(33, Status::Ok), (32, Status::WriteFault)] {
        let sink = MemSink::new(rt.alloc(), *room, 1, Vec::new(rt.alloc()))?;
        let found = tried(rt.alloc(), &["check"], SUM, &[], sink)?;
        assert!(rt; is_front(&found, *status, *room), "at {room}");
    }
    Ok(())
}
