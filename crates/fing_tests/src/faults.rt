// Words, lengths, failing sources and failing sinks.
use crate::runs::{ran, tried};
use fing_text::{MemSink, Sink, Source, StdSink, StdSource};
use fing_top::Status;
use std::io::{Error, ErrorKind, Read, Write};
use std::test::Fail;

const SUM: &[u8] = b"val x = 1 + 2";

// Words that are no command line.
const OTHER: [&[&str]; 19] = [
    &[],
    &["gen"],
    &["gen", "0"],
    &["gen", "301"],
    &["gen", "1", "--budget", "1"],
    &["check", "1"],
    &["run", "--budget", "10000001"],
    &["emit", "1"],
    &["emit", "--budget", "1"],
    &["Emit"],
    &["verify", "1"],
    &["emit", "verify"],
    &["check", "--simplify"],
    &["run", "--simplify"],
    &["verify", "--simplify"],
    &["gen", "1", "--simplify"],
    &["link", "--simplify"],
    &["link", "1"],
    &["link", "--budget", "1"],
];

#[test]
fn other_words(rt: HostRuntime) -> Result<(), Fail> {
    for (row, words) in OTHER.iter().enumerate() {
        let found = ran(rt.alloc(), words, SUM)?;
        assert!(rt; found.is(Status::Words, b"", false), "at {row}");
    }
    Ok(())
}

#[test]
fn words_behind_the_end_of_options(rt: HostRuntime) -> Result<(), Fail> {
    let found = ran(rt.alloc(), &["--", "emit"], SUM)?;
    assert_eq!(rt; found.status, Status::Ok);
    assert!(rt; found.is_confirmed);
    Ok(())
}

// A command, how many spaces its source has, the status, and the reply.
const LENGTHS: [(&str, usize, Status, &[u8]); 4] = [
    ("emit", 1048577, Status::TooLong, b""),
    ("emit", 1048576, Status::Ok, b"omega 2\n(rec)\n(rec)\n"),
    ("check", 1048577, Status::TooLong, b""),
    ("check", 1048576, Status::Ok, b"pure (ex () (str))\n"),
];

#[test]
fn lengths(rt: HostRuntime) -> Result<(), Fail> {
    for (command, length, status, reply) in &LENGTHS {
        let source = vec![in rt.alloc(); b' '; *length]?;
        let found = ran(rt.alloc(), &[command], &source)?;
        assert!(rt;
            found.is(*status, reply, *status == Status::Ok),
            "{command} at {length}"
        );
    }
    Ok(())
}

#[test]
fn a_read_fails(rt: HostRuntime) -> Result<(), Fail> {
    let sink = MemSink::new(rt.alloc(), 4096, 1, Vec::new(rt.alloc()))?;
    let found = tried(rt.alloc(), &["emit"], SUM, &[1], sink)?;
    assert!(rt; found.is(Status::ReadFault, b"", false));
    Ok(())
}

// A sink whose first call fails, and one that has room for a prefix of the reply.
#[test]
fn writes_fail(rt: HostRuntime) -> Result<(), Fail> {
    let fails = MemSink::new(rt.alloc(), 4096, 4096, [0].to_vec(rt.alloc())?)?;
    let found = tried(rt.alloc(), &["emit"], SUM, &[], fails)?;
    assert!(rt; found.is(Status::WriteFault, b"", true));
    let small = MemSink::new(rt.alloc(), 9, 2, Vec::new(rt.alloc()))?;
    let found = tried(rt.alloc(), &["emit"], SUM, &[], small)?;
    assert!(rt; found.is(Status::WriteFault, b"omega 2\n(", true));
    Ok(())
}

#[test]
fn a_source_over_a_reader(rt: HostRuntime) -> Result<(), Fail> {
    let mut source = StdSource::new(b"abc".as_slice());
    let mut buf = [0u8; 8];
    assert_eq!(rt; source.read(&mut buf).ok(), Some(3));
    assert!(rt; buf.starts_with(b"abc"));
    assert_eq!(rt; source.read(&mut buf).ok(), Some(0));
    Ok(())
}

#[test]
fn a_sink_over_a_writer(rt: HostRuntime) -> Result<(), Fail> {
    let mut written = Vec::new(rt.alloc());
    let mut sink = StdSink::new(&mut written);
    assert_eq!(rt; sink.write(b"abc").ok(), Some(3));
    assert!(rt; written.as_slice() == b"abc".as_slice());
    Ok(())
}

// A device that fails in each read, and takes bytes that it cannot hand on.
#[derive(Drop)]
struct Broken;

impl Read for Broken {
    fn read(&mut self, _buf: &mut [u8]) -> std::io::Result<usize> {
        Err(Error::from(ErrorKind::Other))
    }
}

impl Write for Broken {
    fn write(&mut self, buf: &[u8]) -> std::io::Result<usize> {
        Ok(buf.len())
    }

    fn flush(&mut self) -> std::io::Result<()> {
        Err(Error::from(ErrorKind::Other))
    }
}

#[test]
fn a_source_over_a_broken_reader(rt: HostRuntime) -> Result<(), Fail> {
    let mut source = StdSource::new(Broken);
    let mut buf = [0u8; 8];
    assert!(rt; source.read(&mut buf).is_err());
    assert!(rt; source.read(&mut buf).is_err());
    Ok(())
}

#[test]
fn a_sink_over_a_full_writer(rt: HostRuntime) -> Result<(), Fail> {
    let mut room = [0u8; 2];
    let mut sink = StdSink::new(room.as_mut_slice());
    assert_eq!(rt; sink.write(b"abc").ok(), Some(2));
    assert!(rt; sink.write(b"c").is_err());
    assert_eq!(rt; sink.write(b"").ok(), Some(0));
    Ok(())
}

#[test]
fn a_sink_over_a_writer_that_is_not_flushed(rt: HostRuntime) -> Result<(), Fail> {
    let mut sink = StdSink::new(Broken);
    assert!(rt; sink.write(b"abc").is_err());
    Ok(())
}
