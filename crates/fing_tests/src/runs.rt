// Runs of the program in memory.
use fing_text::{MemSink, MemSource};
use fing_top::{Status, fing};
use std::alloc::Global;
use std::process::Abort;
use std::test::Fail;

/// What the program answers, what it writes, and whether the checker confirmed a term.
#[derive(Debug, Drop)]
pub struct Answer {
    pub status: Status,
    pub written: Vec<u8>,
    pub is_confirmed: bool,
}

impl Answer {
    /// Whether the program answers and writes just so.
    pub fn is(&self, status: Status, written: &[u8], is_confirmed: bool) -> bool {
        self.status == status
            && self.written.as_slice() == written
            && self.is_confirmed == is_confirmed
    }
}

// The program's answer to the words, a source and a sink.
fn run(
    alloc: Global,
    words: &[&str],
    mut source: MemSource,
    mut sink: MemSink,
) -> Result<Answer, Fail> {
    let mut line = Vec::new(alloc);
    for word in words {
        line.push(word.to_string(alloc)?)?;
    }
    let mut confirmed = None;
    let status = fing(alloc, &line, &mut source, &mut sink, &mut confirmed);
    Ok(Answer {
        status,
        written: sink.bytes().to_vec(alloc)?,
        is_confirmed: confirmed.is_some(),
    })
}

/// The answer to the words and a source in one piece, with room for the reply.
pub fn ran(alloc: Global, words: &[&str], source: &[u8]) -> Result<Answer, Fail> {
    let source = MemSource::new(source.to_vec(alloc)?, 4096, Vec::new(alloc));
    let sink = MemSink::new(alloc, 1048576, 4096, Vec::new(alloc))?;
    run(alloc, words, source, sink)
}

/// The answer to the words and a source in small pieces, of whose reads these fail, and a sink.
pub fn tried(
    alloc: Global,
    words: &[&str],
    source: &[u8],
    failing: &[u32],
    sink: MemSink,
) -> Result<Answer, Fail> {
    let source = MemSource::new(source.to_vec(alloc)?, 4, failing.to_vec(alloc)?);
    run(alloc, words, source, sink)
}

/// A command's reply to a source, where a term is confirmed unless the status is `Refused`.
pub fn replies(
    rt: &impl Abort,
    alloc: Global,
    words: &[&str],
    source: &str,
    status: Status,
    reply: &str,
) -> Result<(), Fail> {
    let found = ran(alloc, words, source.as_bytes())?;
    let is_confirmed = status != Status::Refused;
    assert!(rt;
        found.is(status, reply.as_bytes(), is_confirmed),
        "at {source}"
    );
    Ok(())
}

/// A command's replies to sources, all with one status.
pub fn all_reply(
    rt: &impl Abort,
    alloc: Global,
    command: &str,
    status: Status,
    rows: &[(&str, &str)],
) -> Result<(), Fail> {
    for (source, reply) in rows {
        replies(rt, alloc, &[command], source, status, reply)?;
    }
    Ok(())
}
