//! The top call over stores in memory.
use forec_base::{Gate, MemSink, MemSource, MemTexts, NamedText, OpenGate};
use forec_engine::{Status, forec};
use std::alloc::Global;
use std::process::Abort;
use std::sync::Wait;
use std::test::Fail;
use std::thread::Threads;

/// How streams behave: the most bytes of a read and of a write, and the numbers of the calls that fail.
#[derive(Drop)]
pub struct Streams {
    pub read: usize,
    pub read_fails: Vec<u64>,
    pub write: usize,
    pub write_fails: Vec<u64>,
}

/// What is held, and the status.
#[derive(Drop)]
pub struct Ended {
    pub held: Vec<u8>,
    pub status: Status,
}

/// Streams that take and give all at once, of which no call fails.
pub fn whole(alloc: Global) -> Streams {
    Streams {
        read: 65536,
        read_fails: Vec::new(alloc),
        write: 65536,
        write_fails: Vec::new(alloc),
    }
}

/// Streams that take and give single bytes, of which these calls fail; 0 is none.
pub fn single(alloc: Global, read: u64, write: u64) -> Result<Streams, Fail> {
    Ok(Streams {
        read: 1,
        read_fails: vec![in alloc; read; 1]?,
        write: 1,
        write_fails: vec![in alloc; write; 1]?,
    })
}

/// Words with an allocator.
pub fn owned(alloc: Global, words: &[&str]) -> Result<Vec<String>, Fail> {
    let mut owned = Vec::new(alloc);
    for word in words {
        owned.push(String::from_str(alloc, word)?)?;
    }
    Ok(owned)
}

/// What is asked: words, the one text of the store, which is named `P`, and the trace.
#[derive(Clone, Copy)]
pub struct Asked<'a> {
    pub words: &'a [&'a str],
    pub text: &'a [u8],
    pub trace: &'a [u8],
}

/// A store with one text, named `P`.
pub fn store(alloc: Global, text: &[u8]) -> Result<MemTexts, Fail> {
    let mut files = Vec::new(alloc);
    files.push(NamedText {
        name: String::from_str(alloc, "P")?,
        bytes: text.to_vec(alloc)?,
    })?;
    Ok(MemTexts::new(files, Vec::new(alloc)))
}

/// Does what is asked, where each job passes a gate.
pub fn run_past<G: Gate + Sync>(
    rt: &(impl Abort + Threads + Wait + Sync),
    alloc: Global,
    asked: Asked<'_>,
    streams: Streams,
    gate: &G,
) -> Result<Ended, Fail> {
    assert!(rt; streams.read > 0 && streams.write > 0);
    let words = owned(alloc, asked.words)?;
    let mut texts = store(alloc, asked.text)?;
    let trace = asked.trace.to_vec(alloc)?;
    let mut source = MemSource::pieces(trace, streams.read_fails, streams.read);
    let mut sink = MemSink::pieces(alloc, 200_000, streams.write_fails, streams.write)?;
    let status = forec(rt, alloc, &words, &mut texts, &mut source, &mut sink, gate);
    Ok(Ended {
        held: sink.bytes().to_vec(alloc)?,
        status,
    })
}

/// Does what is asked, past an open gate: this is held in the end, and this is the status.
pub fn shows(
    rt: &(impl Abort + Threads + Wait + Sync),
    alloc: Global,
    asked: Asked<'_>,
    streams: Streams,
    want: (&[u8], Status),
) -> Result<(), Fail> {
    let end = run_past(rt, alloc, asked, streams, &OpenGate)?;
    assert_eq!(rt; (end.held.as_slice(), end.status), want);
    Ok(())
}
