//! One program over many traces.

use crate::memory::owned;
use crate::programs::{ADDS, COUNTER};
use forec_base::{Gate, MemSink, MemSource, MemTexts, NamedText, OpenGate, Point};
use forec_engine::{Status, forec};
use std::alloc::Global;
use std::process::Abort;
use std::sync::Wait;
use std::sync::atomic::{AtomicU32, Ordering};
use std::test::Fail;
use std::thread;
use std::thread::Threads;

/// How often a run looks for the other at most.
const TURNS: u32 = 50_000_000;

/// A store with a program `P`, and with the traces `T1` and `T2`, of which the call of this number fails; 0 is none.
fn store(alloc: Global, program: &[u8], traces: [&[u8]; 2], fails: u64) -> Result<MemTexts, Fail> {
    let mut files = Vec::new(alloc);
    for (name, bytes) in [("P", program), ("T1", traces[0]), ("T2", traces[1])] {
        files.push(NamedText {
            name: String::from_str(alloc, name)?,
            bytes: bytes.to_vec(alloc)?,
        })?;
    }
    Ok(MemTexts::new(files, vec![in alloc; fails; 1]?))
}

/// Runs `farm P T1 T2` over such a store: this is held in the end, and this is the status. The trace would fail at its
/// first read.
fn farms<G: Gate + Sync>(
    rt: &(impl Abort + Threads + Wait + Sync),
    alloc: Global,
    texts: &mut MemTexts,
    write_fails: u64,
    gate: &G,
    want: (&[u8], Status),
) -> Result<(), Fail> {
    let words = owned(alloc, &["farm", "P", "T1", "T2"])?;
    let mut source = MemSource::new(Vec::new(alloc), vec![in alloc; 1u64; 1]?);
    let mut sink = MemSink::new(alloc, 1_000, vec![in alloc; write_fails; 1]?)?;
    let status = forec(rt, alloc, &words, texts, &mut source, &mut sink, gate);
    assert_eq!(rt; (sink.bytes(), status), want);
    Ok(())
}

/// A gate that keeps the first job of thread 1 until it has seen a second one.
#[derive(Drop)]
struct Meeting {
    /// How many jobs of thread 1 were begun.
    begun: AtomicU32,
    /// How often a run ran out of turns.
    late: AtomicU32,
}

impl Gate for Meeting {
    fn pass(&self, _core: u32, thread: u32, point: Point) {
        if thread != 1 || point != Point::Begun {
            return;
        }
        if self.begun.fetch_add(1, Ordering::SeqCst) > 0 {
            return;
        }
        for _ in 0..TURNS {
            if self.begun.load(Ordering::SeqCst) > 1 {
                return;
            }
            thread::yield_now();
        }
        self.late.fetch_add(1, Ordering::SeqCst);
    }
}

const MET: &[u8] =
    b"trace T1\ntick 1 s=5\nrows 1\nstatus 0\ntrace T2\ntick 1 s=5\nrows 1\nstatus 0\n";

#[test]
fn traces_meet(rt: HostRuntime) -> Result<(), Fail> {
    let alloc = rt.alloc();
    let mut texts = store(alloc, ADDS, [b"\n\n", b"\n\n"], 0)?;
    let gate = Meeting {
        begun: AtomicU32::new(0),
        late: AtomicU32::new(0),
    };
    farms(&rt, alloc, &mut texts, 0, &gate, (MET, Status::Done))?;
    assert_eq!(&rt; gate.begun.load(Ordering::SeqCst), 2);
    assert_eq!(&rt; gate.late.load(Ordering::SeqCst), 0);
    Ok(())
}

/// Where a text can't be read nothing is written.
#[test]
fn each_read_fails(rt: HostRuntime) -> Result<(), Fail> {
    let alloc = rt.alloc();
    for fails in 1..4 {
        let mut texts = store(alloc, COUNTER, [b"\n\n\n", b""], fails)?;
        let want = (b"".as_slice(), Status::ReadFault);
        farms(&rt, alloc, &mut texts, 0, &OpenGate, want)?;
    }
    Ok(())
}

/// The writes of the report, in order.
const WRITES: [&[u8]; 14] = [
    b"trace ",
    b"T1",
    b"\n",
    b"tick 1 o=1\ntick 2 o=2\nrows 2\n",
    b"status ",
    b"0",
    b"\n",
    b"trace ",
    b"T2",
    b"\n",
    b"row 0 bad\n",
    b"status ",
    b"4",
    b"\n",
];

/// The report as a whole.
const TOLD: &[u8] =
    b"trace T1\ntick 1 o=1\ntick 2 o=2\nrows 2\nstatus 0\ntrace T2\nrow 0 bad\nstatus 4\n";

/// After a write that fails the writes before it are held.
#[test]
fn each_write_fails(rt: HostRuntime) -> Result<(), Fail> {
    let alloc = rt.alloc();
    let mut write = 0u64;
    let mut front: Vec<u8> = Vec::new(alloc);
    for piece in WRITES {
        write = write.saturating_add(1);
        let mut texts = store(alloc, COUNTER, [b"\n\n\n", b""], 0)?;
        let want = (front.as_slice(), Status::WriteFault);
        farms(&rt, alloc, &mut texts, write, &OpenGate, want)?;
        front.extend_from_slice(piece)?;
    }
    assert_eq!(&rt; front.as_slice(), TOLD);
    Ok(())
}
