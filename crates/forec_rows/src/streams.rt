//! Streams that fail at one of their calls, and stores that never fail.

use crate::memory::{Asked, Streams, owned, shows, single, whole};
use crate::programs::{ADDED, ADDS, COUNTED, COUNTER};
use forec_base::{MemSink, OpenGate, SureSource, SureTexts};
use forec_engine::{Status, forec};
use std::alloc::Global;
use std::process::Abort;
use std::test::Fail;

const ABORTED: &[u8] =
    b"input int r; output int o = 0; void main(void) { while (1) { abort { while (1) { o = o + 1; pause; } } when (r); o = o + 100; pause; } }";

const DIFFERENCE: &[u8] =
    b"input int a, b; output int o = 0; void main(void) { while (1) { o = a - b; pause; } }";

/// One output, which passes the greatest number.
const WRAPS: &[u8] = b"output int o = 2147483647; void main(void) { o = o + 1; }";

const WRAPPED: &[u8] = b"tick 1 o=-2147483648\nend 1\n";

/// A loop that may turn five times in a tick.
const TURNS: &[u8] =
    b"output int o = 0; void main(void) { int i = 0; while (i < 10) #5 { i = i + 1; } o = i; }";

/// A loop that never pauses, which is refused.
const ENDLESS: &[u8] = b"output int o = 0; void main(void) { while (1) { o = 1; } }";

const LISTED: &[u8] = b"thread 0 parent - name main core 0 weight 1
thread 1 parent 0 name a core 0 weight 5
thread 2 parent 0 name b core 1 weight 5
bound 15
";

/// Words, a text, and a trace whose last byte has to be read, or which is empty where no read is made; the report, and the
/// status; whether the end is looked for.
type Case = (
    &'static [&'static str],
    &'static [u8],
    &'static [u8],
    &'static [u8],
    Status,
    bool,
);

const CASES: [Case; 18] = [
    (
        &["run", "P"],
        COUNTER,
        b"\n\n\n",
        COUNTED,
        Status::Done,
        true,
    ),
    (
        &["explain", "P"],
        COUNTER,
        b"\n\n\n",
        COUNTED,
        Status::Done,
        true,
    ),
    (
        &["run", "P"],
        ABORTED,
        b"r\n0\n0\n1\n0\n",
        b"tick 1 o=1\ntick 2 o=2\ntick 3 o=102\ntick 4 o=103\nrows 4\n",
        Status::Done,
        true,
    ),
    (
        &["run", "P"],
        DIFFERENCE,
        b"b a\n3 5\n3\n",
        b"tick 1 o=2\nrow 2 bad\n",
        Status::Trace,
        false,
    ),
    (
        &["run", "P"],
        DIFFERENCE,
        b"b a\n3 5\n3 ",
        b"tick 1 o=2\nrow 2 bad\n",
        Status::Trace,
        true,
    ),
    (
        &["run", "P"],
        DIFFERENCE,
        b"b a\n3 5\n1 2",
        b"tick 1 o=2\ntick 2 o=1\nrows 2\n",
        Status::Done,
        true,
    ),
    (
        &["run", "P"],
        DIFFERENCE,
        b"b a\n1 2147483648\n",
        b"row 1 bad\n",
        Status::Trace,
        false,
    ),
    (
        &["run", "P"],
        DIFFERENCE,
        b"a a\n",
        b"row 0 bad\n",
        Status::Trace,
        false,
    ),
    (
        &["run", "P", "--cores", "3", "--place", "0,1,2"],
        ADDS,
        b"\n\n\n",
        ADDED,
        Status::Done,
        false,
    ),
    (&["run", "P"], WRAPS, b"\n\n", WRAPPED, Status::Done, false),
    (
        &["run", "P"],
        TURNS,
        b"\n\n",
        b"trap 1 1:48 turns\n",
        Status::Trapped,
        false,
    ),
    (
        &["run", "P", "--budget", "6"],
        COUNTER,
        b"\n\n",
        b"over 1 budget 6\n",
        Status::Over,
        false,
    ),
    (
        &["run", "P"],
        ENDLESS,
        b"",
        b"refused 1:37 rule 20\n",
        Status::Refused,
        false,
    ),
    (
        &["run", "P", "--place", "0,0,1"],
        ADDS,
        b"",
        b"place core 2\n",
        Status::Usage,
        false,
    ),
    (
        &["check", "P"],
        COUNTER,
        b"",
        b"ok threads 1 inputs 0 outputs 1\n",
        Status::Done,
        false,
    ),
    (
        &["threads", "P", "--cores", "2"],
        ADDS,
        b"",
        LISTED,
        Status::Done,
        false,
    ),
    (
        &["code", "P"],
        b"void main(void) { }",
        b"",
        b"thread 0\n0 end\n",
        Status::Done,
        false,
    ),
    (
        &["gen", "1"],
        b"",
        b"",
        b"gen 1 ticks 1000 sum 500500\n",
        Status::Done,
        false,
    ),
];

/// The first lines of a report, so many.
fn front(report: &[u8], lines: usize) -> &[u8] {
    let mut seen = 0usize;
    for (at, byte) in report.iter().enumerate() {
        if seen == lines {
            return &report[..at];
        }
        if *byte == b'\n' {
            seen = seen.saturating_add(1);
        }
    }
    report
}

/// How many rows came whole with the first bytes of a trace: their lines, but for the header's.
fn rows_of(trace: &[u8], bytes: usize) -> usize {
    let mut lines = 0usize;
    for byte in trace.iter().take(bytes) {
        if *byte == b'\n' {
            lines = lines.saturating_add(1);
        }
    }
    lines.saturating_sub(1)
}

/// Streams that give at most so many bytes a call, of which one call fails.
fn one_read_fails(alloc: Global, size: usize, call: usize) -> Result<Streams, Fail> {
    Ok(Streams {
        read: size,
        read_fails: vec![in alloc; call as u64; 1]?,
        ..whole(alloc)
    })
}

/// Where a read fails, the lines of the rows that came whole before it are held; no read is made after the last one. The
/// trace comes in small pieces, or at once.
#[test]
fn each_read_fails(rt: HostRuntime) -> Result<(), Fail> {
    let alloc = rt.alloc();
    for (words, text, trace, report, status, to_end) in &CASES {
        let asked = Asked { words, text, trace };
        for size in [1usize, 2, 5, 65536] {
            let reads = trace
                .len()
                .div_ceil(size)
                .saturating_add(usize::from(*to_end));
            for before in 0..reads {
                let streams = one_read_fails(alloc, size, before.saturating_add(1))?;
                let rows = rows_of(trace, before.saturating_mul(size));
                let held = (front(report, rows), Status::ReadFault);
                shows(&rt, alloc, asked, streams, held)?;
            }
            let streams = one_read_fails(alloc, size, reads.saturating_add(1))?;
            shows(&rt, alloc, asked, streams, (report, *status))?;
        }
    }
    Ok(())
}

/// Where the write of a byte fails, those before it are held; the trace comes at once, or byte by byte.
#[test]
fn each_write_fails(rt: HostRuntime) -> Result<(), Fail> {
    let alloc = rt.alloc();
    for (words, text, trace, report, status, _) in &CASES {
        let asked = Asked { words, text, trace };
        for size in [1usize, 65536] {
            for written in 0..report.len() {
                let streams = Streams {
                    read: size,
                    ..single(alloc, 0, written as u64 + 1)?
                };
                let held = (&report[..written], Status::WriteFault);
                shows(&rt, alloc, asked, streams, held)?;
            }
            let behind = single(alloc, 0, (report.len() as u64).saturating_add(1))?;
            shows(&rt, alloc, asked, behind, (report, *status))?;
        }
    }
    Ok(())
}

/// The numbers of the read and of the write that fails, or 0; what is held in the end, and the status.
const FAILS: [(u64, u64, &[u8], Status); 3] = [
    (5, 0, COUNTED, Status::Done),
    (3, 11, b"tick 1 o=1", Status::WriteFault),
    (3, 12, b"tick 1 o=1\n", Status::ReadFault),
];

#[test]
fn a_read_and_a_write_fail(rt: HostRuntime) -> Result<(), Fail> {
    let alloc = rt.alloc();
    for (read, write, want, status) in &FAILS {
        let streams = single(alloc, *read, *write)?;
        let held = (*want, *status);
        let asked = Asked {
            words: &["run", "P"],
            text: COUNTER,
            trace: b"\n\n\n",
        };
        shows(&rt, alloc, asked, streams, held)?;
    }
    Ok(())
}

/// Stores that never fail.
#[test]
fn sure_stores(rt: HostRuntime) -> Result<(), Fail> {
    let alloc = rt.alloc();
    let mut texts = SureTexts::new(WRAPS.to_vec(alloc)?);
    let mut trace = SureSource::new(b"\n\n".to_vec(alloc)?);
    let mut out = MemSink::new(alloc, 100, Vec::new(alloc))?;
    let words = owned(alloc, &["run", "any name"])?;
    let status = forec(
        &rt, alloc, &words, &mut texts, &mut trace, &mut out, &OpenGate,
    );
    assert_eq!(rt; (out.bytes(), status), (WRAPPED, Status::Done));
    Ok(())
}
