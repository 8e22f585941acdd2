//! The reports of a program over lists of traces, the status of the whole, and reports that have no room.

use crate::compiled::{COUNTS, compiled};
use forec_base::{Failed, MAX_ROWS, OpenGate, OutOfMemory, Sink, Source};
use std::alloc::Global;
use std::process::Abort;
use std::sync::Wait;
use std::test::Fail;
use std::thread::Threads;
use trace_farm::{ReportSink, SliceSource, farm, greatest};

/// A report: its bytes, and the number of its status.
type Told = (&'static [u8], u32);

/// Traces of which so many rows are run by the program that counts: what is reported of each, and the greatest status.
struct Farmed {
    traces: &'static [&'static [u8]],
    rows: u64,
    reports: &'static [Told],
    greatest: Option<u32>,
}

const FARMED: [Farmed; 2] = [
    Farmed {
        traces: &[],
        rows: 1000,
        reports: &[],
        greatest: None,
    },
    // The last row is one too many, and a line without byte 10 at the end is a row.
    Farmed {
        traces: &[b"\n\n\n\n", b"\n\n ", b"\n"],
        rows: 2,
        reports: &[
            (b"tick 1 o=1\ntick 2 o=2\nrow 3 many\n", 4),
            (b"tick 1 o=1\ntick 2 o=2\nrows 2\n", 0),
            (b"rows 0\n", 0),
        ],
        greatest: Some(4),
    },
];

fn run_farm(
    rt: &(impl Abort + Threads + Wait + Sync),
    alloc: Global,
    case: &Farmed,
) -> Result<(), Fail> {
    assert!(rt; case.rows <= MAX_ROWS);
    let code = compiled(rt, alloc, COUNTS)?;
    let mut traces = Vec::new(alloc);
    for trace in case.traces {
        traces.push(trace.to_vec(alloc)?)?;
    }
    let reports = farm(rt, alloc, &code, &traces, case.rows, 100, &OpenGate)?;
    assert_eq!(rt; reports.len(), case.reports.len());
    let mut statuses = Vec::new(alloc);
    for (report, told) in reports.iter().zip(case.reports) {
        assert_eq!(rt; (report.bytes.as_slice(), report.status), *told);
        statuses.push(report.status)?;
    }
    assert_eq!(rt; greatest(rt, &statuses), case.greatest);
    Ok(())
}

#[test]
fn reports_are_in_order(rt: HostRuntime) -> Result<(), Fail> {
    let alloc = rt.alloc();
    for case in &FARMED {
        run_farm(&rt, alloc, case)?;
    }
    Ok(())
}

/// Traces whose reports would take too much room: none is run.
#[test]
fn reports_have_no_room(rt: HostRuntime) -> Result<(), Fail> {
    let alloc = rt.alloc();
    let code = compiled(&rt, alloc, COUNTS)?;
    let trace = vec![in alloc; b'\n'; 1_000_000]?;
    let mut traces = Vec::new(alloc);
    for _ in 0..12 {
        traces.push(trace.clone()?)?;
    }
    match farm(&rt, alloc, &code, &traces, MAX_ROWS, 100, &OpenGate) {
        Err(OutOfMemory) => {}
        Ok(_) => assert!(&rt; false, "there is room"),
    }
    let few = farm(&rt, alloc, &code, &traces, 10, 100, &OpenGate)?;
    assert_eq!(&rt; few.len(), 12);
    Ok(())
}

/// A source gives a trace in pieces, and a sink keeps what comes.
#[test]
fn pieces_are_kept(rt: HostRuntime) -> Result<(), Fail> {
    let alloc = rt.alloc();
    let mut source = SliceSource::new(b"abcde");
    let mut sink = ReportSink::new(alloc, 2)?;
    let mut buffer = [0u8; 3];
    for taken in [3, 2, 0] {
        let n = source.read(&mut buffer).unwrap_or(9);
        assert_eq!(&rt; n, taken);
        assert_eq!(&rt; sink.write(&buffer[..n.min(3)]), Ok::<usize, Failed>(n));
    }
    assert_eq!(&rt; sink.bytes.as_slice(), b"abcde".as_slice());
    Ok(())
}
