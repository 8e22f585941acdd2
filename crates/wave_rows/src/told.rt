//! What is told of texts that are long, and to sinks that take pieces or fail.
use crate::worked::COUNTS;
use dump_report::{DumpStatus, tell};
use forec_base::{MAX_TEXT_BYTES, MemSink};
use std::alloc::Global;
use std::process::Abort;
use std::test::Fail;

/// The report of `COUNTS`.
const COUNTED: &[u8] = b"tick 1 o=1\ntick 2 o=2\nrows 2\n";

/// What is told of a text: what the sink holds then, and the status.
#[derive(Drop)]
struct Written {
    held: Vec<u8>,
    status: DumpStatus,
}

/// Tells a text to a sink with room for so many bytes, which takes at most `size` of them a call and fails at the calls
/// of these numbers.
fn told(
    alloc: Global,
    text: &[u8],
    room: usize,
    size: usize,
    fails: Vec<u64>,
) -> Result<Written, Fail> {
    let mut sink = MemSink::pieces(alloc, room, fails, size.max(1))?;
    let status = tell(alloc, text, &mut sink);
    let held = sink.bytes().to_vec(alloc)?;
    Ok(Written { held, status })
}

/// The same to a sink that takes all bytes at once, and doesn't fail.
fn told_whole(alloc: Global, text: &[u8]) -> Result<Written, Fail> {
    told(alloc, text, 1_000_000, usize::MAX, Vec::new(alloc))
}

/// A text of a byte too many isn't read.
#[test]
fn too_long(rt: HostRuntime) -> Result<(), Fail> {
    let alloc = rt.alloc();
    let mut text = vec![in alloc; b'$'; MAX_TEXT_BYTES]?;
    let longest = told_whole(alloc, &text)?;
    assert_eq!(rt; longest.held.as_slice(), b"refused byte 2\n".as_slice());
    text.push(b'$')?;
    let long = told_whole(alloc, &text)?;
    assert_eq!(rt; long.held.as_slice(), b"refused long\n".as_slice());
    assert_eq!(rt; long.status, DumpStatus::Refused);
    Ok(())
}

/// A dump of so many ticks, whose output has a name of so many bytes, and its report.
fn wide(alloc: Global, width: usize, ticks: u32) -> Result<(String, String), Fail> {
    let mut name = String::new(alloc);
    for _ in 0..width {
        name.push('n')?;
    }
    let mut text = format!(in alloc;
        "$timescale 1 ns $end\n$scope module forec $end\n$var wire 32 ! {name} $end\n$upscope $end\n$enddefinitions $end\n"
    )?;
    let mut report = String::new(alloc);
    for tick in 0..ticks {
        text.push_str(format!(in alloc; "#{}\n", u64::from(tick) + 1)?.as_str())?;
        if tick == 0 {
            text.push_str("b00000000000000000000000000000000 !\n")?;
        }
        report.push_str(format!(in alloc; "tick {} {name}=0\n", u64::from(tick) + 1)?.as_str())?;
    }
    text.push_str("$comment rows $end\n")?;
    report.push_str("rows\n")?;
    Ok((text, report))
}

/// More lines than wait at once, and a line that is longer than what waits at once.
#[test]
fn in_pieces(rt: HostRuntime) -> Result<(), Fail> {
    let alloc = rt.alloc();
    for (width, ticks) in &[(20, 9000), (10_000, 20), (200_000, 3)] {
        let (text, report) = wide(alloc, *width, *ticks)?;
        for size in &[usize::MAX, 999] {
            let told = told(alloc, text.as_bytes(), 1_000_000, *size, Vec::new(alloc))?;
            assert!(rt; told.held.as_slice() == report.as_bytes());
            assert_eq!(rt; told.status, DumpStatus::Done);
        }
    }
    Ok(())
}

/// What a sink holds that failed is a front of the report.
fn is_front(rt: &impl Abort, told: &Written, report: &[u8]) {
    assert_eq!(rt; told.status, DumpStatus::WriteFault);
    assert!(rt; report.starts_with(told.held.as_slice()));
}

/// The sink takes three bytes a call, and fails at one of its calls, or has less room than the report wants.
#[test]
fn a_sink_that_fails(rt: HostRuntime) -> Result<(), Fail> {
    let alloc = rt.alloc();
    for call in 1..=10u64 {
        let fails = vec![in alloc; call]?;
        is_front(&rt, &told(alloc, COUNTS, 1000, 3, fails)?, COUNTED);
        let fails = vec![in alloc; call]?;
        let refused = told(alloc, b"", 1000, 1, fails)?;
        is_front(&rt, &refused, b"refused byte 1\n");
    }
    for room in 0..COUNTED.len() {
        is_front(
            &rt,
            &told(alloc, COUNTS, room, 1, Vec::new(alloc))?,
            COUNTED,
        );
    }
    Ok(())
}
