//! A source that gives the next row only once the line of each row before it has been taken.

use crate::memory::{owned, store};
use crate::programs::{ADDED, ADDS, COUNTED, COUNTER};
use forec_base::{Failed, MemSink, MemSource, OpenGate, Sink, Source};
use forec_engine::{Status, forec};
use std::process::Abort;
use std::sync::atomic::{AtomicU32, Ordering};
use std::test::Fail;

/// Lines of one byte. It fails where a row that it gave has no line yet among those that were taken.
#[derive(Drop)]
struct Waiting<'a> {
    lines: MemSource,
    given: u32,
    taken: &'a AtomicU32,
    faults: u64,
    down: bool,
}

impl Source for Waiting<'_> {
    ghost use Rattle.std.specs.Prelude.{None};

    ghost left = { λ _. None };

    ghost faults = { λ s. s.faults };

    ghost down = { λ s. s.down };

    fn read(&mut self, buffer: &mut [u8]) -> Result<usize, Failed> {
        if self.taken.load(Ordering::SeqCst) >= self.given.saturating_sub(1) {
            if let Ok(count) = self.lines.read(buffer) {
                self.given = self.given.saturating_add(1);
                self.down = false;
                return Ok(count);
            }
        }
        self.down = true;
        self.faults = self.faults.saturating_add(1);
        Err(Failed)
    }
}

/// Counts the lines that it has taken.
#[derive(Drop)]
struct Counting<'a> {
    inner: MemSink,
    taken: &'a AtomicU32,
    faults: u64,
    down: bool,
}

impl Sink for Counting<'_> {
    ghost use Rattle.std.specs.Prelude.{None};

    ghost held = { λ _. None };

    ghost faults = { λ s. s.faults };

    ghost down = { λ s. s.down };

    fn write(&mut self, piece: &[u8]) -> Result<usize, Failed> {
        if let Ok(count) = self.inner.write(piece) {
            for byte in &piece[..count] {
                if *byte == b'\n' {
                    self.taken.fetch_add(1, Ordering::SeqCst);
                }
            }
            self.down = false;
            return Ok(count);
        }
        self.down = true;
        self.faults = self.faults.saturating_add(1);
        Err(Failed)
    }
}

/// Words, a text, and its report over two rows without words.
const REPORTS: [(&[&str], &[u8], &[u8]); 3] = [
    (&["run", "P"], COUNTER, COUNTED),
    (&["explain", "P"], COUNTER, COUNTED),
    (
        &["run", "P", "--cores", "3", "--place", "0,1,2"],
        ADDS,
        ADDED,
    ),
];

/// A body that holds its lines back would end by a fault of the source.
#[test]
fn a_line_is_out_before_the_next_row(rt: HostRuntime) -> Result<(), Fail> {
    let alloc = rt.alloc();
    for (words, text, report) in &REPORTS {
        for size in [1usize, 100] {
            let taken = AtomicU32::new(0);
            let mut source = Waiting {
                lines: MemSource::pieces(b"\n\n\n".to_vec(alloc)?, Vec::new(alloc), 1),
                given: 0,
                taken: &taken,
                faults: 0,
                down: false,
            };
            let mut sink = Counting {
                inner: MemSink::pieces(alloc, 100, Vec::new(alloc), size)?,
                taken: &taken,
                faults: 0,
                down: false,
            };
            let mut texts = store(alloc, text)?;
            let words = owned(alloc, words)?;
            let status = forec(
                &rt,
                alloc,
                &words,
                &mut texts,
                &mut source,
                &mut sink,
                &OpenGate,
            );
            assert_eq!(rt; (sink.inner.bytes(), status), (*report, Status::Done));
        }
    }
    Ok(())
}
