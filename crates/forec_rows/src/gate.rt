//! The gate that the top call is given is the one that its threads pass.

use crate::memory::{Asked, run_past, whole};
use forec_base::{Gate, Point};
use forec_engine::Status;
use std::process::Abort;
use std::sync::atomic::{AtomicU32, Ordering};
use std::test::Fail;

/// Counts passes, before a job and after it.
#[derive(Drop)]
struct Passes {
    begun: AtomicU32,
    answered: AtomicU32,
}

impl Passes {
    fn none() -> Passes {
        Passes {
            begun: AtomicU32::new(0),
            answered: AtomicU32::new(0),
        }
    }

    fn told(&self) -> (u32, u32) {
        let begun = self.begun.load(Ordering::SeqCst);
        (begun, self.answered.load(Ordering::SeqCst))
    }
}

/// The passes of two branches on core 0, and all others but those of `main` there.
#[derive(Drop)]
struct Counting {
    first: Passes,
    second: Passes,
    others: Passes,
}

impl Gate for Counting {
    fn pass(&self, core: u32, thread: u32, point: Point) {
        let passes = match (core, thread) {
            (0, 0) => return,
            (0, 1) => &self.first,
            (0, 2) => &self.second,
            _ => &self.others,
        };
        match point {
            Point::Begun => passes.begun.fetch_add(1, Ordering::SeqCst),
            Point::Answered => passes.answered.fetch_add(1, Ordering::SeqCst),
        };
    }
}

/// Two branches, each of two ticks.
const TWICE: &[u8] = b"void a(void) { pause; } void main(void) { par(a, a); }";

#[test]
fn each_job_passes_the_gate(rt: HostRuntime) -> Result<(), Fail> {
    let alloc = rt.alloc();
    let gate = Counting {
        first: Passes::none(),
        second: Passes::none(),
        others: Passes::none(),
    };
    let asked = Asked {
        words: &["run", "P"],
        text: TWICE,
        trace: b"\n\n\n",
    };
    let end = run_past(&rt, alloc, asked, whole(alloc), &gate)?;
    let report = b"tick 1\ntick 2\nend 2\n".as_slice();
    assert_eq!(rt; (end.held.as_slice(), end.status), (report, Status::Done));
    assert_eq!(rt; gate.first.told(), (2, 2));
    assert_eq!(rt; gate.second.told(), (2, 2));
    assert_eq!(rt; gate.others.told(), (0, 0));
    Ok(())
}
