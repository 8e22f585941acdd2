//! Cores beside each other: each holds its job until the others have theirs.

use crate::memory::{Asked, run_past, whole};
use crate::programs::{ADDED, ADDS, DRIVE, DRIVEN, ROBOT};
use forec_base::{Gate, Point};
use forec_engine::Status;
use std::alloc::Global;
use std::process::Abort;
use std::sync::Wait;
use std::sync::atomic::{AtomicU32, Ordering};
use std::test::Fail;
use std::thread;
use std::thread::Threads;

/// How often a core looks for the others at most.
const TURNS: u32 = 50_000_000;

/// A gate that keeps the n-th job of each of these cores until each of them has begun its n-th.
#[derive(Drop)]
struct Meeting {
    /// How many jobs each core has begun. Only these cores meet.
    begun: Vec<AtomicU32>,
    /// How often a core ran out of turns.
    late: AtomicU32,
    /// How often a core had a job of a thread that isn't placed there.
    misplaced: AtomicU32,
}

impl Meeting {
    /// Whether each core that meets has begun so many jobs.
    fn has_all(&self, jobs: u32) -> bool {
        self.begun
            .iter()
            .all(|core| core.load(Ordering::SeqCst) >= jobs)
    }
}

impl Gate for Meeting {
    fn pass(&self, core: u32, thread: u32, point: Point) {
        if core == 0 || point != Point::Begun {
            return;
        }
        if core != thread {
            self.misplaced.fetch_add(1, Ordering::SeqCst);
        }
        let Some(own) = self.begun.get(core as usize - 1) else {
            return;
        };
        let job = own.fetch_add(1, Ordering::SeqCst).wrapping_add(1);
        for _ in 0..TURNS {
            if self.has_all(job) {
                return;
            }
            thread::yield_now();
        }
        self.late.fetch_add(1, Ordering::SeqCst);
    }
}

/// Words that run over a trace, the cores but core 0 that meet, how often, and what is held in the end.
#[derive(Drop)]
struct Meets {
    words: &'static [&'static str],
    text: &'static [u8],
    trace: &'static [u8],
    cores: usize,
    jobs: u32,
    report: &'static [u8],
}

const MEETINGS: [Meets; 2] = [
    Meets {
        words: &["run", "P", "--cores", "3", "--place", "0,1,2"],
        text: ADDS,
        trace: b"\n\n\n",
        cores: 2,
        jobs: 2,
        report: ADDED,
    },
    Meets {
        words: &["run", "P", "--cores", "4", "--place", "0,1,2,3,0"],
        text: ROBOT,
        trace: DRIVE,
        cores: 3,
        jobs: 5,
        report: DRIVEN,
    },
];

fn meet(
    rt: &(impl Abort + Threads + Wait + Sync),
    alloc: Global,
    case: &Meets,
) -> Result<(), Fail> {
    let mut begun = Vec::new(alloc);
    for _ in 0..case.cores {
        begun.push(AtomicU32::new(0))?;
    }
    let gate = Meeting {
        begun,
        late: AtomicU32::new(0),
        misplaced: AtomicU32::new(0),
    };
    let asked = Asked {
        words: case.words,
        text: case.text,
        trace: case.trace,
    };
    let end = run_past(rt, alloc, asked, whole(alloc), &gate)?;
    assert_eq!(rt;
        (end.held.as_slice(), end.status),
        (case.report, Status::Done)
    );
    assert_eq!(rt;
        (
            gate.late.load(Ordering::SeqCst),
            gate.misplaced.load(Ordering::SeqCst)
        ),
        (0, 0)
    );
    for core in &gate.begun {
        assert_eq!(rt; core.load(Ordering::SeqCst), case.jobs);
    }
    Ok(())
}

#[test]
fn cores_meet(rt: HostRuntime) -> Result<(), Fail> {
    let alloc = rt.alloc();
    for case in &MEETINGS {
        meet(&rt, alloc, case)?;
    }
    Ok(())
}
