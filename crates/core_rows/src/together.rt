//! Programs without inputs, tick by tick: over a board for their cores, and by calls where they are on one core.

ghost use Rattle.std.specs.Prelude.{◌≡◌, length};
ghost use Rattle.thread_code.specs.Plain.{plain_code};

use crate::beside::{Beside, Ran, Told, ran};
use crate::compiled::compiled;
use crate::hosted::{DIVIDES, FOLDS, TRAPPED};
use core_alloc::{Placement, given};
use forec_base::OpenGate;
use forec_kernel::Outcome;
use one_core::OneCore;
use std::alloc::Global;
use std::sync::Wait;
use std::test::Fail;
use std::thread::Threads;
use thread_code::Code;

/// A program without inputs and with one output, the cores of its threads, who serves the hosts beside the root, its first two ticks,
/// the second of which may be none, and what is counted.
struct Run {
    text: &'static [u8],
    places: &'static str,
    beside: Beside,
    ran: Ran,
}

const FOLDS_TWICE: &[u8] = b"shared output int s = 1 combine all with plus;
int plus(int x, int y) { return x + y; }
void a(void) { s = s + 1; pause; }
void b(void) { s = s + 2; pause; }
void main(void) { par(a, b); }
";

/// Each branch sets an element; both copies of each are combined.
const ELEMENTS: &[u8] = b"shared int h[2] = {1, 2} combine all with plus;
output int s;
int plus(int x, int y) { return x + y; }
void set(int i) { h[i] = h[i] + 3; }
void main(void) { par(set(0), set(1)); s = h[0] * 10 + h[1]; pause; }
";

const FOLDED: Option<Told> = Some((Outcome::Paused, 5));

const FOLDED_AGAIN: Option<Told> = Some((Outcome::Ended, 10));

const NOTHING: [Option<u64>; 3] = [None, None, None];

const RUNS: [Run; 7] = [
    Run {
        text: FOLDS_TWICE,
        places: "0,0,0",
        beside: Beside::Workers,
        ran: (FOLDED, FOLDED_AGAIN, NOTHING),
    },
    Run {
        text: FOLDS_TWICE,
        places: "0,1,2",
        beside: Beside::Workers,
        ran: (FOLDED, FOLDED_AGAIN, NOTHING),
    },
    // each branch's mailbox in turn
    Run {
        text: FOLDS_TWICE,
        places: "0,1,1",
        beside: Beside::Hosts,
        ran: (FOLDED, FOLDED_AGAIN, [Some(0), Some(1), Some(0)]),
    },
    Run {
        text: FOLDS_TWICE,
        places: "0,1,2",
        beside: Beside::Threads,
        ran: (FOLDED, FOLDED_AGAIN, [Some(4), Some(2), Some(2)]),
    },
    Run {
        text: FOLDS,
        places: "0,0,0,0",
        beside: Beside::Workers,
        ran: (FOLDED, FOLDED, NOTHING),
    },
    Run {
        text: DIVIDES,
        places: "0,0,0",
        beside: Beside::Workers,
        ran: (Some((TRAPPED, 7)), None, NOTHING),
    },
    Run {
        text: ELEMENTS,
        places: "0,0,0",
        beside: Beside::Workers,
        ran: (
            Some((Outcome::Paused, 57)),
            Some((Outcome::Ended, 57)),
            NOTHING,
        ),
    },
];

/// Whether the program's first two ticks go so by calls, if its threads are on one core.
fn by_calls(alloc: Global, code: &Code, placement: &Placement, run: &Run) -> Result<bool, Fail>
    requires placed { length placement.now.places ≡ length (plain_code code.now).threads }
{
    if !placement.has_one_core() {
        return Ok(true);
    }
    let shape = code.shape();
    if shape.inputs.len() != 0 || shape.outputs.len() != 1 {
        return Ok(false);
    }
    let mut one = OneCore::load(alloc, code, placement)?;
    let mut outputs = [7];
    let outcome = one.tick(&[], 1000, &OpenGate, &mut outputs);
    let first = Some((outcome, outputs[0]));
    if outcome != Outcome::Paused {
        return Ok((first, None) == (run.ran.0, run.ran.1));
    }
    outputs = [7];
    let outcome = one.tick(&[], 1000, &OpenGate, &mut outputs);
    Ok((first, Some((outcome, outputs[0]))) == (run.ran.0, run.ran.1))
}

fn goes_as_told<R: Threads + Wait + Sync>(rt: &R, alloc: Global, run: &Run) -> Result<bool, Fail> {
    if run.text.len() > 1000 {
        return Ok(false);
    }
    let code = compiled(alloc, run.text)?;
    let count = code.parts().threads.len();
    let placement = given(alloc, run.places, u32::try_from(count)?, 3)?;
    if placement.threads() as usize != count {
        return Ok(false);
    }
    Ok(
        by_calls(alloc, &code, &placement, run)?
            && ran(rt, alloc, &code, &placement, run.beside)? == run.ran,
    )
}

#[test]
fn ticks_beside_each_other(rt: HostRuntime) -> Result<(), Fail> {
    for run in &RUNS {
        assert!(rt; goes_as_told(&rt, rt.alloc(), run)?);
    }
    Ok(())
}
