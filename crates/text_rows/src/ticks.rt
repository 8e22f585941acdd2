//! Worked programs, tick by tick.

use crate::kernels::lowered;
use forec_base::OutOfMemory;
use forec_kernel::{Kernel, Outcome};
use kernel_meaning::{State, rewrite_tick};
use std::alloc::Global;
use std::test::Fail;

/// One tick: the value of the input, how the tick ends, and the output then. Before each tick the output has the value 7.
type Tick = (i32, Outcome, i32);

/// A program with at most one input and with one output, the budget of each of its ticks, and the ticks.
struct Run {
    text: &'static [u8],
    budget: u64,
    ticks: &'static [Tick],
}

/// A tick of 7 units.
const COUNTING: &[u8] = b"output int o = 0; void main(void) { while (1) { o = o + 1; pause; } }";

/// 3 units, then 9.
const STEPS: &[u8] =
    b"output int o = 0; void main(void) { o = 1; pause; o = o + 1; o = o + 1; pause; }";

/// Two branches that add 1 and 2 and pause, combined by a sum.
const ALL: &[u8] = b"shared output int s = 1 combine all with plus;
int plus(int x, int y) { return x + y; }
void main(void) { par({ s = s + 1; pause; }, { s = s + 2; pause; }); }
";

const MOD: &[u8] = b"shared output int s = 1 combine mod with plus;
int plus(int x, int y) { return x + y; }
void main(void) { par({ s = s + 1; pause; }, { s = s + 2; pause; }); }
";

const NEW: &[u8] = b"shared output int s = 1 combine new with plus;
int plus(int x, int y) { return x + y; }
void main(void) { par({ s = s + 1; pause; }, { s = s + 2; pause; }); }
";

/// An abort round a loop that counts, by an input.
const STRONG: &[u8] = b"input int r; output int o = 0;
void main(void) { while (1) { abort { while (1) { o = o + 1; pause; } } when (r); o = o + 100; pause; } }
";

const WEAK: &[u8] = b"input int r; output int o = 0;
void main(void) { while (1) { weak abort { while (1) { o = o + 1; pause; } } when (r); o = o + 100; pause; } }
";

/// Two branches of which one sets an element after the other, combined element by element.
const ELEMENTS: &[u8] = b"shared int h[3] combine mod with plus; output int o = 0;
int plus(int x, int y) { return x + y; }
void a(int i) { h[i % 3] = 1; }
void b(void) { h[0] = h[0] + 5; }
void main(void) { int i = 0; while (1) { par(a(i), b); o = h[0] * 100 + h[1] * 10 + h[2]; i = i + 1; pause; } }
";

const RUNS: [Run; 11] = [
    Run {
        text: COUNTING,
        budget: 7,
        ticks: &[(0, Outcome::Paused, 1), (0, Outcome::Paused, 2)],
    },
    Run {
        text: COUNTING,
        budget: 6,
        ticks: &[(0, Outcome::Over, 7)],
    },
    Run {
        text: STEPS,
        budget: 9,
        ticks: &[(0, Outcome::Paused, 1), (0, Outcome::Paused, 3)],
    },
    Run {
        text: STEPS,
        budget: 8,
        ticks: &[(0, Outcome::Paused, 1), (0, Outcome::Over, 7)],
    },
    Run {
        text: STEPS,
        budget: 2,
        ticks: &[(0, Outcome::Over, 7)],
    },
    Run {
        text: ALL,
        budget: 100,
        ticks: &[(0, Outcome::Paused, 5), (0, Outcome::Ended, 10)],
    },
    Run {
        text: MOD,
        budget: 100,
        ticks: &[(0, Outcome::Paused, 5), (0, Outcome::Ended, 5)],
    },
    Run {
        text: NEW,
        budget: 100,
        ticks: &[(0, Outcome::Paused, 5), (0, Outcome::Ended, 5)],
    },
    Run {
        text: STRONG,
        budget: 100,
        ticks: &[
            (0, Outcome::Paused, 1),
            (0, Outcome::Paused, 2),
            (1, Outcome::Paused, 102),
            (0, Outcome::Paused, 103),
        ],
    },
    Run {
        text: WEAK,
        budget: 100,
        ticks: &[
            (0, Outcome::Paused, 1),
            (0, Outcome::Paused, 2),
            (1, Outcome::Paused, 103),
            (0, Outcome::Paused, 104),
        ],
    },
    Run {
        text: ELEMENTS,
        budget: 1000,
        ticks: &[
            (0, Outcome::Paused, 600),
            (0, Outcome::Paused, 1110),
            (0, Outcome::Paused, 1611),
            (0, Outcome::Paused, 2211),
        ],
    },
];

/// The next tick by rewriting: how it ends, the output, and the state after it.
fn next_tick<'k>(
    alloc: Global,
    kernel: &'k Kernel,
    state: &State<'k>,
    input: i32,
    order: &[u32],
    budget: u64,
) -> Result<(Outcome, i32, Box<State<'k>>), OutOfMemory> {
    if kernel.shape().outputs.len() != 1 {
        return Err(OutOfMemory);
    }
    let row = [input];
    let mut outputs = [7];
    let (outcome, next) = rewrite_tick(alloc, kernel, state, &row, order, budget, &mut outputs)?;
    Ok((outcome, outputs[0], Box::new(alloc, next)?))
}

/// Runs ticks, whose steps are taken in that order, as long as they go as expected: whether all of them did.
fn goes_so(alloc: Global, kernel: &Kernel, run: &Run, order: &[u32]) -> Result<bool, OutOfMemory> {
    let mut state = Box::new(alloc, State::first(alloc, kernel)?)?;
    for (input, ends, output) in run.ticks {
        let (outcome, found, next) = next_tick(alloc, kernel, &state, *input, order, run.budget)?;
        if outcome != *ends || found != *output {
            return Ok(false);
        }
        state = next;
    }
    Ok(true)
}

fn goes_as_told(alloc: Global, run: &Run) -> Result<bool, Fail> {
    if run.text.len() > 1000 {
        return Ok(false);
    }
    let kernel = lowered(alloc, run.text)?;
    Ok(goes_so(alloc, &kernel, run, &[])? && goes_so(alloc, &kernel, run, &[1, 0, 1, 3, 2])?)
}

#[test]
fn ticks_in_two_orders(rt: HostRuntime) -> Result<(), Fail> {
    for run in &RUNS {
        assert!(rt; goes_as_told(rt.alloc(), run)?);
    }
    Ok(())
}
