//! Programs whose threads are placed on three cores, tick by tick.

ghost use Rattle.std.specs.Prelude.{◌≡◌, IfOk};
ghost use Rattle.core_host.specs.Hosted.{IsWhole};

use crate::compiled::compiled;
use copy_slots::LocalPort;
use core_alloc::{Placement, given};
use core_host::{Host, Served};
use core_seats::{ForecWork, local_port};
use forec_base::{OpenGate, OutOfMemory, Place, Trap};
use forec_kernel::Outcome;
use std::alloc::Global;
use std::test::Fail;
use thread_code::Code;

/// One tick: the value of the input, the budget, how the tick ends, and the output then. Before each tick the output
/// has the value 7.
type Tick = (i32, u32, Outcome, i32);

/// A program with at most one input and with one output, the cores of its threads, and its ticks.
struct Run {
    text: &'static [u8],
    places: &'static str,
    ticks: &'static [Tick],
}

const SUMS: &[u8] =
    b"input int a; output int b = 5; void main(void) { while (1) { b = a + b; pause; } }";

pub const FOLDS: &[u8] = b"shared output int s = 0 combine all with minus;
int minus(int x, int y) { return x - y; }
void a(void) { s = 10; }
void b(void) { s = 3; }
void c(void) { s = 2; }
void main(void) { while (1) { par(a, b, c); pause; } }
";

const FOLDS_ONCE: &[u8] = b"shared output int s = 0 combine all with minus;
int minus(int x, int y) { return x - y; }
void a(void) { s = 10; }
void b(void) { s = 3; }
void c(void) { s = 2; }
void main(void) { par(a, b, c); }
";

pub const DIVIDES: &[u8] = b"shared output int s = 0 combine mod with plus;
int plus(int x, int y) { return x + y; }
void a(void) { s = 1 / s; }
void b(void) { s = 2 / s; }
void main(void) { par(a, b); }
";

const LEFT: &[u8] = b"input int r;
shared output int s = 0 combine mod with plus;
int plus(int x, int y) { return x + y; }
void a(void) { s = 1; pause; s = 10; pause; s = 100; pause; }
void b(void) { s = 2; pause; s = 20; pause; s = 200; pause; }
void main(void) { while (1) { weak abort { par(a, b); } when (r); pause; } }
";

/// The copies are combined in the order of the `par`: 10, 3 and 2 by minus are 5; 8 by 4 is 2 of the new ones; and 9 was assigned.
const JOINS: &[u8] = b"shared int a = 4 combine all with minus;
shared int b = 1 combine new with quotient;
shared int c = 7 combine mod with minus;
output int o = 0;
int minus(int x, int y) { return x - y; }
int quotient(int x, int y) { return x / y; }
void ten(void) { a = 10; }
void three(void) { a = 3; b = 8; c = 9; }
void two(void) { a = 2; b = 4; }
void main(void) { par(ten, three, two); o = a * 100 + b * 10 + c; }
";

/// The same, but for a divisor of 0.
const JOINS_BY_ZERO: &[u8] = b"shared int a = 4 combine all with minus;
shared int b = 1 combine new with quotient;
shared int c = 7 combine mod with minus;
output int o = 0;
int minus(int x, int y) { return x - y; }
int quotient(int x, int y) { return x / y; }
void ten(void) { a = 10; }
void three(void) { a = 3; b = 8; c = 9; }
void two(void) { a = 2; b = 0; }
void main(void) { par(ten, three, two); o = a * 100 + b * 10 + c; }
";

/// Two branches trap, and the first of them is reported, but not where one is over the budget.
const TRAPS_TWICE: &[u8] = b"output int o = 0;
void ends(void) { }
void index(void) { int t[1]; int i = 1; t[i] = 1; }
void turns(void) { int i = 0; while (i < 10) #5 { i = i + 1; } }
void main(void) { par(ends, index, turns); }
";

/// Each branch is within a budget of 100, and the three are not.
const LATE: &[u8] = b"output int o = 0;
void late(void) { for (int i = 0; i < 5; i++) #5 { } }
void main(void) { par(late, late, late); o = 1; }
";

/// In the second tick only the branch goes on that paused.
const WAKES: &[u8] = b"shared output int s = 1 combine mod with plus;
int plus(int x, int y) { return x + y; }
void ends(void) { s = s + 1; }
void waits(void) { s = s + 2; pause; s = s + 10; }
void main(void) { par(ends, waits, ends); }
";

pub const TRAPPED: Outcome = Outcome::Trapped {
    place: Place {
        line: 3,
        column: 22,
    },
    trap: Trap::Divide,
};

const DIVIDED: Outcome = Outcome::Trapped {
    place: Place {
        line: 6,
        column: 39,
    },
    trap: Trap::Divide,
};

const INDEXED: Outcome = Outcome::Trapped {
    place: Place {
        line: 3,
        column: 41,
    },
    trap: Trap::Index,
};

const RUNS: [Run; 11] = [
    // 7 units each
    Run {
        text: SUMS,
        places: "0",
        ticks: &[
            (3, 7, Outcome::Paused, 8),
            (-10, 12, Outcome::Paused, -2),
            (2147483647, 7, Outcome::Paused, 2147483645),
            (3, 7, Outcome::Paused, -2147483648),
            (1, 6, Outcome::Over, 7),
        ],
    },
    Run {
        text: FOLDS,
        places: "0,2,0,1",
        ticks: &[
            (0, 100, Outcome::Paused, 5),
            (0, 100, Outcome::Paused, 5),
            (0, 100, Outcome::Paused, 5),
            (0, 3, Outcome::Over, 7),
        ],
    },
    Run {
        text: FOLDS_ONCE,
        places: "0,2,0,1",
        ticks: &[(0, 1000, Outcome::Ended, 5)],
    },
    Run {
        text: LEFT,
        places: "0,1,2",
        ticks: &[
            (0, 1000, Outcome::Paused, 3),
            (1, 1000, Outcome::Paused, 30),
            (0, 1000, Outcome::Paused, 3),
            (0, 1000, Outcome::Paused, 30),
        ],
    },
    Run {
        text: DIVIDES,
        places: "0,1,0",
        ticks: &[(0, 1000, TRAPPED, 7)],
    },
    Run {
        text: JOINS,
        places: "0,2,0,1",
        ticks: &[(0, 1000, Outcome::Ended, 529)],
    },
    Run {
        text: JOINS_BY_ZERO,
        places: "0,2,0,1",
        ticks: &[(0, 1000, DIVIDED, 7)],
    },
    Run {
        text: TRAPS_TWICE,
        places: "0,2,0,1",
        ticks: &[(0, 53, INDEXED, 7)],
    },
    Run {
        text: TRAPS_TWICE,
        places: "0,2,0,1",
        ticks: &[(0, 52, Outcome::Over, 7)],
    },
    Run {
        text: LATE,
        places: "0,2,0,1",
        ticks: &[(0, 100, Outcome::Over, 7)],
    },
    Run {
        text: WAKES,
        places: "0,2,0,1",
        ticks: &[(0, 1000, Outcome::Paused, 7), (0, 1000, Outcome::Ended, 17)],
    },
];

/// All threads of a code, on the cores of a placement on three.
fn hosted<'c>(
    alloc: Global,
    code: &'c Code,
    placement: &Placement,
) -> Result<Host<'c, LocalPort<ForecWork>>, OutOfMemory>
    requires cores { placement.now.cores ≡ 3 }
    ensures whole { IfOk result IsWhole }
    ensures code { IfOk result (λ h. h.code ≡ code.now) }
{
    let count = code.parts().threads.len();
    if placement.threads() as usize != count {
        return Err(OutOfMemory);
    }
    let port = local_port(alloc, code)?;
    Host::load(alloc, code, placement, &[0, 1, 2], port)
}

/// Runs a tick: how it ends, and the output then. No mailbox has anything left.
fn run_tick(
    host: &mut Host<'_, LocalPort<ForecWork>>,
    code: &Code,
    input: i32,
    budget: u32,
) -> Option<(Outcome, i32)>
    requires whole { IsWhole host.old }
    requires code { host.old.code ≡ code.now }
    ensures whole { IsWhole host.new }
    ensures code { host.new.code ≡ code.now }
{
    let row = [input];
    let mut outputs = [7];
    let inputs = code.shape().inputs.len();
    if !host.live() || inputs > 1 || code.shape().outputs.len() != 1 {
        return None;
    }
    let outcome = host.alone(&row[..inputs], budget as u64, &OpenGate, &mut outputs);
    match host.serve(&OpenGate) {
        Served::Nothing => Some((outcome, outputs[0])),
        Served::Worked { .. } => None,
    }
}

/// Runs ticks as long as they go as expected: whether all of them did, and the host lives on where the last one paused.
fn goes_so(host: &mut Host<'_, LocalPort<ForecWork>>, code: &Code, ticks: &[Tick]) -> bool
    requires whole { IsWhole host.old }
    requires code { host.old.code ≡ code.now }
{
    let mut pauses = true;
    for (input, budget, ends, output) in ticks {
        if !host.live() || run_tick(host, code, *input, *budget) != Some((*ends, *output)) {
            return false;
        }
        pauses = *ends == Outcome::Paused;
    }
    host.live() == pauses
}

/// Runs a code on the cores of its threads: whether all of its ticks go as expected.
fn runs_so(alloc: Global, code: &Code, places: &str, ticks: &[Tick]) -> Result<bool, Fail> {
    let threads = u32::try_from(code.parts().threads.len())?;
    let placement = given(alloc, places, threads, 3)?;
    let mut host = hosted(alloc, code, &placement)?;
    Ok(goes_so(&mut host, code, ticks))
}

fn goes_as_told(alloc: Global, run: &Run) -> Result<bool, Fail> {
    if run.text.len() > 1000 {
        return Ok(false);
    }
    let code = compiled(alloc, run.text)?;
    runs_so(alloc, &code, run.places, run.ticks)
}

#[test]
fn ticks_of_placed_threads(rt: HostRuntime) -> Result<(), Fail> {
    for run in &RUNS {
        assert!(rt; goes_as_told(rt.alloc(), run)?);
    }
    Ok(())
}
