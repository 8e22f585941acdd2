//! Hosts beside each other: one for each core of a program's threads.

ghost use Rattle.std.specs.Prelude.{◌≡◌, length, true};
ghost use Rattle.thread_code.specs.Plain.{plain_code};
ghost use Rattle.core_host.specs.Hosted.{is_here};

use crate::roped::beside_threads;
use board_hosts::{Hosts, board_of, hosts_of};
use copy_slots::Port;
use core_alloc::Placement;
use core_bells::Bells;
use core_host::{Host, Served, Worker};
use core_seats::{ForecWork, Serve};
use forec_base::OpenGate;
use forec_kernel::Outcome;
use std::alloc::Global;
use std::sync::Wait;
use std::test::Fail;
use std::thread::Threads;
use thread_code::Code;

/// How a tick ends, and the output then. Before each tick the output has the value 7.
pub type Told = (Outcome, i32);

/// Workers that no OS thread runs.
#[derive(Drop)]
struct Waiting<'c, P: Port<ForecWork> + Drop> {
    workers: Vec<Worker<'c, P>>,
}

impl<'c, P: Port<ForecWork> + Drop> Serve for Waiting<'c, P> {
    ghost use Rattle.std.specs.Prelude.{[]};

    ghost kept = { λ w. record { borrow = 0; hosts = [] } };

    fn serve<R: Wait>(&mut self, rt: &R) -> bool {
        let mut worked = false;
        for worker in self.workers.iter_mut() {
            if worker.serve_beside(rt, &OpenGate) {
                worked = true;
            }
        }
        worked
    }

    fn is_empty(&self) -> bool {
        self.workers.is_empty()
    }
}

/// Runs a tick of a program without inputs, while the others are served.
pub fn run_tick<'c, P: Port<ForecWork> + Drop, O: Serve, R: Wait>(
    rt: &R,
    root: &mut Host<'c, P>,
    others: &mut O,
    code: &Code,
) -> Option<Told>
    requires here { is_here root.old 0 ≡ true }
    requires code { root.old.code ≡ code.now }
    ensures here { is_here root.new 0 ≡ true }
    ensures code { root.new.code ≡ code.now }
{
    let mut outputs = [7];
    let inputs = code.shape().inputs.len();
    if !root.live() || inputs != 0 || code.shape().outputs.len() != 1 {
        return None;
    }
    let outcome = root.tick(rt, &[], 1000, others, &OpenGate, &mut outputs);
    Some((outcome, outputs[0]))
}

/// A host that is served one mailbox a call, and the first mailboxes that it served.
#[derive(Drop)]
struct Counting<'h, 'c, P: Port<ForecWork> + Drop> {
    host: &'h mut Host<'c, P>,
    served: [Option<u64>; 3],
    count: usize,
}

impl<'h, 'c, P: Port<ForecWork> + Drop> Serve for Counting<'h, 'c, P> {
    ghost use Rattle.std.specs.Prelude.{[]};

    ghost kept = { λ w. record { borrow = 0; hosts = [] } };

    fn serve<R: Wait>(&mut self, _rt: &R) -> bool {
        let Served::Worked { k } = self.host.serve(&OpenGate) else {
            return false;
        };
        if self.count < 3 {
            self.served[self.count] = Some(u64::from(k));
            self.count += 1;
        }
        true
    }

    fn is_empty(&self) -> bool {
        false
    }
}

/// The first two ticks, and what was counted: how many hints the root and two workers in threads of their own gave, or the first
/// mailboxes that a host served.
pub type Ran = (Option<Told>, Option<Told>, [Option<u64>; 3]);

/// Two ticks, between whose steps the root serves the workers.
fn beside_workers<'c, P: Port<ForecWork> + Drop, R: Wait>(
    rt: &R,
    mut root: Host<'c, P>,
    workers: Vec<Worker<'c, P>>,
    code: &'c Code,
) -> Ran
    requires here { is_here root 0 ≡ true }
    requires code { root.code ≡ code.now }
{
    let mut others = Waiting { workers };
    let first = run_tick(rt, &mut root, &mut others, code);
    let second = run_tick(rt, &mut root, &mut others, code);
    (first, second, [None, None, None])
}

/// Two ticks beside the host of a worker that was stopped before, one mailbox a call.
fn beside_worker<'c, P: Port<ForecWork> + Drop, R: Wait>(
    rt: &R,
    root: &mut Host<'c, P>,
    worker: Worker<'c, P>,
    code: &'c Code,
) -> Ran
    requires here { is_here root.old 0 ≡ true }
    requires code { root.old.code ≡ code.now }
{
    let mut host = worker.run(rt, &OpenGate);
    let mut others = Counting {
        host: &mut host,
        served: [None, None, None],
        count: 0,
    };
    let first = run_tick(rt, root, &mut others, code);
    let second = run_tick(rt, root, &mut others, code);
    (first, second, others.served)
}

/// The same, beside the last of these workers, if there is one.
fn beside_host<'c, P: Port<ForecWork> + Drop, R: Wait>(
    rt: &R,
    mut root: Host<'c, P>,
    mut workers: Vec<Worker<'c, P>>,
    code: &'c Code,
) -> Ran
    requires here { is_here root 0 ≡ true }
    requires code { root.code ≡ code.now }
{
    root.stop();
    match workers.pop() {
        Some(worker) => beside_worker(rt, &mut root, worker, code),
        None => (None, None, [None, None, None]),
    }
}

/// Who serves the hosts beside the root.
#[derive(Clone, Copy)]
pub enum Beside {
    /// The root, as workers.
    Workers,
    /// The root, one mailbox a call.
    Hosts,
    /// Each of two workers runs in a thread of its own.
    Threads,
}

/// Two ticks of hosts.
fn ticks_of<'c, P: Port<ForecWork> + Drop + Send, R: Threads + Wait + Sync>(
    rt: &R,
    root: Host<'c, P>,
    workers: Vec<Worker<'c, P>>,
    code: &'c Code,
    beside: Beside,
) -> Ran
    requires here { is_here root 0 ≡ true }
    requires code { root.code ≡ code.now }
{
    match beside {
        Beside::Workers => beside_workers(rt, root, workers, code),
        Beside::Hosts => beside_host(rt, root, workers, code),
        Beside::Threads => beside_threads(rt, root, workers, code),
    }
}

/// Two ticks of the hosts of a placement.
pub fn ran<R: Threads + Wait + Sync>(
    rt: &R,
    alloc: Global,
    code: &Code,
    placement: &Placement,
    beside: Beside,
) -> Result<Ran, Fail>
    requires placed { length placement.now.places ≡ length (plain_code code.now).threads }
{
    let mut board = board_of(alloc, code, placement)?;
    let mut bells = Bells::new(alloc, code, placement)?;
    let Hosts { root, others } = hosts_of(alloc, code, placement, &mut board, &mut bells)?;
    Ok(ticks_of(rt, root, others, code, beside))
}
