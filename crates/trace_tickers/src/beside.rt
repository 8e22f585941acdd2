//! What the calling thread does beside the workers of the other cores.

ghost use Rattle.std.specs.Prelude.{◌≡◌, [], true, IfOk, OnErr};
ghost use Rattle.core_host.specs.Hosted.{code_of, is_here, is_live};
ghost use Rattle.core_host.specs.Runs.{HostHasRun};
ghost use Rattle.trace_ticks.specs.Following.{DidForEach};
ghost use Rattle.trace_ticks.specs.Ticking.{CanLead, DidFromStart};

use crate::hosted::{Root, StopWorkers};
use copy_slots::Port;
use core_bells::{Bed, Rings, Rung};
use core_host::{Host, Worker};
use core_seats::{ForecWork, Serve};
use forec_base::{Gate, OutOfMemory};
use std::alloc::{AllocError, Global};
use std::sync::{Mutex, MutexGuard, Wait};
use std::thread::{Threads, available_parallelism};
use trace_ticks::{Company, Lead, Setting, Status, Ticker};
use worker_scope::{Runnable, with_workers};

/// A worker in its lock, with its core.
#[derive(Drop)]
struct LockedWorker<'c, P: Port<ForecWork> + Drop> {
    core: u32,
    worker: Mutex<Worker<'c, P>>,
}

impl<'c, P: Port<ForecWork> + Drop> LockedWorker<'c, P> {
    fn new(worker: Worker<'c, P>) -> LockedWorker<'c, P> {
        let core = match worker.rope() {
            Some(rope) => rope.core(),
            None => 0,
        };
        LockedWorker {
            core,
            worker: Mutex::new(worker),
        }
    }

    /// The worker, if its core was rung and nobody has it in hand. Who had it in hand looks at the rung cores again before it sleeps, since
    /// others left the worker to it.
    fn take(&self, rung: Rung) -> Option<MutexGuard<'_, Worker<'c, P>>> {
        if rung.has(self.core) {
            self.worker.try_lock()
        } else {
            None
        }
    }

    /// Serves the worker until nothing is left to do, unless somebody has it in hand. Whether the workers are to stop.
    fn is_stopped<G: Gate, R: Wait>(&self, rt: &R, gate: &G) -> bool {
        match self.worker.try_lock() {
            Some(mut own) => {
                serve_all(rt, gate, &mut own);
                own.stopped()
            }
            None => false,
        }
    }

    fn take_bed<R: Wait>(&self, rt: &R) -> Option<Bed<'c>> {
        self.worker.lock(rt).take_bed()
    }
}

/// Serves until nothing is left to do.
fn serve_all<P: Port<ForecWork> + Drop, G: Gate, R: Wait>(
    rt: &R,
    gate: &G,
    worker: &mut Worker<'_, P>,
) {
    for _ in rt.forever() {
        if !worker.serve_beside(rt, gate) {
            return;
        }
    }
}

/// The workers of all cores but that of thread 0, each in its lock: whoever has nothing else to do serves those that were rung.
#[derive(Drop)]
struct Workers<'g, 'c, P: Port<ForecWork> + Drop, G> {
    all: Vec<LockedWorker<'c, P>>,
    /// What each of them passes.
    gate: &'g G,
    rings: Option<Rings<'c>>,
    /// How many OS threads there may be for them.
    threads: usize,
}

impl<'g, 'c, P: Port<ForecWork> + Drop, G: Gate> Workers<'g, 'c, P, G> {
    /// The first worker whose core was rung and that nobody has in hand.
    fn take_rung(&self) -> Option<MutexGuard<'_, Worker<'c, P>>> {
        let rung = self.rings?.rung();
        if rung.is_empty() {
            return None;
        }
        for worker in &self.all {
            let taken = worker.take(rung);
            if taken.is_some() {
                return taken;
            }
        }
        None
    }

    /// The same, but this worker comes first.
    fn take_from<'w>(
        &'w self,
        own: &'w LockedWorker<'c, P>,
    ) -> Option<MutexGuard<'w, Worker<'c, P>>> {
        let taken = own.take(self.rings?.rung());
        if taken.is_some() {
            return taken;
        }
        self.take_rung()
    }

    /// What the thread of a worker does until the workers are to stop: it serves those that were rung, and else waits. It no longer says
    /// that it sleeps while it serves.
    fn attend<'w, R: Wait>(&'w self, rt: &R, own: &'w LockedWorker<'c, P>, bed: &mut Bed<'c>) {
        let gate = self.gate;
        for _ in rt.forever() {
            if bed.lies() && own.is_stopped(rt, gate) {
                return;
            }
            match self.take_from(own) {
                Some(mut worker) => {
                    bed.rise();
                    serve_all(rt, gate, &mut worker);
                }
                None => bed.rest(rt),
            }
        }
        unreachable!()
    }
}

impl<'g, 'c, P: Port<ForecWork> + Drop + Send, G: Gate + Sync> Runnable for Workers<'g, 'c, P, G> {
    fn count(&self) -> usize {
        self.all.len().min(self.threads)
    }

    fn run<R: Wait>(&self, rt: &R, at: usize) {
        let Some(own) = self.all.get(at) else { return };
        let Some(mut bed) = own.take_bed(rt) else {
            return
        };
        self.attend(rt, own, &mut bed);
    }
}

/// What OS threads do beside each other, and the calling thread too while it waits.
trait Shared: Runnable {
    /// Serves one whose core was rung and that nobody has in hand. Returns whether there was one.
    fn serve_rung<R: Wait>(&self, rt: &R) -> bool;
}

impl<'g, 'c, P: Port<ForecWork> + Drop + Send, G: Gate + Sync> Shared for Workers<'g, 'c, P, G> {
    fn serve_rung<R: Wait>(&self, rt: &R) -> bool {
        let gate = self.gate;
        match self.take_rung() {
            Some(mut worker) => {
                serve_all(rt, gate, &mut worker);
                true
            }
            None => false,
        }
    }
}

/// The workers, whom the calling thread serves while it waits.
#[derive(Drop)]
struct Others<'w, W> {
    workers: &'w W,
}

impl<'w, W: Shared> Serve for Others<'w, W> {
    ghost use Rattle.std.specs.Prelude.{[]};

    ghost kept = { λ o. record { borrow = 0; hosts = [] } };

    fn serve<R: Wait>(&mut self, rt: &R) -> bool {
        self.workers.serve_rung(rt)
    }

    fn is_empty(&self) -> bool {
        true
    }
}

/// Workers in their locks.
fn locked<'c, P: Port<ForecWork> + Drop>(
    alloc: Global,
    workers: Vec<Worker<'c, P>>,
) -> Result<Vec<LockedWorker<'c, P>>, AllocError> {
    workers
        .into_iter()
        .map(|worker| LockedWorker::new(worker))
        .collect(alloc)
}

/// What the calling thread does beside the workers: it leads, and stops all.
fn lead_beside<O: Serve, T: Ticker + StopWorkers, J: Lead, G: Gate, R: Wait>(
    rt: &R,
    gate: &G,
    others: &mut O,
    ticker: &mut T,
    job: &mut J,
) -> Status
    requires can { CanLead (J.can job.old) (T.shape ticker.old) (T.live ticker.old) (T.ready ticker.old) }
    ensures { DidFromStart (T.shape ticker.old) (T.follows ticker.old) (J.did job.old job.new) result }
{
    let mut company = Company { rt, gate, others };
    let status = job.lead(&mut company, ticker);
    ticker.stop();
    status
}

/// Leads in the calling thread, and serves the workers while it waits.
fn lead_among<W: Shared, T: Ticker + StopWorkers, J: Lead, G: Gate, R: Wait>(
    rt: &R,
    gate: &G,
    workers: &W,
    ticker: &mut T,
    job: &mut J,
) -> Status
    requires can { CanLead (J.can job.old) (T.shape ticker.old) (T.live ticker.old) (T.ready ticker.old) }
    ensures { DidFromStart (T.shape ticker.old) (T.follows ticker.old) (J.did job.old job.new) result }
{
    let mut others = Others { workers };
    lead_beside(rt, gate, &mut others, ticker, job)
}

/// Starts OS threads for the workers, and leads beside them.
fn lead_all<W: Shared + Sync, T: Ticker + StopWorkers, J: Lead, G: Gate, R: Threads + Wait + Sync>(
    rt: &R,
    gate: &G,
    workers: &W,
    ticker: &mut T,
    job: &mut J,
) -> Status
    requires can { CanLead (J.can job.old) (T.shape ticker.old) (T.live ticker.old) (T.ready ticker.old) }
    ensures { DidFromStart (T.shape ticker.old) (T.follows ticker.old) (J.did job.old job.new) result }
{
    with_workers(
        rt,
        workers,
        &mut || -> Status
            requires can { CanLead (J.can job.now) (T.shape ticker.now) (T.live ticker.now) (T.ready ticker.now) }
        { lead_among(rt, gate, workers, ticker, job) },
    )
}

/// So many OS threads may work at least, on however few processors: the jobs of a few branches are then in hand beside each other.
const FEW: usize = 4;

/// How many OS threads there may be beside the calling one: as many as there are processors for them. Where it can't be told how many
/// processors there are, one is counted.
fn threads_beside<R: Threads>(rt: &R) -> usize {
    let processors = match available_parallelism(rt) {
        Ok(count) => count.get(),
        Err(_) => 1,
    };
    processors.max(FEW).saturating_sub(1)
}

/// Leads by hosts: that of thread 0 in the calling thread, beside the workers of the other cores.
///
/// # Errors
///
/// Out of memory. Then nothing was done.
pub fn lead_hosts<
    'c,
    P: Port<ForecWork> + Drop + Send,
    J: Lead,
    G: Gate + Sync,
    R: Threads + Wait + Sync,
>(
    setting: &Setting<'_, G, R>,
    root: Host<'c, P>,
    workers: Vec<Worker<'c, P>>,
    job: &mut J,
) -> Result<Status, OutOfMemory>
    requires root { is_here root 0 ≡ true }
    requires none { HostHasRun root [] }
    requires can { CanLead (J.can job.old) (code_of root).shape (is_live root ≡ true) true }
    ensures ok { IfOk result (DidForEach (code_of root.entry) (J.did job.old job.new)) }
    ensures err { OnErr result (job.new ≡ job.old) }
{
    let all = locked(setting.alloc, workers)?;
    let rings = match root.rope() {
        Some(rope) => Some(rope.rings()),
        None => None,
    };
    let workers = Workers {
        all,
        gate: setting.gate,
        rings,
        threads: threads_beside(setting.rt),
    };
    let mut root = Root { host: root };
    Ok(lead_all(setting.rt, setting.gate, &workers, &mut root, job))
}
