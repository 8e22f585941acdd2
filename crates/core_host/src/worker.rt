//! What works beside a tick: hosts without thread 0.
ghost use Rattle.std.specs.Prelude.{◌≡◌, ◌<◌, ℕ, suc, List, IfOk, IfErr, map, option_map, true, false};
ghost use Rattle.forec_kernel.specs.Composed.{TickInput};
ghost use Rattle.forec_kernel.specs.Engine.{Job};
ghost use Rattle.copy_slots.specs.Ports.{after_stop, after_check};
ghost use Rattle.core_seats.specs.Changes.{Grown, Looked, HasProgressed};
ghost use Rattle.core_host.specs.Hosted.{code_of, is_here, standing, IsSameHost};
ghost use Rattle.core_host.specs.Runs.{AreIdleHere, HasJobs, HostHasRun};

use crate::host::Host;
use copy_slots::Port;
use core_bells::{Bed, Rope};
use core_seats::{ForecWork, Serve};
use forec_base::Gate;
use std::marker::Model;
use std::sync::Wait;

/// Hosts that nobody runs.
#[derive(Drop)]
pub struct Crew<'h, 'g, 'c, P: Port<ForecWork> + Drop, G: Gate> {
    hosts: &'h mut [Host<'c, P>],
    gate: &'g G,
}

impl<'h, 'g, 'c, P: Port<ForecWork> + Drop, G: Gate> Crew<'h, 'g, 'c, P, G> {
    /// These hosts, which pass this gate.
    pub fn new(hosts: &'h mut [Host<'c, P>], gate: &'g G) -> Crew<'h, 'g, 'c, P, G>
        ensures same_reference { result.hosts.ghost_name ≡ hosts.entry.ghost_name }
        ensures hosts { result.hosts.now ≡ hosts.old }
    {
        Crew { hosts, gate }
    }
}

impl<'h, 'g, 'c, P: Port<ForecWork> + Drop, G: Gate> Serve for Crew<'h, 'g, 'c, P, G> {
    ghost use Rattle.std.specs.Prelude.{map};
    ghost use Rattle.core_host.specs.Hosted.{standing};

    ghost kept = { λ c. record { borrow = c.hosts.ghost_name; hosts = map standing c.hosts.now } };

    /// Serves each of the hosts once.
    fn serve<R: Wait>(&mut self, rt: &R) -> bool {
        let gate = self.gate;
        serve_each(rt, self.hosts, gate)
    }

    fn is_empty(&self) -> bool {
        self.hosts.is_empty()
    }
}

/// Serves each of these hosts once. Returns whether there was something to do.
fn serve_each<R: Wait, P: Port<ForecWork> + Drop, G: Gate>(
    rt: &R,
    hosts: &mut [Host<'_, P>],
    gate: &G,
) -> bool
    ensures { map standing hosts.new ≡ map standing hosts.old }
{
    let mut worked = false;
    for at in 0..hosts.len() {
        worked |= hosts[at].serve_beside(rt, gate);
    }
    worked
}

impl<'c, P: Port<ForecWork> + Drop> Host<'c, P> {
    /// Serves the mailboxes that hints name, then sweeps once over all of its own, and hints to those to whom it sent. Returns whether
    /// there was something to do.
    pub(crate) fn serve_beside<R: Wait, G: Gate>(&mut self, rt: &R, gate: &G) -> bool
        ensures worked { result ≡ true → (k : ℕ) × (is_here self.old (suc k) ≡ true)
            × HasProgressed (code_of self.old).shape self.old.mail self.new.mail k }
        ensures nothing { result ≡ false → AreIdleHere self.old self.new }
        ensures same { IsSameHost self.old self.new }
    {
        let Host {
            scheduler,
            round,
            ..
        } = self;
        scheduler.serve_sweep(rt, gate, round)
    }

    /// Stores the stop word, at which each worker ends, and wakes every core.
    pub fn stop(&mut self)
        requires { is_here self.old 0 ≡ true }
        ensures stored { self.new ≡ record self.old { mail = after_stop self.old.mail } }
        ensures grown { Grown self.old.mail self.new.mail }
        ensures turns { (turns : List TickInput) → HostHasRun self.old turns → HostHasRun self.new turns }
        ensures jobs { (jobs : List Job) → HasJobs self.old jobs → HasJobs self.new jobs }
    {
        self.scheduler.stop();
        if let Some(rope) = &self.round.rope {
            rope.wake_all();
        }
    }

    /// Loads the stop word: whether it was stored.
    fn stopped(&mut self) -> bool
        ensures loaded { self.new ≡ record self.old { mail = after_check result self.old.mail } }
        ensures grown { Grown self.old.mail self.new.mail }
    {
        self.scheduler.stopped()
    }

    /// Its core found something to do.
    fn rise(&mut self)
        ensures { self.new ≡ self.old }
    {
        self.round.rise();
    }

    /// Its core found nothing to do. With a rope it waits, and else it lets other threads run.
    fn rest<R: Wait>(&mut self, rt: &R)
        ensures { self.new ≡ self.old }
    {
        self.round.rest(rt, false, true);
    }

    /// What its core waits by, if a rope hangs and it was not taken yet.
    fn take_bed(&mut self) -> Option<Bed<'c>>
        ensures { self.new ≡ self.old }
    {
        self.round.take_bed()
    }

    /// Serves, for as long as the workers are not stopped. It returns the host, and only after it loaded a stop word 1.
    ///
    /// A host with a rope sleeps after some time in which there was nothing to do, until it is woken; else it looks all
    /// the time.
    pub fn run<R: Wait, G: Gate>(self, rt: &R, gate: &G) -> Host<'c, P>
        requires { is_here self 0 ≡ false }
        ensures lacks { is_here result 0 ≡ false }
        ensures stopped { Looked 1 self.entry.mail.stops result.mail.stops }
        ensures same { IsSameHost self.entry result }
    {
        let mut host = self;
        for _ in rt.forever() {
            if host.serve_beside(rt, gate) {
                host.rise();
                continue;
            }
            if host.stopped() {
                return host;
            }
            host.rest(rt);
        }
        unreachable!()
    }
}

/// A host without thread 0, which a thread of its own can run.
#[derive(Drop)]
pub struct Worker<'c, P: Port<ForecWork> + Drop> {
    host: Host<'c, P>,
}

impl<'c, P: Port<ForecWork> + Drop> Model for Worker<'c, P> {
    ghost use Rattle.std.specs.Prelude.{◌≡◌, false};
    ghost use Rattle.core_host.specs.Hosted.{Hosted, is_here};

    ghost Value = { Hosted };

    ghost view = { λ w. w.host };

    ghost invariant = { λ w. is_here w.host 0 ≡ false };
}

impl<'c, P: Port<ForecWork> + Drop> Worker<'c, P> {
    /// The worker of a host.
    ///
    /// # Errors
    ///
    /// The host, where it has thread 0.
    pub fn new(host: Host<'c, P>) -> Result<Worker<'c, P>, Host<'c, P>>
        ensures ok { IfOk result (λ w. w ≡ host.entry) }
        ensures err { IfErr result (λ h. (h ≡ host.entry) × (is_here h 0 ≡ true)) }
    {
        if host.has_root() {
            return Err(host);
        }
        Ok(Worker { host })
    }

    /// Serves the mailboxes that hints name, then sweeps once over all of its own, and hints to those to whom it sent. Returns whether
    /// there was something to do.
    pub fn serve_beside<R: Wait, G: Gate>(&mut self, rt: &R, gate: &G) -> bool
        ensures worked { result ≡ true → (k : ℕ) × (is_here self.old (suc k) ≡ true)
            × HasProgressed (code_of self.old).shape self.old.mail self.new.mail k }
        ensures nothing { result ≡ false → AreIdleHere self.old self.new }
        ensures same { IsSameHost self.old self.new }
    {
        self.host.serve_beside(rt, gate)
    }

    /// Its rope, if one hangs.
    pub fn rope(&self) -> Option<&Rope<'c>>
        ensures { option_map (λ r. r.now) result ≡ self.now.rope }
    {
        self.host.rope()
    }

    /// Loads the stop word: whether it was stored.
    pub fn stopped(&mut self) -> bool
        ensures loaded { self.new ≡ record self.old { mail = after_check result self.old.mail } }
        ensures grown { Grown self.old.mail self.new.mail }
    {
        self.host.stopped()
    }

    /// What its core waits by, if a rope hangs and it was not taken yet. Whoever has it says when the core sleeps.
    pub fn take_bed(&mut self) -> Option<Bed<'c>>
        ensures { self.new ≡ self.old }
    {
        self.host.take_bed()
    }

    /// Serves, as [`Host::run`] does, and returns its host once that has loaded a stop word 1.
    pub fn run<R: Wait, G: Gate>(self, rt: &R, gate: &G) -> Host<'c, P>
        ensures lacks { is_here result 0 ≡ false }
        ensures stopped { Looked 1 self.entry.mail.stops result.mail.stops }
        ensures same { IsSameHost self.entry result }
    {
        self.host.run(rt, gate)
    }
}
