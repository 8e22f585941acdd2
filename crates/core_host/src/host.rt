//! The host of some of a code's threads.
ghost use Rattle.std.specs.Prelude.{◌≡◌, ◌≤◌, ◌<◌, ℕ, suc, List, Some, None, option_map, length, true, false, IfOk};
ghost use Rattle.forec_kernel.specs.Composed.{TickInput};
ghost use Rattle.forec_kernel.specs.Engine.{Job};
ghost use Rattle.thread_code.specs.Plain.{plain_code};
ghost use Rattle.copy_slots.specs.Ports.{ChildIs};
ghost use Rattle.thread_rooms.specs.Room.{AreNeeds};
ghost use Rattle.core_seats.specs.Loads.{CanLoad, AreOwn};

use combine_tree::Packet;
use copy_slots::Port;
use core_alloc::Placement;
use core_bells::Rope;
use core_seats::{
    ForecWork, Round, Scheduler, empty_hands, is_among, own_mailboxes, places_of, seats_of,
};
use forec_base::{Gate, OutOfMemory};
use std::alloc::Global;
use std::marker::Model;
use thread_code::Code;
use thread_rooms::Needs;

/// What one call of [`Host::serve`] came to.
#[derive(Clone, Copy, Debug, PartialEq, Eq)]
pub enum Served {
    /// A thread ran to its next event: it told its branches their jobs, or it answered its own. Its
    /// mailbox is number k.
    Worked { k: u32 },
    /// No thread can go on.
    Nothing,
}

/// The threads of a code that run on some cores, with the ends of the mailboxes there, in memory that is
/// made once.
///
/// A thread but thread 0 takes its jobs from its mailbox, tells its branches theirs, and answers. Between
/// two calls it rests, or it waits at a fork for replies. Where it rests, what went through the mailboxes of
/// its branches are the jobs that it writes by itself, and the replies to them.
#[derive(Drop)]
pub struct Host<'c, P: Port<ForecWork> + Drop> {
    pub(crate) scheduler: Scheduler<'c, P>,
    pub(crate) cores: Vec<u32>,
    pub(crate) round: Round<'c>,
    pub(crate) root: Packet,
    pub(crate) live: bool,
    ghost own_are: { AreOwn scheduler.places cores.items round.own.items },
    ghost next_within: { round.next ≤ length round.own.items },
}

impl<'c, P: Port<ForecWork> + Drop> Model for Host<'c, P> {
    ghost use Rattle.core_host.specs.Hosted.{Hosted, hosted};
    ghost use Rattle.core_host.specs.Rests.{IsHosted};

    ghost Value = { Hosted };

    ghost view = { λ h. hosted h.scheduler h.cores.items h.root h.live h.round.rope };

    ghost invariant = { λ h. IsHosted (hosted h.scheduler h.cores.items h.root h.live h.round.rope) };
}

impl<'c, P: Port<ForecWork> + Drop> Host<'c, P> {
    ghost use Rattle.core_seats.specs.Changes.{Grown, HasWorked};
    ghost use Rattle.core_seats.specs.Hung.{IsRopeOf};
    ghost use Rattle.core_seats.specs.Posts.{HasPosted, HasPostedTaken};
    ghost use Rattle.core_host.specs.Hosted.{code_of, is_live, is_here, IsSameHost, IsWhole};
    ghost use Rattle.core_host.specs.Runs.{AreIdleHere, HasJobs, HostHasRun, IsNewHost};
    ghost use Rattle.core_host.specs.Owned.{HasOwnPort};

    /// The threads of these cores, over a port with the ends of their mailboxes. No tick was run.
    ///
    /// # Errors
    ///
    /// Out of memory.
    pub fn load(
        alloc: Global,
        code: &'c Code,
        placement: &Placement,
        cores: &[u32],
        port: P,
    ) -> Result<Host<'c, P>, OutOfMemory>
        requires { CanLoad code.now placement.now cores.now (P.state port) }
        ensures { IfOk result (λ h. IsNewHost code.now placement.now cores.now (P.state port) h) }
    {
        let needs = Needs::new(alloc, code)?;
        Host::load_with(alloc, code, &needs, placement, cores, port)
    }

    /// [`Host::load`], where the needs of the code's functions are at hand: hosts that run beside each other share them.
    ///
    /// # Errors
    ///
    /// Out of memory.
    pub fn load_with(
        alloc: Global,
        code: &'c Code,
        needs: &Needs,
        placement: &Placement,
        cores: &[u32],
        port: P,
    ) -> Result<Host<'c, P>, OutOfMemory>
        requires loads { CanLoad code.now placement.now cores.now (P.state port) }
        requires needs { AreNeeds (plain_code code.now) needs.now }
        ensures { IfOk result (λ h. IsNewHost code.now placement.now cores.now (P.state port) h) }
    {
        let threads = code.parts().threads.len();
        let places = places_of(alloc, placement)?;
        let seats = seats_of(alloc, code, needs, &places, cores)?;
        let hands = empty_hands(alloc, threads - 1)?;
        let root = Packet::new(alloc, 0, code.shape().variables.len())?;
        let own = own_mailboxes(alloc, &places, cores)?;
        let cores = cores.to_vec(alloc)?;
        let scheduler = Scheduler {
            code,
            places,
            port,
            seats,
            hands,
        };
        Ok(Host {
            scheduler,
            cores,
            round: Round {
                own,
                next: 0,
                up: true,
                rope: None,
            },
            root,
            live: true,
        })
    }

    /// Whether no tick has ended, trapped or gone over its budget.
    pub fn live(&self) -> bool
        ensures { result ≡ is_live self.now }
    {
        self.live
    }

    /// Whether thread 0 is one of its threads.
    pub fn has_root(&self) -> bool
        ensures { result ≡ is_here self.now 0 }
    {
        is_among(self.scheduler.places[0], &self.cores)
    }

    /// Takes one job, or goes on with one thread that waits at a fork and whose branches have all replied,
    /// and runs that thread to its next event. It takes no memory, doesn't wait, and gives no hint.
    ///
    /// It begins after the mailbox that was served last, so that each has its turn; no clause says so. Thread 0
    /// works in ticks alone; its branches' replies stay where they are.
    pub fn serve<G: Gate>(&mut self, gate: &G) -> Served
        ensures worked { (k : ℕ) → result ≡ Served.Worked k
            → HasWorked (code_of self.old).shape self.old.mail self.new.mail k }
        ensures mine { (k : ℕ) → result ≡ Served.Worked k → (k < length self.old.mail.ends)
            × (is_here self.old (suc k) ≡ true) }
        ensures nothing { result ≡ Served.Nothing → AreIdleHere self.old self.new }
        ensures code { self.new.code ≡ self.old.code }
        ensures places { self.new.places ≡ self.old.places }
        ensures cores { self.new.cores ≡ self.old.cores }
        ensures live { is_live self.new ≡ is_live self.old }
        ensures rope { self.new.rope ≡ self.old.rope }
        ensures grown { Grown self.old.mail self.new.mail }
        ensures turns { (turns : List TickInput) → HostHasRun self.old turns → HostHasRun self.new turns }
        ensures jobs { (jobs : List Job) → HasJobs self.old jobs → HasJobs self.new jobs }
        ensures whole { IsWhole self.old → IsWhole self.new }
    {
        let Host {
            scheduler,
            round,
            ..
        } = self;
        let Some(i) = scheduler.serve_round(gate, &round.own, round.next) else {
            return Served::Nothing;
        };
        round.next = i + 1;
        Served::Worked { k: round.own[i] }
    }

    /// The host with a rope, by which its core waits and wakes the others. The bells of the rope are for the host's code and
    /// placement, and the rope for its one core. A host without one waits by looking all the time.
    ///
    /// Of the hosts that run beside each other all should have one, or none: a core that sleeps is woken by ropes alone.
    pub fn hang(self, rope: Rope<'c>) -> Host<'c, P>
        requires fits { IsRopeOf self.code self.places self.cores rope }
        requires none { self.rope ≡ None }
        ensures hung { result ≡ record self.entry { rope = Some rope.entry } }
        ensures turns { (turns : List TickInput) → HostHasRun self.entry turns → HostHasRun result turns }
        ensures jobs { (jobs : List Job) → HasJobs self.entry jobs → HasJobs result jobs }
    {
        let Host {
            scheduler,
            cores,
            round,
            root,
            live,
        } = self;
        let Round { own, next, up, .. } = round;
        Host {
            scheduler,
            cores,
            round: Round {
                own,
                next,
                up,
                rope: Some(rope),
            },
            root,
            live,
        }
    }

    /// Its rope, if one hangs.
    pub fn rope(&self) -> Option<&Rope<'c>>
        ensures { option_map (λ r. r.now) result ≡ self.now.rope }
    {
        self.round.rope.as_ref()
    }

    /// The port, with what went through its ends.
    pub fn port(&self) -> &P
        ensures { P.state result.now ≡ self.now.mail }
    {
        &self.scheduler.port
    }

    /// A law: the mailboxes of a thread's branches carried exactly the jobs that the thread gives, and their replies: for thread 0
    /// in the ticks so far, for each other thread that rests in the jobs that were taken. The port is one for the host's code.
    pub fn posts(&self)
        ensures port { HasOwnPort self.now }
        ensures root { (jobs : List Job) → HasJobs self.now jobs → HasPosted (code_of self.now) 0 self.now.mail jobs }
        ensures taken { (k : ℕ) → k < length self.now.mail.ends → ChildIs self.now.mail k false
            → HasPostedTaken (code_of self.now) self.now.mail k }
    {
        let _ = &self.scheduler;
    }
}
