//! The branches of a thread's present fork, and what their replies say together.

ghost use Rattle.std.specs.Prelude.{◌≡◌, ◌≢◌, ◌+◌, ◌<◌, ◌≤◌, ◌++◌, ◌∷◌, [], List, length, slice_get, get_or, take, ◌&&◌, false, true, not, cond, IfOk};
ghost use Rattle.std.specs.List.{list_all};
ghost use Rattle.forec_kernel.specs.Engine.{Reply};
ghost use Rattle.forec_kernel.specs.Packed.{IsReply};
ghost use Rattle.forec_kernel.specs.Shapes.{plain_shape};
ghost use Rattle.combine_tree.specs.Plain.{plain_packet};
ghost use Rattle.thread_code.specs.Valid.{branches_in};
ghost use Rattle.thread_state.specs.Pars.{HavePars};
ghost use Rattle.core_machine.specs.Branches.{no_branches, with_branches, with_verdict, one_joined, first_verdict, noted_ending, with_more_units, chosen, SettlesPacket};

use crate::fork::ForkAt;
use combine_tree::{Packet, PacketKind};
use forec_base::{OutOfMemory, Place, Trap};
use forec_kernel::Shape;
use std::alloc::Global;
use std::marker::Model;
use thread_state::Own;

/// What comes of the replies.
#[derive(Clone, Copy, PartialEq, Eq)]
pub enum Verdict {
    /// The copies of the branches are combined.
    Combine,
    /// The leftmost trap is the thread's; or a combine function has trapped.
    Trap { place: Place, trap: Trap },
    /// A branch was over, or the units have passed the allowance.
    Over,
}

/// The fork at which the branches wait. The first `count` numbers are those of its branches that run in this
/// tick. The first `settled` notes tell which of them have ended; so many are `ended_count`.
#[derive(Drop)]
pub struct Branches {
    fork: ForkAt,
    numbers: Vec<u32>,
    count: usize,
    ended: Vec<bool>,
    settled: usize,
    ended_count: usize,
    joined: usize,
    units: u64,
    verdict: Verdict,
}

impl Model for Branches {
    ghost use Rattle.std.specs.Prelude.{◌≡◌, ◌≤◌, length, take};
    ghost use Rattle.std.specs.List.{count_by};
    ghost use Rattle.core_machine.specs.Branches.{Gathered, gathered_of};

    ghost Value = { Gathered };

    ghost view = { λ b. gathered_of b.fork b.numbers.items b.count b.ended.items b.settled b.joined b.units b.verdict };

    ghost invariant = { λ b. (b.count ≤ length b.numbers.items) × (length b.ended.items ≡ length b.numbers.items) × (b.settled ≤ b.count)
        × (b.ended_count ≡ count_by (λ e. e) (take b.settled b.ended.items)) };
}

/// Whether a branch is asked for: each is, or those that live.
fn is_chosen(own: &Own, again: bool, branch: u32) -> bool
    requires { branch < length own.now.live }
    ensures { result ≡ cond again (get_or own.now.live branch false) true }
{
    !again || own.is_live(branch as usize)
}

/// Writes the numbers of the branches of a par, or of those that live, and says how many there are.
fn fill(shape: &Shape, par: u32, own: &Own, again: bool, numbers: &mut [u32]) -> usize
    requires room { length (plain_shape shape.now).threads ≤ length numbers.old }
    requires live { length own.now.live ≡ length (plain_shape shape.now).threads }
    requires pars { HavePars (plain_shape shape.now) own.now.pars }
    ensures long { length numbers.new ≡ length numbers.old }
    ensures count { result ≤ length numbers.old }
    ensures front { take result numbers.new ≡ chosen again own.now.live (branches_in (plain_shape shape.now) par) }
{
    let pars = own.pars();
    let mut count = 0;
    let mut next = pars.first(par);
    while let Some(branch) = next {
        if is_chosen(own, again, branch) {
            numbers[count] = branch;
            count += 1;
        }
        next = pars.next(branch);
    }
    count
}

impl Branches {
    /// Room for so many branches.
    ///
    /// # Errors
    ///
    /// Out of memory.
    pub fn new(alloc: Global, threads: usize) -> Result<Branches, OutOfMemory>
        ensures { IfOk result (λ b. b ≡ no_branches threads) }
    {
        Ok(Branches {
            fork: ForkAt {
                par: 0,
                to: 0,
                again: false,
            },
            numbers: vec![in alloc; 0; threads]?,
            count: 0,
            ended: vec![in alloc; false; threads]?,
            settled: 0,
            ended_count: 0,
            joined: 0,
            units: 0,
            verdict: Verdict::Combine,
        })
    }

    /// The fork at which they wait.
    pub fn fork(&self) -> ForkAt
        ensures { result ≡ self.now.fork }
    {
        self.fork
    }

    /// How many branches run in this tick.
    pub fn len(&self) -> usize
        ensures { result ≡ length self.now.numbers }
    {
        self.count
    }

    /// The number of the k-th branch; None past the last.
    pub fn number(&self, k: usize) -> Option<u32>
        ensures { result ≡ slice_get self.now.numbers k }
    {
        if k < self.count {
            Some(self.numbers[k])
        } else {
            None
        }
    }

    /// The number of the k-th branch.
    pub fn at(&self, k: usize) -> u32
        requires { k < length self.now.numbers }
        ensures { result ≡ get_or self.now.numbers k 0 }
    {
        self.numbers[k]
    }

    /// Whether the k-th branch has ended, of those that have replied.
    pub fn has_ended(&self, k: usize) -> bool
        requires { k < length self.now.ended }
        ensures { result ≡ get_or self.now.ended k false }
    {
        self.ended[k]
    }

    /// Whether all that have replied have ended.
    pub fn all_ended(&self) -> bool
        ensures { result ≡ list_all (λ e. e) self.now.ended }
    {
        self.ended_count == self.settled
    }

    /// Whether none that has replied has ended.
    pub fn none_ended(&self) -> bool
        ensures { result ≡ list_all (λ e. not e) self.now.ended }
    {
        self.ended_count == 0
    }

    /// Whether all but one have been joined.
    pub fn is_last(&self) -> bool
        requires { self.now.joined < length self.now.numbers }
        ensures last { result ≡ true → self.now.joined + 1 ≡ length self.now.numbers }
        ensures next { result ≡ false → self.now.joined + 1 ≢ length self.now.numbers }
    {
        self.joined + 1 == self.count
    }

    /// The units of the replies together; more than any allowance where they are too many to count.
    pub fn units(&self) -> u64
        ensures { result ≡ self.now.units }
    {
        self.units
    }

    /// How the branches joined so far have ended together.
    pub fn verdict(&self) -> Verdict
        ensures { result ≡ self.now.verdict }
    {
        self.verdict
    }

    /// Sets how the branches joined so far have ended together.
    pub fn judge(&mut self, verdict: Verdict)
        ensures { self.new ≡ with_verdict verdict self.old }
    {
        self.verdict = verdict;
    }

    /// One more has been joined.
    pub fn join_next(&mut self)
        requires { self.old.joined < length self.old.numbers }
        ensures { self.new ≡ one_joined self.old }
    {
        self.joined += 1;
    }

    /// The branches of a fork, or of a held one those that live, in order. None has replied.
    pub fn gather(&mut self, shape: &Shape, fork: ForkAt, own: &Own)
        requires room { length (plain_shape shape.now).threads ≤ self.old.room }
        requires live { length own.now.live ≡ length (plain_shape shape.now).threads }
        requires pars { HavePars (plain_shape shape.now) own.now.pars }
        ensures { self.new ≡ with_branches fork (chosen fork.again own.now.live
            (branches_in (plain_shape shape.now) fork.par)) self.old }
    {
        self.fork = fork;
        self.count = fill(shape, fork.par, own, fork.again, &mut self.numbers);
        self.settled = 0;
        self.ended_count = 0;
        self.joined = 0;
        self.units = 0;
        self.verdict = Verdict::Combine;
    }

    /// Takes note of the next branch's reply.
    pub fn settle(&mut self, packet: &Packet)
        requires { length self.old.ended < length self.old.numbers }
        ensures { SettlesPacket self.old packet.now self.new }
    {
        match packet.kind {
            PacketKind::Over => {
                self.note(false);
                self.judge(Verdict::Over);
            }
            PacketKind::Trapped { place, trap } => {
                self.note(false);
                self.count(packet.units);
                self.judge_trap(place, trap);
            }
            PacketKind::Ended => {
                self.note(true);
                self.count(packet.units);
            }
            _ => {
                self.note(false);
                self.count(packet.units);
            }
        }
    }

    /// One more has replied.
    pub(crate) fn note(&mut self, ended: bool)
        requires { length self.old.ended < length self.old.numbers }
        ensures { self.new ≡ noted_ending ended self.old }
    {
        self.ended[self.settled] = ended;
        self.settled += 1;
        if ended {
            self.ended_count += 1;
        }
    }

    pub(crate) fn count(&mut self, units: u64)
        ensures { self.new ≡ with_more_units units self.old }
    {
        self.units = self.units.saturating_add(units);
    }

    /// A trap tells where none has come before it.
    pub(crate) fn judge_trap(&mut self, place: Place, trap: Trap)
        ensures { self.new ≡ with_verdict (first_verdict self.old.verdict (Verdict.Trap place trap)) self.old }
    {
        if self.verdict == Verdict::Combine {
            self.verdict = Verdict::Trap { place, trap };
        }
    }
}
