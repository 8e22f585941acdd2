//! The rope of one core.
ghost use Rattle.std.specs.Prelude.{◌≡◌, ◌<◌, ◌+◌, ◌-◌, ◌^◌, All, IfSome, None, cond, length, min, slice_get, true, false};
ghost use Rattle.core_bells.specs.Ropes.{HasHinted, IsSameRope, WasEmpty, WasFull, after_ring, after_rope_pop, capped_count, own_log, pushed_hints};

use crate::bed::{Bed, Rings};
use crate::belfry::Belfry;
use crate::hints::HintPass;
use crate::queue::{pop, push};
use std::marker::Model;
use std::sync::Wait;

/// What a core has in order to wait, and to wake the others: it pushes hints to the queues of all cores, and pops them from its
/// own. A hint is the number of a mailbox with an end on the queue's core. It is only a place to look first.
///
/// What a rope pushed and popped is its log at each core. Over all ropes, a number was pushed to a core's queue as often as the
/// queue holds it or it was popped.
#[derive(Drop)]
pub struct Rope<'b> {
    pub(crate) belfry: &'b Belfry,
    pub(crate) core: u32,
    /// At c, the pass of core c's queue.
    pub(crate) passes: Vec<HintPass>,
    /// What the core waits by, unless it was taken.
    pub(crate) bed: Option<Bed<'b>>,
    /// The core that was hinted to last, while it wasn't woken for that.
    pub(crate) due: Option<u32>,
    /// How many hints were pushed, or the greatest number where there are more.
    pub(crate) pushed: u64,
}

impl<'b> Model for Rope<'b> {
    ghost use Rattle.core_bells.specs.Ropes.{RopeState};

    ghost Value = { RopeState };

    ghost use Rattle.core_bells.specs.Ropes.{FitsRope, placed_on, rope_state};

    ghost view = { λ r. rope_state (placed_on r.belfry.now.cores r.belfry.now.places.items) r.belfry.now.queues.items r.core r.passes.items };

    ghost invariant = { λ r. FitsRope (placed_on r.belfry.now.cores r.belfry.now.places.items) r.belfry.now.queues.items r.core r.passes.items r.pushed };
}

/// One more, where it is one.
fn counted(pushed: u64, is_one: bool) -> u64
    ensures { result ≡ cond is_one (min (pushed + 1) (2 ^ 64 - 1)) pushed }
{
    if is_one {
        return pushed.saturating_add(1);
    }
    pushed
}

impl<'b> Rope<'b> {
    /// The core whose rope it is.
    pub fn core(&self) -> u32
        ensures value { result ≡ self.now.core }
        ensures below { result < self.now.placement.cores }
    {
        self.core
    }

    /// How many hints it pushed, to whatever queues, or 2^64 - 1 where there are more.
    pub fn pushed(&self) -> u64
        ensures { result ≡ capped_count (pushed_hints self.now.logs) }
    {
        self.pushed
    }

    /// A law: a rope has a log at each core, and that of its own core may pop; the core of each thread is one of the placement's.
    pub fn has_all_logs(&self)
        ensures cores { length self.now.logs ≡ self.now.placement.cores }
        ensures own { (own_log self.now).may_pop ≡ true }
        ensures placed { All (λ core. core < self.now.placement.cores) self.now.placement.places }
    {
        let _ = &self.core;
    }

    /// Pushes a hint to a core's queue, and rings that core. Whether the hint fitted; where it didn't, the queue was full at one
    /// moment of the call, and the core is rung all the same.
    fn post<R: Wait>(&mut self, rt: &R, core: u32, mailbox: u32) -> bool
        requires { core < self.old.placement.cores }
        ensures state { self.new ≡ after_ring core mailbox result self.old }
        ensures full { result ≡ false → WasFull core self.old }
    {
        let at = core as usize;
        let fits = push(rt, &self.belfry.queues[at], &mut self.passes[at], mailbox);
        self.pushed = counted(self.pushed, fits);
        self.belfry.watch.ring(core);
        fits
    }

    /// Pushes a hint to a core's queue, and wakes that core. Whether the hint fitted; where it didn't, the queue was full at one
    /// moment of the call, and the core is woken all the same.
    pub fn ring<R: Wait>(&mut self, rt: &R, core: u32, mailbox: u32) -> bool
        requires { core < self.old.placement.cores }
        ensures state { self.new ≡ after_ring core mailbox result self.old }
        ensures full { result ≡ false → WasFull core self.old }
    {
        let fits = self.post(rt, core, mailbox);
        self.belfry.wake(core);
        fits
    }

    /// A core was rung. That of thread 0 is woken; another one is woken once a further core is rung, or this one has something else
    /// to do, or finds nothing: until then this core may look there itself.
    fn leave_due(&mut self, core: u32)
        ensures { self.new ≡ self.old }
    {
        if self.belfry.watch.is_root(core) {
            self.belfry.wake(core);
        } else if self.due != Some(core) {
            self.wake_due();
            self.due = Some(core);
        }
    }

    /// Wakes the core that was hinted to last, if nobody has looked there since.
    pub fn wake_due(&mut self)
        ensures { self.new ≡ self.old }
    {
        if let Some(core) = self.due.take() {
            if self.belfry.watch.is_rung(core) {
                self.belfry.wake_for_work(core);
            }
        }
    }

    /// The core of a thread, if there is such a thread.
    fn core_of(&self, thread: u32) -> Option<u32>
        ensures value { result ≡ slice_get self.now.placement.places thread }
        ensures below { IfSome result (λ core. core < self.now.placement.cores) }
    {
        let at = thread as usize;
        if at < self.belfry.places.len() {
            Some(self.belfry.places[at])
        } else {
            None
        }
    }

    /// Pushes a hint to the queue of a thread's core, if that is another core, and rings it. A hint that doesn't fit is dropped, and
    /// the core is rung all the same. It is woken too, but the core that was hinted to last only by the next hint, by
    /// [`Rope::wake_due`] or by [`Rope::rest`]. A core needs no hint from itself.
    pub fn hint<R: Wait>(&mut self, rt: &R, thread: u32, mailbox: u32)
        ensures hinted { HasHinted thread mailbox self.old self.new }
        ensures same { IsSameRope self.old self.new }
    {
        if let Some(core) = self.core_of(thread) {
            if core != self.core {
                self.post(rt, core, mailbox);
                self.leave_due(core);
            }
        }
    }

    /// Pops the oldest hint of its own core. None only where there was no hint at one moment of the call.
    pub fn pop<R: Wait>(&mut self, rt: &R) -> Option<u32>
        ensures state { self.new ≡ after_rope_pop result self.old }
        ensures same { IsSameRope self.old self.new }
        ensures empty { result ≡ None → WasEmpty self.old }
    {
        self.belfry.watch.hear(self.core);
        let at = self.core as usize;
        pop(rt, &self.belfry.queues[at], &mut self.passes[at])
    }

    /// What a core does after it looked at all that it serves, and found nothing to do: the core that it hinted to last is woken, if
    /// nobody has looked there since. Then it waits as [`Bed::rest`] says, if its bed was not taken.
    pub fn rest<R: Wait>(&mut self, rt: &R)
        ensures { self.new ≡ self.old }
    {
        self.wake_due();
        if let Some(bed) = &mut self.bed {
            bed.rest(rt);
        }
    }

    /// The core found something to do, so it doesn't sleep.
    pub fn rise(&mut self)
        ensures { self.new ≡ self.old }
    {
        if let Some(bed) = &mut self.bed {
            bed.rise();
        }
    }

    /// What the core waits by. The rope has none from then on.
    pub fn take_bed(&mut self) -> Option<Bed<'b>>
        ensures { self.new ≡ self.old }
    {
        self.bed.take()
    }

    /// What all cores see of each other.
    pub fn rings(&self) -> Rings<'b> {
        Rings {
            belfry: self.belfry,
        }
    }

    /// Wakes every core, this one too. From then on none sleeps.
    pub fn wake_all(&self) {
        self.belfry.watch.close();
        for core in 0..self.belfry.cores {
            self.belfry.wake(core);
        }
    }

    /// Sleeps until this core is woken. If it was rung and nobody has looked there since, or all were woken, it doesn't sleep at all.
    pub fn sleep<R: Wait>(&mut self, rt: &R)
        ensures { self.new ≡ self.old }
    {
        if let Some(bed) = &mut self.bed {
            bed.sleep(rt);
        }
    }
}
