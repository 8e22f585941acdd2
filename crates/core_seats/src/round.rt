//! The mailboxes of a host's threads, one after the other.
ghost use Rattle.std.specs.Prelude.{◌≡◌, ◌<◌, ◌+◌, true, false};
ghost use Rattle.core_seats.specs.Hung.{KeepsRope};

use core_bells::{Bed, Rope};
use std::sync::Wait;
use std::thread::yield_now;

/// The mailboxes of a host's threads, and how it goes round them.
#[derive(Drop)]
pub struct Round<'c> {
    /// The mailboxes of its threads, in order.
    pub own: Vec<u32>,
    /// Where in `own` the next serving starts: after the mailbox that was served last.
    pub next: usize,
    /// Whether the next sweep goes upwards: to the branches of a thread after the thread itself.
    pub up: bool,
    /// What its core waits by, and wakes others by.
    pub rope: Option<Rope<'c>>,
}

impl<'c> Round<'c> {
    /// The next hint to this core: the number of a mailbox.
    pub fn hint<R: Wait>(&mut self, rt: &R) -> Option<u32>
        ensures own { self.new.own ≡ self.old.own }
        ensures next { self.new.next ≡ self.old.next }
        ensures rope { KeepsRope self.old.rope self.new.rope }
    {
        match &mut self.rope {
            Some(rope) => rope.pop(rt),
            None => None,
        }
    }

    /// What a core does after it looked at all that it serves: where it found something to do it goes on. Else it looks for rings and then
    /// sleeps until it is woken, if it may and has a rope, or else lets other threads run.
    pub fn rest<R: Wait>(&mut self, rt: &R, found: bool, may_sleep: bool)
        ensures { self.new ≡ self.old }
    {
        if found {
            self.rise();
        } else if may_sleep {
            self.sleep(rt);
        } else {
            yield_now();
        }
    }

    /// The core looks for rings and then sleeps until it is woken, if it has a rope, or else lets other threads run.
    fn sleep<R: Wait>(&mut self, rt: &R)
        ensures { self.new ≡ self.old }
    {
        match &mut self.rope {
            Some(rope) => rope.rest(rt),
            None => yield_now(),
        }
    }

    /// The core found something to do.
    pub fn rise(&mut self)
        ensures { self.new ≡ self.old }
    {
        if let Some(rope) = &mut self.rope {
            rope.rise();
        }
    }

    /// What its core waits by, if it has a rope and that was not taken yet.
    pub fn take_bed(&mut self) -> Option<Bed<'c>>
        ensures { self.new ≡ self.old }
    {
        match &mut self.rope {
            Some(rope) => rope.take_bed(),
            None => None,
        }
    }

    /// The core is about to run a thread: the core that it hinted to last is woken, if nobody has looked there.
    pub(crate) fn set_out(&mut self)
        ensures { self.new ≡ self.old }
    {
        if let Some(rope) = &mut self.rope {
            rope.wake_due();
        }
    }
}

/// The index that a sweep over so many mailboxes visits k-th: from the first one on, or from the last one.
pub fn index_at(k: usize, count: usize, up: bool) -> usize
    requires { k < count }
    ensures below { result < count }
    ensures up { up ≡ true → result ≡ k }
    ensures down { up ≡ false → result + k + 1 ≡ count }
{
    if up { k } else { count - 1 - k }
}
