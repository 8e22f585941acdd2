//! Steps on one queue of hints.
ghost use Rattle.std.specs.Prelude.{◌≡◌, ◌<◌, IfOk, None, true, false};
ghost use Rattle.crossbeam_queue.specs.Fifo.{Held};
ghost use Rattle.crossbeam_queue.specs.Passes.{IsPassOf, ruled_capacity, view};
ghost use Rattle.core_bells.specs.Hints.{Knows, after_pop, after_push, new_log};

use crate::hints::{HintPass, HintQueue, Parts, Popped, Pushed};
use forec_base::OutOfMemory;
use std::alloc::Global;
use std::sync::Wait;

/// A queue with room for so many hints, and its first pass, which may pop.
pub(crate) fn open(alloc: Global, room: usize) -> Result<(HintQueue, HintPass), OutOfMemory>
    requires { 0 < room }
    ensures room { IfOk result (λ q. ruled_capacity q.0 ≡ room) }
    ensures pass { IfOk result (λ q. IsPassOf q.0 q.1) }
    ensures log { IfOk result (λ q. view q.1 ≡ new_log true) }
{
    Ok(HintQueue::ruled(alloc, room)?)
}

/// Another pass, which did nothing and may not pop.
pub(crate) fn split(queue: &HintQueue, pass: &mut HintPass) -> HintPass
    requires { IsPassOf queue.now pass.old }
    ensures pass { IsPassOf queue.now pass.new }
    ensures log { view pass.new ≡ view pass.old }
    ensures new_pass { IsPassOf queue.now result }
    ensures new_log { view result ≡ new_log false }
{
    queue.another::<Parts>(pass)
}

/// Pushes a hint. Whether it fits: it doesn't only where the queue was full at one moment of the call.
pub(crate) fn push<R: Wait>(rt: &R, queue: &HintQueue, pass: &mut HintPass, hint: u32) -> bool
    requires { IsPassOf queue.now pass.old }
    ensures pass { IsPassOf queue.now pass.new }
    ensures log { view pass.new ≡ after_push result hint (view pass.old) }
    ensures full { result ≡ false → Held (ruled_capacity queue.now) (Knows (view pass.old)) }
{
    queue.push_as::<Pushed, R>(rt, pass, hint).is_ok()
}

/// Pops the oldest hint. None only where the queue was empty at one moment of the call.
pub(crate) fn pop<R: Wait>(rt: &R, queue: &HintQueue, pass: &mut HintPass) -> Option<u32>
    requires pass { IsPassOf queue.now pass.old }
    requires may { (view pass.old).may_pop ≡ true }
    ensures pass { IsPassOf queue.now pass.new }
    ensures log { view pass.new ≡ after_pop result (view pass.old) }
    ensures empty { result ≡ None → Held 0 (Knows (view pass.old)) }
{
    queue.pop_as::<Popped, R>(rt, pass)
}
