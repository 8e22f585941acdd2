//! Queues for all cores, and passes of them.
ghost use Rattle.std.specs.Prelude.{◌≡◌, ◌+◌, ◌<◌, ◌^◌, IfOk, cond, length, map, true, false, suc};
ghost use Rattle.crossbeam_queue.specs.Passes.{IsPassOf, ruled_capacity, view};
ghost use Rattle.core_bells.specs.Hints.{new_log};
ghost use Rattle.core_bells.specs.Rooms.{rooms_of_first};
ghost use Rattle.core_bells.specs.Ropes.{AreFirsts, ArePasses, MayPop, logs_of, new_logs};

use crate::hints::{HintPass, HintQueue};
use crate::queue::{open, split};
use crate::rooms::room;
use forec_base::OutOfMemory;
use std::alloc::Global;
use std::mem;

/// A queue for each core, and the first pass of each.
pub(crate) fn open_all(
    alloc: Global,
    ends: &[(u32, u32)],
    cores: u32,
) -> Result<(Vec<HintQueue>, Vec<HintPass>), OutOfMemory>
    requires { length ends.now < 2 ^ 32 }
    ensures count { IfOk result (λ q. length q.0.items ≡ cores) }
    ensures rooms { IfOk result (λ q. map ruled_capacity q.0.items ≡ rooms_of_first ends.now cores) }
    ensures firsts { IfOk result (λ q. AreFirsts 0 q.0.items q.1.items) }
{
    let mut queues = Vec::new(alloc);
    let mut firsts = Vec::new(alloc);
    for core in 0..cores {
        let (queue, first) = open(alloc, room(core, ends))?;
        queues.push(queue)?;
        firsts.push(first)?;
    }
    Ok((queues, firsts))
}

/// Another pass of a queue. For the queue's own core it is the one that may pop.
fn next_pass(queue: &HintQueue, first: &mut HintPass, is_own: bool) -> HintPass
    requires { IsPassOf queue.now first.old }
    ensures pass { IsPassOf queue.now first.new }
    ensures log { view first.new ≡ cond is_own (new_log false) (view first.old) }
    ensures next_pass { IsPassOf queue.now result }
    ensures next_log { view result ≡ cond is_own (view first.old) (new_log false) }
{
    let mut next = split(queue, first);
    if is_own {
        mem::swap(first, &mut next);
    }
    next
}

/// Another pass of each queue, for a core's rope.
pub(crate) fn passes_of(
    alloc: Global,
    queues: &[HintQueue],
    firsts: &mut Vec<HintPass>,
    core: u32,
) -> Result<Vec<HintPass>, OutOfMemory>
    requires { AreFirsts core queues.now firsts.old.items }
    ensures firsts { IfOk result (λ passes. AreFirsts (core + 1) queues.now firsts.new.items) }
    ensures passes { IfOk result (λ passes. ArePasses queues.now passes.items) }
    ensures logs { IfOk result (λ passes. logs_of passes.items ≡ new_logs core (length queues.now)) }
    ensures own { IfOk result (λ passes. MayPop core passes.items) }
{
    let mut passes = Vec::new(alloc);
    for at in 0..queues.len() {
        let pass = next_pass(&queues[at], &mut firsts[at], at == core as usize);
        passes.push(pass)?;
    }
    Ok(passes)
}
