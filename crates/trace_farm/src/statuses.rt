//! The status of a whole farm.

ghost use Rattle.std.specs.Ordering.{nat_cmp};
ghost use Rattle.rayon.specs.Lists.{IsGreatest};

use rayon::prelude::*;
use std::thread::Threads;

/// The greatest of these numbers of statuses, if there are any. It takes no memory.
pub fn greatest(rt: &(impl Threads + Sync), statuses: &[u32]) -> Option<u32>
    ensures { IsGreatest nat_cmp statuses.now result }
{
    statuses.par_iter().copied().max(rt)
}
