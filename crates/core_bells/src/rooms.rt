//! Which cores have the ends of which mailboxes, and how many hints the queue of each core has room for.
ghost use Rattle.std.specs.Prelude.{◌≡◌, ◌+◌, ◌<◌, ◌^◌, All, IfOk, cond, length, map};
ghost use Rattle.forec_kernel.specs.Shapes.{plain_shape, plain_thread};
ghost use Rattle.thread_code.specs.Plain.{plain_code};
ghost use Rattle.thread_code.specs.Valid.{FineShape};
ghost use Rattle.core_bells.specs.Rooms.{mailbox_cores, ends_on, mailbox_ends, room_on};

use core_alloc::Placement;
use forec_base::OutOfMemory;
use forec_kernel::Shape;
use std::alloc::Global;

/// The core of each thread, in order.
pub(crate) fn places_of(alloc: Global, placement: &Placement) -> Result<Vec<u32>, OutOfMemory>
    ensures same { IfOk result (λ places. places.items ≡ placement.now.places) }
    ensures placed { IfOk result (λ places. All (λ core. core < placement.now.cores) placement.now.places) }
    ensures few { IfOk result (λ places. length placement.now.places < 2 ^ 32) }
{
    let mut places = Vec::new(alloc);
    for thread in 0..placement.threads() {
        places.push(placement.core(thread))?;
    }
    Ok(places)
}

/// The cores on which a mailbox has its parent's end and its child's end.
fn ends_of(shape: &Shape, places: &[u32], mailbox: usize) -> (u32, u32)
    requires fine { FineShape (plain_shape shape.now) }
    requires placed { length places.now ≡ length (plain_shape shape.now).threads }
    requires mailbox { mailbox + 1 < length places.now }
    ensures { result ≡ mailbox_cores (plain_shape shape.now) places.now mailbox }
{
    let child = mailbox + 1;
    let Some(parent) = shape.threads[child].parent else {
        unreachable!()
    };
    (places[parent as usize], places[child])
}

/// The same of each mailbox, in order.
pub(crate) fn all_ends(
    alloc: Global,
    shape: &Shape,
    places: &[u32],
) -> Result<Vec<(u32, u32)>, OutOfMemory>
    requires fine { FineShape (plain_shape shape.now) }
    requires placed { length places.now ≡ length (plain_shape shape.now).threads }
    ensures { IfOk result (λ ends. ends.items ≡ mailbox_ends (plain_shape shape.now) places.now) }
{
    let mut ends = Vec::new(alloc);
    for mailbox in 0..places.len() - 1 {
        ends.push(ends_of(shape, places, mailbox))?;
    }
    Ok(ends)
}

/// How many hints the queue of a core has room for: two for each end of a mailbox on the core, and at least one.
pub(crate) fn room(core: u32, ends: &[(u32, u32)]) -> usize
    requires { length ends.now < 2 ^ 32 }
    ensures { result ≡ room_on core ends.now }
{
    let mut count = 0;
    for (parent, child) in ends {
        count += usize::from(*parent == core) + usize::from(*child == core);
    }
    (2 * count).max(1)
}
