//! The threads of a code, as they are made.

ghost use Rattle.std.specs.Prelude.{◌≡◌, ◌<◌, IfOk, length};
ghost use Rattle.thread_code.specs.Plain.{plain_code};
ghost use Rattle.thread_rooms.specs.Room.{AreNeeds};
ghost use Rattle.one_core.specs.Loads.{AreNew, IsNewThread};

use core_machine::Thread;
use forec_base::OutOfMemory;
use std::alloc::Global;
use thread_code::Code;
use thread_rooms::Needs;
use tick_jobs::Boxed;

/// Thread number `thread`, for its seat.
fn thread_of(
    alloc: Global,
    code: &Code,
    needs: &Needs,
    thread: u32,
) -> Result<Boxed<Thread>, OutOfMemory>
    requires thread { thread < length (plain_code code.now).threads }
    requires needs { AreNeeds (plain_code code.now) needs.now }
    ensures { IfOk result (λ h. IsNewThread (plain_code code.now) thread h) }
{
    let loaded = Thread::load_with(alloc, code, needs, thread)?;
    Boxed::new(alloc, loaded)
}

/// The threads of the code, each in its seat, in order.
///
/// # Errors
///
/// Out of memory.
pub fn seats_of(
    alloc: Global,
    code: &Code,
    threads: u32,
) -> Result<Vec<Option<Boxed<Thread>>>, OutOfMemory>
    requires count { threads ≡ length (plain_code code.now).threads }
    ensures count { IfOk result (λ seats. length seats.items ≡ length (plain_code code.now).threads) }
    ensures each { IfOk result (λ seats. AreNew (plain_code code.now) seats.items) }
{
    let needs = Needs::new(alloc, code)?;
    let mut seats = Vec::new(alloc);
    for thread in 0..threads {
        seats.push(Some(thread_of(alloc, code, &needs, thread)?))?;
    }
    Ok(seats)
}
