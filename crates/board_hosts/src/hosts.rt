//! The hosts of the cores.

ghost use Rattle.std.specs.Prelude.{◌≡◌, ◌∷◌, [], ℕ, Some, IfOk, OnOk, length, map, slice_get};
ghost use Rattle.forec_kernel.specs.Combining.{contains};
ghost use Rattle.thread_code.specs.Plain.{plain_code};
ghost use Rattle.core_bells.specs.Ropes.{new_rope, new_ropes};
ghost use Rattle.thread_rooms.specs.Room.{AreNeeds};
ghost use Rattle.core_seats.specs.Loads.{CanLoad};
ghost use Rattle.core_host.specs.Hosted.{Hosted};
ghost use Rattle.board_hosts.specs.Boards.{ArePorts};
ghost use Rattle.board_hosts.specs.CoreHosts.{IsLoadedHost, IsRoot, IsOther, MakesNext, other_cores};

use copy_slots::Port;
use core_alloc::Placement;
use core_bells::{Bells, GivesRopes, Rope};
use core_host::{Host, Worker};
use core_seats::ForecWork;
use forec_base::OutOfMemory;
use slot_board::{GivesPorts, SlotBoard, SlotPort};
use std::alloc::Global;
use thread_code::Code;
use thread_rooms::Needs;

/// The hosts of a code's threads, each with those of one core.
#[derive(Drop)]
pub struct Hosts<'b, 'c> {
    /// The host of thread 0's core.
    pub root: Host<'c, SlotPort<'b, ForecWork>>,
    /// A worker for each other core that has threads, in the order of the cores.
    pub others: Vec<Worker<'c, SlotPort<'b, ForecWork>>>,
}

fn has_threads(placement: &Placement, core: u32) -> bool
    ensures { result ≡ contains core placement.now.places }
{
    for thread in 0..placement.threads() {
        if placement.core(thread) == core {
            return true;
        }
    }
    false
}

/// What the host of a core is made of, beside the code and its placement.
#[derive(Drop)]
struct CoreParts<'b, 'c> {
    core: u32,
    port: SlotPort<'b, ForecWork>,
    rope: Rope<'c>,
}

/// The host of one core's threads.
fn host_of<'b, 'c>(
    alloc: Global,
    code: &'c Code,
    needs: &Needs,
    placement: &Placement,
    parts: CoreParts<'b, 'c>,
) -> Result<Host<'c, SlotPort<'b, ForecWork>>, OutOfMemory>
    requires needs { AreNeeds (plain_code code.now) needs.now }
    requires port { CanLoad code.now placement.now (parts.core ∷ [])
        (⟦<SlotPort<'b, ForecWork> as Port<ForecWork>>⟧.state parts.port) }
    requires rope { parts.rope ≡ new_rope code.now placement.now parts.core }
    ensures { IfOk result (λ h. IsLoadedHost code.now placement.now parts.entry.core h) }
{
    let CoreParts { core, port, rope } = parts;
    let host = Host::load_with(alloc, code, needs, placement, &[core], port)?;
    Ok(host.hang(rope))
}

/// The hosts of the first cores.
#[derive(Drop)]
struct Made<'b, 'c> {
    /// That of thread 0's core, once it is one of these.
    root: Option<Host<'c, SlotPort<'b, ForecWork>>>,
    others: Vec<Worker<'c, SlotPort<'b, ForecWork>>>,
}

/// Makes the host of the next core, if that has threads.
fn make_next<'b, 'c>(
    alloc: Global,
    code: &'c Code,
    needs: &Needs,
    placement: &Placement,
    parts: CoreParts<'b, 'c>,
    root_core: u32,
    made: &mut Made<'b, 'c>,
) -> Result<(), OutOfMemory>
    requires root { slice_get placement.now.places 0 ≡ Some root_core }
    requires needs { AreNeeds (plain_code code.now) needs.now }
    requires port { CanLoad code.now placement.now (parts.core ∷ [])
        (⟦<SlotPort<'b, ForecWork> as Port<ForecWork>>⟧.state parts.port) }
    requires rope { parts.rope ≡ new_rope code.now placement.now parts.core }
    ensures { OnOk result (MakesNext code.now placement.now parts.entry.core made.old.root made.new.root
        made.old.others.items made.new.others.items) }
{
    let core = parts.core;
    if !has_threads(placement, core) {
        return Ok(());
    }
    let host = host_of(alloc, code, needs, placement, parts)?;
    if core == root_core {
        made.root = Some(host);
        return Ok(());
    }
    let Ok(worker) = Worker::new(host) else {
        unreachable!()
    };
    made.others.push(worker)?;
    Ok(())
}

/// One host for each core that has threads, with the board's port and the rope of that core. No tick was run. The board must not
/// have given out its ports before, nor the bells their ropes.
///
/// # Errors
///
/// Out of memory. The ports and ropes are then gone.
pub fn hosts_of<'b, 'c>(
    alloc: Global,
    code: &'c Code,
    placement: &Placement,
    board: &'b mut SlotBoard<ForecWork>,
    bells: &'c mut Bells,
) -> Result<Hosts<'b, 'c>, OutOfMemory>
    requires whole { ⟦<SlotBoard<ForecWork> as GivesPorts<ForecWork>>⟧.is_whole board.old }
    requires ports { ArePorts code.now placement.now
        (⟦<SlotBoard<ForecWork> as GivesPorts<ForecWork>>⟧.ports board.old) }
    requires bells { ⟦<Bells as GivesRopes>⟧.is_whole bells.old }
    requires ropes { ⟦<Bells as GivesRopes>⟧.ropes bells.old ≡ new_ropes code.now placement.now placement.now.cores }
    ensures root { IfOk result (λ h. IsRoot code.now placement.now h.root) }
    ensures others { IfOk result (λ h. (i : ℕ) (x : Hosted) → slice_get h.others.items i ≡ Some x
        → IsOther code.now placement.now x) }
    ensures cores { IfOk result (λ h. map (λ x. x.cores) h.others.items
        ≡ map (λ core. core ∷ []) (other_cores placement.now.places placement.now.cores)) }
{
    let cores = placement.cores();
    let root_core = placement.core(0);
    let needs = Needs::new(alloc, code)?;
    let mut ropes = bells.ropes(alloc)?.into_iter();
    let mut ports = board.ports(alloc)?.into_iter();
    let mut made = Made {
        root: None,
        others: Vec::new(alloc),
    };
    for core in 0..cores {
        let Some(port) = ports.next() else {
            unreachable!()
        };
        let Some(rope) = ropes.next() else {
            unreachable!()
        };
        let parts = CoreParts { core, port, rope };
        make_next(alloc, code, &needs, placement, parts, root_core, &mut made)?;
    }
    let Made { root, others } = made;
    let Some(root) = root else { unreachable!() };
    Ok(Hosts { root, others })
}
