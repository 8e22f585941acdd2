//! One mailbox, with its ends in the ports of two cores.
ghost use Rattle.std.specs.Prelude.{◌≡◌, true};
ghost use Rattle.slot_board.specs.Joined.{IsOneBoard};
ghost use Rattle.core_rows.specs.PortPairs.{ArePair};

use crate::mailbox::AnyNumber;
use crate::ports::both;
use copy_slots::Port;
use forec_base::OutOfMemory;
use slot_board::{SlotBoard, SlotPort};
use std::alloc::Global;
use std::test::Fail;

/// What the mailbox gives: the blank packet, the job and the reply. None where a packet came too early or too late.
fn exchange<P: Port<AnyNumber>>(parent: &mut P, child: &mut P) -> Option<[u32; 3]>
    requires { ArePair (P.state parent.old) (P.state child.old) }
    ensures root { (P.state parent.new).root ≡ true }
    ensures board { IsOneBoard (P.state parent.new) (P.state child.new) }
{
    let None = child.take(0) else { return None };
    let blank = parent.first(0);
    parent.offer(0, 8);
    let None = parent.collect(0) else {
        return None;
    };
    let job = child.take(0)?;
    child.answer(0, 9);
    let reply = parent.collect(0)?;
    Some([blank, job, reply])
}

/// What the mailbox gives, and whether each port stops before and after it is told to.
type Told = (Option<[u32; 3]>, [bool; 3]);

/// Then the two ports are one.
fn exchanged<'b>(mut parent: SlotPort<'b, AnyNumber>, mut child: SlotPort<'b, AnyNumber>) -> Told
    requires { ArePair (⟦<SlotPort<'b, AnyNumber> as Port<AnyNumber>>⟧.state parent)
        (⟦<SlotPort<'b, AnyNumber> as Port<AnyNumber>>⟧.state child) }
{
    let packets = exchange(&mut parent, &mut child);
    let before = child.stopped();
    parent.stop();
    let after = child.stopped();
    let mut whole = parent.join(child);
    (packets, [before, after, whole.stopped()])
}

fn told(alloc: Global) -> Result<Option<Told>, OutOfMemory> {
    let mut board = SlotBoard::new(alloc, AnyNumber, &[(0, 1)], 2, 0, vec![in alloc; 7]?)?;
    let ports = board.ports(alloc)?;
    let Some((parent, child)) = both(ports) else {
        return Ok(None);
    };
    Ok(Some(exchanged(parent, child)))
}

const WANTED: Told = (Some([7, 8, 9]), [false, true, true]);

#[test]
fn hands_a_packet_to_and_fro(rt: HostRuntime) -> Result<(), Fail> {
    let told = told(rt.alloc())?;
    assert!(rt; told == Some(WANTED));
    Ok(())
}
