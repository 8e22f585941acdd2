//! One mailbox, with both ends in one port.

use copy_slots::{LocalPort, Port, Work};
use forec_base::OutOfMemory;
use std::alloc::Global;
use std::test::Fail;

/// Packets are numbers. Each job may be sent, and each reply answers it.
#[derive(Drop)]
pub struct AnyNumber;

impl Work for AnyNumber {
    type Packet = u32;

    type Plain = u32;

    ghost use Rattle.std.specs.Prelude.{ℕ};

    ghost plain = { λ n. n };

    ghost asks = { λ work k jobs. Unit {0} };

    ghost answers = { λ work k jobs reply. Unit {0} };
}

/// What a mailbox gives: before a job, the job, the reply, and whether it stops before and after it is told to.
type Told = ([Option<u32>; 5], [bool; 2]);

fn told(alloc: Global) -> Result<Told, OutOfMemory> {
    let mut port = LocalPort::new(alloc, AnyNumber, vec![in alloc; 7]?)?;
    let none = port.take(0);
    let blank = Some(port.first(0));
    port.offer(0, 8);
    let still_none = port.collect(0);
    let job = port.take(0);
    port.answer(0, 9);
    let reply = port.collect(0);
    let before = port.stopped();
    port.stop();
    Ok((
        [none, blank, still_none, job, reply],
        [before, port.stopped()],
    ))
}

const WANTED: Told = ([None, Some(7), None, Some(8), Some(9)], [false, true]);

#[test]
fn hands_a_packet_to_and_fro(rt: HostRuntime) -> Result<(), Fail> {
    let told = told(rt.alloc())?;
    assert!(rt; told == WANTED);
    Ok(())
}
