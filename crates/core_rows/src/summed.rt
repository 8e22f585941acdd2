//! Two threads: one sends jobs, each after the reply to the one before, and the other answers with their sums.
ghost use Rattle.std.specs.Prelude.{◌≡◌, ◌%◌, ◌^◌, sum, false};
ghost use Rattle.copy_slots.specs.declared.view.PacketAt.TheVariants.{Held};
ghost use Rattle.copy_slots.specs.Ports.{ChildIs, ParentIs, taken};
ghost use Rattle.slot_board.specs.Joined.{IsOneBoard};
ghost use Rattle.core_rows.specs.PortPairs.{ArePair, IsAnswerer, IsAsker};

use crate::ports::both;
use copy_slots::{Port, Work};
use forec_base::OutOfMemory;
use slot_board::{SlotBoard, SlotPort};
use std::alloc::Global;
use std::sync::Wait;
use std::test::Fail;
use std::thread;
use std::thread::Threads;

/// Packets are numbers. Each reply is the sum of the jobs so far.
#[derive(Drop)]
struct Sums;

impl Work for Sums {
    type Packet = u64;

    type Plain = u64;

    ghost use Rattle.std.specs.Prelude.{◌≡◌, ℕ, ◌%◌, ◌^◌, sum};

    ghost plain = { λ n. n };

    ghost asks = { λ work k jobs. Unit {0} };

    ghost answers = { λ work k jobs reply. reply ≡ sum jobs % 2 ^ 64 };
}

/// Sends a job, and gives the reply to it.
fn ask<R: Wait, P: Port<Sums>>(rt: &R, port: &mut P, job: u64) -> u64
    requires { ParentIs (P.state port.old) 0 Held }
    ensures held { ParentIs (P.state port.new) 0 Held }
    ensures root { (P.state port.new).root ≡ (P.state port.old).root }
    ensures board { IsOneBoard (P.state port.old) (P.state port.new) }
{
    port.offer(0, job);
    'waiting: for _ in rt.forever() {
        if let Some(reply) = port.collect(0) {
            return reply;
        }
        thread::yield_now();
    }
    unreachable!()
}

const LAST: u64 = 1000;

/// Sends 1, 2 and so on, and gives the last reply.
fn ask_all<R: Wait, P: Port<Sums> + Drop>(rt: &R, mut port: P) -> (u64, P)
    requires { IsAsker (P.state port) }
    ensures { IsOneBoard (P.state port) (P.state result.1) }
{
    let mut reply = port.first(0);
    for job in 0..LAST {
        reply = ask(rt, &mut port, job + 1);
    }
    port.stop();
    (reply, port)
}

/// Answers one job, if there is one.
fn answer<P: Port<Sums>>(port: &mut P, total: &mut u64) -> bool
    requires { ChildIs (P.state port.old) 0 false × (total.old ≡ sum (taken (P.state port.old) 0) % 2 ^ 64) }
    ensures child { ChildIs (P.state port.new) 0 false × (total.new ≡ sum (taken (P.state port.new) 0) % 2 ^ 64) }
    ensures board { IsOneBoard (P.state port.old) (P.state port.new) }
{
    let Some(job) = port.take(0) else {
        return false;
    };
    *total = total.wrapping_add(job);
    port.answer(0, *total);
    true
}

/// Answers each job with the sum so far, until it is stopped.
fn answer_all<R: Wait, P: Port<Sums> + Drop>(rt: &R, mut port: P) -> P
    requires { IsAnswerer (P.state port) }
    ensures { IsOneBoard (P.state port) (P.state result) }
{
    let mut total = 0;
    'serving: for _ in rt.forever() {
        if !answer(&mut port, &mut total) {
            if port.stopped() {
                return port;
            }
            thread::yield_now();
        }
    }
    unreachable!()
}

/// The last reply, and both ports after both threads.
fn by_two<R: Threads + Wait + Sync, P: Port<Sums> + Drop + Send>(
    rt: &R,
    parent: P,
    child: P,
) -> ((u64, P), P)
    requires { ArePair (P.state parent) (P.state child) }
    ensures { IsOneBoard (P.state result.0.1) (P.state result.1) }
{
    thread::join(
        rt,
        move || -> (u64, P)
            requires { IsAsker (P.state parent) }
            ensures { IsOneBoard (P.state parent) (P.state result.1) }
        { ask_all(rt, parent) },
        move || -> P
            requires { IsAnswerer (P.state child) }
            ensures { IsOneBoard (P.state child) (P.state result) }
        { answer_all(rt, child) },
    )
}

/// The last reply, and whether the two ports are one that stops.
fn summed<'b, R: Threads + Wait + Sync>(
    rt: &R,
    parent: SlotPort<'b, Sums>,
    child: SlotPort<'b, Sums>,
) -> (u64, bool)
    requires { ArePair (⟦<SlotPort<'b, Sums> as Port<Sums>>⟧.state parent)
        (⟦<SlotPort<'b, Sums> as Port<Sums>>⟧.state child) }
{
    let ((reply, parent), child) = by_two(rt, parent, child);
    (reply, parent.join(child).stopped())
}

fn told<R: Threads + Wait + Sync>(
    rt: &R,
    alloc: Global,
) -> Result<Option<(u64, bool)>, OutOfMemory> {
    let mut board = SlotBoard::new(alloc, Sums, &[(0, 1)], 2, 0, vec![in alloc; 0]?)?;
    let ports = board.ports(alloc)?;
    let Some((parent, child)) = both(ports) else {
        return Ok(None);
    };
    Ok(Some(summed(rt, parent, child)))
}

#[test]
fn sums_in_another_thread(rt: HostRuntime) -> Result<(), Fail> {
    let told = told(&rt, rt.alloc())?;
    assert!(rt; told == Some((500500, true)));
    Ok(())
}
