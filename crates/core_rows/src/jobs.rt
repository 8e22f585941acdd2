//! A thread is loaded and does its jobs.

ghost use Rattle.std.specs.Prelude.{◌≡◌, [], ◌∷◌, true, IfOk};
ghost use Rattle.forec_kernel.specs.Packed.{HasRoom};
ghost use Rattle.forec_kernel.specs.Shapes.{plain_shape};
ghost use Rattle.thread_code.specs.Plain.{plain_block, plain_code};
ghost use Rattle.thread_code.specs.Valid.{of_shape};
ghost use Rattle.combine_tree.specs.Plain.{plain_packet};
ghost use Rattle.core_machine.specs.Threads.{Loaded, CanRun, IsResting, HasReply, HasPaused};
ghost use Rattle.thread_code.specs.Worked.{small_shape, small_main, small_function, small_code};

use combine_tree::{Packet, PacketKind};
use core_machine::{Event, Thread};
use forec_base::{Labels, OutOfMemory};
use forec_kernel::{FunctionShape, Shape, ThreadShape};
use std::alloc::Global;
use std::test::Fail;
use thread_code::{Block, Code, CodeParts, Instruction};

fn one<T: Drop>(alloc: Global, item: T) -> Result<Vec<T>, OutOfMemory>
    ensures { IfOk result (λ v. v.items ≡ item ∷ []) }
{
    let mut list = Vec::new(alloc);
    list.push(item)?;
    Ok(list)
}

fn shape(alloc: Global) -> Result<Shape, OutOfMemory>
    ensures { IfOk result (λ s. plain_shape s ≡ small_shape) }
{
    let main = ThreadShape {
        parent: None,
        par: None,
        name: None,
        params: 0,
        words: 1,
        uses: Vec::new(alloc),
    };
    let function = FunctionShape {
        params: 1,
        words: 1,
    };
    let names = Labels::new(alloc)?;
    let functions = one(alloc, function)?;
    Ok(Shape {
        threads: one(alloc, main)?,
        variables: Vec::new(alloc),
        functions,
        tables: Vec::new(alloc),
        inputs: Vec::new(alloc),
        outputs: Vec::new(alloc),
        names,
    })
}

fn main_block(alloc: Global) -> Result<Block, OutOfMemory>
    ensures { IfOk result (λ b. plain_block b ≡ small_main) }
{
    let steps = [
        Instruction::Load { slot: 0 },
        Instruction::Call { function: 0 },
        Instruction::Store { slot: 0 },
        Instruction::Pause { to: 4 },
        Instruction::Jump { to: 0 },
    ];
    Ok(Block {
        steps: steps.to_vec(alloc)?,
        params: 0,
        words: 1,
        counters: 0,
        flags: 0,
    })
}

fn function_block(alloc: Global) -> Result<Block, OutOfMemory>
    ensures { IfOk result (λ b. plain_block b ≡ small_function) }
{
    let steps = [Instruction::Push { value: 7 }, Instruction::Return];
    Ok(Block {
        steps: steps.to_vec(alloc)?,
        params: 1,
        words: 1,
        counters: 0,
        flags: 0,
    })
}

/// A thread that calls a function, and pauses, round and round; 4 units each time.
fn parts(alloc: Global) -> Result<CodeParts, OutOfMemory>
    ensures { IfOk result (λ p. plain_code p ≡ small_code) }
{
    let threads = one(alloc, main_block(alloc)?)?;
    let functions = one(alloc, function_block(alloc)?)?;
    Ok(CodeParts {
        shape: shape(alloc)?,
        threads,
        functions,
    })
}

fn code(alloc: Global, fused: bool) -> Result<Box<Code>, OutOfMemory> {
    let parts = parts(alloc)?;
    if fused {
        return Ok(Box::new(alloc, Code::decoded(alloc, parts)?)?);
    }
    Ok(Box::new(alloc, Code::of(parts))?)
}

/// Whether the packet has that thread's room.
fn has_room(code: &Code, thread: u32, packet: &Packet) -> bool
    ensures { result ≡ true → HasRoom (of_shape (plain_code code.now).shape) thread (plain_packet packet.now) }
{
    match code.shape().threads.get(thread as usize) {
        Some(thread) => {
            packet.args.len() == thread.params as usize && packet.copies.len() == thread.uses.len()
        }
        None => false,
    }
}

/// Thread 0, which was never started.
fn first_thread(alloc: Global, code: &Code) -> Result<Thread, OutOfMemory>
    ensures loaded { IfOk result (λ h. Loaded (plain_code code.now) h) }
    ensures number { IfOk result (λ h. h.number ≡ 0) }
    ensures resting { IfOk result (λ h. IsResting h) }
{
    if code.parts().threads.is_empty() {
        return Err(OutOfMemory);
    }
    Thread::load(alloc, code, 0)
}

/// Starts a job where the packet has the thread's room.
fn begins(thread: &mut Thread, code: &Code, packet: &mut Packet) -> bool
    requires loaded { Loaded (plain_code code.now) thread.old }
    requires resting { IsResting thread.old }
    requires root { thread.old.number ≡ 0 }
    ensures loaded { Loaded (plain_code code.now) thread.new }
    ensures number { thread.new.number ≡ thread.old.number }
    ensures running { result ≡ true → CanRun thread.new }
    ensures room { result ≡ true
        → HasRoom (of_shape (plain_code code.now).shape) thread.old.number (plain_packet packet.new) }
{
    packet.kind = PacketKind::Start;
    if packet.allowance > 1 << 62 || !has_room(code, 0, packet) {
        return false;
    }
    thread.begin(code, packet);
    true
}

/// Runs to a pause, and writes the reply.
fn pauses(thread: &mut Thread, code: &Code, packet: &mut Packet) -> bool
    requires loaded { Loaded (plain_code code.now) thread.old }
    requires running { CanRun thread.old }
    requires room { HasRoom (of_shape (plain_code code.now).shape) thread.old.number (plain_packet packet.old) }
    ensures loaded { Loaded (plain_code code.now) thread.new }
    ensures number { thread.new.number ≡ thread.old.number }
    ensures replied { result ≡ true → HasReply thread.new }
    ensures paused { result ≡ true → HasPaused thread.new }
    ensures room { HasRoom (of_shape (plain_code code.now).shape) thread.old.number (plain_packet packet.new) }
{
    match thread.run(code) {
        Event::Paused => {
            thread.reply(code, packet);
            true
        }
        _ => false,
    }
}

/// Wakes a thread that has paused, with an allowance.
fn wakes(thread: &mut Thread, code: &Code, packet: &mut Packet, allowance: u32)
    requires loaded { Loaded (plain_code code.now) thread.old }
    requires replied { HasReply thread.old }
    requires paused { HasPaused thread.old }
    requires room { HasRoom (of_shape (plain_code code.now).shape) thread.old.number (plain_packet packet.old) }
    ensures loaded { Loaded (plain_code code.now) thread.new }
    ensures number { thread.new.number ≡ thread.old.number }
    ensures running { CanRun thread.new }
    ensures room { HasRoom (of_shape (plain_code code.now).shape) thread.old.number (plain_packet packet.new) }
{
    packet.kind = PacketKind::Wake;
    packet.allowance = u64::from(allowance);
    thread.begin(code, packet);
}

/// Runs to the end of the job, and writes the reply.
fn replies(thread: &mut Thread, code: &Code, packet: &mut Packet) -> Option<Event>
    requires loaded { Loaded (plain_code code.now) thread.old }
    requires running { CanRun thread.old }
    requires room { HasRoom (of_shape (plain_code code.now).shape) thread.old.number (plain_packet packet.old) }
    ensures loaded { Loaded (plain_code code.now) thread.new }
{
    match thread.run(code) {
        Event::Fork => None,
        event => {
            thread.reply(code, packet);
            Some(event)
        }
    }
}

/// Starts a job of 4 units, which pauses, and wakes it with 3, which it passes.
fn pauses_then_passes(thread: &mut Thread, code: &Code, packet: &mut Packet) -> bool
    requires loaded { Loaded (plain_code code.now) thread.old }
    requires resting { IsResting thread.old }
    requires root { thread.old.number ≡ 0 }
{
    packet.allowance = 4;
    if !begins(thread, code, packet) || !pauses(thread, code, packet) || packet.units != 4 {
        return false;
    }
    wakes(thread, code, packet, 3);
    replies(thread, code, packet) == Some(Event::Over) && packet.kind == PacketKind::Over
}

fn does_its_jobs(alloc: Global, fused: bool) -> Result<bool, OutOfMemory> {
    let code = code(alloc, fused)?;
    let mut packet = Packet::new(alloc, 0, 0)?;
    let mut thread = first_thread(alloc, &code)?;
    Ok(pauses_then_passes(&mut thread, &code, &mut packet))
}

/// A code does the same with fused steps and without.
#[test]
fn does_jobs_with_and_without_fused_steps(rt: HostRuntime) -> Result<(), Fail> {
    for fused in [false, true] {
        assert!(rt; does_its_jobs(rt.alloc(), fused)?, "{fused}");
    }
    Ok(())
}
