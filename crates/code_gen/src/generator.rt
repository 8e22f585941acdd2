//! From a kernel to its code.

ghost use Rattle.std.specs.Prelude.{◌≡◌, ◌≤◌, ◌+◌, length, map, take, drop, OnOk, IfOk};
ghost use Rattle.forec_kernel.specs.Plain.{stmt, stmts};
ghost use Rattle.forec_kernel.specs.Shapes.{plain_kernel, plain_shape, plain_thread};
ghost use Rattle.thread_code.specs.Plain.{plain_block, plain_code};
ghost use Rattle.thread_code.specs.Alone.{Stands};
ghost use Rattle.thread_code.specs.Valid.{IsValidCode};
ghost use Rattle.code_gen.specs.Statements.{Outside, statement_code};
ghost use Rattle.code_gen.specs.Blocks.{thread_body_block, function_body_block, thread_block, function_block, blocks_from, counters_in, counters_of, flags_in, flags_of};

use crate::around::{Around, Surroundings};
use crate::statements::Emitter;
use crate::writing::{MOST_FUSED, MOST_INSTRUCTIONS, put};
use code_sizes::statement_size;
use forec_base::OutOfMemory;
use forec_kernel::{FunctionShape, Kernel, KernelParts, Statement, ThreadShape, copy_shape};
use std::alloc::Global;
use thread_code::{Block, Code, CodeParts, Instruction};

/// A body's code, with room for an end or a return. `room` is how many more instructions the code may have:
/// it falls by those of the body and two more.
fn body_steps(
    alloc: Global,
    body: &Statement,
    threads: &[ThreadShape],
    room: &mut u32,
) -> Result<Vec<Instruction>, OutOfMemory>
    ensures code { IfOk result (λ steps. steps.items ≡ statement_code (map plain_thread threads.now) Outside 0
        (stmt body.now)) }
    ensures room { IfOk result (λ steps. room.old ≡ room.new + (length steps.items + 2)) }
{
    let mut sizes = Vec::new(alloc);
    let own = statement_size(&mut sizes, body, 0, 0)?;
    let size = own.checked_add(2).ok_or(OutOfMemory)?;
    *room = room.checked_sub(size).ok_or(OutOfMemory)?;
    sizes.reverse();
    let steps = Vec::with_capacity(alloc, size as usize)?;
    let mut emitter = Emitter { steps, sizes };
    let surroundings = Surroundings {
        around: &Around::Outside,
        counters: 0,
        flags: 0,
        threads,
    };
    emitter.emit_statement(body, &surroundings)?;
    let Emitter { steps, .. } = emitter;
    Ok(steps)
}

/// How deep loops with a bound nest.
#[cycle(counters)]
fn counters(statement: &Statement) -> Result<u32, OutOfMemory>
    ensures { IfOk result (λ n. n ≡ counters_in (stmt statement.now)) }
{
    match statement {
        Statement::Sequence { list } => counters_within(list),
        Statement::If { yes, no, .. } => {
            let first = counters(yes)?;
            let second = counters(no)?;
            Ok(first.max(second))
        }
        Statement::While {
            bound: None,
            body,
            ..
        }
        | Statement::Enter { body, .. } => counters(body),
        Statement::While {
            bound: Some(_),
            body,
            ..
        } => {
            let inside = counters(body)?;
            inside.checked_add(1).ok_or(OutOfMemory)
        }
        _ => Ok(0),
    }
}

#[cycle(counters)]
fn counters_within(list: &[Statement]) -> Result<u32, OutOfMemory>
    ensures { IfOk result (λ n. n ≡ counters_of (stmts list.now)) }
{
    let mut most = 0;
    for statement in list {
        most = most.max(counters(statement)?);
    }
    Ok(most)
}

/// How deep weak aborts nest.
#[cycle(flags)]
fn flags(statement: &Statement) -> Result<u32, OutOfMemory>
    ensures { IfOk result (λ n. n ≡ flags_in (stmt statement.now)) }
{
    match statement {
        Statement::Sequence { list } => flags_within(list),
        Statement::If { yes, no, .. } => {
            let first = flags(yes)?;
            let second = flags(no)?;
            Ok(first.max(second))
        }
        Statement::While { body, .. }
        | Statement::Enter {
            weak: false,
            body,
            ..
        } => flags(body),
        Statement::Enter {
            weak: true,
            body,
            ..
        } => {
            let inside = flags(body)?;
            inside.checked_add(1).ok_or(OutOfMemory)
        }
        _ => Ok(0),
    }
}

#[cycle(flags)]
fn flags_within(list: &[Statement]) -> Result<u32, OutOfMemory>
    ensures { IfOk result (λ n. n ≡ flags_of (stmts list.now)) }
{
    let mut most = 0;
    for statement in list {
        most = most.max(flags(statement)?);
    }
    Ok(most)
}

fn block_of_thread(
    alloc: Global,
    body: &Statement,
    shape: &ThreadShape,
    threads: &[ThreadShape],
    room: &mut u32,
) -> Result<Block, OutOfMemory>
    ensures { IfOk result (λ b. plain_block b ≡ thread_body_block (map plain_thread threads.now) shape.now.params
        shape.now.words (stmt body.now)) }
{
    let mut steps = body_steps(alloc, body, threads, room)?;
    put(&mut steps, Instruction::End)?;
    Ok(Block {
        steps,
        params: shape.params,
        words: shape.words,
        counters: counters(body)?,
        flags: flags(body)?,
    })
}

fn block_of_function(
    alloc: Global,
    body: &Statement,
    shape: &FunctionShape,
    threads: &[ThreadShape],
    room: &mut u32,
) -> Result<Block, OutOfMemory>
    ensures { IfOk result (λ b. plain_block b ≡ function_body_block (map plain_thread threads.now) shape.now.params
        shape.now.words (stmt body.now)) }
{
    let mut steps = body_steps(alloc, body, threads, room)?;
    put(&mut steps, Instruction::Quiet { value: 0 })?;
    put(&mut steps, Instruction::Return)?;
    Ok(Block {
        steps,
        params: shape.params,
        words: shape.words,
        counters: counters(body)?,
        flags: 0,
    })
}

fn thread_blocks(
    alloc: Global,
    parts: &KernelParts,
    room: &mut u32,
) -> Result<Vec<Block>, OutOfMemory>
    requires { length parts.now.threads.items ≡ length parts.now.shape.threads.items }
    ensures { IfOk result (λ bs. map plain_block bs.items ≡ blocks_from (thread_block (plain_kernel parts.now)) 0
        (map stmt parts.now.threads.items)) }
{
    let mut blocks = Vec::new(alloc);
    let shapes = &parts.shape.threads;
    for t in 0..parts.threads.len() {
        let block = block_of_thread(alloc, &parts.threads[t], &shapes[t], shapes, room)?;
        blocks.push(block)?;
    }
    Ok(blocks)
}

fn function_blocks(
    alloc: Global,
    parts: &KernelParts,
    room: &mut u32,
) -> Result<Vec<Block>, OutOfMemory>
    requires { length parts.now.functions.items ≡ length parts.now.shape.functions.items }
    ensures { IfOk result (λ bs. map plain_block bs.items ≡ blocks_from (function_block (plain_kernel parts.now)) 0
        (map stmt parts.now.functions.items)) }
{
    let mut blocks = Vec::new(alloc);
    let shapes = &parts.shape.functions;
    for f in 0..parts.functions.len() {
        let block = block_of_function(
            alloc,
            &parts.functions[f],
            &shapes[f],
            &parts.shape.threads,
            room,
        )?;
        blocks.push(block)?;
    }
    Ok(blocks)
}

/// The code of these parts, which has so many instructions: with fused steps, where both together take no more than the
/// instructions of the largest code.
fn code_of(alloc: Global, parts: CodeParts, instructions: u32) -> Result<Code, OutOfMemory>
    requires { IsValidCode (plain_code parts) }
    ensures { IfOk result (λ code. plain_code code ≡ plain_code parts) }
{
    if instructions > MOST_FUSED {
        return Ok(Code::of(parts));
    }
    Code::decoded(alloc, parts)
}

/// The code of a kernel: it has the kernel's shape, and each thread by itself does the same with every
/// list of jobs and replies: the same forks, jobs and replies, units included. A code that would have
/// more than 8,388,608 instructions is reported as out of memory, which is the only other answer.
///
/// A pause has the tests of all aborts round it after it, which are made at each wake: so code can be
/// far larger than its kernel. A code of more than 4,194,304 instructions has no fused steps.
pub fn generate(alloc: Global, kernel: &Kernel) -> Result<Code, OutOfMemory>
    ensures { IfOk result (λ code. Stands (plain_code code) (plain_kernel kernel.now)) }
{
    let parts = kernel.parts();
    let mut room = MOST_INSTRUCTIONS;
    let threads = thread_blocks(alloc, parts, &mut room)?;
    let functions = function_blocks(alloc, parts, &mut room)?;
    let shape = copy_shape(alloc, &parts.shape)?;
    code_of(
        alloc,
        CodeParts {
            shape,
            threads,
            functions,
        },
        MOST_INSTRUCTIONS.saturating_sub(room),
    )
}
