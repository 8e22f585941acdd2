//! How many runs of a code may have their memory at the same time.

use forec_base::{MAX_CORES, MAX_DEPTH, MAX_WORDS};
use thread_code::{Block, CodeParts};

/// How many bytes all may take together, by this count: a code and what it was made of, the traces, the reports and one
/// run.
const MOST: u64 = 390_000_000;

/// What a code was made of, a kernel and the stack that it needs, takes no more bytes.
const MOST_OF_KERNEL: u64 = 50_000_000;

/// The bytes of a kernel for each instruction, at most.
const EACH_TERM: u64 = 200;

/// The bytes of a word of a constant array, in the kernel and in the code.
const EACH_CONSTANT: u64 = 12;

/// How many bytes the runs beside each other may take together, by this count. One run may take more.
const BESIDE: u64 = 67_108_864;

/// The bytes of an instruction, or of a fused step.
const EACH_STEP: u64 = 20;

/// The instructions of a code that has no fused steps.
const UNFUSED: u64 = 4_194_304;

/// The bytes of a run apart from its threads: lines that wait, and a piece of the trace.
const EACH_RUN: u64 = 131_072;

/// The bytes of a thread for each variable that it uses.
const EACH_USE: u64 = 52;

/// The bytes of a thread for each other thread.
const EACH_THREAD: u64 = 16;

/// The bytes of an address of a block, while its depths of the stack are looked for.
const EACH_ADDRESS: u64 = 2;

/// The bytes of a word, a counter or an operand.
const NUMBER: u64 = 4;

/// How many instructions these blocks have together.
fn steps(blocks: &[Block]) -> u64 {
    let mut all = 0u64;
    for block in blocks {
        all = all.saturating_add(block.steps.len() as u64);
    }
    all
}

/// The bytes of a code: its instructions, with a fused step beside each where it has those.
fn code_bytes(steps: u64) -> u64 {
    let fused = if steps > UNFUSED { 0 } else { steps };
    steps.saturating_add(fused).saturating_mul(EACH_STEP)
}

/// The bytes of what a code was made of, and of its constant arrays.
fn kernel_bytes(code: &CodeParts, steps: u64) -> u64 {
    let mut constants = 0u64;
    for table in &code.shape.tables {
        constants = constants.saturating_add(table.len() as u64);
    }
    let terms = steps.saturating_mul(EACH_TERM);
    terms
        .saturating_add(constants.saturating_mul(EACH_CONSTANT))
        .min(MOST_OF_KERNEL)
}

/// The numbers of a frame of this block, at most: each operand is left by an instruction.
fn numbers(block: &Block) -> u64 {
    let operands = (block.steps.len() as u64).min(MAX_DEPTH);
    u64::from(block.words) + u64::from(block.counters) + operands
}

/// The numbers that the frames of any chain of calls have together, at most.
fn called_numbers(code: &CodeParts) -> u64 {
    let mut all = 0u64;
    for function in &code.functions {
        all = all.saturating_add(numbers(function));
    }
    all.min(MAX_WORDS + MAX_DEPTH)
}

/// How many instructions the longest of these blocks has.
fn longest(blocks: &[Block]) -> u64 {
    let mut most = 0;
    for block in blocks {
        most = block.steps.len().max(most);
    }
    most as u64
}

/// The bytes that a run of this code takes, as a rule no fewer.
fn run_bytes(code: &CodeParts) -> u64 {
    let called = called_numbers(code);
    let threads = code.threads.len() as u64;
    let addresses = longest(&code.threads).max(longest(&code.functions));
    let mut all = EACH_RUN.saturating_add(addresses.saturating_mul(EACH_ADDRESS));
    for block in &code.threads {
        let own = numbers(block).saturating_add(called);
        all = all
            .saturating_add(own.saturating_mul(NUMBER))
            .saturating_add(u64::from(block.flags))
            .saturating_add(threads.saturating_mul(EACH_THREAD));
    }
    for thread in &code.shape.threads {
        let uses = thread.uses.len() as u64;
        all = all.saturating_add(uses.saturating_mul(EACH_USE));
    }
    all
}

/// How many runs of this code may stand beside each other, where the traces and the reports take so many bytes: no more
/// than there can be cores. None where there is no room for one. What is reported doesn't depend on it.
pub fn runs_beside(code: &CodeParts, lists: u64) -> Option<u64> {
    let steps = steps(&code.threads).saturating_add(steps(&code.functions));
    let held = code_bytes(steps)
        .saturating_add(kernel_bytes(code, steps))
        .saturating_add(lists);
    let run = run_bytes(code).max(1);
    let left = MOST.saturating_sub(held);
    if left < run {
        return None;
    }
    Some((BESIDE.min(left) / run).clamp(1, u64::from(MAX_CORES)))
}
