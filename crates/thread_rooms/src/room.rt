//! How many numbers the frames of a thread can hold together.

ghost use Rattle.std.specs.Prelude.{◌≡◌, ◌<◌, ◌≤◌, ◌^◌, ℕ, length, get_or, slice_get, true, Some, IsTrue, IfSome, IfOk};
ghost use Rattle.thread_code.specs.Plain.{plain_code, plain_block};
ghost use Rattle.forec_kernel.specs.Combining.{contains, variable_of};
ghost use Rattle.forec_kernel.specs.Shapes.{plain_shape};
ghost use Rattle.thread_code.specs.Valid.{IsValidCode, of_shape};
ghost use Rattle.thread_code.specs.declared.instruction.Instruction.TheVariants as instruction;
ghost use Rattle.thread_state.specs.Pars.{HavePars};
ghost use Rattle.thread_rooms.specs.Depths.{IsSoundIn};
ghost use Rattle.thread_rooms.specs.Room.{block_of_function, IsFrame, Enough, EnoughToCombine, EnoughFor, AreEnough, AreShort, AreNeeds};

use crate::depths::deepest;
use forec_base::{OutOfMemory, Policy};
use forec_kernel::{Shape, Variable};
use std::alloc::Global;
use thread_code::{Block, Code, CodeParts, Instruction};
use thread_state::Pars;

/// What the frames of a code's functions need. It is the same for each thread of the code.
#[derive(Drop)]
pub struct Needs {
    /// So many numbers are enough for a frame of each function and all that it calls.
    pub each: Vec<u64>,
    /// The branches of each `par`, and the variables that each thread uses: one table for all threads.
    pub pars: Pars,
}

impl Needs {
    /// The needs of a code.
    ///
    /// # Errors
    ///
    /// Out of memory, also where a function needs more than can be counted.
    pub fn new(alloc: Global, code: &Code) -> Result<Needs, OutOfMemory>
        ensures { IfOk result (λ needs. AreNeeds (plain_code code.now) needs) }
    {
        let code = code.parts();
        if !are_short(code) {
            return Err(OutOfMemory);
        }
        let pars = Pars::new(alloc, &code.shape)?;
        let each = needs_of(alloc, code, &pars)?;
        Ok(Needs { each, pars })
    }
}

/// A variable of the code; past the last one there is none to combine.
pub fn variable_at(shape: &Shape, variable: u32) -> Variable
    ensures { result ≡ variable_of (of_shape (plain_shape shape.now)) variable }
{
    match shape.variables.get(variable as usize) {
        Some(found) => *found,
        None => Variable {
            policy: Policy::Mod,
            combine: None,
            start: 0,
            input: false,
        },
    }
}

/// Whether each address of a block fits 32 bits.
pub fn is_short(block: &Block) -> bool
    ensures short { result ≡ true → length (plain_block block.now).steps < 2 ^ 32 }
    ensures only { length (plain_block block.now).steps < 2 ^ 32 → result ≡ true }
{
    block.steps.len() <= u32::MAX as usize
}

/// Whether each address of each function fits 32 bits.
fn are_short(code: &CodeParts) -> bool
    ensures { result ≡ true → AreShort (plain_code code.now) }
{
    for function in 0..code.functions.len() {
        if !is_short(&code.functions[function]) {
            return false;
        }
    }
    true
}

/// What a function needs, by a table of it; 0 where the table ends before.
fn need_at(needs: &[u64], function: u32) -> u64
    ensures { result ≡ get_or needs.now function 0 }
{
    match needs.get(function as usize) {
        Some(need) => *need,
        None => 0,
    }
}

/// The most that a function needs that the block calls.
fn most_called(block: &Block, needs: &[u64]) -> u64
    ensures { (p f : ℕ) → slice_get block.now.steps.items p ≡ Some (instruction.Call f) → get_or needs.now f 0
        ≤ result }
{
    let mut most = 0;
    for step in &block.steps {
        if let Instruction::Call { function } = *step {
            most = most.max(need_at(needs, function));
        }
    }
    most
}

/// The most that a combine function needs, of those of these variables.
fn most_combined(shape: &Shape, uses: &[u32], needs: &[u64]) -> u64
    ensures { (v f : ℕ) → IsTrue (contains v uses.now) → (variable_of (of_shape (plain_shape shape.now)) v).combine
        ≡ Some f → get_or needs.now f 0 ≤ result }
{
    let mut most = 0;
    for i in 0..uses.len() {
        if let Some(function) = variable_at(shape, uses[i]).combine {
            most = most.max(need_at(needs, function));
        }
    }
    most
}

/// So many numbers are enough for a frame of the block by itself.
fn frame_need(
    alloc: Global,
    code: &CodeParts,
    pars: &Pars,
    block: &Block,
) -> Result<u64, OutOfMemory>
    requires sound { IsSoundIn (plain_code code.now) (plain_block block.now) }
    requires pars { HavePars (plain_code code.now).shape pars.now }
    ensures { IfOk result (λ own. IsFrame (plain_code code.now) (plain_block block.now) own) }
{
    let deep = deepest(alloc, code, pars, block)?;
    Ok(block.words as u64 + block.counters as u64 + u64::from(deep))
}

/// What a frame of each function needs by itself.
fn frame_needs(alloc: Global, code: &CodeParts, pars: &Pars) -> Result<Vec<u64>, OutOfMemory>
    requires valid { IsValidCode (plain_code code.now) }
    requires pars { HavePars (plain_code code.now).shape pars.now }
    ensures long { IfOk result (λ own. length own.items ≡ length (plain_code code.now).functions) }
    ensures each { IfOk result (λ own. (f : ℕ) → f < length (plain_code code.now).functions
        → IsFrame (plain_code code.now) (block_of_function (plain_code code.now) f) (get_or own.items f 0)) }
{
    let mut own = Vec::new(alloc);
    for function in 0..code.functions.len() {
        let need = frame_need(alloc, code, pars, &code.functions[function])?;
        own.push(need)?;
    }
    Ok(own)
}

/// What a frame of the block and all that it calls need, where it needs so much by itself, and the
/// functions what the table says; None where they are too many to count.
fn whole_need(code: &CodeParts, block: &Block, own: u64, needs: &[u64]) -> Option<u64>
    requires own { IsFrame (plain_code code.now) (plain_block block.now) own }
    ensures { IfSome result (λ n. Enough (plain_code code.now) (plain_block block.now) needs.now n) }
{
    own.checked_add(most_called(block, needs))
}

/// Fills the table at a function, after those that it calls, `fuel` calls deep at most.
fn fill(code: &CodeParts, own: &[u64], needs: &mut Vec<u64>, function: u32, fuel: usize)
    requires function { function < length (plain_code code.now).functions }
    requires own { length own.now ≡ length (plain_code code.now).functions }
    requires long { length needs.old.items ≡ length (plain_code code.now).functions }
    ensures { length needs.new.items ≡ length needs.old.items }
{
    if fuel == 0 || needs[function as usize] != 0 {
        return;
    }
    let block = &code.functions[function as usize];
    for step in &block.steps {
        if let Instruction::Call { function } = *step {
            if (function as usize) < needs.len() {
                fill(code, own, needs, function, fuel - 1);
            }
        }
    }
    needs[function as usize] = own[function as usize].saturating_add(most_called(block, needs));
}

/// Whether the table has enough for a function.
fn is_enough(code: &CodeParts, own: u64, needs: &[u64], function: u32) -> bool
    requires function { function < length (plain_code code.now).functions }
    requires own { IsFrame (plain_code code.now) (block_of_function (plain_code code.now) function) own }
    ensures { result ≡ true → Enough (plain_code code.now) (block_of_function (plain_code code.now) function) needs.now
        (get_or needs.now function 0) }
{
    match whole_need(code, &code.functions[function as usize], own, needs) {
        Some(need) => need <= need_at(needs, function),
        None => false,
    }
}

/// What each function needs, for a frame of its own and all that it calls.
fn needs_of(alloc: Global, code: &CodeParts, pars: &Pars) -> Result<Vec<u64>, OutOfMemory>
    requires valid { IsValidCode (plain_code code.now) }
    requires pars { HavePars (plain_code code.now).shape pars.now }
    ensures { IfOk result (λ needs. AreEnough (plain_code code.now) needs.items) }
{
    let count = u32::try_from(code.functions.len()).map_err(|_| OutOfMemory)?;
    let own = frame_needs(alloc, code, pars)?;
    let mut needs = vec![in alloc; 0; count as usize]?;
    for function in 0..count {
        fill(code, &own, &mut needs, function, count as usize);
    }
    for function in 0..count {
        if !is_enough(code, own[function as usize], &needs, function) {
            return Err(OutOfMemory);
        }
    }
    Ok(needs)
}

/// The same for a frame of the block that calls any of these variables' combine functions.
fn combine_need(
    code: &CodeParts,
    block: &Block,
    own: u64,
    uses: &[u32],
    needs: &[u64],
) -> Option<u64>
    requires own { IsFrame (plain_code code.now) (plain_block block.now) own }
    ensures { IfSome result (λ n. EnoughToCombine (plain_code code.now) (plain_block block.now) uses.now needs.now n) }
{
    own.checked_add(most_combined(&code.shape, uses, needs))
}

/// What all runs of a thread need that has this block and uses these variables.
fn runs_need(code: &CodeParts, block: &Block, own: u64, uses: &[u32], needs: &[u64]) -> Option<u64>
    requires own { IsFrame (plain_code code.now) (plain_block block.now) own }
    ensures { IfSome result (λ n. EnoughFor (plain_code code.now) (plain_block block.now) uses.now needs.now n) }
{
    let frame = whole_need(code, block, own, needs)?;
    let combine = combine_need(code, block, own, uses, needs)?;
    Some(frame.max(combine))
}

/// So many numbers are enough for all runs of a thread that has this block and uses these variables.
///
/// # Errors
///
/// Out of memory, also where they are too many to count.
pub fn thread_need(
    alloc: Global,
    code: &CodeParts,
    block: &Block,
    uses: &[u32],
    needs: &Needs,
) -> Result<u64, OutOfMemory>
    requires sound { IsSoundIn (plain_code code.now) (plain_block block.now) }
    requires pars { HavePars (plain_code code.now).shape needs.now.pars }
    ensures { IfOk result (λ n. EnoughFor (plain_code code.now) (plain_block block.now) uses.now needs.now.each.items
        n) }
{
    let own = frame_need(alloc, code, &needs.pars, block)?;
    match runs_need(code, block, own, uses, &needs.each) {
        Some(need) => Ok(need),
        None => Err(OutOfMemory),
    }
}
