//! The instructions of a block, as they are written.

ghost use Rattle.std.specs.Prelude.{◌≡◌, ◌≤◌, [], ◌∷◌, ◌++◌, length, OnOk, IfOk};

use forec_base::OutOfMemory;
use thread_code::Instruction;

/// How many instructions a code has at most: where a kernel's code would have more, there is no memory for it.
pub const MOST_INSTRUCTIONS: u32 = 8_388_608;

/// How many instructions a code has at most that has fused steps: a fused step takes as much room as an instruction.
pub const MOST_FUSED: u32 = MOST_INSTRUCTIONS / 2;

/// Writes one more instruction.
pub fn put(steps: &mut Vec<Instruction>, instruction: Instruction) -> Result<(), OutOfMemory>
    ensures { OnOk result (steps.new.items ≡ steps.old.items ++ instruction ∷ []) }
{
    steps.push(instruction)?;
    Ok(())
}

/// The address of the next instruction.
pub fn address(steps: &Vec<Instruction>) -> Result<u32, OutOfMemory>
    ensures at { IfOk result (λ p. p ≡ length steps.now.items) }
    ensures small { IfOk result (λ p. p ≤ 8388608) }
{
    let next = steps.len();
    if next > MOST_INSTRUCTIONS as usize {
        return Err(OutOfMemory);
    }
    Ok(next as u32)
}
