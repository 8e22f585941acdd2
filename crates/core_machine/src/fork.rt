//! The instruction at which branches wait, and their arguments.

ghost use Rattle.std.specs.Prelude.{◌≡◌, ◌≤◌, ◌<◌, Some, length, slice_get};
ghost use Rattle.thread_code.specs.Plain.{plain_code};
ghost use Rattle.thread_code.specs.Alone.{block_of};
ghost use Rattle.core_machine.specs.Branches.{instruction_of};
ghost use Rattle.core_machine.specs.Forks.{IsFork};
ghost use Rattle.thread_state.specs.Frames.{args_from};

use thread_code::{CodeParts, Instruction};
use thread_state::Stack;
use thread_steps::block_run::block_at;

/// The number of the `par`, the address at which the thread goes on while a branch has not ended, and
/// whether the fork was held.
#[derive(Clone, Copy)]
pub struct ForkAt {
    pub par: u32,
    pub to: u32,
    pub again: bool,
}

/// The fork at an address of a thread's block.
pub fn fork_at(code: &CodeParts, thread: u32, at: u32) -> ForkAt
    requires thread { thread < length (plain_code code.now).threads }
    requires fork { IsFork (plain_code code.now) thread at }
    ensures { slice_get (block_of (plain_code code.now) thread).steps at ≡ Some (instruction_of result) }
{
    match block_at(code, thread, None).steps[at as usize] {
        Instruction::Fork { par, to } => ForkAt {
            par,
            to,
            again: false,
        },
        Instruction::Again { par, to } => ForkAt {
            par,
            to,
            again: true,
        },
        _ => unreachable!(),
    }
}

/// Copies arguments off a stack that has `count` of them on top, from the deepest on.
pub fn write_args(stack: &Stack, count: usize, args: &mut [i32])
    requires within { length args.old ≤ count }
    requires stack { count ≤ length stack.now.stack }
    ensures { args.new ≡ args_from count 0 (length args.old) stack.now.stack }
{
    for i in 0..args.len() {
        args[i] = stack.below_top(count - 1 - i);
    }
}
