//! The bound of a tick.

ghost use Rattle.std.specs.Prelude.{◌≡◌, IfOk};
ghost use Rattle.forec_kernel.specs.Shapes.{plain_kernel};
ghost use Rattle.tick_bounds.specs.Bound.{worst_case};
ghost use Rattle.tick_bounds.specs.Capped as plain;

use crate::functions::function_bounds;
use crate::scope::thread_bound;
use crate::threads::thread_bounds;
use forec_base::{MAX_BUDGET, OutOfMemory};
use forec_kernel::Kernel;
use std::alloc::Global;

fn as_budget(bound: u64) -> Option<u64>
    ensures { result ≡ plain.as_budget bound }
{
    if bound <= MAX_BUDGET {
        Some(bound)
    } else {
        None
    }
}

/// The bound of a kernel's ticks, in units: the worst case of one. None where it is past the greatest budget.
///
/// Each int function and each thread is looked at once, so the time is that of the kernel's size and of what its pars
/// combine, however often functions are called.
///
/// # Errors
///
/// Out of memory.
pub fn tick_bound(alloc: Global, kernel: &Kernel) -> Result<Option<u64>, OutOfMemory>
    ensures { IfOk result (λ bound. bound ≡ plain.as_budget (worst_case (plain_kernel kernel.now))) }
{
    let functions = function_bounds(alloc, kernel)?;
    let threads = thread_bounds(alloc, kernel, functions.as_slice())?;
    Ok(as_budget(thread_bound(threads.as_slice(), 0)))
}
