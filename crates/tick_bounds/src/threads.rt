//! The bounds of threads, from the last to the first: branches have greater numbers than their parent.

ghost use Rattle.std.specs.Prelude.{◌≡◌, ℕ, replicate, IfOk};
ghost use Rattle.forec_kernel.specs.Shapes.{plain_kernel};
ghost use Rattle.tick_bounds.specs.Bound as plain;
ghost use Rattle.tick_bounds.specs.Capped.{capped, at_table};
ghost use Rattle.tick_bounds.specs.Known.{HoldsBounds};

use crate::bodies::statement_bound;
use crate::scope::{Scope, uses_of};
use forec_base::OutOfMemory;
use forec_kernel::Kernel;
use std::alloc::Global;

fn zeros(alloc: Global, count: usize) -> Result<Vec<u64>, OutOfMemory>
    ensures { IfOk result (λ table. table.items ≡ replicate count 0) }
{
    Ok(vec![in alloc; 0; count]?)
}

/// The bound of each thread, with those of all int functions.
pub fn thread_bounds(
    alloc: Global,
    kernel: &Kernel,
    functions: &[Option<u64>],
) -> Result<Vec<u64>, OutOfMemory>
    requires { (g : ℕ) → HoldsBounds (plain_kernel kernel.now) functions.now g }
    ensures { IfOk result (λ table. (t : ℕ) → at_table table.items t
        ≡ capped (plain.thread_bound (plain_kernel kernel.now) t)) }
{
    let bodies = kernel.parts().threads.as_slice();
    let mut bounds = zeros(alloc, bodies.len())?;
    for thread in (0..bodies.len()).rev() {
        let scope = Scope {
            kernel,
            uses: uses_of(kernel, thread),
            functions,
            threads: bounds.as_slice(),
        };
        let bound = statement_bound(&scope, &bodies[thread]);
        bounds[thread] = bound;
    }
    Ok(bounds)
}
