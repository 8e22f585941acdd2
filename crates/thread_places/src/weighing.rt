//! The weights of a kernel's threads.

ghost use Rattle.std.specs.Prelude.{◌≡◌, ◌≤◌, length, sum, IfOk};
ghost use Rattle.forec_base.specs.declared.limits.TheConstants.{MAX_TERMS, MAX_THREADS};
ghost use Rattle.forec_kernel.specs.Shapes.{plain_kernel};
ghost use Rattle.thread_places.specs.Placed.{weights_of};

use forec_base::OutOfMemory;
use forec_kernel::Kernel;
use std::alloc::Global;

/// The weight of each thread of a kernel, in the order of their numbers: the statements of its body other than
/// `nop` and sequences, and its expression nodes. Together they are at most the limit of terms.
///
/// # Errors
///
/// Out of memory.
pub fn weights(alloc: Global, kernel: &Kernel) -> Result<Vec<u64>, OutOfMemory>
    ensures weights { IfOk result (λ list. list.items ≡ weights_of (plain_kernel kernel.now)) }
    ensures few { IfOk result (λ list. sum list.items ≤ MAX_TERMS) }
    ensures count { IfOk result (λ list. length list.items ≤ MAX_THREADS) }
{
    let threads = kernel.shape().threads.len();
    let mut list = Vec::new(alloc);
    for thread in 0..threads {
        list.push(kernel.weight(thread as u32))?;
    }
    Ok(list)
}
