//! Placements of a kernel's threads.

ghost use Rattle.std.specs.Prelude.{◌≡◌, ◌≤◌, None, length, IfOk, IfErr};
ghost use Rattle.forec_base.specs.declared.limits.TheConstants.{MAX_CORES};
ghost use Rattle.forec_kernel.specs.Shapes.{plain_kernel};
ghost use Rattle.command_words.specs.Requests.{plain_placing};
ghost use Rattle.thread_places.specs.Placed.{IsPlacement, RefusedFor, refusal_of};

use crate::weighing::weights;
use command_words::Placing;
use core_alloc::{PlaceFault, Placement, balance, given};
use forec_kernel::Kernel;
use std::alloc::Global;

/// The placement of a kernel's threads: the list's where one is given, else the balanced one.
///
/// # Errors
///
/// Why the list is refused. Or out of memory.
pub fn place(alloc: Global, kernel: &Kernel, placing: Placing<'_>) -> Result<Placement, PlaceFault>
    requires some { 1 ≤ placing.cores }
    requires few { placing.cores ≤ MAX_CORES }
    ensures placement { IfOk result (λ p. IsPlacement (plain_kernel kernel.now) (plain_placing placing.entry) p) }
    ensures taken { IfOk result
        (λ _. refusal_of (length (plain_kernel kernel.now).threads) (plain_placing placing.entry) ≡ None) }
    ensures refused { IfErr result (RefusedFor (plain_kernel kernel.now) (plain_placing placing.entry)) }
{
    match placing.list {
        Some(list) => {
            let threads = kernel.shape().threads.len() as u32;
            given(alloc, list, threads, placing.cores)
        }
        None => {
            let weights = weights(alloc, kernel)?;
            let placement = balance(alloc, &weights, placing.cores)?;
            Ok(placement)
        }
    }
}
