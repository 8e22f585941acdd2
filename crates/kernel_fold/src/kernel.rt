//! The kernel with its constants folded.

ghost use Rattle.std.specs.Prelude.{◌≡◌, map, IfOk};
ghost use Rattle.forec_kernel.specs.Plain.{stmt};
ghost use Rattle.forec_kernel.specs.Shapes.{plain_kernel};
ghost use Rattle.bound_laws.specs.Paced.{Paced};
ghost use Rattle.fold_laws.specs.Folding.{fold_stmt, IsFoldedKernel};
ghost use Rattle.fold_laws.specs.Laws.{RunsAsBefore, TakesNoMoreUnits};

use crate::statements::fold_statement;
use forec_base::OutOfMemory;
use forec_kernel::{Kernel, KernelParts, Statement, copy_shape};
use std::alloc::Global;

fn fold_bodies(alloc: Global, bodies: &[Statement]) -> Result<Vec<Statement>, OutOfMemory>
    ensures { IfOk result (λ k. map stmt k.items ≡ map fold_stmt (map stmt bodies.now)) }
{
    let mut folded = Vec::new(alloc);
    for body in bodies {
        folded.push(fold_statement(alloc, body)?)?;
    }
    Ok(folded)
}

/// The kernel with its constants folded. Its runs are those of the kernel up to the first tick that is over there, and
/// until then no tick takes more units. Where no loop of the kernel runs on for ever within a tick, none does here.
///
/// # Errors
///
/// Out of memory.
pub fn fold(alloc: Global, kernel: &Kernel) -> Result<Kernel, OutOfMemory>
    ensures kernel { IfOk result (λ k. IsFoldedKernel (plain_kernel kernel.now) (plain_kernel k)) }
    ensures runs { IfOk result (λ k. RunsAsBefore (plain_kernel kernel.now) (plain_kernel k)) }
    ensures units { IfOk result (λ k. TakesNoMoreUnits (plain_kernel kernel.now) (plain_kernel k)) }
    ensures paced { IfOk result (λ k. Paced (plain_kernel kernel.now) → Paced (plain_kernel k)) }
{
    let parts = kernel.parts();
    let shape = copy_shape(alloc, &parts.shape)?;
    let threads = fold_bodies(alloc, &parts.threads)?;
    let functions = fold_bodies(alloc, &parts.functions)?;
    Ok(Kernel::of(KernelParts {
        shape,
        threads,
        functions,
    }))
}
