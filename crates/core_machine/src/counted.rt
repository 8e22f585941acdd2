//! The copies of a branch that count when they are combined.

ghost use Rattle.std.specs.Prelude.{◌≡◌, ◌≤◌, true, length};
ghost use Rattle.forec_base.specs.declared.Policy.TheVariants as policy;
ghost use Rattle.forec_kernel.specs.Combining.{variable_of};
ghost use Rattle.forec_kernel.specs.Shapes.{plain_shape};
ghost use Rattle.thread_code.specs.Valid.{of_shape};
ghost use Rattle.core_machine.specs.Counting.{ArePassed};

use forec_base::Policy;
use forec_kernel::{Shape, VarCopy};

/// Whether of a variable only marked copies are combined; past the last variable it is so.
#[inline(always)]
pub(crate) fn marks_alone(shape: &Shape, variable: u32) -> bool
    ensures { result ≡ true → (variable_of (of_shape (plain_shape shape.now)) variable).policy ≡ policy.Mod }
{
    match shape.variables.get(variable as usize) {
        Some(found) => found.policy == Policy::Mod,
        None => true,
    }
}

/// The first place from `from` on whose copy is marked, or of whose variable others are combined too; the length where
/// there is none.
#[inline(always)]
pub(crate) fn next_counted(shape: &Shape, uses: &[u32], copies: &[VarCopy], from: usize) -> usize
    requires long { length uses.now ≡ length copies.now }
    requires from { from ≤ length copies.now }
    ensures from { from ≤ result }
    ensures within { result ≤ length copies.now }
    ensures passed { ArePassed (of_shape (plain_shape shape.now)) uses.now copies.now from result }
{
    let variables = &uses[..copies.len()];
    for i in from..copies.len() {
        if copies[i].modified || !marks_alone(shape, variables[i]) {
            return i;
        }
    }
    copies.len()
}
