//! What a step of a focus comes to.

ghost use Rattle.std.specs.Prelude.{◌≡◌, ◌<◌, ◌+◌, ℕ, ℤ, IfOk, position, ◌==◌};
ghost use Rattle.forec_kernel.specs.Texts as plain;
ghost use Rattle.forec_kernel.specs.Texts.{put_copy};

use forec_kernel::{Spot, VarCopy};
use running_threads::NextText;

/// What a step of a focus comes to: nothing is left of it; or it waits; or a number goes to a word or to a
/// copy, zeros go to words, or the parent's copies are combined; or another text takes its place. An element is
/// set by `SetsAt` where it is a word, and by `Puts` where it is a copy.
#[derive(Drop)]
pub enum Step<'k> {
    Finishes,
    Halts,
    Sets { to: Spot, value: i32 },
    SetsAt { slot: usize, value: i32 },
    Puts { variable: usize, value: i32 },
    Clears { slot: u32, length: u32 },
    Joins { copies: Vec<VarCopy> },
    Becomes { next: NextText<'k> },
}

/// Where a variable stands among those that a thread uses.
fn place_of(uses: &[u32], variable: usize) -> Option<usize>
    ensures { result ≡ position (λ u. u == variable) uses.now }
{
    uses.iter().position(|u| *u as usize == variable)
}

/// Puts a copy of a variable in its place among those of a thread; without such a place nothing changes.
pub fn set_copy(uses: &[u32], copies: &mut Vec<VarCopy>, variable: usize, copy: VarCopy)
    ensures { copies.new.items ≡ put_copy uses.now copies.old.items variable copy }
{
    if let Some(at) = place_of(uses, variable) {
        if at < copies.len() {
            copies[at] = copy;
        }
    }
}
