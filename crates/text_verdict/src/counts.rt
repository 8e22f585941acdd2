//! What `check` counts of a program.

ghost use Rattle.std.specs.Prelude.{◌≡◌, ◌≤◌, IfOk};
ghost use Rattle.forec_tree.specs.Threads.{instances};
ghost use Rattle.forec_check.specs.Instances.{main_number};
ghost use Rattle.forec_check.specs.Checked.{checked_text, names_of};
ghost use Rattle.text_verdict.specs.Counting.{counts_of};

use forec_base::{MAX_THREADS, OutOfMemory};
use forec_check::Checked;
use std::alloc::Global;

/// The thread instances of a program, its inputs and its outputs, shared ones among them.
#[derive(Clone, Copy, Debug, PartialEq, Eq)]
pub struct Counts {
    pub threads: u64,
    pub inputs: usize,
    pub outputs: usize,
}

/// Counts a program that has not too many threads, in time linear in its text.
pub fn count(alloc: Global, checked: &Checked<'_>) -> Result<Counts, OutOfMemory>
    requires { instances (checked_text checked.now) (main_number (names_of checked.now) (checked_text checked.now))
        ≤ MAX_THREADS }
    ensures { IfOk result (λ c. c ≡ counts_of (checked_text checked.now) (names_of checked.now)) }
{
    let threads = checked.threads(alloc)?;
    Ok(Counts {
        threads,
        inputs: checked.inputs(),
        outputs: checked.outputs(),
    })
}
