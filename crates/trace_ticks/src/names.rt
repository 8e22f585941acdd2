//! Names of variables.

ghost use Rattle.std.specs.Prelude.{◌≡◌, ◌<◌, ◌≤◌, ◌^◌, length, IfOk, IsTrue};
ghost use Rattle.forec_kernel.specs.WellFormed.{all_below};
ghost use Rattle.trace_ticks.specs.KernelNames.{names_at};

use forec_base::{Labels, OutOfMemory};
use std::alloc::Global;

/// The names of these variables, which are at most 64.
pub fn pick_names(alloc: Global, names: &Labels, variables: &[u32]) -> Result<Labels, OutOfMemory>
    requires named { IsTrue (all_below (length names.now) variables.now) }
    requires few { length variables.now ≤ 64 }
    ensures { IfOk result (λ l. l ≡ names_at names.now variables.now) }
{
    let mut picked = Labels::new(alloc)?;
    for variable in variables {
        picked.push(names.get(*variable))?;
    }
    Ok(picked)
}
