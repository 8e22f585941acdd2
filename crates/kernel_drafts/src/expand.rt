//! The threads of a program, with all functions that are called as statements inlined.

ghost use Rattle.std.specs.Prelude.{◌≡◌, length, IfOk};
ghost use Rattle.loop_check.specs.Views.{indexed_text};
ghost use Rattle.lower_names.specs.Views.{OneText};
ghost use Rattle.kernel_drafts.specs.Drafts.{Expanded};

use body_lower::{FUEL, inlined, threads_below};
use forec_base::OutOfMemory;
use forec_kernel::Statement;
use lower_names::{Context, Source, State, Thread};
use std::alloc::Global;

/// The body of thread 0, how many words it has, and the threads below it, in the order of their numbers.
#[derive(Drop)]
pub struct Bodies {
    pub main: Statement,
    pub words: u32,
    pub threads: Vec<Thread>,
}

/// Puts the function of a name in place as thread 0.
pub fn expand(
    alloc: Global,
    source: &Source<'_>,
    deep: usize,
    first: u32,
) -> Result<Bodies, OutOfMemory>
    requires text { OneText source.now }
    requires deep { deep ≡ length (indexed_text source.now.globals.index) }
    ensures { IfOk result (λ b. Expanded (indexed_text source.now.globals.index) first b) }
{
    let mut state = State::new(alloc);
    let context = Context {
        alloc,
        source,
        deep,
        owner: 0,
    };
    let main = inlined(&context, FUEL, 0, &mut state, first)?;
    let words = state.slot;
    let threads = threads_below(alloc, source, state)?;
    Ok(Bodies {
        main,
        words,
        threads,
    })
}
