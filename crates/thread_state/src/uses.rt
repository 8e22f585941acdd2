//! The variables that each thread of a code uses, in one list.

ghost use Rattle.std.specs.Prelude.{◌≡◌, ◌<◌, [], length, map, get_or, IfOk};

use forec_base::OutOfMemory;
use forec_kernel::ThreadShape;
use std::alloc::Global;
use std::marker::Model;

/// The variables of each thread lie behind those of the thread before it.
#[derive(Drop)]
pub struct Uses {
    /// Where those of each thread start, and where the last ones end.
    starts: Vec<u32>,
    variables: Vec<u32>,
}

impl Model for Uses {
    ghost use Rattle.std.specs.Prelude.{List, ℕ, length};
    ghost use Rattle.thread_state.specs.Parts.{parts, RiseTo};

    ghost Value = { List (List ℕ) };

    ghost view = { λ u. parts u.starts.items u.variables.items };

    ghost invariant = { λ u. RiseTo (length u.variables.items) u.starts.items };
}

impl Uses {
    /// Those of these threads.
    ///
    /// # Errors
    ///
    /// Out of memory.
    pub fn new(alloc: Global, threads: &[ThreadShape]) -> Result<Uses, OutOfMemory>
        ensures { IfOk result (λ uses. uses ≡ map (λ t. t.uses.items) threads.now) }
    {
        let mut starts = vec![in alloc; 0; 1]?;
        let mut variables = Vec::new(alloc);
        for thread in threads {
            variables.extend_from_slice(&thread.uses)?;
            let end = u32::try_from(variables.len()).map_err(|_| OutOfMemory)?;
            starts.push(end)?;
        }
        Ok(Uses { starts, variables })
    }

    /// The variables of a thread.
    pub fn of(&self, thread: u32) -> &[u32]
        requires { thread < length self.now }
        ensures { result.now ≡ get_or self.now thread [] }
    {
        let from = self.starts[thread as usize] as usize;
        let to = self.starts[thread as usize + 1] as usize;
        &self.variables[from..to]
    }

    /// The variable at a place among those of a thread.
    pub fn at(&self, thread: u32, place: usize) -> u32
        requires { place < length (get_or self.now thread []) }
        ensures { result ≡ get_or (get_or self.now thread []) place 0 }
    {
        self.variables[self.starts[thread as usize] as usize + place]
    }
}
