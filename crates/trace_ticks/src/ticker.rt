//! What runs programs, tick by tick.

ghost use Rattle.std.specs.Prelude.{◌≡◌, ◌≤◌, List, Bool, true, false, length, IfOk, OnErr};
ghost use Rattle.forec_base.specs.declared.limits.TheConstants.{MAX_BUDGET};
ghost use Rattle.forec_kernel.specs.Composed.{TickInput};
ghost use Rattle.forec_kernel.specs.Shapes.{PlainShape, PlainKernel};
ghost use Rattle.forec_kernel.specs.Ticks.{goes_on};
ghost use Rattle.trace_ticks.specs.Ticking.{RunsOnce};

use crate::setting::Company;
use core_seats::Serve;
use forec_base::{Gate, OutOfMemory};
use forec_kernel::Outcome;
use std::sync::Wait;

/// What runs a program from its start, tick by tick: hosts of its threads, one core that has them all, or the
/// rewriting of a kernel's texts.
pub trait Ticker {
    /// The shape of the program.
    ghost shape: { Self → PlainShape };

    /// It runs this kernel, and so far it has run these ticks of it. What runs a code runs each kernel for which the
    /// code stands.
    ghost follows: { Self → PlainKernel → List TickInput → Type 0 };

    /// A further tick can be run: each so far has paused.
    ghost live: { Self → Type 0 };

    /// It has all the memory that its ticks need.
    ghost ready: { Self → Bool };

    /// Runs one tick, over a row of the inputs' values in order of declaration, which may have so many units. Where
    /// the tick pauses or ends the outputs get their values. Hosts pass the gate, and while one waits the others are
    /// served.
    ///
    /// # Errors
    ///
    /// Out of memory, but not where it has all that its ticks need.
    fn tick<O: Serve, G: Gate, R: Wait>(
        &mut self,
        company: &mut Company<'_, O, G, R>,
        row: &[i32],
        budget: u64,
        outputs: &mut [i32],
    ) -> Result<Outcome, OutOfMemory>
        requires going { live self.old }
        requires small { budget ≤ MAX_BUDGET }
        requires row { length row.now ≡ length (shape self.old).inputs }
        requires outputs { length outputs.old ≡ length (shape self.old).outputs }
        ensures shape { shape self.new ≡ shape self.old }
        ensures ready { ready self.new ≡ ready self.old }
        ensures tick { IfOk result (RunsOnce (follows self.old) (follows self.new) (record {
          row = row.now;
          budget =
              budget;
        }) outputs.new) }
        ensures live { IfOk result (λ o. goes_on o ≡ true → live self.new) }
        ensures memory { OnErr result (ready self.old ≡ false) };
}
