//! A program that is rewritten.

ghost use Rattle.std.specs.Prelude.{◌≡◌, IfOk, true, length};
ghost use Rattle.forec_kernel.specs.Shapes.{plain_kernel};
ghost use Rattle.forec_kernel.specs.Ticks.{Fresh, goes_on};
ghost use Rattle.tick_jobs.specs.Outcomes.{HasOutputs};
ghost use Rattle.kernel_meaning.specs.States.{plain_state};

use crate::orders::order;
use core_seats::Serve;
use forec_base::{Gate, OutOfMemory};
use forec_kernel::{Kernel, Outcome};
use kernel_meaning::{State, rewrite_tick};
use std::alloc::Global;
use std::sync::Wait;
use trace_ticks::{Company, Ticker};

/// A program that runs by rewriting: its kernel, where it stands, the order of the steps of each tick, and whether
/// each tick so far has paused.
#[derive(Drop)]
pub struct Rewriter<'k> {
    pub kernel: &'k Kernel,
    pub state: Box<State<'k>>,
    pub order: Vec<u32>,
    pub live: bool,
    pub alloc: Global,
}

impl<'k> Rewriter<'k> {
    ghost use Rattle.trace_tickers.specs.Rewriting.{rewritten};

    /// Nothing has run. Each tick takes its steps in the order with a number.
    pub fn new(alloc: Global, kernel: &'k Kernel, number: u32) -> Result<Rewriter<'k>, OutOfMemory>
        ensures kernel { IfOk result (λ r. r.kernel.now ≡ kernel.now) }
        ensures state { IfOk result (λ r. plain_state r.state.value ≡ Fresh) }
        ensures live { IfOk result (λ r. r.live ≡ true) }
    {
        let state = Box::new(alloc, State::first(alloc, kernel)?)?;
        let order = order(alloc, number)?;
        Ok(Rewriter {
            kernel,
            state,
            order,
            live: true,
            alloc,
        })
    }

    /// Runs one tick, over a row of the inputs' values in order of declaration, which may have so many units. Where
    /// it pauses or ends the outputs get their values.
    ///
    /// # Errors
    ///
    /// Out of memory.
    fn rewrite(
        &mut self,
        row: &[i32],
        budget: u64,
        outputs: &mut [i32],
    ) -> Result<Outcome, OutOfMemory>
        requires { length outputs.old ≡ length (plain_kernel self.old.kernel.now).shape.outputs }
        ensures kernel { self.new.kernel.now ≡ self.old.kernel.now }
        ensures outcome { IfOk result (λ o. o ≡ (rewritten self.old budget row.now).outcome) }
        ensures outputs { IfOk result (λ o. HasOutputs o → outputs.new ≡ (rewritten self.old budget row.now).outputs) }
        ensures state { IfOk result (λ o. plain_state self.new.state.value ≡ (rewritten self.old budget
            row.now).state) }
        ensures live { IfOk result (λ o. self.new.live ≡ goes_on o) }
    {
        let (outcome, state) = rewrite_tick(
            self.alloc,
            self.kernel,
            &self.state,
            row,
            &self.order,
            budget,
            outputs,
        )?;
        self.state = Box::new(self.alloc, state)?;
        self.live = matches!(outcome, Outcome::Paused);
        Ok(outcome)
    }
}

impl<'k> Ticker for Rewriter<'k> {
    ghost use Rattle.std.specs.Prelude.{◌≡◌, true, false};
    ghost use Rattle.forec_kernel.specs.Composed.{state_after};
    ghost use Rattle.forec_kernel.specs.Shapes.{plain_shape, plain_kernel};
    ghost use Rattle.forec_kernel.specs.Ticks.{Fresh};
    ghost use Rattle.kernel_meaning.specs.States.{plain_state};

    ghost shape = { λ r. plain_shape r.kernel.now.shape };

    ghost follows = { λ r k turns. (k ≡ plain_kernel r.kernel.now)
        × (plain_state r.state.value ≡ state_after k Fresh turns) };

    ghost live = { λ r. r.live ≡ true };

    ghost ready = { λ r. false };

    fn tick<O: Serve, G: Gate, R: Wait>(
        &mut self,
        company: &mut Company<'_, O, G, R>,
        row: &[i32],
        budget: u64,
        outputs: &mut [i32],
    ) -> Result<Outcome, OutOfMemory> {
        let _ = company;
        self.rewrite(row, budget, outputs)
    }
}
