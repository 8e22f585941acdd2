//! What a run over a trace needs beside its ticker and its streams.

ghost use Rattle.forec_base.specs.declared.limits.TheConstants.{MAX_BUDGET, MAX_ROWS};
ghost use Rattle.std.specs.Prelude.{◌≤◌, ◌≡◌, IfOk};
ghost use Rattle.forec_kernel.specs.Shapes.{plain_shape};
ghost use Rattle.trace_ticks.specs.Formats.{format_for};
ghost use Rattle.trace_ticks.specs.KernelNames.{IsNamed, outputs_of};
ghost use Rattle.trace_ticks.specs.Sessions.{IsSessionOf};
ghost use Rattle.trace_ticks.specs.Workload.{zero_row};

use crate::format::{Format, Telling};
use crate::image::Image;
use crate::names::pick_names;
use crate::waiting::Waiting;
use forec_base::{Labels, OutOfMemory};
use forec_kernel::Shape;
use std::alloc::Global;

/// What a run over a trace needs beside its ticker and its streams.
#[derive(Drop)]
pub struct Session {
    /// The names of the inputs, in order of declaration.
    pub inputs: Labels,
    pub image: Image,
    /// How many units a tick may have, at most 2^62.
    pub budget: u64,
    /// How many rows are run, at most 1,000,000,000.
    pub limit: u64,
    /// The lines that were not written yet.
    pub waiting: Waiting,
}

impl Session {
    /// For a run of a program of this shape, of which no line was written yet, and which tells this. A tick may have so
    /// many units, and so many rows are run.
    ///
    /// # Errors
    ///
    /// Out of memory.
    pub fn new(
        alloc: Global,
        shape: &Shape,
        telling: Telling,
        budget: u64,
        limit: u64,
    ) -> Result<Session, OutOfMemory>
        requires named { IsNamed (plain_shape shape.now) }
        requires small { budget ≤ MAX_BUDGET }
        requires rows { limit ≤ MAX_ROWS }
        ensures session { IfOk result (IsSessionOf (plain_shape shape.now)) }
        ensures budget { IfOk result (λ s. s.budget ≡ budget) }
        ensures limit { IfOk result (λ s. s.limit ≡ limit) }
        ensures format { IfOk result (λ s. s.waiting.format ≡ format_for telling (outputs_of (plain_shape shape.now))) }
        ensures zeros { IfOk result (λ s. s.image.inputs.items ≡ zero_row (plain_shape shape.now)) }
    {
        let inputs = pick_names(alloc, &shape.names, &shape.inputs)?;
        let outputs = pick_names(alloc, &shape.names, &shape.outputs)?;
        let waiting = Waiting::new(alloc, Format::new(alloc, telling, outputs)?)?;
        let image = Image::new(alloc, shape.inputs.len(), shape.outputs.len())?;
        Ok(Session {
            inputs,
            image,
            budget,
            limit,
            waiting,
        })
    }
}
