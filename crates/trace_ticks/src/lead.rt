//! What the calling thread does while workers serve.

ghost use Rattle.forec_kernel.specs.Shapes.{PlainShape, PlainKernel};
ghost use Rattle.trace_ticks.specs.Ticking.{CanLead, DidFromStart};
ghost use Rattle.trace_ticks.specs.declared.status.Status.{Status};

use crate::setting::Company;
use crate::status::Status;
use crate::ticker::Ticker;
use core_seats::Serve;
use forec_base::Gate;
use std::sync::Wait;

/// What the calling thread does with a ticker while workers serve: a run over a trace, or over the rows of a
/// workload.
pub trait Lead {
    /// It can be done with a program of this shape.
    ghost can: { Self → PlainShape → Type 0 };

    /// It was done with a kernel, and ended so.
    ghost did: { Self → Self → PlainKernel → Status → Type 0 };

    /// Does it, by a ticker that stands at the start of its program and has all the memory that its ticks need.
    fn lead<T: Ticker, O: Serve, G: Gate, R: Wait>(
        &mut self,
        company: &mut Company<'_, O, G, R>,
        ticker: &mut T,
    ) -> Status
        requires { CanLead (can self.old) (T.shape ticker.old) (T.live ticker.old) (T.ready ticker.old) }
        ensures { DidFromStart (T.shape ticker.old) (T.follows ticker.old) (did self.old self.new) result };
}
