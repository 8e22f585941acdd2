//! A run over the rows of a workload.

use crate::generated::run_workload;
use crate::lead::Lead;
use crate::session::Session;
use crate::setting::Company;
use crate::status::Status;
use crate::ticker::Ticker;
use core_seats::Serve;
use forec_base::{Gate, Sink};
use std::sync::Wait;

/// A run of a workload of so many threads: its session, and where the report goes.
#[derive(Drop)]
pub struct WorkloadRun<'a, 'b, K> {
    pub threads: u32,
    pub session: &'a mut Session,
    pub out: &'b mut K,
}

impl<'a, 'b, K: Sink> Lead for WorkloadRun<'a, 'b, K> {
    ghost use Rattle.std.specs.Prelude.{◌≡◌};
    ghost use Rattle.trace_ticks.specs.Prints.{PrintsReport};
    ghost use Rattle.trace_ticks.specs.Sessions.{IsSessionOf};
    ghost use Rattle.trace_ticks.specs.WaitingRoom.{IsPlain};
    ghost use Rattle.trace_ticks.specs.Workload.{ticked_report, zero_row};

    ghost can = { λ run shape. IsSessionOf shape run.session.now
        × (run.session.now.image.inputs.items ≡ zero_row shape)
        × IsPlain run.session.now.waiting };

    ghost did = { λ old new k end. (new.out.ghost_name ≡ old.out.ghost_name)
        × PrintsReport K.held K.faults K.down (ticked_report old.threads k old.session.now.budget) ⊥ old.out.now new.out.now
        end };

    fn lead<T: Ticker, O: Serve, G: Gate, R: Wait>(
        &mut self,
        company: &mut Company<'_, O, G, R>,
        ticker: &mut T,
    ) -> Status {
        let session = &mut *self.session;
        let status = run_workload(
            company,
            ticker,
            &mut session.image,
            self.threads,
            session.budget,
            &mut session.waiting,
        );
        session.waiting.finish(self.out, status)
    }
}
