//! A run over a trace.

use crate::lead::Lead;
use crate::session::Session;
use crate::setting::Company;
use crate::status::Status;
use crate::ticker::Ticker;
use crate::ticks::run;
use core_seats::Serve;
use forec_base::{Gate, Sink, Source};
use std::alloc::Global;
use std::sync::Wait;

/// A run over a trace: its session, and its streams.
#[derive(Drop)]
pub struct TraceRun<'a, 'b, 'c, S, K> {
    pub alloc: Global,
    pub session: &'a mut Session,
    pub trace: &'b mut S,
    pub out: &'c mut K,
}

impl<'a, 'b, 'c, S: Source, K: Sink> Lead for TraceRun<'a, 'b, 'c, S, K> {
    ghost use Rattle.std.specs.Prelude.{◌≡◌};
    ghost use Rattle.trace_ticks.specs.Led.{RunsRows};
    ghost use Rattle.trace_ticks.specs.Sessions.{IsSessionOf};

    ghost can = { λ run shape. IsSessionOf shape run.session.now };

    ghost did = { λ old new k end. (new.trace.ghost_name ≡ old.trace.ghost_name)
        × (new.out.ghost_name ≡ old.out.ghost_name)
        × RunsRows S.left S.faults S.down K.held K.faults K.down old.session.now.limit
        old.session.now.waiting.format k old.session.now.budget ⊥
        old.trace.now new.trace.now old.out.now new.out.now end };

    fn lead<T: Ticker, O: Serve, G: Gate, R: Wait>(
        &mut self,
        company: &mut Company<'_, O, G, R>,
        ticker: &mut T,
    ) -> Status {
        run(
            self.alloc,
            company,
            ticker,
            self.session,
            self.trace,
            self.out,
        )
    }
}
