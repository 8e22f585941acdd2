//! What runs a code: hosts beside one another, one host by itself, or one core alone.

ghost use Rattle.std.specs.Prelude.{◌≡◌, true};
ghost use Rattle.core_host.specs.Hosted.{is_here};

use copy_slots::Port;
use core_host::Host;
use core_seats::{ForecWork, Serve};
use forec_base::{Gate, OutOfMemory};
use forec_kernel::Outcome;
use one_core::OneCore;
use std::sync::Wait;
use trace_ticks::{Company, Ticker};

/// The host of thread 0, which ticks beside the hosts of other cores.
#[derive(Drop)]
pub struct Root<'c, P: Port<ForecWork> + Drop> {
    pub host: Host<'c, P>,
    ghost root: { is_here host 0 ≡ true },
}

/// A ticker that has workers.
pub trait StopWorkers {
    /// Tells the workers to stop.
    fn stop(&mut self);
}

impl<'c, P: Port<ForecWork> + Drop> StopWorkers for Root<'c, P> {
    fn stop(&mut self) {
        self.host.stop();
    }
}

impl<'c, P: Port<ForecWork> + Drop> Ticker for Root<'c, P> {
    ghost use Rattle.std.specs.Prelude.{◌≡◌, true};
    ghost use Rattle.core_host.specs.Hosted.{code_of, is_live};
    ghost use Rattle.trace_tickers.specs.Hosting.{HostFollows};

    ghost shape = { λ r. (code_of r.host).shape };

    ghost follows = { λ r. HostFollows r.host };

    ghost live = { λ r. is_live r.host ≡ true };

    ghost ready = { λ r. true };

    fn tick<O: Serve, G: Gate, R: Wait>(
        &mut self,
        company: &mut Company<'_, O, G, R>,
        row: &[i32],
        budget: u64,
        outputs: &mut [i32],
    ) -> Result<Outcome, OutOfMemory> {
        Ok(
            self.host.tick(
                company.rt,
                row,
                budget,
                company.others,
                company.gate,
                outputs,
            ),
        )
    }
}

/// A host that has all threads, and ticks by itself: the one that a log of exchanges and the runs of a farm stand on.
#[derive(Drop)]
pub struct Alone<'c, P: Port<ForecWork> + Drop> {
    pub host: Host<'c, P>,
}

impl<'c, P: Port<ForecWork> + Drop> Ticker for Alone<'c, P> {
    ghost use Rattle.std.specs.Prelude.{◌≡◌, true};
    ghost use Rattle.core_host.specs.Hosted.{code_of, is_live, IsWhole};
    ghost use Rattle.trace_tickers.specs.Hosting.{HostFollows};

    ghost shape = { λ a. (code_of a.host).shape };

    ghost follows = { λ a. HostFollows a.host };

    ghost live = { λ a. IsWhole a.host × (is_live a.host ≡ true) };

    ghost ready = { λ a. true };

    fn tick<O: Serve, G: Gate, R: Wait>(
        &mut self,
        company: &mut Company<'_, O, G, R>,
        row: &[i32],
        budget: u64,
        outputs: &mut [i32],
    ) -> Result<Outcome, OutOfMemory> {
        Ok(self.host.alone(row, budget, company.gate, outputs))
    }
}

/// One core that has all threads, with nobody beside it.
#[derive(Drop)]
pub struct OnOneCore<'c> {
    pub core: OneCore<'c>,
}

impl<'c> Ticker for OnOneCore<'c> {
    ghost use Rattle.std.specs.Prelude.{◌≡◌, true};
    ghost use Rattle.one_core.specs.Single.{single_code, single_is_live};
    ghost use Rattle.trace_tickers.specs.Hosting.{OneFollows};

    ghost shape = { λ s. (single_code s.core).shape };

    ghost follows = { λ s. OneFollows s.core };

    ghost live = { λ s. single_is_live s.core ≡ true };

    ghost ready = { λ s. true };

    fn tick<O: Serve, G: Gate, R: Wait>(
        &mut self,
        company: &mut Company<'_, O, G, R>,
        row: &[i32],
        budget: u64,
        outputs: &mut [i32],
    ) -> Result<Outcome, OutOfMemory> {
        Ok(self.core.tick(row, budget, company.gate, outputs))
    }
}
