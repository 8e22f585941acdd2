//! A host that keeps what its threads exchange.

ghost use Rattle.std.specs.Prelude.{◌≡◌, length, true, IfOk};
ghost use Rattle.thread_code.specs.Plain.{plain_code};
ghost use Rattle.log_writing.specs.Logging.{IsNewLog, numbers_below};

use copy_slots::LocalPort;
use core_alloc::Placement;
use core_host::Host;
use core_seats::{ForecWork, Serve, local_port};
use exchange_log::LogPort;
use forec_base::{Gate, OutOfMemory};
use forec_kernel::Outcome;
use std::alloc::Global;
use std::marker::Model;
use std::sync::Wait;
use thread_code::Code;
use trace_ticks::{Company, Ticker};

/// A host that has all threads of a code, ticks by itself, and keeps what they exchange.
#[derive(Drop)]
pub struct Logging<'c> {
    pub(crate) code: &'c Code,
    pub(crate) host: Host<'c, LogPort<LocalPort<ForecWork>>>,
}

impl<'c> Model for Logging<'c> {
    ghost use Rattle.core_host.specs.Hosted.{Hosted};
    ghost use Rattle.log_writing.specs.Logging.{IsLogging};

    ghost Value = { Hosted };

    ghost view = { λ l. l.host };

    ghost invariant = { λ l. IsLogging l.code.now l.host };
}

/// The numbers of so many cores.
fn all_cores(alloc: Global, count: u32) -> Result<Vec<u32>, OutOfMemory>
    ensures { IfOk result (λ v. v.items ≡ numbers_below count) }
{
    let mut cores = Vec::new(alloc);
    let mut core = 0;
    while core < count {
        cores.push(core)?;
        core += 1;
    }
    Ok(cores)
}

impl<'c> Logging<'c> {
    /// The threads of a code, placed so, with room for so many words of what they exchange. No tick was run.
    ///
    /// # Errors
    ///
    /// Out of memory.
    pub fn new(
        alloc: Global,
        code: &'c Code,
        placement: &Placement,
        words: usize,
    ) -> Result<Logging<'c>, OutOfMemory>
        requires { length placement.now.places ≡ length (plain_code code.now).threads }
        ensures { IfOk result (IsNewLog code.now) }
    {
        let mailboxes = code.shape().threads.len() - 1;
        let port = local_port(alloc, code)?;
        let port = LogPort::new(alloc, port, mailboxes as u32, words)?;
        let cores = all_cores(alloc, placement.cores())?;
        let host = Host::load(alloc, code, placement, &cores, port)?;
        Ok(Logging { code, host })
    }
}

impl<'c> Ticker for Logging<'c> {
    ghost use Rattle.std.specs.Prelude.{◌≡◌, true};
    ghost use Rattle.core_host.specs.Hosted.{code_of, is_live};
    ghost use Rattle.core_host.specs.Runs.{HostHasRun};
    ghost use Rattle.trace_ticks.specs.Following.{CodeFollows};

    ghost shape = { λ l. (code_of l).shape };

    ghost follows = { λ l. CodeFollows (code_of l) (HostHasRun l) };

    ghost live = { λ l. is_live l ≡ true };

    ghost ready = { λ l. true };

    fn tick<O: Serve, G: Gate, R: Wait>(
        &mut self,
        company: &mut Company<'_, O, G, R>,
        row: &[i32],
        budget: u64,
        outputs: &mut [i32],
    ) -> Result<Outcome, OutOfMemory> {
        let Logging { host, .. } = self;
        Ok(host.alone(row, budget, company.gate, outputs))
    }
}
