//! What is told of the traces of a farm: their reports, or that they are too long.
ghost use Rattle.std.specs.Prelude.{◌≡◌, List, map, length, string_bytes, IfOk, OnOk, OnErr};
ghost use Rattle.std.specs.Io.KnownBytes.{Appends};
ghost use Rattle.trace_farm.specs.Farm.{plain_report};
ghost use Rattle.trace_rows.specs.Calls.{Faults};
ghost use Rattle.whole_writes.specs.Calls.{AppendsFront};
ghost use Rattle.trace_ticks.specs.StatusNumbers.{status_number};
ghost use Rattle.trace_ticks.specs.declared.status.Status.{Status};
ghost use Rattle.forec_engine.specs.Farms.{groups, worst};
ghost use Rattle.forec_engine.specs.Farming.{plain_told, told_as, told_all};

use crate::farm_lines::{Told, write_group};
use forec_base::{Failed, OutOfMemory, Sink};
use std::alloc::Global;
use std::thread::Threads;
use trace_farm::{FarmReport, greatest};
use trace_ticks::Status;

/// What is told of a trace: its report, or that it is too long.
fn told<'a>(report: &'a FarmReport, is_long: bool) -> Told<'a>
    ensures { plain_told result ≡ told_as is_long (plain_report report.entry.now) }
{
    if is_long {
        return Told {
            bytes: b"refused long\n",
            status: 3,
        };
    }
    Told {
        bytes: &report.bytes,
        status: report.status,
    }
}

/// The numbers of the statuses of the traces.
fn numbers(alloc: Global, reports: &[FarmReport], long: &[bool]) -> Result<Vec<u32>, OutOfMemory>
    requires { length long.now ≡ length reports.now }
    ensures { IfOk result (λ v. v.items ≡ map (λ r. r.status) (told_all long.now (map plain_report reports.now))) }
{
    let mut numbers = Vec::new(alloc);
    for i in 0..reports.len() {
        numbers.push(told(&reports[i], long[i]).status)?;
    }
    Ok(numbers)
}

/// The status with this number.
fn status_of(number: u32) -> Status
    ensures { (s : Status) → status_number s ≡ number → result ≡ s }
{
    match number {
        0 => Status::Done,
        2 => Status::Usage,
        3 => Status::Refused,
        4 => Status::Trace,
        5 => Status::Trapped,
        6 => Status::Over,
        7 => Status::ReadFault,
        8 => Status::WriteFault,
        10 => Status::Full,
        _ => Status::NoMemory,
    }
}

/// The status of the whole: the one of the traces with the greatest number.
///
/// # Errors
///
/// Out of memory.
pub fn whole_status(
    rt: &(impl Threads + Sync),
    alloc: Global,
    reports: &[FarmReport],
    long: &[bool],
) -> Result<Status, OutOfMemory>
    requires { length long.now ≡ length reports.now }
    ensures { IfOk result (λ s. (ss : List Status)
        → map (λ r. r.status) (told_all long.now (map plain_report reports.now)) ≡ map status_number ss
        → s ≡ worst ss) }
{
    let numbers = numbers(alloc, reports, long)?;
    match greatest(rt, &numbers) {
        Some(number) => Ok(status_of(number)),
        None => Ok(Status::Done),
    }
}

/// Writes what is told of the traces of these names, in order. At an `Err` a front of it is written.
pub fn write_groups<K: Sink>(
    out: &mut K,
    names: &[&str],
    reports: &[FarmReport],
    long: &[bool],
) -> Result<(), Failed>
    requires reports { length reports.now ≡ length names.now }
    requires long { length long.now ≡ length reports.now }
    ensures ok { OnOk result (Appends (K.held out.old) (K.held out.new) (groups (map (λ n. n.now) names.now) (told_all
        long.now (map plain_report reports.now)))) }
    ensures err { OnErr result (AppendsFront (K.held out.old) (K.held out.new) (groups (map (λ n. n.now) names.now)
        (told_all long.now (map plain_report reports.now)))) }
    ensures cause { Faults (K.faults out.old) (K.faults out.new) (K.down out.new) result }
{
    for i in 0..names.len() {
        match write_group(out, names[i], told(&reports[i], long[i])) {
            Ok(()) => {}
            Err(failed) => return Err(failed),
        }
    }
    Ok(())
}
