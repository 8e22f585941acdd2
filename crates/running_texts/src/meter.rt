//! Units are taken from an allowance.

ghost use Rattle.std.specs.Prelude.{◌≡◌, ◌<◌, ◌+◌, OnOk, IfErr, ℕ};
ghost use Rattle.forec_kernel.specs.Values.{Gives};
ghost use Rattle.running_texts.specs.Metered.{IsMetered, IsNumberAfter, value_kind};

use forec_base::{Place, Trap};
use std::alloc::{AllocError, AllocFailed};

/// Why a computation stopped.
#[derive(Clone, Copy, Debug, PartialEq, Eq)]
pub enum Halt {
    Trapped { place: Place, trap: Trap },
    Over,
    OutOfMemory,
}

impl From<AllocError> for Halt {
    ghost use Rattle.running_texts.specs.declared.meter.Halt.{Halt};

    ghost from_gives = { λ _ h. h ≡ Halt.OutOfMemory };

    fn from(_: AllocError) -> Self {
        Halt::OutOfMemory
    }
}

impl<T: Drop> From<AllocFailed<T>> for Halt {
    ghost use Rattle.running_texts.specs.declared.meter.Halt.{Halt};

    ghost from_gives = { λ _ h. h ≡ Halt.OutOfMemory };

    fn from(_: AllocFailed<T>) -> Self {
        Halt::OutOfMemory
    }
}

/// Takes some units from the allowance.
pub fn pay(units: u64, left: &mut u64) -> Result<(), Halt>
    ensures ok { OnOk result (left.new + units ≡ left.old) }
    ensures over { IfErr result (λ h. (h ≡ Halt.Over) × (left.old < units)) }
{
    if *left < units {
        return Err(Halt::Over);
    }
    *left -= units;
    Ok(())
}

/// Gives a number for one unit.
pub(crate) fn give(n: i32, left: &mut u64) -> Result<i32, Halt>
    ensures { IsMetered value_kind left.old left.new result (Gives n 1) }
{
    if *left == 0 {
        return Err(Halt::Over);
    }
    *left -= 1;
    Ok(n)
}

/// A unit for going on after a test.
pub fn tested(part: Result<i32, Halt>, left: &mut u64) -> Result<i32, Halt>
    ensures { IsNumberAfter part left.old left.new result (λ x. Gives x 1) }
{
    match part {
        Ok(n) => give(n, left),
        Err(halt) => Err(halt),
    }
}
