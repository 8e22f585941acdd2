//! Why a list of places is refused.

use forec_base::OutOfMemory;
use std::alloc::AllocError;
use thiserror::Error;

/// Why a list of places is refused. Its pieces are numbered from 0.
#[derive(Clone, Copy, Debug, PartialEq, Eq, Error)]
pub enum PlaceFault {
    /// This piece is not one to three decimal digits.
    #[error("a place is no number")]
    Shape { at: u64 },
    /// The list has this many pieces, and not one for each thread.
    #[error("there is not one place for each thread")]
    Count { found: u64 },
    /// This piece is no number of a core.
    #[error("there is no such core")]
    Core { at: u64 },
    /// There is no memory left.
    #[error("there is no memory left")]
    OutOfMemory,
}

impl From<OutOfMemory> for PlaceFault {
    ghost use Rattle.std.specs.Prelude.{◌≡◌};
    ghost use Rattle.core_alloc.specs.declared.fault.PlaceFault.TheVariants as fault;

    ghost from_gives = { λ _ e. e ≡ fault.OutOfMemory };

    fn from(_: OutOfMemory) -> Self {
        PlaceFault::OutOfMemory
    }
}

impl From<AllocError> for PlaceFault {
    ghost use Rattle.std.specs.Prelude.{◌≡◌};
    ghost use Rattle.core_alloc.specs.declared.fault.PlaceFault.TheVariants as fault;

    ghost from_gives = { λ _ e. e ≡ fault.OutOfMemory };

    fn from(_: AllocError) -> Self {
        PlaceFault::OutOfMemory
    }
}
