use forec_base::OutOfMemory;
use std::alloc::{AllocError, AllocFailed};
use thiserror::Error;

/// Why no dump was read.
#[derive(Clone, Copy, Debug, PartialEq, Eq, Error)]
pub enum WaveFault {
    /// The bytes are no dump's. The longest prefix of them that some dump begins with has `at` bytes.
    #[error("the bytes are no dump's, from byte {at} on")]
    Bad { at: u64 },
    /// Memory was refused.
    #[error("there is no memory left")]
    OutOfMemory,
}

impl From<OutOfMemory> for WaveFault {
    ghost use Rattle.std.specs.Prelude.{◌≡◌};
    ghost use Rattle.wave_dump.specs.declared.fault.WaveFault.TheVariants as fault;

    ghost from_gives = { λ _ e. e ≡ fault.OutOfMemory };

    fn from(_: OutOfMemory) -> Self {
        WaveFault::OutOfMemory
    }
}

impl From<AllocError> for WaveFault {
    ghost use Rattle.std.specs.Prelude.{◌≡◌};
    ghost use Rattle.wave_dump.specs.declared.fault.WaveFault.TheVariants as fault;

    ghost from_gives = { λ _ e. e ≡ fault.OutOfMemory };

    fn from(_: AllocError) -> Self {
        WaveFault::OutOfMemory
    }
}

impl<T: Drop> From<AllocFailed<T>> for WaveFault {
    ghost use Rattle.std.specs.Prelude.{◌≡◌};
    ghost use Rattle.wave_dump.specs.declared.fault.WaveFault.TheVariants as fault;

    ghost from_gives = { λ _ e. e ≡ fault.OutOfMemory };

    fn from(_: AllocFailed<T>) -> Self {
        WaveFault::OutOfMemory
    }
}
