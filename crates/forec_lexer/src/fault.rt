use forec_base::{OutOfMemory, Place};
use std::alloc::AllocError;
use thiserror::Error;

/// Why a text is refused.
#[derive(Clone, Copy, Debug, Error)]
pub enum LexFault {
    /// No token fits at this place.
    #[error("no token fits here")]
    Bad { place: Place },
    /// The text has more than 200,000 tokens. This is the place of the next one.
    #[error("there are too many tokens")]
    Many { place: Place },
    #[error("there is no memory left")]
    OutOfMemory,
}

impl From<OutOfMemory> for LexFault {
    ghost use Rattle.std.specs.Prelude.{◌≡◌};
    ghost use Rattle.forec_lexer.specs.declared.fault.LexFault.TheVariants as fault;

    ghost from_gives = { λ _ e. e ≡ fault.OutOfMemory };

    fn from(_: OutOfMemory) -> Self {
        LexFault::OutOfMemory
    }
}

impl From<AllocError> for LexFault {
    ghost use Rattle.std.specs.Prelude.{◌≡◌};
    ghost use Rattle.forec_lexer.specs.declared.fault.LexFault.TheVariants as fault;

    ghost from_gives = { λ _ e. e ≡ fault.OutOfMemory };

    fn from(_: AllocError) -> Self {
        LexFault::OutOfMemory
    }
}
