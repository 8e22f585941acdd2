//! Why a program has no kernel.

use forec_base::OutOfMemory;
use text_kernel::Quantity;
use thiserror::Error;

/// Why a program has no kernel.
#[derive(Clone, Copy, Debug, PartialEq, Eq, Error)]
pub enum LowerFault {
    /// A quantity passes its limit, which is `count`; the first one by the order of [`Quantity`].
    #[error("a limit is passed")]
    Limit { what: Quantity, count: u64 },
    /// There is no memory left.
    #[error("no memory")]
    OutOfMemory,
}

impl From<OutOfMemory> for LowerFault {
    ghost use Rattle.std.specs.Prelude.{◌≡◌};
    ghost use Rattle.kernel_lower.specs.declared.lower_fault.LowerFault.TheVariants as fault;

    ghost from_gives = { λ _ e. e ≡ fault.OutOfMemory };

    fn from(_: OutOfMemory) -> Self {
        LowerFault::OutOfMemory
    }
}
