//! Why nothing is read.

use std::alloc::AllocError;

/// Why a rule of the grammar stops; `left` is the number of tokens from the refused one on.
#[derive(Clone, Copy, Drop)]
pub enum Fault {
    Syntax { left: usize },
    Deep { left: usize },
    OutOfMemory,
}

impl From<AllocError> for Fault {
    ghost use Rattle.std.specs.Prelude.{◌≡◌};
    ghost use Rattle.expr_parser.specs.declared.fault.Fault.TheVariants.{OutOfMemory};

    ghost from_gives = { λ _ e. e ≡ OutOfMemory };

    fn from(_: AllocError) -> Fault {
        Fault::OutOfMemory
    }
}
