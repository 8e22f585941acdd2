use forec_base::OutOfMemory;
use std::alloc::AllocError;
use thiserror::Error;

/// What a call that asks for the next row of a trace gives, where it isn't a fault.
#[derive(Clone, Copy, Debug, PartialEq, Eq)]
pub enum Next {
    /// The next row.
    Row,
    /// The trace has no further line.
    End,
}

/// Why no row is given. The first three are told of the exact line, whose number is one more than the rows so far, and 0
/// for the header. Where several causes stand together, `Many` comes before `Long` and `Long` before `Bad`.
#[derive(Clone, Copy, Debug, PartialEq, Eq, Error)]
pub enum RowFault {
    /// The next line is no header or no row, or there is no line for the header.
    #[error("the line is no row")]
    Bad,
    /// The next line has more than 8,192 bytes.
    #[error("the line is too long")]
    Long,
    /// As many rows as there may be were given, and a further line begins.
    #[error("there are too many rows")]
    Many,
    /// The source failed.
    #[error("the trace could not be read")]
    ReadFault,
    /// Memory was refused. Nothing was read.
    #[error("there is no memory left")]
    OutOfMemory,
}

impl From<OutOfMemory> for RowFault {
    ghost use Rattle.std.specs.Prelude.{◌≡◌};
    ghost use Rattle.trace_rows.specs.declared.fault.RowFault.TheVariants as fault;

    ghost from_gives = { λ _ e. e ≡ fault.OutOfMemory };

    fn from(_: OutOfMemory) -> Self {
        RowFault::OutOfMemory
    }
}

impl From<AllocError> for RowFault {
    ghost use Rattle.std.specs.Prelude.{◌≡◌};
    ghost use Rattle.trace_rows.specs.declared.fault.RowFault.TheVariants as fault;

    ghost from_gives = { λ _ e. e ≡ fault.OutOfMemory };

    fn from(_: AllocError) -> Self {
        RowFault::OutOfMemory
    }
}
