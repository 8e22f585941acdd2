//! Why a program is refused.

use forec_base::{OutOfMemory, Place};
use thiserror::Error;

/// Why a program is refused.
#[derive(Debug, Drop, Error)]
pub enum CheckFault {
    /// A rule, by its number, is broken at this place; the least by place, then rule. Rules 10 and 20
    /// count only where no other rule is broken.
    #[error("a rule is broken")]
    Broken { place: Place, rule: u8 },
    /// There is no memory left.
    #[error("no memory")]
    OutOfMemory,
}

impl From<OutOfMemory> for CheckFault {
    fn from(_: OutOfMemory) -> Self {
        CheckFault::OutOfMemory
    }
}
