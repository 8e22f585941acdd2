//! Why no program is read.

use thiserror::Error;

/// Why no program is read. Tokens are counted from 0.
#[derive(Clone, Copy, Debug, PartialEq, Eq, Error)]
pub enum ParseFault {
    /// The tokens before this one begin a program, and those up to it begin none. Where it is the
    /// number of tokens, they begin a program, and none has all of them.
    #[error("no program goes on with this token")]
    Syntax { token: u32 },
    /// The tokens up to this one begin a program, in which it is the first to open a level above
    /// the greatest.
    #[error("this token opens a level above the greatest")]
    Deep { token: u32 },
    #[error("out of memory")]
    OutOfMemory,
}
