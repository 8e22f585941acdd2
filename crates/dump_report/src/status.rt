//! How the report of a dump ends.

/// How the report of a dump ended.
#[derive(Clone, Copy, Debug, PartialEq, Eq)]
pub enum DumpStatus {
    /// The text is a dump's, and what the dump tells was written.
    Done,
    /// The text is too long, or no dump's. The line that says so was written.
    Refused,
    /// The sink failed. A front of the report was written.
    WriteFault,
    /// There is no memory left. Nothing was written.
    NoMemory,
}
