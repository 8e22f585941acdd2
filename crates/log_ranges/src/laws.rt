//! Laws of the numbers in logs.

ghost use Rattle.log_ranges.specs.Laws.{LogsFit};

/// The log of a kernel's ticks fits the kernel's shape, where the kernel's numbers fit 32 bits, its places have lines
/// and columns from 1, and the rows of the ticks and their budgets are such as a run has.
pub fn logs_fit()
    ensures { LogsFit }
{}
