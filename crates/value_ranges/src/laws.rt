//! Laws of the values that ticks give.

ghost use Rattle.value_ranges.specs.Laws.{TicksFit, ValuesFit};

/// In a kernel whose numbers fit 32 bits, and whose rows' numbers do, each number that a run gives as an output
/// does too. Each tick that isn't over its budget has a number for each output.
pub fn values_fit()
    ensures ticks { TicksFit }
    ensures runs { ValuesFit }
{}
