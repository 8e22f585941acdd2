//! Sums and products of bounds, of which all past the greatest budget are one number.

ghost use Rattle.std.specs.Prelude.{◌≡◌, ◌+◌, ◌*◌};
ghost use Rattle.tick_bounds.specs.Capped.{capped};

use forec_base::MAX_BUDGET;

/// Stands for each bound that is past the greatest budget.
const PAST: u64 = MAX_BUDGET + 1;

/// The sum of two bounds in units; each sum past the greatest budget is one unit above it.
pub fn plus(a: u64, b: u64) -> u64
    ensures { result ≡ capped (a + b) }
{
    a.saturating_add(b).min(PAST)
}

/// So many times a bound in units; each product past the greatest budget is one unit above it.
pub fn times(n: u64, bound: u64) -> u64
    ensures { result ≡ capped (n * bound) }
{
    n.saturating_mul(bound).min(PAST)
}
