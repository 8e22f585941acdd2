//! Orders of steps, by their numbers.

ghost use Rattle.std.specs.Prelude.{◌≡◌, IfOk};
ghost use Rattle.trace_tickers.specs.Orders.{order_of};

use forec_base::OutOfMemory;
use std::alloc::Global;

/// How many steps of a tick an order speaks of. Past them the first thread that can steps.
const STEPS: u32 = 64;

/// The order with a number: the numbers that a linear congruential generator gives from it, modulo 2^31 (ISO C's
/// example of `rand`).
///
/// # Errors
///
/// Out of memory.
pub fn order(alloc: Global, number: u32) -> Result<Vec<u32>, OutOfMemory>
    ensures { IfOk result (λ list. list.items ≡ order_of number) }
{
    let mut list = Vec::new(alloc);
    let mut x = number % 2_147_483_648;
    for _ in 0..STEPS {
        x = ((1_103_515_245 * u64::from(x) + 12_345) % 2_147_483_648) as u32;
        list.push(x)?;
    }
    Ok(list)
}
