//! The limits, in their order.

ghost use Rattle.std.specs.Prelude.{◌≡◌, ◌≢◌, ◌≤◌, OnOk, IfErr};
ghost use Rattle.text_kernel.specs.Limits as limits;
ghost use Rattle.text_kernel.specs.declared.limits.Quantity.{Quantity};
ghost use Rattle.kernel_lower.specs.Refusals.{PassesLimit, amount_in, First};

use crate::lower_fault::LowerFault;
use forec_base::{MAX_DEPTH, MAX_GLOBALS, MAX_TABLE_WORDS, MAX_TERMS, MAX_THREADS, MAX_WORDS};
use text_kernel::Quantity;

/// How much of each quantity there is.
#[derive(Clone, Copy)]
pub struct Amounts {
    pub threads: u64,
    pub words: u64,
    pub globals: u64,
    pub tables: u64,
    pub terms: u64,
    pub depth: u64,
}

/// The limit of a quantity.
fn limit(what: Quantity) -> u64
    ensures { result ≡ limits.limit_of what }
{
    match what {
        Quantity::Threads => MAX_THREADS,
        Quantity::Words => MAX_WORDS,
        Quantity::Globals => MAX_GLOBALS,
        Quantity::Tables => MAX_TABLE_WORDS,
        Quantity::Terms => MAX_TERMS,
        Quantity::Depth => MAX_DEPTH,
    }
}

/// Whether so much of a quantity is within its limit.
pub fn within(what: Quantity, count: u64) -> Result<(), LowerFault>
    ensures ok { OnOk result (count ≤ limits.limit_of what) }
    ensures err { IfErr result (λ e. PassesLimit what count e) }
{
    let most = limit(what);
    if most < count {
        return Err(LowerFault::Limit { what, count: most });
    }
    Ok(())
}

/// Whether all is within the limits; else the first limit that is passed.
pub fn judge(a: Amounts) -> Result<(), LowerFault>
    ensures ok { OnOk result ((q : Quantity) → amount_in a q ≤ limits.limit_of q) }
    ensures err { IfErr result (λ e. First (amount_in a) e) }
    ensures counted { IfErr result (λ e. e ≢ LowerFault.OutOfMemory) }
{
    within(Quantity::Threads, a.threads)?;
    within(Quantity::Words, a.words)?;
    within(Quantity::Globals, a.globals)?;
    within(Quantity::Tables, a.tables)?;
    within(Quantity::Terms, a.terms)?;
    within(Quantity::Depth, a.depth)?;
    Ok(())
}
