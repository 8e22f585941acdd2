//! The traces of a farm.
ghost use Rattle.std.specs.Prelude.{◌≡◌, ◌≤◌, ◌↔◌, ℕ, List, map, length, IfOk, IfSome, All, Err};
ghost use Rattle.forec_base.specs.Outside.{Fell};
ghost use Rattle.forec_engine.specs.Farming.{IsReadOf, AreRead};
ghost use Rattle.forec_engine.specs.declared.farm_traces.TracesFault.TheVariants as fault;

use forec_base::{MAX_TEXT_BYTES, TextFault, Texts};
use std::alloc::{AllocFailed, Global};

/// How many rows of a trace are run at most.
pub const FARM_ROWS: u64 = 1_000;

/// Why traces can't be had.
#[derive(Clone, Copy, Debug, PartialEq, Eq)]
pub enum TracesFault {
    /// One of them couldn't be read.
    Unread,
    /// There is no memory left.
    OutOfMemory,
}

impl<T: Drop> From<AllocFailed<T>> for TracesFault {
    ghost use Rattle.std.specs.Prelude.{◌≡◌};
    ghost use Rattle.forec_engine.specs.declared.farm_traces.TracesFault.TheVariants as fault;

    ghost from_gives = { λ _ e. e ≡ fault.OutOfMemory };

    fn from(_: AllocFailed<T>) -> Self {
        TracesFault::OutOfMemory
    }
}

/// A trace: whether it is too long, and its bytes, of which it has none then.
#[derive(Drop)]
struct Trace {
    long: bool,
    bytes: Vec<u8>,
}

/// Traces in order: whether each is too long, and its bytes, of which it has none then.
#[derive(Drop)]
pub struct Traces {
    pub long: Vec<bool>,
    pub bytes: Vec<Vec<u8>>,
}

/// The trace of a name.
///
/// # Errors
///
/// `Unread` where the store failed. Or out of memory.
fn read_trace<T: Texts>(alloc: Global, name: &str, texts: &mut T) -> Result<Trace, TracesFault>
    requires { T.may texts.old name.now }
    ensures read { IfOk result (λ t. IfSome (T.content texts.old name.now) (λ text. IsReadOf text t.long
        t.bytes.items)) }
    ensures content { (n : List ℕ) → T.content texts.new n ≡ T.content texts.old n }
    ensures may { (n : List ℕ) → T.may texts.new n ↔ T.may texts.old n }
    ensures later { T.faults texts.old ≤ T.faults texts.new }
    ensures unread { result ≡ Err fault.Unread → Fell (T.faults texts.old) (T.faults texts.new) (T.down texts.new) }
{
    match texts.read(alloc, name, MAX_TEXT_BYTES) {
        Ok(mut bytes) => {
            bytes.shrink_to_fit();
            Ok(Trace { long: false, bytes })
        }
        Err(TextFault::Long) => Ok(Trace {
            long: true,
            bytes: Vec::new(alloc),
        }),
        Err(TextFault::Failed) => Err(TracesFault::Unread),
        Err(TextFault::OutOfMemory) => Err(TracesFault::OutOfMemory),
    }
}

/// The traces of these names, which are read in order.
///
/// # Errors
///
/// `Unread` where the store failed. Or out of memory.
pub fn read_traces<T: Texts>(
    alloc: Global,
    names: &[&str],
    texts: &mut T,
) -> Result<Traces, TracesFault>
    requires { All (λ n. T.may texts.old n.now) names.now }
    ensures read { IfOk result (λ t. AreRead (T.content texts.old) (map (λ n. n.now) names.now) t.long.items (map (λ v.
        v.items) t.bytes.items)) }
    ensures long { IfOk result (λ t. length t.long.items ≡ length names.now) }
    ensures bytes { IfOk result (λ t. length t.bytes.items ≡ length names.now) }
    ensures later { T.faults texts.old ≤ T.faults texts.new }
    ensures unread { result ≡ Err fault.Unread → Fell (T.faults texts.old) (T.faults texts.new) (T.down texts.new) }
{
    let mut long = Vec::new(alloc);
    let mut bytes = Vec::new(alloc);
    for name in names {
        let trace = read_trace(alloc, name, texts)?;
        long.push(trace.long)?;
        bytes.push(trace.bytes)?;
    }
    Ok(Traces { long, bytes })
}
