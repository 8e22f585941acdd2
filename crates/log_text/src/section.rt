//! The lines of a thread.
ghost use Rattle.std.specs.Prelude.{◌≡◌, ◌+◌, ◌<◌, ℕ, length, IfOk, Err};
ghost use Rattle.forec_kernel.specs.Shapes.{PlainShape};
ghost use Rattle.log_text.specs.Readings.{KeepsRoom};
ghost use Rattle.log_text.specs.Stages.{AtHead, AtJob, Stops};
ghost use Rattle.log_text.specs.Sections.{Expects, IsOn, ReadsPair, ReadsSection};

use crate::fault::LogFault;
use crate::lines::{read_head, read_job, read_reply};
use combine_tree::Packet;

/// A place of a text: how many bytes stand before it, and the number of its line, from 1.
#[derive(Clone, Copy)]
pub struct Spot {
    pub at: usize,
    pub line: u64,
}

/// The pairs of a thread: where the first one begins, and how many they are.
#[derive(Clone, Copy)]
pub struct Section {
    pub start: usize,
    pub jobs: u64,
}

/// Reads the two lines of a pair.
fn read_pair(bytes: &[u8], spot: Spot, packet: &mut Packet) -> Result<Spot, LogFault>
    requires { IsOn bytes.now spot }
    ensures pair { (s : PlainShape) (t left : ℕ) → Expects s t bytes.now spot packet.old (AtJob t left)
        → IfOk result (λ x. ReadsPair s t bytes.now spot x packet.new left) }
    ensures bad { (s : PlainShape) (t left line : ℕ) → Expects s t bytes.now spot packet.old (AtJob t left)
        → result ≡ Err (LogFault.Bad line) → Stops s bytes.now line }
    ensures on { IfOk result (λ x. IsOn bytes.now x) }
    ensures lines { IfOk result (λ x. x.line ≡ spot.line + 2) }
    ensures room { KeepsRoom packet.old packet.new }
{
    let Some(middle) = read_job(bytes, spot.at, packet) else {
        return Err(LogFault::Bad { line: spot.line });
    };
    let Some(end) = read_reply(bytes, middle, packet) else {
        return Err(LogFault::Bad {
            line: spot.line + 1,
        });
    };
    Ok(Spot {
        at: end,
        line: spot.line + 2,
    })
}

/// Reads the lines of thread `thread`: its pairs, and the place behind them. The packet has as many arguments and
/// copies as the thread.
///
/// # Errors
///
/// `Bad` with the first line that may not come there.
pub fn read_section(
    bytes: &[u8],
    from: Spot,
    thread: u64,
    packet: &mut Packet,
) -> Result<(Section, Spot), LogFault>
    requires { IsOn bytes.now from }
    ensures section { (s : PlainShape) → Expects s thread bytes.now from packet.old (AtHead thread)
        → thread < length s.threads
        → IfOk result (λ x. ReadsSection s thread bytes.now from x.0 x.1) }
    ensures bad { (s : PlainShape) (line : ℕ) → Expects s thread bytes.now from packet.old (AtHead thread)
        → thread < length s.threads
        → result ≡ Err (LogFault.Bad line) → Stops s bytes.now line }
    ensures on { IfOk result (λ x. IsOn bytes.now x.1) }
{
    let Some((jobs, start)) = read_head(bytes, from.at, thread) else {
        return Err(LogFault::Bad { line: from.line });
    };
    let mut spot = Spot {
        at: start,
        line: from.line + 1,
    };
    for _pair in 0..jobs {
        spot = match read_pair(bytes, spot, packet) {
            Ok(next) => next,
            Err(fault) => return Err(fault),
        };
    }
    Ok((Section { start, jobs }, spot))
}
