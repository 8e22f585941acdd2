//! The ticks of a workload.
ghost use Rattle.forec_base.specs.declared.limits.TheConstants.{MAX_BUDGET};
ghost use Rattle.std.specs.Prelude.{◌≡◌, ◌≢◌, ◌≤◌, ◌+◌, ◌%◌, ◌^◌, true, length};
ghost use Rattle.forec_kernel.specs.Shapes.{PlainKernel};
ghost use Rattle.trace_ticks.specs.Ends.{IsOwn};
ghost use Rattle.trace_ticks.specs.Progress.{IsPut};
ghost use Rattle.trace_ticks.specs.Ticking.{Starts};
ghost use Rattle.trace_ticks.specs.WaitingRoom.{HasRoomFor, IsPlain};
ghost use Rattle.trace_ticks.specs.Workload.{values_sum, zero_row, ticked_report};

use crate::image::Image;
use crate::setting::Company;
use crate::status::Status;
use crate::ticker::Ticker;
use crate::waiting::Waiting;
use core_seats::Serve;
use forec_base::Gate;
use forec_kernel::Outcome;
use std::sync::Wait;

/// How many ticks a workload runs.
pub const WORKLOAD_TICKS: u64 = 1_000;

/// A sum and values, modulo 2^32.
fn with_values(sum: u32, values: &[i32]) -> u32
    ensures { result ≡ (sum + values_sum values.now) % 2 ^ 32 }
{
    let mut sum = sum;
    for value in values {
        sum = sum.wrapping_add(value.cast_unsigned());
    }
    sum
}

/// Runs the ticks of a workload of so many threads, each over a row that is 0 for each input, by a ticker that
/// is ready. The line that tells of them waits, and the status is its.
pub fn run_workload<T: Ticker, O: Serve, G: Gate, R: Wait>(
    company: &mut Company<'_, O, G, R>,
    ticker: &mut T,
    image: &mut Image,
    threads: u32,
    budget: u64,
    waiting: &mut Waiting,
) -> Status
    requires live { T.live ticker.old }
    requires ready { T.ready ticker.old ≡ true }
    requires zeros { image.old.inputs.items ≡ zero_row (T.shape ticker.old) }
    requires outputs { length image.old.outputs.items ≡ length (T.shape ticker.old).outputs }
    requires small { budget ≤ MAX_BUDGET }
    requires room { HasRoomFor waiting.old 128 }
    requires plain { IsPlain waiting.old }
    ensures own { IsOwn result }
    ensures usage { result ≢ Status.Usage }
    ensures report { (k : PlainKernel) → Starts (T.shape ticker.old) (T.follows ticker.old) k
        → IsPut waiting.old waiting.new (ticked_report threads k budget) result }
{
    let mut sum = 0;
    for tick in 0..WORKLOAD_TICKS {
        let Ok(outcome) = ticker.tick(company, &image.inputs, budget, &mut image.outputs) else {
            unreachable!()
        };
        match outcome {
            Outcome::Paused => sum = with_values(sum, &image.outputs),
            Outcome::Ended => {
                waiting.put_workload(threads, with_values(sum, &image.outputs));
                return Status::Done;
            }
            Outcome::Trapped { place, trap } => {
                waiting.put_trap(tick + 1, place, trap);
                return Status::Trapped;
            }
            Outcome::Over => {
                waiting.put_over(tick + 1, budget);
                return Status::Over;
            }
        }
    }
    waiting.put_workload(threads, sum);
    Status::Done
}
