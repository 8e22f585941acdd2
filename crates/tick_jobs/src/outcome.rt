//! How a tick ended, by the root's reply.

ghost use Rattle.std.specs.Prelude.{◌≡◌, IsTrue, length};
ghost use Rattle.forec_kernel.specs.Packed.{HasRoom};
ghost use Rattle.forec_kernel.specs.Shapes.{plain_shape};
ghost use Rattle.forec_kernel.specs.Ticks.{values_of};
ghost use Rattle.forec_kernel.specs.WellFormed.{all_below, count_up};
ghost use Rattle.combine_tree.specs.Plain.{plain_packet};
ghost use Rattle.thread_code.specs.Valid.{FineShape, of_shape};
ghost use Rattle.tick_jobs.specs.Outcomes.{IsReplied, outcome_in, outputs_in, HasOutputs, LacksOutputs};

use combine_tree::{Packet, PacketKind};
use forec_kernel::{Outcome, Shape, VarCopy};

fn write_values(copies: &[VarCopy], variables: &[u32], values: &mut [i32])
    requires variables { IsTrue (all_below (length copies.now) variables.now) }
    requires values { length values.old ≡ length variables.now }
    ensures { values.new ≡ values_of (count_up 0 (length copies.now)) copies.now variables.now }
{
    for i in 0..variables.len() {
        values[i] = copies[variables[i] as usize].value;
    }
}

/// The outcome that a reply of the root tells. Where the tick paused or ended, the outputs are written.
pub fn write_outcome(packet: &Packet, shape: &Shape, outputs: &mut [i32]) -> Outcome
    requires fine { FineShape (plain_shape shape.now) }
    requires room { HasRoom (of_shape (plain_shape shape.now)) 0 (plain_packet packet.now) }
    requires replied { IsReplied packet.now.kind }
    requires outputs { length outputs.old ≡ length (plain_shape shape.now).outputs }
    ensures outcome { result ≡ outcome_in packet.now.kind }
    ensures outputs { HasOutputs result → outputs.new ≡ outputs_in (plain_shape shape.now) packet.now.copies.items }
    ensures stay { LacksOutputs result → outputs.new ≡ outputs.old }
{
    match packet.kind {
        PacketKind::Paused => {
            write_values(&packet.copies, &shape.outputs, outputs);
            Outcome::Paused
        }
        PacketKind::Ended => {
            write_values(&packet.copies, &shape.outputs, outputs);
            Outcome::Ended
        }
        PacketKind::Trapped { place, trap } => Outcome::Trapped { place, trap },
        PacketKind::Over => Outcome::Over,
        _ => unreachable!(),
    }
}
