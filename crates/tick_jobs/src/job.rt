//! The job of a tick.

ghost use Rattle.std.specs.Prelude.{◌≡◌, IsTrue, length};
ghost use Rattle.forec_kernel.specs.Packed.{HasRoom, IsJob};
ghost use Rattle.forec_kernel.specs.Shapes.{plain_shape};
ghost use Rattle.forec_kernel.specs.Ticks.{start_copies, unmarked, with_row};
ghost use Rattle.forec_kernel.specs.WellFormed.{all_below, count_up};
ghost use Rattle.forec_base.specs.declared.limits.TheConstants.{MAX_GLOBALS};
ghost use Rattle.combine_tree.specs.Plain.{plain_packet};
ghost use Rattle.thread_code.specs.Valid.{FineShape, of_shape};
ghost use Rattle.tick_jobs.specs.Jobs.{IsBetweenTicks, copies_before, follow_each_other, job_of, next_job_kind};

use combine_tree::{Packet, PacketKind};
use forec_kernel::{Shape, VarCopy, Variable};

/// The copies get the start values of the variables, unmarked.
fn write_start(copies: &mut [VarCopy], variables: &[Variable])
    requires { length copies.old ≡ length variables.now }
    ensures { copies.new ≡ start_copies variables.now }
{
    for i in 0..variables.len() {
        copies[i] = VarCopy {
            value: variables[i].start,
            modified: false,
        };
    }
}

fn clear_marks(copies: &mut [VarCopy])
    ensures { copies.new ≡ unmarked copies.old }
{
    for i in 0..copies.len() {
        copies[i].modified = false;
    }
}

/// Whether the inputs are variables that follow each other, so that their copies lie beside each other.
fn are_in_a_row(inputs: &[u32]) -> bool
    requires small { IsTrue (all_below MAX_GLOBALS inputs.now) }
    ensures { result ≡ follow_each_other inputs.now }
{
    let mut follow = true;
    for i in 1..inputs.len() {
        follow &= inputs[i] == inputs[i - 1] + 1;
    }
    follow
}

/// The copies of inputs that follow each other get the values of the row, unmarked.
fn write_in_a_row(copies: &mut [VarCopy], inputs: &[u32], row: &[i32])
    requires inputs { IsTrue (all_below (length copies.old) inputs.now) }
    requires row { length row.now ≡ length inputs.now }
    requires follow { IsTrue (follow_each_other inputs.now) }
    ensures { copies.new ≡ with_row (count_up 0 (length copies.old)) inputs.now row.now copies.old }
{
    let values = &row[..inputs.len()];
    for i in 0..inputs.len() {
        copies[inputs[0] as usize + i] = VarCopy {
            value: values[i],
            modified: false,
        };
    }
}

/// The copies of the inputs get the values of the row, unmarked.
fn write_each(copies: &mut [VarCopy], inputs: &[u32], row: &[i32])
    requires inputs { IsTrue (all_below (length copies.old) inputs.now) }
    requires row { length row.now ≡ length inputs.now }
    ensures { copies.new ≡ with_row (count_up 0 (length copies.old)) inputs.now row.now copies.old }
{
    let values = &row[..inputs.len()];
    for i in 0..inputs.len() {
        copies[inputs[i] as usize] = VarCopy {
            value: values[i],
            modified: false,
        };
    }
}

/// The copies of the inputs get the values of the row, unmarked: in one sweep where they lie beside each other.
fn write_row(copies: &mut [VarCopy], inputs: &[u32], row: &[i32])
    requires inputs { IsTrue (all_below (length copies.old) inputs.now) }
    requires small { IsTrue (all_below MAX_GLOBALS inputs.now) }
    requires row { length row.now ≡ length inputs.now }
    ensures { copies.new ≡ with_row (count_up 0 (length copies.old)) inputs.now row.now copies.old }
{
    if are_in_a_row(inputs) {
        write_in_a_row(copies, inputs, row);
    } else {
        write_each(copies, inputs, row);
    }
}

/// Makes the packet a job: a `Start` with the start values where no tick was run, else a `Wake` with the
/// copies of the last reply.
fn write_before(packet: &mut Packet, shape: &Shape)
    requires fine { FineShape (plain_shape shape.now) }
    requires room { HasRoom (of_shape (plain_shape shape.now)) 0 (plain_packet packet.old) }
    ensures kind { packet.new.kind ≡ next_job_kind packet.old.kind }
    ensures args { packet.new.args.items ≡ packet.old.args.items }
    ensures copies { packet.new.copies.items
        ≡ copies_before (plain_shape shape.now) packet.old.kind packet.old.copies.items }
{
    match packet.kind {
        PacketKind::Blank => {
            packet.kind = PacketKind::Start;
            write_start(&mut packet.copies, &shape.variables);
        }
        _ => {
            packet.kind = PacketKind::Wake;
            clear_marks(&mut packet.copies);
        }
    }
}

/// Makes the packet the job of the next tick: a `Start` with the start values where no tick was run,
/// else a `Wake` with the copies of the last reply; the inputs have the values of the row.
pub fn write_job(packet: &mut Packet, shape: &Shape, row: &[i32], budget: u64)
    requires fine { FineShape (plain_shape shape.now) }
    requires room { HasRoom (of_shape (plain_shape shape.now)) 0 (plain_packet packet.old) }
    requires between { IsBetweenTicks packet.old.kind }
    requires row { length row.now ≡ length (plain_shape shape.now).inputs }
    ensures room { HasRoom (of_shape (plain_shape shape.now)) 0 (plain_packet packet.new) }
    ensures job { IsJob (plain_packet packet.new) (job_of (plain_shape shape.now) packet.old row.now budget) }
    ensures kind { packet.new.kind ≡ next_job_kind packet.old.kind }
    ensures allowance { packet.new.allowance ≡ budget }
{
    write_before(packet, shape);
    write_row(&mut packet.copies, &shape.inputs, row);
    packet.allowance = budget;
}
