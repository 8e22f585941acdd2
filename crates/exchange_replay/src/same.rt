//! Whether two packets tell the same.

ghost use Rattle.std.specs.Prelude.{◌≡◌, ◌↔◌, true};
ghost use Rattle.forec_kernel.specs.Engine.{Job, Reply};
ghost use Rattle.forec_kernel.specs.Packed.{IsJob, IsReply};
ghost use Rattle.combine_tree.specs.Plain.{plain_packet};

use combine_tree::{Packet, PacketKind};

/// Whether two packets are the same job. The arguments of a `Wake` count for nothing.
pub fn is_same_job(a: &Packet, b: &Packet) -> bool
    ensures { (i j : Job) → IsJob (plain_packet a.now) i → IsJob (plain_packet b.now) j
        → (result ≡ true) ↔ (i ≡ j) }
{
    if a.kind != b.kind || a.allowance != b.allowance || a.copies != b.copies {
        return false;
    }
    match a.kind {
        PacketKind::Start => a.args == b.args,
        _ => true,
    }
}

/// Whether two packets are the same reply. The copies of a trapped one count for nothing, and neither do those and the
/// units of one that is over.
pub fn is_same_reply(a: &Packet, b: &Packet) -> bool
    ensures { (q r : Reply) → IsReply (plain_packet a.now) q → IsReply (plain_packet b.now) r
        → (result ≡ true) ↔ (q ≡ r) }
{
    if a.kind != b.kind {
        return false;
    }
    match a.kind {
        PacketKind::Over => true,
        PacketKind::Trapped { .. } => a.units == b.units,
        _ => a.units == b.units && a.copies == b.copies,
    }
}
