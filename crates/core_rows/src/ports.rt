//! The two ports of a board of two cores.
ghost use Rattle.std.specs.Prelude.{◌≡◌, length, ◌∷◌, [], IfSome};

use copy_slots::Work;
use slot_board::SlotPort;

/// The first port and the second.
pub fn both<'b, W: Work>(
    mut ports: Vec<SlotPort<'b, W>>,
) -> Option<(SlotPort<'b, W>, SlotPort<'b, W>)>
    requires { length ports.items ≡ 2 }
    ensures { IfSome result (λ r. ports.entry.items ≡ r.0 ∷ r.1 ∷ []) }
{
    let second = ports.pop()?;
    let first = ports.pop()?;
    Some((first, second))
}
