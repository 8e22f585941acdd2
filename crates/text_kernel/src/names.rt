//! What a name becomes in the kernel.

ghost use Rattle.std.specs.Prelude.{◌≡◌};
ghost use Rattle.text_kernel.specs.Bindings as bindings;

use forec_tree::Number;

/// A parameter or local of the text: its first slot, and its length where it is an array.
#[derive(Clone, Copy)]
pub struct Slot {
    pub id: u32,
    pub slot: u32,
    pub size: Option<u32>,
}

/// What a name stands for in the kernel: a word, the words of an array, a variable, the variables of a shared
/// array, of which the first is given, the number of a constant, or a constant array.
#[derive(Clone, Copy)]
pub enum Stands {
    AtSlot { slot: u32 },
    AtSlots { slot: u32, size: u32 },
    AsVariable { variable: u64 },
    AsVariables { variable: u64, length: u32 },
    AsNumber { value: i32 },
    AsTable { table: u32 },
    AsNothing,
}

/// What a local stands for.
pub fn slot_stands(s: Slot) -> Stands
    ensures { result ≡ bindings.slot_stands s }
{
    match s.size {
        None => Stands::AtSlot { slot: s.slot },
        Some(size) => Stands::AtSlots { slot: s.slot, size },
    }
}

/// The number of a length or a bound.
pub fn number_of(n: Number) -> u32
    ensures { result ≡ bindings.number_of n }
{
    n.value.cast_unsigned()
}

/// How many words a local takes, by its length.
pub fn slots_of(length: Option<Number>) -> u32
    ensures { result ≡ bindings.slots_of length }
{
    match length {
        None => 1,
        Some(n) => number_of(n),
    }
}
