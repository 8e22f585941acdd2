//! How many items of each sort came before one.

/// How many inputs, outputs and functions stand before an item. Each element of an array is an output, whatever its length is.
#[derive(Clone, Copy)]
pub struct ItemCounts {
    pub inputs: usize,
    pub outputs: u128,
    pub functions: usize,
}
