//! The bodies of a program, as thread instances are counted.

use program_walk::Effect;

/// The effects of each item, the functions in order, each after those that it calls or starts, and the
/// name of the function that the program starts with.
#[derive(Clone, Copy)]
pub struct Bodies<'a> {
    pub effects: &'a [Vec<Effect>],
    pub order: &'a [u32],
    pub first: u32,
}
