//! What the walk over a function keeps: its effects, and the least fault.

use forec_tree::Fault;

/// What a body does that matters beyond its own statements. Names are by their numbers.
#[derive(Clone, Copy)]
pub enum Effect {
    /// A global is accessed.
    Accesses { id: u32 },
    /// A function is called in an expression.
    Computes { id: u32 },
    /// A function is called as a statement.
    Runs { id: u32 },
    /// A function is a branch.
    Starts { id: u32 },
    /// A block that is a branch begins.
    Opens,
    /// A block that is a branch ends.
    Closes,
}

/// The least fault so far, and the effects of the body so far, in order.
#[derive(Drop)]
pub struct Notes {
    pub least: Option<Fault>,
    pub effects: Vec<Effect>,
}
