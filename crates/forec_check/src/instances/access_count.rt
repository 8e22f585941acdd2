//! How many thread instances access a global, as far as it is known, up to two.

/// Whether a text accesses a global itself, and how many thread instances below it do, up to two.
#[derive(Clone, Copy)]
pub struct AccessCount {
    pub own: bool,
    pub below: u32,
}

/// A thread while the effects of its text are read: whether it accesses the global so far, how many
/// instances below it do, up to two, and whether each thread round a block that is read accesses it.
#[derive(Drop)]
pub struct AccessTally {
    pub own: bool,
    pub below: u32,
    pub round: Vec<bool>,
}
