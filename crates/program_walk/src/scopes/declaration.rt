//! A declaration: one declared parameter or local.

/// A parameter or local, whether it is an array, and where the last one of its name stands among
/// those declared before it, counted from 1, or 0 where there is none.
#[derive(Clone, Copy)]
pub struct Declaration {
    pub id: u32,
    pub array: bool,
    pub before: usize,
}
