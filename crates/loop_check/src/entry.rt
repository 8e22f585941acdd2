//! What is known of the items of one name.

/// The place of the first item of a name, counted from 1, or 0 where there is none, and whether a
/// global has the name.
#[derive(Clone, Copy)]
pub struct Entry {
    pub first: usize,
    pub global: bool,
}
