//! Threads in the order in which they are placed.

use std::cmp::Reverse;

/// A thread with its weight. Heavier ones come first, and of equal ones the lower number.
#[derive(Clone, Copy, PartialEq, Eq, PartialOrd, Ord)]
pub struct Ranked {
    pub weight: Reverse<u64>,
    pub thread: u32,
}
