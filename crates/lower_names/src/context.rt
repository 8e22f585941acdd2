//! What stays the same through the text of a thread.

use crate::source::Source;
use std::alloc::Global;

/// The program that is translated, how many calls may nest, and the number of the thread
/// whose text it becomes.
#[derive(Clone, Copy)]
pub struct Context<'a, 'p> {
    pub alloc: Global,
    pub source: &'a Source<'p>,
    pub deep: usize,
    pub owner: u32,
}
