//! What the translation keeps on its way through a thread's text.

use crate::scope::Scope;
use forec_kernel::Statement;
use forec_tree::Branch;
use std::alloc::Global;

/// A thread below: its parent, the `par` whose branch it is, the name of its function, how many of its
/// words are parameters, how many words it has, the number of the thread after it and those below it,
/// and its body.
#[derive(Drop)]
pub struct Thread {
    pub parent: u32,
    pub par: u32,
    pub name: Option<u32>,
    pub params: u32,
    pub words: u32,
    pub behind: u32,
    pub body: Statement,
}

/// A branch whose body is still to be translated: the number of its thread, its parent, the `par` whose
/// branch it is, the number of the first `par` in it, and how many calls may nest there.
#[derive(Clone, Copy)]
pub struct Pending<'p> {
    pub number: u32,
    pub parent: u32,
    pub par: u32,
    pub first: u32,
    pub deep: usize,
    pub branch: &'p Branch,
}

/// The locals that are seen, the next free slot of the thread, the numbers of the next thread and the
/// next `par`, and the branches so far whose bodies are still to be translated.
#[derive(Drop)]
pub struct State<'p> {
    pub scope: Scope,
    pub slot: u32,
    pub thread: u32,
    pub par: u32,
    pub pending: Vec<Pending<'p>>,
}

impl<'p> State<'p> {
    ghost use Rattle.std.specs.Prelude.{◌≡◌, []};
    ghost use Rattle.lower_names.specs.Views.{seen};

    /// No locals, no slot taken, no thread below.
    pub fn new(alloc: Global) -> State<'p>
        ensures seen { seen result.scope ≡ [] }
        ensures slot { result.slot ≡ 0 }
        ensures thread { result.thread ≡ 1 }
        ensures par { result.par ≡ 0 }
        ensures pending { result.pending.items ≡ [] }
    {
        State {
            scope: Scope::new(alloc),
            slot: 0,
            thread: 1,
            par: 0,
            pending: Vec::new(alloc),
        }
    }
}
