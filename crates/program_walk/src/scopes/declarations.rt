//! The declarations so far, innermost last, with the last one of each name at hand.

ghost use Rattle.std.specs.Prelude.{◌≡◌, ◌<◌, ◌≤◌, ◌-◌, [], ℕ, length, take, slice_index_or, OnOk, OnErr};
ghost use Rattle.program_walk.specs.Declarations.{last_of, AreDeclarationsChained, pushed_declaration};

use crate::scopes::declaration::Declaration;
use forec_base::OutOfMemory;
use loop_check::{put, value_at};
use std::alloc::Global;

/// Declared names in order. A look-up, a declaration and its undoing take the same time however many
/// there are; the room is that of the greatest number of a name.
#[derive(Drop)]
pub struct Declarations {
    pub list: Vec<Declaration>,
    latest: Vec<usize>,
    ghost latest_right: { (id : ℕ) → slice_index_or latest.items id 0 ≡ last_of id list.items },
    ghost chained: { AreDeclarationsChained list.items },
}

impl Declarations {
    /// No declarations.
    pub fn new(alloc: Global) -> Declarations
        ensures { result.list.items ≡ [] }
    {
        Declarations {
            list: Vec::new(alloc),
            latest: Vec::new(alloc),
        }
    }

    /// Where the last declaration of a name stands, counted from 1, or 0 where there is none.
    pub fn last(&self, id: u32) -> usize
        ensures { result ≡ last_of id self.now.list.items }
    {
        value_at(&self.latest, id, 0)
    }

    /// Declares a name.
    pub fn push(&mut self, id: u32, array: bool) -> Result<(), OutOfMemory>
        ensures ok { OnOk result (self.new.list.items ≡ pushed_declaration self.old.list.items id array) }
        ensures err { OnErr result (self.new.list.items ≡ self.old.list.items) }
    {
        let before = self.last(id);
        let place = self.list.len() + 1;
        self.list.push(Declaration { id, array, before })?;
        if let Err(e) = put(&mut self.latest, id, place, 0) {
            let _ = self.list.pop();
            return Err(e);
        }
        Ok(())
    }

    /// Forgets the last declaration.
    fn pop(&mut self)
        requires { 0 < length self.old.list.items }
        ensures { self.new.list.items ≡ take (length self.old.list.items - 1) self.old.list.items }
    {
        if let Some(declaration) = self.list.pop() {
            let at = declaration.id as usize;
            if at < self.latest.len() {
                self.latest[at] = declaration.before;
            }
        }
    }

    /// Keeps the first so many declarations.
    pub fn truncate(&mut self, n: usize)
        requires { n ≤ length self.old.list.items }
        ensures { self.new.list.items ≡ take n self.old.list.items }
    {
        while self.list.len() > n {
            self.pop();
        }
    }
}
