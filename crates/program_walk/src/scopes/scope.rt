//! The scope at a place of a function: which parameters and locals are seen there.

ghost use Rattle.std.specs.Prelude.{◌≡◌, ◌≤◌, ◌<◌, length, vec_len, OnOk, take};
ghost use Rattle.forec_tree.specs.Scopes.{no_scope, is_among, with_name, inner_scope};

use crate::scopes::declarations::Declarations;
use forec_base::OutOfMemory;
use std::alloc::Global;

/// The names that are seen: those after the first `base` ones, of which those after the first
/// `start` ones are of the innermost scope.
#[derive(Drop)]
pub struct Scope {
    pub declared: Declarations,
    pub base: usize,
    pub start: usize,
    ghost based: { base ≤ start },
    ghost within: { start ≤ length declared.list.items },
}

/// What a scope was before one inside.
#[derive(Clone, Copy)]
pub struct OuterScope {
    pub base: usize,
    pub start: usize,
}

impl Scope {
    ghost use Rattle.program_walk.specs.Views.{scope_of, local_array};

    /// No names.
    pub fn new(alloc: Global) -> Scope
        ensures { scope_of result ≡ no_scope }
    {
        Scope {
            declared: Declarations::new(alloc),
            base: 0,
            start: 0,
        }
    }

    /// Whether the innermost local of a name is an array; none where there is no local of the name.
    pub fn array_of(&self, id: u32) -> Option<bool>
        ensures { result ≡ local_array (scope_of self.now) id }
    {
        let last = self.declared.last(id);
        if last <= self.base {
            return None;
        }
        let declaration = self.declared.list[last - 1];
        Some(declaration.array)
    }

    /// Whether a name is declared in the innermost scope.
    pub fn is_here(&self, id: u32) -> bool
        ensures { result ≡ is_among id (scope_of self.now).here }
    {
        self.start < self.declared.last(id)
    }

    /// Declares a name, unless it is declared there before.
    pub fn declare(&mut self, id: u32, array: bool) -> Result<(), OutOfMemory>
        ensures scope { OnOk result (scope_of self.new ≡ with_name (scope_of self.old) id array) }
        ensures frame { OnOk result ((self.new.base ≡ self.old.base) × (self.new.start ≡ self.old.start)) }
        ensures front { OnOk result (take self.old.start self.new.declared.list.items
            ≡ take self.old.start self.old.declared.list.items) }
    {
        if !self.is_here(id) {
            self.declared.push(id, array)?;
        }
        Ok(())
    }

    /// Enters a scope inside; the answer is handed to `leave`.
    pub fn enter(&mut self) -> OuterScope
        ensures frame { (result.base ≡ self.old.base) × (result.start ≡ self.old.start) }
        ensures scope { scope_of self.new ≡ inner_scope (scope_of self.old) }
        ensures inside { (self.new.base ≡ self.old.base) × (self.new.start ≡ length self.old.declared.list.items) }
        ensures list { self.new.declared.list.items ≡ self.old.declared.list.items }
    {
        let outer = OuterScope {
            base: self.base,
            start: self.start,
        };
        self.start = self.declared.list.len();
        outer
    }

    /// Enters a scope that sees no name outside; the answer is handed to `leave`.
    pub fn hide(&mut self) -> OuterScope
        ensures frame { (result.base ≡ self.old.base) × (result.start ≡ self.old.start) }
        ensures scope { scope_of self.new ≡ no_scope }
        ensures inside { (self.new.base ≡ length self.old.declared.list.items)
            × (self.new.start ≡ length self.old.declared.list.items) }
        ensures list { self.new.declared.list.items ≡ self.old.declared.list.items }
    {
        let outer = OuterScope {
            base: self.base,
            start: self.start,
        };
        let len = self.declared.list.len();
        self.base = len;
        self.start = len;
        outer
    }

    /// Forgets the names of the innermost scope.
    pub fn leave(&mut self, outer: OuterScope)
        requires base { outer.base ≤ outer.start }
        requires start { outer.start ≤ self.old.start }
        ensures list { self.new.declared.list.items ≡ take self.old.start self.old.declared.list.items }
        ensures frame { (self.new.base ≡ outer.base) × (self.new.start ≡ outer.start) }
    {
        let start = self.start;
        self.base = outer.base;
        self.start = outer.start;
        self.declared.truncate(start);
    }
}
