//! The branches of each par, linked so that those of one are found without a look at other threads, and the
//! variables that each thread uses.

ghost use Rattle.std.specs.Prelude.{◌≡◌, ◌+◌, ◌<◌, ◌^◌, length, get_or, IfSome, IfOk};
ghost use Rattle.forec_kernel.specs.Shapes.{plain_shape};
ghost use Rattle.thread_code.specs.Valid.{FineShape};
ghost use Rattle.thread_state.specs.Pars.{HavePars, first_of, sibling_at, used_by, arguments_from, with_first};

use crate::uses::Uses;
use forec_base::OutOfMemory;
use forec_kernel::Shape;
use std::alloc::Global;
use std::marker::Model;
use std::sync::Arc;

/// What stands after a thread in its par.
#[derive(Clone, Copy)]
pub struct Sibling {
    /// The next branch.
    next: Option<u32>,
    /// How many arguments the thread and all branches after it have together.
    arguments: u32,
}

/// The first branch of each par, and for each thread what stands after it in its par and what it uses.
#[derive(Drop)]
struct Table {
    firsts: Vec<Option<u32>>,
    siblings: Vec<Sibling>,
    uses: Uses,
}

impl Model for Table {
    ghost use Rattle.thread_state.specs.Pars.{Links, links_of};

    ghost Value = { Links };

    ghost view = { λ p. links_of p.firsts.items p.siblings.items p.uses };
}

impl Table {
    /// The pars of a shape.
    ///
    /// # Errors
    ///
    /// Out of memory.
    fn new(alloc: Global, shape: &Shape) -> Result<Table, OutOfMemory>
        requires { FineShape (plain_shape shape.now) }
        ensures { IfOk result (λ p. HavePars (plain_shape shape.now) p) }
    {
        let none = Sibling {
            next: None,
            arguments: 0,
        };
        let count = shape.threads.len();
        let mut pars = Table {
            firsts: vec![in alloc; None; count]?,
            siblings: vec![in alloc; none; count]?,
            uses: Uses::new(alloc, &shape.threads)?,
        };
        let mut thread = count as u32;
        while thread > 0 {
            thread -= 1;
            let found = &shape.threads[thread as usize];
            if let Some(par) = found.par {
                pars.put_first(par, thread, found.params);
            }
        }
        Ok(pars)
    }

    /// Puts a branch, with so many arguments of its own, in front of those of its par.
    fn put_first(&mut self, par: u32, branch: u32, arguments: u32)
        requires par { par < length self.old.firsts }
        requires branch { branch < length self.old.siblings }
        requires behind { IfSome (first_of self.old par) (λ b. b < length self.old.siblings) }
        requires few { arguments + arguments_from self.old.siblings (first_of self.old par) < 2 ^ 32 }
        ensures { self.new ≡ with_first par branch arguments self.old }
    {
        let next = self.firsts[par as usize];
        let behind = self.arguments_from(next);
        self.siblings[branch as usize] = Sibling {
            next,
            arguments: arguments + behind,
        };
        self.firsts[par as usize] = Some(branch);
    }

    /// How many arguments a branch and all after it in its par have together; 0 where there is none.
    fn arguments_from(&self, branch: Option<u32>) -> u32
        requires { IfSome branch (λ b. b < length self.now.siblings) }
        ensures { result ≡ arguments_from self.now.siblings branch }
    {
        match branch {
            Some(branch) => self.siblings[branch as usize].arguments,
            None => 0,
        }
    }

    /// The first branch of a par.
    fn first(&self, par: u32) -> Option<u32>
        ensures { result ≡ first_of self.now par }
    {
        match self.firsts.get(par as usize) {
            Some(first) => *first,
            None => None,
        }
    }

    /// The next branch after one of a par.
    fn next(&self, branch: u32) -> Option<u32>
        requires { branch < length self.now.siblings }
        ensures { result ≡ (sibling_at self.now.siblings branch).next }
    {
        self.siblings[branch as usize].next
    }
}

/// The pars of a code, in one table that all its threads share.
#[derive(Drop)]
pub struct Pars {
    table: Arc<Table>,
}

impl Model for Pars {
    ghost use Rattle.std.specs.Arc.{arc_value};
    ghost use Rattle.thread_state.specs.Pars.{Links};

    ghost Value = { Links };

    ghost view = { λ p. arc_value p.table };
}

impl Pars {
    /// The pars of a shape.
    ///
    /// # Errors
    ///
    /// Out of memory.
    pub fn new(alloc: Global, shape: &Shape) -> Result<Pars, OutOfMemory>
        requires { FineShape (plain_shape shape.now) }
        ensures { IfOk result (λ p. HavePars (plain_shape shape.now) p) }
    {
        let table = Table::new(alloc, shape)?;
        Ok(Pars {
            table: Arc::new(alloc, table)?,
        })
    }

    /// The same table once more, for another thread.
    ///
    /// # Errors
    ///
    /// More threads than can be counted.
    pub fn shared(&self) -> Result<Pars, OutOfMemory>
        ensures { IfOk result (λ p. p ≡ self.now) }
    {
        Ok(Pars {
            table: Arc::try_clone(&self.table)?,
        })
    }

    /// How many arguments a branch and all after it in its par have together; 0 where there is none.
    pub fn arguments_from(&self, branch: Option<u32>) -> u32
        requires { IfSome branch (λ b. b < length self.now.siblings) }
        ensures { result ≡ arguments_from self.now.siblings branch }
    {
        self.table.arguments_from(branch)
    }

    /// The first branch of a par.
    pub fn first(&self, par: u32) -> Option<u32>
        ensures { result ≡ first_of self.now par }
    {
        self.table.first(par)
    }

    /// The next branch after one of a par.
    pub fn next(&self, branch: u32) -> Option<u32>
        requires { branch < length self.now.siblings }
        ensures { result ≡ (sibling_at self.now.siblings branch).next }
    {
        self.table.next(branch)
    }

    /// The variables that a thread uses.
    pub fn uses(&self, thread: u32) -> &[u32]
        requires { thread < length self.now.uses }
        ensures { result.now ≡ used_by self.now thread }
    {
        self.table.uses.of(thread)
    }

    /// The variable at a place among those that a thread uses.
    pub fn use_at(&self, thread: u32, place: usize) -> u32
        requires { place < length (used_by self.now thread) }
        ensures { result ≡ get_or (used_by self.now thread) place 0 }
    {
        self.table.uses.at(thread, place)
    }
}
