//! The program that is translated.

ghost use Rattle.std.specs.Prelude.{◌≡◌, ◌∷◌, [], ℕ, None, Some, option_map, map, IfOk};
ghost use Rattle.forec_tree.specs.Plain as plain;
ghost use Rattle.forec_tree.specs.Pauses as pauses;
ghost use Rattle.forec_tree.specs.Faults.{Leads};
ghost use Rattle.loop_check.specs.Views.{indexed_text};
ghost use Rattle.loop_check.specs.Known.{FunctionOf};
ghost use Rattle.lower_names.specs.Additions.{BranchesAdd};
ghost use Rattle.lower_names.specs.Landings.{CallLands};
ghost use Rattle.lower_names.specs.Views.{OneText};

use crate::added::{Added, additions, of_branch};
use crate::globals::Globals;
use crate::landing::{Landing, landings, lands};
use forec_base::OutOfMemory;
use forec_tree::{Branch, Function, Item, Stmt};
use loop_check::{Pauses, order, read_calls};
use std::alloc::Global;

/// A program, with what its names stand for, the turns of its loops, where its calls land, and how many
/// threads and `par`s they add.
#[derive(Drop)]
pub struct Source<'p> {
    pub globals: Globals<'p>,
    pub pauses: Pauses<'p>,
    pub landings: Vec<Option<Landing<'p>>>,
    pub added: Vec<Option<Added>>,
}

impl<'p> Source<'p> {
    /// Reads a program in which no function reaches itself.
    ///
    /// # Errors
    ///
    /// Out of memory.
    pub fn of(alloc: Global, items: &'p [Item]) -> Result<Source<'p>, OutOfMemory>
        requires { (f : ℕ) → Leads (pauses.callees_of (map plain.plain_item items.now)) f f → ⊥ }
        ensures text { IfOk result (λ s. indexed_text s.globals.index ≡ map plain.plain_item items.now) }
        ensures same { IfOk result OneText }
    {
        let globals = Globals::of(alloc, items)?;
        let pauses = Pauses::of(alloc, items)?;
        let calls = read_calls(alloc, &globals.index)?;
        let order = order(alloc, &calls.functions, &calls.lists)?;
        let landings = landings(alloc, &globals.index, &order)?;
        let added = additions(alloc, &globals.index, &order)?;
        Ok(Source {
            globals,
            pauses,
            landings,
            added,
        })
    }

    /// The function of a name.
    pub fn function(&self, id: u32) -> Option<&'p Function>
        ensures { FunctionOf result (pauses.find_function id (indexed_text self.now.globals.index)) }
    {
        match self.globals.index.find(id) {
            Some(Item::Function { function }) => Some(function),
            _ => None,
        }
    }

    /// Where a call lands.
    pub fn landing(&self, s: &Stmt) -> Option<Landing<'p>>
        requires { OneText self.now }
        ensures { CallLands (indexed_text self.now.globals.index) (plain.statement s.now) result }
    {
        lands(&self.globals.index, &self.landings, s)
    }

    /// How many threads and `par`s a branch adds.
    ///
    /// # Errors
    ///
    /// Out of memory, also where there are more than 32 bits hold.
    pub fn added_by(&self, one: &Branch) -> Result<Added, OutOfMemory>
        requires { OneText self.now }
        ensures { IfOk result (BranchesAdd (indexed_text self.now.globals.index) (plain.branches (one.now ∷ []))) }
    {
        let added = of_branch(&self.added, one)?;
        Ok(added)
    }
}
