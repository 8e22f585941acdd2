//! The locals that a statement sees.

ghost use Rattle.std.specs.Prelude.{◌≡◌, ◌≤◌, ◌++◌, ◌∷◌, [], ℕ, map, length, drop, take, None, OnOk, OnErr};
ghost use Rattle.program_walk.specs.Declarations.{id_of};
ghost use Rattle.text_kernel.specs.Bindings as bindings;

use crate::parts::sum;
use forec_base::OutOfMemory;
use forec_tree::Name;
use program_walk::Declarations;
use std::alloc::Global;
use text_kernel::Slot;

/// Locals in the order of declaration, of which those after the first `base` are seen.
#[derive(Drop)]
pub struct Scope {
    declared: Declarations,
    pub slots: Vec<Slot>,
    pub base: usize,
    ghost same: { map id_of declared.list.items ≡ map bindings.slot_id slots.items },
    ghost within: { base ≤ length slots.items },
}

impl Scope {
    ghost use Rattle.lower_names.specs.Views.{seen, AppendsLocals, Same};

    /// No locals.
    pub fn new(alloc: Global) -> Scope
        ensures seen { seen result ≡ [] }
        ensures slots { result.slots.items ≡ [] }
        ensures base { result.base ≡ 0 }
    {
        Scope {
            declared: Declarations::new(alloc),
            slots: Vec::new(alloc),
            base: 0,
        }
    }

    /// How many locals there are, those that aren't seen among them.
    pub fn len(&self) -> usize
        ensures { result ≡ length self.now.slots.items }
    {
        self.slots.len()
    }

    /// The innermost local of a name.
    pub fn find(&self, id: u32) -> Option<Slot>
        ensures { result ≡ bindings.find_slot id None (seen self.now) }
    {
        let last = self.declared.last(id);
        if last <= self.base {
            return None;
        }
        let slot = self.slots[last - 1];
        Some(slot)
    }

    /// Declares a local.
    pub fn declare(&mut self, slot: Slot) -> Result<(), OutOfMemory>
        ensures seen { OnOk result (seen self.new ≡ seen self.old ++ slot ∷ []) }
        ensures kept { OnOk result (AppendsLocals self.old self.new) }
        ensures same { OnErr result (Same self.old self.new) }
    {
        self.slots.push(slot)?;
        if let Err(e) = self.declared.push(slot.id, slot.size.is_some()) {
            let _ = self.slots.pop();
            return Err(e);
        }
        Ok(())
    }

    /// Declares parameters, whose slots begin at `first`.
    pub fn declare_params(&mut self, first: u32, params: &[Name]) -> Result<(), OutOfMemory>
        ensures seen { OnOk result (seen self.new ≡ seen self.old ++ bindings.params_at first params.now) }
        ensures kept { OnOk result (AppendsLocals self.old self.new) }
    {
        let mut at = first;
        for p in params {
            self.declare(Slot {
                id: p.id,
                slot: at,
                size: None,
            })?;
            at = sum(at, 1)?;
        }
        Ok(())
    }

    /// Keeps the first so many locals.
    pub fn forget(&mut self, len: usize)
        requires seen { self.old.base ≤ len }
        requires within { len ≤ length self.old.slots.items }
        ensures slots { self.new.slots.items ≡ take len self.old.slots.items }
        ensures base { self.new.base ≡ self.old.base }
    {
        self.declared.truncate(len);
        self.slots.truncate(len);
    }

    /// Hides all locals, and answers how many were hidden before; the answer is handed to `show`.
    pub fn hide(&mut self) -> usize
        ensures before { result ≡ self.old.base }
        ensures seen { seen self.new ≡ [] }
        ensures base { self.new.base ≡ length self.old.slots.items }
        ensures slots { self.new.slots.items ≡ self.old.slots.items }
    {
        let before = self.base;
        self.base = self.slots.len();
        before
    }

    /// Forgets the locals that are seen, and sees those from `base` on again.
    pub fn show(&mut self, base: usize)
        requires { base ≤ self.old.base }
        ensures slots { self.new.slots.items ≡ take self.old.base self.old.slots.items }
        ensures base { self.new.base ≡ base }
    {
        let len = self.base;
        self.base = base;
        self.declared.truncate(len);
        self.slots.truncate(len);
    }
}
