//! What a thread has beside its frames: copies of variables, flags, its living branches, and the
//! branches of each par.

ghost use Rattle.std.specs.Prelude.{◌≡◌, ◌+◌, ◌<◌, ◌≤◌, length, get_or, true, false, cond, IfOk};
ghost use Rattle.thread_state.specs.Kept.{PlainOwn, AreIndexed, place_in, no_copy, with_copy, with_copy_at, with_flag, with_live_at, without_branches, begun_own, with_copies, HavePlaces, handed_by};
ghost use Rattle.thread_state.specs.Pars.{used_by};

use crate::pars::Pars;
use forec_base::OutOfMemory;
use forec_kernel::VarCopy;
use std::alloc::Global;
use std::marker::Model;

/// The copies stand in the order of the variables that the thread uses, and `places` has, for variable
/// numbers from 0 on, where a copy stands. The thread's starts are numbered from 1 on. `live` has for each
/// thread the present start's number where it is a branch of this one that was forked since then and has
/// not ended; else a smaller one.
#[derive(Drop)]
pub struct Own {
    copies: Vec<VarCopy>,
    places: Vec<u32>,
    flags: Vec<bool>,
    live: Vec<u32>,
    start: u32,
    pars: Pars,
}

impl Model for Own {
    ghost use Rattle.std.specs.Prelude.{◌<◌};
    ghost use Rattle.thread_state.specs.Kept.{PlainOwn, kept_of, lives_in, AreUpTo};

    ghost Value = { PlainOwn };

    ghost view = { λ k. kept_of k.copies.items k.places.items k.flags.items (lives_in k.start k.live.items) k.pars };

    ghost invariant = { λ k. (0 < k.start) × AreUpTo k.start k.live.items };
}

/// Where the copies of these variables stand, for variable numbers from 0 on.
fn places_of(alloc: Global, uses: &[u32]) -> Result<Vec<u32>, OutOfMemory>
    ensures { IfOk result (λ places. AreIndexed uses.now places.items) }
{
    let most = uses.iter().copied().max().map_or(0, |v| v as usize + 1);
    let count = u32::try_from(uses.len()).map_err(|_| OutOfMemory)?;
    let mut places = vec![in alloc; 0; most]?;
    let mut i = count;
    while i > 0 {
        i -= 1;
        places[uses[i as usize] as usize] = i;
    }
    Ok(places)
}

/// What is noted of a thread at a start.
fn note(start: u32, live: bool) -> u32
    ensures { result ≡ cond live start 0 }
{
    if live { start } else { 0 }
}

impl Own {
    /// A copy for each of these variables, so many flags, a note for each of so many threads, and the
    /// branches of these pars.
    ///
    /// # Errors
    ///
    /// Out of memory.
    pub fn new(
        alloc: Global,
        uses: &[u32],
        flags: u32,
        threads: usize,
        pars: Pars,
    ) -> Result<Own, OutOfMemory>
        ensures copies { IfOk result (λ k. length k.copies ≡ length uses.now) }
        ensures places { IfOk result (λ k. AreIndexed uses.now k.places) }
        ensures flags { IfOk result (λ k. length k.flags ≡ flags) }
        ensures live { IfOk result (λ k. length k.live ≡ threads) }
        ensures pars { IfOk result (λ k. k.pars ≡ pars) }
    {
        let unset = VarCopy {
            value: 0,
            modified: false,
        };
        Ok(Own {
            copies: vec![in alloc; unset; uses.len()]?,
            places: places_of(alloc, uses)?,
            flags: vec![in alloc; false; flags as usize]?,
            live: vec![in alloc; 0; threads]?,
            start: 1,
            pars,
        })
    }

    /// The thread's own copy of a variable that it uses.
    pub fn copy(&self, variable: u32) -> i32
        requires known { variable < length self.now.places }
        requires inside { place_in self.now variable < length self.now.copies }
        ensures { result ≡ (get_or self.now.copies (place_in self.now variable) no_copy).value }
    {
        self.copies[self.places[variable as usize] as usize].value
    }

    /// Assigns the copy of a variable, and marks it.
    pub fn assign(&mut self, variable: u32, value: i32)
        requires known { variable < length self.old.places }
        requires inside { place_in self.old variable < length self.old.copies }
        ensures { self.new ≡ with_copy variable (record { value = value; modified = true }) self.old }
    {
        self.copies[self.places[variable as usize] as usize] = VarCopy {
            value,
            modified: true,
        };
    }

    /// The thread's own copy of the variable that comes so many after another one.
    pub fn element(&self, first: u32, index: usize) -> i32
        requires known { first + index < length self.now.places }
        requires inside { place_in self.now (first + index) < length self.now.copies }
        ensures { result ≡ (get_or self.now.copies (place_in self.now (first + index)) no_copy).value }
    {
        self.copies[self.places[first as usize + index] as usize].value
    }

    /// Assigns the copy of the variable that comes so many after another one, and marks it.
    pub fn assign_element(&mut self, first: u32, index: usize, value: i32)
        requires known { first + index < length self.old.places }
        requires inside { place_in self.old (first + index) < length self.old.copies }
        ensures { self.new ≡ with_copy (first + index) (record { value = value; modified = true }) self.old }
    {
        self.copies[self.places[first as usize + index] as usize] = VarCopy {
            value,
            modified: true,
        };
    }

    /// Where the copy of a variable stands.
    pub fn place(&self, variable: u32) -> usize
        requires { variable < length self.now.places }
        ensures { result ≡ place_in self.now variable }
    {
        self.places[variable as usize] as usize
    }

    /// The copy at a place.
    pub fn copy_at(&self, at: usize) -> VarCopy
        requires { at < length self.now.copies }
        ensures { result ≡ get_or self.now.copies at no_copy }
    {
        self.copies[at]
    }

    /// Sets the thread's copy of the shared variable at this place of its list.
    pub fn set_copy(&mut self, at: usize, copy: VarCopy)
        requires { at < length self.old.copies }
        ensures { self.new ≡ with_copy_at at copy self.old }
    {
        self.copies[at] = copy;
    }

    /// Whether the flag of an abort is set.
    pub fn is_set(&self, flag: u32) -> bool
        requires { flag < length self.now.flags }
        ensures { result ≡ get_or self.now.flags flag false }
    {
        self.flags[flag as usize]
    }

    /// Sets the flag of an abort, or clears it.
    pub fn set_flag(&mut self, flag: u32, value: bool)
        requires { flag < length self.old.flags }
        ensures { self.new ≡ with_flag flag value self.old }
    {
        self.flags[flag as usize] = value;
    }

    /// Whether a branch, given by its thread, has not ended yet.
    pub fn is_live(&self, thread: usize) -> bool
        requires { thread < length self.now.live }
        ensures { result ≡ get_or self.now.live thread false }
    {
        self.live[thread] == self.start
    }

    /// Notes whether a branch, given by its thread, goes on.
    pub fn set_live(&mut self, thread: u32, live: bool)
        requires { thread < length self.old.live }
        ensures { self.new ≡ with_live_at thread live self.old }
    {
        let note = note(self.start, live);
        self.live[thread as usize] = note;
    }

    /// The branches of each par.
    pub fn pars(&self) -> &Pars
        ensures { result.now ≡ self.now.pars }
    {
        &self.pars
    }

    /// The thread's copies, in the order of the variables that it uses.
    pub fn copies(&self) -> &[VarCopy]
        ensures { result.now ≡ self.now.copies }
    {
        &self.copies
    }

    /// Writes the present values of the variables that a branch uses, unmarked.
    pub fn hand_down(&self, branch: u32, copies: &mut [VarCopy])
        requires branch { branch < length self.now.pars.uses }
        requires places { HavePlaces self.now (used_by self.now.pars branch) }
        requires room { length copies.old ≡ length (used_by self.now.pars branch) }
        ensures { copies.new ≡ handed_by self.now (used_by self.now.pars branch) }
    {
        let uses = &self.pars.uses(branch)[..copies.len()];
        for (i, copy) in copies.iter_mut().enumerate() {
            *copy = VarCopy {
                value: self.copy(uses[i]),
                modified: false,
            };
        }
    }

    /// Takes these copies.
    pub fn receive(&mut self, copies: &[VarCopy])
        requires { length copies.now ≡ length self.old.copies }
        ensures { self.new ≡ with_copies copies.now self.old }
    {
        self.copies.copy_from_slice(copies);
    }

    /// Takes these copies, sets no flag, and has no branch.
    pub fn restart(&mut self, copies: &[VarCopy])
        requires { length copies.now ≡ length self.old.copies }
        ensures { self.new ≡ begun_own copies.now self.old }
    {
        self.copies.copy_from_slice(copies);
        self.flags.fill(false);
        self.forget_branches();
    }

    /// Takes the present values of the variables that it uses, as branch `branch` of the thread with `parent`, unmarked.
    #[inline(always)]
    pub fn receive_from(&mut self, parent: &Own, branch: u32)
        requires branch { branch < length parent.now.pars.uses }
        requires places { HavePlaces parent.now (used_by parent.now.pars branch) }
        requires room { length self.old.copies ≡ length (used_by parent.now.pars branch) }
        ensures { self.new ≡ with_copies (handed_by parent.now (used_by parent.now.pars branch)) self.old }
    {
        parent.hand_down(branch, &mut self.copies);
    }

    /// The same, sets no flag, and has no branch.
    pub fn restart_from(&mut self, parent: &Own, branch: u32)
        requires branch { branch < length parent.now.pars.uses }
        requires places { HavePlaces parent.now (used_by parent.now.pars branch) }
        requires room { length self.old.copies ≡ length (used_by parent.now.pars branch) }
        ensures { self.new ≡ begun_own (handed_by parent.now (used_by parent.now.pars branch)) self.old }
    {
        self.receive_from(parent, branch);
        self.flags.fill(false);
        self.forget_branches();
    }

    /// No branch lives: another start begins.
    fn forget_branches(&mut self)
        ensures { self.new ≡ without_branches self.old }
    {
        if self.start < u32::MAX {
            self.start += 1;
            return;
        }
        self.live.fill(0);
        self.start = 1;
    }
}
