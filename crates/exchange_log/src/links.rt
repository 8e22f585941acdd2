//! Links between the entries of a mailbox.
//!
//! Each entry has a link to the next one of its mailbox. Links only say where to look: who follows one looks whether the entry is
//! the one.

use forec_base::OutOfMemory;
use std::alloc::Global;

/// For each entry the next one of its mailbox, and for each mailbox its first entry and its last.
#[derive(Drop)]
pub struct Links {
    /// The last entry of a mailbox has itself.
    next: Vec<u32>,
    first: Vec<u32>,
    last: Vec<u32>,
}

impl Links {
    /// Links for so many entries of so many mailboxes.
    ///
    /// # Errors
    ///
    /// Out of memory.
    pub fn new(alloc: Global, mailboxes: u32, entries: usize) -> Result<Links, OutOfMemory> {
        Ok(Links {
            next: Vec::with_capacity(alloc, entries)?,
            first: vec![in alloc; u32::MAX; mailboxes as usize]?,
            last: vec![in alloc; u32::MAX; mailboxes as usize]?,
        })
    }

    /// Links the entry that comes next, of mailbox k.
    pub fn add(&mut self, k: u32) {
        let Ok(place) = u32::try_from(self.next.len()) else {
            return;
        };
        let _ = self.next.push(place);
        let Some(last) = self.last.get_mut(k as usize) else {
            return;
        };
        let before = *last;
        *last = place;
        if let Some(next) = self.next.get_mut(before as usize) {
            *next = place;
        } else if let Some(first) = self.first.get_mut(k as usize) {
            *first = place;
        }
    }

    /// The first entry of mailbox k, where there is one.
    pub fn first(&self, k: u32) -> u32 {
        self.first.get(k as usize).copied().unwrap_or(0)
    }

    /// The entry of its mailbox after this one, where there is one.
    pub fn after(&self, at: usize) -> u32 {
        self.next.get(at).copied().unwrap_or(0)
    }
}
