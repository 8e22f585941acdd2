//! The names of the inputs, to be found fast.
ghost use Rattle.std.specs.Prelude.{◌≡◌, ◌<◌, length, slice_get, IfOk, IfSome, IsTrue, Some};
ghost use Rattle.std.specs.List.{position, position_or_len};
ghost use Rattle.std.specs.Str.{bytes_eq};
ghost use Rattle.trace_rows.specs.Trace.{places_of};
ghost use Rattle.trace_rows.specs.declared.names.TheConstants.{SLOTS};

use forec_base::{Labels, OutOfMemory};
use std::alloc::Global;

/// How many places there are to look for a name.
pub const SLOTS: usize = 256;

/// The slot behind a further byte of a name.
pub fn next_slot(slot: usize, b: u8) -> usize
    ensures { result < SLOTS }
{
    (slot % SLOTS * 31 + usize::from(b)) % SLOTS
}

/// Where a name is looked for first.
fn slot_of(name: &[u8]) -> usize
    ensures { result < SLOTS }
{
    let mut slot = 0;
    for i in 0..name.len() {
        slot = next_slot(slot, name[i]);
    }
    slot % SLOTS
}

/// Where a name stands first among texts, or how many texts there are.
fn place_of(texts: &Labels, name: &[u8]) -> usize
    ensures { result ≡ position_or_len (bytes_eq name.now) texts.now }
{
    for i in 0..texts.len() {
        if name == texts.get(i).as_bytes() {
            return i as usize;
        }
    }
    texts.len() as usize
}

fn copied(alloc: Global, texts: &Labels) -> Result<Labels, OutOfMemory>
    ensures { IfOk result (λ copy. copy ≡ texts.now) }
{
    let mut copy = Labels::new(alloc)?;
    for i in 0..texts.len() {
        copy.push(texts.get(i))?;
    }
    Ok(copy)
}

/// For each text where it stands first.
fn first_places(alloc: Global, texts: &Labels) -> Result<Vec<usize>, OutOfMemory>
    ensures { IfOk result (λ places. places.items ≡ places_of texts.now texts.now) }
{
    let mut places = vec![in alloc; 0usize; texts.len() as usize]?;
    for i in 0..texts.len() {
        places[i as usize] = place_of(texts, texts.get(i).as_bytes());
    }
    Ok(places)
}

/// The first slot from `slot` on that has no number yet.
fn free_slot(slots: &[u32], slot: usize) -> Option<usize>
    requires { length slots.now ≡ SLOTS }
    ensures { IfSome result (λ at. at < SLOTS) }
{
    for turn in 0..SLOTS {
        let at = (slot % SLOTS + turn) % SLOTS;
        if slots[at] == u32::MAX {
            return Some(at);
        }
    }
    None
}

/// Puts the number of each text into a slot, as far as there are any.
fn hints(alloc: Global, texts: &Labels) -> Result<Vec<u32>, OutOfMemory>
    ensures { IfOk result (λ slots. length slots.items ≡ SLOTS) }
{
    let mut slots = vec![in alloc; u32::MAX; SLOTS]?;
    for i in 0..texts.len() {
        if let Some(at) = free_slot(&slots, slot_of(texts.get(i).as_bytes())) {
            slots[at] = i;
        }
    }
    Ok(slots)
}

/// Names with hints where to look for each: a slot from the bytes of the name on has its number. Of equal names the first counts.
#[derive(Drop)]
pub struct Names {
    texts: Labels,
    firsts: Vec<usize>,
    slots: Vec<u32>,
    ghost first: { firsts.items ≡ places_of texts texts },
    ghost room: { length slots.items ≡ SLOTS },
}

impl Names {
    /// A copy of these names.
    pub fn new(alloc: Global, texts: &Labels) -> Result<Names, OutOfMemory>
        ensures { IfOk result (λ names. names.texts ≡ texts.now) }
    {
        let texts = copied(alloc, texts)?;
        let firsts = first_places(alloc, &texts)?;
        let slots = hints(alloc, &texts)?;
        Ok(Names {
            texts,
            firsts,
            slots,
        })
    }

    fn is_name(&self, i: usize, name: &[u8]) -> bool
        ensures { IsTrue result → slice_get self.now.texts i ≡ Some name.now }
    {
        if i >= self.texts.len() as usize {
            return false;
        }
        name == self.texts.get(i as u32).as_bytes()
    }

    /// The number of this name, if a slot tells it.
    fn hinted(&self, name: &[u8], slot: usize) -> Option<usize>
        ensures { IfSome result (λ i. slice_get self.now.texts i ≡ Some name.now) }
    {
        for turn in 0..SLOTS {
            let i = self.slots[(slot % SLOTS + turn) % SLOTS];
            if i == u32::MAX {
                return None;
            }
            if self.is_name(i as usize, name) {
                return Some(i as usize);
            }
        }
        None
    }

    /// Where a name stands first among these, if it is one of them. `slot` is that of its bytes, and `next` is where it
    /// is looked for first.
    pub fn find(&self, name: &[u8], slot: usize, next: usize) -> Option<usize>
        ensures { result ≡ position (bytes_eq name.now) self.now.texts }
    {
        if self.is_name(next, name) {
            return Some(self.firsts[next]);
        }
        if let Some(i) = self.hinted(name, slot) {
            return Some(self.firsts[i]);
        }
        let place = place_of(&self.texts, name);
        if place < self.texts.len() as usize {
            return Some(place);
        }
        None
    }
}
