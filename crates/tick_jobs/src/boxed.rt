//! Values that move as an address.

ghost use Rattle.std.specs.Prelude.{◌≡◌, IfOk};
ghost use Rattle.std.specs.Borrow.{Lends, sem};

use forec_base::OutOfMemory;
use std::alloc::Global;
use std::marker::Model;
use std::ops::{Deref, DerefMut};

/// A value in memory of its own, which moves as an address. A thread has some 400 bytes and a packet 80,
/// and at each job both go from hand to hand.
#[derive(Drop)]
pub struct Boxed<T> {
    place: Box<T>,
}

impl<T> Model for Boxed<T> {
    ghost Value = { T };

    ghost view = { λ b. b.place.value };
}

impl<T: Drop> Boxed<T> {
    /// The value, moved into memory of its own.
    ///
    /// # Errors
    ///
    /// Out of memory; the value is then dropped.
    pub fn new(alloc: Global, value: T) -> Result<Boxed<T>, OutOfMemory>
        ensures { IfOk result (λ b. b ≡ value) }
    {
        Ok(Boxed {
            place: Box::new(alloc, value)?,
        })
    }
}

impl<T> Deref for Boxed<T> {
    type Target = T;

    ghost deref_gives = { λ b x. x ≡ b };

    fn deref(&self) -> &T
        ensures { result.now ≡ self.now }
    {
        &self.place
    }
}

impl<T> DerefMut for Boxed<T> {
    ghost use Rattle.tick_jobs.specs.contracts.boxed.Boxed.{the_row};

    ghost deref_mut_gives = { λ b x. x ≡ b };

    fn deref_mut(&mut self) -> &mut T
        ensures* writes_back { sem 𝓛 (Lends (the_row T.row) T.row self.entry result (λ w. w)) }
        ensures value { result.now ≡ self.old }
    {
        &mut self.place
    }
}
