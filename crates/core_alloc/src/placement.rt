//! Placements.

ghost use Rattle.std.specs.Prelude.{◌≡◌, ◌==◌, ◌<◌, ◌≤◌, ◌^◌, Some, All, length, slice_get};
ghost use Rattle.std.specs.List.{list_all};

use std::marker::Model;

/// A number of cores, and the core of each thread.
#[derive(Drop)]
pub struct Placement {
    cores: u32,
    places: Vec<u32>,
}

impl Model for Placement {
    ghost use Rattle.core_alloc.specs.Places.{Places, IsPlaced};

    ghost Value = { Places };

    ghost view = { λ p. record { cores = p.cores; places = p.places.items } };

    ghost invariant = { λ p. IsPlaced p.cores p.places.items };
}

/// Whether each of these cores is this one.
fn are_all(core: u32, cores: &[u32]) -> bool
    ensures { result ≡ list_all (λ other. other == core) cores.now }
{
    cores.iter().all(|other| *other == core)
}

impl Placement {
    ghost use Rattle.core_alloc.specs.Places.{is_on_one_core};

    /// The placement of these threads on so many cores.
    pub(crate) fn of(cores: u32, places: Vec<u32>) -> Placement
        requires some { 1 ≤ cores }
        requires below { All (λ core. core < cores) places.items }
        requires few { length places.items < 2 ^ 32 }
        ensures { result ≡ record { cores = cores; places = places.items } }
    {
        Placement { cores, places }
    }

    /// How many cores there are, at least 1.
    pub fn cores(&self) -> u32
        ensures value { result ≡ self.now.cores }
        ensures some { 1 ≤ result }
    {
        self.cores
    }

    /// How many threads are placed.
    pub fn threads(&self) -> u32
        ensures { result ≡ length self.now.places }
    {
        self.places.len() as u32
    }

    /// The core of thread number `t`.
    pub fn core(&self, t: u32) -> u32
        requires { t < length self.now.places }
        ensures value { slice_get self.now.places t ≡ Some result }
        ensures below { result < self.now.cores }
    {
        self.places[t as usize]
    }
    /// Whether all threads have the same core.
    pub fn has_one_core(&self) -> bool
        ensures { result ≡ is_on_one_core self.now.places }
    {
        match self.places.first() {
            Some(core) => are_all(*core, &self.places),
            None => true,
        }
    }
}
