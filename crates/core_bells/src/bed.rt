//! What a core waits by.

use crate::belfry::Belfry;
use crate::patience::Patience;
use crate::watch::bit;
use crossbeam_utils::sync::Parker;
use std::hint::spin_loop;
use std::sync::Wait;

/// What a core waits by. It *works*; where it finds nothing to do it *looks* for some time, then it says that it sleeps, looks once
/// more at all that it serves, and *sleeps*.
#[derive(Drop)]
pub struct Bed<'b> {
    pub(crate) belfry: &'b Belfry,
    pub(crate) core: u32,
    pub(crate) parker: Parker,
    pub(crate) patience: Patience,
    /// A ring ended its last look.
    pub(crate) heard: bool,
    /// It has said that it sleeps.
    pub(crate) lies: bool,
}

impl<'b> Bed<'b> {
    /// The bed of a core, which this parker wakes.
    pub(crate) fn new(belfry: &'b Belfry, core: u32, parker: Parker) -> Bed<'b> {
        Bed {
            belfry,
            core,
            parker,
            patience: Patience::new(),
            heard: false,
            lies: false,
        }
    }

    /// Whether the core has said that it sleeps: the next look is the last one.
    pub fn lies(&self) -> bool {
        self.lies
    }

    /// Looks for further rings. Whether there was one before its patience ended.
    fn looks(&mut self) -> bool {
        let watch = &self.belfry.watch;
        let minded = watch.minded(self.core);
        let mut seen = watch.taken(self.core);
        for _ in 0..self.patience.looks() {
            let rung = watch.rung();
            if rung & minded & !seen != 0 {
                return true;
            }
            seen &= rung;
            spin_loop();
        }
        false
    }

    /// What a core does after it looked at all that it serves, and found nothing to do: it looks for rings for some time, says that it
    /// sleeps, and after one more look sleeps until it is woken.
    pub fn rest<R: Wait>(&mut self, rt: &R) {
        if self.lies {
            if !self.belfry.watch.is_closed() {
                self.parker.park(rt);
            }
            self.stand_up();
            return;
        }
        if self.heard {
            self.patience.lose();
        }
        self.heard = self.looks();
        if !self.heard {
            self.patience.lose();
            self.belfry.watch.lie_down(self.core);
            self.lies = true;
        }
    }

    /// Sleeps until the core is woken. If it was rung and nobody has looked there since, it doesn't sleep at all.
    pub(crate) fn sleep<R: Wait>(&mut self, rt: &R) {
        let watch = &self.belfry.watch;
        watch.lie_down(self.core);
        if !watch.is_rung(self.core) && !watch.is_closed() {
            self.parker.park(rt);
        }
        watch.rise(self.core);
    }

    /// The core found something to do, so it doesn't sleep.
    pub fn rise(&mut self) {
        if self.heard {
            self.patience.pay();
            self.heard = false;
        }
        self.stand_up();
    }

    fn stand_up(&mut self) {
        if self.lies {
            self.belfry.watch.rise(self.core);
            self.lies = false;
        }
    }
}

/// What all cores see of each other.
#[derive(Clone, Copy)]
pub struct Rings<'b> {
    pub(crate) belfry: &'b Belfry,
}

impl<'b> Rings<'b> {
    /// The cores that were rung and at which nobody has looked since.
    pub fn rung(&self) -> Rung {
        Rung {
            bits: self.belfry.watch.rung(),
        }
    }
}

/// Cores that were rung.
#[derive(Clone, Copy)]
pub struct Rung {
    bits: u64,
}

impl Rung {
    /// Whether no core was rung.
    pub fn is_empty(self) -> bool {
        self.bits == 0
    }

    /// Whether this core was rung.
    pub fn has(self, core: u32) -> bool {
        self.bits & bit(core) != 0
    }
}
