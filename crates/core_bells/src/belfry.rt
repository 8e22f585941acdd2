//! What the ropes of all cores share.

use crate::hints::{HintPass, HintQueue};
use crate::watch::Watch;
use crossbeam_utils::sync::{Parker, Unparker};

/// The core of each thread; for each core, the queue of its hints and what wakes it; which cores were rung, and which sleep.
#[derive(Drop)]
pub struct Belfry {
    pub(crate) cores: u32,
    pub(crate) places: Vec<u32>,
    pub(crate) queues: Vec<HintQueue>,
    pub(crate) unparkers: Vec<Unparker>,
    pub(crate) watch: Watch,
}

impl Belfry {
    fn unpark(&self, core: u32) {
        if let Some(unparker) = self.unparkers.get(core as usize) {
            unparker.unpark();
        }
    }

    /// Wakes a core, if it sleeps.
    pub(crate) fn wake(&self, core: u32) {
        if self.watch.rouse(core) {
            self.unpark(core);
        }
    }

    /// Wakes a core that sleeps for what was sent to this one: itself, if it is one of those.
    pub(crate) fn wake_for_work(&self, core: u32) {
        if let Some(found) = self.watch.rouse_for_work(core) {
            self.unpark(found);
        }
    }
}

/// What a core's rope is made of: a pass of each queue, and the core's parker.
#[derive(Drop)]
pub struct LooseRope {
    pub(crate) core: u32,
    pub(crate) passes: Vec<HintPass>,
    pub(crate) parker: Parker,
}
