//! Which cores were rung, and which sleep.

use std::sync::atomic::AtomicU64;
use std::sync::atomic::Ordering::SeqCst;

/// Words that all cores share, with a bit for each core.
///
/// A core is *rung* by who sent it something, after the sending, and until somebody looks there. It is *asleep* from before its
/// last look until it is woken.
#[derive(Drop)]
pub(crate) struct Watch {
    rung: AtomicU64,
    asleep: AtomicU64,
    /// Whether no core is to sleep any more: 0, or 1.
    closed: AtomicU64,
    /// The core of thread 0.
    root: u32,
}

/// The bit of a core.
pub(crate) fn bit(core: u32) -> u64 {
    1u64 << (core % 64)
}

/// The core of thread 0.
fn first_place(places: &[u32]) -> u32 {
    match places.first() {
        Some(core) => *core,
        None => 0,
    }
}

impl Watch {
    /// For threads that are placed on these cores: none is rung, and none sleeps.
    pub(crate) fn new(places: &[u32]) -> Watch {
        Watch {
            rung: AtomicU64::new(0),
            asleep: AtomicU64::new(0),
            closed: AtomicU64::new(0),
            root: first_place(places),
        }
    }

    /// The bits of the cores that were rung.
    pub(crate) fn rung(&self) -> u64 {
        self.rung.load(SeqCst)
    }

    /// Whether it is the core of thread 0.
    pub(crate) fn is_root(&self, core: u32) -> bool {
        core == self.root
    }

    pub(crate) fn is_rung(&self, core: u32) -> bool {
        self.rung() & bit(core) != 0
    }

    pub(crate) fn ring(&self, core: u32) {
        if !self.is_rung(core) {
            self.rung.fetch_or(bit(core), SeqCst);
        }
    }

    /// From now on no core falls asleep. Those that sleep are to be woken.
    pub(crate) fn close(&self) {
        self.closed.store(1, SeqCst);
    }

    pub(crate) fn is_closed(&self) -> bool {
        self.closed.load(SeqCst) != 0
    }

    /// Somebody is about to look at what was sent to a core.
    pub(crate) fn hear(&self, core: u32) {
        if self.is_rung(core) {
            self.rung.fetch_and(!bit(core), SeqCst);
        }
    }

    /// The bits of the cores whose rings end a look of this core.
    pub(crate) fn minded(&self, core: u32) -> u64 {
        if core == self.root {
            return u64::MAX;
        }
        !bit(self.root)
    }

    /// The cores that were rung and that somebody else has in hand, as a core takes it that has just looked. Thread 0's core alone looks
    /// at what is sent to it.
    pub(crate) fn taken(&self, core: u32) -> u64 {
        if core == self.root {
            return self.rung() & !bit(core);
        }
        self.rung()
    }

    /// A core is about to look for the last time.
    pub(crate) fn lie_down(&self, core: u32) {
        self.asleep.fetch_or(bit(core), SeqCst);
    }

    pub(crate) fn rise(&self, core: u32) {
        if self.asleep.load(SeqCst) & bit(core) != 0 {
            self.asleep.fetch_and(!bit(core), SeqCst);
        }
    }

    /// Whether a core sleeps and was not woken yet.
    pub(crate) fn rouse(&self, core: u32) -> bool {
        self.asleep.load(SeqCst) & bit(core) != 0
            && self.asleep.fetch_and(!bit(core), SeqCst) & bit(core) != 0
    }

    /// Which core is to be woken for what was sent to this one: itself if it sleeps, or else the first one that does. Whoever is awake
    /// serves what was sent to any of them, but for the core of thread 0.
    pub(crate) fn rouse_for_work(&self, core: u32) -> Option<u32> {
        let asleep = self.asleep.load(SeqCst) & !bit(self.root);
        if asleep == 0 {
            return None;
        }
        let found = if asleep & bit(core) != 0 {
            core
        } else {
            asleep.trailing_zeros()
        };
        if self.rouse(found) { Some(found) } else { None }
    }
}
