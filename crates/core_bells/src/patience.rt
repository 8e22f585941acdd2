//! How often a core looks in vain before it sleeps.

/// The most looks: some 20 microseconds on processors whose `pause` takes 12 cycles, and 200 on those where it takes 140. A sleep and
/// a wake take about as long, and who waits as long as they cost takes at most twice the least time (Karlin et al., "Empirical
/// Studies of Competitive Spinning for a Shared-Memory Multiprocessor", 1991).
const MOST: u32 = 4096;

/// The fewest.
const FEWEST: u32 = 4;

/// So many waits in a row without a find, and the next one is a long one again.
const TRIAL: u32 = 16;

/// How long a core looks before it sleeps: long where looking paid, and each time half as long where it was in vain.
#[derive(Drop)]
pub(crate) struct Patience {
    looks: u32,
    vain: u32,
}

impl Patience {
    pub(crate) fn new() -> Patience {
        Patience {
            looks: MOST,
            vain: 0,
        }
    }

    /// How often to look this time.
    pub(crate) fn looks(&self) -> u32 {
        if self.vain >= TRIAL { MOST } else { self.looks }
    }

    /// The core heard a ring while it looked, and found something to do there.
    pub(crate) fn pay(&mut self) {
        self.looks = MOST;
        self.vain = 0;
    }

    /// It heard none, or found nothing: somebody else had taken it.
    pub(crate) fn lose(&mut self) {
        if self.vain >= TRIAL {
            self.vain = 0;
            return;
        }
        self.looks = (self.looks / 2).max(FEWEST);
        self.vain = self.vain.saturating_add(1);
    }
}
