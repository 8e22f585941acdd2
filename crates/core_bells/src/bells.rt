//! The bells of all cores.
ghost use Rattle.std.specs.Prelude.{◌≡◌, ◌<◌, All, IfOk, List, length, map};
ghost use Rattle.thread_code.specs.Plain.{plain_code};
ghost use Rattle.core_bells.specs.Ropes.{AreFirsts, AreNewFirst, FitFirst, RopeState, new_ropes};

use crate::bed::Bed;
use crate::belfry::{Belfry, LooseRope};
use crate::hints::{HintPass, HintQueue};
use crate::passes::{open_all, passes_of};
use crate::rooms::{all_ends, places_of};
use crate::rope::Rope;
use crate::watch::Watch;
use core_alloc::Placement;
use crossbeam_utils::sync::{Parker, Unparker};
use forec_base::OutOfMemory;
use std::alloc::Global;
use std::collections::VecDeque;
use thread_code::Code;

/// The ropes that bells have to give out.
pub trait GivesRopes {
    /// It gave out none yet.
    ghost is_whole: { Self → Type 0 };

    /// The ropes, in the order of the cores.
    ghost ropes: { Self → List RopeState };
}

/// For each core, a queue of hints and what wakes the core; and the ropes to them.
#[derive(Drop)]
pub struct Bells {
    belfry: Belfry,
    loose: VecDeque<LooseRope>,
}

impl GivesRopes for Bells {
    ghost use Rattle.core_bells.specs.Ropes.{RopesFit, placed_on, states_of};

    ghost is_whole = { λ b. RopesFit (placed_on b.belfry.cores b.belfry.places.items) b.belfry.queues.items b.loose.items };

    ghost ropes = { λ b. states_of (placed_on b.belfry.cores b.belfry.places.items) b.belfry.queues.items b.loose.items };
}

/// What the ropes of all cores are made of, in order, and what wakes each core.
fn loosen(
    alloc: Global,
    queues: &[HintQueue],
    firsts: &mut Vec<HintPass>,
    cores: u32,
) -> Result<(VecDeque<LooseRope>, Vec<Unparker>), OutOfMemory>
    requires { AreFirsts 0 queues.now firsts.old.items }
    ensures fit { IfOk result (λ r. FitFirst queues.now cores r.0.items) }
    ensures states { IfOk result (λ r. AreNewFirst queues.now cores r.0.items) }
{
    let mut loose = VecDeque::new(alloc);
    let mut unparkers = Vec::new(alloc);
    for core in 0..cores {
        let parker = Parker::new(alloc)?;
        unparkers.push(parker.unparker().clone()?)?;
        let passes = passes_of(alloc, queues, firsts, core)?;
        loose.push_back(LooseRope {
            core,
            passes,
            parker,
        })?;
    }
    Ok((loose, unparkers))
}

impl Bells {
    /// Bells for the cores of a placement of the code's threads. The queue of each core has room for two hints for each end of a
    /// mailbox on that core, and for at least one.
    ///
    /// # Errors
    ///
    /// Out of memory.
    pub fn new(alloc: Global, code: &Code, placement: &Placement) -> Result<Bells, OutOfMemory>
        requires { length placement.now.places ≡ length (plain_code code.now).threads }
        ensures whole { IfOk result (λ b. ⟦<Bells as GivesRopes>⟧.is_whole b) }
        ensures ropes { IfOk result (λ b. ⟦<Bells as GivesRopes>⟧.ropes b
            ≡ new_ropes code.now placement.now placement.now.cores) }
    {
        let places = places_of(alloc, placement)?;
        let ends = all_ends(alloc, code.shape(), &places)?;
        let cores = placement.cores();
        let (queues, mut firsts) = open_all(alloc, &ends, cores)?;
        let (loose, unparkers) = loosen(alloc, &queues, &mut firsts, cores)?;
        let watch = Watch::new(&places);
        let belfry = Belfry {
            cores,
            places,
            queues,
            unparkers,
            watch,
        };
        Ok(Bells { belfry, loose })
    }

    /// A rope for each core, in order. The bells must not have given them out before.
    ///
    /// # Errors
    ///
    /// Out of memory. Then none was given out.
    pub fn ropes<'b>(&'b mut self, alloc: Global) -> Result<Vec<Rope<'b>>, OutOfMemory>
        requires { ⟦<Bells as GivesRopes>⟧.is_whole self.old }
        ensures { IfOk result (λ ropes. ropes.items ≡ ⟦<Bells as GivesRopes>⟧.ropes self.old) }
    {
        let Bells { belfry, loose } = self;
        let mut ropes = Vec::with_capacity(alloc, loose.len())?;
        let belfry: &'b Belfry = belfry;
        'cores: while let Some(rope) = loose.pop_front() {
            let LooseRope {
                core,
                passes,
                parker,
            } = rope;
            ropes.push_reserved(Rope {
                belfry,
                core,
                passes,
                bed: Some(Bed::new(belfry, core, parker)),
                due: None,
                pushed: 0,
            });
        }
        Ok(ropes)
    }
}
