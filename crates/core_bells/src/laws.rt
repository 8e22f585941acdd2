//! What holds of a queue of hints over every order of steps.

ghost use Rattle.core_bells.specs.Laws.{EveryHintStep};

/// Whichever pass steps next, each push, pop, split and join keeps the rule of the queue: no hint that was pushed is lost or
/// doubled, and none is made up.
pub fn every_step_is_ruled()
    ensures { EveryHintStep }
{}
