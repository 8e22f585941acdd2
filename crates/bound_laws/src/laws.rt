//! Laws of the bound.

ghost use Rattle.bound_laws.specs.Laws.{TickWithinBound, NeverOver, RunsNeverOver};

/// No tick of a paced kernel takes more units than its worst case, so with such a budget none is over: whatever state
/// is reached, whatever the row, and in every order of steps.
pub fn no_tick_passes_the_bound()
    ensures units { TickWithinBound }
    ensures never_over { NeverOver }
    ensures runs { RunsNeverOver }
{}
