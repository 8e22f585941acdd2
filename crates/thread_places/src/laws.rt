//! Laws of the placements.

ghost use Rattle.thread_places.specs.Laws.{OnePlacement, SomePlacement};

/// A kernel's threads have one placement at most for what words say: the list's, or the balanced one.
pub fn one_placement()
    ensures { OnePlacement }
{}

/// Where no list of places is refused there is a placement.
pub fn some_placement()
    ensures { SomePlacement }
{}
