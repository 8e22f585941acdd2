//! The rule of a queue of hints.

use crossbeam_queue::protocol::{Join, Lesson, Outcome, Protocol, Split};
use crossbeam_queue::{Pass, RuledArrayQueue};
use std::collections::LinkedList;

/// What a pass pushed and popped, oldest first, and whether it may pop. No value of it is made.
pub struct HintLog {
    pub may_pop: bool,
    pub pushed: LinkedList<u32>,
    pub popped: LinkedList<u32>,
}

/// No hint is lost, doubled or made up, and one pass alone may pop.
pub struct HintRule;

impl Protocol<u32, HintLog> for HintRule {
    ghost use Rattle.std.specs.Prelude.{true};
    ghost use Rattle.core_bells.specs.Hints.{KeepsHints, new_log};

    ghost holds = { KeepsHints };

    ghost first = { new_log true };
}

/// A push.
pub(crate) struct Pushed;

impl Outcome<u32, HintLog> for Pushed {
    ghost use Rattle.std.specs.Prelude.{◌≡◌};
    ghost use Rattle.core_bells.specs.Hints.{with_pushed};

    ghost then = { λ v x w. w ≡ with_pushed v x };
}

impl Lesson<u32, HintLog> for Pushed {
    ghost use Rattle.core_bells.specs.Hints.{Knows};

    ghost fact = { Knows };
}

/// A pop.
pub(crate) struct Popped;

impl Outcome<u32, HintLog> for Popped {
    ghost use Rattle.std.specs.Prelude.{◌≡◌};
    ghost use Rattle.core_bells.specs.Hints.{with_popped};

    ghost then = { λ v x w. w ≡ with_popped v x };
}

impl Lesson<u32, HintLog> for Popped {
    ghost use Rattle.core_bells.specs.Hints.{Knows};

    ghost fact = { Knows };
}

/// A pass is split, and two are joined.
pub(crate) struct Parts;

impl Split<HintLog> for Parts {
    ghost use Rattle.std.specs.Prelude.{false};
    ghost use Rattle.core_bells.specs.Hints.{new_log};

    ghost left = { λ v. v };

    ghost right = { λ v. new_log false };
}

impl Join<HintLog> for Parts {
    ghost use Rattle.std.specs.Prelude.{false};
    ghost use Rattle.core_bells.specs.Hints.{new_log, with_log};

    ghost both = { with_log };

    ghost spent = { new_log false };
}

/// The hints of a core, oldest first: numbers of mailboxes.
pub type HintQueue = RuledArrayQueue<u32, HintLog, HintRule>;

/// What lets its holder push to a queue, or pop from it. It has no bytes.
pub type HintPass = Pass<u32, HintLog>;
