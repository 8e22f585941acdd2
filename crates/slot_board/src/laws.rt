//! What holds on a board over every order of steps.

ghost use Rattle.std.specs.Prelude.{List};
ghost use Rattle.slot_board.specs.Laws.{EveryStep};

use copy_slots::Work;

/// Whichever seat steps next, each step on a table of mailboxes keeps their rule, and so between any two steps each part of
/// the rule holds. The steps are those of `LocalPort`, `SlotBoard` and `SlotPort`, and no other is made.
pub fn every_step_is_ruled<W: Work>()
    ensures { (work : W) (blanks : List W.Plain) → EveryStep W.plain W.asks W.answers work blanks }
{}
