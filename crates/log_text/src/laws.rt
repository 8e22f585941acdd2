//! Laws of logs, each the contract of a function that does nothing.
ghost use Rattle.log_text.specs.Laws.{TextHasOneLog};

/// A text is that of one log of a shape: no two logs have the same text.
pub fn a_text_has_one_log()
    ensures { TextHasOneLog }
{}
