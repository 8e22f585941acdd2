//! Laws of logs that a host makes, each the contract of a function that does nothing.

ghost use Rattle.exchange_log.specs.Posted.{PostedIsLogged, TicksAreLogged};

/// What went through the mailboxes of a host with all threads, while nothing is under way, is the log of the jobs of thread 0, and
/// for each kernel for which the code stands the log of its ticks.
pub fn posts_make_the_log()
    ensures jobs { PostedIsLogged }
    ensures ticks { TicksAreLogged }
{}
