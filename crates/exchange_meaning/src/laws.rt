//! Laws of logs, each the contract of a function that does nothing.

ghost use Rattle.exchange_meaning.specs.Laws.{AnswerIsOne, LogIsOne, LogTextIsOne, LogsAgree, ReplayedIsLogged, ReplaysTell, TellsOwnBranches};

/// A log is that of a program's ticks exactly where each thread, by itself, replays its part of it: where it is
/// given its own jobs and the logged replies of its branches, it tells its branches what is logged for them, and
/// replies as is logged. Thread 0 is given the ticks' jobs.
pub fn replays_give_the_log()
    ensures { ReplayedIsLogged }
{}

/// Where all threads but thread 0 replay their parts, each tick that thread 0 replays is the program's.
pub fn replays_tell_the_ticks()
    ensures { ReplaysTell }
{}

/// There is one log of the jobs of thread 0, it is the same for a code and for the kernel for which it stands, and it has one
/// text.
pub fn log_is_one()
    ensures one { LogIsOne }
    ensures same { LogsAgree }
    ensures text { LogTextIsOne }
{}

/// A thread of a valid code, with all threads below it, has one reply to the jobs that it is given: whoever runs which
/// thread, and in whatever order, a job has one reply.
pub fn answer_is_one()
    ensures { AnswerIsOne }
{}

/// A thread of a valid code tells its own branches alone, whatever they reply.
pub fn threads_tell_their_branches()
    ensures { TellsOwnBranches }
{}
