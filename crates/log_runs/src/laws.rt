//! Laws of the logs of runs.
ghost use Rattle.log_runs.specs.Laws.{RunHasOneLog, RunHasOneReplay};

use log_text::a_text_has_one_log;

/// A kernel's run over a trace has one log at most.
pub fn a_run_has_one_log()
    ensures { RunHasOneLog }
{}

/// Of a text of fewer than 2^64 bytes and a kernel's run over a trace one thing is told at most.
pub fn a_run_has_one_replay()
    ensures { RunHasOneReplay }
{
    a_text_has_one_log();
}
