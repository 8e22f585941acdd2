//! Laws of the logs of runs, and of programs that are accepted.

ghost use Rattle.log_laws.specs.Laws.{AcceptedTextsHaveFittingLogs, AcceptedTextsHavePlaces, EachRunHasALog};

use log_ranges::logs_fit;
use text_verdict::{each_accepted_text_has_words, each_accepted_text_is_formed};

/// Each run of a well-formed kernel has a log: each thread by itself comes to a reply to each job that it is told, and
/// it is told only jobs that it can begin.
pub fn each_run_has_a_log()
    ensures { EachRunHasALog }
{}

/// In the kernel of a text that is accepted each place where a term can trap has a line and a column from 1, below
/// 2^32.
pub fn each_accepted_text_has_places()
    ensures { AcceptedTextsHavePlaces }
{}

/// So the log of its ticks fits its shape, where the rows of the ticks are of `int`s and no budget passes the greatest.
pub fn each_accepted_text_has_fitting_logs()
    ensures { AcceptedTextsHaveFittingLogs }
{
    each_accepted_text_is_formed();
    each_accepted_text_has_words();
    each_accepted_text_has_places();
    logs_fit();
}
