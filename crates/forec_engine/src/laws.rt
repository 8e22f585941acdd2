//! Laws of the reports.
ghost use Rattle.forec_engine.specs.Laws.{OneReport, AlikeReports, SomeReport, CoveredNeverOver, BoundCovers, BoundNeverOver, FoldingPrintsTheSame, ReplayOkIsTheLog};

use bound_laws::no_tick_passes_the_bound;
use fold_laws::{folding_keeps_form, folding_keeps_paced, folding_keeps_runs};
use log_laws::{each_accepted_text_has_fitting_logs, each_run_has_a_log};
use log_runs::{a_run_has_one_log, a_run_has_one_replay};
use text_verdict::{
    each_accepted_text_is_formed, each_accepted_text_is_paced, each_text_has_a_verdict, one_verdict,
};
use thread_places::{one_placement, some_placement};

/// Words other than `code P` have one report at most, and its bytes and status are those that the top
/// call gives.
pub fn reports_are_unique()
    ensures { OneReport }
{
    one_verdict();
    each_accepted_text_is_formed();
    a_run_has_one_log();
    a_run_has_one_replay();
    one_placement();
}

/// Any words have one report at most, up to this: the reports of `code P` list codes that stand for one
/// kernel.
pub fn reports_are_alike()
    ensures { AlikeReports }
{
    one_verdict();
    each_accepted_text_is_formed();
    a_run_has_one_log();
    a_run_has_one_replay();
    one_placement();
}

/// Where the texts and the trace are told, it can't be that words have no report.
pub fn each_command_has_a_report()
    ensures { SomeReport }
{
    each_text_has_a_verdict();
    each_accepted_text_is_formed();
    folding_keeps_form();
    each_run_has_a_log();
    some_placement();
}

/// Words that run a program with a budget of at least its worst case have no report that says that a tick is over; the
/// bound is such a budget. The worst case is that of the kernel that runs, folded or not.
pub fn enough_is_never_over()
    ensures covered { CoveredNeverOver }
    ensures covers { BoundCovers }
    ensures bound { BoundNeverOver }
{
    each_accepted_text_is_formed();
    each_accepted_text_is_paced();
    folding_keeps_form();
    folding_keeps_paced();
    no_tick_passes_the_bound();
}

/// Words that run or explain a program with so many units a tick have the same report with `--fold`, where the one
/// without it doesn't say that a tick is over.
pub fn folding_prints_the_same()
    ensures { FoldingPrintsTheSame }
{
    folding_keeps_runs();
}

/// `replay P L` tells `replay ok`, behind the report of `run P`, exactly where `L` is the log of that run, as `log P`
/// writes it.
pub fn replay_ok_is_the_log()
    ensures { ReplayOkIsTheLog }
{
    one_verdict();
    each_accepted_text_is_formed();
    each_accepted_text_has_fitting_logs();
    a_run_has_one_replay();
}
