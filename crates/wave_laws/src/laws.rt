//! Laws of dumps of runs.
ghost use Rattle.wave_laws.specs.Laws.{AcceptedTextsCanDump, DumpsTellRuns};

use dump_report::dumps_are_told;
use text_verdict::{each_accepted_text_has_names, each_accepted_text_has_words};
use trace_ticks::each_format_writes_one_run;
use value_ranges::values_fit;
use wave_dump::written_in_parts;

/// What `wave` writes of a run is the text of a dump, which has the outputs of each tick that has any, and as its ending the
/// last line of the run's report. Told again it gives that report, and both runs end with one status.
pub fn a_dump_tells_its_run()
    ensures { DumpsTellRuns }
{
    each_format_writes_one_run();
    values_fit();
    written_in_parts();
    dumps_are_told();
}

/// So it is for each program that is accepted: the numbers in its kernel fit 32 bits, it has at most 64 outputs, and their
/// names are such as a dump may have.
pub fn each_accepted_text_can_be_dumped()
    ensures { AcceptedTextsCanDump }
{
    each_accepted_text_has_words();
    each_accepted_text_has_names();
}
