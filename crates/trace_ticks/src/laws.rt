//! What holds of reports, whatever calls are made.
ghost use Rattle.trace_ticks.specs.OneRun.{FormatsWriteOneRun, FormatsGiveOneStatus};

/// A run has the same to tell in each format: before tick 1 the format's opening, then the outputs of each tick that has
/// any, as the format writes them, and then the words of the last line; and its status doesn't depend on the format.
pub fn each_format_writes_one_run()
    ensures bytes { FormatsWriteOneRun }
    ensures status { FormatsGiveOneStatus }
{}
