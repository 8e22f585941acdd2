//! Laws of folding.

ghost use Rattle.fold_laws.specs.Laws.{FoldsExpressions, FoldsFunctions, FoldingKeepsRuns, FoldingSavesUnits, FoldingKeepsPaced, FoldingKeepsForm};

/// A folded term gives what the term gives, and takes no more units; so does an int function.
pub fn folding_keeps_values()
    ensures terms { FoldsExpressions }
    ensures functions { FoldsFunctions }
{}

/// The run of the folded kernel is that of the kernel, up to the first tick that is over there, and until then no
/// tick takes more units: for every list of rows and every budget.
pub fn folding_keeps_runs()
    ensures runs { FoldingKeepsRuns }
    ensures units { FoldingSavesUnits }
{}

/// Where no loop runs on for ever within a tick, none does in the folded kernel.
pub fn folding_keeps_paced()
    ensures { FoldingKeepsPaced }
{}

/// The folded kernel is well formed.
pub fn folding_keeps_form()
    ensures { FoldingKeepsForm }
{}
