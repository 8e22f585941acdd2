//! Laws of joins, each the contract of a function that does nothing.

ghost use Rattle.combine_tree.specs.Offers.{OfferingIsCombining, FirstStays};

/// A variable whose copies are offered in the order of the `par`, with its combine function's number folded
/// in for each pair, ends with its combined copy as the language defines it, and the pairs are the
/// arguments of the combine function's calls. Without a combine function the first number of each pair is
/// what is folded in.
pub fn joins_combine_as_defined()
    ensures combined { OfferingIsCombining }
    ensures first { FirstStays }
{}
