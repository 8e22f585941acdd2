//! What holds of the places in the kernels of all programs that are spelled.

ghost use Rattle.text_places.specs.Laws.{SpelledProgramsHavePlaces};

/// In the kernel that is defined for a program of a text of fewer than 2^32 - 1 bytes, each place has a line and a
/// column from 1, below 2^32.
pub fn spelled_programs_have_places()
    ensures { SpelledProgramsHavePlaces }
{}
