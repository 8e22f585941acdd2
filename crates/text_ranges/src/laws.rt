//! What holds of the numbers in the kernels of all programs that are spelled.

ghost use Rattle.text_ranges.specs.Laws.{SpelledProgramsHaveWords, SpelledRunsFit};

/// In the kernel that is defined for a program, each number fits 32 bits: those in the bodies, the entries of the
/// tables, and the start values. So for rows whose numbers do, each output of each tick does too.
pub fn spelled_programs_have_words()
    ensures words { SpelledProgramsHaveWords }
    ensures runs { SpelledRunsFit }
{}
