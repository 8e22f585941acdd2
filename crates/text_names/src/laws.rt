//! What holds of the names in the kernels of all programs that are spelled.

ghost use Rattle.text_names.specs.Laws.{SpelledProgramsHaveNames, SpelledVariablesAreNamed, SpelledOutputsAreSafe};

/// In the kernel that is defined for a program, each byte of the name of a variable is a letter, `_`, a digit, `[` or
/// `]`. The name is one as texts spell them, and after it for an element of an array the index in square brackets; so
/// are those of the inputs and of the outputs.
pub fn spelled_programs_have_names()
    ensures plain { SpelledProgramsHaveNames }
    ensures named { SpelledVariablesAreNamed }
    ensures safe { SpelledOutputsAreSafe }
{}
