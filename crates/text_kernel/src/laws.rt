//! What holds of the kernels of all programs.

ghost use Rattle.text_kernel.specs.Laws.{AcceptedProgramsHaveKernels, ThreadsAreInstances, UsesAreThoseOfTheTree};

/// The kernel that is defined for a text that breaks no rule, and that passes no limit, keeps the condition
/// of kernels.
pub fn each_accepted_program_has_a_kernel()
    ensures { AcceptedProgramsHaveKernels }
{}

/// The threads of the kernel that is defined for a text are the instances of the text's tree of threads:
/// as many, with the same numbers, and each below the same thread.
pub fn threads_are_those_of_the_tree()
    ensures { ThreadsAreInstances }
{}

/// In a program that tokens spell and that breaks no rule, the variables of which a thread of its kernel
/// has copies are those that occur in the text of the instance of its number, or of one below it; `main`
/// has all.
pub fn uses_are_those_of_the_tree()
    ensures { UsesAreThoseOfTheTree }
{}
