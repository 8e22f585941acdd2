//! Laws of codes, each the contract of a function that does nothing.

ghost use Rattle.thread_code.specs.Laws.{NeverStuck, JobsAndRepliesFit, AnswersAgree};

/// A thread of a valid code is never stuck, whatever jobs it is given and whatever its branches reply:
/// each instruction finds its operands, and no block runs past its end.
pub fn valid_code_is_never_stuck()
    ensures { NeverStuck }
{}

/// Where the jobs of a thread have a value for each variable that it uses, each job that it writes is
/// for a thread of the shape, with an argument for each parameter and a value for each variable, and
/// each reply has a copy of each variable.
pub fn jobs_and_replies_fit()
    ensures { JobsAndRepliesFit }
{}

/// Where a code stands for a kernel, a thread of the code, with its branches below it, can give a reply
/// to the jobs that it is given exactly where the kernel's thread can give it.
pub fn code_answers_as_its_kernel()
    ensures { AnswersAgree }
{}
