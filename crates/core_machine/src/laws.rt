//! What holds of every reply.

ghost use Rattle.core_machine.specs.Replies.{RepliesAnswer};

/// Where the replies of a thread's branches are ones that they give to the jobs that they were told, the
/// reply that the thread writes is one that it gives to its jobs.
pub fn replies_answer_jobs()
    ensures { RepliesAnswer }
{}
