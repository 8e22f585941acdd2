//! What counts have to do with what is counted: thread instances with the tree of threads, variables with the list of them.

ghost use Rattle.std.specs.Prelude.{◌≡◌, ℕ, length};
ghost use Rattle.forec_tree.specs.Terms.{Text};
ghost use Rattle.forec_tree.specs.Threads.{instances};
ghost use Rattle.forec_tree.specs.ThreadTree.{thread_tree, count_instances};
ghost use Rattle.forec_tree.specs.Variables.{variables, count_variables};

/// A law alone: the number of thread instances of a program is the size of its tree of threads.
/// `first` is the name of `main`.
pub fn thread_counts()
    ensures { (text : Text) (first : ℕ) → count_instances (thread_tree text first) ≡ instances text first }
{}

/// A law alone: how many variables a program has, where each element of a shared array is one.
pub fn variable_counts()
    ensures { (text : Text) → length (variables text) ≡ count_variables text }
{}
