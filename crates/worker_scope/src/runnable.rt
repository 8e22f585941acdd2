//! Work for threads of their own.
use std::sync::Wait;
use std::thread::{Builder, Scope};

/// How many bytes of stack a thread has, whatever the limits of the process: it nests as deep as threads do.
const STACK: usize = 8_388_608;

/// What threads of their own can do beside each other.
pub trait Runnable {
    /// How many threads it is for.
    fn count(&self) -> usize;

    /// What thread number `at` does: it runs until it is told to stop. That it is told, and returns, no clause says.
    fn run<R: Wait>(&self, rt: &R, at: usize);
}

/// Starts the threads. For one that can't be started nothing is done.
pub fn start_all<'s, E, H: Runnable + Sync, R: Wait + Sync>(
    rt: &'s R,
    scope: &Scope<'s, E>,
    work: &'s H,
) {
    for at in 0..work.count() {
        let thread = Builder::new().stack_size(STACK);
        let _ = thread.spawn_scoped(scope, move || work.run(rt, at));
    }
}
