//! A scope whose own work is known afterwards.
ghost use Rattle.std.specs.Prelude.{◌≡◌};

use crate::runnable::{Runnable, start_all};
use std::sync::Wait;
use std::thread;
use std::thread::Threads;

/// Work for [`run_task`]. `thread::scope` says nothing of a `&mut` that a closure holds, so its closure holds a value of a type parameter.
trait Task {
    type Output;

    ghost can_run: { Self → Type 0 };

    ghost run_gives: { Self → Self.Output → Type 0 };

    fn run(self) -> Self::Output
        requires { can_run self }
        ensures { run_gives self result };
}

/// A closure that is lent to a task, which gives it back.
#[derive(Drop)]
struct Lent<'a, F> {
    f: &'a mut F,
}

impl<'a, F: FnMut() -> A, A> Task for Lent<'a, F> {
    type Output = (&'a mut F, A);

    ghost can_run = { λ t. F.pre t.f.now };

    ghost run_gives = { λ t r. (r.0.ghost_name ≡ t.f.ghost_name) × F.step t.f.now r.1 r.0.now };

    fn run(self) -> (&'a mut F, A) {
        let Lent { f } = self;
        let a = f();
        (f, a)
    }
}

/// Runs a task in this thread, beside the workers.
fn run_task<R: Threads + Wait + Sync, H: Runnable + Sync, T: Task<Output = A> + Drop, A>(
    rt: &R,
    work: &H,
    task: T,
) -> A
    requires { T.can_run task }
    ensures { T.run_gives task result }
{
    thread::scope(
        thread::scope_env(),
        rt,
        move |scope| -> A
            requires { T.can_run task }
            ensures { T.run_gives task result }
        {
            start_all(rt, scope, work);
            task.run()
        },
    )
}

/// Does nothing, but this use of a returned reference is what ties it, for the borrow checker, to the parameter that lent it.
fn take_back<T>(x: &mut T)
    ensures { x.new ≡ x.old }
{}

/// Calls `f` in this thread, beside the threads of `work`, and returns once `f` and each of them have. What `f` wrote
/// through what it captured is known afterwards, as after a plain call.
///
/// No clause says that a thread is started, or that this returns: what runs until it is stopped is to be stopped by `f`.
pub fn with_workers<R: Threads + Wait + Sync, H: Runnable + Sync, F: FnMut() -> A, A>(
    rt: &R,
    work: &H,
    f: &mut F,
) -> A
    requires { F.pre f.old }
    ensures { F.step f.old result f.new }
{
    let (f, a) = run_task(rt, work, Lent { f });
    take_back(f);
    a
}
