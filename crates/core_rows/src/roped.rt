//! Hosts beside each other, each in a thread of its own and with a rope: how many hints each gives.

ghost use Rattle.std.specs.Prelude.{◌≡◌, true};
ghost use Rattle.core_host.specs.Hosted.{is_here};

use crate::beside::{Ran, Told, run_tick};
use copy_slots::Port;
use core_host::{Crew, Host, Worker};
use core_seats::ForecWork;
use forec_base::OpenGate;
use std::sync::Wait;
use std::thread;
use std::thread::Threads;
use thread_code::Code;

/// How many hints a host gave.
fn pushed<P: Port<ForecWork> + Drop>(host: &Host<'_, P>) -> Option<u64> {
    host.rope().map(|rope| rope.pushed())
}

/// Runs two ticks, and stops the workers.
fn lead<'c, P: Port<ForecWork> + Drop, R: Wait>(
    rt: &R,
    mut root: Host<'c, P>,
    code: &'c Code,
) -> (Option<Told>, Option<Told>, Option<u64>)
    requires here { is_here root 0 ≡ true }
    requires code { root.code ≡ code.now }
{
    let mut nobody: [Host<'c, P>; 0] = [];
    let mut crew = Crew::new(&mut nobody, &OpenGate);
    let first = run_tick(rt, &mut root, &mut crew, code);
    let second = run_tick(rt, &mut root, &mut crew, code);
    root.stop();
    (first, second, pushed(&root))
}

/// Runs a worker, if there is one, until it is stopped.
fn work<P: Port<ForecWork> + Drop, R: Wait>(rt: &R, worker: Option<Worker<'_, P>>) -> Option<u64> {
    pushed(&worker?.run(rt, &OpenGate))
}

/// Two ticks beside two workers, and how many hints the root and each of them gave.
pub fn beside_threads<'c, P: Port<ForecWork> + Drop + Send, R: Threads + Wait + Sync>(
    rt: &R,
    root: Host<'c, P>,
    mut workers: Vec<Worker<'c, P>>,
    code: &'c Code,
) -> Ran
    requires here { is_here root 0 ≡ true }
    requires code { root.code ≡ code.now }
{
    let right = workers.pop();
    let left = workers.pop();
    let ((first, second, by_root), (by_left, by_right)) = thread::join(
        rt,
        move || lead(rt, root, code),
        move || thread::join(rt, move || work(rt, left), move || work(rt, right)),
    );
    (first, second, [by_root, by_left, by_right])
}
