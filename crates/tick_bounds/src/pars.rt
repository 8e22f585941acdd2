//! The bound of a par: the arguments and the bodies of its branches, and the calls that combine their copies.

ghost use Rattle.std.specs.Prelude.{◌≡◌, ◌+◌, map};
ghost use Rattle.forec_kernel.specs.Shapes.{plain_kernel};
ghost use Rattle.forec_kernel.specs.Plain.{branch};
ghost use Rattle.forec_kernel.specs.Combining.{variable_of};
ghost use Rattle.forec_kernel.specs.WellFormed as of;
ghost use Rattle.tick_bounds.specs.Bound as plain;
ghost use Rattle.tick_bounds.specs.Capped.{capped, at_table, known_at};

use crate::capped::{plus, times};
use crate::scope::{Scope, combine_of, function_bound, is_among, thread_bound, uses_of};
use forec_kernel::{Kernel, Launch};

/// How many of the branches use a variable.
fn users(kernel: &Kernel, branches: &[Launch], variable: u32) -> u64
    ensures { result ≡ of.users (plain_kernel kernel.now) (of.threads_in (map branch branches.now)) variable }
{
    let mut count = 0;
    for launch in branches {
        if is_among(uses_of(kernel, launch.thread as usize), variable) {
            count += 1;
        }
    }
    count
}

/// The calls of a variable's combine function: one less than there are branches that use it.
fn calls_bound(scope: &Scope<'_>, branches: &[Launch], variable: u32) -> u64
    ensures { result ≡ capped (plain.calls_bound (known_at scope.now.functions.now)
        (variable_of (plain_kernel scope.now.kernel.now) variable).combine
        (of.users (plain_kernel scope.now.kernel.now) (of.threads_in (map branch branches.now)) variable)) }
{
    match combine_of(scope.kernel, variable) {
        None => 0,
        Some(function) => {
            let calls = users(scope.kernel, branches, variable).saturating_sub(1);
            times(calls, plus(1, function_bound(scope.functions, function)))
        }
    }
}

/// All calls that combine the branches' copies.
pub fn join_bound(scope: &Scope<'_>, branches: &[Launch]) -> u64
    ensures { result ≡ capped (plain.join_bound (plain_kernel scope.now.kernel.now) (known_at scope.now.functions.now)
        (of.threads_in (map branch branches.now)) scope.now.uses.now) }
{
    let mut sum = 0;
    for variable in scope.uses {
        sum = plus(sum, calls_bound(scope, branches, *variable));
    }
    sum
}

/// The bodies of all branches.
pub fn bodies_bound(threads: &[u64], branches: &[Launch]) -> u64
    ensures { result ≡ capped (plain.bodies_bound (at_table threads.now) (of.threads_in (map branch branches.now))) }
{
    let mut sum = 0;
    for launch in branches {
        sum = plus(sum, thread_bound(threads, launch.thread));
    }
    sum
}
