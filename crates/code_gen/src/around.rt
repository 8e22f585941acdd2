//! What stands round a statement.

ghost use Rattle.std.specs.Prelude.{◌≡◌};
ghost use Rattle.code_gen.specs.Statements.{loops, weaks};
ghost use Rattle.code_gen.specs.Arounds.{plain_around};

use forec_kernel::{Expression, ThreadShape};

/// What stands round a statement, the innermost first: loops with a bound, and aborts, each with the
/// address after it.
#[derive(Drop)]
pub enum Around<'a> {
    Outside,
    InLoop {
        bound: u32,
        outer: &'a Around<'a>,
    },
    InAbort {
        weak: bool,
        test: &'a Expression,
        exit: u32,
        outer: &'a Around<'a>,
    },
}

/// What surrounds a statement: what stands round it, how many of that are loops with a bound and weak aborts, and
/// the threads of its kernel.
#[derive(Drop)]
pub struct Surroundings<'a> {
    pub around: &'a Around<'a>,
    pub counters: u32,
    pub flags: u32,
    pub threads: &'a [ThreadShape],
    ghost counted: { counters ≡ loops (plain_around around.now) },
    ghost flagged: { flags ≡ weaks (plain_around around.now) },
}
