//! The parts of a loop's form.

ghost use Rattle.std.specs.Prelude.{◌≤◌};

use forec_base::Binary;

/// `i = a` at the start of a loop.
#[derive(Clone, Copy)]
pub struct Start {
    pub id: u32,
    pub number: i32,
}

/// `i < b`, or another comparison, as the test of a loop.
#[derive(Clone, Copy)]
pub struct Test {
    pub id: u32,
    pub op: Binary,
    pub number: i32,
}

/// `i = i + c`, or with `-`, as the step of a loop.
#[derive(Clone, Copy)]
pub struct LoopStep {
    pub id: u32,
    pub op: Binary,
    pub by: i32,
}

/// A loop over `i` from a number on by steps of at least 1, whose body leaves `i` alone.
#[derive(Clone, Copy)]
pub struct Form {
    pub id: u32,
    pub number: i32,
    pub test: Binary,
    pub bound: i32,
    pub by: u32,
    ghost rises: { 1 ≤ by },
}
