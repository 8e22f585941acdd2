//! What the calls of a run share.

use core_seats::Serve;
use std::alloc::Global;
use std::sync::Wait;

/// What each run has: the runtime, the allocator, and the gate that the cores pass.
#[derive(Drop)]
pub struct Setting<'a, G, R> {
    pub rt: &'a R,
    pub alloc: Global,
    pub gate: &'a G,
}

/// Who is there while a program ticks: the runtime, the gate that the cores pass, and the others, who are served
/// while the calling thread waits.
#[derive(Drop)]
pub struct Company<'a, O, G, R> {
    pub rt: &'a R,
    pub gate: &'a G,
    pub others: &'a mut O,
}

/// Nobody works beside the calling thread.
#[derive(Drop)]
pub struct Nobody;

impl Serve for Nobody {
    ghost use Rattle.std.specs.Prelude.{[]};

    ghost kept = { λ n. record { borrow = 0; hosts = [] } };

    fn serve<R: Wait>(&mut self, _rt: &R) -> bool {
        false
    }

    fn is_empty(&self) -> bool {
        true
    }
}
