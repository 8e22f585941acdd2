//! A sink that keeps nothing.

use forec_base::{Failed, Sink};

/// A sink that takes all, keeps nothing, and never fails.
#[derive(Drop)]
pub struct Quiet;

impl Sink for Quiet {
    ghost use Rattle.std.specs.Prelude.{None, false};

    ghost held = { λ _. None };

    ghost faults = { λ _. 0 };

    ghost down = { λ _. false };

    fn write(&mut self, piece: &[u8]) -> Result<usize, Failed> {
        Ok(piece.len())
    }
}
