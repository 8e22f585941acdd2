//! A trace that is read where it lies.

use forec_base::{Failed, Source};

/// Bytes that are read where they lie, as many a call as the buffer takes. It never fails.
#[derive(Drop)]
pub struct SliceSource<'a> {
    rest: &'a [u8],
}

impl<'a> SliceSource<'a> {
    ghost use Rattle.std.specs.Prelude.{◌≡◌};
    ghost use Rattle.trace_farm.specs.Kept.{slice_left};

    /// The source of these bytes.
    pub fn new(bytes: &'a [u8]) -> SliceSource<'a>
        ensures { slice_left result ≡ bytes.now }
    {
        SliceSource { rest: bytes }
    }
}

impl<'a> Source for SliceSource<'a> {
    ghost use Rattle.std.specs.Prelude.{Some, false};
    ghost use Rattle.trace_farm.specs.Kept.{slice_left};

    ghost left = { λ s. Some (slice_left s) };

    ghost faults = { λ _. 0 };

    ghost down = { λ _. false };

    fn read(&mut self, buffer: &mut [u8]) -> Result<usize, Failed> {
        let n = self.rest.len().min(buffer.len());
        let (front, rest) = self.rest.split_at(n);
        buffer[..n].copy_from_slice(front);
        self.rest = rest;
        Ok(n)
    }
}
