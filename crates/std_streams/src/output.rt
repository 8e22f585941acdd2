//! Standard output as a sink of bytes. It doesn't tell what it holds.
ghost use Rattle.std.specs.Prelude.{◌≡◌, false};

use forec_base::{Failed, Sink};
use std::io::Write;

/// A writer as a sink. To take nothing of a piece that isn't empty is a fault.
#[derive(Drop)]
pub struct Output<W> {
    inner: W,
    faults: u64,
    down: bool,
}

impl<W: Write> Output<W> {
    /// Nothing is written yet.
    pub fn new(inner: W) -> Self
        ensures none { result.faults ≡ 0 }
        ensures up { result.down ≡ false }
    {
        Output {
            inner,
            faults: 0,
            down: false,
        }
    }
}

impl<W: Write> Sink for Output<W> {
    ghost use Rattle.std.specs.Prelude.{None};

    ghost held = { λ _. None };

    ghost faults = { λ s. s.faults };

    ghost down = { λ s. s.down };

    fn write(&mut self, piece: &[u8]) -> Result<usize, Failed> {
        if let Ok(count) = self.inner.write(piece) {
            if count > 0 || piece.is_empty() {
                self.down = false;
                return Ok(count);
            }
        }
        self.down = true;
        self.faults = self.faults.saturating_add(1);
        Err(Failed)
    }
}

#[cfg(test)]
mod tests {
    use super::Output;
    use forec_base::{Failed, Sink};
    use std::io;
    use std::io::Write;
    use std::test::Fail;

    /// It takes one byte a call, but none at its second call.
    #[derive(Drop)]
    struct Writer {
        calls: u32,
    }

    impl Write for Writer {
        fn write(&mut self, piece: &[u8]) -> io::Result<usize> {
            self.calls = self.calls.saturating_add(1);
            if self.calls == 2 {
                return Ok(0);
            }
            Ok(piece.len().min(1))
        }

        fn flush(&mut self) -> io::Result<()> {
            Ok(())
        }
    }

    #[test]
    fn counts_faults(rt: HostRuntime) -> Result<(), Fail> {
        let mut output = Output::new(Writer { calls: 0 });
        assert_eq!(rt; output.write(b"ab"), Ok(1));
        assert_eq!(rt; output.write(b"b"), Err(Failed));
        assert!(rt; output.down && output.faults == 1);
        assert_eq!(rt; output.write(b""), Ok(0));
        assert!(rt; !output.down && output.faults == 1);
        Ok(())
    }
}
