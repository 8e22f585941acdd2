//! Standard input as a source of bytes. It doesn't tell what it holds.
ghost use Rattle.std.specs.Prelude.{◌≡◌, false};

use forec_base::{Failed, Source};
use std::io::Read;

/// A reader as a source.
#[derive(Drop)]
pub struct Input<R> {
    inner: R,
    faults: u64,
    down: bool,
}

impl<R: Read> Input<R> {
    /// Reads what this reader gives; nothing has failed yet.
    pub fn new(inner: R) -> Self
        ensures none { result.faults ≡ 0 }
        ensures up { result.down ≡ false }
    {
        Input {
            inner,
            faults: 0,
            down: false,
        }
    }
}

impl<R: Read> Source for Input<R> {
    ghost use Rattle.std.specs.Prelude.{None};

    ghost left = { λ _. None };

    ghost faults = { λ s. s.faults };

    ghost down = { λ s. s.down };

    fn read(&mut self, buffer: &mut [u8]) -> Result<usize, Failed> {
        match self.inner.read(buffer) {
            Ok(count) => {
                self.down = false;
                Ok(count)
            }
            Err(_) => {
                self.down = true;
                self.faults = self.faults.saturating_add(1);
                Err(Failed)
            }
        }
    }
}

#[cfg(test)]
mod tests {
    use super::Input;
    use forec_base::{Failed, Source};
    use std::io;
    use std::io::Read;
    use std::test::Fail;

    /// Two bytes, then a fault, then the end.
    #[derive(Drop)]
    struct Reader {
        calls: u32,
    }

    impl Read for Reader {
        fn read(&mut self, buffer: &mut [u8]) -> io::Result<usize> {
            self.calls = self.calls.saturating_add(1);
            match self.calls {
                1 if buffer.len() >= 2 => {
                    buffer[0] = b'a';
                    buffer[1] = b'b';
                    Ok(2)
                }
                2 => Err(io::Error::from(io::ErrorKind::Other)),
                _ => Ok(0),
            }
        }
    }

    #[test]
    fn counts_faults(rt: HostRuntime) -> Result<(), Fail> {
        let mut input = Input::new(Reader { calls: 0 });
        let mut buffer = [0; 4];
        assert_eq!(rt; input.read(&mut buffer), Ok(2));
        assert_eq!(rt; &buffer[..2], b"ab".as_slice());
        assert_eq!(rt; input.read(&mut buffer), Err(Failed));
        assert!(rt; input.down && input.faults == 1);
        assert_eq!(rt; input.read(&mut buffer), Ok(0));
        assert!(rt; !input.down && input.faults == 1);
        Ok(())
    }
}
