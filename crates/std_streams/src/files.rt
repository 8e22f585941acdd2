//! Files as texts. They don't tell what they hold.
ghost use Rattle.std.specs.Prelude.{◌≡◌, false};

use forec_base::{TextFault, Texts};
use std::alloc::Global;
use std::fs;
use std::io::Read;
use std::rt::Files as FilesOf;

/// Files by their paths.
#[derive(Drop)]
pub struct Files<'r, R> {
    rt: &'r R,
    faults: u64,
    down: bool,
}

impl<'r, R: FilesOf> Files<'r, R> {
    /// Reads files through this runtime; none has failed yet.
    pub fn new(rt: &'r R) -> Self
        ensures none { result.faults ≡ 0 }
        ensures up { result.down ≡ false }
    {
        Files {
            rt,
            faults: 0,
            down: false,
        }
    }
}

/// Why the bytes of a reader can't be had.
enum Stopped {
    Failed,
    OutOfMemory,
}

/// How many bytes are asked for at a time.
const PIECE: usize = 65_536;

/// The first bytes of a reader, at most `limit` and one more.
fn read_some<R: Read>(alloc: Global, reader: &mut R, limit: usize) -> Result<Vec<u8>, Stopped> {
    let mut bytes = Vec::new(alloc);
    let mut piece = [0; PIECE];
    for _ in 0..u64::MAX {
        match reader.read(&mut piece) {
            Ok(0) => break,
            Ok(count) => {
                if bytes.extend_from_slice(&piece[..count]).is_err() {
                    return Err(Stopped::OutOfMemory);
                }
            }
            Err(_) => return Err(Stopped::Failed),
        }
        if bytes.len() > limit {
            break;
        }
    }
    Ok(bytes)
}

impl<R: FilesOf> Texts for Files<'_, R> {
    ghost use Rattle.std.specs.Prelude.{None, ⊤};

    ghost content = { λ _ _. None };

    ghost may = { λ _ _. ⊤ };

    ghost faults = { λ s. s.faults };

    ghost down = { λ s. s.down };

    fn read(&mut self, alloc: Global, name: &str, limit: usize) -> Result<Vec<u8>, TextFault> {
        self.down = false;
        if let Ok(mut file) = fs::open(self.rt, name) {
            match read_some(alloc, &mut file, limit) {
                Ok(bytes) => {
                    if bytes.len() > limit {
                        return Err(TextFault::Long);
                    }
                    return Ok(bytes);
                }
                Err(Stopped::OutOfMemory) => return Err(TextFault::OutOfMemory),
                Err(Stopped::Failed) => {}
            }
        }
        self.down = true;
        self.faults = self.faults.saturating_add(1);
        Err(TextFault::Failed)
    }
}

#[cfg(test)]
mod tests {
    use super::Files;
    use forec_base::{TextFault, Texts};
    use std::fs;
    use std::test::Fail;

    #[test]
    fn reads_files(rt: HostRuntime) -> Result<(), Fail> {
        let alloc = rt.alloc();
        fs::write(&rt, "text_of_a_test", b"abc")?;
        let mut files = Files::new(&rt);
        match files.read(alloc, "text_of_a_test", 3) {
            Ok(text) => assert_eq!(rt; text.as_slice(), b"abc".as_slice()),
            Err(_) => assert!(rt; false, "it can't be read"),
        }
        match files.read(alloc, "text_of_a_test", 2) {
            Err(TextFault::Long) => {}
            _ => assert!(rt; false, "it isn't too long"),
        }
        assert!(rt; !files.down && files.faults == 0);
        fs::remove_file(&rt, "text_of_a_test")?;
        match files.read(alloc, "text_of_a_test", 3) {
            Err(TextFault::Failed) => {}
            _ => assert!(rt; false, "it isn't missing"),
        }
        assert!(rt; files.down && files.faults == 1);
        Ok(())
    }
}
