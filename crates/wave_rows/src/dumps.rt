//! Dumps out of their parts.
ghost use Rattle.std.specs.Prelude.{◌≡◌, ◌≤◌, length, IfOk};

use forec_base::{Labels, OutOfMemory};
use std::alloc::Global;
use wave_dump::{Waver, head, tail, wave_room};

/// Names with an allocator.
pub fn labels_of(alloc: Global, names: &[&str]) -> Result<Labels, OutOfMemory>
    requires { length names.now ≤ 64 }
    ensures { IfOk result (λ labels. length labels ≡ length names.now) }
{
    let mut labels = Labels::new(alloc)?;
    for name in names {
        labels.push(name)?;
    }
    Ok(labels)
}

/// The text of a dump. A tick with more or fewer values than there are names is left out.
pub fn written(
    alloc: Global,
    names: &Labels,
    ticks: &[Vec<i32>],
    ending: &[u8],
) -> Result<Vec<u8>, OutOfMemory>
    requires { length names.now ≤ 64 }
{
    let outputs = names.len() as usize;
    let mut text = Vec::from_slice(alloc, head(alloc, names)?.as_bytes())?;
    let mut waver = Waver::new(alloc, outputs)?;
    let mut buffer = vec![in alloc; 0u8; wave_room(outputs)]?;
    for (i, values) in ticks.iter().enumerate() {
        if values.len() == outputs {
            let end = waver.tick(i as u64 + 1, values.as_slice(), buffer.as_mut_slice());
            text.extend_from_slice(&buffer[..end])?;
        }
    }
    let mut last = vec![in alloc; 0u8; ending.len() + 15]?;
    let end = tail(ending, last.as_mut_slice());
    text.extend_from_slice(&last[..end])?;
    Ok(text)
}
