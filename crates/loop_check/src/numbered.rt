//! Tables of values by the numbers of names.

ghost use Rattle.std.specs.Prelude.{◌≡◌, ℕ, slice_index_or, OnOk, OnErr};
ghost use Rattle.loop_check.specs.Numbered.{put_entry};

use forec_base::OutOfMemory;

/// The value at a number; `blank` past the end of the table.
pub fn value_at<T: Copy>(table: &[T], id: u32, blank: T) -> T
    ensures { result ≡ slice_index_or table.now id blank }
{
    match table.get(id as usize) {
        None => blank,
        Some(value) => *value,
    }
}

/// Puts a value at a number of a table, which is lengthened by blanks as needed.
pub fn put<T: Copy>(table: &mut Vec<T>, id: u32, value: T, blank: T) -> Result<(), OutOfMemory>
    ensures ok { OnOk result ((g : ℕ) → slice_index_or table.new.items g blank
        ≡ put_entry id g value (slice_index_or table.old.items g blank)) }
    ensures kept { OnErr result ((g : ℕ) → slice_index_or table.new.items g blank
        ≡ slice_index_or table.old.items g blank) }
{
    let at = id as usize;
    'room: while table.len() <= at {
        table.push(blank)?;
    }
    table[at] = value;
    Ok(())
}
