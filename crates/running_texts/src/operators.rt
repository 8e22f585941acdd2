//! What each operator adds to its parts.

ghost use Rattle.std.specs.Prelude.{◌≡◌, ◌<◌, ◌+◌, ◌^◌, ℕ, ℤ, map, length, [], pos, get_or, not};
ghost use Rattle.forec_base.specs.Numbers.{unary_of, binary_of, truth, is_zero};
ghost use Rattle.forec_kernel.specs.Values.{word, copy_of, index_in, at_index, Gives, Raises, divided};
ghost use Rattle.running_texts.specs.Metered.{IsMetered, IsNumberAfter, value_kind};

use crate::meter::{Halt, give};
use forec_base::{Binary, Place, Trap, Unary, binary, unary};
use forec_kernel::VarCopy;

pub(crate) fn word_at(words: &[i32], slot: usize) -> i32
    ensures { result ≡ word words.now slot }
{
    if slot < words.len() { words[slot] } else { 0 }
}

/// A thread's copy of a variable.
pub(crate) fn copy_in(uses: &[u32], copies: &[VarCopy], variable: usize) -> VarCopy
    ensures { result ≡ copy_of uses.now copies.now variable }
{
    let mut i = 0;
    while i < uses.len() && i < copies.len() {
        if uses[i] as usize == variable {
            return copies[i];
        }
        i += 1;
    }
    VarCopy {
        value: 0,
        modified: false,
    }
}

/// The value of a variable's copy, 0 where there is none.
pub fn copy_value(uses: &[u32], copies: &[VarCopy], variable: u32) -> i32
    ensures { result ≡ (copy_of uses.now copies.now variable).value }
{
    copy_in(uses, copies, variable as usize).value
}

pub(crate) fn table_at(tables: &[Vec<i32>], table: u32) -> &[i32]
    ensures { result.now ≡ get_or (map (λ v. v.items) tables.now) table [] }
{
    if (table as usize) < tables.len() {
        &tables[table as usize]
    } else {
        &[]
    }
}

/// An index from 0 to n - 1.
pub fn index_within(n: usize, index: i32) -> Option<usize>
    ensures { result ≡ index_in n index }
{
    if index < 0 {
        return None;
    }
    let at = index.cast_unsigned() as usize;
    if at < n { Some(at) } else { None }
}

/// The operator's unit and value, after the evaluation of its part.
pub(crate) fn after_unary(op: Unary, part: Result<i32, Halt>, left: &mut u64) -> Result<i32, Halt>
    ensures { IsNumberAfter part left.old left.new result (λ x. Gives (unary_of op x) 1) }
{
    match part {
        Ok(a) => give(unary(op, a), left),
        Err(halt) => Err(halt),
    }
}

/// Stops at a place, for one unit.
fn stop(place: Place, trap: Trap, left: &mut u64) -> Result<i32, Halt>
    ensures { IsMetered value_kind left.old left.new result (Raises place trap 1) }
{
    if *left == 0 {
        return Err(Halt::Over);
    }
    *left -= 1;
    Err(Halt::Trapped { place, trap })
}

/// A division by zero stops at its place.
fn divide(value: Option<i32>, place: Option<Place>, left: &mut u64) -> Result<i32, Halt>
    ensures { IsMetered value_kind left.old left.new result (divided value place) }
{
    match value {
        Some(n) => give(n, left),
        None => match place {
            Some(place) => stop(place, Trap::Divide, left),
            None => stop(Place { line: 0, column: 0 }, Trap::Divide, left),
        },
    }
}

pub(crate) fn after_binary(
    op: Binary,
    a: i32,
    part: Result<i32, Halt>,
    place: Option<Place>,
    left: &mut u64,
) -> Result<i32, Halt>
    ensures { IsNumberAfter part left.old left.new result (λ y. divided (binary_of op a y) place) }
{
    match part {
        Ok(b) => divide(binary(op, a, b), place, left),
        Err(halt) => Err(halt),
    }
}

/// The element of an array of words, after the evaluation of its index.
pub(crate) fn after_word_index(
    words: &[i32],
    slot: u32,
    length: u32,
    place: Place,
    part: Result<i32, Halt>,
    left: &mut u64,
) -> Result<i32, Halt>
    ensures { IsNumberAfter part left.old left.new result (λ k. at_index (index_in length k)
        (λ j. word words.now (slot + j)) place) }
{
    match part {
        Ok(k) => match index_within(length as usize, k) {
            Some(at) => give(word_at(words, slot as usize + at), left),
            None => stop(place, Trap::Index, left),
        },
        Err(halt) => Err(halt),
    }
}

/// The thread's own copy of an element of a shared array, after the evaluation of its index.
pub(crate) fn after_shared_index(
    uses: &[u32],
    copies: &[VarCopy],
    variable: u32,
    length: u32,
    place: Place,
    part: Result<i32, Halt>,
    left: &mut u64,
) -> Result<i32, Halt>
    ensures { IsNumberAfter part left.old left.new result
        (λ k. at_index (index_in length k) (λ j. (copy_of uses.now copies.now (variable + j)).value) place) }
{
    match part {
        Ok(k) => match index_within(length as usize, k) {
            Some(at) => give(copy_in(uses, copies, variable as usize + at).value, left),
            None => stop(place, Trap::Index, left),
        },
        Err(halt) => Err(halt),
    }
}

/// The element of a constant array, after the evaluation of its index.
pub(crate) fn after_table_index(
    table: &[i32],
    place: Place,
    part: Result<i32, Halt>,
    left: &mut u64,
) -> Result<i32, Halt>
    ensures { IsNumberAfter part left.old left.new result
        (λ k. at_index (index_in (length table.now) k) (λ j. word table.now j) place) }
{
    match part {
        Ok(k) => match index_within(table.len(), k) {
            Some(at) => give(word_at(table, at), left),
            None => stop(place, Trap::Index, left),
        },
        Err(halt) => Err(halt),
    }
}

/// 1 for a number other than 0.
pub(crate) fn as_truth(part: Result<i32, Halt>) -> Result<i32, Halt>
    ensures { (left : ℕ) → IsNumberAfter part left left result (λ y. Gives (truth (not (is_zero y))) 0) }
{
    match part {
        Ok(0) => Ok(0),
        Ok(_) => Ok(1),
        Err(halt) => Err(halt),
    }
}
