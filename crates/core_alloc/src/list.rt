//! Lists of places.

ghost use Rattle.std.specs.Prelude.{◌≡◌, ◌≤◌, ◌⊎◌, Option, None, Some, map, position, is_none, not, nat_lt, unwrap_or, IfOk, IfErr};
ghost use Rattle.std.specs.List.{list_all};
ghost use Rattle.std.specs.Char.{is_ascii_digit};
ghost use Rattle.core_alloc.specs.Places.{is_number_in, piece_number, piece_numbers, refusal};
ghost use Rattle.core_alloc.specs.declared.fault.PlaceFault.TheVariants as fault;

use crate::fault::PlaceFault;
use crate::placement::Placement;
use std::alloc::{AllocError, Global};

fn are_digits(text: &str) -> bool
    ensures { result ≡ list_all is_ascii_digit text.now }
{
    text.bytes().all(|byte| byte.is_ascii_digit())
}

fn is_number(piece: &str) -> bool
    ensures { result ≡ is_number_in piece.now }
{
    0 < piece.len() && piece.len() < 4 && are_digits(piece)
}

/// The number that one to three decimal digits write.
fn number_of(piece: &str) -> Option<u32>
    ensures { result ≡ piece_number piece.now }
{
    if is_number(piece) {
        piece.parse().ok()
    } else {
        None
    }
}

/// The numbers between the commas.
fn numbers_of(alloc: Global, text: &str) -> Result<Vec<Option<u32>>, AllocError>
    ensures { IfOk result (λ numbers. numbers.items ≡ piece_numbers text.now) }
{
    text.split(',').map(|piece| number_of(piece)).collect(alloc)
}

/// The first piece that is no number.
fn first_without_number(numbers: &[Option<u32>]) -> Option<usize>
    ensures { result ≡ position is_none numbers.now }
{
    numbers.iter().position(|number| number.is_none())
}

/// The first piece that is no number of a core.
fn first_without_core(places: &[u32], cores: u32) -> Option<usize>
    ensures { result ≡ position (λ core. not (nat_lt core cores)) places.now }
{
    places.iter().position(|core| !(*core < cores))
}

/// The numbers of pieces that each have one.
fn places_of(alloc: Global, numbers: &[Option<u32>]) -> Result<Vec<u32>, AllocError>
    ensures { IfOk result (λ places. places.items ≡ map (λ number. unwrap_or number 0) numbers.now) }
{
    numbers
        .iter()
        .map(|number| number.unwrap_or(0))
        .collect(alloc)
}

/// The placement that a text lists: for each thread, in order, the number of its core, with commas between.
///
/// # Errors
///
/// `Shape`, the first piece that is not one to three decimal digits; else `Count`, where there is not one
/// piece for each thread; else `Core`, the first piece that is no number of a core. Or out of memory.
pub fn given(alloc: Global, text: &str, threads: u32, cores: u32) -> Result<Placement, PlaceFault>
    requires some { 1 ≤ cores }
    requires few { cores ≤ 64 }
    ensures cores { IfOk result (λ p. p.cores ≡ cores) }
    ensures places { IfOk result (λ p. map Some p.places ≡ piece_numbers text.now) }
    ensures ok { IfOk result (λ _. refusal text.now threads cores ≡ None) }
    ensures err { IfErr result (λ e. (e ≡ fault.OutOfMemory) ⊎ (refusal text.now threads cores ≡ Some e)) }
{
    let numbers = numbers_of(alloc, text)?;
    if let Some(at) = first_without_number(&numbers) {
        return Err(PlaceFault::Shape { at: at as u64 });
    }
    if numbers.len() != threads as usize {
        let found = numbers.len() as u64;
        return Err(PlaceFault::Count { found });
    }
    let places = places_of(alloc, &numbers)?;
    if let Some(at) = first_without_core(&places, cores) {
        return Err(PlaceFault::Core { at: at as u64 });
    }
    Ok(Placement::of(cores, places))
}
