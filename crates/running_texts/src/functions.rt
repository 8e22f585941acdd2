//! What each statement of an int function adds to the numbers that it evaluates.

ghost use Rattle.std.specs.Prelude.{◌≡◌, ◌<◌, ◌+◌, ℕ, ℤ, IfOk, slice_set, vec_len};
ghost use Rattle.forec_base.specs.Numbers.{is_zero};
ghost use Rattle.forec_kernel.specs.Values.{Flow, Goes, Returns, cleared, index_in, stored_flow, stored_at, flow_value, fresh_words, function_words};
ghost use Rattle.running_texts.specs.Metered.{IsMetered, IsFlowAfter, value_kind, flowing};

use crate::meter::{Halt, pay};
use crate::operators::index_within;
use forec_base::{Place, Trap};
use forec_kernel::{FunctionShape, Spot};
use std::alloc::{AllocError, Global};

/// An element of an array of words: the array's first slot and its length, the index, and the place of a
/// trap where the index is out of range.
#[derive(Clone, Copy)]
pub(crate) struct Element {
    pub slot: u32,
    pub length: u32,
    pub index: i32,
    pub place: Place,
}

/// What a statement of an int function came to.
#[derive(Drop)]
pub enum Ran {
    Continues(Vec<i32>),
    Returns(i32),
}

/// Puts a number at a slot, if there is one.
pub fn set_word(words: &mut Vec<i32>, slot: usize, n: i32)
    ensures { words.new.items ≡ slice_set words.old.items slot n }
{
    if slot < words.len() {
        words[slot] = n;
    }
}

/// Puts 0 at each of some slots.
pub fn clear_words(words: &mut Vec<i32>, slot: u32, length: u32)
    ensures { words.new.items ≡ cleared words.old.items slot length }
{
    for i in 0..length {
        set_word(words, slot as usize + i as usize, 0);
    }
}

/// Arguments, then zeros.
pub fn words_from(alloc: Global, args: &[i32], count: u32) -> Result<Vec<i32>, AllocError>
    ensures { IfOk result (λ v. v.items ≡ fresh_words args.now count) }
{
    let mut words = Vec::from_slice(alloc, args)?;
    for _ in 0..(count as usize).saturating_sub(args.len()) {
        words.push(0)?;
    }
    Ok(words)
}

pub(crate) fn function_word_count(functions: &[FunctionShape], function: u32) -> u32
    ensures { result ≡ function_words functions.now function }
{
    if (function as usize) < functions.len() {
        functions[function as usize].words
    } else {
        0
    }
}

pub(crate) fn after_set(
    mut words: Vec<i32>,
    to: Spot,
    part: Result<i32, Halt>,
    left: &mut u64,
) -> Result<Ran, Halt>
    ensures { IsFlowAfter part left.old left.new result (λ n. stored_flow words.items to n) }
{
    match part {
        Ok(n) => match pay(1, left) {
            Ok(()) => {
                if let Spot::Local { slot } = to {
                    set_word(&mut words, slot as usize, n);
                }
                Ok(Ran::Continues(words))
            }
            Err(halt) => Err(halt),
        },
        Err(halt) => Err(halt),
    }
}

pub(crate) fn after_set_at(
    mut words: Vec<i32>,
    element: Element,
    part: Result<i32, Halt>,
    left: &mut u64,
) -> Result<Ran, Halt>
    ensures { IsFlowAfter part left.old left.new result
        (λ x. stored_at words.items element.slot (index_in element.length element.index) x element.place) }
{
    match part {
        Ok(n) => match pay(1, left) {
            Ok(()) => match index_within(element.length as usize, element.index) {
                Some(at) => {
                    set_word(&mut words, element.slot as usize + at, n);
                    Ok(Ran::Continues(words))
                }
                None => Err(Halt::Trapped {
                    place: element.place,
                    trap: Trap::Index,
                }),
            },
            Err(halt) => Err(halt),
        },
        Err(halt) => Err(halt),
    }
}

pub(crate) fn clear(
    mut words: Vec<i32>,
    slot: u32,
    length: u32,
    left: &mut u64,
) -> Result<Ran, Halt>
    ensures { IsMetered flowing left.old left.new result (Goes (cleared words.items slot length) length) }
{
    match pay(u64::from(length), left) {
        Ok(()) => {
            clear_words(&mut words, slot, length);
            Ok(Ran::Continues(words))
        }
        Err(halt) => Err(halt),
    }
}

pub(crate) fn as_return(part: Result<i32, Halt>) -> Result<Ran, Halt>
    ensures { (left : ℕ) → IsFlowAfter part left left result (λ n. Returns n 0) }
{
    match part {
        Ok(n) => Ok(Ran::Returns(n)),
        Err(halt) => Err(halt),
    }
}

/// What a body gives: it always returns.
pub(crate) fn as_value(part: Result<Ran, Halt>) -> Result<i32, Halt>
    ensures { (old new : ℕ) (f : Flow) → IsMetered flowing old new part f
        → IsMetered value_kind old new result (flow_value f) }
{
    match part {
        Ok(Ran::Continues(_)) => Ok(0),
        Ok(Ran::Returns(n)) => Ok(n),
        Err(halt) => Err(halt),
    }
}
