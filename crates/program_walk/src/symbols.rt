//! What the names of a program stand for.

use forec_base::Labels;
use loop_check::Index;

/// What a name stands for, by its number: the item of the program, and its text.
#[derive(Clone, Copy)]
pub struct Symbols<'a, 'p> {
    pub index: &'a Index<'p>,
    pub names: &'a Labels,
}
