//! What the walk over a function has at hand.

use forec_base::Labels;
use loop_check::Index;

/// What the walk over a function has at hand: the items of the program by name, the texts of names,
/// and whether the function gives a value.
#[derive(Clone, Copy)]
pub struct Context<'a, 'p> {
    pub index: &'a Index<'p>,
    pub names: &'a Labels,
    pub gives: bool,
}
