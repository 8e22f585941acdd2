//! The walk over a program in the order of its text: the least fault of all rules but 6, 10 and 20, and the effects of each
//! function. `walk` goes over the text, `rules` judge, and `scopes` tell what a name means.
#![tactic(auto)]

mod rules;
mod scopes;
mod symbols;
mod walk;

pub use rules::items::{is_input, output_count};
pub use rules::start::start_name;
pub use scopes::declarations::Declarations;
pub use symbols::Symbols;
pub use walk::effects::Effect;
pub use walk::{ProgramNotes, walk_program};
