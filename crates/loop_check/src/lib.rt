//! Statements that are certain to pause, and loops whose number of turns their form tells.
#![tactic(auto)]

mod components;
mod entry;
mod graph;
mod index;
mod numbered;
mod parts;
mod pauses;
mod ranks;
mod reads;
mod runs;
mod search;
mod starts;
mod table;
mod touch;

pub use graph::{is_waiting, marked, order};
pub use index::{Index, item_name};
pub use numbered::{put, value_at};
pub use pauses::{always, at_least_one, is_nonzero};
pub use ranks::acyclic;
pub use runs::turns;
pub use search::reaches_itself;
pub use table::{Calls, Pauses, add_function, certain, find_function, read_calls};
