//! Which core runs which thread.
#![tactic(auto)]

mod balanced;
mod fault;
mod list;
mod placement;
mod ranked;

pub use balanced::balance;
pub use fault::PlaceFault;
pub use list::given;
pub use placement::Placement;
