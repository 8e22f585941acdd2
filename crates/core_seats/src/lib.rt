//! The threads of some cores in their seats, and what serves their mailboxes.
#![tactic(auto)]

mod active;
mod beside;
mod descend;
mod hints;
mod load;
mod local;
mod round;
mod scheduler;
mod seat;
mod serve;
mod work;

pub use beside::Serve;
pub use load::{empty_hands, is_among, own_mailboxes, places_of, seats_of};
pub use local::{blanks, local_port};
pub use round::Round;
pub use scheduler::Scheduler;
pub use seat::Seat;
pub use work::{ForecWork, Told};
