//! The seats that a core has.

use copy_slots::Work;
use copy_slots::steps::MailSeat;

/// The ends of a mailbox that a core has, each in a seat of its own.
#[derive(Drop)]
pub struct EndSeats<W: Work> {
    pub(crate) parent: Option<MailSeat<W>>,
    pub(crate) child: Option<MailSeat<W>>,
}

/// All that a core has: the seat that looks at the stop word, and the ends of each mailbox.
#[derive(Drop)]
pub struct CoreSeats<W: Work> {
    pub(crate) watch: MailSeat<W>,
    pub(crate) seats: Vec<EndSeats<W>>,
}
