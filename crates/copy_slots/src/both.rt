//! A seat with both ends of a mailbox.

use crate::steps::MailSeat;
use crate::work::Work;

/// Both ends of a mailbox. One who has both knows whose turn it is.
#[derive(Drop)]
pub struct BothEnds<W: Work> {
    pub(crate) seat: MailSeat<W>,
}
