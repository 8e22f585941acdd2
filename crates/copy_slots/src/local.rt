//! A port with all ends, for one thread.
ghost use Rattle.std.specs.Prelude.{◌≡◌, ◌<◌, ◌^◌, length, true};
ghost use Rattle.copy_slots.specs.Fresh.{AllSit};
ghost use Rattle.copy_slots.specs.SeatEnds.{IsBoard, Watches};
ghost use Rattle.copy_slots.specs.Ports.{is_keeper};

use crate::both::BothEnds;
use crate::make::{Board, deal_all, new_table};
use crate::port::Port;
use crate::steps::{MailSeat, answer, check, collect, offer, open, stop, take};
use crate::work::Work;
use forec_base::OutOfMemory;
use std::alloc::Global;

/// A port with both ends of each mailbox, and the root's mark. It tells whose turn it is.
#[derive(Drop)]
pub struct LocalPort<W: Work> {
    board: Board<W>,
    watch: MailSeat<W>,
    seats: Vec<BothEnds<W>>,
    ghost sized: { (length seats.items < 2 ^ 32) × IsBoard board.shared.table_id (length seats.items) },
    ghost root: { Watches board.shared.table_id board.shared.key.work.value watch.me.0.blanks watch.me.0.role watch × (is_keeper watch.me.0.role ≡ true) },
    ghost both: { AllSit board.shared.table_id board.shared.key.work.value watch.me.0.blanks seats.items },
}

impl<W: Work> Port<W> for LocalPort<W> {
    ghost use Rattle.std.specs.Prelude.{map};
    ghost use Rattle.copy_slots.specs.Ports.{local_state};

    ghost state = { λ s. local_state s.board.shared.key.work.value s.watch.me.0.blanks (map (λ b. b.seat.me.0.role) s.seats.items) s.watch.me.0.role };

    fn first(&mut self, k: u32) -> W::Packet {
        let seat = &mut self.seats[k as usize].seat;
        open(&self.board.shared, seat, k)
    }

    fn offer(&mut self, k: u32, packet: W::Packet) {
        let seat = &mut self.seats[k as usize].seat;
        offer(&self.board.shared, seat, k, packet);
    }

    fn collect(&mut self, k: u32) -> Option<W::Packet> {
        let seat = &mut self.seats[k as usize].seat;
        collect(&self.board.shared, seat, k)
    }

    fn take(&mut self, k: u32) -> Option<W::Packet> {
        let seat = &mut self.seats[k as usize].seat;
        take(&self.board.shared, seat, k)
    }

    fn answer(&mut self, k: u32, packet: W::Packet) {
        let seat = &mut self.seats[k as usize].seat;
        answer(&self.board.shared, seat, k, packet);
    }

    fn stop(&mut self) {
        let word = self.seats.len();
        let watch = &mut self.watch;
        stop(&self.board.shared, watch, word);
    }

    fn stopped(&mut self) -> bool {
        let word = self.seats.len();
        let watch = &mut self.watch;
        check(&self.board.shared, watch, word)
    }
}

impl<W: Work> LocalPort<W> {
    ghost use Rattle.copy_slots.specs.Fresh.{new_state};
    ghost use Rattle.std.specs.Prelude.{IfOk};

    /// A port with a mailbox for each of these packets.
    ///
    /// # Errors
    ///
    /// Out of memory.
    pub fn new(alloc: Global, work: W, blanks: Vec<W::Packet>) -> Result<LocalPort<W>, OutOfMemory>
        requires { length blanks.items < 2 ^ 16 }
        ensures { IfOk result (λ p. ⟦<LocalPort<W> as Port<W>>⟧.state p ≡ new_state W.plain work blanks.items) }
    {
        let count = blanks.len();
        let (board, mut watch) = new_table(alloc, &work, blanks)?;
        let seats = deal_all(alloc, &board.shared, &mut watch, count)?;
        Ok(LocalPort {
            board,
            watch,
            seats,
        })
    }
}
