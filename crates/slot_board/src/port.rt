//! The port of one core.
ghost use Rattle.std.specs.Prelude.{◌≡◌, ◌<◌, ◌^◌, length};
ghost use Rattle.copy_slots.specs.SeatEnds.{IsBoard};
ghost use Rattle.slot_board.specs.Slots.{AllPairs, IsWatchSeat};

use crate::joining::join_seats;
use crate::seats::EndSeats;
use crate::splits::merge;
use copy_slots::make::Board;
use copy_slots::steps::{MailSeat, answer, check, collect, offer, open, stop, take};
use copy_slots::{Port, Work};

/// The ends that one core has, of mailboxes that it shares with other cores. It doesn't tell whose turn it is, since only
/// one who has both ends knows that.
#[derive(Drop)]
pub struct SlotPort<'b, W: Work> {
    pub(crate) top: &'b Board<W>,
    pub(crate) watch: MailSeat<W>,
    pub(crate) seats: Vec<EndSeats<W>>,
    ghost sized: { (length seats.items < 2 ^ 32) × IsBoard top.now.shared.table_id (length seats.items) },
    ghost watches: { IsWatchSeat top.now.shared.table_id top.now.shared.key.work.value watch },
    ghost pairs: { AllPairs top.now.shared.table_id top.now.shared.key.work.value watch.me.0.blanks seats.items },
}

impl<'b, W: Work> Port<W> for SlotPort<'b, W> {
    ghost use Rattle.slot_board.specs.Slots.{port_state};

    ghost state = { λ s. port_state s.top.now.shared.table_id s.top.now.shared.key.work.value s.watch s.seats.items };

    fn first(&mut self, k: u32) -> W::Packet {
        let Some(seat) = &mut self.seats[k as usize].parent else {
            unreachable!()
        };
        open(&self.top.shared, seat, k)
    }

    fn offer(&mut self, k: u32, packet: W::Packet) {
        let Some(seat) = &mut self.seats[k as usize].parent else {
            unreachable!()
        };
        offer(&self.top.shared, seat, k, packet);
    }

    fn collect(&mut self, k: u32) -> Option<W::Packet> {
        let Some(seat) = &mut self.seats[k as usize].parent else {
            unreachable!()
        };
        collect(&self.top.shared, seat, k)
    }

    fn take(&mut self, k: u32) -> Option<W::Packet> {
        let Some(seat) = &mut self.seats[k as usize].child else {
            unreachable!()
        };
        take(&self.top.shared, seat, k)
    }

    fn answer(&mut self, k: u32, packet: W::Packet) {
        let Some(seat) = &mut self.seats[k as usize].child else {
            unreachable!()
        };
        answer(&self.top.shared, seat, k, packet);
    }

    fn stop(&mut self) {
        let word = self.seats.len();
        let watch = &mut self.watch;
        stop(&self.top.shared, watch, word);
    }

    fn stopped(&mut self) -> bool {
        let word = self.seats.len();
        let watch = &mut self.watch;
        check(&self.top.shared, watch, word)
    }
}

impl<'b, W: Work> SlotPort<'b, W> {
    ghost use Rattle.slot_board.specs.Joined.{IsOneBoard, joined_state};

    /// One port with the ends of both. It is the port of the root's core where one of them is.
    pub fn join(self, other: SlotPort<'b, W>) -> SlotPort<'b, W>
        requires { IsOneBoard (⟦<SlotPort<'b, W> as Port<W>>⟧.state self) (⟦<SlotPort<'b, W> as Port<W>>⟧.state other) }
        ensures { ⟦<SlotPort<'b, W> as Port<W>>⟧.state result
            ≡ joined_state (⟦<SlotPort<'b, W> as Port<W>>⟧.state self.entry)
            (⟦<SlotPort<'b, W> as Port<W>>⟧.state other.entry) }
    {
        let SlotPort {
            top,
            mut watch,
            mut seats,
        } = self;
        let SlotPort {
            top: _,
            watch: more,
            seats: others,
        } = other;
        merge(&top.shared, &mut watch, more);
        join_seats(&mut seats, others);
        SlotPort { top, watch, seats }
    }
}
