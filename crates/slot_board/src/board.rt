//! Mailboxes that the ports of several cores share.
ghost use Rattle.std.specs.Prelude.{◌≡◌, ◌<◌, ◌^◌, length, map, IfOk, List};
ghost use Rattle.atomic_table.specs.Seated.{TableId};
ghost use Rattle.copy_slots.specs.Ports.{PortState};
ghost use Rattle.slot_board.specs.Dealt.{new_ports};

use crate::dealing::{deal_cores, deal_mailboxes};
use crate::port::SlotPort;
use crate::seats::CoreSeats;
use copy_slots::make::{Board, new_table};
use copy_slots::{Port, Work};
use forec_base::OutOfMemory;
use std::alloc::Global;
use std::collections::VecDeque;

/// The ports that a board has to give out.
pub trait GivesPorts<W: Work> {
    /// It gave out none yet.
    ghost is_whole: { Self → Type 0 };

    /// The table of the mailboxes.
    ghost board: { Self → TableId };

    /// The states of the ports, in the order of the cores.
    ghost ports: { Self → List (PortState W W.Plain) };
}

/// Mailboxes, and the ports to them of a number of cores.
#[derive(Drop)]
pub struct SlotBoard<W: Work> {
    board: Board<W>,
    hands: VecDeque<CoreSeats<W>>,
}

impl<W: Work> GivesPorts<W> for SlotBoard<W> {
    ghost use Rattle.std.specs.Prelude.{map};
    ghost use Rattle.slot_board.specs.Dealt.{BelongToTable, seats_state};

    ghost is_whole = { λ b. BelongToTable b.board.shared.table_id b.board.shared.key.work.value b.hands.items };

    ghost board = { λ b. b.board.shared.table_id };

    ghost ports = { λ b. map (seats_state b.board.shared.table_id b.board.shared.key.work.value) b.hands.items };
}

impl<W: Work> SlotBoard<W> {
    /// A mailbox for each of these packets. `ends` says of each which core has its parent's end, and which its child's. The
    /// root's core is `root`. What belongs to a core that isn't below `cores` is in no port.
    ///
    /// # Errors
    ///
    /// Out of memory.
    pub fn new(
        alloc: Global,
        work: W,
        ends: &[(u32, u32)],
        cores: u32,
        root: u32,
        blanks: Vec<W::Packet>,
    ) -> Result<SlotBoard<W>, OutOfMemory>
        requires { (length blanks.items < 2 ^ 16) × (length ends.now ≡ length blanks.items) }
        ensures whole { IfOk result (λ b. ⟦<SlotBoard<W> as GivesPorts<W>>⟧.is_whole b) }
        ensures ports { IfOk result (λ b. ⟦<SlotBoard<W> as GivesPorts<W>>⟧.ports b
            ≡ new_ports (⟦<SlotBoard<W> as GivesPorts<W>>⟧.board b) work (map W.plain blanks.items) ends.now root
            cores) }
    {
        let (board, mut keeper) = new_table(alloc, &work, blanks)?;
        let mut all = deal_mailboxes(alloc, &board.shared, &mut keeper, ends.len())?;
        let hands = deal_cores(
            alloc,
            &board.shared,
            &mut keeper,
            &mut all,
            ends,
            cores,
            root,
        )?;
        Ok(SlotBoard { board, hands })
    }

    /// A port for each core, in order. The board must not have given them out before.
    ///
    /// # Errors
    ///
    /// Out of memory. Then none was given out.
    pub fn ports<'b>(&'b mut self, alloc: Global) -> Result<Vec<SlotPort<'b, W>>, OutOfMemory>
        requires { ⟦<SlotBoard<W> as GivesPorts<W>>⟧.is_whole self.old }
        ensures { IfOk result (λ ps. map ⟦<SlotPort<'b, W> as Port<W>>⟧.state ps.items
            ≡ ⟦<SlotBoard<W> as GivesPorts<W>>⟧.ports self.old) }
    {
        let SlotBoard { board, hands } = self;
        let mut ports = Vec::with_capacity(alloc, hands.len())?;
        let top: &'b Board<W> = board;
        'cores: while let Some(hand) = hands.pop_front() {
            let CoreSeats { watch, seats } = hand;
            ports.push_reserved(SlotPort { top, watch, seats });
        }
        Ok(ports)
    }
}
