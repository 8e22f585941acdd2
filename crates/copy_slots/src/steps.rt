//! The steps on the table, each by a seat that has the ends.
ghost use Rattle.std.specs.Prelude.{◌≡◌, ◌≢◌, ℕ, ◌<◌, [], ◌∷◌, ◌++◌, slice_get, Some, IfSome, MatchOption, true, false};
ghost use Rattle.copy_slots.specs.declared.view.PacketAt.TheVariants.{Fresh, Out};
ghost use Rattle.copy_slots.specs.Mail.{sender_opened, sender_sent, taker_answered, turn_between, role_stopped, role_checked};
ghost use Rattle.copy_slots.specs.SeatEnds.{IsBoard};
ghost use Rattle.copy_slots.specs.Ports.{in_plain, sender_seen, taker_seen, stop_word};
ghost use Rattle.copy_slots.specs.Steps.{HasParentAt, CanOffer, HasChildWith, CanAnswer, ChangesParent, ChangesChild, OfParent, OfChild, OfBoth, IsNewJob, IsKeeper, LooksAtStop, ChangesWatch, OfKeeper};

use crate::rule::{Answers, Checks, Collects, MailRule, Offers, Opens, Setup, StoresStop, Takes};
use crate::view::View;
use crate::work::Work;
use atomic_table::{Seat, Shared};

/// The shared part of a table with one turn word and one slot for each mailbox, and the stop word.
pub type MailTable<W> = Shared<
    Option<<W as Work>::Packet>,
    View<W, <W as Work>::Plain>,
    Setup<W>,
    MailRule<W>,
>;

/// A seat at that table: ends of a mailbox, or looks at the stop word.
pub type MailSeat<W> = Seat<Option<<W as Work>::Packet>, View<W, <W as Work>::Plain>>;

/// The parent takes the blank packet.
pub fn open<W: Work>(top: &MailTable<W>, seat: &mut MailSeat<W>, k: u32) -> W::Packet
    requires board { (n : ℕ) × IsBoard top.now.table_id n × (k < n) }
    requires seat { HasParentAt top.now k Fresh seat.old }
    ensures seat { ChangesParent top.now k sender_opened seat.old seat.new }
    ensures blank { OfParent top.now k seat.old (λ bs x. slice_get bs k ≡ Some (W.plain result)) }
{
    top.load::<Opens<W>>(seat, k as usize);
    top.exchange(seat, k as usize, None).unwrap()
}

/// The parent looks for a reply.
pub fn collect<W: Work>(top: &MailTable<W>, seat: &mut MailSeat<W>, k: u32) -> Option<W::Packet>
    requires board { (n : ℕ) × IsBoard top.now.table_id n × (k < n) }
    requires seat { HasParentAt top.now k Out seat.old }
    ensures seat { ChangesParent top.now k (sender_seen (in_plain W.plain result)) seat.old seat.new }
    ensures reply { IfSome result (λ r. OfParent top.now k seat.old
        (λ bs x. W.answers top.now.key.work.value k x.sent (W.plain r))) }
    ensures turn { OfBoth top.now k seat.old (λ x y. MatchOption result (turn_between x y ≢ 0)
        (λ _. turn_between x y ≡ 0)) }
{
    if top.load::<Collects<W>>(seat, k as usize) != 0 {
        return None;
    }
    Some(top.exchange(seat, k as usize, None).unwrap())
}

/// The parent sends a job.
pub fn offer<W: Work>(top: &MailTable<W>, seat: &mut MailSeat<W>, k: u32, packet: W::Packet)
    requires board { (n : ℕ) × IsBoard top.now.table_id n × (k < n) }
    requires seat { CanOffer top.now W.asks k (W.plain packet) seat.old }
    ensures { ChangesParent top.now k (sender_sent (W.plain packet)) seat.old seat.new }
{
    let empty = top.exchange(seat, k as usize, Some(packet));
    let None = empty else { unreachable!() };
    top.store::<Offers<W>>(seat, k as usize, 1);
}

/// The child looks for a job.
pub fn take<W: Work>(top: &MailTable<W>, seat: &mut MailSeat<W>, k: u32) -> Option<W::Packet>
    requires board { (n : ℕ) × IsBoard top.now.table_id n × (k < n) }
    requires seat { HasChildWith top.now k false seat.old }
    ensures seat { ChangesChild top.now k (taker_seen (in_plain W.plain result)) seat.old seat.new }
    ensures job { IfSome result (λ r. OfChild top.now k seat.old
        (λ y. W.asks top.now.key.work.value k (y.taken ++ W.plain r ∷ []))) }
    ensures turn { OfBoth top.now k seat.old (λ x y. MatchOption result (turn_between x y ≡ 0)
        (λ r. IsNewJob x y (W.plain r))) }
{
    if top.load::<Takes<W>>(seat, k as usize) == 0 {
        return None;
    }
    Some(top.exchange(seat, k as usize, None).unwrap())
}

/// The child sends a reply.
pub fn answer<W: Work>(top: &MailTable<W>, seat: &mut MailSeat<W>, k: u32, packet: W::Packet)
    requires board { (n : ℕ) × IsBoard top.now.table_id n × (k < n) }
    requires seat { CanAnswer top.now W.answers k (W.plain packet) seat.old }
    ensures { ChangesChild top.now k (taker_answered (W.plain packet)) seat.old seat.new }
{
    let empty = top.exchange(seat, k as usize, Some(packet));
    let None = empty else { unreachable!() };
    top.store::<Answers<W>>(seat, k as usize, 0);
}

/// The root's core stores the stop word.
pub fn stop<W: Work>(top: &MailTable<W>, seat: &mut MailSeat<W>, word: usize)
    requires board { IsBoard top.now.table_id word }
    requires seat { IsKeeper top.now seat.old }
    ensures { ChangesWatch top.now role_stopped seat.old seat.new }
{
    top.store::<StoresStop<W>>(seat, word, 1);
}

/// A look at the stop word.
pub fn check<W: Work>(top: &MailTable<W>, seat: &mut MailSeat<W>, word: usize) -> bool
    requires board { IsBoard top.now.table_id word }
    requires seat { LooksAtStop top.now seat.old }
    ensures seat { ChangesWatch top.now (role_checked (stop_word result)) seat.old seat.new }
    ensures stored { OfKeeper top.now seat.old (λ st. result ≡ true → st ≡ true) }
{
    top.load::<Checks<W>>(seat, word) == 1
}
