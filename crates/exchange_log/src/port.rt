//! A port that keeps what goes through it.
ghost use Rattle.std.specs.Prelude.{◌≡◌, ◌<◌, ◌≤◌, min, suc, length, take, IfOk};
ghost use Rattle.copy_slots.specs.Ports.{sent, got};

use crate::book::{Book, PairPlace};
use combine_tree::Packet;
use copy_slots::Port;
use core_seats::ForecWork;
use forec_base::OutOfMemory;
use std::alloc::Global;
use std::marker::Model;
use tick_jobs::Boxed;

/// A port over another, which counts the jobs and replies that go through its parents' ends, and keeps them as far as it has
/// room. Its memory is made once. It is seen as what went through it, and the words for which it has room.
#[derive(Drop)]
pub struct LogPort<P: Port<ForecWork> + Drop> {
    port: P,
    book: Book,
}

impl<P: Port<ForecWork> + Drop> Model for LogPort<P> {
    ghost use Rattle.exchange_log.specs.Kept.{Logging, KeepsMail};

    ghost Value = { Logging };

    ghost view = { λ l. record { mail = P.state l.port; words = l.book.words } };

    ghost invariant = { λ l. KeepsMail (P.state l.port) l.book };
}

impl<P: Port<ForecWork> + Drop> Port<ForecWork> for LogPort<P> {
    ghost state = { λ l. l.mail };

    fn first(&mut self, k: u32) -> Boxed<Packet> {
        self.port.first(k)
    }

    fn offer(&mut self, k: u32, packet: Boxed<Packet>) {
        let LogPort { port, book } = self;
        book.note_job(k, &packet);
        port.offer(k, packet);
    }

    fn collect(&mut self, k: u32) -> Option<Boxed<Packet>> {
        let LogPort { port, book } = self;
        let Some(packet) = port.collect(k) else {
            return None;
        };
        book.note_reply(k, &packet);
        Some(packet)
    }

    fn take(&mut self, k: u32) -> Option<Boxed<Packet>> {
        self.port.take(k)
    }

    fn answer(&mut self, k: u32, packet: Boxed<Packet>) {
        self.port.answer(k, packet);
    }

    fn stop(&mut self) {
        self.port.stop();
    }

    fn stopped(&mut self) -> bool {
        self.port.stopped()
    }
}

impl<P: Port<ForecWork> + Drop> LogPort<P> {
    ghost use Rattle.exchange_log.specs.Notes.{most_counted};
    ghost use Rattle.exchange_log.specs.Kept.{mail_words, code_in_mail, IsUnused, HasParent};
    ghost use Rattle.exchange_log.specs.Posted.{log_in, log_words, IsAnswered};
    ghost use Rattle.exchange_log.specs.Lines.{lines_room, pair_lines};

    /// A port over this one, with room for so many words. Nothing was sent through the port, and each mailbox of which it has the
    /// parent's end is below `mailboxes`.
    ///
    /// # Errors
    ///
    /// Out of memory.
    pub fn new(
        alloc: Global,
        port: P,
        mailboxes: u32,
        words: usize,
    ) -> Result<LogPort<P>, OutOfMemory>
        requires { IsUnused (P.state port) mailboxes }
        ensures mail { IfOk result (λ l. l.mail ≡ P.state port) }
        ensures words { IfOk result (λ l. l.words ≡ words) }
    {
        let book = Book::new(alloc, mailboxes, words)?;
        Ok(LogPort { port, book })
    }

    /// The words for which it has room.
    pub fn words(&self) -> u64
        ensures { result ≡ self.now.words }
    {
        self.book.words
    }

    /// The words that all jobs and replies so far need: 3 for a job and one for each argument and copy, 6 for a reply and two for
    /// each copy; or 2^64 - 1 where they need more. Where all jobs are answered these are the words of the log.
    pub fn needed(&self) -> u64
        ensures words { result ≡ min (mail_words self.now.mail.ends) most_counted }
        ensures log { IsAnswered self.now.mail
            → result ≡ min (log_words (code_in_mail self.now.mail).shape (log_in self.now.mail)) most_counted }
    {
        self.book.needed
    }

    /// The number of jobs that were sent to mailbox k, or 2^64 - 1 where there are more.
    pub fn jobs(&self, k: u32) -> u64
        requires { HasParent self.now.mail k }
        ensures { result ≡ min (length (sent self.now.mail k)) most_counted }
    {
        self.book.jobs.count(k)
    }

    /// Where pair 0 of mailbox k should be, for [`LogPort::lines`].
    pub fn first_pair(&self, k: u32) -> PairPlace {
        self.book.first_pair(k)
    }

    /// Writes the two lines of job number j, from 0, of mailbox k and of its reply to the front of a buffer, and says how many bytes
    /// they have. All jobs and replies have room in the port, and no job is out. It takes no memory.
    ///
    /// The pair should be `near`, which becomes where the next one should be. It is a hint alone: where it is right, and so for all
    /// pairs of a mailbox in turn from [`LogPort::first_pair`] on, the pair is found at once, else among all.
    pub fn lines(&self, k: u32, j: u64, near: &mut PairPlace, buffer: &mut [u8]) -> usize
        requires parent { HasParent self.now.mail k }
        requires kept { mail_words self.now.mail.ends ≤ self.now.words }
        requires there { j < length (sent self.now.mail k) }
        requires replied { length (got self.now.mail k) ≡ length (sent self.now.mail k) }
        requires room { lines_room (code_in_mail self.now.mail).shape ≤ length buffer.old }
        ensures lines { take result buffer.new ≡ pair_lines j (log_in self.now.mail (suc k)) }
        ensures within { result ≤ lines_room (code_in_mail self.now.mail).shape }
        ensures same_length { length buffer.new ≡ length buffer.old }
    {
        self.book.put_pair(k, j, near, buffer)
    }
}
