//! The rule of the table, and what each step tells.
use crate::view::View;
use crate::work::Work;
use atomic_table::{Play, Split, TableRule};
use std::marker::PhantomData;
use std::snapshot::Snapshot;

/// What the table is told when it is made.
#[derive(Drop)]
pub struct Setup<W: Work> {
    pub work: Snapshot<W>,
    pub blanks: Snapshot<Vec<W::Packet>>,
}

/// What holds of a mailbox as long as it stands: the rule of the table in which its two words are kept.
pub struct MailRule<W> {
    work: PhantomData<W>,
}

impl<W: Work> TableRule<Option<W::Packet>, View<W, W::Plain>, Setup<W>> for MailRule<W> {
    ghost use Rattle.copy_slots.specs.Mail.{MailInvariant, starting, plain_list};

    ghost holds = { λ key. MailInvariant W.plain W.asks W.answers key.work.value (plain_list W.plain key.blanks.value.items) };

    ghost first = { λ key. starting key.work.value (plain_list W.plain key.blanks.value.items) };
}

/// The parent looks for the first time.
pub struct Opens<W> {
    work: PhantomData<W>,
}

impl<W: Work> Play<Option<W::Packet>, View<W, W::Plain>> for Opens<W> {
    ghost use Rattle.copy_slots.specs.Mail.{opened};

    ghost then = { opened W.plain };
}

/// The parent looks for a reply.
pub struct Collects<W> {
    work: PhantomData<W>,
}

impl<W: Work> Play<Option<W::Packet>, View<W, W::Plain>> for Collects<W> {
    ghost use Rattle.copy_slots.specs.Mail.{collected};

    ghost then = { collected W.plain W.answers };
}

/// The parent sends a job.
pub struct Offers<W> {
    work: PhantomData<W>,
}

impl<W: Work> Play<Option<W::Packet>, View<W, W::Plain>> for Offers<W> {
    ghost use Rattle.copy_slots.specs.Mail.{gave};

    ghost then = { gave W.plain };
}

/// The child looks for a job.
pub struct Takes<W> {
    work: PhantomData<W>,
}

impl<W: Work> Play<Option<W::Packet>, View<W, W::Plain>> for Takes<W> {
    ghost use Rattle.copy_slots.specs.Mail.{took};

    ghost then = { took W.plain W.asks };
}

/// The child sends a reply.
pub struct Answers<W> {
    work: PhantomData<W>,
}

impl<W: Work> Play<Option<W::Packet>, View<W, W::Plain>> for Answers<W> {
    ghost use Rattle.copy_slots.specs.Mail.{gave_back};

    ghost then = { gave_back W.plain };
}

/// A look at the stop word.
pub struct Checks<W> {
    work: PhantomData<W>,
}

impl<W: Work> Play<Option<W::Packet>, View<W, W::Plain>> for Checks<W> {
    ghost use Rattle.copy_slots.specs.Mail.{checked};

    ghost then = { checked };
}

/// The root's core stores the stop word.
pub struct StoresStop<W> {
    work: PhantomData<W>,
}

impl<W: Work> Play<Option<W::Packet>, View<W, W::Plain>> for StoresStop<W> {
    ghost use Rattle.copy_slots.specs.Mail.{stops};

    ghost then = { stops };
}

/// The keeper gives out the next mailbox.
pub struct Deals<W> {
    work: PhantomData<W>,
}

impl<W: Work> Split<View<W, W::Plain>> for Deals<W> {
    ghost use Rattle.copy_slots.specs.Mail.{dealt_left, dealt_right};

    ghost left = { dealt_left };

    ghost right = { dealt_right };
}
