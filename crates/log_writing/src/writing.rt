//! The text of a log, by what a port has kept.
ghost use Rattle.std.specs.Prelude.{◌≡◌, ◌+◌, ◌-◌, ◌<◌, ◌≤◌, ◌++◌, [], suc, length, vec_capacity, codes, decimal, IfOk, OnOk, OnErr};
ghost use Rattle.std.specs.Io.KnownBytes.{Appends};
ghost use Rattle.exchange_meaning.specs.LogLines.{log_text, thread_log_lines};
ghost use Rattle.exchange_log.specs.Lines.{pair_lines};
ghost use Rattle.exchange_log.specs.Posted.{log_in};
ghost use Rattle.trace_rows.specs.Calls.{Faults};
ghost use Rattle.whole_writes.specs.Calls.{AppendsFront};
ghost use Rattle.log_writing.specs.Logging.{CanTellLog};
ghost use Rattle.log_writing.specs.declared.writing.TheConstants.{HEAD_ROOM};
ghost use Rattle.log_writing.specs.Sending.{HasSpace, SendsBehind, head_line};

use crate::pieces::{append, make_room};
use copy_slots::LocalPort;
use core_seats::ForecWork;
use exchange_log::{LogPort, PairPlace};
use forec_base::{Failed, OutOfMemory, Sink};
use itoa::Buffer;
use std::alloc::Global;
use whole_writes::write_all;

/// What is sent at once where many lines wait.
const PIECE: usize = 65536;

/// Room for the first line of a thread.
const HEAD_ROOM: usize = 64;

/// Lines that wait, in room that is made once. In `line` the lines of a pair are made.
#[derive(Drop)]
pub struct Room {
    pub waiting: Vec<u8>,
    pub line: Vec<u8>,
    ghost fits: { length line.items + HEAD_ROOM ≤ vec_capacity waiting },
}

impl Room {
    /// Room for pairs whose lines take at most so many bytes. Nothing waits.
    ///
    /// # Errors
    ///
    /// Out of memory.
    pub fn new(alloc: Global, line: usize) -> Result<Room, OutOfMemory>
        ensures line { IfOk result (λ r. length r.line.items ≡ line) }
        ensures empty { IfOk result (λ r. r.waiting.items ≡ []) }
    {
        let line = vec![in alloc; 0u8; line]?;
        let waiting = Vec::with_capacity(alloc, line.len() + HEAD_ROOM + PIECE)?;
        Ok(Room { waiting, line })
    }
}

/// Adds the first line of a thread, for which there is room.
fn put_head(waiting: &mut Vec<u8>, thread: u32, jobs: u64)
    requires { HasSpace waiting.old HEAD_ROOM }
    ensures head { waiting.new.items ≡ waiting.old.items ++ head_line thread jobs }
    ensures capacity { vec_capacity waiting.old ≤ vec_capacity waiting.new }
{
    append(waiting, b"thread ");
    append(waiting, Buffer::new().format(thread).as_bytes());
    append(waiting, b" jobs ");
    append(waiting, Buffer::new().format(jobs).as_bytes());
    append(waiting, b"\n");
}

/// Writes the first line of a thread that was given so many jobs. At an `Err` a front of what waits is sent.
fn write_head<K: Sink>(room: &mut Room, thread: u32, jobs: u64, out: &mut K) -> Result<(), Failed>
    ensures ok { OnOk result (SendsBehind (K.held out.old) (K.held out.new) room.old.waiting.items
        room.new.waiting.items (head_line thread jobs)) }
    ensures line { length room.new.line.items ≡ length room.old.line.items }
    ensures err { OnErr result (AppendsFront (K.held out.old) (K.held out.new) room.old.waiting.items) }
    ensures cause { Faults (K.faults out.old) (K.faults out.new) (K.down out.new) result }
{
    match make_room(&mut room.waiting, HEAD_ROOM, out) {
        Ok(()) => {
            put_head(&mut room.waiting, thread, jobs);
            Ok(())
        }
        Err(failed) => Err(failed),
    }
}

/// Writes the lines of pair number `pair`, from 0, of a mailbox, which should be `near`. At an `Err` a front of what waits is sent.
fn write_pair<K: Sink>(
    port: &LogPort<LocalPort<ForecWork>>,
    mailbox: u32,
    pair: u64,
    near: &mut PairPlace,
    room: &mut Room,
    out: &mut K,
) -> Result<(), Failed>
    requires tells { CanTellLog port.now (suc (length port.now.mail.ends)) (length room.old.line.items) }
    requires mailbox { mailbox < length port.now.mail.ends }
    requires pair { pair < length (log_in port.now.mail (suc mailbox)) }
    ensures ok { OnOk result (SendsBehind (K.held out.old) (K.held out.new) room.old.waiting.items
        room.new.waiting.items (pair_lines pair (log_in port.now.mail (suc mailbox)))) }
    ensures line { length room.new.line.items ≡ length room.old.line.items }
    ensures err { OnErr result (AppendsFront (K.held out.old) (K.held out.new) room.old.waiting.items) }
    ensures cause { Faults (K.faults out.old) (K.faults out.new) (K.down out.new) result }
{
    let Room { waiting, line } = room;
    match make_room(waiting, line.len(), out) {
        Ok(()) => {
            let length = port.lines(mailbox, pair, near, line);
            append(waiting, &line[..length]);
            Ok(())
        }
        Err(failed) => Err(failed),
    }
}

/// Writes the lines of thread number `thread`. At an `Err` a front of them is sent, behind what waits.
fn write_thread<K: Sink>(
    port: &LogPort<LocalPort<ForecWork>>,
    thread: u32,
    room: &mut Room,
    out: &mut K,
) -> Result<(), Failed>
    requires tells { CanTellLog port.now (suc (length port.now.mail.ends)) (length room.old.line.items) }
    requires some { 1 ≤ thread }
    requires thread { thread ≤ length port.now.mail.ends }
    ensures ok { OnOk result (SendsBehind (K.held out.old) (K.held out.new) room.old.waiting.items
        room.new.waiting.items (thread_log_lines thread (log_in port.now.mail thread))) }
    ensures line { length room.new.line.items ≡ length room.old.line.items }
    ensures err { OnErr result (AppendsFront (K.held out.old) (K.held out.new) (room.old.waiting.items
        ++ thread_log_lines thread (log_in port.now.mail thread))) }
    ensures cause { Faults (K.faults out.old) (K.faults out.new) (K.down out.new) result }
{
    let mailbox = thread - 1;
    let jobs = port.jobs(mailbox);
    if let Err(failed) = write_head(room, thread, jobs, out) {
        return Err(failed);
    }
    let mut near = port.first_pair(mailbox);
    let mut pair = 0;
    while pair < jobs {
        match write_pair(port, mailbox, pair, &mut near, room, out) {
            Ok(()) => pair += 1,
            Err(failed) => return Err(failed),
        }
    }
    Ok(())
}

/// Writes the log of so many threads, thread 0 among them. At an `Err` a front of it is written.
pub fn write_log<K: Sink>(
    port: &LogPort<LocalPort<ForecWork>>,
    threads: u32,
    room: &mut Room,
    out: &mut K,
) -> Result<(), Failed>
    requires tells { CanTellLog port.now threads (length room.old.line.items) }
    requires empty { room.old.waiting.items ≡ [] }
    ensures ok { OnOk result (Appends (K.held out.old) (K.held out.new) (log_text threads (log_in port.now.mail))) }
    ensures err { OnErr result (AppendsFront (K.held out.old) (K.held out.new) (log_text threads (log_in
        port.now.mail))) }
    ensures cause { Faults (K.faults out.old) (K.faults out.new) (K.down out.new) result }
{
    let mut thread = 1;
    while thread < threads {
        match write_thread(port, thread, room, out) {
            Ok(()) => thread += 1,
            Err(failed) => return Err(failed),
        }
    }
    write_all(out, &room.waiting)
}
