//! A walk through the pairs of a thread.
ghost use Rattle.std.specs.Prelude.{◌≡◌, ◌≤◌, ℕ, List, IsTrue};
ghost use Rattle.forec_base.specs.declared.limits.TheConstants.{MAX_BUDGET};
ghost use Rattle.forec_kernel.specs.Engine.{Reply};
ghost use Rattle.forec_kernel.specs.Packed.{HasRoom};
ghost use Rattle.forec_kernel.specs.Shapes.{PlainShape};
ghost use Rattle.thread_code.specs.Valid.{of_shape};
ghost use Rattle.combine_tree.specs.Plain.{plain_packet};
ghost use Rattle.exchange_meaning.specs.Logged.{Logged, ExchangeLog};
ghost use Rattle.log_text.specs.Readings.{KeepsRoom};
ghost use Rattle.log_text.specs.ReadLogs.{AtPairs, AtReplyOf, CanReadReply, GivesJob, GivesReply, HasPairs, HasThread};

use crate::lines::{read_job, read_reply};
use crate::log::Log;
use combine_tree::Packet;

/// Where a walk through the pairs of a thread has come to: before a pair's job, or before its reply. It may be
/// copied, to go the same way again.
#[derive(Clone, Copy)]
pub struct Cursor {
    pub(crate) at: usize,
    /// How many pairs are left, without the one whose job was read.
    pub left: u64,
}

impl Log {
    /// A cursor before the first pair of thread number `thread`.
    pub fn start(&self, thread: u32) -> Cursor
        requires { HasThread self.now thread }
        ensures { (s : PlainShape) (log : ExchangeLog) → HasPairs s self.now log
            → AtPairs s thread self.now result (log thread) }
    {
        let section = &self.sections[thread as usize - 1];
        Cursor {
            at: section.start,
            left: section.jobs,
        }
    }

    /// Reads the next pair's job into a packet, which has as many arguments and copies as the thread; false where no
    /// pair is left. It takes no memory.
    pub fn next_job(&self, cursor: &mut Cursor, packet: &mut Packet) -> bool
        ensures job { (s : PlainShape) (t : ℕ) (left : List Logged) → HasRoom (of_shape s) t (plain_packet packet.old)
            → AtPairs s t self.now cursor.old left
            → GivesJob s t self.now cursor.new (plain_packet packet.new) result left }
        ensures small { IsTrue result → packet.new.allowance ≤ MAX_BUDGET }
        ensures room { KeepsRoom packet.old packet.new }
    {
        if cursor.left == 0 || cursor.at > self.bytes.len() {
            return false;
        }
        let Some(end) = read_job(&self.bytes, cursor.at, packet) else {
            return false;
        };
        cursor.at = end;
        cursor.left -= 1;
        true
    }

    /// Reads the reply of the pair whose job was read. It takes no memory.
    pub fn next_reply(&self, cursor: &mut Cursor, packet: &mut Packet)
        requires { CanReadReply self.now cursor.old packet.old }
        ensures reply { (s : PlainShape) (t : ℕ) (r : Reply) (left : List Logged)
            → HasRoom (of_shape s) t (plain_packet packet.old)
            → AtReplyOf s t self.now cursor.old r left
            → GivesReply s t self.now cursor.new (plain_packet packet.new) r left }
        ensures room { KeepsRoom packet.old packet.new }
    {
        if cursor.at > self.bytes.len() {
            unreachable!()
        }
        let Some(end) = read_reply(&self.bytes, cursor.at, packet) else {
            unreachable!()
        };
        cursor.at = end;
    }
}
