//! A replay of one thread.

ghost use Rattle.std.specs.Prelude.{◌≡◌, ◌<◌, ◌≤◌, ℕ, List, length, Ok};
ghost use Rattle.forec_base.specs.declared.limits.TheConstants.{MAX_BUDGET};
ghost use Rattle.thread_code.specs.Plain.{plain_code};
ghost use Rattle.thread_code.specs.Valid.{IsValidCode};
ghost use Rattle.exchange_meaning.specs.Logged.{ExchangeLog, Logged};
ghost use Rattle.log_text.specs.ReadLogs.{HasPairs, IsLogFor};
ghost use Rattle.exchange_replay.specs.declared.replay.Replay.TheVariants.{Same, Differs};
ghost use Rattle.exchange_replay.specs.Replaying.{ReplaysSame, ReplaysUpTo, IsAtPair, SomePair, DoesPair};

use crate::track::Track;
use crate::walk::Walk;
use combine_tree::PacketKind;
use forec_base::OutOfMemory;
use log_text::Log;
use std::alloc::Global;
use thread_code::Code;

/// What a replay of one thread comes to.
#[derive(Clone, Copy, Debug, PartialEq, Eq)]
pub enum Replay {
    /// The thread does what the log has, and no job of its branches is left unused.
    Same,
    /// The job of this number, from 1, is the first that fails. One past the last: none fails, and a job of a branch is left
    /// unused.
    Differs { job: u64 },
}

/// Does the job that was read; false where it fails.
fn does_job(walk: &mut Walk, own: &mut Track, code: &Code, log: &Log, _t: u32) -> bool
    requires valid { IsValidCode (plain_code code.now) }
    requires pair { SomePair (plain_code code.now) log.now _t walk.old own.old }
    requires small { own.old.logged.allowance ≤ MAX_BUDGET }
    ensures { (pairs : ExchangeLog) (passed : List Logged) (one : Logged) (left : List Logged)
        → IsAtPair (plain_code code.now) pairs log.now _t walk.old own.old passed one left
        → DoesPair (plain_code code.now) pairs log.now _t walk.new own.new passed one result }
{
    if matches!(own.logged.kind, PacketKind::Wake)
        && !matches!(own.written.kind, PacketKind::Paused)
    {
        return false;
    }
    walk.thread.begin(code, &own.logged);
    if !walk.finish(code, log) {
        return false;
    }
    walk.thread.reply(code, &mut own.written);
    own.passes_reply(log)
}

/// Replays thread number `t`, which isn't thread 0, by itself: it is given its logged jobs in order, and at each fork the
/// logged replies to the next jobs of its branches.
///
/// A job fails where it is a `Wake` that doesn't come after a reply Paused, where the thread writes for a branch another
/// job than that branch's next one in the log, and where it gives another reply than the logged one.
///
/// # Errors
///
/// Out of memory.
pub fn replay_thread(alloc: Global, code: &Code, log: &Log, t: u32) -> Result<Replay, OutOfMemory>
    requires some { 0 < t }
    requires thread { t < length (plain_code code.now).threads }
    requires log { IsLogFor (plain_code code.now).shape log.now }
    ensures same { (pairs : ExchangeLog) → HasPairs (plain_code code.now).shape log.now pairs → result ≡ Ok Same
        → ReplaysSame (plain_code code.now) pairs t }
    ensures differs { (pairs : ExchangeLog) (job : ℕ) → HasPairs (plain_code code.now).shape log.now pairs
        → result ≡ Ok (Differs job) → ReplaysUpTo (plain_code code.now) pairs t job }
{
    let mut own = Track::new(alloc, code.shape(), log, t)?;
    let mut walk = Walk::new(alloc, code, log, t)?;
    let mut job = 1;
    while own.reads_job(log) {
        if !does_job(&mut walk, &mut own, code, log, t) {
            return Ok(Replay::Differs { job });
        }
        job += 1;
    }
    Ok(if walk.is_used() {
        Replay::Same
    } else {
        Replay::Differs { job }
    })
}
