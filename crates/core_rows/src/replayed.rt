//! A log of exchanges is read, and each thread is replayed by itself.

use crate::compiled::compiled;
use crate::logs::SUM;
use exchange_replay::{Replay, Replayer, replay_thread};
use forec_base::OutOfMemory;
use log_text::Log;
use std::alloc::Global;
use std::test::Fail;
use thread_code::Code;

const TEXT: &[u8] = b"shared output int s = 1 combine all with plus;
int plus(int x, int y) { return x + y; }
void a(void) { s = s + 1; pause; }
void b(void) { s = s + 2; pause; }
void main(void) { par(a, b); }
";

/// Another log than `SUM`: a copy in the first reply of thread 2 differs.
const OTHER: &[u8] = b"thread 1 jobs 2
start 9999999 1
paused 5 2*
wake 10000000 5
ended 0 5
thread 2 jobs 2
start 9999999 1
paused 5 4*
wake 10000000 5
ended 0 5
";

/// What the replays of threads 1 and 2 come to, and whether thread 0 has jobs of its branches left before its first tick.
fn replays(alloc: Global, code: &Code, text: &[u8]) -> Result<(Replay, Replay, bool), Fail> {
    let log = Log::read(alloc, text.to_vec(alloc)?, code.shape())?;
    if code.parts().threads.len() != 3 {
        return Err(Fail::from(OutOfMemory));
    }
    let first = replay_thread(alloc, code, &log, 1)?;
    let second = replay_thread(alloc, code, &log, 2)?;
    let root = Replayer::new(alloc, code, &log)?;
    Ok((first, second, root.live() && !root.used(&log)))
}

#[test]
fn replays_logs(rt: HostRuntime) -> Result<(), Fail> {
    let code = compiled(rt.alloc(), TEXT)?;
    assert!(rt; replays(rt.alloc(), &code, SUM)? == (Replay::Same, Replay::Same, true));
    assert!(rt;
        replays(rt.alloc(), &code, OTHER)? == (Replay::Same, Replay::Differs { job: 1 }, true)
    );
    Ok(())
}
