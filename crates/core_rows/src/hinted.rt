//! Hints between two cores.
ghost use Rattle.std.specs.Prelude.{◌≡◌, IfSome};
ghost use Rattle.core_rows.specs.RopePairs.{AreRopes};

use crate::compiled::compiled;
use core_alloc::given;
use core_bells::{Bells, Rope};
use std::alloc::Global;
use std::sync::{Mutex, Wait};
use std::test::Fail;
use std::thread;
use std::thread::Threads;
use thread_code::Code;

/// `main`, and two branches.
const SUMS: &[u8] = b"shared output int s = 0 combine mod with plus;
int plus(int x, int y) { return x + y; }
void a(void) { s = 1; }
void b(void) { s = 2; }
void main(void) { par(a, b); }
";

/// Three of the four ends of the two mailboxes are on core 0, and one is on core 1.
const PLACES: &str = "0,1,0";

/// Two ropes of one placement.
fn both<'b>(mut ropes: Vec<Rope<'b>>) -> Option<(Rope<'b>, Rope<'b>)>
    requires { AreRopes ropes.items }
    ensures { IfSome result (λ r. r.1.placement ≡ r.0.placement) }
{
    let second = ropes.pop()?;
    let first = ropes.pop()?;
    Some((first, second))
}

/// Whether three hints fit, what is popped, and how many hints each rope pushed.
type Told = ([bool; 3], [Option<u32>; 3], [u64; 2]);

/// The first rope hints the second one's core, which has room for two hints. The second sleeps no longer than it has to.
fn hint<R: Wait>(rt: &R, first: &mut Rope<'_>, second: &mut Rope<'_>) -> Told
    requires { second.old.placement ≡ first.old.placement }
{
    let core = second.core();
    let one = first.ring(rt, core, 0);
    let two = first.ring(rt, core, 0);
    let three = first.ring(rt, core, 0);
    second.sleep(rt);
    first.wake_all();
    second.sleep(rt);
    let popped = [second.pop(rt), second.pop(rt), second.pop(rt)];
    ([one, two, three], popped, [first.pushed(), second.pushed()])
}

/// A rope out of a lock: its core sleeps, and passes its hint on to core 0.
fn pass_on<R: Wait>(rt: &R, held: &Mutex<Option<Rope<'_>>>) -> Option<u32> {
    let found = held.lock(rt).take();
    let mut rope = found?;
    rope.sleep(rt);
    let hint = rope.pop(rt)?;
    let _own = rope.core();
    rope.ring(rt, 0, hint);
    Some(hint)
}

fn listen<R: Wait>(rt: &R, mut rope: Rope<'_>) -> Option<u32> {
    rope.sleep(rt);
    rope.pop(rt)
}

/// The hint that core 0 gives to the other core, in another thread, and the one that it gets from there.
fn pass_round<'b, R: Threads + Wait + Sync>(
    rt: &R,
    mut first: Rope<'b>,
    second: Rope<'b>,
) -> (Option<u32>, Option<u32>)
    requires { second.placement ≡ first.placement }
{
    let core = second.core();
    first.ring(rt, core, 0);
    let held = Mutex::new(Some(second));
    thread::join(rt, || pass_on(rt, &held), move || listen(rt, first))
}

fn hinted<R: Wait>(rt: &R, alloc: Global, code: &Code) -> Result<Option<Told>, Fail> {
    let threads = u32::try_from(code.parts().threads.len())?;
    let placement = given(alloc, PLACES, threads, 2)?;
    if placement.threads() != threads {
        return Ok(None);
    }
    let mut bells = Bells::new(alloc, code, &placement)?;
    let Some((mut first, mut second)) = both(bells.ropes(alloc)?) else {
        return Ok(None);
    };
    Ok(Some(hint(rt, &mut first, &mut second)))
}

fn passed_round<R: Threads + Wait + Sync>(
    rt: &R,
    alloc: Global,
    code: &Code,
) -> Result<Option<(Option<u32>, Option<u32>)>, Fail> {
    let threads = u32::try_from(code.parts().threads.len())?;
    let placement = given(alloc, PLACES, threads, 2)?;
    if placement.threads() != threads {
        return Ok(None);
    }
    let mut bells = Bells::new(alloc, code, &placement)?;
    let Some((first, second)) = both(bells.ropes(alloc)?) else {
        return Ok(None);
    };
    Ok(Some(pass_round(rt, first, second)))
}

#[test]
fn hints_to_another_core(rt: HostRuntime) -> Result<(), Fail> {
    let code = compiled(rt.alloc(), SUMS)?;
    let told = hinted(&rt, rt.alloc(), &code)?;
    let wanted = ([true, true, false], [Some(0), Some(0), None], [2, 0]);
    assert!(rt; told == Some(wanted));
    Ok(())
}

#[test]
fn hints_between_threads(rt: HostRuntime) -> Result<(), Fail> {
    let code = compiled(rt.alloc(), SUMS)?;
    let told = passed_round(&rt, rt.alloc(), &code)?;
    assert!(rt; told == Some((Some(0), Some(0))));
    Ok(())
}
