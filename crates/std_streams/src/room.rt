//! How much stack a command has, and how deep a program fits in it.
ghost use Rattle.std.specs.Prelude.{◌≤◌, length, IfSome};

use std::alloc::Global;
use std::fs;
use std::io::Read;
use std::rt::Files;

/// A stack, in bytes, and how many statements of a program may nest where a command has it.
#[derive(Clone, Copy)]
pub struct Room {
    pub stack: usize,
    pub deepest: u64,
}

/// The stacks that are asked for, the greatest first. The first holds each program that is accepted. In the others a
/// text as deep as can be takes 2 MB at most, and each level of statements 16 KB.
pub const ROOMS: [Room; 3] = [
    Room {
        stack: 67_108_864,
        deepest: 4096,
    },
    Room {
        stack: 16_777_216,
        deepest: 512,
    },
    LEAST,
];

/// The least stack in which a command runs.
pub const LEAST: Room = Room {
    stack: LEAST_STACK,
    deepest: 64,
};

const LEAST_STACK: usize = 4_194_304;

/// A piece of stack, in bytes.
const PAGE: usize = 4096;

/// Where the system tells the limits of the process, a line for each.
const LIMITS: &str = "/proc/self/limits";

/// How far the stack of the first thread may grow, by the limits of the process.
fn stack_limit(limits: &str) -> Option<u64> {
    for line in limits.lines() {
        if let Some(rest) = line.strip_prefix("Max stack size") {
            let soft = rest.split_ascii_whitespace().next()?;
            if soft == "unlimited" {
                return Some(u64::MAX);
            }
            return soft.parse().ok();
        }
    }
    None
}

/// Reads from the limits of the process. Returns how many bytes, or nothing where they can't be read.
fn read_limits(rt: &impl Files, bytes: &mut [u8]) -> Option<usize>
    ensures { IfSome result (λ count. count ≤ length bytes.new) }
{
    let mut file = fs::open(rt, LIMITS).ok()?;
    file.read(bytes).ok()
}

/// Whether the limits let the stack of the first thread grow to so many bytes.
fn may_grow(rt: &impl Files, stack: u64) -> bool {
    let mut bytes = [0; 4096];
    let Some(count) = read_limits(rt, &mut bytes) else {
        return false;
    };
    let Ok(limits) = str::from_utf8(&bytes[..count]) else {
        return false;
    };
    match stack_limit(limits) {
        Some(limit) => stack <= limit,
        None => false,
    }
}

/// Whether so many bytes more can be had now. They are given back.
fn can_be_had(rt: &impl Files, alloc: Global, len: usize) -> bool {
    let Ok(mut bytes) = vec![in alloc; 0u8; len] else {
        return false;
    };
    read_limits(rt, &mut bytes).is_some()
}

/// Writes to so many pages of this thread's stack, so that they are its own from now on: the system hands the last one
/// in, and can't be kept from reading them.
#[inline(never)]
fn take_pages(rt: &impl Files, pages: usize, above: &mut [u8]) -> bool {
    if pages == 0 {
        return read_limits(rt, above).is_some();
    }
    let mut page = [0; PAGE];
    take_pages(rt, pages - 1, &mut page)
}

/// Whether the stack of the first thread has room for a command, which it takes before anything is made.
pub fn has_room(rt: &(impl AllocGlobal + Files)) -> bool {
    let stack = LEAST.stack + LEAST.stack / 2;
    may_grow(rt, stack as u64)
        && can_be_had(rt, rt.alloc(), stack)
        && take_pages(rt, LEAST.stack / PAGE, &mut [])
}

#[cfg(test)]
mod tests {
    use super::stack_limit;
    use std::test::Fail;

    #[test]
    fn reads_the_limit(rt: HostRuntime) -> Result<(), Fail> {
        let limits =
            "Max data size  unlimited  unlimited  bytes\nMax stack size             8388608     unlimited  bytes\n";
        assert_eq!(rt; stack_limit(limits), Some(8_388_608));
        assert_eq!(rt;
            stack_limit("Max stack size  unlimited  unlimited  bytes"),
            Some(u64::MAX)
        );
        assert_eq!(rt; stack_limit("Max stack size"), None);
        assert_eq!(rt;
            stack_limit("Max data size  unlimited  unlimited  bytes"),
            None
        );
        Ok(())
    }
}
