//! The program: the command that its words name, over standard input, standard output and files.
#![tactic(auto)]

use forec_base::{OpenGate, OutOfMemory};
use forec_engine::{Setting, Status, forec_within};
use std::io::{ErrorKind, Read};
use std::process::ExitCode;
use std::rt::{Env, Files as FilesOf};
use std::sync::Wait;
use std::thread::{self, Builder, Threads};
use std::{env, io};
use std_streams::{Files, Input, LEAST, Output, ROOMS, has_room};

/// The words after the program's own name. Where one of them isn't text they are none, which is no command.
fn words(rt: &(impl Env + AllocGlobal)) -> Result<Vec<String>, OutOfMemory> {
    let alloc = rt.alloc();
    match env::args(rt) {
        Ok(args) => Ok(args.skip(1).collect(alloc)?),
        Err(fault) if fault.kind() == ErrorKind::OutOfMemory => Err(OutOfMemory),
        Err(_) => Ok(Vec::new(alloc)),
    }
}

/// Runs the command that the words are, over standard input, standard output and files, where `deepest` statements of a
/// program may nest.
fn run(
    rt: &(impl AllocGlobal + FilesOf + Print + Threads + Wait + Sync),
    words: &[String],
    reader: impl Read + Drop,
    deepest: u64,
) -> Status {
    let setting = Setting {
        rt,
        alloc: rt.alloc(),
        gate: &OpenGate,
    };
    let mut texts = Files::new(rt);
    let mut trace = Input::new(reader);
    let mut out = Output::new(io::writer(rt));
    forec_within(&setting, deepest, words, &mut texts, &mut trace, &mut out)
}

/// Runs the command in a thread with the greatest stack that can be had, or in the first one, where its stack has room.
fn main(rt: HostRuntime) -> ExitCode {
    let Ok(words) = words(&rt) else {
        return ExitCode::from(Status::NoMemory.number());
    };
    let (rt, words) = (&rt, words.as_slice());
    let status = thread::scope(thread::scope_env(), rt, |scope| {
        for room in ROOMS {
            let thread = Builder::new().stack_size(room.stack);
            let command = move || run(rt, words, rt.stdin(), room.deepest);
            if let Ok(handle) = thread.spawn_scoped(scope, command) {
                return handle.join(rt);
            }
        }
        if !has_room(rt) {
            return Status::NoMemory;
        }
        run(rt, words, rt.stdin(), LEAST.deepest)
    });
    ExitCode::from(status.number())
}
