//! Texts that are logs, and texts that aren't, with the line that is told.
use forec_base::{Labels, OutOfMemory};
use forec_kernel::{Shape, ThreadShape};
use log_text::{Log, LogFault};
use std::alloc::Global;
use std::process::Abort;
use std::test::Fail;

/// A log of two branches without parameters.
pub const SUM: &[u8] = b"thread 1 jobs 2
start 9999999 1
paused 5 2*
wake 10000000 5
ended 0 5
thread 2 jobs 2
start 9999999 1
paused 5 3*
wake 10000000 5
ended 0 5
";

/// Texts for two branches without parameters.
const TWO: [(&[u8], Option<u64>); 5] = [
    (SUM, None),
    (b"thread 1 jobs 2\n", Some(2)),
    (b"thread 1 jobs 0\nthread 2 jobs 0\n", None),
    (b"thread 1 jobs 0\nthread 1 jobs 0\n", Some(2)),
    (b"thread 2 jobs 0\nthread 1 jobs 0\n", Some(1)),
];

/// Texts for one branch with one parameter.
const ONE: [(&[u8], Option<u64>); 24] = [
    (b"", Some(1)),
    (b"thread 1 jobs 0", Some(1)),
    (b"thread 1 jobs 0\n\n", Some(2)),
    (b"thread 1 jobs 00\n", Some(1)),
    (b"thread 1 jobs 99999999999999999999999\nover\n", Some(2)),
    (b"thread 1 jobs 0\nstart 1 2 3\nover\n", Some(2)),
    (b"thread 1 jobs 1\nstart 1 2 3\nover\n", None),
    (b"thread 1 jobs 1\nstart 1 2\nover\n", Some(2)),
    (b"thread 1 jobs 1\nstart 1 2 3 4\nover\n", Some(2)),
    (b"thread 1 jobs 1\nstart 01 2 3\nover\n", Some(2)),
    (
        b"thread 1 jobs 1\nstart 4611686018427387904 -2147483648 2147483647\nover\n",
        None,
    ),
    (
        b"thread 1 jobs 1\nstart 4611686018427387905 2 3\nover\n",
        Some(2),
    ),
    (b"thread 1 jobs 1\nstart 1 -0 3\nover\n", Some(2)),
    (b"thread 1 jobs 1\nstart 1 2 2147483648\nover\n", Some(2)),
    (b"thread 1 jobs 1\nwake 1 3\nover", Some(3)),
    (b"thread 1 jobs 1\nwake 1 3\npaused 1 3**\n", Some(3)),
    (
        b"thread 1 jobs 1\nwake 1 3\npaused 18446744073709551615 -3*\n",
        None,
    ),
    (
        b"thread 1 jobs 1\nwake 1 3\nended 18446744073709551616 3\n",
        Some(3),
    ),
    (b"thread 1 jobs 1\nwake 1 3\nended 1 3 \n", Some(3)),
    (
        b"thread 1 jobs 1\nwake 1 3\ntrapped 0 4294967295:1 divide\n",
        None,
    ),
    (b"thread 1 jobs 1\nwake 1 3\ntrapped 0 0:1 index\n", Some(3)),
    (
        b"thread 1 jobs 1\nwake 1 3\ntrapped 0 1:4294967296 turns\n",
        Some(3),
    ),
    (b"thread 1 jobs 2\nwake 1 3\nover\n", Some(4)),
    (b"thread 1 jobs 1\nwake 1 3\n", Some(3)),
];

/// A thread with so many parameters, that uses one variable.
fn thread(alloc: Global, parent: Option<u32>, params: u32) -> Result<ThreadShape, OutOfMemory> {
    let mut uses = Vec::new(alloc);
    uses.push(0)?;
    Ok(ThreadShape {
        parent,
        par: parent,
        name: None,
        params,
        words: params,
        uses,
    })
}

/// `main` and so many branches.
fn shape(alloc: Global, branches: u32, params: u32) -> Result<Shape, OutOfMemory> {
    let mut threads = Vec::new(alloc);
    threads.push(thread(alloc, None, 0)?)?;
    for _ in 0..branches {
        threads.push(thread(alloc, Some(0), params)?)?;
    }
    Ok(Shape {
        threads,
        variables: Vec::new(alloc),
        functions: Vec::new(alloc),
        tables: Vec::new(alloc),
        inputs: Vec::new(alloc),
        outputs: Vec::new(alloc),
        names: Labels::new(alloc)?,
    })
}

/// The line that is told of a text; `None` where it is a log of the shape.
fn told(alloc: Global, shape: &Shape, text: &[u8]) -> Result<Option<u64>, Fail> {
    match Log::read(alloc, text.to_vec(alloc)?, shape) {
        Ok(_) => Ok(None),
        Err(LogFault::Bad { line }) => Ok(Some(line)),
        Err(fault) => Err(fault)?,
    }
}

#[test]
fn at_a_line(rt: HostRuntime) -> Result<(), Fail> {
    let alloc = rt.alloc();
    let two = shape(alloc, 2, 0)?;
    for (text, line) in &TWO {
        assert_eq!(rt; told(alloc, &two, text)?, *line, "{text:?}");
    }
    let one = shape(alloc, 1, 1)?;
    for (text, line) in &ONE {
        assert_eq!(rt; told(alloc, &one, text)?, *line, "{text:?}");
    }
    Ok(())
}

/// A log that is cut is refused at the line where it is cut, or at the next one.
#[test]
fn cut_at_each_byte(rt: HostRuntime) -> Result<(), Fail> {
    let alloc = rt.alloc();
    let two = shape(alloc, 2, 0)?;
    let mut line = 1u64;
    for length in 0..SUM.len() {
        assert_eq!(rt; told(alloc, &two, &SUM[..length])?, Some(line), "{length}");
        if SUM[length] == b'\n' {
            line = line.saturating_add(1);
        }
    }
    Ok(())
}
