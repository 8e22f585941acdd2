//! Worked traces, out of sources in memory that give their bytes in pieces, and worked lines.
ghost use Rattle.std.specs.Prelude.{◌≡◌, ◌≤◌, length, IfOk};

use forec_base::{Labels, MemSource, OutOfMemory};
use std::alloc::Global;
use std::process::Abort;
use std::test::Fail;
use trace_rows::{Next, RowFault, Rows, line, line_room};

/// What a trace of the inputs `a` and `b` is to give, of which at most two rows are read: the values of its rows, one after
/// the other, and the last answer.
const TWO: [(&[u8], &[i32], Result<Next, RowFault>); 5] = [
    (b"b a\n3 5\n3\n", &[5, 3], Err(RowFault::Bad)),
    (b"b a\n 3\t5\r\n-1  0", &[5, 3, 0, -1], Ok(Next::End)),
    (b"a b\n1 2\n3 4\n5 6\n", &[1, 2, 3, 4], Err(RowFault::Many)),
    (
        b" #2\t\r\n b=-7\ta=1\r\nb=07",
        &[1, -7, 1, 7],
        Ok(Next::End),
    ),
    (b"#2\na=1 b=1\na=1 a=2\n", &[1, 1], Err(RowFault::Bad)),
];

/// What the calls on a trace gave.
#[derive(Drop)]
struct Given {
    values: Vec<i32>,
    last: Result<Next, RowFault>,
    live: bool,
}

/// Reads at most nine rows.
fn read(
    alloc: Global,
    inputs: &Labels,
    limit: u64,
    source: &mut MemSource,
    row: &mut [i32],
) -> Result<Given, OutOfMemory>
    requires { length row.old ≡ length inputs.now }
{
    let mut values = Vec::new(alloc);
    let mut rows = match Rows::start(alloc, source, inputs, limit) {
        Ok(rows) => rows,
        Err(fault) => {
            return Ok(Given {
                values,
                last: Err(fault),
                live: false,
            });
        }
    };
    let mut last = Ok(Next::Row);
    'rows: for _ in 0..9 {
        last = rows.next(source, row);
        if last != Ok(Next::Row) {
            break;
        }
        values.extend_from_slice(row)?;
    }
    Ok(Given {
        values,
        last,
        live: rows.live(),
    })
}

/// The same of bytes that come in pieces of a size, where the read of number `fails` does.
fn read_pieces(
    alloc: Global,
    inputs: &Labels,
    trace: &[u8],
    size: usize,
    fails: u64,
    row: &mut [i32],
) -> Result<Given, OutOfMemory>
    requires row { length row.old ≡ length inputs.now }
    requires size { 1 ≤ size }
{
    let bytes = trace.to_vec(alloc)?;
    let mut source = MemSource::pieces(bytes, vec![in alloc; fails]?, size);
    read(alloc, inputs, 2, &mut source, row)
}

fn two_inputs(alloc: Global) -> Result<Labels, OutOfMemory>
    ensures { IfOk result (λ l. length l ≡ 2) }
{
    let mut inputs = Labels::new(alloc)?;
    inputs.push("a")?;
    inputs.push("b")?;
    Ok(inputs)
}

#[test]
fn rows_of_two_inputs(rt: HostRuntime) -> Result<(), Fail> {
    let alloc = rt.alloc();
    let inputs = two_inputs(alloc)?;
    for (trace, values, last) in &TWO {
        for size in [1, 3, 1000] {
            let given = read_pieces(alloc, &inputs, trace, size, 0, &mut [0, 0])?;
            let found = (given.values.as_slice(), given.last, given.live);
            assert_eq!(rt; found, (*values, *last, false), "{trace:?}");
        }
    }
    Ok(())
}

/// The bytes of a read, the number of the read that fails, the values of the rows that are given, and the last answer.
const FAILS: [(usize, u64, &[i32], Result<Next, RowFault>); 9] = [
    (1, 1, &[], Err(RowFault::ReadFault)),
    (1, 4, &[], Err(RowFault::ReadFault)),
    (1, 5, &[], Err(RowFault::ReadFault)),
    (1, 8, &[], Err(RowFault::ReadFault)),
    (1, 9, &[1, 2], Err(RowFault::ReadFault)),
    (1, 12, &[1, 2], Err(RowFault::ReadFault)),
    (1, 13, &[1, 2, 3, 4], Err(RowFault::ReadFault)),
    (1, 14, &[1, 2, 3, 4], Ok(Next::End)),
    (1000, 2, &[1, 2, 3, 4], Err(RowFault::ReadFault)),
];

/// Rows that came whole are given before the fault; after the end no read is made.
#[test]
fn reads_that_fail(rt: HostRuntime) -> Result<(), Fail> {
    let alloc = rt.alloc();
    let inputs = two_inputs(alloc)?;
    let trace = b"a b\n1 2\n3 4\n";
    for (size, fails, values, last) in FAILS {
        assert!(rt; size > 0);
        let given = read_pieces(alloc, &inputs, trace, size, fails, &mut [0, 0])?;
        let found = (given.values.as_slice(), given.last, given.live);
        assert_eq!(rt; found, (values, last, false), "{fails}");
    }
    Ok(())
}

#[test]
fn lines(rt: HostRuntime) -> Result<(), Fail> {
    let alloc = rt.alloc();
    let names = two_inputs(alloc)?;
    assert_eq!(rt; line_room(&names), 54);
    let mut buffer = [0; 54];
    let count = line(u64::MAX, &names, &[i32::MIN, 0], &mut buffer);
    assert_eq!(rt;
        &buffer[..count],
        b"tick 18446744073709551615 a=-2147483648 b=0\n".as_slice()
    );
    let none = Labels::new(alloc)?;
    let count = line(1, &none, &[], &mut buffer);
    assert_eq!(rt; &buffer[..count], b"tick 1\n".as_slice());
    Ok(())
}
