//! Dumps that are written and read back.
ghost use Rattle.std.specs.Prelude.{◌≡◌, ◌≤◌, length};

use crate::dumps::{labels_of, written};
use forec_base::Labels;
use std::alloc::Global;
use std::process::Abort;
use std::test::Fail;
use wave_dump::{Dump, WaveFault, read_wave};

/// A program with the output `o`, which counts, after two rows.
pub const COUNTS: &[u8] = b"$timescale 1 ns $end
$scope module forec $end
$var wire 32 ! o $end
$upscope $end
$enddefinitions $end
#1
b00000000000000000000000000000001 !
#2
b00000000000000000000000000000010 !
$comment rows 2 $end
";

/// Outputs of an array beside others: each is written in tick 1, and later where it changes.
const MIXED: &[u8] = b"$timescale 1 ns $end
$scope module forec $end
$var wire 32 ! a(0) $end
$var wire 32 \" a(1) $end
$var wire 32 # b $end
$upscope $end
$enddefinitions $end
#1
b00000000000000000000000000000000 !
b11111111111111111111111111111111 \"
b10000000000000000000000000000000 #
#2
#3
b01111111111111111111111111111111 \"
#4
b00000000000000000000000000000101 !
b10000000000000000000000000000000 \"
b11111111111111111111111111111110 #
$comment end 4 $end
";

/// A header that was refused, without outputs.
const NONE: &[u8] = b"$timescale 1 ns $end
$scope module forec $end
$upscope $end
$enddefinitions $end
$comment row 0 bad $end
";

/// Whether labels are these names.
fn are_names(labels: &Labels, names: &[&str]) -> bool {
    if labels.len() as usize != names.len() {
        return false;
    }
    for i in 0..labels.len() {
        if labels.get(i) != names[i as usize] {
            return false;
        }
    }
    true
}

/// Whether a dump has these names, values and ending.
fn is_dump(dump: &Dump, names: &[&str], ticks: &[Vec<i32>], ending: &[u8]) -> bool {
    are_names(&dump.names, names)
        && dump.ticks.as_slice() == ticks
        && dump.ending.as_slice() == ending
}

/// Writes a dump, compares its text, and reads it back.
fn there_and_back(
    rt: &impl Abort,
    alloc: Global,
    names: &[&str],
    ticks: &[Vec<i32>],
    ending: &[u8],
    text: &[u8],
) -> Result<(), Fail>
    requires { length names.now ≤ 64 }
{
    let labels = labels_of(alloc, names)?;
    let bytes = written(alloc, &labels, ticks, ending)?;
    assert_eq!(rt; bytes.as_slice(), text);
    let dump = read_wave(alloc, text)?;
    assert!(rt; is_dump(&dump, names, ticks, ending));
    Ok(())
}

#[test]
fn counts(rt: HostRuntime) -> Result<(), Fail> {
    let alloc = rt.alloc();
    let ticks = vec![in alloc; vec![in alloc; 1]?, vec![in alloc; 2]?]?;
    there_and_back(&rt, alloc, &["o"], &ticks, b"rows 2", COUNTS)
}

#[test]
fn mixed(rt: HostRuntime) -> Result<(), Fail> {
    let alloc = rt.alloc();
    let ticks = vec![in alloc;
        vec![in alloc; 0, -1, i32::MIN]?,
        vec![in alloc; 0, -1, i32::MIN]?,
        vec![in alloc; 0, i32::MAX, i32::MIN]?,
        vec![in alloc; 5, i32::MIN, -2]?,
    ]?;
    there_and_back(&rt, alloc, &["a[0]", "a[1]", "b"], &ticks, b"end 4", MIXED)
}

#[test]
fn none(rt: HostRuntime) -> Result<(), Fail> {
    let alloc = rt.alloc();
    there_and_back(&rt, alloc, &[], &[], b"row 0 bad", NONE)
}
