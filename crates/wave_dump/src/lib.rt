//! Value change dumps, a profile of IEEE 1364: how one is written while a program runs, and how one is read exactly.
//!
//! A dump is a text of lines, each with byte 10. First come `$timescale 1 ns $end` and `$scope module forec $end`. Then
//! for output k from 0 there is the line `$var wire 32 C NAME $end`. C is the byte 33 + k, and NAME the name with `(` and
//! `)` in place of `[` and `]`. Then come `$upscope $end` and `$enddefinitions $end`. Then for each tick N from 1 there is
//! the line `#N`, and for each output in order, in tick 1 always and later where its value differs from the tick before,
//! `b`, its 32 bits from the highest, a space and C. The last line is `$comment E $end`, where E is the last line of the
//! report.
//!
//! A dump has at most 64 names of bytes from 33 to 126 without `$`, `(` and `)`, one value per name in each tick, from
//! -2147483648 to 2147483647, tick numbers below 2^64, and an ending of at least one byte from 32 to 126 without `$`.
#![tactic(auto)]

mod dump;
mod edges;
mod ending;
mod fault;
mod laws;
mod names;
mod numbers;
mod pieces;
mod put;
mod reading;
mod ticks;
mod value_lines;
mod values;
mod waver;

pub use dump::Dump;
pub use edges::{head, tail};
pub use fault::WaveFault;
pub use laws::{reading_is_exact, written_in_parts};
pub use reading::read_wave;
pub use waver::{Waver, wave_room};
