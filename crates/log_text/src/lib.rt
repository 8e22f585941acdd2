//! Logs of exchanges: a text of the jobs that the threads of a program were given, each with its reply. One is read
//! exactly, and then gone through thread by thread.
//!
//! For each thread T from 1 there is the line `thread T jobs J`, and then two lines for each of its J jobs. A job is
//! `start A`, its arguments and the values of its copies, or `wake A` and the values; A is its allowance. A reply is
//! `paused U` or `ended U` and its copies, each the value with `*` behind it where it is marked; `trapped U L:C K`,
//! where K is `divide`, `index` or `turns`; or `over`. U is its units. Words are separated by one space, numbers are
//! decimal without leading zeros, and each line ends with byte 10.
//!
//! A is at most 2^62, U below 2^64, L and C from 1 to 4294967295, and arguments and values from -2147483648 to
//! 2147483647. J has any number of digits.
#![tactic(auto)]

mod cursor;
mod fault;
mod laws;
mod lines;
mod log;
mod numbers;
mod pieces;
mod section;
mod values;

pub use cursor::Cursor;
pub use fault::LogFault;
pub use laws::a_text_has_one_log;
pub use log::Log;
