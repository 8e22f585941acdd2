//! The rows of a trace, out of bytes that come in any pieces, and the line of a tick.
//!
//! A trace is a text of lines. A line ends at byte 10; what stands after the last byte 10 is a line where there is any.
//! A line has at most 8,192 bytes. Its words stand between blanks: space, tab and byte 13. The first line is the header,
//! line 0, and each further line is a row. A number is an optional `-` and one or more decimal digits, from -2147483648
//! to 2147483647.
//!
//! In form 1 the header has the names of all inputs, each once, in any order, and a row one number for each name, in the
//! header's order. With no inputs the header and the rows are lines without words. In form 2 the only word of the header
//! is `#2`, and each word of a row is a change: the name of an input, `=` and its number. A row names each input at most
//! once. An input that it doesn't name keeps its number of the row before, and in the first row it is 0.
#![tactic(auto)]

mod buffer;
mod changes;
mod fault;
mod form;
mod header;
mod lines;
mod names;
mod numbers;
mod rows;
mod steps;
mod tick_line;
mod values;
mod words;

pub use fault::{Next, RowFault};
pub use rows::Rows;
pub use tick_line::{line, line_room};
