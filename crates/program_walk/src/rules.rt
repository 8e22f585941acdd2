//! The rules that the walk judges.
//!
//! - `start`: 3, there is no `main`.
//! - `uses`: 1, a name isn't declared; 4, is of the wrong kind; 5, a call has the wrong number of arguments; 7, `main` is called;
//!   8, an input is assigned; 9, a constant is assigned; 11, an int function names a global; 13, it calls a void function.
//! - `declarations`: 2, a name is declared twice; 17, an array's length is out of range; 18, it has too many values; 19, a loop's bound
//!   is out of range; 21, a name is too long.
//! - `items`: 15, an int function may end without a value; 16, a combine function has the wrong form; 22, too many inputs or outputs;
//!   23, too many parameters; 24, too many functions; and 1, 2, 17, 18 and 21 at globals and at names of functions.
//! - `walk/statements`: 12, an int function takes time; 14, a void function returns a value.

pub mod declarations;
pub mod items;
pub mod start;
pub mod uses;
