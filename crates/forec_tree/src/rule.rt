//! The rules of the language, by name: each has the number by which it is reported.

/// A name isn't declared.
pub const NAME_UNDECLARED: u8 = 1;

/// A name is declared twice in a scope.
pub const NAME_TWICE: u8 = 2;

/// There is no `main`.
pub const NO_MAIN: u8 = 3;

/// A name is of the wrong kind.
pub const WRONG_KIND: u8 = 4;

/// A call has the wrong number of arguments.
pub const WRONG_ARGUMENTS: u8 = 5;

/// A function calls itself.
pub const CALLS_ITSELF: u8 = 6;

/// `main` is called.
pub const MAIN_CALLED: u8 = 7;

/// An input is assigned.
pub const INPUT_ASSIGNED: u8 = 8;

/// A constant is assigned.
pub const CONSTANT_ASSIGNED: u8 = 9;

/// Two threads name a plain variable.
pub const PLAIN_IN_TWO_THREADS: u8 = 10;

/// An int function names a global.
pub const INT_NAMES_GLOBAL: u8 = 11;

/// An int function takes time.
pub const INT_TAKES_TIME: u8 = 12;

/// An int function calls a void function.
pub const INT_CALLS_VOID: u8 = 13;

/// A void function returns a value.
pub const VOID_RETURNS_VALUE: u8 = 14;

/// An int function may end without a value.
pub const INT_WITHOUT_VALUE: u8 = 15;

/// A combine function has the wrong form.
pub const COMBINE_FORM: u8 = 16;

/// An array's length is out of range.
pub const ARRAY_LENGTH: u8 = 17;

/// An array has too many values.
pub const TOO_MANY_VALUES: u8 = 18;

/// A loop's bound is out of range.
pub const LOOP_BOUND: u8 = 19;

/// A loop might never end its tick.
pub const ENDLESS_LOOP: u8 = 20;

/// A name is too long.
pub const LONG_NAME: u8 = 21;

/// There are too many inputs or outputs.
pub const TOO_MANY_INPUTS_OR_OUTPUTS: u8 = 22;

/// A function has too many parameters.
pub const TOO_MANY_PARAMS: u8 = 23;

/// There are too many functions.
pub const TOO_MANY_FUNCTIONS: u8 = 24;
