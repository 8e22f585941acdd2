//! How large a text, a program and a trace may be.

/// The most bytes of a text.
pub const MAX_TEXT_BYTES: usize = 1_048_576;

/// The most tokens of a text.
pub const MAX_TOKENS: usize = 200_000;

/// The greatest level: how deep brackets, statements and operators may nest.
pub const MAX_LEVEL: u32 = 128;

/// The most bytes of a name.
pub const MAX_NAME_BYTES: usize = 63;

/// The most inputs of a program.
pub const MAX_INPUTS: usize = 64;

/// The most outputs of a program.
pub const MAX_OUTPUTS: usize = 64;

/// The most parameters of a function.
pub const MAX_PARAMS: usize = 16;

/// The most functions of a program.
pub const MAX_FUNCTIONS: usize = 1024;

/// The greatest length of an array, in words.
pub const MAX_ARRAY_LENGTH: u32 = 65_536;

/// The greatest bound of a loop, in turns of one tick.
pub const MAX_TURNS: u32 = 1_000_000;

/// The most threads of a program, `main` among them.
pub const MAX_THREADS: u64 = 256;

/// The most words of a thread: its locals, and those along the dearest chain of calls from it.
pub const MAX_WORDS: u64 = 65_536;

/// The most variables of a program: inputs, outputs, plain globals and shared ones.
pub const MAX_GLOBALS: u64 = 4096;

/// The most words of all constant arrays.
pub const MAX_TABLE_WORDS: u64 = 1_048_576;

/// The most statements and nodes of expressions of all threads and functions.
pub const MAX_TERMS: u64 = 200_000;

/// The most statements and nodes of expressions that stand in one another, along a chain of calls.
pub const MAX_DEPTH: u64 = 4096;

/// The most cores.
pub const MAX_CORES: u32 = 64;

/// The greatest budget of a tick, in units.
pub const MAX_BUDGET: u64 = 4_611_686_018_427_387_904;

/// The most bytes of a line of a trace.
pub const MAX_LINE_BYTES: usize = 8192;

/// The most rows of a trace.
pub const MAX_ROWS: u64 = 1_000_000_000;
