//! Instructions, blocks, and the parts of a code.

use forec_base::{Binary, Place, Unary};
use forec_kernel::Shape;

/// One instruction of a block. It works on a stack of numbers, and on the words, counters and flags
/// of its thread or function. An address is a place in the same block, counted from 0; an instruction
/// that names none leads to the next one. Units are counted before a trap is raised.
#[derive(Clone, Copy)]
pub enum Instruction {
    /// Pushes a number; 1 unit.
    Push {
        value: i32,
    },
    /// Pushes a number; 0 units.
    Quiet {
        value: i32,
    },
    /// Pushes a word; 1 unit.
    Load {
        slot: u32,
    },
    /// Pops a number into a word; 1 unit.
    Store {
        slot: u32,
    },
    /// Pops an index into an array of `length` words that begins at `slot`, and pushes the element;
    /// 1 unit. An index outside the array traps at `place`.
    LoadAt {
        slot: u32,
        length: u32,
        place: Place,
    },
    /// Pops a number, then an index into an array of `length` words that begins at `slot`, and stores
    /// the number there; 1 unit. An index outside the array traps at `place`.
    StoreAt {
        slot: u32,
        length: u32,
        place: Place,
    },
    /// Sets `length` words from `slot` on to 0; as many units.
    Clear {
        slot: u32,
        length: u32,
    },
    /// Pops an index into a constant array, and pushes the element; 1 unit. An index outside the array
    /// traps at `place`.
    Table {
        table: u32,
        place: Place,
    },
    /// Pushes the value of the thread's copy of a variable; 1 unit.
    Get {
        variable: u32,
    },
    /// Pops a number into the thread's copy of a variable, and marks the copy; 1 unit.
    Put {
        variable: u32,
    },
    /// Pops an index into a shared array, whose `length` elements are the variables from `variable` on, and
    /// pushes the value of the thread's copy of the element; 1 unit. An index outside the array traps at `place`.
    GetAt {
        variable: u32,
        length: u32,
        place: Place,
    },
    /// Pops a number, then an index into a shared array, whose `length` elements are the variables from
    /// `variable` on, puts the number into the thread's copy of the element, and marks the copy; 1 unit. An index
    /// outside the array traps at `place`.
    PutAt {
        variable: u32,
        length: u32,
        place: Place,
    },
    /// Pops a number, and pushes the operator's value of it; 1 unit.
    Unary {
        op: Unary,
    },
    /// Pops the right operand, then the left one, and pushes the operator's value; 1 unit. A zero
    /// divisor traps at `place`, which is Some exactly for a quotient and a remainder.
    Binary {
        op: Binary,
        place: Option<Place>,
    },
    /// Pops a number, and pushes 1 where it isn't 0, else 0; 0 units.
    Truth,
    /// Pops a number, and goes to an address where it is 0; 1 unit.
    Zero {
        to: u32,
    },
    /// Pops a number, and goes to an address where it isn't 0; 1 unit.
    NonZero {
        to: u32,
    },
    /// Goes to an address; 0 units.
    Jump {
        to: u32,
    },
    /// Counts so many units.
    Unit {
        count: u32,
    },
    /// Sets a counter; 0 units.
    Fill {
        counter: u32,
        turns: u32,
    },
    /// Takes one from a counter; 0 units. A counter of 0 traps at `place`.
    Turn {
        counter: u32,
        place: Place,
    },
    /// Sets a flag; 0 units.
    Flag {
        flag: u32,
        value: bool,
    },
    /// Pops a number, and sets a flag exactly where it isn't 0; 1 unit.
    Keep {
        flag: u32,
    },
    /// Goes to an address where a flag is set; 0 units.
    Flagged {
        flag: u32,
        to: u32,
    },
    /// Pops the arguments of a par, the first on the bottom, and starts its branches; 1 unit. When
    /// they have replied, it leads to the next instruction where all have ended, else to an address.
    Fork {
        par: u32,
        to: u32,
    },
    /// Wakes the branches of a par that were forked since the thread's last start and haven't ended,
    /// and goes on as a fork; 0 units. Where there are none it leads to the next instruction.
    Again {
        par: u32,
        to: u32,
    },
    /// The tick ends here; the next one goes on at an address; 0 units.
    Pause {
        to: u32,
    },
    /// The thread ends; 0 units.
    End,
    /// Pops the arguments of an int function, the first on the bottom, into words of its own, and runs
    /// it; 1 unit.
    Call {
        function: u32,
    },
    /// Pops a number, which the function returns: its caller pushes it and goes on; 0 units.
    Return,
}

/// The code of one thread or int function: its instructions, and how many parameters, words,
/// counters and flags it has. The parameters are the first words.
#[derive(Drop)]
pub struct Block {
    pub steps: Vec<Instruction>,
    pub params: u32,
    pub words: u32,
    pub counters: u32,
    pub flags: u32,
}

/// A shape, and a block for each of its threads and int functions.
#[derive(Drop)]
pub struct CodeParts {
    pub shape: Shape,
    pub threads: Vec<Block>,
    pub functions: Vec<Block>,
}
