//! What a kernel says of its threads, variables and functions; copies of variables; how a tick ends.

use crate::terms::Statement;
use forec_base::{Labels, Place, Policy, Trap};

/// A thread's own copy of a variable, and whether the thread has assigned it in this tick.
#[derive(Clone, Copy, Debug, PartialEq, Eq)]
pub struct VarCopy {
    pub value: i32,
    pub modified: bool,
}

/// How a tick, or a thread's part of it, ended.
#[derive(Clone, Copy, Debug, PartialEq, Eq)]
pub enum Outcome {
    /// It reached a pause, and goes on in the next tick.
    Paused,
    /// It came to the end of its text.
    Ended,
    /// A step trapped, at this place of the program's text.
    Trapped { place: Place, trap: Trap },
    /// The units of the tick passed the budget.
    Over,
}

/// A thread instance. Thread 0 is `main`; the others are branches, numbered in preorder.
#[derive(Drop)]
pub struct ThreadShape {
    /// The thread in whose body the `par` stands; None exactly for thread 0.
    pub parent: Option<u32>,
    /// The number of the `par` whose branch the thread is; None exactly for thread 0. Pars are numbered
    /// from 0 in the order of their first branches.
    pub par: Option<u32>,
    /// The name of the function that the branch calls; None for a block.
    pub name: Option<Vec<u8>>,
    /// How many of the first words are parameters.
    pub params: u32,
    /// How many words of 32 bits its parameters and locals take.
    pub words: u32,
    /// The variables of which it has a copy, ascending.
    pub uses: Vec<u32>,
}

/// An input, an output, a plain global or a shared variable.
#[derive(Clone, Copy, Debug, PartialEq, Eq)]
pub struct Variable {
    /// Which copies take part when a `par` combines them.
    pub policy: Policy,
    /// The int function of two parameters that combines two values.
    pub combine: Option<u32>,
    /// The value before the first tick.
    pub start: i32,
    /// Whether a row of the trace sets it.
    pub input: bool,
}

/// An int function: how many of its words are parameters, and how many words it has.
#[derive(Clone, Copy, Debug, PartialEq, Eq)]
pub struct FunctionShape {
    pub params: u32,
    pub words: u32,
}

/// All of a kernel but the bodies.
#[derive(Drop)]
pub struct Shape {
    pub threads: Vec<ThreadShape>,
    /// In order of declaration.
    pub variables: Vec<Variable>,
    pub functions: Vec<FunctionShape>,
    /// The constant arrays.
    pub tables: Vec<Vec<i32>>,
    /// The numbers of the variables that are inputs, in order of declaration.
    pub inputs: Vec<u32>,
    /// The numbers of the variables that are outputs, in order of declaration.
    pub outputs: Vec<u32>,
    /// The name of each variable.
    pub names: Labels,
}

/// A kernel's shape, and one body for each thread and each int function.
#[derive(Drop)]
pub struct KernelParts {
    pub shape: Shape,
    pub threads: Vec<Statement>,
    pub functions: Vec<Statement>,
}
