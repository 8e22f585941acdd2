//! The listing of a code.

ghost use Rattle.std.specs.Prelude.{◌≡◌, ◌++◌, [], Some, map, string_bytes, IfOk, OnOk};
ghost use Rattle.std.specs.Fmt.{DisplaysOnOk};
ghost use Rattle.thread_code.specs.declared.printing.Operands.TheVariants as operands;
ghost use Rattle.thread_code.specs.Plain.{plain_code, plain_block};
ghost use Rattle.thread_code.specs.Listing.{unary_name, binary_name, one_operand, two_operands, trapping, line_text, instruction_text, steps_text, blocks_text, listing_of};

use crate::code::Code;
use crate::instruction::{Block, Instruction};
use forec_base::{Binary, OutOfMemory, Place, Unary};
use std::alloc::Global;
use std::fmt;
use std::fmt::Write;

fn unary_word(op: Unary) -> &'static str
    ensures { result.now ≡ unary_name op }
{
    match op {
        Unary::Minus => "minus",
        Unary::Invert => "invert",
        Unary::Not => "not",
    }
}

fn binary_word(op: Binary) -> &'static str
    ensures { result.now ≡ binary_name op }
{
    match op {
        Binary::Add => "add",
        Binary::Sub => "sub",
        Binary::Mul => "mul",
        Binary::Div => "div",
        Binary::Rem => "rem",
        Binary::Shl => "shl",
        Binary::Shr => "shr",
        Binary::Lt => "lt",
        Binary::Le => "le",
        Binary::Gt => "gt",
        Binary::Ge => "ge",
        Binary::Eq => "eq",
        Binary::Ne => "ne",
        Binary::BitAnd => "and",
        Binary::BitXor => "xor",
        Binary::BitOr => "or",
    }
}

fn write_one<W: fmt::Write>(f: &mut fmt::Formatter<W>, word: &str, first: u32) -> fmt::Result
    ensures { DisplaysOnOk W.write_str_gives f.old result (Some (one_operand word.now first)) f.new }
{
    write!(f, "{word} {first}")
}

fn write_two<W: fmt::Write>(
    f: &mut fmt::Formatter<W>,
    word: &str,
    first: u32,
    second: u32,
) -> fmt::Result
    ensures { DisplaysOnOk W.write_str_gives f.old result (Some (two_operands word.now first second)) f.new }
{
    write!(f, "{word} {first} {second}")
}

fn write_place<W: fmt::Write>(f: &mut fmt::Formatter<W>, at: Place) -> fmt::Result
    ensures { DisplaysOnOk W.write_str_gives f.old result (Some (trapping [] at)) f.new }
{
    write!(f, " @{}:{}", at.line, at.column)
}

fn write_one_at<W: fmt::Write>(
    f: &mut fmt::Formatter<W>,
    word: &str,
    first: u32,
    at: Place,
) -> fmt::Result
    ensures { DisplaysOnOk W.write_str_gives f.old result (Some (trapping (one_operand word.now first) at)) f.new }
{
    write_one(f, word, first)?;
    write_place(f, at)
}

fn write_two_at<W: fmt::Write>(
    f: &mut fmt::Formatter<W>,
    word: &str,
    first: u32,
    second: u32,
    at: Place,
) -> fmt::Result
    ensures { DisplaysOnOk W.write_str_gives f.old result
        (Some (trapping (two_operands word.now first second) at)) f.new }
{
    write_two(f, word, first, second)?;
    write_place(f, at)
}

fn write_binary<W: fmt::Write>(
    f: &mut fmt::Formatter<W>,
    word: &str,
    op: Binary,
    place: Option<Place>,
) -> fmt::Result
    ensures { DisplaysOnOk W.write_str_gives f.old result (Some (line_text word.now (operands.Binary op place))) f.new }
{
    write!(f, "{word} {}", binary_word(op))?;
    match place {
        None => Ok(()),
        Some(at) => write_place(f, at),
    }
}

/// What stands after an instruction's word.
enum Operands {
    None,
    Number { value: i32 },
    One { first: u32 },
    Two { first: u32, second: u32 },
    OneAt { first: u32, at: Place },
    TwoAt { first: u32, second: u32, at: Place },
    Unary { op: Unary },
    Binary { op: Binary, place: Option<Place> },
}

/// The word of an instruction, and what stands after it.
fn line(step: Instruction) -> (&'static str, Operands)
    ensures { line_text result.0.now result.1 ≡ instruction_text step }
{
    match step {
        Instruction::Push { value } => ("push", Operands::Number { value }),
        Instruction::Quiet { value } => ("quiet", Operands::Number { value }),
        Instruction::Load { slot } => ("load", Operands::One { first: slot }),
        Instruction::Store { slot } => ("store", Operands::One { first: slot }),
        Instruction::LoadAt {
            slot,
            length,
            place,
        } => (
            "loadat",
            Operands::TwoAt {
                first: slot,
                second: length,
                at: place,
            },
        ),
        Instruction::StoreAt {
            slot,
            length,
            place,
        } => (
            "storeat",
            Operands::TwoAt {
                first: slot,
                second: length,
                at: place,
            },
        ),
        Instruction::Clear { slot, length } => (
            "clear",
            Operands::Two {
                first: slot,
                second: length,
            },
        ),
        Instruction::Table { table, place } => (
            "table",
            Operands::OneAt {
                first: table,
                at: place,
            },
        ),
        Instruction::Get { variable } => ("get", Operands::One { first: variable }),
        Instruction::Put { variable } => ("put", Operands::One { first: variable }),
        Instruction::GetAt {
            variable,
            length,
            place,
        } => (
            "getat",
            Operands::TwoAt {
                first: variable,
                second: length,
                at: place,
            },
        ),
        Instruction::PutAt {
            variable,
            length,
            place,
        } => (
            "putat",
            Operands::TwoAt {
                first: variable,
                second: length,
                at: place,
            },
        ),
        Instruction::Unary { op } => ("unary", Operands::Unary { op }),
        Instruction::Binary { op, place } => ("binary", Operands::Binary { op, place }),
        Instruction::Truth => ("truth", Operands::None),
        Instruction::Zero { to } => ("zero", Operands::One { first: to }),
        Instruction::NonZero { to } => ("nonzero", Operands::One { first: to }),
        Instruction::Jump { to } => ("jump", Operands::One { first: to }),
        Instruction::Unit { count } => ("unit", Operands::One { first: count }),
        Instruction::Fill { counter, turns } => (
            "fill",
            Operands::Two {
                first: counter,
                second: turns,
            },
        ),
        Instruction::Turn { counter, place } => (
            "turn",
            Operands::OneAt {
                first: counter,
                at: place,
            },
        ),
        Instruction::Flag { flag, value } => (
            "flag",
            Operands::Two {
                first: flag,
                second: value as u32,
            },
        ),
        Instruction::Keep { flag } => ("keep", Operands::One { first: flag }),
        Instruction::Flagged { flag, to } => (
            "flagged",
            Operands::Two {
                first: flag,
                second: to,
            },
        ),
        Instruction::Fork { par, to } => (
            "fork",
            Operands::Two {
                first: par,
                second: to,
            },
        ),
        Instruction::Again { par, to } => (
            "again",
            Operands::Two {
                first: par,
                second: to,
            },
        ),
        Instruction::Pause { to } => ("pause", Operands::One { first: to }),
        Instruction::End => ("end", Operands::None),
        Instruction::Call { function } => ("call", Operands::One { first: function }),
        Instruction::Return => ("return", Operands::None),
    }
}

/// The word of the instruction, and each operand after one space. An instruction that can trap ends
/// with a space and `@L:C`, the line and the column of the trap's place.
impl fmt::Display for Instruction {
    ghost use Rattle.thread_code.specs.Listing.{instruction_text};
    ghost use Rattle.std.specs.Prelude.{Some};

    ghost output = { λ i. Some (instruction_text i) };

    fn fmt<W: fmt::Write>(&self, f: &mut fmt::Formatter<W>) -> fmt::Result {
        let (word, operands) = line(*self);
        match operands {
            Operands::None => f.write_str(word),
            Operands::Number { value } => write!(f, "{word} {value}"),
            Operands::One { first } => write_one(f, word, first),
            Operands::Two { first, second } => write_two(f, word, first, second),
            Operands::OneAt { first, at } => write_one_at(f, word, first, at),
            Operands::TwoAt { first, second, at } => write_two_at(f, word, first, second, at),
            Operands::Unary { op } => write!(f, "{word} {}", unary_word(op)),
            Operands::Binary { op, place } => write_binary(f, word, op, place),
        }
    }
}

fn list_steps(text: &mut String, steps: &[Instruction]) -> Result<(), OutOfMemory>
    ensures { OnOk result (string_bytes text.new ≡ string_bytes text.old ++ steps_text 0 steps.now) }
{
    for (address, step) in steps.iter().enumerate() {
        writeln!(text, "{address} {step}")?;
    }
    Ok(())
}

/// The blocks in order, each under a line with a word and its number.
fn list_blocks(text: &mut String, word: &str, blocks: &[Block]) -> Result<(), OutOfMemory>
    ensures { OnOk result (string_bytes text.new ≡ string_bytes text.old
        ++ blocks_text word.now 0 (map plain_block blocks.now)) }
{
    for (number, block) in blocks.iter().enumerate() {
        writeln!(text, "{word} {number}")?;
        list_steps(text, &block.steps)?;
    }
    Ok(())
}

/// The instructions of a code as lines of text. For each thread in order there is a line `thread T`,
/// then for each int function a line `function F`; under it stands a line for each instruction, with
/// its address, a space and the instruction. Each line ends with byte 10.
pub fn listing(alloc: Global, code: &Code) -> Result<String, OutOfMemory>
    ensures { IfOk result (λ t. string_bytes t ≡ listing_of (plain_code code.now)) }
{
    let parts = code.parts();
    let mut text = String::new(alloc);
    list_blocks(&mut text, "thread", &parts.threads)?;
    list_blocks(&mut text, "function", &parts.functions)?;
    Ok(text)
}
