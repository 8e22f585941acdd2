//! How much room a listing takes.

use thread_code::{Block, CodeParts, Instruction};

/// How many bytes of a listing there is room for beside the largest code.
const MOST_LISTED: u64 = 188_000_000;

/// The longest word of an instruction, but for the operators, and the spaces and the end of a line.
const AROUND: u64 = 10;

const POWERS: [u32; 9] = [
    10,
    100,
    1_000,
    10_000,
    100_000,
    1_000_000,
    10_000_000,
    100_000_000,
    1_000_000_000,
];

/// How many digits a number has.
fn digits(number: u32) -> u64 {
    let mut count: u64 = 1;
    for power in &POWERS {
        if *power <= number {
            count = count.saturating_add(1);
        }
    }
    count
}

/// How many bytes a number takes, with its sign.
fn number(value: i32) -> u64 {
    digits(value.unsigned_abs()).saturating_add(u64::from(value < 0))
}

/// How many bytes the operands of an instruction take at most, with a space before the second one.
fn operands(step: &Instruction) -> u64 {
    match *step {
        Instruction::Push { value } => number(value),
        Instruction::Quiet { value } => number(value),
        Instruction::Load { slot: first }
        | Instruction::Store { slot: first }
        | Instruction::Table { table: first, .. }
        | Instruction::Get { variable: first }
        | Instruction::Put { variable: first }
        | Instruction::Zero { to: first }
        | Instruction::NonZero { to: first }
        | Instruction::Jump { to: first }
        | Instruction::Unit { count: first }
        | Instruction::Turn { counter: first, .. }
        | Instruction::Keep { flag: first }
        | Instruction::Pause { to: first }
        | Instruction::Call { function: first } => digits(first),
        Instruction::LoadAt {
            slot: first,
            length: second,
            ..
        }
        | Instruction::StoreAt {
            slot: first,
            length: second,
            ..
        }
        | Instruction::GetAt {
            variable: first,
            length: second,
            ..
        }
        | Instruction::PutAt {
            variable: first,
            length: second,
            ..
        }
        | Instruction::Clear {
            slot: first,
            length: second,
        }
        | Instruction::Fill {
            counter: first,
            turns: second,
        }
        | Instruction::Flagged {
            flag: first,
            to: second,
        }
        | Instruction::Fork {
            par: first,
            to: second,
        }
        | Instruction::Again {
            par: first,
            to: second,
        } => digits(first)
            .saturating_add(digits(second))
            .saturating_add(1),
        Instruction::Flag { flag, .. } => digits(flag).saturating_add(2),
        Instruction::Unary { .. } | Instruction::Binary { .. } => 5,
        Instruction::Truth | Instruction::End | Instruction::Return => 0,
    }
}

/// How many bytes the place of a trap takes, at most.
fn place(step: &Instruction) -> u64 {
    match step {
        Instruction::LoadAt { .. }
        | Instruction::StoreAt { .. }
        | Instruction::GetAt { .. }
        | Instruction::PutAt { .. }
        | Instruction::Table { .. }
        | Instruction::Turn { .. }
        | Instruction::Binary { place: Some(_), .. } => 16,
        _ => 0,
    }
}

/// How many bytes the lines of these blocks take, at most.
fn listed(blocks: &[Block]) -> u64 {
    let mut bytes: u64 = 0;
    for block in blocks {
        for (address, step) in block.steps.iter().enumerate() {
            let line = digits(u32::try_from(address).unwrap_or(u32::MAX))
                .saturating_add(operands(step))
                .saturating_add(place(step));
            bytes = bytes.saturating_add(line).saturating_add(AROUND);
        }
    }
    bytes
}

/// Whether there is room for the listing of a code beside it.
pub fn has_room(code: &CodeParts) -> bool {
    listed(&code.threads).saturating_add(listed(&code.functions)) <= MOST_LISTED
}
