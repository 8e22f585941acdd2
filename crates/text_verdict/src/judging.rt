//! From a text to its kernel, or to the first cause for which it is refused.
ghost use Rattle.std.specs.Prelude.{◌≡◌, ◌≤◌, length, IfOk, IfErr};
ghost use Rattle.forec_tree.specs.Plain.{program};
ghost use Rattle.forec_tree.specs.SpelledPrograms.{IsSpelled};
ghost use Rattle.forec_check.specs.Checked.{checked_text, names_of};
ghost use Rattle.text_verdict.specs.Judging.{most_levels, token_place, parser_fault, Judged, OnUnbroken, GivesVerdict, NamesFault};

use crate::counts::{Counts, count};
use crate::refusal::{JudgeFault, Refusal};
use forec_base::{MAX_TEXT_BYTES, Place};
use forec_check::{Checked, check};
use forec_kernel::Kernel;
use forec_lexer::{end_place, lex};
use forec_parser::{ParseFault, parse};
use forec_tree::{Program, Token};
use kernel_lower::lower_within;
use std::alloc::Global;

/// A text that is accepted: what is counted of its program, and its kernel.
#[derive(Drop)]
pub struct Accepted {
    pub counts: Counts,
    pub kernel: Kernel,
}

/// The place of a token, counted from 0, or that after the text where it has no more.
fn token_place(text: &[u8], tokens: &[Token], token: u32) -> Place
    requires { length text.now ≤ MAX_TEXT_BYTES }
    ensures { result ≡ token_place text.now tokens.now token }
{
    match tokens.get(token as usize) {
        Some(token) => token.place,
        None => end_place(text),
    }
}

/// What a fault of the parser is for the text.
fn refused(text: &[u8], tokens: &[Token], fault: ParseFault) -> JudgeFault
    requires { length text.now ≤ MAX_TEXT_BYTES }
    ensures { result ≡ parser_fault text.now tokens.now fault }
{
    match fault {
        ParseFault::Syntax { token } => JudgeFault::Refused {
            why: Refusal::Syntax {
                place: token_place(text, tokens, token),
            },
        },
        ParseFault::Deep { token } => JudgeFault::Refused {
            why: Refusal::Deep {
                place: token_place(text, tokens, token),
            },
        },
        ParseFault::OutOfMemory => JudgeFault::OutOfMemory,
    }
}

/// The program of a text with these tokens.
fn read(alloc: Global, text: &[u8], tokens: &[Token]) -> Result<Program, JudgeFault>
    requires short { length text.now ≤ MAX_TEXT_BYTES }
    requires few { length tokens.now ≤ 200000 }
    ensures found { IfOk result (λ p. IsSpelled most_levels (program p) tokens.now) }
    ensures refused { IfErr result (NamesFault text.now tokens.now) }
{
    match parse(alloc, tokens) {
        Ok(program) => Ok(program),
        Err(fault) => Err(refused(text, tokens, fault)),
    }
}

fn accept(alloc: Global, checked: &Checked<'_>, deepest: u64) -> Result<Accepted, JudgeFault>
    ensures { GivesVerdict (OnUnbroken (checked_text checked.now) (names_of checked.now)) result }
{
    let kernel = lower_within(alloc, checked, checked.names(), deepest)?;
    let counts = count(alloc, checked)?;
    Ok(Accepted { counts, kernel })
}

/// The kernel of a text of at most 1,048,576 bytes and what is counted of it, or why it is refused.
///
/// # Errors
///
/// Out of memory, also where more than `deepest` statements nest in a thread of the program.
pub fn judge(alloc: Global, text: &[u8], deepest: u64) -> Result<Accepted, JudgeFault>
    requires { length text.now ≤ MAX_TEXT_BYTES }
    ensures { GivesVerdict (Judged text.now) result }
{
    let lexed = lex(alloc, text)?;
    let program = read(alloc, text, &lexed.tokens)?;
    let checked = check(alloc, program, &lexed.names)?;
    accept(alloc, &checked, deepest)
}
