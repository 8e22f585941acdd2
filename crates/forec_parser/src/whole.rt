//! A program, all of the tokens.

ghost use Rattle.std.specs.Prelude.{◌≡◌, ◌≢◌, ◌≤◌, ℕ, IfOk, IfErr, Err, List, length};
ghost use Rattle.forec_tree.specs.declared.token.Token.{Token};
ghost use Rattle.forec_tree.specs.Plain.{program};
ghost use Rattle.forec_tree.specs.Terms.{Text};
ghost use Rattle.forec_tree.specs.SpelledPrograms.{IsSpelled};
ghost use Rattle.expr_parser.specs.Input.{input, max_level};
ghost use Rattle.forec_parser.specs.Items as spec;
ghost use Rattle.forec_parser.specs.ViablePrefixes.{StopsAt, OpensAt};
ghost use Rattle.forec_parser.specs.Program.{AnswersProgram, GivesProgram, HasParseCause, IsAmong, told_of};

use crate::fault::ParseFault;
use crate::item;
use expr_parser::{Fault, Tokens};
use forec_tree::{Program, Token};
use std::alloc::Global;

/// The program, with the place at which none is read.
fn read(alloc: Global, tokens: &[Token]) -> Result<Program, Fault>
    ensures { GivesProgram (spec.items max_level (input tokens.now 0)) result }
{
    let mut rest = Tokens::new(tokens, 0);
    let items = item::items(alloc, &mut rest)?;
    Ok(Program { items })
}

/// What the caller is told of a fault that is met in so many tokens.
fn told(fault: Fault, count: usize) -> ParseFault
    requires few { count ≤ 200000 }
    requires among { IsAmong count fault }
    ensures { result ≡ told_of count fault }
{
    match fault {
        Fault::Syntax { left } => ParseFault::Syntax {
            token: (count - left) as u32,
        },
        Fault::Deep { left } => ParseFault::Deep {
            token: (count - left) as u32,
        },
        Fault::OutOfMemory => ParseFault::OutOfMemory,
    }
}

/// The program that these tokens spell, all of them in the order of the text.
///
/// The level of a program is how deep its brackets, statements and operators nest; 128 is the
/// greatest that is read, so a stack of one megabyte does. The time is linear in the tokens.
/// A refusal other than out of memory tells at which token the text stops to be a program within
/// this level, and comes wherever its cause is.
pub fn parse(alloc: Global, tokens: &[Token]) -> Result<Program, ParseFault>
    requires { length tokens.now ≤ 200000 }
    ensures found { IfOk result (λ p. IsSpelled max_level (program p) tokens.now) }
    ensures only { (text : Text) → IsSpelled max_level text tokens.now → AnswersProgram text result }
    ensures refused { IfErr result (HasParseCause tokens.now) }
    ensures stops { (token : ℕ) → StopsAt max_level tokens.now token
        → result ≢ Err ParseFault.OutOfMemory
        → result ≡ Err (ParseFault.Syntax token) }
    ensures opens { (token : ℕ) → OpensAt max_level tokens.now token
        → result ≢ Err ParseFault.OutOfMemory
        → result ≡ Err (ParseFault.Deep token) }
{
    match read(alloc, tokens) {
        Ok(program) => Ok(program),
        Err(fault) => Err(told(fault, tokens.len())),
    }
}

/// No tokens spell two programs, at any level.
pub fn one_program()
    ensures { (k l : ℕ) (a b : Text) (ts : List Token) → IsSpelled k a ts → IsSpelled l b ts → a ≡ b }
{}
