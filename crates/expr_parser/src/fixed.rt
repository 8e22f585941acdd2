//! Tokens that a rule asks for by themselves.

ghost use Rattle.std.specs.Prelude.{◌≡◌};
ghost use Rattle.expr_parser.specs.Meaning as spec;

use forec_tree::{Mark, TokenKind, Word};

/// A token that a rule asks for by itself.
#[derive(Clone, Copy)]
pub enum Fixed {
    LeftRound,
    RightRound,
    LeftSquare,
    RightSquare,
    LeftCurly,
    RightCurly,
    Comma,
    Semicolon,
    Colon,
    Assign,
    Hash,
    Minus,
    Int,
    Void,
    Const,
    Input,
    Output,
    Shared,
    Combine,
    With,
    If,
    Else,
    While,
    For,
    Pause,
    Par,
    Weak,
    Abort,
    When,
    Immediate,
    Return,
}

fn fixed_number(fixed: Fixed) -> u8
    ensures { result ≡ spec.fixed_number fixed }
{
    match fixed {
        Fixed::LeftRound => 0,
        Fixed::RightRound => 1,
        Fixed::LeftSquare => 2,
        Fixed::RightSquare => 3,
        Fixed::LeftCurly => 4,
        Fixed::RightCurly => 5,
        Fixed::Comma => 6,
        Fixed::Semicolon => 7,
        Fixed::Colon => 8,
        Fixed::Assign => 9,
        Fixed::Hash => 10,
        Fixed::Minus => 11,
        Fixed::Int => 12,
        Fixed::Void => 13,
        Fixed::Const => 14,
        Fixed::Input => 15,
        Fixed::Output => 16,
        Fixed::Shared => 17,
        Fixed::Combine => 18,
        Fixed::With => 19,
        Fixed::If => 20,
        Fixed::Else => 21,
        Fixed::While => 22,
        Fixed::For => 23,
        Fixed::Pause => 24,
        Fixed::Par => 25,
        Fixed::Weak => 26,
        Fixed::Abort => 27,
        Fixed::When => 28,
        Fixed::Immediate => 29,
        Fixed::Return => 30,
    }
}

fn fixed_mark(mark: Mark) -> Option<Fixed>
    ensures { result ≡ spec.fixed_of (Some (TokenKind.Mark mark)) }
{
    match mark {
        Mark::LeftRound => Some(Fixed::LeftRound),
        Mark::RightRound => Some(Fixed::RightRound),
        Mark::LeftSquare => Some(Fixed::LeftSquare),
        Mark::RightSquare => Some(Fixed::RightSquare),
        Mark::LeftCurly => Some(Fixed::LeftCurly),
        Mark::RightCurly => Some(Fixed::RightCurly),
        Mark::Comma => Some(Fixed::Comma),
        Mark::Semicolon => Some(Fixed::Semicolon),
        Mark::Colon => Some(Fixed::Colon),
        Mark::Assign => Some(Fixed::Assign),
        Mark::Hash => Some(Fixed::Hash),
        Mark::Minus => Some(Fixed::Minus),
        _ => None,
    }
}

fn fixed_word(word: Word) -> Option<Fixed>
    ensures { result ≡ spec.fixed_of (Some (TokenKind.Word word)) }
{
    match word {
        Word::Int => Some(Fixed::Int),
        Word::Void => Some(Fixed::Void),
        Word::Const => Some(Fixed::Const),
        Word::Input => Some(Fixed::Input),
        Word::Output => Some(Fixed::Output),
        Word::Shared => Some(Fixed::Shared),
        Word::Combine => Some(Fixed::Combine),
        Word::With => Some(Fixed::With),
        Word::If => Some(Fixed::If),
        Word::Else => Some(Fixed::Else),
        Word::While => Some(Fixed::While),
        Word::For => Some(Fixed::For),
        Word::Pause => Some(Fixed::Pause),
        Word::Par => Some(Fixed::Par),
        Word::Weak => Some(Fixed::Weak),
        Word::Abort => Some(Fixed::Abort),
        Word::When => Some(Fixed::When),
        Word::Immediate => Some(Fixed::Immediate),
        Word::Return => Some(Fixed::Return),
        _ => None,
    }
}

fn fixed_of(kind: Option<TokenKind>) -> Option<Fixed>
    ensures { result ≡ spec.fixed_of kind }
{
    match kind {
        Some(TokenKind::Mark { mark }) => fixed_mark(mark),
        Some(TokenKind::Word { word }) => fixed_word(word),
        _ => None,
    }
}

/// Whether the token is this one.
pub fn is_fixed(fixed: Fixed, kind: Option<TokenKind>) -> bool
    ensures { result ≡ spec.is_fixed fixed kind }
{
    match fixed_of(kind) {
        None => false,
        Some(other) => fixed_number(fixed) == fixed_number(other),
    }
}
