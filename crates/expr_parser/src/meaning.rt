//! What a token of an expression means where it stands.

ghost use Rattle.std.specs.Prelude.{◌≡◌, ◌≤◌};
ghost use Rattle.forec_tree.specs.Spelling as spelling;
ghost use Rattle.expr_parser.specs.Meaning as spec;

use forec_base::{Binary, Unary};
use forec_tree::{Mark, Operator, TokenKind};

/// What a token begins where an operand is wanted.
#[derive(Clone, Copy)]
pub enum Start {
    Literal,
    Named,
    Sign { op: Unary },
    Round,
    Nothing,
}

/// What a token is after an operand.
#[derive(Clone, Copy)]
pub enum Infix {
    Joins { op: Operator },
    Question,
    Nothing,
}

/// What a token begins after a name.
#[derive(Clone, Copy)]
pub enum Behind {
    Index,
    Arguments,
    Nothing,
}

/// The number of a name's spelling.
pub fn name_of(kind: Option<TokenKind>) -> Option<u32>
    ensures { result ≡ spec.token_name kind }
{
    match kind {
        Some(TokenKind::Name { id }) => Some(id),
        _ => None,
    }
}

/// The value of a number.
pub fn number_of(kind: Option<TokenKind>) -> Option<i32>
    ensures { result ≡ spec.token_number kind }
{
    match kind {
        Some(TokenKind::Number { value }) => Some(value),
        _ => None,
    }
}

fn start_mark(mark: Mark) -> Start
    ensures { result ≡ spec.term_start (Some (TokenKind.Mark mark)) }
{
    match mark {
        Mark::Minus => Start::Sign { op: Unary::Minus },
        Mark::Tilde => Start::Sign { op: Unary::Invert },
        Mark::Bang => Start::Sign { op: Unary::Not },
        Mark::LeftRound => Start::Round,
        _ => Start::Nothing,
    }
}

/// What the token begins where an operand is wanted.
pub fn start_of(kind: Option<TokenKind>) -> Start
    ensures { result ≡ spec.term_start kind }
{
    match kind {
        Some(TokenKind::Mark { mark }) => start_mark(mark),
        Some(TokenKind::Number { value: _ }) => Start::Literal,
        Some(TokenKind::Name { id: _ }) => Start::Named,
        _ => Start::Nothing,
    }
}

fn computes(op: Binary) -> Infix
    ensures { result ≡ Infix.Joins (Operator.Computes op) }
{
    Infix::Joins {
        op: Operator::Computes { op },
    }
}

fn infix_mark(mark: Mark) -> Infix
    ensures { result ≡ spec.infix_of (Some (TokenKind.Mark mark)) }
{
    match mark {
        Mark::OrOr => Infix::Joins { op: Operator::Or },
        Mark::AndAnd => Infix::Joins { op: Operator::And },
        Mark::Bar => computes(Binary::BitOr),
        Mark::Caret => computes(Binary::BitXor),
        Mark::Ampersand => computes(Binary::BitAnd),
        Mark::Equal => computes(Binary::Eq),
        Mark::NotEqual => computes(Binary::Ne),
        Mark::Less => computes(Binary::Lt),
        Mark::LessEqual => computes(Binary::Le),
        Mark::Greater => computes(Binary::Gt),
        Mark::GreaterEqual => computes(Binary::Ge),
        Mark::Shl => computes(Binary::Shl),
        Mark::Shr => computes(Binary::Shr),
        Mark::Plus => computes(Binary::Add),
        Mark::Minus => computes(Binary::Sub),
        Mark::Star => computes(Binary::Mul),
        Mark::Slash => computes(Binary::Div),
        Mark::Percent => computes(Binary::Rem),
        Mark::Question => Infix::Question,
        _ => Infix::Nothing,
    }
}

/// What the token is after an operand.
pub fn infix_of(kind: Option<TokenKind>) -> Infix
    ensures { result ≡ spec.infix_of kind }
{
    match kind {
        Some(TokenKind::Mark { mark }) => infix_mark(mark),
        _ => Infix::Nothing,
    }
}

fn behind_mark(mark: Mark) -> Behind
    ensures { result ≡ spec.after_of (Some (TokenKind.Mark mark)) }
{
    match mark {
        Mark::LeftSquare => Behind::Index,
        Mark::LeftRound => Behind::Arguments,
        _ => Behind::Nothing,
    }
}

/// What the token begins after a name.
pub fn after_of(kind: Option<TokenKind>) -> Behind
    ensures { result ≡ spec.after_of kind }
{
    match kind {
        Some(TokenKind::Mark { mark }) => behind_mark(mark),
        _ => Behind::Nothing,
    }
}

fn computing_level(op: Binary) -> u8
    ensures value { result ≡ spelling.computing_level op }
    ensures small { result ≤ 11 }
{
    match op {
        Binary::BitOr => 4,
        Binary::BitXor => 5,
        Binary::BitAnd => 6,
        Binary::Eq => 7,
        Binary::Ne => 7,
        Binary::Lt => 8,
        Binary::Le => 8,
        Binary::Gt => 8,
        Binary::Ge => 8,
        Binary::Shl => 9,
        Binary::Shr => 9,
        Binary::Add => 10,
        Binary::Sub => 10,
        Binary::Mul => 11,
        Binary::Div => 11,
        Binary::Rem => 11,
    }
}

/// How tightly an operator binds, from 2 to 11.
pub fn level_of(op: Operator) -> u8
    ensures value { result ≡ spelling.level_of op }
    ensures small { result ≤ 11 }
{
    match op {
        Operator::Or => 2,
        Operator::And => 3,
        Operator::Computes { op } => computing_level(op),
    }
}

/// How tightly what stands after an operand binds, up to 11; 0 is nothing.
pub fn binds(shown: Infix) -> u8
    ensures { result ≡ spec.binds shown }
{
    match shown {
        Infix::Joins { op } => level_of(op),
        Infix::Question => 1,
        Infix::Nothing => 0,
    }
}
