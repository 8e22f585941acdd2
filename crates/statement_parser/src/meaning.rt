//! What a token means where it stands.

ghost use Rattle.std.specs.Prelude.{◌≡◌};
ghost use Rattle.statement_parser.specs.Meaning as spec;

use expr_parser::{Fixed, is_fixed};
use forec_base::{Binary, Policy};
use forec_tree::{GlobalKind, Mark, TokenKind, Word};

/// How a token changes the target before it.
#[derive(Clone, Copy)]
pub enum Change {
    Sets,
    Updates,
    Increments,
    Nothing,
}

/// What a token begins where a simple statement is wanted.
#[derive(Clone, Copy)]
pub enum Act {
    Named,
    Increments,
    Nothing,
}

/// What a token begins where a statement is wanted.
#[derive(Clone, Copy)]
pub enum Sort {
    Empty,
    Curly,
    Declares,
    If,
    While,
    For,
    Pause,
    Par,
    Weak,
    Abort,
    Return,
    Simple,
    Nothing,
}

/// What a token begins where a global or a function is wanted.
#[derive(Clone, Copy)]
pub enum Opening {
    Const,
    Input,
    Output,
    Shared,
    Int,
    Void,
    Nothing,
}

/// What a global is declared as.
#[derive(Clone, Copy)]
pub enum Declarator {
    /// A constant, or a table of constants.
    Table,
    /// An input: a name alone.
    Bare,
    /// A name with or without a value.
    Valued { kind: GlobalKind },
}

fn update_mark(mark: Mark) -> Option<Binary>
    ensures { result ≡ spec.update_of (Some (TokenKind.Mark mark)) }
{
    match mark {
        Mark::ShlAssign => Some(Binary::Shl),
        Mark::ShrAssign => Some(Binary::Shr),
        Mark::AddAssign => Some(Binary::Add),
        Mark::SubAssign => Some(Binary::Sub),
        Mark::MulAssign => Some(Binary::Mul),
        Mark::DivAssign => Some(Binary::Div),
        Mark::RemAssign => Some(Binary::Rem),
        Mark::AndAssign => Some(Binary::BitAnd),
        Mark::OrAssign => Some(Binary::BitOr),
        Mark::XorAssign => Some(Binary::BitXor),
        _ => None,
    }
}

/// The operator of `+=` and its kin.
pub fn update_of(kind: Option<TokenKind>) -> Option<Binary>
    ensures { result ≡ spec.update_of kind }
{
    match kind {
        Some(TokenKind::Mark { mark }) => update_mark(mark),
        _ => None,
    }
}

fn step_mark(mark: Mark) -> Option<Binary>
    ensures { result ≡ spec.token_step (Some (TokenKind.Mark mark)) }
{
    match mark {
        Mark::PlusPlus => Some(Binary::Add),
        Mark::MinusMinus => Some(Binary::Sub),
        _ => None,
    }
}

/// The operator of `++` and `--`.
pub fn step_of(kind: Option<TokenKind>) -> Option<Binary>
    ensures { result ≡ spec.token_step kind }
{
    match kind {
        Some(TokenKind::Mark { mark }) => step_mark(mark),
        _ => None,
    }
}

fn change_mark(mark: Mark) -> Change
    ensures { result ≡ spec.change_of (Some (TokenKind.Mark mark)) }
{
    match mark {
        Mark::Assign => Change::Sets,
        Mark::ShlAssign => Change::Updates,
        Mark::ShrAssign => Change::Updates,
        Mark::AddAssign => Change::Updates,
        Mark::SubAssign => Change::Updates,
        Mark::MulAssign => Change::Updates,
        Mark::DivAssign => Change::Updates,
        Mark::RemAssign => Change::Updates,
        Mark::AndAssign => Change::Updates,
        Mark::OrAssign => Change::Updates,
        Mark::XorAssign => Change::Updates,
        Mark::PlusPlus => Change::Increments,
        Mark::MinusMinus => Change::Increments,
        _ => Change::Nothing,
    }
}

/// How the token changes the target before it.
pub fn change_of(kind: Option<TokenKind>) -> Change
    ensures { result ≡ spec.change_of kind }
{
    match kind {
        Some(TokenKind::Mark { mark }) => change_mark(mark),
        _ => Change::Nothing,
    }
}

fn act_mark(mark: Mark) -> Act
    ensures { result ≡ spec.act_of (Some (TokenKind.Mark mark)) }
{
    match mark {
        Mark::PlusPlus => Act::Increments,
        Mark::MinusMinus => Act::Increments,
        _ => Act::Nothing,
    }
}

/// What the token begins where a simple statement is wanted.
pub fn act_of(kind: Option<TokenKind>) -> Act
    ensures { result ≡ spec.act_of kind }
{
    match kind {
        Some(TokenKind::Mark { mark }) => act_mark(mark),
        Some(TokenKind::Name { id: _ }) => Act::Named,
        _ => Act::Nothing,
    }
}

fn sort_mark(mark: Mark) -> Sort
    ensures { result ≡ spec.sort_of (Some (TokenKind.Mark mark)) }
{
    match mark {
        Mark::Semicolon => Sort::Empty,
        Mark::LeftCurly => Sort::Curly,
        Mark::PlusPlus => Sort::Simple,
        Mark::MinusMinus => Sort::Simple,
        _ => Sort::Nothing,
    }
}

fn sort_word(word: Word) -> Sort
    ensures { result ≡ spec.sort_of (Some (TokenKind.Word word)) }
{
    match word {
        Word::Int => Sort::Declares,
        Word::If => Sort::If,
        Word::While => Sort::While,
        Word::For => Sort::For,
        Word::Pause => Sort::Pause,
        Word::Par => Sort::Par,
        Word::Weak => Sort::Weak,
        Word::Abort => Sort::Abort,
        Word::Return => Sort::Return,
        _ => Sort::Nothing,
    }
}

/// What the token begins where a statement is wanted.
pub fn sort_of(kind: Option<TokenKind>) -> Sort
    ensures { result ≡ spec.sort_of kind }
{
    match kind {
        Some(TokenKind::Mark { mark }) => sort_mark(mark),
        Some(TokenKind::Word { word }) => sort_word(word),
        Some(TokenKind::Name { id: _ }) => Sort::Simple,
        _ => Sort::Nothing,
    }
}

fn opening_word(word: Word) -> Opening
    ensures { result ≡ spec.opening_of (Some (TokenKind.Word word)) }
{
    match word {
        Word::Const => Opening::Const,
        Word::Input => Opening::Input,
        Word::Output => Opening::Output,
        Word::Shared => Opening::Shared,
        Word::Int => Opening::Int,
        Word::Void => Opening::Void,
        _ => Opening::Nothing,
    }
}

/// What the token begins where a global or a function is wanted.
pub fn opening_of(kind: Option<TokenKind>) -> Opening
    ensures { result ≡ spec.opening_of kind }
{
    match kind {
        Some(TokenKind::Word { word }) => opening_word(word),
        _ => Opening::Nothing,
    }
}

fn policy_word(word: Word) -> Option<Policy>
    ensures { result ≡ spec.token_policy (Some (TokenKind.Word word)) }
{
    match word {
        Word::All => Some(Policy::All),
        Word::New => Some(Policy::New),
        Word::Mod => Some(Policy::Mod),
        _ => None,
    }
}

/// The policy that the token names.
pub fn policy_of(kind: Option<TokenKind>) -> Option<Policy>
    ensures { result ≡ spec.token_policy kind }
{
    match kind {
        Some(TokenKind::Word { word }) => policy_word(word),
        _ => None,
    }
}

/// Whether a list of statements ends here.
pub fn ends_body(kind: Option<TokenKind>) -> bool
    ensures { result ≡ spec.ends_body kind }
{
    match kind {
        None => true,
        Some(next) => is_fixed(Fixed::RightCurly, Some(next)),
    }
}
