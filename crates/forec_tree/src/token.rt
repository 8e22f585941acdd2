//! Tokens: what the text of a program is cut into.

use forec_base::Place;

/// A reserved word.
#[derive(Clone, Copy, Debug, PartialEq, Eq)]
pub enum Word {
    Int,
    Void,
    Const,
    Input,
    Output,
    Shared,
    Combine,
    All,
    New,
    Mod,
    With,
    Par,
    Pause,
    Weak,
    Abort,
    Immediate,
    When,
    If,
    Else,
    While,
    For,
    Return,
}

/// A mark, named after what it is in C: `ShlAssign` is `<<=`, `Assign` is `=`, `Equal` is `==`.
#[derive(Clone, Copy, Debug, PartialEq, Eq)]
pub enum Mark {
    ShlAssign,
    ShrAssign,
    AddAssign,
    SubAssign,
    MulAssign,
    DivAssign,
    RemAssign,
    AndAssign,
    OrAssign,
    XorAssign,
    Shl,
    Shr,
    LessEqual,
    GreaterEqual,
    Equal,
    NotEqual,
    AndAnd,
    OrOr,
    PlusPlus,
    MinusMinus,
    Plus,
    Minus,
    Star,
    Slash,
    Percent,
    Ampersand,
    Bar,
    Caret,
    Tilde,
    Bang,
    Less,
    Greater,
    Assign,
    Question,
    Colon,
    Semicolon,
    Comma,
    LeftRound,
    RightRound,
    LeftCurly,
    RightCurly,
    LeftSquare,
    RightSquare,
    Hash,
}

/// What a token is. A name has the number of its spelling, by first use in the text; a number has
/// its 32 bits as an `int`.
#[derive(Clone, Copy, Debug, PartialEq, Eq)]
pub enum TokenKind {
    Name { id: u32 },
    Number { value: i32 },
    Word { word: Word },
    Mark { mark: Mark },
}

/// A token: the bytes from `start` up to `end` of the text, counted from 0, and the place of the first.
#[derive(Clone, Copy, Debug, PartialEq, Eq)]
pub struct Token {
    pub kind: TokenKind,
    pub start: u32,
    pub end: u32,
    pub place: Place,
}
