//! Marks.
ghost use Rattle.std.specs.Prelude.{◌≡◌};
ghost use Rattle.forec_tree.specs.Lexis as lexis;
ghost use Rattle.forec_lexer.specs.Reading as reading;

use forec_tree::Mark;

/// The longer ones first.
const MARKS: [Mark; 44] = [
    Mark::ShlAssign,
    Mark::ShrAssign,
    Mark::AddAssign,
    Mark::SubAssign,
    Mark::MulAssign,
    Mark::DivAssign,
    Mark::RemAssign,
    Mark::AndAssign,
    Mark::OrAssign,
    Mark::XorAssign,
    Mark::Shl,
    Mark::Shr,
    Mark::LessEqual,
    Mark::GreaterEqual,
    Mark::Equal,
    Mark::NotEqual,
    Mark::AndAnd,
    Mark::OrOr,
    Mark::PlusPlus,
    Mark::MinusMinus,
    Mark::Plus,
    Mark::Minus,
    Mark::Star,
    Mark::Slash,
    Mark::Percent,
    Mark::Ampersand,
    Mark::Bar,
    Mark::Caret,
    Mark::Tilde,
    Mark::Bang,
    Mark::Less,
    Mark::Greater,
    Mark::Assign,
    Mark::Question,
    Mark::Colon,
    Mark::Semicolon,
    Mark::Comma,
    Mark::LeftRound,
    Mark::RightRound,
    Mark::LeftCurly,
    Mark::RightCurly,
    Mark::LeftSquare,
    Mark::RightSquare,
    Mark::Hash,
];

fn spelling(mark: Mark) -> &'static [u8]
    ensures { result.now ≡ lexis.spelling mark }
{
    match mark {
        Mark::ShlAssign => b"<<=",
        Mark::ShrAssign => b">>=",
        Mark::AddAssign => b"+=",
        Mark::SubAssign => b"-=",
        Mark::MulAssign => b"*=",
        Mark::DivAssign => b"/=",
        Mark::RemAssign => b"%=",
        Mark::AndAssign => b"&=",
        Mark::OrAssign => b"|=",
        Mark::XorAssign => b"^=",
        Mark::Shl => b"<<",
        Mark::Shr => b">>",
        Mark::LessEqual => b"<=",
        Mark::GreaterEqual => b">=",
        Mark::Equal => b"==",
        Mark::NotEqual => b"!=",
        Mark::AndAnd => b"&&",
        Mark::OrOr => b"||",
        Mark::PlusPlus => b"++",
        Mark::MinusMinus => b"--",
        Mark::Plus => b"+",
        Mark::Minus => b"-",
        Mark::Star => b"*",
        Mark::Slash => b"/",
        Mark::Percent => b"%",
        Mark::Ampersand => b"&",
        Mark::Bar => b"|",
        Mark::Caret => b"^",
        Mark::Tilde => b"~",
        Mark::Bang => b"!",
        Mark::Less => b"<",
        Mark::Greater => b">",
        Mark::Assign => b"=",
        Mark::Question => b"?",
        Mark::Colon => b":",
        Mark::Semicolon => b";",
        Mark::Comma => b",",
        Mark::LeftRound => b"(",
        Mark::RightRound => b")",
        Mark::LeftCurly => b"{",
        Mark::RightCurly => b"}",
        Mark::LeftSquare => b"[",
        Mark::RightSquare => b"]",
        Mark::Hash => b"#",
    }
}

/// The longest mark at the front, and its length.
pub fn mark_ahead(text: &[u8]) -> Option<(Mark, usize)>
    ensures { result ≡ reading.mark_ahead reading.marks text.now }
{
    for mark in MARKS {
        let bytes = spelling(mark);
        if text.starts_with(bytes) {
            return Some((mark, bytes.len()));
        }
    }
    None
}
