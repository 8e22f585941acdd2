//! Texts and their tokens.

ghost use Rattle.std.specs.Prelude.{◌≤◌, length};

use forec_lexer::{LexFault, lex};
use forec_tree::TokenKind;
use std::alloc::Global;
use std::test::Fail;

/// Texts, each with how many tokens it has and the value of the first, where that is a number; or with
/// the line and column at which it is refused.
const ROWS: [(&str, (usize, i32, u32, u32)); 25] = [
    ("int @", (0, 0, 1, 5)),
    ("\0", (0, 0, 1, 1)),
    ("/* a", (0, 0, 1, 1)),
    ("/*/", (0, 0, 1, 1)),
    ("a /* b\n", (0, 0, 1, 3)),
    ("08", (0, 0, 1, 1)),
    ("1x", (0, 0, 1, 1)),
    ("0x", (0, 0, 1, 1)),
    ("4294967296", (0, 0, 1, 1)),
    ("0x100000000", (0, 0, 1, 1)),
    ("040000000000", (0, 0, 1, 1)),
    ("a // b\n\x0b\x0c \r\t\"", (0, 0, 2, 6)),
    (";\n;;\n  0b1", (0, 0, 3, 3)),
    ("", (0, 0, 0, 0)),
    ("0", (1, 0, 0, 0)),
    ("00", (1, 0, 0, 0)),
    ("0x1", (1, 1, 0, 0)),
    ("017", (1, 15, 0, 0)),
    ("0XfF", (1, 255, 0, 0)),
    ("42", (1, 42, 0, 0)),
    ("2147483648", (1, i32::MIN, 0, 0)),
    ("4294967295", (1, -1, 0, 0)),
    ("0xFFFFFFFF", (1, -1, 0, 0)),
    ("037777777777", (1, -1, 0, 0)),
    ("7<<=b+++-- int//c\nints/**/", (8, 7, 0, 0)),
];

fn told(alloc: Global, text: &str) -> Result<(usize, i32, u32, u32), LexFault>
    requires { length text.now ≤ 1048576 }
{
    match lex(alloc, text.as_bytes()) {
        Ok(lexed) => match lexed.tokens.as_slice().first() {
            Some(token) => match token.kind {
                TokenKind::Number { value } => Ok((lexed.tokens.len(), value, 0, 0)),
                _ => Ok((lexed.tokens.len(), 0, 0, 0)),
            },
            None => Ok((0, 0, 0, 0)),
        },
        Err(LexFault::Bad { place }) => Ok((0, 0, place.line, place.column)),
        Err(fault) => Err(fault),
    }
}

#[test]
fn tokens_and_refusals(rt: HostRuntime) -> Result<(), Fail> {
    for (text, wanted) in ROWS {
        assert!(rt; text.len() <= 1000);
        assert_eq!(rt; told(rt.alloc(), text)?, wanted, "{text}");
    }
    Ok(())
}

#[test]
fn names_and_places(rt: HostRuntime) -> Result<(), Fail> {
    let lexed = lex(rt.alloc(), b"b a // c\n b")?;
    assert_eq!(rt; lexed.tokens.len(), 3);
    let last = lexed.tokens[2];
    assert_eq!(rt; last.kind, TokenKind::Name { id: 0 });
    assert_eq!(rt; (last.start, last.end), (10, 11));
    assert_eq!(rt; (last.place.line, last.place.column), (2, 2));
    assert_eq!(rt; lexed.names.len(), 2);
    assert_eq!(rt; lexed.names.get(1), "a");
    Ok(())
}
