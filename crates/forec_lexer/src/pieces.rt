//! What stands at the front of a text.
ghost use Rattle.std.specs.Prelude.{◌≡◌, ◌≤◌, ◌<◌, length, take, IfSome, IfNone};
ghost use Rattle.forec_tree.specs.Lexis.{NextPiece, NothingFits};
ghost use Rattle.forec_lexer.specs.Reading as reading;
ghost use Rattle.forec_lexer.specs.Reading.{shown, IsText};

use crate::bytes::{is_digit, is_letter, is_space, run_len};
use crate::comments::{close_of, line_len};
use crate::marks::mark_ahead;
use crate::numbers::number_of;
use crate::words::word_of;
use forec_tree::{Mark, Word};

/// A byte of white space or a comment, or what a token is.
#[derive(Clone, Copy)]
pub enum Piece {
    Blank,
    Name,
    Number { value: i32 },
    Word { word: Word },
    Mark { mark: Mark },
}

/// A reserved word or a name.
fn letters_ahead(text: &[u8]) -> (Piece, usize)
    ensures { result ≡ reading.letters_ahead text.now }
{
    let len = run_len(text);
    match word_of(&text[..len]) {
        Some(word) => (Piece::Word { word }, len),
        None => (Piece::Name, len),
    }
}

fn number_ahead(text: &[u8]) -> Option<(Piece, usize)>
    ensures { result ≡ reading.number_ahead text.now }
{
    let len = run_len(text);
    let value = number_of(&text[..len])?;
    let value = value.cast_signed();
    Some((Piece::Number { value }, len))
}

/// A comment or a mark.
fn sign_ahead(text: &[u8]) -> Option<(Piece, usize)>
    ensures { result ≡ reading.sign_ahead text.now }
{
    if text.starts_with(b"//".as_slice()) {
        return Some((Piece::Blank, 2 + line_len(&text[2..])));
    }
    if text.starts_with(b"/*".as_slice()) {
        let len = close_of(&text[2..])?;
        return Some((Piece::Blank, 2 + len));
    }
    let (mark, len) = mark_ahead(text)?;
    Some((Piece::Mark { mark }, len))
}

#[tactic(auto, unfolding(crate::specs::Reading::piece_ahead))]
fn front(text: &[u8]) -> Option<(Piece, usize)>
    ensures { result ≡ reading.piece_ahead text.now }
{
    let byte = *text.first()?;
    if is_space(byte) {
        Some((Piece::Blank, 1))
    } else if is_letter(byte) {
        Some(letters_ahead(text))
    } else if is_digit(byte) {
        number_ahead(text)
    } else {
        sign_ahead(text)
    }
}

/// The longest piece at the front of the text, and its length.
pub fn next(text: &[u8]) -> Option<(Piece, usize)>
    ensures found { IfSome result (λ r. NextPiece text.now (shown r.0) r.1) }
    ensures some { IfSome result (λ r. 0 < r.1) }
    ensures within { IfSome result (λ r. r.1 ≤ length text.now) }
    ensures letters { IfSome result (λ r. IsText r.0 (take r.1 text.now)) }
    ensures none { IfNone result (NothingFits text.now) }
{
    front(text)
}
