//! A whole text.
ghost use Rattle.std.specs.Prelude.{◌≡◌, ◌≢◌, ◌≤◌, ◌<◌, ◌+◌, ℕ, List, [], length, All, IfOk, IfErr, OnOk, IsOkAnd, Err, fold};
ghost use Rattle.forec_base.specs.declared.Place.{Place};
ghost use Rattle.forec_base.specs.declared.limits.TheConstants.{MAX_TOKENS};
ghost use Rattle.forec_tree.specs.declared.token.Token.{Token};
ghost use Rattle.forec_tree.specs.LexedText as lexed;
ghost use Rattle.forec_tree.specs.LexedText.{place_after, first_place, IsLexed, IsBad, IsMany, AreDistinct, IsSpelt, IsNumbered, NumbersSpellings, AreInOrder};
ghost use Rattle.forec_lexer.specs.Reading.{shown, IsText};
ghost use Rattle.forec_lexer.specs.Answers.{kept, IsFull, HasLexCause};
ghost use Rattle.forec_lexer.specs.Shown.{IsSame};

use crate::fault::LexFault;
use crate::names::Names;
use crate::pieces::{Piece, next};
use forec_base::{Labels, MAX_TOKENS, OutOfMemory, Place};
use forec_tree::{Token, TokenKind};
use std::alloc::Global;

/// The tokens of a text, in its order, and the names that they number.
#[derive(Drop)]
pub struct Lexed {
    pub tokens: Vec<Token>,
    pub names: Labels,
}

/// The place after the bytes.
fn place_behind(place: Place, bytes: &[u8]) -> Place
    requires line { place.line + length bytes.now < 4294967296 }
    requires column { place.column + length bytes.now < 4294967296 }
    ensures { result ≡ fold place_after place bytes.now }
{
    let mut line = place.line;
    let mut column = place.column;
    for byte in bytes {
        if *byte == b'\n' {
            line += 1;
            column = 1;
        } else {
            column += 1;
        }
    }
    Place { line, column }
}

/// The place after the last byte of a text of at most 1,048,576 bytes, in time linear in it.
pub fn end_place(text: &[u8]) -> Place
    requires { length text.now ≤ 1048576 }
    ensures { result ≡ fold place_after first_place text.now }
{
    place_behind(Place { line: 1, column: 1 }, text)
}

/// The kind of token that a piece gives, if it gives one. A new name is added to the names.
fn kind_of<'a>(
    names: &mut Names<'a>,
    piece: Piece,
    bytes: &'a [u8],
) -> Result<Option<TokenKind>, OutOfMemory>
    requires text { IsText piece bytes.now }
    requires same { IsSame names.old }
    requires few { length names.old.labels < 4294967295 }
    ensures kind { IfOk result
        (λ kind. kind ≡ lexed.token_kind_of names.old.labels (shown piece) bytes.entry.now) }
    ensures after { OnOk result
        (names.new.labels ≡ lexed.names_after names.old.labels (shown piece) bytes.entry.now) }
    ensures same { OnOk result (IsSame names.new) }
{
    match piece {
        Piece::Blank => Ok(None),
        Piece::Name => {
            let id = names.number(bytes)?;
            Ok(Some(TokenKind::Name { id }))
        }
        Piece::Number { value } => Ok(Some(TokenKind::Number { value })),
        Piece::Word { word } => Ok(Some(TokenKind::Word { word })),
        Piece::Mark { mark } => Ok(Some(TokenKind::Mark { mark })),
    }
}

/// Adds the token of a piece, if it gives one.
fn keep(
    tokens: &mut Vec<Token>,
    kind: Option<TokenKind>,
    start: usize,
    end: usize,
    place: Place,
) -> Result<(), LexFault>
    requires order { start ≤ end }
    requires small { end < 4294967296 }
    requires few { length tokens.old.items ≤ MAX_TOKENS }
    ensures ok { OnOk result (tokens.new.items ≡ kept tokens.old.items kind start end place) }
    ensures few { OnOk result (length tokens.new.items ≤ MAX_TOKENS) }
    ensures err { IfErr result (IsFull tokens.old.items kind place) }
{
    let Some(kind) = kind else {
        return Ok(());
    };
    if tokens.len() == MAX_TOKENS {
        return Err(LexFault::Many { place });
    }
    let token = Token {
        kind,
        start: start as u32,
        end: end as u32,
        place,
    };
    if tokens.push(token).is_err() {
        return Err(LexFault::OutOfMemory);
    }
    Ok(())
}

/// Adds the tokens of a text and the names that they number, where there are none yet.
fn lexed_into<'a>(
    tokens: &mut Vec<Token>,
    names: &mut Names<'a>,
    text: &'a [u8],
) -> Result<(), LexFault>
    requires small { length text.now ≤ 1048576 }
    requires no_tokens { tokens.old.items ≡ [] }
    requires no_names { names.old.labels ≡ [] }
    requires same { IsSame names.old }
    ensures ok { OnOk result (IsLexed text.entry.now tokens.new.items names.new.labels) }
    ensures err { IfErr result (HasLexCause text.entry.now) }
{
    let mut at = 0;
    let mut place = Place { line: 1, column: 1 };
    while at < text.len() {
        let rest = &text[at..];
        let Some((piece, len)) = next(rest) else {
            return Err(LexFault::Bad { place });
        };
        let bytes = &rest[..len];
        let kind = kind_of(names, piece, bytes)?;
        keep(tokens, kind, at, at + len, place)?;
        place = place_behind(place, bytes);
        at += len;
    }
    Ok(())
}

fn lexed_text(alloc: Global, text: &[u8]) -> Result<Lexed, LexFault>
    requires { length text.now ≤ 1048576 }
    ensures ok { IfOk result (λ l. IsLexed text.now l.tokens.items l.names) }
    ensures err { IfErr result (HasLexCause text.now) }
{
    let mut names = Names::new(alloc)?;
    let mut tokens = Vec::new(alloc);
    lexed_into(&mut tokens, &mut names, text)?;
    Ok(Lexed {
        tokens,
        names: names.into_labels(),
    })
}

/// The tokens and the names of a text of at most 1,048,576 bytes.
///
/// A name's id is its place among the names. A refusal other than out of memory tells where the
/// text is refused.
pub fn lex(alloc: Global, text: &[u8]) -> Result<Lexed, LexFault>
    requires { length text.now ≤ 1048576 }
    ensures ok { IfOk result (λ l. IsLexed text.now l.tokens.items l.names) }
    ensures err { IfErr result (HasLexCause text.now) }

    // Each answer but out of memory comes wherever its cause is.
    ensures lexed { (tokens : List Token) (names : List (List ℕ)) → IsLexed text.now tokens names
        → result ≢ Err LexFault.OutOfMemory
        → IsOkAnd result (λ l. (l.tokens.items ≡ tokens) × (l.names ≡ names)) }
    ensures bad { (place : Place) → IsBad text.now place
        → result ≢ Err LexFault.OutOfMemory
        → result ≡ Err (LexFault.Bad place) }
    ensures many { (place : Place) → IsMany text.now place
        → result ≢ Err LexFault.OutOfMemory
        → result ≡ Err (LexFault.Many place) }

    // What the parts above rely on.
    ensures order { IfOk result (λ l. AreInOrder 0 l.tokens.items (length text.now)) }
    ensures numbers { IfOk result (λ l. NumbersSpellings text.now l.tokens.items) }
    ensures spelt { IfOk result (λ l. All (IsSpelt text.now l.names) l.tokens.items) }
    ensures ids { IfOk result (λ l. All (IsNumbered l.names) l.tokens.items) }
    ensures few { IfOk result (λ l. length l.names ≤ length l.tokens.items) }
    ensures distinct { IfOk result (λ l. AreDistinct l.names) }
{
    lexed_text(alloc, text)
}
