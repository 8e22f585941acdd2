//! Reserved words.
ghost use Rattle.std.specs.Prelude.{◌≡◌};
ghost use Rattle.forec_tree.specs.Lexis as lexis;
ghost use Rattle.forec_lexer.specs.Reading as reading;

use forec_tree::Word;

const WORDS: [Word; 22] = [
    Word::Int,
    Word::Void,
    Word::Const,
    Word::Input,
    Word::Output,
    Word::Shared,
    Word::Combine,
    Word::All,
    Word::New,
    Word::Mod,
    Word::With,
    Word::Par,
    Word::Pause,
    Word::Weak,
    Word::Abort,
    Word::Immediate,
    Word::When,
    Word::If,
    Word::Else,
    Word::While,
    Word::For,
    Word::Return,
];

fn letters(word: Word) -> &'static [u8]
    ensures { result.now ≡ lexis.letters_of word }
{
    match word {
        Word::Int => b"int",
        Word::Void => b"void",
        Word::Const => b"const",
        Word::Input => b"input",
        Word::Output => b"output",
        Word::Shared => b"shared",
        Word::Combine => b"combine",
        Word::All => b"all",
        Word::New => b"new",
        Word::Mod => b"mod",
        Word::With => b"with",
        Word::Par => b"par",
        Word::Pause => b"pause",
        Word::Weak => b"weak",
        Word::Abort => b"abort",
        Word::Immediate => b"immediate",
        Word::When => b"when",
        Word::If => b"if",
        Word::Else => b"else",
        Word::While => b"while",
        Word::For => b"for",
        Word::Return => b"return",
    }
}

/// The reserved word of these letters.
pub fn word_of(run: &[u8]) -> Option<Word>
    ensures { result ≡ reading.word_in reading.words run.now }
{
    for word in WORDS {
        if run == letters(word) {
            return Some(word);
        }
    }
    None
}
