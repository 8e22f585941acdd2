//! Laws of the verdicts.
ghost use Rattle.text_verdict.specs.Laws.{OneVerdict, SomeVerdict, AcceptedTextsAreFormed, AcceptedTextsArePaced, AcceptedTextsAreNeverOver, AcceptedTextsHaveWords, AcceptedTextsGiveWords, AcceptedTextsHaveNames, AcceptedTextsHavePlainNames, AcceptedTextsHaveSafeOutputs};

use forec_lexer::one_lexing;
use forec_parser::one_program;

/// A text has one verdict at most: it is lexed in one way, its tokens spell one program, which has
/// one least fault, one kernel, and one limit that it passes first.
pub fn one_verdict()
    ensures { OneVerdict }
{
    one_lexing();
    one_program();
}

/// It can't be that a text has no verdict.
pub fn each_text_has_a_verdict()
    ensures { SomeVerdict }
{}

/// The kernel of a text that is accepted keeps the condition of kernels.
pub fn each_accepted_text_is_formed()
    ensures { AcceptedTextsAreFormed }
{}

/// The kernel of a text that is accepted is paced, and with a budget of at least its worst case no run of it has a tick
/// that is over.
pub fn each_accepted_text_is_paced()
    ensures paced { AcceptedTextsArePaced }
    ensures never_over { AcceptedTextsAreNeverOver }
{}

/// In the kernel of a text that is accepted each number fits 32 bits, and for rows whose numbers do, each output of each
/// tick of its runs does too.
pub fn each_accepted_text_has_words()
    ensures words { AcceptedTextsHaveWords }
    ensures outputs { AcceptedTextsGiveWords }
{}

/// Each variable in the kernel of a text that is accepted has a name as texts spell them, and after it for an element
/// of an array the index in square brackets: so each byte is a letter, `_`, a digit, `[` or `]`. There are at most 64
/// outputs, and each byte of their names is one from 33 to 126, and none of `$`, `(` and `)`.
pub fn each_accepted_text_has_names()
    ensures named { AcceptedTextsHaveNames }
    ensures plain { AcceptedTextsHavePlainNames }
    ensures safe { AcceptedTextsHaveSafeOutputs }
{}
