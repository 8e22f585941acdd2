//! Lines of the report that tell of no run.
ghost use Rattle.std.specs.Prelude.{◌≡◌, ◌≤◌, ◌++◌, length, codes, decimal};
ghost use Rattle.text_verdict.specs.Counting.{counts_line};
ghost use Rattle.text_verdict.specs.Judging.{limit_words, refused_at, refusal_line};
ghost use Rattle.trace_ticks.specs.WaitingRoom.{HasRoomFor, GainsBytes};
ghost use Rattle.forec_engine.specs.Placing.{place_line};

use core_alloc::PlaceFault;
use forec_base::Place;
use itoa::Buffer;
use text_verdict::{Counts, Quantity, Refusal};
use trace_ticks::Waiting;

/// Adds `refused`, a place and a word.
fn put_refused_at(waiting: &mut Waiting, place: Place, word: &[u8])
    requires room { HasRoomFor waiting.old 64 }
    requires short { length word.now ≤ 8 }
    ensures line { GainsBytes waiting.old waiting.new (refused_at place word.now) }
    ensures short { length (refused_at place word.now) ≤ 37 }
{
    waiting.put(b"refused ");
    waiting.put(Buffer::new().format(place.line).as_bytes());
    waiting.put(b":");
    waiting.put(Buffer::new().format(place.column).as_bytes());
    waiting.put(word);
}

/// Adds the line of a program that breaks this rule first.
fn put_broken(waiting: &mut Waiting, place: Place, rule: u8)
    requires { HasRoomFor waiting.old 64 }
    ensures { GainsBytes waiting.old waiting.new (refusal_line (Refusal.Rule place rule)) }
{
    put_refused_at(waiting, place, b" rule ");
    waiting.put(Buffer::new().format(rule).as_bytes());
    waiting.put(b"\n");
}

/// Adds a line of words and a number.
fn put_numbered(waiting: &mut Waiting, words: &[u8], number: u64)
    requires room { HasRoomFor waiting.old 64 }
    requires short { length words.now ≤ 22 }
    ensures { GainsBytes waiting.old waiting.new (words.now ++ decimal number ++ codes "\n") }
{
    waiting.put(words);
    waiting.put_number(number);
    waiting.put(b"\n");
}

/// Adds the line of a text that is refused.
pub fn put_refusal(waiting: &mut Waiting, why: Refusal)
    requires { HasRoomFor waiting.old 64 }
    ensures { GainsBytes waiting.old waiting.new (refusal_line why) }
{
    match why {
        Refusal::Long => waiting.put(b"refused long\n"),
        Refusal::Lex { place } => put_refused_at(waiting, place, b" lex\n"),
        Refusal::Many { place } => put_refused_at(waiting, place, b" many\n"),
        Refusal::Syntax { place } => put_refused_at(waiting, place, b" syntax\n"),
        Refusal::Deep { place } => put_refused_at(waiting, place, b" deep\n"),
        Refusal::Rule { place, rule } => put_broken(waiting, place, rule),
        Refusal::Limit { what, count } => put_numbered(waiting, limit_text(what), count),
    }
}

/// Adds the line of a list of places that is refused.
pub fn put_misplaced(waiting: &mut Waiting, why: PlaceFault)
    requires { HasRoomFor waiting.old 64 }
    ensures { GainsBytes waiting.old waiting.new (place_line why) }
{
    match why {
        PlaceFault::Shape { at } => put_numbered(waiting, b"place shape ", at),
        PlaceFault::Count { found } => put_numbered(waiting, b"place count ", found),
        PlaceFault::Core { at } => put_numbered(waiting, b"place core ", at),
        PlaceFault::OutOfMemory => {}
    }
}

/// Adds the line of what is counted of a program.
#[tactic(auto, unfolding(text_verdict::specs::Counting::counts_line))]
pub fn put_counts(waiting: &mut Waiting, counts: Counts)
    requires { HasRoomFor waiting.old 128 }
    ensures { GainsBytes waiting.old waiting.new (counts_line counts) }
{
    waiting.put(b"ok threads ");
    waiting.put_number(counts.threads);
    waiting.put(b" inputs ");
    waiting.put_number(counts.inputs as u64);
    waiting.put(b" outputs ");
    waiting.put_number(counts.outputs as u64);
    waiting.put(b"\n");
}

fn limit_text(what: Quantity) -> &'static [u8]
    ensures text { result.now ≡ limit_words what }
    ensures short { length result.now ≤ 22 }
{
    match what {
        Quantity::Threads => b"refused limit threads ",
        Quantity::Words => b"refused limit words ",
        Quantity::Globals => b"refused limit globals ",
        Quantity::Tables => b"refused limit tables ",
        Quantity::Terms => b"refused limit terms ",
        Quantity::Depth => b"refused limit depth ",
    }
}
