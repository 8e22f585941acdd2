//! What a text brings to its thread, and to the threads below it.

ghost use Rattle.std.specs.Prelude.{◌≡◌};
ghost use Rattle.text_chains.specs.Tallies as of;
ghost use Rattle.text_chains.specs.Views.{value_by};

use loop_check::value_at;
use lower_names::Globals;
use text_sizes::add;

/// What a text brings: whether it, or a thread below it, names a variable; the most words of an int
/// function that it calls and of all that this one calls; its own words; and the most words of a thread
/// below it. Words go up to the greatest `u64`.
#[derive(Clone, Copy)]
pub struct Tally {
    pub named: bool,
    pub calls: u64,
    pub words: u64,
    pub peak: u64,
}

/// The words of each int function and of all that it calls, by its number, and those of the combine
/// function of one variable or array, whose name is given.
#[derive(Clone, Copy)]
pub struct Weights<'a> {
    pub globals: &'a Globals<'a>,
    pub values: &'a [u64],
    pub variable: u32,
    pub array: bool,
    pub worth: u64,
}

/// What a text of no statement brings.
pub fn nothing() -> Tally
    ensures { result ≡ of.no_tally }
{
    Tally {
        named: false,
        calls: 0,
        words: 0,
        peak: 0,
    }
}

/// What a name brings.
pub fn naming(named: bool) -> Tally
    ensures { result ≡ of.naming_tally named }
{
    Tally {
        named,
        calls: 0,
        words: 0,
        peak: 0,
    }
}

/// What a call of an int function of so many words brings.
pub fn calling(words: u64) -> Tally
    ensures { result ≡ of.call_tally words }
{
    Tally {
        named: false,
        calls: words,
        words: 0,
        peak: 0,
    }
}

/// What so many words bring.
pub fn taking(words: u64) -> Tally
    ensures { result ≡ of.taking words }
{
    Tally {
        named: false,
        calls: 0,
        words: add(words, 0),
        peak: 0,
    }
}

/// One text, and another.
pub fn joined(a: Tally, b: Tally) -> Tally
    ensures { result ≡ of.both_tallies a b }
{
    Tally {
        named: a.named || b.named,
        calls: a.calls.max(b.calls),
        words: add(a.words, b.words),
        peak: a.peak.max(b.peak),
    }
}

/// A thread of its own, which has so many parameters.
pub fn started(params: u64, a: Tally) -> Tally
    ensures { result ≡ of.branch_tally params a }
{
    let whole = add(add(params, a.words), a.calls);
    Tally {
        named: a.named,
        calls: 0,
        words: 0,
        peak: whole.max(a.peak),
    }
}

/// What is known of the function of a number; one that isn't known brings nothing.
pub fn known_of(table: &[Tally], id: u32) -> Tally
    ensures { result ≡ of.tally_at table.now id }
{
    value_at(table, id, nothing())
}

/// The words of the int function of a name, and of all that it calls.
pub fn value(w: &Weights<'_>, id: u32) -> u64
    ensures { result ≡ value_by w.now id }
{
    value_at(w.values, w.globals.function(id), 0)
}

/// Whether a name is the variable's, where no local hides it.
fn names(w: &Weights<'_>, hidden: bool, id: u32) -> bool
    ensures { result ≡ of.names w.now.variable hidden id }
{
    !hidden && id == w.variable
}

/// Whether a name by itself names the variable: not where it is an array.
pub fn names_alone(w: &Weights<'_>, hidden: bool, id: u32) -> bool
    ensures { result ≡ of.names_alone w.now.variable w.now.array hidden id }
{
    !w.array && names(w, hidden, id)
}

/// Whether a name with an index names the variable: where it is an array.
pub fn names_indexed(w: &Weights<'_>, hidden: bool, id: u32) -> bool
    ensures { result ≡ of.names_indexed w.now.variable w.now.array hidden id }
{
    w.array && names(w, hidden, id)
}

/// Whether the variable is hidden after a local of a name.
pub fn hides(w: &Weights<'_>, hidden: bool, id: u32) -> bool
    ensures { result ≡ of.hides w.now.variable hidden id }
{
    hidden || id == w.variable
}
