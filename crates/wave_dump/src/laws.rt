//! What is said of dumps, whatever calls are made.
ghost use Rattle.std.specs.Prelude.{◌≡◌, ◌++◌, ◌∷◌, ◌+◌, [], ℕ, ℤ, List, length, map, Some, Ok};
ghost use Rattle.wave_dump.specs.Wave.{PlainDump, IsDump, wave_text, head_text, tick_text, tail_text, until_ending, no_values};
ghost use Rattle.wave_dump.specs.Machine.{first_stage, dump_in, olds_of};
ghost use Rattle.wave_dump.specs.Fronts.{IsAnswer};

/// The answer on bytes is the dump that they spell, or how many of them are the longest front that some dump begins with;
/// the text of a dump is read as that dump; and no two dumps have one text.
pub fn reading_is_exact()
    ensures told { (x : List ℕ) → IsAnswer x (dump_in 0 (Some first_stage) x) }
    ensures again { (d : PlainDump) → IsDump d → dump_in 0 (Some first_stage) (wave_text d) ≡ Ok d }
    ensures one { (d e : PlainDump) → IsDump d → IsDump e → wave_text d ≡ wave_text e → d ≡ e }
{}

/// The text of a dump is its head, the lines of its ticks one after the other, each by the values of the tick before, and
/// its last line.
pub fn written_in_parts()
    ensures head { (names : List (List ℕ)) → until_ending names [] ≡ head_text names }
    ensures start { (names : List (List ℕ)) → olds_of names [] ≡ no_values names }
    ensures tick { (names : List (List ℕ)) (ticks : List (List ℤ)) (values : List ℤ)
        → until_ending names (ticks ++ values ∷ [])
        ≡ until_ending names ticks ++ tick_text (length ticks + 1) (olds_of names ticks) values }
    ensures olds { (names : List (List ℕ)) (ticks : List (List ℤ)) (values : List ℤ)
        → olds_of names (ticks ++ values ∷ []) ≡ map Some values }
    ensures tail { (d : PlainDump) → wave_text d ≡ until_ending d.names d.ticks ++ tail_text d.ending }
{}
