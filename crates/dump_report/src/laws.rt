//! What is said of the reports of dumps, whatever calls are made.
ghost use Rattle.std.specs.Prelude.{◌≡◌, ◌<◌, ◌≤◌, ℕ, List, length};
ghost use Rattle.wave_dump.specs.Wave.{PlainDump, IsDump, wave_text};
ghost use Rattle.wave_dump.specs.Fronts.{IsLongest};
ghost use Rattle.dump_report.specs.Told.{dump_report, told_report, refused_from, refused_long};

use forec_base::MAX_TEXT_BYTES;

/// The text of a dump is told as that dump; a text that is no dump's is refused behind its longest front that some dump
/// begins with; and a text that is longer than any may be is refused as such.
pub fn dumps_are_told()
    ensures dump { (d : PlainDump) → IsDump d → length (wave_text d) ≤ MAX_TEXT_BYTES
        → dump_report (wave_text d) ≡ told_report d }
    ensures other { (text : List ℕ) (front : ℕ) → length text ≤ MAX_TEXT_BYTES
        → ((d : PlainDump) → IsDump d → text ≡ wave_text d → ⊥) → IsLongest text front
        → dump_report text ≡ refused_from front }
    ensures long { (text : List ℕ) → MAX_TEXT_BYTES < length text → dump_report text ≡ refused_long }
{}
