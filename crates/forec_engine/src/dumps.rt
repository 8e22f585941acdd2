//! What is told of a dump.
ghost use Rattle.std.specs.Prelude.{◌≡◌, List, ℕ, Some};
ghost use Rattle.forec_base.specs.Outside.{Fell};
ghost use Rattle.forec_engine.specs.Dumps.{DumpReport, dump_printed, status_of_dump};
ghost use Rattle.trace_ticks.specs.Prints.{Prints, PrintsReport};

use crate::answering::refuse;
use dump_report::{DumpStatus, dumps_are_told, tell};
use forec_base::{MAX_TEXT_BYTES, Sink, TextFault, Texts};
use std::alloc::Global;
use text_verdict::Refusal;
use trace_ticks::Status;

/// The status of the program, where what a dump tells ended so.
fn status_of(end: DumpStatus) -> Status
    ensures { result ≡ status_of_dump end }
{
    match end {
        DumpStatus::Done => Status::Done,
        DumpStatus::Refused => Status::Refused,
        DumpStatus::WriteFault => Status::WriteFault,
        DumpStatus::NoMemory => Status::NoMemory,
    }
}

/// Prints the report that a text tells, which is to be a dump.
fn tell_text<K: Sink>(alloc: Global, text: &[u8], out: &mut K) -> Status
    ensures { PrintsReport K.held K.faults K.down (dump_printed text.now) ⊥ out.old out.new result }
{
    status_of(tell(alloc, text, out))
}

/// Prints the report that the dump of a name tells.
pub fn tell_named<T: Texts, K: Sink>(
    alloc: Global,
    name: &str,
    texts: &mut T,
    out: &mut K,
) -> Status
    requires may { T.may texts.old name.now }
    ensures { Prints K.held K.faults K.down ((text : List ℕ) × (T.content texts.old name.now ≡ Some text))
        (DumpReport (T.content texts.old) name.now) ⊥
        (Fell (T.faults texts.old) (T.faults texts.new) (T.down texts.new) × (K.held out.new ≡ K.held out.old)) ⊥
        out.old out.new result }
{
    match texts.read(alloc, name, MAX_TEXT_BYTES) {
        Ok(text) => tell_text(alloc, &text, out),
        Err(TextFault::Failed) => Status::ReadFault,
        Err(TextFault::OutOfMemory) => Status::NoMemory,
        Err(TextFault::Long) => {
            dumps_are_told();
            refuse(alloc, Refusal::Long, out)
        }
    }
}
