//! The program of a text, and of the text of a name.
ghost use Rattle.std.specs.Prelude.{◌≡◌, ◌≤◌, ◌↔◌, ⊤, ℕ, List, length, Some, IfOk, IfErr, OnOk};
ghost use Rattle.forec_kernel.specs.Shapes.{plain_kernel};
ghost use Rattle.text_verdict.specs.Judging.{Accepts, Judged};
ghost use Rattle.trace_ticks.specs.Prints.{Prints};
ghost use Rattle.forec_engine.specs.Commands.{IsProgram, IsRefusal};
ghost use Rattle.forec_engine.specs.Farming.{Unread};

use crate::answering::refuse;
use forec_base::{MAX_TEXT_BYTES, Sink, TextFault, Texts};
use std::alloc::Global;
use text_verdict::{Accepted, JudgeFault, Refusal, judge};
use trace_ticks::Status;

/// The program of a text. Where it is refused it is said why.
///
/// # Errors
///
/// How it ended: as a refusal does, or out of memory.
pub fn accepted_text<K: Sink>(
    alloc: Global,
    deepest: u64,
    text: &[u8],
    out: &mut K,
) -> Result<Accepted, Status>
    requires { length text.now ≤ MAX_TEXT_BYTES }
    ensures ok { IfOk result (λ a. Judged text.now (Accepts a.counts (plain_kernel a.kernel))) }
    ensures kept { OnOk result (out.new ≡ out.old) }
    ensures err { IfErr result (λ end. Prints K.held K.faults K.down ⊤ (IsRefusal text.now) ⊥ ⊥ ⊥ out.old out.new end) }
{
    match judge(alloc, text, deepest) {
        Ok(accepted) => Ok(accepted),
        Err(JudgeFault::Refused { why }) => Err(refuse(alloc, why, out)),
        Err(JudgeFault::OutOfMemory) => Err(Status::NoMemory),
    }
}

/// The program of a name. Where its text is refused it is said why.
///
/// # Errors
///
/// How it ended: as a refusal does, by a fault of the store, or out of memory.
pub fn accepted_named<T: Texts, K: Sink>(
    alloc: Global,
    deepest: u64,
    name: &str,
    texts: &mut T,
    out: &mut K,
) -> Result<Accepted, Status>
    requires { T.may texts.old name.now }
    ensures ok { IfOk result (λ a. IsProgram (T.content texts.old name.now) a.counts (plain_kernel a.kernel)) }
    ensures kept { OnOk result (out.new ≡ out.old) }
    ensures err { IfErr result (λ end. Prints K.held K.faults K.down ((text : List ℕ)
        × (T.content texts.old name.now ≡ Some text)) (λ r. (text : List ℕ)
        × (T.content texts.old name.now ≡ Some text) × IsRefusal text r) ⊥
        (Unread T.faults T.down K.held texts.old texts.new out.old out.new) ⊥ out.old out.new end) }
    ensures content { (n : List ℕ) → T.content texts.new n ≡ T.content texts.old n }
    ensures may { (n : List ℕ) → T.may texts.new n ↔ T.may texts.old n }
    ensures later { T.faults texts.old ≤ T.faults texts.new }
{
    match texts.read(alloc, name, MAX_TEXT_BYTES) {
        Ok(text) => accepted_text(alloc, deepest, &text, out),
        Err(TextFault::Failed) => Err(Status::ReadFault),
        Err(TextFault::OutOfMemory) => Err(Status::NoMemory),
        Err(TextFault::Long) => Err(refuse(alloc, Refusal::Long, out)),
    }
}
