//! Why a text doesn't run.

use forec_base::{OutOfMemory, Place};
use forec_check::CheckFault;
use forec_lexer::LexFault;
use kernel_lower::LowerFault;
use text_kernel::Quantity;

/// Why a text is refused, in the order in which causes are looked for.
#[derive(Clone, Copy, Debug, PartialEq, Eq)]
pub enum Refusal {
    /// It has more than 1,048,576 bytes.
    Long,
    /// No token fits at this place.
    Lex { place: Place },
    /// It has more than 200,000 tokens. This is the place of the next one.
    Many { place: Place },
    /// The tokens before this place begin a program, and with the one at it they begin none. At the
    /// end of the text: they begin a program, and none has all of them.
    Syntax { place: Place },
    /// The tokens up to the one at this place begin a program, in which it is the first to open a
    /// level above 128.
    Deep { place: Place },
    /// Its program breaks this rule, from 1 to 24, at this place, and none before it.
    Rule { place: Place, rule: u8 },
    /// Its program passes this limit, `count`, and none before it.
    Limit { what: Quantity, count: u64 },
}

/// Why a text is not accepted.
#[derive(Clone, Copy, Debug, PartialEq, Eq)]
pub enum JudgeFault {
    Refused { why: Refusal },
    /// There is no memory left.
    OutOfMemory,
}

impl From<LexFault> for JudgeFault {
    ghost use Rattle.std.specs.Prelude.{◌≡◌};
    ghost use Rattle.text_verdict.specs.Judging.{lexer_fault};

    ghost from_gives = { λ fault e. e ≡ lexer_fault fault };

    fn from(fault: LexFault) -> Self {
        match fault {
            LexFault::Bad { place } => JudgeFault::Refused {
                why: Refusal::Lex { place },
            },
            LexFault::Many { place } => JudgeFault::Refused {
                why: Refusal::Many { place },
            },
            LexFault::OutOfMemory => JudgeFault::OutOfMemory,
        }
    }
}

impl From<CheckFault> for JudgeFault {
    ghost use Rattle.std.specs.Prelude.{◌≡◌};
    ghost use Rattle.text_verdict.specs.Judging.{check_fault};

    ghost from_gives = { λ fault e. e ≡ check_fault fault };

    fn from(fault: CheckFault) -> Self {
        match fault {
            CheckFault::Broken { place, rule } => JudgeFault::Refused {
                why: Refusal::Rule { place, rule },
            },
            CheckFault::OutOfMemory => JudgeFault::OutOfMemory,
        }
    }
}

impl From<LowerFault> for JudgeFault {
    ghost use Rattle.std.specs.Prelude.{◌≡◌};
    ghost use Rattle.text_verdict.specs.Judging.{lower_fault};

    ghost from_gives = { λ fault e. e ≡ lower_fault fault };

    fn from(fault: LowerFault) -> Self {
        match fault {
            LowerFault::Limit { what, count } => JudgeFault::Refused {
                why: Refusal::Limit { what, count },
            },
            LowerFault::OutOfMemory => JudgeFault::OutOfMemory,
        }
    }
}

impl From<OutOfMemory> for JudgeFault {
    ghost use Rattle.std.specs.Prelude.{◌≡◌};
    ghost use Rattle.text_verdict.specs.declared.refusal.JudgeFault.TheVariants as fault;

    ghost from_gives = { λ _ e. e ≡ fault.OutOfMemory };

    fn from(_: OutOfMemory) -> Self {
        JudgeFault::OutOfMemory
    }
}
