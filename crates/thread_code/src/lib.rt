//! The code of a kernel's threads and int functions: instructions, blocks, codes that are valid, and
//! the listing of a code.
#![tactic(auto)]

mod code;
mod decoding;
mod fused;
mod instruction;
mod laws;
mod printing;

pub use code::Code;
pub use fused::Fused;
pub use instruction::{Block, CodeParts, Instruction};
pub use laws::{code_answers_as_its_kernel, jobs_and_replies_fit, valid_code_is_never_stuck};
pub use printing::listing;
