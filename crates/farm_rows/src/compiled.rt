//! The code of a text.

use code_gen::generate;
use forec_kernel::Kernel;
use std::alloc::Global;
use std::process::Abort;
use std::test::Fail;
use text_verdict::judge;
use thread_code::Code;

/// A program that counts its ticks.
pub const COUNTS: &[u8] = b"output int o = 0; void main(void) { while (1) { o = o + 1; pause; } }";

fn kernel(rt: &impl Abort, alloc: Global, text: &[u8]) -> Result<Box<Kernel>, Fail> {
    assert!(rt; text.len() <= 1_048_576);
    Ok(Box::new(alloc, judge(alloc, text, 1000)?.kernel)?)
}

/// The code of a text that is accepted, and in which at most 1,000 statements nest.
pub fn compiled(rt: &impl Abort, alloc: Global, text: &[u8]) -> Result<Box<Code>, Fail> {
    let kernel = kernel(rt, alloc, text)?;
    Ok(Box::new(alloc, generate(alloc, &kernel)?)?)
}
