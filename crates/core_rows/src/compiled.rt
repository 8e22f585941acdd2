//! The code of a text.

ghost use Rattle.std.specs.Prelude.{◌≤◌, length};

use code_gen::generate;
use forec_kernel::Kernel;
use std::alloc::Global;
use std::test::Fail;
use text_verdict::judge;
use thread_code::Code;

fn kernel(alloc: Global, text: &[u8]) -> Result<Box<Kernel>, Fail>
    requires { length text.now ≤ 1048576 }
{
    Ok(Box::new(alloc, judge(alloc, text, 1000)?.kernel)?)
}

/// The code of a text that is accepted, and in which at most 1,000 statements nest.
pub fn compiled(alloc: Global, text: &[u8]) -> Result<Box<Code>, Fail>
    requires { length text.now ≤ 1048576 }
{
    let kernel = kernel(alloc, text)?;
    Ok(Box::new(alloc, generate(alloc, &kernel)?)?)
}
