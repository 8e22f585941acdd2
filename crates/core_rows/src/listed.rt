//! The size of a fused step.

use std::mem::size_of;
use std::test::Fail;
use thread_code::Fused;

/// A block of the most instructions has 168 MB of fused steps.
#[test]
fn fused_steps_are_small(rt: HostRuntime) -> Result<(), Fail> {
    assert!(rt; size_of::<Fused>() == 20);
    Ok(())
}
