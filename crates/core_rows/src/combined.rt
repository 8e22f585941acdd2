//! Copies are combined.

ghost use Rattle.std.specs.Prelude.{◌≡◌, length};

use combine_tree::Joining;
use forec_base::{OutOfMemory, Policy};
use forec_kernel::VarCopy;
use std::alloc::Global;
use std::test::Fail;

fn unmarked(value: i32) -> VarCopy {
    VarCopy {
        value,
        modified: false,
    }
}

/// What is asked to be combined once two values are new, over a base of 1, and the value in the end.
fn combined(joining: &mut Joining) -> Option<((i32, i32), i32)>
    requires { length joining.old ≡ 1 }
{
    joining.begin(&[unmarked(1)]);
    if joining.offer(0, Policy::New, unmarked(1)).is_some()
        || joining.offer(0, Policy::New, unmarked(4)).is_some()
    {
        return None;
    }
    let pair = joining.offer(0, Policy::New, unmarked(6))?;
    joining.fold(0, 10);
    Some((pair, joining.result(0).value))
}

fn told(alloc: Global) -> Result<Option<((i32, i32), i32)>, OutOfMemory> {
    let mut joining = Joining::new(alloc, 1)?;
    Ok(combined(&mut joining))
}

#[test]
fn combines_new_values(rt: HostRuntime) -> Result<(), Fail> {
    assert!(rt; told(rt.alloc())? == Some(((4, 6), 10)));
    Ok(())
}
