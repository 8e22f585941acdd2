//! Lists of places are read, and threads are balanced.

use core_alloc::{PlaceFault, balance, given};
use forec_base::OutOfMemory;
use std::alloc::Global;
use std::test::Fail;

/// The cores of four threads.
fn cores_of(alloc: Global) -> Result<[u32; 4], PlaceFault> {
    let placement = given(alloc, "0,2,0,1", 4, 3)?;
    Ok([
        placement.core(0),
        placement.core(1),
        placement.core(2),
        placement.core(3),
    ])
}

/// The cores of threads that weigh 5, 3, 3 and 2, balanced on two cores.
fn balanced_cores(alloc: Global) -> Result<[u32; 4], OutOfMemory> {
    let placement = balance(alloc, &[5, 3, 3, 2], 2)?;
    Ok([
        placement.core(0),
        placement.core(1),
        placement.core(2),
        placement.core(3),
    ])
}

/// Lists for three threads and two cores, and why they are refused.
const REFUSED: [(&str, PlaceFault); 6] = [
    ("0,2,1", PlaceFault::Core { at: 1 }),
    ("0,1", PlaceFault::Count { found: 2 }),
    ("0,,1", PlaceFault::Shape { at: 1 }),
    ("", PlaceFault::Shape { at: 0 }),
    ("0,1,0001", PlaceFault::Shape { at: 2 }),
    ("0,+1,5,7", PlaceFault::Shape { at: 1 }),
];

fn refused_so(alloc: Global, list: &str, fault: PlaceFault) -> bool {
    given(alloc, list, 3, 2).err() == Some(fault)
}

#[test]
fn reads_and_refuses_lists(rt: HostRuntime) -> Result<(), Fail> {
    assert!(rt; cores_of(rt.alloc()) == Ok([0, 2, 0, 1]));
    for (list, fault) in &REFUSED {
        assert!(rt; refused_so(rt.alloc(), list, *fault), "{list}");
    }
    Ok(())
}

#[test]
fn balances_threads(rt: HostRuntime) -> Result<(), Fail> {
    assert!(rt; balanced_cores(rt.alloc())? == [0, 1, 1, 0]);
    Ok(())
}
