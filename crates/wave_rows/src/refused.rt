//! Bytes that are no dump's: the length of their longest prefix that some dump begins with.
use crate::dumps::written;
use crate::worked::COUNTS;
use std::alloc::{AllocError, Global};
use std::process::Abort;
use std::test::Fail;
use wave_dump::{WaveFault, read_wave};

/// Where bytes are refused; `None` where they are a dump's.
fn refused(alloc: Global, bytes: &[u8]) -> Result<Option<u64>, Fail> {
    match read_wave(alloc, bytes) {
        Ok(_) => Ok(None),
        Err(WaveFault::Bad { at }) => Ok(Some(at)),
        Err(fault) => Err(fault)?,
    }
}

/// A dump that is cut is refused behind its last byte.
#[test]
fn cut_at_each_byte(rt: HostRuntime) -> Result<(), Fail> {
    let alloc = rt.alloc();
    for length in 0..COUNTS.len() {
        let at = refused(alloc, &COUNTS[..length])?;
        assert_eq!(rt; at, Some(length as u64));
    }
    Ok(())
}

/// A dump with another byte at a place.
fn changed(alloc: Global, place: usize, byte: u8) -> Result<Vec<u8>, AllocError> {
    let mut bytes = COUNTS.to_vec(alloc)?;
    if place < bytes.len() {
        bytes.as_mut_slice()[place] = byte;
    }
    Ok(bytes)
}

/// Where one byte of a dump is another, the bytes are the text of a dump, or they are refused at that byte or later. Then
/// what stands before is the front of a dump, and no longer front is.
#[test]
fn each_byte_changed(rt: HostRuntime) -> Result<(), Fail> {
    let alloc = rt.alloc();
    for place in 0..COUNTS.len() {
        for byte in 0..=255u8 {
            let bytes = changed(alloc, place, byte)?;
            match read_wave(alloc, &bytes) {
                Ok(dump) => {
                    let text = written(alloc, &dump.names, &dump.ticks, &dump.ending)?;
                    assert_eq!(rt; text.as_slice(), bytes.as_slice());
                }
                Err(WaveFault::Bad { at }) => {
                    assert!(rt; place as u64 <= at && at < bytes.len() as u64);
                    let front = refused(alloc, &bytes[..at as usize])?;
                    assert_eq!(rt; front, Some(at));
                }
                Err(fault) => Err(fault)?,
            }
        }
    }
    Ok(())
}
