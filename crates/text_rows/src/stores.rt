//! The stores in memory, with ample room and with too little.

use forec_base::{MemSink, MemTexts, NamedText, Sink, Texts};
use std::process::Abort;
use std::test::Fail;

#[test]
fn room(rt: HostRuntime) -> Result<(), Fail> {
    let alloc = rt.alloc();
    let Ok(mut sink) = MemSink::new(alloc, 4, Vec::new(alloc)) else {
        return Ok(assert!(rt; false));
    };
    assert!(rt; sink.write(b"abcd").is_ok());
    assert!(rt; sink.write(b"e").is_err());
    assert!(rt; sink.bytes() == b"abcd".as_slice());
    let mut files = Vec::new(alloc);
    files.push(NamedText {
        name: String::from_str(alloc, "p")?,
        bytes: b"text".to_vec(alloc)?,
    })?;
    let mut store = MemTexts::new(files, Vec::new(alloc));
    let Ok(text) = store.read(alloc, "p", 4) else {
        return Ok(assert!(rt; false));
    };
    assert!(rt; text.as_slice() == b"text".as_slice());
    assert!(rt; store.read(alloc, "p", 3).is_err());
    assert!(rt; store.read(alloc, "q", 4).is_err());
    Ok(())
}
