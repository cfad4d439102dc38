//! Tests of loading files from readers that give few bytes per call, or that fail before the end.

use dw_check::{LoadFault, Reading, Reads, Source, load};
use std::alloc::{AllocError, Global};
use std::io;
use std::io::{Error, ErrorKind, Read};
use std::process::Abort;

/// A reader that gives at most `most` bytes per call, and fails after `calls` calls.
#[derive(Drop)]
struct LittleReader<'a> {
    bytes: &'a [u8],
    most: usize,
    calls: usize,
}

impl Read for LittleReader<'_> {
    fn read(&mut self, buf: &mut [u8]) -> io::Result<usize> {
        if self.calls == 0 {
            return Err(Error::from(ErrorKind::Other));
        }
        self.calls -= 1;
        let n = self.bytes.len().min(self.most).min(buf.len());
        buf[..n].copy_from_slice(&self.bytes[..n]);
        self.bytes = &self.bytes[n..];
        Ok(n)
    }
}

/// Loads `bytes` from a reader that gives at most `most` bytes per call and fails after `calls`
/// calls. Returns whether the load succeeds. After the last byte, the load makes one more call,
/// which gives no bytes.
fn reads(rt: &impl Abort, alloc: Global, bytes: &[u8], most: usize, calls: usize) -> bool {
    let mut source = Reads::new(LittleReader { bytes, most, calls });
    assert!(rt; source.state() == Reading::Open);
    match load(alloc, &mut source) {
        Ok(loaded) => {
            assert_eq!(rt; loaded.as_slice(), bytes);
            assert!(rt; source.state() == Reading::Ended);
            true
        }
        Err(fault) => {
            assert!(rt; fault == LoadFault::Read);
            assert!(rt; source.state() == Reading::Failed);
            false
        }
    }
}

/// The section of row 1 of docs/WORKED.md as hex text without spaces.
const DIGITS: &str = "\
14000000ffffffff040008000178100c0708900100000000\
1c0000000000000000100000000000002000000000000000410e108602430d06";

/// `DIGITS` has 112 bytes. The last file has more bytes than one read requests.
#[test]
fn loads_all_of_a_file_or_nothing(rt: HostRuntime) -> Result<(), AllocError> {
    let alloc = rt.alloc();
    for calls in 0..=113usize {
        assert_eq!(rt;
            reads(&rt, alloc, DIGITS.as_bytes(), 1, calls),
            calls == 113
        );
    }
    for calls in 0..=18usize {
        assert_eq!(rt; reads(&rt, alloc, DIGITS.as_bytes(), 7, calls), calls >= 17);
    }
    assert!(rt; !reads(&rt, alloc, &[], 1, 0));
    assert!(rt; reads(&rt, alloc, &[], 1, 1));
    let mut bytes = Vec::new(alloc);
    for i in 0..200_000u32 {
        let [low, middle, _, _] = i.to_le_bytes();
        bytes.push(low ^ middle)?;
    }
    assert!(rt; reads(&rt, alloc, &bytes, 1_000_000, 100));
    assert!(rt; reads(&rt, alloc, &bytes, 1_000, 1_000));
    assert!(rt; !reads(&rt, alloc, &bytes, 1_000, 200));
    Ok(())
}
