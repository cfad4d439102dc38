//! Tests of writing output to writers that accept few bytes per call, or that fail before the end.

use crate::texts::cases::{WORKED, asked, files_of, parts_of, text_of};
use dw_check::{End, Sink, Through, run};
use std::alloc::AllocError;
use std::io;
use std::io::{Error, ErrorKind, Write};
use std::process::Abort;

/// A writer to an array that accepts at most `most` bytes per call, and fails after `calls` calls.
struct Little {
    bytes: [u8; 512],
    len: usize,
    most: usize,
    calls: usize,
}

impl Write for Little {
    fn write(&mut self, piece: &[u8]) -> io::Result<usize> {
        if self.calls == 0 {
            return Err(Error::from(ErrorKind::Other));
        }
        self.calls -= 1;
        let room = 512usize.saturating_sub(self.len);
        let n = piece.len().min(self.most).min(room);
        for byte in &piece[..n] {
            if self.len < 512 {
                self.bytes[self.len] = *byte;
                self.len += 1;
            }
        }
        Ok(n)
    }

    fn flush(&mut self) -> io::Result<()> {
        Ok(())
    }
}

/// Runs a command with a writer that accepts at most `most` bytes per call and fails after `calls`
/// calls. Returns how the run ends and how many bytes are written, and asserts that these bytes are
/// the beginning of `text`.
fn written(
    rt: &(impl Abort + AllocGlobal),
    line: &str,
    files: &[Vec<u8>],
    text: &str,
    (most, calls): (usize, usize),
) -> Result<(End, usize), AllocError> {
    let Ok(request) = asked(rt.alloc(), line)? else {
        panic!(rt; "{line}")
    };
    assert_eq!(rt; files.len(), request.files().len());
    let mut sink = Through::new(Little {
        bytes: [0; 512],
        len: 0,
        most,
        calls,
    });
    let end = run(rt.alloc(), &request, files, &mut sink);
    assert_eq!(rt; sink.stopped(), end == End::Output);
    let Little {
        bytes,
        len,
        most: _,
        calls: _,
    } = sink.into_inner();
    assert!(rt; len <= text.len());
    for (written, wanted) in bytes.iter().take(len).zip(text.as_bytes()) {
        assert_eq!(rt; *written, *wanted);
    }
    Ok((end, len))
}

/// How many bytes a writer accepts per call, after how many calls it fails, how a check of two
/// empty sections ends with this writer, and how many bytes of the report are written.
const EMPTY_SECTIONS: [((usize, usize), End, usize); 4] = [
    ((3, 1), End::Output, 3),
    ((1, 1000), End::Done, 61),
    ((500, 0), End::Output, 0),
    ((0, 1), End::Output, 0),
];

/// Runs a command with a writer that fails at its first call, then with one that fails at its
/// second, and so on, until a writer accepts the whole text. Asserts that all runs but the last end
/// with `End::Output`.
fn fails_at_each_write(
    rt: &(impl Abort + AllocGlobal),
    line: &str,
    files: &[Vec<u8>],
    text: &str,
    most: usize,
) -> Result<(), AllocError> {
    let mut is_done = false;
    for calls in 0..=text.len() {
        if !is_done {
            let (end, len) = written(rt, line, files, text, (most, calls))?;
            is_done = len == text.len();
            assert_eq!(rt; end == End::Output, !is_done);
        }
    }
    assert!(rt; is_done);
    Ok(())
}

#[test]
fn writes_a_beginning_where_a_write_fails(rt: HostRuntime) -> Result<(), AllocError> {
    for row in WORKED.split("\n\n") {
        let (line, contents, _, text) = parts_of(&rt, row);
        let files = files_of(rt.alloc(), contents)?;
        let text = text_of(rt.alloc(), text)?;
        for most in [1, 7, 500] {
            fails_at_each_write(&rt, line, &files, &text, most)?;
        }
    }
    let files = files_of(rt.alloc(), "- | -")?;
    let text = "accepted\ncies 0 fdes 0 rows 0\ntables 0 lists 0 expressions 0\n";
    for (writer, end, len) in &EMPTY_SECTIONS {
        let found = written(&rt, "dwcheck check --hex f l", &files, text, *writer)?;
        assert!(rt; found == (*end, *len));
    }
    Ok(())
}
