//! Tests of command lines, and of exit statuses.

use crate::texts::cases::asked;
use dw_check::{End, Usage};
use std::alloc::{AllocError, Global};

/// Command lines, and what they are answered by: the names of the files that are asked for, or what
/// is wrong.
const LINES: [(&str, &str); 15] = [
    ("dwcheck row --hex f 1000", "bad argument"),
    ("dwcheck eval  e", "bad argument"),
    ("dwcheck backtrace f 0x1000 s 65536", "bad argument"),
    ("dwcheck unwind --module 0x10= f 0x0 s", "bad argument"),
    ("dwcheck", "usage"),
    ("dwcheck rows --hex --hex a", "usage"),
    ("dwcheck columns a", "usage"),
    ("dwcheck rows --help", "usage"),
    ("dwcheck eval location e --state", "no value"),
    ("dwcheck check --hex f l", "f l"),
    ("dwcheck row --addr4 f 0x00000000ffffffff", "f"),
    ("dwcheck eval --state s location e", "e s"),
    (
        "dwcheck locs --addr4 l 0xffffffff 0xffffffff 0xFFFFFFFF",
        "l",
    ),
    (
        "dwcheck unwind --load 0x1000 --module 0x2000=m --module 0x3000=n=o f 0x1000 s",
        "f s m n=o",
    ),
    ("dwcheck backtrace f 0x1000 s 9 --module=0x2000=m", "f s m"),
];

/// What a command line is answered by, as in `LINES`.
fn answer_to(alloc: Global, line: &str) -> Result<String, AllocError> {
    let mut answer = String::new(alloc);
    match asked(alloc, line)? {
        Ok(request) => {
            for name in request.files() {
                if !answer.is_empty() {
                    answer.push(' ')?;
                }
                answer.push_str(name)?;
            }
        }
        Err(Usage::BadArgument) => answer.push_str("bad argument")?,
        Err(Usage::Line(text)) => {
            if text.as_str().contains("Usage: dwcheck") {
                answer.push_str("usage")?;
            } else if text
                .as_str()
                .contains("a value is required for '--state <state>'")
            {
                answer.push_str("no value")?;
            }
        }
        Err(Usage::Memory) => answer.push_str("no memory")?,
    }
    Ok(answer)
}

#[test]
fn asks_for_files_or_says_what_is_wrong(rt: HostRuntime) -> Result<(), AllocError> {
    for (line, answer) in &LINES {
        let found = answer_to(rt.alloc(), line)?;
        assert_eq!(rt; found.as_str(), *answer, "{line}");
    }
    Ok(())
}

/// Command lines, and for each of their files the number of bytes at its beginning that are needed;
/// `None` means that the whole file is needed.
const NEEDED: [(&str, &[Option<u64>]); 4] = [
    ("dwcheck check f l", &[Some(1 << 32), Some(1 << 32)]),
    ("dwcheck unwind f 0x0 s", &[Some(1 << 32), None]),
    ("dwcheck check --hex f l", &[None, None]),
    (
        "dwcheck unwind f 0x0 s --module 0x10=m",
        &[Some(1 << 32), None, Some(1 << 32)],
    ),
];

/// Each end of a run, and its exit status.
const STATUSES: [(End, u8); 6] = [
    (End::Done, 0),
    (End::Refused, 1),
    (End::StateLine(3), 2),
    (End::BadHex(0), 3),
    (End::Output, 3),
    (End::Memory, 3),
];

#[test]
fn needs_what_decides_and_ends_with_a_status(rt: HostRuntime) -> Result<(), AllocError> {
    for (line, lengths) in &NEEDED {
        let Ok(request) = asked(rt.alloc(), line)? else {
            panic!(rt; "{line}")
        };
        for (place, length) in lengths.iter().enumerate() {
            assert_eq!(rt; request.needed_length(place), *length);
        }
    }
    for (end, status) in &STATUSES {
        assert_eq!(rt; end.status(), *status);
    }
    assert_eq!(rt; Usage::BadArgument.status(), 2);
    assert_eq!(rt; Usage::Memory.status(), 3);
    Ok(())
}
