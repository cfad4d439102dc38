//! A test of the rows of docs/WORKED.md that `dwcheck` shows.

ghost use Rattle.std.specs.Prelude.{length};

use crate::inputs::FUNCTION;
use crate::texts::cases::{ROW_1, WORKED, asked, end_of, files_of, parts_of, text_of};
use dw_check::{End, Through, run};
use std::alloc::AllocError;
use std::process::Abort;

/// Asserts how a command line with these files ends, with which status, and what it writes.
fn comes_to(
    rt: &(impl Abort + AllocGlobal),
    line: &str,
    files: &[Vec<u8>],
    (end, status): (End, u8),
    text: &str,
) -> Result<(), AllocError> {
    let Ok(request) = asked(rt.alloc(), line)? else {
        panic!(rt; "{line}")
    };
    assert_eq!(rt; files.len(), request.files().len(), "{line}");
    let mut sink = Through::new(Vec::new(rt.alloc()));
    let found = run(rt.alloc(), &request, files, &mut sink);
    assert!(rt; (found, found.status()) == (end, status), "{line}");
    assert_eq!(rt; sink.into_inner().as_slice(), text.as_bytes(), "{line}");
    Ok(())
}

/// Row 4, by `rows` of the section's bytes: from which length to which other the section of row 1
/// is cut, how the run ends, and its text.
const CUTS: [(usize, usize, (End, u8), &str); 7] = [
    (0, 0, (End::Done, 0), ""),
    (
        1,
        3,
        (End::Refused, 1),
        "refused 1 Truncated frame 0x00000000\n",
    ),
    (
        4,
        23,
        (End::Refused, 1),
        "refused 1 Truncated frame 0x00000004\n",
    ),
    (24, 24, (End::Done, 0), ""),
    (
        25,
        27,
        (End::Refused, 1),
        "refused 1 Truncated frame 0x00000018\n",
    ),
    (
        28,
        55,
        (End::Refused, 1),
        "refused 1 Truncated frame 0x0000001c\n",
    ),
    (56, 56, (End::Done, 0), ROW_1),
];

#[test]
fn answers_the_worked_rows(rt: HostRuntime) -> Result<(), AllocError> {
    for row in WORKED.split("\n\n") {
        let (line, contents, status, text) = parts_of(&rt, row);
        let files = files_of(rt.alloc(), contents)?;
        let text = text_of(rt.alloc(), text)?;
        comes_to(&rt, line, &files, end_of(status), &text)?;
    }
    for (first, last, end, text) in &CUTS {
        for length in *first..=*last {
            let section = FUNCTION.iter().copied().take(length).collect(rt.alloc())?;
            let files = vec![in rt.alloc(); section]?;
            comes_to(&rt, "dwcheck rows f", &files, *end, text)?;
        }
    }
    Ok(())
}
