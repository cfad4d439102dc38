//! The rows of docs/WORKED.md that `dwcheck` shows, as text, and functions that make a request and
//! the files from it.

use dw_check::{End, Request, Usage, request};
use std::alloc::{AllocError, Global};
use std::process::Abort;

/// What stands for longer texts in the files of `WORKED`. C1 and H1 are those of docs/WORKED.md: a
/// CIE, and the header of an FDE that covers 0x1000 to 0x1020. P1 is the program of row 1, L1 the
/// lists of row 16, and T64 are 64 operations `lit0`.
const NAMES: &str = "\
C1 14000000 ffffffff 04 00 08 00 01 78 10 0c0708 9001 00000000
H1 1c000000 00000000 0010000000000000 2000000000000000
P1 41 0e10 8602 43 0d06
L1 12000000 0500 08 00 00000000 04 00 10 01 50 05 02 309f 00
T64 30303030303030303030303030303030303030303030303030303030303030303030303030303030303030303030303030303030303030303030303030303030
";

/// The text of row 1.
pub(crate) const ROW_1: &str = "\
fde 0x00000018 cie 0x00000000 0x0000000000001000..0x0000000000001020 ra r16
row 0x0000000000001000..0x0000000000001001 cfa=r7+8 r16=[c-8]
row 0x0000000000001001..0x0000000000001004 cfa=r7+16 r6=[c-16] r16=[c-8]
row 0x0000000000001004..0x0000000000001020 cfa=r6+16 r6=[c-16] r16=[c-8]
";

/// Rows 1 to 27 of docs/WORKED.md but for row 4, which is in `worked`, in their order; then the
/// check of rows 1 and 16, walks, lists, and files that can't be decoded. A row is a paragraph: its
/// command line; its files, in which `/` stands for a newline and `-` alone for an empty file; its
/// exit status; and its text.
pub(crate) const WORKED: &str = "\
dwcheck rows --hex f
C1 H1 P1
0
fde 0x00000018 cie 0x00000000 0x0000000000001000..0x0000000000001020 ra r16
row 0x0000000000001000..0x0000000000001001 cfa=r7+8 r16=[c-8]
row 0x0000000000001001..0x0000000000001004 cfa=r7+16 r6=[c-16] r16=[c-8]
row 0x0000000000001004..0x0000000000001020 cfa=r6+16 r6=[c-16] r16=[c-8]

dwcheck check --hex f l
- | -
0
accepted
cies 0 fdes 0 rows 0
tables 0 lists 0 expressions 0

dwcheck row --hex f 0xfff
C1 H1 P1
0
none

dwcheck row --hex f 0x1000
C1 H1 P1
0
row 0x0000000000001000..0x0000000000001001 cfa=r7+8 r16=[c-8]

dwcheck row --hex f 0x101f
C1 H1 P1
0
row 0x0000000000001004..0x0000000000001020 cfa=r6+16 r6=[c-16] r16=[c-8]

dwcheck row --hex f 0x1020
C1 H1 P1
0
none

dwcheck rows --hex f
C1 H1 0a 0e10 41 0b 000000
0
fde 0x00000018 cie 0x00000000 0x0000000000001000..0x0000000000001020 ra r16
row 0x0000000000001000..0x0000000000001001 cfa=r7+16 r16=[c-8]
row 0x0000000000001001..0x0000000000001020 cfa=r7+8 r16=[c-8]

dwcheck rows --hex f
C1 H1 0b 00000000000000
1
refused 16 RestoreWithoutRemember frame 0x00000030

dwcheck rows --hex f
C1 H1 0a 00000000000000
1
refused 17 Unrestored frame 0x00000038

dwcheck rows --hex f
C1 2c000000 00000000 0010000000000000 2000000000000000 0a0a0a0a0a0a0a0a0a 0b0b0b0b0b0b0b0b0b 000000000000
0
fde 0x00000018 cie 0x00000000 0x0000000000001000..0x0000000000001020 ra r16
row 0x0000000000001000..0x0000000000001020 cfa=r7+8 r16=[c-8]

dwcheck rows --hex f
C1 3c000000 00000000 0010000000000000 2000000000000000 0a0a0a0a0a0a0a0a0a0a0a0a0a0a0a0a0a 0b0b0b0b0b0b0b0b0b0b0b0b0b0b0b0b0b 000000000000
1
refused 18 RememberTooDeep frame 0x00000040

dwcheck eval location --hex e
32 33 22
0
address 0x0000000000000005
steps 3 depth 2

dwcheck eval location --hex e
12
1
refused 35 Underflow expression 0x00000000

dwcheck eval location --hex e
30 28 0100 31 32
1
refused 37 Mismatch expression 0x00000005

dwcheck eval location --hex e
30 2f fcff
1
refused 33 Backward expression 0x00000001

dwcheck eval location --hex e
31 28 0100 0a0500
1
refused 34 TargetNotStart expression 0x00000001

dwcheck eval location --hex e
31 32 28 0000
0
address 0x0000000000000001
steps 3 depth 2

dwcheck eval location --hex e
31 30 1b
0
division by zero at 0x00000002
steps 3 depth 2

dwcheck eval --addr4 location --hex e
0c00000080 0dffffffff 1b
0
address 0x80000000
steps 3 depth 2

dwcheck eval --addr4 location --hex e
09f9 32 1b
0
address 0xfffffffd
steps 3 depth 2

dwcheck eval --addr4 location --hex e
09ff 32 1d
0
address 0x00000001
steps 3 depth 2

dwcheck eval --addr4 location --hex e
09ff 30 2d
0
address 0x00000001
steps 3 depth 2

dwcheck eval --addr4 location --hex e
31 0820 24
0
address 0x00000000
steps 3 depth 2

dwcheck eval --addr4 location --hex e
0c00000080 0820 26
0
address 0xffffffff
steps 3 depth 2

dwcheck eval location --hex e
50 9304 9304
0
pieces 2
piece register 0 bytes 4
piece empty bytes 4
steps 3 depth 0

dwcheck eval location --hex e
50 31
1
refused 39 NotAlone expression 0x00000001

dwcheck eval location --hex e
-
0
empty
steps 0 depth 0

dwcheck eval location --hex e
9e 02 cafe
0
bytes cafe
steps 1 depth 0

dwcheck eval location --hex e
30 2f 0100 31 9f
1
refused 38 Unreachable expression 0x00000004

dwcheck locs --hex l 0xc 0x1000 0x1005
L1
0
expr 0x00000010
register 0
steps 1 depth 0

dwcheck locs --hex l 0xc 0x1000 0x1010
L1
0
expr 0x00000013
value 0x0000000000000000
steps 2 depth 1

dwcheck locs --hex l 0xd 0x1000 0x1005
L1
0
no list

dwcheck unwind --hex f 0x1010 s
C1 H1 P1 | reg 6 0x7f00/mem 0x7f00 0080000000000000/mem 0x7f08 3412000000000000/
0
cfa value 0x0000000000007f10
r6 value 0x0000000000008000
r16 value 0x0000000000001234
return value 0x0000000000001234

dwcheck unwind --hex f 0x1010 s
C1 H1 P1 | reg 6 0x7f00
0
cfa value 0x0000000000007f10
r6 unreadable
r16 unreadable
return unreadable

dwcheck rows --big --addr4 --hex f
00000010 ffffffff 04 00 04 00 04 7c 0e 0c0d00 0000 00000014 00000000 00008000 00000010 42 0e08 8e01 000000
0
fde 0x00000014 cie 0x00000000 0x00008000..0x00008010 ra r14
row 0x00008000..0x00008008 cfa=r13+0
row 0x00008008..0x00008010 cfa=r13+8 r14=[c-4]

dwcheck check --hex f l
ffffffff 1400000000000000 ffffffffffffffff 04 00 08 00 01 78 10 0c0708 9001 | -
0
accepted
cies 1 fdes 0 rows 0
tables 0 lists 0 expressions 0

dwcheck rows --hex f
f0ffffff
1
refused 3 ReservedLength frame 0x00000000

dwcheck eval register --hex e --state s
12 22 | cfa 0x10
0
value 0x0000000000000020
steps 2 depth 2

dwcheck eval register --hex e
12 22
0
unreadable at 0x00000000
steps 0 depth 2

dwcheck eval cfa --hex e
12 22
1
refused 35 Underflow expression 0x00000000

dwcheck eval cfa --hex e
9c
1
refused 31 NotInFrame expression 0x00000000

dwcheck check --hex f l
C1 H1 P1 1c000000 00000000 1f10000000000000 0100000000000000 0000000000000000 | -
1
refused 23 Overlap frame 0x00000038

dwcheck check --hex f l
C1 H1 P1 1c000000 00000000 2010000000000000 0100000000000000 0000000000000000 | -
0
accepted
cies 1 fdes 2 rows 4
tables 0 lists 0 expressions 0

dwcheck check --hex f l
C1 H1 P1 1c000000 00000000 1010000000000000 0000000000000000 0000000000000000 | -
0
accepted
cies 1 fdes 2 rows 3
tables 0 lists 0 expressions 0

dwcheck eval location --hex e
31 28 0100 13 32
1
refused 35 Underflow expression 0x00000004

dwcheck eval location --hex e
T64 30
0
address 0x0000000000000000
steps 65 depth 65

dwcheck eval location --hex e
T64 T64
0
address 0x0000000000000000
steps 128 depth 128

dwcheck eval location --hex e
T64 T64 30
1
refused 36 TooDeep expression 0x00000080

dwcheck rows --hex f
C1 H1 60 00000000000000
0
fde 0x00000018 cie 0x00000000 0x0000000000001000..0x0000000000001020 ra r16
row 0x0000000000001000..0x0000000000001020 cfa=r7+8 r16=[c-8]

dwcheck rows --hex f
C1 H1 61 00000000000000
1
refused 15 LocationPastEnd frame 0x00000030

dwcheck rows --hex f
14000000 ffffffff 04 00 08 00 01 78 10 000000 0000 00000000 H1 41 0c0708 00000000
1
refused 22 NoCfa frame 0x00000030

dwcheck rows --hex f
C1 1c000000 04000000 0010000000000000 2000000000000000 P1
1
refused 9 NoSuchCie frame 0x0000001c

dwcheck rows --hex f
C1 H1 0f 03 770806 000000
0
fde 0x00000018 cie 0x00000000 0x0000000000001000..0x0000000000001020 ra r16
row 0x0000000000001000..0x0000000000001020 cfa=expr(770806) r16=[c-8]

dwcheck check --hex f l
C1 H1 0f 03 770806 000000 | -
0
accepted
cies 1 fdes 1 rows 1
tables 0 lists 0 expressions 1
expr frame 0x00000032 cfa ops 2 depth 1

dwcheck eval location --hex e --state s
0effffffffffffffff 06 | mem 0xffffffffffffffff 05/mem 0x0 00000000000000/
0
unreadable at 0x00000009
steps 2 depth 1

dwcheck eval location --hex e
7700
0
unreadable at 0x00000000
steps 1 depth 1

dwcheck eval location --hex e
08
1
refused 1 Truncated expression 0x00000001

dwcheck eval location --hex e
18
1
refused 30 UnknownOperation expression 0x00000000

dwcheck check --hex f l
- | 0d000000 0500 08 00 00000000 04 10 00 00 00
1
refused 52 BackRange lists 0x0000000c

dwcheck check --hex f l
- | 0a000000 0500 08 00 00000000 05 00
1
refused 54 NoEnd lists 0x0000000e

dwcheck check --hex f l
- | 08000000 0500 08 00 00000000
0
accepted
cies 0 fdes 0 rows 0
tables 1 lists 0 expressions 0

dwcheck check --hex f l
- | 0d000000 0500 08 00 01000000 05000000 00
1
refused 55 BadOffsetEntry lists 0x0000000c

dwcheck check --hex f l
- | 0d000000 0500 08 00 01000000 04000000 00
0
accepted
cies 0 fdes 0 rows 0
tables 1 lists 1 expressions 0

dwcheck backtrace --hex f 0x1010 s 9
C1 H1 P1 | reg 6 0x7f00/mem 0x7f00 407f000000000000/mem 0x7f08 2010000000000000/mem 0x7f40 0000000000000000/mem 0x7f48 0020000000000000/
0
frame 0 0x0000000000001010 cfa value 0x0000000000007f10
frame 1 0x0000000000001020 cfa value 0x0000000000007f50
frame 2 0x0000000000002000 none
stop not covered

dwcheck check --hex f l
C1 H1 P1 | L1
0
accepted
cies 1 fdes 1 rows 3
tables 1 lists 1 expressions 2
expr lists 0x00000010 location ops 1 depth 0
expr lists 0x00000013 location ops 2 depth 1

dwcheck row --hex f 0x1001
C1 H1 P1
0
row 0x0000000000001001..0x0000000000001004 cfa=r7+16 r6=[c-16] r16=[c-8]

dwcheck backtrace --hex f 0x1010 s 3
C1 H1 P1 | reg 6 0x7f00/mem 0x7f00 407f000000000000/mem 0x7f08 2010000000000000/mem 0x7f40 0000000000000000/mem 0x7f48 0020000000000000/
0
frame 0 0x0000000000001010 cfa value 0x0000000000007f10
frame 1 0x0000000000001020 cfa value 0x0000000000007f50
frame 2 0x0000000000002000 none
stop limit

dwcheck check --hex f l
- | L1
0
accepted
cies 0 fdes 0 rows 0
tables 1 lists 1 expressions 2
expr lists 0x00000010 location ops 1 depth 0
expr lists 0x00000013 location ops 2 depth 1

dwcheck check --hex f l
- | 080000
1
refused 1 Truncated lists 0x00000000

dwcheck unwind --hex --module 0x400000=M f 0x401010 s
C1 H1 P1 | keep | f0fffff
3

dwcheck unwind --hex --module 0x400000=M f 0x401010 s
C1 H1 P1 | keep | C1 H1 P1
2
";

/// The request of a command line. Its words are separated by single spaces, and the first is the
/// program's name.
pub(crate) fn asked(alloc: Global, line: &str) -> Result<Result<Request, Usage>, AllocError> {
    let mut words: Vec<String> = Vec::new(alloc);
    for word in line.split(' ') {
        words.push(String::from_str(alloc, word)?)?;
    }
    Ok(request(alloc, words))
}

/// The parts of a row of `WORKED`: its command line, its files, its status and its text.
pub(crate) fn parts_of<'a>(rt: &impl Abort, row: &'a str) -> (&'a str, &'a str, &'a str, &'a str) {
    let Some((line, rest)) = row.trim_end().split_once('\n') else {
        panic!(rt; "{row} is no row")
    };
    let Some((contents, rest)) = rest.split_once('\n') else {
        panic!(rt; "{row} is no row")
    };
    let (status, text) = rest.split_once('\n').unwrap_or((rest, ""));
    (line, contents, status, text)
}

/// How a row of `WORKED` with this status ends, and the status as a number.
pub(crate) fn end_of(status: &str) -> (End, u8) {
    if status == "1" {
        (End::Refused, 1)
    } else if status == "2" {
        (End::StateLine(1), 2)
    } else if status == "3" {
        (End::BadHex(2), 3)
    } else {
        (End::Done, 0)
    }
}

/// The text of a row, with the newline at its end if it has one line or more.
pub(crate) fn text_of(alloc: Global, text: &str) -> Result<String, AllocError> {
    let mut whole = String::from_str(alloc, text)?;
    if !text.is_empty() {
        whole.push('\n')?;
    }
    Ok(whole)
}

/// The bytes of the file that `content` stands for.
fn file_of(alloc: Global, content: &str) -> Result<Vec<u8>, AllocError> {
    if content == "-" {
        return Ok(Vec::new(alloc));
    }
    let mut text = content.replace(alloc, '/', "\n")?;
    for line in NAMES.lines() {
        if let Some((name, meaning)) = line.split_once(' ') {
            text = text.replace(alloc, name, meaning)?;
        }
    }
    Ok(text.into_bytes())
}

/// The bytes of the files of a row.
pub(crate) fn files_of(alloc: Global, contents: &str) -> Result<Vec<Vec<u8>>, AllocError> {
    let mut files: Vec<Vec<u8>> = Vec::new(alloc);
    for content in contents.split(" | ") {
        files.push(file_of(alloc, content)?)?;
    }
    Ok(files)
}
