//! Calls that take memory. Each is made with ample memory, and its answer is compared. If an
//! allocation is refused, a call must report that it is out of memory, and nothing else; when it is
//! made again, it must give its answer. `bench/stress/refused_memory.py` runs each test with its Nth
//! allocation refused, for every N. In an ordinary run nothing is refused.

ghost use Rattle.std.specs.Prelude.{◌≤◌, ◌<◌, ◌^◌, length};

use crate::inputs::{BASES, EXPRESSIONS, FUNCTION, LITTLE, PAIR_AND_DEFAULT, ROUND, Unknown};
use crate::look_ups::looks_up_everything;
use dw_bytes::{Fault, FaultKind, OUT_OF_MEMORY};
use dw_check::{
    Backtrace, End, LoadFault, Reading, Reads, ReportFault, Source, Stop, Through, Usage,
    backtrace, check, load, report, request, run,
};
use dw_eh_frame::Bases;
use dw_eh_rows::{check_eh_frame, is_signal_address, signal_frames};
use dw_frame::{Entry, entries};
use dw_loclists::check_lists;
use dw_ops::{Expression, Operation, operations};
use dw_process::{BothRefusal, BothSections, EhSection, Process, Refusal, TableRooms};
use dw_rows::{CheckedFrame, check_cie, check_fde, check_frame};
use dw_rules::Abi;
use dw_stack::{Kind, Mode, State, certify, recheck};
use dw_tables::UnwindTable;
use std::alloc::{AllocError, Global};
use std::io;
use std::io::Write;
use std::process::Abort;

/// A call that takes memory.
#[derive(Clone, Copy, Debug, PartialEq, Eq)]
enum Call {
    Operations,
    Certify,
    Recheck,
    CheckCie,
    CheckFde,
    CheckFrame,
    CheckLists,
    Check,
    Compile,
    CompileMany,
    Backtrace,
    BacktraceBySection,
    BacktraceByTable,
    ProcessAdd,
    ProcessShare,
    CheckEhFrame,
    SignalFrames,
    ProcessAddEhFrame,
    ProcessAddBoth,
    Report,
    ReportWithoutLists,
    Request,
    Run,
    Load,
}

/// Four numbers that a call gives. The function that makes the call says what they are.
type Numbers = (usize, usize, usize, usize);

/// An expression with forty pushes.
const PUSHES: [u8; 40] = [0x31; 40];

/// The state before operation `number` of `PUSHES`.
fn state(number: u8) -> State {
    State {
        offset: u32::from(number),
        height: number,
        mode: Mode::Stack,
        pieced: false,
    }
}

/// The number of operations of an expression; how many of them are `lit1` at the next byte, or of
/// its states those of `PUSHES`; its depth; and its number of operations once more.
fn of_expression(alloc: Global, call: Call, bytes: &[u8]) -> Result<Numbers, Fault>
    requires { length bytes.now < 2 ^ 32 }
{
    let expression = Expression::new(bytes, LITTLE);
    let mut right = 0usize;
    match call {
        Call::Operations => {
            let list = operations(alloc, &expression)?;
            for (place, (at, operation)) in list.iter().enumerate() {
                if *at as usize == place && *operation == (Operation::Lit { value: 1 }) {
                    right = right.saturating_add(1);
                }
            }
            Ok((list.len(), right, 0, 0))
        }
        Call::Certify => {
            let certificate = certify(alloc, expression, Kind::Location)?;
            let length = certificate.states().len();
            for (number, found) in (0..40u8).zip(certificate.states()) {
                if *found == state(number) {
                    right = right.saturating_add(1);
                }
            }
            let checked = certificate.into_checked();
            let count = checked.operation_count() as usize;
            Ok((length, right, usize::from(checked.depth()), count))
        }
        _ => {
            let mut states = [state(0); 40];
            for (number, slot) in (0..40u8).zip(states.iter_mut()) {
                *slot = state(number);
            }
            let checked = recheck(alloc, expression, Kind::Location, &states)?;
            let count = checked.operation_count() as usize;
            Ok((count, 40, usize::from(checked.depth()), count))
        }
    }
}

/// Checks the CIE and the FDE with which a section begins. All numbers are 1.
fn of_records(alloc: Global, call: Call, section: &[u8]) -> Result<Numbers, Fault>
    requires { length section.now < 2 ^ 32 }
{
    let mut records = entries(section, LITTLE);
    if let (Some(Ok(Entry::Cie(cie))), Some(Ok(Entry::Fde(fde)))) = (
        records.next(),
        records.next(),
    ) {
        if call == Call::CheckCie {
            check_cie(alloc, &cie)?;
        } else {
            check_fde(alloc, &cie, &fde)?;
        }
        return Ok((1, 1, 1, 1));
    }
    Ok((0, 0, 0, 0))
}

/// The numbers of CIEs, FDEs, rows and expressions of a section.
fn counts_of(frame: &CheckedFrame<'_>) -> Numbers {
    (
        frame.cies().len(),
        frame.fdes().len(),
        usize::try_from(frame.row_count()).unwrap_or(usize::MAX),
        frame.expressions().len(),
    )
}

/// The numbers of CIEs, FDEs, rows and expressions of a frame section; of lists the numbers of
/// tables, lists and expressions, and 0; of both the numbers of FDEs, of expressions of the frame
/// section, of lists and of their expressions.
fn of_section(alloc: Global, call: Call, section: &[u8]) -> Result<Numbers, Fault>
    requires { length section.now < 2 ^ 32 }
{
    match call {
        Call::CheckFrame => Ok(counts_of(&check_frame(alloc, section, LITTLE)?)),
        Call::CheckLists => {
            let lists = check_lists(alloc, section, LITTLE)?;
            let (tables, expressions) = (lists.tables().len(), lists.expressions().len());
            Ok((tables, lists.lists().len(), expressions, 0))
        }
        _ => match check(alloc, section, &PAIR_AND_DEFAULT, LITTLE) {
            Ok(checked) => {
                let (frame, lists) = (checked.frame(), checked.lists());
                let (of_frame, of_lists) = (frame.expressions().len(), lists.expressions().len());
                Ok((frame.fdes().len(), of_frame, lists.lists().len(), of_lists))
            }
            Err(found) => Err(found.fault),
        },
    }
}

/// Appends an FDE of eight nops that covers 16 addresses, whose CIE is the section's first record.
fn push_fde(section: &mut Vec<u8>, initial: u64) -> Result<(), AllocError> {
    section.extend_from_slice(&[0x1c, 0, 0, 0, 0, 0, 0, 0])?;
    section.extend_from_slice(&initial.to_le_bytes())?;
    section.extend_from_slice(&0x10u64.to_le_bytes())?;
    section.extend_from_slice(&[0; 8])
}

/// The CIE of `FUNCTION`, and 1,000 FDEs of one row each, in order of descending addresses, with
/// gaps between them.
fn descending(alloc: Global) -> Result<Vec<u8>, AllocError> {
    let mut section = FUNCTION[..24].to_vec(alloc)?;
    for i in (0..1000u64).rev() {
        push_fde(&mut section, 0x1000 + 0x20 * i)?;
    }
    Ok(section)
}

/// Where the row of an address ends; 0 if it has none. The section and its table must agree.
fn end_at(rt: &impl Abort, frame: &CheckedFrame<'_>, table: &UnwindTable, address: u64) -> usize {
    match (
        frame.row_for_address(address),
        table.row_for_address(address),
    ) {
        (Some(row), Some(stored)) => {
            assert_eq!(rt; row.start_address(), stored.start_address());
            assert_eq!(rt; row.end_address(), stored.end_address());
            row.end_address() as usize
        }
        (None, None) => 0,
        _ => panic!(rt; "{address:#x} has a row in one of them alone"),
    }
}

/// Compiles the table of a section. The ends of the rows of four addresses.
fn of_table(rt: &impl Abort, alloc: Global, section: &[u8]) -> Result<Numbers, Fault>
    requires { length section.now < 2 ^ 32 }
{
    let frame = check_frame(alloc, section, LITTLE)?;
    let Some(table) = UnwindTable::compile(alloc, &frame, 1 << 20)? else {
        panic!(rt; "there is room")
    };
    Ok((
        end_at(rt, &frame, &table, 0x100f),
        end_at(rt, &frame, &table, 0x1010),
        end_at(rt, &frame, &table, 0x8cef),
        end_at(rt, &frame, &table, 0x8cf0),
    ))
}

/// The number of frames of a walk of forty, and the addresses of the first, the second and the last.
/// Such a walk reallocates the list of frames several times.
fn numbers_of(rt: &impl Abort, walk: &Backtrace) -> Numbers {
    assert!(rt; walk.stop == Stop::Limit);
    assert_eq!(rt; walk.frames.len(), 40);
    (
        walk.frames.len(),
        walk.frames[0].address as usize,
        walk.frames[1].address as usize,
        walk.frames[39].address as usize,
    )
}

/// A walk over two checked sections.
fn of_walk_by_both(rt: &impl Abort, alloc: Global) -> Result<Numbers, Fault> {
    match check(alloc, &ROUND, &[], LITTLE) {
        Ok(checked) => {
            let walk = backtrace(alloc, &checked, &Abi::none(), 3, &Unknown, &Unknown, 40)?;
            Ok(numbers_of(rt, &walk))
        }
        Err(found) => Err(found.fault),
    }
}

/// A walk over a checked section.
fn of_walk_by_section(rt: &impl Abort, alloc: Global) -> Result<Numbers, Fault> {
    let frame = check_frame(alloc, &ROUND, LITTLE)?;
    let walk = dw_unwind::backtrace(alloc, &frame, &Abi::none(), 3, &Unknown, &Unknown, 40)?;
    Ok(numbers_of(rt, &walk))
}

/// A walk over a compiled table.
fn of_walk_by_table(rt: &impl Abort, alloc: Global) -> Result<Numbers, Fault> {
    let frame = check_frame(alloc, &ROUND, LITTLE)?;
    let Some(table) = UnwindTable::compile(alloc, &frame, 1 << 20)? else {
        panic!(rt; "there is room")
    };
    let walk = dw_unwind::backtrace(alloc, &table, &Abi::none(), 3, &Unknown, &Unknown, 40)?;
    Ok(numbers_of(rt, &walk))
}

/// Where `FUNCTION` is loaded in the modules of a process: the load address of each module, and an
/// address of the function there.
const PLACES: [(u64, u64); 4] = [
    (0, 0x1010),
    (0x1_0000, 0x1_1010),
    (0x2_0000, 0x2_1010),
    (0x3_0000, 0x3_1010),
];

/// Asserts that a process has as many of the modules of `PLACES` as `count` says, in this order,
/// and no others.
fn has_modules(rt: &impl Abort, process: &Process, count: usize) {
    assert_eq!(rt; process.modules().len(), count);
    for ((load_address, address), module) in PLACES.iter().zip(process.modules()) {
        assert_eq!(rt; module.load_address, *load_address);
        let Some(found) = process.row_for_address(*address) else {
            panic!(rt; "no row")
        };
        assert_eq!(rt; found.load_address, *load_address);
        assert_eq!(rt; found.row.start_address(), 0x1004);
    }
}

/// Adds the modules of `PLACES` to a process, and shares it if the call is that. If memory runs out,
/// the process must have the modules that were added before. The numbers of modules that were added,
/// and that were shared.
fn of_process(rt: &impl Abort, alloc: Global, call: Call) -> Result<Numbers, Fault> {
    let mut process = Process::new(alloc, LITTLE);
    for number in 0..4usize {
        let (load_address, _) = PLACES[number];
        match process.add(alloc, &FUNCTION, load_address, None, 0, 1 << 20) {
            Ok(_) => has_modules(rt, &process, number + 1),
            Err(why) => {
                assert!(rt; why == Refusal::Section(OUT_OF_MEMORY));
                has_modules(rt, &process, number);
                return Err(OUT_OF_MEMORY);
            }
        }
    }
    if call == Call::ProcessAdd {
        return Ok((4, 0, 0, 0));
    }
    let shared = process.share(alloc);
    has_modules(rt, &process, 4);
    drop(process);
    match shared {
        Some(other) => {
            has_modules(rt, &other, 4);
            Ok((4, 4, 0, 0))
        }
        None => Err(OUT_OF_MEMORY),
    }
}

/// By GNU as for x86-64: a CIE with `zRS`, and an FDE of 0x1009 to 0x100c whose rules have
/// expressions. The row changes at 0x100b.
const SIGNAL: [u8; 56] = [
    0x14, 0, 0, 0, 0, 0, 0, 0, 1, 0x7a, 0x52, 0x53, 0, 1, 0x78, 0x10, 1, 0x1b, 0x0c, 7, 8, 0x90, 1,
    0, 0x1c, 0, 0, 0, 0x1c, 0, 0, 0, 0xe9, 0xef, 0xff, 0xff, 3, 0, 0, 0, 0, 0x0f, 3, 0x77, 8, 6,
    0x16, 3, 2, 0x23, 8, 0x42, 8, 3, 0, 0,
];

/// The first 31 bytes of `SIGNAL`: the FDE is cut off.
const SIGNAL_CUT: [u8; 31] = [
    0x14, 0, 0, 0, 0, 0, 0, 0, 1, 0x7a, 0x52, 0x53, 0, 1, 0x78, 0x10, 1, 0x1b, 0x0c, 7, 8, 0x90, 1,
    0, 0x1c, 0, 0, 0, 0x1c, 0, 0,
];

/// A section of `.eh_frame`: the numbers of its CIEs, FDEs, rows and expressions; the number of its
/// signal frames, and whether each of three addresses is one's; or the id of its module, and where
/// the row of an address begins and ends.
fn of_eh_frame(alloc: Global, call: Call, section: &[u8]) -> Result<Numbers, Fault>
    requires { length section.now < 2 ^ 32 }
{
    match call {
        Call::CheckEhFrame => {
            let frame = check_eh_frame(alloc, section, LITTLE, BASES, false)?;
            Ok(counts_of(&frame))
        }
        Call::SignalFrames => {
            let ranges = signal_frames(alloc, section, LITTLE, BASES, false)?;
            Ok((
                ranges.len(),
                usize::from(is_signal_address(&ranges, 0x1008)),
                usize::from(is_signal_address(&ranges, 0x1009)),
                usize::from(is_signal_address(&ranges, 0x100c)),
            ))
        }
        _ => {
            let mut process = Process::new(alloc, LITTLE);
            let section = EhSection {
                bytes: section,
                bases: BASES,
                is_aarch64: false,
            };
            match process.add_eh_frame(alloc, section, 0x40_0000, None, 7, 1 << 16) {
                Ok(id) => {
                    let (start, end) = match process.row_for_address(0x40_100a) {
                        Some(found) => (found.row.start_address(), found.row.end_address()),
                        None => (0, 0),
                    };
                    Ok((id as usize, start as usize, end as usize, 0))
                }
                Err(Refusal::Section(fault)) if process.modules().is_empty() => Err(fault),
                Err(_) => Ok((0, 0, 0, 0)),
            }
        }
    }
}

/// Where a section like `SIGNAL` covers 0x101f to 0x1022. `FUNCTION` covers the first of these addresses.
const BESIDE: Bases = Bases {
    section: 0x2016,
    text_start: None,
    data_start: None,
};

/// Adds a module with `FUNCTION` as `.debug_frame` and with this `.eh_frame`. Its id; where the rows of
/// 0x101f and of 0x1020 end; and which of these two addresses are those of signal frames, as the sum
/// of 1 and 2.
fn of_both_sections(alloc: Global, section: &[u8]) -> Result<Numbers, Fault>
    requires { length section.now < 2 ^ 32 }
{
    let mut process = Process::new(alloc, LITTLE);
    let sections = BothSections {
        debug_frame: &FUNCTION,
        eh_frame: EhSection {
            bytes: section,
            bases: BESIDE,
            is_aarch64: false,
        },
        leaves_out: false,
    };
    let rooms = TableRooms {
        debug_frame: 1 << 16,
        eh_frame: 1 << 16,
    };
    match process.add_both(alloc, sections, 0x40_0000, None, 7, rooms) {
        Ok(id) => Ok((
            id as usize,
            row_end(&process, 0x40_101f),
            row_end(&process, 0x40_1020),
            usize::from(process.is_signal_frame(0x40_101f))
                + 2 * usize::from(process.is_signal_frame(0x40_1020)),
        )),
        Err(BothRefusal::Memory) if process.modules().is_empty() => Err(OUT_OF_MEMORY),
        Err(BothRefusal::EhFrame(fault)) if process.modules().is_empty() => Err(fault),
        Err(_) => Ok((0, 0, 0, 0)),
    }
}

/// Where the row of an address ends; 0 if there is none.
fn row_end(process: &Process, address: u64) -> usize {
    match process.row_for_address(address) {
        Some(found) => found.row.end_address() as usize,
        None => 0,
    }
}

/// A writer to an array, which doesn't allocate.
#[derive(Drop)]
struct Fixed {
    bytes: [u8; 512],
    len: usize,
    ghost within: { len ≤ 512 },
}

impl Fixed {
    fn new() -> Self {
        Fixed {
            bytes: [0; 512],
            len: 0,
        }
    }

    fn written(&self) -> &[u8] {
        &self.bytes[..self.len]
    }
}

impl Write for Fixed {
    fn write(&mut self, piece: &[u8]) -> io::Result<usize> {
        let n = piece.len().min(512 - self.len);
        self.bytes[self.len..self.len + n].copy_from_slice(&piece[..n]);
        self.len += n;
        Ok(n)
    }

    fn flush(&mut self) -> io::Result<()> {
        Ok(())
    }
}

/// Reports on a section, and on `lists`. If memory runs out, a beginning of the text may be written.
/// The number of texts.
fn of_report(
    rt: &impl Abort,
    alloc: Global,
    section: &[u8],
    lists: &[u8],
    text: &str,
) -> Result<Numbers, Fault> {
    let checked = match check(alloc, section, lists, LITTLE) {
        Ok(checked) => checked,
        Err(found) => return Err(found.fault),
    };
    let mut sink = Through::new(Fixed::new());
    let result = report(alloc, &checked, &mut sink);
    let fixed = sink.into_inner();
    match result {
        Ok(()) => {
            assert_eq!(rt; fixed.written(), text.as_bytes());
            Ok((1, 0, 0, 0))
        }
        Err(fault) => {
            assert!(rt; fault == ReportFault::Memory);
            assert!(rt; text.as_bytes().starts_with(fixed.written()));
            Err(OUT_OF_MEMORY)
        }
    }
}

/// The command line of the first example of docs/WORKED.md.
fn words(alloc: Global) -> Result<Vec<String>, AllocError> {
    let mut words: Vec<String> = Vec::new(alloc);
    for word in ["dwcheck", "rows", "--hex", "f"] {
        words.push(String::from_str(alloc, word)?)?;
    }
    Ok(words)
}

/// Makes a request of the command line `words`, and runs it with a file that contains `content` if
/// the call is that. If memory runs out, a beginning of the text may be written, but nothing of a
/// refusal. The number of files, and of texts.
fn of_program(
    rt: &impl Abort,
    alloc: Global,
    call: Call,
    content: &[u8],
    text: &str,
) -> Result<Numbers, Fault> {
    let request = match request(alloc, words(alloc)?) {
        Ok(request) => request,
        Err(usage) => {
            assert!(rt; matches!(usage, Usage::Memory));
            assert_eq!(rt; usage.status(), 3);
            return Err(OUT_OF_MEMORY);
        }
    };
    assert_eq!(rt; request.files().len(), 1);
    for name in request.files() {
        assert_eq!(rt; name.as_str(), "f");
    }
    if call == Call::Request {
        return Ok((1, 0, 0, 0));
    }
    let mut files: Vec<Vec<u8>> = Vec::new(alloc);
    files.push(Vec::from_slice(alloc, content)?)?;
    assert_eq!(rt; files.len(), request.files().len());
    let mut sink = Through::new(Fixed::new());
    let found = run(alloc, &request, files.as_slice(), &mut sink);
    let fixed = sink.into_inner();
    let is_refusal = text.as_bytes().starts_with(b"refused");
    if found == End::Memory {
        assert_eq!(rt; found.status(), 3);
        assert!(rt; text.as_bytes().starts_with(fixed.written()));
        assert!(rt; !is_refusal || fixed.written().is_empty());
        return Err(OUT_OF_MEMORY);
    }
    assert!(rt; found == if is_refusal { End::Refused } else { End::Done });
    assert_eq!(rt; fixed.written(), text.as_bytes());
    Ok((1, 1, 0, 0))
}

/// Loads bytes from a source, which ends. If memory runs out, the source is still open. The number
/// of bytes.
fn of_load(rt: &impl Abort, alloc: Global, content: &[u8]) -> Result<Numbers, Fault> {
    let mut source = Reads::new(content);
    match load(alloc, &mut source) {
        Ok(bytes) => {
            assert_eq!(rt; bytes.as_slice(), content);
            assert!(rt; source.state() == Reading::Ended);
            Ok((bytes.len(), 0, 0, 0))
        }
        Err(fault) => {
            assert!(rt; fault == LoadFault::Memory);
            assert!(rt; source.state() == Reading::Open);
            Err(OUT_OF_MEMORY)
        }
    }
}

/// Makes a call with these bytes. `text` is what a report or a run has to write.
fn answer(
    rt: &impl Abort,
    alloc: Global,
    call: Call,
    bytes: &[u8],
    text: &str,
) -> Result<Numbers, Fault> {
    assert!(rt; bytes.len() < 0x1_0000);
    match call {
        Call::Operations | Call::Certify | Call::Recheck => of_expression(alloc, call, bytes),
        Call::CheckCie | Call::CheckFde => of_records(alloc, call, bytes),
        Call::CheckFrame | Call::CheckLists | Call::Check => of_section(alloc, call, bytes),
        Call::Compile => of_table(rt, alloc, bytes),
        Call::CompileMany => {
            let section = descending(alloc)?;
            assert_eq!(rt; section.len(), 32_024);
            of_table(rt, alloc, &section)
        }
        Call::Backtrace => of_walk_by_both(rt, alloc),
        Call::BacktraceBySection => of_walk_by_section(rt, alloc),
        Call::BacktraceByTable => of_walk_by_table(rt, alloc),
        Call::ProcessAdd | Call::ProcessShare => of_process(rt, alloc, call),
        Call::CheckEhFrame | Call::SignalFrames | Call::ProcessAddEhFrame => {
            of_eh_frame(alloc, call, bytes)
        }
        Call::ProcessAddBoth => of_both_sections(alloc, bytes),
        Call::Report => of_report(rt, alloc, bytes, &PAIR_AND_DEFAULT, text),
        Call::ReportWithoutLists => of_report(rt, alloc, bytes, &[], text),
        Call::Request | Call::Run => of_program(rt, alloc, call, bytes, text),
        Call::Load => of_load(rt, alloc, bytes),
    }
}

/// `FUNCTION` with an expression in the CIE's program.
const IN_CIE: [u8; 56] = [
    0x14, 0, 0, 0, 0xff, 0xff, 0xff, 0xff, 4, 0, 8, 0, 1, 0x78, 0x10, 0x0c, 7, 8, 0x90, 1, 0x16, 6,
    1, 0x96, 0x1c, 0, 0, 0, 0, 0, 0, 0, 0, 0x10, 0, 0, 0, 0, 0, 0, 0x20, 0, 0, 0, 0, 0, 0, 0, 0x41,
    0x0e, 0x10, 0x86, 2, 0x43, 0x0d, 6,
];

/// `FUNCTION` with an advance_loc in the CIE's program.
const ADVANCING: [u8; 56] = [
    0x14, 0, 0, 0, 0xff, 0xff, 0xff, 0xff, 4, 0, 8, 0, 1, 0x78, 0x10, 0x41, 7, 8, 0x90, 1, 0, 0, 0,
    0, 0x1c, 0, 0, 0, 0, 0, 0, 0, 0, 0x10, 0, 0, 0, 0, 0, 0, 0x20, 0, 0, 0, 0, 0, 0, 0, 0x41, 0x0e,
    0x10, 0x86, 2, 0x43, 0x0d, 6,
];

/// `FUNCTION` as hex text.
const FUNCTION_TEXT: &[u8] = b"14000000 ffffffff 04 00 08 00 01 78 10 0c0708 9001 00000000
1c000000 00000000 0010000000000000 2000000000000000 41 0e10 8602 43 0d06";

/// The rows of `FUNCTION`.
const ROWS: &str = "\
fde 0x00000018 cie 0x00000000 0x0000000000001000..0x0000000000001020 ra r16
row 0x0000000000001000..0x0000000000001001 cfa=r7+8 r16=[c-8]
row 0x0000000000001001..0x0000000000001004 cfa=r7+16 r6=[c-16] r16=[c-8]
row 0x0000000000001004..0x0000000000001020 cfa=r6+16 r6=[c-16] r16=[c-8]
";

/// The report on `FUNCTION` and the lists of `PAIR_AND_DEFAULT`.
const REPORT: &str = "\
accepted
cies 1 fdes 1 rows 3
tables 1 lists 1 expressions 2
expr lists 0x00000010 location ops 1 depth 0
expr lists 0x00000013 location ops 2 depth 1
";

/// The report on `EXPRESSIONS` and no lists.
const REPORT_OF_EXPRESSIONS: &str = "\
accepted
cies 1 fdes 1 rows 1
tables 0 lists 0 expressions 2
expr frame 0x00000033 register ops 1 depth 1
expr frame 0x00000038 register ops 0 depth 1
";

/// Calls, the bytes that they take, and what they write and give.
const CALLS: [(Call, &[u8], &str, Numbers); 27] = [
    (Call::Operations, &PUSHES, "", (40, 40, 0, 0)),
    (Call::Certify, &PUSHES, "", (40, 40, 40, 40)),
    (Call::Recheck, &PUSHES, "", (40, 40, 40, 40)),
    (Call::CheckCie, &FUNCTION, "", (1, 1, 1, 1)),
    (Call::CheckFde, &FUNCTION, "", (1, 1, 1, 1)),
    (Call::CheckCie, &IN_CIE, "", (1, 1, 1, 1)),
    (Call::CheckFde, &EXPRESSIONS, "", (1, 1, 1, 1)),
    (Call::CheckFrame, &FUNCTION, "", (1, 1, 3, 0)),
    (Call::CheckLists, &PAIR_AND_DEFAULT, "", (1, 1, 2, 0)),
    (Call::Check, &FUNCTION, "", (1, 0, 1, 2)),
    (Call::Check, &EXPRESSIONS, "", (1, 2, 1, 2)),
    (Call::Compile, &EXPRESSIONS, "", (0x1020, 0x1020, 0, 0)),
    (Call::CompileMany, &[], "", (0x1010, 0, 0x8cf0, 0)),
    (Call::Backtrace, &[], "", (40, 3, 7, 7)),
    (Call::BacktraceBySection, &[], "", (40, 3, 7, 7)),
    (Call::BacktraceByTable, &[], "", (40, 3, 7, 7)),
    (Call::ProcessAdd, &[], "", (4, 0, 0, 0)),
    (Call::ProcessShare, &[], "", (4, 4, 0, 0)),
    (Call::CheckEhFrame, &SIGNAL, "", (1, 1, 2, 2)),
    (Call::SignalFrames, &SIGNAL, "", (1, 0, 1, 0)),
    (Call::ProcessAddEhFrame, &SIGNAL, "", (1, 0x1009, 0x100b, 0)),
    (Call::ProcessAddBoth, &SIGNAL, "", (1, 0x1020, 0x1021, 2)),
    (Call::Report, &FUNCTION, REPORT, (1, 0, 0, 0)),
    (
        Call::ReportWithoutLists,
        &EXPRESSIONS,
        REPORT_OF_EXPRESSIONS,
        (1, 0, 0, 0),
    ),
    (Call::Request, &[], "", (1, 0, 0, 0)),
    (Call::Run, FUNCTION_TEXT, ROWS, (1, 1, 0, 0)),
    (Call::Load, &FUNCTION, "", (56, 0, 0, 0)),
];

/// What a run with a section that is refused writes.
const REFUSED: &str = "refused 3 ReservedLength frame 0x00000000\n";

/// Calls that refuse their bytes.
const REFUSALS: [(Call, &[u8], FaultKind, u32); 7] = [
    (
        Call::Operations,
        &[0x31, 0x18],
        FaultKind::UnknownOperation,
        1,
    ),
    (Call::CheckCie, &ADVANCING, FaultKind::NotInCie, 15),
    (Call::CheckFde, &ADVANCING, FaultKind::NotInCie, 15),
    (
        Call::CheckLists,
        &[0x0a, 0, 0, 0, 5, 0, 8, 0, 0, 0, 0, 0, 5, 0],
        FaultKind::NoEnd,
        14,
    ),
    (Call::CheckEhFrame, &SIGNAL_CUT, FaultKind::Truncated, 28),
    (Call::SignalFrames, &SIGNAL_CUT, FaultKind::Truncated, 28),
    (Call::ProcessAddBoth, &SIGNAL_CUT, FaultKind::Truncated, 28),
];

/// Makes a call, and once more if it ran out of memory, which is then printed.
fn is_made(
    rt: &(impl Abort + Print + AllocGlobal),
    call: Call,
    bytes: &[u8],
    text: &str,
    wanted: Result<Numbers, Fault>,
) {
    let mut found = answer(rt, rt.alloc(), call, bytes, text);
    if found == Err(OUT_OF_MEMORY) {
        assert!(rt; println!(rt; "refused: {call:?}").is_ok());
        found = answer(rt, rt.alloc(), call, bytes, text);
    }
    assert!(rt; found == wanted, "{call:?}");
}

#[test]
fn calls_give_their_answers(rt: HostRuntime) {
    for (call, bytes, text, wanted) in &CALLS {
        is_made(&rt, *call, bytes, text, Ok(*wanted));
    }
    is_made(&rt, Call::Run, b"f0ffffff", REFUSED, Ok((1, 1, 0, 0)));
    for (call, bytes, kind, at) in &REFUSALS {
        let fault = Fault {
            kind: *kind,
            at: *at,
        };
        is_made(&rt, *call, bytes, "", Err(fault));
    }
}

/// Checks sections and compiles a table. If it is asked to, makes calls that look something up.
/// Returns whether there was memory.
fn checks(rt: &impl Abort, alloc: Global, looks_up: bool) -> bool {
    let Ok(checked) = check(alloc, &FUNCTION, &PAIR_AND_DEFAULT, LITTLE) else {
        return false;
    };
    let Ok(frame) = check_frame(alloc, &EXPRESSIONS, LITTLE) else {
        return false;
    };
    let Ok(Some(table)) = UnwindTable::compile(alloc, checked.frame(), 1 << 20) else {
        return false;
    };
    if looks_up {
        looks_up_everything(rt, &checked, &frame, &table);
    }
    true
}

#[test]
fn checks_alone(rt: HostRuntime) {
    if !checks(&rt, rt.alloc(), false) {
        assert!(rt; println!(rt; "refused: checks").is_ok());
    }
}

/// Look-ups take no memory: `bench/stress/refused_memory.py` tests that this test makes as many
/// requests as `checks_alone`, which looks nothing up.
#[test]
fn look_ups_take_no_memory(rt: HostRuntime) {
    if !checks(&rt, rt.alloc(), true) {
        assert!(rt; println!(rt; "refused: checks").is_ok());
        assert!(rt; checks(&rt, rt.alloc(), true));
    }
}
