//! Walks through modules: `bench/beside_libunwind` times them, and compares their frames.

use crate::TARGET;
use dw_eval::{MemoryBlock, Registers};
use dw_rows::check_frame;
use dw_rules::Abi;
use dw_tables::UnwindTable;
use dw_unwind::{Answer, BriefFrame, Module, Stop, Walk};
use std::alloc::Global;

/// Registers whose contents are given by number: register n has `contents[n]`.
#[derive(Drop)]
struct Contents<'a> {
    contents: &'a [u64],
}

impl<'a> Registers for Contents<'a> {
    ghost use Rattle.std.specs.Prelude.{slice_get};

    ghost contents = { λ c. slice_get c.contents.now };

    #[inline(always)]
    fn register(&self, number: u16) -> Option<u64> {
        self.contents.get(usize::from(number)).copied()
    }
}

/// A frame section, and the load address of its module.
#[repr(C)]
#[derive(Drop)]
pub struct LoadedSection<'a> {
    pub load_address: u64,
    pub bytes: &'a [u8],
}

/// The start of a walk.
#[repr(C)]
#[derive(Drop)]
pub struct WalkStart<'a> {
    pub address: u64,
    pub contents: &'a [u64],
    /// Where the stack's bytes begin.
    pub base: u64,
    pub stack: &'a [u8],
    /// How often the walk is repeated.
    pub times: u32,
}

/// A frame. `cfa_kind` is 0 if no row was found for the frame, 1 if `cfa` is the CFA's value, 2 if
/// the CFA is undefined, 3 if it is unreadable, 4 if its expression divides by zero.
#[repr(C)]
#[derive(Clone, Copy, Debug)]
pub struct WalkFrame {
    pub address: u64,
    pub cfa: u64,
    pub cfa_kind: u32,
}

/// The number of frames, and why the walk ended there, as a number (see `stop_number`).
#[repr(C)]
#[derive(Clone, Copy, Debug)]
pub struct WalkEnd {
    pub count: u64,
    pub stop: u32,
}

/// Modules with the compiled tables of these sections, which don't borrow the sections. `None` if a
/// section is refused or has 2^32 bytes or more, or memory runs out.
fn modules_of(alloc: Global, sections: &[LoadedSection<'_>]) -> Option<Vec<Module<UnwindTable>>> {
    let mut modules = Vec::new(alloc);
    for section in sections {
        if section.bytes.len() >= 1 << 32 {
            return None;
        }
        let frame = check_frame(alloc, section.bytes, TARGET).ok()?;
        let table = UnwindTable::compile(alloc, &frame, 1 << 40).ok()??;
        modules.push(Module::new(table, section.load_address)).ok()?;
    }
    Some(modules)
}

fn frame_of(frame: BriefFrame) -> WalkFrame {
    let (cfa, cfa_kind) = match frame.cfa {
        None => (0, 0),
        Some(Answer::Value(cfa)) => (cfa, 1),
        Some(Answer::Undefined) => (0, 2),
        Some(Answer::Unreadable) => (0, 3),
        Some(Answer::DivisionByZero) => (0, 4),
    };
    WalkFrame {
        address: frame.address,
        cfa,
        cfa_kind,
    }
}

fn stop_number(stop: Option<Stop>) -> u32 {
    match stop {
        None | Some(Stop::Limit) => 0,
        Some(Stop::NotCovered) => 1,
        Some(Stop::ReturnUndefined) => 2,
        Some(Stop::ReturnUnreadable) => 3,
        Some(Stop::ReturnDivisionByZero) => 4,
    }
}

/// The next frame of a walk. This is a function of its own because a loop that calls `next`
/// directly must be proved to end, and a walk need not end.
#[inline(always)]
fn next_frame(walk: &mut Walk<'_, &[Module<UnwindTable>], MemoryBlock<'_>>) -> Option<BriefFrame> {
    walk.next()
}

/// Walks once, and writes the frames to `frames` until it is full or the walk ends.
fn walk_once(
    modules: &[Module<UnwindTable>],
    abi: &Abi,
    start: &WalkStart<'_>,
    frames: &mut [WalkFrame],
) -> WalkEnd {
    let registers = Contents {
        contents: start.contents,
    };
    let memory = MemoryBlock {
        base: start.base,
        bytes: start.stack,
    };
    let mut walk = Walk::new(modules, abi, start.address, &registers, &memory);
    for index in 0..frames.len() {
        match next_frame(&mut walk) {
            Some(frame) => frames[index] = frame_of(frame),
            None => {
                return WalkEnd {
                    count: index as u64,
                    stop: stop_number(walk.stop()),
                };
            }
        }
    }
    WalkEnd {
        count: frames.len() as u64,
        stop: stop_number(None),
    }
}

/// Checks the sections, compiles their tables, and walks `start.times` times. Returns `false` if a
/// section is refused or memory runs out.
#[unsafe(no_mangle)]
pub extern "C" fn bench_walk(
    alloc: Global,
    sections: &[LoadedSection<'_>],
    start: &WalkStart<'_>,
    frames: &mut [WalkFrame],
    end: &mut WalkEnd,
) -> bool {
    let Some(modules) = modules_of(alloc, sections) else {
        return false;
    };
    let Ok(abi) = Abi::new(&[3, 6, 12, 13, 14, 15], Some(7)) else {
        return false;
    };
    for _ in 0..start.times {
        *end = walk_once(&modules, &abi, start, frames);
    }
    true
}
