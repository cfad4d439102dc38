//! Walks up a stack, and writes its frames to an array that C passes.

ghost use Rattle.std.specs.Prelude.{◌≡◌, ◌≤◌, ◌↔◌, ℕ, false, List, None, Option, Some, length, option_map};
ghost use Rattle.dw_rules.specs.Abi.{Abi as Roles, abi_fault, abi_of};
ghost use Rattle.dw_rules.specs.AbiViews.{roles_of};
ghost use Rattle.dw_unwind.specs.Caller.{Answer};
ghost use Rattle.dw_unwind.specs.UnwoundViews.{caller_with};
ghost use Rattle.dw_unwind.specs.WalkViews.{brief_in, brief_of};
ghost use Rattle.dw_process.specs.Processes.{ProcessState, is_signal_in};
ghost use Rattle.dw_unwind.specs.Walks.{Place, WalkedFrame, Walks};
ghost use Rattle.dw_unwind.specs.declared.frames.Stop.{Stop as Why};
ghost use Rattle.dw_c_types.specs.Frames.{AreWritten, IsBacktrace, IsLeftAt, stop_number};
ghost use Rattle.dw_c_types.specs.Machine.{register_in};
ghost use Rattle.dw_c_types.specs.ProcessWalks.{WalksBy, over_process, through_process};
ghost use Rattle.dw_c_types.specs.declared.answer.CFrame.{CFrame as Slot};
ghost use Rattle.dwcheck_c.specs.WalkCursors.{place_of};

use crate::cursor::{CALLER, CCursor, EXACT, Stepped, fill, has_places, other_step};
use crate::listed_registers::{ListedRegisters, looked_up_after};
use crate::usual_steps::{signed_bits_at, usual_step, without_bits};
use dw_c_types::answer::{CFrame, c_frame_of};
use dw_c_types::state::Contents;
use dw_eval::{Memory, Registers};
use dw_process::{Process, ProcessSlot, RowHints};
use dw_rules::Abi;
use dw_unwind::{BriefFrame, KeptRegisters, RegisterFile, Stop, Unwound, return_address};

/// Goes on with a walk that has written `from` frames to `slots`. Its next frame is at `address`,
/// is looked up at `looked_up`, and has the registers `registers`. Returns the number of all frames
/// written, and why there are no more. This walk has lists of registers, for registers that have no
/// place in a cursor.
#[inline(never)]
fn write_rest<R: Registers, M: Memory>(
    process: &Process,
    abi: &Abi,
    bits: u64,
    address: u64,
    looked_up: Option<u64>,
    registers: &R,
    memory: &M,
    slots: &mut [CFrame],
    from: usize,
) -> (usize, Stop)
    requires { from ≤ length slots.old }
    ensures { (first : Place) (old : List Slot)
        → IsLeftAt (through_process (roles_of abi.now) (M.bytes memory.now) bits process.now) first
        (record { address = address; looked_up = looked_up; registers = R.contents registers.now })
        old slots.old from
        → AreWritten (through_process (roles_of abi.now) (M.bytes memory.now) bits process.now) first
        old slots.new result.0 (stop_number result.1) }
{
    let mut found = ListedRegisters::none();
    let mut unwound = found.begin(process, abi, looked_up, registers, memory);
    let mut at = address;
    let mut place = looked_up;
    let mut count = from;
    while count < slots.len() {
        slots[count] = c_frame_of(brief(at, unwound));
        count += 1;
        if count == slots.len() {
            return (count, Stop::Limit);
        }
        at = match return_address(unwound) {
            Ok(next) => without_bits(signed_bits_at(process, bits, place), next),
            Err(stop) => return (count, stop),
        };
        place = looked_up_after(process, place, at);
        unwound = found.advance(process, abi, place, memory);
    }
    (count, Stop::Limit)
}

/// Goes on with a walk as `write_rest` does, with the ABI that has the callee-saved registers
/// `kept` and the stack pointer `pointer`.
#[cold]
#[inline(never)]
fn write_more<R: Registers, M: Memory>(
    process: &Process,
    kept: &[u16],
    pointer: Option<u16>,
    bits: u64,
    address: u64,
    looked_up: Option<u64>,
    registers: &R,
    memory: &M,
    slots: &mut [CFrame],
    from: usize,
) -> (usize, Stop)
    requires abi { abi_fault kept.now pointer ≡ None }
    requires within { from ≤ length slots.old }
    ensures { (first : Place) (old : List Slot)
        → IsLeftAt (through_process (abi_of kept.now pointer) (M.bytes memory.now) bits process.now) first
        (record { address = address; looked_up = looked_up; registers = R.contents registers.now })
        old slots.old from
        → AreWritten (through_process (abi_of kept.now pointer) (M.bytes memory.now) bits process.now)
        first old slots.new result.0 (stop_number result.1) }
{
    match Abi::new(kept, pointer) {
        Ok(abi) => write_rest(
            process, &abi, bits, address, looked_up, registers, memory, slots, from,
        ),
        Err(_) => unreachable!(),
    }
}

/// A frame in brief.
#[inline(always)]
pub(crate) fn brief(address: u64, unwound: Option<Unwound>) -> BriefFrame
    ensures { (found : List (ℕ × Answer)) → brief_in result ≡ brief_of (record {
      address = address;
      caller = option_map (caller_with found) unwound;
    }) }
{
    BriefFrame {
        address,
        cfa: match unwound {
            Some(unwound) => Some(unwound.cfa),
            None => None,
        },
    }
}

/// Takes usual steps from where `cursor` is, and writes the frames to `slots`; the first `from`
/// have been written already. Returns how many have been written when `slots` is full, or when the
/// next step isn't a usual one.
#[inline(always)]
fn write_usual_steps<H: RowHints, M: Memory>(
    process: &Process,
    hints: &mut H,
    slot: &mut ProcessSlot,
    kept: &KeptRegisters<'_>,
    pointer: Option<u16>,
    bits: u64,
    cursor: &mut CCursor,
    memory: &M,
    slots: &mut [CFrame],
    from: usize,
) -> usize
    requires begun { cursor.old.stage ≤ CALLER }
    requires within { from ≤ length slots.old }
    ensures left { (first : Place) (old : List Slot)
        → IsLeftAt (through_process (abi_of kept.now pointer) (M.bytes memory.now) bits process.now)
        first (place_of cursor.old) old slots.old from
        → IsLeftAt (through_process (abi_of kept.now pointer) (M.bytes memory.now) bits process.now)
        first (place_of cursor.new) old slots.new result }
    ensures begun { cursor.new.stage ≤ CALLER }
    ensures more { from ≤ result }
    ensures within { result ≤ length slots.new }
    ensures long { length slots.new ≡ length slots.old }
{
    let mut address = cursor.address;
    let mut stage = cursor.stage;
    let mut count = from;
    while count < slots.len() {
        let file = &mut cursor.registers;
        match usual_step(
            process, hints, slot, kept, pointer, bits, address, stage, memory, file,
        ) {
            Some(step) => {
                slots[count] = step.frame;
                address = step.address;
                stage = step.stage;
                count += 1;
            }
            None => {
                cursor.address = address;
                cursor.stage = stage;
                return count;
            }
        }
    }
    cursor.address = address;
    cursor.stage = stage;
    count
}

/// Walks up a stack from where `cursor` is, and writes its frames to `slots`, as many as fit.
/// Returns the number of frames written, and why there are no more. If a register has no place in
/// the cursor, `write_more` walks on.
fn write_steps<H: RowHints, M: Memory>(
    process: &Process,
    hints: &mut H,
    kept: &KeptRegisters<'_>,
    pointer: Option<u16>,
    bits: u64,
    cursor: &mut CCursor,
    memory: &M,
    slots: &mut [CFrame],
) -> (usize, Stop)
    requires begun { cursor.old.stage ≤ CALLER }
    requires abi { abi_fault kept.now pointer ≡ None }
    ensures { AreWritten (through_process (abi_of kept.now pointer) (M.bytes memory.now)
        bits process.now) (place_of cursor.old) slots.old slots.new result.0 (stop_number result.1) }
{
    let mut count = 0;
    let mut slot = ProcessSlot::new();
    loop {
        count = write_usual_steps(
            process, hints, &mut slot, kept, pointer, bits, cursor, memory, slots, count,
        );
        if count == slots.len() {
            return (count, Stop::Limit);
        }
        let (numbers, out) = (kept.numbers(), &mut slots[count]);
        match other_step(process, numbers, pointer, bits, cursor, memory, out) {
            Stepped::NoPlace => {
                let looked_up = cursor.looked_up();
                let file = &cursor.registers;
                return write_more(
                    process,
                    numbers,
                    pointer,
                    bits,
                    cursor.address,
                    looked_up,
                    file,
                    memory,
                    slots,
                    count,
                );
            }
            Stepped::Written => count += 1,
        }
        if count == slots.len() {
            return (count, Stop::Limit);
        }
        if let Some(stop) = cursor.stop() {
            return (count, stop);
        }
    }
}

/// Without signal frames and signed bits, a walk through the modules of a process is one of
/// `dw_unwind`.
pub fn walks_without_signal_frames()
    ensures { (abi : Roles) (memory : ℕ → Option ℕ) (p : ProcessState)
        → ((a : ℕ) → is_signal_in p a ≡ false) → (first : Place) (limit : ℕ)
        (frames : List WalkedFrame) (stop : Why)
        → WalksBy (through_process abi memory 0 p) first limit frames stop
        ↔ Walks (over_process abi memory p) first limit frames stop }
{}

/// Writes the only frame of a walk through a closed process: no module has a row for `address`.
/// Returns the number of frames written, and why there are no more.
pub(crate) fn write_uncovered(address: u64, slots: &mut [CFrame]) -> (usize, Stop)
    ensures { (abi : Roles) (memory registers : ℕ → Option ℕ) (bits : ℕ)
        → IsBacktrace None abi memory bits registers address slots.old slots.new result.0
        (stop_number result.1) }
{
    let only = c_frame_of(brief(address, None));
    match slots.len() {
        0 => (0, Stop::Limit),
        1 => {
            slots[0] = only;
            (1, Stop::Limit)
        }
        _ => {
            slots[0] = only;
            (1, Stop::NotCovered)
        }
    }
}

/// Walks up a stack with the tables of a process's modules, and writes its frames to `slots`, as
/// many as fit. Returns the number of frames written, and why there are no more. The ABI has the
/// callee-saved registers `kept` and the stack pointer `pointer`. `hints` affects only the time.
pub(crate) fn write_backtrace<H: RowHints, M: Memory>(
    process: &Process,
    hints: &mut H,
    kept: &[u16],
    pointer: Option<u16>,
    bits: u64,
    address: u64,
    registers: &Contents<'_>,
    memory: &M,
    slots: &mut [CFrame],
) -> (usize, Stop)
    requires { abi_fault kept.now pointer ≡ None }
    ensures { IsBacktrace (Some process.now) (abi_of kept.now pointer) (M.bytes memory.now) bits
        (register_in registers.now.contents.now registers.now.known.now) address slots.old
        slots.new result.0 (stop_number result.1) }
{
    if !has_places(registers) {
        let looked_up = Some(address);
        return write_more(
            process, kept, pointer, bits, address, looked_up, registers, memory, slots, 0,
        );
    }
    let mut cursor = CCursor {
        registers: RegisterFile::none(),
        address,
        stage: EXACT,
        reserved: 0,
    };
    fill(&mut cursor.registers, registers);
    let marked = KeptRegisters::new(kept);
    write_steps(
        process,
        hints,
        &marked,
        pointer,
        bits,
        &mut cursor,
        memory,
        slots,
    )
}
