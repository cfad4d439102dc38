//! A cursor: where a walk up a stack is, as plain data that C owns.

ghost use Rattle.std.specs.Prelude.{◌≡◌, ◌≢◌, ◌+◌, ◌≤◌, ◌<◌, ◌⊎◌, ℕ, Bool, IfNone, IfSome, IsSome, List, None, Option, Some, length};
ghost use Rattle.std.specs.Bool.{OnTrue, OnFalse};
ghost use Rattle.dw_process.specs.Processes.{ProcessState};
ghost use Rattle.dw_rules.specs.Abi.{Abi, abi_of};
ghost use Rattle.dw_unwind.specs.Contents.{contents_in};
ghost use Rattle.dw_unwind.specs.MissingPlaces.{LacksPlace};
ghost use Rattle.dw_unwind.specs.Walks.{first_place, over_rows};
ghost use Rattle.dw_unwind.specs.declared.frames.Stop.{Stop as Why};
ghost use Rattle.dw_c_types.specs.declared.answer.CFrame.{CFrame as Slot};
ghost use Rattle.dw_c_types.specs.Slots.{put_into};
ghost use Rattle.dw_c_types.specs.Faults.{Reports};
ghost use Rattle.dw_c_types.specs.Frames.{IsBacktrace, cframe_of, stop_number};
ghost use Rattle.dw_c_types.specs.Machine.{abi_fault_of, abi_in, is_known, memory_of, register_in, registers_of};
ghost use Rattle.dw_c_types.specs.ProcessWalks.{bits_at, over_process, through_held, through_process};
ghost use Rattle.dwcheck_c.specs.declared.cursor.CCursor.{CCursor as Cursor};
ghost use Rattle.dwcheck_c.specs.declared.cursor.Stepped.{Stepped as Step};
ghost use Rattle.dwcheck_c.specs.WalkCursors.{AreSteps, WalkHasEnded, IsStep, IsStepBy, LacksPlaceIn, looked_up_by, place_from, place_of, registers_in, through_rows};
ghost use Rattle.dwcheck_c.specs.Lent.{Reads, loan_of, read_by};

use crate::backtrace::brief;
use crate::process_reader::{LentProcess, put};
use crate::read_right::Right;
use crate::usual_steps::{looked_up_at, signed_bits_at, stage_of_caller, usual_step, without_bits};
use dw_c_types::answer::{CFrame, c_frame_of};
use dw_c_types::fault::{CFault, IN_ABI, report};
use dw_c_types::state::{CState, Contents};
use dw_c_types::status::{DONE, NO_PLACE, NONE, REFUSED};
use dw_eval::{Memory, Registers};
use dw_process::{NoHints, Process, ProcessSlot};
use dw_unwind::{KeptRegisters, PLACES, RegisterFile, Stop, UnwindRows, Unwinder, return_address};

/// The frame is looked up at its own address.
pub const EXACT: u32 = 0;

/// The frame is looked up at its address minus 1, which is inside the call. A greater stage says
/// that the walk has ended, and why: it is the number of the reason plus 1.
pub const CALLER: u32 = 1;

/// Where a walk up a stack is: the address of a frame, and its registers, of which those with
/// numbers of 96 or more have no content. It is plain data: any bytes are a cursor. `stage` is
/// `EXACT` or `CALLER`, or greater if the walk has ended. `reserved` isn't looked at.
#[repr(C)]
#[derive(Drop)]
pub struct CCursor {
    pub registers: RegisterFile,
    pub address: u64,
    pub stage: u32,
    pub reserved: u32,
}

const _: () = prove!(size_of::<CCursor>() == 880);

/// Where a frame is written, with a part of the right to read the process, which takes no bytes: C
/// passes a pointer to a frame.
#[repr(C)]
pub struct FramePlace {
    frame: CFrame,
    right: Right,
}

const _: () = prove!(size_of::<FramePlace>() == size_of::<CFrame>());

/// What a step of a cursor has done.
pub(crate) enum Stepped {
    /// It has written a frame, and the cursor is at the frame's caller, or its walk has ended.
    Written,
    /// It has done nothing: a register of the caller has a content but no place in a cursor.
    NoPlace,
}

/// Whether the register `number` is known.
fn is_known(known: &[u8], number: usize) -> bool
    ensures { result ≡ is_known known.now number }
{
    match known.get(number / 8) {
        Some(byte) => (*byte >> (number % 8)) % 2 == 1,
        None => false,
    }
}

/// Whether a cursor has a place for each of these registers that has a content.
pub(crate) fn has_places(registers: &Contents<'_>) -> bool
    ensures all { OnTrue result ((r : ℕ) → PLACES ≤ r
        → register_in registers.now.contents.now registers.now.known.now r ≡ None) }
    ensures lacks { OnFalse result ((r : ℕ) × (PLACES ≤ r)
        × IsSome (register_in registers.now.contents.now registers.now.known.now r)) }
{
    let mut number = PLACES;
    while number < registers.contents.len() {
        if is_known(registers.known, number) {
            return false;
        }
        number += 1;
    }
    true
}

/// Gives registers the contents that they have in `registers`. Each has a place.
pub(crate) fn fill(file: &mut RegisterFile, registers: &Contents<'_>)
    requires { (r : ℕ) → PLACES ≤ r
        → register_in registers.now.contents.now registers.now.known.now r ≡ None }
    ensures { contents_in file.new
        ≡ register_in registers.now.contents.now registers.now.known.now }
{
    *file = RegisterFile::none();
    let count = registers.contents.len();
    let mut number = 0;
    while number < PLACES && number < count {
        file.set(number as u16, registers.register(number as u16));
        number += 1;
    }
    file.ends();
}

impl CCursor {
    /// The address that is looked up for the frame; none if there is no address before it.
    #[inline(always)]
    pub(crate) fn looked_up(&self) -> Option<u64>
        ensures { result ≡ looked_up_by self.now.stage self.now.address }
    {
        looked_up_at(self.stage, self.address)
    }

    /// Why the walk has ended; none if it hasn't. Any stage above 4 counts as 5.
    #[inline(always)]
    pub(crate) fn stop(&self) -> Option<Stop>
        ensures none { IfNone result (self.now.stage ≤ CALLER) }
        ensures ended { IfSome result (λ _. CALLER < self.now.stage) }
        ensures why { IfSome result (λ why. (other : Why) → self.now.stage ≡ stop_number other + 1
            → why ≡ other) }
    {
        match self.stage {
            EXACT | CALLER => None,
            2 => Some(Stop::NotCovered),
            3 => Some(Stop::ReturnUndefined),
            4 => Some(Stop::ReturnUnreadable),
            _ => Some(Stop::ReturnDivisionByZero),
        }
    }
}

/// The stage of a cursor whose walk has ended for this reason.
fn stage_after(stop: Stop) -> u32
    ensures { result ≡ stop_number stop + 1 }
{
    match stop {
        Stop::Limit => 1,
        Stop::NotCovered => 2,
        Stop::ReturnUndefined => 3,
        Stop::ReturnUnreadable => 4,
        Stop::ReturnDivisionByZero => 5,
    }
}

/// Moves a cursor to the caller of its frame, by the row of `address`, in a way that needs a second
/// file for the caller's registers. `is_signal` says whether that address is one of a signal frame,
/// and `bits` are those to take off the return address.
#[inline(never)]
pub(crate) fn step_by_copy<T: UnwindRows, M: Memory>(
    rows: &T,
    is_signal: bool,
    kept: &[u16],
    stack_pointer: Option<u16>,
    bits: u64,
    address: u64,
    cursor: &mut CCursor,
    memory: &M,
    out: &mut CFrame,
) -> Stepped
    requires { looked_up_by cursor.old.stage cursor.old.address ≡ Some address }
    ensures done { result ≢ Step.NoPlace → (signals signed : ℕ → Bool) (all : ℕ)
        → signals address ≡ is_signal
        → bits_at signed all (Some address) ≡ bits
        → IsStepBy (through_rows (T.target_of rows.now) (T.finds rows.now) signals signed
        (abi_of kept.now stack_pointer) (M.bytes memory.now) all) cursor.old cursor.new out.new }
    ensures lacks { result ≡ Step.NoPlace → LacksPlace (over_rows (T.target_of rows.now)
        (T.finds rows.now) (abi_of kept.now stack_pointer) (M.bytes memory.now))
        (registers_in cursor.old) (looked_up_by cursor.old.stage cursor.old.address) }
    ensures unwritten { result ≡ Step.NoPlace → (cursor.new ≡ cursor.old) × (out.new ≡ out.old) }
{
    let mut into = RegisterFile::none();
    let Ok(unwound) = rows.contents_into(
        kept,
        stack_pointer,
        address,
        &cursor.registers,
        memory,
        &mut into,
    ) else {
        return Stepped::NoPlace;
    };
    *out = c_frame_of(brief(cursor.address, unwound));
    match return_address(unwound) {
        Ok(next) => {
            cursor.registers = into;
            cursor.address = without_bits(bits, next);
            cursor.stage = stage_of_caller(is_signal);
        }
        Err(stop) => cursor.stage = stage_after(stop),
    }
    Stepped::Written
}

/// Writes the frame that a cursor is at to `out`, where the frame has no caller, and ends the walk.
fn end_uncovered(cursor: &mut CCursor, out: &mut CFrame)
    ensures cursor { cursor.new ≡ record {
      registers = cursor.old.registers;
      address = cursor.old.address;
      stage = stop_number Stop.NotCovered + 1;
      reserved = cursor.old.reserved;
    } }
    ensures frame { out.new ≡ cframe_of (record { address = cursor.old.address; caller = None }) }
{
    *out = c_frame_of(brief(cursor.address, None));
    cursor.stage = stage_after(Stop::NotCovered);
}

/// Writes the frame that a cursor is at to `out`, and moves the cursor to the frame's caller. This
/// is for steps that aren't usual ones. It works for any step, but is slower.
#[cold]
#[inline(never)]
pub(crate) fn other_step<M: Memory>(
    process: &Process,
    kept: &[u16],
    stack_pointer: Option<u16>,
    bits: u64,
    cursor: &mut CCursor,
    memory: &M,
    out: &mut CFrame,
) -> Stepped
    requires { cursor.old.stage ≤ CALLER }
    ensures done { result ≢ Step.NoPlace → IsStepBy (through_process (abi_of kept.now stack_pointer)
        (M.bytes memory.now) bits process.now) cursor.old cursor.new out.new }
    ensures lacks { result ≡ Step.NoPlace → LacksPlace (over_process (abi_of kept.now stack_pointer)
        (M.bytes memory.now) process.now) (registers_in cursor.old)
        (looked_up_by cursor.old.stage cursor.old.address) }
    ensures unwritten { result ≡ Step.NoPlace → (cursor.new ≡ cursor.old) × (out.new ≡ out.old) }
{
    let Some(address) = cursor.looked_up() else {
        end_uncovered(cursor, out);
        return Stepped::Written;
    };
    step_by_copy(
        process,
        process.is_signal_frame(address),
        kept,
        stack_pointer,
        signed_bits_at(process, bits, Some(address)),
        address,
        cursor,
        memory,
        out,
    )
}

/// Writes the frame that a cursor is at to `out`, and moves the cursor to the frame's caller.
#[inline(always)]
fn step_by<M: Memory>(
    process: &Process,
    kept: &KeptRegisters<'_>,
    stack_pointer: Option<u16>,
    bits: u64,
    cursor: &mut CCursor,
    memory: &M,
    out: &mut CFrame,
) -> Stepped
    requires { cursor.old.stage ≤ CALLER }
    ensures done { result ≢ Step.NoPlace → IsStepBy (through_process (abi_of kept.now stack_pointer)
        (M.bytes memory.now) bits process.now) cursor.old cursor.new out.new }
    ensures lacks { result ≡ Step.NoPlace → LacksPlace (over_process (abi_of kept.now stack_pointer)
        (M.bytes memory.now) process.now) (registers_in cursor.old)
        (looked_up_by cursor.old.stage cursor.old.address) }
    ensures unwritten { result ≡ Step.NoPlace → (cursor.new ≡ cursor.old) × (out.new ≡ out.old) }
{
    let file = &mut cursor.registers;
    if let Some(next) = usual_step(
        process,
        &mut NoHints,
        &mut ProcessSlot::new(),
        kept,
        stack_pointer,
        bits,
        cursor.address,
        cursor.stage,
        memory,
        file,
    ) {
        *out = next.frame;
        cursor.address = next.address;
        cursor.stage = next.stage;
        return Stepped::Written;
    }
    let kept = kept.numbers();
    other_step(process, kept, stack_pointer, bits, cursor, memory, out)
}

/// Calls `step_by` with the memory and the ABI of `state`, if the walk hasn't ended.
#[inline(never)]
fn step_of(process: &Process, cursor: &mut CCursor, state: &CState<'_>, out: &mut CFrame) -> u32
    ensures done { result ≡ DONE → IsStep (Some process.now) (abi_in state.now)
        (memory_of state.now) state.now.signed_bits cursor.old cursor.new out.new }
    ensures lacks { result ≡ NO_PLACE → LacksPlaceIn (Some process.now) (abi_in state.now)
        (memory_of state.now) cursor.old }
    ensures none { result ≡ NONE → CALLER < cursor.old.stage }
    ensures some { result ≢ NONE → cursor.old.stage ≤ CALLER }
    ensures codes { (result ≡ DONE) ⊎ (result ≡ NONE) ⊎ (result ≡ NO_PLACE) }
    ensures unwritten { result ≢ DONE → (cursor.new ≡ cursor.old) × (out.new ≡ out.old) }
{
    if cursor.stage > CALLER {
        return NONE;
    }
    let kept = KeptRegisters::for_one_step(state.kept);
    match step_by(
        process,
        &kept,
        state.pointer(),
        state.signed_bits,
        cursor,
        &state.memory(),
        out,
    ) {
        Stepped::Written => DONE,
        Stepped::NoPlace => NO_PLACE,
    }
}

/// Takes a step through a closed process, which has no modules: the frame has no caller.
pub(crate) fn step_uncovered(cursor: &mut CCursor, out: &mut CFrame) -> u32
    ensures done { (abi : Abi) (memory : ℕ → Option ℕ) (bits : ℕ) → result ≡ DONE
        → IsStep None abi memory bits cursor.old cursor.new out.new }
    ensures none { result ≡ NONE → CALLER < cursor.old.stage }
    ensures some { result ≢ NONE → cursor.old.stage ≤ CALLER }
    ensures codes { (result ≡ DONE) ⊎ (result ≡ NONE) }
    ensures unwritten { result ≢ DONE → (cursor.new ≡ cursor.old) × (out.new ≡ out.old) }
{
    if cursor.stage > CALLER {
        return NONE;
    }
    end_uncovered(cursor, out);
    DONE
}

/// Places a cursor at the frame at `address` with the registers of `state`. The frame is looked up
/// at its own address if `exact` isn't 0, and at its address minus 1 if it is.
#[unsafe(no_mangle)]
pub extern "C" fn dwcheck_cursor_init(
    cursor: &mut CCursor,
    address: u64,
    state: &CState<'_>,
    exact: u32,
    fault: &mut CFault,
) -> u32
    ensures accepted { result ≢ REFUSED → abi_fault_of state.now ≡ None }
    ensures done { result ≡ DONE → (cursor.new.stage ≤ CALLER)
        × (place_of cursor.new ≡ place_from exact address (registers_of state.now)) }
    ensures lacks { result ≡ NO_PLACE
        → (r : ℕ) × (PLACES ≤ r) × IsSome (registers_of state.now r) }
    ensures refused { result ≡ REFUSED → Reports IN_ABI (abi_fault_of state.now) fault.new }
    ensures codes { (result ≡ DONE) ⊎ (result ≡ REFUSED) ⊎ (result ≡ NO_PLACE) }
    ensures unwritten { result ≢ DONE → cursor.new ≡ cursor.old }
    ensures unreported { result ≢ REFUSED → fault.new ≡ fault.old }
{
    if let Some(why) = state.abi_fault() {
        *fault = report(IN_ABI, why);
        return REFUSED;
    }
    let registers = state.registers();
    if !has_places(&registers) {
        return NO_PLACE;
    }
    fill(&mut cursor.registers, &registers);
    cursor.address = address;
    cursor.stage = if exact == 0 { CALLER } else { EXACT };
    cursor.reserved = 0;
    DONE
}

/// Writes the frame that a cursor is at to `frame`, and moves the cursor to the frame's caller. The
/// memory and the ABI are those of `state`, the registers those of the cursor. Returns `NONE` if
/// the cursor's walk has ended, and `NO_PLACE` if a register of the caller with a number of 96 or
/// more would be known.
#[unsafe(no_mangle)]
pub extern "C" fn dwcheck_cursor_step(
    process: &LentProcess,
    cursor: &mut CCursor,
    state: &CState<'_>,
    frame: &mut FramePlace,
) -> u32
    requires { Reads frame.old.right process.now }
    ensures done { result ≡ DONE → IsStep (read_by frame.old.right) (abi_in state.now)
        (memory_of state.now) state.now.signed_bits cursor.old cursor.new frame.new.frame }
    ensures lacks { result ≡ NO_PLACE → LacksPlaceIn (read_by frame.old.right) (abi_in state.now)
        (memory_of state.now) cursor.old }
    ensures none { result ≡ NONE → CALLER < cursor.old.stage }
    ensures some { result ≢ NONE → cursor.old.stage ≤ CALLER }
    ensures codes { (result ≡ DONE) ⊎ (result ≡ NONE) ⊎ (result ≡ NO_PLACE) }
    ensures unwritten { result ≢ DONE
        → (cursor.new ≡ cursor.old) × (frame.new.frame ≡ frame.old.frame) }
    ensures same { loan_of frame.new.right ≡ loan_of frame.old.right }
{
    let Some(part) = process.take(&mut frame.right) else {
        return step_uncovered(cursor, &mut frame.frame);
    };
    let status = step_of(part.get(), cursor, state, &mut frame.frame);
    put(part, &mut frame.right);
    status
}

/// Steps of a cursor that begins as `dwcheck_backtrace` does give what that call writes to an
/// array: with as many slots as there are steps, all of them; with more, if the cursor's walk has
/// ended.
pub fn steps_are_a_backtrace()
    ensures fills { (held : Option ProcessState) (abi : Abi) (memory registers : ℕ → Option ℕ)
        (bits address : ℕ) (from to : Cursor) (frames old : List Slot)
        → place_of from ≡ first_place address registers
        → AreSteps (through_held abi memory bits held) from frames to → 1 ≤ length frames
        → length frames ≡ length old
        → IsBacktrace held abi memory bits registers address old (put_into frames old)
        (length frames) 0 }
    ensures ends { (held : Option ProcessState) (abi : Abi) (memory registers : ℕ → Option ℕ)
        (bits address : ℕ) (from to : Cursor) (frames old : List Slot) (why : Why)
        → place_of from ≡ first_place address registers
        → AreSteps (through_held abi memory bits held) from frames to → 1 ≤ length frames
        → length frames < length old → WalkHasEnded to why
        → IsBacktrace held abi memory bits registers address old (put_into frames old)
        (length frames) (stop_number why) }
{}
