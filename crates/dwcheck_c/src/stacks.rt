//! The C calls that find the row of an address, the caller of a frame, and the frames of a stack.

ghost use Rattle.std.specs.Prelude.{◌≡◌, ◌≢◌, ◌≤◌, ◌⊎◌, None};
ghost use Rattle.std.specs.Bool.{OnTrue, OnFalse};
ghost use Rattle.std.specs.Option.{IsSomeAnd};
ghost use Rattle.dw_rules.specs.AbiViews.{roles_of};
ghost use Rattle.dw_c_types.specs.Callers.{IsCaller, Unwinds};
ghost use Rattle.dw_c_types.specs.Faults.{Reports};
ghost use Rattle.dw_c_types.specs.Frames.{IsBacktrace, stop_number};
ghost use Rattle.dw_c_types.specs.Machine.{abi_fault_of, abi_in, memory_of, registers_of};
ghost use Rattle.dw_c_types.specs.Rows.{IsRowOf, found_in};
ghost use Rattle.dwcheck_c.specs.Lent.{Reads, loan_of, read_by};

use crate::backtrace::{write_backtrace, write_uncovered};
use crate::process_reader::{LentProcess, put};
use crate::read_right::Right;
use dw_c_types::answer::{CFrame, stop_code};
use dw_c_types::callers::{CCaller, CRegister, caller_through, write_caller};
use dw_c_types::fault::{CFault, IN_ABI, report};
use dw_c_types::row::{CRow, CRule, write_row, write_usual_row};
use dw_c_types::state::CState;
use dw_c_types::status::{DONE, NONE, REFUSED};
use dw_process::{NoHints, Process, RowCache, RowHints};
use dw_rules::Abi;
use dw_unwind::{PackedRegisters, Stop};

/// Where a row is written, with a part of the right to read the process, which takes no bytes: C
/// passes a pointer to a row.
#[repr(C)]
pub struct RowPlace {
    row: CRow,
    right: Right,
}

const _: () = prove!(size_of::<RowPlace>() == size_of::<CRow>());

/// Where a caller is written, with a part of the right to read the process.
#[repr(C)]
pub struct CallerPlace {
    caller: CCaller,
    right: Right,
}

const _: () = prove!(size_of::<CallerPlace>() == size_of::<CCaller>());

/// Where a number of frames is written, with a part of the right to read the process.
#[repr(C)]
pub struct CountPlace {
    count: usize,
    right: Right,
}

const _: () = prove!(size_of::<CountPlace>() == size_of::<usize>());

/// Writes the row of `address` to `row`, and its rules to `rules`, if it is a usual one
/// (`Process::usual_row_for_address`, `write_usual_row`). Otherwise returns false, and writes
/// nothing. All that this calls is inlined into `dwcheck_row_at`, but for what writes rules to
/// fewer than 128 slots.
#[inline(always)]
fn write_usual(process: &Process, address: u64, row: &mut CRow, rules: &mut [CRule]) -> bool
    ensures row { OnTrue result (IsSomeAnd (found_in (Some process.now) address)
        (λ found. IsRowOf found row.new rules.old rules.new)) }
    ensures few { OnTrue result (row.new.count ≤ 128) }
    ensures unwritten { OnFalse result ((row.new ≡ row.old) × (rules.new ≡ rules.old)) }
{
    let Some(found) = process.usual_row_for_address(address) else {
        return false;
    };
    write_usual_row(&found, row, rules)
}

/// Does what `dwcheck_row_at` does, for any row. Returns `DONE` or `NONE`.
#[inline(never)]
fn write_any(process: &Process, address: u64, row: &mut CRow, rules: &mut [CRule]) -> u32
    ensures row { result ≡ DONE → IsSomeAnd (found_in (Some process.now) address)
        (λ found. IsRowOf found row.new rules.old rules.new) }
    ensures few { result ≡ DONE → row.new.count ≤ 128 }
    ensures none { result ≡ NONE → found_in (Some process.now) address ≡ None }
    ensures codes { (result ≡ DONE) ⊎ (result ≡ NONE) }
    ensures unwritten { result ≡ NONE → (row.new ≡ row.old) × (rules.new ≡ rules.old) }
{
    match process.row_for_address(address) {
        Some(found) => {
            write_row(&found, row, rules);
            DONE
        }
        None => NONE,
    }
}

/// Finds the row of `address`, an address as loaded. Writes the row to `row`, and the rules of its
/// registers to `rules`, as many as fit.
#[unsafe(no_mangle)]
pub extern "C" fn dwcheck_row_at(
    process: &LentProcess,
    address: u64,
    row: &mut RowPlace,
    rules: &mut [CRule],
) -> u32
    requires { Reads row.old.right process.now }
    ensures row { result ≡ DONE → IsSomeAnd (found_in (read_by row.old.right) address)
        (λ found. IsRowOf found row.new.row rules.old rules.new) }
    ensures few { result ≡ DONE → row.new.row.count ≤ 128 }
    ensures none { result ≡ NONE → found_in (read_by row.old.right) address ≡ None }
    ensures codes { (result ≡ DONE) ⊎ (result ≡ NONE) }
    ensures unwritten { result ≡ NONE → (row.new.row ≡ row.old.row) × (rules.new ≡ rules.old) }
    ensures same { loan_of row.new.right ≡ loan_of row.old.right }
{
    let Some(part) = process.take(&mut row.right) else {
        return NONE;
    };
    let status = if write_usual(part.get(), address, &mut row.row, rules) {
        DONE
    } else {
        write_any(part.get(), address, &mut row.row, rules)
    };
    put(part, &mut row.right);
    status
}

/// Finds the caller of the frame at `address` from the registers and the memory of `state`. Writes
/// the caller to `out`, and its registers to `slots`, as many as fit. Returns false, and writes
/// nothing, if no module has a row for `address`. This function isn't inlined, so its list of
/// registers takes no more stack than `CState::set_abi` took before.
#[inline(never)]
fn write_caller_of(
    process: &Process,
    abi: &Abi,
    address: u64,
    state: &CState<'_>,
    out: &mut CCaller,
    slots: &mut [CRegister],
) -> bool
    ensures written { OnTrue result (IsCaller (Some process.now) (roles_of abi.now) (memory_of state.now)
        (registers_of state.now) address out.new slots.old slots.new) }
    ensures few { OnTrue result (out.new.count ≤ 256) }
    ensures none { OnFalse result (Unwinds (Some process.now) (roles_of abi.now) (memory_of state.now)
        (registers_of state.now) address None) }
    ensures unwritten { OnFalse result ((out.new ≡ out.old) × (slots.new ≡ slots.old)) }
{
    let mut found = PackedRegisters::none();
    match caller_through(
        process,
        abi,
        address,
        &state.registers(),
        &state.memory(),
        &mut found,
    ) {
        Some(unwound) => {
            write_caller(unwound, &found, out, slots);
            true
        }
        None => false,
    }
}

/// Calls `write_caller_of` if `process` is open. A closed process has no modules.
fn write_caller_within(
    process: &LentProcess,
    right: &mut Right,
    abi: &Abi,
    address: u64,
    state: &CState<'_>,
    out: &mut CCaller,
    slots: &mut [CRegister],
) -> bool
    requires { Reads right.old process.now }
    ensures written { OnTrue result (IsCaller (read_by right.old) (roles_of abi.now)
        (memory_of state.now) (registers_of state.now) address out.new slots.old slots.new) }
    ensures few { OnTrue result (out.new.count ≤ 256) }
    ensures none { OnFalse result (Unwinds (read_by right.old) (roles_of abi.now)
        (memory_of state.now) (registers_of state.now) address None) }
    ensures unwritten { OnFalse result ((out.new ≡ out.old) × (slots.new ≡ slots.old)) }
    ensures same { loan_of right.new ≡ loan_of right.old }
{
    match process.take(right) {
        Some(part) => {
            let is_written = write_caller_of(part.get(), abi, address, state, out, slots);
            put(part, right);
            is_written
        }
        None => false,
    }
}

/// Finds the caller of the frame at `address`, an address as loaded. Writes the caller to `caller`,
/// and its registers to `registers`, as many as fit.
#[unsafe(no_mangle)]
pub extern "C" fn dwcheck_unwind(
    process: &LentProcess,
    address: u64,
    state: &CState<'_>,
    caller: &mut CallerPlace,
    registers: &mut [CRegister],
    fault: &mut CFault,
) -> u32
    requires { Reads caller.old.right process.now }
    ensures accepted { result ≢ REFUSED → abi_fault_of state.now ≡ None }
    ensures done { result ≡ DONE → IsCaller (read_by caller.old.right) (abi_in state.now)
        (memory_of state.now) (registers_of state.now) address caller.new.caller registers.old
        registers.new }
    ensures few { result ≡ DONE → caller.new.caller.count ≤ 256 }
    ensures none { result ≡ NONE → Unwinds (read_by caller.old.right) (abi_in state.now)
        (memory_of state.now) (registers_of state.now) address None }
    ensures refused { result ≡ REFUSED → Reports IN_ABI (abi_fault_of state.now) fault.new }
    ensures codes { (result ≡ DONE) ⊎ (result ≡ NONE) ⊎ (result ≡ REFUSED) }
    ensures unwritten { result ≢ DONE
        → (caller.new.caller ≡ caller.old.caller) × (registers.new ≡ registers.old) }
    ensures unreported { result ≢ REFUSED → fault.new ≡ fault.old }
    ensures same { loan_of caller.new.right ≡ loan_of caller.old.right }
{
    if let Some(why) = state.abi_fault() {
        *fault = report(IN_ABI, why);
        return REFUSED;
    }
    let mut abi = Abi::none();
    state.set_abi(&mut abi);
    let out = &mut caller.caller;
    if write_caller_within(
        process,
        &mut caller.right,
        &abi,
        address,
        state,
        out,
        registers,
    ) {
        DONE
    } else {
        NONE
    }
}

/// Walks up a stack from the frame at `address` with the registers and the memory of `state`, and
/// writes its frames to `frames`, as many as fit. Returns the number of frames written, and why
/// there are no more.
fn frames_of<H: RowHints>(
    process: &Process,
    hints: &mut H,
    address: u64,
    state: &CState<'_>,
    frames: &mut [CFrame],
) -> (usize, Stop)
    requires { abi_fault_of state.now ≡ None }
    ensures { IsBacktrace (Some process.now) (abi_in state.now) (memory_of state.now)
        state.now.signed_bits (registers_of state.now) address frames.old frames.new result.0
        (stop_number result.1) }
{
    write_backtrace(
        process,
        hints,
        state.kept,
        state.pointer(),
        state.signed_bits,
        address,
        &state.registers(),
        &state.memory(),
        frames,
    )
}

/// Calls `frames_of` if `process` is open. A closed process has no modules.
fn frames_in<H: RowHints>(
    process: &LentProcess,
    right: &mut Right,
    hints: &mut H,
    address: u64,
    state: &CState<'_>,
    frames: &mut [CFrame],
) -> (usize, Stop)
    requires right { Reads right.old process.now }
    requires abi { abi_fault_of state.now ≡ None }
    ensures frames { IsBacktrace (read_by right.old) (abi_in state.now) (memory_of state.now)
        state.now.signed_bits (registers_of state.now) address frames.old frames.new result.0
        (stop_number result.1) }
    ensures same { loan_of right.new ≡ loan_of right.old }
{
    match process.take(right) {
        Some(part) => {
            let written = frames_of(part.get(), hints, address, state, frames);
            put(part, right);
            written
        }
        None => write_uncovered(address, frames),
    }
}

/// Walks up a stack as `dwcheck_backtrace` does. `hints` affects only the time.
#[inline(always)]
fn backtrace_with_hints<H: RowHints>(
    process: &LentProcess,
    hints: &mut H,
    address: u64,
    state: &CState<'_>,
    frames: &mut [CFrame],
    count: &mut CountPlace,
    stop: &mut u32,
    fault: &mut CFault,
) -> u32
    requires { Reads count.old.right process.now }
    ensures accepted { result ≢ REFUSED → abi_fault_of state.now ≡ None }
    ensures done { result ≡ DONE → IsBacktrace (read_by count.old.right) (abi_in state.now)
        (memory_of state.now) state.now.signed_bits (registers_of state.now) address frames.old
        frames.new count.new.count stop.new }
    ensures refused { result ≡ REFUSED → Reports IN_ABI (abi_fault_of state.now) fault.new }
    ensures codes { (result ≡ DONE) ⊎ (result ≡ REFUSED) }
    ensures unwritten { result ≡ REFUSED → (frames.new ≡ frames.old)
        × (count.new.count ≡ count.old.count) × (stop.new ≡ stop.old)
        × (hints.new ≡ hints.old) }
    ensures unreported { result ≡ DONE → fault.new ≡ fault.old }
    ensures same { loan_of count.new.right ≡ loan_of count.old.right }
{
    if let Some(why) = state.abi_fault() {
        *fault = report(IN_ABI, why);
        return REFUSED;
    }
    let (found, why) = frames_in(process, &mut count.right, hints, address, state, frames);
    count.count = found;
    *stop = stop_code(why);
    DONE
}

/// Walks up a stack from the frame at `address`. Writes its frames to `frames`, as many as fit, the
/// number of frames written to `count`, and why there are no more to `stop`.
#[unsafe(no_mangle)]
pub extern "C" fn dwcheck_backtrace(
    process: &LentProcess,
    address: u64,
    state: &CState<'_>,
    frames: &mut [CFrame],
    count: &mut CountPlace,
    stop: &mut u32,
    fault: &mut CFault,
) -> u32
    requires { Reads count.old.right process.now }
    ensures accepted { result ≢ REFUSED → abi_fault_of state.now ≡ None }
    ensures done { result ≡ DONE → IsBacktrace (read_by count.old.right) (abi_in state.now)
        (memory_of state.now) state.now.signed_bits (registers_of state.now) address frames.old
        frames.new count.new.count stop.new }
    ensures refused { result ≡ REFUSED → Reports IN_ABI (abi_fault_of state.now) fault.new }
    ensures codes { (result ≡ DONE) ⊎ (result ≡ REFUSED) }
    ensures unwritten { result ≡ REFUSED → (frames.new ≡ frames.old)
        × (count.new.count ≡ count.old.count) × (stop.new ≡ stop.old) }
    ensures unreported { result ≡ DONE → fault.new ≡ fault.old }
    ensures same { loan_of count.new.right ≡ loan_of count.old.right }
{
    let hints = &mut NoHints;
    backtrace_with_hints(process, hints, address, state, frames, count, stop, fault)
}

/// Does what `dwcheck_backtrace` does, whatever `cache` holds. In a usual step, a row that the
/// cache says where to find isn't searched for, and the place of one that was searched for is
/// written to the cache.
#[unsafe(no_mangle)]
pub extern "C" fn dwcheck_backtrace_cached(
    process: &LentProcess,
    address: u64,
    state: &CState<'_>,
    frames: &mut [CFrame],
    count: &mut CountPlace,
    stop: &mut u32,
    cache: &mut RowCache,
    fault: &mut CFault,
) -> u32
    requires { Reads count.old.right process.now }
    ensures accepted { result ≢ REFUSED → abi_fault_of state.now ≡ None }
    ensures done { result ≡ DONE → IsBacktrace (read_by count.old.right) (abi_in state.now)
        (memory_of state.now) state.now.signed_bits (registers_of state.now) address frames.old
        frames.new count.new.count stop.new }
    ensures refused { result ≡ REFUSED → Reports IN_ABI (abi_fault_of state.now) fault.new }
    ensures codes { (result ≡ DONE) ⊎ (result ≡ REFUSED) }
    ensures unwritten { result ≡ REFUSED → (frames.new ≡ frames.old)
        × (count.new.count ≡ count.old.count) × (stop.new ≡ stop.old)
        × (cache.new ≡ cache.old) }
    ensures unreported { result ≡ DONE → fault.new ≡ fault.old }
    ensures same { loan_of count.new.right ≡ loan_of count.old.right }
{
    backtrace_with_hints(process, cache, address, state, frames, count, stop, fault)
}
