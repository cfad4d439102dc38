//! The usual steps of walks and cursors: nearly all steps are of this kind.

ghost use Rattle.std.specs.Prelude.{◌≡◌, ◌≤◌, ℕ, IfSome, MatchOption, Some, if◌then◌else◌};
ghost use Rattle.dw_process.specs.Processes.{is_signal_in, is_signed_in, is_signed_in_module};
ghost use Rattle.dw_rules.specs.Abi.{abi_of};
ghost use Rattle.dw_unwind.specs.Caller.{value};
ghost use Rattle.dw_unwind.specs.CallerViews.{answer_in};
ghost use Rattle.dw_unwind.specs.Contents.{UnwindsTo, contents_in};
ghost use Rattle.dw_c_types.specs.ProcessWalks.{bits_at, over_process, through_process, without_bits};
ghost use Rattle.dwcheck_c.specs.WalkCursors.{IsStepBy, looked_up_by};

use crate::backtrace::brief;
use crate::cursor::{CALLER, EXACT};
use dw_c_types::answer::{CFrame, c_frame_of};
use dw_eval::Memory;
use dw_process::{ModuleRows, Process, ProcessSlot, RowHints};
use dw_unwind::{KeptRegisters, RegisterFile, Unwound, return_address, step_in_place};

/// A frame that a usual step has left, and where the step has come to: the address of the frame's
/// caller, and the stage of a cursor there.
#[derive(Drop)]
pub(crate) struct UsualStep {
    pub(crate) frame: CFrame,
    pub(crate) address: u64,
    pub(crate) stage: u32,
}

/// The address that is looked up for a frame at `address`, by the stage of a cursor at the frame;
/// none if there is no address before it.
#[inline(always)]
pub(crate) fn looked_up_at(stage: u32, address: u64) -> Option<u64>
    ensures { result ≡ looked_up_by stage address }
{
    if stage == EXACT {
        Some(address)
    } else {
        address.checked_sub(1)
    }
}

/// A return address without the bits that sign it.
#[inline(always)]
pub(crate) fn without_bits(bits: u64, address: u64) -> u64
    ensures { result ≡ without_bits bits address }
{
    address & !bits
}

/// The stage of a cursor at the caller of a frame, which is a signal frame or not.
#[inline(always)]
pub(crate) fn stage_of_caller(is_signal_frame: bool) -> u32
    ensures { result ≡ (if is_signal_frame then EXACT else CALLER) }
{
    if is_signal_frame { EXACT } else { CALLER }
}

/// The bits to take off a return address: `bits` if it is signed at this address of the module, and
/// none if it isn't. The search is a call of its own, so that walks whose return addresses have no
/// signature save no registers for it.
#[cold]
#[inline(never)]
fn searched_bits(module: &ModuleRows<'_>, bits: u64, address: u64) -> u64
    ensures { result ≡ bits_at (is_signed_in_module (Some module.now)) bits (Some address) }
{
    if module.is_signed(address) { bits } else { 0 }
}

/// What `searched_bits` returns. If `bits` is 0, nothing is searched.
#[inline(always)]
fn signed_bits_in(module: &ModuleRows<'_>, bits: u64, address: u64) -> u64
    ensures { result ≡ bits_at (is_signed_in_module (Some module.now)) bits (Some address) }
{
    if bits == 0 {
        return 0;
    }
    searched_bits(module, bits, address)
}

/// The bits to take off the return address of a frame for which `looked_up` is looked up: `bits` if
/// the return address is signed there, and none if it isn't.
pub(crate) fn signed_bits_at(process: &Process, bits: u64, looked_up: Option<u64>) -> u64
    ensures { result ≡ bits_at (is_signed_in process.now) bits looked_up }
{
    match looked_up {
        Some(address) if bits != 0 && process.is_signed(address) => bits,
        _ => 0,
    }
}

/// Takes a usual step (`step_in_place`) with the rows of the module that has the address. Also
/// returns whether the frame is a signal frame, and the bits to take off its return address. None
/// if the step isn't a usual one, or there is no caller; then no content has changed.
#[inline(always)]
fn step_in_module<H: RowHints, M: Memory>(
    process: &Process,
    hints: &mut H,
    slot: &mut ProcessSlot,
    kept: &KeptRegisters<'_>,
    stack_pointer: Option<u16>,
    bits: u64,
    address: u64,
    memory: &M,
    file: &mut RegisterFile,
) -> Option<(Unwound, bool, u64)>
    ensures steps { MatchOption result (file.new ≡ file.old) (λ stepped. UnwindsTo
        (over_process (abi_of kept.now stack_pointer) (M.bytes memory.now) process.now)
        (contents_in file.old) (Some address) (Some stepped.0) (contents_in file.new)) }
    ensures known { IfSome result (λ stepped. (next : ℕ)
        × (answer_in (stepped.0).return_address ≡ value next)) }
    ensures signal { IfSome result (λ stepped. stepped.1 ≡ is_signal_in process.now address) }
    ensures bits { IfSome result
        (λ stepped. stepped.2 ≡ bits_at (is_signed_in process.now) bits (Some address)) }
{
    dw_process::laws::the_module_of_the_address_unwinds();
    slot.hint = hints.hint(address);
    let module = process.module_near(address, slot)?;
    let unwound = step_in_place(&module, slot, kept, stack_pointer, address, memory, file);
    hints.set_hint(address, slot.hint);
    let bits = signed_bits_in(&module, bits, address);
    Some((unwound?, module.is_signal_frame(address), bits))
}

/// Takes a step from the frame at `address`, if the step is a usual one (`step_in_place`). `stage`
/// is that of a cursor at the frame. The contents in `file` become those of the caller's registers.
/// If the step isn't a usual one, the result is none, and no content has changed. The address and
/// the stage are passed by value so that a walk has them in registers: each step has to wait for
/// the address that the one before has found.
#[inline(always)]
pub(crate) fn usual_step<H: RowHints, M: Memory>(
    process: &Process,
    hints: &mut H,
    slot: &mut ProcessSlot,
    kept: &KeptRegisters<'_>,
    stack_pointer: Option<u16>,
    bits: u64,
    address: u64,
    stage: u32,
    memory: &M,
    file: &mut RegisterFile,
) -> Option<UsualStep>
    ensures steps { (reserved : ℕ) → MatchOption result (file.new ≡ file.old) (λ step. IsStepBy
        (through_process (abi_of kept.now stack_pointer) (M.bytes memory.now) bits process.now)
        (record {
          registers = file.old;
          address = address;
          stage = stage;
          reserved = reserved;
        })
        (record {
          registers = file.new;
          address = step.address;
          stage = step.stage;
          reserved = reserved;
        }) step.frame) }
    ensures goes { IfSome result (λ step. step.stage ≤ CALLER) }
{
    let looked_up = looked_up_at(stage, address)?;
    let (unwound, is_signal_frame, bits) = step_in_module(
        process,
        hints,
        slot,
        kept,
        stack_pointer,
        bits,
        looked_up,
        memory,
        file,
    )?;
    match return_address(Some(unwound)) {
        Ok(next) => Some(UsualStep {
            frame: c_frame_of(brief(address, Some(unwound))),
            address: without_bits(bits, next),
            stage: stage_of_caller(is_signal_frame),
        }),
        Err(_) => unreachable!(),
    }
}
