//! Where a walk is that gives registers: it keeps the stack pointer and the callee-saved registers.

ghost use Rattle.std.specs.Prelude.{◌≡◌, ◌≢◌, ◌⊎◌, ◌+ℤ◌, ◌^◌, ◌<◌, Some, None, Option, MatchOption, pos};
ghost use Rattle.dw_eval.specs.Numbers.{wrap};
ghost use Rattle.dw_rules.specs.Rules.{Row};
ghost use Rattle.dw_unwind.specs.Walks.{Place};
ghost use Rattle.dw_cached_rows.specs.PackedRows.{IsRealignedRowOf, IsRowOf, IsWalkedRowOf};
ghost use Rattle.dw_cached_rows.specs.CachedWalks.{content_by_rbp};
ghost use Rattle.dw_cached_rows.specs.RegisterWalks.{IsAfter, IsAfterBy, IsRegisterStep, IsWith, LacksOneBy, LacksRealigned, LacksSaved, LacksWord, NeedsOthers, content_after, register_in};
ghost use Rattle.dw_cached_rows.specs.declared.register_place.RegisterStep.TheVariants as steps;

use crate::packed_row::{LAST, PackedRow, R12, R13, R14, R15, RBP, RBX, REALIGNED, RSP};
use crate::realigned_row::are_small;
use crate::stack_place::{LAST_BY_RSP, REALIGNED_FORM, cfa_by_rbp, plus, word};
use dw_eval::Memory;

/// Where a walk is: at a frame, with the contents of its stack pointer and its callee-saved
/// registers. It is plain data: any bytes are a place.
#[repr(C)]
#[derive(Clone, Copy, Debug, PartialEq, Eq)]
pub struct RegisterPlace {
    /// The address of the frame.
    pub address: u64,
    /// The address that is looked up for it, plus 1: for a caller its return address. 0 if there is
    /// none.
    pub key: u64,
    /// The content of rsp.
    pub stack_pointer: u64,
    pub rbx: u64,
    pub rbp: u64,
    pub r12: u64,
    pub r13: u64,
    pub r14: u64,
    pub r15: u64,
}

const _: () = prove!(size_of::<RegisterPlace>() == 72);

/// A frame: where the walk was at it, and its CFA.
#[repr(C)]
#[derive(Clone, Copy, Debug, PartialEq, Eq)]
pub struct FrameWithRegisters {
    pub place: RegisterPlace,
    pub cfa: u64,
}

const _: () = prove!(size_of::<FrameWithRegisters>() == 80);

/// What a row says of a frame.
#[derive(Clone, Copy, Debug, PartialEq, Eq)]
pub(crate) enum RegisterStep {
    /// Its caller is here. Its CFA is the caller's stack pointer.
    To(RegisterPlace),
    /// Its return address is undefined. Its CFA is this.
    ReturnUndefined(u64),
    /// Its return address can't be read. Its CFA is this.
    ReturnUnreadable(u64),
    /// These registers, and what is known of memory, aren't enough to tell.
    Other,
}

/// The content of the register `number`.
#[inline(always)]
fn register(here: &RegisterPlace, number: u16) -> Option<u64>
    ensures { result ≡ register_in here.now number }
{
    match number {
        RSP => Some(here.stack_pointer),
        RBP => Some(here.rbp),
        RBX => Some(here.rbx),
        R12 => Some(here.r12),
        R13 => Some(here.r13),
        R14 => Some(here.r14),
        R15 => Some(here.r15),
        _ => None,
    }
}

/// The content of a callee-saved register in the caller of a frame with this CFA. `words` says where
/// it is saved; if it is 0, the register keeps the content `here`.
#[inline(always)]
fn saved_content<M: Memory>(words: i8, cfa: u64, here: u64, memory: &M) -> Option<u64>
    ensures { result ≡ content_after (M.bytes memory.now) cfa words here }
{
    if words == 0 {
        Some(here)
    } else {
        word(memory, plus(cfa, i64::from(words) * 8))
    }
}

/// A number of 64 bits is below 2^64. This does nothing: only its contract is used.
#[inline(always)]
fn is_number(_number: u64)
    ensures { _number < 2 ^ 64 }
{}

/// The contents of registers are numbers of 64 bits. This does nothing: only its contract is used.
#[inline(always)]
fn are_numbers(here: &RegisterPlace)
    ensures rbx { here.now.rbx < 2 ^ 64 }
    ensures rbp { here.now.rbp < 2 ^ 64 }
    ensures r12 { here.now.r12 < 2 ^ 64 }
    ensures r13 { here.now.r13 < 2 ^ 64 }
    ensures r14 { here.now.r14 < 2 ^ 64 }
    ensures r15 { here.now.r15 < 2 ^ 64 }
{
    is_number(here.rbx);
    is_number(here.rbp);
    is_number(here.r12);
    is_number(here.r13);
    is_number(here.r14);
    is_number(here.r15);
}

/// Where the caller of a frame with this CFA is, whose return address this is. None if a register is
/// saved where memory isn't known.
#[inline(always)]
fn caller_place<M: Memory>(
    row: &PackedRow,
    here: &RegisterPlace,
    cfa: u64,
    return_address: u64,
    memory: &M,
) -> Option<RegisterPlace>
    ensures { MatchOption result (LacksSaved (M.bytes memory.now) cfa row.now here.now)
        (IsAfter (M.bytes memory.now) cfa return_address row.now here.now) }
{
    Some(RegisterPlace {
        address: return_address,
        key: return_address,
        stack_pointer: cfa,
        rbx: saved_content(row.rbx, cfa, here.rbx, memory)?,
        rbp: saved_content(row.rbp, cfa, here.rbp, memory)?,
        r12: saved_content(row.r12, cfa, here.r12, memory)?,
        r13: saved_content(row.r13, cfa, here.r13, memory)?,
        r14: saved_content(row.r14, cfa, here.r14, memory)?,
        r15: saved_content(row.r15, cfa, here.r15, memory)?,
    })
}

/// What a row says of a frame whose CFA is known. The content of the CFA's register is `base`.
#[inline(always)]
fn step_with_cfa<M: Memory>(
    row: &PackedRow,
    here: &RegisterPlace,
    base: u64,
    memory: &M,
) -> RegisterStep
    requires { row.now.form < LAST }
    ensures other { result ≡ steps.Other → LacksSaved (M.bytes memory.now)
        (wrap 64 (pos base +ℤ row.now.cfa_offset)) row.now here.now }
    ensures step { (p : Place) (full : Row) → IsWith here.now p
        → IsRowOf row.now full → p.registers row.now.form ≡ Some base
        → IsRegisterStep (M.bytes memory.now) full p result }
{
    dw_unwind::laws::rows_without_expressions_have_callers();
    are_numbers(here);
    let cfa = plus(base, i64::from(row.cfa_offset));
    let Some(return_address) = word(memory, plus(cfa, -8)) else {
        return RegisterStep::ReturnUnreadable(cfa);
    };
    match caller_place(row, here, cfa, return_address, memory) {
        Some(caller) => RegisterStep::To(caller),
        None => RegisterStep::Other,
    }
}

/// The content of a callee-saved register in the caller of a frame whose stack was realigned. `words`
/// says where it is saved, from the word after the one at `base`; if it is 0, the register keeps the
/// content `here`.
fn content_by_rbp<M: Memory>(words: i8, base: u64, here: u64, memory: &M) -> Option<u64>
    ensures { result ≡ content_by_rbp (M.bytes memory.now) base words here }
{
    if words == 0 {
        Some(here)
    } else {
        word(memory, plus(base, (i64::from(words) + 1) * 8))
    }
}

/// Where the caller of such a frame is, as `caller_place` says it of any other.
fn caller_of_realigned<M: Memory>(
    row: &PackedRow,
    here: &RegisterPlace,
    cfa: u64,
    return_address: u64,
    memory: &M,
) -> Option<RegisterPlace>
    ensures { MatchOption result (LacksOneBy (content_by_rbp (M.bytes memory.now) here.now.rbp) row.now here.now)
        (IsAfterBy (content_by_rbp (M.bytes memory.now) here.now.rbp) cfa return_address row.now here.now) }
{
    let base = here.rbp;
    Some(RegisterPlace {
        address: return_address,
        key: return_address,
        stack_pointer: cfa,
        rbx: content_by_rbp(row.rbx, base, here.rbx, memory)?,
        rbp: content_by_rbp(row.rbp, base, here.rbp, memory)?,
        r12: content_by_rbp(row.r12, base, here.r12, memory)?,
        r13: content_by_rbp(row.r13, base, here.r13, memory)?,
        r14: content_by_rbp(row.r14, base, here.r14, memory)?,
        r15: content_by_rbp(row.r15, base, here.r15, memory)?,
    })
}

/// What a row says of a frame whose stack was realigned.
fn realigned_step<M: Memory>(row: &PackedRow, here: &RegisterPlace, memory: &M) -> RegisterStep
    requires { row.now.form ≡ REALIGNED }
    ensures other { result ≡ steps.Other → LacksRealigned (M.bytes memory.now) row.now here.now }
    ensures row { result ≢ steps.Other → (full : Row) × IsRealignedRowOf row.now full }
    ensures step { (p : Place) (full : Row) → IsWith here.now p
        → IsRealignedRowOf row.now full → IsRegisterStep (M.bytes memory.now) full p result }
{
    dw_rules::laws::rules_under_abis();
    are_numbers(here);
    if !are_small(row) {
        return RegisterStep::Other;
    }
    let Some(cfa) = cfa_by_rbp(row, here.rbp, memory) else {
        return RegisterStep::Other;
    };
    let Some(return_address) = word(memory, plus(cfa, -8)) else {
        return RegisterStep::ReturnUnreadable(cfa);
    };
    match caller_of_realigned(row, here, cfa, return_address, memory) {
        Some(caller) => RegisterStep::To(caller),
        None => RegisterStep::Other,
    }
}

/// What a row says of a frame that has no caller, since its return address is undefined.
fn last_step<M: Memory>(row: &PackedRow, here: &RegisterPlace, _memory: &M) -> RegisterStep
    requires { row.now.form ≡ LAST_BY_RSP }
    ensures goes { result ≢ steps.Other }
    ensures step { (p : Place) (full : Row) → IsWith here.now p
        → IsRowOf row.now full → IsRegisterStep (M.bytes _memory.now) full p result }
{
    dw_unwind::laws::rows_without_expressions_have_callers();
    RegisterStep::ReturnUndefined(plus(here.stack_pointer, i64::from(row.cfa_offset)))
}

/// What a row says of a frame whose CFA is by rsp or by rbp, as nearly all are. `Other` of any other.
#[inline(always)]
pub(crate) fn usual_step<M: Memory>(
    row: &PackedRow,
    here: &RegisterPlace,
    memory: &M,
) -> RegisterStep
    ensures row { result ≢ steps.Other → (full : Row) × IsWalkedRowOf row.now full }
    ensures step { (p : Place) (full : Row) → IsWith here.now p
        → IsWalkedRowOf row.now full → IsRegisterStep (M.bytes memory.now) full p result }
{
    match u16::from(row.form) {
        RSP => step_with_cfa(row, here, here.stack_pointer, memory),
        RBP => step_with_cfa(row, here, here.rbp, memory),
        _ => RegisterStep::Other,
    }
}

/// What a row says of a frame.
#[inline(always)]
pub(crate) fn step_by<M: Memory>(row: &PackedRow, here: &RegisterPlace, memory: &M) -> RegisterStep
    ensures row { result ≢ steps.Other → (full : Row) × IsWalkedRowOf row.now full }
    ensures other { result ≡ steps.Other → NeedsOthers row.now here.now
        ⊎ LacksWord (M.bytes memory.now) row.now here.now
        ⊎ LacksRealigned (M.bytes memory.now) row.now here.now }
    ensures step { (p : Place) (full : Row) → IsWith here.now p
        → IsWalkedRowOf row.now full → IsRegisterStep (M.bytes memory.now) full p result }
{
    let form = u16::from(row.form);
    if form == LAST_BY_RSP {
        return last_step(row, here, memory);
    }
    if form == REALIGNED_FORM {
        return realigned_step(row, here, memory);
    }
    match register(here, form) {
        Some(base) => step_with_cfa(row, here, base, memory),
        None => RegisterStep::Other,
    }
}
