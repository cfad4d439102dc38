//! Where a walk is that gives addresses alone: it keeps the stack pointer, and where rbp is.

ghost use Rattle.std.specs.Prelude.{◌≡◌, ◌≢◌, ◌+ℤ◌, ◌^◌, ◌<◌, ℕ, Option, pos, Some};
ghost use Rattle.dw_eval.specs.Numbers.{wrap};
ghost use Rattle.dw_rules.specs.Rules.{Row};
ghost use Rattle.dw_unwind.specs.Walks.{Place};
ghost use Rattle.dw_cached_rows.specs.CachedWalks.{IsAt, IsStep, NeedsMore, address_by, as_caller, caller_frame_pointer, frame_pointer_by_rbp, frame_pointer_in, word_at};
ghost use Rattle.dw_cached_rows.specs.PackedRows.{AreSmall, IsRealignedRowOf, IsRowOf, IsWalkedRowOf};
ghost use Rattle.dw_cached_rows.specs.declared.stack_place.Step.TheVariants as steps;

use crate::packed_row::{LAST, PackedRow, RBP, REALIGNED, RSP};
use crate::realigned_row::are_small;
use dw_bytes::{AddressSize, Order};
use dw_eval::{Memory, Width};

/// Where a walk is: at a frame, of whose registers it keeps two. It is plain data: any bytes are a
/// place.
#[repr(C)]
#[derive(Clone, Copy, Debug, PartialEq, Eq)]
pub struct StackPlace {
    /// The address of the frame.
    pub address: u64,
    /// The address that is looked up for it, plus 1: for a caller its return address. 0 if there is
    /// none.
    pub key: u64,
    /// The content of rsp.
    pub stack_pointer: u64,
    /// The content of rbp; or, if `is_saved` isn't 0, the address at which it is saved. It is read
    /// from there only where a CFA needs it.
    pub frame_pointer: u64,
    pub is_saved: u32,
    pub reserved: u32,
}

const _: () = prove!(size_of::<StackPlace>() == 40);

/// The form of a row whose return address is undefined, and whose CFA's register is rsp.
pub(crate) const LAST_BY_RSP: u16 = LAST as u16 + RSP;

/// The form of a row whose stack was realigned.
pub(crate) const REALIGNED_FORM: u16 = REALIGNED as u16;

/// What a row says of a frame.
#[derive(Clone, Copy, Debug, PartialEq, Eq)]
pub(crate) enum Step {
    /// Its caller is here.
    To(StackPlace),
    /// Its return address is undefined.
    ReturnUndefined,
    /// Its return address can't be read.
    ReturnUnreadable,
    /// Two registers, and what is known of memory, aren't enough to tell.
    Other,
}

/// The sum of a number and an offset, modulo 2^64.
#[inline(always)]
pub(crate) fn plus(number: u64, offset: i64) -> u64
    ensures { result ≡ wrap 64 (pos number +ℤ offset) }
{
    let width = Width {
        size: AddressSize::Eight,
    };
    width.offset(number, offset)
}

/// The 8 bytes at an address as a number. None if one of them isn't known.
#[inline(always)]
pub(crate) fn word<M: Memory>(memory: &M, address: u64) -> Option<u64>
    ensures { result ≡ word_at (M.bytes memory.now) address }
{
    if address > u64::MAX - 7 {
        return None;
    }
    memory.read(address, 8, Order::Little)
}

/// The content of rbp.
#[inline(always)]
fn content<M: Memory>(here: &StackPlace, memory: &M) -> Option<u64>
    ensures { result ≡ frame_pointer_in (M.bytes memory.now) here.now }
{
    if here.is_saved == 0 {
        Some(here.frame_pointer)
    } else {
        word(memory, here.frame_pointer)
    }
}

/// A place that is a caller's: its address is the one by which it is looked up.
#[inline(always)]
pub(crate) fn as_caller(place: &StackPlace) -> StackPlace
    ensures { result ≡ as_caller place.now }
{
    StackPlace {
        address: place.key,
        key: place.key,
        stack_pointer: place.stack_pointer,
        frame_pointer: place.frame_pointer,
        is_saved: place.is_saved,
        reserved: 0,
    }
}

/// The place of the caller of a frame with this CFA, whose return address this is.
#[inline(always)]
fn caller_place(row: &PackedRow, here: &StackPlace, cfa: u64, return_address: u64) -> StackPlace
    ensures address { result.address ≡ return_address }
    ensures key { result.key ≡ return_address }
    ensures stack_pointer { result.stack_pointer ≡ cfa }
    ensures frame_pointer { (memory : ℕ → Option ℕ) → frame_pointer_in memory result
        ≡ caller_frame_pointer memory cfa row.now.rbp here.now }
    ensures fits { here.now.frame_pointer < 2 ^ 64 }
{
    let (frame_pointer, is_saved) = if row.rbp == 0 {
        (here.frame_pointer, here.is_saved)
    } else {
        (plus(cfa, i64::from(row.rbp) * 8), 1)
    };
    StackPlace {
        address: return_address,
        key: return_address,
        stack_pointer: cfa,
        frame_pointer,
        is_saved,
        reserved: 0,
    }
}

/// What a row says of a frame whose CFA is known. The content of the CFA's register is `base`.
#[inline(always)]
fn step_with_cfa<M: Memory>(row: &PackedRow, here: &StackPlace, base: u64, memory: &M) -> Step
    requires { row.now.form < LAST }
    ensures goes { result ≢ steps.Other }
    ensures step { (p : Place) (full : Row) → IsAt (M.bytes memory.now) here.now p
        → IsRowOf row.now full → p.registers row.now.form ≡ Some base
        → IsStep (M.bytes memory.now) full p result }
{
    dw_unwind::laws::rows_without_expressions_have_callers();
    let cfa = plus(base, i64::from(row.cfa_offset));
    match word(memory, plus(cfa, -8)) {
        Some(return_address) => Step::To(caller_place(row, here, cfa, return_address)),
        None => Step::ReturnUnreadable,
    }
}

/// The place of the caller of a frame with this CFA, whose return address this is, and whose stack was
/// realigned. The content of rbp is `base`.
fn caller_of_realigned(
    row: &PackedRow,
    here: &StackPlace,
    base: u64,
    cfa: u64,
    return_address: u64,
) -> StackPlace
    ensures address { result.address ≡ return_address }
    ensures key { result.key ≡ return_address }
    ensures stack_pointer { result.stack_pointer ≡ cfa }
    ensures frame_pointer { (memory : ℕ → Option ℕ) → frame_pointer_in memory result
        ≡ frame_pointer_by_rbp memory base row.now.rbp here.now }
    ensures fits { here.now.frame_pointer < 2 ^ 64 }
{
    let (frame_pointer, is_saved) = if row.rbp == 0 {
        (here.frame_pointer, here.is_saved)
    } else {
        (plus(base, (i64::from(row.rbp) + 1) * 8), 1)
    };
    StackPlace {
        address: return_address,
        key: return_address,
        stack_pointer: cfa,
        frame_pointer,
        is_saved,
        reserved: 0,
    }
}

/// The CFA of a frame whose stack was realigned, and in which rbp has the content `base`. None if the
/// word isn't known that has it.
pub(crate) fn cfa_by_rbp<M: Memory>(row: &PackedRow, base: u64, memory: &M) -> Option<u64>
    ensures { result ≡ word_at (M.bytes memory.now) (address_by base row.now.cfa_offset) }
{
    word(memory, plus(base, i64::from(row.cfa_offset) * 8))
}

/// What a row says of a frame whose stack was realigned, and in which rbp has the content `base`.
fn step_by_rbp<M: Memory>(row: &PackedRow, here: &StackPlace, base: u64, memory: &M) -> Step
    ensures other { result ≡ steps.Other
        → word_at (M.bytes memory.now) (address_by base row.now.cfa_offset) ≡ None }
    ensures step { (p : Place) (full : Row) → IsAt (M.bytes memory.now) here.now p
        → IsRealignedRowOf row.now full
        → frame_pointer_in (M.bytes memory.now) here.now ≡ Some base
        → IsStep (M.bytes memory.now) full p result }
{
    dw_rules::laws::rules_under_abis();
    let Some(cfa) = cfa_by_rbp(row, base, memory) else {
        return Step::Other;
    };
    match word(memory, plus(cfa, -8)) {
        Some(return_address) => Step::To(caller_of_realigned(row, here, base, cfa, return_address)),
        None => Step::ReturnUnreadable,
    }
}

/// What a row says of a frame whose stack was realigned.
fn realigned_step<M: Memory>(row: &PackedRow, here: &StackPlace, memory: &M) -> Step
    requires { row.now.form ≡ REALIGNED }
    ensures other { result ≡ steps.Other → (base : ℕ) → AreSmall row.now
        → frame_pointer_in (M.bytes memory.now) here.now ≡ Some base
        → word_at (M.bytes memory.now) (address_by base row.now.cfa_offset) ≡ None }
    ensures row { result ≢ steps.Other → (full : Row) × IsRealignedRowOf row.now full }
    ensures step { (p : Place) (full : Row) → IsAt (M.bytes memory.now) here.now p
        → IsRealignedRowOf row.now full → IsStep (M.bytes memory.now) full p result }
{
    if !are_small(row) {
        return Step::Other;
    }
    match content(here, memory) {
        Some(base) => step_by_rbp(row, here, base, memory),
        None => Step::Other,
    }
}

/// What a row says of a frame that has no caller, since its return address is undefined.
fn last_step<M: Memory>(row: &PackedRow, here: &StackPlace, _memory: &M) -> Step
    requires { row.now.form ≡ LAST_BY_RSP }
    ensures goes { result ≢ steps.Other }
    ensures step { (p : Place) (full : Row) → IsAt (M.bytes _memory.now) here.now p
        → IsRowOf row.now full → IsStep (M.bytes _memory.now) full p result }
{
    dw_unwind::laws::rows_without_expressions_have_callers();
    let _ = (row.form, here.key);
    Step::ReturnUndefined
}

/// What a row says of a frame whose CFA is by rsp or by rbp, as nearly all are. `Other` of any other.
#[inline(always)]
pub(crate) fn usual_step<M: Memory>(row: &PackedRow, here: &StackPlace, memory: &M) -> Step
    ensures row { result ≢ steps.Other → (full : Row) × IsWalkedRowOf row.now full }
    ensures other { result ≡ steps.Other → row.now.form ≢ LAST_BY_RSP → row.now.form ≢ REALIGNED
        → NeedsMore (M.bytes memory.now) row.now here.now }
    ensures step { (p : Place) (full : Row) → IsAt (M.bytes memory.now) here.now p
        → IsWalkedRowOf row.now full → IsStep (M.bytes memory.now) full p result }
{
    match u16::from(row.form) {
        RSP => step_with_cfa(row, here, here.stack_pointer, memory),
        RBP => match content(here, memory) {
            Some(base) => step_with_cfa(row, here, base, memory),
            None => Step::Other,
        },
        _ => Step::Other,
    }
}

/// What a row says of a frame.
#[inline(always)]
pub(crate) fn step_by<M: Memory>(row: &PackedRow, here: &StackPlace, memory: &M) -> Step
    ensures row { result ≢ steps.Other → (full : Row) × IsWalkedRowOf row.now full }
    ensures other { result ≡ steps.Other → NeedsMore (M.bytes memory.now) row.now here.now }
    ensures step { (p : Place) (full : Row) → IsAt (M.bytes memory.now) here.now p
        → IsWalkedRowOf row.now full → IsStep (M.bytes memory.now) full p result }
{
    match u16::from(row.form) {
        LAST_BY_RSP => last_step(row, here, memory),
        REALIGNED_FORM => realigned_step(row, here, memory),
        _ => usual_step(row, here, memory),
    }
}
