//! The C calls that keep rows for walks that recur, and walk with them.

ghost use Rattle.std.specs.Prelude.{◌+◌, ◌^◌, ◌≡◌, ◌≢◌, ◌↔◌, ◌%◌, ◌<◌, ◌≤◌, ◌⊎◌, ℕ, IfSome, List, MatchOption, None, Ok, Option, Err, drop, length, take, false, Some};
ghost use Rattle.dw_bytes.specs.declared.fault.Fault.{Fault as Why};
ghost use Rattle.dw_c_types.specs.Faults.{cfault_of};
ghost use Rattle.dw_c_types.specs.Frames.{stop_number};
ghost use Rattle.dw_c_types.specs.Machine.{byte_in};
ghost use Rattle.dw_bytes.specs.declared.target.Target.{Target as OfTarget};
ghost use Rattle.dw_eh_frame.specs.Records.{EhFde as Fde};
ghost use Rattle.dw_rules.specs.Rules.{Row};
ghost use Rattle.dw_unwind.specs.Walks.{AreFrames, Place, WalkedFrame, address_before, over_rows};
ghost use Rattle.dwcheck_c.specs.declared.in_place.CHeader.{CHeader as Header};
ghost use Rattle.dwcheck_c.specs.declared.module.CModule.{CModule as Module};
ghost use Rattle.dw_eh_frame.specs.Views.{eh_fde_of};
ghost use Rattle.dw_unwind.specs.declared.frames.Stop.{Stop as Reason};
ghost use Rattle.dw_cached_rows.specs.CachedRows.{AreRowsOf, Holds, HoldsInSet, IsKept, IsMissing, KnowsItsAddress, entry_at};
ghost use Rattle.dw_cached_rows.specs.declared.packed_row.PackedRow.{PackedRow};
ghost use Rattle.dw_cached_rows.specs.declared.packed_row.TheConstants.{RETURN_ADDRESS};
ghost use Rattle.dw_compact_rows.specs.CompactRuns.{row_of_compact};
ghost use Rattle.dw_cached_rows.specs.PackedRows.{little_64};
ghost use Rattle.dw_cached_rows.specs.CachedWalks.{EndsAfter, IsOther, Passes, over_cached, x86_64};
ghost use Rattle.dw_cached_rows.specs.RegisterWalks.{EndsWithRegisters, IsOtherWith, IsWith, WalksWith, register_in};
ghost use Rattle.dw_unwind.specs.Contents.{contents_in};
ghost use Rattle.dwcheck_c.specs.WalkCursors.{looked_up_by, place_of};
ghost use Rattle.dwcheck_c.specs.CachedFills.{AreIn, CanBeKept, FindsConfirmed, FindsIn, GoesOn, IsFilled, IsOfFill, LacksOne, end_number};
ghost use Rattle.dwcheck_c.specs.InPlaceLookUps.{HasRow, IsLookedUp, IsUnusable, IsUsable};

use crate::cursor::{CALLER, CCursor, EXACT};
use crate::in_place::{CHeader, FoundInPlace, look_up, look_up_compact, no_answer};
use crate::module::CModule;
use dw_bytes::{AddressSize, Order, Target};
use dw_c_types::answer::stop_code;
use dw_c_types::fault::{CFault, IN_FRAME};
use dw_c_types::memory::{Blocks, CBlock};
use dw_c_types::status::{DONE, NO_PLACE, NO_ROOM, NONE, REFUSED};
use dw_cached_rows::{
    CachedRows, FrameWithRegisters, R12, R13, R14, R15, RBP, RBX, RSP, RegisterPlace, SLOTS,
    StackPlace, WalkEnd,
};
use dw_compact_rows::CompactRow;
use dw_eh_frame::EhFde;
use dw_eval::Registers;
use dw_in_place::{CompactAnswer, LookUpMemory};
use dw_unwind::{RegisterFile, Stop};
use std::alloc::Global;

/// Why a walk with cached rows stops: the cache has no row for the frame that it is at.
pub const MISSING: u32 = 5;

/// The frame that it is at takes a step with all registers.
pub const OTHER: u32 = 6;

/// C's number for why a walk ends.
#[inline(always)]
fn end_code(end: WalkEnd) -> u32
    ensures { result ≡ end_number end }
{
    match end {
        WalkEnd::Full => stop_code(Stop::Limit),
        WalkEnd::Missing => MISSING,
        WalkEnd::Other => OTHER,
        WalkEnd::ReturnUndefined => stop_code(Stop::ReturnUndefined),
        WalkEnd::ReturnUnreadable => stop_code(Stop::ReturnUnreadable),
    }
}

/// The target whose stacks are walked with cached rows.
const LITTLE_64: Target = Target {
    order: Order::Little,
    address_size: AddressSize::Eight,
};

/// Keeps a row that was looked up.
fn keep_row(rows: &mut CachedRows, slot: u8, address: u64, found: &FoundInPlace<'_, '_>) -> u32
    requires { slot < SLOTS }
    ensures held { result ≡ DONE → HoldsInSet rows.new.rows slot address found.now.row
        × CanBeKept found.now.target (eh_fde_of found.now.fde) }
    ensures only { (other at : ℕ) (held : Row) → Holds rows.new.rows other at held
        → Holds rows.old.rows other at held ⊎ (CanBeKept found.now.target (eh_fde_of found.now.fde)
        × IsKept slot address found.now.row RETURN_ADDRESS false other at held) }
    ensures dropped { result ≡ NO_PLACE → (other at : ℕ) (held : Row)
        → Holds rows.new.rows other at held → Holds rows.old.rows other at held }
    ensures one { (index : ℕ) × ((other : ℕ) → other ≢ index
        → entry_at rows.new.rows other ≡ entry_at rows.old.rows other) }
    ensures codes { (result ≡ DONE) ⊎ (result ≡ NO_PLACE) }
{
    if found.target != LITTLE_64 {
        return NO_PLACE;
    }
    let cie = &found.fde.cie;
    let column = cie.cie.return_address_register;
    if rows.keep(
        slot,
        address,
        &found.row,
        column,
        cie.augmentation.is_signal,
    ) {
        DONE
    } else {
        NO_PLACE
    }
}

/// Keeps a compact row that was looked up.
fn keep_compact_row(
    rows: &mut CachedRows,
    slot: u8,
    address: u64,
    target: Target,
    row: &CompactRow,
    fde: &EhFde<'_>,
) -> u32
    requires { slot < SLOTS }
    ensures held { result ≡ DONE → HoldsInSet rows.new.rows slot address (row_of_compact row.now)
        × CanBeKept target (eh_fde_of fde.now) }
    ensures only { (other at : ℕ) (held : Row) → Holds rows.new.rows other at held
        → Holds rows.old.rows other at held ⊎ (CanBeKept target (eh_fde_of fde.now)
        × IsKept slot address (row_of_compact row.now) RETURN_ADDRESS false other at held) }
    ensures dropped { result ≡ NO_PLACE → (other at : ℕ) (held : Row)
        → Holds rows.new.rows other at held → Holds rows.old.rows other at held }
    ensures one { (index : ℕ) × ((other : ℕ) → other ≢ index
        → entry_at rows.new.rows other ≡ entry_at rows.old.rows other) }
    ensures codes { (result ≡ DONE) ⊎ (result ≡ NO_PLACE) }
{
    if target != LITTLE_64 {
        return NO_PLACE;
    }
    let column = fde.cie.cie.return_address_register;
    if rows.keep_compact(slot, address, row, column, fde.cie.augmentation.is_signal) {
        DONE
    } else {
        NO_PLACE
    }
}

/// The slot that a number of C's names.
fn slot_of(slot: u32) -> u8
    ensures { result ≡ slot % SLOTS }
{
    (slot % u32::from(SLOTS)) as u8
}

/// Does what `dwcheck_rows_fill` does, by a look-up that keeps all rules. It takes up to 53 KB of stack.
#[inline(never)]
fn fill_with_any_row(
    alloc: Global,
    rows: &mut CachedRows,
    slot: u32,
    module: &CModule<'_>,
    header: &CHeader<'_>,
    address: u64,
    fault: &mut CFault,
) -> u32
    ensures done { result ≡ DONE
        → IsFilled module.now header.now (slot % SLOTS) address rows.new.rows }
    ensures only { (other at : ℕ) (held : Row) → Holds rows.new.rows other at held
        → Holds rows.old.rows other at held
        ⊎ IsOfFill module.now header.now (slot % SLOTS) address other at held }
    ensures place { result ≡ NO_PLACE → (target : OfTarget) × (fde : Fde) × (row : Row)
        × HasRow module.now header.now address target fde row }
    ensures dropped { result ≡ NO_PLACE → (other at : ℕ) (held : Row)
        → Holds rows.new.rows other at held → Holds rows.old.rows other at held }
    ensures one { (index : ℕ) × ((other : ℕ) → other ≢ index
        → entry_at rows.new.rows other ≡ entry_at rows.old.rows other) }
    ensures none { result ≡ NONE → IsLookedUp module.now header.now address (Ok None) }
    ensures refused { result ≡ REFUSED → (why : Why)
        × IsLookedUp module.now header.now address (Err why) × (fault.new ≡ cfault_of IN_FRAME why) }
    ensures room { result ≡ NO_ROOM → IsUsable module.now header.now }
    ensures unusable { result ≢ DONE → result ≢ NONE → result ≢ REFUSED → result ≢ NO_ROOM
        → result ≢ NO_PLACE → IsUnusable module.now header.now result }
    ensures same { result ≢ DONE → result ≢ NO_PLACE → rows.new ≡ rows.old }
    ensures unreported { result ≢ REFUSED → fault.new ≡ fault.old }
{
    let mut memory = LookUpMemory::new(alloc);
    match look_up(module, header, address, &mut memory) {
        Ok(Some(found)) => keep_row(rows, slot_of(slot), address, &found),
        Ok(None) => NONE,
        Err(why) => no_answer(why, fault),
    }
}

/// Does what `dwcheck_rows_fill` does for a compact row, as compilers write nearly all of them, with
/// little stack. `NO_ROOM` also says that the row may be another one, that an instruction for another
/// row may be, or that a record may be refused: then `dwcheck_rows_fill` has the answer.
#[unsafe(no_mangle)]
pub extern "C" fn dwcheck_rows_fill_compact(
    rows: &mut CachedRows,
    slot: u32,
    module: &CModule<'_>,
    header: &CHeader<'_>,
    address: u64,
    fault: &mut CFault,
) -> u32
    ensures done { result ≡ DONE
        → IsFilled module.now header.now (slot % SLOTS) address rows.new.rows }
    ensures only { (other at : ℕ) (held : Row) → Holds rows.new.rows other at held
        → Holds rows.old.rows other at held
        ⊎ IsOfFill module.now header.now (slot % SLOTS) address other at held }
    ensures place { result ≡ NO_PLACE → (target : OfTarget) × (fde : Fde) × (row : Row)
        × HasRow module.now header.now address target fde row }
    ensures dropped { result ≡ NO_PLACE → (other at : ℕ) (held : Row)
        → Holds rows.new.rows other at held → Holds rows.old.rows other at held }
    ensures one { (index : ℕ) × ((other : ℕ) → other ≢ index
        → entry_at rows.new.rows other ≡ entry_at rows.old.rows other) }
    ensures none { result ≡ NONE → IsLookedUp module.now header.now address (Ok None) }
    ensures faultless { result ≢ REFUSED }
    ensures room { result ≡ NO_ROOM → IsUsable module.now header.now }
    ensures unusable { result ≢ DONE → result ≢ NONE → result ≢ NO_ROOM → result ≢ NO_PLACE
        → IsUnusable module.now header.now result }
    ensures same { result ≢ DONE → result ≢ NO_PLACE → rows.new ≡ rows.old }
    ensures unreported { fault.new ≡ fault.old }
{
    match look_up_compact(module, header, address) {
        Ok((target, CompactAnswer::Row(row, fde))) => {
            keep_compact_row(rows, slot_of(slot), address, target, &row, &fde)
        }
        Ok((_, CompactAnswer::Nothing)) => NONE,
        Ok((_, CompactAnswer::Unsure)) => NO_ROOM,
        Err(why) => no_answer(why, fault),
    }
}

/// Looks up `address`, an address as loaded, in the section of `module` in place, by the table of
/// `header`, and keeps its row in `rows` for walks, as a row of the module with the slot `slot`
/// modulo 64. The row may take the place of another one. `NO_PLACE` says that there is a row, but
/// that it can't be kept: walks stop there, and the frame takes a step of a cursor. A compact row
/// takes little stack, any other 53 KB.
#[unsafe(no_mangle)]
pub extern "C" fn dwcheck_rows_fill(
    alloc: Global,
    rows: &mut CachedRows,
    slot: u32,
    module: &CModule<'_>,
    header: &CHeader<'_>,
    address: u64,
    fault: &mut CFault,
) -> u32
    ensures done { result ≡ DONE
        → IsFilled module.now header.now (slot % SLOTS) address rows.new.rows }
    ensures only { (other at : ℕ) (held : Row) → Holds rows.new.rows other at held
        → Holds rows.old.rows other at held
        ⊎ IsOfFill module.now header.now (slot % SLOTS) address other at held }
    ensures place { result ≡ NO_PLACE → (target : OfTarget) × (fde : Fde) × (row : Row)
        × HasRow module.now header.now address target fde row }
    ensures dropped { result ≡ NO_PLACE → (other at : ℕ) (held : Row)
        → Holds rows.new.rows other at held → Holds rows.old.rows other at held }
    ensures one { (index : ℕ) × ((other : ℕ) → other ≢ index
        → entry_at rows.new.rows other ≡ entry_at rows.old.rows other) }
    ensures none { result ≡ NONE → IsLookedUp module.now header.now address (Ok None) }
    ensures refused { result ≡ REFUSED → (why : Why)
        × IsLookedUp module.now header.now address (Err why) × (fault.new ≡ cfault_of IN_FRAME why) }
    ensures room { result ≡ NO_ROOM → IsUsable module.now header.now }
    ensures unusable { result ≢ DONE → result ≢ NONE → result ≢ REFUSED → result ≢ NO_ROOM
        → result ≢ NO_PLACE → IsUnusable module.now header.now result }
    ensures same { result ≢ DONE → result ≢ NO_PLACE → rows.new ≡ rows.old }
    ensures unreported { result ≢ REFUSED → fault.new ≡ fault.old }
{
    let status = dwcheck_rows_fill_compact(rows, slot, module, header, address, fault);
    if status == NO_ROOM {
        return fill_with_any_row(alloc, rows, slot, module, header, address, fault);
    }
    status
}

/// Forgets the rows of the module with the slot `slot` modulo 64, which may then name another one.
#[unsafe(no_mangle)]
pub extern "C" fn dwcheck_rows_forget(rows: &mut CachedRows, slot: u32)
    ensures none { (address : ℕ) (row : Row) → Holds rows.new.rows (slot % SLOTS) address row → ⊥ }
    ensures others { (other address : ℕ) (row : Row) → other ≢ slot % SLOTS
        → Holds rows.new.rows other address row ↔ Holds rows.old.rows other address row }
{
    rows.forget(slot_of(slot));
}

/// Walks up a stack of x86-64 from `place`, with the rows of the modules whose slots have their bits
/// in `confirmed`, and writes the addresses of the frames to `addresses`, as many as fit. `count`
/// becomes their number, and `stop` why there are no more.
#[unsafe(no_mangle)]
pub extern "C" fn dwcheck_walk(
    rows: &mut CachedRows,
    confirmed: u64,
    place: &mut StackPlace,
    blocks: &[CBlock<'_>],
    addresses: &mut [u64],
    count: &mut usize,
    stop: &mut u32,
)
    ensures passes { GoesOn stop.new
        → Passes (over_cached rows.old.rows confirmed (byte_in blocks.now)) (byte_in blocks.now)
        place.old (take count.new addresses.new) place.new }
    ensures ended { (why : Reason) → stop.new ≡ stop_number why → why ≢ Reason.Limit
        → EndsAfter (over_cached rows.old.rows confirmed (byte_in blocks.now)) (byte_in blocks.now)
        place.old (take count.new addresses.new) why }
    ensures missing { stop.new ≡ MISSING → IfSome (address_before place.new.key)
        (IsMissing rows.old.rows confirmed) }
    ensures other { stop.new ≡ OTHER
        → IsOther rows.old.rows confirmed (byte_in blocks.now) place.new }
    ensures full { stop.new ≡ stop_number Reason.Limit → count.new ≡ length addresses.old }
    ensures codes { (stop.new ≡ stop_number Reason.Limit) ⊎ (stop.new ≡ stop_number Reason.ReturnUndefined)
        ⊎ (stop.new ≡ stop_number Reason.ReturnUnreadable) ⊎ (stop.new ≡ MISSING) ⊎ (stop.new ≡ OTHER) }
    ensures few { count.new ≤ length addresses.old }
    ensures same { rows.new.rows ≡ rows.old.rows }
    ensures rest { drop count.new addresses.new ≡ drop count.new addresses.old }
    ensures length { length addresses.new ≡ length addresses.old }
{
    let (found, end) = rows.walk(confirmed, place, &Blocks::new(blocks), addresses);
    *count = found;
    *stop = end_code(end);
}

/// Walks up a stack of x86-64 from `place` as `dwcheck_walk` does, and writes frames with their
/// registers and their CFAs to `frames`, as many as fit.
#[unsafe(no_mangle)]
pub extern "C" fn dwcheck_walk_frames(
    rows: &mut CachedRows,
    confirmed: u64,
    place: &mut RegisterPlace,
    blocks: &[CBlock<'_>],
    frames: &mut [FrameWithRegisters],
    count: &mut usize,
    stop: &mut u32,
)
    ensures walks { GoesOn stop.new
        → WalksWith (over_cached rows.old.rows confirmed (byte_in blocks.now)) place.old
        (take count.new frames.new) place.new }
    ensures ended { (why : Reason) → stop.new ≡ stop_number why → why ≢ Reason.Limit
        → EndsWithRegisters (over_cached rows.old.rows confirmed (byte_in blocks.now)) place.old
        (take count.new frames.new) why }
    ensures missing { stop.new ≡ MISSING → IfSome (address_before place.new.key)
        (IsMissing rows.old.rows confirmed) }
    ensures other { stop.new ≡ OTHER
        → IsOtherWith rows.old.rows confirmed (byte_in blocks.now) place.new }
    ensures full { stop.new ≡ stop_number Reason.Limit → count.new ≡ length frames.old }
    ensures codes { (stop.new ≡ stop_number Reason.Limit)
        ⊎ (stop.new ≡ stop_number Reason.ReturnUndefined)
        ⊎ (stop.new ≡ stop_number Reason.ReturnUnreadable)
        ⊎ (stop.new ≡ MISSING) ⊎ (stop.new ≡ OTHER) }
    ensures few { count.new ≤ length frames.old }
    ensures same { rows.new.rows ≡ rows.old.rows }
    ensures rest { drop count.new frames.new ≡ drop count.new frames.old }
    ensures length { length frames.new ≡ length frames.old }
{
    let (found, end) = rows.walk_frames(confirmed, place, &Blocks::new(blocks), frames);
    *count = found;
    *stop = end_code(end);
}

/// Whether a place is that of a frame which is looked up at its own address: then the stage of a
/// cursor there is `EXACT`. None if the frame is looked up at neither of the addresses that a cursor
/// may look up.
fn stage_of(place: &RegisterPlace) -> Option<u32>
    ensures stage { IfSome result (λ stage. (stage ≤ CALLER)
        × (looked_up_by stage place.now.address ≡ address_before place.now.key)) }
    ensures none { result ≡ None → (place.now.key ≢ place.now.address)
        × (place.now.key ≢ place.now.address + 1) }
{
    if place.key == place.address {
        return Some(CALLER);
    }
    if place.address.checked_add(1) == Some(place.key) {
        return Some(EXACT);
    }
    None
}

/// The registers of a place. No other has a content.
fn registers_of(place: &RegisterPlace) -> RegisterFile
    ensures { (r : ℕ) → contents_in result r ≡ register_in place.now r }
{
    let mut registers = RegisterFile::none();
    registers.set(RSP, Some(place.stack_pointer));
    registers.set(RBX, Some(place.rbx));
    registers.set(RBP, Some(place.rbp));
    registers.set(R12, Some(place.r12));
    registers.set(R13, Some(place.r13));
    registers.set(R14, Some(place.r14));
    registers.set(R15, Some(place.r15));
    registers
}

/// The number of rip.
const RIP: u16 = 16;

/// Places a cursor where a walk with registers is, so that it can take a step that the walk can't. It
/// knows rip, too, which has the frame's address: rows of procedure linkage tables need it.
/// `NO_PLACE` says that `key` is neither `address` nor `address` plus 1.
#[unsafe(no_mangle)]
pub extern "C" fn dwcheck_cursor_at_place(cursor: &mut CCursor, place: &RegisterPlace) -> u32
    ensures with { result ≡ DONE → IsWith place.now (place_of cursor.new) }
    ensures rip { result ≡ DONE → contents_in cursor.new.registers RETURN_ADDRESS ≡ Some place.now.address }
    ensures others { result ≡ DONE → (r : ℕ) → r ≢ RETURN_ADDRESS
        → contents_in cursor.new.registers r ≡ register_in place.now r }
    ensures goes { result ≡ DONE → cursor.new.stage ≤ CALLER }
    ensures refused { result ≡ NO_PLACE → (place.now.key ≢ place.now.address)
        × (place.now.key ≢ place.now.address + 1) }
    ensures codes { (result ≡ DONE) ⊎ (result ≡ NO_PLACE) }
    ensures unwritten { result ≢ DONE → cursor.new ≡ cursor.old }
{
    let Some(stage) = stage_of(place) else {
        return NO_PLACE;
    };
    cursor.registers = registers_of(place);
    cursor.registers.set(RIP, Some(place.address));
    cursor.address = place.address;
    cursor.stage = stage;
    cursor.reserved = 0;
    DONE
}

/// The place of a frame at `address` with these registers, where `key` is the address that is looked
/// up plus 1. None if one of the registers that a walk keeps isn't known.
fn place_with(registers: &RegisterFile, address: u64, key: u64) -> Option<RegisterPlace>
    ensures { MatchOption result (LacksOne (contents_in registers.now))
        (λ place. (place.address ≡ address) × (place.key ≡ key)
        × AreIn place (contents_in registers.now)) }
{
    Some(RegisterPlace {
        address,
        key,
        stack_pointer: registers.register(RSP)?,
        rbx: registers.register(RBX)?,
        rbp: registers.register(RBP)?,
        r12: registers.register(R12)?,
        r13: registers.register(R13)?,
        r14: registers.register(R14)?,
        r15: registers.register(R15)?,
    })
}

/// The key of a cursor's frame: the address that is looked up plus 1. None if that is 2^64.
fn key_of(cursor: &CCursor) -> Option<u64>
    ensures key { IfSome result (λ key. looked_up_by cursor.now.stage cursor.now.address ≡ address_before key) }
    ensures none { result ≡ None → (cursor.now.stage ≡ EXACT) × (2 ^ 64 ≤ cursor.now.address + 1) }
{
    match cursor.stage {
        EXACT => cursor.address.checked_add(1),
        _ => Some(cursor.address),
    }
}

/// The place of a cursor's frame, from which a walk with registers goes on. Returns `NONE` if the
/// cursor's walk has ended, and `NO_PLACE` if a register that such a walk keeps isn't known, or if the
/// key would be 2^64.
#[unsafe(no_mangle)]
pub extern "C" fn dwcheck_place_of_cursor(place: &mut RegisterPlace, cursor: &CCursor) -> u32
    ensures with { result ≡ DONE → IsWith place.new (place_of cursor.now) }
    ensures none { result ≡ NONE → CALLER < cursor.now.stage }
    ensures some { result ≢ NONE → cursor.now.stage ≤ CALLER }
    ensures refused { result ≡ NO_PLACE → LacksOne (contents_in cursor.now.registers)
        ⊎ ((cursor.now.stage ≡ EXACT) × (2 ^ 64 ≤ cursor.now.address + 1)) }
    ensures codes { (result ≡ DONE) ⊎ (result ≡ NONE) ⊎ (result ≡ NO_PLACE) }
    ensures unwritten { result ≢ DONE → place.new ≡ place.old }
{
    if cursor.stage > CALLER {
        return NONE;
    }
    let Some(key) = key_of(cursor) else {
        return NO_PLACE;
    };
    match place_with(&cursor.registers, cursor.address, key) {
        Some(found) => {
            *place = found;
            DONE
        }
        None => NO_PLACE,
    }
}

/// Rows that C keeps are those of its modules, if it gives each module a slot of its own: in rows of
/// zeros there are none; a fill, by what it promises, puts in one of the slot's module; and a slot
/// that was forgotten may name another module. Then a walk with the rows of confirmed slots has the
/// frames of a walk that looks each of them up in place, if it begins where rip has the address of the
/// frame, and that address or the one before it is looked up.
pub fn kept_rows_are_those_of_look_ups()
    ensures zeros { (loaded : ℕ → Module × Header) (rows : List PackedRow)
        → ((i : ℕ) → (entry_at rows i).key ≡ 0) → AreRowsOf (FindsIn loaded) rows }
    ensures filled { (loaded : ℕ → Module × Header) (old new : List PackedRow) (slot address : ℕ)
        → AreRowsOf (FindsIn loaded) old
        → ((other at : ℕ) (held : Row) → Holds new other at held → Holds old other at held
        ⊎ IsOfFill (loaded slot).0 (loaded slot).1 slot address other at held)
        → AreRowsOf (FindsIn loaded) new }
    ensures forgotten { (loaded next : ℕ → Module × Header) (old new : List PackedRow) (slot : ℕ)
        → AreRowsOf (FindsIn loaded) old
        → ((address : ℕ) (row : Row) → Holds new slot address row → ⊥)
        → ((other address : ℕ) (row : Row) → other ≢ slot → Holds new other address row
        → Holds old other address row)
        → ((other : ℕ) → other ≢ slot → next other ≡ loaded other)
        → AreRowsOf (FindsIn next) new }
    ensures walks { (loaded : ℕ → Module × Header) (rows : List PackedRow) (confirmed : ℕ)
        (memory : ℕ → Option ℕ) (from : Option Place) (frames : List WalkedFrame)
        → AreRowsOf (FindsIn loaded) rows → IfSome from KnowsItsAddress
        → AreFrames (over_cached rows confirmed memory) from frames
        → AreFrames (over_rows little_64 (FindsConfirmed loaded confirmed) x86_64 memory) from frames }
{
    dw_rules::laws::rules_under_abis();
}
