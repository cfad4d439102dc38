//! The C calls that look up in an `.eh_frame` section in place: the row of an address, and a step
//! of a cursor.

ghost use Rattle.std.specs.Prelude.{◌≡◌, ◌≢◌, ◌≤◌, ◌<◌, ◌⊎◌, ℕ, IfErr, IfNone, IfOk, IfSome, MatchResult, None, Ok, Err, Some, length, option_map};
ghost use Rattle.dw_bytes.specs.declared.fault.Fault.{Fault as Why};
ghost use Rattle.dw_bytes.specs.declared.fault.FaultKind.TheVariants.{Memory};
ghost use Rattle.dw_bytes.specs.Answers.{memory as out_of_memory};
ghost use Rattle.dw_c_types.specs.Faults.{cfault_of};
ghost use Rattle.dw_c_types.specs.Machine.{abi_in, memory_of};
ghost use Rattle.dw_eh_frame.specs.Views.{eh_fde_of};
ghost use Rattle.dw_in_place.specs.InPlace.{alone, row_of_fde};
ghost use Rattle.dw_in_place.specs.SearchTables.{table_in};
ghost use Rattle.dw_in_place.specs.Views.{section_of, table_of};
ghost use Rattle.dw_rules.specs.ProgramFault.{cie_fault, fde_fault};
ghost use Rattle.dw_rows.specs.RowLookups.{IsRowUnder};
ghost use Rattle.dw_rows.specs.Section.{IsChecked};
ghost use Rattle.dw_signed_rows.specs.SignedRows.{is_signed_in as signed_in};
ghost use Rattle.dw_c_types.specs.ProcessWalks.{bits_at};
ghost use Rattle.dwcheck_c.specs.InPlaceLookUps.{AreInPlace, HasRow, IsLookedUp, IsLookedUpCompactly, IsNoRow, IsRowGiven, IsSignedGiven, IsStepIn, IsTableBy, IsUnusable, IsUsable, LacksPlaceIn, LooksUp, Says, is_aarch64_by, through_fde};
ghost use Rattle.dw_unwind.specs.MissingPlaces.{LacksPlace};
ghost use Rattle.dwcheck_c.specs.WalkCursors.{IsStepBy, looked_up_by, registers_in};

use crate::cursor::{CALLER, CCursor, Stepped, step_by_copy, step_uncovered};
use crate::module::{
    CModule, EH_FRAME, EH_FRAME_AARCH64, EH_FRAME_AARCH64_LEAVING_OUT, EH_FRAME_LEAVING_OUT,
};
use dw_bytes::{Fault, FaultKind, Target};
use dw_c_types::answer::CFrame;
use dw_c_types::fault::{CFault, IN_FRAME, report};
use dw_c_types::row::{CRow, CRule, write_row};
use dw_c_types::state::CState;
use dw_c_types::status::{
    BAD_KIND, BAD_TARGET, DONE, NO_PLACE, NO_ROOM, NO_TABLE, NONE, REFUSED, TOO_LONG,
};
use dw_c_types::target::target;
use dw_eh_frame::EhFde;
use dw_in_place::{
    CompactAnswer, LookUpMemory, SearchTable, SectionInPlace, compact_row_by_records_in,
    compact_row_for_address_in, row_by_records_in, row_for_address_in,
};
use dw_process::FoundRow;
use dw_rules::UnwindRow;
use dw_signed_rows::is_signed_in;
use dw_unwind::{OneRow, as_linked};
use std::alloc::Global;

/// An `.eh_frame_hdr` section, whose search table leads to the FDE of an address. If it is empty,
/// there is none.
#[repr(C)]
#[derive(Drop)]
pub struct CHeader<'a> {
    pub bytes: &'a [u8],
    /// The address of its first byte, as linked.
    pub address: u64,
}

/// A section in place, with the table that leads to its FDEs, if there is one.
#[derive(Clone, Copy)]
struct InPlace<'a, 'h> {
    section: SectionInPlace<'a>,
    table: Option<SearchTable<'h>>,
}

/// The row of an address, with its FDE, and the target of the section.
#[derive(Drop)]
pub(crate) struct FoundInPlace<'p, 'a> {
    pub(crate) target: Target,
    pub(crate) row: UnwindRow<'p, 'a>,
    pub(crate) fde: EhFde<'a>,
}

/// Why a look-up has no answer.
#[derive(Clone, Copy)]
pub enum NoAnswer {
    /// The section has 2^32 bytes or more.
    TooLong,
    /// The section isn't `.eh_frame`.
    BadKind,
    /// There is no such target.
    BadTarget,
    /// The header isn't as linkers write it.
    NoTable,
    /// The FDE or its CIE is refused, or there was no room for their expressions.
    Refused(Fault),
}

/// Whether the programs of a section of this kind are for aarch64; none if it isn't `.eh_frame`.
fn is_aarch64(kind: u32) -> Option<bool>
    ensures { result ≡ is_aarch64_by kind }
{
    match kind {
        EH_FRAME | EH_FRAME_LEAVING_OUT => Some(false),
        EH_FRAME_AARCH64 | EH_FRAME_AARCH64_LEAVING_OUT => Some(true),
        _ => None,
    }
}

/// The table of a header; none if the header is empty. An error if a header is there, but isn't as
/// linkers write it.
fn table_by<'h>(header: &CHeader<'h>, target: Target) -> Result<Option<SearchTable<'h>>, NoAnswer>
    ensures table { IfOk result (λ table.
        IsTableBy target header.now.address header.now.bytes.now (option_map table_of table)) }
    ensures lacks { IfErr result (λ why. (why ≡ NoAnswer.NoTable) × (0 < length header.now.bytes.now)
        × (table_in target header.now.address header.now.bytes.now ≡ None)) }
{
    if header.bytes.is_empty() {
        return Ok(None);
    }
    match SearchTable::read(header.bytes, target, header.address) {
        Some(table) => Ok(Some(table)),
        None => Err(NoAnswer::NoTable),
    }
}

/// The section and the table that C gives, or why nothing can be looked up.
fn in_place<'a, 'h>(module: &CModule<'a>, header: &CHeader<'h>) -> Result<InPlace<'a, 'h>, NoAnswer>
    ensures placed { IfOk result (λ place. AreInPlace module.now header.now (section_of place.section)
        (option_map table_of place.table)) }
    ensures why { IfErr result (λ why. (address : ℕ) → IsNoRow module.now header.now address why) }
    ensures faultless { IfErr result (λ why. (first : Why) → why ≢ NoAnswer.Refused first) }
{
    if module.frame.len() >= 1 << 32 {
        return Err(NoAnswer::TooLong);
    }
    let Some(is_aarch64) = is_aarch64(module.kind) else {
        return Err(NoAnswer::BadKind);
    };
    let Some(target) = target(module.order, module.address_size) else {
        return Err(NoAnswer::BadTarget);
    };
    let table = table_by(header, target)?;
    let section = SectionInPlace {
        bytes: module.frame,
        target,
        bases: module.eh_section(is_aarch64).bases,
        is_aarch64,
    };
    Ok(InPlace { section, table })
}

/// The row of an address as linked, and its FDE: by the table, or, if there is none, by going
/// through the records.
fn find_row<'p, 'a>(
    place: &InPlace<'a, '_>,
    address: u64,
    memory: &'p mut LookUpMemory<'a>,
) -> Result<Option<(UnwindRow<'p, 'a>, EhFde<'a>)>, Fault>
    ensures fde { MatchResult result
        (λ found. LooksUp (section_of place.now.section) (option_map table_of place.now.table) address
        (Ok (option_map (λ f. eh_fde_of f.1) found)))
        (λ fault. (fault ≡ out_of_memory) ⊎ LooksUp (section_of place.now.section)
        (option_map table_of place.now.table) address (Err fault)) }
    ensures row { IfOk result (λ found. IfSome found (λ f. row_of_fde place.now.section.target
        place.now.section.bytes.now (eh_fde_of f.1) address ≡ Some f.0)) }
    ensures checked { IfOk result (λ found. IfSome found (λ f. IsChecked
        (alone place.now.section.target place.now.section.bytes.now (eh_fde_of f.1)))) }
{
    match &place.table {
        Some(table) => row_for_address_in(&place.section, table, address, memory),
        None => row_by_records_in(&place.section, address, memory),
    }
}

/// Looks up `address`, an address as loaded, in the section of `module` by the table of `header`.
pub(crate) fn look_up<'p, 'a>(
    module: &CModule<'a>,
    header: &CHeader<'_>,
    address: u64,
    memory: &'p mut LookUpMemory<'a>,
) -> Result<Option<FoundInPlace<'p, 'a>>, NoAnswer>
    ensures row { IfOk result (λ found. IfSome found (λ f.
        HasRow module.now header.now address f.target (eh_fde_of f.fde) f.row)) }
    ensures under { IfOk result (λ found. IfSome found (λ f. IsRowUnder f.target f.row)) }
    ensures cie { IfOk result (λ found. IfSome found (λ f.
        cie_fault (eh_fde_of f.fde).cie.cie ≡ None)) }
    ensures fde { IfOk result (λ found. IfSome found (λ f.
        fde_fault (eh_fde_of f.fde).cie.cie (eh_fde_of f.fde).fde ≡ None)) }
    ensures none { IfOk result (λ found. IfNone found
        (IsLookedUp module.now header.now address (Ok None))) }
    ensures why { IfErr result (IsNoRow module.now header.now address) }
{
    dw_rows::laws::rows_have_good_expressions();
    dw_rows::laws::fdes_of_checked_sections();
    let place = in_place(module, header)?;
    let target = place.section.target;
    let linked = as_linked(target, module.load_address, address);
    match find_row(&place, linked, memory) {
        Ok(Some((row, fde))) => Ok(Some(FoundInPlace { target, row, fde })),
        Ok(None) => Ok(None),
        Err(fault) => Err(NoAnswer::Refused(fault)),
    }
}

/// Looks up `address`, an address as loaded, as `look_up` does, but only a compact row, which takes
/// little stack. If the answer is `Unsure`, `look_up` has it.
pub(crate) fn look_up_compact<'a>(
    module: &CModule<'a>,
    header: &CHeader<'_>,
    address: u64,
) -> Result<(Target, CompactAnswer<'a>), NoAnswer>
    ensures found { IfOk result (λ found.
        IsLookedUpCompactly module.now header.now address found.0 found.1) }
    ensures usable { IfOk result (λ _. IsUsable module.now header.now) }
    ensures why { IfErr result (IsNoRow module.now header.now address) }
    ensures faultless { IfErr result (λ why. (first : Why) → why ≢ NoAnswer.Refused first) }
{
    let place = in_place(module, header)?;
    let target = place.section.target;
    let address = as_linked(target, module.load_address, address);
    let answer = match &place.table {
        Some(table) => compact_row_for_address_in(&place.section, table, address),
        None => compact_row_by_records_in(&place.section, address),
    };
    Ok((target, answer))
}

/// The status that says why a look-up has no answer, and the fault, if it is one.
pub(crate) fn no_answer(why: NoAnswer, fault: &mut CFault) -> u32
    ensures says { Says why result }
    ensures reported { result ≡ REFUSED → (first : Why) × (why ≡ NoAnswer.Refused first)
        × (first.kind ≢ Memory) × (fault.new ≡ cfault_of IN_FRAME first) }
    ensures unreported { result ≢ REFUSED → fault.new ≡ fault.old }
{
    match why {
        NoAnswer::TooLong => TOO_LONG,
        NoAnswer::BadKind => BAD_KIND,
        NoAnswer::BadTarget => BAD_TARGET,
        NoAnswer::NoTable => NO_TABLE,
        NoAnswer::Refused(first) if first.kind == FaultKind::Memory => NO_ROOM,
        NoAnswer::Refused(first) => {
            *fault = report(IN_FRAME, first);
            REFUSED
        }
    }
}

/// Looks up `address`, an address as loaded, in the section of `module` in place, by the table of
/// `header`, and writes its row to `row`, and the rules of its registers to `rules`, as many as
/// fit. `is_signal_frame` becomes 1 if the row's frames are those of signals, else 0. Nothing is
/// allocated, and nothing is kept. `NO_ROOM` says that the programs of the FDE and its CIE have
/// more expressions, or longer ones, than a look-up in place has room for.
#[unsafe(no_mangle)]
pub extern "C" fn dwcheck_row_in(
    alloc: Global,
    module: &CModule<'_>,
    header: &CHeader<'_>,
    address: u64,
    row: &mut CRow,
    rules: &mut [CRule],
    is_signal_frame: &mut u32,
    fault: &mut CFault,
) -> u32
    ensures row { result ≡ DONE → IsRowGiven module.now header.now address row.new rules.old rules.new
        is_signal_frame.new }
    ensures few { result ≡ DONE → row.new.count ≤ 128 }
    ensures none { result ≡ NONE → IsLookedUp module.now header.now address (Ok None) }
    ensures refused { result ≡ REFUSED → (why : Why) × IsLookedUp module.now header.now address (Err why)
        × (fault.new ≡ cfault_of IN_FRAME why) }
    ensures room { result ≡ NO_ROOM → IsUsable module.now header.now }
    ensures unusable { result ≢ DONE → result ≢ NONE → result ≢ REFUSED → result ≢ NO_ROOM
        → IsUnusable module.now header.now result }
    ensures unwritten { result ≢ DONE → (row.new ≡ row.old) × (rules.new ≡ rules.old)
        × (is_signal_frame.new ≡ is_signal_frame.old) }
    ensures unreported { result ≢ REFUSED → fault.new ≡ fault.old }
{
    let mut memory = LookUpMemory::new(alloc);
    match look_up(module, header, address, &mut memory) {
        Ok(Some(found)) => {
            *is_signal_frame = u32::from(found.fde.cie.augmentation.is_signal);
            let found = FoundRow {
                id: 0,
                cookie: module.cookie,
                load_address: module.load_address,
                target: found.target,
                return_register: found.fde.cie.cie.return_address_register,
                row: found.row,
            };
            write_row(&found, row, rules);
            DONE
        }
        Ok(None) => NONE,
        Err(why) => no_answer(why, fault),
    }
}

/// Looks up `address`, an address as loaded, as `dwcheck_row_in` does. `is_signed` becomes 1 if the
/// return address is signed in its row, else 0. `NO_ROOM` comes as in `dwcheck_row_in`, though no
/// expression is needed here.
#[unsafe(no_mangle)]
pub extern "C" fn dwcheck_is_signed_in(
    alloc: Global,
    module: &CModule<'_>,
    header: &CHeader<'_>,
    address: u64,
    is_signed: &mut u32,
    fault: &mut CFault,
) -> u32
    ensures signed { result ≡ DONE → IsSignedGiven module.now header.now address is_signed.new }
    ensures none { result ≡ NONE → IsLookedUp module.now header.now address (Ok None) }
    ensures refused { result ≡ REFUSED → (why : Why) × IsLookedUp module.now header.now address (Err why)
        × (fault.new ≡ cfault_of IN_FRAME why) }
    ensures room { result ≡ NO_ROOM → IsUsable module.now header.now }
    ensures unusable { result ≢ DONE → result ≢ NONE → result ≢ REFUSED → result ≢ NO_ROOM
        → IsUnusable module.now header.now result }
    ensures unwritten { result ≢ DONE → is_signed.new ≡ is_signed.old }
    ensures unreported { result ≢ REFUSED → fault.new ≡ fault.old }
{
    let mut memory = LookUpMemory::new(alloc);
    match look_up(module, header, address, &mut memory) {
        Ok(Some(found)) => {
            let linked = as_linked(found.target, module.load_address, address);
            *is_signed = u32::from(is_signed_in(&found.fde.cie.cie, &found.fde.fde, linked));
            DONE
        }
        Ok(None) => NONE,
        Err(why) => no_answer(why, fault),
    }
}

/// The bits to take off a return address: `bits` if it is signed in the row that the FDE has for an
/// address as linked, and none if it isn't.
fn signed_bits_by(fde: &EhFde<'_>, bits: u64, linked: u64) -> u64
    requires cie { cie_fault (eh_fde_of fde.now).cie.cie ≡ None }
    requires fde { fde_fault (eh_fde_of fde.now).cie.cie (eh_fde_of fde.now).fde ≡ None }
    ensures { (a : ℕ) → result ≡ bits_at
        (λ _. signed_in (eh_fde_of fde.now).cie.cie (eh_fde_of fde.now).fde linked) bits (Some a) }
{
    if bits != 0 && is_signed_in(&fde.cie.cie, &fde.fde, linked) {
        bits
    } else {
        0
    }
}

/// Writes the frame that a cursor is at to `frame`, and moves the cursor to the frame's caller, by
/// the row that was found for `address`, the address that is looked up for the frame, which is
/// `linked` as linked.
fn step_by_fde(
    found: FoundInPlace<'_, '_>,
    address: u64,
    linked: u64,
    cursor: &mut CCursor,
    state: &CState<'_>,
    frame: &mut CFrame,
) -> u32
    requires at { looked_up_by cursor.old.stage cursor.old.address ≡ Some address }
    requires under { IsRowUnder found.target found.row }
    requires cie { cie_fault (eh_fde_of found.fde).cie.cie ≡ None }
    requires fde { fde_fault (eh_fde_of found.fde).cie.cie (eh_fde_of found.fde).fde ≡ None }
    ensures done { result ≡ DONE → IsStepBy (through_fde found.entry.target
        (eh_fde_of found.entry.fde) found.entry.row linked (abi_in state.now) (memory_of state.now)
        state.now.signed_bits) cursor.old cursor.new frame.new }
    ensures lacks { result ≡ NO_PLACE → LacksPlace (through_fde found.entry.target
        (eh_fde_of found.entry.fde) found.entry.row linked (abi_in state.now) (memory_of state.now)
        0).callers (registers_in cursor.old) (Some address) }
    ensures codes { (result ≡ DONE) ⊎ (result ≡ NO_PLACE) }
    ensures unwritten { result ≢ DONE → (cursor.new ≡ cursor.old) × (frame.new ≡ frame.old) }
{
    let FoundInPlace { target, row, fde } = found;
    let bits = signed_bits_by(&fde, state.signed_bits, linked);
    let rows = OneRow::new(target, row, fde.cie.cie.return_address_register);
    match step_by_copy(
        &rows,
        fde.cie.augmentation.is_signal,
        state.kept,
        state.pointer(),
        bits,
        address,
        cursor,
        &state.memory(),
        frame,
    ) {
        Stepped::Written => DONE,
        Stepped::NoPlace => NO_PLACE,
    }
}

/// Writes the frame that a cursor is at to `frame`, and moves the cursor to the frame's caller, as
/// `dwcheck_cursor_step` does, but by a look-up in place, in the section of `module` by the table
/// of `header`. Returns `NONE` if the cursor's walk has ended, and otherwise what `dwcheck_row_in`
/// returns, or `NO_PLACE`. If no FDE covers the address, the walk ends.
#[unsafe(no_mangle)]
pub extern "C" fn dwcheck_step_in(
    alloc: Global,
    module: &CModule<'_>,
    header: &CHeader<'_>,
    cursor: &mut CCursor,
    state: &CState<'_>,
    frame: &mut CFrame,
    fault: &mut CFault,
) -> u32
    ensures done { result ≡ DONE → IsStepIn module.now header.now (abi_in state.now)
        (memory_of state.now) state.now.signed_bits cursor.old cursor.new frame.new }
    ensures lacks { result ≡ NO_PLACE → (a : ℕ)
        × (looked_up_by cursor.old.stage cursor.old.address ≡ Some a)
        × LacksPlaceIn module.now header.now a (abi_in state.now) (memory_of state.now) cursor.old }
    ensures refused { result ≡ REFUSED → (a : ℕ)
        × (looked_up_by cursor.old.stage cursor.old.address ≡ Some a)
        × ((why : Why) × IsLookedUp module.now header.now a (Err why)
        × (fault.new ≡ cfault_of IN_FRAME why)) }
    ensures none { result ≡ NONE → CALLER < cursor.old.stage }
    ensures some { result ≢ NONE → cursor.old.stage ≤ CALLER }
    ensures room { result ≡ NO_ROOM → IsUsable module.now header.now }
    ensures unusable { result ≢ DONE → result ≢ NONE → result ≢ REFUSED → result ≢ NO_ROOM
        → result ≢ NO_PLACE → IsUnusable module.now header.now result }
    ensures unwritten { result ≢ DONE → (cursor.new ≡ cursor.old) × (frame.new ≡ frame.old) }
    ensures unreported { result ≢ REFUSED → fault.new ≡ fault.old }
{
    if cursor.stage > CALLER {
        return NONE;
    }
    let Some(address) = cursor.looked_up() else {
        return step_uncovered(cursor, frame);
    };
    let mut memory = LookUpMemory::new(alloc);
    match look_up(module, header, address, &mut memory) {
        Ok(Some(found)) => {
            let linked = as_linked(found.target, module.load_address, address);
            step_by_fde(found, address, linked, cursor, state, frame)
        }
        Ok(None) => step_uncovered(cursor, frame),
        Err(why) => no_answer(why, fault),
    }
}
