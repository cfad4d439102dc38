//! The row of an address in place, if it is as compilers write nearly all rows: by one pass over the
//! programs of its FDE and CIE, which takes little stack.

ghost use Rattle.std.specs.Prelude.{ℕ, ◌≤◌, IfSome, length, Option, Result};
ghost use Rattle.dw_bytes.specs.declared.fault.Fault.{Fault as Why};
ghost use Rattle.dw_eh_frame.specs.Views.{eh_fde_of};
ghost use Rattle.dw_rows.specs.Section.{Covers};
ghost use Rattle.dw_in_place.specs.CompactRows.{IsCompactAnswer, IsCompactRowOf};
ghost use Rattle.dw_in_place.specs.InPlace.{found_at};
ghost use Rattle.dw_in_place.specs.LookUps.{fde_by_entry};
ghost use Rattle.dw_in_place.specs.Scans.{Scans, fde_by_place};
ghost use Rattle.dw_in_place.specs.SearchTables.{Finds};
ghost use Rattle.dw_in_place.specs.Views.{section_of, table_of};

use crate::in_place::{covering_fde, is_after_its_cie};
use crate::record_offset::offset_of_record;
use crate::scan::first_covering;
use crate::search_table::SearchTable;
use crate::section_in_place::SectionInPlace;
use dw_compact_rows::{CompactRow, compact_row, compact_rules_of_cie};
use dw_eh_frame::EhFde;

/// What a look-up of a compact row gives.
#[derive(Clone, Copy)]
pub enum CompactAnswer<'a> {
    /// The row, and the FDE that has it, with its CIE.
    Row(CompactRow, EhFde<'a>),
    /// No FDE was found that covers the address.
    Nothing,
    /// A record may have a fault, or the rules aren't compact. `row_in_place` has the answer.
    Unsure,
}

/// The row of an address that an FDE covers, if the rules that its program and its CIE's program make
/// are compact. `None` if they aren't, or if a program may have a fault or an expression. This function
/// isn't inlined: so its remembered rows take no stack while the records are read.
#[inline(never)]
fn compact_row_of_fde(fde: &EhFde<'_>, address: u64) -> Option<CompactRow>
    requires covers { Covers (eh_fde_of fde.now).fde address }
    ensures { IfSome result (IsCompactRowOf (eh_fde_of fde.now) address) }
{
    if !is_after_its_cie(&fde.cie, &fde.fde) {
        return None;
    }
    let initial = compact_rules_of_cie(&fde.cie.cie)?;
    compact_row(&initial, &fde.cie.cie, &fde.fde, address)
}

/// The compact row of an address, from the record at the offset `at` of a section, which must not be
/// past its end. Only that record and its CIE are read, and each program once. `Nothing` if the record
/// isn't an FDE, or doesn't cover the address. It takes time in proportion to the bytes of the two
/// records, 3 KB of stack, and no other memory. `Row` and `Nothing` are what `row_in_place` finds, which
/// takes up to 40 KB of stack.
pub fn compact_row_in_place<'a>(
    section: &SectionInPlace<'a>,
    at: u32,
    address: u64,
) -> CompactAnswer<'a>
    requires { at ≤ length section.now.bytes.now }
    ensures { IsCompactAnswer (section_of section.now) address
        (found_at (section_of section.now) at address) result }
{
    let Ok(found) = covering_fde(section, at, address) else {
        return CompactAnswer::Unsure;
    };
    let Some(fde) = found else {
        return CompactAnswer::Nothing;
    };
    match compact_row_of_fde(&fde, address) {
        Some(row) => CompactAnswer::Row(row, fde),
        None => CompactAnswer::Unsure,
    }
}

/// The compact row of an address, from the record that the table names for the address, as
/// `compact_row_in_place` reads it. `Nothing` also if the table names no record for the address, or one
/// past the section's end. If the table is in order, `Row` and `Nothing` are what `row_for_address_in`
/// finds. The search takes O(log n) for n entries.
pub fn compact_row_for_address_in<'a>(
    section: &SectionInPlace<'a>,
    table: &SearchTable<'_>,
    address: u64,
) -> CompactAnswer<'a>
    ensures { (entry : Option ℕ) × Finds (table_of table.now) address entry
        × IsCompactAnswer (section_of section.now) address
        (fde_by_entry (section_of section.now) (table_of table.now) address entry) result }
{
    let Some(entry) = table.entry_for_address(address) else {
        return CompactAnswer::Nothing;
    };
    let at = offset_of_record(table, section.bases.section, entry);
    if at >= section.bytes.len() as u64 {
        return CompactAnswer::Nothing;
    }
    compact_row_in_place(section, at as u32, address)
}

/// The compact row of an address, from the first FDE of the section that covers it, as
/// `compact_row_in_place` reads it. The records before it are read one after another, so this takes time
/// in proportion to their bytes. `Row` and `Nothing` are what `row_by_records_in` finds.
pub fn compact_row_by_records_in<'a>(
    section: &SectionInPlace<'a>,
    address: u64,
) -> CompactAnswer<'a>
    ensures { (place : Result (Option ℕ) Why) × Scans (section_of section.now) address place
        × IsCompactAnswer (section_of section.now) address
        (fde_by_place (section_of section.now) address place) result }
{
    let found = first_covering(section, address);
    let Ok(found) = found else {
        return CompactAnswer::Unsure;
    };
    let Some(at) = found else {
        return CompactAnswer::Nothing;
    };
    compact_row_in_place(section, at, address)
}
