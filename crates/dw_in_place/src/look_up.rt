//! A single look-up in an `.eh_frame` section in place.

ghost use Rattle.std.specs.Prelude.{ℕ, ◌≡◌, ◌⊎◌, ◌≤◌, length, IfOk, IfSome, MatchResult, Option, Some, Ok, Err, Result, option_map};
ghost use Rattle.dw_bytes.specs.Answers.{memory as out_of_memory};
ghost use Rattle.dw_bytes.specs.declared.fault.Fault.{Fault as Why};
ghost use Rattle.dw_rows.specs.Section.{Covers, IsChecked};
ghost use Rattle.dw_eh_frame.specs.Views.{eh_fde_of};
ghost use Rattle.dw_in_place.specs.InPlace.{alone, found_at, row_of_fde};
ghost use Rattle.dw_in_place.specs.LookUps.{fde_by_entry};
ghost use Rattle.dw_in_place.specs.Scans.{Scans, fde_by_place};
ghost use Rattle.dw_in_place.specs.SearchTables.{Finds};
ghost use Rattle.dw_in_place.specs.Views.{section_of, table_of};

use crate::in_place::{KnownCie, covering_fde, find_by_check, lend_checked};
use crate::record_offset::offset_of_record;
use crate::scan::first_covering;
use crate::search_table::SearchTable;
use crate::section_in_place::SectionInPlace;
use dw_bytes::Fault;
use dw_eh_frame::EhFde;
use dw_rows::CheckedExpressions;
use dw_rules::{UnwindRow, UnwindState};
use std::alloc::Global;

/// Working memory of a look-up, of 6 KB: the state in which programs run, and their checked
/// expressions. What earlier look-ups left in it doesn't matter. A row borrows it, so it has to be
/// let go before the next look-up. A signal handler needs one of its own.
#[derive(Drop)]
pub struct LookUpMemory<'a> {
    known: KnownCie<'a>,
    expressions: CheckedExpressions<'a>,
}

impl<'a> LookUpMemory<'a> {
    /// Memory that no look-up has used. Nothing is allocated, now or later.
    pub fn new(alloc: Global) -> Self {
        LookUpMemory {
            known: KnownCie {
                cie: None,
                state: UnwindState::new(),
            },
            expressions: CheckedExpressions::few(alloc),
        }
    }
}

/// The row of an address, from the record at the offset `at` of a section, which must not be past
/// its end, and that record as an FDE, with its CIE. Only these two records are read, whatever
/// bytes are there, and nothing is allocated. Once they have been read, the result is `None` if the
/// record isn't an FDE, or doesn't cover the address: then neither program is checked. Pass the
/// return address minus 1 for the caller of a frame, unless the frame is a signal frame.
///
/// The error is the first fault, with its offset in the section: a fault of `eh_record`;
/// `NoSuchCie` (9) at the CIE pointer, if the CIE ends after the FDE begins; a fault of the CIE's
/// program, or else of the FDE's, up to its end, as `check_fde` of `dw_rows` reports it. `Memory`
/// (60), at 0, says that the two programs together have more than `MAX_FEW` (32) expressions, or
/// that an expression is longer than 16 bytes, whether or not the row uses it; then the rest isn't
/// checked. It takes time in proportion to the bytes of the two records, and up to 40 KB of stack,
/// as for `FrameInPlace`.
pub fn row_in_place<'p, 'a>(
    section: &SectionInPlace<'a>,
    at: u32,
    address: u64,
    memory: &'p mut LookUpMemory<'a>,
) -> Result<Option<(UnwindRow<'p, 'a>, EhFde<'a>)>, Fault>
    requires { at ≤ length section.now.bytes.now }
    ensures fde { MatchResult result
        (λ found. found_at (section_of section.now) at address ≡ Ok (option_map (λ f. eh_fde_of f.1) found))
        (λ fault. (fault ≡ out_of_memory) ⊎ (found_at (section_of section.now) at address ≡ Err fault)) }
    ensures row { IfOk result (λ found. IfSome found (λ f.
        row_of_fde section.now.target section.now.bytes.now (eh_fde_of f.1) address ≡ Some f.0)) }
    ensures checked { IfOk result (λ found. IfSome found (λ f.
        IsChecked (alone section.now.target section.now.bytes.now (eh_fde_of f.1)))) }
    ensures covers { IfOk result (λ found. IfSome found (λ f. Covers (eh_fde_of f.1).fde address)) }
{
    let Some(fde) = covering_fde(section, at, address)? else {
        return Ok(None);
    };
    let found = find_by_check(
        section,
        &fde,
        address,
        &mut memory.known,
        &mut memory.expressions,
    )?;
    let row = lend_checked(
        &memory.known.state,
        &memory.expressions,
        found.in_cie,
        found.start,
        found.end,
    );
    Ok(Some((row, fde)))
}

/// The row of an address, and its FDE with its CIE: those of the record that the table names for
/// the address, as `row_in_place` reads them. `None` if the table names no record for it, or one
/// past the section's end; or if that record isn't an FDE, or doesn't cover the address. The row is
/// always that of the record that was read, but a wrong table may lead to no row, or to bytes
/// within another record. It is the row that a check of the whole section gives, if the section is
/// accepted and the table leads to all FDEs (law `look_ups_find_all_rows`). That the table is this
/// section's isn't checked: compare its `frame_address` with `bases.section`.
///
/// The search takes O(log n) for n entries. For the errors see `row_in_place`.
pub fn row_for_address_in<'p, 'a>(
    section: &SectionInPlace<'a>,
    table: &SearchTable<'_>,
    address: u64,
    memory: &'p mut LookUpMemory<'a>,
) -> Result<Option<(UnwindRow<'p, 'a>, EhFde<'a>)>, Fault>
    ensures fde { (entry : Option ℕ) × Finds (table_of table.now) address entry × MatchResult result
        (λ found. fde_by_entry (section_of section.now) (table_of table.now) address entry
        ≡ Ok (option_map (λ f. eh_fde_of f.1) found))
        (λ fault. (fault ≡ out_of_memory)
        ⊎ (fde_by_entry (section_of section.now) (table_of table.now) address entry ≡ Err fault)) }
    ensures row { IfOk result (λ found. IfSome found (λ f.
        row_of_fde section.now.target section.now.bytes.now (eh_fde_of f.1) address ≡ Some f.0)) }
    ensures checked { IfOk result (λ found. IfSome found (λ f.
        IsChecked (alone section.now.target section.now.bytes.now (eh_fde_of f.1)))) }
    ensures covers { IfOk result (λ found. IfSome found (λ f. Covers (eh_fde_of f.1).fde address)) }
{
    let Some(entry) = table.entry_for_address(address) else {
        return Ok(None);
    };
    let at = offset_of_record(table, section.bases.section, entry);
    if at >= section.bytes.len() as u64 {
        return Ok(None);
    }
    row_in_place(section, at as u32, address, memory)
}

/// The row of an address, and its FDE with its CIE: those of the first FDE of the section that covers
/// it, as `row_in_place` reads them. This is for a section without a search table: the records before
/// the FDE are read one after another, so it takes time in proportion to their bytes. `None` if no FDE
/// covers the address.
///
/// The error is the first fault of a record before that FDE, or one of `row_in_place`.
pub fn row_by_records_in<'p, 'a>(
    section: &SectionInPlace<'a>,
    address: u64,
    memory: &'p mut LookUpMemory<'a>,
) -> Result<Option<(UnwindRow<'p, 'a>, EhFde<'a>)>, Fault>
    ensures fde { (place : Result (Option ℕ) Why) × Scans (section_of section.now) address place
        × MatchResult result
        (λ found. fde_by_place (section_of section.now) address place
        ≡ Ok (option_map (λ f. eh_fde_of f.1) found))
        (λ fault. (fault ≡ out_of_memory)
        ⊎ (fde_by_place (section_of section.now) address place ≡ Err fault)) }
    ensures row { IfOk result (λ found. IfSome found (λ f.
        row_of_fde section.now.target section.now.bytes.now (eh_fde_of f.1) address ≡ Some f.0)) }
    ensures checked { IfOk result (λ found. IfSome found (λ f.
        IsChecked (alone section.now.target section.now.bytes.now (eh_fde_of f.1)))) }
    ensures covers { IfOk result (λ found. IfSome found (λ f. Covers (eh_fde_of f.1).fde address)) }
{
    let Some(at) = first_covering(section, address)? else {
        return Ok(None);
    };
    row_in_place(section, at, address, memory)
}
