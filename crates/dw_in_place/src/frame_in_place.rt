//! Many look-ups in an `.eh_frame` section in place, without preprocessing.

ghost use Rattle.std.specs.Prelude.{◌≡◌, None, IfSome, IsSome};
ghost use Rattle.dw_eh_frame.specs.Views.{eh_fde_of, fde_with_cie};

use crate::in_place::{
    CheckedRow, KnownAnswer, KnownCie, covering_fde, find_by_check, find_known, is_known,
    lend_checked,
};
use crate::record_offset::offset_of_record;
use crate::scan::first_covering;
use crate::search_table::SearchTable;
use crate::section_in_place::SectionInPlace;
use dw_bytes::Fault;
use dw_eh_frame::{EhCie, EhFde};
use dw_frame::FrameDescriptionEntry;
use dw_rows::CheckedExpressions;
use dw_rules::{UnwindRow, UnwindState};
use std::alloc::Global;
use std::marker::Model;

/// Which of the two states has the rules of the row.
#[derive(Clone, Copy)]
pub enum Place {
    First,
    Second,
}

/// What was found: an FDE with its CIE, and where its row begins and ends. The row's rules are in
/// force in the state at `place`. The first `in_cie` of the expressions are the CIE's.
#[derive(Clone, Copy)]
pub struct FoundRow<'a> {
    pub place: Place,
    pub fde: EhFde<'a>,
    pub in_cie: usize,
    pub start: u64,
    pub end: u64,
}

/// An `.eh_frame` section in place, with the working memory of look-ups. Nothing is preprocessed,
/// and each look-up reads and checks two records only, an FDE and its CIE. The rules that the last
/// two CIEs leave are kept, if these have no fault and no expressions, since most FDEs have one of
/// those.
///
/// It takes some 9 KB. Create one, and reuse it for many look-ups: they allocate nothing. A look-up
/// takes 2 KB of stack for each remember_state that is open at the row, and a program with an
/// expression or a rare instruction takes up to 40 KB, for which the alternate stack of a signal
/// handler needs room. A handler needs a `FrameInPlace` of its own, since it may interrupt a
/// look-up.
///
/// ```rust
/// let mut frame = FrameInPlace::new(alloc, section);
/// let Some(table) = SearchTable::read(header, target, 0x3000) else {
///     return Ok(()); // not as linkers write it
/// };
/// if frame.find(&table, 0x1004)? {
///     let row = frame.row();
///     println!(rt; "{:#x}: CIE {:#x}", row.start_address(), frame.fde().cie.cie.offset)?;
/// }
/// ```
#[derive(Drop)]
pub struct FrameInPlace<'a> {
    section: SectionInPlace<'a>,
    first: KnownCie<'a>,
    second: KnownCie<'a>,
    /// Whether the next CIE takes the place of the first one.
    first_is_next: bool,
    /// The expressions of the FDE that was found, and of its CIE.
    expressions: CheckedExpressions<'a>,
    found: Option<FoundRow<'a>>,
}

impl<'a> Model for FrameInPlace<'a> {
    ghost use Rattle.std.specs.Prelude.{IfSome};
    ghost use Rattle.dw_in_place.specs.Known.{Looking, IsKnown, IsLendable, found_in, state_at};
    ghost use Rattle.dw_in_place.specs.Views.{section_of};

    ghost Value = { Looking };

    ghost view = { λ f. record {
      section = section_of f.section;
      found = found_in f.first f.second f.expressions f.found;
    } };

    ghost invariant = { λ f. IsKnown (section_of f.section) f.first × IsKnown (section_of f.section) f.second
        × IfSome f.found (λ r. IsLendable (state_at f.first f.second r.place).current f.expressions r.in_cie) };
}

/// No CIE is known.
fn nothing_known<'a>() -> KnownCie<'a>
    ensures { result.cie ≡ None }
{
    KnownCie {
        cie: None,
        state: UnwindState::new(),
    }
}

/// What was found with a known CIE.
#[inline(always)]
fn found_quickly<'a>(
    place: Place,
    known: &KnownCie<'a>,
    fde: FrameDescriptionEntry<'a>,
    start: u64,
    end: u64,
) -> FoundRow<'a>
    requires { IsSome known.now.cie }
    ensures fde { IfSome known.now.cie (λ cie. eh_fde_of result.fde ≡ fde_with_cie cie fde.entry) }
    ensures place { result.place ≡ place }
    ensures in_cie { result.in_cie ≡ 0 }
    ensures start { result.start ≡ start }
    ensures end { result.end ≡ end }
{
    let Some(cie) = known.cie else { unreachable!() };
    FoundRow {
        place,
        fde: EhFde { fde, cie },
        in_cie: 0,
        start,
        end,
    }
}

/// What was found by a check of the FDE and its CIE.
fn found_by_check<'a>(place: Place, fde: &EhFde<'a>, row: CheckedRow) -> FoundRow<'a>
    ensures fde { result.fde ≡ fde.now }
    ensures place { result.place ≡ place }
    ensures in_cie { result.in_cie ≡ row.in_cie }
    ensures start { result.start ≡ row.start }
    ensures end { result.end ≡ row.end }
{
    FoundRow {
        place,
        fde: *fde,
        in_cie: row.in_cie,
        start: row.start,
        end: row.end,
    }
}

impl<'a> FrameInPlace<'a> {
    ghost use Rattle.std.specs.Prelude.{ℕ, ◌≡◌, ◌⊎◌, ◌≤◌, is_some, length, IfOk, IfSome, IsSome, MatchResult, None, OnErr, OnOk, Option, Some, Ok, Err, Result, option_map};
    ghost use Rattle.dw_bytes.specs.Answers.{Answers, memory};
    ghost use Rattle.dw_bytes.specs.declared.fault.Fault.{Fault as Why};
    ghost use Rattle.dw_rows.specs.Section.{Covers, IsChecked};
    ghost use Rattle.dw_eh_frame.specs.Views.{IsCieOf, eh_fde_of};
    ghost use Rattle.dw_in_place.specs.InPlace.{alone, fde_in_place_fault, found_at, row_of_fde};
    ghost use Rattle.dw_in_place.specs.Known.{IsRead, has_fde, has_row};
    ghost use Rattle.dw_in_place.specs.LookUps.{fde_by_entry};
    ghost use Rattle.dw_in_place.specs.Scans.{Scans, fde_by_place};
    ghost use Rattle.dw_in_place.specs.SearchTables.{Finds};
    ghost use Rattle.dw_in_place.specs.Views.{section_of, table_of};

    /// A section in place, in which nothing has been found yet. Nothing is allocated, now or later.
    pub fn new(alloc: Global, section: SectionInPlace<'a>) -> Self
        ensures { result ≡ record { section = section_of section.entry; found = None } }
    {
        FrameInPlace {
            section,
            first: nothing_known(),
            second: nothing_known(),
            first_is_next: true,
            expressions: CheckedExpressions::few(alloc),
            found: None,
        }
    }

    /// Whether the last look-up found a row.
    pub fn has_found(&self) -> bool
        ensures { result ≡ is_some self.now.found }
    {
        self.found.is_some()
    }

    /// The row that the last look-up found. It must have found one.
    #[inline(always)]
    pub fn row(&self) -> UnwindRow<'_, 'a>
        requires { IsSome self.now.found }
        ensures { option_map has_row self.now.found ≡ Some result }
    {
        let Some(found) = self.found else {
            unreachable!()
        };
        let state = match found.place {
            Place::First => &self.first.state,
            Place::Second => &self.second.state,
        };
        lend_checked(
            state,
            &self.expressions,
            found.in_cie,
            found.start,
            found.end,
        )
    }

    /// The FDE of the row that the last look-up found, with its CIE. It must have found one.
    #[inline(always)]
    pub fn fde(&self) -> EhFde<'a>
        requires { IsSome self.now.found }
        ensures { option_map has_fde self.now.found ≡ Some (eh_fde_of result) }
    {
        let Some(found) = self.found else {
            unreachable!()
        };
        found.fde
    }

    /// Finds the row of an address in the record at the offset `at` of the section, which must not
    /// be past its end. The result says whether there is one: then `row` lends it, and `fde`
    /// returns the record as an FDE, with its CIE. Only these two records are read, whatever bytes
    /// are there. Once they have been read, there is no row if the record isn't an FDE, or doesn't
    /// cover the address: then neither program is checked. Pass the return address minus 1 for the
    /// caller of a frame, unless the frame is a signal frame.
    ///
    /// The error is the first fault, with its offset in the section: a fault of `eh_record`;
    /// `NoSuchCie` (9) at the CIE pointer, if the CIE ends after the FDE begins; a fault of the
    /// CIE's program, or else of the FDE's, up to its end, as `check_fde` of `dw_rows` reports it.
    /// `Memory` (60), at 0, says that the two programs together have more than `MAX_FEW` (32)
    /// expressions, or that an expression is longer than 16 bytes, whether or not the row uses it;
    /// then the rest isn't checked. It takes time in proportion to the bytes of the two records.
    #[inline(always)]
    pub fn find_at(&mut self, at: u32, address: u64) -> Result<bool, Fault>
        requires { at ≤ length self.old.section.bytes }
        ensures fde { MatchResult result
            (λ _. found_at self.old.section at address ≡ Ok (option_map has_fde self.new.found))
            (λ fault. (fault ≡ memory) ⊎ (found_at self.old.section at address ≡ Err fault)) }
        ensures some { IfOk result (λ is_found. is_found ≡ is_some self.new.found) }
        ensures row { IfSome self.new.found (λ f.
            row_of_fde self.old.section.target self.old.section.bytes (has_fde f) address ≡ Some (has_row f)) }
        ensures checked { IfSome self.new.found (λ f.
            IsChecked (alone self.old.section.target self.old.section.bytes (has_fde f))) }
        ensures covers { IfSome self.new.found (λ f. Covers (has_fde f).fde address) }
        ensures same { self.new.section ≡ self.old.section }
        ensures none { OnErr result (self.new.found ≡ None) }
    {
        self.found = None;
        match find_known(&self.section, &mut self.first, at, address) {
            KnownAnswer::Row(fde, start, end) => {
                self.expressions.clear();
                self.found = Some(found_quickly(Place::First, &self.first, fde, start, end));
                return Ok(true);
            }
            KnownAnswer::Nothing => return Ok(false),
            KnownAnswer::Unsure => {}
        }
        match find_known(&self.section, &mut self.second, at, address) {
            KnownAnswer::Row(fde, start, end) => {
                self.expressions.clear();
                self.found = Some(found_quickly(Place::Second, &self.second, fde, start, end));
                return Ok(true);
            }
            KnownAnswer::Nothing => return Ok(false),
            KnownAnswer::Unsure => {}
        }
        self.find_any(at, address)
    }

    /// What `find_at` does, with the CIE read and its program checked. Nothing may have been found.
    #[inline(never)]
    fn find_any(&mut self, at: u32, address: u64) -> Result<bool, Fault>
        requires inside { at ≤ length self.old.section.bytes }
        requires nothing { self.old.found ≡ None }
        ensures fde { MatchResult result
            (λ _. found_at self.old.section at address ≡ Ok (option_map has_fde self.new.found))
            (λ fault. (fault ≡ memory) ⊎ (found_at self.old.section at address ≡ Err fault)) }
        ensures some { IfOk result (λ is_found. is_found ≡ is_some self.new.found) }
        ensures row { IfSome self.new.found (λ f.
            row_of_fde self.old.section.target self.old.section.bytes (has_fde f) address ≡ Some (has_row f)) }
        ensures checked { IfSome self.new.found (λ f.
            IsChecked (alone self.old.section.target self.old.section.bytes (has_fde f))) }
        ensures covers { IfSome self.new.found (λ f. Covers (has_fde f).fde address) }
        ensures same { self.new.section ≡ self.old.section }
        ensures none { OnErr result (self.new.found ≡ None) }
    {
        let Some(fde) = covering_fde(&self.section, at, address)? else {
            return Ok(false);
        };
        self.check(&fde, address)?;
        Ok(true)
    }

    /// Whether the first place is the one for a CIE: it is there already, or isn't in the second
    /// place, and the first is next.
    fn takes_first(&self, cie: &EhCie<'a>) -> bool {
        is_known(&self.first, cie) || (self.first_is_next && !is_known(&self.second, cie))
    }

    /// Checks an FDE and its CIE, and finds the row of an address that the FDE covers. From then on
    /// the CIE is known. Nothing may have been found.
    fn check(&mut self, fde: &EhFde<'a>, address: u64) -> Result<(), Fault>
        requires covers { Covers (eh_fde_of fde.now).fde address }
        requires read { (at : ℕ) × IsRead self.old.section at (eh_fde_of fde.now) }
        requires cie { IsCieOf self.old.section.is_aarch64 self.old.section.target self.old.section.bytes fde.now.cie }
        requires nothing { self.old.found ≡ None }
        ensures fault { Answers (fde_in_place_fault (eh_fde_of fde.now)) result }
        ensures fde { OnOk result (option_map has_fde self.new.found ≡ Some (eh_fde_of fde.now)) }
        ensures row { IfSome self.new.found (λ f.
            row_of_fde self.old.section.target self.old.section.bytes (has_fde f) address ≡ Some (has_row f)) }
        ensures checked { IfSome self.new.found (λ f.
            IsChecked (alone self.old.section.target self.old.section.bytes (has_fde f))) }
        ensures covers { IfSome self.new.found (λ f. Covers (has_fde f).fde address) }
        ensures same { self.new.section ≡ self.old.section }
        ensures none { OnErr result (self.new.found ≡ None) }
    {
        if self.takes_first(&fde.cie) {
            self.first_is_next = false;
            let row = find_by_check(
                &self.section,
                fde,
                address,
                &mut self.first,
                &mut self.expressions,
            )?;
            self.found = Some(found_by_check(Place::First, fde, row));
            Ok(())
        } else {
            self.first_is_next = true;
            let row = find_by_check(
                &self.section,
                fde,
                address,
                &mut self.second,
                &mut self.expressions,
            )?;
            self.found = Some(found_by_check(Place::Second, fde, row));
            Ok(())
        }
    }

    /// Finds the row of an address in the first FDE of the section that covers it, as `find_at` does.
    /// This is for a section without a search table, such as one that a JIT compiler writes: the
    /// records before the FDE are read one after another, so it takes time in proportion to their
    /// bytes. Once they have been read, there is no row if no FDE covers the address.
    ///
    /// The error is the first fault of a record before that FDE, or one of `find_at`.
    pub fn find_by_records(&mut self, address: u64) -> Result<bool, Fault>
        ensures fde { (place : Result (Option ℕ) Why) × Scans self.old.section address place × MatchResult result
            (λ _. fde_by_place self.old.section address place ≡ Ok (option_map has_fde self.new.found))
            (λ fault. (fault ≡ memory) ⊎ (fde_by_place self.old.section address place ≡ Err fault)) }
        ensures some { IfOk result (λ is_found. is_found ≡ is_some self.new.found) }
        ensures row { IfSome self.new.found (λ f.
            row_of_fde self.old.section.target self.old.section.bytes (has_fde f) address ≡ Some (has_row f)) }
        ensures checked { IfSome self.new.found (λ f.
            IsChecked (alone self.old.section.target self.old.section.bytes (has_fde f))) }
        ensures covers { IfSome self.new.found (λ f. Covers (has_fde f).fde address) }
        ensures same { self.new.section ≡ self.old.section }
        ensures none { OnErr result (self.new.found ≡ None) }
    {
        self.found = None;
        let Some(at) = first_covering(&self.section, address)? else {
            return Ok(false);
        };
        self.find_at(at, address)
    }

    /// Finds the row of an address in the record that a table names for it, as `find_at` does.
    /// There is none if the table names no record for the address, or one past the section's end;
    /// or if that record isn't an FDE, or doesn't cover the address. The row is always that of the
    /// record that was read, but a wrong table may lead to no row, or to bytes within another
    /// record; in a table out of order an address may have several entries. It is the row that a
    /// check of the whole section gives, if the section is accepted and the table leads to all FDEs
    /// (law `look_ups_find_all_rows`). That the table is this section's isn't checked: compare its
    /// `frame_address` with `bases.section`.
    ///
    /// The search takes O(log n) for n entries. For the errors see `find_at`.
    #[inline(always)]
    pub fn find(&mut self, table: &SearchTable<'_>, address: u64) -> Result<bool, Fault>
        ensures fde { (entry : Option ℕ) × Finds (table_of table.now) address entry × MatchResult result
            (λ _. fde_by_entry self.old.section (table_of table.now) address entry
            ≡ Ok (option_map has_fde self.new.found))
            (λ fault. (fault ≡ memory)
            ⊎ (fde_by_entry self.old.section (table_of table.now) address entry ≡ Err fault)) }
        ensures some { IfOk result (λ is_found. is_found ≡ is_some self.new.found) }
        ensures row { IfSome self.new.found (λ f.
            row_of_fde self.old.section.target self.old.section.bytes (has_fde f) address ≡ Some (has_row f)) }
        ensures checked { IfSome self.new.found (λ f.
            IsChecked (alone self.old.section.target self.old.section.bytes (has_fde f))) }
        ensures covers { IfSome self.new.found (λ f. Covers (has_fde f).fde address) }
        ensures same { self.new.section ≡ self.old.section }
        ensures none { OnErr result (self.new.found ≡ None) }
    {
        self.found = None;
        let Some(entry) = table.entry_for_address(address) else {
            return Ok(false);
        };
        let at = offset_of_record(table, self.section.bases.section, entry);
        if at >= self.section.bytes.len() as u64 {
            return Ok(false);
        }
        self.find_at(at as u32, address)
    }
}
