//! Laws about look-ups in place. The functions do nothing, but for the laws of other crates that
//! they call: the contract of each is a law.

ghost use Rattle.std.specs.Prelude.{ℕ, ◌≡◌, ◌<◌, ◌↔◌, ◌++◌, Bool, List, Contains, Option, Some, None, Ok};
ghost use Rattle.dw_bytes.specs.Answers.{values_in};
ghost use Rattle.dw_bytes.specs.declared.target.Target.{Target};
ghost use Rattle.dw_rows.specs.Section.{Covers, row_of};
ghost use Rattle.dw_eh_frame.specs.declared.pointer.Bases.{Bases};
ghost use Rattle.dw_eh_frame.specs.Records.{EhFde, eh_records_of};
ghost use Rattle.dw_eh_rows.specs.Section.{eh_frame_of, eh_section_fault};
ghost use Rattle.dw_eh_rows.specs.Signals.{eh_fdes};
ghost use Rattle.dw_signed_rows.specs.SignedRows.{is_signed_in};
ghost use Rattle.dw_signed_rows.specs.SignedSections.{is_signed_of};
ghost use Rattle.dw_in_place.specs.InPlace.{fde_at, lying, row_of_fde};
ghost use Rattle.dw_in_place.specs.LookUps.{GivesRow, LeadsToAll};
ghost use Rattle.dw_in_place.specs.SearchTables.{Table, Finds, IsEntryFor, IsInOrder, IsLastBy, location_in};

/// In a table that is in order, an entry is that of an address if and only if it is the last one
/// that begins at the address or before it. An address has at most one. If a search finds none,
/// each entry begins after the address.
pub fn one_entry_in_order()
    ensures last { (t : Table) (a k : ℕ) → IsInOrder t → IsEntryFor t a k ↔ IsLastBy t a k }
    ensures one { (t : Table) (a j k : ℕ) → IsInOrder t → IsEntryFor t a j → IsEntryFor t a k → j ≡ k }
    ensures none { (t : Table) (a k : ℕ) → IsInOrder t → Finds t a None → k < t.count → a < location_in t k }
{}

/// Where a process's section ends needn't be known: if bytes follow it, they don't change what is
/// found at an offset of the section without a fault.
pub fn bytes_after_a_section_change_nothing()
    ensures { (is_aarch64 : Bool) (bases : Bases) (target : Target) (section more : List ℕ) (at a : ℕ) (found : Option EhFde)
        → fde_at is_aarch64 bases target section at a ≡ Ok found
        → fde_at is_aarch64 bases target (section ++ more) at a ≡ Ok found }
{}

/// If `check_eh_frame` accepts a section, each of its FDEs that isn't left out as an exact copy is
/// found in place without a fault, for each address that it covers, and its row is the section's.
pub fn rows_in_place_are_those_of_the_section()
    ensures fde { (is_aarch64 : Bool) (bases : Bases) (target : Target) (section : List ℕ)
        → eh_section_fault is_aarch64 bases target section ≡ None → (e : EhFde)
        → Contains (eh_fdes (values_in (eh_records_of is_aarch64 bases target section))) e
        → Contains (eh_frame_of is_aarch64 bases target section).fdes e.fde → (a : ℕ) → Covers e.fde a
        → fde_at is_aarch64 bases target section e.fde.offset a ≡ Ok (Some e) }
    ensures row { (is_aarch64 : Bool) (bases : Bases) (target : Target) (section : List ℕ)
        → eh_section_fault is_aarch64 bases target section ≡ None → (e : EhFde)
        → Contains (eh_fdes (values_in (eh_records_of is_aarch64 bases target section))) e
        → Contains (eh_frame_of is_aarch64 bases target section).fdes e.fde → (a : ℕ) → Covers e.fde a
        → row_of_fde target section e a ≡ row_of (eh_frame_of is_aarch64 bases target section) a }
{
    dw_eh_frame::laws::sections_are_records();
    dw_eh_frame::laws::records_lie_one_after_another();
    dw_eh_frame::laws::only_copies_are_left_out();
    dw_rows::laws::records_without_fault_are_good();
    dw_eh_rows::laws::exact_eh_rows();
}

/// If `check_eh_frame` accepts a section, the FDE that is found in place for an address says what the
/// section says of the return address there: whether it is signed.
pub fn signatures_in_place_are_those_of_the_section()
    ensures { (is_aarch64 : Bool) (bases : Bases) (target : Target) (section : List ℕ)
        → eh_section_fault is_aarch64 bases target section ≡ None → (e : EhFde)
        → Contains (eh_fdes (values_in (eh_records_of is_aarch64 bases target section))) e
        → Contains (eh_frame_of is_aarch64 bases target section).fdes e.fde → (a : ℕ) → Covers e.fde a
        → is_signed_in e.cie.cie e.fde a ≡ is_signed_of (eh_frame_of is_aarch64 bases target section) a }
{
    dw_eh_frame::laws::sections_are_records();
    dw_eh_frame::laws::records_lie_one_after_another();
    dw_eh_frame::laws::only_copies_are_left_out();
    dw_rows::laws::records_without_fault_are_good();
    dw_eh_rows::laws::exact_eh_rows();
    dw_signed_rows::laws::signed_sections_are_exact();
}

/// If `check_eh_frame` accepts a section, and a table leads to all its FDEs, a look-up by the table
/// has no fault, and gives the row that the section has, for each address; none where it has none.
/// So it is if bytes follow the section.
pub fn look_ups_find_all_rows()
    ensures here { (is_aarch64 : Bool) (bases : Bases) (target : Target) (section : List ℕ) (t : Table)
        → eh_section_fault is_aarch64 bases target section ≡ None
        → LeadsToAll t bases.section (eh_frame_of is_aarch64 bases target section).fdes
        → (a : ℕ) (entry : Option ℕ) → Finds t a entry
        → GivesRow (lying is_aarch64 bases target section) t a entry (row_of (eh_frame_of is_aarch64 bases target section) a) }
    ensures followed { (is_aarch64 : Bool) (bases : Bases) (target : Target) (section more : List ℕ) (t : Table)
        → eh_section_fault is_aarch64 bases target section ≡ None
        → LeadsToAll t bases.section (eh_frame_of is_aarch64 bases target section).fdes
        → (a : ℕ) (entry : Option ℕ) → Finds t a entry
        → GivesRow (lying is_aarch64 bases target (section ++ more)) t a entry (row_of (eh_frame_of is_aarch64 bases target section) a) }
{
    dw_eh_frame::laws::sections_are_records();
    dw_eh_frame::laws::records_lie_one_after_another();
    dw_eh_frame::laws::only_copies_are_left_out();
    dw_rows::laws::records_without_fault_are_good();
    dw_eh_rows::laws::exact_eh_rows();
}
