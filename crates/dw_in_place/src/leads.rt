//! Whether a search table leads to all FDEs of a checked section.

ghost use Rattle.std.specs.Prelude.{ℕ, ◌≡◌, ◌+◌, ◌^◌, ◌<◌, ◌↔◌, IsTrue, Contains, map};
ghost use Rattle.std.specs.Bool.{OnTrue, OnFalse};
ghost use Rattle.dw_frame.specs.Bounds.{Ascends};
ghost use Rattle.dw_frame.specs.Records.{Fde};
ghost use Rattle.dw_frame.specs.Views.{fde_of};
ghost use Rattle.dw_rows.specs.AddressIndex.{fde_offset};
ghost use Rattle.dw_in_place.specs.LookUps.{LeadsTo, LeadsToAll, record_offset};
ghost use Rattle.dw_in_place.specs.SearchTables.{IsInOrder, location_in};
ghost use Rattle.dw_in_place.specs.Views.{table_of};

use crate::record_offset::offset_of_record;
use crate::search_table::SearchTable;
use dw_frame::FrameDescriptionEntry;
use dw_rows::CheckedFrame;

/// Whether the entry after this one, if there is one, begins after an address.
fn ends_after(table: &SearchTable<'_>, entry: u32, address: u64) -> bool
    requires { entry < (table_of table.now).count }
    ensures { IsTrue result ↔ (entry + 1 < (table_of table.now).count
        → address < location_in (table_of table.now) (entry + 1)) }
{
    if entry + 1 == table.count() {
        return true;
    }
    address < table.location(entry + 1)
}

/// Whether one entry of a table, which must be in order, names the record of an FDE, and is that of
/// each address that the FDE covers. It must cover one. `start` is the address of the section.
fn leads_to(table: &SearchTable<'_>, start: u64, fde: &FrameDescriptionEntry<'_>) -> bool
    requires order { IsInOrder (table_of table.now) }
    requires some { 0 < fde.now.address_range }
    requires fits { fde.now.initial_location + fde.now.address_range < 2 ^ 64 }
    ensures leads { OnTrue result (LeadsTo (table_of table.now) start (fde_of fde.now)) }
    ensures not { OnFalse result (LeadsTo (table_of table.now) start (fde_of fde.now) → ⊥) }
{
    let Some(entry) = table.entry_for_address(fde.initial_location) else {
        return false;
    };
    if offset_of_record(table, start, entry) != u64::from(fde.offset) {
        return false;
    }
    let last = fde.initial_location + (fde.address_range - 1);
    if !ends_after(table, entry, last) {
        return false;
    }
    true
}

/// Whether the record that an entry of a table names is one of these FDEs, which are in the order
/// of the section.
fn names_one(
    table: &SearchTable<'_>,
    start: u64,
    entry: u32,
    fdes: &[FrameDescriptionEntry<'_>],
) -> bool
    requires order { Ascends fde_offset (map fde_of fdes.now) }
    requires within { entry < (table_of table.now).count }
    ensures { IsTrue result ↔ ((f : Fde) × Contains (map fde_of fdes.now) f
        × (record_offset (table_of table.now) start entry ≡ f.offset)) }
{
    let offset = offset_of_record(table, start, entry);
    match fdes.binary_search_by_key(&offset, |fde| u64::from(fde.offset)) {
        Ok(_) => true,
        Err(_) => false,
    }
}

/// Whether each entry of a table names the record of one of these FDEs.
fn names_only(table: &SearchTable<'_>, start: u64, fdes: &[FrameDescriptionEntry<'_>]) -> bool
    requires { Ascends fde_offset (map fde_of fdes.now) }
    ensures { IsTrue result ↔ ((k : ℕ) → k < (table_of table.now).count → (f : Fde)
        × Contains (map fde_of fdes.now) f × (record_offset (table_of table.now) start k ≡ f.offset)) }
{
    for entry in 0..table.count() {
        if !names_one(table, start, entry, fdes) {
            return false;
        }
    }
    true
}

/// Whether a table, which must be in order, leads to each of these FDEs that covers an address.
fn leads_to_each(table: &SearchTable<'_>, start: u64, fdes: &[FrameDescriptionEntry<'_>]) -> bool
    requires order { IsInOrder (table_of table.now) }
    requires fit { (f : Fde) → Contains (map fde_of fdes.now) f
        → f.initial_location + f.address_range < 2 ^ 64 }
    ensures lead { OnTrue result ((f : Fde) → Contains (map fde_of fdes.now) f → 0 < f.address_range
        → LeadsTo (table_of table.now) start f) }
    ensures not { OnFalse result (((f : Fde) → Contains (map fde_of fdes.now) f → 0 < f.address_range
        → LeadsTo (table_of table.now) start f) → ⊥) }
{
    for fde in fdes {
        if fde.address_range > 0 && !leads_to(table, start, fde) {
            return false;
        }
    }
    true
}

/// Whether a search table leads to all FDEs of a checked section: the table is in order, and for
/// each FDE a single entry serves all its addresses and names its record; and it names no other
/// records. A linker's table usually does, but not if an FDE has an exact copy, or if an empty FDE
/// begins within another one. `start` is the address of the section, and `frame` is what
/// `check_eh_frame` made of it. It takes O((m + n) log (m + n)) for m entries and n FDEs.
///
/// Then a look-up by the table gives the row that the section has, for each address (law
/// `look_ups_find_all_rows`).
pub fn leads_to_all(table: &SearchTable<'_>, start: u64, frame: &CheckedFrame<'_>) -> bool
    ensures leads { OnTrue result (LeadsToAll (table_of table.now) start frame.now.fdes) }
    ensures not { OnFalse result (LeadsToAll (table_of table.now) start frame.now.fdes → ⊥) }
{
    dw_rows::laws::checked_frame_sections();
    // For the proof: a section that is lent has passed its check.
    let _ = frame.section();
    let fdes = frame.fdes();
    if !table.is_in_order() {
        return false;
    }
    if !names_only(table, start, fdes) {
        return false;
    }
    if !leads_to_each(table, start, fdes) {
        return false;
    }
    true
}
