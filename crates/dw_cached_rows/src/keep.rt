//! Rows that are packed into a cache.

ghost use Rattle.std.specs.Prelude.{◌≡◌, ◌≢◌, ◌<◌, ◌≤◌, ◌+◌, ◌/◌, ◌⊎◌, ℕ, IfSome, true, false};
ghost use Rattle.dw_rules.specs.Rules.{Row};
ghost use Rattle.dw_compact_rows.specs.CompactRuns.{row_of_compact};
ghost use Rattle.dw_cached_rows.specs.CachedRows.{Holds, HoldsInSet, IsKept, IsPutIn, entry_at, set_of_key};
ghost use Rattle.dw_cached_rows.specs.PackedRows.{IsPackedFrom, IsRowOf, StandsFor};

use crate::cached_rows::{CachedRows, ROWS, SETS, WAYS, first_of_set};
use crate::packed_compact::pack_compact;
use crate::packed_row::{PackedRow, RETURN_ADDRESS, SLOTS, pack, pack_in_plt};
use crate::realigned_row::pack_realigned;
use dw_compact_rows::CompactRow;
use dw_rules::UnwindRow;

/// The index of the first entry with this key in the set that begins at `first`.
fn way_with_key(rows: &[PackedRow; ROWS], first: usize, key: u64) -> Option<usize>
    requires { first + WAYS ≤ ROWS }
    ensures { IfSome result (λ index. (first ≤ index) × (index < first + WAYS)) }
{
    for way in 0..WAYS {
        if rows[first + way].key == key {
            return Some(first + way);
        }
    }
    None
}

/// The index of the entry that a new row of a key takes: one with that key, or a free one, or the
/// next one of its set in turn.
fn entry_for(rows: &[PackedRow; ROWS], turns: &mut [u8; SETS], key: u64) -> usize
    ensures set { result / WAYS ≡ set_of_key key }
    ensures inside { result < ROWS }
{
    let first = first_of_set(key);
    if let Some(index) = way_with_key(rows, first, key) {
        return index;
    }
    if let Some(index) = way_with_key(rows, first, 0) {
        return index;
    }
    let set = first / WAYS;
    turns[set] = turns[set].wrapping_add(1);
    first + usize::from(turns[set]) % WAYS
}

/// Whether walks can use the rows of an FDE: those of a signal frame aren't, since its caller made no
/// call.
fn is_walked(return_register: u16, is_signal_frame: bool) -> bool
    ensures { result ≡ true → (return_register ≡ RETURN_ADDRESS) × (is_signal_frame ≡ false) }
{
    !is_signal_frame && return_register == RETURN_ADDRESS
}

/// Packs a row of an address. An entry of the form 0 if it can't be packed.
fn packed_at(row: &UnwindRow<'_, '_>, address: u64) -> PackedRow
    ensures { (result.form ≡ 0) ⊎ IsPackedFrom address row.now result }
{
    if let Some(packed) = pack(row) {
        return packed;
    }
    if address == u64::MAX {
        return PackedRow::none();
    }
    if let Some(packed) = pack_in_plt(row, address) {
        return packed;
    }
    match pack_realigned(row) {
        Some(packed) => packed,
        None => PackedRow::none(),
    }
}

/// Packs a row of an address if walks can use it. An entry of the form 0 if it can't be packed.
fn packed(
    row: &UnwindRow<'_, '_>,
    address: u64,
    return_register: u16,
    is_signal_frame: bool,
) -> PackedRow
    ensures { (result.form ≡ 0) ⊎ ((return_register ≡ RETURN_ADDRESS) × (is_signal_frame ≡ false)
        × IsPackedFrom address row.now result) }
{
    if !is_walked(return_register, is_signal_frame) {
        return PackedRow::none();
    }
    packed_at(row, address)
}

/// Packs a compact row if walks can use it. An entry of the form 0 if it can't be packed.
fn packed_compact(row: &CompactRow, return_register: u16, is_signal_frame: bool) -> PackedRow
    ensures { (result.form ≡ 0) ⊎ ((return_register ≡ RETURN_ADDRESS) × (is_signal_frame ≡ false)
        × IsRowOf result (row_of_compact row.now) × (result.plt_limit ≡ 0)) }
{
    if !is_walked(return_register, is_signal_frame) {
        return PackedRow::none();
    }
    match pack_compact(row) {
        Some(packed) => packed,
        None => PackedRow::none(),
    }
}

impl CachedRows {
    /// Puts an entry in for an address, of the module with the slot `slot`. Returns whether it stands
    /// for a row. It may take the place of another one.
    fn put(&mut self, slot: u8, address: u64, mut entry: PackedRow) -> bool
        requires { slot < SLOTS }
        ensures held { result ≡ true → (row : Row) → StandsFor address entry row
            → HoldsInSet self.new.rows slot address row }
        ensures some { result ≡ true → entry.form ≢ 0 }
        ensures dropped { result ≡ false → (other at : ℕ) (held : Row)
            → Holds self.new.rows other at held → Holds self.old.rows other at held }
        ensures one { (index : ℕ) × ((other : ℕ) → other ≢ index
            → entry_at self.new.rows other ≡ entry_at self.old.rows other) }
        ensures only { (other at : ℕ) (held : Row) → Holds self.new.rows other at held
            → Holds self.old.rows other at held ⊎ IsPutIn slot address entry other at held }
    {
        let Some(key) = address.checked_add(1) else {
            return false;
        };
        entry.key = key;
        entry.slot = slot;
        let index = entry_for(&self.rows, &mut self.turns, key);
        self.rows[index] = entry;
        entry.form != 0
    }

    /// Keeps the row of an address, of the module with the slot `slot`. `return_register` is the
    /// return address register that the row's CIE names. Returns whether the cache has the row now.
    /// If it can't have it, it may keep a note, so that walks say `Other` there and not `Missing`.
    /// The row may take the place of another one.
    pub fn keep(
        &mut self,
        slot: u8,
        address: u64,
        row: &UnwindRow<'_, '_>,
        return_register: u16,
        is_signal_frame: bool,
    ) -> bool
        requires { slot < SLOTS }
        ensures held { result ≡ true → HoldsInSet self.new.rows slot address row.now }
        ensures column { result ≡ true → return_register ≡ RETURN_ADDRESS }
        ensures called { result ≡ true → is_signal_frame ≡ false }
        ensures dropped { result ≡ false → (other at : ℕ) (held : Row)
            → Holds self.new.rows other at held → Holds self.old.rows other at held }
        ensures one { (index : ℕ) × ((other : ℕ) → other ≢ index
            → entry_at self.new.rows other ≡ entry_at self.old.rows other) }
        ensures only { (other at : ℕ) (held : Row) → Holds self.new.rows other at held
            → Holds self.old.rows other at held ⊎ IsKept slot address row.now return_register
            is_signal_frame other at held }
    {
        self.put(
            slot,
            address,
            packed(row, address, return_register, is_signal_frame),
        )
    }

    /// Keeps a compact row of an address, as `keep` keeps any row.
    pub fn keep_compact(
        &mut self,
        slot: u8,
        address: u64,
        row: &CompactRow,
        return_register: u16,
        is_signal_frame: bool,
    ) -> bool
        requires { slot < SLOTS }
        ensures held { result ≡ true
            → HoldsInSet self.new.rows slot address (row_of_compact row.now) }
        ensures column { result ≡ true → return_register ≡ RETURN_ADDRESS }
        ensures called { result ≡ true → is_signal_frame ≡ false }
        ensures dropped { result ≡ false → (other at : ℕ) (held : Row)
            → Holds self.new.rows other at held → Holds self.old.rows other at held }
        ensures one { (index : ℕ) × ((other : ℕ) → other ≢ index
            → entry_at self.new.rows other ≡ entry_at self.old.rows other) }
        ensures only { (other at : ℕ) (held : Row) → Holds self.new.rows other at held
            → Holds self.old.rows other at held ⊎ IsKept slot address (row_of_compact row.now)
            return_register is_signal_frame other at held }
    {
        self.put(
            slot,
            address,
            packed_compact(row, return_register, is_signal_frame),
        )
    }
}
