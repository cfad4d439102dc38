//! A cache of rows, each of which is packed into an entry.

ghost use Rattle.std.specs.Prelude.{◌≡◌, ◌≢◌, ◌↔◌, ◌<◌, ◌≤◌, ◌/◌, ◌+◌, ◌*◌, ℕ, IfSome, None, length, true, false};
ghost use Rattle.dw_rules.specs.Rules.{Row};
ghost use Rattle.dw_cached_rows.specs.CachedRows.{Holds, entry_at, is_usable, set_of_key, without_slot};

use crate::packed_row::{PackedRow, SLOTS};

/// How many rows a cache has room for.
pub const ROWS: usize = 1024;

/// How many entries may have the row of an address: those of one set.
pub const WAYS: usize = 4;

/// How many sets there are.
pub(crate) const SETS: usize = ROWS / WAYS;

/// About 2^64 divided by the golden ratio. The products of addresses with this number are spread
/// well over their highest bits.
pub(crate) const MULTIPLIER: u64 = 0x9e37_79b9_7f4a_7c15;

/// By how many bits a product is shifted to the right to give the number of a set.
const SHIFT: u32 = 56;

/// Rows that were looked up before, for walks that recur, in 26,888 bytes. It is plain data: any bytes
/// are a cache, and a new one is all zeros.
///
/// A row is of a module. The caller of a cache gives each module a slot, a number below `SLOTS`, and
/// says for each walk, by a mask of 64 bits, which slots are confirmed: that the module is still
/// the one whose rows the cache has. A row of any other slot isn't used. So a slot names one module
/// until `forget`.
#[repr(C)]
#[derive(Drop)]
pub struct CachedRows {
    pub(crate) rows: [PackedRow; ROWS],
    /// For each entry, the one that a walk used after it last. The last one of these is that with
    /// which the last walk began. They are guesses, which a walk checks.
    pub(crate) next: [u16; ROWS + 1],
    /// How many rows of each set were replaced, modulo 256.
    pub(crate) turns: [u8; SETS],
}

const _: () = prove!(size_of::<CachedRows>() == 26888);

/// Whether a row is that of a key, for a module that is confirmed.
#[inline(always)]
pub(crate) fn is_usable(row: &PackedRow, key: u64, confirmed: u64) -> bool
    ensures { result ≡ is_usable confirmed key row.now }
{
    row.key == key && (confirmed >> (row.slot % SLOTS)) % 2 == 1
}

/// The index of the first entry of the set in which a key is searched for.
#[inline(always)]
pub(crate) fn first_of_set(key: u64) -> usize
    ensures set { result ≡ set_of_key key * WAYS }
    ensures inside { result + WAYS ≤ ROWS }
{
    (key.wrapping_mul(MULTIPLIER) >> SHIFT) as usize * WAYS
}

/// The index of the entry with a key, for a module that is confirmed, in the set in which it is
/// searched for.
#[inline(always)]
pub(crate) fn find(rows: &[PackedRow; ROWS], key: u64, confirmed: u64) -> Option<usize>
    ensures found { IfSome result (λ index. (index < ROWS)
        × (is_usable confirmed key (entry_at rows.now index) ≡ true)) }
    ensures none { result ≡ None → (index : ℕ) → index / WAYS ≡ set_of_key key
        → is_usable confirmed key (entry_at rows.now index) ≡ false }
{
    let first = first_of_set(key);
    for way in 0..WAYS {
        if is_usable(&rows[first + way], key, confirmed) {
            return Some(first + way);
        }
    }
    None
}

/// Takes the keys of the entries of a slot away.
fn forget_slot(rows: &mut [PackedRow; ROWS], slot: u8)
    ensures length { length rows.new ≡ length rows.old }
    ensures each { (index : ℕ) → index < ROWS → entry_at rows.new index
        ≡ without_slot slot (entry_at rows.old index) }
{
    for index in 0..ROWS {
        if rows[index].slot % SLOTS == slot {
            rows[index].key = 0;
        }
    }
}

impl CachedRows {
    /// A cache without rows.
    pub fn new() -> Self
        ensures { (slot address : ℕ) (row : Row) → Holds result.rows slot address row → ⊥ }
    {
        CachedRows {
            rows: [PackedRow::none(); ROWS],
            next: [0; ROWS + 1],
            turns: [0; SETS],
        }
    }

    /// Forgets the rows of a module, whose slot may then name another one.
    pub fn forget(&mut self, slot: u8)
        requires { slot < SLOTS }
        ensures none { (address : ℕ) (row : Row) → Holds self.new.rows slot address row → ⊥ }
        ensures others { (other address : ℕ) (row : Row) → other ≢ slot
            → Holds self.new.rows other address row ↔ Holds self.old.rows other address row }
    {
        forget_slot(&mut self.rows, slot);
    }
}
