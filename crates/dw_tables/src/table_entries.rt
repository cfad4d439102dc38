//! The entries of a compiled table. They say which rules hold from which address on.

ghost use Rattle.std.specs.Prelude.{◌≡◌, ◌+◌, ◌*◌, ◌<◌, ◌≤◌, [], ◌∷◌, ◌++◌, IfOk, IfSome, length, slice_get, slice_index_or, Some, ℕ};
ghost use Rattle.std.specs.Bool.{OnTrue};
ghost use Rattle.std.specs.Option.{option_map};
ghost use Rattle.std.specs.List.Sorted.{IsNonDecreasingBy};
ghost use Rattle.dw_tables.specs.CompiledTable.{IsEntryCount, IsSpanOf, IsStartCount, entry_start};

use crate::entry_starts::Starts;
use crate::rule_set_numbers::SetNumbers;
use std::alloc::{AllocError, Global};
use std::marker::Model;

/// One entry of a compiled table: the rule set with number `set` holds from `start` up to the next
/// entry's start. If the rule set has no CFA rule, no row covers these addresses.
#[derive(Clone, Copy)]
pub struct TableEntry {
    pub start: u64,
    pub set: u32,
}

/// Where a rule set holds: the one with number `set` does from `start` up to, but not including,
/// `end`, where the next entry begins.
#[derive(Clone, Copy)]
pub struct EntrySpan {
    pub start: u64,
    pub end: u64,
    pub set: u32,
}

/// Tells a look-up where to begin: for each block of addresses, how many starts are below the
/// block. A look-up checks the answer that it gets from the blocks, so the blocks affect only the
/// time.
#[derive(Drop)]
struct Blocks {
    shift: u32,
    counts: Vec<u32>,
}

/// A hint that says nothing. In a table with 2^32 - 1 entries it may be a count, and then it is a
/// guess like any other.
pub const NO_HINT: u32 = u32::MAX;

/// About how many starts a block has on average.
const USUAL_BLOCK: usize = 8;

/// Up to this many starts are counted one by one, which is faster than strides.
const FEW_STARTS: usize = 8;

/// By how many bits an offset is shifted to the right to give the number of its block. `span` is
/// the greatest offset, and the number of its block must be at most `blocks`. All blocks have the
/// same number of addresses.
fn block_shift(span: u64, blocks: u64) -> u32
    ensures { result < 64 }
{
    let mut shift = 0;
    while shift < 63 && span >> shift > blocks {
        shift += 1;
    }
    shift
}

/// The number of the block that an offset is in.
#[inline(always)]
fn block_of(shift: u32, offset: u32) -> usize
    requires { shift < 64 }
{
    (u64::from(offset) >> shift) as usize
}

/// Makes each element the greatest of those before it, or zero if they are all zero.
fn greatest_before(counts: &mut Vec<u32>)
    ensures { length counts.new.items ≡ length counts.old.items }
{
    let mut below = 0;
    for place in 0..counts.len() {
        let count = counts[place];
        counts[place] = below;
        below = below.max(count);
    }
}

/// Makes the blocks. `offsets` are the distances of the starts from the base, in ascending order.
/// There are at most two more counts than offsets, and usually far fewer. At first each block gets
/// the count of starts up to its end, or zero if it has no starts. No branch depends on where a block
/// ends, since such a branch would often be mispredicted.
fn blocks_of(alloc: Global, offsets: &[u32]) -> Result<Blocks, AllocError>
    ensures { IfOk result (λ blocks. length blocks.counts.items ≤ length offsets.now + 2) }
{
    let last = match offsets.last() {
        Some(last) => *last,
        None => 0,
    };
    let Ok(all) = u32::try_from(offsets.len()) else {
        return Err(AllocError);
    };
    let limit = offsets.len() / USUAL_BLOCK;
    let shift = block_shift(u64::from(last), limit as u64);
    let mut counts = Vec::with_capacity(alloc, limit + 2)?;
    for _ in 0..limit + 1 {
        counts.push(0)?;
    }
    let mut count = 0;
    for offset in offsets {
        count += 1;
        if let Some(element) = counts.get_mut(block_of(shift, *offset)) {
            *element = count;
        }
    }
    greatest_before(&mut counts);
    counts.push(all)?;
    Ok(Blocks { shift, counts })
}

/// One step of a search: how many starts to move up from index `low`, which is zero, one, two or
/// three times `quarter`. The step adds results of comparisons instead of branching, since a branch
/// would be mispredicted about half of the time. (A binary search becomes branches, whatever it
/// says.)
#[inline(always)]
fn stride(starts: &[u32], low: usize, quarter: usize, address: u32) -> usize
    requires inside { low + 3 * quarter ≤ length starts.now }
    requires some { 0 < quarter }
    ensures { result ≤ 3 * quarter }
{
    let first = usize::from(starts[low + quarter - 1] <= address);
    let second = usize::from(starts[low + 2 * quarter - 1] <= address);
    let third = usize::from(starts[low + 3 * quarter - 1] <= address);
    (first + second + third) * quarter
}

/// How many of a few starts are at or below `address`.
#[inline(always)]
fn count_among(starts: &[u32], address: u32) -> usize
    ensures { result ≤ length starts.now }
{
    let mut count = 0;
    for start in starts {
        count += usize::from(*start <= address);
    }
    count
}

/// How many starts are at or below `address`, if that count is at least `from` and at most `to`.
/// Otherwise the result may be wrong.
#[inline(always)]
fn count_between(starts: &[u32], from: usize, to: usize, address: u32) -> usize {
    if from > to || to > starts.len() {
        return 0;
    }
    let mut low = from;
    let mut size = to - from;
    while size > FEW_STARTS {
        let quarter = size / 4;
        low += stride(starts, low, quarter, address);
        size -= 3 * quarter;
    }
    low + count_among(&starts[low..low + size], address)
}

/// Whether the first `count` starts are at or below `address`.
#[inline(always)]
fn are_low(starts: &Starts, count: usize, address: u64) -> bool
    requires sorted { IsNonDecreasingBy (λ x. x) starts.now }
    requires bound { count ≤ length starts.now }
    ensures { OnTrue result ((k d : ℕ) → k < count → slice_index_or starts.now k d ≤ address) }
{
    if count == 0 {
        return true;
    }
    if starts.at(count - 1) > address {
        return false;
    }
    true
}

/// Whether the starts after the first `count` are above `address`.
#[inline(always)]
fn are_high(starts: &Starts, count: usize, address: u64) -> bool
    requires sorted { IsNonDecreasingBy (λ x. x) starts.now }
    requires bound { count ≤ length starts.now }
    ensures { OnTrue result ((k d : ℕ) → count ≤ k → k < length starts.now
        → address < slice_index_or starts.now k d) }
{
    if count == starts.count() {
        return true;
    }
    if starts.at(count) <= address {
        return false;
    }
    true
}

/// Whether exactly `count` starts are at or below `address`.
#[inline(always)]
fn is_count(starts: &Starts, count: usize, address: u64) -> bool
    requires { IsNonDecreasingBy (λ x. x) starts.now }
    ensures { OnTrue result (IsStartCount starts.now address count) }
{
    if count > starts.count() {
        return false;
    }
    if are_low(starts, count, address) && are_high(starts, count, address) {
        return true;
    }
    false
}

/// Whether exactly `count` starts are at or below `address`. False also if the address isn't
/// between two near starts. This takes a few instructions, `is_count` about 30.
#[inline(always)]
fn is_near_count(starts: &Starts, count: usize, address: u64) -> bool
    requires { IsNonDecreasingBy (λ x. x) starts.now }
    ensures { OnTrue result (IsStartCount starts.now address count) }
{
    starts.has_between(count, address)
}

impl Blocks {
    /// How many starts are at or below `address`. The answer may be wrong, and must be checked.
    #[inline(always)]
    fn guess(&self, base: u64, offsets: &[u32], address: u64) -> usize {
        if self.shift >= 64 {
            return 0;
        }
        if address < base {
            return 0;
        }
        let Ok(offset) = u32::try_from(address - base) else {
            return offsets.len();
        };
        let block = block_of(self.shift, offset);
        if block >= self.counts.len() || block + 1 >= self.counts.len() {
            return offsets.len();
        }
        count_between(
            offsets,
            self.counts[block] as usize,
            self.counts[block + 1] as usize,
            offset,
        )
    }
}

/// The entries of a compiled table, in order of address. The starts are stored in an array of their
/// own, since a look-up reads only starts until it has found its entry.
#[derive(Drop)]
pub struct TableEntries {
    starts: Starts,
    sets: SetNumbers,
    blocks: Blocks,
}

impl Model for TableEntries {
    ghost use Rattle.std.specs.Prelude.{List};
    ghost use Rattle.dw_tables.specs.declared.table_entries.TableEntry.{TableEntry};

    ghost Value = { List TableEntry };

    ghost use Rattle.dw_tables.specs.CompiledTable.{paired, AreEntryLists};

    ghost view = { λ t. paired t.starts t.sets };

    ghost invariant = { λ t. AreEntryLists t.starts t.sets t.blocks.counts.items };
}

/// How many starts are at or below `address`, by binary search.
fn count_up_to(starts: &Starts, address: u64) -> usize
    requires { IsNonDecreasingBy (λ x. x) starts.now }
    ensures { IsStartCount starts.now address result }
{
    let mut low = 0;
    let mut size = starts.count();
    while size > 0 {
        let half = size / 2;
        if starts.at(low + half) <= address {
            low += half + 1;
            size -= half + 1;
        } else {
            size = half;
        }
    }
    low
}

impl TableEntries {
    /// An empty list, with room for `count` entries.
    pub fn with_capacity(alloc: Global, base: u64, count: usize) -> Result<Self, AllocError>
        ensures { IfOk result (λ entries. entries ≡ []) }
    {
        Ok(TableEntries {
            starts: Starts::with_capacity(alloc, base, count)?,
            sets: SetNumbers::with_capacity(alloc, count)?,
            blocks: Blocks {
                shift: 0,
                counts: Vec::new(alloc),
            },
        })
    }

    /// Gives back spare capacity, and makes the blocks that speed up look-ups.
    pub fn finish(&mut self, alloc: Global) -> Result<(), AllocError>
        ensures { self.new ≡ self.old }
    {
        self.starts.cut();
        self.sets.cut();
        let (_, offsets) = self.starts.near();
        self.blocks = blocks_of(alloc, offsets)?;
        Ok(())
    }

    /// Appends an entry. If memory can't be allocated, all entries may be lost.
    #[inline(always)]
    pub fn push(&mut self, entry: TableEntry) -> Result<(), AllocError>
        ensures { IfOk result (λ _. self.new ≡ self.old ++ entry ∷ []) }
    {
        self.sets.push(entry.set)?;
        match self.starts.push(entry.start) {
            Ok(()) => Ok(()),
            Err(_) => {
                self.starts.clear();
                self.sets.clear();
                self.blocks.counts.clear();
                Err(AllocError)
            }
        }
    }

    /// How many entries there are.
    #[inline(always)]
    pub fn count(&self) -> usize
        ensures { result ≡ length self.now }
    {
        self.starts.count()
    }

    /// How many entries begin at or below `address`. If the blocks give a wrong count, a binary
    /// search over all entries follows.
    pub fn count_up_to(&self, address: u64) -> usize
        requires { IsNonDecreasingBy entry_start self.now }
        ensures { IsEntryCount self.now address result }
    {
        let (base, offsets) = self.starts.near();
        let guess = self.blocks.guess(base, offsets, address);
        if is_count(&self.starts, guess, address) {
            return guess;
        }
        count_up_to(&self.starts, address)
    }

    /// How many entries begin at or below `address`. `hint` is a guess of this count. If it is
    /// wrong, or if the address isn't between two near starts (`Starts`), a search follows, and
    /// `hint` becomes the count.
    #[inline(always)]
    pub fn count_up_to_near(&self, address: u64, hint: &mut u32) -> usize
        requires { IsNonDecreasingBy entry_start self.now }
        ensures { IsEntryCount self.now address result }
    {
        let near = *hint as usize;
        if is_near_count(&self.starts, near, address) {
            return near;
        }
        let count = self.count_up_to(address);
        // A count with more than 32 bits can't be a hint.
        *hint = u32::try_from(count).unwrap_or(NO_HINT);
        count
    }

    /// The span of the entry that has `address`: the last one that begins at or below it. None if
    /// the guess by blocks is wrong, or if the address isn't between two near starts. All that this
    /// calls is inlined.
    #[inline(always)]
    pub fn usual_span(&self, address: u64) -> Option<EntrySpan>
        requires { IsNonDecreasingBy entry_start self.now }
        ensures { IfSome result (IsSpanOf self.now address) }
    {
        let (base, offsets) = self.starts.near();
        let count = self.blocks.guess(base, offsets, address);
        let (start, end) = self.starts.around(count, address)?;
        Some(EntrySpan {
            start,
            end,
            set: self.sets.at(count - 1),
        })
    }

    /// The entry at index `place`.
    #[inline(always)]
    pub fn at(&self, place: usize) -> TableEntry
        requires { place < length self.now }
        ensures { slice_get self.now place ≡ Some result }
    {
        TableEntry {
            start: self.starts.at(place),
            set: self.sets.at(place),
        }
    }

    /// The address at which the entry at index `place` begins.
    #[inline(always)]
    pub fn start_at(&self, place: usize) -> u64
        requires { place < length self.now }
        ensures { option_map entry_start (slice_get self.now place) ≡ Some result }
    {
        self.starts.at(place)
    }
}
