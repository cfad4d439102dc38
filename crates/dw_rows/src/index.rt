//! An index of FDEs in order of address: how it is made, and how it finds overlaps and the FDE of
//! an address.

ghost use Rattle.std.specs.Prelude.{◌≡◌, ◌+◌, ◌*◌, ◌<◌, length, map, All, MatchBool, MatchOption, IfOk, filter, nat_lt, option_map};
ghost use Rattle.dw_frame.specs.Views.{fde_of};
ghost use Rattle.dw_rows.specs.Section.{CoversOnce, IsCoverOf};
ghost use Rattle.dw_rows.specs.AddressIndex.{fde_offset, fde_at, IsStride, IsCountUpTo, IsEntry, IsAddressIndex, ClashWithin, ApartWithin};
ghost use Rattle.dw_rows.specs.AddressIndex.{AreApart, IsFirstOverlap};
ghost use Rattle.dw_frame.specs.Bounds.{Ascends};
ghost use Rattle.std.specs.List.Sorted.{IsNonDecreasingBy, IsPermutation};
ghost use Rattle.dw_rows.specs.declared.index.IndexEntry.{IndexEntry};

use dw_frame::FrameDescriptionEntry;
use std::alloc::{AllocError, Global};

/// An FDE's initial location, and the index of the FDE among all FDEs. The initial location is
/// copied so that a search reads only index entries, which have 16 bytes each, and no FDEs.
#[derive(Clone, Copy)]
pub struct IndexEntry {
    pub start: u64,
    pub place: usize,
}

/// The index entries of the FDEs that cover at least one address, in the order of the section.
fn covering_some(
    alloc: Global,
    fdes: &[FrameDescriptionEntry<'_>],
) -> Result<Vec<IndexEntry>, AllocError>
    ensures entries { IfOk result (λ index. All (IsEntry (map fde_of fdes.now)) index.items) }
    ensures fdes { IfOk result (λ index. map (fde_at (map fde_of fdes.now)) index.items ≡ filter
        (λ f. nat_lt 0 f.address_range) (map fde_of fdes.now)) }
{
    let mut index = Vec::with_capacity(alloc, fdes.len())?;
    for (place, fde) in fdes.iter().enumerate() {
        if fde.address_range > 0 {
            let start = fde.initial_location;
            index.push(IndexEntry { start, place })?;
        }
    }
    Ok(index)
}

/// How many bytes of a section an FDE must take on average for the stable sort to be used. A check takes
/// 64 bytes for an FDE, 16 for its index entry, and during this sort 16 more: so at most 2.5 bytes
/// for a byte of the section.
const BYTES_FOR_A_BUFFER: usize = 40;

/// Whether a section of `size` bytes with `count` FDEs has FDEs of the usual size.
fn are_usual(count: usize, size: usize) -> bool {
    count <= size / BYTES_FOR_A_BUFFER
}

/// Sorts index entries by their starts. Linkers write long runs of FDEs in order of address, which the
/// stable sort merges, in half of the time of the unstable one; but it takes a buffer as long as the
/// index. Without `with_buffer`, or if memory for it can't be allocated, the sort is the unstable one.
fn sort_by_start(index: &mut Vec<IndexEntry>, with_buffer: bool)
    ensures permutation { IsPermutation index.old.items index.new.items }
    ensures sorted { IsNonDecreasingBy (λ (e : IndexEntry). e.start) index.new.items }
{
    if with_buffer && let Ok(()) = index.sort_by_key(|entry| entry.start) {
        return;
    }
    index.sort_unstable_by_key(|entry| entry.start);
}

/// Index entries of the FDEs that cover at least one address, in order of address. Making them
/// takes O(n log n) time for n FDEs. `size` is how many bytes the section has.
pub fn index_of(
    alloc: Global,
    fdes: &[FrameDescriptionEntry<'_>],
    size: usize,
) -> Result<Vec<IndexEntry>, AllocError>
    requires { Ascends fde_offset (map fde_of fdes.now) }
    ensures { IfOk result (λ index. IsAddressIndex (map fde_of fdes.now) index.items) }
{
    let mut index = covering_some(alloc, fdes)?;
    sort_by_start(&mut index, are_usual(fdes.len(), size));
    Ok(index)
}

/// Whether two FDEs with offsets up to and including `last` share an address. This takes one pass
/// over the FDEs in order of address.
fn overlaps(fdes: &[FrameDescriptionEntry<'_>], index: &[IndexEntry], last: u32) -> bool
    requires { IsAddressIndex (map fde_of fdes.now) index.now }
    ensures { MatchBool result (ClashWithin (map (fde_at (map fde_of fdes.now)) index.now) last)
        (ApartWithin (map (fde_at (map fde_of fdes.now)) index.now) last) }
{
    let mut end = 0;
    for entry in index {
        let fde = fdes[entry.place];
        if fde.offset <= last {
            if fde.initial_location < end {
                return true;
            }
            end = fde.initial_location + fde.address_range;
        }
    }
    false
}

/// The first FDE, in order of offset, that shares an address with an FDE before it, or `None` if no
/// FDE does. If FDEs up to some offset overlap, so do the FDEs up to any later offset. So a binary
/// search finds that first FDE, in O(n log n) time for n FDEs.
pub fn first_overlap<'a>(
    fdes: &[FrameDescriptionEntry<'a>],
    index: &[IndexEntry],
) -> Option<FrameDescriptionEntry<'a>>
    requires fdes { Ascends fde_offset (map fde_of fdes.now) }
    requires index { IsAddressIndex (map fde_of fdes.now) index.now }
    ensures { MatchOption result (AreApart (map fde_of fdes.now))
        (λ g. IsFirstOverlap (map fde_of fdes.now) (fde_of g)) }
{
    let mut high = fdes.len();
    if high == 0 || !overlaps(fdes, index, fdes[high - 1].offset) {
        return None;
    }
    high -= 1;
    let mut low = 0;
    while low < high {
        let middle = low + (high - low) / 2;
        if overlaps(fdes, index, fdes[middle].offset) {
            high = middle;
        } else {
            low = middle + 1;
        }
    }
    Some(fdes[high])
}

/// One step of the search for the last entry that begins at or below `address`. Returns how many
/// entries to move up from index `low`: zero, one, two or three times `quarter`. The step adds
/// results of comparisons instead of branching, since a branch would be mispredicted about half of
/// the time.
#[inline(always)]
fn stride(index: &[IndexEntry], low: usize, quarter: usize, address: u64) -> usize
    requires sorted { IsNonDecreasingBy (λ (e : IndexEntry). e.start) index.now }
    requires inside { low + 3 * quarter < length index.now }
    ensures { IsStride index.now low quarter address result }
{
    let first = usize::from(index[low + quarter].start <= address);
    let second = usize::from(index[low + 2 * quarter].start <= address);
    let third = usize::from(index[low + 3 * quarter].start <= address);
    (first + second + third) * quarter
}

/// How many entries begin at or below `address`, in O(log n) steps for n entries.
fn count_up_to(index: &[IndexEntry], address: u64) -> usize
    requires { IsNonDecreasingBy (λ (e : IndexEntry). e.start) index.now }
    ensures { IsCountUpTo index.now address result }
{
    let mut low = 0;
    let mut size = index.len();
    while size >= 4 {
        let quarter = size / 4;
        low += stride(index, low, quarter, address);
        size -= 3 * quarter;
    }
    while size > 0 && index[low].start <= address {
        low += 1;
        size -= 1;
    }
    low
}

/// The FDE that covers `address`, or `None` if no FDE covers it. The index is searched in O(log n)
/// steps for n FDEs.
pub fn covering<'a>(
    fdes: &[FrameDescriptionEntry<'a>],
    index: &[IndexEntry],
    address: u64,
) -> Option<FrameDescriptionEntry<'a>>
    requires index { IsAddressIndex (map fde_of fdes.now) index.now }
    requires once { CoversOnce (map fde_of fdes.now) }
    ensures { IsCoverOf (map fde_of fdes.now) address (option_map fde_of result) }
{
    let after = count_up_to(index, address);
    if after == 0 {
        return None;
    }
    let fde = fdes[index[after - 1].place];
    if address - fde.initial_location < fde.address_range {
        return Some(fde);
    }
    None
}
