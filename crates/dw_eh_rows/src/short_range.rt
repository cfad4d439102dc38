//! Ranges of addresses in eight bytes, and whether two of them share an address.

ghost use Rattle.std.specs.Prelude.{◌≡◌, ◌+◌, ◌≤◌, ℕ, true, IfSome};
ghost use Rattle.dw_eh_rows.specs.Counting.{times_in};

use dw_frame::FrameDescriptionEntry;

/// `count` addresses. The first of them is `start` above a base, which is kept once for all ranges.
#[derive(Clone, Copy, Debug)]
pub struct ShortRange {
    start: u32,
    pub count: u32,
}

/// The addresses of an FDE as a range above `base`. `None` if their numbers need more than 32 bits.
#[inline(always)]
pub fn short_range(fde: &FrameDescriptionEntry<'_>, base: u64) -> Option<ShortRange>
    ensures start { IfSome result (λ range. base + range.start ≡ fde.now.initial_location) }
    ensures count { IfSome result (λ range. range.count ≡ fde.now.address_range) }
{
    let start = u32::try_from(fde.initial_location.checked_sub(base)?).ok()?;
    let count = u32::try_from(fde.address_range).ok()?;
    Some(ShortRange { start, count })
}

/// Whether no range begins before the end of the one before it.
fn follow_each_other(ranges: &[ShortRange]) -> bool
    ensures { result ≡ true → (base a : ℕ) → times_in base a ranges.now ≤ 1 }
{
    let mut end = 0;
    for range in ranges {
        if u64::from(range.start) < end {
            return false;
        }
        end = u64::from(range.start) + u64::from(range.count);
    }
    true
}

/// Whether no two ranges share an address, if none is empty. It sorts them, which takes n log n for n
/// ranges and no memory.
pub fn are_apart(ranges: &mut [ShortRange]) -> bool
    ensures { result ≡ true → (base a : ℕ) → times_in base a ranges.old ≤ 1 }
{
    ranges.sort_unstable_by_key(|range| range.start);
    follow_each_other(ranges)
}
