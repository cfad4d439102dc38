//! The range of a module: the addresses from the first to the last one that the FDEs of the
//! module's section cover, or those of both its sections.

ghost use Rattle.std.specs.Prelude.{◌≡◌, ◌<◌, ◌≤◌, ◌^◌, ◌⊎◌, IfNone, IfSome, MatchOption};
ghost use Rattle.dw_eval.specs.Numbers.{width_of};
ghost use Rattle.dw_unwind.specs.Modules.{as_linked as linked_of};
ghost use Rattle.dw_process.specs.Ranges.{CoversNone, HasNoRange, HaveNoRange, IsImproper, IsRangeFor, IsRangeForBoth, IsSpanOf, both_fdes};
ghost use Rattle.dw_process.specs.ModuleMaps.{IsProper};

use crate::address_range::AddressRange;
use dw_bytes::Target;
use dw_rows::{CheckedFrame, ListedFrame};
use dw_unwind::as_linked;

/// The smallest range that has all addresses of both ranges.
fn wider(range: Option<AddressRange>, other: AddressRange) -> AddressRange
    ensures none { IfNone range (result ≡ other) }
    ensures low { IfSome range (λ r. (result.first ≤ r.first) × ((result.first ≡ r.first) ⊎ (result.first ≡ other.first))) }
    ensures high { IfSome range (λ r. (r.last ≤ result.last) × ((result.last ≡ r.last) ⊎ (result.last ≡ other.last))) }
    ensures low_other { result.first ≤ other.first }
    ensures high_other { other.last ≤ result.last }
{
    let mut result = other;
    if let Some(range) = range {
        if range.first < result.first {
            result.first = range.first;
        }
        if range.last > result.last {
            result.last = range.last;
        }
    }
    result
}

/// The addresses, as linked, from the first to the last one that an FDE covers; none if no FDE
/// covers an address.
fn linked_range(frame: &ListedFrame<'_>) -> Option<AddressRange>
    ensures span { MatchOption result (CoversNone frame.now.fdes) (IsSpanOf frame.now.fdes) }
    ensures fits { IfSome result (λ range. (range.first ≤ range.last)
        × (range.last < 2 ^ width_of frame.now.target.address_size)) }
{
    let mut range = None;
    for fde in frame.fdes() {
        if fde.address_range > 0 {
            let first = fde.initial_location;
            let last = first + (fde.address_range - 1);
            range = Some(wider(range, AddressRange { first, last }));
        }
    }
    range
}

/// The addresses, as linked, from the first to the last one that an FDE of either section covers; none
/// if no FDE covers an address.
fn linked_range_of_both(
    debug_frame: &CheckedFrame<'_>,
    eh_frame: &CheckedFrame<'_>,
) -> Option<AddressRange>
    requires { eh_frame.now.target ≡ debug_frame.now.target }
    ensures span { MatchOption result (CoversNone (both_fdes debug_frame.now eh_frame.now))
        (IsSpanOf (both_fdes debug_frame.now eh_frame.now)) }
    ensures fits { IfSome result (λ range. (range.first ≤ range.last)
        × (range.last < 2 ^ width_of debug_frame.now.target.address_size)) }
{
    let first = linked_range(debug_frame.listed());
    match linked_range(eh_frame.listed()) {
        Some(second) => Some(wider(first, second)),
        None => first,
    }
}

/// The address as loaded for an address as linked: adds the load address, modulo 2^w, w being the
/// size of an address in bits.
fn as_loaded(target: Target, load_address: u64, address: u64) -> u64
    requires { address < 2 ^ width_of target.address_size }
    ensures linked { linked_of target load_address result ≡ address }
    ensures fits { result < 2 ^ width_of target.address_size }
{
    as_linked(target, as_linked(target, load_address, 0), address)
}

/// The addresses as loaded of the first and the last address of a range as linked.
fn loaded_range(target: Target, load_address: u64, linked: AddressRange) -> AddressRange
    requires order { linked.first ≤ linked.last }
    requires fits { linked.last < 2 ^ width_of target.address_size }
    ensures first { linked_of target load_address result.first ≡ linked.first }
    ensures last { linked_of target load_address result.last ≡ linked.last }
    ensures first_fits { result.first < 2 ^ width_of target.address_size }
    ensures last_fits { result.last < 2 ^ width_of target.address_size }
{
    AddressRange {
        first: as_loaded(target, load_address, linked.first),
        last: as_loaded(target, load_address, linked.last),
    }
}

/// The range, if it isn't empty and doesn't go past the greatest address.
fn proper(target: Target, range: AddressRange) -> Option<AddressRange>
    ensures same { IfSome result (λ found. found ≡ range) }
    ensures proper { IfSome result (λ _. IsProper range) }
    ensures fits { IfSome result (λ _. range.last < 2 ^ width_of target.address_size) }
    ensures none { IfNone result (IsImproper target range) }
{
    if range.first <= range.last && range.last <= target.address_size.max_address() {
        return Some(range);
    }
    None
}

/// The range of a module: the given one, or if none is given, the addresses as loaded from the
/// first to the last one that an FDE covers. None if the range would be empty, pass the greatest
/// address, or go on at address 0 after the greatest address.
pub fn range_for(
    frame: &ListedFrame<'_>,
    load_address: u64,
    given: Option<AddressRange>,
) -> Option<AddressRange>
    ensures range { IfSome result (IsRangeFor frame.now load_address given) }
    ensures none { IfNone result (HasNoRange frame.now load_address given) }
{
    let target = frame.target();
    let range = match given {
        Some(range) => range,
        None => loaded_range(target, load_address, linked_range(frame)?),
    };
    proper(target, range)
}

/// The range of a module with both sections: the given one, or if none is given, the addresses as
/// loaded from the first to the last one that an FDE of either section covers. None for the same
/// reasons as of one section.
pub fn range_for_both(
    debug_frame: &CheckedFrame<'_>,
    eh_frame: &CheckedFrame<'_>,
    load_address: u64,
    given: Option<AddressRange>,
) -> Option<AddressRange>
    requires { eh_frame.now.target ≡ debug_frame.now.target }
    ensures range { IfSome result
        (IsRangeForBoth debug_frame.now eh_frame.now load_address given) }
    ensures none { IfNone result (HaveNoRange debug_frame.now eh_frame.now load_address given) }
{
    let target = debug_frame.target();
    let range = match given {
        Some(range) => range,
        None => {
            let linked = linked_range_of_both(debug_frame, eh_frame)?;
            loaded_range(target, load_address, linked)
        }
    };
    proper(target, range)
}
