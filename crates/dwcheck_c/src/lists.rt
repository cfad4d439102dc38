//! The C call that checks a section of location lists and looks up one of them.

ghost use Rattle.std.specs.Prelude.{◌≡◌, ◌≢◌, ◌≤◌, ◌<◌, ◌^◌, ◌⊎◌, None, length};
ghost use Rattle.std.specs.Option.{IsSomeAnd};
ghost use Rattle.dw_loclists.specs.Reading.{lists_fault};
ghost use Rattle.dw_c_types.specs.Faults.{Reports};
ghost use Rattle.dw_c_types.specs.Locations.{AreLocated, HasLocations, HasNoList};
ghost use Rattle.dw_c_types.specs.Targets.{target_by};

use dw_bytes::FaultKind;
use dw_c_types::fault::{CFault, IN_LISTS, report};
use dw_c_types::location::{CLocation, write_locations};
use dw_c_types::status::{BAD_TARGET, DONE, NO_MEMORY, NONE, REFUSED, TOO_LONG};
use dw_c_types::target::target;
use dw_loclists::{CheckedLists, check_lists};
use std::alloc::Global;

/// What to look up: `address`, in the list whose first byte is at offset `list` in the section.
/// `base` is the base address of the list's compilation unit.
#[repr(C)]
#[derive(Clone, Copy, Debug)]
pub struct CLookup {
    pub base: u64,
    pub address: u64,
    pub list: u32,
    pub reserved: u32,
}

/// Writes the expressions that apply at `lookup.address` to `slots`, as many as fit, and returns
/// the number written. `None` if no list begins at offset `lookup.list`.
fn look_up(lists: &CheckedLists<'_>, lookup: &CLookup, slots: &mut [CLocation]) -> Option<usize>
    ensures { HasLocations lists.now lookup.now.list lookup.now.base lookup.now.address slots.old
        slots.new result }
{
    match lists.list(lookup.list) {
        Some(list) => {
            let found = lists.locations_at(&list, lookup.base, lookup.address);
            Some(write_locations(found, slots))
        }
        None => None,
    }
}

/// Checks a section of location lists, and writes the expressions of one list that apply at an
/// address to `locations`, as many as fit.
#[unsafe(no_mangle)]
pub extern "C" fn dwcheck_locations(
    alloc: Global,
    lists: &[u8],
    order: u32,
    address_size: u32,
    lookup: &CLookup,
    locations: &mut [CLocation],
    count: &mut usize,
    fault: &mut CFault,
) -> u32
    ensures accepted { (result ≡ DONE) ⊎ (result ≡ NONE)
        → IsSomeAnd (target_by order address_size)
        (λ target. lists_fault target lists.now ≡ None) }
    ensures done { result ≡ DONE → IsSomeAnd (target_by order address_size) (λ target.
        AreLocated (record { target = target; section = lists.now }) lookup.now.list lookup.now.base
        lookup.now.address locations.old locations.new count.new) }
    ensures none { result ≡ NONE → IsSomeAnd (target_by order address_size) (λ target.
        HasNoList (record { target = target; section = lists.now }) lookup.now.list) }
    ensures refused { result ≡ REFUSED → IsSomeAnd (target_by order address_size)
        (λ target. Reports IN_LISTS (lists_fault target lists.now) fault.new) }
    ensures target { result ≡ BAD_TARGET → target_by order address_size ≡ None }
    ensures bad { target_by order address_size ≡ None → result ≡ BAD_TARGET }
    ensures long { result ≡ TOO_LONG → 2 ^ 32 ≤ length lists.now }
    ensures short { result ≢ BAD_TARGET → result ≢ TOO_LONG → length lists.now < 2 ^ 32 }
    ensures codes { (result ≡ DONE) ⊎ (result ≡ NONE) ⊎ (result ≡ REFUSED) ⊎ (result ≡ NO_MEMORY)
        ⊎ (result ≡ BAD_TARGET) ⊎ (result ≡ TOO_LONG) }
    ensures unwritten { result ≢ DONE → (locations.new ≡ locations.old)
        × (count.new ≡ count.old) }
    ensures unreported { result ≢ REFUSED → fault.new ≡ fault.old }
{
    let Some(target) = target(order, address_size) else {
        return BAD_TARGET;
    };
    if lists.len() >= 1 << 32 {
        return TOO_LONG;
    }
    match check_lists(alloc, lists, target) {
        Ok(checked) => match look_up(&checked, lookup, locations) {
            Some(written) => {
                *count = written;
                DONE
            }
            None => NONE,
        },
        Err(why) if why.kind == FaultKind::Memory => NO_MEMORY,
        Err(why) => {
            *fault = report(IN_LISTS, why);
            REFUSED
        }
    }
}
