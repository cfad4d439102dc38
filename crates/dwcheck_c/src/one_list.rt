//! The C call that looks up one location list, and checks no other.

ghost use Rattle.std.specs.Prelude.{◌≡◌, ◌≢◌, ◌≤◌, ◌<◌, ◌^◌, ◌⊎◌, None, length};
ghost use Rattle.std.specs.Option.{IsSomeAnd};
ghost use Rattle.dw_bytes.specs.declared.fault.Fault.{Fault};
ghost use Rattle.dw_c_types.specs.Faults.{cfault_of};
ghost use Rattle.dw_c_types.specs.Locations.{AreLocatedAlone, IsNoListAt};
ghost use Rattle.dw_c_types.specs.Targets.{target_by};

use crate::lists::CLookup;
use dw_bytes::FaultKind;
use dw_c_types::fault::{CFault, IN_LISTS, report};
use dw_c_types::location::{CLocation, write_locations};
use dw_c_types::status::{BAD_TARGET, DONE, NO_MEMORY, NONE, REFUSED, TOO_LONG};
use dw_c_types::target::target;
use dw_loclists::check_list;
use std::alloc::Global;

/// Checks the list that begins at offset `lookup.list` of a section, and nothing else of the
/// section, and writes its expressions that apply at an address to `locations`, as many as fit.
/// Returns `NONE` if the section has no byte there.
#[unsafe(no_mangle)]
pub extern "C" fn dwcheck_list_locations(
    alloc: Global,
    lists: &[u8],
    order: u32,
    address_size: u32,
    lookup: &CLookup,
    locations: &mut [CLocation],
    count: &mut usize,
    fault: &mut CFault,
) -> u32
    ensures done { result ≡ DONE → IsSomeAnd (target_by order address_size) (λ target.
        AreLocatedAlone target lists.now lookup.now.list lookup.now.base lookup.now.address
        locations.old locations.new count.new) }
    ensures refused { result ≡ REFUSED → IsSomeAnd (target_by order address_size) (λ target.
        (why : Fault) × IsNoListAt target lists.now lookup.now.list why
        × (fault.new ≡ cfault_of IN_LISTS why)) }
    ensures none { result ≡ NONE → length lists.now ≤ lookup.now.list }
    ensures inside { (result ≡ DONE) ⊎ (result ≡ REFUSED) → lookup.now.list < length lists.now }
    ensures target { result ≡ BAD_TARGET → target_by order address_size ≡ None }
    ensures bad { target_by order address_size ≡ None → result ≡ BAD_TARGET }
    ensures long { result ≡ TOO_LONG → 2 ^ 32 ≤ length lists.now }
    ensures short { result ≢ BAD_TARGET → result ≢ TOO_LONG → length lists.now < 2 ^ 32 }
    ensures codes { (result ≡ DONE) ⊎ (result ≡ NONE) ⊎ (result ≡ REFUSED) ⊎ (result ≡ NO_MEMORY)
        ⊎ (result ≡ BAD_TARGET) ⊎ (result ≡ TOO_LONG) }
    ensures unwritten { result ≢ DONE → (locations.new ≡ locations.old)
        × (count.new ≡ count.old) }
    ensures unreported { result ≢ REFUSED → fault.new ≡ fault.old }
{
    let Some(target) = target(order, address_size) else {
        return BAD_TARGET;
    };
    if lists.len() >= 1 << 32 {
        return TOO_LONG;
    }
    if lookup.list as usize >= lists.len() {
        return NONE;
    }
    match check_list(alloc, lists, target, lookup.list) {
        Ok(list) => {
            *count = write_locations(list.locations_at(lookup.base, lookup.address), locations);
            DONE
        }
        Err(why) if why.kind == FaultKind::Memory => NO_MEMORY,
        Err(why) => {
            *fault = report(IN_LISTS, why);
            REFUSED
        }
    }
}
