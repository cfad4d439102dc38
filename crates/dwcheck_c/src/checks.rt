//! The C call that checks a frame section and a section of location lists.

ghost use Rattle.std.specs.Prelude.{◌≡◌, ◌≢◌, ◌⊎◌, None};
ghost use Rattle.std.specs.Option.{IsSomeAnd};
ghost use Rattle.dw_sections.specs.Checked.{AreWellFormed, check_fault};
ghost use Rattle.dw_c_types.specs.Targets.{target_by};
ghost use Rattle.dwcheck_c.specs.Checks.{ReportsOf, section_number};

use dw_bytes::FaultKind;
use dw_c_types::fault::{CFault, IN_EXPRESSION, IN_FRAME, IN_LISTS, report};
use dw_c_types::status::{BAD_TARGET, DONE, NO_MEMORY, REFUSED};
use dw_c_types::target::target;
use dw_sections::{Section, check};
use std::alloc::Global;

/// The number that tells C which input the offset of a fault refers to: the frame section, the
/// location lists, or the expression.
pub(crate) fn within(section: Section) -> u32
    ensures { result ≡ section_number section }
{
    match section {
        Section::Frame => IN_FRAME,
        Section::Lists => IN_LISTS,
        Section::Expression => IN_EXPRESSION,
    }
}

/// Checks a frame section and location lists, either of which may be empty.
#[unsafe(no_mangle)]
pub extern "C" fn dwcheck_check(
    alloc: Global,
    frame: &[u8],
    lists: &[u8],
    order: u32,
    address_size: u32,
    fault: &mut CFault,
) -> u32
    ensures done { result ≡ DONE → IsSomeAnd (target_by order address_size)
        (λ target. AreWellFormed target frame.now lists.now) }
    ensures refused { result ≡ REFUSED → IsSomeAnd (target_by order address_size)
        (λ target. ReportsOf (check_fault target frame.now lists.now) fault.new) }
    ensures target { result ≡ BAD_TARGET → target_by order address_size ≡ None }
    ensures bad { target_by order address_size ≡ None → result ≡ BAD_TARGET }
    ensures codes { (result ≡ DONE) ⊎ (result ≡ REFUSED) ⊎ (result ≡ NO_MEMORY)
        ⊎ (result ≡ BAD_TARGET) }
    ensures unreported { result ≢ REFUSED → fault.new ≡ fault.old }
{
    let Some(target) = target(order, address_size) else {
        return BAD_TARGET;
    };
    match check(alloc, frame, lists, target) {
        Ok(_) => DONE,
        Err(found) if found.fault.kind == FaultKind::Memory => NO_MEMORY,
        Err(found) => {
            *fault = report(within(found.section), found.fault);
            REFUSED
        }
    }
}
