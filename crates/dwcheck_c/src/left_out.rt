//! The C call that lists the records which are left out of a module's section.

ghost use Rattle.std.specs.Prelude.{◌≡◌, ◌≢◌, ◌≤◌, ◌<◌, ◌^◌, ◌⊎◌, IfErr, IfOk, IsSome, None, length, map};
ghost use Rattle.dw_bytes.specs.Answers.{memory};
ghost use Rattle.dw_bytes.specs.declared.fault.Fault.{Fault};
ghost use Rattle.dw_c_types.specs.Faults.{cfault_of};
ghost use Rattle.dw_c_types.specs.Slots.{put_into};
ghost use Rattle.dw_c_types.specs.Targets.{target_by};
ghost use Rattle.dw_process.specs.EhModules.{IsWholeFault, whole_fault_of};
ghost use Rattle.dwcheck_c.specs.LeftOutRecords.{AreLeftOut, HasWholeFault, left_out_of, shown_left_out, split_section_in};

use crate::module::{CModule, SectionKind, section_kind};
use dw_bytes::{Fault, FaultKind, Target};
use dw_c_types::fault::{CFault, IN_FRAME, report};
use dw_c_types::slots::put;
use dw_c_types::status::{BAD_KIND, BAD_TARGET, DONE, NO_MEMORY, REFUSED, TOO_LONG};
use dw_c_types::target::target;
use dw_eh_rows::{LeftOutRecord, check_eh_frame_leaving_out};
use dw_process::EhSection;
use std::alloc::Global;

/// A record that is left out of a module's section: the offset of its first byte, and the first
/// reason why it is left out.
#[repr(C)]
#[derive(Clone, Copy, Debug)]
pub struct CLeftOut {
    pub offset: u64,
    pub fault: CFault,
}

/// C's struct for a record that is left out.
fn c_left_out_of(left_out: LeftOutRecord) -> CLeftOut
    ensures { result ≡ shown_left_out left_out }
{
    CLeftOut {
        offset: u64::from(left_out.offset),
        fault: report(IN_FRAME, left_out.fault),
    }
}

/// The `.eh_frame` section of a module whose kind says that records are left out.
fn split_section<'a>(module: &CModule<'a>) -> Option<EhSection<'a>>
    ensures { result ≡ split_section_in module.now }
{
    match section_kind(module.kind) {
        Some(SectionKind::EhFrameLeavingOut) => Some(module.eh_section(false)),
        Some(SectionKind::EhFrameAarch64LeavingOut) => Some(module.eh_section(true)),
        _ => None,
    }
}

/// Checks a section, and returns the records that are left out.
fn left_out_in(
    alloc: Global,
    section: EhSection<'_>,
    target: Target,
) -> Result<Vec<LeftOutRecord>, Fault>
    requires { length section.bytes.now < 2 ^ 32 }
    ensures accepted { IfOk result (λ _. whole_fault_of section.entry target ≡ None) }
    ensures left_out { IfOk result (λ found. found.items ≡ left_out_of section.entry target) }
    ensures refused { IfErr result (λ fault. (fault ≡ memory) ⊎ IsWholeFault section.entry target fault) }
{
    let EhSection {
        bytes,
        bases,
        is_aarch64,
    } = section;
    let kept = check_eh_frame_leaving_out(alloc, bytes, target, bases, is_aarch64)?;
    Ok(kept.left_out)
}

/// Writes C's structs for the records to `slots`, as many as fit.
fn write_left_out(found: &[LeftOutRecord], slots: &mut [CLeftOut])
    ensures { slots.new ≡ put_into (map shown_left_out found.now) slots.old }
{
    for (index, left_out) in found.iter().enumerate() {
        put(slots, index, c_left_out_of(*left_out));
    }
}

/// Checks a module's section without its bad records, as `dwcheck_process_add` does with a kind that says
/// so. Writes the number of records that are left out to `count`, and the records to `left_out`, as many
/// as fit.
#[unsafe(no_mangle)]
pub extern "C" fn dwcheck_module_left_out(
    alloc: Global,
    module: &CModule<'_>,
    left_out: &mut [CLeftOut],
    count: &mut usize,
    fault: &mut CFault,
) -> u32
    ensures done { result ≡ DONE → AreLeftOut module.now left_out.old left_out.new count.new }
    ensures refused { result ≡ REFUSED → (first : Fault) × HasWholeFault module.now first
        × (fault.new ≡ cfault_of IN_FRAME first) }
    ensures target { result ≡ BAD_TARGET → target_by module.now.order module.now.address_size ≡ None }
    ensures good { result ≢ BAD_TARGET → result ≢ TOO_LONG → result ≢ BAD_KIND
        → IsSome (target_by module.now.order module.now.address_size) }
    ensures kind { result ≡ BAD_KIND → split_section_in module.now ≡ None }
    ensures known { result ≢ BAD_KIND → result ≢ TOO_LONG → IsSome (split_section_in module.now) }
    ensures long { result ≡ TOO_LONG → 2 ^ 32 ≤ length module.now.frame.now }
    ensures short { result ≢ TOO_LONG → length module.now.frame.now < 2 ^ 32 }
    ensures codes { (result ≡ DONE) ⊎ (result ≡ REFUSED) ⊎ (result ≡ NO_MEMORY)
        ⊎ (result ≡ BAD_TARGET) ⊎ (result ≡ TOO_LONG) ⊎ (result ≡ BAD_KIND) }
    ensures unwritten { result ≢ DONE → (left_out.new ≡ left_out.old) × (count.new ≡ count.old) }
    ensures unreported { result ≢ REFUSED → fault.new ≡ fault.old }
{
    if module.frame.len() >= 1 << 32 {
        return TOO_LONG;
    }
    let Some(section) = split_section(module) else {
        return BAD_KIND;
    };
    let Some(target) = target(module.order, module.address_size) else {
        return BAD_TARGET;
    };
    match left_out_in(alloc, section, target) {
        Ok(found) => {
            *count = found.len();
            write_left_out(&found, left_out);
            DONE
        }
        Err(why) if why.kind == FaultKind::Memory => NO_MEMORY,
        Err(why) => {
            *fault = report(IN_FRAME, why);
            REFUSED
        }
    }
}
