//! The C call that checks a module's section and doesn't add it.

ghost use Rattle.std.specs.Prelude.{◌≡◌, ◌≢◌, ◌≤◌, ◌<◌, ◌^◌, ◌⊎◌, IfErr, IfOk, IsSome, None, length};
ghost use Rattle.dw_bytes.specs.Answers.{memory};
ghost use Rattle.dw_bytes.specs.declared.fault.Fault.{Fault};
ghost use Rattle.dw_c_types.specs.Faults.{cfault_of};
ghost use Rattle.dw_c_types.specs.Targets.{target_by};
ghost use Rattle.dwcheck_c.specs.LoadedModules.{HasFault, IsFaultBy, kind_by};
ghost use Rattle.dwcheck_c.specs.ModuleChecks.{AreCountsBy, AreCountsOf, IsEhAccepted, IsAcceptedLeavingOut};
ghost use Rattle.dw_process.specs.EhModules.{IsEhFault, IsWholeFault};

use crate::module::{CModule, SectionKind, section_kind};
use crate::reports::{CCounts, counts_shown, frame_counted};
use dw_bytes::{Fault, FaultKind, Target};
use dw_c_types::fault::{CFault, IN_FRAME, report};
use dw_c_types::status::{BAD_KIND, BAD_TARGET, DONE, NO_MEMORY, REFUSED, TOO_LONG};
use dw_c_types::target::target;
use dw_eh_rows::{check_eh_frame_leaving_out, count_eh_frame};
use dw_process::EhSection;
use dw_rows::check_frame;
use std::alloc::Global;

/// Checks an `.eh_frame` section, and counts what it contains.
fn eh_frame_counts(alloc: Global, section: EhSection<'_>, target: Target) -> Result<CCounts, Fault>
    requires { length section.bytes.now < 2 ^ 32 }
    ensures accepted { IfOk result (IsEhAccepted section.entry target) }
    ensures refused { IfErr result (λ fault. (fault ≡ memory) ⊎ IsEhFault section.entry target fault) }
{
    let EhSection {
        bytes,
        bases,
        is_aarch64,
    } = section;
    let counts = count_eh_frame(alloc, bytes, target, bases, is_aarch64)?;
    Ok(counts_shown(&counts))
}

/// Checks an `.eh_frame` section without its bad records, and counts what is kept.
fn kept_counts(alloc: Global, section: EhSection<'_>, target: Target) -> Result<CCounts, Fault>
    requires { length section.bytes.now < 2 ^ 32 }
    ensures accepted { IfOk result (IsAcceptedLeavingOut section.entry target) }
    ensures refused { IfErr result (λ fault. (fault ≡ memory) ⊎ IsWholeFault section.entry target fault) }
{
    let EhSection {
        bytes,
        bases,
        is_aarch64,
    } = section;
    let kept = check_eh_frame_leaving_out(alloc, bytes, target, bases, is_aarch64)?;
    Ok(frame_counted(&kept.frame))
}

/// Checks a module's section, and counts what it contains.
fn counts_by(
    alloc: Global,
    module: &CModule<'_>,
    kind: SectionKind,
    target: Target,
) -> Result<CCounts, Fault>
    requires { length module.now.frame.now < 2 ^ 32 }
    ensures accepted { IfOk result (AreCountsBy kind module.now target) }
    ensures refused { IfErr result
        (λ fault. (fault ≡ memory) ⊎ IsFaultBy kind module.now target fault) }
{
    match kind {
        SectionKind::DebugFrame => {
            let frame = check_frame(alloc, module.frame, target)?;
            Ok(frame_counted(&frame))
        }
        SectionKind::EhFrame => eh_frame_counts(alloc, module.eh_section(false), target),
        SectionKind::EhFrameAarch64 => eh_frame_counts(alloc, module.eh_section(true), target),
        SectionKind::EhFrameLeavingOut => kept_counts(alloc, module.eh_section(false), target),
        SectionKind::EhFrameAarch64LeavingOut => {
            kept_counts(alloc, module.eh_section(true), target)
        }
    }
}

/// Checks a module's section as `dwcheck_process_add` does, and writes what the section contains to
/// `counts`.
#[unsafe(no_mangle)]
pub extern "C" fn dwcheck_module_check(
    alloc: Global,
    module: &CModule<'_>,
    counts: &mut CCounts,
    fault: &mut CFault,
) -> u32
    ensures accepted { result ≡ DONE → AreCountsOf module.now counts.new }
    ensures refused { result ≡ REFUSED → (first : Fault) × HasFault module.now None first
        × (fault.new ≡ cfault_of IN_FRAME first) }
    ensures target { result ≡ BAD_TARGET → target_by module.now.order module.now.address_size ≡ None }
    ensures good { result ≢ BAD_TARGET → result ≢ TOO_LONG → result ≢ BAD_KIND
        → IsSome (target_by module.now.order module.now.address_size) }
    ensures kind { result ≡ BAD_KIND → kind_by module.now.kind ≡ None }
    ensures known { result ≢ BAD_KIND → result ≢ TOO_LONG → IsSome (kind_by module.now.kind) }
    ensures long { result ≡ TOO_LONG → 2 ^ 32 ≤ length module.now.frame.now }
    ensures short { result ≢ TOO_LONG → length module.now.frame.now < 2 ^ 32 }
    ensures codes { (result ≡ DONE) ⊎ (result ≡ REFUSED) ⊎ (result ≡ NO_MEMORY)
        ⊎ (result ≡ BAD_TARGET) ⊎ (result ≡ TOO_LONG) ⊎ (result ≡ BAD_KIND) }
    ensures unwritten { result ≢ DONE → counts.new ≡ counts.old }
    ensures unreported { result ≢ REFUSED → fault.new ≡ fault.old }
{
    if module.frame.len() >= 1 << 32 {
        return TOO_LONG;
    }
    let Some(kind) = section_kind(module.kind) else {
        return BAD_KIND;
    };
    let Some(target) = target(module.order, module.address_size) else {
        return BAD_TARGET;
    };
    match counts_by(alloc, module, kind, target) {
        Ok(found) => {
            *counts = found;
            DONE
        }
        Err(why) if why.kind == FaultKind::Memory => NO_MEMORY,
        Err(why) => {
            *fault = report(IN_FRAME, why);
            REFUSED
        }
    }
}
