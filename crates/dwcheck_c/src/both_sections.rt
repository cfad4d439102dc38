//! The C call that adds a module with both frame sections to a process.

ghost use Rattle.std.specs.Prelude.{◌≡◌, ◌≢◌, ◌≤◌, ◌<◌, ◌^◌, ◌⊎◌, IfErr, IfOk, IfSome, IsSome, None, Some, length};
ghost use Rattle.dw_bytes.specs.declared.fault.Fault.{Fault};
ghost use Rattle.dw_bytes.specs.declared.target.Target.{Target};
ghost use Rattle.dw_process.specs.BothSections.{AreBothAdded};
ghost use Rattle.dw_process.specs.declared.refusal.BothRefusal.TheVariants as refusal;
ghost use Rattle.dw_c_types.specs.Faults.{cfault_of};
ghost use Rattle.dwcheck_c.specs.BothModules.{AreNotAdded, AreNotAddedTo, AreSectionsAdded, AreSectionsRefused, rooms_in, sections_by};
ghost use Rattle.dwcheck_c.specs.Handles.{held_in};
ghost use Rattle.dwcheck_c.specs.LoadedModules.{IsTargetFor, range_in};

use crate::handle::CProcess;
use crate::module::{
    CModule, DEBUG_FRAME, EH_FRAME, EH_FRAME_AARCH64, EH_FRAME_AARCH64_LEAVING_OUT,
    EH_FRAME_LEAVING_OUT,
};
use dw_bytes::Target;
use dw_c_types::fault::{CFault, IN_EH_FRAME, IN_FRAME, report};
use dw_c_types::status::{
    BAD_KIND, BAD_RANGE, BAD_TARGET, DONE, NO_MEMORY, NO_ROOM, OVERLAPS, REFUSED, TOO_LONG,
};
use dw_c_types::target::target;
use dw_process::{BothRefusal, BothSections, Process, TableRooms};
use std::alloc::Global;

/// The two sections that C passes, by their kinds; none if a kind isn't one of its section.
fn sections<'a>(module: &CModule<'a>, eh_frame: &CModule<'a>) -> Option<BothSections<'a>>
    ensures sections { result ≡ sections_by module.now eh_frame.now }
    ensures debug_frame { IfSome result (λ s. s.debug_frame ≡ module.now.frame) }
    ensures eh_frame { IfSome result (λ s. s.eh_frame.bytes ≡ eh_frame.now.frame) }
{
    if module.kind != DEBUG_FRAME {
        return None;
    }
    let (is_aarch64, leaves_out) = match eh_frame.kind {
        EH_FRAME => (false, false),
        EH_FRAME_AARCH64 => (true, false),
        EH_FRAME_LEAVING_OUT => (false, true),
        EH_FRAME_AARCH64_LEAVING_OUT => (true, true),
        _ => return None,
    };
    Some(BothSections {
        debug_frame: module.frame,
        eh_frame: eh_frame.eh_section(is_aarch64),
        leaves_out,
    })
}

/// Why a module with both sections isn't added: its target isn't one, or isn't that of the process;
/// or `Process::add_both` refuses it.
#[derive(Drop)]
enum BothNotAdded {
    BadTarget,
    Refused(BothRefusal),
}

/// Adds both sections to an open process, if it has the module's target.
fn add_to(
    alloc: Global,
    process: &mut Process,
    module: &CModule<'_>,
    eh_frame: &CModule<'_>,
    sections: BothSections<'_>,
    target: Target,
) -> Result<u64, BothNotAdded>
    requires debug_frame { length sections.debug_frame.now < 2 ^ 32 }
    requires eh_frame { length sections.eh_frame.bytes.now < 2 ^ 32 }
    ensures added { IfOk result (λ id. (process.old.target ≡ target)
        × AreBothAdded sections.entry module.now.load_address (range_in module.now) module.now.cookie
        (rooms_in module.now eh_frame.now) process.old id process.new) }
    ensures why { IfErr result
        (AreNotAddedTo process.old module.now eh_frame.now sections.entry target) }
    ensures same { IfErr result (λ _. process.new ≡ process.old) }
{
    if process.target() != target {
        return Err(BothNotAdded::BadTarget);
    }
    let (load_address, range, cookie) = (module.load_address, module.range(), module.cookie);
    let rooms = TableRooms {
        debug_frame: module.room,
        eh_frame: eh_frame.room,
    };
    match process.add_both(alloc, sections, load_address, range, cookie, rooms) {
        Ok(id) => Ok(id),
        Err(why) => Err(BothNotAdded::Refused(why)),
    }
}

/// Adds both sections to a process, which may be closed. A closed process is opened only if the
/// module is added.
fn add(
    alloc: Global,
    process: &mut CProcess,
    module: &CModule<'_>,
    eh_frame: &CModule<'_>,
    sections: BothSections<'_>,
) -> Result<u64, BothNotAdded>
    requires sections { sections_by module.now eh_frame.now ≡ Some sections }
    requires debug_frame { length sections.debug_frame.now < 2 ^ 32 }
    requires eh_frame { length sections.eh_frame.bytes.now < 2 ^ 32 }
    ensures added { IfOk result (λ id. AreSectionsAdded module.now eh_frame.now
        (held_in process.old) id (held_in process.new)) }
    ensures why { IfErr result (AreNotAdded module.now eh_frame.now (held_in process.old)) }
    ensures same { IfErr result (λ _. held_in process.new ≡ held_in process.old) }
{
    let Some(target) = target(module.order, module.address_size) else {
        return Err(BothNotAdded::BadTarget);
    };
    match process.take(alloc) {
        Some(mut held) => {
            let added = add_to(alloc, &mut held, module, eh_frame, sections, target);
            *process = CProcess::open(held);
            added
        }
        None => {
            let mut new = Process::new(alloc, target);
            let id = add_to(alloc, &mut new, module, eh_frame, sections, target)?;
            let Ok(held) = Box::new(alloc, new) else {
                return Err(BothNotAdded::Refused(BothRefusal::Memory));
            };
            *process = CProcess::open(held);
            Ok(id)
        }
    }
}

/// Checks both frame sections of a module, compiles their rows, and adds them to a process as one
/// module, whose id is written to `id`. `module` is what `dwcheck_process_add` takes, with
/// `.debug_frame`. Of `eh_frame` only what is of `.eh_frame` is used: the bytes, their kind, the
/// three addresses, and how much the table may take. If the module's range shares an address with
/// the range of another module, that module's id is written to `id`.
#[unsafe(no_mangle)]
pub extern "C" fn dwcheck_process_add_both(
    alloc: Global,
    process: &mut CProcess,
    module: &CModule<'_>,
    eh_frame: &CModule<'_>,
    id: &mut u64,
    fault: &mut CFault,
) -> u32
    ensures added { result ≡ DONE → AreSectionsAdded module.now eh_frame.now
        (held_in process.old) id.new (held_in process.new) }
    ensures refused { result ≡ REFUSED → (first : Fault)
        × ((AreSectionsRefused module.now eh_frame.now (held_in process.old)
        (refusal.DebugFrame first) × (fault.new ≡ cfault_of IN_FRAME first))
        ⊎ (AreSectionsRefused module.now eh_frame.now (held_in process.old)
        (refusal.EhFrame first) × (fault.new ≡ cfault_of IN_EH_FRAME first))) }
    ensures room { result ≡ NO_ROOM
        → AreSectionsRefused module.now eh_frame.now (held_in process.old) refusal.Room }
    ensures range { result ≡ BAD_RANGE
        → AreSectionsRefused module.now eh_frame.now (held_in process.old) refusal.Range }
    ensures overlaps { result ≡ OVERLAPS → AreSectionsRefused module.now eh_frame.now
        (held_in process.old) (refusal.Overlaps id.new) }
    ensures target { result ≡ BAD_TARGET
        → (target : Target) → ¬ IsTargetFor module.now (held_in process.old) target }
    ensures kind { result ≡ BAD_KIND → sections_by module.now eh_frame.now ≡ None }
    ensures known { result ≢ BAD_KIND → result ≢ TOO_LONG
        → IsSome (sections_by module.now eh_frame.now) }
    ensures good { result ≢ BAD_TARGET → result ≢ TOO_LONG → result ≢ BAD_KIND
        → (target : Target) × IsTargetFor module.now (held_in process.old) target }
    ensures long { result ≡ TOO_LONG → (2 ^ 32 ≤ length module.now.frame.now)
        ⊎ (2 ^ 32 ≤ length eh_frame.now.frame.now) }
    ensures short { result ≢ TOO_LONG → (length module.now.frame.now < 2 ^ 32)
        × (length eh_frame.now.frame.now < 2 ^ 32) }
    ensures codes { (result ≤ BAD_KIND) ⊎ (result ≡ OVERLAPS) ⊎ (result ≡ BAD_RANGE) }
    ensures same { result ≢ DONE → held_in process.new ≡ held_in process.old }
    ensures unnamed { result ≢ DONE → result ≢ OVERLAPS → id.new ≡ id.old }
    ensures unreported { result ≢ REFUSED → fault.new ≡ fault.old }
{
    if module.frame.len() >= 1 << 32 {
        return TOO_LONG;
    }
    if eh_frame.frame.len() >= 1 << 32 {
        return TOO_LONG;
    }
    let Some(sections) = sections(module, eh_frame) else {
        return BAD_KIND;
    };
    match add(alloc, process, module, eh_frame, sections) {
        Ok(added) => {
            *id = added;
            DONE
        }
        Err(BothNotAdded::BadTarget) => BAD_TARGET,
        Err(BothNotAdded::Refused(BothRefusal::Memory)) => NO_MEMORY,
        Err(BothNotAdded::Refused(BothRefusal::Room)) => NO_ROOM,
        Err(BothNotAdded::Refused(BothRefusal::Range)) => BAD_RANGE,
        Err(BothNotAdded::Refused(BothRefusal::Overlaps(other))) => {
            *id = other;
            OVERLAPS
        }
        Err(BothNotAdded::Refused(BothRefusal::DebugFrame(found))) => {
            *fault = report(IN_FRAME, found);
            REFUSED
        }
        Err(BothNotAdded::Refused(BothRefusal::EhFrame(found))) => {
            *fault = report(IN_EH_FRAME, found);
            REFUSED
        }
    }
}
