//! The C calls that add modules to a process, remove them, share them with another process, and
//! close a process.

ghost use Rattle.std.specs.Prelude.{◌≡◌, ◌≢◌, ◌≤◌, ◌<◌, ◌^◌, ◌⊎◌, ◌==◌, false, true, IfErr, IfOk, IfSome, IsSome, None, Some, length, option_map};
ghost use Rattle.std.specs.List.{list_any};
ghost use Rattle.dw_bytes.specs.declared.fault.Fault.{Fault};
ghost use Rattle.dw_bytes.specs.declared.target.Target.{Target};
ghost use Rattle.dw_process.specs.Processes.{removed};
ghost use Rattle.dw_c_types.specs.Faults.{cfault_of};
ghost use Rattle.dwcheck_c.specs.Handles.{held_in, modules_of};
ghost use Rattle.dwcheck_c.specs.Lent.{Reads, loan_of};
ghost use Rattle.dwcheck_c.specs.LoadedModules.{HasFault, IsAddedBy, IsModuleAdded, IsModuleRefused, IsRefusedBy, IsTargetFor, kind_by};
ghost use Rattle.dwcheck_c.specs.NotAdded.{IsNotAdded, IsNotAddedTo};
ghost use Rattle.dw_process.specs.declared.refusal.Refusal.TheVariants as refusal;

use crate::handle::CProcess;
use crate::module::{CModule, SectionKind, section_kind};
use crate::process_reader::{LentProcess, put};
use crate::read_right::Right;
use dw_bytes::{FaultKind, OUT_OF_MEMORY, Target};
use dw_c_types::fault::{CFault, IN_FRAME, report};
use dw_c_types::status::{
    BAD_KIND, BAD_RANGE, BAD_TARGET, DONE, NO_MEMORY, NO_ROOM, NONE, OVERLAPS, REFUSED, TOO_LONG,
};
use dw_c_types::target::target;
use dw_process::{Process, Refusal};
use std::alloc::Global;

/// Why a module isn't added: its target isn't one, or isn't that of the process; or `Process::add`
/// refuses it.
#[derive(Drop)]
enum NotAdded {
    BadTarget,
    Refused(Refusal),
}

/// Adds a module to an open process of the module's target.
fn add_section(
    alloc: Global,
    process: &mut Process,
    module: &CModule<'_>,
    kind: SectionKind,
) -> Result<u64, Refusal>
    requires { length module.now.frame.now < 2 ^ 32 }
    ensures added { IfOk result (λ id. IsAddedBy kind module.now process.old id process.new) }
    ensures refused { IfErr result
        (IsRefusedBy kind module.now process.old.target process.old.modules) }
    ensures same { IfErr result (λ _. process.new ≡ process.old) }
{
    let load_address = module.load_address;
    let range = module.range();
    let (cookie, room) = (module.cookie, module.room);
    match kind {
        SectionKind::DebugFrame => {
            process.add(alloc, module.frame, load_address, range, cookie, room)
        }
        SectionKind::EhFrame => {
            let section = module.eh_section(false);
            process.add_eh_frame(alloc, section, load_address, range, cookie, room)
        }
        SectionKind::EhFrameAarch64 => {
            let section = module.eh_section(true);
            process.add_eh_frame(alloc, section, load_address, range, cookie, room)
        }
        SectionKind::EhFrameLeavingOut => {
            let section = module.eh_section(false);
            process.add_eh_frame_leaving_out(alloc, section, load_address, range, cookie, room)
        }
        SectionKind::EhFrameAarch64LeavingOut => {
            let section = module.eh_section(true);
            process.add_eh_frame_leaving_out(alloc, section, load_address, range, cookie, room)
        }
    }
}

/// Adds a module to an open process, if it has the process's target.
fn add_to(
    alloc: Global,
    process: &mut Process,
    module: &CModule<'_>,
    kind: SectionKind,
    target: Target,
) -> Result<u64, NotAdded>
    requires { length module.now.frame.now < 2 ^ 32 }
    ensures added { IfOk result (λ id. (process.old.target ≡ target)
        × IsAddedBy kind module.now process.old id process.new) }
    ensures why { IfErr result (IsNotAddedTo process.old kind module.now target) }
    ensures same { IfErr result (λ _. process.new ≡ process.old) }
{
    if process.target() != target {
        return Err(NotAdded::BadTarget);
    }
    match add_section(alloc, process, module, kind) {
        Ok(id) => Ok(id),
        Err(why) => Err(NotAdded::Refused(why)),
    }
}

/// Adds a module to a process, which may be closed. A closed process is opened only if the module
/// is added.
fn add(
    alloc: Global,
    process: &mut CProcess,
    module: &CModule<'_>,
    kind: SectionKind,
) -> Result<u64, NotAdded>
    requires short { length module.now.frame.now < 2 ^ 32 }
    requires kind { kind_by module.now.kind ≡ Some kind }
    ensures added { IfOk result (λ id. IsModuleAdded module.now (held_in process.old) id
        (held_in process.new)) }
    ensures why { IfErr result (IsNotAdded module.now (held_in process.old)) }
    ensures same { IfErr result (λ _. held_in process.new ≡ held_in process.old) }
{
    let Some(target) = target(module.order, module.address_size) else {
        return Err(NotAdded::BadTarget);
    };
    match process.take(alloc) {
        Some(mut held) => {
            let added = add_to(alloc, &mut held, module, kind, target);
            *process = CProcess::open(held);
            added
        }
        None => {
            let mut new = Process::new(alloc, target);
            let id = add_to(alloc, &mut new, module, kind, target)?;
            let Ok(held) = Box::new(alloc, new) else {
                return Err(NotAdded::Refused(Refusal::Section(OUT_OF_MEMORY)));
            };
            *process = CProcess::open(held);
            Ok(id)
        }
    }
}

/// Checks a module's frame section, compiles its rows, and adds them to a process as a module,
/// whose id is written to `id`. If the module's range shares an address with the range of another
/// module, that module's id is written to `id`.
#[unsafe(no_mangle)]
pub extern "C" fn dwcheck_process_add(
    alloc: Global,
    process: &mut CProcess,
    module: &CModule<'_>,
    id: &mut u64,
    fault: &mut CFault,
) -> u32
    ensures added { result ≡ DONE
        → IsModuleAdded module.now (held_in process.old) id.new (held_in process.new) }
    ensures refused { result ≡ REFUSED → (first : Fault)
        × HasFault module.now (held_in process.old) first × (fault.new ≡ cfault_of IN_FRAME first) }
    ensures room { result ≡ NO_ROOM
        → IsModuleRefused module.now (held_in process.old) refusal.Room }
    ensures range { result ≡ BAD_RANGE
        → IsModuleRefused module.now (held_in process.old) refusal.Range }
    ensures overlaps { result ≡ OVERLAPS
        → IsModuleRefused module.now (held_in process.old) (refusal.Overlaps id.new) }
    ensures target { result ≡ BAD_TARGET
        → (target : Target) → ¬ IsTargetFor module.now (held_in process.old) target }
    ensures kind { result ≡ BAD_KIND → kind_by module.now.kind ≡ None }
    ensures known { result ≢ BAD_KIND → result ≢ TOO_LONG → IsSome (kind_by module.now.kind) }
    ensures good { result ≢ BAD_TARGET → result ≢ TOO_LONG → result ≢ BAD_KIND
        → (target : Target) × IsTargetFor module.now (held_in process.old) target }
    ensures long { result ≡ TOO_LONG → 2 ^ 32 ≤ length module.now.frame.now }
    ensures short { result ≢ TOO_LONG → length module.now.frame.now < 2 ^ 32 }
    ensures codes { (result ≤ BAD_KIND) ⊎ (result ≡ OVERLAPS) ⊎ (result ≡ BAD_RANGE) }
    ensures same { result ≢ DONE → held_in process.new ≡ held_in process.old }
    ensures unnamed { result ≢ DONE → result ≢ OVERLAPS → id.new ≡ id.old }
    ensures unreported { result ≢ REFUSED → fault.new ≡ fault.old }
{
    if module.frame.len() >= 1 << 32 {
        return TOO_LONG;
    }
    let Some(kind) = section_kind(module.kind) else {
        return BAD_KIND;
    };
    match add(alloc, process, module, kind) {
        Ok(added) => {
            *id = added;
            DONE
        }
        Err(NotAdded::BadTarget) => BAD_TARGET,
        Err(NotAdded::Refused(Refusal::Room)) => NO_ROOM,
        Err(NotAdded::Refused(Refusal::Range)) => BAD_RANGE,
        Err(NotAdded::Refused(Refusal::Overlaps(other))) => {
            *id = other;
            OVERLAPS
        }
        Err(NotAdded::Refused(Refusal::Section(found))) if found.kind == FaultKind::Memory => {
            NO_MEMORY
        }
        Err(NotAdded::Refused(Refusal::Section(found))) => {
            *fault = report(IN_FRAME, found);
            REFUSED
        }
    }
}

/// Removes the module with this id from a process. Returns `NONE` if there is no such module.
#[unsafe(no_mangle)]
pub extern "C" fn dwcheck_process_remove(alloc: Global, process: &mut CProcess, id: u64) -> u32
    ensures removed { held_in process.new ≡ option_map (removed id) (held_in process.old) }
    ensures found { result ≡ DONE
        → list_any (λ m. m.id == id) (modules_of (held_in process.old)) ≡ true }
    ensures none { result ≡ NONE
        → list_any (λ m. m.id == id) (modules_of (held_in process.old)) ≡ false }
    ensures codes { (result ≡ DONE) ⊎ (result ≡ NONE) }
{
    let Some(mut held) = process.take(alloc) else {
        return NONE;
    };
    let found = held.remove(id);
    *process = CProcess::open(held);
    if found { DONE } else { NONE }
}

/// Another process with the modules of `held`, or `None` if there isn't enough memory.
fn shared(alloc: Global, held: &Process) -> Option<CProcess>
    ensures { IfSome result (λ other. held_in other ≡ Some held.now) }
{
    let shared = held.share(alloc)?;
    match Box::new(alloc, shared) {
        Ok(held) => Some(CProcess::open(held)),
        Err(_) => None,
    }
}

/// A process that is replaced, with a part of the right to read another process, which takes no
/// bytes: C passes a pointer to a process.
#[repr(C)]
pub struct SharePlace {
    process: CProcess,
    right: Right,
}

const _: () = prove!(size_of::<SharePlace>() == size_of::<CProcess>());

/// Replaces `other` with a process that has the modules of `process`. The two processes share the
/// compiled tables.
#[unsafe(no_mangle)]
pub extern "C" fn dwcheck_process_share(
    alloc: Global,
    process: &LentProcess,
    other: &mut SharePlace,
) -> u32
    requires { Reads other.old.right process.now }
    ensures shared { result ≡ DONE → held_in other.new.process ≡ other.old.right.process }
    ensures lacks { result ≡ NO_MEMORY → held_in other.new.process ≡ held_in other.old.process }
    ensures closed { other.old.right.process ≡ None → result ≡ DONE }
    ensures codes { (result ≡ DONE) ⊎ (result ≡ NO_MEMORY) }
    ensures same { loan_of other.new.right ≡ loan_of other.old.right }
{
    let Some(part) = process.take(&mut other.right) else {
        other.process = CProcess::closed(alloc);
        return DONE;
    };
    let made = shared(alloc, part.get());
    put(part, &mut other.right);
    match made {
        Some(made) => {
            other.process = made;
            DONE
        }
        None => NO_MEMORY,
    }
}

/// Releases all modules of a process, and closes it.
#[unsafe(no_mangle)]
pub extern "C" fn dwcheck_process_close(alloc: Global, process: &mut CProcess)
    ensures { held_in process.new ≡ None }
{
    *process = CProcess::closed(alloc);
}
