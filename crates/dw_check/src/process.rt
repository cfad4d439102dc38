//! Reads frame sections from files and checks them: a single section, or one section for each
//! module of a process.

ghost use Rattle.std.specs.Prelude.{◌≡◌, List, None, IfOk, IfErr, length, map};
ghost use Rattle.dw_rows.specs.Section.{frame_of};
ghost use Rattle.dw_check.specs.FileViews.{with_bytes};
ghost use Rattle.dw_check.specs.Files.{GivesProcess};
ghost use Rattle.dw_unwind.specs.Modules.{unborrowed};
ghost use Rattle.dw_check.specs.Runs.{IsBadProcess, IsUnreadProcess, frame_refusal, modules_of_sections, modules_refusal};
ghost use Rattle.dw_state.specs.StateFile.{StateFact, IsGivenBy};
ghost use Rattle.dw_state.specs.StateViews.{known_state_of};
ghost use Rattle.dw_check.specs.Stops.{IsRefusal};
ghost use Rattle.dw_sections.specs.declared.section.Section.TheVariants as sections;

use crate::files::Files;
use crate::stop::RunFault;
use dw_bytes::Target;
use dw_rows::{CheckedFrame, check_frame};
use dw_sections::{SECTION_LIMIT, Section, TOO_LONG};
use dw_state::MachineState;
use dw_unwind::Module;
use std::alloc::{AllocError, Global};
use std::borrow::CowSlice;

/// Checks `section` as a frame section. The error is the first fault of the section, or out of
/// memory.
pub(crate) fn frame_or_refusal<'a>(
    alloc: Global,
    target: Target,
    section: &'a [u8],
) -> Result<CheckedFrame<'a>, RunFault>
    ensures frame { IfOk result (λ frame. frame ≡ frame_of target section.entry.now) }
    ensures whole { IfOk result (λ _. frame_refusal target section.entry.now ≡ None) }
    ensures stop { IfErr result (IsRefusal sections.Frame
        (frame_refusal target section.entry.now)) }
{
    if section.len() >= SECTION_LIMIT {
        return Err(RunFault::Refused(Section::Frame, TOO_LONG));
    }
    match check_frame(alloc, section, target) {
        Ok(frame) => Ok(frame),
        Err(fault) => Err(RunFault::of_fault(Section::Frame, fault)),
    }
}

/// The contents of a process's files: its modules' frame sections, which aren't checked yet, and
/// its state.
#[derive(Drop)]
pub(crate) struct Process<'a> {
    /// The frame sections of the modules, with the modules' load addresses: first the section in
    /// FRAME, then the sections in the files of `--module`.
    pub modules: Vec<Module<CowSlice<'a, u8, Global>>>,
    /// The machine state in the state file.
    pub state: MachineState,
}

/// Reads the files of a process: FRAME, whose module is loaded at `load`; the files of `--module`,
/// whose modules are loaded at `module_loads`; and the state file. The state file comes last, since
/// a file that isn't hex text is reported before a bad line. The frame sections aren't checked
/// here.
pub(crate) fn read_process<'a>(
    alloc: Global,
    files: &Files<'a>,
    load: u64,
    module_loads: &[u64],
) -> Result<Process<'a>, RunFault>
    ensures process { IfOk result (λ process.
        (facts : List StateFact) × IsGivenBy (known_state_of process.state) facts
        × GivesProcess files.now.target load module_loads.now files.now.hex
        (map (λ file. file.items) files.now.contents.now) (with_bytes process.modules.items) facts) }
    ensures stop { IfErr result (IsBadProcess
        (IsUnreadProcess files.now.target load module_loads.now files.now.hex
        (map (λ file. file.items) files.now.contents.now)) (length files.now.contents.now)) }
{
    let section = files.section(alloc, 0)?;
    let mut modules = files.further_modules(alloc, module_loads)?;
    let state = files.state(alloc, 1)?;
    modules.insert(0, Module::new(section, load))?;
    Ok(Process { modules, state })
}

/// Checks the frame sections of `modules`, in order. The error is the first fault of the first
/// section that has a fault, or out of memory.
#[tactic(auto, using(crate::proofs::FurtherModules::one_more_checked))]
pub(crate) fn modules_or_refusal<'s>(
    alloc: Global,
    target: Target,
    modules: &'s [Module<CowSlice<'_, u8, Global>>],
) -> Result<Vec<Module<CheckedFrame<'s>>>, RunFault>
    ensures modules { IfOk result
        (λ v. v.items ≡ modules_of_sections target (with_bytes modules.entry.now)) }
    ensures whole { IfOk result
        (λ _. modules_refusal target (with_bytes modules.entry.now) ≡ None) }
    ensures stop { IfErr result (IsRefusal sections.Frame
        (modules_refusal target (with_bytes modules.entry.now))) }
{
    let mut checked = Vec::new(alloc);
    for module in modules {
        let frame = frame_or_refusal(alloc, target, module.rows.as_slice())?;
        checked.push(Module::new(frame, module.load_address))?;
    }
    Ok(checked)
}

/// The same modules, each with a reference to its frame section in place of the section.
pub(crate) fn lent_modules<'f, 's>(
    alloc: Global,
    modules: &'f [Module<CheckedFrame<'s>>],
) -> Result<Vec<Module<&'f CheckedFrame<'s>>>, AllocError>
    ensures { IfOk result (λ v. unborrowed v.items ≡ modules.entry.now) }
{
    let mut lent = Vec::with_capacity(alloc, modules.len())?;
    for module in modules {
        lent.push(Module::new(&module.rows, module.load_address))?;
    }
    Ok(lent)
}
