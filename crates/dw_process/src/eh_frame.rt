//! Modules whose rows come from an `.eh_frame` section.

ghost use Rattle.std.specs.Prelude.{◌≡◌, ◌⊎◌, ◌<◌, ◌^◌, ◌&&◌, ℕ, IfErr, IfOk, IfSome, Some, false, length};
ghost use Rattle.dw_bytes.specs.Answers.{memory};
ghost use Rattle.dw_signed_rows.specs.SignedRanges.{has_signed};
ghost use Rattle.dw_signed_rows.specs.SignedSections.{is_signed_of};
ghost use Rattle.dw_process.specs.EhModules.{AreMarksOf, IsAddedLeavingOut, IsEhAdded, IsEhFrameOf, IsEhRefused, IsRefusedLeavingOut, eh_fault_of};
ghost use Rattle.dw_process.specs.Marks.{marks_of};
ghost use Rattle.dw_process.specs.Processes.{IsStored};

use crate::address_range::AddressRange;
use crate::module_map::ModuleMap;
use crate::process::Process;
use crate::ready_module::{CompiledFrame, has_place};
use crate::refusal::Refusal;
use crate::shared_marks::FrameMarks;
use dw_bytes::{Fault, Target};
use dw_eh_frame::Bases;
use dw_eh_rows::{
    KeptRecords, SignalRange, check_eh_frame, check_eh_frame_leaving_out, list_eh_frame,
    signal_frames_of,
};
use dw_rows::CheckedFrame;
use dw_signed_rows::SignedRanges;
use dw_tables::UnwindTable;
use std::alloc::Global;

/// An `.eh_frame` section (LSB Core, section 10.6).
#[derive(Clone, Copy)]
pub struct EhSection<'a> {
    pub bytes: &'a [u8],
    /// The addresses, as linked, that the section's pointers are relative to.
    pub bases: Bases,
    /// Whether the section is for aarch64, where the instructions 0x2d and 0x2c are
    /// DW_CFA_AARCH64_negate_ra_state and DW_CFA_AARCH64_negate_ra_state_with_pc.
    pub is_aarch64: bool,
}

/// The marks of a checked section with these signal frames. Only programs for aarch64 say where
/// return addresses are signed.
fn marks_with(
    alloc: Global,
    frame: &CheckedFrame<'_>,
    signals: Vec<SignalRange>,
    is_aarch64: bool,
) -> Result<FrameMarks, Fault>
    ensures signals { IfOk result (λ marks. marks.signals.items ≡ signals.items) }
    ensures signed { IfOk result (λ marks. (a : ℕ) → has_signed marks.signed a
        ≡ (is_aarch64 && is_signed_of frame.now a)) }
    ensures lack { IfErr result (λ fault. fault ≡ memory) }
{
    let signed = if is_aarch64 {
        SignedRanges::of(alloc, frame)?
    } else {
        SignedRanges::none(alloc)
    };
    Ok(FrameMarks { signals, signed })
}

/// The marks of a section without a fault, which `frame` is.
fn whole_marks(
    alloc: Global,
    frame: &CheckedFrame<'_>,
    section: EhSection<'_>,
) -> Result<FrameMarks, Fault>
    requires short { length section.bytes.now < 2 ^ 32 }
    requires frame { IsEhFrameOf false section frame.now.target frame.now }
    ensures marks { IfOk result (λ marks.
        AreMarksOf false section.entry frame.now.target frame.now (marks_of marks)) }
    ensures lack { IfErr result (λ fault. fault ≡ memory) }
{
    let EhSection {
        bytes,
        bases,
        is_aarch64,
    } = section;
    let signals = signal_frames_of(alloc, frame, bytes, frame.target(), bases, is_aarch64)?;
    marks_with(alloc, frame, signals, is_aarch64)
}

/// A checked `.eh_frame` section, or what is kept of it, with its marks.
pub(crate) struct MarkedFrame<'a> {
    pub(crate) frame: CheckedFrame<'a>,
    pub(crate) marks: FrameMarks,
}

/// Checks an `.eh_frame` section, with all its records or without bad ones.
pub(crate) fn marked_frame<'a>(
    alloc: Global,
    section: EhSection<'a>,
    target: Target,
    leaves_out: bool,
) -> Result<MarkedFrame<'a>, Fault>
    requires { length section.bytes.now < 2 ^ 32 }
    ensures frame { IfOk result (λ made. IsEhFrameOf leaves_out section.entry target made.frame) }
    ensures marks { IfOk result (λ made.
        AreMarksOf leaves_out section.entry target made.frame (marks_of made.marks)) }
    ensures fault { IfErr result (λ fault. (fault ≡ memory)
        ⊎ (eh_fault_of leaves_out section.entry target ≡ Some fault)) }
{
    let EhSection {
        bytes,
        bases,
        is_aarch64,
    } = section;
    if leaves_out {
        let kept = check_eh_frame_leaving_out(alloc, bytes, target, bases, is_aarch64)?;
        let KeptRecords { frame, signals, .. } = kept;
        let marks = marks_with(alloc, &frame, signals, is_aarch64)?;
        return Ok(MarkedFrame { frame, marks });
    }
    let frame = check_eh_frame(alloc, bytes, target, bases, is_aarch64)?;
    let marks = whole_marks(alloc, &frame, section)?;
    Ok(MarkedFrame { frame, marks })
}

/// Checks an `.eh_frame` section and compiles it in one pass: each program of an FDE is run once, but
/// for those with expressions. `None` if the section has to be checked and compiled in two passes:
/// it has exact copies of FDEs, a fault or more rows than the room allows, memory is lacking, or its
/// addresses are taken.
fn compiled_frame<'a>(
    alloc: Global,
    modules: &ModuleMap,
    section: EhSection<'a>,
    target: Target,
    load_address: u64,
    range: Option<AddressRange>,
    room: usize,
) -> Result<Option<CompiledFrame<'a>>, Fault>
    requires { length section.bytes.now < 2 ^ 32 }
    ensures frame { IfOk result (λ made. IfSome made
        (λ compiled. IsEhFrameOf false section.entry target compiled.frame)) }
    ensures stored { IfOk result (λ made. IfSome made
        (λ compiled. IsStored compiled.frame room compiled.table)) }
    ensures room { IfOk result (λ made. IfSome made (λ compiled. compiled.room ≡ room)) }
    ensures lack { IfErr result (λ fault. fault ≡ memory) }
{
    let EhSection {
        bytes,
        bases,
        is_aarch64,
    } = section;
    let Some(unchecked) = list_eh_frame(alloc, bytes, target, bases, is_aarch64)? else {
        return Ok(None);
    };
    if !has_place(modules, &unchecked.listed, load_address, range) {
        return Ok(None);
    }
    match UnwindTable::check_and_compile(alloc, unchecked, room) {
        Ok(Some((frame, table))) => Ok(Some(CompiledFrame { frame, table, room })),
        // Where one pass lacks memory, a check alone may still find a fault.
        Ok(None) | Err(_) => Ok(None),
    }
}

impl Process {
    /// Checks an `.eh_frame` section of fewer than 2^32 bytes, compiles it, and adds it as a
    /// module, as `add` does with a `.debug_frame` section. The section's addresses are as linked.
    /// The rows are those of the section's own programs; instructions of vendors change no rule.
    ///
    /// A fault is the first one of `dw_eh_rows::check_eh_frame`. What the check takes is freed
    /// before the call returns. After an error the process is unchanged.
    pub fn add_eh_frame(
        &mut self,
        alloc: Global,
        section: EhSection<'_>,
        load_address: u64,
        range: Option<AddressRange>,
        cookie: u64,
        room: usize,
    ) -> Result<u64, Refusal>
        requires { length section.bytes.now < 2 ^ 32 }
        ensures added { IfOk result
            (λ id. IsEhAdded section.entry load_address range cookie room self.old id self.new) }
        ensures refused { IfErr result
            (IsEhRefused section.entry self.old.target load_address range room self.old.modules) }
        ensures same { IfErr result (λ _. self.new ≡ self.old) }
    {
        let target = self.target();
        let modules = &self.modules;
        let made = compiled_frame(alloc, modules, section, target, load_address, range, room)?;
        if let Some(compiled) = made {
            let marks = whole_marks(alloc, &compiled.frame, section)?;
            return match self.add_compiled(alloc, compiled, marks, load_address, range, cookie) {
                Ok(id) => Ok(id),
                Err(why) => Err(why),
            };
        }
        let made = marked_frame(alloc, section, target, false)?;
        let MarkedFrame { frame, marks } = made;
        match self.add_checked(alloc, &frame, marks, load_address, range, cookie, room) {
            Ok(id) => Ok(id),
            Err(why) => Err(why),
        }
    }

    /// Adds an `.eh_frame` section as `add_eh_frame` does, but if the section has a fault, without
    /// its bad records (`dw_eh_rows::check_eh_frame_leaving_out`, which also lists them). The rows
    /// of all others are added. If no range is given, it is that of what is kept.
    ///
    /// A fault is one of the section as a whole: of a record's length, or of two FDEs that cover
    /// one address. After an error the process is unchanged.
    pub fn add_eh_frame_leaving_out(
        &mut self,
        alloc: Global,
        section: EhSection<'_>,
        load_address: u64,
        range: Option<AddressRange>,
        cookie: u64,
        room: usize,
    ) -> Result<u64, Refusal>
        requires { length section.bytes.now < 2 ^ 32 }
        ensures added { IfOk result
            (λ id. IsAddedLeavingOut section.entry load_address range cookie room self.old id self.new) }
        ensures refused { IfErr result
            (IsRefusedLeavingOut section.entry self.old.target load_address range room self.old.modules) }
        ensures same { IfErr result (λ _. self.new ≡ self.old) }
    {
        let made = marked_frame(alloc, section, self.target(), true)?;
        let MarkedFrame { frame, marks } = made;
        match self.add_checked(alloc, &frame, marks, load_address, range, cookie, room) {
            Ok(id) => Ok(id),
            Err(why) => Err(why),
        }
    }
}
