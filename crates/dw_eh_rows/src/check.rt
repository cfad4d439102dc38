//! The check of an `.eh_frame` section.

ghost use Rattle.std.specs.Prelude.{◌≡◌, ◌<◌, ◌≤◌, ◌^◌, ◌⊎◌, IfErr, IfNone, IfOk, IfSome, None, Some, length};
ghost use Rattle.dw_bytes.specs.Answers.{Answers, memory};
ghost use Rattle.dw_rules.specs.Expressions.{cie_expressions};
ghost use Rattle.dw_rows.specs.Section.{IsChecked};
ghost use Rattle.dw_eh_frame.specs.Records.{eh_reading_fault};
ghost use Rattle.dw_eh_rows.specs.Section.{AllAreGood, eh_frame_of, eh_frame_with_copies, eh_section_fault};

use dw_bytes::{Fault, FaultKind, OUT_OF_MEMORY, Target};
use dw_eh_frame::{Bases, EhRecords, eh_records, eh_records_with_copies};
use dw_rows::{CheckedFrame, UncheckedFrame, check_records, list_records};
use std::alloc::Global;

/// Checks a section as if no FDE were an exact copy: with all FDEs, as they are read. `Some` if it has
/// no fault: then there are no copies either, since copies share addresses. `None` if it has copies, or
/// a fault that isn't one in reading it. This is faster than looking for copies in each section.
#[tactic(auto, unfolding(crate::specs::Section::eh_section_fault))]
fn check_all_records<'a>(
    alloc: Global,
    section: &'a [u8],
    target: Target,
    bases: Bases,
    is_aarch64: bool,
) -> Result<Option<CheckedFrame<'a>>, Fault>
    requires { length section.now < 2 ^ 32 }
    ensures fault { IfErr result (λ fault. (fault ≡ memory) ⊎ (eh_section_fault is_aarch64 bases target section.now ≡ Some fault)) }
    ensures inside { IfErr result (λ fault. fault.at ≤ length section.now) }
    ensures faultless { IfOk result (λ found. IfSome found (λ _. eh_section_fault is_aarch64 bases target section.now ≡ None)) }
    ensures checked { IfOk result (λ found. IfSome found IsChecked) }
    ensures frame { IfOk result (λ found. IfSome found (λ frame. frame ≡ eh_frame_of is_aarch64 bases target section.now)) }
{
    dw_rows::laws::records_without_fault_are_good();
    dw_eh_frame::laws::records_without_copies_are_kept();
    let EhRecords { cies, fdes } = eh_records_with_copies(
        alloc, section, target, bases, is_aarch64,
    )?;
    match check_records(alloc, section, target, cies, fdes) {
        Ok(frame) => Ok(Some(frame)),
        Err(fault) if fault.kind == FaultKind::Memory => Err(OUT_OF_MEMORY),
        Err(_) => Ok(None),
    }
}

/// Lists the records of a section of fewer than 2^32 bytes as if no FDE were an exact copy, and checks all
/// but the programs of FDEs. If these have no fault, the section has none, and no copies either. `None`
/// if a record can't be read, if the rest has a fault, or if two FDEs cover one address, as copies do:
/// then `check_eh_frame` finds out more.
#[tactic(auto, unfolding(crate::specs::Section::eh_section_fault))]
pub fn list_eh_frame<'a>(
    alloc: Global,
    section: &'a [u8],
    target: Target,
    bases: Bases,
    is_aarch64: bool,
) -> Result<Option<UncheckedFrame<'a>>, Fault>
    requires { length section.now < 2 ^ 32 }
    ensures read { IfOk result (λ made. IfSome made
        (λ _. eh_reading_fault is_aarch64 bases target section.now ≡ None)) }
    ensures listed { IfOk result (λ made. IfSome made
        (λ frame. frame.listed ≡ eh_frame_with_copies is_aarch64 bases target section.now)) }
    ensures faultless { IfOk result (λ made. IfSome made (λ frame. IsChecked frame.listed
        → eh_section_fault is_aarch64 bases target section.now ≡ None)) }
    ensures frame { IfOk result (λ made. IfSome made (λ frame. IsChecked frame.listed
        → frame.listed ≡ eh_frame_of is_aarch64 bases target section.now)) }
    ensures expressions { IfOk result (λ made. IfSome made (λ frame. frame.checked
        ≡ cie_expressions frame.listed.cies)) }
    ensures none { IfOk result (λ made. IfNone made
        (AllAreGood is_aarch64 bases target section.now → ⊥)) }
    ensures lack { IfErr result (λ fault. fault ≡ memory) }
{
    dw_rows::laws::records_without_fault_are_good();
    dw_eh_frame::laws::records_without_copies_are_kept();
    let EhRecords { cies, fdes } = match eh_records_with_copies(
        alloc, section, target, bases, is_aarch64,
    ) {
        Ok(records) => records,
        Err(fault) if fault.kind == FaultKind::Memory => return Err(OUT_OF_MEMORY),
        Err(_) => return Ok(None),
    };
    list_records(alloc, section, target, cies, fdes)
}

/// Checks a section of fewer than 2^32 bytes: that its records can be read, and that the CIE of
/// each FDE is one of the records before it; then the programs of the CIEs, those of the FDEs, and
/// that no address is covered by two FDEs, except by exact copies of one. `bases` says where the
/// section is, and `is_aarch64` whether its programs are for aarch64. It takes n log n for
/// n bytes, and memory for each CIE, FDE and expression, which the result lends; and for a while 16
/// bytes more for each FDE, if FDEs have 40 bytes on average.
///
/// The error is the first fault in that order, with its offset in the section: a fault of
/// `eh_records`; a fault of a program, as `check_cie` and `check_fde` of `dw_rows` report it;
/// `Overlap` (23) at the first FDE of the section that shares an address with an earlier one.
/// `Memory` (60) has offset 0.
#[inline(never)]
#[tactic(auto, unfolding(crate::specs::Section::eh_section_fault))]
pub fn check_eh_frame<'a>(
    alloc: Global,
    section: &'a [u8],
    target: Target,
    bases: Bases,
    is_aarch64: bool,
) -> Result<CheckedFrame<'a>, Fault>
    requires { length section.now < 2 ^ 32 }
    ensures answer { Answers (eh_section_fault is_aarch64 bases target section.now) result }
    ensures inside { IfErr result (λ fault. fault.at ≤ length section.now) }
    ensures checked { IfOk result IsChecked }
    ensures frame { IfOk result (λ frame. frame ≡ eh_frame_of is_aarch64 bases target section.now) }
{
    if let Some(frame) = check_all_records(alloc, section, target, bases, is_aarch64)? {
        return Ok(frame);
    }
    let records = eh_records(alloc, section, target, bases, is_aarch64)?;
    check_records(alloc, section, target, records.cies, records.fdes)
}
