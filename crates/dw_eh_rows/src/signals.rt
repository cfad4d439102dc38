//! Which addresses are those of signal frames.

ghost use Rattle.std.specs.Prelude.{◌≡◌, ◌<◌, ◌^◌, ◌++◌, ℕ, All, Bool, List, [], ◌∷◌, IfOk, IfErr, IfSome, None, OnOk, length, map};
ghost use Rattle.std.specs.Bool.{OnFalse};
ghost use Rattle.dw_bytes.specs.Answers.{Answers, fault_in, memory, values_in};
ghost use Rattle.dw_eh_frame.specs.Records.{eh_fde, eh_records_of};
ghost use Rattle.dw_bytes.specs.declared.target.Target.{Target};
ghost use Rattle.dw_eh_frame.specs.Views.{HasCieOf, IsCieOf, eh_record_of, fde_with_cie};
ghost use Rattle.dw_frame.specs.Views.{cie_of};
ghost use Rattle.dw_eh_rows.specs.Section.{eh_frame_of, eh_section_fault};
ghost use Rattle.dw_eh_rows.specs.Signals.{HasNoSignals, HasNoSignalsAt, is_signal_at, signal_frames as frames_of};

use dw_bytes::{Fault, OUT_OF_MEMORY, Target};
use dw_eh_frame::{Bases, EhCie, EhRecord, eh_record_after, usual_fde};
use dw_frame::{CommonInformationEntry, FrameDescriptionEntry};
use dw_rows::CheckedFrame;
use std::alloc::Global;

/// `count` addresses, the first of which is `start`.
#[derive(Clone, Copy, Debug, PartialEq, Eq)]
pub struct SignalRange {
    pub start: u64,
    pub count: u64,
}

/// Appends the addresses of an FDE whose CIE is `cie`, if it is a signal frame.
#[inline(always)]
fn push_signal_fde(
    ranges: &mut Vec<SignalRange>,
    cie: &EhCie<'_>,
    fde: &FrameDescriptionEntry<'_>,
) -> Result<(), Fault>
    ensures pushed { OnOk result (ranges.new.items ≡ ranges.old.items ++ frames_of (eh_fde (fde_with_cie cie.now fde.now) ∷ [])) }
    ensures lack { IfErr result (λ fault. fault ≡ memory) }
{
    if cie.augmentation.is_signal {
        ranges.push(SignalRange {
            start: fde.initial_location,
            count: fde.address_range,
        })?;
    }
    Ok(())
}

/// Appends the addresses of an FDE that is a signal frame.
pub(crate) fn push_signal_frame(
    ranges: &mut Vec<SignalRange>,
    record: &EhRecord<'_>,
) -> Result<(), Fault>
    ensures pushed { OnOk result (ranges.new.items ≡ ranges.old.items ++ frames_of (eh_record_of record.now ∷ [])) }
    ensures lack { IfErr result (λ fault. fault ≡ memory) }
{
    match record {
        EhRecord::Fde(fde) => push_signal_fde(ranges, &fde.cie, &fde.fde),
        _ => Ok(()),
    }
}

/// The CIE that was read or used last, once this record was read. A caller that goes through the records
/// of a section passes it to `eh_record_after`: most FDEs have the CIE of the FDE before them.
#[inline(always)]
pub fn cie_after<'a>(record: &EhRecord<'a>, last: Option<EhCie<'a>>) -> Option<EhCie<'a>>
    ensures { (is_aarch64 : Bool) (target : Target) (section : List ℕ) → HasCieOf is_aarch64 target section record.now
        → IfSome last.entry (IsCieOf is_aarch64 target section) → IfSome result (IsCieOf is_aarch64 target section) }
{
    match record {
        EhRecord::Cie(cie) => Some(*cie),
        EhRecord::Fde(fde) => Some(fde.cie),
        EhRecord::Nothing(_) => last,
    }
}

/// The addresses of each FDE of a section of fewer than 2^32 bytes that is a signal frame, in the
/// order of the section. It takes as long as reading the records, and memory for
/// what it returns. `is_aarch64` changes nothing here.
///
/// The error is the first fault of `eh_record`. `Memory` (60) has offset 0.
pub fn signal_frames(
    alloc: Global,
    section: &[u8],
    target: Target,
    bases: Bases,
    is_aarch64: bool,
) -> Result<Vec<SignalRange>, Fault>
    requires { length section.now < 2 ^ 32 }
    ensures answer { Answers (fault_in (eh_records_of is_aarch64 bases target section.now)) result }
    ensures frames { IfOk result (λ ranges. ranges.items
        ≡ frames_of (values_in (eh_records_of is_aarch64 bases target section.now))) }
{
    dw_eh_frame::laws::records_come_in_order();
    let mut ranges = Vec::new(alloc);
    let mut last = None;
    let mut at = 0u32;
    while (at as usize) < section.len() {
        // Nearly all records are usual FDEs.
        if let Some(cie) = &last
            && let Some((fde, next)) = usual_fde(section, target, bases, is_aarch64, at, cie)
        {
            push_signal_fde(&mut ranges, cie, &fde)?;
            at = next;
        } else {
            let (record, next) = eh_record_after(
                section,
                target,
                bases,
                is_aarch64,
                at,
                last.as_ref(),
            )?;
            push_signal_frame(&mut ranges, &record)?;
            last = cie_after(&record, last);
            at = next;
        }
    }
    Ok(ranges)
}

/// Whether the CIE at an offset of a section may be that of signal frames. True also if no CIE can be read
/// there.
fn may_have_signals(section: &[u8], target: Target, bases: Bases, is_aarch64: bool, at: u32) -> bool
    requires { length section.now < 2 ^ 32 }
    ensures { OnFalse result (HasNoSignalsAt is_aarch64 target section.now at) }
{
    if at as usize >= section.len() {
        return true;
    }
    match eh_record_after(section, target, bases, is_aarch64, at, None) {
        Ok((EhRecord::Cie(cie), _)) => cie.augmentation.is_signal,
        _ => true,
    }
}

/// Whether one of these CIEs of a section may be that of signal frames.
fn may_one_have_signals(
    section: &[u8],
    target: Target,
    bases: Bases,
    is_aarch64: bool,
    cies: &[CommonInformationEntry<'_>],
) -> bool
    requires { length section.now < 2 ^ 32 }
    ensures { OnFalse result (All (HasNoSignals is_aarch64 target section.now) (map cie_of cies.now)) }
{
    for cie in cies {
        if may_have_signals(section, target, bases, is_aarch64, cie.offset) {
            return true;
        }
    }
    false
}

/// The addresses that `signal_frames` returns, for a section in which `check_eh_frame` found no fault, and
/// what it returned. Few sections have signal frames, so usually only CIEs are read.
///
/// The only error is `Memory` (60) with offset 0.
pub fn signal_frames_of(
    alloc: Global,
    frame: &CheckedFrame<'_>,
    section: &[u8],
    target: Target,
    bases: Bases,
    is_aarch64: bool,
) -> Result<Vec<SignalRange>, Fault>
    requires short { length section.now < 2 ^ 32 }
    requires faultless { eh_section_fault is_aarch64 bases target section.now ≡ None }
    requires frame { frame.now ≡ eh_frame_of is_aarch64 bases target section.now }
    ensures frames { IfOk result (λ ranges. ranges.items
        ≡ frames_of (values_in (eh_records_of is_aarch64 bases target section.now))) }
    ensures lack { IfErr result (λ fault. fault ≡ memory) }
{
    dw_eh_frame::laws::cies_are_read_at_their_pointers();
    dw_eh_frame::laws::copies_are_left_out_in_place();
    dw_eh_frame::laws::sections_are_records();
    crate::laws::sections_without_fault_are_well_formed();
    if may_one_have_signals(section, target, bases, is_aarch64, frame.cies()) {
        return match signal_frames(alloc, section, target, bases, is_aarch64) {
            Ok(ranges) => Ok(ranges),
            // The section can be read, so only memory may lack.
            Err(_) => Err(OUT_OF_MEMORY),
        };
    }
    Ok(Vec::new(alloc))
}

/// Whether an address is in one of the ranges. It goes through all of them.
pub fn is_signal_address(ranges: &[SignalRange], address: u64) -> bool
    ensures { result ≡ is_signal_at ranges.now address }
{
    for range in ranges {
        if range.start <= address && address - range.start < range.count {
            return true;
        }
    }
    false
}
