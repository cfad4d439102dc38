//! The check of an `.eh_frame` section that leaves bad records out.

ghost use Rattle.std.specs.Prelude.{◌≡◌, ◌<◌, ◌≤◌, ◌^◌, IfErr, IfNone, IfOk, OnOk, MatchOption, None, Ok, false, is_none, length, map, slice_get};
ghost use Rattle.std.specs.Option.{option_or};
ghost use Rattle.dw_bytes.specs.Answers.{Answers, fault_in, memory};
ghost use Rattle.dw_frame.specs.Bounds.{ArePlaced, Ascends};
ghost use Rattle.dw_frame.specs.Records.{cies_among, fdes_among};
ghost use Rattle.dw_frame.specs.Views.{cie_of, fde_of};
ghost use Rattle.dw_rules.specs.Initial.{AreLeftBy};
ghost use Rattle.dw_rules.specs.ProgramFault.{cie_fault, fde_fault};
ghost use Rattle.dw_rules.specs.ProgramState.{IsLeftBy};
ghost use Rattle.dw_rows.specs.Section.{IsChecked, cie_at, pointer_fault, program_fault};
ghost use Rattle.dw_eh_frame.specs.Items.{items_of};
ghost use Rattle.dw_eh_frame.specs.Progress.{cie_offset};
ghost use Rattle.dw_eh_frame.specs.Records.{all_in_dwarf, eh_cie, eh_fde};
ghost use Rattle.dw_eh_frame.specs.Views.{eh_cie_of, eh_fde_of, eh_record_of};
ghost use Rattle.dw_eh_rows.specs.KeptRecords.{kept_frame_of, kept_of, split_records, whole_fault};
ghost use Rattle.dw_eh_rows.specs.Section.{eh_section_fault};
ghost use Rattle.dw_eh_rows.specs.Signals.{signal_frames as frames_of};
ghost use Rattle.dw_eh_rows.specs.Splitting.{parts_of, with_fault, with_item, with_record};

use crate::check::check_eh_frame;
use crate::signals::{SignalRange, cie_after, push_signal_frame, signal_frames_of};
use dw_bytes::{Fault, FaultKind, OUT_OF_MEMORY, Target};
use dw_eh_frame::{Bases, EhCie, EhFde, EhRecord, eh_item_after, without_copies};
use dw_frame::{CommonInformationEntry, FrameDescriptionEntry};
use dw_rows::{
    CheckedExpressions, CheckedFrame, check_cie_program, check_records, quick_or_full_check,
};
use dw_rules::{InitialRules, UnwindContext, UnwindState};
use std::alloc::Global;

/// A record that is left out of a section.
#[derive(Clone, Copy, Debug)]
pub struct LeftOutRecord {
    /// The offset of the record's first byte in the section.
    pub offset: u32,
    /// The first reason why it is left out: a fault of `eh_record`; `NoSuchCie` (9) at the CIE pointer
    /// of an FDE whose CIE isn't kept; or a fault of `check_cie` or `check_fde` of `dw_rows`, which may
    /// be at the record's end.
    pub fault: Fault,
}

/// What is kept of a section, and the other records.
#[derive(Drop)]
struct Split<'a> {
    cies: Vec<CommonInformationEntry<'a>>,
    /// The rules that the programs of these CIEs leave.
    initial: InitialRules,
    fdes: Vec<FrameDescriptionEntry<'a>>,
    /// The addresses of the FDEs that are signal frames.
    signals: Vec<SignalRange>,
    left_out: Vec<LeftOutRecord>,
}

/// The index of the CIE that begins at `offset`, by binary search. `None` means that no CIE begins
/// there. The CIEs must be in order of offset.
pub(crate) fn place_of_cie(cies: &[CommonInformationEntry<'_>], offset: u64) -> Option<usize>
    requires { Ascends cie_offset (map cie_of cies.now) }
    ensures { MatchOption result
        (cie_at (map cie_of cies.now) offset ≡ None)
        (λ place. (place < length cies.now)
        × (cie_at (map cie_of cies.now) offset ≡ slice_get (map cie_of cies.now) place)) }
{
    match cies.binary_search_by_key(&offset, |cie| u64::from(cie.offset)) {
        Ok(place) => Some(place),
        Err(_) => None,
    }
}

/// The first fault of a CIE's program. If it has none, its rules are in `state` afterwards.
fn fault_of_cie(
    alloc: Global,
    state: &mut UnwindState,
    cie: &CommonInformationEntry<'_>,
) -> Result<Option<Fault>, Fault>
    ensures exact { IfOk result (λ fault. fault ≡ cie_fault (cie_of cie.now)) }
    ensures left { IfOk result (λ fault. IfNone fault (IsLeftBy (cie_of cie.now) state.new.initial_rules)) }
    ensures lack { IfErr result (λ fault. fault ≡ memory) }
{
    let mut checked = CheckedExpressions::new(alloc);
    match check_cie_program(state, &mut checked, cie) {
        Ok(()) => Ok(None),
        Err(fault) if fault.kind == FaultKind::Memory => Err(OUT_OF_MEMORY),
        Err(fault) => Ok(Some(fault)),
    }
}

/// The first fault of an FDE's program, which begins with the initial rules in `context`.
fn fault_of_program(
    alloc: Global,
    context: &mut UnwindContext,
    cie: &CommonInformationEntry<'_>,
    fde: &FrameDescriptionEntry<'_>,
) -> Result<Option<Fault>, Fault>
    requires { IsLeftBy (cie_of cie.now) context.old.initial_rules }
    ensures exact { IfOk result (λ fault. fault ≡ fde_fault (cie_of cie.now) (fde_of fde.now)) }
    ensures lack { IfErr result (λ fault. fault ≡ memory) }
{
    let mut checked = CheckedExpressions::new(alloc);
    match quick_or_full_check(context, &mut checked, cie, fde) {
        Ok(_) => Ok(None),
        Err(fault) if fault.kind == FaultKind::Memory => Err(OUT_OF_MEMORY),
        Err(fault) => Ok(Some(fault)),
    }
}

/// The fault of an FDE whose CIE isn't one of these, or else the first fault of its program, which
/// begins with the rules that its CIE's program leaves.
fn fault_of_fde(
    alloc: Global,
    context: &mut UnwindContext,
    cies: &[CommonInformationEntry<'_>],
    initial: &InitialRules,
    fde: &FrameDescriptionEntry<'_>,
) -> Result<Option<Fault>, Fault>
    requires order { Ascends cie_offset (map cie_of cies.now) }
    requires left { AreLeftBy (map cie_of cies.now) initial.now }
    ensures exact { IfOk result (λ fault. fault ≡ option_or (pointer_fault (map cie_of cies.now) (fde_of fde.now))
        (program_fault (map cie_of cies.now) (fde_of fde.now))) }
    ensures lack { IfErr result (λ fault. fault ≡ memory) }
{
    let Some(place) = place_of_cie(cies, fde.cie_pointer) else {
        return Ok(Some(Fault {
            kind: FaultKind::NoSuchCie,
            at: fde.cie_pointer_offset,
        }));
    };
    context.state.set_initial_rules(initial, place);
    fault_of_program(alloc, context, &cies[place], fde)
}

/// Keeps a CIE, whose rules are in `state`.
fn keep_cie<'a>(split: &mut Split<'a>, state: &UnwindState, cie: &EhCie<'a>) -> Result<(), Fault>
    requires rules { IsLeftBy (cie_of cie.now.cie) state.now.initial_rules }
    requires left { AreLeftBy (map cie_of split.old.cies.items) split.old.initial }
    ensures kept { OnOk result (parts_of split.new ≡ with_record (parts_of split.old) (eh_cie (eh_cie_of cie.now))) }
    ensures left { OnOk result (AreLeftBy (map cie_of split.new.cies.items) split.new.initial) }
    ensures lack { IfErr result (λ fault. fault ≡ memory) }
{
    split.cies.push(cie.cie)?;
    split.initial.push(state.initial_rules())?;
    Ok(())
}

/// Keeps an FDE.
fn keep_fde<'a>(split: &mut Split<'a>, record: &EhRecord<'a>, fde: &EhFde<'a>) -> Result<(), Fault>
    requires { eh_record_of record.now ≡ eh_fde (eh_fde_of fde.now) }
    ensures kept { OnOk result (parts_of split.new ≡ with_record (parts_of split.old) (eh_record_of record.now)) }
    ensures same { OnOk result ((split.new.cies ≡ split.old.cies) × (split.new.initial ≡ split.old.initial)) }
    ensures lack { IfErr result (λ fault. fault ≡ memory) }
{
    push_signal_frame(&mut split.signals, record)?;
    split.fdes.push(fde.fde)?;
    Ok(())
}

/// Leaves a record out.
fn leave_out(split: &mut Split<'_>, at: u32, fault: Fault) -> Result<(), Fault>
    ensures left_out { OnOk result (parts_of split.new ≡ with_fault (parts_of split.old) at fault) }
    ensures same { OnOk result ((split.new.cies ≡ split.old.cies) × (split.new.initial ≡ split.old.initial)) }
    ensures lack { IfErr result (λ fault. fault ≡ memory) }
{
    split.left_out.push(LeftOutRecord { offset: at, fault })?;
    Ok(())
}

/// Keeps a record that begins at the offset `at`, or leaves it out.
fn split_record<'a>(
    alloc: Global,
    context: &mut UnwindContext,
    split: &mut Split<'a>,
    at: u32,
    record: &EhRecord<'a>,
) -> Result<(), Fault>
    requires order { Ascends cie_offset (map cie_of split.old.cies.items) }
    requires left { AreLeftBy (map cie_of split.old.cies.items) split.old.initial }
    ensures split { OnOk result (parts_of split.new ≡ with_item (parts_of split.old) (at, Ok (eh_record_of record.now))) }
    ensures left { OnOk result (AreLeftBy (map cie_of split.new.cies.items) split.new.initial) }
    ensures lack { IfErr result (λ fault. fault ≡ memory) }
{
    match record {
        EhRecord::Cie(cie) => match fault_of_cie(alloc, &mut context.state, &cie.cie)? {
            Some(fault) => leave_out(split, at, fault),
            None => keep_cie(split, &context.state, cie),
        },
        EhRecord::Fde(fde) => {
            match fault_of_fde(alloc, context, &split.cies, &split.initial, &fde.fde)? {
                Some(fault) => leave_out(split, at, fault),
                None => keep_fde(split, record, fde),
            }
        }
        EhRecord::Nothing(_) => Ok(()),
    }
}

/// Reads the records of a section, and splits them. Only a length is an error.
#[inline(never)]
fn split_records_of<'a>(
    alloc: Global,
    section: &'a [u8],
    target: Target,
    bases: Bases,
    is_aarch64: bool,
) -> Result<Split<'a>, Fault>
    requires { length section.now < 2 ^ 32 }
    ensures answer { Answers (fault_in (items_of is_aarch64 bases target section.now)) result }
    ensures inside { IfErr result (λ fault. fault.at ≤ length section.now) }
    ensures placed { IfOk result (λ _. ArePlaced target 0 (length section.now)
        (all_in_dwarf (split_records is_aarch64 bases target section.now).kept)) }
    ensures cies { IfOk result (λ split. map cie_of split.cies.items
        ≡ cies_among (all_in_dwarf (split_records is_aarch64 bases target section.now).kept)) }
    ensures fdes { IfOk result (λ split. map fde_of split.fdes.items
        ≡ fdes_among (all_in_dwarf (split_records is_aarch64 bases target section.now).kept)) }
    ensures signals { IfOk result (λ split. split.signals.items
        ≡ frames_of (split_records is_aarch64 bases target section.now).kept) }
    ensures left_out { IfOk result (λ split. split.left_out.items
        ≡ (split_records is_aarch64 bases target section.now).left_out) }
{
    dw_eh_frame::laws::items_come_in_order();
    let mut split = Split {
        cies: Vec::new(alloc),
        initial: InitialRules::new(alloc),
        fdes: Vec::new(alloc),
        signals: Vec::new(alloc),
        left_out: Vec::new(alloc),
    };
    let mut context = UnwindContext::new();
    let mut last = None;
    let mut at = 0u32;
    while (at as usize) < section.len() {
        let (item, next) = eh_item_after(section, target, bases, is_aarch64, at, last.as_ref())?;
        match &item {
            Ok(record) => {
                split_record(alloc, &mut context, &mut split, at, record)?;
                last = cie_after(record, last);
            }
            Err(fault) => leave_out(&mut split, at, *fault)?,
        }
        at = next;
    }
    Ok(split)
}

/// A section of which bad records are left out.
#[derive(Drop)]
pub struct KeptRecords<'a> {
    /// The records that are kept, as a checked section.
    pub frame: CheckedFrame<'a>,
    /// The addresses of each FDE that is kept and is a signal frame, in the order of the section.
    pub signals: Vec<SignalRange>,
    /// The other records, in the order of the section, but for records of length 0 and for exact
    /// copies of an FDE that is kept.
    pub left_out: Vec<LeftOutRecord>,
}

/// The check of a section that isn't accepted. This function isn't inlined: so it takes no stack beside
/// that of the check before it.
#[inline(never)]
#[tactic(auto, unfolding(crate::specs::KeptRecords::whole_fault))]
fn leave_bad_out<'a>(
    alloc: Global,
    section: &'a [u8],
    target: Target,
    bases: Bases,
    is_aarch64: bool,
) -> Result<KeptRecords<'a>, Fault>
    requires short { length section.now < 2 ^ 32 }
    requires refused { is_none (eh_section_fault is_aarch64 bases target section.now) ≡ false }
    ensures answer { Answers (whole_fault is_aarch64 bases target section.now) result }
    ensures inside { IfErr result (λ fault. fault.at ≤ length section.now) }
    ensures checked { IfOk result (λ kept. IsChecked kept.frame) }
    ensures frame { IfOk result (λ kept. kept.frame ≡ kept_frame_of is_aarch64 bases target section.now) }
    ensures signals { IfOk result (λ kept. kept.signals.items
        ≡ frames_of (kept_of is_aarch64 bases target section.now).kept) }
    ensures left_out { IfOk result (λ kept. kept.left_out.items
        ≡ (kept_of is_aarch64 bases target section.now).left_out) }
{
    dw_eh_frame::laws::copies_are_left_out_in_place();
    let split = split_records_of(alloc, section, target, bases, is_aarch64)?;
    let Split {
        cies,
        fdes,
        signals,
        left_out,
        ..
    } = split;
    let fdes = without_copies(alloc, &fdes)?;
    let frame = check_records(alloc, section, target, cies, fdes)?;
    Ok(KeptRecords {
        frame,
        signals,
        left_out,
    })
}

/// Checks a section of fewer than 2^32 bytes as `check_eh_frame` does. But if it has a fault, bad
/// records are left out: each one that can't be read, is an FDE whose CIE isn't kept, or has a fault
/// in its program. All others are kept, with the rows that their own programs give. It takes n log n
/// for n bytes, and memory for each CIE, FDE, expression and fault.
///
/// The error is the first fault of the section as a whole: of a record's length, which is reserved or
/// goes past the section's end (`Truncated`, `ReservedLength`), since nothing says where the next
/// record begins; or `Overlap` (23) at the first FDE that is kept and shares an address with an earlier
/// one, since nothing says which of the two is right. `Memory` (60) has offset 0. A wrong length that
/// stays inside the section is believed, so the records in it are not seen.
#[tactic(auto, unfolding(crate::specs::KeptRecords::whole_fault))]
pub fn check_eh_frame_leaving_out<'a>(
    alloc: Global,
    section: &'a [u8],
    target: Target,
    bases: Bases,
    is_aarch64: bool,
) -> Result<KeptRecords<'a>, Fault>
    requires { length section.now < 2 ^ 32 }
    ensures answer { Answers (whole_fault is_aarch64 bases target section.now) result }
    ensures inside { IfErr result (λ fault. fault.at ≤ length section.now) }
    ensures checked { IfOk result (λ kept. IsChecked kept.frame) }
    ensures frame { IfOk result (λ kept. kept.frame ≡ kept_frame_of is_aarch64 bases target section.now) }
    ensures signals { IfOk result (λ kept. kept.signals.items
        ≡ frames_of (kept_of is_aarch64 bases target section.now).kept) }
    ensures left_out { IfOk result (λ kept. kept.left_out.items
        ≡ (kept_of is_aarch64 bases target section.now).left_out) }
{
    match check_eh_frame(alloc, section, target, bases, is_aarch64) {
        Ok(frame) => {
            let signals = signal_frames_of(alloc, &frame, section, target, bases, is_aarch64)?;
            Ok(KeptRecords {
                frame,
                signals,
                left_out: Vec::new(alloc),
            })
        }
        Err(fault) if fault.kind == FaultKind::Memory => Err(OUT_OF_MEMORY),
        Err(_) => leave_bad_out(alloc, section, target, bases, is_aarch64),
    }
}
