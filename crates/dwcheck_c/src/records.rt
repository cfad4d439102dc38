//! The C call that reads a record of a frame section.

ghost use Rattle.std.specs.Prelude.{◌≡◌, ◌≢◌, ◌≤◌, ◌<◌, ◌+◌, ◌^◌, ◌⊎◌, IsSome, MatchResult, None, length};
ghost use Rattle.dw_bytes.specs.declared.fault.Fault.{Fault};
ghost use Rattle.dw_eh_frame.specs.Records.{eh_cie, eh_fde};
ghost use Rattle.dw_eh_frame.specs.Views.{eh_cie_of, eh_fde_of};
ghost use Rattle.dw_frame.specs.Records.{cie_record, fde_record};
ghost use Rattle.dw_frame.specs.Views.{cie_of, fde_of};
ghost use Rattle.dw_c_types.specs.Faults.{cfault_of};
ghost use Rattle.dw_c_types.specs.Targets.{target_by};
ghost use Rattle.dwcheck_c.specs.LoadedModules.{kind_by};
ghost use Rattle.dwcheck_c.specs.SectionRecords.{HasUnread, IsEhRecord, IsNoEhRecord, IsNoRecord, IsReadBy, IsRecord, IsUnreadBy, ShowsRecord, begun, eh_record_shown, record_shown};

use crate::module::{CModule, SectionKind, section_kind};
use dw_bytes::{Fault, Target};
use dw_c_types::fault::{CFault, IN_FRAME, report};
use dw_c_types::status::{BAD_KIND, BAD_TARGET, DONE, NONE, REFUSED, TOO_LONG};
use dw_c_types::target::target;
use dw_eh_frame::{EhCie, EhFde, EhRecord, eh_record};
use dw_frame::{CommonInformationEntry, Entry, FrameDescriptionEntry, entries};
use dw_process::EhSection;

/// What a record is: a CIE, an FDE, or in `.eh_frame` a record of length 0.
pub const RECORD_CIE: u32 = 0;

pub const RECORD_FDE: u32 = 1;

pub const RECORD_EMPTY: u32 = 2;

/// A record of a frame section. Fields that the record doesn't have are 0.
#[repr(C)]
#[derive(Clone, Copy, Debug)]
pub struct CRecord {
    /// The offset after the record.
    pub next: u64,
    /// The offset of its program, which ends where the record ends.
    pub program: u64,
    /// The offset of an FDE's CIE, as the FDE gives it.
    pub cie: u64,
    /// The addresses that an FDE covers, as linked: from `start` up to, but not including, `end`.
    pub start: u64,
    pub end: u64,
    /// The factors of a CIE.
    pub code_alignment_factor: u64,
    pub data_alignment_factor: i64,
    /// The number of what the record is.
    pub kind: u32,
    /// The version of a CIE, and its return address register.
    pub version: u32,
    pub return_reg: u32,
    /// Whether the record's frames are those of signals.
    pub is_signal_frame: u32,
}

/// An offset that counts from the offset `at`, as one that counts from the section's first byte.
fn after(at: u32, offset: u32) -> u64
    ensures { result ≡ at + offset }
{
    u64::from(at) + u64::from(offset)
}

/// C's struct for a record of this kind whose other fields are still to be written.
fn record_of_kind(kind: u32, program: u64, is_signal_frame: bool, next: u64) -> CRecord
    ensures { result ≡ begun kind program is_signal_frame next }
{
    CRecord {
        next,
        program,
        cie: 0,
        start: 0,
        end: 0,
        code_alignment_factor: 0,
        data_alignment_factor: 0,
        kind,
        version: 0,
        return_reg: 0,
        is_signal_frame: u32::from(is_signal_frame),
    }
}

/// Converts a CIE of `.debug_frame` to C's struct. Its offsets count from the offset `at`.
fn c_cie_of(cie: &CommonInformationEntry<'_>, at: u32) -> CRecord
    ensures { result ≡ record_shown at (cie_record (cie_of cie.now)) }
{
    let (program, end) = (cie.program.start(), cie.program.end());
    CRecord {
        code_alignment_factor: cie.code_alignment_factor,
        data_alignment_factor: cie.data_alignment_factor,
        version: u32::from(cie.version()),
        return_reg: u32::from(cie.return_address_register),
        ..record_of_kind(RECORD_CIE, after(at, program), false, after(at, end))
    }
}

/// Converts an FDE of `.debug_frame` to C's struct. Its offsets count from the offset `at`.
fn c_fde_of(fde: &FrameDescriptionEntry<'_>, at: u32) -> CRecord
    ensures { result ≡ record_shown at (fde_record (fde_of fde.now)) }
{
    let (program, end) = (fde.program.start(), fde.program.end());
    CRecord {
        cie: fde.cie_pointer,
        start: fde.initial_location,
        end: fde.end_address(),
        ..record_of_kind(RECORD_FDE, after(at, program), false, after(at, end))
    }
}

/// Converts a CIE of `.eh_frame` to C's struct. Its record ends at the offset `next`.
fn c_eh_cie_of(found: &EhCie<'_>, next: u32) -> CRecord
    ensures { result ≡ eh_record_shown (eh_cie (eh_cie_of found.now)) next }
{
    let cie = &found.cie;
    let (program, is_signal) = (cie.program.start(), found.augmentation.is_signal);
    CRecord {
        code_alignment_factor: cie.code_alignment_factor,
        data_alignment_factor: cie.data_alignment_factor,
        version: u32::from(cie.version),
        return_reg: u32::from(cie.return_address_register),
        ..record_of_kind(RECORD_CIE, u64::from(program), is_signal, u64::from(next))
    }
}

/// Converts an FDE of `.eh_frame` to C's struct. Its record ends at the offset `next`.
fn c_eh_fde_of(found: &EhFde<'_>, next: u32) -> CRecord
    ensures { result ≡ eh_record_shown (eh_fde (eh_fde_of found.now)) next }
{
    let fde = &found.fde;
    let (program, is_signal) = (fde.program.start(), found.cie.augmentation.is_signal);
    CRecord {
        cie: fde.cie_pointer,
        start: fde.initial_location,
        end: fde.end_address(),
        ..record_of_kind(RECORD_FDE, u64::from(program), is_signal, u64::from(next))
    }
}

/// Reads the record at an offset of a `.debug_frame` section: the first one of what is left from
/// there.
fn debug_frame_record(frame: &[u8], target: Target, at: u32) -> Result<CRecord, Fault>
    requires inside { at < length frame.now }
    requires short { length frame.now < 2 ^ 32 }
    ensures exact { MatchResult result (IsRecord frame.now target at) (IsNoRecord frame.now target at) }
{
    dw_frame::laws::records_are_sound();
    dw_frame::laws::records_come_in_order();
    dw_frame::laws::records_follow_each_other();
    let left = &frame[at as usize..];
    match entries(left, target).next() {
        Some(Ok(Entry::Cie(cie))) => Ok(c_cie_of(&cie, at)),
        Some(Ok(Entry::Fde(fde))) => Ok(c_fde_of(&fde, at)),
        Some(Err(why)) => Err(Fault {
            kind: why.kind,
            at: at + why.at,
        }),
        None => unreachable!(),
    }
}

/// Reads the record at an offset of an `.eh_frame` section.
fn eh_frame_record(section: EhSection<'_>, target: Target, at: u32) -> Result<CRecord, Fault>
    requires inside { at ≤ length section.bytes.now }
    requires short { length section.bytes.now < 2 ^ 32 }
    ensures exact { MatchResult result (IsEhRecord section.entry target at)
        (IsNoEhRecord section.entry target at) }
{
    let EhSection {
        bytes,
        bases,
        is_aarch64,
    } = section;
    let (found, next) = eh_record(bytes, target, bases, is_aarch64, at)?;
    match found {
        EhRecord::Cie(cie) => Ok(c_eh_cie_of(&cie, next)),
        EhRecord::Fde(fde) => Ok(c_eh_fde_of(&fde, next)),
        EhRecord::Nothing(at) => Ok(record_of_kind(
            RECORD_EMPTY,
            u64::from(at),
            false,
            u64::from(next),
        )),
    }
}

/// Reads the record at an offset of a module's section.
fn record_by(
    module: &CModule<'_>,
    kind: SectionKind,
    target: Target,
    at: u32,
) -> Result<CRecord, Fault>
    requires inside { at < length module.now.frame.now }
    requires short { length module.now.frame.now < 2 ^ 32 }
    ensures exact { MatchResult result (IsReadBy kind module.now target at)
        (IsUnreadBy kind module.now target at) }
{
    match kind {
        SectionKind::DebugFrame => debug_frame_record(module.frame, target, at),
        SectionKind::EhFrame | SectionKind::EhFrameLeavingOut => {
            eh_frame_record(module.eh_section(false), target, at)
        }
        SectionKind::EhFrameAarch64 | SectionKind::EhFrameAarch64LeavingOut => {
            eh_frame_record(module.eh_section(true), target, at)
        }
    }
}

/// Reads the record that begins at `offset` in a module's section, and writes it to `record`.
/// Returns `NONE` if the section has no byte there. Neither programs nor the CIE pointers of
/// `.debug_frame` are looked at.
#[unsafe(no_mangle)]
pub extern "C" fn dwcheck_record_at(
    module: &CModule<'_>,
    offset: u64,
    record: &mut CRecord,
    fault: &mut CFault,
) -> u32
    ensures done { result ≡ DONE → ShowsRecord module.now offset record.new }
    ensures refused { result ≡ REFUSED → (why : Fault) × HasUnread module.now offset why
        × (fault.new ≡ cfault_of IN_FRAME why) }
    ensures none { result ≡ NONE → length module.now.frame.now ≤ offset }
    ensures inside { (result ≡ DONE) ⊎ (result ≡ REFUSED) → offset < length module.now.frame.now }
    ensures target { result ≡ BAD_TARGET → target_by module.now.order module.now.address_size ≡ None }
    ensures good { result ≢ BAD_TARGET → result ≢ TOO_LONG → result ≢ BAD_KIND
        → IsSome (target_by module.now.order module.now.address_size) }
    ensures kind { result ≡ BAD_KIND → kind_by module.now.kind ≡ None }
    ensures known { result ≢ BAD_KIND → result ≢ TOO_LONG → IsSome (kind_by module.now.kind) }
    ensures long { result ≡ TOO_LONG → 2 ^ 32 ≤ length module.now.frame.now }
    ensures short { result ≢ TOO_LONG → length module.now.frame.now < 2 ^ 32 }
    ensures codes { (result ≡ DONE) ⊎ (result ≡ REFUSED) ⊎ (result ≡ NONE) ⊎ (result ≡ BAD_TARGET)
        ⊎ (result ≡ BAD_KIND) ⊎ (result ≡ TOO_LONG) }
    ensures unwritten { result ≢ DONE → record.new ≡ record.old }
    ensures unreported { result ≢ REFUSED → fault.new ≡ fault.old }
{
    if module.frame.len() >= 1 << 32 {
        return TOO_LONG;
    }
    let Some(kind) = section_kind(module.kind) else {
        return BAD_KIND;
    };
    let Some(target) = target(module.order, module.address_size) else {
        return BAD_TARGET;
    };
    if offset >= module.frame.len() as u64 {
        return NONE;
    }
    match record_by(module, kind, target, offset as u32) {
        Ok(found) => {
            *record = found;
            DONE
        }
        Err(why) => {
            *fault = report(IN_FRAME, why);
            REFUSED
        }
    }
}
