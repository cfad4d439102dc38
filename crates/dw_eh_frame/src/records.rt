//! Reading all records of an `.eh_frame` section.

ghost use Rattle.std.specs.Prelude.{◌≡◌, ◌<◌, ◌≤◌, ◌^◌, IfErr, IfNone, IfOk, IfSome, OnOk, [], ◌∷◌, ◌++◌, length, map, true};
ghost use Rattle.dw_bytes.specs.Answers.{Answers, memory, values_in};
ghost use Rattle.dw_frame.specs.Bounds.{ArePlaced, Ascends};
ghost use Rattle.dw_frame.specs.Records.{cies_among, fdes_among};
ghost use Rattle.dw_frame.specs.Views.{cie_of, fde_of};
ghost use Rattle.dw_eh_frame.specs.Copies.{eh_frame_records};
ghost use Rattle.dw_eh_frame.specs.Progress.{IsLast, IsNotTaken, IsUnderWay, StopsReading, cie_offset, has_cie_at};
ghost use Rattle.dw_eh_frame.specs.Records.{all_in_dwarf, eh_reading_fault, eh_records_of};

use crate::copies::without_copies;
use crate::pointer::Bases;
use crate::record::{EhCie, EhRecord, eh_record_after, usual_fde};
use dw_bytes::{Fault, FaultKind, Target};
use dw_frame::{CommonInformationEntry, FrameDescriptionEntry};
use std::alloc::Global;

/// The CIEs and the FDEs of an `.eh_frame` section as DWARF has them, each in the order of the
/// section.
#[derive(Drop)]
pub struct EhRecords<'a> {
    /// All CIEs.
    pub cies: Vec<CommonInformationEntry<'a>>,
    /// The FDEs.
    pub fdes: Vec<FrameDescriptionEntry<'a>>,
}

/// Linkers write most FDEs of at least this many bytes. The list of FDEs is allocated with room for
/// one for each `SHORT_FDE` bytes of the section, so it rarely has to grow, and what isn't used is
/// freed at the end.
const SHORT_FDE: usize = 32;

/// Whether one of the CIEs, which must be in order of offset, begins at an offset. It takes log n for n
/// CIEs.
#[inline(always)]
pub fn has_cie(cies: &[CommonInformationEntry<'_>], offset: u64) -> bool
    requires { Ascends cie_offset (map cie_of cies.now) }
    ensures { result ≡ has_cie_at (map cie_of cies.now) offset }
{
    match cies.last() {
        Some(cie) if u64::from(cie.offset) == offset => true,
        _ => cies
            .binary_search_by_key(&offset, |cie| u64::from(cie.offset))
            .is_ok(),
    }
}

/// Adds a CIE.
#[inline(always)]
fn take_cie<'a>(found: &mut EhRecords<'a>, cie: &CommonInformationEntry<'a>) -> Result<(), Fault>
    ensures cies { OnOk result (map cie_of found.new.cies.items ≡ map cie_of found.old.cies.items ++ cie_of cie.now ∷ []) }
    ensures fdes { OnOk result (found.new.fdes.items ≡ found.old.fdes.items) }
    ensures refused { IfErr result (λ fault. fault ≡ memory) }
{
    found.cies.push(*cie)?;
    Ok(())
}

/// Adds an FDE.
#[inline(always)]
fn push_fde<'a>(found: &mut EhRecords<'a>, fde: &FrameDescriptionEntry<'a>) -> Result<(), Fault>
    ensures cies { OnOk result (found.new.cies.items ≡ found.old.cies.items) }
    ensures fdes { OnOk result (map fde_of found.new.fdes.items ≡ map fde_of found.old.fdes.items ++ fde_of fde.now ∷ []) }
    ensures refused { IfErr result (λ fault. fault ≡ memory) }
{
    found.fdes.push(*fde)?;
    Ok(())
}

/// Adds an FDE. Its CIE must be one of those that were read before it.
#[inline(always)]
fn take_fde<'a>(found: &mut EhRecords<'a>, fde: &FrameDescriptionEntry<'a>) -> Result<(), Fault>
    requires { Ascends cie_offset (map cie_of found.old.cies.items) }
    ensures cies { OnOk result (found.new.cies.items ≡ found.old.cies.items) }
    ensures known { OnOk result (has_cie_at (map cie_of found.old.cies.items) fde.now.cie_pointer ≡ true) }
    ensures fdes { OnOk result (map fde_of found.new.fdes.items ≡ map fde_of found.old.fdes.items ++ fde_of fde.now ∷ []) }
    ensures refused { IfErr result (IsNotTaken (map cie_of found.old.cies.items) (fde_of fde.now)) }
{
    if !has_cie(&found.cies, fde.cie_pointer) {
        return Err(Fault {
            kind: FaultKind::NoSuchCie,
            at: fde.cie_pointer_offset,
        });
    }
    push_fde(found, fde)
}

/// Reads the FDE at the offset `at` of a section, if it is a usual one of the CIE that was used last,
/// and adds it. Returns the offset after it, or `None` where `read_any` has to read the record.
#[inline(always)]
fn read_usual<'a>(
    found: &mut EhRecords<'a>,
    last: &Option<EhCie<'a>>,
    section: &'a [u8],
    target: Target,
    bases: Bases,
    is_aarch64: bool,
    at: u32,
) -> Result<Option<u32>, Fault>
    requires short { length section.now < 2 ^ 32 }
    requires way { IsUnderWay is_aarch64 bases target section.now at (map cie_of found.old.cies.items) (map fde_of found.old.fdes.items) }
    requires last { IsLast is_aarch64 target section.now (map cie_of found.old.cies.items) last.now }
    ensures cies { OnOk result (found.new.cies.items ≡ found.old.cies.items) }
    ensures way { IfOk result (λ next. IfSome next (λ n. (at < n)
        × IsUnderWay is_aarch64 bases target section.now n (map cie_of found.new.cies.items) (map fde_of found.new.fdes.items))) }
    ensures none { IfOk result (λ next. IfNone next (found.new ≡ found.old)) }
    ensures refused { IfErr result (λ fault. fault ≡ memory) }
{
    let Some(cie) = last else {
        return Ok(None);
    };
    match usual_fde(section, target, bases, is_aarch64, at, cie) {
        Some((fde, next)) => {
            push_fde(found, &fde)?;
            Ok(Some(next))
        }
        None => Ok(None),
    }
}

/// Reads the record at the offset `at` of a section, and adds it. Returns the offset after it. `last`
/// becomes the CIE that was read or used.
#[inline(never)]
fn read_any<'a>(
    found: &mut EhRecords<'a>,
    last: &mut Option<EhCie<'a>>,
    section: &'a [u8],
    target: Target,
    bases: Bases,
    is_aarch64: bool,
    at: u32,
) -> Result<u32, Fault>
    requires short { length section.now < 2 ^ 32 }
    requires inside { at < length section.now }
    requires way { IsUnderWay is_aarch64 bases target section.now at (map cie_of found.old.cies.items) (map fde_of found.old.fdes.items) }
    requires last { IsLast is_aarch64 target section.now (map cie_of found.old.cies.items) last.old }
    ensures way { IfOk result (λ next. (at < next)
        × IsUnderWay is_aarch64 bases target section.now next (map cie_of found.new.cies.items) (map fde_of found.new.fdes.items)) }
    ensures last { OnOk result (IsLast is_aarch64 target section.now (map cie_of found.new.cies.items) last.new) }
    ensures stops { IfErr result (StopsReading is_aarch64 bases target section.now) }
    ensures within { IfErr result (λ fault. fault.at ≤ length section.now) }
{
    let (record, next) = eh_record_after(section, target, bases, is_aarch64, at, last.as_ref())?;
    match record {
        EhRecord::Cie(cie) => {
            take_cie(found, &cie.cie)?;
            *last = Some(cie);
        }
        EhRecord::Fde(fde) => {
            take_fde(found, &fde.fde)?;
            *last = Some(fde.cie);
        }
        EhRecord::Nothing(_) => {}
    }
    Ok(next)
}

/// Reads the records of a section of fewer than 2^32 bytes, with exact copies of FDEs. `bases` says
/// where the section is, and `is_aarch64` whether its programs are for aarch64. Instructions aren't
/// read. It takes n log n for n bytes at most, and memory for each CIE and FDE.
///
/// The error is the first fault in the order of the section: a fault of `eh_record`; or `NoSuchCie`
/// (9) at the CIE pointer of an FDE whose CIE isn't one of the records before it. `Memory` (60) has
/// offset 0.
pub fn eh_records_with_copies<'a>(
    alloc: Global,
    section: &'a [u8],
    target: Target,
    bases: Bases,
    is_aarch64: bool,
) -> Result<EhRecords<'a>, Fault>
    requires { length section.now < 2 ^ 32 }
    ensures answer { Answers (eh_reading_fault is_aarch64 bases target section.now) result }
    ensures inside { IfErr result (λ fault. fault.at ≤ length section.now) }
    ensures placed { IfOk result (λ _. ArePlaced target 0 (length section.now)
        (all_in_dwarf (values_in (eh_records_of is_aarch64 bases target section.now)))) }
    ensures cies { IfOk result (λ found. map cie_of found.cies.items
        ≡ cies_among (all_in_dwarf (values_in (eh_records_of is_aarch64 bases target section.now)))) }
    ensures fdes { IfOk result (λ found. map fde_of found.fdes.items
        ≡ fdes_among (all_in_dwarf (values_in (eh_records_of is_aarch64 bases target section.now)))) }
{
    let mut found = EhRecords {
        cies: Vec::new(alloc),
        fdes: Vec::with_capacity(alloc, section.len() / SHORT_FDE)?,
    };
    let mut last = None;
    let mut at = 0u32;
    while (at as usize) < section.len() {
        at = match read_usual(&mut found, &last, section, target, bases, is_aarch64, at)? {
            Some(next) => next,
            None => read_any(
                &mut found, &mut last, section, target, bases, is_aarch64, at,
            )?,
        };
    }
    found.fdes.shrink_to_fit();
    Ok(found)
}

/// Reads the records of a section of fewer than 2^32 bytes. `bases` says where the section is, and
/// `is_aarch64` whether its programs are for aarch64. Instructions aren't read. It takes n log n for n
/// bytes, and memory for each CIE and FDE that is kept, and for the first address of each such FDE.
///
/// The error is the first fault in the order of the section: a fault of `eh_record`; or `NoSuchCie`
/// (9) at the CIE pointer of an FDE whose CIE isn't one of the records before it. `Memory` (60) has
/// offset 0.
pub fn eh_records<'a>(
    alloc: Global,
    section: &'a [u8],
    target: Target,
    bases: Bases,
    is_aarch64: bool,
) -> Result<EhRecords<'a>, Fault>
    requires { length section.now < 2 ^ 32 }
    ensures answer { Answers (eh_reading_fault is_aarch64 bases target section.now) result }
    ensures inside { IfErr result (λ fault. fault.at ≤ length section.now) }
    ensures placed { IfOk result (λ _. ArePlaced target 0 (length section.now)
        (eh_frame_records is_aarch64 bases target section.now)) }
    ensures cies { IfOk result (λ found. map cie_of found.cies.items
        ≡ cies_among (eh_frame_records is_aarch64 bases target section.now)) }
    ensures fdes { IfOk result (λ found. map fde_of found.fdes.items
        ≡ fdes_among (eh_frame_records is_aarch64 bases target section.now)) }
{
    let EhRecords { cies, fdes } = eh_records_with_copies(
        alloc, section, target, bases, is_aarch64,
    )?;
    let fdes = without_copies(alloc, &fdes)?;
    Ok(EhRecords { cies, fdes })
}
