//! What an `.eh_frame` section contains, in numbers: a check with little memory.

ghost use Rattle.std.specs.Prelude.{◌≡◌, ◌<◌, ◌≤◌, ◌^◌, None, IfErr, IfOk, IfSome, OnOk, length};
ghost use Rattle.dw_bytes.specs.Answers.{Answers, memory};
ghost use Rattle.dw_rows.specs.Section.{IsChecked};
ghost use Rattle.dw_eh_frame.specs.Views.{IsCieOf};
ghost use Rattle.dw_eh_rows.specs.Counting.{IsCounted, counts_in};
ghost use Rattle.dw_eh_rows.specs.Counts.{AreCountsOf};
ghost use Rattle.dw_eh_rows.specs.Section.{eh_frame_of, eh_section_fault};

use crate::check::check_eh_frame;
use crate::short_range::are_apart;
use crate::tally::{Tally, count_cie, count_fde, no_tally};
use dw_bytes::{Fault, Target};
use dw_eh_frame::{Bases, EhCie, EhRecord, eh_record_after, usual_fde};
use dw_rows::CheckedFrame;
use dw_rules::UnwindContext;
use std::alloc::Global;

/// How much a checked section contains.
#[derive(Clone, Copy, Debug, PartialEq, Eq)]
pub struct SectionCounts {
    /// How many CIEs it has.
    pub cies: usize,
    /// How many FDEs it has. Exact copies of an FDE count once.
    pub fdes: usize,
    /// How many rows these FDEs have.
    pub rows: u128,
    /// How many expressions the programs of its CIEs and of these FDEs have.
    pub expressions: usize,
}

/// An address that is encoded in four signed bytes is at most this far from its place in the
/// section. So a tally counts addresses from this far before the section.
const REACH: u64 = 1 << 31;

/// Reads the record at the offset `at` of a section, and counts it. Returns the offset after it, or
/// `None` if the section has to be checked as a whole. `last` becomes the CIE that was read or used.
#[inline(never)]
fn count_any<'a>(
    tally: &mut Tally<'a>,
    context: &mut UnwindContext,
    last: &mut Option<EhCie<'a>>,
    section: &'a [u8],
    target: Target,
    bases: Bases,
    is_aarch64: bool,
    at: u32,
) -> Result<Option<u32>, Fault>
    requires short { length section.now < 2 ^ 32 }
    requires inside { at < length section.now }
    requires so_far { IsCounted is_aarch64 bases target section.now at tally.old context.old }
    requires last { IfSome last.old (λ cie. IsCieOf is_aarch64 target section.now cie) }
    ensures counted { IfOk result (λ next. IfSome next (λ n. (at < n) × IsCounted is_aarch64 bases target section.now n tally.new context.new)) }
    ensures last { OnOk result (IfSome last.new (λ cie. IsCieOf is_aarch64 target section.now cie)) }
    ensures lack { IfErr result (λ fault. fault ≡ memory) }
{
    let Ok((record, next)) = eh_record_after(section, target, bases, is_aarch64, at, last.as_ref())
    else {
        return Ok(None);
    };
    let counted = match record {
        EhRecord::Cie(cie) => {
            *last = Some(cie);
            count_cie(tally, context, &cie.cie)?
        }
        EhRecord::Fde(fde) => {
            *last = Some(fde.cie);
            count_fde(tally, context, &fde.fde)?
        }
        EhRecord::Nothing(_) => true,
    };
    if counted { Ok(Some(next)) } else { Ok(None) }
}

/// Counts the record at the offset `at` of a section, as `count_any` does. A usual FDE of the CIE that
/// was used last is read by `usual_fde`, since nearly all records are such FDEs.
#[inline(always)]
fn count_next<'a>(
    tally: &mut Tally<'a>,
    context: &mut UnwindContext,
    last: &mut Option<EhCie<'a>>,
    section: &'a [u8],
    target: Target,
    bases: Bases,
    is_aarch64: bool,
    at: u32,
) -> Result<Option<u32>, Fault>
    requires short { length section.now < 2 ^ 32 }
    requires inside { at < length section.now }
    requires so_far { IsCounted is_aarch64 bases target section.now at tally.old context.old }
    requires last { IfSome last.old (λ cie. IsCieOf is_aarch64 target section.now cie) }
    ensures counted { IfOk result (λ next. IfSome next (λ n. (at < n) × IsCounted is_aarch64 bases target section.now n tally.new context.new)) }
    ensures last { OnOk result (IfSome last.new (λ cie. IsCieOf is_aarch64 target section.now cie)) }
    ensures lack { IfErr result (λ fault. fault ≡ memory) }
{
    if let Some(cie) = last
        && let Some((fde, next)) = usual_fde(section, target, bases, is_aarch64, at, cie)
    {
        if count_fde(tally, context, &fde)? {
            return Ok(Some(next));
        }
        return Ok(None);
    }
    count_any(tally, context, last, section, target, bases, is_aarch64, at)
}

/// How much was counted.
fn counted(tally: &Tally<'_>) -> SectionCounts
    ensures { result ≡ counts_in tally.now }
{
    SectionCounts {
        cies: tally.cies.len(),
        fdes: tally.fdes,
        rows: tally.rows,
        expressions: tally.expressions,
    }
}

/// Counts what a section contains that has no fault and no copies of FDEs, and keeps no FDE. `None` if
/// it may have some, or addresses that are far from it. This function isn't inlined: so it takes no
/// stack beside that of the whole check after it.
#[inline(never)]
fn count_records(
    alloc: Global,
    section: &[u8],
    target: Target,
    bases: Bases,
    is_aarch64: bool,
) -> Result<Option<SectionCounts>, Fault>
    requires { length section.now < 2 ^ 32 }
    ensures faultless { IfOk result (λ found. IfSome found (λ _. eh_section_fault is_aarch64 bases target section.now ≡ None)) }
    ensures counts { IfOk result (λ found. IfSome found (AreCountsOf (eh_frame_of is_aarch64 bases target section.now))) }
    ensures lack { IfErr result (λ fault. fault ≡ memory) }
{
    dw_rows::laws::records_without_fault_are_good();
    dw_eh_frame::laws::records_without_copies_are_kept();
    let base = bases.section.saturating_sub(REACH);
    let mut tally = no_tally(alloc, section.len(), base)?;
    let mut context = UnwindContext::new();
    let mut last = None;
    let mut at = 0u32;
    while (at as usize) < section.len() {
        match count_next(
            &mut tally,
            &mut context,
            &mut last,
            section,
            target,
            bases,
            is_aarch64,
            at,
        )? {
            Some(next) => at = next,
            None => return Ok(None),
        }
    }
    let counts = counted(&tally);
    if are_apart(&mut tally.ranges) {
        Ok(Some(counts))
    } else {
        Ok(None)
    }
}

/// How much a checked section contains.
pub fn counts_of(frame: &CheckedFrame<'_>) -> SectionCounts
    ensures { AreCountsOf frame.now result }
{
    SectionCounts {
        cies: frame.cies().len(),
        fdes: frame.fdes().len(),
        rows: frame.row_count(),
        expressions: frame.expressions().len(),
    }
}

/// Checks a section of fewer than 2^32 bytes as `check_eh_frame` does, and returns how much it
/// contains. It takes n log n for n bytes. Of a section without a fault, it keeps each CIE, and eight
/// bytes for each FDE: its addresses. Where it finds a fault, or FDEs that share addresses, as exact
/// copies do, it takes the memory of `check_eh_frame`, by which it finds out more.
///
/// The error is that of `check_eh_frame`.
///
/// ```rust
/// let counts = count_eh_frame(alloc, section, target, bases, false)?;
/// println!(rt; "{} FDEs with {} rows", counts.fdes, counts.rows)?;
/// ```
pub fn count_eh_frame(
    alloc: Global,
    section: &[u8],
    target: Target,
    bases: Bases,
    is_aarch64: bool,
) -> Result<SectionCounts, Fault>
    requires { length section.now < 2 ^ 32 }
    ensures answer { Answers (eh_section_fault is_aarch64 bases target section.now) result }
    ensures inside { IfErr result (λ fault. fault.at ≤ length section.now) }
    ensures checked { OnOk result (IsChecked (eh_frame_of is_aarch64 bases target section.now)) }
    ensures counts { IfOk result (AreCountsOf (eh_frame_of is_aarch64 bases target section.now)) }
{
    crate::laws::exact_eh_rows();
    match count_records(alloc, section, target, bases, is_aarch64)? {
        Some(counts) => Ok(counts),
        None => {
            let frame = check_eh_frame(alloc, section, target, bases, is_aarch64)?;
            Ok(counts_of(&frame))
        }
    }
}
