//! The first FDE that covers an address, found by going through the records of a section.

ghost use Rattle.std.specs.Prelude.{◌≡◌, ◌≤◌, IfOk, IfSome, MatchResult, Ok, Err, length};
ghost use Rattle.std.specs.Bool.{OnFalse, OnTrue};
ghost use Rattle.dw_rows.specs.Section.{Covers};
ghost use Rattle.dw_eh_frame.specs.Records.{EhFde as Fde};
ghost use Rattle.dw_eh_frame.specs.Records.{eh_fde};
ghost use Rattle.dw_eh_frame.specs.Views.{eh_record_of};
ghost use Rattle.dw_in_place.specs.Scans.{PassesBy, Scans};
ghost use Rattle.dw_in_place.specs.Views.{section_of};

use crate::in_place::covers_address;
use crate::section_in_place::SectionInPlace;
use dw_bytes::Fault;
use dw_eh_frame::{EhRecord, eh_record_after};
use dw_eh_rows::cie_after;

/// Whether a record is an FDE that covers an address.
#[inline(always)]
fn covers(record: &EhRecord<'_>, address: u64) -> bool
    ensures yes { OnTrue result ((e : Fde) × (eh_record_of record.now ≡ eh_fde e) × Covers e.fde address) }
    ensures no { OnFalse result (PassesBy address (eh_record_of record.now)) }
{
    match record {
        EhRecord::Fde(fde) => covers_address(&fde.fde, address),
        EhRecord::Cie(_) | EhRecord::Nothing(_) => false,
    }
}

/// The offset of the first FDE that covers an address; none if there is none. The error is the first
/// fault in reading the records before it, which are read one after another. It takes time in
/// proportion to their bytes, and reads no programs.
pub(crate) fn first_covering(
    section: &SectionInPlace<'_>,
    address: u64,
) -> Result<Option<u32>, Fault>
    ensures scans { MatchResult result
        (λ at. Scans (section_of section.now) address (Ok at))
        (λ fault. Scans (section_of section.now) address (Err fault)) }
    ensures inside { IfOk result (λ found. IfSome found (λ at. at ≤ length section.now.bytes.now)) }
{
    dw_eh_frame::laws::records_come_in_order();
    let mut last = None;
    let mut at = 0u32;
    while (at as usize) < section.bytes.len() {
        let (record, next) = eh_record_after(
            section.bytes,
            section.target,
            section.bases,
            section.is_aarch64,
            at,
            last.as_ref(),
        )?;
        if covers(&record, address) {
            return Ok(Some(at));
        }
        last = cie_after(&record, last);
        at = next;
    }
    Ok(None)
}
