//! Reading the records of a `.debug_frame` section.

ghost use Rattle.std.specs.Prelude.{◌≡◌, ◌≤◌, ◌<◌, ◌^◌, length, IfErr, IfOk, MatchResult, Ok, Err};
ghost use Rattle.dw_bytes.specs.Readers.{ReadsFrom};
ghost use Rattle.dw_bytes.specs.Reading.{section_from};
ghost use Rattle.dw_bytes.specs.Bodies.{framed_at};
ghost use Rattle.dw_frame.specs.Sections.{record_at, record_from, records_of, cie_among};
ghost use Rattle.dw_frame.specs.Headers.{head_of};
ghost use Rattle.dw_frame.specs.Views.{reading_of, dialect_of, record_of, found_cie};
ghost use Rattle.dw_frame.specs.Dialects.{debug_frame};

use crate::dialect::Dialect;
use crate::entry::{CommonInformationEntry, Entry, FrameDescriptionEntry};
use crate::header::Header;
use crate::program::Program;
use crate::records::Entries;
use dw_bytes::{Body, Fault, Format, Target};

/// The format and the body of the record at offset `at` of a section. The body is returned as a
/// `Program`, which the caller then cuts down to the bytes after the header.
fn record_body<'a>(
    section: &'a [u8],
    target: Target,
    at: u32,
) -> Result<(Format, Program<'a>), Fault>
    requires inside { at ≤ length section.now }
    requires short { length section.now < 2 ^ 32 }
    ensures exact { MatchResult result
        (λ f. framed_at (section_from target section.now at) ≡ Ok
        ((f.0, reading_of f.1), section_from target section.now (length f.1.section.now)))
        (λ fault. framed_at (section_from target section.now at) ≡ Err fault) }
    ensures target { IfOk result (λ f. f.1.target ≡ target) }
    ensures dialect { IfOk result (λ f. f.1.dialect ≡ debug_frame) }
    ensures forward { IfOk result
        (λ f. at < f.1.start × length f.1.section.now ≤ length section.now) }
    ensures inside { IfErr result (λ fault. fault.at ≤ length section.now) }
{
    let body = Body::read(section, target, at)?;
    Ok((
        body.format,
        Program::new(section, body.start, body.end, target, Dialect::DebugFrame),
    ))
}

/// A record that begins at offset `at`, made from its header and its program. `body` is the offset
/// of the record's body.
fn entry_from<'a>(
    at: u32,
    format: Format,
    body: u32,
    header: Header,
    program: Program<'a>,
) -> Entry<'a>
    requires { dialect_of program ≡ debug_frame }
    ensures { record_of result ≡ record_from at format body (head_of header)
        (reading_of program.entry) }
{
    match header {
        Header::Cie(header) => Entry::Cie(CommonInformationEntry {
            offset: at,
            format,
            version: header.version,
            code_alignment_factor: header.code_alignment_factor,
            data_alignment_factor: header.data_alignment_factor,
            return_address_register: header.return_address_register,
            program,
        }),
        Header::Fde(header) => Entry::Fde(FrameDescriptionEntry {
            offset: at,
            format,
            cie_pointer: header.cie_pointer,
            cie_pointer_offset: body,
            initial_location: header.initial_location,
            address_range: header.address_range,
            program,
        }),
    }
}

/// The record at offset `at` of a section, and the offset after the record.
#[tactic(auto, unfolding(crate::specs::Sections::record_at), using(crate::proofs::Framed::leaves_laws))]
pub fn entry<'a>(section: &'a [u8], target: Target, at: u32) -> Result<(Entry<'a>, u32), Fault>
    requires inside { at ≤ length section.now }
    requires short { length section.now < 2 ^ 32 }
    ensures exact { ReadsFrom record_of record_at (section_from target section.now) at result }
    ensures forward { IfOk result (λ e. at < e.1 × e.1 ≤ length section.now) }
    ensures inside { IfErr result (λ fault. fault.at ≤ length section.now) }
{
    let (format, body) = record_body(section, target, at)?;
    let mut cursor = body.cursor(body.start());
    let header = Header::read(&mut cursor, format, target)?;
    let program = body.from_offset(cursor.position());
    Ok((
        entry_from(at, format, body.start(), header, program),
        body.end(),
    ))
}

/// The records of a section of fewer than 2^32 bytes (DWARF 5, section 6.4.1).
///
/// Each record is checked in this order. First comes its length (`Truncated`, `ReservedLength`).
/// Then its body must be there (`Truncated` at the body's first byte). Then the fields of its
/// header are read, one after another within the body. Each must be there (`Truncated`), and a
/// LEB128 number must be in range (`LebRange`). In a CIE these are checked: the version
/// (`Version`), the augmentation (`Augmentation`), in version 4 the address size (`AddressSize`)
/// and the segment selector size (`SegmentSize`), and the return address register
/// (`RegisterNumber`). In an FDE, initial_location plus address_range must be at most the highest
/// address (`RangePastTop`, at address_range). Each of these faults is reported at the first byte
/// of its field. The record's program isn't read, and the CIE of an FDE isn't looked up. Allocates
/// no memory.
pub fn entries<'a>(section: &'a [u8], target: Target) -> Entries<'a>
    requires { length section.now < 2 ^ 32 }
    ensures { result ≡ records_of target section.now }
{
    Entries::new(section, target)
}

/// The CIE at offset `offset` of a section of fewer than 2^32 bytes, or `None` if no CIE begins
/// there. The first fault in the records is returned instead if it comes before that CIE, or if
/// there is no such CIE. Reads the records in order up to the CIE: O(n) for n records. Allocates no
/// memory.
#[tactic(auto, using(crate::proofs::RecordBounds::cie_laws))]
pub fn cie_at<'a>(
    section: &'a [u8],
    target: Target,
    offset: u64,
) -> Result<Option<CommonInformationEntry<'a>>, Fault>
    requires { length section.now < 2 ^ 32 }
    ensures found { found_cie result ≡ cie_among offset (records_of target section.now) }
    ensures inside { IfErr result (λ fault. fault.at ≤ length section.now) }
{
    for entry in entries(section, target) {
        if let Entry::Cie(cie) = entry? {
            if u64::from(cie.offset) == offset {
                return Ok(Some(cie));
            }
        }
    }
    Ok(None)
}
