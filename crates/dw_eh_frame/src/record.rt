//! Reading the records of an `.eh_frame` section (LSB Core, section 10.6.1).

ghost use Rattle.std.specs.Prelude.{◌≡◌, ◌^◌, ◌<◌, ◌≤◌, IfOk, IfErr, IfSome, MatchResult, Ok, Err, length};
ghost use Rattle.dw_bytes.specs.Reading.{MovesForward, section_from};
ghost use Rattle.dw_bytes.specs.Readers.{IsRefusedWithin, ReadsFrom};
ghost use Rattle.dw_bytes.specs.Bodies.{framed_at, window};
ghost use Rattle.dw_eh_frame.specs.Records.{eh_cie, eh_fde, eh_area_at, eh_body_at, eh_cie_at, eh_cie_before, eh_cie_from, eh_fde_from, eh_record_at};
ghost use Rattle.dw_eh_frame.specs.Views.{HasCieOf, IsCieOf, LiesAt, eh_cie_of, eh_record_of, fde_with_cie};

use crate::augmentation::Augmentation;
use crate::dialect::dialect_by;
use crate::head::read_head;
use crate::pointer::{
    Bases, PointerBase, PointerEncoding, PointerFormat, read_pointer, read_range,
};
use dw_bytes::operands::block;
use dw_bytes::{Body, Cursor, Fault, FaultKind, Format, Target};
use dw_frame::{CommonInformationEntry, FrameDescriptionEntry, Program};

/// A CIE of an `.eh_frame` section.
#[derive(Clone, Copy, Debug)]
pub struct EhCie<'a> {
    /// The CIE as DWARF has it.
    pub cie: CommonInformationEntry<'a>,
    /// What its augmentation says about its FDEs.
    pub augmentation: Augmentation,
}

/// An FDE of an `.eh_frame` section.
#[derive(Clone, Copy, Debug)]
pub struct EhFde<'a> {
    /// The FDE as DWARF has it. Its CIE_pointer is the offset of its CIE in the section.
    pub fde: FrameDescriptionEntry<'a>,
    /// The CIE at that offset.
    pub cie: EhCie<'a>,
}

/// A record of an `.eh_frame` section.
#[derive(Clone, Copy, Debug)]
pub enum EhRecord<'a> {
    /// A common information entry.
    Cie(EhCie<'a>),
    /// A frame description entry.
    Fde(EhFde<'a>),
    /// A record of length 0, at this offset.
    Nothing(u32),
}

/// Reads a CIE from the offset after its id on. Its record begins at the offset `at` of a section,
/// and ends at the offset `end`.
#[inline(never)]
#[tactic(auto, unfolding(crate::specs::Records::eh_cie_from))]
fn read_cie<'a>(
    section: &'a [u8],
    cursor: &mut Cursor<'a>,
    at: u32,
    format: Format,
    end: u32,
    is_aarch64: bool,
) -> Result<EhCie<'a>, Fault>
    requires begins { at < cursor.old.position }
    requires ordered { cursor.old.position ≤ end }
    requires inside { end ≤ length section.now }
    requires short { length section.now < 2 ^ 32 }
    requires reads { cursor.old ≡ window cursor.old.target section.now cursor.old.position end }
    ensures exact { MatchResult result
        (λ cie. eh_cie_from is_aarch64 at format cursor.old ≡ Ok (eh_cie_of cie))
        (λ fault. eh_cie_from is_aarch64 at format cursor.old ≡ Err fault) }
    ensures offset { IfOk result (λ cie. cie.cie.offset ≡ at) }
    ensures sound { IfOk result (λ cie. LiesAt cursor.old.target at end (eh_cie (eh_cie_of cie))) }
    ensures within { IsRefusedWithin cursor.old result }
{
    let target = cursor.target();
    let head = read_head(cursor, end)?;
    let dialect = dialect_by(is_aarch64, head.augmentation);
    let cie = CommonInformationEntry {
        offset: at,
        format,
        version: head.factors.version,
        code_alignment_factor: head.factors.code_alignment_factor,
        data_alignment_factor: head.factors.data_alignment_factor,
        return_address_register: head.factors.return_address_register,
        program: Program::new(section, cursor.position(), end, target, dialect),
    };
    Ok(EhCie {
        cie,
        augmentation: head.augmentation,
    })
}

/// The CIE whose record begins at the offset `at` of a section.
#[inline(never)]
#[tactic(auto, unfolding(crate::specs::Records::eh_cie_at))]
fn cie_at<'a>(
    section: &'a [u8],
    target: Target,
    at: u32,
    is_aarch64: bool,
) -> Result<EhCie<'a>, Fault>
    requires inside { at ≤ length section.now }
    requires short { length section.now < 2 ^ 32 }
    ensures exact { MatchResult result
        (λ cie. eh_cie_at is_aarch64 target section.now at ≡ Ok (eh_cie_of cie))
        (λ fault. eh_cie_at is_aarch64 target section.now at ≡ Err fault) }
    ensures offset { IfOk result (λ cie. cie.cie.offset ≡ at) }
{
    let body = Body::read(section, target, at)?;
    let mut cursor = Cursor::at(&section[..body.end as usize], target, body.start);
    let id = cursor.u32()?;
    if id == 0 {
        read_cie(section, &mut cursor, at, body.format, body.end, is_aarch64)
    } else {
        Err(Fault {
            kind: FaultKind::NoSuchCie,
            at,
        })
    }
}

/// The CIE whose record begins at the offset `at` of a section. It is read, unless it is `last`.
#[inline(always)]
fn cie_from<'a>(
    section: &'a [u8],
    target: Target,
    at: u32,
    is_aarch64: bool,
    last: Option<&EhCie<'a>>,
) -> Result<EhCie<'a>, Fault>
    requires inside { at ≤ length section.now }
    requires short { length section.now < 2 ^ 32 }
    requires last { IfSome last (λ cie. IsCieOf is_aarch64 target section.now cie.now) }
    ensures exact { MatchResult result
        (λ cie. eh_cie_at is_aarch64 target section.now at ≡ Ok (eh_cie_of cie))
        (λ fault. eh_cie_at is_aarch64 target section.now at ≡ Err fault) }
    ensures offset { IfOk result (λ cie. cie.cie.offset ≡ at) }
{
    match last {
        Some(cie) if cie.cie.offset == at => Ok(*cie),
        _ => cie_at(section, target, at, is_aarch64),
    }
}

/// The CIE of an FDE whose CIE pointer, at the offset `place`, is `back`.
#[inline(always)]
fn cie_before<'a>(
    section: &'a [u8],
    target: Target,
    place: u32,
    back: u32,
    is_aarch64: bool,
    last: Option<&EhCie<'a>>,
) -> Result<EhCie<'a>, Fault>
    requires inside { place ≤ length section.now }
    requires short { length section.now < 2 ^ 32 }
    requires last { IfSome last (λ cie. IsCieOf is_aarch64 target section.now cie.now) }
    ensures exact { MatchResult result
        (λ cie. eh_cie_before is_aarch64 target section.now place back ≡ Ok (eh_cie_of cie))
        (λ fault. eh_cie_before is_aarch64 target section.now place back ≡ Err fault) }
    ensures found { IfOk result (IsCieOf is_aarch64 target section.now) }
    ensures here { IfErr result (λ fault. fault.at ≡ place) }
{
    let nowhere = Fault {
        kind: FaultKind::NoSuchCie,
        at: place,
    };
    if back <= place {
        match cie_from(section, target, place - back, is_aarch64, last) {
            Ok(cie) => Ok(cie),
            Err(_) => Err(nowhere),
        }
    } else {
        Err(nowhere)
    }
}

/// Moves past the augmentation data of an FDE, if it has any.
#[inline(always)]
fn skip_area(cursor: &mut Cursor<'_>, has_data: bool) -> Result<(), Fault>
    ensures exact { MatchResult result
        (λ _. eh_area_at has_data cursor.old ≡ Ok cursor.new)
        (λ fault. eh_area_at has_data cursor.old ≡ Err fault) }
    ensures within { IsRefusedWithin cursor.old result }
    ensures goes_on { MovesForward cursor.old cursor.new }
{
    if has_data {
        block(cursor, 0)?;
    }
    Ok(())
}

/// Reads an FDE of this CIE from the offset after its CIE pointer on. Its record begins at the offset
/// `at` of a section, and ends at the offset `end`. Its CIE pointer is at the offset `place`.
/// `addresses` is the encoding of its addresses, which is passed by itself so that a caller who knows
/// it gets code for that encoding alone.
#[inline(always)]
#[tactic(auto, unfolding(crate::specs::Records::eh_fde_from))]
fn read_fde<'a>(
    section: &'a [u8],
    cursor: &mut Cursor<'a>,
    bases: Bases,
    at: u32,
    format: Format,
    place: u32,
    cie: &EhCie<'a>,
    addresses: PointerEncoding,
    end: u32,
) -> Result<FrameDescriptionEntry<'a>, Fault>
    requires begins { at < place }
    requires pointed { place < cursor.old.position }
    requires ordered { cursor.old.position ≤ end }
    requires inside { end ≤ length section.now }
    requires short { length section.now < 2 ^ 32 }
    requires reads { cursor.old ≡ window cursor.old.target section.now cursor.old.position end }
    requires encoding { addresses ≡ cie.now.augmentation.addresses }
    ensures exact { MatchResult result
        (λ fde. eh_fde_from bases at format place (eh_cie_of cie.now) cursor.old ≡ Ok (fde_with_cie cie.now fde))
        (λ fault. eh_fde_from bases at format place (eh_cie_of cie.now) cursor.old ≡ Err fault) }
    ensures sound { IfOk result (λ fde. LiesAt cursor.old.target at end (eh_fde (fde_with_cie cie.now fde))) }
    ensures pointer { IfOk result (λ fde. fde.cie_pointer ≡ cie.now.cie.offset) }
    ensures within { IsRefusedWithin cursor.old result }
{
    let target = cursor.target();
    let initial_location = read_pointer(cursor, bases, addresses)?;
    let address_range = read_range(cursor, addresses.format, initial_location)?;
    skip_area(cursor, cie.augmentation.has_data)?;
    let dialect = cie.cie.program.dialect();
    Ok(FrameDescriptionEntry {
        offset: at,
        format,
        cie_pointer: u64::from(cie.cie.offset),
        cie_pointer_offset: place,
        initial_location,
        address_range,
        program: Program::new(section, cursor.position(), end, target, dialect),
    })
}

/// Reads a record from the offset after its length on. `body` is the part of the section that has
/// the rest of the record.
#[inline(always)]
#[tactic(auto, unfolding(crate::specs::Records::eh_body_at, crate::specs::Records::eh_full_at, crate::specs::Records::eh_cie_at))]
pub(crate) fn read_body<'a>(
    section: &'a [u8],
    target: Target,
    bases: Bases,
    is_aarch64: bool,
    at: u32,
    body: Body,
    last: Option<&EhCie<'a>>,
) -> Result<EhRecord<'a>, Fault>
    requires last { IfSome last (λ cie. IsCieOf is_aarch64 target section.now cie.now) }
    requires begins { at < body.start }
    requires ordered { body.start ≤ body.end }
    requires inside { body.end ≤ length section.now }
    requires short { length section.now < 2 ^ 32 }
    requires framed { framed_at (section_from target section.now at)
        ≡ Ok ((body.format, window target section.now body.start body.end), section_from target section.now body.end) }
    ensures exact { MatchResult result
        (λ found. eh_body_at is_aarch64 bases section.now at body.format (window target section.now body.start body.end)
        ≡ Ok (eh_record_of found))
        (λ fault. eh_body_at is_aarch64 bases section.now at body.format (window target section.now body.start body.end)
        ≡ Err fault) }
    ensures sound { IfOk result (λ found. LiesAt target at body.end (eh_record_of found)) }
    ensures cie { IfOk result (HasCieOf is_aarch64 target section.now) }
    ensures within { IfErr result (λ fault. fault.at ≤ length section.now) }
{
    if body.start == body.end {
        return Ok(EhRecord::Nothing(at));
    }
    let mut cursor = Cursor::at(&section[..body.end as usize], target, body.start);
    let id = cursor.u32()?;
    if id == 0 {
        Ok(EhRecord::Cie(read_cie(section, &mut cursor, at, body.format, body.end, is_aarch64)?))
    } else {
        let cie = cie_before(section, target, body.start, id, is_aarch64, last)?;
        let addresses = cie.augmentation.addresses;
        let fde = read_fde(
            section,
            &mut cursor,
            bases,
            at,
            body.format,
            body.start,
            &cie,
            addresses,
            body.end,
        )?;
        Ok(EhRecord::Fde(EhFde { fde, cie }))
    }
}

/// How linkers write the addresses of FDEs: as four bytes, relative to their place (0x1b).
const USUAL_ADDRESSES: PointerEncoding = PointerEncoding {
    format: PointerFormat::I32,
    base: PointerBase::Place,
};

/// The FDE at offset `at` of a section, and the offset after its record, if its CIE is `last` and its
/// addresses are written as usual. `None` if that isn't so, or if the record can't be read. This is
/// a fast path beside `eh_record_after`: nearly all records are such FDEs, and here the CIE isn't
/// copied, and no encoding but the usual one is compiled. No clause says when it isn't `None`, so call
/// `eh_record_after` then.
#[inline(always)]
#[tactic(auto, unfolding(crate::specs::Records::eh_record_at, crate::specs::Records::eh_body_at, crate::specs::Records::eh_full_at))]
pub fn usual_fde<'a>(
    section: &'a [u8],
    target: Target,
    bases: Bases,
    is_aarch64: bool,
    at: u32,
    last: &EhCie<'a>,
) -> Option<(FrameDescriptionEntry<'a>, u32)>
    requires inside { at ≤ length section.now }
    requires short { length section.now < 2 ^ 32 }
    requires last { IsCieOf is_aarch64 target section.now last.now }
    ensures exact { IfSome result (λ found. eh_record_at is_aarch64 bases section.now (section_from target section.now at)
        ≡ Ok (eh_fde (fde_with_cie last.now found.0), section_from target section.now found.1)) }
    ensures forward { IfSome result (λ found. at < found.1 × found.1 ≤ length section.now) }
    ensures sound { IfSome result (λ found. LiesAt target at found.1 (eh_fde (fde_with_cie last.now found.0))) }
    ensures pointer { IfSome result (λ found. found.0.cie_pointer ≡ last.now.cie.offset) }
{
    if last.augmentation.addresses != USUAL_ADDRESSES {
        return None;
    }
    let Ok(body) = Body::read(section, target, at) else {
        return None;
    };
    let mut cursor = Cursor::at(&section[..body.end as usize], target, body.start);
    let Ok(back) = cursor.u32() else {
        return None;
    };
    if back == 0 || back > body.start || body.start - back != last.cie.offset {
        return None;
    }
    match read_fde(
        section,
        &mut cursor,
        bases,
        at,
        body.format,
        body.start,
        last,
        USUAL_ADDRESSES,
        body.end,
    ) {
        Ok(fde) => Some((fde, body.end)),
        Err(_) => None,
    }
}

/// The record that `eh_record` returns. `last` may be any CIE of the section: an FDE that has it
/// doesn't read it again, so that a caller who goes through all records passes the CIE used last.
#[inline(always)]
#[tactic(auto, unfolding(crate::specs::Records::eh_record_at))]
pub fn eh_record_after<'a>(
    section: &'a [u8],
    target: Target,
    bases: Bases,
    is_aarch64: bool,
    at: u32,
    last: Option<&EhCie<'a>>,
) -> Result<(EhRecord<'a>, u32), Fault>
    requires inside { at ≤ length section.now }
    requires short { length section.now < 2 ^ 32 }
    requires last { IfSome last (λ cie. IsCieOf is_aarch64 target section.now cie.now) }
    ensures exact { ReadsFrom eh_record_of (eh_record_at is_aarch64 bases section.now)
        (section_from target section.now) at result }
    ensures forward { IfOk result (λ e. at < e.1 × e.1 ≤ length section.now) }
    ensures sound { IfOk result (λ e. LiesAt target at e.1 (eh_record_of e.0)) }
    ensures cie { IfOk result (λ e. HasCieOf is_aarch64 target section.now e.0) }
    ensures within { IfErr result (λ fault. fault.at ≤ length section.now) }
{
    let body = Body::read(section, target, at)?;
    let found = read_body(section, target, bases, is_aarch64, at, body, last)?;
    Ok((found, body.end))
}

/// The record at offset `at` of a section of fewer than 2^32 bytes, and the offset after the record.
/// `bases` says where the section is, and `is_aarch64` whether its programs are for aarch64.
///
/// The error is the first fault: of the record's length and body (`Truncated`, `ReservedLength`); of
/// a CIE's version, augmentation and numbers (those of `dw_frame::entries`); `NoSuchCie` at a CIE
/// pointer that doesn't lead to a CIE that can be read; of an FDE's addresses (`RangePastTop`, or
/// `Augmentation` where a base isn't known) and augmentation data (`Truncated`, `LebRange`). Programs
/// aren't read. It takes as long as the bytes before the program, and allocates no memory.
pub fn eh_record<'a>(
    section: &'a [u8],
    target: Target,
    bases: Bases,
    is_aarch64: bool,
    at: u32,
) -> Result<(EhRecord<'a>, u32), Fault>
    requires inside { at ≤ length section.now }
    requires short { length section.now < 2 ^ 32 }
    ensures exact { ReadsFrom eh_record_of (eh_record_at is_aarch64 bases section.now)
        (section_from target section.now) at result }
    ensures forward { IfOk result (λ e. at < e.1 × e.1 ≤ length section.now) }
    ensures sound { IfOk result (λ e. LiesAt target at e.1 (eh_record_of e.0)) }
    ensures within { IfErr result (λ fault. fault.at ≤ length section.now) }
{
    eh_record_after(section, target, bases, is_aarch64, at, None)
}
