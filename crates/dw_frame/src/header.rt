//! Reading the header of a record: the fields between its length and its program.

ghost use Rattle.std.specs.Prelude.{◌≡◌, ◌+◌, ◌<◌, ◌^◌, true, IfOk};
ghost use Rattle.dw_bytes.specs.declared.fault.FaultKind.TheVariants.{Version};
ghost use Rattle.dw_bytes.specs.Operands.{fixed};
ghost use Rattle.dw_bytes.specs.Reading.{MovesForward};
ghost use Rattle.dw_bytes.specs.Readers.{ParsesBy, IsRefusedWithin};
ghost use Rattle.dw_bytes.specs.Fields.{unless, field_at, fields_at};
ghost use Rattle.dw_frame.specs.Records.{is_version};

use dw_bytes::{Cursor, Fault, FaultKind, Format, Target};

/// The fields between the length of a CIE and its program, except the fields that may have only one
/// value.
#[derive(Clone, Copy, Debug)]
pub struct CieHeader {
    pub version: u8,
    pub code_alignment_factor: u64,
    pub data_alignment_factor: i64,
    pub return_address_register: u16,
    ghost known: { is_version version ≡ true },
}

/// The fields between the length of an FDE and its program.
#[derive(Clone, Copy)]
pub struct FdeHeader {
    pub cie_pointer: u64,
    pub initial_location: u64,
    pub address_range: u64,
    ghost in_range: { initial_location + address_range < 2 ^ 64 },
}

/// The header of a record.
#[derive(Clone, Copy)]
pub enum Header {
    Cie(CieHeader),
    Fde(FdeHeader),
}

/// Reads the version of a CIE, which must be 1, 3 or 4, in `.debug_frame` and in `.eh_frame`. The
/// fault is `Version`, or one of a field that can't be read.
pub fn read_version(cursor: &mut Cursor<'_>) -> Result<u8, Fault>
    ensures exact { ParsesBy (λ version. version)
        (field_at (fixed 1) (λ number. unless (is_version number) Version))
        cursor.old result cursor.new }
    ensures known { IfOk result (λ version. is_version version ≡ true) }
    ensures within { IsRefusedWithin cursor.old result }
    ensures goes_on { MovesForward cursor.old cursor.new }
{
    let at = cursor.position();
    let version = cursor.u8()?;
    match version {
        1 | 3 | 4 => Ok(version),
        _ => Err(Fault {
            kind: FaultKind::Version,
            at,
        }),
    }
}

impl CieHeader {
    ghost use Rattle.dw_frame.specs.Sections.{cie_fields, cie_header, factors, past_augmentation};
    ghost use Rattle.dw_frame.specs.Headers.{cie_head, header_of};

    /// Reads the fields after the CIE_id.
    fn read(cursor: &mut Cursor<'_>, target: Target) -> Result<Self, Fault>
        ensures exact { ParsesBy cie_head
            (fields_at (cie_fields target)) cursor.old result cursor.new }
        ensures within { IsRefusedWithin cursor.old result }
        ensures goes_on { MovesForward cursor.old cursor.new }
    {
        let version = read_version(cursor)?;
        cursor.byte(0, FaultKind::Augmentation)?;
        CieHeader::read_after_augmentation(cursor, target, version)
    }

    /// Reads what follows the augmentation of a CIE, in `.debug_frame` and in `.eh_frame`: in version
    /// 4 the sizes of an address and of a segment selector, and then the alignment factors and the
    /// return address register (DWARF 5, section 6.4.1). The faults are `AddressSize`, `SegmentSize`,
    /// `RegisterNumber`, and those of fields that can't be read.
    pub fn read_after_augmentation(
        cursor: &mut Cursor<'_>,
        target: Target,
        version: u8,
    ) -> Result<Self, Fault>
        requires { is_version version ≡ true }
        ensures exact { ParsesBy cie_head
            (fields_at (past_augmentation cie_header target version)) cursor.old result cursor.new }
        ensures fields { ParsesBy header_of (fields_at
            (past_augmentation (λ header. header) target version)) cursor.old result cursor.new }
        ensures version { IfOk result (λ header. header.version ≡ version) }
        ensures within { IsRefusedWithin cursor.old result }
        ensures goes_on { MovesForward cursor.old cursor.new }
    {
        if version == 4 {
            cursor.byte(target.address_size.bytes(), FaultKind::AddressSize)?;
            cursor.byte(0, FaultKind::SegmentSize)?;
        }
        CieHeader::read_factors(cursor, version)
    }

    /// Reads the last fields of a CIE's header: both alignment factors, and the return address
    /// register, which is one byte in version 1 and LEB128 in versions 3 and 4.
    fn read_factors(cursor: &mut Cursor<'_>, version: u8) -> Result<Self, Fault>
        requires { is_version version ≡ true }
        ensures exact { ParsesBy cie_head
            (fields_at (factors cie_header version)) cursor.old result cursor.new }
        ensures fields { ParsesBy header_of (fields_at
            (factors (λ header. header) version)) cursor.old result cursor.new }
        ensures version { IfOk result (λ header. header.version ≡ version) }
        ensures within { IsRefusedWithin cursor.old result }
        ensures goes_on { MovesForward cursor.old cursor.new }
    {
        let code_alignment_factor = cursor.uleb()?;
        let data_alignment_factor = cursor.sleb()?;
        let at = cursor.position();
        let column = if version == 1 {
            u64::from(cursor.u8()?)
        } else {
            cursor.uleb()?
        };
        let Ok(return_address_register) = u16::try_from(column) else {
            return Err(Fault {
                kind: FaultKind::RegisterNumber,
                at,
            });
        };
        Ok(CieHeader {
            version,
            code_alignment_factor,
            data_alignment_factor,
            return_address_register,
        })
    }
}

impl FdeHeader {
    ghost use Rattle.dw_frame.specs.Sections.{fde_fields};
    ghost use Rattle.dw_frame.specs.Headers.{fde_head};

    /// Reads the fields after the CIE_pointer of an FDE.
    fn read(cursor: &mut Cursor<'_>, target: Target, cie_pointer: u64) -> Result<Self, Fault>
        ensures exact { ParsesBy fde_head
            (fields_at (fde_fields target cie_pointer)) cursor.old result cursor.new }
        ensures within { IsRefusedWithin cursor.old result }
        ensures goes_on { MovesForward cursor.old cursor.new }
    {
        let top = target.address_size.max_address();
        let initial_location = cursor.address()?;
        let at = cursor.position();
        let address_range = cursor.address()?;
        match initial_location.checked_add(address_range) {
            Some(end) if end <= top => Ok(FdeHeader {
                cie_pointer,
                initial_location,
                address_range,
            }),
            _ => Err(Fault {
                kind: FaultKind::RangePastTop,
                at,
            }),
        }
    }
}

impl Header {
    ghost use Rattle.dw_frame.specs.Sections.{header_at};
    ghost use Rattle.dw_frame.specs.Headers.{head_of};

    /// Reads the header of a record in this format. The cursor must be at the first byte of the
    /// record's body. The record is a CIE if its first field is the CIE_id, and otherwise an FDE.
    #[tactic(auto, unfolding(crate::specs::Sections::header_at))]
    pub fn read(cursor: &mut Cursor<'_>, format: Format, target: Target) -> Result<Self, Fault>
        ensures exact { ParsesBy head_of (header_at target format) cursor.old result cursor.new }
        ensures within { IsRefusedWithin cursor.old result }
        ensures goes_on { MovesForward cursor.old cursor.new }
    {
        let cie_id = match format {
            Format::Dwarf32 => 0xffff_ffff,
            Format::Dwarf64 => u64::MAX,
        };
        let id = cursor.offset(format)?;
        if id == cie_id {
            Ok(Header::Cie(CieHeader::read(cursor, target)?))
        } else {
            Ok(Header::Fde(FdeHeader::read(cursor, target, id)?))
        }
    }
}
