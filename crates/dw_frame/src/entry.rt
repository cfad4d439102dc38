//! `Entry`: the records of a frame section, CIEs and FDEs.

ghost use Rattle.std.specs.Prelude.{◌≡◌, ◌+◌, ◌<◌, ◌^◌, true};
ghost use Rattle.dw_frame.specs.Records.{is_version};

use crate::program::Program;
use dw_bytes::Format;

/// A common information entry (DWARF 5, section 6.4.1): what its FDEs have in common.
#[derive(Clone, Copy, Debug)]
pub struct CommonInformationEntry<'a> {
    /// The offset of the record's first byte in the section.
    pub offset: u32,
    /// Whether the record is in the 32-bit or the 64-bit DWARF format.
    pub format: Format,
    /// The version of the CIE's encoding: 1, 3 or 4.
    pub version: u8,
    /// The factor that the delta of an advance_loc instruction is multiplied by.
    pub code_alignment_factor: u64,
    /// The factor that a factored offset is multiplied by.
    pub data_alignment_factor: i64,
    /// The register number (a column of the unwind table) that stands for the return address.
    pub return_address_register: u16,
    /// The initial instructions of each FDE that refers to this CIE.
    pub program: Program<'a>,
    pub ghost known: { is_version version ≡ true },
}

impl<'a> CommonInformationEntry<'a> {
    ghost use Rattle.dw_frame.specs.Views.{cie_of};

    /// The version of the CIE's encoding (DWARF 5, section 6.4.1 and Appendix G): 1, 3 or 4.
    pub fn version(&self) -> u8
        ensures version { result ≡ (cie_of self.now).version }
        ensures known { is_version result ≡ true }
    {
        self.version
    }
}

/// A frame description entry (DWARF 5, section 6.4.1): a range of addresses and the program for
/// them.
#[derive(Clone, Copy, Debug)]
pub struct FrameDescriptionEntry<'a> {
    /// The offset of the record's first byte in the section.
    pub offset: u32,
    /// Whether the record is in the 32-bit or the 64-bit DWARF format.
    pub format: Format,
    /// The offset in the section where the FDE says that its CIE begins. In `.debug_frame` that is
    /// what the CIE_pointer field holds.
    pub cie_pointer: u64,
    /// The offset of the CIE_pointer field in the section.
    pub cie_pointer_offset: u32,
    /// The first address that the FDE covers.
    pub initial_location: u64,
    /// The number of addresses that the FDE covers.
    pub address_range: u64,
    /// The FDE's own instructions, which run after the CIE's initial instructions.
    pub program: Program<'a>,
    pub ghost in_range: { initial_location + address_range < 2 ^ 64 },
}

impl<'a> FrameDescriptionEntry<'a> {
    /// The address after the highest address that the FDE covers, or `initial_location` if the FDE
    /// covers none.
    #[inline(always)]
    pub fn end_address(&self) -> u64
        ensures { result ≡ self.now.initial_location + self.now.address_range }
    {
        self.initial_location + self.address_range
    }
}

/// A record of a frame section.
#[derive(Clone, Copy, Debug)]
pub enum Entry<'a> {
    /// A common information entry.
    Cie(CommonInformationEntry<'a>),
    /// A frame description entry.
    Fde(FrameDescriptionEntry<'a>),
}
