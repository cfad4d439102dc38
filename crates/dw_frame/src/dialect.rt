//! `Dialect`: in which ways the codes of a program differ from DWARF's.

ghost use Rattle.std.specs.Prelude.{◌≡◌};
ghost use Rattle.dw_frame.specs.Dialects.{has_gnu_codes, is_aarch64, has_plain_addresses};

/// Which codes a program may use besides DWARF's, and which of DWARF's it may not. It is one byte, so
/// that a `Program` takes no more room.
#[derive(Clone, Copy, Debug)]
pub enum Dialect {
    /// `.debug_frame`: the codes of DWARF, and no other.
    DebugFrame,
    /// `.eh_frame`: the code 0x2e is DW_CFA_GNU_args_size, and 0x2f is
    /// DW_CFA_GNU_negative_offset_extended.
    EhFrame,
    /// `.eh_frame` whose addresses are encoded: set_loc isn't known.
    EhFrameEncoded,
    /// `.eh_frame` for aarch64: the codes 0x2d and 0x2c are DW_CFA_AARCH64_negate_ra_state and
    /// DW_CFA_AARCH64_negate_ra_state_with_pc.
    EhFrameAarch64,
    /// `.eh_frame` for aarch64 whose addresses are encoded.
    EhFrameAarch64Encoded,
}

impl Dialect {
    /// Whether the codes 0x2e and 0x2f are DW_CFA_GNU_args_size and
    /// DW_CFA_GNU_negative_offset_extended.
    #[inline(always)]
    pub fn has_gnu_codes(self) -> bool
        ensures { result ≡ has_gnu_codes self }
    {
        match self {
            Dialect::DebugFrame => false,
            _ => true,
        }
    }

    /// Whether the codes 0x2d and 0x2c are known.
    #[inline(always)]
    pub fn is_aarch64(self) -> bool
        ensures { result ≡ is_aarch64 self }
    {
        match self {
            Dialect::EhFrameAarch64 | Dialect::EhFrameAarch64Encoded => true,
            _ => false,
        }
    }

    /// Whether the operand of set_loc is the bytes of an address.
    #[inline(always)]
    pub fn has_plain_addresses(self) -> bool
        ensures { result ≡ has_plain_addresses self }
    {
        match self {
            Dialect::EhFrameEncoded | Dialect::EhFrameAarch64Encoded => false,
            _ => true,
        }
    }
}
