//! `Block`: bytes with their count in front.

ghost use Rattle.std.specs.Prelude.{◌<◌, ◌+◌, ◌^◌, length};

use crate::target::Target;

/// A block, and where it lies. A block is a run of bytes with their count in front, such as the
/// expression in a call frame instruction.
#[derive(Clone, Copy, Debug)]
pub struct Block<'a> {
    /// The offset of the first byte after the count. It counts from the first byte of the slice
    /// that the cursor was made with.
    pub offset: u32,
    /// The byte order and address size for reading the block.
    pub target: Target,
    pub bytes: &'a [u8],
    pub ghost inside: { offset + length bytes.now < 2 ^ 32 },
}
