//! An `.eh_frame` section in place.

ghost use Rattle.std.specs.Prelude.{◌<◌, ◌^◌, length};

use dw_bytes::Target;
use dw_eh_frame::Bases;

/// An `.eh_frame` section of fewer than 2^32 bytes, in place. More bytes may follow it.
///
/// ```rust
/// let section = SectionInPlace {
///     bytes,
///     target: Target { order: Order::Little, address_size: AddressSize::Eight },
///     bases: Bases::of_section(0x2000),
///     is_aarch64: false,
/// };
/// ```
#[derive(Clone, Copy)]
pub struct SectionInPlace<'a> {
    /// Its bytes.
    pub bytes: &'a [u8],
    /// How its numbers are read.
    pub target: Target,
    /// Where it is: as linked, or as loaded, like the table's address and the addresses that are
    /// looked up.
    pub bases: Bases,
    /// Whether its programs are for aarch64.
    pub is_aarch64: bool,
    pub ghost short: { length bytes.now < 2 ^ 32 },
}
