//! The dialect that the programs of an `.eh_frame` section are written in.

ghost use Rattle.std.specs.Prelude.{◌≡◌};
ghost use Rattle.dw_eh_frame.specs.Dialects.{dialect_for};

use crate::augmentation::Augmentation;
use crate::pointer::{PointerBase, PointerFormat};
use dw_frame::Dialect;

/// The dialect of the programs of a CIE with this augmentation and of its FDEs.
pub(crate) fn dialect_by(is_aarch64: bool, augmentation: Augmentation) -> Dialect
    ensures { result ≡ dialect_for is_aarch64 augmentation }
{
    let addresses = augmentation.addresses;
    let has_plain_addresses = match (addresses.format, addresses.base) {
        (PointerFormat::Address, PointerBase::Absolute) => true,
        _ => false,
    };
    match (is_aarch64, has_plain_addresses) {
        (false, true) => Dialect::EhFrame,
        (false, false) => Dialect::EhFrameEncoded,
        (true, true) => Dialect::EhFrameAarch64,
        (true, false) => Dialect::EhFrameAarch64Encoded,
    }
}
