//! Where in a section the record is that an entry of a search table names.

ghost use Rattle.std.specs.Prelude.{◌≡◌, ◌+◌, ◌-◌, ◌<◌, ◌^◌};
ghost use Rattle.dw_eh_frame.specs.Pointers.{wrapped};
ghost use Rattle.dw_in_place.specs.LookUps.{record_offset};
ghost use Rattle.dw_in_place.specs.Views.{table_of};

use crate::search_table::SearchTable;
use dw_bytes::{AddressSize, Target};

/// How far the address `to` is after the address `from`.
#[inline(always)]
fn distance(target: Target, from: u64, to: u64) -> u64
    ensures { result ≡ wrapped target (to + (2 ^ 64 - from)) }
{
    let far = to.wrapping_sub(from);
    match target.address_size {
        AddressSize::Four => far % 0x1_0000_0000,
        AddressSize::Eight => far,
    }
}

/// The offset of the record that an entry of a table names, in a section that begins at the address
/// `start`. It may be past the section's end.
#[inline(always)]
pub(crate) fn offset_of_record(table: &SearchTable<'_>, start: u64, entry: u32) -> u64
    requires { entry < (table_of table.now).count }
    ensures { result ≡ record_offset (table_of table.now) start entry }
{
    distance(table.target(), start, table.record_address(entry))
}
