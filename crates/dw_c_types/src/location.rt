//! C's struct for an expression of a location list.

ghost use Rattle.std.specs.Prelude.{◌≡◌, length, map, min};
ghost use Rattle.dw_stack.specs.Located.{located_of};
ghost use Rattle.dw_c_types.specs.Locations.{clocation_of};
ghost use Rattle.dw_c_types.specs.Slots.{put_into};

use dw_loclists::LocationsAt;
use dw_stack::CheckedExpression;

/// An expression of a location list: the offset in the section where it begins, and its length in
/// bytes.
#[repr(C)]
#[derive(Clone, Copy, Debug)]
pub struct CLocation {
    pub offset: u64,
    pub length: u64,
}

/// Converts an expression that begins at `offset` in the section to C's struct.
fn c_location_of(offset: u32, checked: &CheckedExpression<'_>) -> CLocation
    ensures { result ≡ clocation_of (located_of (offset, checked.now)) }
{
    CLocation {
        offset: u64::from(offset),
        length: checked.expression().bytes().len() as u64,
    }
}

/// Writes expressions to `slots`, as many as fit. Returns the number written.
pub fn write_locations(found: LocationsAt<'_, '_>, slots: &mut [CLocation]) -> usize
    ensures written { slots.new ≡ put_into (map clocation_of found.entry) slots.old }
    ensures count { result ≡ min (length found.entry) (length slots.old) }
{
    let mut count = 0;
    for (offset, checked) in found {
        if count >= slots.len() {
            return count;
        }
        slots[count] = c_location_of(offset, &checked);
        count += 1;
    }
    count
}
