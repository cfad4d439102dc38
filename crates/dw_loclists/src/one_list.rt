//! Checks one list without the rest of its section, and looks up what holds at an address.

ghost use Rattle.std.specs.Prelude.{◌≡◌, ◌⊎◌, ◌<◌, ◌≤◌, ◌^◌, length, Err, IfErr, IfOk};
ghost use Rattle.dw_bytes.specs.Answers.{memory};
ghost use Rattle.dw_bytes.specs.Reading.{section_from};
ghost use Rattle.dw_loclists.specs.Locations.{locations_of};
ghost use Rattle.dw_loclists.specs.Reading.{IsListAt, list_at};

use crate::list::read_list;
use crate::locations::LocationsAt;
use crate::stored_lists::StoredExpression;
use crate::walk::ListWalk;
use dw_bytes::{Cursor, Fault, Target};
use std::alloc::Global;
use std::marker::Model;

/// A location list that passed the check by itself. Its model is the list.
///
/// ```rust
/// // The list at 0xc, the value of a DW_AT_location, in a unit that begins at 0x1000, while the
/// // program is stopped at 0x1005.
/// let list = check_list(alloc, section, target, 0xc)?;
/// for (offset, expression) in list.locations_at(0x1000, 0x1005) {
///     println!(rt; "{offset:#x}: {} operations", expression.operation_count())?;
/// }
/// ```
#[derive(Drop)]
pub struct CheckedList<'a> {
    target: Target,
    section: &'a [u8],
    offset: u32,
    expressions: Vec<StoredExpression>,
}

impl<'a> Model for CheckedList<'a> {
    ghost use Rattle.std.specs.Prelude.{length};
    ghost use Rattle.dw_bytes.specs.Reading.{section_from};
    ghost use Rattle.dw_loclists.specs.Stored.{IsKeptList, list_from};
    ghost use Rattle.dw_loclists.specs.Lists.{Loclist};

    ghost Value = { Loclist };

    ghost view = { λ c. list_from (section_from c.target c.section.now c.offset) };

    ghost invariant = { λ c. IsKeptList c.target c.section.now c.offset c.expressions.items };
}

/// Reads and checks the list whose first byte is at `offset` in a section of fewer than 2^32 bytes.
/// Nothing else of the section is read, so what counts is where the caller says that a list begins.
///
/// An error is the first fault of the list from left to right, as in `check_lists`; `NoEnd` (54) is
/// at the section's end. If memory runs out, the fault is `Memory` (60), at offset 0. Time and
/// memory are in proportion to the list.
pub fn check_list<'a>(
    alloc: Global,
    section: &'a [u8],
    target: Target,
    offset: u32,
) -> Result<CheckedList<'a>, Fault>
    requires inside { offset ≤ length section.now }
    requires short { length section.now < 2 ^ 32 }
    ensures list { IfOk result (IsListAt target section.now offset) }
    ensures fault { IfErr result (λ fault. (fault ≡ memory)
        ⊎ (list_at (section_from target section.now offset) ≡ Err fault)) }
    ensures within { IfErr result (λ fault. fault.at ≤ length section.now) }
{
    let mut expressions = Vec::new(alloc);
    let mut cursor = Cursor::at(section, target, offset);
    read_list(alloc, &mut cursor, section.len() as u32, &mut expressions)?;
    Ok(CheckedList {
        target,
        section,
        offset,
        expressions,
    })
}

impl<'a> CheckedList<'a> {
    /// The expressions of the list that hold at `address`, in order: the expressions of all entries
    /// whose range contains the address. If no entry's range does, the expression of the
    /// default_location, if the list has one. `base` is the unit's base address; sums don't wrap.
    /// Doesn't allocate.
    pub fn locations_at(&self, base: u64, address: u64) -> LocationsAt<'_, 'a>
        ensures { result ≡ locations_of self.now base address }
    {
        let walk = ListWalk {
            cursor: Cursor::at(self.section, self.target, self.offset),
            base,
            default: None,
        };
        LocationsAt::new(walk, address, &self.expressions)
    }
}
