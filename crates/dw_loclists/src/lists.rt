//! Checks a whole section, finds its lists by their offsets, and looks up what holds at an address.

ghost use Rattle.std.specs.Prelude.{◌≡◌, ◌<◌, ◌≤◌, ◌^◌, Contains, length, map, IfOk, IfErr, MatchOption};
ghost use Rattle.dw_bytes.specs.Answers.{Answers};
ghost use Rattle.dw_loclists.specs.Lists.{Loclist, Table, starts_of};
ghost use Rattle.dw_loclists.specs.Locations.{locations_of};
ghost use Rattle.dw_loclists.specs.Reading.{lists_fault, IsChecked, tables_in, lists_in, located_in};
ghost use Rattle.dw_loclists.specs.Views.{start_of};

use crate::expressions::Expressions;
use crate::find::find_list;
use crate::locations::LocationsAt;
use crate::stored_section::{Contents, LocationList};
use crate::table::read_table;
use crate::walk::ListWalk;
use dw_bytes::{Cursor, Fault, Target};
use std::alloc::Global;
use std::marker::Model;

/// A `.debug_loclists` section that passed the check: it consists of tables without gaps, each
/// offset in a table's array leads to the first byte of a list, and each expression passes the
/// check as a location. The model of a `CheckedLists` is the section's target and bytes.
///
/// ```rust
/// let lists = check_lists(alloc, section, target)?;
/// // The list at 0xc, the value of a DW_AT_location, in a unit that begins at 0x1000, while the
/// // program is stopped at 0x1005.
/// if let Some(list) = lists.list(0xc) {
///     for (offset, expression) in lists.locations_at(&list, 0x1000, 0x1005) {
///         println!(rt; "{offset:#x}: {} operations", expression.operation_count())?;
///     }
/// }
/// ```
#[derive(Drop)]
pub struct CheckedLists<'a> {
    target: Target,
    section: &'a [u8],
    contents: Contents,
}

impl<'a> Model for CheckedLists<'a> {
    ghost use Rattle.dw_loclists.specs.Reading.{ListSection};
    ghost use Rattle.dw_loclists.specs.Stored.{IsKept};

    ghost Value = { ListSection };

    ghost view = { λ c. record { target = c.target; section = c.section.now } };

    ghost invariant = { λ c.
        IsKept (record { target = c.target; section = c.section.now }) c.contents };
}

/// Checks a section of fewer than 2^32 bytes. An error is the first fault from left to right.
///
/// The checks of a table, in order, with the numbers of their faults (`FaultKind`) in parentheses:
/// its length (1, 3), whether the section has the whole body (1, at the body's first byte), the
/// version (50), the address size (6), the segment selector size (7), whether the offset count and
/// the offsets fit in the body (1), each entry of each list, whether the last list ends (54, at the
/// table's end), and whether each offset leads to a list's first byte (55). The checks of an entry:
/// its code (51), its operands (1, 2), whether it is the first default_location of its list (53),
/// whether its range ends no earlier than it begins (52), and its expression, as `dw_stack` checks
/// it; a fault of an expression is reported at its offset in the section. If memory runs out, the
/// fault is `Memory` (60), at offset 0.
///
/// The check is one pass over the bytes. Memory grows as the pass goes on, so a refused section
/// takes memory only for what comes before its fault. Looking up the n array offsets of a table
/// among its m lists takes O(n log m) time in addition.
pub fn check_lists<'a>(
    alloc: Global,
    section: &'a [u8],
    target: Target,
) -> Result<CheckedLists<'a>, Fault>
    requires { length section.now < 2 ^ 32 }
    ensures answer { Answers (lists_fault target section.now) result }
    ensures inside { IfErr result (λ fault. fault.at ≤ length section.now) }
    ensures lists { IfOk result (λ lists.
        lists ≡ record { target = target; section = section.now }) }
{
    let mut contents = Contents::new(alloc);
    let end = section.len() as u32;
    let mut at = 0;
    'tables: while at < end {
        at = read_table(alloc, section, target, at, &mut contents)?;
    }
    Ok(CheckedLists {
        target,
        section,
        contents,
    })
}

impl<'a> CheckedLists<'a> {
    /// The target that the section was read with.
    pub fn target(&self) -> Target
        ensures { result ≡ self.now.target }
    {
        self.target
    }

    /// The bytes of the section, which have no fault.
    pub fn section(&self) -> &'a [u8]
        ensures section { result.now ≡ self.now.section }
        ensures checked { IsChecked self.now }
    {
        self.section
    }

    /// The offset of each table's first byte in the section, in order.
    pub fn tables(&self) -> &[u32]
        ensures { result.now ≡ map (λ (t : Table). t.offset) (tables_in self.now) }
    {
        self.contents.tables.as_slice()
    }

    /// All lists, in order of offset, including lists that no array offset points to.
    pub fn lists(&self) -> &[LocationList]
        ensures { map start_of result.now ≡ starts_of (lists_in self.now) }
    {
        self.contents.lists.as_slice()
    }

    /// All expressions, each with the offset of its first byte in the section, in order. All passed
    /// the check as locations.
    pub fn expressions(&self) -> Expressions<'_, 'a>
        ensures expressions { result ≡ located_in self.now }
        ensures checked { IsChecked self.now }
    {
        Expressions::new(self.section, self.target, &self.contents.expressions)
    }

    /// The list whose first byte is at `offset` in the section, if there is one. Binary search;
    /// doesn't allocate.
    pub fn list(&self, offset: u32) -> Option<LocationList>
        ensures { MatchOption result
            (¬ Contains (starts_of (lists_in self.now)) offset)
            (λ list. (start_of list ≡ offset)
            × Contains (starts_of (lists_in self.now)) offset) }
    {
        find_list(&self.contents.lists, u64::from(offset))
    }

    /// The expressions of `list`, a list of this section, that hold at `address`, in order: the
    /// expressions of all entries whose range contains the address. If no entry's range does, the
    /// expression of the default_location, if the list has one. `base` is the unit's base address;
    /// sums don't wrap. Doesn't allocate.
    pub fn locations_at(&self, list: &LocationList, base: u64, address: u64) -> LocationsAt<'_, 'a>
        requires { Contains (starts_of (lists_in self.now)) (start_of list.now) }
        ensures { (l : Loclist) → Contains (lists_in self.now) l →
            l.offset ≡ start_of list.now → result ≡ locations_of l base address }
    {
        let walk = ListWalk {
            cursor: Cursor::at(self.section, self.target, list.offset()),
            base,
            default: None,
        };
        LocationsAt::new(walk, address, &self.contents.expressions)
    }
}
