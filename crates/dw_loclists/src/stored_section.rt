//! What is stored about a section while it is checked, and afterwards.

ghost use Rattle.std.specs.Prelude.{◌<◌, ◌^◌};

use crate::stored_lists::StoredExpression;
use std::alloc::Global;

/// A location list (DWARF 5, section 7.7.3), identified by the offset in the section where it
/// begins.
#[derive(Clone, Copy, Debug, PartialEq, Eq)]
pub struct LocationList {
    offset: u32,
    pub ghost short: { offset < 2 ^ 32 },
}

impl LocationList {
    ghost use Rattle.std.specs.Prelude.{◌≡◌};
    ghost use Rattle.dw_loclists.specs.Views.{start_of};

    /// The list that begins at `offset`.
    pub(crate) fn new(offset: u32) -> Self
        ensures { start_of result ≡ offset }
    {
        LocationList { offset }
    }

    /// The offset of the list's first byte in the section.
    pub fn offset(&self) -> u32
        ensures { result ≡ start_of self.now }
    {
        self.offset
    }
}

/// What is stored about the part of a section that was read so far: the offsets of its tables, its
/// lists, and its expressions (offsets, lengths, operation counts and depths), each in order of
/// offset.
#[derive(Drop)]
pub struct Contents {
    pub tables: Vec<u32>,
    pub lists: Vec<LocationList>,
    pub expressions: Vec<StoredExpression>,
}

impl Contents {
    ghost use Rattle.std.specs.Prelude.{◌≡◌, []};
    ghost use Rattle.dw_loclists.specs.Stored.{stored_of, nothing_stored};

    /// The contents before anything is read.
    pub fn new(alloc: Global) -> Self
        ensures kept { stored_of result ≡ nothing_stored }
        ensures expressions { result.expressions.items ≡ [] }
    {
        Contents {
            tables: Vec::new(alloc),
            lists: Vec::new(alloc),
            expressions: Vec::new(alloc),
        }
    }
}
