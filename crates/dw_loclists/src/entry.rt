//! Reads the entries of location lists.

ghost use Rattle.std.specs.Prelude.{◌≡◌, ◌<◌, ◌+◌, nat_le, IfOk};
ghost use Rattle.dw_bytes.specs.Reading.{MovesForward};
ghost use Rattle.dw_bytes.specs.Readers.{ParsesBy, IsRefusedWithin};
ghost use Rattle.dw_loclists.specs.Reading.{entry_at};
ghost use Rattle.dw_loclists.specs.Views.{entry_of};

use dw_bytes::{Block, Cursor, Fault, FaultKind, operands};

/// An entry of a location list (DWARF 5, section 7.7.3), with its operands as they are encoded.
#[derive(Clone, Copy)]
pub enum Entry<'a> {
    /// `DW_LLE_end_of_list`: the list ends here.
    EndOfList,
    /// `DW_LLE_offset_pair`: the expression holds from `begin` up to, not including, `end`, both
    /// offsets from the base address.
    OffsetPair {
        begin: u64,
        end: u64,
        expression: Block<'a>,
    },
    /// `DW_LLE_default_location`: the expression holds if no other entry of the list covers the
    /// address.
    DefaultLocation {
        expression: Block<'a>,
    },
    /// `DW_LLE_base_address`: sets the base address of the entries after it.
    BaseAddress {
        base: u64,
    },
    /// `DW_LLE_start_end`: the expression holds from address `begin` up to, not including, `end`.
    StartEnd {
        begin: u64,
        end: u64,
        expression: Block<'a>,
    },
    /// `DW_LLE_start_length`: the expression holds for `count` bytes from address `begin` on.
    StartLength {
        begin: u64,
        count: u64,
        expression: Block<'a>,
    },
}

impl<'a> Entry<'a> {
    /// Reads the next entry. An unknown code is the fault `UnknownEntry`, at the entry's first
    /// byte. A field that is missing or cut off (`Truncated`), or a LEB128 number that is too long
    /// or too large (`LebRange`), is reported at the field's first byte.
    #[tactic(auto, unfolding(crate::specs::Reading::entry_at))]
    #[inline(always)]
    pub fn read(cursor: &mut Cursor<'a>) -> Result<Self, Fault>
        ensures exact { ParsesBy entry_of entry_at cursor.old result cursor.new }
        ensures within { IsRefusedWithin cursor.old result }
        ensures goes_on { MovesForward cursor.old cursor.new }
        ensures forward { IfOk result (λ _. cursor.old.position < cursor.new.position) }
    {
        let at = cursor.position();
        match cursor.u8()? {
            0x00 => Ok(Entry::EndOfList),
            0x04 => {
                let begin = cursor.uleb()?;
                let end = cursor.uleb()?;
                let expression = operands::block(cursor, at)?;
                Ok(Entry::OffsetPair {
                    begin,
                    end,
                    expression,
                })
            }
            0x05 => {
                let expression = operands::block(cursor, at)?;
                Ok(Entry::DefaultLocation { expression })
            }
            0x06 => {
                let base = cursor.address()?;
                Ok(Entry::BaseAddress { base })
            }
            0x07 => {
                let begin = cursor.address()?;
                let end = cursor.address()?;
                let expression = operands::block(cursor, at)?;
                Ok(Entry::StartEnd {
                    begin,
                    end,
                    expression,
                })
            }
            0x08 => {
                let begin = cursor.address()?;
                let count = cursor.uleb()?;
                let expression = operands::block(cursor, at)?;
                Ok(Entry::StartLength {
                    begin,
                    count,
                    expression,
                })
            }
            _ => Err(Fault {
                kind: FaultKind::UnknownEntry,
                at,
            }),
        }
    }
}

impl<'a> Entry<'a> {
    ghost use Rattle.std.specs.Prelude.{◌≡◌, option_map};
    ghost use Rattle.dw_bytes.specs.Operands.{block_of};
    ghost use Rattle.dw_loclists.specs.Entries.{is_end, is_default, expression_in};
    ghost use Rattle.dw_loclists.specs.Locations.{holds};
    ghost use Rattle.dw_loclists.specs.Reading.{is_back_range};
    ghost use Rattle.dw_loclists.specs.Views.{entry_of};

    /// Whether the entry is an end_of_list.
    #[inline(always)]
    pub fn is_end(&self) -> bool
        ensures { result ≡ is_end (entry_of self.now) }
    {
        matches!(self, Entry::EndOfList)
    }

    /// Whether the entry is a default_location.
    #[inline(always)]
    pub fn is_default(&self) -> bool
        ensures { result ≡ is_default (entry_of self.now) }
    {
        matches!(self, Entry::DefaultLocation { .. })
    }

    /// Whether the entry has a range that ends before it begins.
    #[inline(always)]
    pub fn is_back_range(&self) -> bool
        ensures { result ≡ is_back_range (entry_of self.now) }
    {
        match *self {
            Entry::OffsetPair { begin, end, .. } => end < begin,
            Entry::StartEnd { begin, end, .. } => end < begin,
            _ => false,
        }
    }

    /// The entry's expression, if it has one.
    #[inline(always)]
    pub fn expression(&self) -> Option<Block<'a>>
        ensures { option_map block_of result ≡ expression_in (entry_of self.now) }
    {
        match *self {
            Entry::OffsetPair { expression, .. }
            | Entry::DefaultLocation { expression }
            | Entry::StartEnd { expression, .. }
            | Entry::StartLength { expression, .. } => Some(expression),
            Entry::EndOfList | Entry::BaseAddress { .. } => None,
        }
    }

    /// Whether the entry has a range that contains `address`. `base` is the base address, from
    /// which an `OffsetPair` counts. Sums don't wrap: a sum above 2^64 - 1 is above every address.
    #[inline(always)]
    pub fn holds(&self, base: u64, address: u64) -> bool
        ensures { result ≡ holds base address (entry_of self.now) }
    {
        match *self {
            Entry::OffsetPair { begin, end, .. } => {
                sum_is_at_most(base, begin, address) && !sum_is_at_most(base, end, address)
            }
            Entry::StartEnd { begin, end, .. } => begin <= address && address < end,
            Entry::StartLength { begin, count, .. } => {
                begin <= address && !sum_is_at_most(begin, count, address)
            }
            Entry::EndOfList | Entry::DefaultLocation { .. } | Entry::BaseAddress { .. } => false,
        }
    }
}

/// Whether `base + offset`, without wrapping, is at most `address`.
#[inline(always)]
fn sum_is_at_most(base: u64, offset: u64, address: u64) -> bool
    ensures { result ≡ nat_le (base + offset) address }
{
    match base.checked_add(offset) {
        Some(sum) => sum <= address,
        None => false,
    }
}
