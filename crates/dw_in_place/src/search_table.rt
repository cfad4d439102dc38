//! The binary search table of `.eh_frame_hdr` (LSB Core, section 10.6.2).

ghost use Rattle.std.specs.Prelude.{◌≡◌, ◌+◌, ◌*◌, ◌≤◌, length};
ghost use Rattle.dw_eh_frame.specs.Pointers.{sign_extended, wrapped};
ghost use Rattle.dw_in_place.specs.SearchTables.{address_at, is_usual, word_at};

use byteorder::{BigEndian, ByteOrder, LittleEndian};
use dw_bytes::{AddressSize, Order, Target};

/// The binary search table of an `.eh_frame_hdr` section: for an FDE its first address and the
/// address of its record, in the order of first addresses. It borrows the section's bytes, and they
/// are read as they are needed. Whether they are in order isn't checked (`is_in_order` does), nor
/// whether they are right (`leads_to_all` does).
///
/// ```rust
/// if let Some(table) = SearchTable::read(header, target, header_address) {
///     if let Some(record) = table.record_for_address(0x1004) {
///         println!(rt; "the FDE is at {record:#x}")?;
///     }
/// }
/// ```
#[derive(Clone, Copy, Debug)]
pub struct SearchTable<'a> {
    bytes: &'a [u8],
    target: Target,
    address: u64,
    frame_address: u64,
    count: u32,
    pub ghost whole: { 12 + 8 * count ≤ length bytes.now },
}

/// Whether the bytes begin as the headers that linkers write: version 1, and the encodings 0x1b,
/// 0x03 and 0x3b.
fn is_usual_header(bytes: &[u8]) -> bool
    ensures { result ≡ is_usual bytes.now }
{
    match bytes {
        [version, frame, count, table, ..] => {
            *version == 1 && *frame == 0x1b && *count == 0x03 && *table == 0x3b
        }
        _ => false,
    }
}

/// The number in the four bytes at an offset.
#[inline(always)]
fn read_word(bytes: &[u8], target: Target, at: usize) -> u32
    requires { at + 4 ≤ length bytes.now }
    ensures { result ≡ word_at target bytes.now at }
{
    let rest = &bytes[at..];
    match target.order {
        Order::Little => LittleEndian::read_u32(rest),
        Order::Big => BigEndian::read_u32(rest),
    }
}

/// The number as one of 64 bits, if its four bytes are two's complement.
#[inline(always)]
fn extended(number: u32) -> u64
    ensures { result ≡ sign_extended 4 number }
{
    if number < 0x8000_0000 {
        u64::from(number)
    } else {
        u64::from(number) + 0xffff_ffff_0000_0000
    }
}

/// The address that is this far from `base`.
#[inline(always)]
fn address_from(target: Target, base: u64, number: u32) -> u64
    ensures { result ≡ wrapped target (base + sign_extended 4 number) }
{
    let sum = base.wrapping_add(extended(number));
    match target.address_size {
        AddressSize::Four => sum % 0x1_0000_0000,
        AddressSize::Eight => sum,
    }
}

/// The address that is written at an offset, as its distance from `base`.
#[inline(always)]
fn read_address(bytes: &[u8], target: Target, base: u64, at: usize) -> u64
    requires { at + 4 ≤ length bytes.now }
    ensures { result ≡ address_at target base bytes.now at }
{
    address_from(target, base, read_word(bytes, target, at))
}

/// A guess of the index of the entry for an address that is `key` after the header, in a table
/// whose numbers are little-endian: nothing says that it is right, and it must be checked. It
/// compares the numbers as they are written, and adds the results of comparisons instead of
/// branching, since each branch would be mispredicted about half of the time.
#[inline(always)]
fn guess_entry(entries: &[u8], count: u32, key: i64) -> u32
    requires { 8 * count ≤ length entries.now }
{
    let mut low = 0;
    let mut size = count;
    while size > 1 {
        let half = size / 2;
        let place = 8 * (low + half) as usize;
        let distance = i64::from(LittleEndian::read_i32(&entries[place..]));
        low += half * u32::from(distance <= key);
        size -= half;
    }
    low
}

impl<'a> SearchTable<'a> {
    ghost use Rattle.std.specs.Prelude.{ℕ, ◌≡◌, ◌+◌, ◌<◌, ◌≤◌, ◌↔◌, IsTrue, MatchOption, None, Some, option_map};
    ghost use Rattle.std.specs.Bool.{OnTrue};
    ghost use Rattle.dw_in_place.specs.SearchTables.{Finds, IsEntryFor, IsInOrder, location_in, record_in, table_in};
    ghost use Rattle.dw_in_place.specs.Views.{table_of};

    /// The table of an `.eh_frame_hdr` section that lies at `address`; more bytes may follow it.
    /// `None` if it isn't encoded as linkers write it (version 1, and the encodings 0x1b, 0x03 and
    /// 0x3b), or if there are fewer bytes than its entries take. It takes constant time.
    pub fn read(bytes: &'a [u8], target: Target, address: u64) -> Option<Self>
        ensures { option_map table_of result ≡ table_in target address bytes.now }
    {
        if !is_usual_header(bytes) {
            return None;
        }
        if bytes.len() < 12 {
            return None;
        }
        let count = read_word(bytes, target, 8);
        if (bytes.len() as u64) < 12 + 8 * u64::from(count) {
            return None;
        }
        Some(SearchTable {
            bytes,
            target,
            address,
            frame_address: read_address(bytes, target, address.wrapping_add(4), 4),
            count,
        })
    }

    /// How the numbers of the section are read.
    pub fn target(&self) -> Target
        ensures { result ≡ (table_of self.now).target }
    {
        self.target
    }

    /// The address of the `.eh_frame` section, as the header has it.
    pub fn frame_address(&self) -> u64
        ensures { result ≡ (table_of self.now).frame_address }
    {
        self.frame_address
    }

    /// The number of entries.
    pub fn count(&self) -> u32
        ensures { result ≡ (table_of self.now).count }
    {
        self.count
    }

    /// The first address of the FDE that the entry at an index is for, as the table has it.
    #[inline(always)]
    pub fn location(&self, entry: u32) -> u64
        requires { entry < (table_of self.now).count }
        ensures { result ≡ location_in (table_of self.now) entry }
    {
        read_address(
            self.bytes,
            self.target,
            self.address,
            12 + 8 * entry as usize,
        )
    }

    /// The address of the record that the entry at an index names.
    #[inline(always)]
    pub fn record_address(&self, entry: u32) -> u64
        requires { entry < (table_of self.now).count }
        ensures { result ≡ record_in (table_of self.now) entry }
    {
        read_address(
            self.bytes,
            self.target,
            self.address,
            16 + 8 * entry as usize,
        )
    }

    /// The index of the entry for an address: the entry begins at that address or before it, and
    /// the next one begins after it. `None` if there are no entries, or if the first one begins
    /// after the address. In a table that is in order it is the last entry that begins at the
    /// address or before it (law `one_entry_in_order`). In another one an address may have several,
    /// and each call may find another. It is found by binary search, in O(log n) for n entries.
    #[inline(always)]
    pub fn entry_for_address(&self, address: u64) -> Option<u32>
        ensures { Finds (table_of self.now) address result }
    {
        if self.target.order == Order::Little {
            let key = address.wrapping_sub(self.address).cast_signed();
            let guess = guess_entry(&self.bytes[12..], self.count, key);
            if self.is_entry_for(guess, address) {
                return Some(guess);
            }
        }
        self.search(address)
    }

    /// Whether an entry is that of an address.
    #[inline(always)]
    fn is_entry_for(&self, entry: u32, address: u64) -> bool
        ensures { OnTrue result (IsEntryFor (table_of self.now) address entry) }
    {
        if entry >= self.count {
            return false;
        }
        if self.location(entry) > address {
            return false;
        }
        if entry + 1 < self.count && self.location(entry + 1) <= address {
            return false;
        }
        true
    }

    /// What `entry_for_address` returns, by a search that reads entries of any order as addresses.
    #[inline(never)]
    fn search(&self, address: u64) -> Option<u32>
        ensures { Finds (table_of self.now) address result }
    {
        if self.count == 0 {
            return None;
        }
        if address < self.location(0) {
            return None;
        }
        let mut low = 0;
        let mut size = self.count;
        while size > 1 {
            let half = size / 2;
            if self.location(low + half) <= address {
                low += half;
                size -= half;
            } else {
                size = half;
            }
        }
        Some(low)
    }

    /// The address of the record that the table names for an address, in an entry that is one for
    /// the address (`entry_for_address`). Nothing says that an FDE is there, or that it covers the
    /// address.
    pub fn record_for_address(&self, address: u64) -> Option<u64>
        ensures { MatchOption result (Finds (table_of self.now) address None) (λ place. (k : ℕ)
            × IsEntryFor (table_of self.now) address k × (place ≡ record_in (table_of self.now) k)) }
    {
        let entry = self.entry_for_address(address)?;
        Some(self.record_address(entry))
    }

    /// Whether the entries are in order of their first addresses, as linkers write them. It goes
    /// through all of them.
    pub fn is_in_order(&self) -> bool
        ensures { IsTrue result ↔ IsInOrder (table_of self.now) }
    {
        if self.count == 0 {
            return true;
        }
        let mut last = self.location(0);
        for entry in 1..self.count {
            let location = self.location(entry);
            if location < last {
                return false;
            }
            last = location;
        }
        true
    }
}
