//! Reads and checks the tables of a `.debug_loclists` section.

ghost use Rattle.std.specs.Prelude.{◌≡◌, ◌⊎◌, ◌<◌, ◌≤◌, ◌+◌, ◌^◌, List, length, map, IfErr, IfOk, Ok, Err, MatchResult};
ghost use Rattle.dw_bytes.specs.Reading.{MovesForward, ReadsPast, section_from};
ghost use Rattle.dw_bytes.specs.Readers.{IsRefusedWithin, ParsesBy};
ghost use Rattle.dw_bytes.specs.Answers.{memory};
ghost use Rattle.dw_bytes.specs.Fields.{fields_at};
ghost use Rattle.dw_bytes.specs.Sequence.{exactly_of};
ghost use Rattle.dw_loclists.specs.Bounds.{Ascends};
ghost use Rattle.dw_loclists.specs.Lists.{Loclist, Table, table_header};
ghost use Rattle.dw_loclists.specs.Reading.{lists_at, list_offset_at, table_at};
ghost use Rattle.dw_loclists.specs.Stored.{KeepsLists, KeepsTable};
ghost use Rattle.dw_loclists.specs.Views.{start_of};

use crate::find::find_list;
use crate::list::read_list;
use crate::stored_section::{Contents, LocationList};
use dw_bytes::{Body, Cursor, Fault, FaultKind, Format, Target};
use std::alloc::Global;

/// Reads the header fields between a table's length and its offset array. Returns the number of
/// offsets in the array.
pub fn read_header(cursor: &mut Cursor<'_>, target: Target) -> Result<u32, Fault>
    ensures exact { ParsesBy (λ count. count)
        (fields_at (table_header target)) cursor.old result cursor.new }
    ensures within { IsRefusedWithin cursor.old result }
    ensures goes_on { MovesForward cursor.old cursor.new }
{
    let at = cursor.position();
    if cursor.u16()? != 5 {
        return Err(Fault {
            kind: FaultKind::ListVersion,
            at,
        });
    }
    cursor.byte(target.address_size.bytes(), FaultKind::AddressSize)?;
    cursor.byte(0, FaultKind::SegmentSize)?;
    cursor.u32()
}

/// Reads and checks lists up to the end of their table, and stores them in `contents`.
fn read_lists(
    alloc: Global,
    cursor: &mut Cursor<'_>,
    end: u32,
    contents: &mut Contents,
) -> Result<(), Fault>
    requires { end ≡ cursor.old.position + length cursor.old.rest }
    ensures exact { MatchResult result
        (λ _. (lists : List Loclist) × (lists_at cursor.old ≡ Ok lists) ×
        KeepsLists lists contents.old contents.new)
        (λ f. (f ≡ memory) ⊎ (lists_at cursor.old ≡ Err f)) }
    ensures within { IsRefusedWithin cursor.old result }
{
    'lists: while cursor.position() < end {
        let offset = cursor.position();
        read_list(alloc, cursor, end, &mut contents.expressions)?;
        contents.lists.push(LocationList::new(offset))?;
    }
    Ok(())
}

/// Reads a table's offset array, which was skipped before the table's lists were read. Each offset
/// counts from the array's first byte, and must lead to the first byte of a list of the table.
fn check_array(
    cursor: &mut Cursor<'_>,
    format: Format,
    count: u32,
    lists: &[LocationList],
) -> Result<(), Fault>
    requires { Ascends start_of lists.now }
    ensures exact { ReadsPast
        (exactly_of (list_offset_at format cursor.old.position (map start_of lists.now)) count)
        cursor.old result cursor.new }
    ensures within { IsRefusedWithin cursor.old result }
{
    let array = u64::from(cursor.position());
    let mut read = 0;
    'offsets: while read < count {
        let at = cursor.position();
        let offset = cursor.offset(format)?;
        if find_list(lists, array.saturating_add(offset)).is_none() {
            return Err(Fault {
                kind: FaultKind::BadOffsetEntry,
                at,
            });
        }
        read += 1;
    }
    Ok(())
}

/// Reads and checks the table at offset `at` of the section, and stores what it contains in
/// `contents`. Returns the offset of the table's end.
#[tactic(auto, unfolding(crate::specs::Reading::table_at))]
pub fn read_table(
    alloc: Global,
    section: &[u8],
    target: Target,
    at: u32,
    contents: &mut Contents,
) -> Result<u32, Fault>
    requires inside { at < length section.now }
    requires short { length section.now < 2 ^ 32 }
    ensures exact { MatchResult result
        (λ next. (t : Table) ×
        (table_at (section_from target section.now at)
        ≡ Ok (t, section_from target section.now next)) ×
        KeepsTable t contents.old contents.new)
        (λ f. (f ≡ memory) ⊎ (table_at (section_from target section.now at) ≡ Err f)) }
    ensures forward { IfOk result (λ next. at < next × next ≤ length section.now) }
    ensures inside { IfErr result (λ fault. fault.at ≤ length section.now) }
{
    let body = Body::read(section, target, at)?;
    let bytes = &section[..body.end as usize];
    let mut cursor = Cursor::at(bytes, target, body.start);
    let count = read_header(&mut cursor, target)?;
    let mut array = Cursor::at(bytes, target, cursor.position());
    cursor.skip_offsets(body.format, count)?;
    let first = contents.lists.len();
    read_lists(alloc, &mut cursor, body.end, contents)?;
    check_array(&mut array, body.format, count, &contents.lists[first..])?;
    contents.tables.push(at)?;
    Ok(body.end)
}
