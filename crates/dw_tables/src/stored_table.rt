//! All rows of a section in order of address, as a compiled table stores them. The rules refer to
//! an expression by its offset in the section.

ghost use Rattle.std.specs.Prelude.{◌≡◌, ◌≢◌, ◌+◌, ◌*◌, ◌<◌, ◌≤◌, ℕ, [], Contains, IfOk, IfErr, IfNone, IfSome, Some, All, find, length, slice_index_or};
ghost use Rattle.std.specs.Option.{option_map};
ghost use Rattle.dw_frame.specs.Views.{cie_of, fde_of};
ghost use Rattle.dw_rules.specs.RowExpressions.{row_expressions};
ghost use Rattle.dw_rows.specs.Listing.{AreCounted, IsCounted, IsListed, not_counted};
ghost use Rattle.dw_tables.specs.NumberedPrograms.{BeganWith};
ghost use Rattle.dw_tables.specs.UnwindTables.{has, fde_bytes, all_rows_bytes};
ghost use Rattle.dw_tables.specs.CompiledTable.{IsTableUpTo, IsClosedAt, IsBegunAt, IsFilled, AreAllRows, ArePlacedRows, AreEntries, HasFaulty, IsFaulty, rows_to};
ghost use Rattle.dw_tables.specs.CompiledTable.{IsSpanOf, LendsFound, found_with_expressions, LacksRoom, stored_bytes};

use crate::chosen_sets::ROW_ROOM;
use crate::fde_rows::append_rows;
use crate::numbered_program::NumberedProgram;
use crate::rule_sets::RuleSets;
use crate::table_entries::{EntrySpan, TableEntries, TableEntry};
use crate::table_room::Unmade;
use dw_frame::{CommonInformationEntry, FrameDescriptionEntry};
use dw_rows::{CheckedExpressions, CheckedFrame, ListedFrame, NOT_COUNTED};
use dw_rules::{RowExpressions, UnwindRow, UnwindState};
use std::alloc::{AllocError, Global};
use std::marker::Model;

/// Few sections have more than one row for this many bytes. A table that is filled while its section is
/// checked begins with room for one row for each `ROW_BYTES`, so it rarely has to grow.
const ROW_BYTES: usize = 4;

/// A compiled table while it is being filled.
#[derive(Drop)]
pub struct GrowingTable {
    pub entries: TableEntries,
    pub numbers: NumberedProgram,
    /// The address after the last one that the rows so far cover.
    pub end: u64,
}

impl GrowingTable {
    /// Appends an entry without rules at `end`: no row covers the addresses from there on. If the
    /// table has no entries, none is appended.
    #[inline(always)]
    fn close(&mut self) -> Result<(), Unmade>
        ensures closed { IfOk result (λ _. IsClosedAt self.old.end self.old.entries
            self.old.numbers.sets self.new.entries self.new.numbers.sets) }
        ensures stored { IfOk result (λ _.
            stored_bytes self.new.entries self.new.numbers.sets + self.new.numbers.room
            ≤ stored_bytes self.old.entries self.old.numbers.sets + self.old.numbers.room) }
        ensures spent { IfOk result (λ _. self.old.numbers.room ≤ self.new.numbers.room + 80) }
        ensures short { IfErr result (λ why. LacksRoom why self.old.numbers.room 80) }
        ensures state { self.new.numbers.state ≡ self.old.numbers.state }
        ensures register { self.new.numbers.register ≡ self.old.numbers.register }
    {
        if self.entries.count() == 0 {
            return Ok(());
        }
        let set = self.numbers.choose_empty()?;
        self.entries.push(TableEntry {
            start: self.end,
            set,
        })?;
        Ok(())
    }

    /// Prepares for a row that begins at `start`. If the last row ends before that, the gap gets an
    /// entry without rules.
    #[inline(always)]
    fn begin_at(&mut self, start: u64) -> Result<(), Unmade>
        ensures begun { IfOk result (λ _. IsBegunAt self.old.end start self.old.entries
            self.old.numbers.sets self.new.entries self.new.numbers.sets) }
        ensures stored { IfOk result (λ _.
            stored_bytes self.new.entries self.new.numbers.sets + self.new.numbers.room
            ≤ stored_bytes self.old.entries self.old.numbers.sets + self.old.numbers.room) }
        ensures spent { IfOk result (λ _. self.old.numbers.room ≤ self.new.numbers.room + 80) }
        ensures short { IfErr result (λ why. LacksRoom why self.old.numbers.room 80) }
        ensures state { self.new.numbers.state ≡ self.old.numbers.state }
        ensures register { self.new.numbers.register ≡ self.old.numbers.register }
    {
        if self.end == start {
            return Ok(());
        }
        self.close()?;
        Ok(())
    }
}

/// How many rows an FDE has, if its program has no expressions, and the number isn't too large.
#[inline(always)]
fn rows_if_plain(checked: &CheckedExpressions<'_>, rows: usize) -> u32
    ensures counted { result ≢ not_counted → (checked.now ≡ []) × (rows ≡ result) }
    ensures plain { checked.now ≡ [] → rows < not_counted → result ≡ rows }
{
    if checked.count() > 0 {
        return NOT_COUNTED;
    }
    u32::try_from(rows).unwrap_or(NOT_COUNTED)
}

/// Checks the program of one more FDE, and appends its rows. The FDE must not begin below `table.end`,
/// where the rows so far end. `last`, `near` and `spare` are those of `NumberedProgram::begin_fde`, and
/// `checked` may have any expressions. `None` if the program has a fault; then the table is of no use.
/// Otherwise the result is how many rows the FDE has, or `NOT_COUNTED`.
fn fill<'a>(
    frame: &ListedFrame<'a>,
    fde: &FrameDescriptionEntry<'a>,
    table: &mut GrowingTable,
    last: &mut Option<CommonInformationEntry<'a>>,
    near: &mut usize,
    checked: &mut CheckedExpressions<'a>,
    spare: &mut UnwindState,
) -> Result<Option<u32>, Unmade>
    requires listed { IsListed frame.now }
    requires among { Contains frame.now.fdes (fde_of fde.now) }
    requires last { IfSome last.old (λ cie. BeganWith frame.now table.old.numbers (cie_of cie)) }
    requires table { IsTableUpTo frame.now.expressions table.old.end
        table.old.entries table.old.numbers.sets }
    requires order { table.old.end ≤ fde.now.initial_location }
    ensures filled { IfOk result (λ found. IfSome found (λ _. IsFilled frame.now (fde_of fde.now) table.old.end
        table.old.entries table.old.numbers.sets table.new.entries table.new.numbers.sets)) }
    ensures counted { IfOk result (λ found. IfSome found (λ rows. rows ≢ not_counted
        → IsCounted frame.now.cies (fde_of fde.now) rows)) }
    ensures refused { IfOk result (λ found. IfNone found (IsFaulty frame.now.cies (fde_of fde.now))) }
    ensures end { IfOk result (λ found. IfSome found (λ _. table.new.end
        ≡ fde.now.initial_location + fde.now.address_range)) }
    ensures last { IfOk result (λ found. IfSome found (λ _. IfSome last.new
        (λ cie. BeganWith frame.now table.new.numbers (cie_of cie)))) }
    ensures stored { IfOk result (λ _.
        stored_bytes table.new.entries table.new.numbers.sets + table.new.numbers.room
        ≤ stored_bytes table.old.entries table.old.numbers.sets + table.old.numbers.room) }
    ensures spent { IfOk result (λ found. IfSome found (λ _. table.old.numbers.room
        ≤ table.new.numbers.room + fde_bytes frame.now (fde_of fde.now))) }
    ensures short { IfErr result (λ why. LacksRoom why table.old.numbers.room
        (fde_bytes frame.now (fde_of fde.now))) }
{
    table.begin_at(fde.initial_location)?;
    let cie = table.numbers.begin_fde(frame, fde, last, near, spare)?;
    checked.clear();
    let before = table.entries.count();
    let numbers = &mut table.numbers;
    if !append_rows(&mut table.entries, numbers, checked, &cie, fde, spare)? {
        return Ok(None);
    }
    table.end = fde.initial_location + fde.address_range;
    Ok(Some(rows_if_plain(checked, table.entries.count() - before)))
}

/// How many entries a new table allocates: about one for each row, one for the end of each FDE, and one
/// more, but no more than `room` allows. A number that is too small costs time, and one that is too
/// large costs memory.
fn most_entries(frame: &ListedFrame<'_>, rows: usize, room: usize) -> usize {
    rows.saturating_add(frame.fdes().len())
        .saturating_add(1)
        .min(room / ROW_ROOM)
}

/// An empty table for the rows of a section's FDEs, which have about `rows` rows.
fn empty_table(
    alloc: Global,
    frame: &ListedFrame<'_>,
    rows: usize,
    room: usize,
) -> Result<GrowingTable, AllocError>
    ensures entries { IfOk result (λ table. table.entries ≡ []) }
    ensures sets { IfOk result (λ table. table.numbers.sets ≡ []) }
    ensures room { IfOk result (λ table. table.numbers.room ≡ room) }
    ensures end { IfOk result (λ table. table.end ≡ 0) }
{
    let base = match frame.index().first() {
        Some(first) => first.start,
        None => 0,
    };
    Ok(GrowingTable {
        entries: TableEntries::with_capacity(alloc, base, most_entries(frame, rows, room))?,
        numbers: NumberedProgram::new(alloc, room, rows)?,
        end: 0,
    })
}

/// Sets the number of rows at the index `place`, if `counted` has that index.
#[inline(always)]
fn count_rows(counted: &mut [u32], place: usize, rows: u32)
    ensures length { length counted.new ≡ length counted.old }
    ensures set { (d : ℕ) → place < length counted.old → slice_index_or counted.new place d ≡ rows }
    ensures others { (k d : ℕ) → k ≢ place → slice_index_or counted.new k d ≡ slice_index_or counted.old k d }
{
    if place < counted.len() {
        counted[place] = rows;
    }
}

/// Checks the programs of all FDEs that cover addresses, in order of address, and fills a table with
/// their rows. `None` if a program has a fault. `counted` gets the numbers of rows of FDEs, for as
/// many as it has elements. `rows` is about how many rows there are; it affects time and memory.
fn fill_all(
    alloc: Global,
    frame: &ListedFrame<'_>,
    rows: usize,
    room: usize,
    counted: &mut [u32],
) -> Result<Option<GrowingTable>, Unmade>
    requires counted { AreCounted frame.now.cies frame.now.fdes counted.old }
    ensures counted { IfOk result (λ _. AreCounted frame.now.cies frame.now.fdes counted.new) }
    ensures length { length counted.new ≡ length counted.old }
    ensures entries { IfOk result (λ made. IfSome made (λ table. AreEntries table.entries table.numbers.sets)) }
    ensures rows { IfOk result (λ made. IfSome made (λ table. AreAllRows frame.now
        (rows_to table.numbers.sets table.entries 0))) }
    ensures refused { IfOk result (λ made. IfNone made (HasFaulty frame.now)) }
    ensures stored { IfOk result (λ made. IfSome made (λ table.
        stored_bytes table.entries table.numbers.sets + table.numbers.room ≤ room)) }
    ensures spent { IfOk result (λ made. IfSome made (λ table. room
        ≤ table.numbers.room + all_rows_bytes frame.now)) }
    ensures short { IfErr result (λ why. LacksRoom why room (all_rows_bytes frame.now)) }
{
    let mut table = empty_table(alloc, frame, rows, room)?;
    let mut spare = UnwindState::new();
    let mut checked = CheckedExpressions::new(alloc);
    let mut last = None;
    let mut near = 0;
    let fdes = frame.fdes();
    let index = frame.index();
    for entry in index {
        let fde = &fdes[entry.place];
        let Some(count) = fill(
            frame,
            fde,
            &mut table,
            &mut last,
            &mut near,
            &mut checked,
            &mut spare,
        )?
        else {
            return Ok(None);
        };
        count_rows(counted, entry.place, count);
    }
    table.close()?;
    table.entries.finish(alloc)?;
    Ok(Some(table))
}

/// All rows of a section in order of address, each with its return address register. The rules
/// refer to an expression by its offset in the section. The model has the list of rows, and the
/// number of bytes that the stored entries and rule sets take.
#[derive(Drop)]
pub struct StoredTable {
    entries: TableEntries,
    sets: RuleSets,
}

impl Model for StoredTable {
    ghost use Rattle.dw_tables.specs.CompiledTable.{StoredRows};

    ghost Value = { StoredRows };

    ghost use Rattle.dw_tables.specs.CompiledTable.{AreEntries, rows_to, stored_bytes};

    ghost view = { λ t. record {
      rows = rows_to t.sets t.entries 0;
      bytes = stored_bytes t.entries t.sets;
    } };

    ghost invariant = { λ t. AreEntries t.entries t.sets };
}

/// The row of the entry that has `address`, and its return address register. None if the entry's
/// rule set has no CFA rule: then no row covers the address. `span` is the entry's, and says where
/// the row begins and ends.
#[inline(always)]
fn row_of_span<'t, 'a>(
    entries: &TableEntries,
    sets: &'t RuleSets,
    address: u64,
    span: EntrySpan,
    expressions: RowExpressions<'t, 'a>,
) -> Option<(UnwindRow<'t, 'a>, u16)>
    requires entries { AreEntries entries.now sets.now }
    requires span { IsSpanOf entries.now address span }
    requires lends { All (LendsFound (row_expressions expressions))
        (rows_to sets.now entries.now 0) }
    ensures { result ≡ option_map (found_with_expressions (row_expressions expressions.entry))
        (find (has address) (rows_to sets.now entries.now 0)) }
{
    let (lent, register) = sets.lend(span.set as usize);
    let row = UnwindRow::new(
        span.start,
        span.end,
        lent.cfa?,
        lent.entries,
        lent.plain_below,
        expressions,
    );
    Some((row, register))
}

impl StoredTable {
    /// Compiles the rows of a checked section into at most `room` bytes. Spare capacity of arrays
    /// isn't counted.
    pub fn of(frame: &CheckedFrame<'_>, alloc: Global, room: usize) -> Result<Self, Unmade>
        ensures rows { IfOk result (λ table. ArePlacedRows frame.now table.rows) }
        ensures few { IfOk result (λ table. 16 * length table.rows ≤ table.bytes) }
        ensures stored { IfOk result (λ table. table.bytes ≤ room) }
        ensures short { IfErr result (λ why. LacksRoom why room (all_rows_bytes frame.now)) }
    {
        let rows = usize::try_from(frame.row_count()).unwrap_or(usize::MAX);
        match fill_all(alloc, frame.listed(), rows, room, &mut [])? {
            Some(table) => Ok(StoredTable::finish(table, alloc)?),
            None => unreachable!(),
        }
    }

    /// Checks the programs of a listed section's FDEs that cover addresses, and compiles their rows into
    /// at most `room` bytes. `None` if a program has a fault. Otherwise the result is the table, and how
    /// much of the room is left. `counted` is that of `fill_all`.
    pub fn of_listed(
        frame: &ListedFrame<'_>,
        alloc: Global,
        room: usize,
        counted: &mut [u32],
    ) -> Result<Option<(Self, usize)>, Unmade>
        requires counted { AreCounted frame.now.cies frame.now.fdes counted.old }
        ensures counted { IfOk result (λ _. AreCounted frame.now.cies frame.now.fdes counted.new) }
        ensures length { length counted.new ≡ length counted.old }
        ensures rows { IfOk result (λ made. IfSome made (λ found. AreAllRows frame.now found.0.rows)) }
        ensures few { IfOk result (λ made. IfSome made (λ found. 16 * length found.0.rows ≤ found.0.bytes)) }
        ensures stored { IfOk result (λ made. IfSome made (λ found. found.0.bytes + found.1 ≤ room)) }
        ensures spent { IfOk result (λ made. IfSome made (λ found. room ≤ found.1 + all_rows_bytes frame.now)) }
        ensures refused { IfOk result (λ made. IfNone made (HasFaulty frame.now)) }
        ensures short { IfErr result (λ why. LacksRoom why room (all_rows_bytes frame.now)) }
    {
        let rows = frame.section().len() / ROW_BYTES;
        match fill_all(alloc, frame, rows, room, counted)? {
            Some(table) => {
                let left = table.numbers.room();
                Ok(Some((StoredTable::finish(table, alloc)?, left)))
            }
            None => Ok(None),
        }
    }

    /// A table that has been filled.
    fn finish(table: GrowingTable, alloc: Global) -> Result<Self, AllocError>
        requires { AreEntries table.entries table.numbers.sets }
        ensures rows { IfOk result (λ stored. stored.rows
            ≡ rows_to table.numbers.sets table.entries 0) }
        ensures few { IfOk result (λ stored. 16 * length stored.rows ≤ stored.bytes) }
        ensures bytes { IfOk result (λ stored. stored.bytes
            ≡ stored_bytes table.entries table.numbers.sets) }
    {
        let GrowingTable {
            entries,
            numbers,
            ..
        } = table;
        Ok(StoredTable {
            entries,
            sets: numbers.into_sets(alloc)?,
        })
    }

    /// The row of an address and its return address register, or `None` if no row covers the
    /// address. The row's rules and expressions are borrowed. `hint` is that of
    /// `TableEntries::count_up_to_near`.
    #[inline(always)]
    pub fn find<'t, 'a>(
        &'t self,
        address: u64,
        hint: &mut u32,
        expressions: RowExpressions<'t, 'a>,
    ) -> Option<(UnwindRow<'t, 'a>, u16)>
        requires { All (LendsFound (row_expressions expressions)) self.now.rows }
        ensures { result ≡ option_map (found_with_expressions (row_expressions expressions.entry))
            (find (has address) self.now.rows) }
    {
        let after = self.entries.count_up_to_near(address, hint);
        if after == 0 || after == self.entries.count() {
            return None;
        }
        let entry = self.entries.at(after - 1);
        let (lent, register) = self.sets.lend(entry.set as usize);
        match lent.cfa {
            Some(cfa) => {
                let end = self.entries.start_at(after);
                Some((
                    UnwindRow::new(
                        entry.start,
                        end,
                        cfa,
                        lent.entries,
                        lent.plain_below,
                        expressions,
                    ),
                    register,
                ))
            }
            None => None,
        }
    }

    /// What `find` returns, if a search of few steps finds the row, and its rule set is a usual one
    /// (`RuleSets::is_usual`); otherwise none. Nearly all rows that compilers write for x86-64 are
    /// usual. All that this calls is inlined, so a caller saves no registers for calls.
    #[inline(always)]
    pub fn find_usual<'t, 'a>(
        &'t self,
        address: u64,
        expressions: RowExpressions<'t, 'a>,
    ) -> Option<(UnwindRow<'t, 'a>, u16)>
        requires { All (LendsFound (row_expressions expressions)) self.now.rows }
        ensures { IfSome result (λ found. Some found
            ≡ option_map (found_with_expressions (row_expressions expressions.entry))
            (find (has address) self.now.rows)) }
    {
        let span = self.entries.usual_span(address)?;
        if !self.sets.is_usual(span.set as usize) {
            return None;
        }
        row_of_span(&self.entries, &self.sets, address, span, expressions)
    }
}
