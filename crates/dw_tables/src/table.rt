//! All rows of a checked section in order of address, compiled into a table that makes look-ups
//! fast.

ghost use Rattle.std.specs.Prelude.{◌≡◌, ◌+◌, ◌*◌, ◌≤◌, ◌<◌, ◌⊎◌, List, IfOk, IfErr, IfSome, IfNone, Some, length};
ghost use Rattle.std.specs.Option.{option_map};
ghost use Rattle.std.specs.List.{sum_by};
ghost use Rattle.dw_tables.specs.UnwindTables.{row_at, expression_bytes, table_bytes, IsTableOf};
ghost use Rattle.dw_frame.specs.Records.{Cie, Fde};
ghost use Rattle.dw_rules.specs.Expressions.{cie_expressions};
ghost use Rattle.dw_rows.specs.Listing.{AreCounted};
ghost use Rattle.dw_rows.specs.Section.{IsChecked};
ghost use Rattle.dw_rows.specs.RowLookups.{IsRowUnder};
ghost use Rattle.dw_tables.specs.CompiledTable.{LacksRoom};

use crate::expression_copies::copy_expressions;
use crate::stored_table::StoredTable;
use crate::table_entries::NO_HINT;
use crate::table_room::Unmade;
use dw_bytes::{Fault, FaultKind, OUT_OF_MEMORY, Target};
use dw_rows::{CheckedFrame, NOT_COUNTED, UncheckedFrame};
use dw_rules::{OwnedExpressions, RowExpressions, UnwindRow};
use std::alloc::{AllocError, Global};
use std::marker::Model;

/// All rows of a checked section in order of address, each with its return address register.
/// `UnwindTable::compile` makes the table.
///
/// The table borrows nothing: it owns a copy of the bytes of the few expressions in its rules, so
/// the section may be dropped. A look-up reads a few array elements, where a look-up in a checked
/// section has to run a program.
///
/// ```rust
/// let Some(table) = UnwindTable::compile(alloc, &frame, 1 << 20)? else {
///     return Ok(()); // it takes more than that
/// };
/// if let Some(row) = table.row_for_address(0x1004) {
///     println!(rt; "{:#x}..{:#x}", row.start_address(), row.end_address())?;
/// }
/// ```
#[derive(Drop)]
pub struct UnwindTable {
    target: Target,
    stored_table: StoredTable,
    expressions: OwnedExpressions,
}

impl Model for UnwindTable {
    ghost use Rattle.dw_tables.specs.UnwindTables.{RowTable};

    ghost Value = { RowTable };

    ghost use Rattle.std.specs.Prelude.{◌+◌, All, Contains, map};
    ghost use Rattle.std.specs.List.{sum_by};
    ghost use Rattle.dw_stack.specs.Located.{LocatedExpression};
    ghost use Rattle.dw_tables.specs.UnwindTables.{expression_bytes};
    ghost use Rattle.dw_rows.specs.RowLookups.{IsUnder};
    ghost use Rattle.dw_tables.specs.CompiledTable.{LendsFound, found_with_expressions};

    ghost view = { λ t. record {
      target = t.target;
      rows = map (found_with_expressions t.expressions) t.stored_table.rows;
      bytes = t.stored_table.bytes + sum_by expression_bytes t.expressions;
    } };

    ghost invariant = { λ t. All (LendsFound t.expressions) t.stored_table.rows
        × ((e : LocatedExpression) → Contains t.expressions e → IsUnder t.target e) };
}

/// For each of `count` FDEs: its rows aren't counted.
fn none_counted(alloc: Global, count: usize) -> Result<Vec<u32>, AllocError>
    ensures { IfOk result (λ counted. (cies : List Cie) (fdes : List Fde) → AreCounted cies fdes counted.items) }
{
    let mut counted = Vec::with_capacity(alloc, count)?;
    for _ in 0..count {
        counted.push(NOT_COUNTED)?;
    }
    Ok(counted)
}

impl UnwindTable {
    /// Compiles the rows of all FDEs of a checked section into a table, which makes millions of
    /// look-ups cheap. The table borrows nothing, so the section may be dropped.
    ///
    /// `room` bounds what the table stores, counted as 16 bytes for each entry (each row has one,
    /// and so has each gap after a row), 64 for each rule set and 16 for each of its register
    /// rules, and 24 for each expression and its length (clause `stored`). Each row of the table
    /// and each expression of the section is counted (clause `counted`). The arrays of the table
    /// hold nothing else, except for 8 bytes, which are two counts of a look-up's search blocks, and
    /// for spare capacity, at most one element for 16 (this isn't proved). While the table is made,
    /// more memory is in use that isn't counted: the rule sets that the programs pass through, up
    /// to 600 KB by which rule sets and steps are found again, spare capacity, and copies of the rule
    /// sets and the expressions, which are cut to their size.
    ///
    /// `Ok(None)` means that the sum would be more than `room`, and that no table was made. The
    /// rows of a section of N bytes may take 700 times N bytes. The result is never `Ok(None)` if
    /// `room` is at least 80 bytes for each row, 16 for each register rule of each row, 80 for each
    /// FDE, 24 for each expression and its length, and 80 more (clause `none`). That is enough even
    /// if no rows share rules, so a body that never shares rules meets the contract. That rows
    /// share rules is tested, not proved.
    ///
    /// The only fault is `Memory`, with offset 0. It also comes if the rule sets that the programs
    /// pass through, between rows too, would take more than `room` and more than 64 MB. Each FDE's
    /// program is read once. Compiling takes O(n log n) time, where n is the number of bytes of the
    /// programs and of rows.
    pub fn compile(
        alloc: Global,
        frame: &CheckedFrame<'_>,
        room: usize,
    ) -> Result<Option<Self>, Fault>
        ensures table { IfOk result (λ made. IfSome made (IsTableOf frame.now)) }
        ensures room { IfOk result
            (λ made. IfSome made (λ table. 16 * length table.rows ≤ room)) }
        ensures counted { IfOk result (λ made. IfSome made (λ table. 16 * length table.rows
            + sum_by expression_bytes frame.now.expressions ≤ table.bytes)) }
        ensures stored { IfOk result (λ made. IfSome made (λ table. table.bytes ≤ room)) }
        ensures none { IfOk result (λ made. IfNone made (room < table_bytes frame.now)) }
        ensures memory { IfErr result (λ fault. fault ≡ OUT_OF_MEMORY) }
    {
        match UnwindTable::of(frame, alloc, room) {
            Ok(table) => Ok(Some(table)),
            Err(Unmade::Room) => Ok(None),
            Err(Unmade::Memory) => Err(OUT_OF_MEMORY),
        }
    }

    /// Compiles a checked section into a table that stores at most `room` bytes. The expressions
    /// are copied first, and the rows may take what is left of the room.
    fn of(frame: &CheckedFrame<'_>, alloc: Global, room: usize) -> Result<Self, Unmade>
        ensures table { IfOk result (IsTableOf frame.now) }
        ensures room { IfOk result (λ table. 16 * length table.rows ≤ room) }
        ensures counted { IfOk result (λ table. 16 * length table.rows
            + sum_by expression_bytes frame.now.expressions ≤ table.bytes) }
        ensures stored { IfOk result (λ table. table.bytes ≤ room) }
        ensures short { IfErr result (λ why. LacksRoom why room (table_bytes frame.now)) }
    {
        let mut left = room;
        let expressions = copy_expressions(alloc, &frame.borrowed(), &mut left)?;
        let stored_table = StoredTable::of(frame, alloc, left)?;
        Ok(UnwindTable {
            target: frame.target(),
            stored_table,
            expressions,
        })
    }

    /// Checks the programs of a listed section's FDEs while it compiles their rows, and returns the
    /// checked section and its table. An FDE's program is run once, where `check_records` and then
    /// `compile` run it twice; one with expressions is run twice here, too. `None` if a program has a
    /// fault, or if the table may need more than `room` bytes; `check_records` and `compile` tell
    /// which.
    ///
    /// `room` is that of `compile`. Time and memory are, too, but at first the table gets memory for
    /// more entries than most sections have, 1.5 bytes for a byte of the section, and there are four
    /// bytes more for each FDE. A section with a fault may take as much before the fault is found. The
    /// only fault is `Memory`, with offset 0.
    pub fn check_and_compile<'a>(
        alloc: Global,
        frame: UncheckedFrame<'a>,
        room: usize,
    ) -> Result<Option<(CheckedFrame<'a>, Self)>, Fault>
        requires { frame.checked ≡ cie_expressions frame.listed.cies }
        ensures frame { IfOk result (λ made. IfSome made (λ both. both.0 ≡ frame.entry.listed)) }
        ensures checked { IfOk result (λ made. IfSome made (λ both. IsChecked frame.entry.listed)) }
        ensures table { IfOk result (λ made. IfSome made (λ both. IsTableOf frame.entry.listed both.1)) }
        ensures room { IfOk result
            (λ made. IfSome made (λ both. 16 * length both.1.rows ≤ room)) }
        ensures counted { IfOk result (λ made. IfSome made (λ both. 16 * length both.1.rows
            + sum_by expression_bytes frame.entry.listed.expressions ≤ both.1.bytes)) }
        ensures stored { IfOk result (λ made. IfSome made (λ both. both.1.bytes ≤ room)) }
        ensures none { IfOk result (λ made. IfNone made ((room < table_bytes frame.entry.listed)
            ⊎ (IsChecked frame.entry.listed → ⊥))) }
        ensures memory { IfErr result (λ fault. fault ≡ OUT_OF_MEMORY) }
    {
        match UnwindTable::of_listed(frame, alloc, room) {
            Ok(made) => Ok(made),
            Err(Unmade::Room) => Ok(None),
            Err(Unmade::Memory) => Err(OUT_OF_MEMORY),
        }
    }

    /// Checks and compiles a listed section into a table that stores at most `room` bytes. The rows come
    /// first, and the expressions may take what is left of the room.
    fn of_listed<'a>(
        frame: UncheckedFrame<'a>,
        alloc: Global,
        room: usize,
    ) -> Result<Option<(CheckedFrame<'a>, Self)>, Unmade>
        requires { frame.checked ≡ cie_expressions frame.listed.cies }
        ensures frame { IfOk result (λ made. IfSome made (λ both. both.0 ≡ frame.entry.listed)) }
        ensures checked { IfOk result (λ made. IfSome made (λ both. IsChecked frame.entry.listed)) }
        ensures table { IfOk result (λ made. IfSome made (λ both. IsTableOf frame.entry.listed both.1)) }
        ensures room { IfOk result
            (λ made. IfSome made (λ both. 16 * length both.1.rows ≤ room)) }
        ensures counted { IfOk result (λ made. IfSome made (λ both. 16 * length both.1.rows
            + sum_by expression_bytes frame.entry.listed.expressions ≤ both.1.bytes)) }
        ensures stored { IfOk result (λ made. IfSome made (λ both. both.1.bytes ≤ room)) }
        ensures none { IfOk result (λ made. IfNone made (IsChecked frame.entry.listed → ⊥)) }
        ensures short { IfErr result (λ why. LacksRoom why room (table_bytes frame.entry.listed)) }
    {
        let UncheckedFrame { listed, checked } = frame;
        let mut counted = none_counted(alloc, listed.fdes().len())?;
        let rows = StoredTable::of_listed(&listed, alloc, room, &mut counted)?;
        let Some((stored_table, mut left)) = rows else {
            return Ok(None);
        };
        let frame = match listed.into_checked(checked, &counted) {
            Ok(frame) => frame,
            Err(fault) if fault.kind == FaultKind::Memory => return Err(Unmade::Memory),
            Err(_) => return Ok(None),
        };
        let expressions = copy_expressions(alloc, &frame.borrowed(), &mut left)?;
        let target = frame.target();
        let table = UnwindTable {
            target,
            stored_table,
            expressions,
        };
        Ok(Some((frame, table)))
    }

    /// The target that the section was read with.
    pub fn target(&self) -> Target
        ensures { result ≡ self.now.target }
    {
        self.target
    }

    /// The row of an address and the return address register that its CIE names, or `None` if no
    /// FDE covers the address. The row's rules and expressions are borrowed from the table. A
    /// look-up allocates no memory, and takes O(log n) steps for n rows, usually only a few.
    #[inline(always)]
    pub fn row_and_return_register(&self, address: u64) -> Option<(UnwindRow<'_, '_>, u16)>
        ensures row { result ≡ row_at self.now address }

        // The row's expressions have the table's target.
        ensures under { IfSome result (λ found. IsRowUnder self.now.target found.0) }
    {
        let mut hint = NO_HINT;
        self.row_and_return_register_near(address, &mut hint)
    }

    /// What `row_and_return_register` returns. `hint` says where the table may have the row: it is
    /// what an earlier look-up left there, or any other number. If it is right, as it usually is
    /// for an address that was looked up before, no search is needed. If not, a search follows, and
    /// `hint` becomes the right one.
    #[inline(always)]
    pub fn row_and_return_register_near(
        &self,
        address: u64,
        hint: &mut u32,
    ) -> Option<(UnwindRow<'_, '_>, u16)>
        ensures row { result ≡ row_at self.now address }

        // The row's expressions have the table's target.
        ensures under { IfSome result (λ found. IsRowUnder self.now.target found.0) }
    {
        let expressions = RowExpressions::Owned(&self.expressions);
        self.stored_table.find(address, hint, expressions)
    }

    /// What `row_and_return_register` returns, for nearly all rows that compilers write for x86-64:
    /// a search of few steps finds the row, its CFA is a register plus an offset, and each rule
    /// says that a register is saved relative to the CFA. After `None`, ask
    /// `row_and_return_register`: there may be a row. All that this calls is inlined, so a caller
    /// that asks here first saves no registers for a call.
    #[inline(always)]
    pub fn usual_row_and_return_register(&self, address: u64) -> Option<(UnwindRow<'_, '_>, u16)>
        ensures row { IfSome result (λ found. row_at self.now address ≡ Some found) }
        ensures under { IfSome result (λ found. IsRowUnder self.now.target found.0) }
    {
        let expressions = RowExpressions::Owned(&self.expressions);
        self.stored_table.find_usual(address, expressions)
    }

    /// The row of an address, or `None` if no FDE covers the address. The row's rules and
    /// expressions are borrowed from the table.
    #[inline(always)]
    pub fn row_for_address(&self, address: u64) -> Option<UnwindRow<'_, '_>>
        ensures row { result ≡ option_map (λ found. found.0) (row_at self.now address) }
    {
        match self.row_and_return_register(address) {
            Some((row, _)) => Some(row),
            None => None,
        }
    }
}
