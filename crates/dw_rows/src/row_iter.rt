//! The iterator over the rows of an FDE.

ghost use Rattle.std.specs.Prelude.{◌≡◌, None};
ghost use Rattle.dw_frame.specs.Views.{cie_of, fde_of};
ghost use Rattle.dw_rules.specs.ProgramFault.{fde_fault};
ghost use Rattle.dw_rows.specs.UnwindRows.{rows_of};

use crate::checked_frame::CheckedFrame;
use crate::row_cursor::{begin_rows, begin_rows_at, next_range};
use dw_frame::{CommonInformationEntry, FrameDescriptionEntry, Instructions};
use dw_rules::{RowExpressions, UnwindContext, UnwindState, UnwindTableRow};
use std::iter::FusedIterator;
use std::marker::Model;

/// An iterator over the rows of an FDE, in order of address. It runs the FDE's program from one row
/// to the next, and allocates no memory. `'f` is the lifetime of the borrow of the checked section,
/// and `'a` is the lifetime of the section's bytes.
#[derive(Drop)]
pub struct Rows<'f, 'a> {
    cie: CommonInformationEntry<'a>,
    /// The index of `cie` among the section's CIEs. The search for the next FDE's CIE begins there.
    near: usize,
    fde: FrameDescriptionEntry<'a>,
    context: UnwindContext,
    instructions: Instructions<'a>,
    expressions: RowExpressions<'f, 'a>,
    given: u64,
}

impl<'f, 'a> Model for Rows<'f, 'a> {
    ghost use Rattle.std.specs.Prelude.{List, drop, map, ◌+◌};
    ghost use Rattle.dw_rules.specs.Rules.{Row};

    ghost Value = { List Row };

    ghost use Rattle.dw_frame.specs.Views.{cie_of, fde_of};
    ghost use Rattle.dw_rows.specs.UnwindRows.{rows_of};
    ghost use Rattle.dw_rules.specs.RowsWithExpressions.{row_with_expressions};
    ghost use Rattle.dw_rules.specs.RowExpressions.{row_expressions};
    ghost use Rattle.dw_rows.specs.RowCursors.{cursor_at, IsReady, Lends};

    ghost view = { λ r. map (row_with_expressions (row_expressions r.expressions))
        (drop r.given (rows_of (cie_of r.cie) (fde_of r.fde))) };

    ghost invariant = { λ r. IsReady (cie_of r.cie) (fde_of r.fde)
        (cursor_at (cie_of r.cie) (r.fde.initial_location + r.fde.address_range) r.context r.instructions) r.given × Lends (row_expressions r.expressions) (cie_of r.cie) (fde_of r.fde) };
}

impl<'f, 'a> Rows<'f, 'a> {
    ghost use Rattle.std.specs.Prelude.{◌≡◌, None, Some, [], ◌∷◌, Contains};
    ghost use Rattle.std.specs.Bool.{OnTrue, OnFalse};
    ghost use Rattle.dw_frame.specs.Views.{cie_of, fde_of};
    ghost use Rattle.dw_rules.specs.ProgramFault.{fde_fault};
    ghost use Rattle.dw_rows.specs.UnwindRows.{rows_of};
    ghost use Rattle.dw_rows.specs.Section.{cie_in, rows_in};

    /// The iterator over all rows of an FDE of a checked section.
    #[inline(always)]
    pub(crate) fn of(frame: &'f CheckedFrame<'a>, fde: &FrameDescriptionEntry<'a>) -> Self
        requires { Contains frame.now.fdes (fde_of fde.now) }
        ensures { result ≡ rows_in frame.now (fde_of fde.now) }
    {
        let mut state = UnwindState::new();
        let mut near = 0;
        let cie = frame.begin_with_cie(&mut state, &mut near, fde);
        let instructions = begin_rows_at(&mut state, fde);
        Rows {
            cie,
            near,
            fde: *fde,
            context: UnwindContext::at(state),
            instructions,
            expressions: frame.lent(),
            given: 0,
        }
    }

    /// Restarts the iterator at the first row of another FDE of a checked section, and returns that
    /// FDE's CIE.
    pub(crate) fn restart_in(
        &mut self,
        frame: &'f CheckedFrame<'a>,
        fde: &FrameDescriptionEntry<'a>,
    ) -> CommonInformationEntry<'a>
        requires { Contains frame.now.fdes (fde_of fde.now) }
        ensures rows { self.new ≡ rows_in frame.now (fde_of fde.now) }
        ensures cie { cie_in frame.now (fde_of fde.now) ≡ Some (cie_of result) }
        ensures fde_program { fde_fault (cie_of result) (fde_of fde.now) ≡ None }
    {
        let cie = frame.begin_with_cie(&mut self.context.state, &mut self.near, fde);
        self.instructions = begin_rows(&mut self.context, fde);
        self.cie = cie;
        self.fde = *fde;
        self.expressions = frame.lent();
        self.given = 0;
        cie
    }

    /// Overwrites `row` with the next row, and returns `true`. If no row is left, it returns
    /// `false`, and `row` is unchanged. Only the rules that the next row has are copied, so reusing
    /// one `row` is cheap.
    #[inline(always)]
    pub fn next_into(&mut self, row: &mut UnwindTableRow<'f, 'a>) -> bool
        ensures some { OnTrue result (self.old ≡ row.new ∷ self.new) }
        ensures none { OnFalse result ((self.old ≡ []) × (self.new ≡ []) × (row.new ≡ row.old)) }
    {
        let limit = self.fde.initial_location + self.fde.address_range;
        match next_range(&mut self.context, &mut self.instructions, &self.cie, limit) {
            Some((start, end)) => {
                self.given += 1;
                self.context.write_row(start, end, self.expressions, row);
                true
            }
            None => false,
        }
    }
}

impl<'f, 'a> Iterator for Rows<'f, 'a> {
    type Item = UnwindTableRow<'f, 'a>;

    ghost use Rattle.std.specs.Iterator.{YieldsFirst, item_count};

    ghost next_gives = { YieldsFirst (λ rows. rows) };

    ghost remaining = { item_count (λ rows. rows) };

    #[inline(always)]
    fn next(&mut self) -> Option<UnwindTableRow<'f, 'a>> {
        let mut row = UnwindTableRow::empty();
        if self.next_into(&mut row) {
            Some(row)
        } else {
            None
        }
    }
}

impl<'f, 'a> FusedIterator for Rows<'f, 'a> {}
