//! The iterator over the rows of an FDE that runs the FDE's program in a context of the caller's.

ghost use Rattle.std.specs.Prelude.{◌≡◌, Contains};
ghost use Rattle.dw_frame.specs.Views.{fde_of};

use crate::checked_frame::CheckedFrame;
use crate::row_cursor::{begin_rows, next_range};
use dw_frame::{CommonInformationEntry, FrameDescriptionEntry, Instructions};
use dw_rules::{RowExpressions, UnwindContext, UnwindTableRow};
use std::iter::FusedIterator;
use std::marker::Model;

/// An iterator over the rows of an FDE, in order of address, like `Rows`. The state of the FDE's
/// program, some 40,000 bytes, is in a context of the caller's, which lasts from one iterator to the
/// next. So a new iterator costs about as much as a look-up of its CIE. `'c` is the lifetime of the
/// borrow of the context, `'f` that of the borrow of the checked section, and `'a` that of the
/// section's bytes.
///
/// ```rust
/// let mut context = UnwindContext::new();
/// for fde in frame.fdes() {
///     for row in frame.rows_in(fde, &mut context) {
///         println!(rt; "{:#x}..{:#x}", row.start_address(), row.end_address())?;
///     }
/// }
/// ```
#[derive(Drop)]
pub struct RowsIn<'c, 'f, 'a> {
    context: &'c mut UnwindContext,
    cie: CommonInformationEntry<'a>,
    fde: FrameDescriptionEntry<'a>,
    instructions: Instructions<'a>,
    expressions: RowExpressions<'f, 'a>,
    given: u64,
}

impl<'c, 'f, 'a> Model for RowsIn<'c, 'f, 'a> {
    ghost use Rattle.std.specs.Prelude.{List, drop, map, ◌+◌};
    ghost use Rattle.dw_rules.specs.Rules.{Row};

    ghost Value = { List Row };

    ghost use Rattle.dw_frame.specs.Views.{cie_of, fde_of};
    ghost use Rattle.dw_rows.specs.UnwindRows.{rows_of};
    ghost use Rattle.dw_rules.specs.RowsWithExpressions.{row_with_expressions};
    ghost use Rattle.dw_rules.specs.RowExpressions.{row_expressions};
    ghost use Rattle.dw_rows.specs.RowCursors.{cursor_at, IsReady, Lends};

    ghost view = { λ r. map (row_with_expressions (row_expressions r.expressions))
        (drop r.given (rows_of (cie_of r.cie) (fde_of r.fde))) };

    ghost invariant = { λ r. IsReady (cie_of r.cie) (fde_of r.fde)
        (cursor_at (cie_of r.cie) (r.fde.initial_location + r.fde.address_range) r.context.now r.instructions) r.given × Lends (row_expressions r.expressions) (cie_of r.cie) (fde_of r.fde) };
}

impl<'a> CheckedFrame<'a> {
    ghost use Rattle.dw_rows.specs.Section.{rows_in};

    /// The rows of one of this section's FDEs, as `rows` returns them, by an iterator that keeps the
    /// state of the FDE's program in `context`. Whatever ran in `context` before makes no difference.
    pub fn rows_in<'c, 'f>(
        &'f self,
        fde: &FrameDescriptionEntry<'a>,
        context: &'c mut UnwindContext,
    ) -> RowsIn<'c, 'f, 'a>
        requires { Contains self.now.fdes (fde_of fde.now) }
        ensures { result ≡ rows_in self.now (fde_of fde.now) }
    {
        let mut near = 0;
        let cie = self.begin_with_cie(&mut context.state, &mut near, fde);
        let instructions = begin_rows(context, fde);
        RowsIn {
            context,
            cie,
            fde: *fde,
            instructions,
            expressions: self.lent(),
            given: 0,
        }
    }
}

impl<'c, 'f, 'a> RowsIn<'c, 'f, 'a> {
    ghost use Rattle.std.specs.Prelude.{◌≡◌, [], ◌∷◌};
    ghost use Rattle.std.specs.Bool.{OnTrue, OnFalse};

    /// Overwrites `row` with the next row, and returns `true`. If no row is left, it returns
    /// `false`, and `row` is unchanged. Only the rules that the next row has are copied, so reusing
    /// one `row` is cheap.
    #[inline(always)]
    pub fn next_into(&mut self, row: &mut UnwindTableRow<'f, 'a>) -> bool
        ensures some { OnTrue result (self.old ≡ row.new ∷ self.new) }
        ensures none { OnFalse result ((self.old ≡ []) × (self.new ≡ []) × (row.new ≡ row.old)) }
    {
        let limit = self.fde.initial_location + self.fde.address_range;
        match next_range(&mut *self.context, &mut self.instructions, &self.cie, limit) {
            Some((start, end)) => {
                self.given += 1;
                self.context.write_row(start, end, self.expressions, row);
                true
            }
            None => false,
        }
    }
}

impl<'c, 'f, 'a> Iterator for RowsIn<'c, 'f, 'a> {
    type Item = UnwindTableRow<'f, 'a>;

    ghost use Rattle.std.specs.Iterator.{YieldsFirst, item_count};

    ghost next_gives = { YieldsFirst (λ rows. rows) };

    ghost remaining = { item_count (λ rows. rows) };

    #[inline(always)]
    fn next(&mut self) -> Option<UnwindTableRow<'f, 'a>> {
        let mut row = UnwindTableRow::empty();
        if self.next_into(&mut row) {
            Some(row)
        } else {
            None
        }
    }
}

impl<'c, 'f, 'a> FusedIterator for RowsIn<'c, 'f, 'a> {}
