//! The checked expressions that the rules of a row refer to.

ghost use Rattle.std.specs.Prelude.{◌≡◌, [], None, Some, MatchOption};
ghost use Rattle.dw_stack.specs.Located.{located_of};
ghost use Rattle.dw_rules.specs.Expressions.{expression_at};

use crate::borrowed_expressions::BorrowedExpressions;
use crate::owned_expressions::OwnedExpressions;
use dw_stack::CheckedExpression;

/// The checked expressions that the rules of a row refer to: borrowed from a checked section, or
/// owned by a compiled table.
#[derive(Clone, Copy, Debug)]
pub enum RowExpressions<'f, 'a> {
    /// Those of a checked section.
    Borrowed(BorrowedExpressions<'f, 'a>),
    /// Those of a compiled table.
    Owned(&'a OwnedExpressions),
}

impl<'f, 'a> RowExpressions<'f, 'a> {
    ghost use Rattle.dw_rules.specs.RowExpressions.{row_expressions};

    /// No expressions.
    pub fn empty() -> Self
        ensures { row_expressions result ≡ [] }
    {
        RowExpressions::Borrowed(BorrowedExpressions::empty())
    }

    /// The expression that begins at an offset of the section, or `None` if none begins there.
    pub fn at(&self, offset: u32) -> Option<CheckedExpression<'a>>
        ensures { MatchOption result
            (expression_at (row_expressions self.now) offset ≡ None)
            (λ checked. expression_at (row_expressions self.now) offset ≡ Some
            (located_of (offset, checked))) }
    {
        match self {
            RowExpressions::Borrowed(borrowed) => borrowed.at(offset),
            RowExpressions::Owned(owned) => owned.at(offset),
        }
    }
}
