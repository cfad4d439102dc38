//! Checked expressions, borrowed from a checked section.

ghost use Rattle.std.specs.Prelude.{◌≡◌, ◌++◌, [], None, Some, MatchOption};
ghost use Rattle.dw_stack.specs.Located.{located_of, all_located};
ghost use Rattle.dw_rules.specs.Expressions.{expression_at};
ghost use Rattle.dw_rules.specs.ExpressionOrder.{AreInOrder, in_order_prop};

use dw_stack::CheckedExpression;

/// The checked expressions of a section's CIEs and of its FDEs (DWARF 5, sections 6.4.2.2 and
/// 6.4.2.3), each with the offset of its first byte in the section. Both slices are in order of
/// these offsets. This type owns no memory: the expressions are borrowed.
#[derive(Clone, Copy, Debug)]
pub struct BorrowedExpressions<'f, 'a> {
    pub cies: &'f [(u32, CheckedExpression<'a>)],
    pub fdes: &'f [(u32, CheckedExpression<'a>)],
    pub ghost cies_in_order: { AreInOrder cies.now } by { in_order_prop cies.now },
    pub ghost fdes_in_order: { AreInOrder fdes.now } by { in_order_prop fdes.now },
}

impl<'f, 'a> BorrowedExpressions<'f, 'a> {
    ghost use Rattle.dw_rules.specs.BorrowedExpressions.{borrowed_by};

    /// No expressions.
    pub fn empty() -> Self
        ensures { borrowed_by result ≡ [] }
    {
        BorrowedExpressions {
            cies: &[],
            fdes: &[],
        }
    }

    /// Borrows the expressions of CIEs and of FDEs. Each slice must be in order of offset.
    pub fn new(
        cies: &'f [(u32, CheckedExpression<'a>)],
        fdes: &'f [(u32, CheckedExpression<'a>)],
    ) -> Self
        requires cies { AreInOrder cies.now }
        requires fdes { AreInOrder fdes.now }
        ensures { borrowed_by result ≡ all_located cies.now ++ all_located fdes.now }
    {
        BorrowedExpressions { cies, fdes }
    }

    /// The expression that begins at an offset of the section, or `None` if none begins there. The
    /// CIEs' expressions are searched first, since there are few of them. Both searches are binary.
    pub fn at(&self, offset: u32) -> Option<CheckedExpression<'a>>
        ensures { MatchOption result
            (expression_at (borrowed_by self.now) offset ≡ None)
            (λ checked. expression_at (borrowed_by self.now) offset ≡ Some
            (located_of (offset, checked))) }
    {
        if let Some(checked) = find_borrowed(self.cies, offset) {
            return Some(checked);
        }
        find_borrowed(self.fdes, offset)
    }
}

/// The expression that begins at an offset of the section, found by binary search, or `None` if
/// none begins there.
fn find_borrowed<'a>(
    expressions: &[(u32, CheckedExpression<'a>)],
    offset: u32,
) -> Option<CheckedExpression<'a>>
    requires { AreInOrder expressions.now }
    ensures { MatchOption result
        (expression_at (all_located expressions.now) offset ≡ None)
        (λ checked. expression_at (all_located expressions.now) offset ≡ Some
        (located_of (offset, checked))) }
{
    match expressions.binary_search_by_key(&offset, |expression| expression.0) {
        Ok(place) => Some(expressions[place].1),
        Err(_) => None,
    }
}
