//! What is stored about each expression.

ghost use Rattle.std.specs.Prelude.{◌≡◌, ◌<◌, ◌≤◌, ◌+◌, ◌^◌, length};
ghost use Rattle.dw_bytes.specs.Operands.{block_of};
ghost use Rattle.dw_loclists.specs.Stored.{IsStoredOf, lent_from};
ghost use Rattle.dw_loclists.specs.Locations.{location_of};
ghost use Rattle.dw_stack.specs.Certificates.{checked_of};
ghost use Rattle.dw_stack.specs.declared.state.Kind.TheVariants.{Location};
ghost use Rattle.dw_stack.specs.Expressions.{IsChecked, IsOf};
ghost use Rattle.dw_stack.specs.Located.{located_of};

use dw_bytes::{Block, Target};
use dw_ops::Expression;
use dw_stack::{CheckedExpression, Kind};

/// What is stored about an expression that passed the check as a location: where it is, how many
/// operations it has, and its stack depth. The expression's bytes stay in the section, so a
/// `StoredExpression` takes only 16 bytes.
#[derive(Clone, Copy, Debug)]
pub struct StoredExpression {
    /// The offset of the expression's first byte in the section.
    pub offset: u32,
    /// The expression's length in bytes.
    pub length: u32,
    /// The number of operations in the expression.
    pub count: u32,
    pub depth: u8,
}

impl StoredExpression {
    /// What is stored about the expression in `block`, whose bytes were checked as a location;
    /// `checked` is the result of that check.
    #[inline(always)]
    pub fn new(block: Block<'_>, checked: &CheckedExpression<'_>) -> Self
        requires checked { IsChecked (checked_of checked.now) }
        requires same { IsOf Location block.target block.bytes.now (checked_of checked.now) }
        ensures { IsStoredOf (location_of (block_of block.entry)) result }
    {
        StoredExpression {
            offset: block.offset,
            length: block.bytes.len() as u32,
            count: checked.operation_count(),
            depth: checked.depth(),
        }
    }

    /// The bytes of the expression, borrowed from `section`, the section in which the expression
    /// was found.
    pub fn block_in<'a>(&self, section: &'a [u8], target: Target) -> Block<'a>
        requires inside { self.now.offset + self.now.length ≤ length section.now }
        requires short { length section.now < 2 ^ 32 }
        ensures { location_of (block_of result) ≡ lent_from target section.now self.now }
    {
        let start = self.offset as usize;
        let end = start + self.length as usize;
        Block {
            offset: self.offset,
            target,
            bytes: &section[start..end],
        }
    }

    /// The expression's offset in the section, and the checked expression. `block` has the
    /// expression's bytes, which aren't checked again.
    pub fn lend<'a>(&self, block: Block<'a>) -> (u32, CheckedExpression<'a>)
        requires { IsStoredOf (location_of (block_of block)) self.now }
        ensures { located_of result ≡ location_of (block_of block.entry) }
    {
        let expression = Expression::new(block.bytes, block.target);
        let checked = CheckedExpression::new(expression, Kind::Location, self.depth, self.count);
        (block.offset, checked)
    }
}
