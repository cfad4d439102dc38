//! Iterates over all expressions of a section.

ghost use Rattle.std.specs.Iterator.{YieldsFirstBy, item_count};
ghost use Rattle.dw_stack.specs.Located.{located_of};

use crate::stored_lists::StoredExpression;
use dw_bytes::Target;
use dw_stack::CheckedExpression;
use std::iter::FusedIterator;
use std::marker::Model;

/// The expressions of a checked section, each with the offset of its first byte in the section, in
/// order. Their bytes are borrowed from the section; nothing is allocated. The model is the list of
/// the expressions that are still to come.
#[derive(Debug, Drop)]
pub struct Expressions<'c, 'a> {
    section: &'a [u8],
    target: Target,
    rest: &'c [StoredExpression],
}

impl<'c, 'a> Model for Expressions<'c, 'a> {
    ghost use Rattle.std.specs.Prelude.{List};
    ghost use Rattle.dw_stack.specs.Located.{LocatedExpression};

    ghost Value = { List LocatedExpression };

    ghost use Rattle.dw_loclists.specs.Stored.{all_lent_from, AreLendable};

    ghost view = { λ it. all_lent_from it.target it.section.now it.rest.now };

    ghost invariant = { λ it. AreLendable it.target it.section.now it.rest.now };
}

impl<'c, 'a> Expressions<'c, 'a> {
    ghost use Rattle.std.specs.Prelude.{◌≡◌};
    ghost use Rattle.dw_loclists.specs.Stored.{all_lent_from, AreLendable};

    /// An iterator over the stored expressions of a section.
    pub(crate) fn new(section: &'a [u8], target: Target, kept: &'c [StoredExpression]) -> Self
        requires { AreLendable target section.now kept.now }
        ensures { result ≡ all_lent_from target section.now kept.now }
    {
        Expressions {
            section,
            target,
            rest: kept,
        }
    }
}

impl<'c, 'a> Iterator for Expressions<'c, 'a> {
    type Item = (u32, CheckedExpression<'a>);

    ghost next_gives = { YieldsFirstBy located_of (λ rest. rest) };

    ghost remaining = { item_count (λ rest. rest) };

    fn next(&mut self) -> Option<(u32, CheckedExpression<'a>)> {
        let kept = self.rest;
        let (first, rest) = kept.split_first()?;
        self.rest = rest;
        Some(first.lend(first.block_in(self.section, self.target)))
    }

    fn size_hint(&self) -> (usize, Option<usize>) {
        let len = self.len();
        (len, Some(len))
    }
}

impl<'c, 'a> ExactSizeIterator for Expressions<'c, 'a> {
    fn len(&self) -> usize {
        self.rest.len()
    }
}

impl<'c, 'a> FusedIterator for Expressions<'c, 'a> {}
