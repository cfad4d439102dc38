//! Iterates over the expressions of a list that hold at an address.

ghost use Rattle.std.specs.Iterator.{YieldsFirstBy, item_count};
ghost use Rattle.dw_stack.specs.Located.{located_of};

use crate::find::find_expression;
use crate::stored_lists::StoredExpression;
use crate::walk::ListWalk;
use dw_stack::CheckedExpression;
use std::iter::FusedIterator;
use std::marker::Model;

/// The expressions of a list that hold at an address, each with the offset of its first byte in the
/// section, in the order of the list. The iterator reads the entries as it goes, finds each
/// expression by binary search, and doesn't allocate. The model is the list of the expressions that
/// are still to come.
#[derive(Debug, Drop)]
pub struct LocationsAt<'c, 'a> {
    walk: ListWalk<'a>,
    address: u64,
    expressions: &'c [StoredExpression],
    /// Whether an entry whose range contains the address was found; if so, the default doesn't
    /// hold.
    found: bool,
    ended: bool,
}

impl<'c, 'a> Model for LocationsAt<'c, 'a> {
    ghost use Rattle.std.specs.Prelude.{List, [], if◌then◌else◌};
    ghost use Rattle.dw_stack.specs.Located.{LocatedExpression};

    ghost Value = { List LocatedExpression };

    ghost use Rattle.dw_loclists.specs.Walks.{still_to_come, IsWalk};

    ghost view = { λ it. if it.ended then [] else still_to_come it.found it.address it.walk };

    ghost invariant = { λ it. IsWalk it.ended it.address it.walk it.expressions.now };
}

impl<'c, 'a> LocationsAt<'c, 'a> {
    ghost use Rattle.std.specs.Prelude.{◌≡◌, false};
    ghost use Rattle.dw_loclists.specs.Walks.{still_to_come, IsWalk};

    /// An iterator over the expressions that hold at `address`; `walk` is at the beginning of the
    /// list.
    pub(crate) fn new(walk: ListWalk<'a>, address: u64, expressions: &'c [StoredExpression]) -> Self
        requires { IsWalk false address walk expressions.now }
        ensures { result ≡ still_to_come false address walk.entry }
    {
        LocationsAt {
            walk,
            address,
            expressions,
            found: false,
            ended: false,
        }
    }
}

impl<'c, 'a> Iterator for LocationsAt<'c, 'a> {
    type Item = (u32, CheckedExpression<'a>);

    ghost next_gives = { YieldsFirstBy located_of (λ rest. rest) };

    ghost remaining = { item_count (λ rest. rest) };

    fn next(&mut self) -> Option<(u32, CheckedExpression<'a>)> {
        if self.ended {
            return None;
        }
        match self.walk.next_held(self.address) {
            Some(block) => {
                self.found = true;
                Some(find_expression(self.expressions, block))
            }
            None => {
                self.ended = true;
                if self.found {
                    return None;
                }
                match self.walk.default {
                    Some(block) => Some(find_expression(self.expressions, block)),
                    None => None,
                }
            }
        }
    }
}

impl<'c, 'a> FusedIterator for LocationsAt<'c, 'a> {}
