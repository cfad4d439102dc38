//! Binary search for the lists and expressions of a section.

ghost use Rattle.std.specs.Prelude.{◌≡◌, ◌<◌, Contains, map, MatchOption};
ghost use Rattle.dw_loclists.specs.Bounds.{Ascends};
ghost use Rattle.dw_bytes.specs.Operands.{block_of};
ghost use Rattle.dw_loclists.specs.Locations.{location_of};
ghost use Rattle.dw_loclists.specs.Views.{start_of, offset_of};
ghost use Rattle.dw_loclists.specs.Stored.{IsAmong};
ghost use Rattle.dw_stack.specs.Located.{located_of};

use crate::stored_lists::StoredExpression;
use crate::stored_section::LocationList;
use dw_bytes::Block;
use dw_stack::CheckedExpression;

/// The list that begins at `offset`, if there is one.
pub fn find_list(lists: &[LocationList], offset: u64) -> Option<LocationList>
    requires { Ascends start_of lists.now }
    ensures { MatchOption result
        (¬ Contains (map start_of lists.now) offset)
        (λ list. (start_of list ≡ offset) × Contains (map start_of lists.now) offset) }
{
    match lists.binary_search_by_key(&offset, |list| u64::from(list.offset())) {
        Ok(place) => Some(lists[place]),
        Err(_) => None,
    }
}

/// The offset and the checked expression of `block`, which must be among the stored expressions. It
/// is found there by its offset.
pub fn find_expression<'a>(
    expressions: &[StoredExpression],
    block: Block<'a>,
) -> (u32, CheckedExpression<'a>)
    requires order { Ascends offset_of expressions.now }
    requires kept { IsAmong expressions.now (location_of (block_of block)) }
    ensures { located_of result ≡ location_of (block_of block.entry) }
{
    match expressions.binary_search_by_key(&block.offset, |expression| expression.offset) {
        Ok(place) => expressions[place].lend(block),
        Err(_) => unreachable!(),
    }
}
