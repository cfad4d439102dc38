//! Copies the checked expressions of a section for a compiled table.

ghost use Rattle.std.specs.Prelude.{◌≡◌, ◌+◌, IfErr, IfOk};
ghost use Rattle.std.specs.List.{sum_by};
ghost use Rattle.dw_stack.specs.Located.{all_located};
ghost use Rattle.dw_rules.specs.BorrowedExpressions.{borrowed_by};
ghost use Rattle.dw_tables.specs.CompiledTable.{LacksRoom};
ghost use Rattle.dw_tables.specs.UnwindTables.{expression_bytes};

use crate::table_room::{Unmade, less_room};
use dw_rules::{BorrowedExpressions, ExpressionList, OwnedExpression, OwnedExpressions};
use dw_stack::CheckedExpression;
use std::alloc::Global;

/// How many bytes of the room a copied expression uses up, not counting its own bytes. An
/// `OwnedExpression` takes at most this.
const EXPRESSION_ROOM: usize = 24;

const _: () = prove!(size_of::<OwnedExpression>() <= EXPRESSION_ROOM);

/// Copies expressions together with their bytes. The room that an expression uses up is taken from
/// `room` before the expression is copied.
fn list_of(
    alloc: Global,
    expressions: &[(u32, CheckedExpression<'_>)],
    room: &mut usize,
) -> Result<ExpressionList, Unmade>
    ensures list { IfOk result (λ list. list ≡ all_located expressions.now) }
    ensures stored { IfOk result (λ list. sum_by expression_bytes list + room.new ≡ room.old) }
    ensures short { IfErr result (λ why. LacksRoom why room.old
        (sum_by expression_bytes (all_located expressions.now))) }
{
    let mut list = ExpressionList::new(alloc);
    for expression in expressions {
        let bytes = expression.1.expression().bytes();
        *room = less_room(*room, EXPRESSION_ROOM + bytes.len())?;
        list.push(expression.0, &expression.1)?;
    }
    list.cut(alloc)?;
    Ok(list)
}

/// Copies borrowed expressions together with their bytes, and takes the room that they use up
/// from `room`.
pub(crate) fn copy_expressions(
    alloc: Global,
    borrowed: &BorrowedExpressions<'_, '_>,
    room: &mut usize,
) -> Result<OwnedExpressions, Unmade>
    ensures owned { IfOk result (λ owned. owned ≡ borrowed_by borrowed.now) }
    ensures stored { IfOk result (λ owned. sum_by expression_bytes owned + room.new ≡ room.old) }
    ensures short { IfErr result (λ why. LacksRoom why room.old
        (sum_by expression_bytes (borrowed_by borrowed.now))) }
{
    let cies = list_of(alloc, borrowed.cies, room)?;
    let fdes = list_of(alloc, borrowed.fdes, room)?;
    Ok(OwnedExpressions::new(cies, fdes))
}
