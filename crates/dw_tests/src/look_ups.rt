//! Calls that look something up in what was checked. They take no memory: `refused_memory` counts
//! what they ask for.

use crate::inputs::{FUNCTION, OneRegister, Unknown};
use dw_check::{Answer, Caller, Checked, unwind};
use dw_eval::{Context, evaluate};
use dw_loclists::CheckedLists;
use dw_rows::{CheckedFrame, UnwindTableRow};
use dw_rules::Abi;
use dw_tables::UnwindTable;
use std::process::Abort;

/// The only known register of the frame at 0x1010 of `FUNCTION`.
const REGISTERS: OneRegister = OneRegister {
    known: 6,
    content: 0x7f00,
};

/// Asserts that a caller is that of the frame at 0x1010: its CFA is register 6 plus 16, and the two
/// registers that are saved below the CFA are unreadable.
fn is_worked(rt: &impl Abort, caller: Option<Caller>) {
    let caller = caller.expect(rt, "covered");
    assert_eq!(rt; caller.cfa, Answer::Value(0x7f10));
    assert_eq!(rt;
        caller.registers.as_slice(),
        [(6, Answer::Unreadable), (16, Answer::Unreadable)].as_slice()
    );
    assert_eq!(rt; caller.return_address, Answer::Unreadable);
}

/// Finds callers in three ways that must agree: from both sections, from the frame section alone,
/// and from its compiled table. The last two are passed an ABI that names no register.
fn finds_callers(rt: &impl Abort, checked: &Checked<'_>, table: &UnwindTable) {
    let (frame, abi) = (checked.frame(), Abi::none());
    is_worked(rt, unwind(checked, 0x1010, &REGISTERS, &Unknown));
    is_worked(
        rt,
        dw_unwind::unwind(frame, &abi, 0x1010, &REGISTERS, &Unknown),
    );
    is_worked(
        rt,
        dw_unwind::unwind(table, &abi, 0x1010, &REGISTERS, &Unknown),
    );
    assert!(rt; unwind(checked, 0x1020, &REGISTERS, &Unknown).is_none());
    assert!(rt; dw_unwind::unwind(frame, &abi, 0x1020, &REGISTERS, &Unknown).is_none());
    assert!(rt; dw_unwind::unwind(table, &abi, 0x1020, &REGISTERS, &Unknown).is_none());
}

/// Addresses at `FUNCTION`, each with where its row begins and ends.
const RANGES: [(u64, u64, u64); 2] = [(0x1000, 0x1000, 0x1001), (0x101f, 0x1004, 0x1020)];

/// Looks up rows of `FUNCTION` by their addresses.
fn finds_rows(rt: &impl Abort, frame: &CheckedFrame<'_>) {
    assert!(rt; frame.section() == FUNCTION.as_slice());
    for (address, start, end) in &RANGES {
        let Some(row) = frame.row_for_address(*address) else {
            panic!(rt; "{address:#x} has no row")
        };
        assert_eq!(rt; (row.start_address(), row.end_address()), (*start, *end));
    }
    assert!(rt; frame.row_for_address(0xfff).is_none());
    assert!(rt; frame.row_for_address(0x1020).is_none());
}

/// Looks up rows of `FUNCTION` one after the other, also once more with the same iterator and the
/// same row.
fn goes_through_rows(rt: &impl Abort, frame: &CheckedFrame<'_>) {
    let Some(fde) = frame.fde_for_address(0x1000) else {
        panic!(rt; "no FDE")
    };
    let mut rows = frame.rows(&fde);
    let mut row = UnwindTableRow::empty();
    let Some(first) = rows.next() else {
        panic!(rt; "no row")
    };
    assert_eq!(rt; first.end_address(), 0x1001);
    assert!(rt; rows.next_into(&mut row));
    assert_eq!(rt; row.end_address(), 0x1004);
    frame.rows_into(&fde, &mut rows);
    assert!(rt; rows.next_into(&mut row));
    assert_eq!(rt; row.end_address(), 0x1001);
    let Some((cie, fde)) = frame.row_for_address_into(0x1001, &mut row) else {
        panic!(rt; "no row")
    };
    assert_eq!(rt;
        (cie.offset, fde.offset, row.end_address()),
        (0, 24, 0x1004)
    );
    // An address without a row leaves the row as it was.
    assert!(rt; frame.row_for_address_into(0x1020, &mut row).is_none());
    assert_eq!(rt; row.end_address(), 0x1004);
}

/// Looks up the list of `PAIR_AND_DEFAULT`, and the expression that it gives at an address.
fn finds_locations(rt: &impl Abort, lists: &CheckedLists<'_>) {
    let list = lists.list(0xc).expect(rt, "a list");
    let mut locations = lists.locations_at(&list, 0x1000, 0x1005);
    let Some((offset, checked)) = locations.next() else {
        panic!(rt; "no location")
    };
    assert_eq!(rt; offset, 0x10);
    assert_eq!(rt; checked.expression().bytes(), [0x50].as_slice());
    assert!(rt; locations.next().is_none());
    assert!(rt; lists.list(0xd).is_none());
}

/// Evaluates each expression of a frame section.
fn evaluates(rt: &impl Abort, frame: &CheckedFrame<'_>) {
    let context = Context {
        cfa: Some(0x10),
        frame_base: None,
        object: None,
    };
    for (_, expression) in frame.expressions() {
        let steps = evaluate(expression, &context, &Unknown, &Unknown).steps;
        assert_eq!(rt; steps, expression.operation_count());
    }
}

/// Makes all these calls: on the sections `FUNCTION` and `PAIR_AND_DEFAULT`, the compiled table of the
/// first, and the section `EXPRESSIONS`.
pub(crate) fn looks_up_everything(
    rt: &impl Abort,
    checked: &Checked<'_>,
    expressions: &CheckedFrame<'_>,
    table: &UnwindTable,
) {
    finds_callers(rt, checked, table);
    finds_rows(rt, checked.frame());
    goes_through_rows(rt, checked.frame());
    finds_locations(rt, checked.lists());
    evaluates(rt, expressions);
}
