//! The row of an address, found by running the program of the FDE that covers it.

ghost use Rattle.std.specs.Prelude.{◌≡◌, ◌+◌, ◌<◌, ◌≤◌, List, ◌∷◌, Some, IfSome, IfNone, false, find, map};
ghost use Rattle.dw_frame.specs.Views.{cie_of, fde_of};
ghost use Rattle.dw_rules.specs.ProgramFault.{fde_fault, lacks_cfa};
ghost use Rattle.dw_rows.specs.UnwindRows.{rows_of, has_address};
ghost use Rattle.dw_rules.specs.ProgramState.{IsLeftBy, row_between};
ghost use Rattle.dw_rules.specs.RuleSet.{LendsRules, StoredRules};
ghost use Rattle.dw_rows.specs.RowCursors.{cursor_at, above, IsAtRow, Seeks, GoesPast, Lends};
ghost use Rattle.dw_rules.specs.RowsWithExpressions.{row_with_expressions};
ghost use Rattle.dw_rules.specs.RowExpressions.{row_expressions};

use crate::row_cursor::{Next, begin_rows_at, next_plain};
use dw_frame::{CommonInformationEntry, FrameDescriptionEntry, Instructions};
use dw_rules::{RowExpressions, RuleSet, UnwindRow, UnwindState, UnwindTableRow};

/// Overwrites `row` with the row of `address`, which `seek_row` finds. `fde` must cover the
/// address, its program must have passed its check, and the initial rules in `state` must be the
/// rules that the CIE's program leaves. It runs the program up to that row, and allocates no
/// memory.
pub(crate) fn write_row_at<'f, 'a>(
    state: &mut UnwindState,
    cie: &CommonInformationEntry<'a>,
    fde: &FrameDescriptionEntry<'a>,
    address: u64,
    expressions: RowExpressions<'f, 'a>,
    row: &mut UnwindTableRow<'f, 'a>,
)
    requires lent { Lends (row_expressions expressions) (cie_of cie.now) (fde_of fde.now) }
    requires left { IsLeftBy (cie_of cie.now) state.old.initial_rules }
    requires fde { fde_fault (cie_of cie.now) (fde_of fde.now) ≡ None }
    requires low { fde.now.initial_location ≤ address }
    requires high { address < fde.now.initial_location + fde.now.address_range }
    ensures { find (has_address address)
        (map (row_with_expressions (row_expressions expressions.entry)) (rows_of (cie_of cie.now) (fde_of fde.now)))
        ≡ Some row.new }
{
    let (start, end) = seek_row(state, cie, fde, address);
    state.write_row(start, end, expressions, row);
}

/// The row from `start` up to but not including `end` with these rules, which it borrows. They must
/// have a CFA rule. For each expression offset in the rules, `expressions` must have the expression
/// that begins there.
#[inline(always)]
pub fn lend_row<'t, 'a>(
    rules: &'t RuleSet,
    start: u64,
    end: u64,
    expressions: RowExpressions<'t, 'a>,
) -> UnwindRow<'t, 'a>
    requires cfa { lacks_cfa rules.now.cfa ≡ false }
    requires lent { LendsRules (row_expressions expressions) rules.now }
    ensures { result ≡ row_with_expressions (row_expressions expressions.entry)
        (row_between start end rules.now) }
{
    match rules.cfa() {
        Some(cfa) => UnwindRow::new(
            start,
            end,
            cfa,
            rules.register_rules().as_slice(),
            0,
            expressions,
        ),
        None => unreachable!(),
    }
}

/// Runs an FDE's program up to the row of `address`, and returns where that row begins and ends.
/// Its rules are then in force in `state`. `fde` must cover the address, its program must have
/// passed its check, and the initial rules in `state` must be the rules that the CIE's program
/// leaves; they stay. It allocates no memory.
pub fn seek_row<'a>(
    state: &mut UnwindState,
    cie: &CommonInformationEntry<'a>,
    fde: &FrameDescriptionEntry<'a>,
    address: u64,
) -> (u64, u64)
    requires left { IsLeftBy (cie_of cie.now) state.old.initial_rules }
    requires fde { fde_fault (cie_of cie.now) (fde_of fde.now) ≡ None }
    requires low { fde.now.initial_location ≤ address }
    requires high { address < fde.now.initial_location + fde.now.address_range }
    ensures { IsAtRow (cie_of cie.now) (fde_of fde.now) address result state.new }
{
    let limit = fde.initial_location + fde.address_range;
    let mut instructions = begin_rows_at(state, fde);
    loop {
        match next_plain(state, &mut instructions, cie, limit) {
            Next::Row(start, end) => {
                if address < end {
                    return (start, end);
                }
            }
            Next::Remembers => {
                if let Some(range) = seek_in_bracket(state, &mut instructions, cie, fde, address) {
                    return range;
                }
            }
            Next::Restores | Next::End => unreachable!(),
        }
    }
}

/// Searches for the row of `address` between a remember_state and the matching restore_state.
/// `instructions` must be just after the remember_state. If the row is there, the result is where
/// it begins and ends, and its rules are in force. Otherwise `instructions` is just past the
/// matching restore_state, and the rules from before the pair are in force again. Each call stores
/// the rules at its remember_state, and calls itself for a nested pair.
#[inline(never)]
fn seek_in_bracket<'a>(
    state: &mut UnwindState,
    instructions: &mut Instructions<'a>,
    cie: &CommonInformationEntry<'a>,
    fde: &FrameDescriptionEntry<'a>,
    address: u64,
) -> Option<(u64, u64)>
    requires fde { fde_fault (cie_of cie.now) (fde_of fde.now) ≡ None }
    requires low { fde.now.initial_location ≤ address }
    requires high { address < fde.now.initial_location + fde.now.address_range }
    requires seeks { (ks : List StoredRules) × Seeks (cie_of cie.now) (fde_of fde.now) address
        (above (state.old.current ∷ ks)
        (cursor_at (cie_of cie.now) (fde.now.initial_location + fde.now.address_range) state.old instructions.old)) }
    ensures found { IfSome result (λ range.
        IsAtRow (cie_of cie.now) (fde_of fde.now) address range state.new) }
    ensures past { IfNone result (GoesPast (cie_of cie.now) (fde_of fde.now) address
        (cursor_at (cie_of cie.now) (fde.now.initial_location + fde.now.address_range) state.old instructions.old)
        (cursor_at (cie_of cie.now) (fde.now.initial_location + fde.now.address_range) state.new instructions.new)) }
{
    let limit = fde.initial_location + fde.address_range;
    let rules = state.rules().copy();
    loop {
        match next_plain(state, instructions, cie, limit) {
            Next::Row(start, end) => {
                if address < end {
                    return Some((start, end));
                }
            }
            Next::Remembers => {
                if let Some(range) = seek_in_bracket(state, instructions, cie, fde, address) {
                    return Some(range);
                }
            }
            Next::Restores => {
                state.set_rules(&rules);
                return None;
            }
            Next::End => unreachable!(),
        }
    }
}
