//! Examples of proved code that calls the libraries: what it learns from the contracts of
//! `dw_rows`, `dw_eval` and `dw_check`.

ghost use Rattle.std.specs.Prelude.{◌≡◌, ◌<◌, ◌^◌, ℕ, None, Some, IfSome, option_map};
ghost use Rattle.dw_unwind.specs.Caller.{Unwinds, machine};
ghost use Rattle.dw_unwind.specs.CallerViews.{caller_in};
ghost use Rattle.dw_eval.specs.Numbers.{width_of};
ghost use Rattle.dw_eval.specs.Results.{IsEvaluation, value};
ghost use Rattle.dw_rules.specs.Rules.{Row, offset, rule_in};
ghost use Rattle.dw_rules.specs.AbiViews.{roles_of};
ghost use Rattle.dw_rows.specs.Section.{FrameSection, row_of};
ghost use Rattle.dw_tables.specs.UnwindTables.{IsTableOf};
ghost use Rattle.dw_stack.specs.Certificates.{checked_of};

use dw_check::Caller;
use dw_eval::{Context, Memory, Outcome, Registers, evaluate};
use dw_rows::{CheckedFrame, RegisterRule};
use dw_rules::Abi;
use dw_stack::CheckedExpression;
use dw_tables::UnwindTable;

/// The offset from the CFA, in bytes, at which the function at `address` has saved a register.
///
/// The offset is that of the register's rule in the only row that covers `address`
/// (`dw_rows::laws::exact_rows`). The look-up can't fail, so `None` means that no FDE covers
/// `address`, or that the register's rule isn't an offset.
pub fn saved_offset(frame: &CheckedFrame<'_>, address: u64, register: u16) -> Option<i64>
    ensures { IfSome result (λ n. (row : Row) × (row_of frame.now address ≡ Some row)
        × (rule_in row.rules register ≡ offset n)) }
{
    let row = frame.row_for_address(address)?;
    match row.register(register) {
        RegisterRule::Offset(offset) => Some(offset),
        _ => None,
    }
}

/// The value of a checked expression with given registers and memory, if it has a value.
///
/// `CheckedExpression` promises that the run takes at most as many steps as the expression has
/// operations, and that it gives the standard's value, so this function tests neither. `None` means
/// that the run needs a register, memory or a value of the context that isn't known, that it
/// divides by zero, or that the expression is a location.
pub fn computed_value<R: Registers, M: Memory>(
    expression: &CheckedExpression<'_>,
    registers: &R,
    memory: &M,
) -> Option<u64>
    ensures value { IfSome result (λ v. let c = checked_of expression.now in
        (steps : ℕ) × IsEvaluation c (record {
          target = c.target;
          registers = R.contents registers.now;
          memory = M.bytes memory.now;
          cfa = None;
          frame_base = None;
          object = None;
        }) (value v) steps) }
    ensures fits { IfSome result
        (λ v. v < 2 ^ width_of (checked_of expression.now).target.address_size) }
{
    let context = Context {
        cfa: None,
        frame_base: None,
        object: None,
    };
    match evaluate(expression, &context, registers, memory).outcome {
        Outcome::Value(value) => Some(value),
        _ => None,
    }
}

/// The caller of the frame at `address`, computed with a compiled table. The section from which the
/// table was compiled gives the same caller, but its bytes are no longer needed.
pub fn caller_by_table<R: Registers, M: Memory>(
    table: &UnwindTable,
    abi: &Abi,
    address: u64,
    registers: &R,
    memory: &M,
) -> Option<Caller>
    ensures { (frame : FrameSection) → IsTableOf frame table.now → Unwinds
        (machine table.now.target (R.contents registers.now) (M.bytes memory.now))
        (roles_of abi.now) frame address (option_map caller_in result) }
{
    dw_unwind::laws::unwinding_by_what_is_found();
    dw_unwind::unwind(table, abi, address, registers, memory)
}
