//! The contents of a caller's registers, by number, where a list of all answers isn't needed.

ghost use Rattle.std.specs.Prelude.{◌≡◌, ℕ, IfOk, OnErr, All, None, Option, Some};
ghost use Rattle.std.specs.Bool.{OnFalse, OnTrue};
ghost use Rattle.dw_rules.specs.Abi.{Role, abi_of, is_among, rule_of_role, rule_under};
ghost use Rattle.dw_rules.specs.Rules.{IsTable};
ghost use Rattle.dw_rules.specs.Views.{rule_of};
ghost use Rattle.dw_rules.specs.RowsWithExpressions.{IsEntryOfKind, IsRuleOfKind};
ghost use Rattle.dw_unwind.specs.Caller.{IsRegister, if_value, number_plus, word};
ghost use Rattle.dw_unwind.specs.CallerViews.{answer_in, machine_in};
ghost use Rattle.dw_unwind.specs.Contents.{HasContents, Keeps, Overlays, UnwindsTo, abi_rules, contents_in};
ghost use Rattle.dw_unwind.specs.MissingPlaces.{Fills, HasFarContent, LacksPlace};
ghost use Rattle.dw_unwind.specs.Walks.{content_of, over_rows};

use crate::missing_places::some_lacks_place;
use crate::register_file::RegisterFile;
use crate::rule_answers::Present;
use crate::unwind_rows::UnwindRows;
use crate::unwinding::{Answer, Unwound};
use dw_eval::{Memory, Registers};
use dw_rows::RegisterRule;
use dw_rules::{RegisterRules, UnwindRow};

/// A `RegisterFile` has no place for the content of one of a caller's registers, whose number is
/// `PLACES` or more.
#[derive(Clone, Copy, Debug, PartialEq, Eq)]
pub struct NoPlace;

/// The content of a register with this answer; none if the answer isn't a value.
#[inline(always)]
pub(crate) fn content_of(answer: Answer) -> Option<u64>
    ensures { result ≡ content_of (answer_in answer) }
{
    match answer {
        Answer::Value(content) => Some(content),
        Answer::Undefined => None,
        Answer::Unreadable => None,
        Answer::DivisionByZero => None,
    }
}

/// Whether `number` is one of `registers`.
fn is_among(registers: &[u16], number: u16) -> bool
    ensures { result ≡ is_among number registers.now }
{
    registers.iter().any(|n| *n == number)
}

/// The rule that an ABI with the callee-saved registers `kept` gives the register `number`, if it
/// isn't the stack pointer.
fn rule_of_kept<'a>(kept: &[u16], number: u16) -> RegisterRule<'a>
    ensures rule { rule_of result ≡ rule_of_role (abi_of kept.now None number) }
    ensures kind { IsRuleOfKind (rule_of result) }
{
    if is_among(kept, number) {
        RegisterRule::SameValue
    } else {
        RegisterRule::Default
    }
}

/// The rule that an ABI with the callee-saved registers `kept` gives the register `number`.
#[inline(never)]
pub(crate) fn rule_of_abi<'a>(
    kept: &[u16],
    stack_pointer: Option<u16>,
    number: u16,
) -> RegisterRule<'a>
    ensures rule { rule_of result ≡ rule_of_role (abi_of kept.now stack_pointer number) }
    ensures kind { IsRuleOfKind (rule_of result) }
{
    match stack_pointer {
        Some(pointer) => {
            if pointer == number {
                RegisterRule::ValOffset(0)
            } else {
                rule_of_kept(kept, number)
            }
        }
        None => rule_of_kept(kept, number),
    }
}

/// Gives the registers `kept` the contents that they have now. Returns whether all contents have a
/// place.
#[inline(always)]
fn keep_into<R: Registers, M: Memory>(
    present: &Present<'_, R, M>,
    kept: &[u16],
    into: &mut RegisterFile,
) -> bool
    ensures { Fills (Keeps (machine_in R.contents M.bytes present.now) kept.now
        (contents_in into.old)) result (contents_in into.new) }
{
    let mut all_placed = true;
    for number in kept {
        all_placed &= into.put(*number, content_of(present.content(*number)));
    }
    all_placed
}

/// The answer of the rule that a register is saved at the CFA plus `offset`.
#[inline(always)]
pub(crate) fn saved<R: Registers, M: Memory>(
    present: &Present<'_, R, M>,
    cfa: Answer,
    offset: i64,
) -> Answer
    ensures { answer_in result ≡ if_value (answer_in cfa)
        (λ c. word (machine_in R.contents M.bytes present.now)
        (number_plus (machine_in R.contents M.bytes present.now) offset c)) }
{
    match cfa {
        Answer::Value(cfa) => present.word(present.number_plus(cfa, offset)),
        other => other,
    }
}

/// What a rule of any kind gives. This function isn't inlined, so that the code for the most common
/// kind, in `found_by`, stays short.
#[inline(never)]
pub(crate) fn found_slowly<R: Registers, M: Memory>(
    present: &Present<'_, R, M>,
    cfa: Answer,
    number: u16,
    rule: RegisterRule<'_>,
) -> Answer
    requires { IsRuleOfKind (rule_of rule) }
    ensures { IsRegister (machine_in R.contents M.bytes present.now) (answer_in cfa) number
        (rule_of rule.entry) (answer_in result) }
{
    present.register(cfa, number, rule)
}

/// What the rule gives for the caller's register `number`, as `Present::register` does. Nearly all
/// rules that compilers write are of the first kind here.
#[inline(always)]
fn found_by<R: Registers, M: Memory>(
    present: &Present<'_, R, M>,
    cfa: Answer,
    number: u16,
    rule: RegisterRule<'_>,
) -> Answer
    requires { IsRuleOfKind (rule_of rule) }
    ensures { IsRegister (machine_in R.contents M.bytes present.now) (answer_in cfa) number
        (rule_of rule.entry) (answer_in result) }
{
    match rule {
        RegisterRule::Offset(offset) => saved(present, cfa, offset),
        other => found_slowly(present, cfa, number, other),
    }
}

/// Gives each register in `rules` the content that its rule gives. Returns whether all contents
/// have a place. It goes on after one that has none: the answers for all registers together show
/// that the frame has a caller, which the contract of `NoPlace` says (`LacksPlace`).
#[inline(always)]
fn overlay_into<R: Registers, M: Memory>(
    present: &Present<'_, R, M>,
    cfa: Answer,
    rules: RegisterRules<'_, '_>,
    into: &mut RegisterFile,
) -> bool
    requires { All IsEntryOfKind rules }
    ensures { Fills (Overlays (machine_in R.contents M.bytes present.now) (answer_in cfa)
        rules.entry (contents_in into.old)) result (contents_in into.new) }
{
    let mut all_placed = true;
    for (number, rule) in rules {
        all_placed &= into.put(number, content_of(found_by(present, cfa, number, rule)));
    }
    all_placed
}

/// The content of the stack pointer in the caller, where the row gives it no rule.
#[inline(always)]
pub(crate) fn pointed<R: Registers, M: Memory>(present: &Present<'_, R, M>, cfa: Answer) -> Answer
    ensures { (r : ℕ) → IsRegister (machine_in R.contents M.bytes present.now) (answer_in cfa) r
        (rule_of_role Role.stack_pointer) (answer_in result) }
{
    match cfa {
        Answer::Value(cfa) => Answer::Value(present.number_plus(cfa, 0)),
        other => other,
    }
}

/// Gives the registers that the ABI names the contents that they have in the caller if the row has
/// no rules. No register may have a content before. Returns whether all contents have a place.
#[inline(always)]
fn abi_into<R: Registers, M: Memory>(
    present: &Present<'_, R, M>,
    cfa: Answer,
    kept: &[u16],
    stack_pointer: Option<u16>,
    into: &mut RegisterFile,
) -> bool
    requires { (r : ℕ) → contents_in into.old r ≡ None }
    ensures { Fills (HasContents (machine_in R.contents M.bytes present.now) (answer_in cfa)
        (abi_rules (abi_of kept.now stack_pointer))) result (contents_in into.new) }
{
    let all_placed = keep_into(present, kept, into);
    match stack_pointer {
        Some(number) => all_placed & into.put(number, content_of(pointed(present, cfa))),
        None => all_placed,
    }
}

/// Fills `into` with the contents that the registers have in the caller, by the row's rules and the
/// ABI. Returns whether all contents that were found had a place, also those of registers that the
/// ABI names and to which the row gives another content, or none.
#[inline(always)]
fn rules_into<R: Registers, M: Memory>(
    present: &Present<'_, R, M>,
    cfa: Answer,
    kept: &[u16],
    stack_pointer: Option<u16>,
    rules: RegisterRules<'_, '_>,
    into: &mut RegisterFile,
) -> bool
    requires kinds { All IsEntryOfKind rules }
    requires table { IsTable 0 rules }
    ensures { Fills (HasContents (machine_in R.contents M.bytes present.now) (answer_in cfa)
        (rule_under (abi_of kept.now stack_pointer) rules.entry)) result (contents_in into.new) }
{
    into.clear();
    let all_placed = abi_into(present, cfa, kept, stack_pointer, into);
    all_placed & overlay_into(present, cfa, rules, into)
}

/// Fills `into` with the contents that the registers have in the caller, by the row's rules and the
/// ABI. Returns false if one of the contents has no place.
#[inline(always)]
fn row_into<R: Registers, M: Memory>(
    present: &Present<'_, R, M>,
    row: &UnwindRow<'_, '_>,
    kept: &[u16],
    stack_pointer: Option<u16>,
    cfa: Answer,
    into: &mut RegisterFile,
) -> bool
    ensures answers { (wanted : ℕ → Option ℕ)
        × HasContents (machine_in R.contents M.bytes present.now) (answer_in cfa)
        (rule_under (abi_of kept.now stack_pointer) row.now.rules) wanted }
    ensures written { OnTrue result (HasContents (machine_in R.contents M.bytes present.now)
        (answer_in cfa) (rule_under (abi_of kept.now stack_pointer) row.now.rules)
        (contents_in into.new)) }
    ensures lacks { OnFalse result (HasFarContent (machine_in R.contents M.bytes present.now)
        (answer_in cfa) (rule_under (abi_of kept.now stack_pointer) row.now.rules)) }
{
    if rules_into(present, cfa, kept, stack_pointer, row.rules(), into) {
        return true;
    }
    into.ends();
    !some_lacks_place(present, cfa, kept, stack_pointer, row.rules())
}

/// The return address: the answer for the register `number`. It is the content of that register in
/// `found`, the contents of the caller's registers, if it has one. Otherwise it is computed by the
/// register's rule.
#[inline(always)]
fn return_address<R: Registers, M: Memory>(
    present: &Present<'_, R, M>,
    row: &UnwindRow<'_, '_>,
    kept: &[u16],
    stack_pointer: Option<u16>,
    cfa: Answer,
    number: u16,
    found: &RegisterFile,
) -> Answer
    requires { HasContents (machine_in R.contents M.bytes present.now) (answer_in cfa)
        (rule_under (abi_of kept.now stack_pointer) row.now.rules) (contents_in found.now) }
    ensures { IsRegister (machine_in R.contents M.bytes present.now) (answer_in cfa) number
        (rule_under (abi_of kept.now stack_pointer) row.now.rules number) (answer_in result) }
{
    match found.register(number) {
        Some(content) => Answer::Value(content),
        None => match row.register(number) {
            RegisterRule::Default => {
                present.register(cfa, number, rule_of_abi(kept, stack_pointer, number))
            }
            rule => present.register(cfa, number, rule),
        },
    }
}

/// Finds the caller of the frame at `address` by the row of a section or a table. The contents of
/// the caller's registers replace what is in `into`. If there is no caller, or one of its registers
/// has a content but no place, what is in `into` is unspecified.
#[inline(always)]
pub(crate) fn contents_by<T: UnwindRows, R: Registers, M: Memory>(
    rows: &T,
    kept: &[u16],
    stack_pointer: Option<u16>,
    address: u64,
    registers: &R,
    memory: &M,
    into: &mut RegisterFile,
) -> Result<Option<Unwound>, NoPlace>
    ensures contents { IfOk result (λ unwound. UnwindsTo
        (over_rows (T.target_of rows.now) (T.finds rows.now) (abi_of kept.now stack_pointer)
        (M.bytes memory.now)) (R.contents registers.now) (Some address) unwound
        (contents_in into.new)) }
    ensures no_place { OnErr result (LacksPlace
        (over_rows (T.target_of rows.now) (T.finds rows.now) (abi_of kept.now stack_pointer)
        (M.bytes memory.now)) (R.contents registers.now) (Some address)) }
{
    dw_rules::laws::rules_under_abis();
    let mut slot = rows.slot();
    let Some((row, number)) = rows.find_row(address, &mut slot) else {
        return Ok(None);
    };
    let present = Present {
        target: rows.rows_target(),
        registers,
        memory,
    };
    let cfa = present.cfa(row.cfa());
    if !row_into(&present, &row, kept, stack_pointer, cfa, into) {
        return Err(NoPlace);
    }
    into.ends();
    let return_address = return_address(&present, &row, kept, stack_pointer, cfa, number, into);
    Ok(Some(Unwound {
        cfa,
        return_address,
    }))
}
