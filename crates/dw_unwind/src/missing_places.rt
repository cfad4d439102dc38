//! Whether one of a caller's registers has a content, but no place in a `RegisterFile`.

ghost use Rattle.std.specs.Prelude.{◌≡◌, ◌≤◌, ℕ, true, All};
ghost use Rattle.std.specs.Bool.{MatchBool};
ghost use Rattle.std.specs.Option.{option_to_list};
ghost use Rattle.dw_rules.specs.Abi.{abi_of, is_among, rule_under};
ghost use Rattle.dw_rules.specs.Rules.{IsTable, Rule, rule_in};
ghost use Rattle.dw_rules.specs.RowsWithExpressions.{IsEntryOfKind, IsRuleOfKind};
ghost use Rattle.dw_rules.specs.Views.{rule_of};
ghost use Rattle.dw_unwind.specs.CallerViews.{answer_in, machine_in};
ghost use Rattle.dw_unwind.specs.MissingPlaces.{HasFarContent, LacksContent, LacksFarContents};

use crate::caller_contents::{content_of, found_slowly, rule_of_abi};
use crate::register_file::PLACES;
use crate::rule_answers::Present;
use crate::unwinding::Answer;
use dw_eval::{Memory, Registers};
use dw_rows::RegisterRule;
use dw_rules::RegisterRules;

/// The same rules once more.
fn again<'r, 'a>(rules: &RegisterRules<'r, 'a>) -> RegisterRules<'r, 'a>
    ensures { result ≡ rules.now }
{
    RegisterRules {
        entries: rules.entries,
        others: rules.others,
        expressions: rules.expressions,
    }
}

/// The rule of the register `number` in a row with these rules, or `Default` if there is none.
fn rule_in_row<'a>(rules: RegisterRules<'_, 'a>, number: u16) -> RegisterRule<'a>
    requires { All IsEntryOfKind rules }
    ensures rule { rule_of result ≡ rule_in rules.entry number }
    ensures kind { IsRuleOfKind (rule_of result) }
{
    for (register, rule) in rules {
        if register == number {
            return rule;
        }
    }
    RegisterRule::Default
}

/// The rule of the register `number`, by a row with these rules and the ABI with the callee-saved
/// registers `kept`.
fn rule_with_abi<'a>(
    kept: &[u16],
    stack_pointer: Option<u16>,
    rules: &RegisterRules<'_, 'a>,
    number: u16,
) -> RegisterRule<'a>
    requires { All IsEntryOfKind rules.now }
    ensures rule { rule_of result ≡ rule_under (abi_of kept.now stack_pointer) rules.now number }
    ensures kind { IsRuleOfKind (rule_of result) }
{
    match rule_in_row(again(rules), number) {
        RegisterRule::Default => rule_of_abi(kept, stack_pointer, number),
        rule => rule,
    }
}

/// Whether the caller's register `number` has a content by its rule, but no place.
fn lacks_place<R: Registers, M: Memory>(
    present: &Present<'_, R, M>,
    cfa: Answer,
    number: u16,
    rule: RegisterRule<'_>,
) -> bool
    requires { IsRuleOfKind (rule_of rule) }
    ensures { (rules : ℕ → Rule) → rule_of rule.entry ≡ rules number → MatchBool result
        (HasFarContent (machine_in R.contents M.bytes present.now) (answer_in cfa) rules)
        (PLACES ≤ number
        → LacksContent (machine_in R.contents M.bytes present.now) (answer_in cfa) rules number) }
{
    if usize::from(number) < PLACES {
        return false;
    }
    content_of(found_slowly(present, cfa, number, rule)).is_some()
}

/// Whether one of the registers `kept` has a content in the caller, but no place.
fn kept_lack_place<R: Registers, M: Memory>(
    present: &Present<'_, R, M>,
    cfa: Answer,
    kept: &[u16],
    stack_pointer: Option<u16>,
    rules: &RegisterRules<'_, '_>,
) -> bool
    requires { All IsEntryOfKind rules.now }
    ensures { let e = machine_in R.contents M.bytes present.now in
        let ruled = rule_under (abi_of kept.now stack_pointer) rules.now in
        MatchBool result (HasFarContent e (answer_in cfa) ruled)
        ((r : ℕ) → is_among r kept.now ≡ true → PLACES ≤ r
        → LacksContent e (answer_in cfa) ruled r) }
{
    for number in kept {
        let rule = rule_with_abi(kept, stack_pointer, rules, *number);
        if lacks_place(present, cfa, *number, rule) {
            return true;
        }
    }
    false
}

/// Whether the stack pointer, if the ABI names one, has a content in the caller, but no place.
fn pointer_lacks_place<R: Registers, M: Memory>(
    present: &Present<'_, R, M>,
    cfa: Answer,
    kept: &[u16],
    stack_pointer: Option<u16>,
    rules: &RegisterRules<'_, '_>,
) -> bool
    requires { All IsEntryOfKind rules.now }
    ensures { let e = machine_in R.contents M.bytes present.now in
        let ruled = rule_under (abi_of kept.now stack_pointer) rules.now in
        MatchBool result (HasFarContent e (answer_in cfa) ruled)
        ((r : ℕ) → is_among r (option_to_list stack_pointer) ≡ true → PLACES ≤ r
        → LacksContent e (answer_in cfa) ruled r) }
{
    match stack_pointer {
        Some(number) => {
            let rule = rule_with_abi(kept, stack_pointer, rules, number);
            lacks_place(present, cfa, number, rule)
        }
        None => false,
    }
}

/// Whether a register in a row's rules has a content in the caller, but no place.
fn ruled_lack_place<R: Registers, M: Memory>(
    present: &Present<'_, R, M>,
    cfa: Answer,
    rules: RegisterRules<'_, '_>,
) -> bool
    requires kinds { All IsEntryOfKind rules }
    requires table { IsTable 0 rules }
    ensures { let e = machine_in R.contents M.bytes present.now in
        MatchBool result (HasFarContent e (answer_in cfa) (rule_in rules.entry))
        (LacksFarContents e (answer_in cfa) (rule_in rules.entry)) }
{
    for (number, rule) in rules {
        if lacks_place(present, cfa, number, rule) {
            return true;
        }
    }
    false
}

/// Whether one of the caller's registers has a content, by a row with these rules and the ABI, but
/// no place. A step asks this only after it has found a content that has no place: the row may give
/// that register another rule than the ABI does, as that it is undefined. The rules are passed by
/// value: if the row's address were passed, the row would have to be in memory.
#[cold]
#[inline(never)]
pub(crate) fn some_lacks_place<R: Registers, M: Memory>(
    present: &Present<'_, R, M>,
    cfa: Answer,
    kept: &[u16],
    stack_pointer: Option<u16>,
    rules: RegisterRules<'_, '_>,
) -> bool
    requires kinds { All IsEntryOfKind rules }
    requires table { IsTable 0 rules }
    ensures { let e = machine_in R.contents M.bytes present.now in
        let ruled = rule_under (abi_of kept.now stack_pointer) rules.entry in
        MatchBool result (HasFarContent e (answer_in cfa) ruled)
        (LacksFarContents e (answer_in cfa) ruled) }
{
    if kept_lack_place(present, cfa, kept, stack_pointer, &rules) {
        return true;
    }
    if pointer_lacks_place(present, cfa, kept, stack_pointer, &rules) {
        return true;
    }
    ruled_lack_place(present, cfa, rules)
}
