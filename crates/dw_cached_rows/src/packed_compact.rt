//! Compact rows in 24 bytes.

ghost use Rattle.std.specs.Prelude.{◌≡◌, ◌<◌, IfSome, List, [], ℕ, false};
ghost use Rattle.std.specs.Bool.{OnFalse, OnTrue};
ghost use Rattle.dw_rules.specs.Rules.{Rule, default, rule_in};
ghost use Rattle.dw_rules.specs.RowsWithExpressions.{rules_with_expressions};
ghost use Rattle.dw_compact_rows.specs.CompactRules.{stored_in};
ghost use Rattle.dw_compact_rows.specs.CompactRuns.{row_of_compact};
ghost use Rattle.dw_cached_rows.specs.PackedRows.{IsInWords, IsRowOf, is_packed, rule_given, saving_with};

use crate::packed_row::{
    LAST, PackedRow, R12, R13, R14, R15, RBP, RBX, RETURN_ADDRESS, row_with_cfa, words_of,
};
use dw_compact_rows::{CompactRow, CompactRules, REGISTERS, UNDEFINED};
use dw_rows::CfaRule;

/// Whether an entry has room for the rule of a register.
pub(crate) fn is_packed(register: usize) -> bool
    ensures { result ≡ is_packed register }
{
    register == usize::from(RBX)
        || register == usize::from(RBP)
        || (usize::from(R12) <= register && register <= usize::from(RETURN_ADDRESS))
}

/// Whether registers have rules for which an entry has no room.
fn rules_others(rules: &CompactRules) -> bool
    ensures { OnFalse result ((r : ℕ) → is_packed r ≡ false → r < 65536
        → rule_in (stored_in rules.now).rules r ≡ default) }
{
    let slots = rules.slots();
    for register in 0..REGISTERS {
        if !is_packed(register) && slots[register] != 0 {
            return true;
        }
    }
    false
}

/// Where a slot says that its register is saved, in words of 8 bytes; 0 if it has no rule. None if the
/// register is undefined, or if its offset can't be packed.
fn words_in_slot(slot: i16) -> Option<i8>
    ensures { IfSome result (IsInWords slot) }
{
    if slot == 0 {
        return Some(0);
    }
    if slot == UNDEFINED {
        return None;
    }
    words_of(i64::from(slot))
}

/// A row with the callee-saved registers that the rules save.
fn with_words(mut row: PackedRow, rules: &CompactRules) -> Option<PackedRow>
    requires { (r : ℕ) → is_packed r ≡ false → r < 65536 → rule_in (stored_in rules.now).rules r ≡ default }
    ensures rules { IfSome result (λ packed. rules_with_expressions [] (stored_in rules.now).rules
        ≡ saving_with packed (rule_given RETURN_ADDRESS (rule_in (stored_in rules.now).rules RETURN_ADDRESS))) }
    ensures same { IfSome result (λ packed. (packed.form ≡ row.form)
        × (packed.cfa_offset ≡ row.cfa_offset)) }
    ensures limit { IfSome result (λ packed. packed.plt_limit ≡ row.plt_limit) }
{
    let slots = rules.slots();
    row.rbx = words_in_slot(slots[usize::from(RBX)])?;
    row.rbp = words_in_slot(slots[usize::from(RBP)])?;
    row.r12 = words_in_slot(slots[usize::from(R12)])?;
    row.r13 = words_in_slot(slots[usize::from(R13)])?;
    row.r14 = words_in_slot(slots[usize::from(R14)])?;
    row.r15 = words_in_slot(slots[usize::from(R15)])?;
    Some(row)
}

/// Whether no callee-saved register is saved.
fn saves_none(row: &PackedRow) -> bool
    ensures { OnTrue result ((rest : List (ℕ × Rule)) → saving_with row.now rest ≡ rest) }
{
    row.rbx == 0 && row.rbp == 0 && row.r12 == 0 && row.r13 == 0 && row.r14 == 0 && row.r15 == 0
}

/// Packs a compact row, for no address and no module yet. None if it can't be packed.
pub(crate) fn pack_compact(row: &CompactRow) -> Option<PackedRow>
    ensures row { IfSome result (λ packed. IsRowOf packed (row_of_compact row.now)) }
    ensures plain { IfSome result (λ packed. packed.plt_limit ≡ 0) }
{
    if rules_others(&row.rules) {
        return None;
    }
    let (register, offset) = row.rules.cfa();
    let empty = row_with_cfa(CfaRule::RegisterAndOffset { register, offset })?;
    let mut packed = with_words(empty, &row.rules)?;
    let slot = row.rules.slots()[usize::from(RETURN_ADDRESS)];
    if slot == -8 {
        return Some(packed);
    }
    if slot != UNDEFINED || !saves_none(&packed) {
        return None;
    }
    packed.form += LAST;
    Some(packed)
}
