//! The row of a stack that gcc has realigned, in 24 bytes.

ghost use Rattle.std.specs.Prelude.{◌≡◌, IfSome, ℕ, false, true, negsuc};
ghost use Rattle.std.specs.Bool.{OnFalse, OnTrue};
ghost use Rattle.dw_rules.specs.Rules.{cfa_expression, default, offset, rule_in};
ghost use Rattle.dw_rules.specs.Views.{cfa_rule_of, rule_of};
ghost use Rattle.dw_stack.specs.Located.{LocatedExpression, located_of};
ghost use Rattle.dw_cached_rows.specs.PackedRows.{IsCoded, IsRealignedRowOf, IsSavedByRbp, address_operations, are_small, first_are_small, is_packed, is_saved_small, is_small, word_byte, word_operations};

use crate::packed_compact::is_packed;
use crate::packed_row::{
    LITTLE_64, PackedRow, R12, R13, R14, R15, RBP, RBX, REALIGNED, RETURN_ADDRESS,
};
use dw_rows::{CfaRule, RegisterRule};
use dw_rules::UnwindRow;
use dw_stack::CheckedExpression;

/// The opcodes of DW_OP_breg6, which gives rbp plus an offset, and of DW_OP_deref (DWARF 5, section
/// 7.7.1).
const BREG_RBP: u8 = 0x76;

const DEREF: u8 = 0x06;

/// The number of words that a byte of SLEB128 says in bytes. None if it says no multiple of 8, or if
/// another byte follows.
fn words_in(byte: u8) -> Option<i8>
    ensures { IfSome result (λ words. (is_small words ≡ true) × (word_byte words ≡ byte)) }
{
    if byte >= 128 || byte % 8 != 0 {
        return None;
    }
    let words = (byte / 8) as i8;
    if words < 8 {
        Some(words)
    } else {
        Some(words - 16)
    }
}

/// How many words above rbp the address is that an expression gives. None if it is another one.
fn words_of_address(expression: &CheckedExpression<'_>) -> Option<i8>
    ensures { IfSome result (λ words. (at : ℕ)
        → IsCoded (address_operations words) 2 (located_of (at, expression.now))) }
{
    let expression = expression.expression();
    let bytes = expression.bytes();
    if expression.target() != LITTLE_64 || bytes.len() != 2 || bytes[0] != BREG_RBP {
        return None;
    }
    words_in(bytes[1])
}

/// How many words above rbp the word is that an expression reads. None if it is another one.
fn words_of_word(expression: &CheckedExpression<'_>) -> Option<i8>
    ensures { IfSome result (λ words. (at : ℕ)
        → IsCoded (word_operations words) 3 (located_of (at, expression.now))) }
{
    let expression = expression.expression();
    let bytes = expression.bytes();
    if expression.target() != LITTLE_64
        || bytes.len() != 3
        || bytes[0] != BREG_RBP
        || bytes[2] != DEREF
    {
        return None;
    }
    words_in(bytes[1])
}

/// Where the CFA is saved, in words above rbp. None if the CFA isn't what memory holds there.
fn cfa_words(cfa: CfaRule<'_>) -> Option<i8>
    ensures { IfSome result (λ words. (x : LocatedExpression)
        × (cfa_rule_of cfa.entry ≡ cfa_expression x) × IsCoded (word_operations words) 3 x) }
{
    match cfa {
        CfaRule::Expression { expression, .. } => words_of_word(&expression),
        _ => None,
    }
}

/// Where a register is saved, in words above the one after rbp's; 0 if it has no rule. None if it isn't
/// saved at an address by rbp.
fn saved_words(rule: RegisterRule<'_>) -> Option<i8>
    ensures { IfSome result (λ words. IsSavedByRbp words (rule_of rule.entry)) }
{
    match rule {
        RegisterRule::Default => Some(0),
        RegisterRule::Expression { expression, .. } => {
            let words = words_of_address(&expression)?;
            match words.checked_sub(1) {
                Some(0) | None => None,
                Some(saved) => Some(saved),
            }
        }
        _ => None,
    }
}

/// Whether a register is saved just below the CFA.
fn is_just_below(rule: RegisterRule<'_>) -> bool
    ensures { OnTrue result (rule_of rule.entry ≡ offset (negsuc 7)) }
{
    match rule {
        RegisterRule::Offset(offset) => offset == -8,
        _ => false,
    }
}

/// Whether registers have rules for which an entry has no room.
fn rules_others(row: &UnwindRow<'_, '_>) -> bool
    ensures { OnFalse result ((r : ℕ) → is_packed r ≡ false → rule_in row.now.rules r ≡ default) }
{
    for (register, _) in row.rules() {
        if !is_packed(usize::from(register)) {
            return true;
        }
    }
    false
}

/// Packs the row of a realigned stack, for no address and no module yet. None if it isn't one.
pub(crate) fn pack_realigned(row: &UnwindRow<'_, '_>) -> Option<PackedRow>
    ensures { IfSome result (λ packed. IsRealignedRowOf packed row.now) }
{
    let words = cfa_words(row.cfa())?;
    if !is_just_below(row.register(RETURN_ADDRESS)) {
        return None;
    }
    if rules_others(row) {
        return None;
    }
    let mut packed = PackedRow::none();
    packed.form = REALIGNED;
    packed.cfa_offset = i32::from(words);
    packed.rbx = saved_words(row.register(RBX))?;
    packed.rbp = saved_words(row.register(RBP))?;
    packed.r12 = saved_words(row.register(R12))?;
    packed.r13 = saved_words(row.register(R13))?;
    packed.r14 = saved_words(row.register(R14))?;
    packed.r15 = saved_words(row.register(R15))?;
    Some(packed)
}

/// Whether one byte of SLEB128 can encode this number of words, in bytes.
fn is_small(words: i32) -> bool
    ensures { result ≡ is_small words }
{
    -8 <= words && words < 8
}

/// The same of where a register is saved, if it is.
fn is_saved_small(words: i8) -> bool
    ensures { result ≡ is_saved_small words }
{
    words == 0 || is_small(i32::from(words) + 1)
}

/// The same of where the CFA and the first three registers are saved.
fn first_are_small(row: &PackedRow) -> bool
    ensures { result ≡ first_are_small row.now }
{
    is_small(row.cfa_offset)
        && is_saved_small(row.rbx)
        && is_saved_small(row.rbp)
        && is_saved_small(row.r12)
}

/// Whether an entry may stand for the row of a realigned stack: any other row isn't packed so.
pub(crate) fn are_small(row: &PackedRow) -> bool
    ensures { result ≡ are_small row.now }
{
    first_are_small(row)
        && is_saved_small(row.r13)
        && is_saved_small(row.r14)
        && is_saved_small(row.r15)
}
