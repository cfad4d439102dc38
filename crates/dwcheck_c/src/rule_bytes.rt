//! The C call that gives the bytes of a rule's expression.

ghost use Rattle.std.specs.Option.{IsSomeAnd};
ghost use Rattle.std.specs.Prelude.{◌≡◌, ◌⊎◌, None, Some, length, option_map};
ghost use Rattle.dw_rules.specs.Views.{cfa_rule_of, rule_of};
ghost use Rattle.dw_c_types.specs.Slots.{put_into};
ghost use Rattle.dwcheck_c.specs.Lent.{Reads, loan_of, read_by};
ghost use Rattle.dwcheck_c.specs.RuleBytes.{bytes_at, bytes_in_row, cfa_bytes, rule_bytes};

use crate::process_reader::{LentProcess, put};
use crate::read_right::Right;
use dw_c_types::slots::write_all;
use dw_c_types::status::{DONE, NONE};
use dw_rows::{CfaRule, RegisterRule};
use dw_rules::UnwindRow;

/// The number that stands for the rule of the CFA. No register has it.
pub const CFA_RULE: u32 = 0x10000;

/// Where the number of an expression's bytes is written, with a part of the right to read the
/// process, which takes no bytes: C passes a pointer to a number.
#[repr(C)]
pub struct SizePlace {
    size: usize,
    right: Right,
}

const _: () = prove!(size_of::<SizePlace>() == size_of::<usize>());

/// The bytes of the expression of a register's rule; none if the rule has no expression.
fn bytes_of_rule<'a>(rule: RegisterRule<'a>) -> Option<&'a [u8]>
    ensures { option_map (λ bytes. bytes.now) result ≡ rule_bytes (rule_of rule.entry) }
{
    match rule {
        RegisterRule::Expression { expression, .. } => Some(expression.expression().bytes()),
        RegisterRule::ValExpression { expression, .. } => Some(expression.expression().bytes()),
        _ => None,
    }
}

/// The bytes of the expression of the CFA's rule; none if the CFA is a register plus an offset.
fn bytes_of_cfa<'a>(rule: CfaRule<'a>) -> Option<&'a [u8]>
    ensures { option_map (λ bytes. bytes.now) result ≡ cfa_bytes (Some (cfa_rule_of rule.entry)) }
{
    match rule {
        CfaRule::Expression { expression, .. } => Some(expression.expression().bytes()),
        CfaRule::RegisterAndOffset { .. } => None,
    }
}

/// The bytes of the expression that a row has for the register `number`, or for the CFA if that is
/// `CFA_RULE`.
fn bytes_of_row<'a>(row: &UnwindRow<'_, 'a>, number: u32) -> Option<&'a [u8]>
    ensures { option_map (λ bytes. bytes.now) result ≡ bytes_in_row row.now number }
{
    if number == CFA_RULE {
        return bytes_of_cfa(row.cfa());
    }
    match u16::try_from(number) {
        Ok(register) => bytes_of_rule(row.register(register)),
        Err(_) => None,
    }
}

/// Writes the bytes of a rule's expression to `bytes`, as many as fit, and their number to `size`.
/// The rule is that of the register `number`, or of the CFA if that is `CFA_RULE`, in the row of
/// `address`, an address as loaded. Returns `NONE` if there is no row, or if the rule has no
/// expression.
#[unsafe(no_mangle)]
pub extern "C" fn dwcheck_rule_bytes(
    process: &LentProcess,
    address: u64,
    number: u32,
    bytes: &mut [u8],
    size: &mut SizePlace,
) -> u32
    requires { Reads size.old.right process.now }
    ensures done { result ≡ DONE → IsSomeAnd (bytes_at (read_by size.old.right) address number)
        (λ all. (bytes.new ≡ put_into all bytes.old) × (size.new.size ≡ length all)) }
    ensures none { result ≡ NONE → bytes_at (read_by size.old.right) address number ≡ None }
    ensures codes { (result ≡ DONE) ⊎ (result ≡ NONE) }
    ensures unwritten { result ≡ NONE
        → (bytes.new ≡ bytes.old) × (size.new.size ≡ size.old.size) }
    ensures same { loan_of size.new.right ≡ loan_of size.old.right }
{
    let Some(part) = process.take(&mut size.right) else {
        return NONE;
    };
    let status = match part.get().row_for_address(address) {
        Some(found) => match bytes_of_row(&found.row, number) {
            Some(all) => {
                write_all(all, bytes);
                size.size = all.len();
                DONE
            }
            None => NONE,
        },
        None => NONE,
    };
    put(part, &mut size.right);
    status
}
