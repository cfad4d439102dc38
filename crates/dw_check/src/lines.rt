//! Formats lines of output. Each function appends to `line`, a buffer that is reused.

ghost use Rattle.std.specs.Prelude.{◌≡◌, ◌++◌, ◌+◌, ◌^◌, ◌<◌, Some, OnOk};
ghost use Rattle.std.specs.List.{flat_map};
ghost use Rattle.std.specs.String.{string_bytes};
ghost use Rattle.dw_frame.specs.Views.{cie_of, fde_of};
ghost use Rattle.dw_stack.specs.Certificates.{checked_of};
ghost use Rattle.dw_rules.specs.Views.{rule_of, cfa_rule_of};
ghost use Rattle.dw_bytes.specs.Text.{kind_text};
ghost use Rattle.dw_check.specs.Text.{refused_line, expression_text, expression_offset_line, records_text, fde_line, cfa_text};
ghost use Rattle.dw_check.specs.Text.{rule_text, register_text, row_line, digits_of, Fits};

use crate::numbers::{push_decimal, push_offset, push_range, push_signed};
use dw_bytes::{AddressSize, Fault, FaultKind};
use dw_frame::{CommonInformationEntry, FrameDescriptionEntry};
use dw_rows::{CfaRule, RegisterRule, UnwindTableRow};
use dw_rules::RegisterRules;
use dw_sections::Section;
use dw_stack::CheckedExpression;
use std::alloc::AllocError;

#[tactic(auto, unfolding(dw_bytes::specs::Text::kind_text))]
fn push_fault_kind(line: &mut String, kind: FaultKind) -> Result<(), AllocError>
    ensures { OnOk result (string_bytes line.new ≡ string_bytes line.old ++ kind_text kind) }
{
    push_decimal(line, kind.number())?;
    line.push_str(" ")?;
    line.push_str(kind.name())
}

/// The line that says why an input is refused.
#[tactic(auto, unfolding(crate::specs::Text::refused_line))]
pub(crate) fn push_refused(
    line: &mut String,
    section: Section,
    fault: Fault,
) -> Result<(), AllocError>
    ensures { OnOk result (string_bytes line.new ≡ string_bytes line.old
        ++ refused_line section fault) }
{
    line.push_str("refused ")?;
    push_fault_kind(line, fault.kind)?;
    line.push_str(" ")?;
    line.push_str(section.text())?;
    line.push_str(" ")?;
    push_offset(line, fault.at)?;
    line.push_str("\n")
}

/// The line before an expression's outcome: the expression's offset in its section.
#[tactic(auto, unfolding(crate::specs::Text::expression_offset_line))]
pub(crate) fn push_expression_offset(line: &mut String, offset: u32) -> Result<(), AllocError>
    ensures { OnOk result (string_bytes line.new ≡ string_bytes line.old
        ++ expression_offset_line offset) }
{
    line.push_str("expr ")?;
    push_offset(line, offset)?;
    line.push_str("\n")
}

#[tactic(auto, unfolding(crate::specs::Text::records_text))]
fn push_fde_and_cie(
    line: &mut String,
    cie: &CommonInformationEntry<'_>,
    fde: &FrameDescriptionEntry<'_>,
) -> Result<(), AllocError>
    ensures { OnOk result (string_bytes line.new ≡ string_bytes line.old
        ++ records_text (cie_of cie.now) (fde_of fde.now)) }
{
    line.push_str("fde ")?;
    push_offset(line, fde.offset)?;
    line.push_str(" cie ")?;
    push_offset(line, cie.offset)
}

/// The line of an FDE: its offset, its CIE's offset, its addresses and the return address register.
#[tactic(auto, unfolding(crate::specs::Text::fde_line))]
pub(crate) fn push_fde(
    line: &mut String,
    size: AddressSize,
    cie: &CommonInformationEntry<'_>,
    fde: &FrameDescriptionEntry<'_>,
) -> Result<(), AllocError>
    requires { fde.now.initial_location + fde.now.address_range < 16 ^ digits_of size }
    ensures { OnOk result (string_bytes line.new ≡ string_bytes line.old
        ++ fde_line size (cie_of cie.now) (fde_of fde.now)) }
{
    let end = fde.end_address();
    push_fde_and_cie(line, cie, fde)?;
    line.push_str(" ")?;
    push_range(line, size, fde.initial_location, end)?;
    line.push_str(" ra r")?;
    push_decimal(line, cie.return_address_register)?;
    line.push_str("\n")
}

/// The expression of a CFA rule or a register rule: its bytes in hex, as `expr(..)`.
#[tactic(auto, unfolding(crate::specs::Text::expression_text))]
fn push_expression_bytes(
    line: &mut String,
    checked: &CheckedExpression<'_>,
) -> Result<(), AllocError>
    ensures { OnOk result (string_bytes line.new ≡ string_bytes line.old
        ++ expression_text (checked_of checked.now).bytes) }
{
    let text = hex::encode(*line.allocator(), checked.expression().bytes())?;
    line.push_str("expr(")?;
    line.push_str(&text)?;
    line.push_str(")")
}

fn push_cfa_rule(line: &mut String, rule: CfaRule<'_>) -> Result<(), AllocError>
    ensures { OnOk result (string_bytes line.new ≡ string_bytes line.old
        ++ cfa_text (Some (cfa_rule_of rule.entry))) }
{
    match rule {
        CfaRule::RegisterAndOffset { register, offset } => {
            line.push_str("r")?;
            push_decimal(line, register)?;
            push_signed(line, offset)
        }
        CfaRule::Expression { expression, .. } => push_expression_bytes(line, &expression),
    }
}

fn push_rule(line: &mut String, rule: RegisterRule<'_>) -> Result<(), AllocError>
    ensures { OnOk result (string_bytes line.new ≡ string_bytes line.old
        ++ rule_text (rule_of rule.entry)) }
{
    match rule {
        RegisterRule::Default => Ok(()),
        RegisterRule::Undefined => line.push_str("u"),
        RegisterRule::SameValue => line.push_str("s"),
        RegisterRule::Offset(offset) => {
            line.push_str("[c")?;
            push_signed(line, offset)?;
            line.push_str("]")
        }
        RegisterRule::ValOffset(offset) => {
            line.push_str("c")?;
            push_signed(line, offset)
        }
        RegisterRule::Register(register) => {
            line.push_str("r")?;
            push_decimal(line, register)
        }
        RegisterRule::Expression { expression, .. } => {
            line.push_str("[")?;
            push_expression_bytes(line, &expression)?;
            line.push_str("]")
        }
        RegisterRule::ValExpression { expression, .. } => push_expression_bytes(line, &expression),
    }
}

fn push_register_rule(
    line: &mut String,
    register: u16,
    rule: RegisterRule<'_>,
) -> Result<(), AllocError>
    ensures { OnOk result (string_bytes line.new ≡ string_bytes line.old
        ++ register_text (register, rule_of rule.entry)) }
{
    line.push_str(" r")?;
    push_decimal(line, register)?;
    line.push_str("=")?;
    push_rule(line, rule)
}

fn push_rules(line: &mut String, rules: RegisterRules<'_, '_>) -> Result<(), AllocError>
    ensures { OnOk result (string_bytes line.new ≡ string_bytes line.old
        ++ flat_map register_text rules.entry) }
{
    for (register, rule) in rules {
        push_register_rule(line, register, rule)?;
    }
    Ok(())
}

/// The line of a row: its addresses, its CFA rule and the rules of its registers.
#[tactic(auto, unfolding(crate::specs::Text::row_line))]
pub(crate) fn push_row(
    line: &mut String,
    size: AddressSize,
    row: &UnwindTableRow<'_, '_>,
) -> Result<(), AllocError>
    requires { Fits size row.now }
    ensures { OnOk result (string_bytes line.new ≡ string_bytes line.old ++ row_line size row.now) }
{
    line.push_str("row ")?;
    push_range(line, size, row.start_address(), row.end_address())?;
    line.push_str(" cfa=")?;
    push_cfa_rule(line, row.cfa())?;
    push_rules(line, row.rules())?;
    line.push_str("\n")
}
