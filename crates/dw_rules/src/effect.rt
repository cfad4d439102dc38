//! What a call frame instruction does, with the CIE's alignment factors applied to its operands.

ghost use Rattle.std.specs.Prelude.{◌≡◌, pos, ◌*◌, ◌*ℤ◌};
ghost use Rattle.dw_frame.specs.Views.{cie_of, instruction_of};
ghost use Rattle.dw_rules.specs.Effects.{effect_of};
ghost use Rattle.dw_rules.specs.EffectViews.{effect_by};

use crate::stored_rule::StoredRule;
use dw_frame::{CallFrameInstruction, CommonInformationEntry};

/// What an instruction does to the location, the rules and the remembered rules. Offsets and deltas
/// are exact: whether they fit in 64 bits is not checked yet.
#[derive(Clone, Copy)]
pub enum InstructionEffect {
    Stays,
    AdvanceLoc(u128),
    SetLoc(u64),
    DefinesCfa { register: u16, offset: i128 },
    /// The CFA becomes what the expression at this offset of the section evaluates to.
    DefinesCfaExpression(u32),
    ChangesRegister(u16),
    ChangesOffset(i128),
    Sets { register: u16, rule: StoredRule },
    SetsOffset { register: u16, offset: i128 },
    SetsValOffset { register: u16, offset: i128 },
    Restores(u16),
    RememberState,
    RestoreState,
}

/// An unsigned offset that isn't multiplied by a factor.
#[inline(always)]
fn unfactored_offset(offset: u64) -> i128
    ensures { result ≡ pos offset }
{
    offset.into()
}

/// An unsigned offset times the data alignment factor.
#[inline(always)]
fn data_aligned_offset(cie: &CommonInformationEntry<'_>, offset: u64) -> i128
    ensures { result ≡ pos offset *ℤ cie.now.data_alignment_factor }
{
    i128::from(offset) * i128::from(cie.data_alignment_factor)
}

/// A signed offset times the data alignment factor.
#[inline(always)]
fn data_aligned_signed_offset(cie: &CommonInformationEntry<'_>, offset: i64) -> i128
    ensures { result ≡ offset *ℤ cie.now.data_alignment_factor }
{
    i128::from(offset) * i128::from(cie.data_alignment_factor)
}

/// An advance of the location by `delta` times the code alignment factor.
#[inline(always)]
fn advance_effect(cie: &CommonInformationEntry<'_>, delta: u32) -> InstructionEffect
    ensures { result ≡ InstructionEffect.AdvanceLoc (delta * cie.now.code_alignment_factor) }
{
    InstructionEffect::AdvanceLoc(u128::from(delta) * u128::from(cie.code_alignment_factor))
}

/// What `instruction` does, with the alignment factors of `cie` applied.
#[inline(always)]
pub fn instruction_effect(
    cie: &CommonInformationEntry<'_>,
    instruction: CallFrameInstruction<'_>,
) -> InstructionEffect
    ensures { effect_by result ≡ effect_of (cie_of cie.now) (instruction_of instruction.entry) }
{
    match instruction {
        CallFrameInstruction::Nop | CallFrameInstruction::NegateRaState => InstructionEffect::Stays,
        CallFrameInstruction::AdvanceLoc { delta } => advance_effect(cie, u32::from(delta)),
        CallFrameInstruction::AdvanceLoc1 { delta } => advance_effect(cie, u32::from(delta)),
        CallFrameInstruction::AdvanceLoc2 { delta } => advance_effect(cie, u32::from(delta)),
        CallFrameInstruction::AdvanceLoc4 { delta } => advance_effect(cie, delta),
        CallFrameInstruction::SetLoc { address } => InstructionEffect::SetLoc(address),
        CallFrameInstruction::DefCfa { register, offset } => InstructionEffect::DefinesCfa {
            register,
            offset: unfactored_offset(offset),
        },
        CallFrameInstruction::DefCfaSf {
            register,
            factored_offset,
        } => InstructionEffect::DefinesCfa {
            register,
            offset: data_aligned_signed_offset(cie, factored_offset),
        },
        CallFrameInstruction::DefCfaRegister { register } => InstructionEffect::ChangesRegister(
            register,
        ),
        CallFrameInstruction::DefCfaOffset { offset } => InstructionEffect::ChangesOffset(
            unfactored_offset(offset),
        ),
        CallFrameInstruction::DefCfaOffsetSf { factored_offset } => {
            InstructionEffect::ChangesOffset(data_aligned_signed_offset(cie, factored_offset))
        }
        CallFrameInstruction::DefCfaExpression { expression } => {
            InstructionEffect::DefinesCfaExpression(expression.offset)
        }
        CallFrameInstruction::Undefined { register } => InstructionEffect::Sets {
            register,
            rule: StoredRule::Undefined,
        },
        CallFrameInstruction::SameValue { register } => InstructionEffect::Sets {
            register,
            rule: StoredRule::SameValue,
        },
        CallFrameInstruction::Register { register, source } => InstructionEffect::Sets {
            register,
            rule: StoredRule::Register(source),
        },
        CallFrameInstruction::Offset {
            register,
            factored_offset,
        } => InstructionEffect::SetsOffset {
            register,
            offset: data_aligned_offset(cie, factored_offset),
        },
        CallFrameInstruction::OffsetExtended {
            register,
            factored_offset,
        } => InstructionEffect::SetsOffset {
            register,
            offset: data_aligned_offset(cie, factored_offset),
        },
        CallFrameInstruction::OffsetExtendedSf {
            register,
            factored_offset,
        } => InstructionEffect::SetsOffset {
            register,
            offset: data_aligned_signed_offset(cie, factored_offset),
        },
        CallFrameInstruction::ValOffset {
            register,
            factored_offset,
        } => InstructionEffect::SetsValOffset {
            register,
            offset: data_aligned_offset(cie, factored_offset),
        },
        CallFrameInstruction::ValOffsetSf {
            register,
            factored_offset,
        } => InstructionEffect::SetsValOffset {
            register,
            offset: data_aligned_signed_offset(cie, factored_offset),
        },
        CallFrameInstruction::Expression {
            register,
            expression,
        } => InstructionEffect::Sets {
            register,
            rule: StoredRule::Expression(expression.offset),
        },
        CallFrameInstruction::ValExpression {
            register,
            expression,
        } => InstructionEffect::Sets {
            register,
            rule: StoredRule::ValExpression(expression.offset),
        },
        CallFrameInstruction::Restore { register } => InstructionEffect::Restores(register),
        CallFrameInstruction::RestoreExtended { register } => InstructionEffect::Restores(register),
        CallFrameInstruction::RememberState => InstructionEffect::RememberState,
        CallFrameInstruction::RestoreState => InstructionEffect::RestoreState,
    }
}
