//! The effect of each operation: what it needs on the stack, and what it does to the stack.

ghost use Rattle.std.specs.Prelude.{◌≡◌, ◌≤◌, true, false};
ghost use Rattle.dw_ops.specs.Views.{operation_of};
ghost use Rattle.dw_stack.specs.Effects.{plain_effect, context_effect, naming_effect, effect_of};

use dw_ops::Operation;

/// What an operation says of the object's location or value, if anything. The role decides the
/// `Mode` after the operation.
#[derive(Clone, Copy)]
pub enum Role {
    /// Says nothing of the object: works on the stack, branches, or does nothing.
    Plain,
    /// Names a register, where the object is (`DW_OP_reg0` to `DW_OP_reg31`, `DW_OP_regx`).
    Register,
    /// Gives the object's bytes (`DW_OP_implicit_value`).
    Bytes,
    /// Makes the top of the stack the object's value (`DW_OP_stack_value`).
    Top,
    /// Ends a piece of the object (`DW_OP_piece`, `DW_OP_bit_piece`).
    Piece,
}

/// What an operation needs on the stack, what it does to the stack, and where it may lead.
#[derive(Clone, Copy)]
pub struct StackEffect {
    /// How many entries must be on the stack before the operation.
    pub needs: u16,
    /// How many entries the operation takes off the top of the stack.
    pub takes: u16,
    /// How many entries the operation pushes.
    pub adds: u16,
    pub role: Role,
    /// Whether an expression in call frame information may have the operation (DWARF 5, section
    /// 6.4.2).
    pub allowed_in_cfi: bool,
    /// Whether the run may go to the next operation without a branch: false only for `DW_OP_skip`.
    pub falls_through: bool,
    /// The operand of a branch: how many bytes the branch target is after the first byte of the
    /// next operation. `None` if the operation isn't a branch.
    pub jump: Option<i16>,
}

#[inline(always)]
fn computes(needs: u16, takes: u16, adds: u16) -> StackEffect
    ensures { result ≡ plain_effect needs takes adds }
{
    StackEffect {
        needs,
        takes,
        adds,
        role: Role::Plain,
        allowed_in_cfi: true,
        falls_through: true,
        jump: None,
    }
}

#[inline(always)]
fn asks_context() -> StackEffect
    ensures { result ≡ context_effect }
{
    StackEffect {
        allowed_in_cfi: false,
        ..computes(0, 0, 1)
    }
}

#[inline(always)]
fn names(role: Role, needs: u16, takes: u16) -> StackEffect
    ensures { result ≡ naming_effect role needs takes }
{
    StackEffect {
        role,
        allowed_in_cfi: false,
        ..computes(needs, takes, 0)
    }
}

#[inline(always)]
fn branches(needs: u16, falls_through: bool, offset: i16) -> StackEffect
    ensures { result ≡ record (plain_effect needs needs 0) {
      falls_through = falls_through;
      jump = Some offset;
    } }
{
    StackEffect {
        falls_through,
        jump: Some(offset),
        ..computes(needs, needs, 0)
    }
}

/// The effect of an operation.
#[inline(always)]
pub fn effect(operation: &Operation<'_>) -> StackEffect
    ensures effect { result ≡ effect_of (operation_of operation.now) }
    ensures fair { result.takes ≤ result.needs }
    ensures few { result.adds ≤ 3 }
{
    match *operation {
        Operation::Addr { .. } => computes(0, 0, 1),
        Operation::Deref => computes(1, 1, 1),
        Operation::Const1u { .. } => computes(0, 0, 1),
        Operation::Const1s { .. } => computes(0, 0, 1),
        Operation::Const2u { .. } => computes(0, 0, 1),
        Operation::Const2s { .. } => computes(0, 0, 1),
        Operation::Const4u { .. } => computes(0, 0, 1),
        Operation::Const4s { .. } => computes(0, 0, 1),
        Operation::Const8u { .. } => computes(0, 0, 1),
        Operation::Const8s { .. } => computes(0, 0, 1),
        Operation::Constu { .. } => computes(0, 0, 1),
        Operation::Consts { .. } => computes(0, 0, 1),
        Operation::Dup => computes(1, 0, 1),
        Operation::Drop => computes(1, 1, 0),
        Operation::Over => computes(2, 0, 1),
        Operation::Pick { index } => computes(u16::from(index) + 1, 0, 1),
        Operation::Swap => computes(2, 2, 2),
        Operation::Rot => computes(3, 3, 3),
        Operation::Abs => computes(1, 1, 1),
        Operation::And => computes(2, 2, 1),
        Operation::Div => computes(2, 2, 1),
        Operation::Minus => computes(2, 2, 1),
        Operation::Mod => computes(2, 2, 1),
        Operation::Mul => computes(2, 2, 1),
        Operation::Neg => computes(1, 1, 1),
        Operation::Not => computes(1, 1, 1),
        Operation::Or => computes(2, 2, 1),
        Operation::Plus => computes(2, 2, 1),
        Operation::PlusUconst { .. } => computes(1, 1, 1),
        Operation::Shl => computes(2, 2, 1),
        Operation::Shr => computes(2, 2, 1),
        Operation::Shra => computes(2, 2, 1),
        Operation::Xor => computes(2, 2, 1),
        Operation::Bra { offset } => branches(1, true, offset),
        Operation::Eq => computes(2, 2, 1),
        Operation::Ge => computes(2, 2, 1),
        Operation::Gt => computes(2, 2, 1),
        Operation::Le => computes(2, 2, 1),
        Operation::Lt => computes(2, 2, 1),
        Operation::Ne => computes(2, 2, 1),
        Operation::Skip { offset } => branches(0, false, offset),
        Operation::Lit { .. } => computes(0, 0, 1),
        Operation::Reg { .. } => names(Role::Register, 0, 0),
        Operation::Breg { .. } => computes(0, 0, 1),
        Operation::Regx { .. } => names(Role::Register, 0, 0),
        Operation::Fbreg { .. } => asks_context(),
        Operation::Bregx { .. } => computes(0, 0, 1),
        Operation::Piece { .. } => names(Role::Piece, 0, 0),
        Operation::DerefSize { .. } => computes(1, 1, 1),
        Operation::Nop => computes(0, 0, 0),
        Operation::PushObjectAddress => asks_context(),
        Operation::CallFrameCfa => asks_context(),
        Operation::BitPiece { .. } => names(Role::Piece, 0, 0),
        Operation::ImplicitValue { .. } => names(Role::Bytes, 0, 0),
        Operation::StackValue => names(Role::Top, 1, 1),
    }
}
