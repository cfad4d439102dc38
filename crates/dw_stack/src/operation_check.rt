//! Checking one operation in one state, and the state after it.

ghost use Rattle.std.specs.Prelude.{◌≡◌, ◌<◌, ◌≤◌, length, Some, IfOk, IfErr};
ghost use Rattle.dw_stack.specs.Paths.{IsLaidOut};
ghost use Rattle.dw_stack.specs.OperationCheck.{IsEffectAt, Suits, Checked, Objects};
ghost use Rattle.dw_stack.specs.Faults.{suits, first_failed};
ghost use Rattle.dw_stack.specs.Views.{placed_in};

use crate::effect::{Role, StackEffect, effect};
use crate::state::{Kind, StackState, may_stand_at_state, next_state};
use crate::target::place_of_jump;
use dw_bytes::FaultKind;
use dw_ops::Operation;

/// The greatest stack height that an expression may reach.
pub const MAX_HEIGHT: u16 = 128;

/// The greatest number of piece operations that an expression may have.
pub const MAX_PIECES: usize = 32;

/// The result of checking an operation: the state after it, and which operations may run next.
#[derive(Clone, Copy)]
pub struct OutState {
    /// The state after the operation.
    pub state: StackState,
    /// The stack height after the operation, before a piece clears the stack.
    pub height: u8,
    /// Whether the operation is a piece operation.
    pub piece: bool,
    /// Whether the run may go to the next operation without a branch: false only for `DW_OP_skip`.
    pub falls_through: bool,
    /// The index of the operation at the branch target, or the number of all operations if the
    /// branch target is the end. `None` if the operation isn't a branch.
    pub target: Option<usize>,
}

/// The effect of operation `i`.
#[tactic(auto, using(crate::proofs::Lists::reads))]
#[inline(always)]
fn effect_at(operations: &[(u32, Operation<'_>)], i: usize) -> StackEffect
    requires { i < length operations.now }
    ensures effect { IsEffectAt (placed_in operations.now) i result }
    ensures fair { result.takes ≤ result.needs }
    ensures few { result.adds ≤ 3 }
{
    effect(&operations[i].1)
}

/// Checks whether an operation with effect `effect` is allowed in state `state`, if `pieces` piece
/// operations come before it. Returns the stack height after the operation, before a piece clears
/// the stack. Doesn't check the target of a branch.
#[inline(always)]
pub fn suits(
    kind: Kind,
    effect: &StackEffect,
    pieces: usize,
    state: StackState,
) -> Result<u8, FaultKind>
    requires fair { effect.now.takes ≤ effect.now.needs }
    requires few { effect.now.adds ≤ 3 }
    ensures ok { IfOk result (Suits kind effect.now pieces state) }
    ensures err { IfErr result (λ f. first_failed (suits kind pieces effect.now state) ≡ Some f) }
{
    let located = matches!(kind, Kind::Location);
    if !located && !effect.allowed_in_cfi {
        return Err(FaultKind::NotInFrame);
    }
    if !may_stand_at_state(effect.role, state) {
        return Err(FaultKind::NotAlone);
    }
    if u16::from(state.height) < effect.needs {
        return Err(FaultKind::Underflow);
    }
    let height = u16::from(state.height) - effect.takes + effect.adds;
    if height > MAX_HEIGHT {
        return Err(FaultKind::TooDeep);
    }
    if matches!(effect.role, Role::Piece) && pieces >= MAX_PIECES {
        return Err(FaultKind::TooManyPieces);
    }
    Ok(height as u8)
}

/// Checks operation `i` in state `state`, if `pieces` piece operations come before it: whether it
/// is allowed there, and whether it branches forward to the start of an operation, or to the end.
#[inline(always)]
pub fn check_operation(
    kind: Kind,
    operations: &[(u32, Operation<'_>)],
    end: u32,
    i: usize,
    pieces: usize,
    state: StackState,
) -> Result<OutState, FaultKind>
    requires laid { IsLaidOut (placed_in operations.now) end }
    requires i { i < length operations.now }
    ensures ok { IfOk result (Checked kind (placed_in operations.now) end i pieces state) }
    ensures err { IfErr result (Objects kind (placed_in operations.now) end i pieces state) }
{
    let effect = effect_at(operations, i);
    let height = suits(kind, &effect, pieces, state)?;
    let target = match effect.jump {
        Some(jump) => Some(place_of_jump(operations, end, i, jump)?),
        None => None,
    };
    Ok(OutState {
        state: next_state(effect.role, height, state.pieced),
        height,
        piece: matches!(effect.role, Role::Piece),
        falls_through: effect.falls_through,
        target,
    })
}
