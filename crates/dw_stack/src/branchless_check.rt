//! A faster check for expressions without branches.

ghost use Rattle.std.specs.Prelude.{◌≡◌, IfSome, None};
ghost use Rattle.dw_ops.specs.Views.{bytes_of, target_of, operation_of};
ghost use Rattle.dw_stack.specs.Effects.{effect_of};
ghost use Rattle.dw_stack.specs.States.{state_after};
ghost use Rattle.dw_stack.specs.Paths.{is_piece};
ghost use Rattle.dw_stack.specs.OperationCheck.{Suits};
ghost use Rattle.dw_stack.specs.Expressions.{AreStatesOf, IsChecked, IsOf};
ghost use Rattle.dw_stack.specs.Certificates.{checked_of, checked_in, states_in};

use crate::certificate::Certificate;
use crate::checked::CheckedExpression;
use crate::effect::{Role, effect};
use crate::operation_check::suits;
use crate::state::{Kind, StackState, has_result, next_state, start_state};
use dw_ops::{Expression, Operation, decode_one};
use smallvec::SmallVec;
use std::alloc::Global;

/// The result of checking an operation that isn't a branch.
#[derive(Clone, Copy)]
struct Left {
    /// The state after the operation.
    state: StackState,
    /// The stack height after the operation, before a piece clears the stack.
    height: u8,
    /// Whether the operation is a piece operation.
    piece: bool,
}

/// Checks an operation in state `state`, if `pieces` piece operations come before it. `None` if the
/// operation is a branch or isn't allowed there.
#[inline(always)]
fn check_operation_branchless(
    kind: Kind,
    operation: &Operation<'_>,
    pieces: usize,
    state: StackState,
) -> Option<Left>
    ensures straight { IfSome result (λ _. (effect_of (operation_of operation.now)).jump ≡ None) }
    ensures suits { IfSome result
        (λ left. Suits kind (effect_of (operation_of operation.now)) pieces state left.height) }
    ensures state { IfSome result
        (λ left. left.state ≡ state_after (effect_of (operation_of operation.now)) state) }
    ensures piece { IfSome result
        (λ left. left.piece ≡ is_piece (effect_of (operation_of operation.now)).role) }
{
    let effect = effect(operation);
    match (effect.jump, suits(kind, &effect, pieces, state)) {
        (None, Ok(height)) => Some(Left {
            state: next_state(effect.role, height, state.pieced),
            height,
            piece: matches!(effect.role, Role::Piece),
        }),
        _ => None,
    }
}

/// Checks an expression without branches in one pass over its bytes. `None` if the expression has a
/// branch or a fault. Nearly all real expressions have one to four operations and no branch; for
/// them it is enough to track one state, so no list of operations or states is made.
pub fn check_branchless<'a>(expression: Expression<'a>, kind: Kind) -> Option<CheckedExpression<'a>>
    ensures checked { IfSome result (λ c. IsChecked (checked_of c)) }
    ensures same { IfSome result (λ c. IsOf kind (target_of expression.entry)
        (bytes_of expression.entry) (checked_of c)) }
{
    let end = expression.bytes().len() as u32;
    let mut state = start_state(kind);
    let mut depth = state.height;
    let mut pieces = 0;
    let mut count = 0;
    let mut at = 0;
    while at < end {
        let Ok((operation, next)) = decode_one(&expression, at) else {
            return None;
        };
        let left = check_operation_branchless(kind, &operation, pieces, state)?;
        depth = depth.max(state.height).max(left.height);
        pieces += if left.piece { 1 } else { 0 };
        state = left.state;
        count += 1;
        at = next;
    }
    if !has_result(kind, count == 0, state) {
        return None;
    }
    Some(CheckedExpression::new(expression, kind, depth, count))
}

/// Certifies an expression without branches in one pass over its bytes. `None` if the expression
/// has a branch or a fault, or if there is no memory for its states. This is faster than
/// `check_with_states`, which for a few operations spends most of its time making lists of
/// operations and of `InState`. Here only the list of states is made.
pub fn certify_branchless<'a>(
    alloc: Global,
    expression: Expression<'a>,
    kind: Kind,
) -> Option<Certificate<'a>>
    ensures checked { IfSome result (λ c. IsChecked (checked_in c)) }
    ensures same { IfSome result (λ c. IsOf kind (target_of expression.entry)
        (bytes_of expression.entry) (checked_in c)) }
    ensures states { IfSome result (λ c. AreStatesOf kind (target_of expression.entry)
        (bytes_of expression.entry) (states_in c)) }
{
    let end = expression.bytes().len() as u32;
    let mut states = SmallVec::new(alloc);
    let mut state = start_state(kind);
    let mut depth = state.height;
    let mut pieces = 0;
    let mut count = 0;
    let mut at = 0;
    while at < end {
        let Ok((operation, next)) = decode_one(&expression, at) else {
            return None;
        };
        let left = check_operation_branchless(kind, &operation, pieces, state)?;
        let Ok(()) = states.push(state.at(at)) else {
            return None;
        };
        depth = depth.max(state.height).max(left.height);
        pieces += if left.piece { 1 } else { 0 };
        state = left.state;
        count += 1;
        at = next;
    }
    if !has_result(kind, count == 0, state) {
        return None;
    }
    Some(Certificate {
        checked: CheckedExpression::new(expression, kind, depth, count),
        states,
    })
}
