//! One step of the pass over the operations: checking one operation and passing on its state.

ghost use Rattle.std.specs.Prelude.{◌≡◌, ◌+◌, ◌<◌, length, ◌↔◌, IsTrue, IfOk, IfErr, IfSome};
ghost use Rattle.dw_stack.specs.Paths.{IsLaidOut};
ghost use Rattle.dw_stack.specs.Faults.{Keeps};
ghost use Rattle.dw_stack.specs.InStates.{Stepped, StepObjects, given_of};
ghost use Rattle.dw_stack.specs.Views.{placed_in};

use crate::in_state::{InState, in_state_at, pass_on};
use crate::operation_check::check_operation;
use crate::state::{Kind, StackState, State};
use crate::target::place_of_operation;
use dw_bytes::FaultKind;
use dw_ops::Operation;

/// What one step reports about its operation: the state before the operation, the stack height
/// after the operation (before a piece clears the stack), and whether the operation is a piece.
#[derive(Clone, Copy)]
pub struct Done {
    pub state: StackState,
    pub height: u8,
    pub piece: bool,
}

/// Whether `state` equals the state at index `i` of `given`; true if `given` is `None`.
#[inline(always)]
fn is_given(given: Option<&[State]>, i: usize, state: State) -> bool
    requires { IfSome given (λ states. i < length states.now) }
    ensures { IsTrue result ↔ Keeps (given_of given.entry) i state }
{
    match given {
        Some(states) => states[i] == state,
        None => true,
    }
}

/// Checks operation `i` and passes the state after it on to the operations that may run next. If
/// `given` has states, the one at index `i` must equal the state before the operation.
#[inline(always)]
pub fn step_of_pass(
    kind: Kind,
    operations: &[(u32, Operation<'_>)],
    end: u32,
    given: Option<&[State]>,
    i: usize,
    pieces: usize,
    in_states: &mut [InState],
) -> Result<Done, FaultKind>
    requires laid { IsLaidOut (placed_in operations.now) end }
    requires i { i < length operations.now }
    requires wide { length in_states.old ≡ length operations.now + 1 }
    requires given { IfSome given (λ states. length states.now ≡ length operations.now) }
    ensures ok { IfOk result (λ done. Stepped kind (placed_in operations.now) end
        (given_of given.entry) i pieces in_states.old done in_states.new) }
    ensures err { IfErr result (StepObjects kind (placed_in operations.now) end
        (given_of given.entry) i pieces in_states.old) }
{
    let state = in_state_at(in_states, i)?;
    if !is_given(given, i, state.at(place_of_operation(operations, end, i))) {
        return Err(FaultKind::CertState);
    }
    let out = check_operation(kind, operations, end, i, pieces, state)?;
    pass_on(in_states, i, &out);
    Ok(Done {
        state,
        height: out.height,
        piece: out.piece,
    })
}
