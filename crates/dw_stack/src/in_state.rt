//! `InState`: what is known of the state before each operation, and at the end of the expression.

ghost use Rattle.std.specs.Prelude.{◌≡◌, ◌+◌, ◌<◌, length, slice_index_or, IfSome};
ghost use Rattle.dw_stack.specs.InStates.{Merges, Receives, PassesOn, known_state};

use crate::operation_check::OutState;
use crate::state::StackState;
use dw_bytes::FaultKind;

/// What the operations checked so far say about the state before an operation: `Unreached` if none
/// of them leads to the operation, `Known` if all that lead there give the same state, `Conflict`
/// if two give different states.
#[derive(Clone, Copy)]
pub enum InState {
    Unreached,
    Known(StackState),
    Conflict,
}

/// `Unreached`, which fills the unused slots of a `SmallVec`.
impl Default for InState {
    fn default() -> Self
        ensures { result ≡ InState.Unreached }
    {
        InState::Unreached
    }
}

#[inline(always)]
fn merge(old: InState, state: StackState) -> InState
    ensures { Merges old state result }
{
    match old {
        InState::Unreached => InState::Known(state),
        InState::Known(there) => {
            if there.is(state) {
                InState::Known(there)
            } else {
                InState::Conflict
            }
        }
        InState::Conflict => InState::Conflict,
    }
}

#[inline(always)]
fn receive(in_states: &mut [InState], j: usize, state: StackState)
    requires { j < length in_states.old }
    ensures { Receives in_states.old j state in_states.new }
{
    in_states[j] = merge(in_states[j], state);
}

/// Passes the state after operation `i` on to the operations that may run next.
#[inline(always)]
pub fn pass_on(in_states: &mut [InState], i: usize, out: &OutState)
    requires next { i + 1 < length in_states.old }
    requires target { IfSome out.now.target (λ j. j < length in_states.old) }
    ensures { PassesOn in_states.old i out.now in_states.new }
{
    if out.falls_through {
        receive(in_states, i + 1, out.state);
    }
    if let Some(j) = out.target {
        receive(in_states, j, out.state);
    }
}

/// The state before operation `i` on every path to it. `Unreachable` if there is no path to it,
/// `Mismatch` if two paths have different states there.
#[inline(always)]
pub fn in_state_at(in_states: &[InState], i: usize) -> Result<StackState, FaultKind>
    requires { i < length in_states.now }
    ensures { result ≡ known_state (slice_index_or in_states.now i InState.Unreached) }
{
    match in_states[i] {
        InState::Unreached => Err(FaultKind::Unreachable),
        InState::Known(state) => Ok(state),
        InState::Conflict => Err(FaultKind::Mismatch),
    }
}
