//! Checking all operations of an expression in one pass, which covers all paths.

ghost use Rattle.std.specs.Prelude.{◌≡◌, ◌+◌, ◌<◌, ◌≤◌, ◌^◌, ◌⊎◌, length, slice_set, replicate, OnOk, IfOk, IfErr, IfSome};
ghost use Rattle.dw_bytes.specs.Answers.{memory};
ghost use Rattle.dw_stack.specs.Paths.{IsLaidOut, IsGood, AreStates, IsDepth};
ghost use Rattle.dw_stack.specs.Faults.{IsFirstFault, KnowsOnly};
ghost use Rattle.dw_stack.specs.InStates.{given_of};
ghost use Rattle.dw_stack.specs.Views.{placed_in};

use crate::in_state::{InState, in_state_at};
use crate::state::{Kind, StackState, State, has_result, start_state};
use crate::step::step_of_pass;
use crate::target::place_of_operation;
use dw_bytes::{Fault, FaultKind};
use dw_ops::Operation;
use smallvec::SmallVec;
use std::alloc::Global;

/// The result of a pass that found no fault.
#[derive(Drop)]
pub struct Passed {
    /// The state before each operation.
    pub states: SmallVec<State, 16>,
    /// The greatest stack height on any path.
    pub depth: u8,
}

fn refusal(kind: FaultKind, at: u32) -> Fault
    ensures { result ≡ record { kind = kind; at = at } }
{
    Fault { kind, at }
}

/// What is known of the states when the pass begins: the start state in slot 0, and `Unreached` in
/// all others. Slot i is for the state before operation i, and the last slot is for the end.
fn first_arrivals(
    alloc: Global,
    count: usize,
    start: StackState,
) -> Result<SmallVec<InState, 17>, Fault>
    requires { count < 2 ^ 63 }
    ensures ok { IfOk result (λ v. v.items ≡ slice_set (replicate (count + 1) InState.Unreached) 0
        (InState.Known start)) }
    ensures err { IfErr result (λ f. f ≡ memory) }
{
    let mut in_states = SmallVec::from_elem(alloc, InState::Unreached, count + 1)?;
    in_states.as_mut_slice()[0] = InState::Known(start);
    Ok(in_states)
}

/// Checks all operations in one pass, in order. If `given` has states, each must equal the state
/// that the pass finds. Each branch finds its target by binary search, so n operations with b
/// branches take O(n + b log n) time. Doesn't allocate for up to 16 operations.
#[tactic(auto, using(crate::proofs::Places::count_le))]
pub fn pass(
    alloc: Global,
    kind: Kind,
    operations: &[(u32, Operation<'_>)],
    end: u32,
    given: Option<&[State]>,
) -> Result<Passed, Fault>
    requires laid { IsLaidOut (placed_in operations.now) end }
    requires given { IfSome given (λ states. length states.now ≡ length operations.now) }
    ensures good { OnOk result (IsGood kind (placed_in operations.now) end) }
    ensures states { IfOk result (λ p.
        AreStates kind (placed_in operations.now) end p.states.items) }
    ensures depth { IfOk result (λ p. IsDepth kind (placed_in operations.now) end p.depth) }
    ensures known { OnOk result (KnowsOnly kind (placed_in operations.now) end
        (given_of given.entry)) }
    ensures first { IfErr result (λ f. (f ≡ memory)
        ⊎ IsFirstFault kind (placed_in operations.now) end (given_of given.entry) f.kind f.at) }
    ensures inside { IfErr result (λ f. f.at ≤ end) }
{
    let start = start_state(kind);
    let mut in_states = first_arrivals(alloc, operations.len(), start)?;
    let mut states = SmallVec::new(alloc);
    let mut depth = start.height;
    let mut pieces = 0;
    for i in 0..operations.len() {
        match step_of_pass(kind, operations, end, given, i, pieces, &mut in_states) {
            Ok(done) => {
                states.push(done.state.at(place_of_operation(operations, end, i)))?;
                depth = depth.max(done.state.height).max(done.height);
                pieces += if done.piece { 1 } else { 0 };
            }
            Err(kind) => return Err(refusal(kind, place_of_operation(operations, end, i))),
        }
    }
    match in_state_at(in_states.as_slice(), operations.len()) {
        Err(kind) => Err(refusal(kind, end)),
        Ok(state) => {
            if !has_result(kind, operations.is_empty(), state) {
                return Err(refusal(FaultKind::EndsEmpty, end));
            }
            Ok(Passed { states, depth })
        }
    }
}
