//! Laws about expressions. The functions do nothing: the contract of each is a law. A good
//! expression is one for which `IsGoodExpression` in Expressions.antt holds: nothing goes wrong on
//! any path.

ghost use Rattle.std.specs.Prelude.{◌≡◌, ◌+◌, ◌<◌, ◌≤◌, ◌⊎◌, ◌↔◌, ℕ, suc, ℤ, pos, List, length, slice_get, Option, Some, None, Ok};
ghost use Rattle.dw_bytes.specs.declared.target.Target.{Target};
ghost use Rattle.dw_bytes.specs.declared.fault.Fault.{Fault};
ghost use Rattle.dw_stack.specs.declared.state.Kind.{Kind};
ghost use Rattle.dw_stack.specs.declared.state.State.{State};
ghost use Rattle.dw_stack.specs.declared.state.StackState.{StackState};
ghost use Rattle.dw_ops.specs.Opcodes.{AreOperations, operation_at};
ghost use Rattle.dw_stack.specs.States.{at_offset};
ghost use Rattle.dw_stack.specs.Paths.{Placed, place, IsStart, IsLaidOut, IsGood, Reaches};
ghost use Rattle.dw_stack.specs.Effects.{effect_of};
ghost use Rattle.dw_stack.specs.Machine.{Configuration, EvaluationError, Meaning, Starts, Step, Stops, Run, Agrees, Meets, Ended, IsOver};
ghost use Rattle.dw_stack.specs.Expressions.{operations_in, reading_at, IsGoodExpression, IsDepthOf, AreStatesOf, RunsWellWithin};
ghost use Rattle.dw_stack.specs.Expressions.{Checked, IsChecked, IsFaultOf, Knows};
ghost use Rattle.dw_stack.specs.FirstFault.{expression_fault};

use crate::operation_check::{MAX_HEIGHT, MAX_PIECES};

/// Every run of a good expression, whatever the registers, the memory and the context are, follows
/// a path, agrees with the states on that path, only moves forward, never has more stack entries
/// than the depth, takes no more steps than there are operations, and never gets stuck.
pub fn good_expressions_run_well()
    ensures { (kind : Kind) (target : Target) (bytes : List ℕ) (depth : ℕ)
        → IsGoodExpression kind target bytes → IsDepthOf kind target bytes depth
        → RunsWellWithin kind target bytes depth }
{}

/// Whenever a run of a good expression is at an operation, the run's stack height, its mode, and
/// whether it has pieces are as the certificate's state for that operation says.
pub fn runs_are_as_certified()
    ensures { (kind : Kind) (target : Target) (bytes : List ℕ) (states : List State)
        → IsGoodExpression kind target bytes → AreStatesOf kind target bytes states
        → (m : Meaning) (c d : Configuration) (n k : ℕ) → Starts kind c
        → Run m (operations_in target bytes) (length bytes) n c d
        → k < length (operations_in target bytes)
        → d.offset ≡ place (operations_in target bytes) (length bytes) k
        → (s : StackState) × (slice_get states k ≡ Some (at_offset d.offset s)) × Agrees s d }
{}

/// At each step, a run of a good expression is at the first byte of an operation or at the end,
/// never inside an operation.
pub fn runs_stand_on_operations()
    ensures { (kind : Kind) (target : Target) (bytes : List ℕ) → IsGoodExpression kind target bytes
        → (m : Meaning) (c d : Configuration) (n : ℕ) → Starts kind c
        → Run m (operations_in target bytes) (length bytes) n c d
        → IsStart (operations_in target bytes) (length bytes) d.offset }
{}

/// A run of a good expression has only one outcome: from the same start, with the same registers,
/// memory and context, any two finished runs took the same number of steps and are in the same
/// configuration.
pub fn runs_are_determined()
    ensures { (kind : Kind) (target : Target) (bytes : List ℕ) → IsGoodExpression kind target bytes
        → (m : Meaning) (n k : ℕ) (c d e : Configuration)
        → Run m (operations_in target bytes) (length bytes) n c d
        → IsOver kind m (operations_in target bytes) (length bytes) d
        → Run m (operations_in target bytes) (length bytes) k c e
        → IsOver kind m (operations_in target bytes) (length bytes) e → (n ≡ k) × (d ≡ e) }
{}

/// `MAX_HEIGHT` and `MAX_PIECES`, the two limits of this checker, are 128 and 32.
pub fn expression_limits()
    ensures height { MAX_HEIGHT ≡ 128 }
    ensures pieces { MAX_PIECES ≡ 32 }
{}

/// A good expression has no fault. If states are passed to be checked with the expression, there is
/// still no fault as long as they are the states of the expression.
pub fn good_expressions_have_no_fault()
    ensures alone { (kind : Kind) (target : Target) (bytes : List ℕ) (f : Fault)
        → IsGoodExpression kind target bytes → ¬ IsFaultOf kind target bytes None f }
    ensures given { (kind : Kind) (target : Target) (bytes : List ℕ) (given : Option (List State))
        (f : Fault) → IsGoodExpression kind target bytes → Knows kind target bytes given
        → ¬ IsFaultOf kind target bytes given f }
{}

/// Every expression is good or has a first fault. If states are passed to be checked with the
/// expression, either it is good and they are its states, or there is a first fault.
pub fn every_expression_has_a_verdict()
    ensures alone { (kind : Kind) (target : Target) (bytes : List ℕ)
        → IsGoodExpression kind target bytes ⊎ ((f : Fault) × IsFaultOf kind target bytes None f) }
    ensures given { (kind : Kind) (target : Target) (bytes : List ℕ) (given : Option (List State))
        → (IsGoodExpression kind target bytes × Knows kind target bytes given)
        ⊎ ((f : Fault) × IsFaultOf kind target bytes given f) }
{}

/// `expression_fault`, a function of the bytes, gives the first fault as `IsFaultOf` defines it:
/// `None` exactly if the expression is good, and `f` exactly if `f` is the first fault.
pub fn the_fault_is_the_first()
    ensures none { (kind : Kind) (target : Target) (bytes : List ℕ)
        → (expression_fault kind target bytes ≡ None) ↔ IsGoodExpression kind target bytes }
    ensures some { (kind : Kind) (target : Target) (bytes : List ℕ) (f : Fault)
        → (expression_fault kind target bytes ≡ Some f) ↔ IsFaultOf kind target bytes None f }
{}

/// The first fault of an expression is at an offset inside the expression, or at its end.
pub fn expression_faults_stand_inside()
    ensures { (kind : Kind) (target : Target) (bytes : List ℕ) (f : Fault)
        → expression_fault kind target bytes ≡ Some f → f.at ≤ length bytes }
{}

/// An expression has at most one first fault, whether or not states are passed to be checked with
/// it.
pub fn first_faults_are_unique()
    ensures { (kind : Kind) (target : Target) (bytes : List ℕ) (given : Option (List State))
        (f g : Fault) → IsFaultOf kind target bytes given f → IsFaultOf kind target bytes given g
        → f ≡ g }
{}

/// A good expression has a depth.
pub fn each_has_a_depth()
    ensures { (kind : Kind) (target : Target) (bytes : List ℕ) → IsGoodExpression kind target bytes
        → (d : ℕ) × IsDepthOf kind target bytes d }
{}

/// An expression has at most one depth.
pub fn depths_are_unique()
    ensures { (kind : Kind) (target : Target) (bytes : List ℕ) (d e : ℕ)
        → IsDepthOf kind target bytes d → IsDepthOf kind target bytes e → d ≡ e }
{}

/// A good expression has a certificate: a list of the states before its operations.
pub fn each_has_a_certificate()
    ensures { (kind : Kind) (target : Target) (bytes : List ℕ) → IsGoodExpression kind target bytes
        → (s : List State) × AreStatesOf kind target bytes s }
{}

/// A good expression has only one certificate.
pub fn certificates_are_unique()
    ensures { (kind : Kind) (target : Target) (bytes : List ℕ) (s t : List State)
        → IsGoodExpression kind target bytes → AreStatesOf kind target bytes s
        → AreStatesOf kind target bytes t → s ≡ t }
{}

/// The operations of a good expression are laid out without gaps from its first byte to its end,
/// and reading the bytes at an operation's offset gives that operation.
pub fn operations_stand_in_the_bytes()
    ensures laid { (kind : Kind) (target : Target) (bytes : List ℕ)
        → IsGoodExpression kind target bytes
        → IsLaidOut (operations_in target bytes) (length bytes) }
    ensures read { (kind : Kind) (target : Target) (bytes : List ℕ)
        → IsGoodExpression kind target bytes → (k : ℕ) (x : Placed)
        → slice_get (operations_in target bytes) k ≡ Some x
        → operation_at (reading_at target bytes x.0) ≡ Ok
        (x.1, reading_at target bytes (place (operations_in target bytes) (length bytes) (k + 1))) }
{}

/// If operations are laid out in order (`IsLaidOut` in Paths.antt), each begins at a higher offset
/// than the one before, and the end is above them all.
pub fn places_ascend()
    ensures begins { (ops : List Placed) (len k : ℕ) (x : Placed) → slice_get ops k ≡ Some x
        → place ops len k ≡ x.0 }
    ensures ends { (ops : List Placed) (len k : ℕ) → length ops ≤ k → place ops len k ≡ len }
    ensures ascends { (ops : List Placed) (len : ℕ) → IsLaidOut ops len → (j k : ℕ) → j < k
        → k ≤ length ops → place ops len j < place ops len k }
    ensures within { (ops : List Placed) (len : ℕ) → IsLaidOut ops len → (k : ℕ)
        → place ops len k ≤ len }
    ensures few { (ops : List Placed) (len : ℕ) → IsLaidOut ops len → length ops ≤ len }
{}

/// Operations that are encoded one after another are laid out in order from the first byte to the
/// end, and reading the bytes at an operation's offset gives that operation.
pub fn encoded_operations_stand_in_the_bytes()
    ensures laid { (target : Target) (bytes : List ℕ) (ops : List Placed)
        → AreOperations target 0 bytes ops → IsLaidOut ops (length bytes) }
    ensures read { (target : Target) (bytes : List ℕ)
        → AreOperations target 0 bytes (operations_in target bytes) → (k : ℕ) (x : Placed)
        → slice_get (operations_in target bytes) k ≡ Some x
        → operation_at (reading_at target bytes x.0) ≡ Ok
        (x.1, reading_at target bytes (place (operations_in target bytes) (length bytes) (k + 1))) }
{}

/// A run of n steps followed by one more step is a run of n + 1 steps.
pub fn runs_go_on()
    ensures { (m : Meaning) (ops : List Placed) (len n : ℕ) (c d e : Configuration)
        → Run m ops len n c d → Step m ops len d e → Run m ops len (suc n) c e }
{}

/// If operations are laid out in order (`IsLaidOut` in Paths.antt), a run of them has only one
/// outcome, and a step can fail for only one reason. At the end, no operation can run.
pub fn runs_over_operations_are_determined()
    ensures run { (m : Meaning) (ops : List Placed) (len : ℕ) → IsLaidOut ops len
        → (kind : Kind) (n k : ℕ) (c d e : Configuration) → Run m ops len n c d
        → IsOver kind m ops len d → Run m ops len k c e → IsOver kind m ops len e
        → (n ≡ k) × (d ≡ e) }
    ensures stop { (m : Meaning) (ops : List Placed) (len : ℕ) → IsLaidOut ops len
        → (c : Configuration) (w v : EvaluationError) → Stops m ops c w → Stops m ops c v → w ≡ v }
    ensures end { (m : Meaning) (ops : List Placed) (len : ℕ) → IsLaidOut ops len
        → (kind : Kind) (c : Configuration) → Ended kind ops len c → ¬ Meets ops c }
{}

/// In operations that are good (`IsGood` in Paths.antt), no branch has a negative operand.
pub fn branches_lead_ahead()
    ensures { (kind : Kind) (ops : List Placed) (len : ℕ) → IsLaidOut ops len → IsGood kind ops len
        → (k : ℕ) (x : Placed) (z : ℤ) → slice_get ops k ≡ Some x
        → (effect_of x.1).jump ≡ Some z → (n : ℕ) × (z ≡ pos n) }
{}

/// If all that is known is that a proof of `IsChecked` exists (`∥ .. ∥₁`), then `IsChecked` holds,
/// because the check can be repeated.
pub fn checked_expressions_are_known()
    ensures { (c : Checked) → ∥ IsChecked c ∥₁ → IsChecked c }
{}

/// If a path reaches an operation of a good expression with a state, a run that is there and agrees
/// with that state has everything that the operation needs.
pub fn needs_are_met()
    ensures { (kind : Kind) (target : Target) (bytes : List ℕ) → IsGoodExpression kind target bytes
        → (c : Configuration) (s : StackState)
        → Reaches kind (operations_in target bytes) (length bytes) c.offset s → Agrees s c
        → (k : ℕ) (x : Placed) → slice_get (operations_in target bytes) k ≡ Some x → x.0 ≡ c.offset
        → Meets (operations_in target bytes) c }
{}
