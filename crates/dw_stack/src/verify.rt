//! `check_expression`, `certify` and `recheck`: checking an expression on all paths.

ghost use Rattle.std.specs.Prelude.{◌≡◌, ◌⊎◌, ◌≤◌, ◌↔◌, IsTrue, IfSome, length, OnOk, IfOk, IfErr, None, Some};
ghost use Rattle.dw_bytes.specs.Answers.{memory, Answers};
ghost use Rattle.dw_ops.specs.Views.{bytes_of, target_of};
ghost use Rattle.dw_stack.specs.InStates.{given_of};
ghost use Rattle.dw_stack.specs.Expressions.{AreStatesOf, IsChecked, IsFaultOf, IsOf, Knows};
ghost use Rattle.dw_stack.specs.FirstFault.{expression_fault};
ghost use Rattle.dw_stack.specs.Certificates.{checked_of, checked_in, states_in};

use crate::branchless_check::{certify_branchless, check_branchless};
use crate::certificate::Certificate;
use crate::checked::CheckedExpression;
use crate::pass::pass;
use crate::state::{Kind, State};
use dw_bytes::{Fault, FaultKind};
use dw_ops::{Expression, operations};
use std::alloc::Global;

/// The fault that `recheck` returns: an ordinary `Fault`.
pub type CertFault = Fault;

/// Whether `given` has exactly `count` states; true if `given` is `None`.
fn are_as_many_states(given: Option<&[State]>, count: usize) -> bool
    ensures { IsTrue result ↔ IfSome given.entry (λ states. length states.now ≡ count) }
{
    match given {
        Some(states) => states.len() == count,
        None => true,
    }
}

/// Reads the operations, then checks them in one pass. If `given` has states, they must equal the
/// states that the pass finds.
fn check_with_states<'a>(
    alloc: Global,
    expression: Expression<'a>,
    kind: Kind,
    given: Option<&[State]>,
) -> Result<Certificate<'a>, Fault>
    ensures checked { IfOk result (λ c. IsChecked (checked_in c)) }
    ensures same { IfOk result (λ c. IsOf kind (target_of expression.entry)
        (bytes_of expression.entry) (checked_in c)) }
    ensures states { IfOk result (λ c. AreStatesOf kind (target_of expression.entry)
        (bytes_of expression.entry) (states_in c)) }
    ensures known { OnOk result (Knows kind (target_of expression.entry) (bytes_of expression.entry)
        (given_of given.entry)) }
    ensures fault { IfErr result (λ f. (f ≡ memory) ⊎ IsFaultOf kind (target_of expression.entry)
        (bytes_of expression.entry) (given_of given.entry) f) }
    ensures inside { IfErr result (λ f. f.at ≤ length (bytes_of expression.entry)) }
{
    let operations = operations(alloc, &expression)?;
    if !are_as_many_states(given, operations.len()) {
        return Err(Fault {
            kind: FaultKind::CertLength,
            at: 0,
        });
    }
    let end = expression.bytes().len() as u32;
    let passed = pass(alloc, kind, operations.as_slice(), end, given)?;
    let count = operations.len() as u32;
    Ok(Certificate {
        checked: CheckedExpression::new(expression, kind, passed.depth, count),
        states: passed.states,
    })
}

/// Certifies an expression that `certify_branchless` or `check_branchless` didn't accept, by a pass
/// over all paths at once.
fn certify_all_paths<'a>(
    alloc: Global,
    expression: Expression<'a>,
    kind: Kind,
) -> Result<Certificate<'a>, Fault>
    ensures checked { IfOk result (λ c. IsChecked (checked_in c)) }
    ensures same { IfOk result (λ c. IsOf kind (target_of expression.entry)
        (bytes_of expression.entry) (checked_in c)) }
    ensures states { IfOk result (λ c. AreStatesOf kind (target_of expression.entry)
        (bytes_of expression.entry) (states_in c)) }
    ensures answer { Answers (expression_fault kind (target_of expression.entry)
        (bytes_of expression.entry)) result }
    ensures inside { IfErr result (λ f. f.at ≤ length (bytes_of expression.entry)) }
{
    check_with_states(alloc, expression, kind, None)
}

/// Checks an expression on all paths, and returns it with the state before each operation.
///
/// An error is the first fault; the numbers in parentheses are those of `FaultKind`. The whole
/// expression is read first (`dw_ops::operations`). Then the operations are checked in order of
/// offset. An operation is refused if no path leads to it (38), two paths reach it with different
/// states (37), `kind` doesn't allow it (31), it can't follow the operations before it (39), the
/// stack has too few entries (35) or would get too many (36), it is the 33rd piece operation (41),
/// or it branches backward (33) or to an offset where no operation begins (34). The end is checked
/// last: two paths with different states (37), or no result (40). A fault in an operation is at the
/// operation's offset, a fault of the end at the expression's length; offsets count from the
/// expression's first byte. `Memory` is at 0. For n operations with b branches this takes O(n + b
/// log n) time, and doesn't allocate for up to 16 operations.
///
/// There is no first fault exactly if the expression is good as `IsGoodExpression` defines it (law
/// `the_fault_is_the_first`), and no run of a good expression goes wrong (law
/// `good_expressions_run_well`).
pub fn certify<'a>(
    alloc: Global,
    expression: Expression<'a>,
    kind: Kind,
) -> Result<Certificate<'a>, Fault>
    ensures checked { IfOk result (λ c. IsChecked (checked_in c)) }
    ensures same { IfOk result (λ c. IsOf kind (target_of expression.entry)
        (bytes_of expression.entry) (checked_in c)) }
    ensures states { IfOk result (λ c. AreStatesOf kind (target_of expression.entry)
        (bytes_of expression.entry) (states_in c)) }
    ensures answer { Answers (expression_fault kind (target_of expression.entry)
        (bytes_of expression.entry)) result }
    ensures inside { IfErr result (λ f. f.at ≤ length (bytes_of expression.entry)) }
{
    if let Some(certificate) = certify_branchless(alloc, expression, kind) {
        return Ok(certificate);
    }
    certify_all_paths(alloc, expression, kind)
}

/// Checks an expression as `certify` does, but returns no states. If the expression has no branch
/// and no fault, this is one pass over the bytes and doesn't allocate; otherwise it costs as much
/// as `certify`.
pub fn check_expression<'a>(
    alloc: Global,
    expression: Expression<'a>,
    kind: Kind,
) -> Result<CheckedExpression<'a>, Fault>
    ensures checked { IfOk result (λ c. IsChecked (checked_of c)) }
    ensures same { IfOk result (λ c. IsOf kind (target_of expression.entry)
        (bytes_of expression.entry) (checked_of c)) }
    ensures answer { Answers (expression_fault kind (target_of expression.entry)
        (bytes_of expression.entry)) result }
    ensures inside { IfErr result (λ f. f.at ≤ length (bytes_of expression.entry)) }
{
    if let Some(checked) = check_branchless(expression, kind) {
        return Ok(checked);
    }
    let certificate = certify_all_paths(alloc, expression, kind)?;
    Ok(certificate.into_checked())
}

/// Checks an expression together with states from any source, such as `Certificate::states`.
/// Unless memory runs out, accepts exactly if the expression passes the check and `states` are the
/// states that paths have before its operations, including their offsets.
///
/// An error is the first fault; the numbers in parentheses are those of `FaultKind`. The whole
/// expression is read first. Then there must be as many states as operations (70, at 0). Then
/// everything is checked as in `certify`, and one check is added. If all paths reach an operation
/// with the same state, `states` must have that state for the operation (71, at the operation's
/// offset); this is checked right after 37. Time and memory are as for `certify`, and `Memory` is
/// at 0 here too. Laws say that there is at most one first fault
/// (`first_faults_are_unique`), none if the expression is good and the states are right
/// (`good_expressions_have_no_fault`), and one otherwise (`every_expression_has_a_verdict`).
pub fn recheck<'a>(
    alloc: Global,
    expression: Expression<'a>,
    kind: Kind,
    states: &[State],
) -> Result<CheckedExpression<'a>, CertFault>
    ensures checked { IfOk result (λ c. IsChecked (checked_of c)) }
    ensures same { IfOk result (λ c. IsOf kind (target_of expression.entry)
        (bytes_of expression.entry) (checked_of c)) }
    ensures states { OnOk result (AreStatesOf kind (target_of expression.entry)
        (bytes_of expression.entry) states.now) }
    ensures fault { IfErr result (λ f. (f ≡ memory) ⊎ IsFaultOf kind (target_of expression.entry)
        (bytes_of expression.entry) (Some states.now) f) }
    ensures inside { IfErr result (λ f. f.at ≤ length (bytes_of expression.entry)) }
{
    let certificate = check_with_states(alloc, expression, kind, Some(states))?;
    Ok(certificate.into_checked())
}
