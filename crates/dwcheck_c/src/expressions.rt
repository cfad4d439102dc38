//! The C call that checks an expression and evaluates it.

ghost use Rattle.std.specs.Prelude.{◌≡◌, ◌≢◌, ◌≤◌, ◌<◌, ◌^◌, ◌⊎◌, IfErr, IfOk, None, length};
ghost use Rattle.dw_bytes.specs.Answers.{memory};
ghost use Rattle.dw_stack.specs.Certificates.{checked_of};
ghost use Rattle.dw_stack.specs.Expressions.{IsGoodExpression};
ghost use Rattle.dw_stack.specs.FirstFault.{expression_fault};
ghost use Rattle.dw_c_types.specs.Evaluated.{IsRunOf, WithBoth, kind_by};
ghost use Rattle.dw_c_types.specs.Faults.{Reports};
ghost use Rattle.dw_c_types.specs.Targets.{target_by};

use dw_bytes::{Fault, FaultKind, Target};
use dw_c_types::context::{CContext, context, kind};
use dw_c_types::fault::{CFault, IN_EXPRESSION, report};
use dw_c_types::state::CState;
use dw_c_types::status::{BAD_KIND, BAD_TARGET, DONE, NO_MEMORY, REFUSED, TOO_LONG};
use dw_c_types::target::target;
use dw_c_types::value::{CPiece, CValue, write_outcome};
use dw_eval::evaluate;
use dw_ops::Expression;
use dw_stack::{CheckedExpression, Kind, check_expression};
use std::alloc::Global;

/// Evaluates a checked expression, and writes the outcome to `value`, `pieces` and `bytes`. If the
/// outcome is in pieces, `bytes` gets the bytes of piece `n`, counted from 0, if that piece's value
/// is given as bytes.
fn run(
    checked: &CheckedExpression<'_>,
    c: &CContext,
    state: &CState<'_>,
    n: u32,
    value: &mut CValue,
    pieces: &mut [CPiece],
    bytes: &mut [u8],
)
    ensures run { let checked = checked_of checked.now in
        IsRunOf checked.kind checked.target checked.bytes state.now c.now n value.new pieces.old
        pieces.new bytes.old bytes.new }
    ensures few { value.new.count ≤ 32 }
{
    let evaluation = evaluate(checked, &context(c), &state.registers(), &state.memory());
    write_outcome(&evaluation, n, value, pieces, bytes);
}

/// Checks an expression. If it is accepted, evaluates it and writes its outcome. Otherwise returns
/// its first fault, or `OUT_OF_MEMORY` if there isn't enough memory for the check.
fn evaluated(
    alloc: Global,
    expression: &[u8],
    kind: Kind,
    target: Target,
    c: &CContext,
    state: &CState<'_>,
    n: u32,
    value: &mut CValue,
    pieces: &mut [CPiece],
    bytes: &mut [u8],
) -> Result<(), Fault>
    requires { length expression.now < 2 ^ 32 }
    ensures good { IfOk result (λ _. IsGoodExpression kind target expression.now) }
    ensures run { IfOk result (λ _. IsRunOf kind target expression.now state.now c.now n value.new
        pieces.old pieces.new bytes.old bytes.new) }
    ensures few { IfOk result (λ _. value.new.count ≤ 32) }
    ensures fault { IfErr result (λ f. (f ≡ memory)
        ⊎ (expression_fault kind target expression.now ≡ Some f)) }
    ensures unwritten { IfErr result (λ _. (value.new ≡ value.old) × (pieces.new ≡ pieces.old)
        × (bytes.new ≡ bytes.old)) }
{
    let checked = check_expression(alloc, Expression::new(expression, target), kind)?;
    run(&checked, c, state, n, value, pieces, bytes);
    Ok(())
}

/// Checks an expression and evaluates it.
#[unsafe(no_mangle)]
pub extern "C" fn dwcheck_evaluate(
    alloc: Global,
    expression: &[u8],
    order: u32,
    address_size: u32,
    kind_number: u32,
    c: &CContext,
    state: &CState<'_>,
    n: u32,
    value: &mut CValue,
    pieces: &mut [CPiece],
    bytes: &mut [u8],
    fault: &mut CFault,
) -> u32
    ensures good { result ≡ DONE → WithBoth (kind_by kind_number) (target_by order address_size)
        (λ kind target. IsGoodExpression kind target expression.now) }
    ensures done { result ≡ DONE → WithBoth (kind_by kind_number) (target_by order address_size)
        (λ kind target. IsRunOf kind target expression.now state.now c.now n value.new pieces.old
        pieces.new bytes.old bytes.new) }
    ensures few { result ≡ DONE → value.new.count ≤ 32 }
    ensures refused { result ≡ REFUSED → WithBoth (kind_by kind_number)
        (target_by order address_size) (λ kind target.
        Reports IN_EXPRESSION (expression_fault kind target expression.now) fault.new) }
    ensures target { result ≡ BAD_TARGET → target_by order address_size ≡ None }
    ensures bad { target_by order address_size ≡ None → result ≡ BAD_TARGET }
    ensures kind { result ≡ BAD_KIND → kind_by kind_number ≡ None }
    ensures bad_kind { result ≢ BAD_TARGET → kind_by kind_number ≡ None → result ≡ BAD_KIND }
    ensures long { result ≡ TOO_LONG → 2 ^ 32 ≤ length expression.now }
    ensures short { result ≢ BAD_TARGET → result ≢ BAD_KIND → result ≢ TOO_LONG
        → length expression.now < 2 ^ 32 }
    ensures codes { (result ≡ DONE) ⊎ (result ≡ REFUSED) ⊎ (result ≡ NO_MEMORY)
        ⊎ (result ≡ BAD_TARGET) ⊎ (result ≡ TOO_LONG) ⊎ (result ≡ BAD_KIND) }
    ensures unwritten { result ≢ DONE → (value.new ≡ value.old) × (pieces.new ≡ pieces.old)
        × (bytes.new ≡ bytes.old) }
    ensures unreported { result ≢ REFUSED → fault.new ≡ fault.old }
{
    let Some(target) = target(order, address_size) else {
        return BAD_TARGET;
    };
    let Some(kind) = kind(kind_number) else {
        return BAD_KIND;
    };
    if expression.len() >= 1 << 32 {
        return TOO_LONG;
    }
    match evaluated(
        alloc, expression, kind, target, c, state, n, value, pieces, bytes,
    ) {
        Ok(()) => DONE,
        Err(why) if why.kind == FaultKind::Memory => NO_MEMORY,
        Err(why) => {
            *fault = report(IN_EXPRESSION, why);
            REFUSED
        }
    }
}
