//! What an operation does to the stack.

ghost use Rattle.std.specs.Prelude.{◌≡◌, ◌+◌, ◌-◌, ◌<◌, ◌≤◌, ℕ, List, length, IfOk, IfErr, Ok};
ghost use Rattle.dw_ops.specs.Views.{operation_of};
ghost use Rattle.dw_stack.specs.Effects.{effect_of};
ghost use Rattle.dw_eval.specs.Fits.{AllFit};
ghost use Rattle.dw_eval.specs.StackChanges.{stack_after_operation, stack_after_change, changed_by, IsSized, taken_by, added_by};
ghost use Rattle.dw_eval.specs.Environments.{world_in};

use crate::context::{Memory, Registers};
use crate::environment::Environment;
use crate::evaluation_error::EvaluationError;
use crate::stack::Stack;
use crate::width::Width;
use dw_ops::Operation;

/// The change that an operation makes to the stack.
#[derive(Clone, Copy)]
pub enum Change {
    /// Leaves the stack unchanged.
    Stays,
    /// Removes the top.
    Pop,
    /// Swaps the top and the second entry.
    Swap,
    /// Rotates the top three: the top becomes the third entry, the second the top and the third the
    /// second.
    Rot,
    /// Replaces the topmost `taken` entries by `value`.
    Put { taken: usize, value: u64 },
}

/// The change that replaces the topmost `taken` entries by `value`.
#[inline(always)]
fn change_to(taken: usize, value: u64) -> Result<Change, EvaluationError>
    ensures { result ≡ Ok (Change.Put taken value) }
{
    Ok(Change::Put { taken, value })
}

/// The divisor `b`, or the error `DivisionByZero` if it is 0.
#[inline(always)]
pub fn divisor(b: u64) -> Result<u64, EvaluationError>
    ensures ok { IfOk result (λ c. (c ≡ b) × (0 < b)) }
    ensures err { IfErr result (λ why. (b ≡ 0) × (why ≡ EvaluationError.DivisionByZero)) }
{
    if b == 0 {
        return Err(EvaluationError::DivisionByZero);
    }
    Ok(b)
}

/// The change of an operation that needs no entry and pushes one value: a literal, or a value from
/// the environment.
#[inline(always)]
fn pushing_change<R: Registers, M: Memory>(
    environment: &Environment<'_, R, M>,
    operation: &Operation<'_>,
) -> Result<Change, EvaluationError>
    requires none { (effect_of (operation_of operation.now)).needs ≡ 0 }
    requires one { (effect_of (operation_of operation.now)).adds ≡ 1 }
    ensures takes { IfOk result (λ change. taken_by change ≡ 0) }
    ensures adds { IfOk result (λ change. added_by change ≡ 1) }
    ensures acts { (s : List ℕ) → changed_by result s ≡ stack_after_operation
        (world_in R.contents M.bytes environment.now) (operation_of operation.now) s }
{
    let width = environment.width();
    match *operation {
        Operation::Addr { address } => change_to(0, width.reduce(address)),
        Operation::Const1u { value } => change_to(0, width.reduce(u64::from(value))),
        Operation::Const1s { value } => change_to(0, width.reduce_signed(i64::from(value))),
        Operation::Const2u { value } => change_to(0, width.reduce(u64::from(value))),
        Operation::Const2s { value } => change_to(0, width.reduce_signed(i64::from(value))),
        Operation::Const4u { value } => change_to(0, width.reduce(u64::from(value))),
        Operation::Const4s { value } => change_to(0, width.reduce_signed(i64::from(value))),
        Operation::Const8u { value } => change_to(0, width.reduce(value)),
        Operation::Const8s { value } => change_to(0, width.reduce_signed(value)),
        Operation::Constu { value } => change_to(0, width.reduce(value)),
        Operation::Consts { value } => change_to(0, width.reduce_signed(value)),
        Operation::Lit { value } => change_to(0, width.reduce(u64::from(value))),
        Operation::Fbreg { offset } => change_to(
            0,
            environment.sum(environment.context.frame_base, offset)?,
        ),
        Operation::Breg { register, offset } => change_to(
            0,
            environment.sum(environment.registers.register(u16::from(register)), offset)?,
        ),
        Operation::Bregx { register, offset } => change_to(
            0,
            environment.sum(environment.registers.register(register), offset)?,
        ),
        Operation::PushObjectAddress => change_to(
            0,
            environment.given(environment.context.object)?,
        ),
        Operation::CallFrameCfa => change_to(0, environment.given(environment.context.cfa)?),
        _ => unreachable!(),
    }
}

/// The change of an operation that replaces all entries it needs by one value: a memory read,
/// arithmetic, a comparison, or an operation that needs no entry.
#[tactic(auto, using(crate::proofs::Entries::entry_below))]
#[inline(always)]
fn computing_change<R: Registers, M: Memory, const PLACES: usize>(
    environment: &Environment<'_, R, M>,
    operation: &Operation<'_>,
    stack: &Stack<PLACES>,
) -> Result<Change, EvaluationError>
    requires all { (effect_of (operation_of operation.now)).takes ≡
        (effect_of (operation_of operation.now)).needs }
    requires one { (effect_of (operation_of operation.now)).adds ≡ 1 }
    requires needs { (effect_of (operation_of operation.now)).needs ≤ length stack.now }
    requires sized { IsSized (operation_of operation.now) }
    requires below { AllFit (world_in R.contents M.bytes environment.now) stack.now }
    ensures takes { IfOk result (λ change. taken_by change ≡
        (effect_of (operation_of operation.now)).takes) }
    ensures adds { IfOk result (λ change. added_by change ≡
        (effect_of (operation_of operation.now)).adds) }
    ensures acts { changed_by result stack.now ≡ stack_after_operation
        (world_in R.contents M.bytes environment.now) (operation_of operation.now) stack.now }
{
    let width = environment.width();
    match *operation {
        Operation::Deref => change_to(1, environment.load(stack.entry(0), environment.word())?),
        Operation::DerefSize { size } => change_to(1, environment.load(stack.entry(0), size)?),
        Operation::Abs => change_to(1, width.abs(stack.entry(0))),
        Operation::And => change_to(2, width.and(stack.entry(1), stack.entry(0))),
        Operation::Div => change_to(2, width.div(stack.entry(1), divisor(stack.entry(0))?)),
        Operation::Minus => change_to(2, width.minus(stack.entry(1), stack.entry(0))),
        Operation::Mod => change_to(2, width.rem(stack.entry(1), divisor(stack.entry(0))?)),
        Operation::Mul => change_to(2, width.mul(stack.entry(1), stack.entry(0))),
        Operation::Neg => change_to(1, width.neg(stack.entry(0))),
        Operation::Not => change_to(1, width.not(stack.entry(0))),
        Operation::Or => change_to(2, width.or(stack.entry(1), stack.entry(0))),
        Operation::Plus => change_to(2, width.plus(stack.entry(1), stack.entry(0))),
        Operation::PlusUconst { value } => change_to(1, width.plus(stack.entry(0), value)),
        Operation::Shl => change_to(2, width.shl(stack.entry(1), stack.entry(0))),
        Operation::Shr => change_to(2, width.shr(stack.entry(1), stack.entry(0))),
        Operation::Shra => change_to(2, width.shra(stack.entry(1), stack.entry(0))),
        Operation::Xor => change_to(2, width.xor(stack.entry(1), stack.entry(0))),
        Operation::Eq => change_to(2, width.truth(stack.entry(1) == stack.entry(0))),
        Operation::Ge => change_to(
            2,
            width.truth(width.is_at_most(stack.entry(0), stack.entry(1))),
        ),
        Operation::Gt => change_to(
            2,
            width.truth(width.is_below(stack.entry(0), stack.entry(1))),
        ),
        Operation::Le => change_to(
            2,
            width.truth(width.is_at_most(stack.entry(1), stack.entry(0))),
        ),
        Operation::Lt => change_to(
            2,
            width.truth(width.is_below(stack.entry(1), stack.entry(0))),
        ),
        Operation::Ne => change_to(2, width.truth(stack.entry(1) != stack.entry(0))),
        _ => pushing_change(environment, operation),
    }
}

/// The change that an operation makes to the stack, or why the operation fails. The stack has to
/// have the entries that the operation needs.
#[inline(always)]
pub fn change_of<R: Registers, M: Memory, const PLACES: usize>(
    environment: &Environment<'_, R, M>,
    operation: &Operation<'_>,
    stack: &Stack<PLACES>,
) -> Result<Change, EvaluationError>
    requires needs { (effect_of (operation_of operation.now)).needs ≤ length stack.now }
    requires sized { IsSized (operation_of operation.now) }
    requires below { AllFit (world_in R.contents M.bytes environment.now) stack.now }
    ensures takes { IfOk result (λ change. taken_by change ≡
        (effect_of (operation_of operation.now)).takes) }
    ensures adds { IfOk result (λ change. added_by change ≡
        (effect_of (operation_of operation.now)).adds) }
    ensures acts { changed_by result stack.now ≡ stack_after_operation
        (world_in R.contents M.bytes environment.now) (operation_of operation.now) stack.now }
{
    match *operation {
        Operation::Dup => change_to(0, stack.entry(0)),
        Operation::Drop => Ok(Change::Pop),
        Operation::Pick { index } => change_to(0, stack.entry(usize::from(index))),
        Operation::Over => change_to(0, stack.entry(1)),
        Operation::Swap => Ok(Change::Swap),
        Operation::Rot => Ok(Change::Rot),
        Operation::Bra { .. } | Operation::StackValue => Ok(Change::Pop),
        Operation::Skip { .. }
        | Operation::Nop
        | Operation::Reg { .. }
        | Operation::Regx { .. }
        | Operation::ImplicitValue { .. }
        | Operation::Piece { .. }
        | Operation::BitPiece { .. } => Ok(Change::Stays),
        _ => computing_change(environment, operation, stack),
    }
}

/// Makes the change to the stack.
#[inline(always)]
pub fn make_change<const PLACES: usize>(change: Change, stack: &mut Stack<PLACES>)
    requires enough { taken_by change ≤ length stack.old }
    requires room { length stack.old - taken_by change + added_by change ≤ PLACES }
    ensures { Ok stack.new ≡ stack_after_change change stack.old }
{
    match change {
        Change::Stays => {}
        Change::Pop => stack.pop(),
        Change::Swap => stack.swap(),
        Change::Rot => stack.rot(),
        Change::Put { taken, value } => stack.put(taken, value),
    }
}
