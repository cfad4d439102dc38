//! A checksum of what an expression means: of its operations, and of its outcome on a machine whose
//! registers and memory all have known contents.

use crate::checksum::Mixed;
use crate::machine::{CONTEXT, Known};
use dw_eval::{Location, Outcome, PieceSize, evaluate};
use dw_ops::{Expression, Operation, operations};
use dw_stack::CheckedExpression;
use std::alloc::Global;

/// What identifies the meaning of an operation: a number that this file gives to its kind, and two
/// operands. Operations with the same meaning, such as `const1u 2` and `lit2`, have the same parts.
type Parts = (u64, u64, u64);

/// The parts of an operation that pushes a value. `None` for any other operation.
fn pushing(operation: Operation<'_>) -> Option<Parts> {
    match operation {
        Operation::Addr { address } => Some((1, address, 0)),
        Operation::Const1u { value } => Some((2, u64::from(value), 0)),
        Operation::Const2u { value } => Some((2, u64::from(value), 0)),
        Operation::Const4u { value } => Some((2, u64::from(value), 0)),
        Operation::Const8u { value } => Some((2, value, 0)),
        Operation::Constu { value } => Some((2, value, 0)),
        Operation::Lit { value } => Some((2, u64::from(value), 0)),
        Operation::Const1s { value } => Some((3, i64::from(value).cast_unsigned(), 0)),
        Operation::Const2s { value } => Some((3, i64::from(value).cast_unsigned(), 0)),
        Operation::Const4s { value } => Some((3, i64::from(value).cast_unsigned(), 0)),
        Operation::Const8s { value } => Some((3, value.cast_unsigned(), 0)),
        Operation::Consts { value } => Some((3, value.cast_unsigned(), 0)),
        Operation::Dup => Some((4, 0, 0)),
        Operation::Over => Some((4, 1, 0)),
        Operation::Pick { index } => Some((4, u64::from(index), 0)),
        Operation::Breg { register, offset } => {
            Some((5, u64::from(register), offset.cast_unsigned()))
        }
        Operation::Bregx { register, offset } => {
            Some((5, u64::from(register), offset.cast_unsigned()))
        }
        Operation::Fbreg { offset } => Some((6, offset.cast_unsigned(), 0)),
        Operation::PushObjectAddress => Some((7, 0, 0)),
        Operation::CallFrameCfa => Some((8, 0, 0)),
        _ => None,
    }
}

/// The parts of an operation that computes a value from entries of the stack. `None` for any other
/// operation.
fn computing(operation: Operation<'_>) -> Option<Parts> {
    match operation {
        Operation::Abs => Some((20, 0, 0)),
        Operation::And => Some((21, 0, 0)),
        Operation::Div => Some((22, 0, 0)),
        Operation::Minus => Some((23, 0, 0)),
        Operation::Mod => Some((24, 0, 0)),
        Operation::Mul => Some((25, 0, 0)),
        Operation::Neg => Some((26, 0, 0)),
        Operation::Not => Some((27, 0, 0)),
        Operation::Or => Some((28, 0, 0)),
        Operation::Plus => Some((29, 0, 0)),
        Operation::PlusUconst { value } => Some((30, value, 0)),
        Operation::Shl => Some((31, 0, 0)),
        Operation::Shr => Some((32, 0, 0)),
        Operation::Shra => Some((33, 0, 0)),
        Operation::Xor => Some((34, 0, 0)),
        Operation::Eq => Some((35, 0, 0)),
        Operation::Ge => Some((36, 0, 0)),
        Operation::Gt => Some((37, 0, 0)),
        Operation::Le => Some((38, 0, 0)),
        Operation::Lt => Some((39, 0, 0)),
        Operation::Ne => Some((40, 0, 0)),
        _ => None,
    }
}

/// The parts of the operations that `pushing` and `computing` leave out. `word` is the size of an
/// address in bytes.
fn other(operation: Operation<'_>, word: u64) -> Parts {
    match operation {
        Operation::Deref => (50, word, 0),
        Operation::DerefSize { size } => (50, u64::from(size), 0),
        Operation::Drop => (51, 0, 0),
        Operation::Swap => (52, 0, 0),
        Operation::Rot => (53, 0, 0),
        Operation::Nop => (54, 0, 0),
        Operation::Bra { offset } => (55, i64::from(offset).cast_unsigned(), 0),
        Operation::Skip { offset } => (56, i64::from(offset).cast_unsigned(), 0),
        Operation::Reg { register } => (57, u64::from(register), 0),
        Operation::Regx { register } => (57, u64::from(register), 0),
        Operation::Piece { size } => (58, u64::from(size) * 8, 0),
        Operation::BitPiece { size, offset } => (59, u64::from(size), u64::from(offset)),
        Operation::ImplicitValue { bytes } => (60, bytes.len() as u64, 0),
        Operation::StackValue => (61, 0, 0),
        _ => (0, 0, 0),
    }
}

fn parts_of(operation: Operation<'_>, word: u64) -> Parts {
    match pushing(operation) {
        Some(parts) => parts,
        None => match computing(operation) {
            Some(parts) => parts,
            None => other(operation, word),
        },
    }
}

/// Adds the operations of an expression, each with its offset, to the checksum.
fn add_operations(alloc: Global, mixed: &mut Mixed, expression: Expression<'_>) {
    let word = u64::from(expression.target().address_size.bytes());
    if let Ok(list) = operations(alloc, &expression) {
        for (at, operation) in list.as_slice() {
            let (code, first, second) = parts_of(*operation, word);
            mixed.add(u64::from(*at));
            mixed.add_three(code, first, second);
        }
    }
}

/// Adds the location of an object to the checksum.
fn add_location(mixed: &mut Mixed, location: Location<'_>) {
    match location {
        Location::Empty => mixed.add(1),
        Location::Address(address) => mixed.add_three(2, address, 0),
        Location::Register(register) => mixed.add_three(3, u64::from(register), 0),
        Location::Value(value) => mixed.add_three(4, value, 0),
        Location::Bytes(bytes) => mixed.add_bytes(bytes),
    }
}

/// Adds the size of a piece in bits, and its bit offset if it has one, to the checksum.
fn add_size(mixed: &mut Mixed, size: PieceSize) {
    match size {
        PieceSize::Bytes(bytes) => mixed.add_three(1, u64::from(bytes) * 8, 0),
        PieceSize::Bits { size, offset } => mixed.add_three(2, u64::from(size), u64::from(offset)),
    }
}

/// Adds the outcome of an evaluation to the checksum.
fn add_outcome(mixed: &mut Mixed, outcome: &Outcome<'_>) {
    match outcome {
        Outcome::Value(value) => mixed.add_three(1, *value, 0),
        Outcome::Single(location) => {
            mixed.add(2);
            add_location(mixed, *location);
        }
        Outcome::Pieces(pieces) => {
            mixed.add(3);
            for piece in pieces.as_slice() {
                add_location(mixed, piece.location);
                add_size(mixed, piece.size);
            }
        }
        Outcome::Unreadable { .. } => mixed.add(4),
        Outcome::DivisionByZero { .. } => mixed.add(5),
    }
}

/// Adds a checked expression to the checksum: its offset in the section, its operations, and its
/// outcome.
pub(crate) fn add_expression(
    alloc: Global,
    mixed: &mut Mixed,
    offset: u32,
    expression: &CheckedExpression<'_>,
) {
    mixed.add(u64::from(offset));
    mixed.add(u64::from(expression.operation_count()));
    add_operations(alloc, mixed, expression.expression());
    add_outcome(
        mixed,
        &evaluate(expression, &CONTEXT, &Known {}, &Known {}).outcome,
    );
}
