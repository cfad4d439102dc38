//! Where an operation leads, and the location or piece it names.

ghost use Rattle.std.specs.Prelude.{◌≡◌, ◌≤◌, length};
ghost use Rattle.std.specs.Option.{option_map};
ghost use Rattle.dw_ops.specs.Views.{operation_of};
ghost use Rattle.dw_stack.specs.Effects.{effect_of};
ghost use Rattle.dw_stack.specs.Machine.{location_named, LeadsTo};
ghost use Rattle.dw_eval.specs.Views.{location_description_of};
ghost use Rattle.dw_eval.specs.Steps.{GoesForward, EndsPiece};

use crate::location::{Location, PieceSize};
use crate::stack::Stack;
use dw_ops::Operation;

/// The offset that the operation leads to. If it jumps, this is the jump's target, which is always
/// forward; else it is `next`, the offset after the operation.
#[inline(always)]
pub fn next_offset<const PLACES: usize>(
    operation: &Operation<'_>,
    stack: &Stack<PLACES>,
    next: u32,
) -> u32
    requires needs { (effect_of (operation_of operation.now)).needs ≤ length stack.now }
    requires target { GoesForward (operation_of operation.now) stack.now next }
    ensures { LeadsTo (operation_of operation.now) stack.now next result }
{
    match *operation {
        Operation::Bra { offset } => {
            if stack.entry(0) == 0 {
                next
            } else {
                next + u32::from(offset.unsigned_abs())
            }
        }
        Operation::Skip { offset } => next + u32::from(offset.unsigned_abs()),
        _ => next,
    }
}

/// The location that the operation names, or none if it names no location.
#[inline(always)]
pub fn location_named<'a, const PLACES: usize>(
    operation: &Operation<'a>,
    stack: &Stack<PLACES>,
) -> Option<Location<'a>>
    requires { (effect_of (operation_of operation.now)).needs ≤ length stack.now }
    ensures { option_map location_description_of result ≡ location_named
        (operation_of operation.now) stack.now }
{
    match *operation {
        Operation::Reg { register } => Some(Location::Register(u16::from(register))),
        Operation::Regx { register } => Some(Location::Register(register)),
        Operation::ImplicitValue { bytes } => Some(Location::Bytes(bytes)),
        Operation::StackValue => Some(Location::Value(stack.entry(0))),
        _ => None,
    }
}

/// The size of the piece that the operation ends, or none if it ends no piece.
#[inline(always)]
pub fn piece_size_named(operation: &Operation<'_>) -> Option<PieceSize>
    ensures { EndsPiece (operation_of operation.now) result }
{
    match *operation {
        Operation::Piece { size } => Some(PieceSize::Bytes(size)),
        Operation::BitPiece { size, offset } => Some(PieceSize::Bits { size, offset }),
        _ => None,
    }
}
