//! Reading all operations of an expression.

ghost use Rattle.std.specs.Prelude.{◌≡◌, ◌≤◌, IfErr, IfOk, length, map};
ghost use Rattle.dw_bytes.specs.Answers.{Answers, values_in, fault_in};
ghost use Rattle.dw_ops.specs.Opcodes.{operations_of};
ghost use Rattle.dw_ops.specs.Views.{bytes_of, reading_from, located_of};

use crate::decode::decode_one;
use crate::expression::Expression;
use crate::operation::Operation;
use dw_bytes::Fault;
use smallvec::SmallVec;
use std::alloc::Global;

/// All operations of an expression, each with its offset, in one pass over the bytes. Memory is
/// allocated only for more than 16 operations.
///
/// The fault that is returned is the fault of the first operation that can't be read
/// (`decode_one`), or `Memory` at 0 if memory for more than 16 operations can't be allocated.
pub fn operations<'a>(
    alloc: Global,
    expression: &Expression<'a>,
) -> Result<SmallVec<(u32, Operation<'a>), 16>, Fault>
    ensures answer { Answers (fault_in (operations_of (reading_from expression.now 0))) result }
    ensures inside { IfErr result (λ fault. fault.at ≤ length (bytes_of expression.now)) }
    ensures list { IfOk result (λ list. map located_of list.items ≡ values_in
        (operations_of (reading_from expression.now 0))) }
{
    let mut list = SmallVec::new(alloc);
    let end = expression.bytes().len() as u32;
    let mut at = 0;
    while at < end {
        let (operation, next) = decode_one(expression, at)?;
        list.push((at, operation))?;
        at = next;
    }
    Ok(list)
}
