//! Reads the operands of operations and call frame instructions, some of which must be in a range.
//! All operands after a code are read before any range is checked. If a field can't be read,
//! `Truncated` or `LebRange` is reported at its first byte. A block's count is one such field, and
//! the block's bytes are another. If an operand is out of range, the fault is reported at the code
//! before the operands, whose offset the caller passes as `at`: `RegisterNumber` for a register
//! above 65535, `PieceSize` for a size or offset of a piece above 2^32 - 1, `BadSize` for the size
//! of a memory read. A read that fails leaves the cursor where it was.

ghost use Rattle.std.specs.Prelude.{◌≡◌, ◌≤◌, [], ◌∷◌, MatchOption, Ok};
ghost use Rattle.dw_bytes.specs.Reading.{MovesForward, ReadsBy};
ghost use Rattle.dw_bytes.specs.Readers.{IsRefusedWithin};
ghost use Rattle.dw_bytes.specs.Operands.{unsigned, signed, register_number, read_size, piece_size, block, in_range, one_value, two_values};
ghost use Rattle.dw_bytes.specs.Operands.{block_at, block_of, operands_in_range_at};

use crate::block::Block;
use crate::cursor::Cursor;
use crate::fault::{Fault, FaultKind};
use crate::target::{AddressSize, Target};

#[inline(always)]
fn register_in_range(number: u64, at: u32, target: Target) -> Result<u16, Fault>
    ensures { result ≡ in_range target at register_number number }
{
    let _ = target;
    match u16::try_from(number) {
        Ok(register) => Ok(register),
        Err(_) => Err(Fault {
            kind: FaultKind::RegisterNumber,
            at,
        }),
    }
}

fn piece_size_in_range(number: u64, at: u32, target: Target) -> Result<u32, Fault>
    ensures { result ≡ in_range target at piece_size number }
{
    let _ = target;
    match u32::try_from(number) {
        Ok(size) => Ok(size),
        Err(_) => Err(Fault {
            kind: FaultKind::PieceSize,
            at,
        }),
    }
}

fn read_size_in_range(size: u8, at: u32, target: Target) -> Result<u8, Fault>
    ensures { result ≡ in_range target at read_size size }
{
    let is_size = match target.address_size {
        AddressSize::Four => matches!(size, 1 | 2 | 4),
        AddressSize::Eight => matches!(size, 1 | 2 | 4 | 8),
    };
    if is_size {
        Ok(size)
    } else {
        Err(Fault {
            kind: FaultKind::BadSize,
            at,
        })
    }
}

/// A register number: unsigned LEB128, at most 65535. If it is above, `RegisterNumber` is reported
/// at the code's offset `at`.
#[inline(always)]
pub fn register(cursor: &mut Cursor<'_>, at: u32) -> Result<u16, Fault>
    requires { at ≤ cursor.old.position }
    ensures exact { ReadsBy one_value
        (operands_in_range_at at (register_number ∷ [])) cursor.old result cursor.new }
    ensures within { IsRefusedWithin cursor.old result }
    ensures goes_on { MovesForward cursor.old cursor.new }
{
    let mut ahead = cursor.copy();
    let register = register_in_range(ahead.uleb()?, at, cursor.target())?;
    *cursor = ahead;
    Ok(register)
}

/// Two register numbers.
pub fn two_registers(cursor: &mut Cursor<'_>, at: u32) -> Result<(u16, u16), Fault>
    requires { at ≤ cursor.old.position }
    ensures exact { ReadsBy two_values
        (operands_in_range_at at (register_number ∷ register_number ∷ []))
        cursor.old result cursor.new }
    ensures within { IsRefusedWithin cursor.old result }
    ensures goes_on { MovesForward cursor.old cursor.new }
{
    let target = cursor.target();
    let mut ahead = cursor.copy();
    let first = ahead.uleb()?;
    let second = ahead.uleb()?;
    let registers = (
        register_in_range(first, at, target)?,
        register_in_range(second, at, target)?,
    );
    *cursor = ahead;
    Ok(registers)
}

/// A register number and an unsigned LEB128 number.
#[inline(always)]
pub fn register_and_unsigned(cursor: &mut Cursor<'_>, at: u32) -> Result<(u16, u64), Fault>
    requires { at ≤ cursor.old.position }
    ensures exact { ReadsBy two_values
        (operands_in_range_at at (register_number ∷ unsigned ∷ [])) cursor.old result cursor.new }
    ensures within { IsRefusedWithin cursor.old result }
    ensures goes_on { MovesForward cursor.old cursor.new }
{
    let mut ahead = cursor.copy();
    let number = ahead.uleb()?;
    let value = ahead.uleb()?;
    let register = register_in_range(number, at, cursor.target())?;
    *cursor = ahead;
    Ok((register, value))
}

/// A register number and a signed LEB128 number.
pub fn register_and_signed(cursor: &mut Cursor<'_>, at: u32) -> Result<(u16, i64), Fault>
    requires { at ≤ cursor.old.position }
    ensures exact { ReadsBy two_values
        (operands_in_range_at at (register_number ∷ signed ∷ [])) cursor.old result cursor.new }
    ensures within { IsRefusedWithin cursor.old result }
    ensures goes_on { MovesForward cursor.old cursor.new }
{
    let mut ahead = cursor.copy();
    let number = ahead.uleb()?;
    let value = ahead.sleb()?;
    let register = register_in_range(number, at, cursor.target())?;
    *cursor = ahead;
    Ok((register, value))
}

/// A register number and a block.
pub fn register_and_block<'a>(cursor: &mut Cursor<'a>, at: u32) -> Result<(u16, Block<'a>), Fault>
    requires { at ≤ cursor.old.position }
    ensures exact { ReadsBy (λ v. two_values (v.0, block_of v.1))
        (operands_in_range_at at (register_number ∷ block ∷ [])) cursor.old result cursor.new }
    ensures within { IsRefusedWithin cursor.old result }
    ensures goes_on { MovesForward cursor.old cursor.new }
{
    let mut ahead = cursor.copy();
    let number = ahead.uleb()?;
    let block = block(&mut ahead, at)?;
    let register = register_in_range(number, at, cursor.target())?;
    *cursor = ahead;
    Ok((register, block))
}

/// A block: the count of its bytes as unsigned LEB128, then the bytes. A block has no range to
/// check, so `at` isn't used.
#[inline(always)]
pub fn block<'a>(cursor: &mut Cursor<'a>, at: u32) -> Result<Block<'a>, Fault>
    ensures exact { ReadsBy (λ v. one_value (block_of v))
        (operands_in_range_at at (block ∷ [])) cursor.old result cursor.new }
    ensures within { IsRefusedWithin cursor.old result }
    ensures goes_on { MovesForward cursor.old cursor.new }
{
    let _ = at;
    let mut ahead = cursor.copy();
    let length = ahead.uleb()?;
    let offset = ahead.position();
    let bytes = ahead.take(length)?;
    *cursor = ahead;
    Ok(Block {
        offset,
        target: cursor.target(),
        bytes,
    })
}

/// A shortcut for `block`, for a count of at most three bytes. `None` if the count is longer or the
/// block can't be read; then the cursor doesn't move, and the caller must call `block`.
#[inline(always)]
pub fn short_block<'a>(cursor: &mut Cursor<'a>) -> Option<Block<'a>>
    ensures exact { MatchOption result (cursor.new ≡ cursor.old)
        (λ v. block_at cursor.old ≡ Ok (block_of v, cursor.new)) }
    ensures goes_on { MovesForward cursor.old cursor.new }
{
    let mut ahead = cursor.copy();
    let length = ahead.short_uleb()?;
    let offset = ahead.position();
    let Ok(bytes) = ahead.take(u64::from(length)) else {
        return None;
    };
    *cursor = ahead;
    Some(Block {
        offset,
        target: cursor.target(),
        bytes,
    })
}

/// The size of a piece: unsigned LEB128, at most 2^32 - 1. If it is above, `PieceSize` is reported
/// at the code's offset `at`.
pub fn piece_size(cursor: &mut Cursor<'_>, at: u32) -> Result<u32, Fault>
    requires { at ≤ cursor.old.position }
    ensures exact { ReadsBy one_value
        (operands_in_range_at at (piece_size ∷ [])) cursor.old result cursor.new }
    ensures within { IsRefusedWithin cursor.old result }
    ensures goes_on { MovesForward cursor.old cursor.new }
{
    let mut ahead = cursor.copy();
    let number = ahead.uleb()?;
    let size = piece_size_in_range(number, at, cursor.target())?;
    *cursor = ahead;
    Ok(size)
}

/// The size and the offset of a piece: two unsigned LEB128 numbers, each at most 2^32 - 1. If
/// either is above, `PieceSize` is reported at the code's offset `at`.
pub fn two_piece_sizes(cursor: &mut Cursor<'_>, at: u32) -> Result<(u32, u32), Fault>
    requires { at ≤ cursor.old.position }
    ensures exact { ReadsBy two_values
        (operands_in_range_at at (piece_size ∷ piece_size ∷ [])) cursor.old result cursor.new }
    ensures within { IsRefusedWithin cursor.old result }
    ensures goes_on { MovesForward cursor.old cursor.new }
{
    let target = cursor.target();
    let mut ahead = cursor.copy();
    let size = ahead.uleb()?;
    let offset = ahead.uleb()?;
    let sizes = (
        piece_size_in_range(size, at, target)?,
        piece_size_in_range(offset, at, target)?,
    );
    *cursor = ahead;
    Ok(sizes)
}

/// The size of a memory read, in one byte: 1, 2, 4 or 8, and at most the address size. If it is
/// anything else, `BadSize` is reported at the code's offset `at`.
pub fn read_size(cursor: &mut Cursor<'_>, at: u32) -> Result<u8, Fault>
    requires { at ≤ cursor.old.position }
    ensures exact { ReadsBy one_value
        (operands_in_range_at at (read_size ∷ [])) cursor.old result cursor.new }
    ensures within { IsRefusedWithin cursor.old result }
    ensures goes_on { MovesForward cursor.old cursor.new }
{
    let mut ahead = cursor.copy();
    let number = ahead.u8()?;
    let size = read_size_in_range(number, at, cursor.target())?;
    *cursor = ahead;
    Ok(size)
}
