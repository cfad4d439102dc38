//! Memory with one known block, such as a stack.

ghost use Rattle.std.specs.Prelude.{◌≡◌, ◌≤◌, IfSome, length, option_map};
ghost use Rattle.dw_bytes.specs.Encoding.{number};
ghost use Rattle.dw_eval.specs.MemoryBlocks.{block_byte};
ghost use Rattle.dw_eval.specs.World.{bytes_from};

use crate::context::Memory;
use byteorder::{BigEndian, ByteOrder, LittleEndian};
use dw_bytes::Order;

/// Memory with one known block, such as the top of a stack. A read that isn't wholly inside the
/// block returns none.
///
/// ```rust
/// let stack = MemoryBlock {
///     base: 0x7fff_ffff_e000,
///     bytes: copied.as_slice(),
/// };
/// let caller = unwind(&table, &abi, address, &registers, &stack);
/// ```
#[derive(Clone, Copy, Debug)]
pub struct MemoryBlock<'a> {
    /// The address of the first byte.
    pub base: u64,
    /// The bytes from `base` on.
    pub bytes: &'a [u8],
}

/// The `size` bytes from `address` on, or none if not all of them are in the block.
#[inline(always)]
fn window<'a>(base: u64, bytes: &'a [u8], address: u64, size: usize) -> Option<&'a [u8]>
    requires { 1 ≤ size }
    ensures bytes { option_map (λ w. w.now) result
        ≡ bytes_from (block_byte base bytes.now) address size }
    ensures long { IfSome result (λ w. length w.now ≡ size) }
{
    if address < base {
        return None;
    }
    let offset = address - base;
    if offset >= bytes.len() as u64 {
        return None;
    }
    let at = offset as usize;
    if bytes.len() - at < size {
        return None;
    }
    Some(&bytes[at..at + size])
}

/// The number that the bytes encode. Nearly all reads are of 8 little-endian bytes, and that takes
/// one load.
#[inline(always)]
fn number_of(order: Order, bytes: &[u8]) -> u64
    requires low { 1 ≤ length bytes.now }
    requires high { length bytes.now ≤ 8 }
    ensures { result ≡ number order (length bytes.now) bytes.now }
{
    let count = bytes.len();
    match order {
        Order::Little if count == 8 => LittleEndian::read_u64(bytes),
        Order::Little => LittleEndian::read_uint(bytes, count),
        Order::Big => BigEndian::read_uint(bytes, count),
    }
}

impl<'a> Memory for MemoryBlock<'a> {
    ghost use Rattle.dw_eval.specs.MemoryBlocks.{block_byte};

    ghost bytes = { λ b. block_byte b.base b.bytes.now };

    #[inline(always)]
    fn read(&self, address: u64, size: u8, order: Order) -> Option<u64> {
        match window(self.base, self.bytes, address, usize::from(size)) {
            Some(bytes) => Some(number_of(order, bytes)),
            None => None,
        }
    }
}
