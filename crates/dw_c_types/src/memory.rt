//! The blocks of memory that C passes, and reads from them.

ghost use Rattle.dw_c_types.specs.Machine.{HasWords};

use byteorder::{BigEndian, ByteOrder, LittleEndian};
use dw_bytes::Order;
use dw_eval::{Memory, MemoryBlock};
use std::marker::Model;

/// Known bytes of memory; the first is at address `base`.
#[repr(C)]
#[derive(Drop)]
pub struct CBlock<'a> {
    pub base: u64,
    pub bytes: &'a [u8],
}

impl<'a> CBlock<'a> {
    ghost use Rattle.std.specs.Prelude.{◌≡◌};
    ghost use Rattle.dw_eval.specs.MemoryBlocks.{block_byte};

    fn byte(&self, address: u64) -> Option<u8>
        ensures { result ≡ block_byte self.now.base self.now.bytes.now address }
    {
        if self.base <= address {
            self.bytes.get((address - self.base) as usize).copied()
        } else {
            None
        }
    }
}

/// Memory whose known bytes are those of a list of blocks. If several blocks contain an address,
/// the byte of the first of these blocks counts.
#[derive(Drop)]
pub struct Blocks<'m, 'a> {
    blocks: &'m [CBlock<'a>],
    /// The bytes of the first block; none if there is no block. They are here a second time because
    /// the first block is usually the stack, and most reads are there.
    first: MemoryBlock<'a>,
    /// A word of 8 bytes that begins less than this above the start of the first block is in that
    /// block.
    word_starts: u64,
}

/// At how many addresses, from the start of a block on, a word of 8 bytes begins that is in the
/// block. None of them is the greatest address, so adding them to `base` doesn't overflow.
fn word_starts(block: &MemoryBlock<'_>) -> u64
    ensures { HasWords block.now result }
{
    let inside = (block.bytes.len() as u64).saturating_sub(7);
    inside.min(u64::MAX - block.base)
}

impl<'m, 'a> Model for Blocks<'m, 'a> {
    ghost use Rattle.std.specs.Prelude.{List};
    ghost use Rattle.dw_c_types.specs.declared.memory.CBlock.{CBlock};
    ghost use Rattle.dw_c_types.specs.Machine.{HasBytesOf, HasWords};

    ghost Value = { List CBlock };

    ghost view = { λ m. m.blocks.now };

    ghost invariant = { λ m. HasBytesOf m.first m.blocks.now × HasWords m.first m.word_starts };
}

impl<'m, 'a> Blocks<'m, 'a> {
    ghost use Rattle.std.specs.Prelude.{◌≡◌, ◌^◌, ◌+◌, ◌≤◌, IfSome, Some};
    ghost use Rattle.dw_bytes.specs.declared.target.Order.TheVariants.{Little};
    ghost use Rattle.dw_eval.specs.World.{IsSize, number_at};
    ghost use Rattle.dw_c_types.specs.Machine.{byte_in};

    /// The memory of these blocks.
    #[inline(always)]
    pub fn new(blocks: &'m [CBlock<'a>]) -> Self
        ensures { result ≡ blocks.now }
    {
        let first = match blocks.split_first() {
            Some((first, _)) => MemoryBlock {
                base: first.base,
                bytes: first.bytes,
            },
            None => MemoryBlock {
                base: 0,
                bytes: &[],
            },
        };
        let word_starts = word_starts(&first);
        Blocks {
            blocks,
            first,
            word_starts,
        }
    }

    fn byte(&self, address: u64) -> Option<u8>
        ensures { result ≡ byte_in self.now address }
    {
        for block in self.blocks {
            if let Some(byte) = block.byte(address) {
                return Some(byte);
            }
        }
        None
    }

    /// Reads a little-endian number of 8 bytes from the first block. `None` if that block doesn't
    /// contain all of its bytes. Nearly all reads are of this kind, and take one comparison.
    #[inline(always)]
    fn read_word(&self, address: u64) -> Option<u64>
        ensures { IfSome result (λ number.
            number_at (byte_in self.now) Little address 8 ≡ Some number) }
    {
        let offset = address.wrapping_sub(self.first.base);
        if offset >= self.word_starts {
            return None;
        }
        let at = offset as usize;
        Some(LittleEndian::read_u64(&self.first.bytes[at..at + 8]))
    }

    /// Reads a number from the first block. `None` if it isn't found there.
    #[inline(always)]
    fn read_first(&self, address: u64, size: u8, order: Order) -> Option<u64>
        requires size { IsSize size }
        requires within { address + size ≤ 2 ^ 64 }
        ensures { IfSome result (λ number.
            number_at (byte_in self.now) order address size ≡ Some number) }
    {
        match order {
            Order::Little if size == 8 => self.read_word(address),
            _ => self.first.read(address, size, order),
        }
    }

    /// Reads a number byte by byte, since its bytes may be in different blocks. `None` if there is
    /// a byte that no block contains.
    #[cold]
    #[inline(never)]
    fn read_by_bytes(&self, address: u64, size: u8, order: Order) -> Option<u64>
        requires size { IsSize size }
        requires within { address + size ≤ 2 ^ 64 }
        ensures { result ≡ number_at (byte_in self.now) order address size }
    {
        let mut bytes = [0; 8];
        for index in 0..size {
            bytes[usize::from(index)] = self.byte(address + u64::from(index))?;
        }
        let count = usize::from(size);
        Some(match order {
            Order::Little => LittleEndian::read_uint(&bytes[..count], count),
            Order::Big => BigEndian::read_uint(&bytes[..count], count),
        })
    }
}

impl<'m, 'a> Memory for Blocks<'m, 'a> {
    ghost use Rattle.dw_c_types.specs.Machine.{byte_in};

    ghost bytes = { λ b. byte_in b };

    #[inline(always)]
    fn read(&self, address: u64, size: u8, order: Order) -> Option<u64> {
        match self.read_first(address, size, order) {
            Some(number) => Some(number),
            None => self.read_by_bytes(address, size, order),
        }
    }
}
