//! Guesses of which module has an address, which spare most look-ups a search.

ghost use Rattle.std.specs.Prelude.{◌<◌};

use crate::address_range::AddressRange;
use crate::row_cache::MULTIPLIER;

/// How many guesses there are, in 4 KB.
const GUESSES: usize = 2048;

/// By how many bits a product is shifted to the right to give a number below `GUESSES`.
const SHIFT: u32 = 53;

/// By how many bits an address is shifted to the right to give the number of its block of 1 MB.
const BLOCK_SHIFT: u32 = 20;

/// Guesses of which module has an address. Memory is divided into blocks of 1 MB. For a block that
/// has an address of a module, there is the module's index, at a place that the number of the block
/// determines. If two blocks share a place, or two modules a block, the later one has it. A module
/// of more than 2 GB has guesses for its first blocks only, and one with an index above 65,535 has
/// none. A look-up checks a guess, so a wrong one costs time, and changes no answer.
///
/// A search among 1,000 modules takes as long as the rest of a look-up, since each of its steps has
/// to wait for the one before. A guess takes two loads, and the processor goes on while they are
/// under way.
#[derive(Drop)]
pub(crate) struct ModuleGuesses {
    indices: [u16; GUESSES],
}

/// The place of a block's guess.
#[inline(always)]
fn place_of(block: u64) -> usize
    ensures { result < GUESSES }
{
    (block.wrapping_mul(MULTIPLIER) >> SHIFT) as usize
}

impl ModuleGuesses {
    /// Guesses for no modules.
    pub fn none() -> Self {
        ModuleGuesses {
            indices: [0; GUESSES],
        }
    }

    /// The same guesses once more.
    pub fn copy(&self) -> Self {
        ModuleGuesses {
            indices: self.indices,
        }
    }

    /// The index of the module that may have the address.
    #[inline(always)]
    pub fn at(&self, address: u64) -> u32 {
        u32::from(self.indices[place_of(address >> BLOCK_SHIFT)])
    }

    /// Takes note that a module with this range was inserted at `index`.
    pub fn note_inserted(&mut self, index: usize, range: AddressRange) {
        let Ok(index) = u16::try_from(index) else {
            return;
        };
        self.move_up(index);
        let last = range.last >> BLOCK_SHIFT;
        let mut block = range.first >> BLOCK_SHIFT;
        for _ in 0..GUESSES {
            self.indices[place_of(block)] = index;
            if block >= last {
                return;
            }
            block += 1;
        }
    }

    /// Adds 1 to each guess from `index` on.
    fn move_up(&mut self, index: u16) {
        for place in 0..GUESSES {
            let guess = self.indices[place];
            self.indices[place] = guess.saturating_add(u16::from(guess >= index));
        }
    }

    /// Takes note that the module at `index` was removed.
    pub fn note_removed(&mut self, index: usize) {
        let Ok(index) = u16::try_from(index) else {
            return;
        };
        for place in 0..GUESSES {
            let guess = self.indices[place];
            self.indices[place] = guess - u16::from(guess > index);
        }
    }
}
