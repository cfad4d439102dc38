//! A checksum of a sequence of numbers. Two readers of the same bytes add what they read; if their
//! checksums are equal, they have read the same.

/// The checksum of the numbers added so far; their order matters.
#[derive(Clone, Copy)]
pub(crate) struct Mixed {
    number: u64,
}

impl Mixed {
    /// The checksum of no numbers.
    pub(crate) fn new() -> Self {
        Mixed { number: 0 }
    }

    /// Adds a number.
    pub(crate) fn add(&mut self, number: u64) {
        let product = (self.number ^ number).wrapping_mul(0x9e37_79b9_7f4a_7c15);
        self.number = product ^ (product >> 32);
    }

    /// Adds three numbers.
    pub(crate) fn add_three(&mut self, first: u64, second: u64, third: u64) {
        self.add(first);
        self.add(second);
        self.add(third);
    }

    /// Adds the number of bytes, and each byte.
    pub(crate) fn add_bytes(&mut self, bytes: &[u8]) {
        self.add(bytes.len() as u64);
        for byte in bytes {
            self.add(u64::from(*byte));
        }
    }

    /// The checksum with its highest bit set, so that it differs from the number of any fault.
    pub(crate) fn answer(self) -> u64 {
        self.number | 0x8000_0000_0000_0000
    }
}
