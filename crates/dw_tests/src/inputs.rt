//! What several tests share: a target, sections, registers and memory.

ghost use Rattle.std.specs.Prelude.{◌==◌, if◌then◌else◌, Some, None};

use dw_bytes::{AddressSize, Order, Target};
use dw_eh_frame::Bases;
use dw_eval::{Memory, Registers};

pub(crate) const LITTLE: Target = Target {
    order: Order::Little,
    address_size: AddressSize::Eight,
};

/// Where a section of `.eh_frame` is: at 0x2000.
pub(crate) const BASES: Bases = Bases {
    section: 0x2000,
    text_start: None,
    data_start: None,
};

/// A CIE, and an FDE of 0x1000 to 0x1020: the first example of docs/WORKED.md.
pub(crate) const FUNCTION: [u8; 56] = [
    0x14, 0, 0, 0, 0xff, 0xff, 0xff, 0xff, 4, 0, 8, 0, 1, 0x78, 0x10, 0x0c, 7, 8, 0x90, 1, 0, 0, 0,
    0, 0x1c, 0, 0, 0, 0, 0, 0, 0, 0, 0x10, 0, 0, 0, 0, 0, 0, 0x20, 0, 0, 0, 0, 0, 0, 0, 0x41, 0x0e,
    0x10, 0x86, 2, 0x43, 0x0d, 6,
];

/// The CIE of `FUNCTION`, and an FDE of 0x1000 to 0x1020 whose rules of registers 6 and 7 have
/// expressions.
pub(crate) const EXPRESSIONS: [u8; 56] = [
    0x14, 0, 0, 0, 0xff, 0xff, 0xff, 0xff, 4, 0, 8, 0, 1, 0x78, 0x10, 0x0c, 7, 8, 0x90, 1, 0, 0, 0,
    0, 0x1c, 0, 0, 0, 0, 0, 0, 0, 0, 0x10, 0, 0, 0, 0, 0, 0, 0x20, 0, 0, 0, 0, 0, 0, 0, 0x10, 6, 2,
    0x23, 8, 0x16, 7, 0,
];

/// The CIE of `FUNCTION`, and an FDE of 0 to 0x20. Its rule always gives the return address 7,
/// which the FDE covers, so a walk never ends.
pub(crate) const ROUND: [u8; 56] = [
    0x14, 0, 0, 0, 0xff, 0xff, 0xff, 0xff, 4, 0, 8, 0, 1, 0x78, 0x10, 0x0c, 7, 8, 0x90, 1, 0, 0, 0,
    0, 0x1c, 0, 0, 0, 0, 0, 0, 0, 0, 0, 0, 0, 0, 0, 0, 0, 0x20, 0, 0, 0, 0, 0, 0, 0, 0x0f, 1, 0x3f,
    0x14, 0x10, 1, 0, 0,
];

/// A section with one list, at offset 0xc: the object is in register 0 for the first 0x10 addresses
/// from the base address on, and has the value 0 at all others.
pub(crate) const PAIR_AND_DEFAULT: [u8; 22] = [
    0x12, 0, 0, 0, 5, 0, 8, 0, 0, 0, 0, 0, 4, 0, 0x10, 1, 0x50, 5, 2, 0x30, 0x9f, 0,
];

/// Registers and memory with no known contents.
#[derive(Clone, Copy)]
pub(crate) struct Unknown;

impl Registers for Unknown {
    ghost contents = { λ _ _. None };

    fn register(&self, _number: u16) -> Option<u64> {
        None
    }
}

impl Memory for Unknown {
    ghost bytes = { λ _ _. None };

    #[tactic(auto, unfolding(dw_eval::specs::World::bytes_from))]
    fn read(&self, _address: u64, _size: u8, _order: Order) -> Option<u64> {
        None
    }
}

/// One known register.
#[derive(Clone, Copy)]
pub(crate) struct OneRegister {
    pub(crate) known: u16,
    pub(crate) content: u64,
}

impl Registers for OneRegister {
    ghost contents = { λ r n. if n == r.known then Some r.content else None };

    fn register(&self, number: u16) -> Option<u64> {
        if number == self.known {
            Some(self.content)
        } else {
            None
        }
    }
}
