//! The inputs of an evaluation.

ghost use Rattle.std.specs.Prelude.{◌≡◌, ◌+◌, ◌^◌, ◌≤◌, ℕ, Option};
ghost use Rattle.dw_eval.specs.World.{IsSize, number_at};

use dw_bytes::Order;

/// A register file: a partial function from register numbers to contents.
///
/// ```rust
/// ghost use Rattle.std.specs.Prelude.{◌==◌, if◌then◌else◌, Some, None};
///
/// /// The stack pointer alone is known.
/// #[derive(Clone, Copy)]
/// struct StackPointer(u64);
///
/// impl Registers for StackPointer {
///     ghost contents = { λ s n. if n == 7 then Some s.0 else None };
///
///     fn register(&self, number: u16) -> Option<u64> {
///         if number == 7 { Some(self.0) } else { None }
///     }
/// }
/// ```
pub trait Registers {
    /// The content of each register, or none if it isn't known.
    ghost contents: { Self → ℕ → Option ℕ };

    /// The content of a register, or none if it isn't known. An evaluation takes it modulo 2^w, w
    /// being the size of an address in bits.
    fn register(&self, number: u16) -> Option<u64>
        ensures { result ≡ contents self.now number };
}

/// Memory: a partial function from addresses to bytes.
pub trait Memory {
    /// The byte at each address, or none if it isn't known.
    ghost bytes: { Self → ℕ → Option ℕ };

    /// Reads the number in the `size` bytes from `address` on, in the byte order `order`. None if
    /// one of these bytes isn't known. `size` is 1, 2, 4 or 8, and the last byte's address is below
    /// 2^64.
    fn read(&self, address: u64, size: u8, order: Order) -> Option<u64>
        requires size { IsSize size }
        requires within { address + size ≤ 2 ^ 64 }
        ensures { result ≡ number_at (bytes self.now) order address size };
}

/// The values that an expression can use besides registers and memory. Each is none if it isn't
/// known. An evaluation takes each value modulo 2^w, w being the size of an address in bits.
#[derive(Clone, Copy, Debug, Default, PartialEq, Eq)]
pub struct Context {
    /// The canonical frame address (DWARF 5, section 6.4).
    pub cfa: Option<u64>,
    /// The frame base of the subprogram (DWARF 5, section 3.3.5).
    pub frame_base: Option<u64>,
    /// The address of the object that the expression describes (DWARF 5, section 2.5.1.3).
    pub object: Option<u64>,
}
