//! `Expression`: the bytes of a DWARF expression, with their byte order and address size.

ghost use Rattle.std.specs.Prelude.{◌≡◌, ◌<◌, ◌^◌, length};

use dw_bytes::Target;

/// The bytes of an expression and the target that their numbers are encoded for (DWARF 5, section
/// 2.5). Offsets in an expression count from its first byte. The bytes have not been checked.
///
/// ```rust
/// // DW_OP_breg7 8, DW_OP_deref
/// let expression = Expression::new(&[0x77, 0x08, 0x06], target);
/// let found = operations(alloc, &expression)?;
/// let breg = Operation::Breg { register: 7, offset: 8 };
/// assert_eq!(rt; found.as_slice(), [(0, breg), (2, Operation::Deref)].as_slice());
/// ```
#[derive(Clone, Copy, Debug)]
pub struct Expression<'a> {
    bytes: &'a [u8],
    target: Target,
    pub ghost short: { length bytes.now < 2 ^ 32 },
}

impl<'a> Expression<'a> {
    ghost use Rattle.dw_ops.specs.Views.{bytes_of, target_of};

    /// An expression of fewer than 2^32 bytes.
    pub fn new(bytes: &'a [u8], target: Target) -> Self
        requires { length bytes.now < 2 ^ 32 }
        ensures bytes { bytes_of result ≡ bytes.now }
        ensures target { target_of result ≡ target }
    {
        Expression { bytes, target }
    }

    /// All bytes of the expression.
    pub fn bytes(&self) -> &'a [u8]
        ensures { result.now ≡ bytes_of self.now }
    {
        self.bytes
    }

    /// The byte order and address size that the expression is read with.
    pub fn target(&self) -> Target
        ensures { result ≡ target_of self.now }
    {
        self.target
    }
}
