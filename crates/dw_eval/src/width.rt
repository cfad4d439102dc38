//! Arithmetic modulo 2^w, w being the size of an address in bits: on stack entries, and on the
//! contents of registers and memory.

ghost use Rattle.std.specs.Prelude.{◌≡◌, ◌<◌, ◌+◌, ◌-◌, ◌*◌, ◌/◌, ◌%◌, ◌^◌, pos, ◌+ℤ◌, ◌-ℤ◌, unsigned_abs, int_div, int_lt, int_le};
ghost use Rattle.std.specs.Prelude.{bit_and, bit_or, bit_xor};
ghost use Rattle.std.specs.Int.{int_shr};
ghost use Rattle.dw_eval.specs.Numbers.{width_of, wrap, twos_complement, truth};

use dw_bytes::AddressSize;

/// The width w of a stack entry in bits, which is the width of an address (DWARF 5, section 2.5.1).
/// The results of the methods are taken modulo 2^w.
///
/// ```rust
/// let width = Width { size: AddressSize::Four };
/// assert_eq!(rt; width.offset(0xffff_ffff, 2), 1);
/// ```
#[derive(Clone, Copy, Debug, PartialEq, Eq)]
pub struct Width {
    /// The size of an address.
    pub size: AddressSize,
}

impl Width {
    /// The greatest entry, 2^w - 1.
    #[inline(always)]
    pub fn max(self) -> u64
        ensures { result + 1 ≡ 2 ^ width_of self.size }
    {
        self.size.max_address()
    }

    /// `n` modulo 2^w.
    #[inline(always)]
    pub fn reduce(self, n: u64) -> u64
        ensures { result ≡ wrap (width_of self.size) (pos n) }
    {
        match self.size {
            AddressSize::Four => n % 0x1_0000_0000,
            AddressSize::Eight => n,
        }
    }

    /// A one-byte number as a stack entry. It is below 2^w, so it isn't reduced.
    #[inline(always)]
    pub(crate) fn byte(self, n: u8) -> u64
        ensures { result ≡ wrap (width_of self.size) (pos n) }
    {
        u64::from(n)
    }

    /// The signed number `z` modulo 2^w.
    #[inline(always)]
    pub(crate) fn reduce_signed(self, z: i64) -> u64
        ensures { result ≡ wrap (width_of self.size) z }
    {
        self.reduce(z.cast_unsigned())
    }

    /// The w-bit entry `n`, read as a signed number in two's complement.
    #[inline(always)]
    fn sign(self, n: u64) -> i64
        requires { n < 2 ^ width_of self.size }
        ensures { result ≡ twos_complement (width_of self.size) n }
    {
        match self.size {
            AddressSize::Four => {
                if n < 0x8000_0000 {
                    n as i64
                } else {
                    n as i64 - 0x1_0000_0000
                }
            }
            AddressSize::Eight => n.cast_signed(),
        }
    }

    /// The sum of a number and an offset, modulo 2^w.
    #[inline(always)]
    pub fn offset(self, n: u64, offset: i64) -> u64
        ensures { result ≡ wrap (width_of self.size) (pos n +ℤ offset) }
    {
        self.reduce(n.wrapping_add(offset.cast_unsigned()))
    }

    #[inline(always)]
    pub(crate) fn plus(self, a: u64, b: u64) -> u64
        ensures { result ≡ wrap (width_of self.size) (pos (a + b)) }
    {
        self.reduce(a.wrapping_add(b))
    }

    /// The difference of two numbers, modulo 2^w.
    #[inline(always)]
    pub fn minus(self, a: u64, b: u64) -> u64
        ensures { result ≡ wrap (width_of self.size) (pos a -ℤ pos b) }
    {
        self.reduce(a.wrapping_sub(b))
    }

    #[inline(always)]
    pub(crate) fn mul(self, a: u64, b: u64) -> u64
        ensures { result ≡ wrap (width_of self.size) (pos (a * b)) }
    {
        self.reduce(a.wrapping_mul(b))
    }

    /// The quotient of `a` and `b` as signed numbers, truncated toward zero.
    #[inline(always)]
    pub(crate) fn div(self, a: u64, b: u64) -> u64
        requires a { a < 2 ^ width_of self.size }
        requires b { b < 2 ^ width_of self.size }
        requires nonzero { 0 < b }
        ensures { result ≡ wrap (width_of self.size)
            (int_div (twos_complement (width_of self.size) a)
            (twos_complement (width_of self.size) b)) }
    {
        self.reduce_signed(self.sign(a).wrapping_div(self.sign(b)))
    }

    /// The absolute value of `b` as a signed number. The most negative number stays unchanged.
    #[inline(always)]
    pub(crate) fn abs(self, b: u64) -> u64
        requires { b < 2 ^ width_of self.size }
        ensures { result ≡ wrap (width_of self.size)
            (pos (unsigned_abs (twos_complement (width_of self.size) b))) }
    {
        self.reduce(self.sign(b).unsigned_abs())
    }

    #[inline(always)]
    pub(crate) fn neg(self, b: u64) -> u64
        ensures { result ≡ wrap (width_of self.size) (pos 0 -ℤ pos b) }
    {
        self.minus(0, b)
    }

    /// All w bits inverted.
    #[inline(always)]
    pub(crate) fn not(self, b: u64) -> u64
        requires { b < 2 ^ width_of self.size }
        ensures { result ≡ wrap (width_of self.size) (pos (2 ^ width_of self.size - 1 - b)) }
    {
        self.reduce(!b)
    }

    #[inline(always)]
    pub(crate) fn and(self, a: u64, b: u64) -> u64
        requires a { a < 2 ^ width_of self.size }
        requires b { b < 2 ^ width_of self.size }
        ensures { result ≡ wrap (width_of self.size) (pos (bit_and a b)) }
    {
        a & b
    }

    #[inline(always)]
    pub(crate) fn or(self, a: u64, b: u64) -> u64
        requires a { a < 2 ^ width_of self.size }
        requires b { b < 2 ^ width_of self.size }
        ensures { result ≡ wrap (width_of self.size) (pos (bit_or a b)) }
    {
        a | b
    }

    #[inline(always)]
    pub(crate) fn xor(self, a: u64, b: u64) -> u64
        requires a { a < 2 ^ width_of self.size }
        requires b { b < 2 ^ width_of self.size }
        ensures { result ≡ wrap (width_of self.size) (pos (bit_xor a b)) }
    {
        a ^ b
    }

    /// The remainder of `a` and `b` as unsigned numbers.
    #[inline(always)]
    pub(crate) fn rem(self, a: u64, b: u64) -> u64
        requires a { a < 2 ^ width_of self.size }
        requires nonzero { 0 < b }
        ensures { result ≡ wrap (width_of self.size) (pos (a % b)) }
    {
        a % b
    }

    /// 1 for true, 0 for false.
    #[inline(always)]
    pub(crate) fn truth(self, holds: bool) -> u64
        ensures { result ≡ wrap (width_of self.size) (truth holds) }
    {
        u64::from(holds)
    }

    #[inline(always)]
    pub(crate) fn shl(self, a: u64, b: u64) -> u64
        ensures { result ≡ wrap (width_of self.size) (pos (a * 2 ^ b)) }
    {
        if b < 64 { self.reduce(a << b) } else { 0 }
    }

    /// Logical shift right.
    #[inline(always)]
    pub(crate) fn shr(self, a: u64, b: u64) -> u64
        requires { a < 2 ^ width_of self.size }
        ensures { result ≡ wrap (width_of self.size) (pos (a / 2 ^ b)) }
    {
        if b < 64 { a >> b } else { 0 }
    }

    /// Arithmetic shift right.
    #[inline(always)]
    pub(crate) fn shra(self, a: u64, b: u64) -> u64
        requires { a < 2 ^ width_of self.size }
        ensures { result ≡ wrap (width_of self.size)
            (int_shr (twos_complement (width_of self.size) a) b) }
    {
        self.reduce_signed(self.sign(a) >> b.min(63))
    }

    /// Whether `a` is less than `b`, as signed numbers.
    #[inline(always)]
    pub(crate) fn is_below(self, a: u64, b: u64) -> bool
        requires a { a < 2 ^ width_of self.size }
        requires b { b < 2 ^ width_of self.size }
        ensures { result ≡ int_lt (twos_complement (width_of self.size) a)
            (twos_complement (width_of self.size) b) }
    {
        self.sign(a) < self.sign(b)
    }

    /// Whether `a` is at most `b`, as signed numbers.
    #[inline(always)]
    pub(crate) fn is_at_most(self, a: u64, b: u64) -> bool
        requires a { a < 2 ^ width_of self.size }
        requires b { b < 2 ^ width_of self.size }
        ensures { result ≡ int_le (twos_complement (width_of self.size) a)
            (twos_complement (width_of self.size) b) }
    {
        self.sign(a) <= self.sign(b)
    }
}
