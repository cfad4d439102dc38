//! A part of the right to read a value in a box, as the kit's crate `left_right` has it in a module
//! of its own, which other crates can't use.

ghost use Rattle.std.specs.Prelude.{◌≡◌, ℕ};
ghost use Rattle.left_right.specs.Parted.{part_owns, part_shares};

use std::marker::Model;

/// The right to read the value, for as long as this is held. A value has 2^63 parts, and this is
/// `count` of them. `round` tells one loan of the value from another.
#[derive(Drop)]
pub struct Part<T> {
    pub(crate) ptr: *const T,
    pub ghost value: { T },
    pub ghost round: { ℕ },
    pub ghost count: { ℕ },
}

impl<T> Model for Part<T> {
    ghost also_owns = { λ p. part_owns T.row p.ptr p.value p.round p.count };

    ghost also_shares = { λ p _ κ. part_shares T.row p.ptr p.value p.round κ };
}

impl<T> Part<T> {
    /// The value, for as long as the part is borrowed.
    pub fn get(&self) -> &T
        ensures { result.now ≡ self.now.value }
    {
        unsafe { &*self.ptr }
    }
}
