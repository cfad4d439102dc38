//! Writes elements to slots. The slots are the elements of an array that C passes; they are filled
//! from the front.

ghost use Rattle.std.specs.Prelude.{◌≡◌, slice_set};
ghost use Rattle.dw_c_types.specs.Slots.{put_into};

/// Writes `x` to the slot at `index`, if there is one.
pub fn put<X: Copy>(slots: &mut [X], index: usize, x: X)
    ensures { slots.new ≡ slice_set slots.old index x }
{
    if index < slots.len() {
        slots[index] = x;
    }
}

/// Writes `bytes` to `slots`, as many as fit.
pub fn write_all(bytes: &[u8], slots: &mut [u8])
    ensures { slots.new ≡ put_into bytes.now slots.old }
{
    for (index, byte) in bytes.iter().enumerate() {
        put(slots, index, *byte);
    }
}
