//! The errors of `Process::add` and `Process::add_both`.

ghost use Rattle.std.specs.Prelude.{◌≡◌};
ghost use Rattle.dw_process.specs.declared.refusal.Refusal.TheVariants as variants;

use dw_bytes::Fault;

/// Why `Process::add` doesn't add a module.
#[derive(Clone, Copy, Debug, PartialEq, Eq)]
pub enum Refusal {
    /// The first fault of the module's section, or out of memory (kind `Memory`, offset 0).
    Section(Fault),
    /// The compiled table of the module's section may need more bytes than the argument `room`
    /// allows.
    Room,
    /// The module has no range: the given range is empty or goes past the greatest address, or no
    /// range is given, and the section covers no address, or its addresses as loaded would go on at
    /// address 0 after the greatest address.
    Range,
    /// The module's range shares an address with the range of the module that has this id.
    Overlaps(u64),
}

impl From<Fault> for Refusal {
    ghost from_gives = { λ fault why. why ≡ variants.Section fault };

    fn from(fault: Fault) -> Self {
        Refusal::Section(fault)
    }
}

/// Why `Process::add_both` doesn't add a module.
#[derive(Clone, Copy, Debug, PartialEq, Eq)]
pub enum BothRefusal {
    /// The first fault of the module's `.debug_frame`.
    DebugFrame(Fault),
    /// The fault of the module's `.eh_frame`. Its `.debug_frame` has none.
    EhFrame(Fault),
    /// Memory ran out.
    Memory,
    /// The compiled table of one of the sections may need more bytes than the argument `rooms` allows.
    Room,
    /// The module has no range, as with `Refusal::Range`.
    Range,
    /// The module's range shares an address with the range of the module that has this id.
    Overlaps(u64),
}
