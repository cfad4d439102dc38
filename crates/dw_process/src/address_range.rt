//! The range of addresses that a module of a process may answer for.

/// The addresses from `first` up to and including `last`, as loaded (in the running process). A
/// module's range is never empty: `first` is at most `last`. The last address is included, so a
/// range can reach up to the greatest address.
#[derive(Clone, Copy, Debug, PartialEq, Eq)]
pub struct AddressRange {
    /// The lowest address of the range.
    pub first: u64,
    /// The greatest address of the range.
    pub last: u64,
}
