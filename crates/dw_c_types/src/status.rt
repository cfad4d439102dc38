//! The numbers that the C calls return.

/// Done: the call's results are written.
pub const DONE: u32 = 0;

/// The input is refused, and the fault gives the reason.
pub const REFUSED: u32 = 1;

/// Memory ran out.
pub const NO_MEMORY: u32 = 2;

/// The compiled table of the section can take more bytes than `room`, the limit that C passed; or the
/// expressions of an FDE and its CIE need more room than a look-up in place has.
pub const NO_ROOM: u32 = 3;

/// The byte order or the address size is invalid, or isn't that of the process.
pub const BAD_TARGET: u32 = 4;

/// A section or an expression has 2^32 bytes or more.
pub const TOO_LONG: u32 = 5;

/// The kind of an expression is invalid.
pub const BAD_KIND: u32 = 6;

/// What was looked up doesn't exist.
pub const NONE: u32 = 7;

/// The module's range shares an address with another module's range.
pub const OVERLAPS: u32 = 8;

/// The module has no range that it could answer for.
pub const BAD_RANGE: u32 = 9;

/// A register with a content has no place in a cursor.
pub const NO_PLACE: u32 = 10;

/// The header has no search table that a look-up in place can use.
pub const NO_TABLE: u32 = 11;
