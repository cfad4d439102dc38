//! The outcomes of evaluations: values, and the locations of objects and their pieces.

ghost use Rattle.std.specs.Prelude.{◌≡◌};

use arrayvec::ArrayVec;
use dw_stack::MAX_PIECES;

/// Where an object is, or a piece of it (DWARF 5, section 2.6.1).
#[derive(Clone, Copy, Debug, PartialEq, Eq)]
pub enum Location<'a> {
    /// Nowhere: the object was optimized away.
    Empty,
    /// In memory at this address.
    Address(u64),
    /// In this register.
    Register(u16),
    /// Nowhere, but the object's value is this number.
    Value(u64),
    /// Nowhere, but the object's value is these bytes.
    Bytes(&'a [u8]),
}

/// The default value fills the unused slots of a list.
impl Default for Location<'_> {
    fn default() -> Self
        ensures { result ≡ Location.Empty }
    {
        Location::Empty
    }
}

/// The size of a piece.
#[derive(Clone, Copy, Debug, PartialEq, Eq)]
pub enum PieceSize {
    /// A number of bytes.
    Bytes(u32),
    /// `size` bits, which begin `offset` bits into the piece's location.
    Bits { size: u32, offset: u32 },
}

/// A piece of an object (DWARF 5, section 2.6.1.2).
#[derive(Clone, Copy, Debug, PartialEq, Eq)]
pub struct Piece<'a> {
    pub location: Location<'a>,
    pub size: PieceSize,
}

/// The default value fills the unused slots of a list.
impl Default for Piece<'_> {
    fn default() -> Self
        ensures { result ≡ record { location = Location.Empty; size = PieceSize.Bytes 0 } }
    {
        Piece {
            location: Location::Empty,
            size: PieceSize::Bytes(0),
        }
    }
}

/// The pieces of an object, in the order in which they make it up.
pub type Pieces<'a> = ArrayVec<Piece<'a>, MAX_PIECES>;

/// The outcome of an evaluation. Offsets are in bytes from the expression's first byte.
#[derive(Clone, Debug, Drop, PartialEq, Eq)]
pub enum Outcome<'a> {
    /// The value of the expression of a CFA rule or a register's rule: an address, or the content
    /// of a register (DWARF 5, section 6.4.2).
    Value(u64),
    /// Where an object is.
    Single(Location<'a>),
    /// Where the pieces of an object are.
    Pieces(Pieces<'a>),
    /// The operation at the offset `at` reads a register, memory or a value of the context that
    /// isn't known, or reads memory past the greatest address. If the rule of a register lacks its
    /// CFA, `at` is 0, and no operation was reached.
    Unreadable { at: u32 },
    /// The operation at the offset `at` divides by zero.
    DivisionByZero { at: u32 },
}

/// The outcome of an evaluation, and the number of operations that it reached, including one that
/// failed.
#[derive(Clone, Debug, Drop, PartialEq, Eq)]
pub struct Evaluation<'a> {
    pub outcome: Outcome<'a>,
    pub steps: u32,
}
