//! C's structs for the outcome of an expression, and how an outcome is written to them.

ghost use Rattle.std.specs.Prelude.{◌≡◌, ◌≤◌, map};
ghost use Rattle.dw_eval.specs.Views.{location_description_of, outcome_of, piece_in};
ghost use Rattle.dw_c_types.specs.Evaluated.{ShowsOutcome, bytes_of_location, cpiece_of, kind_of_location, number_of_location};
ghost use Rattle.dw_c_types.specs.Slots.{put_into};

use crate::slots::{put, write_all};
use dw_eval::{Evaluation, Location, Outcome, Piece, PieceSize};

/// The outcome of an expression. `kind` says which it is. 0: the value `value`. 1: the operation at
/// `offset` reads a register, memory or a value of the context that isn't known, or reads memory
/// past the greatest address; or, with `steps` and `offset` 0, a register's rule is evaluated
/// without a CFA. 2: the operation at `offset` divides by zero. With the other kinds the expression
/// describes the location of an object. 3: the object has no location and no value. 4: it is in
/// memory at the address `value`. 5: it is in register `value`. 6: it has no location, and its
/// value is the number `value`. 7: it has no location, and its value is a sequence of `value`
/// bytes. 8: it is in `count` pieces.
#[repr(C)]
#[derive(Clone, Copy, Debug)]
pub struct CValue {
    pub value: u64,
    pub kind: u32,
    pub offset: u32,
    /// The number of operations that were reached.
    pub steps: u32,
    /// The number of pieces; 0 unless `kind` is 8.
    pub count: u32,
}

/// A piece of an object. `kind` and `value` say where the piece is, as in `CValue`. The piece has
/// `size` bytes, or, if `is_bits` isn't 0, `size` bits from `bit_offset` on.
#[repr(C)]
#[derive(Clone, Copy, Debug)]
pub struct CPiece {
    pub value: u64,
    pub kind: u32,
    pub size: u32,
    pub bit_offset: u32,
    pub is_bits: u32,
}

fn location_kind(location: &Location<'_>) -> u32
    ensures { result ≡ kind_of_location (location_description_of location.now) }
{
    match location {
        Location::Empty => 3,
        Location::Address(_) => 4,
        Location::Register(_) => 5,
        Location::Value(_) => 6,
        Location::Bytes(_) => 7,
    }
}

fn location_number(location: &Location<'_>) -> u64
    ensures { result ≡ number_of_location (location_description_of location.now) }
{
    match location {
        Location::Empty => 0,
        Location::Address(address) => *address,
        Location::Register(register) => u64::from(*register),
        Location::Value(value) => *value,
        Location::Bytes(bytes) => bytes.len() as u64,
    }
}

/// If `location` gives an object's value as a sequence of bytes, writes these bytes to `slots`, as
/// many as fit. Otherwise writes nothing.
fn write_location(location: &Location<'_>, slots: &mut [u8])
    ensures { slots.new
        ≡ put_into (bytes_of_location (location_description_of location.now)) slots.old }
{
    if let Location::Bytes(bytes) = location {
        write_all(bytes, slots);
    }
}

/// Converts a piece to C's struct.
fn c_piece_of(piece: &Piece<'_>) -> CPiece
    ensures { result ≡ cpiece_of (piece_in piece.now) }
{
    let value = location_number(&piece.location);
    let kind = location_kind(&piece.location);
    match piece.size {
        PieceSize::Bytes(size) => CPiece {
            value,
            kind,
            size,
            bit_offset: 0,
            is_bits: 0,
        },
        PieceSize::Bits { size, offset } => CPiece {
            value,
            kind,
            size,
            bit_offset: offset,
            is_bits: 1,
        },
    }
}

/// Writes pieces to `slots`, as many as fit.
fn write_pieces(pieces: &[Piece<'_>], slots: &mut [CPiece])
    ensures { slots.new ≡ put_into (map cpiece_of (map piece_in pieces.now)) slots.old }
{
    for (index, piece) in pieces.iter().enumerate() {
        put(slots, index, c_piece_of(piece));
    }
}

fn without_location(kind: u32, value: u64, offset: u32, steps: u32) -> CValue
    ensures { result ≡ record {
      value = value;
      kind = kind;
      offset = offset;
      steps = steps;
      count = 0;
    } }
{
    CValue {
        value,
        kind,
        offset,
        steps,
        count: 0,
    }
}

/// Writes an outcome to `out`, and its pieces to `pieces`, as many as fit. If the value of an
/// object is given as a sequence of bytes, writes these bytes to `bytes`, as many as fit. If the
/// object is in pieces, writes the bytes of piece `n`, counted from 0, if that piece's value is
/// given as bytes.
pub fn write_outcome(
    evaluation: &Evaluation<'_>,
    n: u32,
    out: &mut CValue,
    pieces: &mut [CPiece],
    bytes: &mut [u8],
)
    ensures shows { ShowsOutcome (outcome_of evaluation.now.outcome) evaluation.now.steps n out.new
        pieces.old pieces.new bytes.old bytes.new }
    ensures steps { out.new.steps ≡ evaluation.now.steps }
    ensures few { out.new.count ≤ 32 }
{
    let steps = evaluation.steps;
    match &evaluation.outcome {
        Outcome::Value(value) => *out = without_location(0, *value, 0, steps),
        Outcome::Unreadable { at } => *out = without_location(1, 0, *at, steps),
        Outcome::DivisionByZero { at } => *out = without_location(2, 0, *at, steps),
        Outcome::Single(location) => {
            *out = without_location(location_kind(location), location_number(location), 0, steps);
            write_location(location, bytes);
        }
        Outcome::Pieces(found) => {
            let found = found.as_slice();
            write_pieces(found, pieces);
            if let Some(piece) = found.get(n as usize) {
                write_location(&piece.location, bytes);
            }
            *out = CValue {
                value: 0,
                kind: 8,
                offset: 0,
                steps,
                count: found.len() as u32,
            };
        }
    }
}
