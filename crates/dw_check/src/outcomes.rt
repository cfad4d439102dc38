//! Formats the outcome of an expression.

ghost use Rattle.std.specs.Prelude.{◌≡◌, ◌++◌, ◌^◌, ℕ, OnOk, map};
ghost use Rattle.std.specs.List.{All, flat_map};
ghost use Rattle.std.specs.String.{string_bytes};
ghost use Rattle.dw_eval.specs.Views.{location_description_of, extent_of_size, piece_in, outcome_of};
ghost use Rattle.dw_check.specs.Text.{digits_of};
ghost use Rattle.dw_eval.specs.Fits.{LocationFits, PieceFits, OutcomeFits};
ghost use Rattle.dw_check.specs.Outcomes.{location_text, size_text, piece_line, stop_line, outcome_text, counts_line, evaluation_text};

use crate::numbers::{push_address, push_decimal, push_offset};
use dw_bytes::AddressSize;
use dw_eval::{Location, Outcome, Piece, PieceSize};
use std::alloc::AllocError;

fn push_location(
    line: &mut String,
    size: AddressSize,
    location: Location<'_>,
) -> Result<(), AllocError>
    requires { LocationFits (16 ^ digits_of size) (location_description_of location) }
    ensures { OnOk result (string_bytes line.new ≡ string_bytes line.old
        ++ location_text size (location_description_of location.entry)) }
{
    match location {
        Location::Empty => line.push_str("empty"),
        Location::Address(address) => {
            line.push_str("address ")?;
            push_address(line, size, address)
        }
        Location::Register(register) => {
            line.push_str("register ")?;
            push_decimal(line, register)
        }
        Location::Value(value) => {
            line.push_str("value ")?;
            push_address(line, size, value)
        }
        Location::Bytes(bytes) => {
            line.push_str("bytes ")?;
            let text = hex::encode(*line.allocator(), bytes)?;
            line.push_str(text.as_str())
        }
    }
}

fn push_piece_size(line: &mut String, size: PieceSize) -> Result<(), AllocError>
    ensures { OnOk result (string_bytes line.new ≡ string_bytes line.old
        ++ size_text (extent_of_size size)) }
{
    match size {
        PieceSize::Bytes(count) => {
            line.push_str(" bytes ")?;
            push_decimal(line, count)
        }
        PieceSize::Bits { size, offset } => {
            line.push_str(" bits ")?;
            push_decimal(line, size)?;
            line.push_str(" offset ")?;
            push_decimal(line, offset)
        }
    }
}

#[tactic(auto, unfolding(crate::specs::Outcomes::piece_line))]
fn push_piece(line: &mut String, size: AddressSize, piece: Piece<'_>) -> Result<(), AllocError>
    requires { PieceFits (16 ^ digits_of size) (piece_in piece) }
    ensures { OnOk result (string_bytes line.new ≡ string_bytes line.old
        ++ piece_line size (piece_in piece.entry)) }
{
    line.push_str("piece ")?;
    push_location(line, size, piece.location)?;
    push_piece_size(line, piece.size)?;
    line.push_str("\n")
}

fn push_pieces(line: &mut String, size: AddressSize, pieces: &[Piece<'_>]) -> Result<(), AllocError>
    requires { All (PieceFits (16 ^ digits_of size)) (map piece_in pieces.now) }
    ensures { OnOk result (string_bytes line.new ≡ string_bytes line.old
        ++ flat_map (piece_line size) (map piece_in pieces.now)) }
{
    for piece in pieces {
        push_piece(line, size, *piece)?;
    }
    Ok(())
}

#[tactic(auto, unfolding(crate::specs::Outcomes::stop_line))]
fn push_unanswered(line: &mut String, what: &str, at: u32) -> Result<(), AllocError>
    ensures { OnOk result (string_bytes line.new ≡ string_bytes line.old ++ stop_line what.now at) }
{
    line.push_str(what)?;
    line.push_str(" at ")?;
    push_offset(line, at)?;
    line.push_str("\n")
}

fn push_outcome(
    line: &mut String,
    size: AddressSize,
    outcome: &Outcome<'_>,
) -> Result<(), AllocError>
    requires { (len : ℕ) × OutcomeFits (16 ^ digits_of size) len (outcome_of outcome.now) }
    ensures { OnOk result (string_bytes line.new ≡ string_bytes line.old
        ++ outcome_text size (outcome_of outcome.now)) }
{
    match outcome {
        Outcome::Value(value) => {
            line.push_str("value ")?;
            push_address(line, size, *value)?;
            line.push_str("\n")
        }
        Outcome::Single(location) => {
            push_location(line, size, *location)?;
            line.push_str("\n")
        }
        Outcome::Pieces(pieces) => {
            line.push_str("pieces ")?;
            push_decimal(line, pieces.len())?;
            line.push_str("\n")?;
            push_pieces(line, size, pieces.as_slice())
        }
        Outcome::Unreadable { at } => push_unanswered(line, "unreadable", *at),
        Outcome::DivisionByZero { at } => push_unanswered(line, "division by zero", *at),
    }
}

/// Appends the lines of an evaluation: its outcome, and then its number of steps and the
/// expression's greatest stack depth on any path.
#[tactic(auto, unfolding(crate::specs::Outcomes::counts_line, crate::specs::Outcomes::evaluation_text))]
pub(crate) fn push_evaluation(
    line: &mut String,
    size: AddressSize,
    outcome: &Outcome<'_>,
    steps: u32,
    depth: u8,
) -> Result<(), AllocError>
    requires { (len : ℕ) × OutcomeFits (16 ^ digits_of size) len (outcome_of outcome.now) }
    ensures { OnOk result (string_bytes line.new ≡ string_bytes line.old
        ++ evaluation_text size (outcome_of outcome.now) steps depth) }
{
    push_outcome(line, size, outcome)?;
    line.push_str("steps ")?;
    push_decimal(line, steps)?;
    line.push_str(" depth ")?;
    push_decimal(line, depth)?;
    line.push_str("\n")
}
