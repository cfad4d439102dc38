//! Formats numbers, offsets and addresses. Each `push_` function appends to the buffer `line`.

ghost use Rattle.std.specs.Prelude.{◌≡◌, ◌++◌, ◌^◌, ◌<◌, OnOk, codes};
ghost use Rattle.std.specs.Str.{IsUtf8};
ghost use Rattle.std.specs.String.{string_bytes};
ghost use Rattle.dw_bytes.specs.Text.{hex_digits, hex_number, offset_text};
ghost use Rattle.dw_check.specs.Text.{digits_of, address_text, range_text, signed_text};

use dw_bytes::AddressSize;
use itoa::{Buffer, Integer};
use std::alloc::AllocError;

/// The 8 lower-case hex digits of a number. This is several times as fast as `write!`, and most
/// numbers in the output are offsets and addresses in hex.
#[tactic(auto, using(crate::proofs::HexBytes::short_digits))]
fn short_digits(number: u32) -> [u8; 8]
    ensures { result ≡ hex_digits 8 number }
{
    let mut digits = [0; 8];
    match hex::encode_to_slice(number.to_be_bytes(), &mut digits) {
        Ok(()) => digits,
        Err(_) => unreachable!(),
    }
}

/// The 16 lower-case hex digits of a number.
#[tactic(auto, using(crate::proofs::HexBytes::long_digits))]
fn long_digits(number: u64) -> [u8; 16]
    ensures { result ≡ hex_digits 16 number }
{
    let mut digits = [0; 16];
    match hex::encode_to_slice(number.to_be_bytes(), &mut digits) {
        Ok(()) => digits,
        Err(_) => unreachable!(),
    }
}

/// Appends `0x` and the hex digits that `digits` holds as ASCII text.
fn push_digits(line: &mut String, digits: &[u8]) -> Result<(), AllocError>
    requires { IsUtf8 digits.now }
    ensures { OnOk result (string_bytes line.new
        ≡ string_bytes line.old ++ codes "0x" ++ digits.now) }
{
    let Ok(text) = str::from_utf8(digits) else {
        unreachable!();
    };
    line.push_str("0x")?;
    line.push_str(text)
}

/// Appends an offset in a section or in an expression: `0x` and 8 hex digits.
pub(crate) fn push_offset(line: &mut String, offset: u32) -> Result<(), AllocError>
    ensures { OnOk result (string_bytes line.new ≡ string_bytes line.old ++ offset_text offset) }
{
    push_digits(line, &short_digits(offset))
}

fn push_short_address(line: &mut String, address: u32) -> Result<(), AllocError>
    ensures { OnOk result (string_bytes line.new ≡ string_bytes line.old ++ hex_number 8 address) }
{
    push_digits(line, &short_digits(address))
}

fn push_long_address(line: &mut String, address: u64) -> Result<(), AllocError>
    ensures { OnOk result (string_bytes line.new ≡ string_bytes line.old ++ hex_number 16 address) }
{
    push_digits(line, &long_digits(address))
}

/// Appends an address: `0x` and 8 hex digits if addresses have 4 bytes, 16 if they have 8. For
/// 4-byte addresses only the last 8 hex digits of `address` are written, even if it has more.
pub(crate) fn push_address(
    line: &mut String,
    size: AddressSize,
    address: u64,
) -> Result<(), AllocError>
    ensures { OnOk result (string_bytes line.new ≡ string_bytes line.old
        ++ address_text size address) }
{
    match size {
        AddressSize::Four => push_short_address(line, (address % (1 << 32)) as u32),
        AddressSize::Eight => push_long_address(line, address),
    }
}

/// Appends the address range from `start` up to, but not including, `end` as `start..end`.
#[tactic(auto, unfolding(crate::specs::Text::range_text))]
pub(crate) fn push_range(
    line: &mut String,
    size: AddressSize,
    start: u64,
    end: u64,
) -> Result<(), AllocError>
    requires start { start < 16 ^ digits_of size }
    requires end { end < 16 ^ digits_of size }
    ensures { OnOk result (string_bytes line.new ≡ string_bytes line.old
        ++ range_text size start end) }
{
    push_address(line, size, start)?;
    line.push_str("..")?;
    push_address(line, size, end)
}

/// Appends a number in decimal digits, with `-` in front if the number is negative.
pub(crate) fn push_decimal<I: Integer>(line: &mut String, number: I) -> Result<(), AllocError>
    ensures { OnOk result (string_bytes line.new ≡ string_bytes line.old ++ I.text number) }
{
    let mut buffer = Buffer::new();
    line.push_str(buffer.format(number))
}

/// Appends a number in decimal digits with its sign in front: `-` if it is negative, else `+`.
pub(crate) fn push_signed(line: &mut String, number: i64) -> Result<(), AllocError>
    ensures { OnOk result (string_bytes line.new ≡ string_bytes line.old ++ signed_text number) }
{
    if number >= 0 {
        line.push_str("+")?;
    }
    push_decimal(line, number)
}
