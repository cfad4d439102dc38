//! Parses numbers and addresses.

ghost use Rattle.std.specs.Prelude.{◌≡◌, ◌≤◌, ◌⊎◌, option_and_then};
ghost use Rattle.dw_state.specs.Addresses.{number_of, at_most, short_number, hex_up_to, address_of, offset_of};

use dw_bytes::Target;

/// Parses a number that is written in 1 to `most` digits of base `radix`, which is 10 or 16. Any
/// other text gives `None`, even one with a sign.
pub fn parse_number(digits: &[u8], radix: u32, most: usize) -> Option<u64>
    requires radix { (radix ≡ 10) ⊎ (radix ≡ 16) }
    requires most { most ≤ 16 }
    ensures { result ≡ number_of radix most digits.now }
{
    if digits.is_empty() || digits.len() > most {
        return None;
    }
    // `from_str_radix` would accept a plus sign.
    if digits[0] == b'+' {
        return None;
    }
    let Ok(digits) = str::from_utf8(digits) else {
        return None;
    };
    match u64::from_str_radix(digits, radix) {
        Ok(value) => Some(value),
        Err(_) => None,
    }
}

/// `number`, or `None` if it is greater than `top`.
fn number_within(number: Option<u64>, top: u64) -> Option<u64>
    ensures { result ≡ option_and_then (at_most top) number }
{
    number.filter(|value| *value <= top)
}

/// Parses a number that is written in 1 to 5 decimal digits. `None` if the text has another form or
/// the number is greater than 65535.
pub fn parse_short(digits: &[u8]) -> Option<u16>
    ensures { result ≡ short_number digits.now }
{
    u16::try_from(parse_number(digits, 10, 5)?).ok()
}

/// Parses a number that is written as `0x` and 1 to 16 hex digits of either case. `None` if the
/// text has another form or the number is greater than `top`.
fn parse_hex(text: &[u8], top: u64) -> Option<u64>
    ensures { result ≡ hex_up_to top text.now }
{
    match text.strip_prefix(b"0x") {
        Some(digits) => number_within(parse_number(digits, 16, 16), top),
        None => None,
    }
}

/// Parses an address that is written as `0x` and 1 to 16 hex digits. `None` if the text has another
/// form or the number is greater than the target's greatest address.
pub fn parse_address(text: &[u8], target: Target) -> Option<u64>
    ensures { result ≡ address_of target text.now }
{
    parse_hex(text, target.address_size.max_address())
}

/// Parses a section offset that is written as `0x` and 1 to 16 hex digits. `None` if the text has
/// another form or the number is greater than 2^32 - 1.
pub fn parse_offset(text: &[u8]) -> Option<u32>
    ensures { result ≡ offset_of text.now }
{
    match parse_hex(text, u64::from(u32::MAX)) {
        Some(offset) => Some(offset as u32),
        None => None,
    }
}
