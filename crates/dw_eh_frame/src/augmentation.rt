//! Augmentations of CIEs (LSB Core, section 10.6.1.1.1).

ghost use Rattle.std.specs.Prelude.{◌≡◌, ◌<◌, ◌≤◌, ◌==◌, IfSome, MatchResult, Ok, Err, length, option_map, position, take, true};
ghost use Rattle.dw_bytes.specs.Reading.{MovesForward};
ghost use Rattle.dw_bytes.specs.Readers.{IsRefusedWithin, ParsesBy};
ghost use Rattle.dw_eh_frame.specs.Augmentations.{augmentation_at, eh_data_at, fixed_size, is_old, no_letters, personality_size, say, says, without};

use crate::pointer::{PointerBase, PointerEncoding, PointerFormat, encoding_by};
use dw_bytes::operands::block;
use dw_bytes::{Cursor, Fault, FaultKind, Target};

/// What the augmentation of a CIE says about its FDEs.
#[derive(Clone, Copy, Debug, PartialEq, Eq)]
pub struct Augmentation {
    /// Whether the CIE and its FDEs have augmentation data.
    pub has_data: bool,
    /// How the addresses of the FDEs are written.
    pub addresses: PointerEncoding,
    /// Whether the FDEs are signal frames: the caller of such a frame was interrupted, and made no
    /// call.
    pub is_signal: bool,
    /// Whether return addresses are signed with the key B of aarch64.
    pub has_key_b: bool,
}

/// The number of letters of the string at the front of the bytes: at most eight, before a byte 0.
pub(crate) fn letter_count(bytes: &[u8]) -> Option<usize>
    ensures place { result ≡ position (λ b. b == 0) (take 9 bytes.now) }
    ensures inside { IfSome result (λ n. n < length bytes.now) }
{
    let front = if bytes.len() < 9 { bytes } else { &bytes[..9] };
    front.iter().position(|b| *b == 0)
}

/// Whether the letters are `eh`.
fn is_old_string(letters: &[u8]) -> bool
    ensures { result ≡ is_old letters.now }
{
    match letters {
        [first, second] => *first == b'e' && *second == b'h',
        _ => false,
    }
}

/// Moves past the address that follows the augmentation's string `eh`.
#[tactic(auto, unfolding(crate::specs::Augmentations::eh_data_at))]
pub(crate) fn skip_eh_data(cursor: &mut Cursor<'_>, letters: &[u8]) -> Result<(), Fault>
    ensures exact { MatchResult result
        (λ _. eh_data_at letters.now cursor.old ≡ Ok cursor.new)
        (λ fault. eh_data_at letters.now cursor.old ≡ Err fault) }
    ensures within { IsRefusedWithin cursor.old result }
    ensures goes_on { MovesForward cursor.old cursor.new }
{
    if is_old_string(letters) {
        cursor.address()?;
    }
    Ok(())
}

fn size_by(target: Target, code: u8) -> Option<u8>
    ensures { result ≡ fixed_size target code }
{
    match code {
        0x00 => Some(target.address_size.bytes()),
        0x02 | 0x0a => Some(2),
        0x03 | 0x0b => Some(4),
        0x04 | 0x0c => Some(8),
        _ => None,
    }
}

/// The size of a pointer to a personality routine.
fn personality(target: Target, code: u8) -> Option<u8>
    ensures { result ≡ personality_size target code }
{
    if code == 0xff {
        Some(0)
    } else if code / 16 % 8 == 5 {
        None
    } else {
        size_by(target, code % 16)
    }
}

fn skip_bytes(count: u8, area: &[u8]) -> Option<&[u8]>
    ensures { option_map (λ rest. rest.now) result ≡ without count area.now }
{
    if area.len() < usize::from(count) {
        None
    } else {
        Some(&area[usize::from(count)..])
    }
}

/// What one letter says, and the data after its own.
fn said_by_letter<'a>(
    target: Target,
    letter: u8,
    area: &'a [u8],
    so_far: Augmentation,
) -> Option<(Augmentation, &'a [u8])>
    ensures { option_map (λ said. (said.0, said.1.now)) result ≡ says target letter area.now so_far }
{
    match letter {
        b'R' => {
            let (code, rest) = area.split_first()?;
            let addresses = encoding_by(*code)?;
            Some((
                Augmentation {
                    addresses,
                    ..so_far
                },
                rest,
            ))
        }
        b'L' => {
            let (_, rest) = area.split_first()?;
            Some((so_far, rest))
        }
        b'P' => {
            let (code, rest) = area.split_first()?;
            let size = personality(target, *code)?;
            Some((so_far, skip_bytes(size, rest)?))
        }
        b'S' => Some((
            Augmentation {
                is_signal: true,
                ..so_far
            },
            area,
        )),
        b'B' => Some((
            Augmentation {
                has_key_b: true,
                ..so_far
            },
            area,
        )),
        b'G' => Some((so_far, area)),
        _ => None,
    }
}

/// What the letters after a z say.
fn said_by_letters(target: Target, letters: &[u8], area: &[u8]) -> Option<Augmentation>
    ensures { result ≡ say target letters.now area.now (record no_letters { has_data = true }) }
{
    let mut said = Augmentation {
        has_data: true,
        addresses: PointerEncoding {
            format: PointerFormat::Address,
            base: PointerBase::Absolute,
        },
        is_signal: false,
        has_key_b: false,
    };
    let mut area = area;
    for letter in letters {
        let (more, rest) = said_by_letter(target, *letter, area, said)?;
        said = more;
        area = rest;
    }
    Some(said)
}

/// Reads the augmentation data of a CIE whose augmentation string, at the offset `at`, has these
/// letters.
#[tactic(auto, unfolding(crate::specs::Augmentations::augmentation_at))]
pub(crate) fn read_augmentation(
    cursor: &mut Cursor<'_>,
    at: u32,
    letters: &[u8],
) -> Result<Augmentation, Fault>
    requires { at ≤ cursor.old.position }
    ensures exact { ParsesBy (λ a. a) (augmentation_at at letters.now) cursor.old result cursor.new }
    ensures within { IsRefusedWithin cursor.old result }
    ensures goes_on { MovesForward cursor.old cursor.new }
{
    let unknown = Fault {
        kind: FaultKind::Augmentation,
        at,
    };
    match letters {
        [] => Ok(Augmentation {
            has_data: false,
            addresses: PointerEncoding {
                format: PointerFormat::Address,
                base: PointerBase::Absolute,
            },
            is_signal: false,
            has_key_b: false,
        }),
        [b'z', letters @ ..] => {
            let target = cursor.target();
            let area = block(cursor, at)?;
            match said_by_letters(target, letters, area.bytes) {
                Some(said) => Ok(said),
                None => Err(unknown),
            }
        }
        _ if is_old_string(letters) => Ok(Augmentation {
            has_data: false,
            addresses: PointerEncoding {
                format: PointerFormat::Address,
                base: PointerBase::Absolute,
            },
            is_signal: false,
            has_key_b: false,
        }),
        _ => Err(unknown),
    }
}
