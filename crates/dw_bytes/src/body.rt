//! The body of a record or table: the bytes that its initial length counts.

ghost use Rattle.std.specs.Prelude.{◌≡◌, ◌<◌, ◌≤◌, ◌^◌, length, IfErr, IfOk, MatchResult, Ok, Err};
ghost use Rattle.dw_bytes.specs.Reading.{section_from};
ghost use Rattle.dw_bytes.specs.Bodies.{framed_at, window};

use crate::cursor::Cursor;
use crate::fault::Fault;
use crate::target::{Format, Target};

/// Where the body of a record or table lies in its section, and whether the length before it is in
/// the 32-bit or the 64-bit format (DWARF 5, section 7.4).
#[derive(Clone, Copy, Debug, PartialEq, Eq)]
pub struct Body {
    pub format: Format,
    /// The offset of the body's first byte, right after the length.
    pub start: u32,
    /// The offset after the body's last byte.
    pub end: u32,
}

impl Body {
    /// The body of the record or table that begins at offset `at` of the section. If the length
    /// can't be read, `Truncated` or `ReservedLength` is reported at `at`. If the section has fewer
    /// bytes left than the length says, `Truncated` is reported at the body's first byte.
    #[inline(always)]
    #[tactic(auto, unfolding(crate::specs::Bodies::framed_at))]
    pub fn read(section: &[u8], target: Target, at: u32) -> Result<Self, Fault>
        requires inside { at ≤ length section.now }
        requires short { length section.now < 2 ^ 32 }
        ensures exact { MatchResult result
            (λ b. framed_at (section_from target section.now at) ≡ Ok (
              (b.format, window target section.now b.start b.end),
              section_from target section.now b.end,
            ))
            (λ fault. framed_at (section_from target section.now at) ≡ Err fault) }
        ensures ordered { IfOk result
            (λ b. at < b.start × b.start ≤ b.end × b.end ≤ length section.now) }
        ensures inside { IfErr result (λ fault. fault.at ≤ length section.now) }
    {
        let mut cursor = Cursor::at(section, target, at);
        let (format, length) = cursor.initial_length()?;
        let start = cursor.position();
        cursor.take(length)?;
        let end = cursor.position();
        Ok(Body { format, start, end })
    }
}
