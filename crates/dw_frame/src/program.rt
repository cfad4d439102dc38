//! `Program`: the bytes of a call frame program.

ghost use Rattle.std.specs.Prelude.{◌≡◌, ◌≤◌, ◌<◌, ◌+◌, ◌^◌, length};

use crate::dialect::Dialect;
use crate::instructions::Instructions;
use dw_bytes::{Cursor, Target};

/// A call frame program: the bytes of a section between two offsets (DWARF 5, section 6.4.2). All
/// offsets in a program count from the first byte of the section.
#[derive(Clone, Copy, Debug)]
pub struct Program<'a> {
    /// The section's bytes up to the program's end.
    section: &'a [u8],
    start: u32,
    target: Target,
    dialect: Dialect,
    pub ghost inside: { start ≤ length section.now },
    pub ghost short: { length section.now < 2 ^ 32 },
}

impl<'a> Program<'a> {
    ghost use Rattle.std.specs.Prelude.{take};
    ghost use Rattle.dw_bytes.specs.Bodies.{window};
    ghost use Rattle.dw_frame.specs.Codes.{instructions_of};
    ghost use Rattle.dw_frame.specs.Dialects.{in_dialect};
    ghost use Rattle.dw_frame.specs.Views.{start_of, end_of, target_of, dialect_of, reading_of, reading_from, program_of, program_from};

    /// The program from offset `start` up to offset `end` of `section`.
    pub fn new(section: &'a [u8], start: u32, end: u32, target: Target, dialect: Dialect) -> Self
        requires ordered { start ≤ end }
        requires inside { end ≤ length section.now }
        requires short { length section.now < 2 ^ 32 }
        ensures section { result.section.now ≡ take end section.now }
        ensures start { start_of result ≡ start }
        ensures target { target_of result ≡ target }
        ensures dialect { dialect_of result ≡ dialect }
        ensures is { program_of result ≡ in_dialect dialect (window target section.now start end) }
    {
        Program {
            section: &section[..end as usize],
            start,
            target,
            dialect,
        }
    }

    /// The offset in the section of the program's first byte.
    pub fn start(&self) -> u32
        ensures start { result ≡ start_of self.now }
        ensures within { result ≤ end_of self.now }
    {
        self.start
    }

    /// The offset in the section after the program's last byte.
    pub fn end(&self) -> u32
        ensures end { result ≡ end_of self.now }
        ensures past { result ≡ (reading_of self.now).position + length
            (reading_of self.now).rest }
    {
        self.section.len() as u32
    }

    /// The program's bytes.
    #[inline(always)]
    pub fn bytes(&self) -> &'a [u8]
        ensures { result.now ≡ (reading_of self.now).rest }
    {
        &self.section[self.start as usize..]
    }

    /// The byte order and address size that the program is read with.
    pub fn target(&self) -> Target
        ensures { result ≡ target_of self.now }
    {
        self.target
    }

    /// The dialect that the program is written in.
    #[inline(always)]
    pub fn dialect(&self) -> Dialect
        ensures { result ≡ dialect_of self.now }
    {
        self.dialect
    }

    /// An iterator over the instructions of the program, in order.
    pub fn instructions(&self) -> Instructions<'a>
        ensures { result ≡ instructions_of (program_of self.now) }
    {
        Instructions::new(*self)
    }

    /// The rest of the program from offset `at` on.
    pub(crate) fn from_offset(&self, at: u32) -> Program<'a>
        requires { at ≤ end_of self.now }
        ensures { program_of result ≡ program_from self.now at }
    {
        Program {
            section: self.section,
            start: at,
            target: self.target,
            dialect: self.dialect,
        }
    }

    /// A cursor at offset `at` of the program, which can read up to the program's end.
    pub(crate) fn cursor(&self, at: u32) -> Cursor<'a>
        requires { at ≤ end_of self.now }
        ensures { result ≡ reading_from self.now at }
    {
        Cursor::at(self.section, self.target, at)
    }
}

const _: () = prove!(size_of::<Program<'static>>() == 24);
