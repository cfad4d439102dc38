//! The registers of a frame by number, for walks that give no registers.

ghost use Rattle.std.specs.Prelude.{◌≡◌, ◌<◌, ◌≤◌, ◌^◌, ◌==◌, ◌||◌, ℕ, All, IfSome, IsSome, None, if◌then◌else◌};
ghost use Rattle.std.specs.Bool.{OnFalse, OnTrue};
ghost use Rattle.dw_rules.specs.Abi.{is_among};
ghost use Rattle.dw_unwind.specs.Contents.{content_changed, contents_in};
ghost use Rattle.dw_unwind.specs.KeptRegisters.{ArePicked, AreListed, IsRestored};

use crate::kept_registers::KeptRegisters;
use dw_eval::Registers;
use std::marker::Model;

/// How many registers a `RegisterFile` has room for: those with numbers below this. That is enough
/// for the registers that the rows of x86-64, AArch64, RISC-V and most other targets name.
pub const PLACES: usize = 96;

/// The contents of a frame's registers whose numbers are below `PLACES`. The others have none. It
/// is laid out as C lays it out, and any bytes are a register file.
#[repr(C)]
#[derive(Drop)]
pub struct RegisterFile {
    contents: [u64; PLACES],
    /// The content of a register counts if this isn't 0.
    known: [u8; PLACES],
}

impl Model for RegisterFile {
    ghost use Rattle.std.specs.Prelude.{◌≡◌, length};
    ghost use Rattle.dw_unwind.specs.Contents.{File};

    ghost Value = { File };

    ghost view = { λ f. record { contents = f.contents; known = f.known } };

    ghost use Rattle.dw_unwind.specs.declared.register_file.TheConstants.{PLACES};

    ghost invariant = { λ f. (length f.contents ≡ PLACES) × (length f.known ≡ PLACES) };

    ghost inverse = { λ f. record { contents = f.contents; known = f.known } };
}

/// The lower one of two numbers.
#[inline(always)]
fn lower(one: u8, other: u8) -> u8
    ensures { (result == 0) ≡ ((one == 0) || (other == 0)) }
{
    if one < other { one } else { other }
}

/// Clears the flags that aren't marked: each becomes the lower one of itself and its mark.
/// Processors have an instruction that does this for 16 flags at once.
#[inline(always)]
fn keep_marked(flags: &mut [u8; PLACES], marks: &[u8; PLACES])
    ensures { ArePicked marks.now flags.old flags.new }
{
    for place in 0..PLACES {
        flags[place] = lower(flags[place], marks[place]);
    }
}

/// Sets the flag of the register `number`, if it has a place, to what it is in `old`.
#[inline(always)]
fn restore(flags: &mut [u8; PLACES], old: &[u8; PLACES], number: u16)
    ensures { IsRestored number old.now flags.old flags.new }
{
    let place = usize::from(number);
    if place >= PLACES {
        return;
    }
    flags[place] = old[place];
}

/// Clears the flags of the registers that aren't among `numbers`.
#[inline(always)]
fn keep_listed(flags: &mut [u8; PLACES], numbers: &[u16])
    ensures { AreListed numbers.now flags.old flags.new }
{
    let old = *flags;
    *flags = [0; PLACES];
    for number in numbers {
        restore(flags, &old, *number);
    }
}

/// Numbers of 64 bits are below 2^64. This does nothing: only its contract is used.
fn are_numbers(contents: &[u64])
    ensures { All (λ content. content < 2 ^ 64) contents.now }
{
    let _ = contents;
}

impl RegisterFile {
    /// No register has a content.
    pub fn none() -> Self
        ensures { (r : ℕ) → contents_in result r ≡ None }
    {
        RegisterFile {
            contents: [0; PLACES],
            known: [0; PLACES],
        }
    }

    /// Takes the contents of all registers away.
    #[inline(always)]
    pub(crate) fn clear(&mut self)
        ensures { (r : ℕ) → contents_in self.new r ≡ None }
    {
        self.known = [0; PLACES];
    }

    /// Gives the register `number` a content, or takes its content away. Returns false if there is
    /// no place for its content.
    #[inline(always)]
    pub(crate) fn put(&mut self, number: u16, content: Option<u64>) -> bool
        ensures puts { OnTrue result ((r : ℕ) → contents_in self.new r
            ≡ content_changed (contents_in self.old) number content r) }
        ensures near { (r : ℕ) → r < PLACES → contents_in self.new r
            ≡ content_changed (contents_in self.old) number content r }
        ensures no_place { OnFalse result ((PLACES ≤ number) × IsSome content) }
    {
        let place = usize::from(number);
        match content {
            Some(content) => {
                if place >= PLACES {
                    return false;
                }
                self.contents[place] = content;
                self.known[place] = 1;
                true
            }
            None => {
                if place < PLACES {
                    self.known[place] = 0;
                }
                true
            }
        }
    }

    /// Gives the register `number`, which has a place, a content, or takes its content away.
    #[inline(always)]
    pub fn set(&mut self, number: u16, content: Option<u64>)
        requires { number < PLACES }
        ensures { (r : ℕ) → contents_in self.new r
            ≡ content_changed (contents_in self.old) number content r }
    {
        let place = usize::from(number);
        match content {
            Some(content) => {
                self.contents[place] = content;
                self.known[place] = 1;
            }
            None => self.known[place] = 0,
        }
    }

    /// Takes the contents of all registers away that aren't callee-saved.
    #[inline(always)]
    pub(crate) fn keep(&mut self, kept: &KeptRegisters<'_>)
        ensures { (r : ℕ) → contents_in self.new r
            ≡ (if is_among r kept.now then contents_in self.old r else None) }
    {
        match kept.marks() {
            Some(marks) => keep_marked(&mut self.known, marks),
            None => keep_listed(&mut self.known, kept.numbers()),
        }
    }

    /// Each content is below 2^64. This does nothing: only its contract is used.
    pub(crate) fn fits(&self)
        ensures { (r : ℕ) → IfSome (contents_in self.now r) (λ content. content < 2 ^ 64) }
    {
        are_numbers(&self.contents);
    }

    /// Registers without a place have no content. This does nothing: only its contract is used.
    pub fn ends(&self)
        ensures { (r : ℕ) → PLACES ≤ r → contents_in self.now r ≡ None }
    {
        let _ = &self.contents;
    }
}

impl Registers for RegisterFile {
    ghost use Rattle.dw_unwind.specs.Contents.{contents_in};

    ghost contents = { λ f. contents_in f };

    #[inline(always)]
    fn register(&self, number: u16) -> Option<u64> {
        let place = usize::from(number);
        if place < PLACES && self.known[place] != 0 {
            Some(self.contents[place])
        } else {
            None
        }
    }
}
