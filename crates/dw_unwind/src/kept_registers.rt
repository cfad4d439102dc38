//! The callee-saved registers of an ABI, for walks that give no registers.

ghost use Rattle.std.specs.Prelude.{◌≡◌, IfSome};
ghost use Rattle.dw_unwind.specs.KeptRegisters.{AreMarksOf, IsMarked};

use crate::register_file::PLACES;
use std::marker::Model;

/// The callee-saved registers of an ABI. For a walk, those that have a place in a `RegisterFile`
/// are also marked by number, so that each step can clear the flags of all other registers without
/// going through the list. For a single step, making the marks takes longer than that saves.
#[derive(Drop)]
pub struct KeptRegisters<'a> {
    numbers: &'a [u16],
    /// 1 for a register that is among them, else 0.
    marks: Option<[u8; PLACES]>,
}

impl<'a> Model for KeptRegisters<'a> {
    ghost use Rattle.std.specs.Prelude.{ℕ, List, IfSome};
    ghost use Rattle.dw_unwind.specs.KeptRegisters.{AreMarksOf};

    ghost Value = { List ℕ };

    ghost view = { λ k. k.numbers.now };

    ghost invariant = { λ k. IfSome k.marks (AreMarksOf k.numbers.now) };
}

/// Marks a register, if it has a place.
fn mark(marks: &mut [u8; PLACES], number: u16)
    ensures { IsMarked number marks.old marks.new }
{
    let place = usize::from(number);
    if place >= PLACES {
        return;
    }
    marks[place] = 1;
}

/// Marks registers by number. Those without a place are left out.
fn marks_of(numbers: &[u16]) -> [u8; PLACES]
    ensures { AreMarksOf numbers.now result }
{
    let mut marks = [0; PLACES];
    for number in numbers {
        mark(&mut marks, *number);
    }
    marks
}

impl<'a> KeptRegisters<'a> {
    /// The callee-saved registers `numbers`, for a walk.
    pub fn new(numbers: &'a [u16]) -> Self
        ensures { result ≡ numbers.now }
    {
        KeptRegisters {
            numbers,
            marks: Some(marks_of(numbers)),
        }
    }

    /// The callee-saved registers `numbers`, for one step. This differs from `new` only in time.
    #[inline(always)]
    pub fn for_one_step(numbers: &'a [u16]) -> Self
        ensures { result ≡ numbers.now }
    {
        KeptRegisters {
            numbers,
            marks: None,
        }
    }

    /// The numbers of the registers.
    #[inline(always)]
    pub fn numbers(&self) -> &'a [u16]
        ensures { result.now ≡ self.now }
    {
        self.numbers
    }

    /// Which registers that have a place are among them; none if they aren't marked.
    #[inline(always)]
    pub(crate) fn marks(&self) -> Option<&[u8; PLACES]>
        ensures { IfSome result (λ marks. AreMarksOf self.now marks.now) }
    {
        match &self.marks {
            Some(marks) => Some(marks),
            None => None,
        }
    }
}
