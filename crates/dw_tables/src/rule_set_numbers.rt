//! A compact list of rule set numbers, one for each entry of a compiled table.

ghost use Rattle.std.specs.Prelude.{◌≡◌, ◌<◌, [], ◌∷◌, ◌++◌, IsTrue, IfOk, IfSome, MatchResult, length, slice_index_or, ℕ};

use std::alloc::{AllocError, Global};
use std::marker::Model;

/// A list of numbers. The numbers before the first one that doesn't fit in two bytes take two bytes
/// each. That number and all later ones take four bytes each.
#[derive(Drop)]
pub struct SetNumbers {
    narrow: Vec<u16>,
    wide: Vec<u32>,
}

impl Model for SetNumbers {
    ghost use Rattle.std.specs.Prelude.{ℕ, List, ◌++◌};

    ghost Value = { List ℕ };

    ghost view = { λ n. n.narrow.items ++ n.wide.items };
}

/// The number in two bytes, or `None` if it doesn't fit or `may_be_narrow` is false.
#[inline(always)]
fn narrow_number(may_be_narrow: bool, number: u32) -> Option<u16>
    ensures number { IfSome result (λ narrow. narrow ≡ number) }
    ensures narrow { IfSome result (λ _. IsTrue may_be_narrow) }
{
    if !may_be_narrow {
        return None;
    }
    u16::try_from(number).ok()
}

impl SetNumbers {
    /// An empty list, with room for `count` numbers of two bytes.
    pub fn with_capacity(alloc: Global, count: usize) -> Result<Self, AllocError>
        ensures { IfOk result (λ numbers. numbers ≡ []) }
    {
        Ok(SetNumbers {
            narrow: Vec::with_capacity(alloc, count)?,
            wide: Vec::new(alloc),
        })
    }

    /// Appends a number. If memory can't be allocated, the list is unchanged. A number that goes to
    /// `narrow`, where there is capacity, is appended inline here, any other in `push_any`.
    #[inline(always)]
    pub fn push(&mut self, number: u32) -> Result<(), AllocError>
        ensures { MatchResult result (λ _. self.new ≡ self.old ++ number ∷ []) (λ _. self.new ≡ self.old) }
    {
        if self.narrow.len() < self.narrow.capacity()
            && let Some(narrow) = narrow_number(self.wide.is_empty(), number)
        {
            self.narrow.push_reserved(narrow);
            return Ok(());
        }
        self.push_any(number)
    }

    /// What `push` does, for any number. The contract doesn't say to which list it goes: that affects only
    /// memory.
    #[inline(never)]
    fn push_any(&mut self, number: u32) -> Result<(), AllocError>
        ensures { MatchResult result (λ _. self.new ≡ self.old ++ number ∷ []) (λ _. self.new ≡ self.old) }
    {
        match narrow_number(self.wide.is_empty(), number) {
            Some(number) => {
                if self.narrow.push(number).is_err() {
                    return Err(AllocError);
                }
            }
            None => {
                if self.wide.push(number).is_err() {
                    return Err(AllocError);
                }
            }
        }
        Ok(())
    }

    /// Removes all numbers.
    pub fn clear(&mut self)
        ensures { self.new ≡ [] }
    {
        self.narrow.clear();
        self.wide.clear();
    }

    /// Gives back spare capacity. The contract doesn't say so: it speaks only of the elements.
    pub fn cut(&mut self)
        ensures { self.new ≡ self.old }
    {
        self.narrow.shrink_to_fit();
        self.wide.shrink_to_fit();
    }

    /// How many numbers there are.
    #[inline(always)]
    pub fn count(&self) -> usize
        ensures { result ≡ length self.now }
    {
        self.narrow.len() + self.wide.len()
    }

    /// The number at index `place`.
    #[inline(always)]
    pub fn at(&self, place: usize) -> u32
        requires { place < length self.now }
        ensures { (d : ℕ) → slice_index_or self.now place d ≡ result }
    {
        let narrow = self.narrow.as_slice();
        let wide = self.wide.as_slice();
        if place < narrow.len() {
            u32::from(narrow[place])
        } else {
            wide[place - narrow.len()]
        }
    }
}
