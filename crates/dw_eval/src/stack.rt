//! The stack of a run.

use std::marker::Model;

/// The stack entries of a run, the top last, in a fixed number of slots.
#[derive(Drop)]
pub struct Stack<const PLACES: usize> {
    places: [u64; PLACES],
    height: usize,
}

impl<const PLACES: usize> Model for Stack<PLACES> {
    ghost use Rattle.std.specs.Prelude.{ℕ, List, ◌≤◌, take, length};

    ghost Value = { List ℕ };

    ghost view = { λ s. take s.height s.places };

    ghost invariant = { λ s. s.height ≤ length s.places };
}

impl<const PLACES: usize> Stack<PLACES> {
    ghost use Rattle.std.specs.Prelude.{◌≡◌, ◌+◌, ◌-◌, ◌<◌, ◌≤◌, ◌==◌, [], ◌∷◌, ◌++◌, length, take};
    ghost use Rattle.dw_stack.specs.Machine.{entry};

    /// An empty stack.
    pub fn new() -> Self
        ensures { result ≡ [] }
    {
        Stack {
            places: [0; PLACES],
            height: 0,
        }
    }

    /// Whether the stack is empty.
    pub fn is_empty(&self) -> bool
        ensures { result ≡ (length self.now == 0) }
    {
        self.height == 0
    }

    /// The entry `below` entries below the top.
    #[inline(always)]
    pub fn entry(&self, below: usize) -> u64
        requires { below < length self.now }
        ensures { result ≡ entry self.now below }
    {
        self.places[self.height - 1 - below]
    }

    /// Replaces the topmost `taken` entries by `value`.
    #[inline(always)]
    pub fn put(&mut self, taken: usize, value: u64)
        requires taken { taken ≤ length self.old }
        requires room { length self.old - taken < PLACES }
        ensures { self.new ≡ take (length self.old - taken) self.old ++ value ∷ [] }
    {
        let place = self.height - taken;
        self.places[place] = value;
        self.height = place + 1;
    }

    /// Removes the top.
    #[inline(always)]
    pub fn pop(&mut self)
        requires { 1 ≤ length self.old }
        ensures { self.new ≡ take (length self.old - 1) self.old }
    {
        self.height -= 1;
    }

    /// Swaps the top and the second entry.
    #[inline(always)]
    pub fn swap(&mut self)
        requires { 2 ≤ length self.old }
        ensures { self.new ≡ take (length self.old - 2) self.old
            ++ entry self.old 0 ∷ entry self.old 1 ∷ [] }
    {
        let (second, top) = (self.height - 2, self.height - 1);
        let entry = self.places[top];
        self.places[top] = self.places[second];
        self.places[second] = entry;
    }

    /// Rotates the top three: the top becomes the third entry, the second the top and the third the
    /// second.
    #[inline(always)]
    pub fn rot(&mut self)
        requires { 3 ≤ length self.old }
        ensures { self.new ≡ take (length self.old - 3) self.old
            ++ entry self.old 0 ∷ entry self.old 2 ∷ entry self.old 1 ∷ [] }
    {
        let (third, second, top) = (self.height - 3, self.height - 2, self.height - 1);
        let entry = self.places[top];
        self.places[top] = self.places[second];
        self.places[second] = self.places[third];
        self.places[third] = entry;
    }

    /// Removes all entries.
    #[inline(always)]
    pub fn clear(&mut self)
        ensures { self.new ≡ [] }
    {
        self.height = 0;
    }
}
