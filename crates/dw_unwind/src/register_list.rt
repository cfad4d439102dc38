//! Lists that the registers of a caller are written to.

ghost use Rattle.std.specs.Prelude.{◌≡◌, ◌++◌, ◌∷◌, ◌<◌, [], IfSome, Some, length, map, slice_get};
ghost use Rattle.dw_unwind.specs.CallerViews.{answer_in, found_in};

use crate::unwinding::{Answer, FoundRegisters, MAX_FOUND};

/// A list that the registers of a caller are written to, in the order of their rules: the list in a
/// `Caller`, or one of the two in a `Walk`.
pub trait RegisterList {
    ghost use Rattle.std.specs.Prelude.{ℕ, List};
    ghost use Rattle.dw_unwind.specs.Caller.{Answer};

    /// The registers in the list.
    ghost registers: { Self → List (ℕ × Answer) };

    /// Removes all registers.
    fn clear(&mut self)
        ensures { registers self.new ≡ [] };

    /// Appends a register with its answer.
    fn push(&mut self, number: u16, answer: Answer)
        requires { length (registers self.old) < MAX_FOUND }
        ensures { registers self.new ≡ registers self.old ++ (number, answer_in answer) ∷ [] };

    /// The answer for a register, if the list has it and can tell without a search; else none.
    fn answer(&self, number: u16) -> Option<Answer>
        ensures { IfSome result (λ answer. (k : ℕ)
            × (slice_get (registers self.now) k ≡ Some (number, answer_in answer))) };
}

impl RegisterList for FoundRegisters {
    ghost registers = { λ r. map found_in r.items };

    #[inline(always)]
    fn clear(&mut self) {
        FoundRegisters::clear(self);
    }

    #[inline(always)]
    fn push(&mut self, number: u16, answer: Answer) {
        FoundRegisters::push(self, (number, answer));
    }

    #[inline(always)]
    fn answer(&self, _number: u16) -> Option<Answer> {
        None
    }
}
