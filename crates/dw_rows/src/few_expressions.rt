//! A short list of checked expressions, which needs no allocation.

use dw_stack::CheckedExpression;
use std::marker::Model;

/// How many expressions a list holds that may not allocate memory. On x86-64 the known program with
/// the most is that of glibc's `__restore_rt`, with 18.
pub const MAX_FEW: usize = 32;

/// At most `MAX_FEW` checked expressions, each with the offset of its first byte in the section.
/// Slots that aren't used hold a copy of the first one, since there is no empty expression.
#[derive(Drop)]
pub struct FewExpressions<'a> {
    slots: [(u32, CheckedExpression<'a>); MAX_FEW],
    count: usize,
}

impl<'a> Model for FewExpressions<'a> {
    ghost use Rattle.std.specs.Prelude.{ℕ, List, ◌≤◌, take};
    ghost use Rattle.dw_stack.specs.declared.checked.CheckedExpression.{CheckedExpression};
    ghost use Rattle.dw_rows.specs.declared.few_expressions.TheConstants.{MAX_FEW};

    ghost Value = { List (ℕ × CheckedExpression) };

    ghost view = { λ f. take f.count f.slots };

    ghost invariant = { λ f. f.count ≤ MAX_FEW };
}

impl<'a> FewExpressions<'a> {
    ghost use Rattle.std.specs.Prelude.{◌≡◌, [], ◌∷◌, ◌++◌};
    ghost use Rattle.std.specs.Bool.{OnTrue, OnFalse};

    /// A list of one expression.
    pub fn of(first: (u32, CheckedExpression<'a>)) -> Self
        ensures { result ≡ first.entry ∷ [] }
    {
        FewExpressions {
            slots: [first; MAX_FEW],
            count: 1,
        }
    }

    /// The expressions.
    pub fn as_slice(&self) -> &[(u32, CheckedExpression<'a>)]
        ensures { result.now ≡ self.now }
    {
        &self.slots[..self.count]
    }

    /// Appends an expression, and returns true. If the list is full, it is unchanged, and the result
    /// is false.
    pub fn push(&mut self, item: (u32, CheckedExpression<'a>)) -> bool
        ensures pushed { OnTrue result (self.new ≡ self.old ++ item.entry ∷ []) }
        ensures full { OnFalse result (self.new ≡ self.old) }
    {
        if self.count >= MAX_FEW {
            return false;
        }
        let place = self.count;
        let slots = &mut self.slots[..];
        slots[place] = item;
        self.count = place + 1;
        true
    }
}
