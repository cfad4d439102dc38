//! The registers of a caller, in a list that takes 4 KB.

ghost use Rattle.std.specs.Prelude.{◌≡◌, ◌<◌, ◌≤◌, [], length, map, option_map, slice_get};
ghost use Rattle.dw_unwind.specs.CallerViews.{answer_in, found_in};
ghost use Rattle.dw_unwind.specs.PackedRegisters.{answer_by, packed_in};

use crate::register_list::RegisterList;
use crate::unwinding::{Answer, MAX_FOUND};
use std::marker::Model;

/// Which `Answer` a register has, without the value.
#[derive(Clone, Copy, Debug)]
enum AnswerKind {
    Value,
    Undefined,
    Unreadable,
    DivisionByZero,
}

/// A register and its answer, in 16 bytes. `value` is the value for the kind `Value`. The widest
/// field comes first, so that there is no padding between the fields.
#[derive(Clone, Copy, Debug)]
struct PackedRegister {
    value: u64,
    number: u16,
    kind: AnswerKind,
}

const _: () = prove!(size_of::<PackedRegister>() == 16);

/// The register `number` and its answer.
#[inline(always)]
fn packed(number: u16, answer: Answer) -> PackedRegister
    ensures { packed_in result ≡ (number, answer_in answer) }
{
    let (kind, value) = match answer {
        Answer::Value(value) => (AnswerKind::Value, value),
        Answer::Undefined => (AnswerKind::Undefined, 0),
        Answer::Unreadable => (AnswerKind::Unreadable, 0),
        Answer::DivisionByZero => (AnswerKind::DivisionByZero, 0),
    };
    PackedRegister {
        value,
        number,
        kind,
    }
}

/// The answer of a register that has the kind `kind`.
#[inline(always)]
fn answer_of(kind: AnswerKind, value: u64) -> Answer
    ensures { answer_in result ≡ answer_by kind value }
{
    match kind {
        AnswerKind::Value => Answer::Value(value),
        AnswerKind::Undefined => Answer::Undefined,
        AnswerKind::Unreadable => Answer::Unreadable,
        AnswerKind::DivisionByZero => Answer::DivisionByZero,
    }
}

/// The registers of a caller, each with its answer, in the order of their rules. There is room for
/// all registers that a row and an ABI can name. `FrameRegisters` takes 6 KB for as many, but can
/// tell a register's content without a search.
#[derive(Drop)]
pub struct PackedRegisters {
    /// The first `count` slots hold the registers.
    slots: [PackedRegister; MAX_FOUND],
    count: usize,
}

impl Model for PackedRegisters {
    ghost use Rattle.std.specs.Prelude.{ℕ, List, map, take};
    ghost use Rattle.dw_unwind.specs.Caller.{Answer};

    ghost Value = { List (ℕ × Answer) };

    ghost use Rattle.dw_unwind.specs.PackedRegisters.{IsPacked, packed_in};
    ghost use Rattle.dw_unwind.specs.declared.unwinding.TheConstants.{MAX_FOUND};

    ghost view = { λ r. map packed_in (take r.count r.slots) };

    ghost invariant = { λ r. IsPacked MAX_FOUND r.slots r.count };
}

impl PackedRegisters {
    /// An empty list.
    pub fn none() -> Self
        ensures { result ≡ [] }
    {
        // The bytes of these slots are all 0, so the compiler clears the list in place.
        let slot = PackedRegister {
            value: 0,
            number: 0,
            kind: AnswerKind::Value,
        };
        PackedRegisters {
            slots: [slot; MAX_FOUND],
            count: 0,
        }
    }

    /// The number of registers.
    pub fn len(&self) -> usize
        ensures count { result ≡ length self.now }
        ensures few { result ≤ MAX_FOUND }
    {
        self.count
    }

    /// The register at `index` with its answer. `None` if the list isn't that long.
    pub fn get(&self, index: usize) -> Option<(u16, Answer)>
        ensures { option_map found_in result ≡ slice_get self.now index }
    {
        if index >= self.count {
            return None;
        }
        let register = self.slots[index];
        Some((register.number, answer_of(register.kind, register.value)))
    }
}

impl RegisterList for PackedRegisters {
    ghost registers = { λ r. r };

    #[inline(always)]
    fn clear(&mut self) {
        self.count = 0;
    }

    #[inline(always)]
    fn push(&mut self, number: u16, answer: Answer) {
        self.slots[self.count] = packed(number, answer);
        self.count += 1;
    }

    #[inline(always)]
    fn answer(&self, _number: u16) -> Option<Answer> {
        None
    }
}
