//! The registers of a caller, in a list that a walk refills for each frame.

ghost use Rattle.std.specs.Prelude.{◌≡◌, ◌<◌, ◌≤◌, [], ℕ, IfSome, Some, length, map, slice_get, true};
ghost use Rattle.dw_unwind.specs.CallerViews.{answer_in, found_in};
ghost use Rattle.dw_unwind.specs.FrameRegisters.{Ascends};
ghost use Rattle.dw_unwind.specs.Walks.{contents_of};

use crate::register_list::RegisterList;
use crate::unwinding::{Answer, FoundRegisters, MAX_FOUND};
use dw_eval::Registers;
use std::marker::Model;

/// The size of the table `places`, which has a guess of a register's index for each register number
/// modulo `GUESSES`.
const GUESSES: usize = 64;

/// The registers of a caller, each with its answer. The list also serves as the `Registers` of the
/// caller's own frame: there, a register has a content if its answer is a value.
///
/// There is room for all registers that a row and an ABI can name, but emptying the list doesn't
/// write their slots, so a frame costs only what its own registers cost.
#[derive(Drop)]
pub struct FrameRegisters {
    /// The first `count` slots hold the registers; the slots after them are left over from earlier
    /// frames.
    found: [(u16, Answer); MAX_FOUND],
    count: usize,
    /// For each remainder modulo `GUESSES`, the index in `found` of the register that was most
    /// recently put there with a number of that remainder. The index may be left over from an
    /// earlier frame, so it is checked before it is used.
    places: [u8; GUESSES],
    /// Whether each register number is greater than those before it, and all are below `bound`. If
    /// so, no register is in the list twice.
    is_ascending: bool,
    bound: u32,
}

impl Model for FrameRegisters {
    ghost use Rattle.std.specs.Prelude.{ℕ, List, map, take};
    ghost use Rattle.dw_unwind.specs.Caller.{Answer};

    ghost Value = { List (ℕ × Answer) };

    ghost use Rattle.dw_unwind.specs.CallerViews.{found_in};
    ghost use Rattle.dw_unwind.specs.declared.unwinding.TheConstants.{MAX_FOUND};

    ghost view = { λ r. map found_in (take r.count r.found) };

    ghost use Rattle.dw_unwind.specs.FrameRegisters.{IsRoom};
    ghost use Rattle.dw_unwind.specs.declared.frame_registers.TheConstants.{GUESSES};

    ghost invariant = { λ r. IsRoom MAX_FOUND GUESSES r.found r.count r.places r.is_ascending r.bound };
}

/// The content of the register `number`, by a search of `found`. None if `found` has no value for
/// it.
fn content_among(found: &[(u16, Answer)], number: u16) -> Option<u64>
    ensures { result ≡ contents_of (map found_in found.now) number }
{
    for register in found {
        if register.0 == number {
            return match register.1 {
                Answer::Value(content) => Some(content),
                _ => None,
            };
        }
    }
    None
}

/// The answer for the register `number`, if that register is at the index `place`; none otherwise.
#[inline(always)]
fn answer_at(found: &[(u16, Answer)], place: usize, number: u16) -> Option<Answer>
    ensures { IfSome result (λ answer. (k : ℕ)
        × (slice_get (map found_in found.now) k ≡ Some (number, answer_in answer))) }
{
    if place >= found.len() {
        return None;
    }
    let (register, answer) = found[place];
    if register == number {
        Some(answer)
    } else {
        None
    }
}

/// Looks for the register `number` at the index `place` only. If it is there, the result is `Some`
/// of its content, which is none if its answer isn't a value. Otherwise the result is `None`.
/// Numbers in `found` ascend, so the register is at no other index.
#[inline(always)]
fn content_at(found: &[(u16, Answer)], place: usize, number: u16) -> Option<Option<u64>>
    requires { (bound : ℕ) × Ascends 0 found.now bound }
    ensures { IfSome result (λ content. content ≡ contents_of (map found_in found.now) number) }
{
    match answer_at(found, place, number)? {
        Answer::Value(content) => Some(Some(content)),
        _ => Some(None),
    }
}

/// Whether register numbers that ascend and are below `bound` still ascend with `number` at the
/// end.
#[inline(always)]
fn stays_ascending(is_ascending: bool, bound: u32, number: u16) -> bool
    ensures { result ≡ true → (is_ascending ≡ true) × (bound ≤ number) }
{
    is_ascending && bound <= u32::from(number)
}

impl FrameRegisters {
    /// An empty list.
    pub(crate) fn none() -> Self
        ensures { result ≡ [] }
    {
        // The bytes of these slots are all 0, so the compiler clears the list in place. It would
        // make slots of any other answer elsewhere and copy them.
        FrameRegisters {
            found: [(0, Answer::Value(0)); MAX_FOUND],
            count: 0,
            places: [0; GUESSES],
            is_ascending: true,
            bound: 0,
        }
    }

    /// The registers with their answers, in the order of their rules.
    pub fn as_slice(&self) -> &[(u16, Answer)]
        ensures found { map found_in result.now ≡ self.now }
        ensures few { length result.now ≤ MAX_FOUND }
    {
        &self.found[..self.count]
    }

    /// A copy of the registers, as the list that a `Caller` has.
    pub fn to_list(&self) -> FoundRegisters
        ensures { map found_in result.items ≡ self.now }
    {
        let mut list = FoundRegisters::new();
        // They fit: both have the same number of slots.
        let _ = list.try_extend_from_slice(self.as_slice());
        list
    }
}

impl RegisterList for FrameRegisters {
    ghost registers = { λ r. r };

    #[inline(always)]
    fn clear(&mut self) {
        self.count = 0;
        self.is_ascending = true;
        self.bound = 0;
    }

    #[inline(always)]
    fn push(&mut self, number: u16, answer: Answer) {
        self.is_ascending = stays_ascending(self.is_ascending, self.bound, number);
        self.bound = u32::from(number) + 1;
        self.places[usize::from(number) % GUESSES] = self.count as u8;
        self.found[self.count] = (number, answer);
        self.count += 1;
    }

    #[inline(always)]
    fn answer(&self, number: u16) -> Option<Answer> {
        let place = self.places[usize::from(number) % GUESSES];
        answer_at(&self.found[..self.count], usize::from(place), number)
    }
}

impl Registers for FrameRegisters {
    ghost use Rattle.dw_unwind.specs.Walks.{contents_of};

    ghost contents = { λ r. contents_of r };

    #[inline(always)]
    fn register(&self, number: u16) -> Option<u64> {
        let found = &self.found[..self.count];
        if self.is_ascending {
            let place = self.places[usize::from(number) % GUESSES];
            if let Some(content) = content_at(found, usize::from(place), number) {
                return content;
            }
        }
        content_among(found, number)
    }
}
