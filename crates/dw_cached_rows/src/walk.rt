//! Walks with the rows of a cache.

ghost use Rattle.std.specs.Prelude.{◌≡◌, ◌≢◌, ◌+◌, ◌<◌, ◌≤◌, ◌/◌, ℕ, IfSome, None, drop, false, length, take, true};
ghost use Rattle.dw_unwind.specs.Walks.{address_before};
ghost use Rattle.dw_cached_rows.specs.CachedRows.{IsMissing, entry_at, is_usable, set_of_key};
ghost use Rattle.dw_cached_rows.specs.CachedWalks.{EndsAfter, IsOther, Passes, as_caller, over_cached, stop_of_end};
ghost use Rattle.dw_cached_rows.specs.declared.walk.WalkEnd.TheVariants as ends;

use crate::cached_rows::{CachedRows, ROWS, WAYS, find, is_usable};
use crate::packed_row::PackedRow;
use crate::stack_place::{StackPlace, Step, as_caller, step_by, usual_step};
use dw_eval::Memory;

/// Why a walk with the rows of a cache ends.
#[derive(Clone, Copy, Debug, PartialEq, Eq)]
pub enum WalkEnd {
    /// There is no room for more addresses.
    Full,
    /// The cache has no row for the frame that the walk is at, or no address is looked up for it.
    Missing,
    /// The row of the frame that the walk is at can't be packed, or needs a register that isn't
    /// known; or its stack was realigned, and the word that has the CFA isn't known.
    Other,
    /// The return address of the last frame is undefined: the walk is complete.
    ReturnUndefined,
    /// The return address of the last frame can't be read.
    ReturnUnreadable,
}

/// The index of the entry with a key, for a module that is confirmed: first by the guess at `last`.
#[inline(always)]
pub(crate) fn locate(
    rows: &[PackedRow; ROWS],
    next: &mut [u16; ROWS + 1],
    last: usize,
    key: u64,
    confirmed: u64,
) -> Option<usize>
    requires { last ≤ ROWS }
    ensures length { length next.new ≡ ROWS + 1 }
    ensures found { IfSome result (λ index. (index < ROWS) × (key ≢ 0)
        × (is_usable confirmed key (entry_at rows.now index) ≡ true)) }
    ensures none { result ≡ None → key ≢ 0 → (index : ℕ) → index / WAYS ≡ set_of_key key
        → is_usable confirmed key (entry_at rows.now index) ≡ false }
{
    let guess = usize::from(next[last]) % ROWS;
    if key != 0 && is_usable(&rows[guess], key, confirmed) {
        return Some(guess);
    }
    if key == 0 {
        return None;
    }
    let index = find(rows, key, confirmed)?;
    next[last] = index as u16;
    Some(index)
}

impl CachedRows {
    /// Walks on from a caller's place, past frames whose CFAs are by rsp or by rbp, and writes their
    /// addresses from the index `from` on. `after` is the entry of the frame before them. Returns how
    /// many addresses there are then, and the entry of the last one of these frames. It stops at any
    /// other frame, and wherever `walk` stops, so that its loop can keep its values in registers.
    #[inline(never)]
    fn pass_callers<M: Memory>(
        &mut self,
        confirmed: u64,
        place: &mut StackPlace,
        memory: &M,
        addresses: &mut [u64],
        from: usize,
        after: usize,
    ) -> (usize, usize)
        requires from { from ≤ length addresses.old }
        requires after { after ≤ ROWS }
        ensures passes { (begun : StackPlace)
            → Passes (over_cached self.old.rows confirmed (M.bytes memory.now)) (M.bytes memory.now)
            begun (take from addresses.old) (as_caller place.old)
            → Passes (over_cached self.old.rows confirmed (M.bytes memory.now)) (M.bytes memory.now)
            begun (take result.0 addresses.new) place.new }
        ensures more { from ≤ result.0 }
        ensures few { result.0 ≤ length addresses.old }
        ensures last { result.1 ≤ ROWS }
        ensures same { self.new.rows ≡ self.old.rows }
        ensures rest { drop result.0 addresses.new ≡ drop result.0 addresses.old }
        ensures length { length addresses.new ≡ length addresses.old }
    {
        let mut here = as_caller(place);
        let mut last = after;
        let mut count = from;
        while count < addresses.len() {
            let Some(index) = locate(&self.rows, &mut self.next, last, here.key, confirmed) else {
                break;
            };
            let Step::To(caller) = usual_step(&self.rows[index], &here, memory) else {
                break;
            };
            addresses[count] = here.address;
            count += 1;
            here = caller;
            last = index;
        }
        *place = here;
        (count, last)
    }

    /// Walks up a stack from `place`, with the rows of the modules whose slots have their bits in
    /// `confirmed`, and writes the addresses of the frames to `addresses`, as many as fit. Returns
    /// how many it wrote, and why there are no more.
    ///
    /// Afterwards `place` is that of the frame after the last one that was written, at which the walk
    /// can go on: after `Missing`, once its row is kept; after `Other`, by a step with all
    /// registers. If the return address isn't known, there is no such frame.
    pub fn walk<M: Memory>(
        &mut self,
        confirmed: u64,
        place: &mut StackPlace,
        memory: &M,
        addresses: &mut [u64],
    ) -> (usize, WalkEnd)
        ensures passes { stop_of_end result.1 ≡ None
            → Passes (over_cached self.old.rows confirmed (M.bytes memory.now)) (M.bytes memory.now)
            place.old (take result.0 addresses.new) place.new }
        ensures ended { IfSome (stop_of_end result.1)
            (EndsAfter (over_cached self.old.rows confirmed (M.bytes memory.now)) (M.bytes memory.now)
            place.old (take result.0 addresses.new)) }
        ensures missing { result.1 ≡ ends.Missing → IfSome (address_before place.new.key)
            (IsMissing self.old.rows confirmed) }
        ensures other { result.1 ≡ ends.Other
            → IsOther self.old.rows confirmed (M.bytes memory.now) place.new }
        ensures full { result.1 ≡ ends.Full → result.0 ≡ length addresses.old }
        ensures few { result.0 ≤ length addresses.old }
        ensures same { self.new.rows ≡ self.old.rows }
        ensures rest { drop result.0 addresses.new ≡ drop result.0 addresses.old }
        ensures length { length addresses.new ≡ length addresses.old }
    {
        let mut last = ROWS;
        let mut count = 0;
        while count < addresses.len() {
            let Some(index) = locate(&self.rows, &mut self.next, last, place.key, confirmed) else {
                return (count, WalkEnd::Missing);
            };
            match step_by(&self.rows[index], place, memory) {
                Step::To(caller) => {
                    addresses[count] = place.address;
                    *place = caller;
                    let passed = self.pass_callers(
                        confirmed,
                        place,
                        memory,
                        addresses,
                        count + 1,
                        index,
                    );
                    count = passed.0;
                    last = passed.1;
                }
                Step::ReturnUndefined => {
                    addresses[count] = place.address;
                    return (count + 1, WalkEnd::ReturnUndefined);
                }
                Step::ReturnUnreadable => {
                    addresses[count] = place.address;
                    return (count + 1, WalkEnd::ReturnUnreadable);
                }
                Step::Other => return (count, WalkEnd::Other),
            }
        }
        (count, WalkEnd::Full)
    }
}
