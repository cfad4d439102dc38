//! The rule sets that the entries of a table refer to.

ghost use Rattle.std.specs.Prelude.{◌≡◌, ◌+◌, ◌<◌, ◌≤◌, All, IfOk, IfErr, length, map};
ghost use Rattle.dw_tables.specs.CompiledTable.{IsNumbered, LacksRoom, entry_bytes, set_bytes, set_numbered, sets_bytes};
ghost use Rattle.dw_tables.specs.NumberedPrograms.{rules_at};

use crate::rule_sets::{RuleSets, set_bytes};
use crate::table_room::{Unmade, less_room};
use dw_rules::UnwindState;
use std::alloc::{AllocError, Global};

/// How many bytes of the room an entry uses up, not counting its rule set. Its start, the number of
/// its rule set and a count in `Blocks` take at most this.
pub const ROW_ROOM: usize = 16;

const _: () = prove!(size_of::<u64>() + size_of::<u32>() + size_of::<u32>() <= ROW_ROOM);

/// The rule sets that a table has. A rule set's index in `numbers` is its number in the table, and the
/// element is its index in the list of all rule sets.
#[derive(Drop)]
pub struct ChosenSets {
    pub numbers: Vec<u32>,
    /// For each rule set, its index in `numbers`, if it is there. A wrong index costs only memory and
    /// room.
    places: Vec<u32>,
    /// How many bytes may still be used.
    pub room: usize,
}

/// Sets the element at index `place`. Missing elements before it become `u32::MAX`. Fails if memory
/// can't be allocated.
fn set_place(places: &mut Vec<u32>, place: u32, value: u32) -> Result<(), AllocError> {
    let place = place as usize;
    for _ in places.len()..place + 1 {
        places.push(u32::MAX)?;
    }
    if let Some(element) = places.get_mut(place) {
        *element = value;
    }
    Ok(())
}

impl ChosenSets {
    ghost use Rattle.std.specs.Prelude.{[], ◌≡◌};

    /// No rule sets yet, and `room` bytes that may be used.
    pub fn new(alloc: Global, room: usize) -> Self
        ensures numbers { result.numbers.items ≡ [] }
        ensures room { result.room ≡ room }
    {
        ChosenSets {
            numbers: Vec::new(alloc),
            places: Vec::new(alloc),
            room,
        }
    }

    /// The number that the table has for the rule set at index `index` of `sets`. It gets one if it
    /// has none. The room for an entry with this rule set is taken, and for the rule set if it is
    /// new.
    #[inline(always)]
    pub fn choose(&mut self, sets: &RuleSets, index: u32) -> Result<u32, Unmade>
        requires index { index < length sets.now }
        requires inside { All (λ n. n < length sets.now) self.old.numbers.items }
        ensures inside { All (λ n. n < length sets.now) self.new.numbers.items }
        ensures number { IfOk result (λ number. IsNumbered
            (map (set_numbered sets.now) self.old.numbers.items) (set_numbered sets.now index) number
            (map (set_numbered sets.now) self.new.numbers.items)) }
        ensures stored { IfOk result (λ _.
            sets_bytes (map (set_numbered sets.now) self.new.numbers.items) + self.new.room + 16
            ≤ sets_bytes (map (set_numbered sets.now) self.old.numbers.items) + self.old.room) }
        ensures spent { IfOk result (λ _.
            self.old.room ≤ self.new.room + entry_bytes (rules_at sets.now index)) }
        ensures short { IfErr result
            (λ why. LacksRoom why self.old.room (entry_bytes (rules_at sets.now index))) }
    {
        self.room = less_room(self.room, ROW_ROOM)?;
        if let Some(place) = self.places.get(index as usize) {
            let place = *place;
            if self.numbers.get(place as usize) == Some(&index) {
                return Ok(place);
            }
        }
        self.choose_anew(sets, index)
    }

    /// Gives the rule set at index `index` of `sets` a new number, and takes the room for it.
    #[inline(never)]
    fn choose_anew(&mut self, sets: &RuleSets, index: u32) -> Result<u32, Unmade>
        requires index { index < length sets.now }
        requires inside { All (λ n. n < length sets.now) self.old.numbers.items }
        ensures inside { All (λ n. n < length sets.now) self.new.numbers.items }
        ensures number { IfOk result (λ number. IsNumbered
            (map (set_numbered sets.now) self.old.numbers.items) (set_numbered sets.now index) number
            (map (set_numbered sets.now) self.new.numbers.items)) }
        ensures stored { IfOk result (λ _.
            sets_bytes (map (set_numbered sets.now) self.new.numbers.items) + self.new.room
            ≤ sets_bytes (map (set_numbered sets.now) self.old.numbers.items) + self.old.room) }
        ensures spent { IfOk result (λ _.
            self.old.room ≤ self.new.room + set_bytes (rules_at sets.now index)) }
        ensures short { IfErr result
            (λ why. LacksRoom why self.old.room (set_bytes (rules_at sets.now index))) }
    {
        let (rules, _) = sets.lend(index as usize);
        self.room = less_room(self.room, set_bytes(rules.entries.len()))?;
        let Ok(number) = u32::try_from(self.numbers.len()) else {
            return Err(Unmade::Memory);
        };
        self.numbers.push(index)?;
        set_place(&mut self.places, index, number)?;
        Ok(number)
    }

    /// Copies the chosen rule sets of `sets`, in the order of their numbers, to arrays without spare
    /// capacity (`RuleSets::cut`). Meanwhile `sets`, the copy and its cut copy are all in memory.
    /// Fails if memory can't be allocated.
    pub fn into_sets(self, alloc: Global, sets: &RuleSets) -> Result<RuleSets, AllocError>
        requires { All (λ n. n < length sets.now) self.numbers.items }
        ensures { IfOk result (λ chosen. chosen ≡ map (set_numbered sets.now) self.numbers.items) }
    {
        let mut chosen = RuleSets::new(alloc);
        let mut state = UnwindState::new();
        for number in self.numbers.as_slice() {
            let place = *number as usize;
            sets.load(place, place, &mut state);
            chosen.push(state.rules(), sets.register_at(place))?;
        }
        chosen.cut(alloc)?;
        Ok(chosen)
    }
}
