//! A list of rule sets, each with its return address register.

ghost use Rattle.std.specs.Prelude.{◌≡◌, ◌+◌, ◌*◌, ◌<◌, ◌≤◌, [], ◌∷◌, ◌++◌, MatchResult, length, not, Some, slice_get};
ghost use Rattle.dw_rules.specs.ProgramFault.{lacks_cfa};
ghost use Rattle.std.specs.Bool.{OnTrue};
ghost use Rattle.std.specs.Option.{option_map};
ghost use Rattle.dw_rules.specs.Rules.{IsTable};
ghost use Rattle.dw_rules.specs.SavedRules.{ArePlain};
ghost use Rattle.dw_rules.specs.Views.{stored_cfa_of, entries_of};
ghost use Rattle.dw_tables.specs.CompiledTable.{set_numbered};
ghost use Rattle.dw_tables.specs.NumberedPrograms.{rules_at, state_with_rules};

use dw_rules::{
    InitialRules, LentRules, MAX_RULES, RuleEntry, RuleSet, RuleSpan, StoredCfa, UnwindState,
};
use std::alloc::{AllocError, Global};
use std::marker::Model;

/// At most how many bytes a rule set takes besides its register rules: its span, its return address
/// register, and its elements of `RuleNumbers::links`, `ChosenSets::places` and `ChosenSets::numbers`.
const SET_ROOM: usize = 64;

const _: () = prove!(size_of::<RuleSpan>() + size_of::<u16>() + 3 * size_of::<u32>() <= SET_ROOM);

/// At most how many bytes a rule set with `rules` register rules takes.
pub fn set_bytes(rules: usize) -> usize
    requires { rules ≤ MAX_RULES }
    ensures { result ≡ 64 + 16 * rules }
{
    SET_ROOM + size_of::<RuleEntry>() * rules
}

/// A list of rule sets, each with the return address register of the CIE that its rows belong to.
/// Rows of a table refer to a rule set by its index.
#[derive(Drop)]
pub struct RuleSets {
    rules: InitialRules,
    registers: Vec<u16>,
}

impl Model for RuleSets {
    ghost use Rattle.std.specs.Prelude.{◌≡◌, List, length};
    ghost use Rattle.dw_tables.specs.CompiledTable.{StoredSet, zipped};

    ghost Value = { List StoredSet };

    ghost view = { λ s. zipped s.rules s.registers.items };

    ghost invariant = { λ s. length s.rules ≡ length s.registers.items };
}

impl RuleSets {
    /// An empty list.
    pub fn new(alloc: Global) -> Self
        ensures { result ≡ [] }
    {
        RuleSets {
            rules: InitialRules::new(alloc),
            registers: Vec::new(alloc),
        }
    }

    /// Appends a rule set with its return address register. If memory can't be allocated, the list
    /// is unchanged.
    pub fn push(&mut self, rules: &RuleSet, register: u16) -> Result<(), AllocError>
        ensures { MatchResult result
            (λ _. self.new ≡ self.old ++ record { rules = rules.now; register = register } ∷ [])
            (λ _. self.new ≡ self.old) }
    {
        let count = self.registers.len();
        self.registers.push(register)?;
        match self.rules.push(rules) {
            Ok(()) => Ok(()),
            Err(_) => {
                self.registers.truncate(count);
                Err(AllocError)
            }
        }
    }

    /// Makes `state` that of a program that began with the rules at index `first`, and has the rules
    /// at index `from` in force.
    pub fn load(&self, first: usize, from: usize, state: &mut UnwindState)
        requires first { first < length self.now }
        requires from { from < length self.now }
        ensures { state.new ≡ state_with_rules (rules_at self.now first) (rules_at self.now from) }
    {
        state.set_initial_rules(&self.rules, from);
        state.begin(0);
        state.set_initial_rules(&self.rules, first);
    }

    /// The return address register of the rule set at index `place`.
    pub fn register_at(&self, place: usize) -> u16
        requires { place < length self.now }
        ensures { (set_numbered self.now place).register ≡ result }
    {
        self.registers[place]
    }

    /// Copies the list into new arrays, so that no capacity is spare. The contract doesn't say so:
    /// it speaks only of the elements.
    pub fn cut(&mut self, alloc: Global) -> Result<(), AllocError>
        ensures { self.new ≡ self.old }
    {
        let registers = Vec::from_slice(alloc, self.registers.as_slice())?;
        self.rules.cut(alloc)?;
        self.registers = registers;
        Ok(())
    }

    /// How many rule sets there are.
    pub fn count(&self) -> usize
        ensures { result ≡ length self.now }
    {
        self.registers.len()
    }

    /// Borrows the rule set at index `place`, with its return address register.
    #[inline(always)]
    pub fn lend(&self, place: usize) -> (LentRules<'_>, u16)
        requires { place < length self.now }
        ensures rules { slice_get self.now place ≡ Some (record {
          rules = record {
            cfa = option_map stored_cfa_of (result.0).cfa;
            rules = entries_of (result.0).entries.now;
          };
          register = result.1;
        }) }
        ensures few { length (result.0).entries.now ≤ MAX_RULES }
        ensures table { IsTable 0 (entries_of (result.0).entries.now) }
        ensures plain { 0 < (result.0).plain_below
            → ArePlain (result.0).entries.now (result.0).plain_below }
    {
        (self.rules.lend(place), self.registers[place])
    }

    /// Whether the rule set at index `place` has a rule for the CFA.
    pub fn has_cfa(&self, place: usize) -> bool
        requires { place < length self.now }
        ensures { result ≡ not (lacks_cfa (rules_at self.now place).cfa) }
    {
        let (lent, _) = self.lend(place);
        lent.cfa.is_some()
    }

    /// Whether the rule set at index `place` is a usual one: its CFA is a register plus an offset,
    /// and it has rules, each of which says that a register is saved relative to the CFA. No
    /// contract says so: it affects only time.
    #[inline(always)]
    pub fn is_usual(&self, place: usize) -> bool
        requires { place < length self.now }
    {
        let (lent, _) = self.lend(place);
        let Some(StoredCfa::RegisterAndOffset { .. }) = lent.cfa else {
            return false;
        };
        lent.plain_below > 0
    }

    /// Whether the element at index `place` has these rules and this return address register.
    pub fn are_at(&self, place: usize, rules: &RuleSet, register: u16) -> bool
        requires { place < length self.now }
        ensures { OnTrue result (slice_get self.now place
            ≡ Some (record { rules = rules.now; register = register })) }
    {
        self.registers[place] == register && self.rules.are_at(place, rules)
    }
}
