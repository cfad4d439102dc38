//! The register rules of a row, in order of register.

ghost use Rattle.std.specs.Prelude.{◌≡◌, ℕ, ◌+◌, ◌<◌, ◌≤◌, ◌==◌, [], List, ◌-◌, length, take, insert, remove, slice_range, ◌++◌, MatchResult};
ghost use Rattle.std.specs.List.{remove_range};
ghost use Rattle.dw_bytes.specs.declared.fault.FaultKind.{FaultKind};
ghost use Rattle.std.specs.Bool.{OnTrue, OnFalse};
ghost use Rattle.dw_rules.specs.Rules.{PlacedRule, RuleOver, IsTable, rule_in, rule_list, rule_count, changed_at};
ghost use Rattle.dw_rules.specs.Views.{stored_rule_of, rule_by, entry_of, entries_of};
ghost use Rattle.dw_rules.specs.RegisterRules.{rule_index};

use crate::stored_rule::StoredRule;
use dw_bytes::FaultKind;
use std::fmt;
use std::marker::Model;

/// At most this many registers in a row may have a rule other than `Default`.
pub const MAX_RULES: usize = 128;

/// The kind of a register's rule, without its operand.
#[derive(Clone, Copy, Debug, PartialEq)]
pub enum RuleKind {
    Default,
    Undefined,
    SameValue,
    Offset,
    ValOffset,
    Register,
    Expression,
    ValExpression,
}

/// A register and its rule, in 16 bytes. `offset` is the operand of the kinds `Offset` and
/// `ValOffset`. `number` is the other register for the kind `Register`, and the expression's offset
/// in the section for `Expression` and `ValExpression`. The widest fields come first, so that there
/// is no padding.
#[derive(Clone, Copy, Debug)]
pub struct RuleEntry {
    pub offset: i64,
    pub number: u32,
    pub register: u16,
    pub kind: RuleKind,
}

const _: () = prove!(size_of::<RuleEntry>() == 16);

impl Default for RuleEntry {
    fn default() -> Self {
        RuleEntry {
            offset: 0,
            number: 0,
            register: 0,
            kind: RuleKind::Default,
        }
    }
}

/// An entry that gives `register` the rule `rule`.
#[inline(always)]
fn entry_with_rule(register: u16, rule: StoredRule) -> RuleEntry
    ensures { entry_of result ≡ (register, stored_rule_of rule) }
{
    let (kind, offset, number) = match rule {
        StoredRule::Default => (RuleKind::Default, 0, 0),
        StoredRule::Undefined => (RuleKind::Undefined, 0, 0),
        StoredRule::SameValue => (RuleKind::SameValue, 0, 0),
        StoredRule::Offset(offset) => (RuleKind::Offset, offset, 0),
        StoredRule::ValOffset(offset) => (RuleKind::ValOffset, offset, 0),
        StoredRule::Register(register) => (RuleKind::Register, 0, u32::from(register)),
        StoredRule::Expression(at) => (RuleKind::Expression, 0, at),
        StoredRule::ValExpression(at) => (RuleKind::ValExpression, 0, at),
    };
    RuleEntry {
        offset,
        number,
        register,
        kind,
    }
}

/// The rule that an entry stands for.
#[inline(always)]
pub fn rule_of_entry(entry: &RuleEntry) -> StoredRule
    ensures { stored_rule_of result ≡ rule_by entry.now }
{
    match entry.kind {
        RuleKind::Default => StoredRule::Default,
        RuleKind::Undefined => StoredRule::Undefined,
        RuleKind::SameValue => StoredRule::SameValue,
        RuleKind::Offset => StoredRule::Offset(entry.offset),
        RuleKind::ValOffset => StoredRule::ValOffset(entry.offset),
        RuleKind::Register => StoredRule::Register((entry.number % 65536) as u16),
        RuleKind::Expression => StoredRule::Expression(entry.number),
        RuleKind::ValExpression => StoredRule::ValExpression(entry.number),
    }
}

/// A list of at most `MAX_RULES` entries. Array elements past `count` keep their old contents, so
/// that replacing a row's rules writes only the new entries.
#[derive(Drop)]
struct EntryTable {
    entries: [RuleEntry; MAX_RULES],
    count: usize,
}

impl Model for EntryTable {
    ghost use Rattle.std.specs.Prelude.{◌≡◌, ◌≤◌, length, take};
    ghost use Rattle.dw_rules.specs.declared.register_rules.TheConstants.{MAX_RULES};
    ghost use Rattle.dw_rules.specs.declared.register_rules.RuleEntry.{RuleEntry};
    ghost use Rattle.arrayvec.specs.ArrayVec.{ArrayVec as Items};

    ghost Value = { Items RuleEntry };

    ghost view = { λ t. record { items = take t.count t.entries } };

    ghost invariant = { λ t. (t.count ≤ MAX_RULES) × (length t.entries ≡ MAX_RULES) };
}

impl EntryTable {
    /// An empty table.
    #[inline(always)]
    fn new() -> Self
        ensures { result.items ≡ [] }
    {
        EntryTable {
            entries: Default::default(),
            count: 0,
        }
    }

    /// How many entries there are.
    #[inline(always)]
    fn len(&self) -> usize
        ensures value { result ≡ length self.now.items }
        ensures fits { result ≤ MAX_RULES }
    {
        self.count
    }

    /// Whether the table has `MAX_RULES` entries.
    #[inline(always)]
    fn is_full(&self) -> bool
        ensures value { result ≡ (length self.now.items == MAX_RULES) }
        ensures fits { length self.now.items ≤ MAX_RULES }
    {
        self.count == MAX_RULES
    }

    /// The entries.
    #[inline(always)]
    fn as_slice(&self) -> &[RuleEntry]
        ensures value { result.now ≡ self.now.items }
        ensures fits { length result.now ≤ MAX_RULES }
    {
        &self.entries[..self.count]
    }

    /// Removes all entries, in O(1) time.
    #[inline(always)]
    fn clear(&mut self)
        ensures { self.new.items ≡ [] }
    {
        self.count = 0;
    }

    /// Replaces all entries by the entries of a slice. Array elements past the new entries are left
    /// as they were, which saves time.
    #[inline(always)]
    fn assign(&mut self, entries: &[RuleEntry])
        requires { length entries.now ≤ MAX_RULES }
        ensures { self.new.items ≡ entries.now }
    {
        let count = entries.len();
        self.entries[..count].copy_from_slice(entries);
        self.count = count;
    }

    /// Inserts an entry at index `place`, and moves the later entries up. The table must not be
    /// full.
    #[inline(always)]
    fn insert(&mut self, place: usize, entry: RuleEntry)
        requires in_bounds { place ≤ length self.old.items }
        requires room { length self.old.items < MAX_RULES }
        ensures items { self.new.items ≡ insert self.old.items place entry }
        ensures len { length self.new.items ≡ length self.old.items + 1 }
    {
        let count = self.count;
        insert_into(&mut self.entries[..count + 1], place, entry);
        self.count = count + 1;
    }

    /// Removes the entry at index `place`, and moves the later entries down.
    #[inline(never)]
    fn remove(&mut self, place: usize)
        requires { place < length self.old.items }
        ensures items { self.new.items ≡ remove self.old.items place }
        ensures len { length self.new.items + 1 ≡ length self.old.items }
    {
        let count = self.count;
        move_to_end(&mut self.entries[..count], place, place + 1);
        self.count = count - 1;
    }
}

impl fmt::Debug for EntryTable {
    fn fmt<W: fmt::Write>(&self, f: &mut fmt::Formatter<W>) -> fmt::Result {
        f.debug_list().entries(self.as_slice()).finish()
    }
}

/// Inserts an entry at index `place`, and moves the later entries up by one. The last entry of the
/// slice is overwritten.
#[inline(always)]
fn insert_into(entries: &mut [RuleEntry], place: usize, entry: RuleEntry)
    requires { place < length entries.old }
    ensures { entries.new ≡ insert (take (length entries.old - 1) entries.old) place entry }
{
    let mut moved = entry;
    for at in place..entries.len() {
        let next = entries[at];
        entries[at] = moved;
        moved = next;
    }
}

/// Moves the entries from `start` up to but not including `end` to the end of the slice.
fn move_to_end(entries: &mut [RuleEntry], start: usize, end: usize)
    requires order { start ≤ end }
    requires in_bounds { end ≤ length entries.old }
    ensures { entries.new ≡ remove_range entries.old start end ++ slice_range entries.old start end }
{
    entries[start..].rotate_left(end - start);
}

/// The register rules of a row, other than `Default`, in ascending order of registers.
#[derive(Debug, Drop)]
pub struct RegisterRuleMap {
    entries: EntryTable,
}

impl Model for RegisterRuleMap {
    ghost use Rattle.std.specs.Prelude.{ℕ, List};
    ghost use Rattle.dw_rules.specs.Rules.{PlacedRule, IsTable};

    ghost Value = { List (ℕ × PlacedRule) };

    ghost use Rattle.dw_rules.specs.Views.{entries_of};

    ghost view = { λ m. entries_of m.entries.items };

    ghost invariant = { λ m. IsTable 0 (entries_of m.entries.items) };
}

impl RegisterRuleMap {
    /// A map in which each register has the rule `Default`.
    #[inline(always)]
    pub fn new() -> Self
        ensures { result ≡ [] }
    {
        RegisterRuleMap {
            entries: EntryTable::new(),
        }
    }

    /// The rule of a register, or `Default` if it has no entry.
    #[inline(always)]
    pub fn register(&self, number: u16) -> StoredRule
        ensures { stored_rule_of result ≡ rule_in self.now number }
    {
        rule_of_register(self.entries.as_slice(), number)
    }

    /// A copy. It writes all elements of a new array before it copies the entries, so `copy_from`
    /// is faster.
    pub fn copy(&self) -> Self
        ensures { result ≡ self.now }
    {
        let mut entries = EntryTable::new();
        entries.assign(self.entries.as_slice());
        RegisterRuleMap { entries }
    }

    /// Gives each register the rule `Default`.
    pub fn clear(&mut self)
        ensures { self.new ≡ [] }
    {
        self.entries.clear();
    }

    /// Replaces all rules by the rules of `other`. Array elements past the new entries are left as
    /// they were, which saves time.
    pub fn copy_from(&mut self, other: &RegisterRuleMap)
        ensures { self.new ≡ other.now }
    {
        self.entries.assign(other.entries.as_slice());
    }

    /// Replaces all rules by the rules in `entries`. Array elements past the new entries are left
    /// as they were, which saves time.
    pub fn assign(&mut self, entries: &[RuleEntry])
        requires few { length entries.now ≤ MAX_RULES }
        requires table { IsTable 0 (entries_of entries.now) }
        ensures { self.new ≡ entries_of entries.now }
    {
        self.entries.assign(entries);
    }

    /// The entries, in ascending order of registers. None has the rule `Default`.
    pub fn as_slice(&self) -> &[RuleEntry]
        ensures entries { entries_of result.now ≡ self.now }
        ensures few { length result.now ≤ MAX_RULES }
        ensures table { IsTable 0 (entries_of result.now) }
    {
        self.entries.as_slice()
    }

    /// Gives a register a rule. If more than `MAX_RULES` registers would then have a rule, this is
    /// refused with `TooManyRules`.
    #[inline(always)]
    pub fn set(&mut self, number: u16, rule: StoredRule) -> Result<(), FaultKind>
        ensures { MatchResult result
            (λ _. (self.new ≡ rule_list (changed_at (rule_in self.old) number (stored_rule_of rule)))
            × (length self.new ≤ MAX_RULES))
            (λ kind. (kind ≡ FaultKind.TooManyRules)
            × (MAX_RULES < rule_count (changed_at (rule_in self.old) number (stored_rule_of rule)))) }
    {
        if put_rule(&mut self.entries, number, rule) {
            Ok(())
        } else {
            Err(FaultKind::TooManyRules)
        }
    }
}

/// The rule of a register, or `Default` if it has no entry. The search is linear.
#[inline(always)]
pub fn rule_of_register(entries: &[RuleEntry], register: u16) -> StoredRule
    ensures { stored_rule_of result ≡ rule_in (entries_of entries.now) register }
{
    for entry in entries {
        if entry.register == register {
            return rule_of_entry(entry);
        }
    }
    StoredRule::Default
}

/// The index of the register's entry, or, if it has none, the index at which its entry would be
/// inserted. This is the number of entries with a lower register.
#[inline(always)]
fn place_of_register(entries: &[RuleEntry], register: u16) -> usize
    ensures value { result ≡ rule_index register (entries_of entries.now) }
    ensures within { result ≤ length entries.now }
{
    for (place, entry) in entries.iter().enumerate() {
        if entry.register >= register {
            return place;
        }
    }
    entries.len()
}

/// Gives the register the rule `Default`, by removing its entry. Returns the index at which its
/// entry would be inserted.
#[inline(always)]
fn clear_rule(table: &mut EntryTable, register: u16) -> usize
    requires { IsTable 0 (entries_of table.old.items) }
    ensures table { IsTable 0 (entries_of table.new.items) }
    ensures rules { entries_of table.new.items ≡ rule_list
        (changed_at (rule_in (entries_of table.old.items)) register RuleOver.default) }
    ensures value { result ≡ rule_index register (entries_of table.new.items) }
    ensures within { result ≤ length table.new.items }
{
    let place = place_of_register(table.as_slice(), register);
    if place < table.len() && table.as_slice()[place].register == register {
        table.remove(place);
    }
    place
}

/// Gives the register the rule, and returns `true`. If the rule isn't `Default`, the table is full,
/// and the register has no entry in it, the result is `false`, and nothing changes.
#[inline(always)]
fn put_rule(table: &mut EntryTable, register: u16, rule: StoredRule) -> bool
    requires { IsTable 0 (entries_of table.old.items) }
    ensures table { IsTable 0 (entries_of table.new.items) }
    ensures rules { OnTrue result
        (entries_of table.new.items ≡ rule_list
        (changed_at (rule_in (entries_of table.old.items)) register (stored_rule_of rule))) }
    ensures few { length (entries_of table.new.items) ≤ MAX_RULES }
    ensures full { OnFalse result
        (MAX_RULES < rule_count (changed_at (rule_in (entries_of table.old.items)) register
        (stored_rule_of rule))) }
{
    let place = clear_rule(table, register);
    let full = table.is_full();
    if let StoredRule::Default = rule {
        return true;
    }
    if full {
        return false;
    }
    table.insert(place, entry_with_rule(register, rule));
    true
}
