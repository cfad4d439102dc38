//! A list of rule sets that share one array of entries. In a checked section it holds the rules
//! that the initial instructions of each CIE leave.

ghost use Rattle.std.specs.Prelude.{◌≡◌, ◌<◌, ◌≤◌, [], ◌∷◌, ◌++◌, length, Some, slice_get, MatchResult};
ghost use Rattle.std.specs.Bool.{OnTrue};
ghost use Rattle.std.specs.Option.{option_map};
ghost use Rattle.dw_rules.specs.Rules.{IsTable};
ghost use Rattle.dw_rules.specs.SavedRules.{ArePlain};
ghost use Rattle.dw_rules.specs.Views.{stored_cfa_of, entries_of};

use crate::plain_rules::plain_below;
use crate::register_rules::{MAX_RULES, RuleEntry, RuleKind};
use crate::rule_set::RuleSet;
use crate::stored_rule::StoredCfa;
use std::alloc::{AllocError, Global};
use std::marker::Model;

/// The CFA rule of a rule set, and where its register rules are in the shared array of entries:
/// from index `start` up to but not including `end`. `plain_below` is that of `LentRules`.
#[derive(Clone, Copy)]
pub struct RuleSpan {
    pub cfa: Option<StoredCfa>,
    pub start: usize,
    pub end: usize,
    pub plain_below: u16,
}

/// A rule set that is lent by the list that has it: the CFA's rule, and the entries of the register
/// rules.
#[derive(Drop)]
pub struct LentRules<'t> {
    pub cfa: Option<StoredCfa>,
    pub entries: &'t [RuleEntry],
    /// If this isn't 0, each entry says that a register below it is saved relative to the CFA. It
    /// was found out when the rule set was stored, so that a look-up needn't look at all entries.
    pub plain_below: u16,
}

/// A list of rule sets. In a checked section they are the rules that the initial instructions of
/// each CIE leave (DWARF 5, section 6.4.1), in the order of the CIEs. All register rules are in one
/// array, so that a CIE needs no allocation of its own, and only as much memory as its rules take.
#[derive(Drop)]
pub struct InitialRules {
    entries: Vec<RuleEntry>,
    spans: Vec<RuleSpan>,
}

impl Model for InitialRules {
    ghost use Rattle.std.specs.Prelude.{List};
    ghost use Rattle.dw_rules.specs.RuleSet.{StoredRules};

    ghost Value = { List StoredRules };

    ghost use Rattle.dw_rules.specs.Initial.{stored_in_spans, AreAllEntries};

    ghost view = { λ r. stored_in_spans r.entries.items r.spans.items };

    ghost invariant = { λ r. AreAllEntries r.entries.items r.spans.items };
}

impl InitialRules {
    /// An empty list.
    pub fn new(alloc: Global) -> Self
        ensures { result ≡ [] }
    {
        InitialRules {
            entries: Vec::new(alloc),
            spans: Vec::new(alloc),
        }
    }

    /// Appends a rule set. If memory can't be allocated, the list is unchanged.
    pub fn push(&mut self, rules: &RuleSet) -> Result<(), AllocError>
        ensures { MatchResult result (λ _. self.new ≡ self.old ++ rules.now ∷ [])
            (λ _. self.new ≡ self.old) }
    {
        let start = self.entries.len();
        let entries = rules.register_rules().as_slice();
        self.entries.extend_from_slice(entries)?;
        let span = RuleSpan {
            cfa: rules.cfa(),
            start,
            end: self.entries.len(),
            plain_below: plain_below(entries),
        };
        if self.spans.push(span).is_err() {
            self.entries.truncate(start);
            return Err(AllocError);
        }
        Ok(())
    }

    /// Copies the list into new arrays, so that no capacity is spare. The contract doesn't say so:
    /// it speaks only of the elements.
    pub fn cut(&mut self, alloc: Global) -> Result<(), AllocError>
        ensures { self.new ≡ self.old }
    {
        let entries = Vec::from_slice(alloc, self.entries.as_slice())?;
        let spans = Vec::from_slice(alloc, self.spans.as_slice())?;
        self.entries = entries;
        self.spans = spans;
        Ok(())
    }

    /// Copies the rule set at index `place` to `rules`. The cost is proportional to the number of
    /// its register rules.
    pub fn copy_to(&self, place: usize, rules: &mut RuleSet)
        requires { place < length self.now }
        ensures { slice_get self.now place ≡ Some rules.new }
    {
        let span = self.spans[place];
        rules.assign(span.cfa, &self.entries[span.start..span.end]);
    }

    /// How many rule sets there are.
    pub fn count(&self) -> usize
        ensures { result ≡ length self.now }
    {
        self.spans.len()
    }

    /// Borrows the rule set at index `place`.
    #[inline(always)]
    pub fn lend(&self, place: usize) -> LentRules<'_>
        requires { place < length self.now }
        ensures rules { slice_get self.now place ≡ Some (record {
          cfa = option_map stored_cfa_of result.cfa;
          rules = entries_of result.entries.now;
        }) }
        ensures few { length result.entries.now ≤ MAX_RULES }
        ensures table { IsTable 0 (entries_of result.entries.now) }
        ensures plain { 0 < result.plain_below → ArePlain result.entries.now result.plain_below }
    {
        let span = &self.spans[place];
        LentRules {
            cfa: span.cfa,
            entries: &self.entries[span.start..span.end],
            plain_below: span.plain_below,
        }
    }

    /// Whether the rule set at index `place` equals `rules`.
    pub fn are_at(&self, place: usize, rules: &RuleSet) -> bool
        requires { place < length self.now }
        ensures { OnTrue result (slice_get self.now place ≡ Some rules.now) }
    {
        let lent = self.lend(place);
        same_cfa(lent.cfa, rules.cfa())
            && same_entries(lent.entries, rules.register_rules().as_slice())
    }
}

/// Whether both CFA rules are the same, or both are missing.
fn same_cfa(one: Option<StoredCfa>, other: Option<StoredCfa>) -> bool
    ensures { OnTrue result (one ≡ other) }
{
    match one {
        None => other.is_none(),
        Some(StoredCfa::RegisterAndOffset { register, offset }) => match other {
            Some(
                StoredCfa::RegisterAndOffset {
                    register: other_register,
                    offset: other_offset,
                },
            ) => register == other_register && offset == other_offset,
            _ => false,
        },
        Some(StoredCfa::Expression(at)) => match other {
            Some(StoredCfa::Expression(other_at)) => at == other_at,
            _ => false,
        },
    }
}

fn same_kind(one: RuleKind, other: RuleKind) -> bool
    ensures { OnTrue result (one ≡ other) }
{
    one == other
}

/// Whether both entries are the same.
#[inline(always)]
fn same_entry(one: &RuleEntry, other: &RuleEntry) -> bool
    ensures { OnTrue result (one.now ≡ other.now) }
{
    same_kind(one.kind, other.kind)
        && one.register == other.register
        && one.offset == other.offset
        && one.number == other.number
}

/// Whether both slices have the same entries.
fn same_entries(entries: &[RuleEntry], others: &[RuleEntry]) -> bool
    ensures { OnTrue result (entries.now ≡ others.now) }
{
    if entries.len() != others.len() {
        return false;
    }
    for place in 0..entries.len() {
        if !same_entry(&entries[place], &others[place]) {
            return false;
        }
    }
    true
}
