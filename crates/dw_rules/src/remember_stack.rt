//! The stack of rules that remember_state saves and restore_state takes back.

ghost use Rattle.std.specs.Prelude.{◌≡◌, ◌<◌, [], ◌∷◌, length, Some};
ghost use Rattle.std.specs.Bool.{OnTrue, OnFalse};

use crate::rule_set::RuleSet;
use std::marker::Model;

/// How many remember_states may be waiting for their restore_state at any one time.
pub const MAX_REMEMBERED: usize = 16;

/// The rules that remember_states have saved and no restore_state has taken back. The model is the
/// list of the saved rule sets, from the newest to the oldest. A slot of `rows` is `None` until
/// rules are pushed to it for the first time.
#[derive(Drop)]
pub struct RememberStack {
    rows: [Option<RuleSet>; MAX_REMEMBERED],
    depth: usize,
}

impl Model for RememberStack {
    ghost use Rattle.std.specs.Prelude.{List};
    ghost use Rattle.dw_rules.specs.RuleSet.{StoredRules};

    ghost Value = { List StoredRules };

    ghost use Rattle.dw_rules.specs.RememberStack.{kept_in, IsStack};

    ghost view = { λ m. kept_in m.depth m.rows };

    ghost invariant = { λ m. IsStack m.depth m.rows };
}

impl RememberStack {
    /// An empty stack.
    #[inline(always)]
    pub fn new() -> Self
        ensures { result ≡ [] }
    {
        RememberStack {
            rows: Default::default(),
            depth: 0,
        }
    }

    /// How many rule sets are remembered.
    pub fn depth(&self) -> usize
        ensures { result ≡ length self.now }
    {
        self.depth
    }

    /// Removes all remembered rules.
    pub fn clear(&mut self)
        ensures { self.new ≡ [] }
    {
        self.depth = 0;
    }

    /// Pushes a copy of `rules`. The stack must not be full. If an earlier push left rules in the
    /// slot, they are overwritten.
    pub fn push(&mut self, rules: &RuleSet)
        requires { length self.old < MAX_REMEMBERED }
        ensures { self.new ≡ rules.now ∷ self.old }
    {
        write_into(&mut self.rows[self.depth], rules);
        self.depth += 1;
    }

    /// Removes the rules that were remembered last, copies them to `rules`, and returns `true`. If
    /// the stack is empty, it returns `false`.
    pub fn pop(&mut self, rules: &mut RuleSet) -> bool
        ensures some { OnTrue result (self.old ≡ rules.new ∷ self.new) }
        ensures none { OnFalse result (self.old ≡ []) }
    {
        if self.depth == 0 {
            return false;
        }
        self.depth -= 1;
        match &self.rows[self.depth] {
            Some(row) => rules.copy_from(row),
            None => unreachable!(),
        }
        true
    }
}

/// Writes `rules` into a slot. If the slot already has a rule set, only the entries of `rules` are
/// copied. Entries past them are left as they were in the array, which saves time.
#[inline(always)]
fn write_into(place: &mut Option<RuleSet>, rules: &RuleSet)
    ensures { place.new ≡ Some rules.now }
{
    match place {
        Some(row) => row.copy_from(rules),
        None => *place = Some(rules.copy()),
    }
}
