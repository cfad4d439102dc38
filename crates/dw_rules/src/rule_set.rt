//! The rules of a row: the CFA's rule, and the rules of registers.

use crate::register_rules::{MAX_RULES, RegisterRuleMap, RuleEntry};
use crate::stored_rule::{StoredCfa, StoredRule};
use dw_bytes::FaultKind;
use std::marker::Model;

/// The rules of a row: the CFA's rule, if there is one, and the rules of registers.
#[derive(Drop)]
pub struct RuleSet {
    cfa: Option<StoredCfa>,
    rules: RegisterRuleMap,
}

impl Model for RuleSet {
    ghost use Rattle.dw_rules.specs.RuleSet.{StoredRules};

    ghost Value = { StoredRules };

    ghost use Rattle.std.specs.Option.{option_map};
    ghost use Rattle.dw_rules.specs.Views.{stored_cfa_of};

    ghost view = { λ r. record { cfa = option_map stored_cfa_of r.cfa; rules = r.rules } };
}

impl RuleSet {
    ghost use Rattle.std.specs.Prelude.{◌≡◌, ◌≤◌, None, Some, [], length};
    ghost use Rattle.std.specs.Option.{option_map};
    ghost use Rattle.dw_rules.specs.Rules.{IsTable, rule_in};
    ghost use Rattle.dw_rules.specs.Views.{stored_rule_of, stored_cfa_of, entries_of};
    ghost use Rattle.dw_rules.specs.ProgramState.{Sets};

    /// No rules: the CFA has none, and each register has `Default`.
    #[inline(always)]
    pub fn new() -> Self
        ensures { result ≡ record { cfa = None; rules = [] } }
    {
        RuleSet {
            cfa: None,
            rules: RegisterRuleMap::new(),
        }
    }

    /// A copy. It writes a whole new array of entries, so `copy_from` is faster.
    pub fn copy(&self) -> Self
        ensures { result ≡ self.now }
    {
        RuleSet {
            cfa: self.cfa,
            rules: self.rules.copy(),
        }
    }

    /// Removes the CFA's rule, and gives each register `Default`.
    pub fn clear(&mut self)
        ensures { self.new ≡ record { cfa = None; rules = [] } }
    {
        self.cfa = None;
        self.rules.clear();
    }

    /// Replaces all rules by the rules of `other`.
    pub fn copy_from(&mut self, other: &RuleSet)
        ensures { self.new ≡ other.now }
    {
        self.cfa = other.cfa;
        self.rules.copy_from(&other.rules);
    }

    /// Replaces the CFA's rule by `cfa`, and the register rules by the rules in `entries`.
    pub fn assign(&mut self, cfa: Option<StoredCfa>, entries: &[RuleEntry])
        requires few { length entries.now ≤ MAX_RULES }
        requires table { IsTable 0 (entries_of entries.now) }
        ensures { self.new ≡ record {
          cfa = option_map stored_cfa_of cfa;
          rules = entries_of entries.now;
        } }
    {
        self.cfa = cfa;
        self.rules.assign(entries);
    }

    /// The CFA's rule, if it has one.
    #[inline(always)]
    pub fn cfa(&self) -> Option<StoredCfa>
        ensures { self.now.cfa ≡ option_map stored_cfa_of result }
    {
        self.cfa
    }

    /// Gives the CFA a rule.
    #[inline(always)]
    pub fn set_cfa(&mut self, cfa: StoredCfa)
        ensures { self.new ≡ record { cfa = Some (stored_cfa_of cfa); rules = self.old.rules } }
    {
        self.cfa = Some(cfa);
    }

    /// The rules of registers.
    #[inline(always)]
    pub fn register_rules(&self) -> &RegisterRuleMap
        ensures { result.now ≡ self.now.rules }
    {
        &self.rules
    }

    /// The rule of a register, or `Default` if none is in force.
    #[inline(always)]
    pub fn register(&self, number: u16) -> StoredRule
        ensures { stored_rule_of result ≡ rule_in self.now.rules number }
    {
        self.rules.register(number)
    }

    /// Gives a register a rule. If more than `MAX_RULES` registers would then have a rule, this is
    /// refused with `TooManyRules`.
    #[inline(always)]
    pub fn set(&mut self, register: u16, rule: StoredRule) -> Result<(), FaultKind>
        ensures { Sets self.old register (stored_rule_of rule) result self.new }
    {
        self.rules.set(register, rule)
    }
}
