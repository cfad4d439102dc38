//! `UnwindRow`: a row of the unwind table with borrowed rules.

ghost use Rattle.std.specs.Prelude.{◌≡◌, ◌≤◌, ◌+◌, ◌<◌, IfSome, Some, All, length, map};
ghost use Rattle.dw_rules.specs.Abi.{or_rule, rule_under, rules_under};
ghost use Rattle.dw_rules.specs.AbiViews.{roles_of};
ghost use Rattle.dw_rules.specs.Rules.{IsTable, RuleOver, rule_in};
ghost use Rattle.dw_rules.specs.SavedRules.{ArePlain, as_saved};
ghost use Rattle.dw_rules.specs.Views.{rule_of, cfa_rule_of, entries_of, stored_cfa_of};
ghost use Rattle.dw_rules.specs.RowsWithExpressions.{row_with_expressions, LendsCfa, LendsEach, IsRuleOfKind};
ghost use Rattle.dw_rules.specs.RowsWithExpressions.{IsCfaOfKind, IsEntryOfKind};
ghost use Rattle.dw_rules.specs.RowExpressions.{row_expressions};

use crate::abi::Abi;
use crate::plain_rules::PlainRules;
use crate::register_rules::{MAX_RULES, RuleEntry, rule_of_register};
use crate::row::{
    CfaRule, RegisterRule, RegisterRules, cfa_with_expressions, rule_with_expressions,
};
use crate::row_expressions::RowExpressions;
use crate::stored_rule::{StoredCfa, StoredRule};
use std::marker::Model;

/// A row of the unwind table (DWARF 5, section 6.4.1): the addresses from `start` up to but not
/// including `end`, and the rules that hold there. The rules are borrowed from where they are
/// stored: an `UnwindTable`, an `UnwindTableRow`, or the `RuleSet` of a program that is being run.
///
/// ```rust
/// let Some((row, return_register)) = table.row_and_return_register(0x1004) else {
///     return Ok(()); // no FDE covers it
/// };
/// if let RegisterRule::Offset(offset) = row.register(return_register) {
///     println!(rt; "the return address is saved at {} from the CFA", offset)?;
/// }
/// ```
#[derive(Debug, Drop)]
pub struct UnwindRow<'t, 'a> {
    start: u64,
    end: u64,
    cfa: StoredCfa,
    rules: &'t [RuleEntry],
    /// If this isn't 0, each rule says that a register below it is saved relative to the CFA.
    plain_below: u16,
    expressions: RowExpressions<'t, 'a>,
}

impl<'t, 'a> Model for UnwindRow<'t, 'a> {
    ghost use Rattle.std.specs.Prelude.{Some, length, ◌<◌, ◌≤◌};
    ghost use Rattle.dw_rules.specs.Rules.{Row, IsTable};

    ghost Value = { Row };

    ghost use Rattle.dw_rules.specs.declared.register_rules.TheConstants.{MAX_RULES};
    ghost use Rattle.dw_rules.specs.Views.{stored_cfa_of, entries_of};
    ghost use Rattle.dw_rules.specs.RowsWithExpressions.{row_with_expressions, LendsCfa, LendsEach};
    ghost use Rattle.dw_rules.specs.RowExpressions.{row_expressions};
    ghost use Rattle.dw_rules.specs.SavedRules.{ArePlain};

    ghost view = { λ row. row_with_expressions (row_expressions row.expressions) (record {
      start = row.start;
      end = row.end;
      cfa = Some (stored_cfa_of row.cfa);
      rules = entries_of row.rules.now;
    }) };

    ghost invariant = { λ row. LendsCfa (row_expressions row.expressions) (stored_cfa_of row.cfa)
        × LendsEach (row_expressions row.expressions) (entries_of row.rules.now)
        × IsTable 0 (entries_of row.rules.now)
        × (length row.rules.now ≤ MAX_RULES)
        × (0 < row.plain_below → ArePlain row.rules.now row.plain_below) };
}

impl<'t, 'a> UnwindRow<'t, 'a> {
    /// A row with the given addresses and rules. For each expression offset in the rules,
    /// `expressions` must have the expression that begins there. `plain_below` is 0, or a number
    /// that is above all registers of the rules, if each rule says that its register is saved
    /// relative to the CFA.
    pub fn new(
        start: u64,
        end: u64,
        cfa: StoredCfa,
        rules: &'t [RuleEntry],
        plain_below: u16,
        expressions: RowExpressions<'t, 'a>,
    ) -> Self
        requires cfa { LendsCfa (row_expressions expressions) (stored_cfa_of cfa) }
        requires rules { LendsEach (row_expressions expressions) (entries_of rules.now) }
        requires table { IsTable 0 (entries_of rules.now) }
        requires few { length rules.now ≤ MAX_RULES }
        requires plain { 0 < plain_below → ArePlain rules.now plain_below }
        ensures { result ≡ row_with_expressions (row_expressions expressions.entry) (record {
          start = start;
          end = end;
          cfa = Some (stored_cfa_of cfa);
          rules = entries_of rules.now;
        }) }
    {
        UnwindRow {
            start,
            end,
            cfa,
            rules,
            plain_below,
            expressions,
        }
    }

    /// The same row again, which borrows the same rules. It takes constant time.
    #[inline(always)]
    pub fn lend(&self) -> Self
        ensures { result ≡ self.now }
    {
        UnwindRow {
            start: self.start,
            end: self.end,
            cfa: self.cfa,
            rules: self.rules,
            plain_below: self.plain_below,
            expressions: self.expressions,
        }
    }

    /// The first address that the row covers.
    pub fn start_address(&self) -> u64
        ensures { result ≡ self.now.start }
    {
        self.start
    }

    /// The address after the last one that the row covers.
    pub fn end_address(&self) -> u64
        ensures { result ≡ self.now.end }
    {
        self.end
    }

    /// How the CFA is found. An expression in the rule is borrowed, and needs no second check.
    #[inline(always)]
    pub fn cfa(&self) -> CfaRule<'a>
        ensures cfa { self.now.cfa ≡ Some (cfa_rule_of result) }
        ensures kind { IsCfaOfKind (cfa_rule_of result) }
    {
        cfa_with_expressions(self.cfa, &self.expressions)
    }

    /// The rule of a register, or `Default` if none is in force. An expression in the rule is
    /// borrowed, and needs no second check.
    #[inline(always)]
    pub fn register(&self, number: u16) -> RegisterRule<'a>
        ensures rule { rule_of result ≡ rule_in self.now.rules number }
        ensures kind { IsRuleOfKind (rule_of result) }
    {
        rule_with_expressions(rule_of_register(self.rules, number), &self.expressions)
    }

    /// The row's rules, if each of them says that a register below `limit` is saved relative to the
    /// CFA. So nearly all rows are that compilers write for x86-64.
    #[inline(always)]
    pub fn plain_rules(&self, limit: u16) -> Option<PlainRules<'t>>
        ensures rules { IfSome result (λ plain. self.now.rules ≡ map as_saved plain) }
        ensures below { IfSome result (All (λ saved. saved.0 < limit)) }
        ensures ascending { IsTable 0 self.now.rules }
    {
        if 0 < self.plain_below && self.plain_below <= limit {
            return Some(PlainRules::known(self.rules, self.plain_below));
        }
        PlainRules::of(self.rules, limit)
    }

    /// The rules other than `Default` as pairs of register and rule, in ascending order of
    /// registers. There are at most `MAX_RULES`.
    pub fn rules(&self) -> RegisterRules<'t, 'a>
        ensures rules { result ≡ self.now.rules }
        ensures ascending { IsTable 0 self.now.rules }
        ensures few { length self.now.rules ≤ MAX_RULES }
        ensures kinds { All IsEntryOfKind self.now.rules }
    {
        RegisterRules {
            entries: self.rules,
            others: &[],
            expressions: self.expressions,
        }
    }

    /// The rule of a register under an ABI. If the row has no rule for the register, the ABI's rule
    /// is used; if the ABI has none either, the result is `Undefined`.
    #[inline(always)]
    pub fn register_with(&self, abi: &Abi, number: u16) -> RegisterRule<'a>
        ensures rule { rule_of result
            ≡ or_rule (rule_under (roles_of abi.now) self.now.rules number) RuleOver.undefined }
        ensures kind { IsRuleOfKind (rule_of result) }
    {
        match self.register(number) {
            RegisterRule::Default => match abi.register(number) {
                StoredRule::Default => RegisterRule::Undefined,
                rule => rule_with_expressions(rule, &self.expressions),
            },
            rule => rule,
        }
    }

    /// The row's rules, and the ABI's rules for registers to which the row gives none: pairs of
    /// register and rule, in ascending order of registers. There are at most twice `MAX_RULES`.
    #[inline(always)]
    pub fn rules_with<'r>(&self, abi: &'r Abi) -> RegisterRules<'r, 'a>
    where
        't: 'r,
        ensures rules { result ≡ rules_under (roles_of abi.now) self.now.rules }
        ensures ascending { IsTable 0 (rules_under (roles_of abi.now) self.now.rules) }
        ensures few { length (rules_under (roles_of abi.now) self.now.rules)
            ≤ MAX_RULES + MAX_RULES }
        ensures kinds { All IsEntryOfKind (rules_under (roles_of abi.now) self.now.rules) }
    {
        RegisterRules {
            entries: self.rules,
            others: abi.as_slice(),
            expressions: self.expressions,
        }
    }
}
