//! A row of the unwind table, and the rules of its CFA and its registers.

ghost use Rattle.std.specs.Prelude.{◌≡◌, ◌≤◌, ◌+◌, Some, All, [], length, pos, MatchOption};
ghost use Rattle.dw_rules.specs.Abi.{or_rule, rule_under, rules_under};
ghost use Rattle.dw_rules.specs.AbiViews.{roles_of};
ghost use Rattle.dw_rules.specs.FirstEntry.{rules_of_either, IsLowest};
ghost use Rattle.dw_rules.specs.Rules.{CfaOver, IsTable, RuleOver, rule_in};
ghost use Rattle.dw_rules.specs.Views.{rule_of, cfa_rule_of, entry_of, entries_of, stored_rule_of, stored_cfa_of};
ghost use Rattle.dw_rules.specs.Expressions.{expression_at};
ghost use Rattle.dw_rules.specs.RowsWithExpressions.{row_with_expressions, rule_with_expressions, cfa_with_expressions, located_at, LendsRule, LendsCfa, LendsEach, IsRuleOfKind};
ghost use Rattle.dw_rules.specs.RowsWithExpressions.{IsCfaOfKind, IsEntryOfKind};
ghost use Rattle.dw_rules.specs.RowExpressions.{row_expressions};
ghost use Rattle.dw_stack.specs.Located.{LocatedExpression, located_of};

use crate::abi::Abi;
use crate::register_rules::{MAX_RULES, RegisterRuleMap, RuleEntry, rule_of_entry};
use crate::row_expressions::RowExpressions;
use crate::stored_rule::{StoredCfa, StoredRule};
use crate::unwind_row::UnwindRow;
use dw_stack::CheckedExpression;
use std::cmp::Ordering;
use std::iter::FusedIterator;
use std::marker::Model;

/// How to find the caller's value of a register (DWARF 5, section 6.4.1). Offsets count from the
/// CFA.
#[derive(Clone, Copy, Debug)]
pub enum RegisterRule<'a> {
    /// No rule is in force. Either no instruction has set one, or a DW_CFA_restore or a
    /// DW_CFA_restore_state has gone back to a point where the register had none. The register is
    /// undefined unless an ABI says otherwise.
    Default,
    /// The caller's value can't be recovered.
    Undefined,
    /// The register still has the caller's value.
    SameValue,
    /// The caller's value is saved in memory, at the CFA plus this offset.
    Offset(i64),
    /// The caller's value is the CFA plus this offset.
    ValOffset(i64),
    /// The caller's value is in the register with this number.
    Register(u16),
    /// The caller's value is saved in memory, at the address that the expression evaluates to.
    /// Evaluation starts with the CFA on the stack.
    Expression {
        /// The offset of the expression's first byte in the section.
        offset: u32,
        /// The checked expression. Its kind is `dw_stack::Kind::FrameRegister`.
        expression: CheckedExpression<'a>,
    },
    /// The caller's value is what the expression evaluates to. Evaluation starts with the CFA on
    /// the stack.
    ValExpression {
        /// The offset of the expression's first byte in the section.
        offset: u32,
        /// The checked expression. Its kind is `dw_stack::Kind::FrameRegister`.
        expression: CheckedExpression<'a>,
    },
}

/// How the CFA is found (DWARF 5, section 6.4.1).
#[derive(Clone, Copy, Debug)]
pub enum CfaRule<'a> {
    /// The CFA is the value of `register` plus `offset`.
    RegisterAndOffset {
        register: u16,
        offset: i64,
    },
    /// The CFA is what the expression evaluates to. Evaluation starts with an empty stack.
    Expression {
        /// The offset of the expression's first byte in the section.
        offset: u32,
        /// The checked expression. Its kind is `dw_stack::Kind::FrameCfa`.
        expression: CheckedExpression<'a>,
    },
}

/// Turns a stored register rule into a public one: an expression's offset is replaced by the
/// expression itself.
#[inline(always)]
pub fn rule_with_expressions<'a>(
    rule: StoredRule,
    expressions: &RowExpressions<'_, 'a>,
) -> RegisterRule<'a>
    requires { LendsRule (row_expressions expressions.now) (stored_rule_of rule) }
    ensures { rule_of result ≡ rule_with_expressions (row_expressions expressions.now) (stored_rule_of rule) }
{
    match rule {
        StoredRule::Default => RegisterRule::Default,
        StoredRule::Undefined => RegisterRule::Undefined,
        StoredRule::SameValue => RegisterRule::SameValue,
        StoredRule::Offset(offset) => RegisterRule::Offset(offset),
        StoredRule::ValOffset(offset) => RegisterRule::ValOffset(offset),
        StoredRule::Register(register) => RegisterRule::Register(register),
        StoredRule::Expression(offset) => RegisterRule::Expression {
            offset,
            expression: given_expression(offset, *expressions),
        },
        StoredRule::ValExpression(offset) => RegisterRule::ValExpression {
            offset,
            expression: given_expression(offset, *expressions),
        },
    }
}

/// Turns a stored CFA rule into a public one: an expression's offset is replaced by the expression
/// itself.
#[inline(always)]
pub fn cfa_with_expressions<'a>(cfa: StoredCfa, expressions: &RowExpressions<'_, 'a>) -> CfaRule<'a>
    requires { LendsCfa (row_expressions expressions.now) (stored_cfa_of cfa) }
    ensures { cfa_rule_of result ≡ cfa_with_expressions (row_expressions expressions.now) (stored_cfa_of cfa) }
{
    match cfa {
        StoredCfa::RegisterAndOffset { register, offset } => {
            CfaRule::RegisterAndOffset { register, offset }
        }
        StoredCfa::Expression(offset) => CfaRule::Expression {
            offset,
            expression: given_expression(offset, *expressions),
        },
    }
}

/// Finds the expression that begins at `offset`, by binary search. There must be one. `expressions`
/// is passed by value: if its address were passed, a row would have to be in memory, and reading
/// the row there would wait for it to be written.
#[inline(never)]
fn given_expression<'a>(offset: u32, expressions: RowExpressions<'_, 'a>) -> CheckedExpression<'a>
    requires { (e : LocatedExpression) × (expression_at (row_expressions expressions) offset ≡ Some e) }
    ensures { located_of (offset, result) ≡ located_at (row_expressions expressions.entry) offset }
{
    match expressions.at(offset) {
        Some(expression) => expression,
        None => unreachable!(),
    }
}

/// A row of the unwind table: the addresses from `start` up to but not including `end`, and the
/// rules that hold there. `'f` is the lifetime of the borrow of the checked section, and `'a` is
/// the lifetime of the section's bytes. The expressions in the row's rules live for `'a`.
#[derive(Debug, Drop)]
pub struct UnwindTableRow<'f, 'a> {
    start: u64,
    end: u64,
    cfa: StoredCfa,
    rules: RegisterRuleMap,
    expressions: RowExpressions<'f, 'a>,
}

impl<'f, 'a> Model for UnwindTableRow<'f, 'a> {
    ghost use Rattle.std.specs.Prelude.{Some};
    ghost use Rattle.dw_rules.specs.Rules.{Row};

    ghost Value = { Row };

    ghost use Rattle.dw_rules.specs.Views.{stored_cfa_of};
    ghost use Rattle.dw_rules.specs.RowsWithExpressions.{row_with_expressions, LendsCfa, LendsEach};
    ghost use Rattle.dw_rules.specs.RowExpressions.{row_expressions};

    ghost view = { λ row. row_with_expressions (row_expressions row.expressions) (record {
      start = row.start;
      end = row.end;
      cfa = Some (stored_cfa_of row.cfa);
      rules = row.rules;
    }) };

    ghost invariant = { λ row. LendsCfa (row_expressions row.expressions) (stored_cfa_of row.cfa)
        × LendsEach (row_expressions row.expressions) row.rules };
}

impl<'f, 'a> UnwindTableRow<'f, 'a> {
    /// A row that covers no address. It serves as a buffer, which `Rows::next_into` overwrites with
    /// a row.
    #[inline(always)]
    pub fn empty() -> Self
        ensures { result ≡ record {
          start = 0;
          end = 0;
          cfa = Some (CfaOver.register_and_offset 0 (pos 0));
          rules = [];
        } }
    {
        UnwindTableRow {
            start: 0,
            end: 0,
            cfa: StoredCfa::RegisterAndOffset {
                register: 0,
                offset: 0,
            },
            rules: RegisterRuleMap::new(),
            expressions: RowExpressions::empty(),
        }
    }

    /// Overwrites the row with the given addresses and rules. For each expression offset in the
    /// rules, `expressions` must have the expression that begins there.
    pub fn set(
        &mut self,
        start: u64,
        end: u64,
        cfa: StoredCfa,
        rules: &RegisterRuleMap,
        expressions: RowExpressions<'f, 'a>,
    )
        requires cfa { LendsCfa (row_expressions expressions) (stored_cfa_of cfa) }
        requires rules { LendsEach (row_expressions expressions) rules.now }
        ensures { self.new ≡ row_with_expressions (row_expressions expressions.entry) (record {
          start = start;
          end = end;
          cfa = Some (stored_cfa_of cfa);
          rules = rules.now;
        }) }
    {
        self.start = start;
        self.end = end;
        self.cfa = cfa;
        self.rules.copy_from(rules);
        self.expressions = expressions;
    }

    /// The same row, borrowed.
    #[inline(always)]
    pub fn lend(&self) -> UnwindRow<'_, 'a>
        ensures { result ≡ self.now }
    {
        let row = self;
        UnwindRow::new(
            row.start,
            row.end,
            row.cfa,
            row.rules.as_slice(),
            0,
            row.expressions,
        )
    }

    /// The first address that the row covers.
    pub fn start_address(&self) -> u64
        ensures { result ≡ self.now.start }
    {
        self.start
    }

    /// The address after the last one that the row covers.
    pub fn end_address(&self) -> u64
        ensures { result ≡ self.now.end }
    {
        self.end
    }

    /// How the CFA is found. An expression in the rule is borrowed, and needs no second check.
    #[inline(always)]
    pub fn cfa(&self) -> CfaRule<'a>
        ensures cfa { self.now.cfa ≡ Some (cfa_rule_of result) }
        ensures kind { IsCfaOfKind (cfa_rule_of result) }
    {
        self.lend().cfa()
    }

    /// The rule of a register, or `Default` if none is in force. An expression in the rule is
    /// borrowed, and needs no second check.
    #[inline(always)]
    pub fn register(&self, number: u16) -> RegisterRule<'a>
        ensures rule { rule_of result ≡ rule_in self.now.rules number }
        ensures kind { IsRuleOfKind (rule_of result) }
    {
        self.lend().register(number)
    }

    /// The rules other than `Default` as pairs of register and rule, in ascending order of
    /// registers. There are at most `MAX_RULES`.
    pub fn rules(&self) -> RegisterRules<'_, 'a>
        ensures rules { result ≡ self.now.rules }
        ensures ascending { IsTable 0 self.now.rules }
        ensures few { length self.now.rules ≤ MAX_RULES }
        ensures kinds { All IsEntryOfKind self.now.rules }
    {
        self.lend().rules()
    }

    /// The rule of a register under an ABI. If the row has no rule for the register, the ABI's rule
    /// is used; if the ABI has none either, the result is `Undefined`.
    #[inline(always)]
    pub fn register_with(&self, abi: &Abi, number: u16) -> RegisterRule<'a>
        ensures rule { rule_of result
            ≡ or_rule (rule_under (roles_of abi.now) self.now.rules number) RuleOver.undefined }
        ensures kind { IsRuleOfKind (rule_of result) }
    {
        self.lend().register_with(abi, number)
    }

    /// The row's rules, and the ABI's rules for registers to which the row gives none: pairs of
    /// register and rule, in ascending order of registers. There are at most twice `MAX_RULES`.
    #[inline(always)]
    pub fn rules_with<'r>(&'r self, abi: &'r Abi) -> RegisterRules<'r, 'a>
        ensures rules { result ≡ rules_under (roles_of abi.now) self.now.rules }
        ensures ascending { IsTable 0 (rules_under (roles_of abi.now) self.now.rules) }
        ensures few { length (rules_under (roles_of abi.now) self.now.rules)
            ≤ MAX_RULES + MAX_RULES }
        ensures kinds { All IsEntryOfKind (rules_under (roles_of abi.now) self.now.rules) }
    {
        self.lend().rules_with(abi)
    }
}

/// An iterator over register rules, as pairs of register and rule in ascending order of registers.
/// An entry in `others` is used only if `entries` has none for the same register.
#[derive(Debug, Drop)]
pub struct RegisterRules<'f, 'a> {
    pub entries: &'f [RuleEntry],
    pub others: &'f [RuleEntry],
    pub expressions: RowExpressions<'f, 'a>,
}

impl<'f, 'a> Model for RegisterRules<'f, 'a> {
    ghost use Rattle.std.specs.Prelude.{ℕ, List};
    ghost use Rattle.dw_rules.specs.Rules.{Rule};

    ghost Value = { List (ℕ × Rule) };

    ghost use Rattle.dw_rules.specs.Views.{entries_of};
    ghost use Rattle.dw_rules.specs.RowsWithExpressions.{rules_with_expressions, LendsEach};
    ghost use Rattle.dw_rules.specs.RowExpressions.{row_expressions};
    ghost use Rattle.dw_rules.specs.FirstEntry.{rules_of_either};
    ghost use Rattle.dw_rules.specs.Rules.{IsTable};

    ghost view = { λ r. rules_with_expressions (row_expressions r.expressions)
        (rules_of_either (entries_of r.entries.now) (entries_of r.others.now)) };

    ghost invariant = { λ r. IsTable 0 (entries_of r.entries.now)
        × IsTable 0 (entries_of r.others.now)
        × LendsEach (row_expressions r.expressions) (entries_of r.entries.now)
        × LendsEach (row_expressions r.expressions) (entries_of r.others.now) };
}

/// Takes the entry with the lowest register out of the two tables. Returns that entry and the rest
/// of each table, or `None` if both tables are empty. If each table has an entry for that register,
/// the entry in `entries` is returned, and the entry in `others` is dropped.
#[inline(always)]
fn lowest<'f>(
    entries: &'f [RuleEntry],
    others: &'f [RuleEntry],
) -> Option<(RuleEntry, &'f [RuleEntry], &'f [RuleEntry])>
    requires entries { IsTable 0 (entries_of entries.now) }
    requires others { IsTable 0 (entries_of others.now) }
    ensures { MatchOption result
        (rules_of_either (entries_of entries.now) (entries_of others.now) ≡ [])
        (λ (entry, left, left_others). IsLowest (entries_of entries.now) (entries_of others.now)
        (entry_of entry) (entries_of left.now) (entries_of left_others.now)) }
{
    match entries {
        [] => match others {
            [] => None,
            [other, left @ ..] => Some((*other, entries, left)),
        },
        [entry, left @ ..] => match others {
            [] => Some((*entry, left, others)),
            [other, left_others @ ..] => Some(match entry.register.cmp(&other.register) {
                Ordering::Less => (*entry, left, others),
                Ordering::Equal => (*entry, left, left_others),
                Ordering::Greater => (*other, entries, left_others),
            }),
        },
    }
}

impl<'f, 'a> Iterator for RegisterRules<'f, 'a> {
    type Item = (u16, RegisterRule<'a>);

    ghost use Rattle.std.specs.Iterator.{YieldsFirstBy, item_count};
    ghost use Rattle.dw_rules.specs.Views.{numbered_rule_of};

    ghost next_gives = { YieldsFirstBy numbered_rule_of (λ r. r) };

    ghost remaining = { item_count (λ r. r) };

    #[inline(always)]
    fn next(&mut self) -> Option<(u16, RegisterRule<'a>)> {
        let (entry, entries, others) = lowest(self.entries, self.others)?;
        self.entries = entries;
        self.others = others;
        let rule = rule_with_expressions(rule_of_entry(&entry), &self.expressions);
        Some((entry.register, rule))
    }
}

impl<'f, 'a> FusedIterator for RegisterRules<'f, 'a> {}
