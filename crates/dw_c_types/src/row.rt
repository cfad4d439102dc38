//! C's structs for a row and for the rule of a register, and the conversions to them.

ghost use Rattle.std.specs.Prelude.{◌≡◌, ◌≤◌, length, map, pos};
ghost use Rattle.std.specs.Bool.{OnFalse, OnTrue};
ghost use Rattle.dw_rules.specs.SavedRules.{as_saved};
ghost use Rattle.dw_rules.specs.Views.{rule_of, cfa_rule_of};
ghost use Rattle.dw_stack.specs.Certificates.{checked_of};
ghost use Rattle.dw_c_types.specs.Rows.{crule_of, cfa_coded, coded, IsRowOf};
ghost use Rattle.dw_c_types.specs.Slots.{put_into};

use crate::slots::put;
use dw_process::FoundRow;
use dw_rows::{CfaRule, RegisterRule};
use dw_rules::{MAX_RULES, PlainRules, RegisterRules, UnwindRow};
use dw_stack::CheckedExpression;

/// The rule of `register`. `kind` says which rule it is. 1: undefined. 2: same value. 3: saved at
/// the CFA plus `offset`. 4: the CFA plus `offset`. 5: in register `source`. 6: saved at the
/// address that an expression gives. 7: the value that an expression gives. With 6 and 7, the
/// expression begins at `offset` in the section and has `length` bytes.
#[repr(C)]
#[derive(Clone, Copy, Debug)]
pub struct CRule {
    pub offset: i64,
    pub length: u64,
    pub register: u16,
    pub source: u16,
    pub kind: u32,
}

/// A row. If `cfa.kind` is 4, the CFA is the content of register `cfa.register` plus `cfa.offset`.
/// If it is 7, the CFA is the value that an expression gives. There are no other kinds.
#[repr(C)]
#[derive(Clone, Copy, Debug)]
pub struct CRow {
    /// The id of the module.
    pub id: u64,
    /// The number that C gave to the module.
    pub cookie: u64,
    /// The load address of the module.
    pub load_address: u64,
    /// The row covers the addresses from `start` up to, not including, `end`. Both are addresses as
    /// linked, to which the load address isn't added yet.
    pub start: u64,
    pub end: u64,
    pub cfa: CRule,
    /// The number of the return address register, which the CIE gives.
    pub return_register: u32,
    /// The number of registers that have a rule.
    pub count: u32,
}

fn length(expression: &CheckedExpression<'_>) -> u64
    ensures { result ≡ length (checked_of expression.now).bytes }
{
    expression.expression().bytes().len() as u64
}

fn without_expression(register: u16, kind: u32, offset: i64, source: u16) -> CRule
    ensures { result ≡ record {
      offset = offset;
      length = 0;
      register = register;
      source = source;
      kind = kind;
    } }
{
    CRule {
        offset,
        length: 0,
        register,
        source,
        kind,
    }
}

fn with_expression(register: u16, kind: u32, at: u32, e: &CheckedExpression<'_>) -> CRule
    ensures { result ≡ record {
      offset = pos at;
      length = length (checked_of e.now).bytes;
      register = register;
      source = 0;
      kind = kind;
    } }
{
    CRule {
        offset: i64::from(at),
        length: length(e),
        register,
        source: 0,
        kind,
    }
}

/// Converts the rule of `register` to C's struct.
fn c_rule_of(register: u16, rule: RegisterRule<'_>) -> CRule
    ensures { result ≡ coded register (rule_of rule.entry) }
{
    match rule {
        RegisterRule::Default => without_expression(register, 0, 0, 0),
        RegisterRule::Undefined => without_expression(register, 1, 0, 0),
        RegisterRule::SameValue => without_expression(register, 2, 0, 0),
        RegisterRule::Offset(offset) => without_expression(register, 3, offset, 0),
        RegisterRule::ValOffset(offset) => without_expression(register, 4, offset, 0),
        RegisterRule::Register(source) => without_expression(register, 5, 0, source),
        RegisterRule::Expression { offset, expression } => {
            with_expression(register, 6, offset, &expression)
        }
        RegisterRule::ValExpression { offset, expression } => {
            with_expression(register, 7, offset, &expression)
        }
    }
}

/// Converts the CFA's rule to C's struct.
#[inline(always)]
fn c_cfa_of(rule: CfaRule<'_>) -> CRule
    ensures { result ≡ cfa_coded (cfa_rule_of rule.entry) }
{
    match rule {
        CfaRule::RegisterAndOffset { register, offset } => {
            without_expression(register, 4, offset, 0)
        }
        CfaRule::Expression { offset, expression } => with_expression(0, 7, offset, &expression),
    }
}

/// Writes rules to `slots`, as many as fit. Returns the number of rules, which is greater than the
/// number written if some don't fit.
fn write_rules(rules: RegisterRules<'_, '_>, slots: &mut [CRule]) -> u32
    requires { length rules ≤ MAX_RULES }
    ensures written { slots.new ≡ put_into (map crule_of rules.entry) slots.old }
    ensures count { result ≡ length rules.entry }
{
    let mut count: u32 = 0;
    for (register, rule) in rules {
        put(slots, count as usize, c_rule_of(register, rule));
        count += 1;
    }
    count
}

/// The rule of a register that is saved at the CFA plus `offset`.
fn saved_rule(register: u16, offset: i64) -> CRule
    ensures { result ≡ crule_of (as_saved (register, offset)) }
{
    without_expression(register, 3, offset, 0)
}

/// Writes rules that only say where registers are saved to `slots`, as many as fit. Returns the
/// number of rules, as `write_rules` does. Nearly all rows that compilers write for x86-64 have
/// only such rules, and none of them has to be matched.
fn write_saved(rules: PlainRules<'_>, slots: &mut [CRule]) -> u32
    requires { length rules ≤ MAX_RULES }
    ensures written { slots.new ≡ put_into (map crule_of (map as_saved rules.entry)) slots.old }
    ensures count { result ≡ length rules.entry }
{
    let mut count: u32 = 0;
    for (register, offset) in rules {
        put(slots, count as usize, saved_rule(register, offset));
        count += 1;
    }
    count
}

/// What `write_saved` does, if there is room for all rules. So no rule needs a check of its own.
#[inline(always)]
fn write_fitting(rules: PlainRules<'_>, slots: &mut [CRule]) -> u32
    requires few { length rules ≤ MAX_RULES }
    requires room { MAX_RULES ≤ length slots.old }
    ensures written { slots.new ≡ put_into (map crule_of (map as_saved rules.entry)) slots.old }
    ensures count { result ≡ length rules.entry }
{
    let mut count: usize = 0;
    for (register, offset) in rules {
        slots[count] = saved_rule(register, offset);
        count += 1;
    }
    count as u32
}

/// What `write_saved` does, in less time if there is room for as many rules as a row may have.
#[inline(always)]
fn write_plain(rules: PlainRules<'_>, slots: &mut [CRule]) -> u32
    requires { length rules ≤ MAX_RULES }
    ensures written { slots.new ≡ put_into (map crule_of (map as_saved rules.entry)) slots.old }
    ensures count { result ≡ length rules.entry }
{
    if slots.len() < MAX_RULES {
        return write_saved(rules, slots);
    }
    write_fitting(rules, slots)
}

/// Writes the rules of a row to `slots`, as many as fit. Returns the number of rules.
#[inline(always)]
fn write_rules_of(row: &UnwindRow<'_, '_>, slots: &mut [CRule]) -> u32
    ensures written { slots.new ≡ put_into (map crule_of row.now.rules) slots.old }
    ensures count { result ≡ length row.now.rules }
    ensures few { result ≤ MAX_RULES }
{
    let rules = row.rules();
    match row.plain_rules(u16::MAX) {
        Some(plain) => write_plain(plain, slots),
        None => write_rules(rules, slots),
    }
}

/// C's struct for a row whose CFA has the rule `cfa`, with the number of its rules.
#[inline(always)]
fn c_row_of(found: &FoundRow<'_>, cfa: CRule, count: u32) -> CRow
    ensures { result ≡ record {
      id = found.now.id;
      cookie = found.now.cookie;
      load_address = found.now.load_address;
      start = found.now.row.start;
      end = found.now.row.end;
      cfa = cfa;
      return_register = found.now.return_register;
      count = count;
    } }
{
    CRow {
        id: found.id,
        cookie: found.cookie,
        load_address: found.load_address,
        start: found.row.start_address(),
        end: found.row.end_address(),
        cfa,
        return_register: u32::from(found.return_register),
        count,
    }
}

/// Writes a row to `row`, and its rules to `rules`, as many as fit.
#[inline(always)]
pub fn write_row(found: &FoundRow<'_>, row: &mut CRow, rules: &mut [CRule])
    ensures row { IsRowOf found.now row.new rules.old rules.new }
    ensures few { row.new.count ≤ MAX_RULES }
{
    let count = write_rules_of(&found.row, rules);
    *row = c_row_of(found, c_cfa_of(found.row.cfa()), count);
}

/// A law: a row has few rules.
#[inline(always)]
fn rules_are_few(row: &UnwindRow<'_, '_>)
    ensures { length row.now.rules ≤ MAX_RULES }
{
    let _ = row.rules();
}

/// What `write_row` does, for nearly all rows that compilers write for x86-64: the CFA is a
/// register plus an offset, and each rule says that a register is saved relative to the CFA.
/// Otherwise returns false, and writes nothing. The row is written before its rules, so that none
/// of it has to stay in registers meanwhile.
#[inline(always)]
pub fn write_usual_row(found: &FoundRow<'_>, row: &mut CRow, rules: &mut [CRule]) -> bool
    ensures row { OnTrue result (IsRowOf found.now row.new rules.old rules.new) }
    ensures few { OnTrue result (row.new.count ≤ MAX_RULES) }
    ensures unwritten { OnFalse result ((row.new ≡ row.old) × (rules.new ≡ rules.old)) }
{
    let CfaRule::RegisterAndOffset { register, offset } = found.row.cfa() else {
        return false;
    };
    let Some(plain) = found.row.plain_rules(u16::MAX) else {
        return false;
    };
    rules_are_few(&found.row);
    *row = c_row_of(found, without_expression(register, 4, offset, 0), 0);
    row.count = write_plain(plain, rules);
    true
}
