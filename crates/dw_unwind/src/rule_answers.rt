//! The answers that CFA rules and register rules give for a frame's registers and memory.

ghost use Rattle.std.specs.Prelude.{◌≡◌, ◌≢◌, ◌≤◌, ℕ, All, Some, length};
ghost use Rattle.dw_rules.specs.Views.{cfa_rule_of, rule_of};
ghost use Rattle.dw_rules.specs.RowsWithExpressions.{IsCfaOfKind, IsEntryOfKind, IsRuleOfKind};
ghost use Rattle.dw_stack.specs.Certificates.{checked_of};
ghost use Rattle.dw_stack.specs.Located.{located_of};
ghost use Rattle.dw_stack.specs.declared.state.Kind.TheVariants.{Location};
ghost use Rattle.dw_unwind.specs.Caller.{Gives, IsCfa, IsRegister, AreRegisters, number_plus, content_plus, content, word};
ghost use Rattle.dw_unwind.specs.CallerViews.{answer_in, machine_in, with_optional_cfa};

use crate::register_list::RegisterList;
use crate::unwinding::{Answer, MAX_FOUND};
use dw_bytes::Target;
use dw_eval::{Context, Memory, Registers, RuleOutcome, Width, evaluate_rule};
use dw_rows::{CfaRule, RegisterRule};
use dw_rules::RegisterRules;
use dw_stack::CheckedExpression;

/// The registers and the memory of a frame, with the target of its section.
#[derive(Drop)]
pub(crate) struct Present<'m, R: Registers, M: Memory> {
    pub target: Target,
    pub registers: &'m R,
    pub memory: &'m M,
}

impl<'m, R: Registers, M: Memory> Present<'m, R, M> {
    /// `number` plus `offset`, modulo 2^w, w being the size of an address in bits.
    #[inline(always)]
    pub fn number_plus(&self, number: u64, offset: i64) -> u64
        ensures { result ≡ number_plus (machine_in R.contents M.bytes self.now) offset number }
    {
        let width = Width {
            size: self.target.address_size,
        };
        width.offset(number, offset)
    }

    /// `content` plus `offset`, modulo 2^w, w being the size of an address in bits. Unreadable if
    /// there is no content.
    #[inline(always)]
    fn content_plus(&self, content: Option<u64>, offset: i64) -> Answer
        ensures { answer_in result
            ≡ content_plus (machine_in R.contents M.bytes self.now) offset content }
    {
        match content {
            Some(number) => Answer::Value(self.number_plus(number, offset)),
            None => Answer::Unreadable,
        }
    }

    /// The content of the register `number`, modulo 2^w, w being the size of an address in bits.
    /// Unreadable if the content isn't known.
    #[inline(always)]
    pub fn content(&self, number: u16) -> Answer
        ensures { answer_in result ≡ content (machine_in R.contents M.bytes self.now) number }
    {
        self.content_plus(self.registers.register(number), 0)
    }

    /// The address-sized word at `address`. Unreadable if one of its bytes isn't known or lies past
    /// the greatest address.
    #[inline(always)]
    pub fn word(&self, address: u64) -> Answer
        ensures { answer_in result ≡ word (machine_in R.contents M.bytes self.now) address }
    {
        let size = self.target.address_size.bytes();
        if address > self.target.address_size.max_address() - u64::from(size - 1) {
            return Answer::Unreadable;
        }
        self.content_plus(self.memory.read(address, size, self.target.order), 0)
    }

    /// The result of a CFA's or a register's expression. For a register's expression, `cfa` is the
    /// CFA, which is on the stack at the start; for a CFA's expression, it is none. This function
    /// isn't inlined: few rules have an expression, and inlining it would slow down the other
    /// rules.
    #[inline(never)]
    fn outcome(&self, expression: &CheckedExpression<'_>, cfa: Option<u64>) -> Answer
        requires { (checked_of expression.now).kind ≢ Location }
        ensures { (at : ℕ) → Gives (with_optional_cfa (machine_in R.contents M.bytes self.now) cfa)
            (checked_of expression.now).kind (located_of (at, expression.now))
            (answer_in result) }
    {
        let context = Context {
            cfa,
            frame_base: None,
            object: None,
        };
        match evaluate_rule(expression, &context, self.registers, self.memory).outcome {
            RuleOutcome::Value(value) => Answer::Value(value),
            RuleOutcome::Unreadable { .. } => Answer::Unreadable,
            RuleOutcome::DivisionByZero { .. } => Answer::DivisionByZero,
        }
    }

    /// The CFA, computed by its rule.
    #[inline(always)]
    pub fn cfa(&self, rule: CfaRule<'_>) -> Answer
        requires { IsCfaOfKind (cfa_rule_of rule) }
        ensures { IsCfa (machine_in R.contents M.bytes self.now) (Some (cfa_rule_of rule.entry))
            (answer_in result) }
    {
        match rule {
            CfaRule::RegisterAndOffset { register, offset } => {
                self.content_plus(self.registers.register(register), offset)
            }
            CfaRule::Expression { expression, .. } => self.outcome(&expression, None),
        }
    }

    /// What the rule gives for the caller's register `number`, where `cfa` is the answer for the
    /// CFA.
    #[inline(always)]
    pub fn register(&self, cfa: Answer, number: u16, rule: RegisterRule<'_>) -> Answer
        requires { IsRuleOfKind (rule_of rule) }
        ensures { IsRegister (machine_in R.contents M.bytes self.now) (answer_in cfa) number
            (rule_of rule.entry) (answer_in result) }
    {
        match rule {
            RegisterRule::Default => Answer::Undefined,
            RegisterRule::Undefined => Answer::Undefined,
            RegisterRule::SameValue => self.content(number),
            RegisterRule::Offset(offset) => match cfa {
                Answer::Value(cfa) => self.word(self.number_plus(cfa, offset)),
                other => other,
            },
            RegisterRule::ValOffset(offset) => match cfa {
                Answer::Value(cfa) => Answer::Value(self.number_plus(cfa, offset)),
                other => other,
            },
            RegisterRule::Register(other) => self.content(other),
            RegisterRule::Expression { expression, .. } => match cfa {
                Answer::Value(cfa) => match self.outcome(&expression, Some(cfa)) {
                    Answer::Value(address) => self.word(address),
                    other => other,
                },
                other => other,
            },
            RegisterRule::ValExpression { expression, .. } => match cfa {
                Answer::Value(cfa) => self.outcome(&expression, Some(cfa)),
                other => other,
            },
        }
    }

    /// Replaces the contents of the list `registers` by the registers in `rules`, each with its
    /// answer, in the order of the rules.
    #[inline(always)]
    pub fn registers_into<L: RegisterList>(
        &self,
        cfa: Answer,
        rules: RegisterRules<'_, '_>,
        registers: &mut L,
    )
        requires few { length rules ≤ MAX_FOUND }
        requires kinds { All IsEntryOfKind rules }
        ensures { AreRegisters (machine_in R.contents M.bytes self.now) (answer_in cfa) rules.entry
            (L.registers registers.new) }
    {
        registers.clear();
        for (number, rule) in rules {
            registers.push(number, self.register(cfa, number, rule));
        }
    }
}
