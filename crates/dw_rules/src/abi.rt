//! What an ABI says about registers that have no rule in a row.

ghost use Rattle.std.specs.Prelude.{◌≡◌, ◌≢◌, ◌<◌, ◌+◌, ◌≤◌, ℕ, None, Some, length, MatchResult};
ghost use Rattle.std.specs.Bool.{OnTrue, OnFalse};
ghost use Rattle.dw_rules.specs.Abi.{abi_of, no_abi, abi_fault, rule_of_role};
ghost use Rattle.dw_rules.specs.AbiViews.{roles_of};
ghost use Rattle.dw_rules.specs.Rules.{RuleOver, IsTable, rule_in, rule_list, changed_at};
ghost use Rattle.dw_rules.specs.Views.{stored_rule_of, entries_of};

use crate::register_rules::{MAX_RULES, RegisterRuleMap, RuleEntry};
use crate::stored_rule::StoredRule;
use dw_bytes::{Fault, FaultKind};
use std::marker::Model;

/// An `Abi` can name at most this many callee-saved registers. This is one less than `MAX_RULES`,
/// so that the stack pointer's rule fits into the same table.
pub const MAX_KEPT: usize = MAX_RULES - 1;

/// What an ABI says about registers without a rule: which registers are callee-saved (a call
/// preserves their values), and which register is the stack pointer. DWARF 5, section 6.4.1, leaves
/// this to the ABI.
///
/// ```rust
/// // The ABI of x86-64: calls keep rbx, rbp and r12 to r15, and register 7 is the stack pointer.
/// let abi = Abi::new(&[3, 6, 12, 13, 14, 15], Some(7))?;
/// ```
#[derive(Debug, Drop)]
pub struct Abi {
    rules: RegisterRuleMap,
}

impl Model for Abi {
    ghost use Rattle.std.specs.Prelude.{ℕ, List};
    ghost use Rattle.dw_rules.specs.AbiViews.{AreRoles};
    ghost use Rattle.dw_rules.specs.Rules.{PlacedRule};

    ghost Value = { List (ℕ × PlacedRule) };

    ghost view = { λ abi. abi.rules };

    ghost invariant = { λ abi. AreRoles abi.rules };
}

/// Gives a register the rule `rule` and returns `true`. If the register has a rule already, nothing
/// changes, and the result is `false`.
fn add_abi_rule(rules: &mut RegisterRuleMap, number: u16, rule: StoredRule) -> bool
    requires table { IsTable 0 rules.old }
    requires room { length rules.old < MAX_RULES }
    requires rule { stored_rule_of rule ≢ RuleOver.default }
    ensures added { OnTrue result ((rule_in rules.old number ≡ RuleOver.default)
        × (rules.new ≡ rule_list (changed_at (rule_in rules.old) number (stored_rule_of rule)))
        × (length rules.new ≤ length rules.old + 1)) }
    ensures twice { OnFalse result (rule_in rules.old number ≢ RuleOver.default) }
{
    match rules.register(number) {
        StoredRule::Default => match rules.set(number, rule) {
            Ok(()) => true,
            Err(_) => unreachable!(),
        },
        _ => false,
    }
}

impl Abi {
    /// An ABI that says nothing: every register without a rule in a row is undefined.
    pub fn none() -> Abi
        ensures { roles_of result ≡ no_abi }
    {
        Abi {
            rules: RegisterRuleMap::new(),
        }
    }

    /// An ABI with the callee-saved registers `kept` and the stack pointer `stack_pointer`. The
    /// caller's value of the stack pointer is the CFA. More than `MAX_KEPT` registers in `kept` are
    /// refused with `AbiTooLarge` at index `MAX_KEPT`. Otherwise a number that occurs twice is
    /// refused with `AbiTwice` at the index of its second occurrence; for the stack pointer that is
    /// the length of `kept`.
    pub fn new(kept: &[u16], stack_pointer: Option<u16>) -> Result<Abi, Fault>
        ensures { MatchResult result
            (λ abi. (abi_fault kept.now stack_pointer ≡ None)
            × (roles_of abi ≡ abi_of kept.now stack_pointer))
            (λ fault. abi_fault kept.now stack_pointer ≡ Some fault) }
    {
        if kept.len() > MAX_KEPT {
            return Err(Fault {
                kind: FaultKind::AbiTooLarge,
                at: MAX_KEPT as u32,
            });
        }
        let mut rules = RegisterRuleMap::new();
        for (place, number) in kept.iter().enumerate() {
            if !add_abi_rule(&mut rules, *number, StoredRule::SameValue) {
                return Err(abi_twice_at(place));
            }
        }
        let Some(number) = stack_pointer else {
            return Ok(Abi { rules });
        };
        if !add_abi_rule(&mut rules, number, StoredRule::ValOffset(0)) {
            return Err(abi_twice_at(kept.len()));
        }
        Ok(Abi { rules })
    }

    /// The rule that the ABI gives a register, or `Default` if the ABI doesn't name the register.
    pub fn register(&self, number: u16) -> StoredRule
        ensures { stored_rule_of result ≡ rule_of_role (roles_of self.now number) }
    {
        self.rules.register(number)
    }

    /// The ABI's rules, in ascending order of registers.
    pub fn as_slice(&self) -> &[RuleEntry]
        ensures rules { (r : ℕ) → rule_in (entries_of result.now) r
            ≡ rule_of_role (roles_of self.now r) }
        ensures table { IsTable 0 (entries_of result.now) }
        ensures few { length result.now ≤ MAX_RULES }
    {
        self.rules.as_slice()
    }
}

/// The fault of an ABI if the number at index `place` occurs earlier as well.
fn abi_twice_at(place: usize) -> Fault
    requires { place ≤ MAX_KEPT }
    ensures { result ≡ record { kind = FaultKind.AbiTwice; at = place } }
{
    Fault {
        kind: FaultKind::AbiTwice,
        at: place as u32,
    }
}
