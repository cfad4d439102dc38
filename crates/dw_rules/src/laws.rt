//! Laws: what the definitions in `specs/` imply. Each law is the contract of a function that does
//! nothing.

ghost use Rattle.std.specs.Prelude.{◌≡◌, ℕ, ◌+◌, ◌<◌, ◌↔◌, neg_ℤ, false, List, Option, Some, None};
ghost use Rattle.std.specs.Prelude.{All, ◌++◌};
ghost use Rattle.std.specs.Option.{option_to_list};
ghost use Rattle.dw_bytes.specs.declared.fault.FaultKind.TheVariants.{AbiTwice};
ghost use Rattle.dw_frame.specs.Codes.{negative_offset};
ghost use Rattle.dw_frame.specs.Records.{Cie};
ghost use Rattle.dw_rules.specs.Effects.{data_aligned, effect_of, overflows, sets};
ghost use Rattle.dw_rules.specs.Abi.{Abi, CanBeAbi, StandsAgain, abi_fault, no_abi, rule_under, rules_under};
ghost use Rattle.dw_rules.specs.Rules.{Rule, RuleOver, PlacedRule, IsTable, rule_in, rule_list};

/// A list of rules in ascending order of registers, and the function from registers to rules that
/// it stands for, can be converted into each other without loss (`rule_in` and `rule_list`,
/// Rules.antt).
pub fn rule_lists_are_rules()
    ensures list { (entries : List (ℕ × PlacedRule)) → IsTable 0 entries
        → rule_list (rule_in entries) ≡ entries }
    ensures rules { (rules : ℕ → PlacedRule) (r : ℕ) → r < 65536
        → rule_in (rule_list rules) r ≡ rules r }
    ensures table { (rules : ℕ → PlacedRule) → IsTable 0 (rule_list rules) }
{}

/// The rules of a row under an ABI are a list in ascending order of registers. Each register's rule
/// in the list is the row's rule, or, if the row has none, the ABI's. Under an ABI that says
/// nothing, a row's rules are unchanged.
pub fn rules_under_abis()
    ensures each { (abi : Abi) (rules : List (ℕ × Rule))
        → All (λ entry. entry.1 ≡ rule_under abi rules entry.0) (rules_under abi rules) }
    ensures all { (abi : Abi) (rules : List (ℕ × Rule)) (r : ℕ) → r < 65536
        → rule_in (rules_under abi rules) r ≡ rule_under abi rules r }
    ensures table { (abi : Abi) (rules : List (ℕ × Rule)) → IsTable 0 (rules_under abi rules) }
    ensures none { (rules : List (ℕ × Rule)) → IsTable 0 rules → rules_under no_abi rules ≡ rules }
{}

/// The register numbers of an ABI have no fault if and only if there are at most `MAX_KEPT`
/// callee-saved registers, and no number occurs twice among them and the stack pointer. If the
/// fault is `AbiTwice`, its index is the index of the first number that repeats an earlier one in
/// the list of the callee-saved registers followed by the stack pointer.
pub fn abis_without_fault_are_distinct()
    ensures good { (registers : List ℕ) (pointer : Option ℕ)
        → (abi_fault registers pointer ≡ None) ↔ CanBeAbi registers pointer }
    ensures twice { (registers : List ℕ) (pointer : Option ℕ) (place : ℕ)
        → abi_fault registers pointer ≡ Some (record { kind = AbiTwice; at = place })
        → StandsAgain (registers ++ option_to_list pointer) place }
{}

/// GNU_negative_offset_extended saves a register at minus n times the data alignment factor from the
/// CFA. The instruction of DWARF as which it is read (`negative_offset`, Codes.antt) does that, and is
/// refused exactly where that offset doesn't fit in 64 bits.
pub fn negative_offsets_are_negated()
    ensures overflow { (cie : Cie) (r n : ℕ) → overflows (effect_of cie (negative_offset r n))
        ≡ overflows (sets r (RuleOver.offset (neg_ℤ (data_aligned cie n)))) }
    ensures saved { (cie : Cie) (r n : ℕ) → overflows (effect_of cie (negative_offset r n)) ≡ false
        → effect_of cie (negative_offset r n) ≡ sets r (RuleOver.offset (neg_ℤ (data_aligned cie n))) }
{}
