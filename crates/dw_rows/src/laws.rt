//! Laws: what the definitions in `specs/` imply, in the standard's words. Each law is the contract
//! of a function that does nothing.

ghost use Rattle.std.specs.Prelude.{◌≡◌, ◌⊎◌, false, ℕ, ◌+◌, ◌<◌, ◌≤◌, ◌↔◌, List, length, Option, Some, None, slice_get, filter, [], ◌∷◌};
ghost use Rattle.std.specs.Prelude.{Err, Contains, map};
ghost use Rattle.dw_rules.specs.RowsWithExpressions.{row_with_expressions};
ghost use Rattle.dw_rows.specs.RowLookups.{IsRowUnder};
ghost use Rattle.dw_frame.specs.Records.{Cie, Fde, Record, cies_among, fdes_among};
ghost use Rattle.dw_rules.specs.Abi.{abi_fault};
ghost use Rattle.dw_rules.specs.Rules.{PlacedRule, PlacedCfa, PlacedRow, Row, default};
ghost use Rattle.dw_bytes.specs.declared.fault.FaultKind.{FaultKind};
ghost use Rattle.dw_frame.specs.Dialects.{debug_frame};
ghost use Rattle.dw_frame.specs.Instructions.{Instruction};
ghost use Rattle.dw_rules.specs.Effects.{Effect, restores_state, effect_of, is_barred};
ghost use Rattle.dw_rules.specs.Expressions.{expression_in};
ghost use Rattle.dw_rules.specs.InForce.{Start, cie_start, location_of};
ghost use Rattle.dw_rules.specs.ProgramFault.{cie_fault, fde_fault, refusal_at};
ghost use Rattle.dw_rows.specs.UnwindRows.{rows_of, has_address, Cover};
ghost use Rattle.dw_rows.specs.GoodPrograms.{rule_after, cfa_after, Match, IsGoodCieProgram, IsGoodFdeProgram};
ghost use Rattle.dw_rows.specs.Clauses.{AreRules, AreRowsOf};
ghost use Rattle.dw_bytes.specs.declared.target.Target.{Target};
ghost use Rattle.dw_bytes.specs.declared.fault.Fault.{Fault};
ghost use Rattle.dw_frame.specs.Bounds.{ArePlaced, StandsIn, IsSoundCie, IsSoundFde, Ascends};
ghost use Rattle.dw_stack.specs.Expressions.{IsGoodExpression};
ghost use Rattle.dw_stack.specs.Located.{LocatedExpression};
ghost use Rattle.dw_rows.specs.GoodRows.{HasGoodExpressions};
ghost use Rattle.dw_rows.specs.ExactRows.{HasOneRow};
ghost use Rattle.dw_rows.specs.Section.{FrameSection, Covers, CoversOnce, cie_in, rows_in, row_of, AreReadIn, IsChecked, parts_fault, section_fault, frame_of, frame_with};
ghost use Rattle.dw_rows.specs.WellFormed.{AreGood, IsWellFormed};
ghost use Rattle.dw_rules.specs.declared.abi.TheConstants.{MAX_KEPT};
ghost use Rattle.dw_rules.specs.declared.register_rules.TheConstants.{MAX_RULES};
ghost use Rattle.dw_rules.specs.declared.remember_stack.TheConstants.{MAX_REMEMBERED};

pub use dw_rules::laws::{abis_without_fault_are_distinct, rule_lists_are_rules, rules_under_abis};

/// The rules after the first k + 1 instructions (`rule_after` and `cfa_after`, GoodPrograms.antt)
/// follow from the rules after fewer instructions, as the standard says for each kind of
/// instruction (`AreRules`, Clauses.antt). For example, the rules after a restore_state are the
/// rules before the matching remember_state. If each restore_state has a match, no other rules meet
/// these conditions.
pub fn rules_by_instruction()
    ensures meet { (s : Start) (program : List Effect)
        → AreRules s program (rule_after s program) (cfa_after s program) }
    ensures only { (s : Start) (program : List Effect)
        (rule : ℕ → ℕ → PlacedRule) (cfa : ℕ → Option PlacedCfa)
        → AreRules s program rule cfa →
        ((j : ℕ) → slice_get program j ≡ Some restores_state → (i : ℕ) × Match program i j) →
        (k : ℕ) → k ≤ length program → ((r : ℕ) → rule k r ≡ rule_after s program k r)
        × (cfa k ≡ cfa_after s program k) }
{}

/// A CIE's program has no fault if and only if it meets the conditions of `IsGoodCieProgram`. If
/// the CIE's program has no fault, then an FDE's program has no fault if and only if it meets the
/// conditions of `IsGoodFdeProgram`.
pub fn good_programs_have_no_fault()
    ensures cie { (cie : Cie) → (cie_fault cie ≡ None) ↔ IsGoodCieProgram cie }
    ensures fde { (cie : Cie) (fde : Fde) → cie_fault cie ≡ None
        → (fde_fault cie fde ≡ None) ↔ IsGoodFdeProgram cie fde }
{}

/// If an instruction has an expression, and the location before it isn't past the end, then only
/// the last test, `TooManyRules`, can refuse the instruction. A CIE may contain the instruction. So
/// checking its expression before all tests finds the same fault as checking it just before the
/// last test.
pub fn expressions_are_checked_in_their_place()
    ensures past { (s : Start) (before : List Effect) (cie : Cie) (i : Instruction)
        (e : LocatedExpression) → expression_in i ≡ Some e → location_of s before ≤ s.end
        → (refusal_at s before (effect_of cie i) ≡ None)
        ⊎ (refusal_at s before (effect_of cie i) ≡ Some FaultKind.TooManyRules) }
    ensures allowed { (cie : Cie) (i : Instruction) (e : LocatedExpression)
        → expression_in i ≡ Some e → is_barred (effect_of cie i) ≡ false }
{}

/// If an FDE's program is good, `rows_of` gives its rows as the standard describes them
/// (`AreRowsOf`, Clauses.antt). For an address that the FDE covers, take the longest prefix of the
/// program after which the location is at most the address. The row of the address has the rules
/// after that prefix. It covers exactly the FDE's addresses that have the same longest prefix.
pub fn rows_are_those_of_addresses()
    ensures { (cie : Cie) (fde : Fde) → (good : IsGoodFdeProgram cie fde)
        → AreRowsOf cie fde good (rows_of cie fde) }
{}

/// If an FDE's program has no fault, each of its rows begins where the row before it ends, and
/// together the rows cover exactly what the FDE covers. Each covered address is in exactly one row.
/// Rows without gaps still have no gaps once expressions are put in place of their offsets.
pub fn rows_cover()
    ensures cover { (cie : Cie) (fde : Fde) → fde_fault cie fde ≡ None
        → Cover fde.initial_location (rows_of cie fde) (fde.initial_location + fde.address_range) }
    ensures one { (cie : Cie) (fde : Fde) (address : ℕ) → fde_fault cie fde ≡ None
        → fde.initial_location ≤ address → address < fde.initial_location + fde.address_range
        → (row : PlacedRow) × (filter (has_address address) (rows_of cie fde) ≡ row ∷ []) }
    ensures given { (es : List LocatedExpression) (from : ℕ) (rows : List PlacedRow) (to : ℕ)
        → Cover from rows to → Cover from (map (row_with_expressions es) rows) to }
{}

/// A section has no fault if and only if it is well formed: it is a sequence of CIEs and FDEs
/// without gaps, each CIE_pointer is the offset of a CIE, all programs are good, and no address is
/// covered by two FDEs.
pub fn frame_sections_without_fault_are_well_formed()
    ensures { (target : Target) (section : List ℕ)
        → (section_fault target section ≡ None) ↔ IsWellFormed target section }
{}

/// The CIEs and FDEs of records that lie one after another, however they were read, have no fault if
/// and only if they are good: each CIE_pointer is the offset of a CIE, all programs are good, and no
/// address is covered by two FDEs.
pub fn records_without_fault_are_good()
    ensures { (target : Target) (at end : ℕ) (records : List Record) → ArePlaced target at end records
        → (parts_fault (cies_among records) (fdes_among records) ≡ None) ↔ AreGood records }
{}

/// In an accepted section, each address that an FDE covers has exactly one row, and it is the one
/// that the standard gives (`HasOneRow`, ExactRows.antt). Exactly one FDE covers the address,
/// exactly one of that FDE's rows covers it, and a look-up returns that row. An address that no FDE
/// covers has no row.
pub fn exact_rows()
    ensures covered { (s : FrameSection) (a : ℕ) → IsChecked s → (f : Fde) → Contains s.fdes f
        → Covers f a → HasOneRow s a }
    ensures others { (s : FrameSection) (a : ℕ) → ((f : Fde) → Contains s.fdes f → ¬ Covers f a)
        → row_of s a ≡ None }
{}

/// Records that lie one after another in a section, and have no fault, make an accepted section.
pub fn records_are_accepted()
    ensures { (target : Target) (section : List ℕ) (records : List Record)
        → ArePlaced target 0 (length section) records
        → parts_fault (cies_among records) (fdes_among records) ≡ None
        → IsChecked (frame_with target section records) }
{}

/// In an accepted section, each FDE has a CIE, and neither program has a fault. No address is
/// covered by two FDEs.
pub fn fdes_of_checked_sections()
    ensures cie { (s : FrameSection) → IsChecked s → (f : Fde) → Contains s.fdes f
        → (c : Cie) × (cie_in s f ≡ Some c) × (cie_fault c ≡ None) × (fde_fault c f ≡ None) }
    ensures once { (s : FrameSection) → IsChecked s → CoversOnce s.fdes }
{}

/// The CIEs and the FDEs of an accepted section are each in ascending order of offset,
/// lie inside the section and have its target. Its expressions are good, lie inside the section and
/// have its target. No two expressions begin at the same offset.
pub fn checked_frame_sections()
    ensures accepted { (target : Target) (section : List ℕ) → section_fault target section ≡ None
        → IsChecked (frame_of target section) }
    ensures cies { (s : FrameSection) → IsChecked s → (c : Cie) → Contains s.cies c
        → IsSoundCie s.target (length s.section) c }
    ensures fdes { (s : FrameSection) → IsChecked s → (f : Fde) → Contains s.fdes f
        → IsSoundFde s.target (length s.section) f }
    ensures cies_ascend { (s : FrameSection) → IsChecked s
        → Ascends (λ (c : Cie). c.offset) s.cies }
    ensures fdes_ascend { (s : FrameSection) → IsChecked s
        → Ascends (λ (f : Fde). f.offset) s.fdes }
    ensures expressions { (s : FrameSection) → IsChecked s → (e : LocatedExpression)
        → Contains s.expressions e → IsGoodExpression e.kind e.target e.bytes
        × (e.target ≡ s.target) × (e.offset + length e.bytes ≤ length s.section) }
    ensures one_at_an_offset { (s : FrameSection) → IsChecked s → (d e : LocatedExpression)
        → Contains s.expressions d → Contains s.expressions e → d.offset ≡ e.offset → d ≡ e }
{}

/// In an accepted section, each expression in a row is one of the section's, is good, and has the
/// kind that its rule needs. This holds for the rows of each FDE, and so for the row of each
/// address. Each expression in the row of an address has the section's target.
pub fn rows_have_good_expressions()
    ensures rows { (s : FrameSection) → IsChecked s → (f : Fde) → Contains s.fdes f → (row : Row)
        → Contains (rows_in s f) row → HasGoodExpressions s.expressions row }
    ensures addresses { (s : FrameSection) (a : ℕ) → IsChecked s → (row : Row)
        → row_of s a ≡ Some row → HasGoodExpressions s.expressions row }
    ensures under { (s : FrameSection) (a : ℕ) → IsChecked s → (row : Row)
        → row_of s a ≡ Some row → IsRowUnder s.target row }
{}

/// The program of a CIE begins with no rules of registers, and in `.debug_frame` with no CFA.
pub fn cie_programs_begin_with_no_rules()
    ensures rules { (cie : Cie) (register : ℕ) → (cie_start cie).rules register ≡ default }
    ensures cfa { (cie : Cie) → cie.program.dialect ≡ debug_frame → (cie_start cie).cfa ≡ None }
{}

/// Each remember_state has at most one matching restore_state, and each restore_state has at most
/// one matching remember_state.
pub fn matches_are_unique()
    ensures restore { (program : List Effect) (i j k : ℕ) → Match program i j → Match program i k
        → j ≡ k }
    ensures remember { (program : List Effect) (i k j : ℕ) → Match program i j → Match program k j
        → i ≡ k }
{}

/// The limits: how many registers in a row may have a rule other than default, how many
/// callee-saved registers an ABI may have, and how many remember_states may be waiting for their
/// restore_state at any one time.
pub fn row_limits()
    ensures rules { MAX_RULES ≡ 128 }
    ensures kept { MAX_KEPT ≡ 127 }
    ensures remembered { MAX_REMEMBERED ≡ 16 }
{}

/// The offset of a fault of a program is inside the program or at its end. The offset of a fault of
/// a section is at most the section's length. The index of a fault of an ABI is at most the number
/// of callee-saved registers.
pub fn frame_faults_stand_inside()
    ensures cie { (cie : Cie) (fault : Fault) → cie_fault cie ≡ Some fault
        → StandsIn cie.program (Err fault) }
    ensures fde { (cie : Cie) (fde : Fde) (fault : Fault) → fde_fault cie fde ≡ Some fault
        → StandsIn fde.program (Err fault) }
    ensures parts { (target : Target) (size : ℕ) (cies : List Cie) (fdes : List Fde) (fault : Fault)
        → AreReadIn target size cies fdes → parts_fault cies fdes ≡ Some fault → fault.at ≤ size }
    ensures section { (target : Target) (section : List ℕ) (fault : Fault)
        → section_fault target section ≡ Some fault → fault.at ≤ length section }
    ensures abi { (kept : List ℕ) (pointer : Option ℕ) (fault : Fault)
        → abi_fault kept pointer ≡ Some fault → fault.at ≤ length kept }
{}
