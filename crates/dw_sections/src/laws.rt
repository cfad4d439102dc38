//! Laws about two sections that are checked together. A law is a function that does nothing, whose
//! contract is what the law states.

ghost use Rattle.std.specs.Prelude.{◌≡◌, ◌↔◌, ℕ, List, None, Contains};
ghost use Rattle.dw_bytes.specs.declared.target.Target.{Target};
ghost use Rattle.dw_sections.specs.Checked.{AreWellFormed, check_fault};
ghost use Rattle.dw_rows.specs.Section.{FrameSection, IsChecked};
ghost use Rattle.dw_stack.specs.Located.{LocatedExpression};
ghost use Rattle.dw_sections.specs.Headline.{AreSound, IsSafe};

/// Two sections have no fault exactly if they are well formed.
pub fn sections_without_fault_are_well_formed()
    ensures { (target : Target) (frame lists : List ℕ)
        → (check_fault target frame lists ≡ None) ↔ AreWellFormed target frame lists }
{
    dw_rows::laws::frame_sections_without_fault_are_well_formed();
    dw_loclists::laws::list_sections_without_fault_are_well_formed();
}

/// Each expression of an accepted section, of `.debug_frame` or of `.eh_frame`, has the section's
/// target. For all registers and memory, it ends within its number of operations, never pops an
/// entry that isn't there, stays within its depth, and has exactly one outcome.
pub fn expressions_of_accepted_sections_are_safe()
    ensures { (s : FrameSection) → IsChecked s → (x : LocatedExpression) → Contains s.expressions x
        → (x.target ≡ s.target) × IsSafe x.kind x.target x.bytes }
{
    dw_rows::laws::checked_frame_sections();
    dw_stack::laws::each_has_a_depth();
    dw_stack::laws::good_expressions_run_well();
    dw_eval::laws::each_has_an_evaluation();
    dw_eval::laws::evaluations_are_determined();
}

/// What holds for two sections without a fault, which are the sections that `check` accepts unless
/// memory runs out. The CIEs, FDEs and lists read from them are what their bytes encode. Each
/// address that an FDE covers has exactly one row, as DWARF 5 defines it; any other address has
/// none. For all registers and memory, each expression of a rule or of a list ends within its
/// number of operations, never pops an entry that isn't there, stays within its depth, and has
/// exactly one outcome.
pub fn accepted_sections_are_sound()
    ensures { (target : Target) (frame lists : List ℕ) → check_fault target frame lists ≡ None
        → AreSound target frame lists }
{
    dw_frame::laws::sections_are_records();
    dw_rows::laws::exact_rows();
    dw_rows::laws::frame_sections_without_fault_are_well_formed();
    dw_rows::laws::checked_frame_sections();
    dw_loclists::laws::checked_list_sections();
    dw_stack::laws::each_has_a_depth();
    dw_stack::laws::good_expressions_run_well();
    dw_eval::laws::each_has_an_evaluation();
    dw_eval::laws::evaluations_are_determined();
}
