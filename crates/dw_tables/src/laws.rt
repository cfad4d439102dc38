//! Laws: what the definitions in `specs/` imply. Each law is the contract of a function that does
//! nothing.

ghost use Rattle.std.specs.Prelude.{◌≡◌, ◌≤◌, ℕ, IfSome};
ghost use Rattle.dw_frame.specs.Sections.{top_of};
ghost use Rattle.dw_rows.specs.Section.{FrameSection, IsChecked};
ghost use Rattle.dw_tables.specs.UnwindTables.{IsTableOf, RowTable, row_at};

/// The row that a table of an accepted section has at an address begins and ends at or below the
/// highest address of the section's target. Two tables of the same section have the same row at
/// each address, with the same return address register.
pub fn tables_of_sections()
    ensures fit { (s : FrameSection) (t : RowTable) → IsChecked s → IsTableOf s t → (a : ℕ)
        → IfSome (row_at t a) (λ found. ((found.0).start ≤ top_of s.target)
        × ((found.0).end ≤ top_of s.target)) }
    ensures same { (s : FrameSection) (t u : RowTable) → IsTableOf s t → IsTableOf s u → (a : ℕ)
        → row_at t a ≡ row_at u a }
{}
