//! Laws: what the definitions in `specs/` imply about where return addresses are signed. Each law
//! is the contract of a function that does nothing.

ghost use Rattle.std.specs.Prelude.{◌≡◌, ℕ, ◌≤◌, Bool, false, None, Some, Contains, length};
ghost use Rattle.dw_frame.specs.Codes.{instructions_of};
ghost use Rattle.dw_frame.specs.Records.{Cie, Fde};
ghost use Rattle.dw_rules.specs.ProgramFault.{cie_fault};
ghost use Rattle.dw_rows.specs.Clauses.{program_in, start_in};
ghost use Rattle.dw_rows.specs.GoodPrograms.{IsGoodFdeProgram, IsLast};
ghost use Rattle.dw_rows.specs.Section.{Covers, FrameSection, IsChecked, cie_in};
ghost use Rattle.dw_signed_rows.specs.SignedPrograms.{AreSignatures, is_negated, signed_after};
ghost use Rattle.dw_signed_rows.specs.SignedRows.{instructions_in, is_signed_in, signed_by_cie};
ghost use Rattle.dw_signed_rows.specs.SignedSections.{is_signed_of};

/// In an accepted section, whether the return address is signed at an address is what the FDE that
/// covers the address says, with its CIE. At an address that no FDE covers it isn't signed.
pub fn signed_sections_are_exact()
    ensures covered { (s : FrameSection) (a : ℕ) → IsChecked s → (f : Fde) → Contains s.fdes f
        → Covers f a → (c : Cie) → cie_in s f ≡ Some c → is_signed_of s a ≡ is_signed_in c f a }
    ensures others { (s : FrameSection) (a : ℕ) → IsChecked s
        → ((f : Fde) → Contains s.fdes f → ¬ Covers f a) → is_signed_of s a ≡ false }
{}

/// Let an FDE's program be good. For an address that the FDE covers, take the longest prefix of the
/// program after which the location is at most the address: the prefix whose rules the row of the
/// address has (`rows_are_those_of_addresses` of `dw_rows`). The return address is signed at the
/// address if and only if it is signed after that prefix. At other addresses it isn't signed.
pub fn signed_rows_are_those_of_addresses()
    ensures covered { (cie : Cie) (fde : Fde) → (good : IsGoodFdeProgram cie fde) → (a k : ℕ)
        → Covers fde a → IsLast (start_in cie fde good) (program_in cie fde good) a k
        → is_signed_in cie fde a ≡ signed_after cie fde good k }
    ensures others { (cie : Cie) (fde : Fde) → IsGoodFdeProgram cie fde → (a : ℕ)
        → ¬ Covers fde a → is_signed_in cie fde a ≡ false }
{}

/// Whether the return address is signed after the first k + 1 instructions of a good program
/// (`signed_after`, SignedPrograms.antt) follows from whether it is after fewer instructions
/// (`AreSignatures`). A negate_ra_state turns it around, a restore_state makes it what it was
/// before the matching remember_state, and any other instruction keeps it. Nothing else meets these
/// conditions.
pub fn signatures_by_instruction()
    ensures meet { (cie : Cie) (fde : Fde) → (good : IsGoodFdeProgram cie fde)
        → AreSignatures cie fde good (signed_after cie fde good) }
    ensures only { (cie : Cie) (fde : Fde) → (good : IsGoodFdeProgram cie fde)
        → (signed : ℕ → Bool) → AreSignatures cie fde good signed
        → (k : ℕ) → k ≤ length good.items → signed k ≡ signed_after cie fde good k }
{}

/// A CIE's program leaves the return address signed if and only if it has an odd number of
/// negate_ra_states. It has no remember_state and no restore_state.
pub fn signatures_of_cies()
    ensures { (cie : Cie) → cie_fault cie ≡ None
        → signed_by_cie cie ≡ is_negated (instructions_in (instructions_of cie.program)) }
{}
