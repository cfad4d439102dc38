//! Laws about checked `.eh_frame` sections and their rows. The functions do nothing, but for the laws
//! of other crates that they call: the contract of each is a law.

ghost use Rattle.std.specs.Prelude.{◌≡◌, ◌↔◌, ◌⊎◌, ℕ, Bool, false, List, ◌∷◌, ◌++◌, Contains, Some, None};
ghost use Rattle.dw_bytes.specs.Answers.{fault_in, values_in};
ghost use Rattle.dw_bytes.specs.declared.fault.FaultKind.TheVariants.{Overlap};
ghost use Rattle.dw_bytes.specs.declared.fault.Fault.{Fault};
ghost use Rattle.dw_bytes.specs.declared.target.Target.{Target};
ghost use Rattle.dw_frame.specs.Records.{Fde, cies_among, fde_record};
ghost use Rattle.dw_rows.specs.ExactRows.{HasOneRow};
ghost use Rattle.dw_rows.specs.Section.{Covers, IsChecked, cie_at, row_of};
ghost use Rattle.dw_eh_frame.specs.declared.pointer.Bases.{Bases};
ghost use Rattle.dw_eh_frame.specs.Items.{Item, items_of};
ghost use Rattle.dw_eh_frame.specs.Records.{EhFde, EhRecord, all_in_dwarf, eh_fde, eh_records_of};
ghost use Rattle.dw_eh_rows.specs.KeptRecords.{leave_out, split_all, split_one, split_records, whole_fault};
ghost use Rattle.dw_rules.specs.ProgramFault.{cie_fault, fde_fault};
ghost use Rattle.dw_eh_rows.specs.Section.{IsEhWellFormed, eh_frame_of, eh_section_fault};
ghost use Rattle.dw_eh_rows.specs.Signals.{eh_fdes, is_signal_at, is_signal_frame, signal_frames};

/// A section has no fault if and only if it is well formed: its bytes are the encodings of records
/// without gaps, the CIE of each FDE is one of the records before it, all programs are good, and no
/// address is covered by two FDEs, except by exact copies of one.
pub fn sections_without_fault_are_well_formed()
    ensures { (is_aarch64 : Bool) (bases : Bases) (target : Target) (section : List ℕ)
        → (eh_section_fault is_aarch64 bases target section ≡ None)
        ↔ IsEhWellFormed is_aarch64 bases target section }
{
    dw_eh_frame::laws::sections_are_records();
    dw_eh_frame::laws::records_lie_one_after_another();
    dw_rows::laws::records_without_fault_are_good();
}

/// A section without fault is accepted (`IsChecked` of `dw_rows`), so all laws about accepted
/// sections hold. Each address that one of its FDEs covers, also one that is left out as an exact
/// copy, has exactly one row, the one that the standard gives, and a look-up finds it
/// (`HasOneRow`). An address that no FDE covers has none.
pub fn exact_eh_rows()
    ensures accepted { (is_aarch64 : Bool) (bases : Bases) (target : Target) (section : List ℕ)
        → eh_section_fault is_aarch64 bases target section ≡ None
        → IsChecked (eh_frame_of is_aarch64 bases target section) }
    ensures covered { (is_aarch64 : Bool) (bases : Bases) (target : Target) (section : List ℕ)
        → eh_section_fault is_aarch64 bases target section ≡ None → (f : Fde)
        → Contains (all_in_dwarf (values_in (eh_records_of is_aarch64 bases target section))) (fde_record f)
        → (a : ℕ) → Covers f a → HasOneRow (eh_frame_of is_aarch64 bases target section) a }
    ensures others { (is_aarch64 : Bool) (bases : Bases) (target : Target) (section : List ℕ) (a : ℕ)
        → ((f : Fde) → Contains (all_in_dwarf (values_in (eh_records_of is_aarch64 bases target section))) (fde_record f)
        → ¬ Covers f a) → row_of (eh_frame_of is_aarch64 bases target section) a ≡ None }
{
    dw_eh_frame::laws::sections_are_records();
    dw_eh_frame::laws::records_lie_one_after_another();
    dw_eh_frame::laws::only_copies_are_left_out();
    dw_rows::laws::records_without_fault_are_good();
    dw_rows::laws::records_are_accepted();
    dw_rows::laws::exact_rows();
}

/// In a section without fault, an address that an FDE covers is one of a signal frame if and only
/// if that FDE is a signal frame. An address that no FDE covers is none.
pub fn signal_frames_are_exact()
    ensures covered { (is_aarch64 : Bool) (bases : Bases) (target : Target) (section : List ℕ)
        → eh_section_fault is_aarch64 bases target section ≡ None → (e : EhFde)
        → Contains (eh_fdes (values_in (eh_records_of is_aarch64 bases target section))) e
        → (a : ℕ) → Covers e.fde a
        → is_signal_at (signal_frames (values_in (eh_records_of is_aarch64 bases target section))) a
        ≡ is_signal_frame e }
    ensures others { (records : List EhRecord) (a : ℕ)
        → ((e : EhFde) → Contains (eh_fdes records) e → ¬ Covers e.fde a)
        → is_signal_at (signal_frames records) a ≡ false }
{
    dw_eh_frame::laws::sections_are_records();
    dw_eh_frame::laws::records_lie_one_after_another();
    dw_eh_frame::laws::only_copies_are_left_out();
    dw_eh_frame::laws::cies_are_read_at_their_pointers();
    dw_rows::laws::records_without_fault_are_good();
}

/// A record that is left out changes nothing of what is kept: without it in the list of what is read, the
/// same others are kept. (That a section without fault keeps all its records is the definition.)
pub fn bad_records_change_nothing()
    ensures others { (before after : List Item) (item : Item) (fault : Fault)
        → split_one (split_all before) item ≡ leave_out (split_all before) item.0 fault
        → (split_all (before ++ item ∷ after)).kept ≡ (split_all (before ++ after)).kept }
{}

/// Apart from a bad length, the only fault that a section has as a whole is `Overlap`. An FDE that is
/// kept has the CIE to which it points, as it was read with it: so its rows are those of its own two
/// programs, whatever is left out.
pub fn what_is_kept_can_only_overlap()
    ensures fault { (is_aarch64 : Bool) (bases : Bases) (target : Target) (section : List ℕ) (fault : Fault)
        → whole_fault is_aarch64 bases target section ≡ Some fault
        → (fault_in (items_of is_aarch64 bases target section) ≡ Some fault) ⊎ (fault.kind ≡ Overlap) }
    ensures cies { (is_aarch64 : Bool) (bases : Bases) (target : Target) (section : List ℕ) (e : EhFde)
        → Contains (split_records is_aarch64 bases target section).kept (eh_fde e)
        → cie_at (cies_among (all_in_dwarf (split_records is_aarch64 bases target section).kept)) e.fde.cie_pointer
        ≡ Some e.cie.cie }
    ensures programs { (is_aarch64 : Bool) (bases : Bases) (target : Target) (section : List ℕ) (e : EhFde)
        → Contains (split_records is_aarch64 bases target section).kept (eh_fde e)
        → (cie_fault e.cie.cie ≡ None) × (fde_fault e.cie.cie e.fde ≡ None) }
{
    dw_eh_frame::laws::items_have_their_cies();
    dw_eh_frame::laws::copies_are_left_out_in_place();
}
