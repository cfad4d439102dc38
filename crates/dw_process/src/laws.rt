//! Laws about the modules of a process. Each is a function that does nothing: its contract is the
//! law.

ghost use Rattle.std.specs.Prelude.{◌≡◌, ◌↔◌, ◌<◌, ◌^◌, ℕ, false, true, All, Contains, IsSome, List, None, Option, Some};
ghost use Rattle.dw_eh_rows.specs.Signals.{is_signal_at};
ghost use Rattle.dw_eval.specs.Numbers.{width_of};
ghost use Rattle.dw_rules.specs.Abi.{Abi};
ghost use Rattle.dw_frame.specs.Records.{Fde};
ghost use Rattle.dw_rows.specs.RowLookups.{IsFoundAt};
ghost use Rattle.dw_rows.specs.Section.{Covers, FrameSection};
ghost use Rattle.dw_signed_rows.specs.SignedRanges.{has_signed};
ghost use Rattle.dw_tables.specs.UnwindTables.{IsTableOf, row_at};
ghost use Rattle.dw_unwind.specs.Caller.{Caller};
ghost use Rattle.dw_unwind.specs.Modules.{as_linked, over_tables};
ghost use Rattle.dw_unwind.specs.Walks.{over_rows};
ghost use Rattle.dw_process.specs.BothSections.{AreTablesOf};
ghost use Rattle.dw_process.specs.FirstRows.{HasRowInRange, first_row, tables_of};
ghost use Rattle.dw_process.specs.ModuleMaps.{AreInOrder, is_in, module_at};
ghost use Rattle.dw_process.specs.Processes.{AreModulesOf, ProcessState, is_signal_in_module, is_signed_in_module, row_in, row_of_module};
ghost use Rattle.dw_process.specs.Ranges.{IsRangeFor, IsRangeForBoth};
ghost use Rattle.dw_process.specs.declared.loaded_module.LoadedModule.{LoadedModule};

/// The module of an address is the only one whose range contains the address.
pub fn one_module_has_the_address()
    ensures { (modules : List LoadedModule) (address : ℕ) (m : LoadedModule) → AreInOrder modules
        → Contains modules m → is_in m.range address ≡ true → module_at modules address ≡ Some m }
{}

/// Unwinding at an address with the rows of the module whose range contains the address is the same
/// as unwinding with the rows of the process.
pub fn the_module_of_the_address_unwinds()
    ensures { (p : ProcessState) (m : LoadedModule) (abi : Abi) (memory registers : ℕ → Option ℕ)
        (address : ℕ) (caller : Option Caller) → Some m ≡ module_at p.modules address
        → m.rows.target ≡ p.target
        → over_rows m.rows.target (λ a found. found ≡ row_of_module m a) abi memory registers
        address caller
        ↔ over_rows p.target (λ a found. found ≡ row_in p a) abi memory registers address caller }
{}

/// A module with one section has the rows and the marks of that section.
pub fn one_section_gives_rows_and_marks()
    ensures rows { (m : LoadedModule) (address : ℕ) → m.fallback ≡ None → row_of_module m address
        ≡ row_at m.rows (as_linked m.rows.target m.load_address address) }
    ensures signals { (m : LoadedModule) (address : ℕ) → m.fallback ≡ None
        → is_signal_in_module (Some m) address
        ≡ is_signal_at m.marks.signals (as_linked m.rows.target m.load_address address) }
    ensures signed { (m : LoadedModule) (address : ℕ) → m.fallback ≡ None
        → is_signed_in_module (Some m) address
        ≡ has_signed m.marks.signed (as_linked m.rows.target m.load_address address) }
{}

/// If a module has both sections, the row of an address that an FDE of `.debug_frame` covers is that
/// of `.debug_frame`. Then the address isn't one of a signal frame, and the return address isn't
/// signed there.
pub fn debug_frame_comes_first()
    ensures row { (debug_frame eh_frame : FrameSection) (m : LoadedModule) (address : ℕ) (f : Fde)
        → AreTablesOf debug_frame eh_frame m → Contains debug_frame.fdes f
        → Covers f (as_linked m.rows.target m.load_address address)
        → IsFoundAt debug_frame (as_linked m.rows.target m.load_address address)
        (row_of_module m address) × IsSome (row_of_module m address) }
    ensures no_signal { (debug_frame eh_frame : FrameSection) (m : LoadedModule) (address : ℕ)
        (f : Fde) → AreTablesOf debug_frame eh_frame m → Contains debug_frame.fdes f
        → Covers f (as_linked m.rows.target m.load_address address)
        → is_signal_in_module (Some m) address ≡ false }
    ensures unsigned { (debug_frame eh_frame : FrameSection) (m : LoadedModule) (address : ℕ)
        (f : Fde) → AreTablesOf debug_frame eh_frame m → Contains debug_frame.fdes f
        → Covers f (as_linked m.rows.target m.load_address address)
        → is_signed_in_module (Some m) address ≡ false }
{}

/// If a module has both sections, the row and the marks of an address that no FDE of `.debug_frame`
/// covers are those of `.eh_frame`.
pub fn eh_frame_comes_second()
    ensures row { (debug_frame eh_frame : FrameSection) (m : LoadedModule) (address : ℕ)
        → AreTablesOf debug_frame eh_frame m
        → IsFoundAt debug_frame (as_linked m.rows.target m.load_address address) None
        → IsFoundAt eh_frame (as_linked m.rows.target m.load_address address)
        (row_of_module m address) }
    ensures signals { (debug_frame eh_frame : FrameSection) (m : LoadedModule) (address : ℕ)
        → AreTablesOf debug_frame eh_frame m
        → IsFoundAt debug_frame (as_linked m.rows.target m.load_address address) None
        → is_signal_in_module (Some m) address
        ≡ is_signal_at m.marks.signals (as_linked m.rows.target m.load_address address) }
    ensures signed { (debug_frame eh_frame : FrameSection) (m : LoadedModule) (address : ℕ)
        → AreTablesOf debug_frame eh_frame m
        → IsFoundAt debug_frame (as_linked m.rows.target m.load_address address) None
        → is_signed_in_module (Some m) address
        ≡ has_signed m.marks.signed (as_linked m.rows.target m.load_address address) }
{}

/// A module with one section and the range of the section's FDEs has rows only for addresses in its
/// range, at addresses below 2^w, w being the size of an address in bits.
pub fn a_section_has_rows_in_its_range()
    ensures { (frame : FrameSection) (m : LoadedModule) (address : ℕ) → IsTableOf frame m.rows
        → m.fallback ≡ None → IsRangeFor frame m.load_address None m.range
        → address < 2 ^ width_of frame.target.address_size → HasRowInRange address m }
{}

/// The same of a module with both sections and the range of the FDEs of both.
pub fn both_sections_have_rows_in_their_range()
    ensures { (debug_frame eh_frame : FrameSection) (m : LoadedModule) (address : ℕ)
        → AreTablesOf debug_frame eh_frame m
        → IsRangeForBoth debug_frame eh_frame m.load_address None m.range
        → address < 2 ^ width_of debug_frame.target.address_size → HasRowInRange address m }
{}

/// If each module has rows only in its range, the row of an address is the row from the first
/// module that has one, and unwinding gives the caller from that module.
pub fn the_first_module_that_has_a_row()
    ensures rows { (p : ProcessState) (address : ℕ) → AreInOrder p.modules
        → All (HasRowInRange address) p.modules → row_in p address ≡ first_row p.modules address }
    ensures unwindings { (p : ProcessState) (abi : Abi) (memory registers : ℕ → Option ℕ)
        (address : ℕ) (caller : Option Caller) → AreModulesOf p.target p.next_id p.modules
        → All (HasRowInRange address) p.modules
        → over_rows p.target (λ a found. found ≡ row_in p a) abi memory registers address caller
        ↔ over_tables abi memory (tables_of p.modules) registers address caller }
{}
