//! Laws of unwinding and of walks: functions that do nothing, each with the law as its contract.

ghost use Rattle.std.specs.Prelude.{◌≡◌, ◌↔◌, ◌<◌, ◌^◌, ◌≤◌, ◌++◌, ◌∷◌, [], ℕ, ℤ, All, Contains, List, Option, Some, length, take};
ghost use Rattle.std.specs.Borrow.{Bor};
ghost use Rattle.dw_eval.specs.Numbers.{width_of};
ghost use Rattle.dw_eval.specs.World.{World};
ghost use Rattle.dw_frame.specs.Records.{Fde};
ghost use Rattle.dw_rules.specs.Abi.{Abi};
ghost use Rattle.dw_rules.specs.Rules.{IsTable, Row, register_and_offset};
ghost use Rattle.dw_rows.specs.Section.{FrameSection, IsChecked, rows_in};
ghost use Rattle.dw_tables.specs.UnwindTables.{IsTableOf, RowTable, row_at};
ghost use Rattle.dw_rows.specs.RowLookups.{IsFoundAt};
ghost use Rattle.dw_unwind.specs.Caller.{Caller, IsCaller, Unwinds, UnwindsBy, number_plus};
ghost use Rattle.dw_unwind.specs.DirectAnswers.{AreDirect, HasDirectCaller, NamesRegisters};
ghost use Rattle.dw_unwind.specs.Modules.{AreTablesOf, over_modules_of_rows, over_sections, over_tables, unborrowed, where_linked};
ghost use Rattle.dw_unwind.specs.Walks.{AlwaysUnwinds, IsFrameAt, Place, WalkedFrame, Walks, first_place, over_rows, over_section, over_table};
ghost use Rattle.dw_unwind.specs.WalkSteps.{GivesFrame, GivesFrames, Progress, about_to_give, after, has_given, stop_of};
ghost use Rattle.dw_unwind.specs.declared.frames.Stop.{Stop};
ghost use Rattle.dw_unwind.specs.declared.frames.Stop.TheVariants.{Limit};
ghost use Rattle.dw_unwind.specs.declared.modules.Module.{Module};
ghost use Rattle.dw_unwind.specs.declared.unwinding.TheConstants.{MAX_FOUND};

use crate::unwinder::Unwinder;

/// With an accepted section, unwinding at an address has at most one answer: a caller, or none.
pub fn one_caller()
    ensures { (e : World) (abi : Abi) (frame : FrameSection) (address : ℕ) (c d : Option Caller)
        → IsChecked frame → Unwinds e abi frame address c
        → Unwinds e abi frame address d → c ≡ d }
{
    dw_rows::laws::rows_have_good_expressions();
    dw_rules::laws::rules_under_abis();
    dw_eval::laws::evaluations_are_determined();
}

/// Each row of an accepted section gives a caller, whatever the registers and memory are.
pub fn each_row_has_a_caller()
    ensures { (e : World) (abi : Abi) (column : ℕ) (frame : FrameSection) (fde : Fde) (row : Row)
        → IsChecked frame → Contains frame.fdes fde
        → Contains (rows_in frame fde) row
        → (c : Caller) × IsCaller e abi column row c }
{
    dw_rows::laws::rows_have_good_expressions();
    dw_rules::laws::rules_under_abis();
    dw_stack::laws::each_has_a_depth();
    dw_eval::laws::each_has_an_evaluation();
}

/// With an accepted section, unwinding at each address has an answer: a caller, or none.
pub fn each_address_has_an_unwinding()
    ensures { (e : World) (abi : Abi) (frame : FrameSection) (address : ℕ) → IsChecked frame
        → (c : Option Caller) × Unwinds e abi frame address c }
{
    dw_rows::laws::exact_rows();
    each_row_has_a_caller();
}

/// Unwinding by the result of a row look-up in a section (a row, or none) is equivalent to
/// unwinding with the section. So is unwinding by the result of a row look-up in a compiled table
/// of the section.
pub fn unwinding_by_what_is_found()
    ensures found { (e : World) (abi : Abi) (frame : FrameSection) (address : ℕ)
        (found : Option (Row × ℕ)) (c : Option Caller) → IsFoundAt frame address found
        → UnwindsBy e abi found c ↔ Unwinds e abi frame address c }
    ensures table { (e : World) (abi : Abi) (frame : FrameSection) (table : RowTable) (address : ℕ)
        (c : Option Caller) → IsTableOf frame table
        → UnwindsBy e abi (row_at table address) c ↔ Unwinds e abi frame address c }
{}

/// A row whose rules have no expressions gives a caller, if the register of its CFA has a content.
/// Each register of the caller has the content that its rule gives, or the ABI's rule if the row
/// has none.
pub fn rows_without_expressions_have_callers()
    ensures { (e : World) (abi : Abi) (column : ℕ) (row : Row) (base content : ℕ) (by : ℤ)
        → NamesRegisters abi → IsTable 0 row.rules → AreDirect row.rules
        → row.cfa ≡ Some (register_and_offset base by) → e.registers base ≡ Some content
        → HasDirectCaller e abi column row (number_plus e by content) }
{
    dw_rules::laws::rules_under_abis();
}

/// With an accepted section, a walk is determined by the place where it begins and by its limit.
pub fn one_walk()
    ensures { (frame : FrameSection) (abi : Abi) (memory : ℕ → Option ℕ) (first : Place) (limit : ℕ)
        (xs ys : List WalkedFrame) (a b : Stop) → IsChecked frame
        → Walks (over_section frame abi memory) first limit xs a
        → Walks (over_section frame abi memory) first limit ys b → (xs ≡ ys) × (a ≡ b) }
{
    one_caller();
}

/// With an accepted section, there is a walk from each place with each limit.
pub fn each_has_a_walk()
    ensures { (frame : FrameSection) (abi : Abi) (memory : ℕ → Option ℕ) (first : Place) (limit : ℕ)
        → IsChecked frame → (xs : List WalkedFrame) × (stop : Stop)
        × Walks (over_section frame abi memory) first limit xs stop }
{
    each_address_has_an_unwinding();
}

/// With an accepted section, a walk with a smaller limit is a prefix of the walk from the same
/// place with a greater limit.
pub fn longer_walks_begin_so()
    ensures { (frame : FrameSection) (abi : Abi) (memory : ℕ → Option ℕ) (first : Place) (m n : ℕ)
        (xs ys : List WalkedFrame) (a b : Stop) → IsChecked frame
        → Walks (over_section frame abi memory) first m xs a
        → Walks (over_section frame abi memory) first n ys b → m ≤ n → xs ≡ take m ys }
{
    one_walk();
}

/// A walk with the rows that are looked up in a section is equivalent to a walk with the section. A
/// walk with the rows that are looked up in a table is equivalent to a walk with the table. A walk
/// with a table of a section is equivalent to a walk with the section.
pub fn walks_over_what_is_found()
    ensures found { (frame : FrameSection) (abi : Abi) (memory : ℕ → Option ℕ) (first : Place)
        (limit : ℕ) (xs : List WalkedFrame) (stop : Stop)
        → Walks (over_rows frame.target (IsFoundAt frame) abi memory) first limit xs stop
        ↔ Walks (over_section frame abi memory) first limit xs stop }
    ensures rows { (table : RowTable) (abi : Abi) (memory : ℕ → Option ℕ) (first : Place)
        (limit : ℕ) (xs : List WalkedFrame) (stop : Stop)
        → Walks (over_rows table.target (λ address found. found ≡ row_at table address) abi memory)
        first limit xs stop
        ↔ Walks (over_table table abi memory) first limit xs stop }
    ensures table { (frame : FrameSection) (table : RowTable) (abi : Abi) (memory : ℕ → Option ℕ)
        (first : Place) (limit : ℕ) (xs : List WalkedFrame) (stop : Stop) → IsTableOf frame table
        → Walks (over_table table abi memory) first limit xs stop
        ↔ Walks (over_section frame abi memory) first limit xs stop }
{}

/// Through modules with accepted sections, unwinding at an address has at most one answer: a
/// caller, or none.
pub fn one_caller_through_modules()
    ensures { (sections : List (Module FrameSection)) (abi : Abi) (memory registers : ℕ → Option ℕ)
        (address : ℕ) (c d : Option Caller) → All (λ m. IsChecked m.rows) sections
        → over_sections abi memory sections registers address c
        → over_sections abi memory sections registers address d → c ≡ d }
{
    one_caller();
}

/// Through modules with accepted sections, unwinding at each address has an answer: a caller, or
/// none.
pub fn each_address_has_an_unwinding_through_modules()
    ensures { (sections : List (Module FrameSection)) (abi : Abi) (memory registers : ℕ → Option ℕ)
        (address : ℕ) → All (λ m. IsChecked m.rows) sections
        → (c : Option Caller) × over_sections abi memory sections registers address c }
{
    each_address_has_an_unwinding();
}

/// Through modules with accepted sections, a walk is determined by the place where it begins and by
/// its limit.
pub fn one_walk_through_modules()
    ensures { (sections : List (Module FrameSection)) (abi : Abi) (memory : ℕ → Option ℕ)
        (first : Place) (limit : ℕ) (xs ys : List WalkedFrame) (a b : Stop)
        → All (λ m. IsChecked m.rows) sections
        → Walks (over_sections abi memory sections) first limit xs a
        → Walks (over_sections abi memory sections) first limit ys b → (xs ≡ ys) × (a ≡ b) }
{
    one_caller_through_modules();
}

/// Through modules with accepted sections, there is a walk from each place with each limit.
pub fn each_has_a_walk_through_modules()
    ensures { (sections : List (Module FrameSection)) (abi : Abi) (memory : ℕ → Option ℕ)
        (first : Place) (limit : ℕ) → All (λ m. IsChecked m.rows) sections
        → (xs : List WalkedFrame) × (stop : Stop)
        × Walks (over_sections abi memory sections) first limit xs stop }
{
    each_address_has_an_unwinding_through_modules();
}

/// Through modules with accepted sections, a walk with a smaller limit is a prefix of the walk from
/// the same place with a greater limit.
pub fn longer_walks_through_modules_begin_so()
    ensures { (sections : List (Module FrameSection)) (abi : Abi) (memory : ℕ → Option ℕ)
        (first : Place) (m n : ℕ) (xs ys : List WalkedFrame) (a b : Stop)
        → All (λ m. IsChecked m.rows) sections
        → Walks (over_sections abi memory sections) first m xs a
        → Walks (over_sections abi memory sections) first n ys b → m ≤ n → xs ≡ take m ys }
{
    one_walk_through_modules();
}

/// Unwinding through modules with the rows that are looked up in each is equivalent to unwinding
/// through their sections or their tables. Unwinding through tables of sections is equivalent to
/// unwinding through the sections.
pub fn unwindings_through_what_is_found()
    ensures found { (modules : List (Module (Bor FrameSection))) (abi : Abi)
        (memory registers : ℕ → Option ℕ) (address : ℕ) (c : Option Caller)
        → over_modules_of_rows (λ s. s.now.target) (λ s. IsFoundAt s.now) abi memory modules
        registers address c
        ↔ over_sections abi memory (unborrowed modules) registers address c }
    ensures rows { (tables : List (Module RowTable)) (abi : Abi) (memory registers : ℕ → Option ℕ)
        (address : ℕ) (c : Option Caller)
        → over_modules_of_rows (λ t. t.target) (λ t address found. found ≡ row_at t address)
        abi memory tables registers address c
        ↔ over_tables abi memory tables registers address c }
    ensures borrowed { (tables : List (Module (Bor RowTable))) (abi : Abi)
        (memory registers : ℕ → Option ℕ) (address : ℕ) (c : Option Caller)
        → over_modules_of_rows (λ t. t.now.target) (λ t address found. found ≡ row_at t.now address)
        abi memory tables registers address c
        ↔ over_tables abi memory (unborrowed tables) registers address c }
    ensures tables { (sections : List (Module FrameSection)) (tables : List (Module RowTable))
        (abi : Abi) (memory registers : ℕ → Option ℕ) (address : ℕ) (c : Option Caller)
        → AreTablesOf sections tables
        → over_tables abi memory tables registers address c
        ↔ over_sections abi memory sections registers address c }
{}

/// A walk through modules with the rows that are looked up in each is equivalent to a walk through
/// their sections or their tables. A walk through tables of sections is equivalent to a walk
/// through the sections.
pub fn walks_through_what_is_found()
    ensures found { (modules : List (Module (Bor FrameSection))) (abi : Abi)
        (memory : ℕ → Option ℕ) (first : Place) (limit : ℕ) (xs : List WalkedFrame) (stop : Stop)
        → Walks (over_modules_of_rows (λ s. s.now.target) (λ s. IsFoundAt s.now) abi memory modules)
        first limit xs stop
        ↔ Walks (over_sections abi memory (unborrowed modules)) first limit xs stop }
    ensures rows { (tables : List (Module RowTable)) (abi : Abi) (memory : ℕ → Option ℕ)
        (first : Place) (limit : ℕ) (xs : List WalkedFrame) (stop : Stop)
        → Walks (over_modules_of_rows (λ t. t.target)
        (λ t address found. found ≡ row_at t address) abi memory tables) first limit xs stop
        ↔ Walks (over_tables abi memory tables) first limit xs stop }
    ensures borrowed { (tables : List (Module (Bor RowTable))) (abi : Abi) (memory : ℕ → Option ℕ)
        (first : Place) (limit : ℕ) (xs : List WalkedFrame) (stop : Stop)
        → Walks (over_modules_of_rows (λ t. t.now.target)
        (λ t address found. found ≡ row_at t.now address) abi memory tables) first limit xs stop
        ↔ Walks (over_tables abi memory (unborrowed tables)) first limit xs stop }
    ensures tables { (sections : List (Module FrameSection)) (tables : List (Module RowTable))
        (abi : Abi) (memory : ℕ → Option ℕ) (first : Place) (limit : ℕ) (xs : List WalkedFrame)
        (stop : Stop) → AreTablesOf sections tables
        → Walks (over_tables abi memory tables) first limit xs stop
        ↔ Walks (over_sections abi memory sections) first limit xs stop }
{
    unwindings_through_what_is_found();
}

/// Unwinding through one module that is loaded where it is linked is equivalent to unwinding with
/// the module's section, at addresses below 2^w, w being the size of an address in bits. If the
/// section is accepted, the same is true of walks that begin at such addresses.
pub fn one_module_is_its_section()
    ensures unwindings { (frame : FrameSection) (abi : Abi) (memory registers : ℕ → Option ℕ)
        (address : ℕ) (c : Option Caller) → address < 2 ^ width_of frame.target.address_size
        → over_sections abi memory (where_linked frame) registers address c
        ↔ over_section frame abi memory registers address c }
    ensures walks { (frame : FrameSection) (abi : Abi) (memory registers : ℕ → Option ℕ)
        (address limit : ℕ) (xs : List WalkedFrame) (stop : Stop) → IsChecked frame
        → address < 2 ^ width_of frame.target.address_size
        → Walks (over_sections abi memory (where_linked frame)) (first_place address registers)
        limit xs stop
        ↔ Walks (over_section frame abi memory) (first_place address registers) limit xs stop }
{
    dw_rows::laws::rows_have_good_expressions();
    dw_rules::laws::rules_under_abis();
    dw_eval::laws::numbers_of_evaluations_fit();
}

/// Relates the frames that a `Walk` gives one by one to a walk with a limit, whatever the unwinder.
/// If the `Walk` gives no further frame, the frames that it gave are the whole walk with any limit
/// above their number. If the limit is their number, they are the whole walk in any case. If
/// unwinding has an answer at every address, they are a prefix of a walk with any limit that is at
/// least their number.
pub fn frames_that_are_given_are_a_walk<U: Unwinder>()
    ensures more { (unwinder : U) (abi : Abi) (memory : ℕ → Option ℕ) (from : Progress)
        (xs : List WalkedFrame) (next : WalkedFrame)
        → GivesFrames (U.unwinds unwinder abi memory) from xs
        → GivesFrame (U.unwinds unwinder abi memory) (after from xs) next
        → GivesFrames (U.unwinds unwinder abi memory) from (xs ++ next ∷ [])
        × (after from (xs ++ next ∷ []) ≡ has_given next) }
    ensures ends { (unwinder : U) (abi : Abi) (memory : ℕ → Option ℕ) (first : Place)
        (begin : WalkedFrame) (limit : ℕ) (xs : List WalkedFrame) (stop : Stop)
        → IsFrameAt (U.unwinds unwinder abi memory) first begin
        → GivesFrames (U.unwinds unwinder abi memory) (about_to_give begin) xs
        → stop_of (after (about_to_give begin) xs) ≡ Some stop → length xs < limit
        → Walks (U.unwinds unwinder abi memory) first limit xs stop }
    ensures fills { (unwinder : U) (abi : Abi) (memory : ℕ → Option ℕ) (first : Place)
        (begin : WalkedFrame) (limit : ℕ) (xs : List WalkedFrame)
        → IsFrameAt (U.unwinds unwinder abi memory) first begin
        → GivesFrames (U.unwinds unwinder abi memory) (about_to_give begin) xs
        → length xs ≡ limit → Walks (U.unwinds unwinder abi memory) first limit xs Limit }
    ensures begins { (unwinder : U) (abi : Abi) (memory : ℕ → Option ℕ) (first : Place)
        (begin : WalkedFrame) (limit : ℕ) (xs : List WalkedFrame)
        → AlwaysUnwinds (U.unwinds unwinder abi memory)
        → IsFrameAt (U.unwinds unwinder abi memory) first begin
        → GivesFrames (U.unwinds unwinder abi memory) (about_to_give begin) xs
        → length xs ≤ limit → (others : List WalkedFrame) × (stop : Stop)
        × Walks (U.unwinds unwinder abi memory) first limit (xs ++ others) stop }
{}

/// With an accepted section, or with a table of one, unwinding has an answer at every address. So
/// it has through modules with accepted sections, and through modules with tables of accepted
/// sections. This is the premise of `begins` in `frames_that_are_given_are_a_walk`, for a `Walk`
/// over a section, over a table, or over modules with sections or tables, owned or borrowed.
pub fn sections_and_tables_always_unwind()
    ensures section { (frame : FrameSection) (abi : Abi) (memory : ℕ → Option ℕ) → IsChecked frame
        → AlwaysUnwinds (over_section frame abi memory)
        × AlwaysUnwinds (over_rows frame.target (IsFoundAt frame) abi memory) }
    ensures table { (frame : FrameSection) (table : RowTable) (abi : Abi)
        (memory : ℕ → Option ℕ) → IsChecked frame → IsTableOf frame table
        → AlwaysUnwinds (over_table table abi memory)
        × AlwaysUnwinds (over_rows table.target (λ address found. found ≡ row_at table address)
        abi memory) }
    ensures sections { (sections : List (Module FrameSection)) (abi : Abi)
        (memory : ℕ → Option ℕ) → All (λ m. IsChecked m.rows) sections
        → AlwaysUnwinds (over_sections abi memory sections) }
    ensures borrowed_sections { (modules : List (Module (Bor FrameSection))) (abi : Abi)
        (memory : ℕ → Option ℕ) → All (λ m. IsChecked m.rows) (unborrowed modules)
        → AlwaysUnwinds (over_modules_of_rows (λ s. s.now.target) (λ s. IsFoundAt s.now) abi memory
        modules) }
    ensures tables { (sections : List (Module FrameSection)) (tables : List (Module RowTable))
        (abi : Abi) (memory : ℕ → Option ℕ) → All (λ m. IsChecked m.rows) sections
        → AreTablesOf sections tables
        → AlwaysUnwinds (over_tables abi memory tables)
        × AlwaysUnwinds (over_modules_of_rows (λ t. t.target)
        (λ t address found. found ≡ row_at t address) abi memory tables) }
    ensures borrowed_tables { (sections : List (Module FrameSection))
        (tables : List (Module (Bor RowTable))) (abi : Abi) (memory : ℕ → Option ℕ)
        → All (λ m. IsChecked m.rows) sections → AreTablesOf sections (unborrowed tables)
        → AlwaysUnwinds (over_modules_of_rows (λ t. t.now.target)
        (λ t address found. found ≡ row_at t.now address) abi memory tables) }
{
    each_address_has_an_unwinding();
    each_address_has_an_unwinding_through_modules();
    unwindings_through_what_is_found();
}

/// A caller has at most 256 registers.
pub fn walk_limits()
    ensures { MAX_FOUND ≡ 256 }
{}
