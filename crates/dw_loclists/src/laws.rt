//! Laws of location lists. Each is a function that does nothing; its contract states the law.

ghost use Rattle.std.specs.Prelude.{◌≡◌, ◌+◌, ◌<◌, ◌≤◌, ◌↔◌, ℕ, List, [], ◌∷◌, ◌++◌, length, map, Contains, Ok, Err, None, Some};
ghost use Rattle.dw_bytes.specs.declared.target.Target.{Target};
ghost use Rattle.dw_bytes.specs.declared.fault.Fault.{Fault};
ghost use Rattle.dw_bytes.specs.Operands.{Block};
ghost use Rattle.dw_bytes.specs.Reading.{ReadPosition, IsExact, section_from};
ghost use Rattle.dw_stack.specs.declared.state.Kind.TheVariants.{Location};
ghost use Rattle.dw_stack.specs.Expressions.{IsGoodExpression};
ghost use Rattle.dw_loclists.specs.Entries.{Entry, IsEntry, expression_in};
ghost use Rattle.dw_loclists.specs.Lists.{Loclist, IsList, Table, IsTable, AreTables, lists_of, starts_of, IsWellFormed};
ghost use Rattle.dw_loclists.specs.Locations.{base_after, held_by, bounded_at, defaults_in};
ghost use Rattle.dw_stack.specs.Located.{LocatedExpression};
ghost use Rattle.dw_loclists.specs.Reading.{IsListAt, entry_at, list_at, table_at, tables_from, tables_of, lists_fault, ListSection, IsChecked};
ghost use Rattle.dw_loclists.specs.Reading.{tables_in, lists_in, located_in};
ghost use Rattle.dw_loclists.specs.Bounds.{AllWithin, Ascends, StandsIn};

/// No entry's encoding is a prefix of another's, and the same bytes encode only one entry.
pub fn entries_are_unambiguous()
    ensures { (target : Target) (at : ℕ) (a b x y : List ℕ) (d e : Entry) →
        IsEntry target at a d → IsEntry target at b e → a ++ x ≡ b ++ y → (a ≡ b) × (d ≡ e) }
{}

/// Entries, lists and tables are read exactly from the bytes that encode them. For lists and tables
/// this includes the further rules: a list has at most one default, no range ends before it begins,
/// each expression passes the check as a location, and each array offset leads to a list.
pub fn list_reads_are_exact()
    ensures entries { (r : ReadPosition) → IsExact entry_at (IsEntry r.target r.position) r }
    ensures lists { (r : ReadPosition) → IsExact list_at (IsList r.target r.position) r }
    ensures tables { (r : ReadPosition) → IsExact table_at (IsTable r.target r.position) r }
{}

/// Reading a section gives certain tables, without a fault, exactly if the section's bytes are the
/// encodings of those tables without gaps.
pub fn sections_are_tables()
    ensures { (target : Target) (section : List ℕ) (tables : List Table) →
        (tables_of target section ≡ map Ok tables) ↔ AreTables target 0 section tables }
{}

/// A section has no fault exactly if it is well formed (`IsWellFormed`).
pub fn list_sections_without_fault_are_well_formed()
    ensures { (target : Target) (section : List ℕ) →
        (lists_fault target section ≡ None) ↔ IsWellFormed target section }
{}

/// Reading a section from an offset on gives the table there followed by the tables after it; or
/// only a fault, if the table there has one; or nothing at the section's end.
pub fn tables_come_in_order()
    ensures table { (target : Target) (section : List ℕ) (at next : ℕ) (t : Table) →
        table_at (section_from target section at) ≡ Ok (t, section_from target section next) →
        tables_from target section at ≡ Ok t ∷ tables_from target section next }
    ensures fault { (target : Target) (section : List ℕ) (at : ℕ) (fault : Fault) →
        at < length section → table_at (section_from target section at) ≡ Err fault →
        tables_from target section at ≡ Err fault ∷ [] }
    ensures nothing { (target : Target) (section : List ℕ) (at : ℕ) →
        length section ≤ at → tables_from target section at ≡ [] }
{}

/// What an accepted section contains: its tables are the ones that its bytes encode, its lists and
/// expressions are in order of their offsets, at most one list begins at an offset, and each
/// expression passes the check as a location and has the section's target.
pub fn checked_list_sections()
    ensures tables { (s : ListSection) →
        IsChecked s → AreTables s.target 0 s.section (tables_in s) }
    ensures lists_ascend { (s : ListSection) →
        IsChecked s → Ascends (λ (n : ℕ). n) (starts_of (lists_in s)) }
    ensures expressions_ascend { (s : ListSection) →
        IsChecked s → Ascends (λ (x : LocatedExpression). x.offset) (located_in s) }
    ensures one_list { (s : ListSection) (l m : Loclist) →
        IsChecked s → Contains (lists_in s) l → Contains (lists_in s) m →
        l.offset ≡ m.offset → l ≡ m }
    ensures good { (s : ListSection) (l : Loclist) (e : Entry) (b : Block) →
        IsChecked s → Contains (lists_in s) l → Contains l.entries e →
        expression_in e ≡ Some b → IsGoodExpression Location b.target b.bytes }
    ensures target { (s : ListSection) (l : Loclist) (e : Entry) (b : Block) →
        IsChecked s → Contains (lists_in s) l → Contains l.entries e →
        expression_in e ≡ Some b → b.target ≡ s.target }
{}

/// Whether an entry holds at an address is decided with the base address that the nearest
/// base_address in front of the entry in its list sets, or with the unit's base address if there is
/// none. A list has at most one default.
pub fn entries_hold_by_the_base_before_them()
    ensures held { (base address : ℕ) (before : List Entry) (e : Entry) (past : List Entry) →
        bounded_at base address (before ++ e ∷ past) ≡ bounded_at base address before
        ++ (held_by (base_after base before) address e
        ++ bounded_at (base_after base (before ++ e ∷ [])) address past) }
    ensures one_default { (target : Target) (at : ℕ) (bytes : List ℕ) (l : Loclist) →
        IsList target at bytes l → length (defaults_in l.entries) ≤ 1 }
{}

/// Where entries' expressions and lists are in a section: an expression begins after its entry's
/// first byte, ends where the entry ends, and has the section's target; the bytes at a list's
/// offset encode the list.
pub fn lists_and_expressions_stand_in_their_bytes()
    ensures expressions { (target : Target) (at : ℕ) (bytes : List ℕ) (e : Entry) →
        IsEntry target at bytes e → AllWithin target at (at + length bytes) (expression_in e) }
    ensures lists { (target : Target) (at : ℕ) (bytes : List ℕ) (tables : List Table) (l : Loclist) →
        AreTables target at bytes tables → Contains (lists_of tables) l →
        StandsIn target at bytes l }
{}

/// A list of an accepted section that is read by itself is the same list.
pub fn lists_by_themselves_are_the_sections()
    ensures { (s : ListSection) (l : Loclist) → IsChecked s → Contains (lists_in s) l →
        IsListAt s.target s.section l.offset l }
{}
