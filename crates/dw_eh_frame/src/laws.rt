//! Laws about the records of `.eh_frame`. The functions do nothing: the contract of each is a law.

ghost use Rattle.std.specs.Prelude.{◌≡◌, ◌<◌, ◌≤◌, ◌↔◌, ℕ, Bool, List, [], ◌∷◌, length, map, Contains, Ok, Err, None};
ghost use Rattle.dw_bytes.specs.declared.target.Target.{Target};
ghost use Rattle.dw_bytes.specs.declared.fault.Fault.{Fault};
ghost use Rattle.dw_bytes.specs.Answers.{values_in};
ghost use Rattle.dw_bytes.specs.Reading.{ReadPosition, IsExact, section_from};
ghost use Rattle.dw_frame.specs.Bounds.{ArePlaced};
ghost use Rattle.dw_frame.specs.Records.{Cie, Fde, Record, cie_record, fde_record, cies_among, fdes_among};
ghost use Rattle.dw_eh_frame.specs.declared.pointer.Bases.{Bases};
ghost use Rattle.dw_eh_frame.specs.declared.pointer.PointerEncoding.{PointerEncoding};
ghost use Rattle.dw_eh_frame.specs.declared.pointer.PointerFormat.{PointerFormat};
ghost use Rattle.dw_eh_frame.specs.Pointers.{pointer_at, range_at};
ghost use Rattle.dw_eh_frame.specs.Records.{EhFde, EhRecord, eh_fde, all_in_dwarf, eh_cie_at, eh_cie_head_at, eh_record_at, eh_records_from, eh_records_of, eh_reading_fault};
ghost use Rattle.dw_eh_frame.specs.Copies.{AreDistinct, SaysTheSame, distinct, eh_frame_records, without_copies};
ghost use Rattle.dw_eh_frame.specs.Items.{Item, item_at, items_from, items_of};
ghost use Rattle.dw_eh_frame.specs.Views.{HasCieAtItsPlace};
ghost use Rattle.dw_eh_frame.specs.Encoding.{IsEhCieHead, IsPointer, IsRange, AreEhRecords};

/// What a CIE says before its program is read exactly if the next bytes encode it.
pub fn cie_heads_are_exact()
    ensures { (r : ReadPosition) → IsExact eh_cie_head_at (IsEhCieHead r.target r.position) r }
{}

/// An FDE's first address, and its number of addresses, are read exactly if the next bytes encode
/// them.
pub fn addresses_are_exact()
    ensures initial { (bases : Bases) (encoding : PointerEncoding) (r : ReadPosition)
        → IsExact (pointer_at bases encoding) (IsPointer bases encoding r.target r.position) r }
    ensures range { (format : PointerFormat) (initial : ℕ) (r : ReadPosition)
        → IsExact (range_at format initial) (IsRange r.target format initial) r }
{}

/// The bytes of a section are the encodings of records, one after another, exactly if the section is
/// read as these records and without a fault.
pub fn sections_are_records()
    ensures { (is_aarch64 : Bool) (bases : Bases) (target : Target) (section : List ℕ) (records : List EhRecord)
        → AreEhRecords is_aarch64 bases target [] 0 section records
        ↔ ((eh_records_of is_aarch64 bases target section ≡ map Ok records)
        × (eh_reading_fault is_aarch64 bases target section ≡ None)) }
{}

/// The same bytes encode only one list of records.
pub fn records_are_unambiguous()
    ensures { (is_aarch64 : Bool) (bases : Bases) (target : Target) (section : List ℕ) (a b : List EhRecord)
        → AreEhRecords is_aarch64 bases target [] 0 section a
        → AreEhRecords is_aarch64 bases target [] 0 section b → a ≡ b }
{}

/// As DWARF has them, and without exact copies, the records of a section lie one after another in it:
/// each is sound, and its program ends where the next record may begin.
pub fn records_lie_one_after_another()
    ensures { (is_aarch64 : Bool) (bases : Bases) (target : Target) (section : List ℕ) (records : List EhRecord)
        → AreEhRecords is_aarch64 bases target [] 0 section records
        → ArePlaced target 0 (length section) (distinct (all_in_dwarf records)) }
{}

/// The CIE of an FDE is what is read at the FDE's CIE_pointer. So FDEs with the same CIE_pointer have
/// the same CIE.
pub fn cies_are_read_at_their_pointers()
    ensures { (is_aarch64 : Bool) (bases : Bases) (target : Target) (section : List ℕ) (records : List EhRecord)
        → AreEhRecords is_aarch64 bases target [] 0 section records → (e : EhFde) → Contains records (eh_fde e)
        → eh_cie_at is_aarch64 target section e.fde.cie_pointer ≡ Ok e.cie }
{}

/// Reading a section from an offset on gives the record there and then what is read after it.
/// Reading stops at the section's end, or at the first fault, which is then the last item.
pub fn records_come_in_order()
    ensures entry { (is_aarch64 : Bool) (bases : Bases) (target : Target) (section : List ℕ) (at next : ℕ) (x : EhRecord)
        → eh_record_at is_aarch64 bases section (section_from target section at)
        ≡ Ok (x, section_from target section next)
        → eh_records_from is_aarch64 bases target section at
        ≡ Ok x ∷ eh_records_from is_aarch64 bases target section next }
    ensures fault { (is_aarch64 : Bool) (bases : Bases) (target : Target) (section : List ℕ) (at : ℕ) (fault : Fault)
        → at < length section
        → eh_record_at is_aarch64 bases section (section_from target section at) ≡ Err fault
        → eh_records_from is_aarch64 bases target section at ≡ Err fault ∷ [] }
    ensures nothing { (is_aarch64 : Bool) (bases : Bases) (target : Target) (section : List ℕ) (at : ℕ)
        → length section ≤ at → eh_records_from is_aarch64 bases target section at ≡ [] }
{}

/// No CIE of a section is left out. If an FDE is left out, another one is kept that covers the same
/// addresses and has the same CIE and a program of the same bytes. All records that are kept were
/// read.
pub fn only_copies_are_left_out()
    ensures cies { (is_aarch64 : Bool) (bases : Bases) (target : Target) (section : List ℕ) (c : Cie)
        → Contains (all_in_dwarf (values_in (eh_records_of is_aarch64 bases target section))) (cie_record c)
        → Contains (eh_frame_records is_aarch64 bases target section) (cie_record c) }
    ensures fdes { (is_aarch64 : Bool) (bases : Bases) (target : Target) (section : List ℕ) (f : Fde)
        → Contains (all_in_dwarf (values_in (eh_records_of is_aarch64 bases target section))) (fde_record f)
        → (g : Fde) × Contains (eh_frame_records is_aarch64 bases target section) (fde_record g)
        × SaysTheSame g f }
    ensures only { (is_aarch64 : Bool) (bases : Bases) (target : Target) (section : List ℕ) (x : Record)
        → Contains (eh_frame_records is_aarch64 bases target section) x
        → Contains (all_in_dwarf (values_in (eh_records_of is_aarch64 bases target section))) x }
{}

/// If no two FDEs cover the same addresses, none is an exact copy, and all records are kept.
pub fn records_without_copies_are_kept()
    ensures { (target : Target) (at end : ℕ) (records : List Record) → ArePlaced target at end records
        → AreDistinct records → distinct records ≡ records }
{}

/// Leaving exact copies out moves nothing: all CIEs stay, the FDEs are those that `without_copies`
/// returns, and records that lie one after another still do.
pub fn copies_are_left_out_in_place()
    ensures cies { (records : List Record) → cies_among (distinct records) ≡ cies_among records }
    ensures fdes { (records : List Record) → fdes_among (distinct records) ≡ without_copies [] (fdes_among records) }
    ensures placed { (target : Target) (at end : ℕ) (records : List Record) → ArePlaced target at end records
        → ArePlaced target at end (distinct records) }
{}

/// Where records that can't be read are passed over, reading a section from an offset on gives the
/// record there, or its fault, and then what is read after it. Reading stops at the section's end,
/// or at a length that can't be read, whose fault is then the last item.
pub fn items_come_in_order()
    ensures entry { (is_aarch64 : Bool) (bases : Bases) (target : Target) (section : List ℕ) (at next : ℕ) (x : Item)
        → item_at is_aarch64 bases section (section_from target section at)
        ≡ Ok (x, section_from target section next)
        → items_from is_aarch64 bases target section at
        ≡ Ok x ∷ items_from is_aarch64 bases target section next }
    ensures fault { (is_aarch64 : Bool) (bases : Bases) (target : Target) (section : List ℕ) (at : ℕ) (fault : Fault)
        → at < length section
        → item_at is_aarch64 bases section (section_from target section at) ≡ Err fault
        → items_from is_aarch64 bases target section at ≡ Err fault ∷ [] }
    ensures nothing { (is_aarch64 : Bool) (bases : Bases) (target : Target) (section : List ℕ) (at : ℕ)
        → length section ≤ at → items_from is_aarch64 bases target section at ≡ [] }
{}

/// Where records that can't be read are passed over, a CIE is still what is read at its own offset, and
/// the CIE of an FDE what is read at the FDE's CIE_pointer.
pub fn items_have_their_cies()
    ensures { (is_aarch64 : Bool) (bases : Bases) (target : Target) (section : List ℕ) (at : ℕ) (x : EhRecord)
        → Contains (values_in (items_of is_aarch64 bases target section)) (at, Ok x)
        → HasCieAtItsPlace is_aarch64 target section x }
{}
