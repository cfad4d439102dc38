//! Laws about records and instructions. The functions do nothing: the contract of each is a law.

ghost use Rattle.std.specs.Prelude.{◌≡◌, ◌+◌, ◌<◌, ◌≤◌, ◌↔◌, ℕ, List, [], ◌∷◌, ◌++◌, length, map, Contains, Result, Ok, Err, Some, None};
ghost use Rattle.dw_bytes.specs.declared.target.Target.{Target};
ghost use Rattle.dw_bytes.specs.declared.fault.Fault.{Fault};
ghost use Rattle.dw_bytes.specs.Reading.{ReadPosition, IsExact, section_from};
ghost use Rattle.dw_frame.specs.declared.dialect.Dialect.{Dialect};
ghost use Rattle.dw_frame.specs.Dialects.{ProgramPosition, debug_frame, in_dialect};
ghost use Rattle.dw_frame.specs.Instructions.{Instruction};
ghost use Rattle.dw_frame.specs.Records.{Cie, Record, cie_record};
ghost use Rattle.dw_frame.specs.Codes.{line_of, dwarf_line_of, EncodesInstruction, AreInstructions, instruction_at, instructions_of};
ghost use Rattle.dw_frame.specs.Sections.{IsRecord, AreRecords, record_at, records_from, records_of, cie_among};
ghost use Rattle.dw_frame.specs.Bounds.{StandsIn, EndsWithItsBlock, IsAfter, offset_of, Ascends, IsSound, IsSoundRecord};

/// The codes of `.debug_frame` are those of DWARF.
pub fn debug_frame_is_dwarf()
    ensures { (code : ℕ) → line_of debug_frame code ≡ dwarf_line_of code }
{}

/// No instruction's encoding is a proper prefix of another encoding, and the same bytes encode only
/// one instruction.
pub fn instructions_are_unambiguous()
    ensures { (dialect : Dialect) (target : Target) (at : ℕ) (a b x y : List ℕ) (i j : Instruction)
        → EncodesInstruction dialect target at a i → EncodesInstruction dialect target at b j
        → a ++ x ≡ b ++ y
        → (a ≡ b) × (i ≡ j) }
{}

/// An instruction is read exactly if the next bytes encode it.
pub fn instructions_are_exact()
    ensures { (dialect : Dialect) (r : ReadPosition) → IsExact (instruction_at dialect)
        (EncodesInstruction dialect r.target r.position) r }
{}

/// A program is read without a fault exactly if its bytes are the encodings of instructions, one
/// after another. Reading then gives these instructions with their offsets.
pub fn programs_are_instructions()
    ensures { (p : ProgramPosition) (items : List (ℕ × Instruction))
        → (instructions_of p ≡ map Ok items)
        ↔ AreInstructions p.dialect p.target p.position p.rest items }
{}

/// Reading all instructions gives the first instruction and then what is read after it. Reading
/// stops at the program's end, or at the first fault, which is then the last item.
pub fn instructions_come_in_order()
    ensures instruction { (d : Dialect) (r : ReadPosition) (i : Instruction) (after : ReadPosition)
        → instruction_at d r ≡ Ok (i, after)
        → instructions_of (in_dialect d r) ≡ Ok (r.position, i)
        ∷ instructions_of (in_dialect d after) }
    ensures fault { (d : Dialect) (r : ReadPosition) (fault : Fault) → 0 < length r.rest
        → instruction_at d r ≡ Err fault → instructions_of (in_dialect d r) ≡ Err fault ∷ [] }
    ensures nothing { (p : ProgramPosition) → length p.rest ≡ 0 → instructions_of p ≡ [] }
{}

/// If reading the instructions of a program gives an instruction, its first byte is inside the
/// program. If reading gives a fault, the fault is reported inside the program or at its end.
pub fn instructions_stand_in_their_program()
    ensures { (p : ProgramPosition) (item : Result (ℕ × Instruction) Fault)
        → Contains (instructions_of p) item → StandsIn p item }
{}

/// A record is read exactly if the next bytes encode it.
pub fn records_are_exact()
    ensures { (r : ReadPosition) → IsExact record_at (IsRecord r.target r.position) r }
{}

/// A section is read without a fault exactly if its bytes are the encodings of records, one after
/// another. Reading then gives these records.
pub fn sections_are_records()
    ensures { (target : Target) (section : List ℕ) (records : List Record)
        → (records_of target section ≡ map Ok records) ↔ AreRecords target 0 section records }
{}

/// If an instruction has an expression, the expression begins after the instruction's first byte,
/// and ends where the instruction ends.
pub fn instructions_end_with_their_expressions()
    ensures { (dialect : Dialect) (target : Target) (at : ℕ) (bytes : List ℕ) (i : Instruction)
        → EncodesInstruction dialect target at bytes i
        → EndsWithItsBlock target at (at + length bytes) i }
{}

/// Reading a section from an offset on gives the record there and then what is read after it.
/// Reading stops at the section's end, or at the first fault, which is then the last item.
pub fn records_come_in_order()
    ensures entry { (target : Target) (section : List ℕ) (at next : ℕ) (x : Record)
        → record_at (section_from target section at) ≡ Ok (x, section_from target section next)
        → records_from target section at ≡ Ok x ∷ records_from target section next }
    ensures fault { (target : Target) (section : List ℕ) (at : ℕ) (fault : Fault)
        → at < length section → record_at (section_from target section at) ≡ Err fault
        → records_from target section at ≡ Err fault ∷ [] }
    ensures nothing { (target : Target) (section : List ℕ) (at : ℕ) → length section ≤ at
        → records_from target section at ≡ [] }
{}

/// After a record is read, what is left to read is the section from a later offset on. That offset
/// is at most the section's length.
pub fn records_follow_each_other()
    ensures { (target : Target) (section : List ℕ) (at : ℕ) (x : Record) (after : ReadPosition)
        → at ≤ length section → record_at (section_from target section at) ≡ Ok (x, after)
        → IsAfter target section at after }
{}

/// The records of a section are in order of their offsets, and no two have the same offset.
pub fn records_ascend()
    ensures { (target : Target) (at : ℕ) (section : List ℕ) (records : List Record)
        → AreRecords target at section records → Ascends offset_of records }
{}

/// The field `offset` of a record is the offset of the record's first byte. The record's program
/// lies after that byte, and inside the record's bytes. The fields of the record are in their
/// ranges (see `IsSoundRecord` in Bounds.antt).
pub fn programs_lie_in_their_records()
    ensures { (target : Target) (at : ℕ) (bytes : List ℕ) (x : Record)
        → IsRecord target at bytes x
        → (offset_of x ≡ at) × IsSoundRecord target (at + length bytes) x }
{}

/// The program of each record that is read from a section lies inside the section. A CIE has
/// version 1, 3 or 4, and a return address register of at most 65535. The end of an FDE's range is
/// at most the target's highest address. A fault is reported inside the section or at its end.
pub fn records_are_sound()
    ensures { (target : Target) (section : List ℕ) (item : Result Record Fault)
        → Contains (records_of target section) item → IsSound target (length section) item }
{}

/// If `cie_among` finds a CIE, that CIE is one of the records and begins at the given offset. If it
/// finds none, none of the records is a CIE that begins there. If it gives a fault, reading the
/// records gives that fault.
pub fn the_cie_at_an_offset()
    ensures found { (offset : ℕ) (entries : List (Result Record Fault)) (c : Cie)
        → cie_among offset entries ≡ Ok (Some c) → Contains entries (Ok (cie_record c))
        × (c.offset ≡ offset) }
    ensures none { (offset : ℕ) (entries : List (Result Record Fault)) (c : Cie)
        → cie_among offset entries ≡ Ok None → Contains entries (Ok (cie_record c))
        → ¬ (c.offset ≡ offset) }
    ensures fault { (offset : ℕ) (entries : List (Result Record Fault)) (fault : Fault)
        → cie_among offset entries ≡ Err fault → Contains entries (Err fault) }
{}

/// An instruction has at least one byte.
pub fn no_instruction_is_empty()
    ensures { (dialect : Dialect) (target : Target) (at : ℕ) (bytes : List ℕ) (i : Instruction)
        → EncodesInstruction dialect target at bytes i → 0 < length bytes }
{}
