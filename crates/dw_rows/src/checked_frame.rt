//! A checked frame section: the check of the section, and look-ups of its FDEs and rows.

ghost use Rattle.std.specs.Prelude.{◌≡◌, ◌+◌, ◌<◌, ◌≤◌, ◌^◌, None, Some, Contains, length, map, option_map, IfOk, IfErr, IfSome, IfNone};
ghost use Rattle.std.specs.Prelude.{find};
ghost use Rattle.dw_rows.specs.UnwindRows.{has_address};
ghost use Rattle.dw_frame.specs.Records.{Cie, Fde};
ghost use Rattle.dw_frame.specs.Sections.{records_of, top_of};
ghost use Rattle.dw_frame.specs.Views.{cie_of, fde_of};
ghost use Rattle.dw_bytes.specs.Answers.{Checks, Answers, fault_in};
ghost use Rattle.dw_rules.specs.ProgramFault.{cie_fault, fde_fault};
ghost use Rattle.dw_rows.specs.Section.{IsCoverOf, first_fault, overlap_fault, programs_fault, parts_fault, section_fault, IsChecked};
ghost use Rattle.dw_rows.specs.Section.{AreReadIn, frame_by, frame_of, cie_in, placed_rows, rows_in, row_count, row_of};
ghost use Rattle.std.specs.List.{flat_map};
ghost use Rattle.dw_rows.specs.AddressIndex.{cie_offset, fde_offset, IsAddressIndex};
ghost use Rattle.dw_frame.specs.Bounds.{Ascends};
ghost use Rattle.dw_rules.specs.ProgramState.{IsLeftBy};
ghost use Rattle.dw_rules.specs.Initial.{AreLeftBy};
ghost use Rattle.dw_stack.specs.Located.{all_located};
ghost use Rattle.dw_rules.specs.Expressions.{cie_expressions, frame_expressions};
ghost use Rattle.dw_rules.specs.BorrowedExpressions.{borrowed_by};
ghost use Rattle.dw_rules.specs.RowExpressions.{row_expressions};
ghost use Rattle.dw_rows.specs.RowCursors.{Lends};
ghost use Rattle.dw_rows.specs.Listing.{IsKept};

use crate::checked_expressions::CheckedExpressions;
use crate::index::{IndexEntry, first_overlap, index_of};
use crate::listed_frame::ListedFrame;
use crate::lookup::write_row_at;
use crate::record_checks::{check_cies, check_fdes, check_pointers};
use crate::row_iter::Rows;
use dw_bytes::{Fault, FaultKind, Target};
use dw_frame::{CommonInformationEntry, Entry, FrameDescriptionEntry, entries};
use dw_rules::{
    BorrowedExpressions, InitialRules, RowExpressions, UnwindContext, UnwindState, UnwindTableRow,
};
use dw_stack::CheckedExpression;
use std::alloc::Global;
use std::marker::Model;

/// A section that passed `check_frame` or `check_records`: each CIE_pointer is the offset of a CIE,
/// each program passes its check, and no address is covered by two FDEs.
///
/// ```rust
/// let frame = check_frame(alloc, section, target)?;
/// for fde in frame.fdes() {
///     for row in frame.rows(fde) {
///         println!(rt; "{:#x}..{:#x}", row.start_address(), row.end_address())?;
///     }
/// }
///
/// // Where register 6 of the caller is saved, at one address.
/// if let Some(row) = frame.row_for_address(0x1002) {
///     if let RegisterRule::Offset(offset) = row.register(6) {
///         println!(rt; "{offset} from the CFA")?;
///     }
/// }
/// ```
#[derive(Drop)]
pub struct CheckedFrame<'a> {
    listed: ListedFrame<'a>,
    /// The checked expressions of all programs, each with the offset of its first byte in the
    /// section. Those of the CIEs come first.
    expressions: Vec<(u32, CheckedExpression<'a>)>,
    /// How many of the expressions belong to CIEs.
    in_cies: usize,
    /// How many rows all FDEs have.
    rows: u128,
}

impl<'a> Model for CheckedFrame<'a> {
    ghost use Rattle.dw_rows.specs.Section.{FrameSection};
    ghost use Rattle.dw_rows.specs.Listing.{IsKept};
    ghost use Rattle.dw_stack.specs.Located.{all_located};

    ghost Value = { FrameSection };

    ghost view = { λ c. c.listed };

    ghost invariant = { λ c. IsKept c.listed (all_located c.expressions.items) c.in_cies c.rows };
}

/// Compilers usually write FDEs of at least this many bytes. The list of FDEs is allocated with
/// room for one FDE for each `USUAL_FDE` bytes of the section, so it rarely has to grow.
const USUAL_FDE: usize = 48;

/// Reads a section in one pass, and returns its CIEs and its FDEs.
fn records_of<'a>(
    alloc: Global,
    section: &'a [u8],
    target: Target,
) -> Result<
    (
        Vec<CommonInformationEntry<'a>>,
        Vec<FrameDescriptionEntry<'a>>,
    ),
    Fault,
>
    requires { length section.now < 2 ^ 32 }
    ensures read { Answers (fault_in (records_of target section.now)) result }
    ensures cies { IfOk result (λ records. map cie_of records.0.items ≡
        (frame_of target section.now).cies) }
    ensures fdes { IfOk result (λ records. map fde_of records.1.items ≡
        (frame_of target section.now).fdes) }
{
    let mut cies = Vec::new(alloc);
    let mut fdes = Vec::with_capacity(alloc, section.len() / USUAL_FDE)?;
    for entry in entries(section, target) {
        match entry? {
            Entry::Cie(cie) => cies.push(cie)?,
            Entry::Fde(fde) => fdes.push(fde)?,
        }
    }
    Ok((cies, fdes))
}

/// Checks that no address is covered by two FDEs. `index` has the FDEs in order of address.
pub(crate) fn check_overlap(
    fdes: &[FrameDescriptionEntry<'_>],
    index: &[IndexEntry],
) -> Result<(), Fault>
    requires fdes { Ascends fde_offset (map fde_of fdes.now) }
    requires index { IsAddressIndex (map fde_of fdes.now) index.now }
    ensures { Checks (first_fault (overlap_fault (map fde_of fdes.now))
        (map fde_of fdes.now)) result }
{
    match first_overlap(fdes, index) {
        Some(fde) => Err(Fault {
            kind: FaultKind::Overlap,
            at: fde.offset,
        }),
        None => Ok(()),
    }
}

/// What the check of a section's programs returns.
#[derive(Drop)]
struct CheckedPrograms<'a> {
    /// For each CIE, in the order of the section: the rules in force after its initial
    /// instructions.
    initial: InitialRules,
    /// The checked expressions, each with the offset of its first byte in the section. Those of the
    /// CIEs come first.
    expressions: Vec<(u32, CheckedExpression<'a>)>,
    /// How many of the expressions belong to CIEs.
    in_cies: usize,
    /// How many rows all FDEs have.
    rows: u128,
}

/// Checks the CIE_pointers first, then the programs of the CIEs, then the programs of the FDEs.
fn check_programs<'a>(
    alloc: Global,
    cies: &[CommonInformationEntry<'a>],
    fdes: &[FrameDescriptionEntry<'a>],
) -> Result<CheckedPrograms<'a>, Fault>
    requires { Ascends cie_offset (map cie_of cies.now) }
    ensures answer { Answers (programs_fault (map cie_of cies.now) (map fde_of fdes.now)) result }
    ensures left { IfOk result (λ programs. AreLeftBy (map cie_of cies.now) programs.initial) }
    ensures expressions { IfOk result (λ programs. all_located programs.expressions.items
        ≡ frame_expressions (map cie_of cies.now) (map fde_of fdes.now)) }
    ensures in_cies { IfOk result (λ programs. programs.in_cies
        ≡ length (cie_expressions (map cie_of cies.now))) }
    ensures rows { IfOk result (λ programs. programs.rows
        ≡ length (flat_map (placed_rows (map cie_of cies.now)) (map fde_of fdes.now))) }
{
    check_pointers(cies, fdes)?;
    let mut context = UnwindContext::new();
    let mut checked = CheckedExpressions::new(alloc);
    let initial = check_cies(alloc, &mut context.state, &mut checked, cies)?;
    let in_cies = checked.count();
    let rows = check_fdes(&mut context, &mut checked, cies, &initial, fdes, &[])?;
    Ok(CheckedPrograms {
        initial,
        expressions: checked.to_vec()?,
        in_cies,
        rows,
    })
}

/// Checks the CIE_pointers, then the programs, then that no address is covered by two FDEs. Returns
/// what `check_programs` returns, and the index of the FDEs in order of address. `size` is how many
/// bytes the section has.
#[tactic(auto, unfolding(crate::specs::Section::parts_fault))]
fn check_parts<'a>(
    alloc: Global,
    cies: &[CommonInformationEntry<'a>],
    fdes: &[FrameDescriptionEntry<'a>],
    size: usize,
) -> Result<(CheckedPrograms<'a>, Vec<IndexEntry>), Fault>
    requires cies { Ascends cie_offset (map cie_of cies.now) }
    requires fdes { Ascends fde_offset (map fde_of fdes.now) }
    ensures answer { Answers (parts_fault (map cie_of cies.now) (map fde_of fdes.now)) result }
    ensures left { IfOk result (λ parts. AreLeftBy (map cie_of cies.now) (parts.0).initial) }
    ensures expressions { IfOk result (λ parts. all_located (parts.0).expressions.items
        ≡ frame_expressions (map cie_of cies.now) (map fde_of fdes.now)) }
    ensures in_cies { IfOk result (λ parts. (parts.0).in_cies
        ≡ length (cie_expressions (map cie_of cies.now))) }
    ensures rows { IfOk result (λ parts. (parts.0).rows
        ≡ length (flat_map (placed_rows (map cie_of cies.now)) (map fde_of fdes.now))) }
    ensures index { IfOk result (λ parts. IsAddressIndex (map fde_of fdes.now) parts.1.items) }
{
    let programs = check_programs(alloc, cies, fdes)?;
    let index = index_of(alloc, fdes, size)?;
    check_overlap(fdes, &index)?;
    Ok((programs, index))
}

/// Checks the CIEs and FDEs of a section, each in the order of their offsets: the CIE_pointer of each
/// FDE, the programs of the CIEs, the programs of the FDEs, and that no address is covered by two
/// FDEs. It takes as long as the programs, and n log n for n FDEs.
///
/// The error is the first fault in that order: `NoSuchCie` (9) at a CIE_pointer; a fault of
/// `check_cie` or `check_fde`; `Overlap` (23) at the first FDE of the section that shares an address
/// with an earlier FDE. `Memory` (60) has offset 0.
pub fn check_records<'a>(
    alloc: Global,
    section: &'a [u8],
    target: Target,
    cies: Vec<CommonInformationEntry<'a>>,
    fdes: Vec<FrameDescriptionEntry<'a>>,
) -> Result<CheckedFrame<'a>, Fault>
    requires { AreReadIn target (length section.now) (map cie_of cies.items) (map fde_of fdes.items) }
    ensures answer { Answers (parts_fault (map cie_of cies.entry.items) (map fde_of fdes.entry.items)) result }
    ensures inside { IfErr result (λ fault. fault.at ≤ length section.now) }
    ensures frame { IfOk result (λ frame. frame ≡ frame_by target section.now
        (map cie_of cies.entry.items) (map fde_of fdes.entry.items)) }
{
    let (programs, index) = check_parts(alloc, &cies, &fdes, section.len())?;
    let CheckedPrograms {
        initial,
        expressions,
        in_cies,
        rows,
    } = programs;
    let listed = ListedFrame::of_parts(target, section, cies, initial, fdes, index);
    Ok(CheckedFrame {
        listed,
        expressions,
        in_cies,
        rows,
    })
}

/// Checks a section of fewer than 2^32 bytes: that its CIEs and FDEs can be read, then the
/// CIE_pointer of each FDE, the programs of the CIEs, the programs of the FDEs, and that no address
/// is covered by two FDEs.
///
/// The error is the first fault in that order: a fault of `entries`; `NoSuchCie` (9) at a
/// CIE_pointer; a fault of `check_cie` or `check_fde`; `Overlap` (23) at the first FDE of the
/// section that shares an address with an earlier FDE. `Memory` (60) has offset 0.
#[tactic(auto, unfolding(crate::specs::Section::section_fault))]
pub fn check_frame<'a>(
    alloc: Global,
    section: &'a [u8],
    target: Target,
) -> Result<CheckedFrame<'a>, Fault>
    requires { length section.now < 2 ^ 32 }
    ensures answer { Answers (section_fault target section.now) result }
    ensures inside { IfErr result (λ fault. fault.at ≤ length section.now) }
    ensures frame { IfOk result (λ frame. frame ≡ frame_of target section.now) }
{
    let (cies, fdes) = records_of(alloc, section, target)?;
    check_records(alloc, section, target, cies, fdes)
}

impl<'a> CheckedFrame<'a> {
    /// A listed section whose programs have all been checked, with their expressions. `in_cies` of them
    /// belong to CIEs, and all FDEs have `rows` rows.
    pub(crate) fn of_parts(
        listed: ListedFrame<'a>,
        expressions: Vec<(u32, CheckedExpression<'a>)>,
        in_cies: usize,
        rows: u128,
    ) -> Self
        requires { IsKept listed (all_located expressions.items) in_cies rows }
        ensures { result ≡ listed.entry }
    {
        CheckedFrame {
            listed,
            expressions,
            in_cies,
            rows,
        }
    }

    /// The section's CIEs and FDEs.
    pub fn listed(&self) -> &ListedFrame<'a>
        ensures listed { result.now ≡ self.now }
        ensures checked { IsChecked self.now }
    {
        &self.listed
    }

    /// The target that the section was read with.
    pub fn target(&self) -> Target
        ensures { result ≡ self.now.target }
    {
        self.listed.target()
    }

    /// The bytes of the section, which has passed its check.
    pub fn section(&self) -> &'a [u8]
        ensures section { result.now ≡ self.now.section }
        ensures checked { IsChecked self.now }
    {
        self.listed.section()
    }

    /// All CIEs, in the order of the section. Each CIE's program has passed its check.
    pub fn cies(&self) -> &[CommonInformationEntry<'a>]
        ensures cies { map cie_of result.now ≡ self.now.cies }
        ensures good { (c : Cie) → Contains self.now.cies c → cie_fault c ≡ None }
    {
        self.listed.cies()
    }

    /// All FDEs, in the order of the section. No FDE covers an address past the target's highest
    /// one.
    pub fn fdes(&self) -> &[FrameDescriptionEntry<'a>]
        ensures fdes { map fde_of result.now ≡ self.now.fdes }
        ensures fit { (f : Fde) → Contains self.now.fdes f
            → f.initial_location + f.address_range ≤ top_of self.now.target }
    {
        self.listed.fdes()
    }

    /// The number of rows of all FDEs, added up. The check counted them, so this is O(1).
    pub fn row_count(&self) -> u128
        ensures { result ≡ row_count self.now }
    {
        self.rows
    }

    /// The checked expressions of all programs, each with the offset of its first byte in the
    /// section. The expressions of the CIEs come first, then the expressions of the FDEs, each in
    /// the order of the section.
    pub fn expressions(&self) -> &[(u32, CheckedExpression<'a>)]
        ensures { all_located result.now ≡ self.now.expressions }
    {
        self.expressions.as_slice()
    }

    /// The FDE that covers an address, or `None` if no FDE covers it. At most one FDE covers an
    /// address. The FDE is found by binary search.
    pub fn fde_for_address(&self, address: u64) -> Option<FrameDescriptionEntry<'a>>
        ensures only { IsCoverOf self.now.fdes address (option_map fde_of result) }
        ensures fit { IfSome result (λ fde. fde.initial_location + fde.address_range
            ≤ top_of self.now.target) }
    {
        self.listed.fde_for_address(address)
    }

    /// The CIE of one of this section's FDEs, found by binary search. The programs of both have
    /// passed their checks.
    pub fn cie_of(&self, fde: &FrameDescriptionEntry<'a>) -> CommonInformationEntry<'a>
        requires { Contains self.now.fdes (fde_of fde.now) }
        ensures cie { cie_in self.now (fde_of fde.now) ≡ Some (cie_of result) }
        ensures cie_program { cie_fault (cie_of result) ≡ None }
        ensures fde_program { fde_fault (cie_of result) (fde_of fde.now) ≡ None }
    {
        self.listed.cie_of(fde)
    }

    /// Returns the CIE of one of this section's FDEs, and stores in `state`, as the initial rules,
    /// the rules that the CIE's program leaves: the FDE's program begins with them. The search
    /// first tries the CIEs at the indices `near` and `near + 1`, and sets `near` to the index of
    /// the FDE's CIE.
    pub fn begin_with_cie(
        &self,
        state: &mut UnwindState,
        near: &mut usize,
        fde: &FrameDescriptionEntry<'a>,
    ) -> CommonInformationEntry<'a>
        requires { Contains self.now.fdes (fde_of fde.now) }
        ensures cie { cie_in self.now (fde_of fde.now) ≡ Some (cie_of result) }
        ensures fde_program { fde_fault (cie_of result) (fde_of fde.now) ≡ None }
        ensures left { IsLeftBy (cie_of result) state.new.initial_rules }
        ensures lends { Lends self.now.expressions (cie_of result) (fde_of fde.now) }
    {
        self.listed.begin_with_cie(state, near, fde)
    }

    /// An index entry for each FDE that covers at least one address, in order of address.
    pub fn index(&self) -> &[IndexEntry]
        ensures index { IsAddressIndex self.now.fdes result.now }
        ensures checked { IsChecked self.now }
    {
        self.listed.index()
    }

    /// The section's checked expressions, borrowed.
    pub fn borrowed(&self) -> BorrowedExpressions<'_, 'a>
        ensures { borrowed_by result ≡ self.now.expressions }
    {
        let (cies, fdes) = self.expressions.split_at(self.in_cies);
        BorrowedExpressions::new(cies, fdes)
    }

    /// The section's checked expressions, borrowed, in the type that a row stores. That type can
    /// also refer to the expressions of a compiled table.
    pub(crate) fn lent(&self) -> RowExpressions<'_, 'a>
        ensures { row_expressions result ≡ self.now.expressions }
    {
        RowExpressions::Borrowed(self.borrowed())
    }

    /// The rows of one of this section's FDEs, in order of address. The iterator runs the FDE's
    /// program again, one row at a time, starting from the stored rules that the CIE's program
    /// leaves. It allocates no memory, but it has 40,000 bytes, which are cleared for each new one:
    /// `rows_in` and `rows_into` save that.
    #[inline(always)]
    pub fn rows(&self, fde: &FrameDescriptionEntry<'a>) -> Rows<'_, 'a>
        requires { Contains self.now.fdes (fde_of fde.now) }
        ensures { result ≡ rows_in self.now (fde_of fde.now) }
    {
        Rows::of(self, fde)
    }

    /// Restarts `rows` at the first row of another of this section's FDEs. Then `rows` gives the
    /// same rows as an iterator that the method `rows` returns for that FDE. Returns the FDE's CIE.
    pub fn rows_into<'f>(
        &'f self,
        fde: &FrameDescriptionEntry<'a>,
        rows: &mut Rows<'f, 'a>,
    ) -> CommonInformationEntry<'a>
        requires { Contains self.now.fdes (fde_of fde.now) }
        ensures rows { rows.new ≡ rows_in self.now (fde_of fde.now) }
        ensures cie { cie_in self.now (fde_of fde.now) ≡ Some (cie_of result) }
        ensures fde_program { fde_fault (cie_of result) (fde_of fde.now) ≡ None }
    {
        rows.restart_in(self, fde)
    }

    /// The row of an address, or `None` if no FDE covers the address. Finding it allocates no
    /// memory. The FDE is found by binary search. Its program is run up to that row, starting from
    /// the stored rules that the CIE's program leaves.
    pub fn row_for_address(&self, address: u64) -> Option<UnwindTableRow<'_, 'a>>
        ensures row { result ≡ row_of self.now address }
        ensures fit { IfSome result (λ row. (row.start ≤ top_of self.now.target)
            × (row.end ≤ top_of self.now.target)) }
    {
        let mut row = UnwindTableRow::empty();
        self.row_for_address_into(address, &mut row)?;
        Some(row)
    }

    /// Overwrites `row` with the row of an address, and returns a pair: the CIE of the FDE that
    /// covers the address, and that FDE. If no FDE covers the address, the result is `None`, and
    /// `row` is unchanged. The FDE and the CIE are each found by one binary search.
    pub fn row_for_address_into<'f>(
        &'f self,
        address: u64,
        row: &mut UnwindTableRow<'f, 'a>,
    ) -> Option<(CommonInformationEntry<'a>, FrameDescriptionEntry<'a>)>
        ensures only { IsCoverOf self.now.fdes address
            (option_map (λ found. fde_of found.1) result) }
        ensures cie { IfSome result (λ found. cie_in self.now (fde_of found.1) ≡ Some
            (cie_of found.0)) }
        ensures row { IfSome result (λ _. row_of self.now address ≡ Some row.new) }
        ensures fit { IfSome result (λ _. (row.new.start ≤ top_of self.now.target)
            × (row.new.end ≤ top_of self.now.target)) }
        ensures none { IfNone result ((row_of self.now address ≡ None) × (row.new ≡ row.old)) }
    {
        let fde = self.fde_for_address(address)?;
        let cie = self.write_row_of(&fde, address, row);
        Some((cie, fde))
    }

    /// Overwrites `row` with the row of `address`, which `fde` must cover, and returns the FDE's
    /// CIE. This function isn't inlined, since an `UnwindState` is large: this way its stack memory
    /// is taken only once an FDE is found.
    #[inline(never)]
    fn write_row_of<'f>(
        &'f self,
        fde: &FrameDescriptionEntry<'a>,
        address: u64,
        row: &mut UnwindTableRow<'f, 'a>,
    ) -> CommonInformationEntry<'a>
        requires among { Contains self.now.fdes (fde_of fde.now) }
        requires low { fde.now.initial_location ≤ address }
        requires high { address < fde.now.initial_location + fde.now.address_range }
        ensures cie { cie_in self.now (fde_of fde.now) ≡ Some (cie_of result) }
        ensures fde_program { fde_fault (cie_of result) (fde_of fde.now) ≡ None }
        ensures row { find (has_address address) (rows_in self.now (fde_of fde.now))
            ≡ Some row.new }
    {
        let mut state = UnwindState::new();
        let mut near = usize::MAX;
        let cie = self.begin_with_cie(&mut state, &mut near, fde);
        write_row_at(&mut state, &cie, fde, address, self.lent(), row);
        cie
    }
}
