//! A section whose CIEs and FDEs are listed, before the programs of its FDEs are checked.

ghost use Rattle.std.specs.Prelude.{◌≡◌, ◌+◌, ◌≤◌, Contains, IfErr, IfNone, IfOk, IfSome, None, Some, length, map, option_map};
ghost use Rattle.dw_bytes.specs.Answers.{Answers, memory};
ghost use Rattle.dw_frame.specs.Records.{Cie, Fde};
ghost use Rattle.dw_frame.specs.Sections.{top_of};
ghost use Rattle.dw_frame.specs.Views.{cie_of, fde_of};
ghost use Rattle.dw_rules.specs.Expressions.{cie_expressions};
ghost use Rattle.dw_rules.specs.Initial.{AreLeftBy};
ghost use Rattle.dw_rules.specs.ProgramFault.{cie_fault};
ghost use Rattle.dw_rules.specs.ProgramState.{IsLeftBy};
ghost use Rattle.dw_rows.specs.AddressIndex.{IsAddressIndex};
ghost use Rattle.dw_rows.specs.Listing.{AreCounted, IsListed};
ghost use Rattle.dw_rows.specs.RowCursors.{Lends};
ghost use Rattle.dw_rows.specs.Section.{AreReadIn, IsCoverOf, cie_in, frame_by, parts_fault};

use crate::checked_expressions::CheckedExpressions;
use crate::checked_frame::{CheckedFrame, check_overlap};
use crate::cie_search::{find_cie, set_rules_of_cie};
use crate::index::{IndexEntry, covering, index_of};
use crate::record_checks::{check_cies, check_fdes, check_pointers};
use dw_bytes::{Fault, FaultKind, OUT_OF_MEMORY, Target};
use dw_frame::{CommonInformationEntry, FrameDescriptionEntry};
use dw_rules::{InitialRules, UnwindContext, UnwindState};
use std::alloc::Global;
use std::marker::Model;

/// A section's CIEs and FDEs, and an index of the FDEs by address. Each CIE_pointer is the offset of a
/// CIE, the CIEs' programs have passed their check, and no address is covered by two FDEs. The
/// programs of FDEs may have faults. In contracts its value has the expressions of all programs,
/// though only those of the CIEs have been checked.
#[derive(Drop)]
pub struct ListedFrame<'a> {
    target: Target,
    section: &'a [u8],
    cies: Vec<CommonInformationEntry<'a>>,
    /// For each CIE, in the order of `cies`: the rules in force after its initial instructions.
    initial: InitialRules,
    fdes: Vec<FrameDescriptionEntry<'a>>,
    /// An index entry for each FDE that covers at least one address, in order of address.
    index: Vec<IndexEntry>,
}

impl<'a> Model for ListedFrame<'a> {
    ghost use Rattle.std.specs.Prelude.{map};
    ghost use Rattle.dw_frame.specs.Views.{cie_of, fde_of};
    ghost use Rattle.dw_rows.specs.Section.{FrameSection, frame_by};
    ghost use Rattle.dw_rows.specs.Listing.{IsListedWith};

    ghost Value = { FrameSection };

    ghost view = { λ l. frame_by l.target l.section.now (map cie_of l.cies.items) (map fde_of l.fdes.items) };

    ghost invariant = { λ l. IsListedWith
        (frame_by l.target l.section.now (map cie_of l.cies.items) (map fde_of l.fdes.items)) l.initial l.index.items };
}

/// A listed section, and the checked expressions of its CIEs' programs.
#[derive(Drop)]
pub struct UncheckedFrame<'a> {
    pub listed: ListedFrame<'a>,
    pub checked: CheckedExpressions<'a>,
}

/// Lists the CIEs and FDEs of a section, each in the order of their offsets. `None` if a CIE_pointer or a
/// CIE's program has a fault, or two FDEs cover one address. It takes n log n for n FDEs.
pub fn list_records<'a>(
    alloc: Global,
    section: &'a [u8],
    target: Target,
    cies: Vec<CommonInformationEntry<'a>>,
    fdes: Vec<FrameDescriptionEntry<'a>>,
) -> Result<Option<UncheckedFrame<'a>>, Fault>
    requires { AreReadIn target (length section.now) (map cie_of cies.items) (map fde_of fdes.items) }
    ensures listed { IfOk result (λ made. IfSome made (λ frame. frame.listed ≡ frame_by target section.now
        (map cie_of cies.entry.items) (map fde_of fdes.entry.items))) }
    ensures expressions { IfOk result (λ made. IfSome made (λ frame. frame.checked
        ≡ cie_expressions (map cie_of cies.entry.items))) }
    ensures none { IfOk result (λ made. IfNone made (parts_fault (map cie_of cies.entry.items)
        (map fde_of fdes.entry.items) ≡ None → ⊥)) }
    ensures lack { IfErr result (λ fault. fault ≡ memory) }
{
    if check_pointers(&cies, &fdes).is_err() {
        return Ok(None);
    }
    let mut context = UnwindContext::new();
    let mut checked = CheckedExpressions::new(alloc);
    let initial = match check_cies(alloc, &mut context.state, &mut checked, &cies) {
        Ok(initial) => initial,
        Err(fault) if fault.kind == FaultKind::Memory => return Err(OUT_OF_MEMORY),
        Err(_) => return Ok(None),
    };
    let index = index_of(alloc, &fdes, section.len())?;
    if check_overlap(&fdes, &index).is_err() {
        return Ok(None);
    }
    let listed = ListedFrame {
        target,
        section,
        cies,
        initial,
        fdes,
        index,
    };
    Ok(Some(UncheckedFrame { listed, checked }))
}

impl<'a> ListedFrame<'a> {
    /// A section's CIEs and FDEs, which have been checked, but for the programs of FDEs.
    pub(crate) fn of_parts(
        target: Target,
        section: &'a [u8],
        cies: Vec<CommonInformationEntry<'a>>,
        initial: InitialRules,
        fdes: Vec<FrameDescriptionEntry<'a>>,
        index: Vec<IndexEntry>,
    ) -> Self
        requires listed { IsListed (frame_by target section.now (map cie_of cies.items) (map fde_of fdes.items)) }
        requires left { AreLeftBy (map cie_of cies.items) initial }
        requires index { IsAddressIndex (map fde_of fdes.items) index.items }
        ensures { result ≡ frame_by target section.now (map cie_of cies.entry.items) (map fde_of fdes.entry.items) }
    {
        ListedFrame {
            target,
            section,
            cies,
            initial,
            fdes,
            index,
        }
    }

    /// The target that the section was read with.
    pub fn target(&self) -> Target
        ensures { result ≡ self.now.target }
    {
        self.target
    }

    /// The bytes of the section.
    pub fn section(&self) -> &'a [u8]
        ensures section { result.now ≡ self.now.section }
        ensures listed { IsListed self.now }
    {
        self.section
    }

    /// All CIEs, in the order of the section. Each CIE's program has passed its check.
    pub fn cies(&self) -> &[CommonInformationEntry<'a>]
        ensures cies { map cie_of result.now ≡ self.now.cies }
        ensures good { (c : Cie) → Contains self.now.cies c → cie_fault c ≡ None }
    {
        self.cies.as_slice()
    }

    /// All FDEs, in the order of the section. No FDE covers an address past the target's highest
    /// one.
    pub fn fdes(&self) -> &[FrameDescriptionEntry<'a>]
        ensures fdes { map fde_of result.now ≡ self.now.fdes }
        ensures fit { (f : Fde) → Contains self.now.fdes f
            → f.initial_location + f.address_range ≤ top_of self.now.target }
    {
        self.fdes.as_slice()
    }

    /// An index entry for each FDE that covers at least one address, in order of address.
    pub fn index(&self) -> &[IndexEntry]
        ensures index { IsAddressIndex self.now.fdes result.now }
        ensures listed { IsListed self.now }
    {
        self.index.as_slice()
    }

    /// The FDE that covers an address, or `None` if no FDE covers it. At most one FDE covers an
    /// address. The FDE is found by binary search.
    pub fn fde_for_address(&self, address: u64) -> Option<FrameDescriptionEntry<'a>>
        ensures only { IsCoverOf self.now.fdes address (option_map fde_of result) }
        ensures fit { IfSome result (λ fde. fde.initial_location + fde.address_range
            ≤ top_of self.now.target) }
    {
        covering(&self.fdes, &self.index, address)
    }

    /// The CIE of one of this section's FDEs, found by binary search. Its program has passed its check.
    pub fn cie_of(&self, fde: &FrameDescriptionEntry<'a>) -> CommonInformationEntry<'a>
        requires { Contains self.now.fdes (fde_of fde.now) }
        ensures cie { cie_in self.now (fde_of fde.now) ≡ Some (cie_of result) }
        ensures cie_program { cie_fault (cie_of result) ≡ None }
    {
        match find_cie(&self.cies, fde.cie_pointer) {
            Some(cie) => cie,
            None => unreachable!(),
        }
    }

    /// Returns the CIE of one of this section's FDEs, and stores in `state`, as the initial rules,
    /// the rules that the CIE's program leaves: the FDE's program begins with them. The search
    /// first tries the CIEs at the indices `near` and `near + 1`, and sets `near` to the index of
    /// the FDE's CIE.
    pub fn begin_with_cie(
        &self,
        state: &mut UnwindState,
        near: &mut usize,
        fde: &FrameDescriptionEntry<'a>,
    ) -> CommonInformationEntry<'a>
        requires { Contains self.now.fdes (fde_of fde.now) }
        ensures cie { cie_in self.now (fde_of fde.now) ≡ Some (cie_of result) }
        ensures left { IsLeftBy (cie_of result) state.new.initial_rules }
        ensures lends { Lends self.now.expressions (cie_of result) (fde_of fde.now) }
    {
        match set_rules_of_cie(state, &self.cies, &self.initial, near, fde.cie_pointer) {
            Some(cie) => cie,
            None => unreachable!(),
        }
    }

    /// Checks the programs of the FDEs, in the order of the section. `checked` has the expressions of
    /// the CIEs. For the FDEs at the indices of `counted`, those that have a number there have been
    /// checked: it is how many rows the FDE has. The error is the first fault, or `Memory`.
    pub fn into_checked(
        self,
        checked: CheckedExpressions<'a>,
        counted: &[u32],
    ) -> Result<CheckedFrame<'a>, Fault>
        requires expressions { checked ≡ cie_expressions self.cies }
        requires counted { AreCounted self.cies self.fdes counted.now }
        ensures answer { Answers (parts_fault self.entry.cies self.entry.fdes) result }
        ensures frame { IfOk result (λ frame. frame ≡ self.entry) }
    {
        let mut checked = checked;
        let in_cies = checked.count();
        let mut context = UnwindContext::new();
        let rows = check_fdes(
            &mut context,
            &mut checked,
            &self.cies,
            &self.initial,
            &self.fdes,
            counted,
        )?;
        let expressions = checked.to_vec()?;
        Ok(CheckedFrame::of_parts(self, expressions, in_cies, rows))
    }
}
