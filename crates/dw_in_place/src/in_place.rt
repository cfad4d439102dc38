//! The row of an address from one FDE and its CIE, which are read and checked in place.

ghost use Rattle.std.specs.Prelude.{ℕ, ◌≡◌, ◌≤◌, ◌<◌, ◌↔◌, ◌++◌, Bool, false, List, length, None, IsTrue, IfOk, IfSome, OnOk, MatchResult, Ok, Err, option_map};
ghost use Rattle.dw_bytes.specs.Answers.{Answers};
ghost use Rattle.dw_bytes.specs.declared.target.Target.{Target as OfTarget};
ghost use Rattle.dw_frame.specs.Views.{cie_of, fde_of};
ghost use Rattle.dw_rules.specs.Expressions.{expressions_of};
ghost use Rattle.dw_rules.specs.ProgramFault.{fde_fault};
ghost use Rattle.dw_rules.specs.ProgramState.{IsLeftBy, row_between};
ghost use Rattle.dw_rules.specs.RowsWithExpressions.{row_with_expressions};
ghost use Rattle.dw_rows.specs.Section.{Covers};
ghost use Rattle.dw_eh_frame.specs.Views.{HasCieOf, IsCieOf, eh_cie_of, eh_fde_of, eh_record_of, fde_with_cie};
ghost use Rattle.dw_eh_rows.specs.Signals.{fde_in};
ghost use Rattle.dw_in_place.specs.InPlace.{covering, fde_in_place_fault, found_at, is_after_cie};
ghost use Rattle.dw_in_place.specs.Known.{IsInForce, IsKnown, IsKnownAnswer, IsLendable, IsRead, IsSought};
ghost use Rattle.dw_in_place.specs.Views.{section_of};

use crate::section_in_place::SectionInPlace;
use dw_bytes::{Fault, FaultKind};
use dw_eh_frame::{EhCie, EhFde, EhRecord, eh_record_after, usual_fde};
use dw_frame::{CommonInformationEntry, FrameDescriptionEntry};
use dw_rows::{
    CheckedExpressions, check_cie_program, lend_row, quick_or_full_check, quick_row_count, seek_row,
};
use dw_rules::{
    BorrowedExpressions, RowExpressions, RuleSet, UnwindContext, UnwindRow, UnwindState,
};

/// A CIE whose program has no fault and no expressions, if there is one, and a state in which
/// programs of its FDEs run: their initial rules are those that its program leaves.
#[derive(Drop)]
pub struct KnownCie<'a> {
    pub cie: Option<EhCie<'a>>,
    pub state: UnwindState,
}

/// What a search for a row with a known CIE gives.
#[derive(Clone, Copy)]
pub enum Sought {
    /// The row, which begins at the first address, and ends before the second.
    Row(u64, u64),
    /// The FDE doesn't cover the address.
    Nothing,
    /// The FDE may have a fault, or its program has an expression or a rare instruction.
    Unsure,
}

/// What a look-up with a known CIE gives.
#[derive(Clone, Copy)]
pub enum KnownAnswer<'a> {
    /// The row of an FDE of this CIE. It begins at the first address, and ends before the second.
    Row(FrameDescriptionEntry<'a>, u64, u64),
    /// The FDE doesn't cover the address.
    Nothing,
    /// The record isn't an FDE of this CIE, or its program isn't one that is checked quickly.
    Unsure,
}

/// A row that was found after a full check of both programs. `in_cie` of the checked expressions
/// are the CIE's.
#[derive(Clone, Copy)]
pub struct CheckedRow {
    pub in_cie: usize,
    pub start: u64,
    pub end: u64,
}

/// The FDE that a record is, if it is one.
#[inline(always)]
fn fde_of_record<'a>(record: EhRecord<'a>) -> Option<EhFde<'a>>
    ensures fde { option_map eh_fde_of result ≡ fde_in (eh_record_of record.entry) }
    ensures cie { (is_aarch64 : Bool) (target : OfTarget) (section : List ℕ)
        → HasCieOf is_aarch64 target section record.entry
        → IfSome result (λ fde. IsCieOf is_aarch64 target section fde.cie) }
{
    match record {
        EhRecord::Fde(fde) => Some(fde),
        EhRecord::Cie(_) => None,
        EhRecord::Nothing(_) => None,
    }
}

/// Whether the CIE of an FDE ends where the FDE begins, or before it.
#[inline(always)]
pub(crate) fn is_after_its_cie(cie: &EhCie<'_>, fde: &FrameDescriptionEntry<'_>) -> bool
    ensures { result ≡ is_after_cie (fde_with_cie cie.now fde.now) }
{
    cie.cie.program.end() <= fde.offset
}

/// Whether an FDE covers an address.
#[inline(always)]
pub(crate) fn covers_address(fde: &FrameDescriptionEntry<'_>, address: u64) -> bool
    ensures { IsTrue result ↔ Covers (fde_of fde.now) address }
{
    fde.initial_location <= address && address - fde.initial_location < fde.address_range
}

/// The row of an address that an FDE of a CIE has, if its program can be checked quickly. The
/// initial rules in `state` must be those that the CIE's program leaves, and stay so.
#[inline(always)]
fn seek_quickly<'a>(
    state: &mut UnwindState,
    cie: &EhCie<'a>,
    fde: &FrameDescriptionEntry<'a>,
    address: u64,
) -> Sought
    requires { IsLeftBy (eh_cie_of cie.now).cie state.old.initial_rules }
    ensures sought { IsSought (fde_with_cie cie.now fde.now) address result state.new }
    ensures left { IsLeftBy (eh_cie_of cie.now).cie state.new.initial_rules }
{
    if !covers_address(fde, address) {
        return Sought::Nothing;
    }
    if !is_after_its_cie(cie, fde) {
        return Sought::Unsure;
    }
    match quick_row_count(state.initial_rules(), &cie.cie, fde) {
        Some(_) => {
            let (start, end) = seek_row(state, &cie.cie, fde, address);
            Sought::Row(start, end)
        }
        None => Sought::Unsure,
    }
}

/// Looks up the row of an address in the record at the offset `at` of a section, if it is an FDE of
/// a CIE that is known. Then neither the CIE nor its program is read again.
#[inline(always)]
pub(crate) fn find_known<'a>(
    section: &SectionInPlace<'a>,
    known: &mut KnownCie<'a>,
    at: u32,
    address: u64,
) -> KnownAnswer<'a>
    requires inside { at ≤ length section.now.bytes.now }
    requires known { IsKnown (section_of section.now) known.old }
    ensures answer { IsKnownAnswer (section_of section.now) at address result known.new }
    ensures known { IsKnown (section_of section.now) known.new }
{
    let Some(cie) = &known.cie else {
        return KnownAnswer::Unsure;
    };
    let Some((fde, _)) = usual_fde(
        section.bytes,
        section.target,
        section.bases,
        section.is_aarch64,
        at,
        cie,
    ) else {
        return KnownAnswer::Unsure;
    };
    match seek_quickly(&mut known.state, cie, &fde, address) {
        Sought::Row(start, end) => KnownAnswer::Row(fde, start, end),
        Sought::Nothing => KnownAnswer::Nothing,
        Sought::Unsure => KnownAnswer::Unsure,
    }
}

/// The FDE at the offset `at` of a section, with its CIE, if it covers an address. Programs aren't
/// read.
pub(crate) fn covering_fde<'a>(
    section: &SectionInPlace<'a>,
    at: u32,
    address: u64,
) -> Result<Option<EhFde<'a>>, Fault>
    requires { at ≤ length section.now.bytes.now }
    ensures fde { MatchResult result
        (λ found. found_at (section_of section.now) at address ≡ covering address (option_map eh_fde_of found))
        (λ fault. found_at (section_of section.now) at address ≡ Err fault) }
    ensures read { IfOk result (λ found. IfSome found (λ fde.
        IsRead (section_of section.now) at (eh_fde_of fde))) }
    ensures covers { IfOk result (λ found. IfSome found (λ fde. Covers (eh_fde_of fde).fde address)) }
    ensures cie { IfOk result (λ found. IfSome found (λ fde.
        IsCieOf section.now.is_aarch64 section.now.target section.now.bytes.now fde.cie)) }
{
    let (record, _) = eh_record_after(
        section.bytes,
        section.target,
        section.bases,
        section.is_aarch64,
        at,
        None,
    )?;
    let Some(fde) = fde_of_record(record) else {
        return Ok(None);
    };
    if !covers_address(&fde.fde, address) {
        return Ok(None);
    }
    Ok(Some(fde))
}

/// Checks the program of an FDE that may have any instructions, and adds its expressions to
/// `checked`. `initial` must be the rules that the CIE's program leaves. It takes 36 KB of stack,
/// for the rules that remember_states save.
#[inline(never)]
fn check_fully<'a>(
    initial: &RuleSet,
    checked: &mut CheckedExpressions<'a>,
    cie: &CommonInformationEntry<'a>,
    fde: &FrameDescriptionEntry<'a>,
) -> Result<(), Fault>
    requires { IsLeftBy (cie_of cie.now) initial.now }
    ensures fault { Answers (fde_fault (cie_of cie.now) (fde_of fde.now)) result }
    ensures kept { OnOk result (checked.new ≡ checked.old
        ++ expressions_of (fde_of fde.now).program) }
{
    let mut context = UnwindContext::new();
    context.state.set_rules(initial);
    context.state.save_initial_rules();
    quick_or_full_check(&mut context, checked, cie, fde)?;
    Ok(())
}

/// Checks the program of an FDE, and adds its expressions to `checked`. `initial` must be the rules
/// that the CIE's program leaves.
fn check_program<'a>(
    initial: &RuleSet,
    checked: &mut CheckedExpressions<'a>,
    cie: &CommonInformationEntry<'a>,
    fde: &FrameDescriptionEntry<'a>,
) -> Result<(), Fault>
    requires { IsLeftBy (cie_of cie.now) initial.now }
    ensures fault { Answers (fde_fault (cie_of cie.now) (fde_of fde.now)) result }
    ensures kept { OnOk result (checked.new ≡ checked.old
        ++ expressions_of (fde_of fde.now).program) }
{
    match quick_row_count(initial, cie, fde) {
        Some(_) => Ok(()),
        None => check_fully(initial, checked, cie, fde),
    }
}

/// Checks that the CIE of an FDE is before it, and then the programs of both, up to their ends. The
/// rules that the CIE's program leaves are then the initial rules in `state`. The expressions of
/// both programs are in `checked`; the result is how many of them are the CIE's.
fn check_programs<'a>(
    fde: &EhFde<'a>,
    state: &mut UnwindState,
    checked: &mut CheckedExpressions<'a>,
) -> Result<usize, Fault>
    ensures fault { Answers (fde_in_place_fault (eh_fde_of fde.now)) result }
    ensures left { OnOk result (IsLeftBy (eh_fde_of fde.now).cie.cie state.new.initial_rules) }
    ensures kept { OnOk result (checked.new ≡ expressions_of (eh_fde_of fde.now).cie.cie.program
        ++ expressions_of (eh_fde_of fde.now).fde.program) }
    ensures in_cie { IfOk result (λ count. count ≡ length (expressions_of (eh_fde_of fde.now).cie.cie.program)) }
{
    if !is_after_its_cie(&fde.cie, &fde.fde) {
        return Err(Fault {
            kind: FaultKind::NoSuchCie,
            at: fde.fde.cie_pointer_offset,
        });
    }
    checked.clear();
    check_cie_program(state, checked, &fde.cie.cie)?;
    let in_cie = checked.count();
    check_program(state.initial_rules(), checked, &fde.cie.cie, &fde.fde)?;
    Ok(in_cie)
}

/// The row of an address that an FDE covers, after a check of its CIE and of its program. The rules
/// of the row are then in force in `known`, and the expressions of both programs are in `checked`.
/// The CIE is known from then on, if it has no expressions.
#[inline(never)]
pub(crate) fn find_by_check<'a>(
    section: &SectionInPlace<'a>,
    fde: &EhFde<'a>,
    address: u64,
    known: &mut KnownCie<'a>,
    checked: &mut CheckedExpressions<'a>,
) -> Result<CheckedRow, Fault>
    requires covers { Covers (eh_fde_of fde.now).fde address }
    requires read { (at : ℕ) × IsRead (section_of section.now) at (eh_fde_of fde.now) }
    requires cie { IsCieOf section.now.is_aarch64 section.now.target section.now.bytes.now fde.now.cie }
    ensures fault { Answers (fde_in_place_fault (eh_fde_of fde.now)) result }
    ensures row { IfOk result (λ found. IsInForce (section_of section.now) (eh_fde_of fde.now) address
        (found.start, found.end) known.new.state.current checked.new) }
    ensures lendable { IfOk result (λ found. IsLendable known.new.state.current checked.new found.in_cie) }
    ensures known { IsKnown (section_of section.now) known.new }
{
    known.cie = None;
    let in_cie = check_programs(fde, &mut known.state, checked)?;
    let (start, end) = seek_row(&mut known.state, &fde.cie.cie, &fde.fde, address);
    if in_cie == 0 {
        known.cie = Some(fde.cie);
    }
    Ok(CheckedRow { in_cie, start, end })
}

/// Whether a CIE is the known one.
pub(crate) fn is_known(known: &KnownCie<'_>, cie: &EhCie<'_>) -> bool {
    match &known.cie {
        Some(other) => other.cie.offset == cie.cie.offset,
        None => false,
    }
}

/// The row from `start` up to but not including `end` with the rules in force in `state`. The first
/// `in_cie` of the expressions are a CIE's, and the others an FDE's.
#[inline(always)]
pub(crate) fn lend_checked<'p, 'a>(
    state: &'p UnwindState,
    checked: &'p CheckedExpressions<'a>,
    in_cie: usize,
    start: u64,
    end: u64,
) -> UnwindRow<'p, 'a>
    requires { IsLendable state.now.current checked.now in_cie }
    ensures { result ≡ row_with_expressions checked.now (row_between start end state.now.current) }
{
    let (cies, fdes) = checked.as_slice().split_at(in_cie);
    let lent = RowExpressions::Borrowed(BorrowedExpressions::new(cies, fdes));
    lend_row(state.rules(), start, end, lent)
}
