//! Counting CIEs and FDEs while they are read: their programs are checked, and nothing but its
//! addresses is kept of an FDE.

ghost use Rattle.std.specs.Prelude.{◌≡◌, ◌+◌, ◌<◌, ◌++◌, ℕ, [], ◌∷◌, true, List, None, Some, IfErr, IfOk, IfSome, MatchOption, length, map, slice_get};
ghost use Rattle.dw_bytes.specs.Answers.{memory};
ghost use Rattle.dw_frame.specs.Bounds.{Ascends};
ghost use Rattle.dw_frame.specs.Records.{Cie, Fde};
ghost use Rattle.dw_frame.specs.Views.{cie_of, fde_of};
ghost use Rattle.dw_rules.specs.Expressions.{expressions_of};
ghost use Rattle.dw_rules.specs.Initial.{AreLeftBy};
ghost use Rattle.dw_rules.specs.ProgramFault.{cie_fault, fde_fault};
ghost use Rattle.dw_rules.specs.ProgramState.{IsLeftBy};
ghost use Rattle.dw_rows.specs.AddressIndex.{IsLeftAt};
ghost use Rattle.dw_rows.specs.Section.{cie_at};
ghost use Rattle.dw_rows.specs.UnwindRows.{rows_of};
ghost use Rattle.dw_eh_frame.specs.Progress.{cie_offset};
ghost use Rattle.dw_eh_rows.specs.Counting.{IsReady, IsTally, times_in};

use crate::kept_records::place_of_cie;
use crate::short_range::{ShortRange, short_range};
use dw_bytes::{Fault, FaultKind, OUT_OF_MEMORY};
use dw_frame::{CommonInformationEntry, FrameDescriptionEntry};
use dw_rows::{CheckedExpressions, check_cie_program, quick_or_full_check};
use dw_rules::{InitialRules, UnwindContext};
use std::alloc::Global;

/// The records that were counted.
#[derive(Drop)]
pub struct Tally<'a> {
    /// The index of the CIE whose rules are in the context that goes with the tally, if there is one.
    place: Option<usize>,
    pub cies: Vec<CommonInformationEntry<'a>>,
    /// The rules that the programs of these CIEs leave.
    initial: InitialRules,
    /// The expressions of the program that was checked last.
    checked: CheckedExpressions<'a>,
    /// The addresses of each FDE that covers any, above `base`.
    pub ranges: Vec<ShortRange>,
    base: u64,
    pub fdes: usize,
    pub rows: u128,
    pub expressions: usize,
}

/// Few FDEs are shorter than this many bytes. A tally has room for the addresses of one FDE for each
/// `SHORT_FDE` bytes of a section, so that it rarely has to grow.
const SHORT_FDE: usize = 32;

/// Nothing is counted yet. `size` is the section's size, and `base` an address below those of the FDEs.
pub fn no_tally<'a>(alloc: Global, size: usize, base: u64) -> Result<Tally<'a>, Fault>
    ensures empty { IfOk result (λ tally. IsTally [] [] tally) }
    ensures place { IfOk result (λ tally. tally.place ≡ None) }
    ensures lack { IfErr result (λ fault. fault ≡ memory) }
{
    Ok(Tally {
        place: None,
        cies: Vec::new(alloc),
        initial: InitialRules::new(alloc),
        checked: CheckedExpressions::new(alloc),
        ranges: Vec::with_capacity(alloc, size / SHORT_FDE)?,
        base,
        fdes: 0,
        rows: 0,
        expressions: 0,
    })
}

/// Whether a CIE's program has no fault. Then its rules are in `context`, and `checked` has its
/// expressions.
fn is_good_cie<'a>(
    context: &mut UnwindContext,
    checked: &mut CheckedExpressions<'a>,
    cie: &CommonInformationEntry<'a>,
) -> Result<bool, Fault>
    ensures good { IfOk result (λ good. good ≡ true → cie_fault (cie_of cie.now) ≡ None) }
    ensures left { IfOk result (λ good. good ≡ true → IsLeftBy (cie_of cie.now) context.new.initial_rules) }
    ensures expressions { IfOk result (λ good. good ≡ true → checked.new ≡ expressions_of (cie_of cie.now).program) }
    ensures lack { IfErr result (λ fault. fault ≡ memory) }
{
    checked.clear();
    match check_cie_program(&mut context.state, checked, cie) {
        Ok(()) => Ok(true),
        Err(fault) if fault.kind == FaultKind::Memory => Err(OUT_OF_MEMORY),
        Err(_) => Ok(false),
    }
}

/// Counts a CIE. `false` if its program has a fault, or a number is too large. The tally is of no use
/// then.
pub fn count_cie<'a>(
    tally: &mut Tally<'a>,
    context: &mut UnwindContext,
    cie: &CommonInformationEntry<'a>,
) -> Result<bool, Fault>
    ensures counted { IfOk result (λ counted. counted ≡ true → (cies : List Cie) (fdes : List Fde)
        → IsTally cies fdes tally.old → IsTally (cies ++ cie_of cie.now ∷ []) fdes tally.new) }
    ensures cies { IfOk result (λ counted. counted ≡ true
        → map cie_of tally.new.cies.items ≡ map cie_of tally.old.cies.items ++ cie_of cie.now ∷ []) }
    ensures ready { IfOk result (λ counted. counted ≡ true → tally.new.place ≡ None) }
    ensures lack { IfErr result (λ fault. fault ≡ memory) }
{
    tally.place = None;
    if !is_good_cie(context, &mut tally.checked, cie)? {
        return Ok(false);
    }
    let Some(expressions) = tally.expressions.checked_add(tally.checked.count()) else {
        return Ok(false);
    };
    tally.expressions = expressions;
    tally.cies.push(*cie)?;
    tally.initial.push(context.state.initial_rules())?;
    Ok(true)
}

/// The index of the CIE that begins at `offset`. The index `near` is tried before a binary search,
/// since most FDEs have the CIE of the FDE before them.
#[inline(always)]
fn place_near(
    cies: &[CommonInformationEntry<'_>],
    near: Option<usize>,
    offset: u64,
) -> Option<usize>
    requires { Ascends cie_offset (map cie_of cies.now) }
    ensures { MatchOption result
        (cie_at (map cie_of cies.now) offset ≡ None)
        (λ place. (place < length cies.now)
        × (cie_at (map cie_of cies.now) offset ≡ slice_get (map cie_of cies.now) place)) }
{
    if let Some(place) = near
        && place < cies.len()
        && u64::from(cies[place].offset) == offset
    {
        return Some(place);
    }
    place_of_cie(cies, offset)
}

/// Puts the rules of the CIE that begins at `offset` into `context`, and returns the CIE's
/// index. `None` if no CIE begins there.
#[inline(always)]
fn set_rules(tally: &mut Tally<'_>, context: &mut UnwindContext, offset: u64) -> Option<usize>
    requires order { Ascends cie_offset (map cie_of tally.old.cies.items) }
    requires left { AreLeftBy (map cie_of tally.old.cies.items) tally.old.initial }
    requires ready { IsReady tally.old context.old }
    ensures cie { IfSome result (λ place. (place < length tally.old.cies.items)
        × (cie_at (map cie_of tally.old.cies.items) offset ≡ slice_get (map cie_of tally.old.cies.items) place)) }
    ensures left { IfSome result (λ place. IsLeftAt (map cie_of tally.old.cies.items) place context.new.initial_rules) }
    ensures rest { tally.new ≡ record tally.old { place = tally.new.place } }
    ensures place { IfSome result (λ place. tally.new.place ≡ Some place) }
{
    let place = place_near(&tally.cies, tally.place, offset)?;
    if tally.place != Some(place) {
        context.state.set_initial_rules(&tally.initial, place);
        tally.place = Some(place);
    }
    Some(place)
}

/// How many rows an FDE has, whose CIE's rules are in `context`. `None` if its program has a fault.
/// `checked` has its expressions afterwards.
#[inline(always)]
fn rows_of_fde<'a>(
    context: &mut UnwindContext,
    checked: &mut CheckedExpressions<'a>,
    cie: &CommonInformationEntry<'a>,
    fde: &FrameDescriptionEntry<'a>,
) -> Result<Option<u64>, Fault>
    requires { IsLeftBy (cie_of cie.now) context.old.initial_rules }
    ensures good { IfOk result (λ rows. IfSome rows (λ _. fde_fault (cie_of cie.now) (fde_of fde.now) ≡ None)) }
    ensures rows { IfOk result (λ rows. IfSome rows (λ n. n ≡ length (rows_of (cie_of cie.now) (fde_of fde.now)))) }
    ensures expressions { IfOk result (λ rows. IfSome rows (λ _. checked.new ≡ expressions_of (fde_of fde.now).program)) }
    ensures left { IfOk result (λ rows. IfSome rows (λ _. context.new.initial_rules ≡ context.old.initial_rules)) }
    ensures lack { IfErr result (λ fault. fault ≡ memory) }
{
    checked.clear();
    match quick_or_full_check(context, checked, cie, fde) {
        Ok(rows) => Ok(Some(rows)),
        Err(fault) if fault.kind == FaultKind::Memory => Err(OUT_OF_MEMORY),
        Err(_) => Ok(None),
    }
}

/// Adds an FDE with these addresses and rows, whose expressions are in the tally. `false` if a number
/// gets too large, which comes of no section of fewer than 2^32 bytes.
#[inline(always)]
fn add_fde(tally: &mut Tally<'_>, range: ShortRange, rows: u64) -> Result<bool, Fault>
    ensures fdes { IfOk result (λ added. added ≡ true → tally.new.fdes ≡ tally.old.fdes + 1) }
    ensures rows { IfOk result (λ added. added ≡ true → tally.new.rows ≡ tally.old.rows + rows) }
    ensures expressions { IfOk result (λ added. added ≡ true → tally.new.expressions ≡ tally.old.expressions + length tally.old.checked) }
    ensures ranges { IfOk result (λ added. added ≡ true → (base a : ℕ)
        → times_in base a tally.new.ranges.items ≡ times_in base a (tally.old.ranges.items ++ range ∷ [])) }
    ensures rest { tally.new ≡ record tally.old { ranges = tally.new.ranges; fdes = tally.new.fdes; rows = tally.new.rows; expressions = tally.new.expressions } }
    ensures lack { IfErr result (λ fault. fault ≡ memory) }
{
    let Some(fdes) = tally.fdes.checked_add(1) else {
        return Ok(false);
    };
    let Some(rows) = tally.rows.checked_add(u128::from(rows)) else {
        return Ok(false);
    };
    let Some(expressions) = tally.expressions.checked_add(tally.checked.count()) else {
        return Ok(false);
    };
    if range.count > 0 {
        tally.ranges.push(range)?;
    }
    tally.fdes = fdes;
    tally.rows = rows;
    tally.expressions = expressions;
    Ok(true)
}

/// Counts an FDE. `false` if its CIE isn't one of those that were counted, its program has a fault, a
/// number is too large, or its addresses are too far from the base. The tally is of no use then.
#[inline(always)]
pub fn count_fde<'a>(
    tally: &mut Tally<'a>,
    context: &mut UnwindContext,
    fde: &FrameDescriptionEntry<'a>,
) -> Result<bool, Fault>
    requires order { Ascends cie_offset (map cie_of tally.old.cies.items) }
    requires left { AreLeftBy (map cie_of tally.old.cies.items) tally.old.initial }
    requires ready { IsReady tally.old context.old }
    ensures counted { IfOk result (λ counted. counted ≡ true → (fdes : List Fde)
        → IsTally (map cie_of tally.old.cies.items) fdes tally.old
        → IsTally (map cie_of tally.old.cies.items) (fdes ++ fde_of fde.now ∷ []) tally.new) }
    ensures cie { IfOk result (λ counted. counted ≡ true → (cie : Cie)
        × (cie_at (map cie_of tally.old.cies.items) fde.now.cie_pointer ≡ Some cie)) }
    ensures cies { tally.new.cies ≡ tally.old.cies }
    ensures ready { IfOk result (λ counted. counted ≡ true → IsReady tally.new context.new) }
    ensures lack { IfErr result (λ fault. fault ≡ memory) }
{
    let Some(place) = set_rules(tally, context, fde.cie_pointer) else {
        return Ok(false);
    };
    let Some(range) = short_range(fde, tally.base) else {
        return Ok(false);
    };
    let cie = &tally.cies[place];
    let Some(rows) = rows_of_fde(context, &mut tally.checked, cie, fde)? else {
        return Ok(false);
    };
    if !add_fde(tally, range, rows)? {
        return Ok(false);
    }
    Ok(true)
}
