//! The checks of a section's CIE_pointers, of its CIEs' programs, and of its FDEs' programs.

ghost use Rattle.std.specs.Prelude.{◌≡◌, ◌≢◌, ◌<◌, ◌++◌, ℕ, None, map, length, slice_get, slice_index_or, IfOk, IfSome, OnOk};
ghost use Rattle.dw_bytes.specs.Answers.{Checks, Answers};
ghost use Rattle.dw_frame.specs.Views.{cie_of, fde_of};
ghost use Rattle.dw_rules.specs.Expressions.{cie_expressions, expressions_of, fde_expressions};
ghost use Rattle.dw_rules.specs.ProgramFault.{cie_fault};
ghost use Rattle.dw_rows.specs.Section.{cie_at, first_fault, pointer_fault, program_fault, placed_rows};
ghost use Rattle.std.specs.List.{flat_map};
ghost use Rattle.dw_rows.specs.AddressIndex.{IsLeftAt, cie_offset};
ghost use Rattle.dw_rows.specs.Listing.{AreCounted, not_counted};
ghost use Rattle.dw_frame.specs.Bounds.{Ascends};
ghost use Rattle.dw_rules.specs.Initial.{AreLeftBy};

use crate::checked_expressions::CheckedExpressions;
use crate::cie_search::{place_near, set_rules_after};
use crate::program_checks::{check_cie_program, quick_or_full_check};
use dw_bytes::{Fault, FaultKind};
use dw_frame::{CommonInformationEntry, FrameDescriptionEntry};
use dw_rules::{InitialRules, UnwindContext, UnwindState};
use std::alloc::Global;

/// Checks that each FDE's CIE_pointer is the offset of a CIE, in O(n log n) time for n CIEs and
/// FDEs.
pub fn check_pointers(
    cies: &[CommonInformationEntry<'_>],
    fdes: &[FrameDescriptionEntry<'_>],
) -> Result<(), Fault>
    requires { Ascends cie_offset (map cie_of cies.now) }
    ensures { Checks (first_fault (pointer_fault (map cie_of cies.now))
        (map fde_of fdes.now)) result }
{
    let mut near = 0;
    for fde in fdes {
        match place_near(cies, near, fde.cie_pointer) {
            Some(place) => near = place,
            None => {
                return Err(Fault {
                    kind: FaultKind::NoSuchCie,
                    at: fde.cie_pointer_offset,
                });
            }
        }
    }
    Ok(())
}

/// Checks each CIE's program. Returns the rules in force at the end of each program, and adds the
/// programs' expressions to `checked`.
pub fn check_cies<'a>(
    alloc: Global,
    state: &mut UnwindState,
    checked: &mut CheckedExpressions<'a>,
    cies: &[CommonInformationEntry<'a>],
) -> Result<InitialRules, Fault>
    ensures answer { Answers (first_fault cie_fault (map cie_of cies.now)) result }
    ensures left { IfOk result (λ initial. AreLeftBy (map cie_of cies.now) initial) }
    ensures kept { OnOk result (checked.new ≡ checked.old ++ cie_expressions (map cie_of cies.now)) }
{
    let mut left = InitialRules::new(alloc);
    for cie in cies {
        check_cie_program(state, checked, cie)?;
        left.push(state.initial_rules())?;
    }
    Ok(left)
}

/// Checks the program of an FDE of the CIE at the index `place`, whose rules are in `context`. Adds
/// the program's expressions to `checked`, and returns how many rows the FDE has.
#[inline(always)]
fn check_fde_of_cie<'a>(
    context: &mut UnwindContext,
    checked: &mut CheckedExpressions<'a>,
    cies: &[CommonInformationEntry<'a>],
    place: usize,
    fde: &FrameDescriptionEntry<'a>,
) -> Result<u64, Fault>
    requires inside { place < length cies.now }
    requires cie { cie_at (map cie_of cies.now) fde.now.cie_pointer ≡ slice_get (map cie_of cies.now) place }
    requires left { IsLeftAt (map cie_of cies.now) place context.old.initial_rules }
    ensures answer { Answers (program_fault (map cie_of cies.now) (fde_of fde.now)) result }
    ensures left { OnOk result (context.new.initial_rules ≡ context.old.initial_rules) }
    ensures kept { OnOk result (checked.new ≡ checked.old ++ expressions_of (fde_of fde.now).program) }
    ensures rows { IfOk result (λ rows. rows
        ≡ length (placed_rows (map cie_of cies.now) (fde_of fde.now))) }
{
    quick_or_full_check(context, checked, &cies[place], fde)
}

/// In place of a number of rows: an FDE's program isn't checked yet, or it has expressions.
pub const NOT_COUNTED: u32 = u32::MAX;

/// How many rows the FDE at the index `place` has, if `counted` says so.
#[inline(always)]
fn rows_counted(counted: &[u32], place: usize) -> Option<u32>
    ensures { IfSome result (λ rows. (place < length counted.now) × (rows ≢ not_counted)
        × ((d : ℕ) → slice_index_or counted.now place d ≡ rows)) }
{
    match counted.get(place) {
        Some(rows) if *rows != NOT_COUNTED => Some(*rows),
        _ => None,
    }
}

/// Checks each FDE's program, starting from the rules that its CIE's program leaves. Adds the
/// programs' expressions to `checked`, and returns how many rows all FDEs have together. Each
/// CIE_pointer must be the offset of a CIE. FDEs that have a number of rows in `counted`, at the
/// FDE's index, have been checked.
///
/// Inlined: for a section of which no FDE has been checked, that isn't looked up again for each.
#[inline(always)]
pub fn check_fdes<'a>(
    context: &mut UnwindContext,
    checked: &mut CheckedExpressions<'a>,
    cies: &[CommonInformationEntry<'a>],
    initial: &InitialRules,
    fdes: &[FrameDescriptionEntry<'a>],
    counted: &[u32],
) -> Result<u128, Fault>
    requires order { Ascends cie_offset (map cie_of cies.now) }
    requires left { AreLeftBy (map cie_of cies.now) initial.now }
    requires pointed { first_fault (pointer_fault (map cie_of cies.now))
        (map fde_of fdes.now) ≡ None }
    requires counted { AreCounted (map cie_of cies.now) (map fde_of fdes.now) counted.now }
    ensures answer { Answers (first_fault (program_fault (map cie_of cies.now))
        (map fde_of fdes.now)) result }
    ensures kept { OnOk result (checked.new ≡ checked.old ++ fde_expressions (map fde_of fdes.now)) }
    ensures rows { IfOk result (λ rows. rows
        ≡ length (flat_map (placed_rows (map cie_of cies.now)) (map fde_of fdes.now))) }
{
    let mut rows = 0;
    let mut last = None;
    for (place, fde) in fdes.iter().enumerate() {
        if let Some(known) = rows_counted(counted, place) {
            rows += u128::from(known);
            continue;
        }
        match set_rules_after(&mut context.state, cies, initial, last, fde.cie_pointer) {
            Some(cie) => {
                rows += u128::from(check_fde_of_cie(context, checked, cies, cie, fde)?);
                last = Some(cie);
            }
            None => unreachable!(),
        }
    }
    Ok(rows)
}
