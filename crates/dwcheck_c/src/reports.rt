//! The C call that checks a frame section and a section of location lists, and says what they
//! contain.

ghost use Rattle.std.specs.Prelude.{◌≡◌, ◌≢◌, ◌⊎◌, ◌++◌, ◌-◌, ◌^◌, List, None, length, min};
ghost use Rattle.std.specs.Option.{IsSomeAnd};
ghost use Rattle.dw_sections.specs.Checked.{AreWellFormed, check_fault};
ghost use Rattle.dw_loclists.specs.Reading.{located_in};
ghost use Rattle.dw_rows.specs.Section.{FrameSection, frame_of};
ghost use Rattle.dw_eh_rows.specs.Counts.{AreCountsOf};
ghost use Rattle.dw_stack.specs.Located.{all_located, located_of};
ghost use Rattle.dw_c_types.specs.Slots.{put_into};
ghost use Rattle.dw_c_types.specs.Targets.{target_by};
ghost use Rattle.dwcheck_c.specs.Checks.{ReportsOf};
ghost use Rattle.dwcheck_c.specs.Reports.{AreReported, AreShown, ShowsExpression, counts_of, frame_counts, kind_number};
ghost use Rattle.dwcheck_c.specs.declared.reports.CExpression.{CExpression as Slot};

use crate::checks::within;
use dw_bytes::FaultKind;
use dw_c_types::fault::{CFault, IN_FRAME, IN_LISTS, report};
use dw_c_types::slots::put;
use dw_c_types::status::{BAD_TARGET, DONE, NO_MEMORY, REFUSED};
use dw_c_types::target::target;
use dw_eh_rows::SectionCounts;
use dw_loclists::Expressions;
use dw_rows::CheckedFrame;
use dw_sections::{Checked, check};
use dw_stack::{CheckedExpression, Kind};
use std::alloc::Global;

/// What two sections contain. A number of rows of 2^64 or more is shown as 2^64 - 1.
#[repr(C)]
#[derive(Clone, Copy, Debug)]
pub struct CCounts {
    pub cies: u64,
    pub fdes: u64,
    pub rows: u64,
    pub frame_expressions: u64,
    pub tables: u64,
    pub lists: u64,
    pub list_expressions: u64,
}

/// An expression of a section: the offset where it begins, its length in bytes, its section (as in
/// a `CFault`), what it is used for, its number of operations, and its greatest stack depth.
#[repr(C)]
#[derive(Clone, Copy, Debug)]
pub struct CExpression {
    pub offset: u64,
    pub length: u64,
    pub within: u32,
    pub kind: u32,
    pub operations: u32,
    pub depth: u32,
}

/// The number that tells C what an expression is used for.
fn kind_code(kind: Kind) -> u32
    ensures { result ≡ kind_number kind }
{
    match kind {
        Kind::FrameCfa => 0,
        Kind::FrameRegister => 1,
        Kind::Location => 2,
    }
}

/// Converts an expression that begins at `offset` in a section to C's struct.
fn c_expression_of(section: u32, offset: u32, checked: &CheckedExpression<'_>) -> CExpression
    ensures { ShowsExpression section (located_of (offset, checked.now)) result }
{
    CExpression {
        offset: u64::from(offset),
        length: checked.expression().bytes().len() as u64,
        within: section,
        kind: kind_code(checked.kind()),
        operations: checked.operation_count(),
        depth: u32::from(checked.depth()),
    }
}

/// Writes the expressions of a frame section to `slots`, as many as fit.
fn write_frame_expressions(expressions: &[(u32, CheckedExpression<'_>)], slots: &mut [CExpression])
    ensures { (shown : List Slot) × AreShown IN_FRAME (all_located expressions.now) shown
        × (slots.new ≡ put_into shown slots.old) }
{
    for (index, located) in expressions.iter().enumerate() {
        put(
            slots,
            index,
            c_expression_of(IN_FRAME, located.0, &located.1),
        );
    }
}

/// Writes the expressions of location lists to `slots`, from the one at index `from` on, as many as
/// fit.
fn write_list_expressions(expressions: Expressions<'_, '_>, slots: &mut [CExpression], from: usize)
    ensures { (before old : List Slot) → slots.old ≡ put_into before old → from ≡ length before
        → (shown : List Slot) × AreShown IN_LISTS expressions.entry shown
        × (slots.new ≡ put_into (before ++ shown) old) }
{
    let mut count = from;
    for (offset, checked) in expressions {
        let shown = c_expression_of(IN_LISTS, offset, &checked);
        if count < slots.len() {
            slots[count] = shown;
            count += 1;
        }
    }
}

/// Writes the expressions of two checked sections to `slots`, as many as fit.
fn write_expressions(checked: &Checked<'_>, slots: &mut [CExpression])
    ensures { AreReported checked.now.frame.expressions (located_in checked.now.lists) slots.old
        slots.new }
{
    let of_frame = checked.frame().expressions();
    write_frame_expressions(of_frame, slots);
    write_list_expressions(checked.lists().expressions(), slots, of_frame.len());
}

/// A number of rows as C gets it.
fn row_number(rows: u128) -> u64
    ensures { result ≡ min rows (2 ^ 64 - 1) }
{
    match u64::try_from(rows) {
        Ok(rows) => rows,
        Err(_) => u64::MAX,
    }
}

/// How much a checked frame section contains, as C gets it.
pub(crate) fn counts_shown(counts: &SectionCounts) -> CCounts
    ensures { (frame : FrameSection) → AreCountsOf frame counts.now → result ≡ frame_counts frame }
{
    CCounts {
        cies: counts.cies as u64,
        fdes: counts.fdes as u64,
        rows: row_number(counts.rows),
        frame_expressions: counts.expressions as u64,
        tables: 0,
        lists: 0,
        list_expressions: 0,
    }
}

/// Counts what a checked frame section contains.
pub(crate) fn frame_counted(frame: &CheckedFrame<'_>) -> CCounts
    ensures { result ≡ frame_counts frame.now }
{
    counts_shown(&dw_eh_rows::counts_of(frame))
}

/// Counts what two checked sections contain.
fn counted(checked: &Checked<'_>) -> CCounts
    ensures { result ≡ counts_of checked.now.frame checked.now.lists }
{
    let lists = checked.lists();
    CCounts {
        tables: lists.tables().len() as u64,
        lists: lists.lists().len() as u64,
        list_expressions: lists.expressions().len() as u64,
        ..frame_counted(checked.frame())
    }
}

/// Checks a frame section and location lists, either of which may be empty. Writes what they
/// contain to `counts`, and their expressions to `expressions`, as many as fit.
#[unsafe(no_mangle)]
pub extern "C" fn dwcheck_report(
    alloc: Global,
    frame: &[u8],
    lists: &[u8],
    order: u32,
    address_size: u32,
    counts: &mut CCounts,
    expressions: &mut [CExpression],
    fault: &mut CFault,
) -> u32
    ensures done { result ≡ DONE → IsSomeAnd (target_by order address_size)
        (λ target. AreWellFormed target frame.now lists.now) }
    ensures counts { result ≡ DONE → IsSomeAnd (target_by order address_size) (λ target.
        counts.new ≡ counts_of (frame_of target frame.now)
        (record { target = target; section = lists.now })) }
    ensures expressions { result ≡ DONE → IsSomeAnd (target_by order address_size) (λ target.
        AreReported (frame_of target frame.now).expressions
        (located_in (record { target = target; section = lists.now })) expressions.old
        expressions.new) }
    ensures refused { result ≡ REFUSED → IsSomeAnd (target_by order address_size)
        (λ target. ReportsOf (check_fault target frame.now lists.now) fault.new) }
    ensures target { result ≡ BAD_TARGET → target_by order address_size ≡ None }
    ensures bad { target_by order address_size ≡ None → result ≡ BAD_TARGET }
    ensures codes { (result ≡ DONE) ⊎ (result ≡ REFUSED) ⊎ (result ≡ NO_MEMORY)
        ⊎ (result ≡ BAD_TARGET) }
    ensures unwritten { result ≢ DONE
        → (counts.new ≡ counts.old) × (expressions.new ≡ expressions.old) }
    ensures unreported { result ≢ REFUSED → fault.new ≡ fault.old }
{
    let Some(target) = target(order, address_size) else {
        return BAD_TARGET;
    };
    match check(alloc, frame, lists, target) {
        Ok(checked) => {
            *counts = counted(&checked);
            write_expressions(&checked, expressions);
            DONE
        }
        Err(found) if found.fault.kind == FaultKind::Memory => NO_MEMORY,
        Err(found) => {
            *fault = report(within(found.section), found.fault);
            REFUSED
        }
    }
}
