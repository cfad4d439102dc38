//! A checksum of what is read from a section or an expression, for comparisons with gimli. If the
//! input is refused, the result is the number of its first fault instead.

use crate::checksum::Mixed;
use crate::meaning::add_expression;
use dw_bytes::{AddressSize, Fault, FaultKind, Order, Target};
use dw_frame::{CommonInformationEntry, FrameDescriptionEntry};
use dw_loclists::{CheckedLists, check_lists};
use dw_rows::{CfaRule, CheckedFrame, RegisterRule, Rows, UnwindTableRow, check_frame};
use dw_stack::{CheckedExpression, Kind, check_expression};
use std::alloc::Global;

pub(crate) fn target_of(big: bool, small: bool) -> Target {
    Target {
        order: if big { Order::Big } else { Order::Little },
        address_size: if small {
            AddressSize::Four
        } else {
            AddressSize::Eight
        },
    }
}

/// The result for a section of 2^32 bytes or more: the number of the fault `SectionTooLong`.
fn too_long() -> u64 {
    u64::from(FaultKind::SectionTooLong.number())
}

fn refusal(fault: Fault) -> u64 {
    u64::from(fault.kind.number())
}

fn add_cie(mixed: &mut Mixed, cie: &CommonInformationEntry<'_>) {
    mixed.add(u64::from(cie.offset));
    mixed.add_three(
        cie.code_alignment_factor,
        cie.data_alignment_factor.cast_unsigned(),
        u64::from(cie.return_address_register),
    );
}

fn add_fde(mixed: &mut Mixed, fde: &FrameDescriptionEntry<'_>) {
    mixed.add(u64::from(fde.offset));
    mixed.add_three(fde.cie_pointer, fde.initial_location, fde.address_range);
}

/// Adds an expression's offset in the section, and its length in bytes, to the checksum.
fn add_named(mixed: &mut Mixed, offset: u32, expression: &CheckedExpression<'_>) {
    mixed.add(u64::from(offset));
    mixed.add(expression.expression().bytes().len() as u64);
}

pub(crate) fn add_cfa(mixed: &mut Mixed, cfa: CfaRule<'_>) {
    match cfa {
        CfaRule::RegisterAndOffset { register, offset } => {
            mixed.add_three(1, u64::from(register), offset.cast_unsigned())
        }
        CfaRule::Expression { offset, expression } => {
            mixed.add(2);
            add_named(mixed, offset, &expression);
        }
    }
}

/// Adds a register's rule to the checksum. An undefined rule, or no rule, adds nothing.
pub(crate) fn add_rule(mixed: &mut Mixed, register: u16, rule: RegisterRule<'_>) {
    let number = u64::from(register);
    match rule {
        RegisterRule::Default => {}
        RegisterRule::Undefined => {}
        RegisterRule::SameValue => mixed.add_three(number, 1, 0),
        RegisterRule::Offset(offset) => mixed.add_three(number, 2, offset.cast_unsigned()),
        RegisterRule::ValOffset(offset) => mixed.add_three(number, 3, offset.cast_unsigned()),
        RegisterRule::Register(other) => mixed.add_three(number, 4, u64::from(other)),
        RegisterRule::Expression { offset, expression } => {
            mixed.add_three(number, 5, 0);
            add_named(mixed, offset, &expression);
        }
        RegisterRule::ValExpression { offset, expression } => {
            mixed.add_three(number, 6, 0);
            add_named(mixed, offset, &expression);
        }
    }
}

fn add_row(mixed: &mut Mixed, row: &UnwindTableRow<'_, '_>) {
    mixed.add(row.start_address());
    mixed.add(row.end_address());
    add_cfa(mixed, row.cfa());
    for (register, rule) in row.rules() {
        add_rule(mixed, register, rule);
    }
}

/// Adds the rows that `rows` has not given yet to the checksum.
fn add_rows<'f, 'a>(mixed: &mut Mixed, rows: &mut Rows<'f, 'a>, row: &mut UnwindTableRow<'f, 'a>) {
    'rows: while rows.next_into(row) {
        add_row(mixed, row);
    }
}

/// Adds each FDE, and its rows, to the checksum.
fn add_fdes(mixed: &mut Mixed, frame: &CheckedFrame<'_>) {
    let Some(first) = frame.fdes().first() else {
        return;
    };
    let mut rows = frame.rows(first);
    let mut row = UnwindTableRow::empty();
    for fde in frame.fdes() {
        add_fde(mixed, fde);
        frame.rows_into(fde, &mut rows);
        add_rows(mixed, &mut rows, &mut row);
    }
}

fn frame_number(alloc: Global, frame: &CheckedFrame<'_>) -> u64 {
    let mut mixed = Mixed::new();
    for cie in frame.cies() {
        add_cie(&mut mixed, cie);
    }
    add_fdes(&mut mixed, frame);
    for (offset, expression) in frame.expressions() {
        add_expression(alloc, &mut mixed, *offset, expression);
    }
    mixed.answer()
}

/// The checksum of a frame section: of its CIEs, its FDEs with their rows, and its expressions. If
/// the section is refused, the number of its first fault.
#[unsafe(no_mangle)]
pub extern "C" fn bench_frame_answer(alloc: Global, section: &[u8], big: bool, small: bool) -> u64 {
    if section.len() >= 1 << 32 {
        return too_long();
    }
    match check_frame(alloc, section, target_of(big, small)) {
        Ok(frame) => frame_number(alloc, &frame),
        Err(fault) => refusal(fault),
    }
}

/// Adds each list to the checksum: its offset, and the offsets of the expressions that apply at
/// each of `addresses`.
fn add_held(mixed: &mut Mixed, lists: &CheckedLists<'_>, base: u64, addresses: &[u64]) {
    for list in lists.lists() {
        mixed.add(u64::from(list.offset()));
        for address in addresses {
            for (offset, _) in lists.locations_at(list, base, *address) {
                mixed.add(u64::from(offset));
            }
            mixed.add(0);
        }
    }
}

fn lists_number(alloc: Global, lists: &CheckedLists<'_>, base: u64, addresses: &[u64]) -> u64 {
    let mut mixed = Mixed::new();
    add_held(&mut mixed, lists, base, addresses);
    for (offset, expression) in lists.expressions() {
        add_expression(alloc, &mut mixed, offset, &expression);
    }
    mixed.answer()
}

/// The checksum of a section of location lists: of each list's offset, the expressions that apply
/// at each of `addresses`, and all expressions of the section. If the section is refused, the
/// number of its first fault.
#[unsafe(no_mangle)]
pub extern "C" fn bench_lists_answer(
    alloc: Global,
    section: &[u8],
    big: bool,
    small: bool,
    base: u64,
    addresses: &[u64],
) -> u64 {
    if section.len() >= 1 << 32 {
        return too_long();
    }
    match check_lists(alloc, section, target_of(big, small)) {
        Ok(lists) => lists_number(alloc, &lists, base, addresses),
        Err(fault) => refusal(fault),
    }
}

/// The checksum of an expression's operations and outcome, or the number of its first fault if the
/// expression is refused. The expression is checked as a location if `location` is true, and as a
/// register's rule otherwise.
#[unsafe(no_mangle)]
pub extern "C" fn bench_expression_answer(
    alloc: Global,
    bytes: &[u8],
    big: bool,
    small: bool,
    location: bool,
) -> u64 {
    if bytes.len() >= 1 << 32 {
        return too_long();
    }
    let kind = if location {
        Kind::Location
    } else {
        Kind::FrameRegister
    };
    let expression = dw_ops::Expression::new(bytes, target_of(big, small));
    match check_expression(alloc, expression, kind) {
        Ok(checked) => {
            let mut mixed = Mixed::new();
            add_expression(alloc, &mut mixed, 0, &checked);
            mixed.answer()
        }
        Err(fault) => refusal(fault),
    }
}
