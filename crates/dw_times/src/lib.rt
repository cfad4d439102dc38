//! Exports that `bench/beside_gimli` and `bench/beside_libunwind` time and compare. Each does one
//! kind of work, and its result depends on all of that work.
#![tactic(auto)]

mod checksum;
mod eh_frame;
mod in_place;
mod machine;
mod meaning;
mod reading_checksum;
mod tables;
mod walks;

ghost use Rattle.std.specs.Prelude.{◌<◌, Some, None};

use crate::machine::Known;
use dw_bytes::{AddressSize, Order, Target};
use dw_check::{Answer, Checked, check, unwind};
use dw_eval::{Context, Memory, Outcome, Registers, evaluate};
use dw_loclists::check_lists;
use dw_ops::Expression;
use dw_rows::{CheckedFrame, Rows, UnwindContext, UnwindTableRow, check_frame};
use dw_stack::{CheckedExpression, Kind, certify, check_expression};
use std::alloc::Global;

/// The timed sections are little-endian, with addresses of eight bytes.
const TARGET: Target = Target {
    order: Order::Little,
    address_size: AddressSize::Eight,
};

/// A machine whose registers all contain 7, and whose memory isn't known.
struct Sevens {}

impl Registers for Sevens {
    ghost contents = { λ _ _. Some 7 };

    fn register(&self, number: u16) -> Option<u64> {
        let _ = number;
        Some(7)
    }
}

impl Memory for Sevens {
    ghost bytes = { λ _ _. None };

    #[tactic(auto, unfolding(dw_eval::specs::World::bytes_from))]
    fn read(&self, address: u64, size: u8, order: Order) -> Option<u64> {
        let _ = (address, order);
        match size {
            1 => None,
            2 => None,
            4 => None,
            8 => None,
            _ => unreachable!(),
        }
    }
}

/// The checked section, or `None` if it has 2^32 bytes or more or is refused.
fn checked<'a>(alloc: Global, section: &'a [u8]) -> Option<CheckedFrame<'a>> {
    if section.len() >= 1 << 32 {
        return None;
    }
    check_frame(alloc, section, TARGET).ok()
}

/// Checks a frame section, and returns the number of its FDEs.
#[unsafe(no_mangle)]
pub extern "C" fn bench_check(alloc: Global, section: &[u8]) -> usize {
    match checked(alloc, section) {
        Some(frame) => frame.fdes().len(),
        None => 0,
    }
}

/// Checks a section of location lists, and returns the number of its expressions.
#[unsafe(no_mangle)]
pub extern "C" fn bench_check_lists(alloc: Global, section: &[u8]) -> usize {
    if section.len() >= 1 << 32 {
        return 0;
    }
    match check_lists(alloc, section, TARGET) {
        Ok(lists) => lists.expressions().len(),
        Err(_) => 0,
    }
}

/// The sum of the end addresses of all rows, with a new iterator for each FDE.
fn iterated_sum(frame: &CheckedFrame<'_>) -> u64 {
    let mut sum = 0u64;
    for fde in frame.fdes() {
        for row in frame.rows(fde) {
            sum = sum.wrapping_add(row.end_address());
        }
    }
    sum
}

/// Checks a section, and gets all rows, with a new iterator for each FDE.
#[unsafe(no_mangle)]
pub extern "C" fn bench_rows(alloc: Global, section: &[u8]) -> u64 {
    match checked(alloc, section) {
        Some(frame) => iterated_sum(&frame),
        None => 0,
    }
}

/// The sum of the end addresses of all rows, with a new iterator for each FDE in one context.
fn iterated_in_sum(frame: &CheckedFrame<'_>) -> u64 {
    let mut context = UnwindContext::new();
    let mut sum = 0u64;
    for fde in frame.fdes() {
        for row in frame.rows_in(fde, &mut context) {
            sum = sum.wrapping_add(row.end_address());
        }
    }
    sum
}

/// Checks a section, and gets all rows, with a new iterator for each FDE in one context.
#[unsafe(no_mangle)]
pub extern "C" fn bench_rows_in(alloc: Global, section: &[u8]) -> u64 {
    match checked(alloc, section) {
        Some(frame) => iterated_in_sum(&frame),
        None => 0,
    }
}

/// The sum of the end addresses of the remaining rows, each of which is written to `row`.
fn sum_of<'f, 'a>(rows: &mut Rows<'f, 'a>, row: &mut UnwindTableRow<'f, 'a>) -> u64 {
    let mut sum = 0u64;
    'rows: while rows.next_into(row) {
        sum = sum.wrapping_add(row.end_address());
    }
    sum
}

/// The sum of the end addresses of all rows, each of which is written to the same `UnwindTableRow`.
fn streamed_sum(frame: &CheckedFrame<'_>) -> u64 {
    let Some(first) = frame.fdes().first() else {
        return 0;
    };
    let mut rows = frame.rows(first);
    let mut row = UnwindTableRow::empty();
    let mut sum = 0u64;
    for fde in frame.fdes() {
        frame.rows_into(fde, &mut rows);
        sum = sum.wrapping_add(sum_of(&mut rows, &mut row));
    }
    sum
}

/// Checks a section, and writes all rows, one after another, to the same `UnwindTableRow`.
#[unsafe(no_mangle)]
pub extern "C" fn bench_rows_into(alloc: Global, section: &[u8]) -> u64 {
    match checked(alloc, section) {
        Some(frame) => streamed_sum(&frame),
        None => 0,
    }
}

/// The sum of the end addresses of all rows, with one iterator that is reset for each FDE.
fn iterated_again_sum(frame: &CheckedFrame<'_>) -> u64 {
    let Some(first) = frame.fdes().first() else {
        return 0;
    };
    let mut rows = frame.rows(first);
    let mut sum = 0u64;
    for fde in frame.fdes() {
        frame.rows_into(fde, &mut rows);
        for row in &mut rows {
            sum = sum.wrapping_add(row.end_address());
        }
    }
    sum
}

/// Checks a section, and gets all rows, with one iterator that is reset for each FDE.
#[unsafe(no_mangle)]
pub extern "C" fn bench_rows_again(alloc: Global, section: &[u8]) -> u64 {
    match checked(alloc, section) {
        Some(frame) => iterated_again_sum(&frame),
        None => 0,
    }
}

/// Looks up the row of each of `addresses`, `times` times, and returns the sum of the rows' end
/// addresses.
fn found_sum(frame: &CheckedFrame<'_>, addresses: &[u64], times: u32) -> u64 {
    let mut row = UnwindTableRow::empty();
    let mut sum = 0u64;
    for _ in 0..times {
        for address in addresses {
            if frame.row_for_address_into(*address, &mut row).is_some() {
                sum = sum.wrapping_add(row.end_address());
            }
        }
    }
    sum
}

/// Checks a section, and looks up the row of each of `addresses`, `times` times.
#[unsafe(no_mangle)]
pub extern "C" fn bench_look_up(
    alloc: Global,
    section: &[u8],
    addresses: &[u64],
    times: u32,
) -> u64 {
    match checked(alloc, section) {
        Some(frame) => found_sum(&frame, addresses, times),
        None => 0,
    }
}

fn number_of(answer: Answer) -> u64 {
    match answer {
        Answer::Value(value) => value,
        _ => 0,
    }
}

/// Finds the caller of the frame at each of `addresses`, `times` times, and returns the sum of the
/// callers' CFAs, return addresses and numbers of registers.
fn callers_sum(checked: &Checked<'_>, addresses: &[u64], times: u32) -> u64 {
    let mut sum = 0u64;
    for _ in 0..times {
        for address in addresses {
            if let Some(caller) = unwind(checked, *address, &Known {}, &Known {}) {
                sum = sum
                    .wrapping_add(number_of(caller.cfa))
                    .wrapping_add(number_of(caller.return_address))
                    .wrapping_add(caller.registers.len() as u64);
            }
        }
    }
    sum
}

/// Checks a frame section without location lists, and finds the caller of the frame at each of
/// `addresses`, `times` times.
#[unsafe(no_mangle)]
pub extern "C" fn bench_unwind(
    alloc: Global,
    section: &[u8],
    addresses: &[u64],
    times: u32,
) -> u64 {
    match check(alloc, section, &[], TARGET) {
        Ok(checked) => callers_sum(&checked, addresses, times),
        Err(_) => 0,
    }
}

fn value_of(expression: &CheckedExpression<'_>) -> u64 {
    let context = Context {
        cfa: Some(1),
        frame_base: None,
        object: None,
    };
    let evaluation = evaluate(expression, &context, &Sevens {}, &Sevens {});
    match evaluation.outcome {
        Outcome::Value(value) => value,
        _ => u64::from(evaluation.steps),
    }
}

/// Checks a register's expression once, and evaluates it `times` times.
#[unsafe(no_mangle)]
pub extern "C" fn bench_evaluate(alloc: Global, bytes: &[u8], times: u32) -> u64 {
    if bytes.len() >= 1 << 32 {
        return 0;
    }
    match check_expression(alloc, Expression::new(bytes, TARGET), Kind::FrameRegister) {
        Ok(expression) => {
            let mut sum = 0u64;
            for _ in 0..times {
                sum = sum.wrapping_add(value_of(&expression));
            }
            sum
        }
        Err(_) => 0,
    }
}

/// Checks a register's expression `times` times. Makes no certificate, which would list the state
/// before each operation.
#[unsafe(no_mangle)]
pub extern "C" fn bench_check_expression(alloc: Global, bytes: &[u8], times: u32) -> u64 {
    if bytes.len() >= 1 << 32 {
        return 0;
    }
    let mut sum = 0u64;
    for _ in 0..times {
        let checked = check_expression(alloc, Expression::new(bytes, TARGET), Kind::FrameRegister);
        if let Ok(expression) = checked {
            sum = sum.wrapping_add(u64::from(expression.depth()));
        }
    }
    sum
}

/// Checks a register's expression `times` times, and each time makes its certificate, which lists
/// the state before each operation.
#[unsafe(no_mangle)]
pub extern "C" fn bench_certify(alloc: Global, bytes: &[u8], times: u32) -> u64 {
    if bytes.len() >= 1 << 32 {
        return 0;
    }
    let mut sum = 0u64;
    for _ in 0..times {
        let checked = certify(alloc, Expression::new(bytes, TARGET), Kind::FrameRegister);
        if let Ok(certificate) = checked {
            sum = sum.wrapping_add(u64::from(certificate.into_checked().depth()));
        }
    }
    sum
}
