//! Exports for `bench/beside_gimli` that time compiled tables, or return a checksum of their rows.

use crate::checksum::Mixed;
use crate::machine::Known;
use crate::reading_checksum::{add_cfa, add_rule, target_of};
use crate::{TARGET, number_of};
use dw_bytes::Target;
use dw_rows::{RegisterRule, check_frame};
use dw_rules::{Abi, UnwindRow};
use dw_tables::UnwindTable;
use std::alloc::Global;

/// More bytes than any table needs.
const AMPLE: usize = 1 << 40;

/// The compiled table of a section, which doesn't borrow the section. `None` if the section has
/// 2^32 bytes or more, is refused, or memory runs out.
fn compiled(alloc: Global, section: &[u8], target: Target) -> Option<UnwindTable> {
    if section.len() >= 1 << 32 {
        return None;
    }
    let frame = check_frame(alloc, section, target).ok()?;
    UnwindTable::compile(alloc, &frame, AMPLE).ok()?
}

/// Looks up the row of each of `addresses`, `times` times, and returns the sum of the rows' end
/// addresses.
fn found_sum(table: &UnwindTable, addresses: &[u64], times: u32) -> u64 {
    let mut sum = 0u64;
    for _ in 0..times {
        for address in addresses {
            if let Some(row) = table.row_for_address(*address) {
                sum = sum.wrapping_add(row.end_address());
            }
        }
    }
    sum
}

/// Checks a section, compiles its table, and looks up the row of each of `addresses`, `times`
/// times.
#[unsafe(no_mangle)]
pub extern "C" fn bench_look_up_by_table(
    alloc: Global,
    section: &[u8],
    addresses: &[u64],
    times: u32,
) -> u64 {
    match compiled(alloc, section, TARGET) {
        Some(table) => found_sum(&table, addresses, times),
        None => 0,
    }
}

/// Looks up the row of each of `addresses`, `times` times, and returns the sum of `rules_sum` of
/// the rows.
fn read_sum(table: &UnwindTable, addresses: &[u64], times: u32) -> u64 {
    let mut sum = 0u64;
    for _ in 0..times {
        for address in addresses {
            if let Some((row, _)) = table.row_and_return_register(*address) {
                sum = sum.wrapping_add(rules_sum(&row));
            }
        }
    }
    sum
}

/// The sum of a row's end address, its rules' registers, and the offsets of its `Offset` rules.
fn rules_sum(row: &UnwindRow<'_, '_>) -> u64 {
    let mut sum = row.end_address();
    for (register, rule) in row.rules() {
        sum = sum.wrapping_add(u64::from(register));
        if let RegisterRule::Offset(offset) = rule {
            sum = sum.wrapping_add(offset.cast_unsigned());
        }
    }
    sum
}

/// Checks a section, compiles its table, and reads all rules of the row of each of `addresses`,
/// `times` times.
#[unsafe(no_mangle)]
pub extern "C" fn bench_read_by_table(
    alloc: Global,
    section: &[u8],
    addresses: &[u64],
    times: u32,
) -> u64 {
    match compiled(alloc, section, TARGET) {
        Some(table) => read_sum(&table, addresses, times),
        None => 0,
    }
}

/// Finds the caller of the frame at each of `addresses`, `times` times, and returns the sum of the
/// callers' CFAs, return addresses and numbers of registers.
fn callers_sum(table: &UnwindTable, addresses: &[u64], times: u32) -> u64 {
    let abi = Abi::none();
    let mut sum = 0u64;
    for _ in 0..times {
        for address in addresses {
            if let Some(caller) = dw_unwind::unwind(table, &abi, *address, &Known {}, &Known {}) {
                sum = sum
                    .wrapping_add(number_of(caller.cfa))
                    .wrapping_add(number_of(caller.return_address))
                    .wrapping_add(caller.registers.len() as u64);
            }
        }
    }
    sum
}

/// Checks a section, compiles its table, and finds the caller of the frame at each of `addresses`,
/// `times` times.
#[unsafe(no_mangle)]
pub extern "C" fn bench_unwind_by_table(
    alloc: Global,
    section: &[u8],
    addresses: &[u64],
    times: u32,
) -> u64 {
    match compiled(alloc, section, TARGET) {
        Some(table) => callers_sum(&table, addresses, times),
        None => 0,
    }
}

fn add_row(mixed: &mut Mixed, row: &UnwindRow<'_, '_>) {
    mixed.add(row.start_address());
    mixed.add(row.end_address());
    add_cfa(mixed, row.cfa());
    for (register, rule) in row.rules() {
        add_rule(mixed, register, rule);
    }
}

/// Adds `address` to the checksum, and then the return address register and the row that covers
/// `address`. If no row covers it, adds `u64::MAX` instead of these two.
fn add_found(mixed: &mut Mixed, table: &UnwindTable, address: u64) {
    mixed.add(address);
    match table.row_and_return_register(address) {
        Some((row, register)) => {
            mixed.add(u64::from(register));
            add_row(mixed, &row);
        }
        None => mixed.add(u64::MAX),
    }
}

/// The checksum of `addresses` and of the rows that cover them in the compiled table of a section.
/// 0 if the section can't be compiled.
#[unsafe(no_mangle)]
pub extern "C" fn bench_table_answer(
    alloc: Global,
    section: &[u8],
    big: bool,
    small: bool,
    addresses: &[u64],
) -> u64 {
    let Some(table) = compiled(alloc, section, target_of(big, small)) else {
        return 0;
    };
    let mut mixed = Mixed::new();
    for address in addresses {
        add_found(&mut mixed, &table, *address);
    }
    mixed.answer()
}
