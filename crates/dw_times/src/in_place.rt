//! Look-ups in an `.eh_frame` section where it lies.

use dw_bytes::{AddressSize, Order, Target};
use dw_eh_frame::Bases;
use dw_in_place::{
    CompactAnswer, FrameInPlace, LookUpMemory, SearchTable, SectionInPlace,
    compact_row_for_address_in, row_for_address_in,
};
use std::alloc::Global;

/// The timed sections are little-endian, with addresses of eight bytes.
const TARGET: Target = Target {
    order: Order::Little,
    address_size: AddressSize::Eight,
};

/// Adds up where the rows of these addresses end, by one `FrameInPlace`.
#[inline(never)]
fn ends_by_frame(
    alloc: Global,
    section: SectionInPlace<'_>,
    table: &SearchTable<'_>,
    addresses: &[u64],
) -> u64 {
    let mut frame = FrameInPlace::new(alloc, section);
    let mut sum = 0u64;
    for address in addresses {
        if let Ok(true) = frame.find(table, *address) {
            sum = sum.wrapping_add(frame.row().end_address());
        }
    }
    sum
}

/// Adds up where the rows of these addresses end, each by a look-up that knows nothing of another.
#[inline(never)]
fn ends_one_by_one(
    alloc: Global,
    section: SectionInPlace<'_>,
    table: &SearchTable<'_>,
    addresses: &[u64],
) -> u64 {
    let mut memory = LookUpMemory::new(alloc);
    let mut sum = 0u64;
    for address in addresses {
        if let Ok(Some((row, _))) = row_for_address_in(&section, table, *address, &mut memory) {
            sum = sum.wrapping_add(row.end_address());
        }
    }
    sum
}

/// Adds up where the rows of these addresses end, each by a look-up of a compact row, or of any row if
/// that is unsure.
#[inline(never)]
fn ends_of_compact_rows(
    alloc: Global,
    section: SectionInPlace<'_>,
    table: &SearchTable<'_>,
    addresses: &[u64],
) -> u64 {
    let mut memory = LookUpMemory::new(alloc);
    let mut sum = 0u64;
    for address in addresses {
        match compact_row_for_address_in(&section, table, *address) {
            CompactAnswer::Row(row, _) => sum = sum.wrapping_add(row.end),
            CompactAnswer::Nothing => {}
            CompactAnswer::Unsure => {
                if let Ok(Some((row, _))) = row_for_address_in(
                    &section,
                    table,
                    *address,
                    &mut memory,
                ) {
                    sum = sum.wrapping_add(row.end_address());
                }
            }
        }
    }
    sum
}

/// Adds up where the rows of these addresses end, looked up in the `.eh_frame` section at
/// `section_address` by the `.eh_frame_hdr` at `header_address`: one by one if `keeps` is 0; as compact
/// rows one by one if it is 2; or else by a `FrameInPlace`. 0 if the section is too long, or the header
/// isn't as linkers write it.
#[unsafe(no_mangle)]
pub extern "C" fn bench_look_up_in_place(
    alloc: Global,
    bytes: &[u8],
    section_address: u64,
    header: &[u8],
    header_address: u64,
    addresses: &[u64],
    keeps: u32,
) -> u64 {
    if bytes.len() >= 0x1_0000_0000 {
        return 0;
    }
    let section = SectionInPlace {
        bytes,
        target: TARGET,
        bases: Bases::of_section(section_address),
        is_aarch64: false,
    };
    let Some(table) = SearchTable::read(header, TARGET, header_address) else {
        return 0;
    };
    match keeps {
        0 => ends_one_by_one(alloc, section, &table, addresses),
        2 => ends_of_compact_rows(alloc, section, &table, addresses),
        _ => ends_by_frame(alloc, section, &table, addresses),
    }
}
