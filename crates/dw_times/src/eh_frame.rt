//! Exports for `bench/beside_gimli` that time the check of an `.eh_frame` section, alone and with its
//! compiled table.

use crate::TARGET;
use dw_eh_frame::Bases;
use dw_eh_rows::{check_eh_frame, list_eh_frame};
use dw_tables::UnwindTable;
use std::alloc::Global;

/// More bytes than any table needs.
const AMPLE: usize = 1 << 40;

/// Checks the section at `section_address`, and returns how many FDEs it has. 0 if it is refused.
#[unsafe(no_mangle)]
pub extern "C" fn bench_check_eh_frame(
    alloc: Global,
    section: &[u8],
    section_address: u64,
) -> usize {
    if section.len() >= 1 << 32 {
        return 0;
    }
    match check_eh_frame(
        alloc,
        section,
        TARGET,
        Bases::of_section(section_address),
        false,
    ) {
        Ok(frame) => frame.fdes().len(),
        Err(_) => 0,
    }
}

/// Checks the section at `section_address` and compiles its table, as a process does that adds it, and
/// returns how many FDEs the section has. 0 if that can't be done with one run of each program.
#[unsafe(no_mangle)]
pub extern "C" fn bench_compile_eh_frame(
    alloc: Global,
    section: &[u8],
    section_address: u64,
) -> usize {
    if section.len() >= 1 << 32 {
        return 0;
    }
    let bases = Bases::of_section(section_address);
    let Ok(Some(listed)) = list_eh_frame(alloc, section, TARGET, bases, false) else {
        return 0;
    };
    match UnwindTable::check_and_compile(alloc, listed, AMPLE) {
        Ok(Some((frame, _))) => frame.fdes().len(),
        _ => 0,
    }
}
