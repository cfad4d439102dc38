//! In which rows of an FDE the return address is signed.

ghost use Rattle.std.specs.Prelude.{◌≡◌, ◌≤◌, ◌+◌, ◌||◌, ℕ, None, OnOk, IfErr};
ghost use Rattle.dw_bytes.specs.Answers.{memory};
ghost use Rattle.dw_frame.specs.Views.{cie_of, fde_of};
ghost use Rattle.dw_rules.specs.ProgramFault.{cie_fault, fde_fault};
ghost use Rattle.dw_signed_rows.specs.SignedRanges.{AreInOrder, ends_at, has_signed};
ghost use Rattle.dw_signed_rows.specs.SignedRows.{is_signed_in as signed_in, signed_by_cie};
ghost use Rattle.dw_signed_rows.specs.SignedRuns.{is_signed_row};

use crate::signed_program::{SignedProgram, SignedRow, is_signed_by_cie};
use crate::signed_range::{SignedRange, push_range};
use dw_bytes::Fault;
use dw_frame::{CommonInformationEntry, FrameDescriptionEntry};

/// Appends the addresses of a row, if the return address is signed in it.
fn push_row(ranges: &mut Vec<SignedRange>, row: SignedRow) -> Result<(), Fault>
    requires order { AreInOrder 0 ranges.old.items }
    requires low { ends_at 0 ranges.old.items ≤ row.start }
    requires forward { row.start ≤ row.end }
    ensures pushed { OnOk result ((a : ℕ) → has_signed ranges.new.items a
        ≡ (has_signed ranges.old.items a || is_signed_row row a)) }
    ensures order { OnOk result (AreInOrder 0 ranges.new.items) }
    ensures end { OnOk result (ends_at 0 ranges.new.items ≤ row.end) }
    ensures lack { IfErr result (λ fault. fault ≡ memory) }
{
    if !row.is_signed || row.start == row.end {
        return Ok(());
    }
    let (start, end) = (row.start, row.end);
    push_range(ranges, SignedRange { start, end })
}

/// Appends the addresses of the rows of an FDE in which the return address is signed. The ranges
/// have no address above the FDE's first one. `first` says whether its CIE's program leaves the
/// return address signed.
pub(crate) fn push_signed_rows(
    ranges: &mut Vec<SignedRange>,
    cie: &CommonInformationEntry<'_>,
    fde: &FrameDescriptionEntry<'_>,
    first: bool,
) -> Result<(), Fault>
    requires first { first ≡ signed_by_cie (cie_of cie.now) }
    requires fde { fde_fault (cie_of cie.now) (fde_of fde.now) ≡ None }
    requires order { AreInOrder 0 ranges.old.items }
    requires low { ends_at 0 ranges.old.items ≤ fde.now.initial_location }
    ensures pushed { OnOk result ((a : ℕ) → has_signed ranges.new.items a
        ≡ (has_signed ranges.old.items a || signed_in (cie_of cie.now) (fde_of fde.now) a)) }
    ensures order { OnOk result (AreInOrder 0 ranges.new.items) }
    ensures end { OnOk result
        (ends_at 0 ranges.new.items ≤ fde.now.initial_location + fde.now.address_range) }
    ensures lack { IfErr result (λ fault. fault ≡ memory) }
{
    let mut program = SignedProgram::new(cie, fde, first);
    let mut instructions = fde.program.instructions();
    loop {
        let (row, is_last) = program.pass_row(&mut instructions, cie, fde);
        push_row(ranges, row)?;
        if is_last {
            return Ok(());
        }
    }
}

/// Whether the return address is signed in the row of an address, by the program of the FDE that
/// covers the address, and of its CIE. The programs must have passed their checks. It takes time in
/// proportion to their bytes, and no memory.
pub fn is_signed_in(
    cie: &CommonInformationEntry<'_>,
    fde: &FrameDescriptionEntry<'_>,
    address: u64,
) -> bool
    requires cie { cie_fault (cie_of cie.now) ≡ None }
    requires fde { fde_fault (cie_of cie.now) (fde_of fde.now) ≡ None }
    ensures { result ≡ signed_in (cie_of cie.now) (fde_of fde.now) address }
{
    let mut program = SignedProgram::new(cie, fde, is_signed_by_cie(cie));
    let mut instructions = fde.program.instructions();
    loop {
        let (row, is_last) = program.pass_row(&mut instructions, cie, fde);
        if row.is_signed_at(address) {
            return true;
        }
        if is_last {
            return false;
        }
    }
}
