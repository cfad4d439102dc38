//! Ranges of addresses at which return addresses are signed.

ghost use Rattle.std.specs.Prelude.{◌≡◌, ◌≤◌, ◌<◌, ◌||◌, ℕ, IfErr, OnOk};
ghost use Rattle.dw_bytes.specs.Answers.{memory};
ghost use Rattle.dw_signed_rows.specs.SignedRanges.{AreInOrder, ends_at, has_address, has_signed};

use dw_bytes::Fault;

/// The addresses from `start` up to but not including `end`.
#[derive(Clone, Copy, Debug, Drop, PartialEq, Eq)]
pub struct SignedRange {
    pub start: u64,
    pub end: u64,
}

/// Appends a range, which begins at the end of the last one or above it. If it begins at that end,
/// the last range is made longer instead.
pub(crate) fn push_range(ranges: &mut Vec<SignedRange>, range: SignedRange) -> Result<(), Fault>
    requires order { AreInOrder 0 ranges.old.items }
    requires low { ends_at 0 ranges.old.items ≤ range.start }
    requires some { range.start < range.end }
    ensures pushed { OnOk result ((a : ℕ) → has_signed ranges.new.items a
        ≡ (has_signed ranges.old.items a || has_address a range)) }
    ensures order { OnOk result (AreInOrder 0 ranges.new.items) }
    ensures end { OnOk result (ends_at 0 ranges.new.items ≡ range.end) }
    ensures lack { IfErr result (λ fault. fault ≡ memory) }
{
    match ranges.pop() {
        Some(last) if last.end == range.start => ranges.push(SignedRange {
            start: last.start,
            end: range.end,
        })?,
        Some(last) => {
            ranges.push(last)?;
            ranges.push(range)?;
        }
        None => ranges.push(range)?,
    }
    Ok(())
}
