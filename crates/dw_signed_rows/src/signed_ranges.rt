//! The addresses of a checked section at which return addresses are signed.

ghost use Rattle.std.specs.Prelude.{◌≡◌, ◌<◌, ℕ, [], Contains, IfErr, IfOk, MatchOption, None, Some, length, map, slice_get};
ghost use Rattle.dw_bytes.specs.Answers.{memory};
ghost use Rattle.dw_signed_rows.specs.SignedRanges.{has_signed};
ghost use Rattle.dw_frame.specs.Bounds.{Ascends};
ghost use Rattle.dw_frame.specs.Records.{Cie};
ghost use Rattle.dw_frame.specs.Views.{cie_of};
ghost use Rattle.dw_rules.specs.ProgramFault.{cie_fault};
ghost use Rattle.dw_rows.specs.AddressIndex.{cie_offset};
ghost use Rattle.dw_rows.specs.Section.{cie_at};
ghost use Rattle.dw_signed_rows.specs.SignedRows.{signed_by_cie};
ghost use Rattle.dw_signed_rows.specs.SignedSections.{is_signed_of};

use crate::signed_program::is_signed_by_cie;
use crate::signed_range::SignedRange;
use crate::signed_rows::push_signed_rows;
use dw_bytes::Fault;
use dw_frame::CommonInformationEntry;
use dw_rows::CheckedFrame;
use std::alloc::Global;
use std::marker::Model;

/// The addresses at which return addresses are signed, as ranges in order of address. A function
/// that signs its return address has a range for each stretch of code in which it is signed, and
/// usually one.
#[derive(Drop)]
pub struct SignedRanges {
    ranges: Vec<SignedRange>,
}

impl Model for SignedRanges {
    ghost use Rattle.std.specs.Prelude.{List};
    ghost use Rattle.dw_signed_rows.specs.SignedRanges.{AreInOrder};
    ghost use Rattle.dw_signed_rows.specs.declared.signed_range.SignedRange.{SignedRange};

    ghost Value = { List SignedRange };

    ghost view = { λ s. s.ranges.items };

    ghost invariant = { λ s. AreInOrder 0 s.ranges.items };
}

/// For each CIE, whether its program leaves the return address signed.
fn signed_by_cies(alloc: Global, cies: &[CommonInformationEntry<'_>]) -> Result<Vec<bool>, Fault>
    requires { (c : Cie) → Contains (map cie_of cies.now) c → cie_fault c ≡ None }
    ensures flags { IfOk result (λ flags. flags.items ≡ map signed_by_cie (map cie_of cies.now)) }
    ensures lack { IfErr result (λ fault. fault ≡ memory) }
{
    let mut flags = Vec::with_capacity(alloc, cies.len())?;
    for cie in cies {
        flags.push(is_signed_by_cie(cie))?;
    }
    Ok(flags)
}

/// The index of the CIE that begins at `offset`, by binary search. `None` means that no CIE begins
/// there.
fn place_of_cie(cies: &[CommonInformationEntry<'_>], offset: u64) -> Option<usize>
    requires { Ascends cie_offset (map cie_of cies.now) }
    ensures { MatchOption result
        (cie_at (map cie_of cies.now) offset ≡ None)
        (λ place. (place < length cies.now)
        × (cie_at (map cie_of cies.now) offset ≡ slice_get (map cie_of cies.now) place)) }
{
    match cies.binary_search_by_key(&offset, |cie| u64::from(cie.offset)) {
        Ok(place) => Some(place),
        Err(_) => None,
    }
}

/// Whether the program of the CIE that begins at `offset` leaves the return address signed, by the
/// flags of all CIEs.
fn is_signed_by(flags: &[bool], cies: &[CommonInformationEntry<'_>], offset: u64) -> bool
    requires flags { flags.now ≡ map signed_by_cie (map cie_of cies.now) }
    requires order { Ascends cie_offset (map cie_of cies.now) }
    ensures { (c : Cie) → cie_at (map cie_of cies.now) offset ≡ Some c → result ≡ signed_by_cie c }
{
    match place_of_cie(cies, offset) {
        Some(place) => flags[place],
        None => false,
    }
}

impl SignedRanges {
    /// No addresses.
    pub fn none(alloc: Global) -> Self
        ensures { result ≡ [] }
    {
        SignedRanges {
            ranges: Vec::new(alloc),
        }
    }

    /// The addresses of the rows of a section in which the return address is signed. Each program
    /// is run once more. It takes n log n for a section of n bytes, 16 bytes of memory for each
    /// range, and one for each CIE while it runs. The only fault is `Memory`, with offset 0.
    pub fn of(alloc: Global, frame: &CheckedFrame<'_>) -> Result<Self, Fault>
        ensures signed { IfOk result
            (λ signed. (a : ℕ) → has_signed signed a ≡ is_signed_of frame.now a) }
        ensures lack { IfErr result (λ fault. fault ≡ memory) }
    {
        dw_rows::laws::checked_frame_sections();
        let mut ranges = Vec::new(alloc);
        let fdes = frame.fdes();
        let cies = frame.cies();
        let flags = signed_by_cies(alloc, cies)?;
        let index = frame.index();
        for entry in index {
            let fde = fdes[entry.place];
            let cie = frame.cie_of(&fde);
            let first = is_signed_by(&flags, cies, fde.cie_pointer);
            push_signed_rows(&mut ranges, &cie, &fde, first)?;
        }
        Ok(SignedRanges { ranges })
    }

    /// Whether the return address is signed at an address, in O(log n) steps for n ranges.
    pub fn has(&self, address: u64) -> bool
        ensures { result ≡ has_signed self.now address }
    {
        match self
            .ranges
            .binary_search_by_key(&address, |range| range.start)
        {
            Ok(_) => true,
            Err(0) => false,
            Err(index) => address < self.ranges[index - 1].end,
        }
    }
}
