//! FDEs that are exact copies of earlier ones.

ghost use Rattle.std.specs.Prelude.{◌≡◌, ◌∷◌, [], ◌++◌, ◌<◌, ◌^◌, IfOk, OnOk, length, map};
ghost use Rattle.dw_eh_frame.specs.Copies.{is_copy, repeats, without_copies as fdes_without_copies};
ghost use Rattle.dw_eh_frame.specs.CopySearch.{AreFirsts};
ghost use Rattle.dw_frame.specs.Views.{fde_of};

use crate::first_fdes::FirstFdes;
use dw_frame::FrameDescriptionEntry;
use std::alloc::{AllocError, Global};

/// Whether an FDE is a copy of `first`, if both begin at the same address.
fn is_copy_of(first: &FrameDescriptionEntry<'_>, fde: &FrameDescriptionEntry<'_>) -> bool
    ensures { result ≡ repeats (fde_of first.now) (fde_of fde.now) }
{
    first.address_range == fde.address_range
        && first.cie_pointer == fde.cie_pointer
        && first.program.bytes() == fde.program.bytes()
}

/// Whether an FDE is an exact copy of one of the FDEs before it. `firsts` says which of them begin
/// where.
#[inline(always)]
fn is_exact_copy(
    before: &[FrameDescriptionEntry<'_>],
    firsts: &FirstFdes,
    fde: &FrameDescriptionEntry<'_>,
) -> bool
    requires { AreFirsts firsts.now (map fde_of before.now) }
    ensures { result ≡ is_copy (map fde_of before.now) (fde_of fde.now) }
{
    if fde.address_range == 0 {
        return false;
    }
    match firsts.get(fde.initial_location) {
        Some(first) => is_copy_of(&before[first as usize], fde),
        None => false,
    }
}

/// Remembers an FDE that comes after `before`, unless it covers no address or one of those begins at
/// the same address.
#[inline(always)]
fn remember(
    firsts: &mut FirstFdes,
    before: &[FrameDescriptionEntry<'_>],
    fde: &FrameDescriptionEntry<'_>,
) -> Result<(), AllocError>
    requires firsts { AreFirsts firsts.old (map fde_of before.now) }
    requires few { length before.now < 2 ^ 32 }
    ensures { OnOk result (AreFirsts firsts.new (map fde_of before.now ++ fde_of fde.now ∷ [])) }
{
    if fde.address_range == 0 {
        return Ok(());
    }
    firsts.add(fde.initial_location, before.len() as u32)
}

/// The FDEs that aren't exact copies of earlier ones. It takes n log n for n FDEs, and memory for each
/// FDE that is kept and for where it begins.
pub fn without_copies<'a>(
    alloc: Global,
    fdes: &[FrameDescriptionEntry<'a>],
) -> Result<Vec<FrameDescriptionEntry<'a>>, AllocError>
    requires { length fdes.now < 2 ^ 32 }
    ensures { IfOk result (λ kept. map fde_of kept.items ≡ fdes_without_copies [] (map fde_of fdes.now)) }
{
    let mut kept = Vec::new(alloc);
    let mut firsts = FirstFdes::new(alloc);
    for fde in fdes {
        if !is_exact_copy(&kept, &firsts, fde) {
            remember(&mut firsts, &kept, fde)?;
            kept.push(*fde)?;
        }
    }
    Ok(kept)
}
