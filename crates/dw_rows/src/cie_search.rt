//! The CIE of an FDE, and the rules that the CIE's program leaves.

ghost use Rattle.std.specs.Prelude.{◌≡◌, ◌<◌, None, Some, option_map, map, length, slice_get, MatchOption, IfSome};
ghost use Rattle.dw_frame.specs.Views.{cie_of};
ghost use Rattle.dw_rows.specs.Section.{cie_at};
ghost use Rattle.dw_rows.specs.AddressIndex.{IsLeftAt, cie_offset};
ghost use Rattle.dw_frame.specs.Bounds.{Ascends};
ghost use Rattle.dw_rules.specs.ProgramState.{IsLeftBy};
ghost use Rattle.dw_rules.specs.Initial.{AreLeftBy};

use dw_frame::CommonInformationEntry;
use dw_rules::{InitialRules, UnwindState};

/// Finds the CIE that begins at `offset`, by binary search, and returns its index in `cies`. `None`
/// means that no CIE begins there. The CIEs must be in order of offset.
fn place_of_cie(cies: &[CommonInformationEntry<'_>], offset: u64) -> Option<usize>
    requires { Ascends cie_offset (map cie_of cies.now) }
    ensures { MatchOption result
        (cie_at (map cie_of cies.now) offset ≡ None)
        (λ place. (place < length cies.now)
        × (cie_at (map cie_of cies.now) offset ≡ slice_get (map cie_of cies.now) place)) }
{
    match cies.binary_search_by_key(&offset, |cie| u64::from(cie.offset)) {
        Ok(place) => Some(place),
        Err(_) => None,
    }
}

/// Finds the CIE that begins at `offset`, and returns its index in `cies`. `None` means that no CIE
/// begins there. The indices `near` and `near + 1` are tried before the binary search. A caller
/// that goes through many FDEs passes the index of the previous FDE's CIE as `near`, since most
/// FDEs have that CIE or the CIE after it.
#[inline(always)]
pub fn place_near(cies: &[CommonInformationEntry<'_>], near: usize, offset: u64) -> Option<usize>
    requires { Ascends cie_offset (map cie_of cies.now) }
    ensures { MatchOption result
        (cie_at (map cie_of cies.now) offset ≡ None)
        (λ place. (place < length cies.now)
        × (cie_at (map cie_of cies.now) offset ≡ slice_get (map cie_of cies.now) place)) }
{
    if near < cies.len() && u64::from(cies[near].offset) == offset {
        return Some(near);
    }
    if cies.len() > 1 && near < cies.len() - 1 && u64::from(cies[near + 1].offset) == offset {
        return Some(near + 1);
    }
    place_of_cie(cies, offset)
}

/// The CIE that begins at `offset`, found by binary search, or `None` if no CIE begins there.
pub fn find_cie<'a>(
    cies: &[CommonInformationEntry<'a>],
    offset: u64,
) -> Option<CommonInformationEntry<'a>>
    requires { Ascends cie_offset (map cie_of cies.now) }
    ensures { option_map cie_of result ≡ cie_at (map cie_of cies.now) offset }
{
    let place = place_of_cie(cies, offset)?;
    Some(cies[place])
}

/// Returns the CIE that begins at `offset`, or `None` if no CIE begins there. Stores in `state`, as
/// the initial rules, the rules that the CIE's program leaves: the programs of this CIE's FDEs
/// begin with them. The search tries the indices `near` and `near + 1` first. If it finds the CIE,
/// it sets `near` to the CIE's index.
pub fn set_rules_of_cie<'a>(
    state: &mut UnwindState,
    cies: &[CommonInformationEntry<'a>],
    initial: &InitialRules,
    near: &mut usize,
    offset: u64,
) -> Option<CommonInformationEntry<'a>>
    requires order { Ascends cie_offset (map cie_of cies.now) }
    requires left { AreLeftBy (map cie_of cies.now) initial.now }
    ensures cie { option_map cie_of result ≡ cie_at (map cie_of cies.now) offset }
    ensures first { IfSome result (λ cie. IsLeftBy (cie_of cie) state.new.initial_rules) }
{
    let place = place_near(cies, *near, offset)?;
    *near = place;
    state.set_initial_rules(initial, place);
    Some(cies[place])
}

/// Finds the CIE that begins at `offset`, and returns its index in `cies`, or `None` if no CIE begins
/// there. Stores in `state`, as the initial rules, the rules that the CIE's program leaves. `last` is
/// the index of the previous FDE's CIE, whose rules `state` has, or `None` for the first FDE. If that
/// CIE or the one after it begins at `offset`, no binary search is needed.
#[inline(always)]
pub fn set_rules_after(
    state: &mut UnwindState,
    cies: &[CommonInformationEntry<'_>],
    initial: &InitialRules,
    last: Option<usize>,
    offset: u64,
) -> Option<usize>
    requires order { Ascends cie_offset (map cie_of cies.now) }
    requires left { AreLeftBy (map cie_of cies.now) initial.now }
    requires last { IfSome last (λ place. IsLeftAt (map cie_of cies.now) place state.old.initial_rules) }
    ensures cie { MatchOption result
        (cie_at (map cie_of cies.now) offset ≡ None)
        (λ place. (place < length cies.now)
        × (cie_at (map cie_of cies.now) offset ≡ slice_get (map cie_of cies.now) place)) }
    ensures first { IfSome result (λ place. IsLeftAt (map cie_of cies.now) place state.new.initial_rules) }
{
    let near = match last {
        Some(place) => place,
        None => 0,
    };
    let place = place_near(cies, near, offset)?;
    if last != Some(place) {
        state.set_initial_rules(initial, place);
    }
    Some(place)
}
