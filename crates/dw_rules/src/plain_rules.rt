//! The rules of a row that only says where registers are saved.

ghost use Rattle.std.specs.Prelude.{◌≡◌, ◌<◌, ◌∷◌, ◌++◌, [], All, IfSome, MatchOption, map};
ghost use Rattle.std.specs.Bool.{OnTrue};
ghost use Rattle.dw_rules.specs.SavedRules.{ArePlain, as_saved};
ghost use Rattle.dw_rules.specs.Views.{entries_of};

use crate::register_rules::{RuleEntry, RuleKind};
use std::marker::Model;

/// The rules of a row that only says where registers are saved, as pairs of a register and the
/// offset from the CFA at which its content is saved, in ascending order of registers. So they are
/// used without a match for each. `UnwindRow::plain_rules` gives them.
///
/// ```rust
/// if let Some(plain) = row.plain_rules(96) {
///     for (register, offset) in plain {
///         println!(rt; "register {} is saved at the CFA plus {}", register, offset)?;
///     }
/// }
/// ```
#[derive(Debug, Drop)]
pub struct PlainRules<'t> {
    entries: &'t [RuleEntry],
}

impl<'t> Model for PlainRules<'t> {
    ghost use Rattle.std.specs.Prelude.{List, map};
    ghost use Rattle.dw_rules.specs.SavedRules.{Saved, saved_of};

    ghost Value = { List Saved };

    ghost view = { λ p. map saved_of p.entries.now };
}

/// Whether each rule says that a register below `limit` is saved relative to the CFA.
fn are_plain(entries: &[RuleEntry], limit: u16) -> bool
    ensures { OnTrue result (ArePlain entries.now limit) }
{
    for entry in entries {
        let RuleKind::Offset = entry.kind else {
            return false;
        };
        if entry.register >= limit {
            return false;
        }
    }
    true
}

/// A number that is above all registers of the entries, if each says that its register is saved
/// relative to the CFA. 0 if one says anything else, if there are no entries, or if there is no
/// such number.
pub(crate) fn plain_below(entries: &[RuleEntry]) -> u16
    ensures { 0 < result → ArePlain entries.now result }
{
    let Some(last) = entries.last() else {
        return 0;
    };
    // Entries are in ascending order of registers.
    let Some(limit) = last.register.checked_add(1) else {
        return 0;
    };
    if are_plain(entries, limit) {
        return limit;
    }
    0
}

impl<'t> PlainRules<'t> {
    /// The rules of these entries. Each of them is of the kind `Offset`, for a register below
    /// `below`.
    #[inline(always)]
    pub(crate) fn known(entries: &'t [RuleEntry], below: u16) -> Self
        requires { ArePlain entries.now below }
        ensures rules { entries_of entries.now ≡ map as_saved result }
        ensures below { All (λ saved. saved.0 < below) result }
    {
        PlainRules { entries }
    }

    /// The rules of these entries, if each is of the kind `Offset`, for a register below `limit`.
    pub fn of(entries: &'t [RuleEntry], limit: u16) -> Option<Self>
        ensures rules { IfSome result (λ plain. entries_of entries.now ≡ map as_saved plain) }
        ensures below { IfSome result (All (λ saved. saved.0 < limit)) }
    {
        if are_plain(entries, limit) {
            return Some(PlainRules { entries });
        }
        None
    }

    /// The last rule, which is that of the greatest register, and the rules before it. None if
    /// there are no rules.
    #[inline(always)]
    pub fn split_last(&self) -> Option<((u16, i64), PlainRules<'t>)>
        ensures { MatchOption result (self.now ≡ []) (λ split. self.now ≡ split.1 ++ split.0 ∷ []) }
    {
        match self.entries {
            [] => None,
            [others @ .., last] => {
                Some(((last.register, last.offset), PlainRules { entries: others }))
            }
        }
    }

    /// The same rules once more.
    #[inline(always)]
    pub fn again(&self) -> PlainRules<'t>
        ensures { result ≡ self.now }
    {
        PlainRules {
            entries: self.entries,
        }
    }
}

impl<'t> Iterator for PlainRules<'t> {
    type Item = (u16, i64);

    ghost use Rattle.std.specs.Iterator.{YieldsFirstBy, item_count};

    ghost next_gives = { YieldsFirstBy (λ saved. saved) (λ p. p) };

    ghost remaining = { item_count (λ p. p) };

    #[inline(always)]
    fn next(&mut self) -> Option<(u16, i64)> {
        match self.entries {
            [] => None,
            [entry, left @ ..] => {
                self.entries = left;
                Some((entry.register, entry.offset))
            }
        }
    }
}
