//! Laws of walks with cached rows: functions that do nothing, each with the law as its contract.

ghost use Rattle.std.specs.Prelude.{◌≡◌, ◌⊎◌, ℕ, Bool, IfSome, List, Option, Some};
ghost use Rattle.dw_eval.specs.World.{World};
ghost use Rattle.dw_rules.specs.Abi.{Abi};
ghost use Rattle.dw_rules.specs.Rules.{Row};
ghost use Rattle.dw_unwind.specs.Caller.{Caller, IsCaller};
ghost use Rattle.dw_unwind.specs.Walks.{AreFrames, Place, WalkedFrame, over_rows};
ghost use Rattle.dw_cached_rows.specs.CachedRows.{AreRowsOf, GivesAt, HasRulesAt, HasRulesOf, Holds, IsKept, KnowsItsAddress, LeadsTo, LeadsToAt};
ghost use Rattle.dw_cached_rows.specs.CachedWalks.{over_cached, x86_64};
ghost use Rattle.dw_cached_rows.specs.PackedRows.{little_64};
ghost use Rattle.dw_cached_rows.specs.declared.packed_row.PackedRow.{PackedRow};

use dw_unwind::UnwindRows;

/// If each row that a cache has for a confirmed module has the rules of the row that a look-up finds
/// at its address, then the frames of a walk with the cache are those of a walk with the look-up.
pub fn walks_are_those_over_look_ups<T: UnwindRows>()
    ensures { (source : T) (rows : List PackedRow) (confirmed : ℕ) (memory : ℕ → Option ℕ)
        (from : Option Place) (frames : List WalkedFrame)
        → T.target_of source ≡ little_64 → LeadsTo (T.finds source) rows confirmed
        → AreFrames (over_cached rows confirmed memory) from frames
        → AreFrames (over_rows little_64 (T.finds source) x86_64 memory) from frames }
{}

/// The same where the cache also has rows of procedure linkage tables and of realigned stacks, which
/// give at their addresses what the rows give that are looked up: from a place on at which rip has the
/// address of the frame, the frames are those of a walk with the look-up.
pub fn walks_from_known_addresses_are_those_over_look_ups<T: UnwindRows>()
    ensures { (source : T) (rows : List PackedRow) (confirmed : ℕ) (memory : ℕ → Option ℕ)
        (from : Option Place) (frames : List WalkedFrame)
        → T.target_of source ≡ little_64 → LeadsToAt (T.finds source) rows confirmed
        → IfSome from KnowsItsAddress → AreFrames (over_cached rows confirmed memory) from frames
        → AreFrames (over_rows little_64 (T.finds source) x86_64 memory) from frames }
{
    dw_rules::laws::rules_under_abis();
}

/// A row with the rules of another one at an address gives, in each frame for which the address is
/// looked up, the callers of the other.
pub fn rows_with_the_same_rules_at_an_address_give_the_same_callers()
    ensures { (address : ℕ) (one other : Row) → HasRulesAt address one other
        → GivesAt address one other }
{}

/// If each row of a cache has the rules of the row that its module has at the address, or gives there
/// what that row gives, and a row is kept that its module has, this still holds of each row.
pub fn rows_stay_those_of_their_modules<T: UnwindRows>()
    ensures { (module_of : ℕ → T) (old new : List PackedRow) (slot address column : ℕ) (row : Row)
        (is_signal : Bool)
        → T.finds (module_of slot) address (Some (row, column))
        → AreRowsOf (λ slot. T.finds (module_of slot)) old
        → ((other at : ℕ) (held : Row) → Holds new other at held
        → Holds old other at held ⊎ IsKept slot address row column is_signal other at held)
        → AreRowsOf (λ slot. T.finds (module_of slot)) new }
{}

/// Rows with the same rules give the same callers, whatever addresses they cover.
pub fn rows_with_the_same_rules_give_the_same_callers()
    ensures { (e : World) (abi : Abi) (column : ℕ) (one other : Row) (caller : Caller)
        → HasRulesOf one other → IsCaller e abi column one caller
        → IsCaller e abi column other caller }
{}
