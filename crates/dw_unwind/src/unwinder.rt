//! The trait `Unwinder`, for types that can find the caller of a frame.

ghost use Rattle.std.specs.Prelude.{ℕ, IfOk, IfSome, OnErr, Some, option_map};
ghost use Rattle.dw_rules.specs.Abi.{abi_of};
ghost use Rattle.dw_rules.specs.AbiViews.{roles_of};
ghost use Rattle.dw_unwind.specs.CallerFits.{CallerFits};
ghost use Rattle.dw_unwind.specs.Contents.{UnwindsTo, contents_in};
ghost use Rattle.dw_unwind.specs.MissingPlaces.{LacksPlace};
ghost use Rattle.dw_unwind.specs.UnwoundViews.{caller_with};

use crate::caller_contents::{NoPlace, contents_by};
use crate::register_file::RegisterFile;
use crate::register_list::RegisterList;
use crate::unwind_rows::UnwindRows;
use crate::unwinding::{Unwound, unwind_into};
use dw_eval::{Memory, Registers};
use dw_rules::Abi;

/// Finds the caller of a frame, for `unwind`, `backtrace` and `Walk`. It is implemented by a
/// checked section (as `&CheckedFrame`), by a compiled table or another source of rows (as
/// `&UnwindTable`), and by the modules of a process (as `&[Module<T>]`). Other crates can't
/// implement this trait: it writes registers to a `RegisterList`, which is private to this crate.
pub trait Unwinder {
    ghost use Rattle.std.specs.Prelude.{ℕ, Option};
    ghost use Rattle.dw_rules.specs.Abi.{Abi};
    ghost use Rattle.dw_unwind.specs.Walks.{CallerRelation};

    /// Which caller a frame has, under an ABI and with this memory: a relation between the frame's
    /// registers, the address looked up for the frame, and the caller, which is none if no FDE
    /// covers the address.
    ghost unwinds: { Self → Abi → (ℕ → Option ℕ) → CallerRelation };

    /// Whether a number is a bound of addresses: a number that is 2^w or more, w being the size of
    /// an address in bits. All numbers of a caller are below each bound.
    ghost is_bound: { Self → ℕ → Type 0 };

    /// Finds the caller of the frame at `address`, and replaces the contents of `into` by the
    /// caller's registers. If there is no caller, the contents of `into` are unspecified.
    fn unwind_into<R: Registers, M: Memory, L: RegisterList>(
        &self,
        abi: &Abi,
        address: u64,
        registers: &R,
        memory: &M,
        into: &mut L,
    ) -> Option<Unwound>
        ensures unwinds { unwinds self.now (roles_of abi.now) (M.bytes memory.now)
            (R.contents registers.now) address
            (option_map (caller_with (L.registers into.new)) result) }
        ensures fits { (bound : ℕ) → is_bound self.now bound
            → IfSome (option_map (caller_with (L.registers into.new)) result) (CallerFits bound) };

    /// Finds the caller of the frame at `address` under the ABI with the callee-saved registers
    /// `kept` and the stack pointer `stack_pointer`. The contents of the caller's registers replace
    /// what is in `into`. If there is no caller, or one of its registers has a content but no
    /// place, what is in `into` is unspecified.
    fn contents_into<R: Registers, M: Memory>(
        &self,
        kept: &[u16],
        stack_pointer: Option<u16>,
        address: u64,
        registers: &R,
        memory: &M,
        into: &mut RegisterFile,
    ) -> Result<Option<Unwound>, NoPlace>
        ensures contents { IfOk result (λ unwound. UnwindsTo
            (unwinds self.now (abi_of kept.now stack_pointer) (M.bytes memory.now))
            (R.contents registers.now) (Some address) unwound (contents_in into.new)) }
        ensures no_place { OnErr result (LacksPlace
            (unwinds self.now (abi_of kept.now stack_pointer) (M.bytes memory.now))
            (R.contents registers.now) (Some address)) };
}

/// Unwinds with a compiled table, or anything else that can look up rows.
impl<'r, T: UnwindRows> Unwinder for &'r T {
    ghost use Rattle.std.specs.Prelude.{◌≤◌, ◌^◌};
    ghost use Rattle.dw_eval.specs.Numbers.{width_of};
    ghost use Rattle.dw_unwind.specs.Walks.{over_rows};

    ghost unwinds = { λ r. over_rows (T.target_of r.now) (T.finds r.now) };

    ghost is_bound = { λ r bound. 2 ^ width_of (T.target_of r.now).address_size ≤ bound };

    #[inline(always)]
    fn unwind_into<R: Registers, M: Memory, L: RegisterList>(
        &self,
        abi: &Abi,
        address: u64,
        registers: &R,
        memory: &M,
        into: &mut L,
    ) -> Option<Unwound> {
        unwind_into(*self, abi, address, registers, memory, into)
    }

    #[inline(never)]
    fn contents_into<R: Registers, M: Memory>(
        &self,
        kept: &[u16],
        stack_pointer: Option<u16>,
        address: u64,
        registers: &R,
        memory: &M,
        into: &mut RegisterFile,
    ) -> Result<Option<Unwound>, NoPlace> {
        contents_by(*self, kept, stack_pointer, address, registers, memory, into)
    }
}
